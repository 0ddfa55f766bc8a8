//! Overwrites of values in index maps.

ghost use Rattle.ffi_calls.specs.{IsIndexArchive, KeepsHeader, Overwrites, SetsFirstIndexed};
ghost use Rattle.ffi_calls.specs.{index_in, query_of_key, value_found_in};

use crate::archives::root_of;
use crate::map_lookup::status_of;
use crate::status::VALUE_TOO_LARGE;
use crate::value::Value;
use rkyv_base::Represents;
use rkyv_index::map::in_place::set_value_of;
use rkyv_index::{IndexMapOf, IndexWidth};
use rkyv_keys::{KeyElement, NativeKey};
use rkyv_scan::FxHasher64;

/// Looks up a key in a valid archive, and overwrites its value in place.
///
/// # Errors
///
/// - `VALUE_TOO_LARGE`: the value has more bits than the values of the map.
/// - `NOT_FOUND`: the lookup doesn't find the key.
///
/// After an error no byte is changed.
pub(crate) fn set_indexed_in<
    A: NativeKey<K>,
    K: KeyElement + Represents<A>,
    V: Value,
    W: IndexWidth,
>(archive: &mut [u8], key: &A, value: u64) -> u32
    requires { IsIndexArchive W.word W.LIMIT K.spec V.spec archive.old }
    ensures kept { IsIndexArchive W.word W.LIMIT K.spec V.spec archive.new }
    ensures header { KeepsHeader (index_in W.word K.spec V.spec archive.old)
        (index_in W.word K.spec V.spec archive.new) }
    ensures sets { Overwrites V.encoding archive.old
        (value_found_in (index_in W.word K.spec V.spec archive.old) (A.calls key.now)
        (A.fits key.now archive.old)) value result archive.new }
    ensures listed { SetsFirstIndexed (index_in W.word K.spec V.spec archive.old)
        (query_of_key K.represents K.key_calls (A.eq key.now)) V.encoding value result archive.new }
{
    let Some(number) = V::of_number(value) else {
        return VALUE_TOO_LARGE;
    };
    let root = root_of::<IndexMapOf<K, V, FxHasher64, W>, W>(&*archive);
    let found = set_value_of::<A, K, V, FxHasher64, W>(archive, root, key, number);
    status_of(found)
}
