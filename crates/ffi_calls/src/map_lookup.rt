//! Hash maps: the lookup of a key's value, and its overwrite in place.

ghost use Rattle.std.specs.Prelude.{IfSome, false, true, ◌≡◌};
ghost use Rattle.rkyv_base.specs.{Viewable};
ghost use Rattle.ffi_calls.specs.{FindsFirstValue, FindsValue, IsHeaderOf, IsMapArchive};
ghost use Rattle.ffi_calls.specs.{KeepsHeader, Overwrites, PosOfFirst, SetsFirstOf, map_in};
ghost use Rattle.ffi_calls.specs.{query_of_key, value_found};

use crate::any_value::IndexedValue;
use crate::archives::{map_of, root_of};
use crate::status::{DONE, NOT_FOUND, VALUE_TOO_LARGE};
use crate::types::StoredValue;
use crate::value::Value;
use rkyv_base::{Represents, View, Width, found_pos};
use rkyv_collections::map::in_place::set_value_of;
use rkyv_collections::map::laws::lookups_find_listed;
use rkyv_collections::{FxHasher64, HashMapOf, KeyElement, NativeKey};
use rkyv_table::table::decoded::Decoded;

/// Returns the position of the value that a lookup of the key finds in a valid archive.
#[inline]
pub(crate) fn value_pos_in<
    A: NativeKey<K>,
    B,
    K: KeyElement + Represents<A>,
    V: Represents<B>,
    W: Width,
>(archive: &[u8], header: &Decoded, key: &A) -> Option<u64>
    requires archive { IsMapArchive W.word W.LIMIT K.spec V.spec archive.now }
    requires header { IsHeaderOf (map_in W.word K.spec V.spec archive.now) header.now }
    ensures viewable { IfSome result (Viewable V.spec archive.now) }
    ensures found { result ≡ value_found (map_in W.word K.spec V.spec archive.now)
        (A.calls key.now) (A.fits key.now archive.now) }
    ensures listed { PosOfFirst (map_in W.word K.spec V.spec archive.now)
        (query_of_key K.represents K.key_calls (A.eq key.now)) V.represents result }
{
    lookups_find_listed::<A, B, K, V, FxHasher64, W>();
    found_pos(map_of::<K, V, W>(archive, header).get(key))
}

/// Looks up a key in a valid archive, by its decoded header, and returns its value.
///
/// The index is 0. Returns `None` if the lookup doesn't find the key.
#[inline]
pub(crate) fn find_in<
    'a,
    A: NativeKey<K>,
    B,
    K: KeyElement + Represents<A>,
    V: StoredValue<B>,
    W: Width,
>(archive: &'a [u8], header: &Decoded, key: &A) -> Option<IndexedValue<'a>>
    requires archive { IsMapArchive W.word W.LIMIT K.spec V.spec archive.now }
    requires header { IsHeaderOf (map_in W.word K.spec V.spec archive.now) header.now }
    ensures finds { FindsValue (V.any archive.now)
        (value_found (map_in W.word K.spec V.spec archive.now) (A.calls key.now)
        (A.fits key.now archive.now)) result }
    ensures first { FindsFirstValue (map_in W.word K.spec V.spec archive.now)
        (query_of_key K.represents K.key_calls (A.eq key.now)) V.represents V.is_of result }
{
    match value_pos_in::<A, B, K, V, W>(archive, header, key) {
        Some(pos) => Some(IndexedValue {
            index: 0,
            value: V::to_any(View::new(archive, pos)),
        }),
        None => None,
    }
}

/// Returns `DONE` if a key is found, and `NOT_FOUND` if it isn't.
#[inline]
pub(crate) fn status_of(found: bool) -> u32
    ensures yes { found ≡ true → result ≡ 0 }
    ensures no { found ≡ false → result ≡ 1 }
{
    if found { DONE } else { NOT_FOUND }
}

/// Looks up a key in a valid archive, and overwrites its value in place.
///
/// # Errors
///
/// - `VALUE_TOO_LARGE`: the value has more bits than the values of the map.
/// - `NOT_FOUND`: the lookup doesn't find the key.
///
/// After an error no byte is changed.
pub(crate) fn set_in<A: NativeKey<K>, K: KeyElement + Represents<A>, V: Value, W: Width>(
    archive: &mut [u8],
    key: &A,
    value: u64,
) -> u32
    requires { IsMapArchive W.word W.LIMIT K.spec V.spec archive.old }
    ensures kept { IsMapArchive W.word W.LIMIT K.spec V.spec archive.new }
    ensures header { KeepsHeader (map_in W.word K.spec V.spec archive.old)
        (map_in W.word K.spec V.spec archive.new) }
    ensures sets { Overwrites V.encoding archive.old
        (value_found (map_in W.word K.spec V.spec archive.old) (A.calls key.now)
        (A.fits key.now archive.old)) value result archive.new }
    ensures listed { SetsFirstOf (map_in W.word K.spec V.spec archive.old)
        (query_of_key K.represents K.key_calls (A.eq key.now)) V.encoding value result archive.new }
{
    let Some(number) = V::of_number(value) else {
        return VALUE_TOO_LARGE;
    };
    let root = root_of::<HashMapOf<K, V, FxHasher64, W>, W>(&*archive);
    let found = set_value_of::<A, K, V, FxHasher64, W>(archive, root, key, number);
    status_of(found)
}
