//! Lookups of keys in any collection, by the codes of its contents.

ghost use Rattle.ffi_calls.specs.{CanLookUp, IsArchiveOfTypes, IsHandleOf, IsHeaderOf};
ghost use Rattle.ffi_calls.specs.{IsLookedUp, LooksUp, LooksUpIn, StoresLookups, collection_at};
ghost use Rattle.ffi_calls.specs.{index_width, key_members, types_by, types_in, types_of};
ghost use Rattle.ffi_calls.specs.{value_members};

use crate::any_value::{AnyValue, IndexedValue, LookedUp};
use crate::collection::{Collection, Handle, collection_at};
use crate::status::{DONE, NOT_FOUND};
use crate::types::{KeyFrom, Operation, StoredKey, StoredValue, ValueFrom, dispatch};
use crate::{index, map_lookup};
use rkyv_index::IndexWidth;
use rkyv_table::table::decoded::Decoded;

/// Looks up a key, and returns its value and its index, or `None` if the lookup doesn't find it.
///
/// # Errors
///
/// - `VALUE_TOO_LARGE`: the keys are numbers or characters, and none has the number of `key`.
/// - `NOT_TEXT`: the keys are texts, and the bytes of `key` aren't UTF-8.
#[inline]
fn find_key<
    'a,
    A: KeyFrom<AnyValue<'a>, K, W>,
    B: ValueFrom<AnyValue<'a>, V, W>,
    K: StoredKey<A>,
    V: StoredValue<B>,
    W: IndexWidth,
>(
    archive: &'a [u8],
    indexed: bool,
    header: &Decoded,
    key: AnyValue<'a>,
) -> Result<Option<IndexedValue<'a>>, u32>
    requires archive { IsArchiveOfTypes (types_by indexed
        (index_width W.Width W.Index.spec W.Index.encoding)
        (key_members A.KeyFrom K.StoredKey) (value_members B.ValueFrom V.StoredValue))
        archive.now }
    requires header { IsHeaderOf (types_in (types_by indexed
        (index_width W.Width W.Index.spec W.Index.encoding)
        (key_members A.KeyFrom K.StoredKey) (value_members B.ValueFrom V.StoredValue))
        archive.now) header.now }
    ensures { LooksUpIn (types_by indexed
        (index_width W.Width W.Index.spec W.Index.encoding)
        (key_members A.KeyFrom K.StoredKey) (value_members B.ValueFrom V.StoredValue))
        archive.now key.entry result }
{
    let key = match A::from_any(key) {
        Ok(key) => key,
        Err(status) => return Err(status),
    };
    if indexed {
        Ok(index::find_in::<A, B, K, V, W>(archive, header, &key))
    } else {
        Ok(map_lookup::find_in::<A, B, K, V, W>(archive, header, &key))
    }
}

/// Looks up the key in `lookup`, and stores its result in place.
///
/// It has the errors of `get`.
#[inline]
fn look_up<
    'a,
    A: KeyFrom<AnyValue<'a>, K, W>,
    B: ValueFrom<AnyValue<'a>, V, W>,
    K: StoredKey<A>,
    V: StoredValue<B>,
    W: IndexWidth,
>(archive: &'a [u8], indexed: bool, header: &Decoded, lookup: &mut LookedUp<'a>)
    requires archive { IsArchiveOfTypes (types_by indexed
        (index_width W.Width W.Index.spec W.Index.encoding)
        (key_members A.KeyFrom K.StoredKey) (value_members B.ValueFrom V.StoredValue))
        archive.now }
    requires header { IsHeaderOf (types_in (types_by indexed
        (index_width W.Width W.Index.spec W.Index.encoding)
        (key_members A.KeyFrom K.StoredKey) (value_members B.ValueFrom V.StoredValue))
        archive.now) header.now }
    ensures { IsLookedUp (types_by indexed
        (index_width W.Width W.Index.spec W.Index.encoding)
        (key_members A.KeyFrom K.StoredKey) (value_members B.ValueFrom V.StoredValue))
        archive.now lookup.old lookup.new }
{
    match find_key::<A, B, K, V, W>(archive, indexed, header, lookup.found.value) {
        Ok(Some(found)) => {
            lookup.status = DONE;
            lookup.found = found;
        }
        Ok(None) => lookup.status = NOT_FOUND,
        Err(status) => lookup.status = status,
    }
}

/// Looks up the keys in `lookups`, and stores their results in place.
fn find_keys<
    'a,
    A: KeyFrom<AnyValue<'a>, K, W>,
    B: ValueFrom<AnyValue<'a>, V, W>,
    K: StoredKey<A>,
    V: StoredValue<B>,
    W: IndexWidth,
>(archive: &'a [u8], indexed: bool, header: &Decoded, lookups: &mut [LookedUp<'a>])
    requires archive { IsArchiveOfTypes (types_by indexed
        (index_width W.Width W.Index.spec W.Index.encoding)
        (key_members A.KeyFrom K.StoredKey) (value_members B.ValueFrom V.StoredValue))
        archive.now }
    requires header { IsHeaderOf (types_in (types_by indexed
        (index_width W.Width W.Index.spec W.Index.encoding)
        (key_members A.KeyFrom K.StoredKey) (value_members B.ValueFrom V.StoredValue))
        archive.now) header.now }
    ensures { StoresLookups (types_by indexed
        (index_width W.Width W.Index.spec W.Index.encoding)
        (key_members A.KeyFrom K.StoredKey) (value_members B.ValueFrom V.StoredValue))
        archive.now lookups.old lookups.new }
{
    // Behind this copy no write of a result changes the header, so it is read once.
    let copy = *header;
    for count in 0..lookups.len() {
        look_up::<A, B, K, V, W>(archive, indexed, &copy, &mut lookups[count]);
    }
}

/// Lookups of keys.
#[derive(Clone, Copy)]
pub(crate) struct Lookups<'a> {
    archive: &'a [u8],
    header: &'a Decoded,
}

impl<'a> Operation<AnyValue<'a>, LookedUp<'a>> for Lookups<'a> {
    type Out = ();

    ghost pre = { CanLookUp };

    ghost post = { LooksUp };

    #[inline(always)]
    fn run<
        A: KeyFrom<AnyValue<'a>, K, W>,
        B: ValueFrom<AnyValue<'a>, V, W>,
        K: StoredKey<A>,
        V: StoredValue<B>,
        W: IndexWidth,
    >(self, indexed: bool, out: &mut [LookedUp<'a>]) {
        find_keys::<A, B, K, V, W>(self.archive, indexed, self.header, out)
    }
}

/// Looks up keys of a collection, and stores their results in place.
#[inline(always)]
fn find_of<'a>(archive: &'a [u8], of: Collection, header: &'a Decoded, lookups: &mut [LookedUp<'a>])
    requires archive { IsArchiveOfTypes (types_of of) archive.now }
    requires header { IsHeaderOf (types_in (types_of of) archive.now) header.now }
    ensures { StoresLookups (types_of of) archive.now lookups.old lookups.new }
{
    dispatch(of, Lookups { archive, header }, lookups)
}

/// Looks up keys of a collection, each in `found.value`, and stores their results there.
///
/// A result is a status, and the value and the index of the pair. A set has the unit value. The
/// index is 0 in a hash map and in a hash set.
///
/// # Requires
///
/// - `handle` is a handle of the archive.
///
/// # Errors
///
/// The status is `DONE`, or one of these. Then `found` is unchanged.
///
/// - `VALUE_TOO_LARGE`: the keys are numbers or characters, and none has the number of the key.
/// - `NOT_TEXT`: the keys are texts, and the bytes of the key aren't UTF-8.
/// - `NOT_FOUND`: the lookup doesn't find the key.
#[inline]
pub fn get<'a>(archive: &'a [u8], handle: &'a Handle, lookups: &mut [LookedUp<'a>])
    requires { IsHandleOf archive.now handle.now }
    ensures { StoresLookups (types_of (collection_at handle.now)) archive.now lookups.old
        lookups.new }
{
    find_of(archive, collection_at(handle), &handle.header, lookups)
}
