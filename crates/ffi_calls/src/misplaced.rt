//! Counting the keys of a collection that a lookup of the key itself doesn't find.
//!
//! If the number is 0, lookups are complete: each finds the one equal key, or there is none.
//! All calls require a valid archive. Validation doesn't look up keys, so an untrusted archive may
//! have misplaced keys.

ghost use Rattle.std.specs.Prelude.{false, true};
ghost use Rattle.rkyv_base.specs.{IsValidArchive};
ghost use Rattle.ffi_calls.specs.{CanCount, CountsIn, CountsMisplaced, CountsTypes};
ghost use Rattle.ffi_calls.specs.{IsHandleOf, IsHeaderOf, IsIndexArchive, IsMapArchive};
ghost use Rattle.ffi_calls.specs.{collection_in, collection_spec, index_in};
ghost use Rattle.ffi_calls.specs.{key_type_calls, key_type_same, limit_of, map_in, root_in};
ghost use Rattle.ffi_calls.specs.{root_spec, word_of};

use crate::any_value::AnyValue;
use crate::archives::map_of;
use crate::collection::{Collection, Handle, collection_at};
use crate::index::index_of;
use crate::status::{DONE, LIMIT_REACHED};
use crate::types::{KeyFrom, Operation, StoredKey, StoredValue, ValueFrom, dispatch};
use rkyv_base::{Element, Width};
use rkyv_index::IndexWidth;
use rkyv_keys::KeyElement;
use rkyv_table::table::decoded::Decoded;

/// Returns the number of misplaced keys of the hash map in a valid archive, or `None` at the limit.
fn misplaced_in_map<K: KeyElement, V: Element, W: Width>(
    archive: &[u8],
    header: &Decoded,
    limit: u64,
) -> Option<usize>
    requires archive { IsMapArchive W.word W.LIMIT K.spec V.spec archive.now }
    requires header { IsHeaderOf (map_in W.word K.spec V.spec archive.now) header.now }
    ensures { CountsIn (map_in W.word K.spec V.spec archive.now) K.same K.key_calls false limit
        result }
{
    map_of::<K, V, W>(archive, header).misplaced_up_to(limit)
}

/// Returns the number of misplaced keys of the index map in a valid archive, or `None` at
/// the limit.
fn misplaced_in_index<K: KeyElement, V: Element, W: IndexWidth>(
    archive: &[u8],
    header: &Decoded,
    limit: u64,
) -> Option<usize>
    requires archive { IsIndexArchive W.word W.LIMIT K.spec V.spec archive.now }
    requires header { IsHeaderOf (index_in W.word K.spec V.spec archive.now) header.now }
    ensures { CountsIn (index_in W.word K.spec V.spec archive.now) K.same K.key_calls true limit
        result }
{
    index_of::<K, V, W>(archive, header).misplaced_up_to(limit)
}

/// Returns the number of misplaced keys, by whether the archive is of an index map.
fn misplaced_kind<K: KeyElement, V: Element, W: IndexWidth>(
    archive: &[u8],
    indexed: bool,
    header: &Decoded,
    limit: u64,
) -> Option<usize>
    requires archive { IsValidArchive W.LIMIT (root_spec indexed W.word K.spec V.spec) archive.now }
    requires header { IsHeaderOf (root_in indexed W.word K.spec V.spec archive.now) header.now }
    ensures { CountsIn (root_in indexed W.word K.spec V.spec archive.now) K.same K.key_calls
        indexed limit result }
{
    if indexed {
        misplaced_in_index::<K, V, W>(archive, header, limit)
    } else {
        misplaced_in_map::<K, V, W>(archive, header, limit)
    }
}

/// A count of misplaced keys.
#[derive(Clone, Copy)]
pub(crate) struct Counting<'a> {
    archive: &'a [u8],
    header: &'a Decoded,
    limit: u64,
}

impl<'a, 'b> Operation<AnyValue<'b>, u8> for Counting<'a> {
    type Out = Option<usize>;

    ghost pre = { CanCount };

    ghost post = { CountsTypes };

    #[inline]
    fn run<
        A: KeyFrom<AnyValue<'b>, K, W>,
        B: ValueFrom<AnyValue<'b>, V, W>,
        K: StoredKey<A>,
        V: StoredValue<B>,
        W: IndexWidth,
    >(self, indexed: bool, _out: &mut [u8]) -> Option<usize> {
        misplaced_kind::<K, V, W>(self.archive, indexed, self.header, self.limit)
    }
}

/// Returns the number of misplaced keys of a collection, or `None` at the limit.
fn misplaced_in_collection(
    archive: &[u8],
    of: Collection,
    header: &Decoded,
    limit: u64,
) -> Option<usize>
    requires archive { IsValidArchive (limit_of of.wide) (collection_spec of) archive.now }
    requires header { IsHeaderOf (collection_in of archive.now) header.now }
    ensures { CountsIn (collection_in of archive.now) (key_type_same (word_of of.wide) of.key)
        (key_type_calls (word_of of.wide) of.key) of.indexed limit result }
{
    let counting = Counting {
        archive,
        header,
        limit,
    };
    dispatch(of, counting, &mut [])
}

/// Stores the number of misplaced keys of a collection in `count`.
///
/// A key is misplaced if a lookup of the key itself finds another key that is the same, or none.
///
/// # Requires
///
/// - `handle` is a handle of the archive.
///
/// # Errors
///
/// - `LIMIT_REACHED`: the lookups of all keys read more than `limit` strides of sixteen control
///   bytes; `count` is unchanged then.
pub fn misplaced_up_to(archive: &[u8], handle: &Handle, limit: u64, count: &mut u64) -> u32
    requires { IsHandleOf archive.now handle.now }
    ensures { CountsMisplaced handle.now archive.now limit count.old result count.new }
{
    match misplaced_in_collection(archive, collection_at(handle), &handle.header, limit) {
        Some(misplaced) => {
            *count = misplaced as u64;
            DONE
        }
        None => LIMIT_REACHED,
    }
}
