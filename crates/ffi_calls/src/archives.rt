//! Archives: their validation, and the map in a valid one, whose header is decoded once.

ghost use Rattle.std.specs.Prelude.{length, ◌-◌, ◌≡◌};
ghost use Rattle.rkyv_base.specs.{IsValidArchive, Viewable};
ghost use Rattle.rkyv_collections.specs.{map_bytes, map_pos, map_root};
ghost use Rattle.ffi_calls.specs.{Explains, IsHeaderOf, IsMapArchive, map_in};

use crate::explanation::{Explanation, explain, explained};
use crate::status::DONE;
use rkyv_base::{Element, Width, access_in, access_unchecked};
use rkyv_collections::{ArchivedHashMap, FxHasher64, HashMapOf};
use rkyv_table::table::decoded::Decoded;

/// Validates an archive, and returns the first error, if there is one.
pub(crate) fn explain_root<T: Element, W: Width>(archive: &[u8]) -> Explanation
    ensures { Explains W.LIMIT T.spec archive.now result }
{
    match access_in::<W, T>(archive) {
        Ok(_) => explained(DONE, 0, 0, 0),
        Err(error) => explain(&error),
    }
}

/// Returns the position of the root of a valid archive.
#[inline]
pub(crate) fn root_of<T: Element, W: Width>(archive: &[u8]) -> u64
    requires { IsValidArchive W.LIMIT T.spec archive.now }
    ensures at { result ≡ length archive.now - T.spec.size }
    ensures viewable { Viewable T.spec archive.now result }
{
    access_unchecked::<T>(archive).pos()
}

/// Returns the decoded header of the map in a valid archive.
#[inline]
pub(crate) fn header_of<K: Element, V: Element, W: Width>(archive: &[u8]) -> Decoded
    requires { IsMapArchive W.word W.LIMIT K.spec V.spec archive.now }
    ensures { IsHeaderOf (map_in W.word K.spec V.spec archive.now) result }
{
    ArchivedHashMap::of(access_unchecked::<HashMapOf<K, V, FxHasher64, W>>(archive)).header()
}

/// Returns the map in a valid archive, by its decoded header.
#[inline]
pub(crate) fn map_of<'a, K: Element, V: Element, W: Width>(
    archive: &'a [u8],
    header: &Decoded,
) -> ArchivedHashMap<'a, K, V, FxHasher64, W>
    requires archive { IsMapArchive W.word W.LIMIT K.spec V.spec archive.now }
    requires header { IsHeaderOf (map_in W.word K.spec V.spec archive.now) header.now }
    ensures bytes { map_bytes result ≡ archive.now }
    ensures pos { map_pos result ≡ map_root W.word K.spec V.spec archive.now }
{
    let root = access_unchecked::<HashMapOf<K, V, FxHasher64, W>>(archive);
    ArchivedHashMap::with_header(root, *header)
}
