//! Archives of lists of pairs, and of four pairs with other buckets.

use rkyv_base::{Narrow, NoMemory, Serialize, VecWriter, WriteError, to_bytes};
use rkyv_collections::MapPairs;
use rkyv_keys::{KeyElement, NativeKey};
use std::alloc::Global;
use std::process::Abort;
use test_support::archives::four_pairs;
use test_support::changes::with_bytes;

/// Returns the narrow archive of a list of pairs, as a map.
pub fn map_archive<A: Serialize<VecWriter, Narrow>, B: Serialize<VecWriter, Narrow>>(
    alloc: Global,
    pairs: &[(A, B)],
) -> Result<Vec<u8>, WriteError<NoMemory>>
where
    A::Archived: KeyElement,
    A: NativeKey<A::Archived>,
{
    let list: MapPairs<'_, A, B> = MapPairs::new(pairs);
    to_bytes(alloc, &list)
}

/// Does the same with a list of pairs of texts.
pub(crate) fn text_archive(
    alloc: Global,
    pairs: &[(&str, &str)],
) -> Result<Vec<u8>, WriteError<NoMemory>> {
    map_archive(alloc, pairs)
}

/// Returns whether the narrow archive of a list of pairs, as a map, has these bytes.
pub fn is_map_archive<A: Serialize<VecWriter, Narrow>, B: Serialize<VecWriter, Narrow>>(
    alloc: Global,
    pairs: &[(A, B)],
    bytes: &[u8],
) -> bool
where
    A::Archived: KeyElement,
    A: NativeKey<A::Archived>,
{
    matches!(map_archive(alloc, pairs), Ok(archive) if archive.as_slice() == bytes)
}

/// Compares an archive with that of the four pairs with other buckets.
pub(crate) fn expect_four_with(rt: &impl Abort, bytes: &[u8; 56], buckets: [u8; 10]) {
    expect_eq!(*rt; *bytes, with_bytes(four_pairs(), 0, &buckets));
}
