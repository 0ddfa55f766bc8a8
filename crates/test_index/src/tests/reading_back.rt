//! Tests of index maps and index sets that are read back into lists.

use crate::tests::archives::{no_pairs, one_key_twice, wide_pair};
use crate::tests::opened::key_set;
use crate::tests::writing::set_archive;
use rkyv_base::{Narrow, Wide, access_in};
use rkyv_index::map::laws::pairs_read_back_are_listed;
use rkyv_index::round_trip::{items_round_trip, pairs_round_trip};
use rkyv_index::set::laws::items_read_back_are_listed;
use rkyv_index::{ArchivedIndexMap, IndexMapOf, IndexWidth, OrderedItems, OrderedPairs};
use rkyv_scan::FxHasher64;
use std::alloc::Global;
use std::test::Fail;
use test_support::archives::{four_entries, one_index_key};

// Returns the pairs in the archive of an index map, if it is valid and no allocation fails.
fn read<W: IndexWidth>(alloc: Global, bytes: &[u8]) -> Option<Vec<(i8, i8)>> {
    match access_in::<W, IndexMapOf<i8, i8, FxHasher64, W>>(bytes) {
        Ok(root) => ArchivedIndexMap::of(root).deserialize_pairs(alloc).ok(),
        Err(_) => None,
    }
}

// Returns whether these are exactly the pairs in the archive.
fn is_read<W: IndexWidth>(alloc: Global, bytes: &[u8], pairs: &[(i8, i8)]) -> bool {
    match read::<W>(alloc, bytes) {
        Some(list) => list.as_slice() == pairs,
        None => false,
    }
}

#[test]
fn pairs_are_read_back_in_their_order(rt: HostRuntime) {
    pairs_read_back_are_listed::<i8, i8, i8, i8, FxHasher64, Narrow>();
    let alloc = rt.alloc();
    expect_eq!(rt; is_read::<Narrow>(alloc, &four_entries(), &[(1, 2), (3, 4), (5, 6), (7, 8)]),
        true);
    expect_eq!(rt; is_read::<Narrow>(alloc, &one_key_twice(), &[(1, 2), (1, 9)]), true);
    expect_eq!(rt; is_read::<Narrow>(alloc, &no_pairs(), &[]), true);
    expect_eq!(rt; is_read::<Wide>(alloc, &wide_pair(), &[(1, 2)]), true);
    expect_eq!(rt; is_read::<Narrow>(alloc, &four_entries(), &[(1, 2), (3, 4), (7, 8), (5, 6)]),
        false);
}

// Returns the items in the archive of an index set, if it is valid and no allocation fails.
fn items(alloc: Global, bytes: &[u8]) -> Option<Vec<i8>> {
    key_set(bytes).ok()?.deserialize_items(alloc).ok()
}

// Returns whether these are exactly the items in the archive.
fn are_items(alloc: Global, bytes: &[u8], expected: &[i8]) -> bool {
    matches!(items(alloc, bytes), Some(list) if list.as_slice() == expected)
}

#[test]
fn items_are_read_back_in_their_order(rt: HostRuntime) -> Result<(), Fail> {
    items_read_back_are_listed::<i8, i8, FxHasher64, Narrow>();
    let alloc = rt.alloc();
    let written = set_archive(alloc, &[4, 1, 3])?;
    let equal = set_archive(alloc, &[1, 1])?;
    expect_eq!(rt; are_items(alloc, written.as_slice(), &[4, 1, 3]), true);
    expect_eq!(rt; are_items(alloc, &one_index_key(), &[1]), true);
    expect_eq!(rt; are_items(alloc, &no_pairs(), &[]), true);
    expect_eq!(rt; are_items(alloc, equal.as_slice(), &[1, 1]), true);
    expect_eq!(rt; are_items(alloc, written.as_slice(), &[1, 3, 4]), false);
    Ok(())
}

// Returns whether the list of these names is the same after a round trip through a wide archive.
fn names_round_trip(alloc: Global, first: &str, second: &str) -> Option<bool> {
    let first = String::from_str(alloc, first).ok()?;
    let second = String::from_str(alloc, second).ok()?;
    let names = OrderedItems(vec![in alloc; first, second].ok()?);
    items_round_trip::<Wide, String>(alloc, &names).ok()
}

// Returns whether a list of pairs, two of them with one key, is the same after a narrow round trip.
fn numbers_round_trip(alloc: Global) -> Option<bool> {
    let pairs = OrderedPairs(vec![in alloc; (3i8, 4i8), (1, 2), (3, 5)].ok()?);
    pairs_round_trip::<Narrow, i8, i8>(alloc, &pairs).ok()
}

#[test]
fn lists_round_trip(rt: HostRuntime) {
    let alloc = rt.alloc();
    expect_eq!(rt; names_round_trip(alloc, "main", "a name of more than eight bytes"), Some(true));
    expect_eq!(rt; numbers_round_trip(alloc), Some(true));
}
