//! Tests of lists of items that are archived as sets.

use crate::tests::opened::key_set;
use crate::tests::round_trip::prints;
use rkyv_base::{NoMemory, VerifyError, WriteError, to_bytes};
use rkyv_collections::lists::laws::{
    item_clones_are_the_same, item_lists_are_compared, pair_clones_are_the_same,
    pair_lists_are_compared,
};
use rkyv_collections::{MapPairs, SetItems};
use rkyv_scan::FxHasher64;
use std::alloc::Global;
use std::collections::HashSet;
use std::hash::BuildHasherDefault;
use std::test::Fail;
use test_support::archives::{archive, one_pair, three_keys};

// Returns the archive of a list of items, as a set.
fn archive_of(alloc: Global, items: SetItems<'_, u8>) -> Result<Vec<u8>, WriteError<NoMemory>> {
    to_bytes(alloc, &items)
}

// Returns the length of an archived set, the number of items in a walk, and whether it has 1 and 4.
fn read(bytes: &[u8]) -> Result<(usize, usize, [bool; 2]), VerifyError> {
    let set = key_set(bytes)?;
    let mut walked = 0usize;
    for _ in set.iter() {
        walked = walked.wrapping_add(1);
    }
    let has = [set.contains(&1u8), set.contains(&4u8)];
    Ok((set.len(), walked, has))
}

// Returns whether the archive of a list is `archive`, and the results of `read` for it.
fn written_and_read(
    alloc: Global,
    items: SetItems<'_, u8>,
    archive: &[u8],
) -> Option<(bool, (usize, usize, [bool; 2]))> {
    let bytes = archive_of(alloc, items).ok()?;
    let results = read(bytes.as_slice()).ok()?;
    Some((bytes.as_slice() == archive, results))
}

// Returns the set of the items 1 and 1, in four buckets: entries at 0, controls at 4, header at 36.
fn one_item_twice() -> [u8; 48] {
    archive(
        &[0, 1, 1, 0, 0xff, 0x28, 0x28, 0xff, 0xff, 0x28, 0x28],
        &[0, 0xe0, 0xff, 0xff, 0xff, 2, 0, 0, 0, 4, 0, 0, 0],
    )
}

#[test]
fn lists_are_archived_as_sets(rt: HostRuntime) -> Result<(), Fail> {
    let items = [1, 2, 3];
    expect_eq!(rt; written_and_read(rt.alloc(), SetItems::new(&items), &three_keys()),
        Some((true, (3, 3, [true, false]))));
    let map = to_bytes(rt.alloc(), &MapPairs::new(&[(1i8, 2i8)]))?;
    let set = to_bytes(rt.alloc(), &SetItems::new(&[1u8, 2, 3]))?;
    expect_eq!(rt; map.as_slice(), one_pair().as_slice());
    expect_eq!(rt; set.as_slice(), three_keys().as_slice());
    let items = [1, 1];
    let list = SetItems::with_load_factor(&items, (1, 2));
    expect_eq!(rt; written_and_read(rt.alloc(), list, &one_item_twice()),
        Some((true, (2, 2, [true, false]))));
    let bytes = archive_of(rt.alloc(), SetItems::new(&[1, 1]))?;
    let set = key_set(bytes.as_slice())?;
    let read: HashSet<u8> = set.deserialize_std(rt.alloc(), BuildHasherDefault::new())?;
    expect_eq!(rt; (read.len(), read.contains(&1)), (1, true));
    Ok(())
}

#[test]
fn rejects_a_list_under_a_load_factor_above_1(rt: HostRuntime) {
    let written = archive_of(rt.alloc(), SetItems::with_load_factor(&[1], (8, 7)));
    let error = WriteError::InvalidLoadFactor {
        numerator: 8,
        denominator: 7,
    };
    expect_eq!(rt; written.err(), Some(error));
}

// Returns the same as `written_and_read` for a copy of a list of items.
fn copied(alloc: Global, items: &[u8]) -> Option<(bool, (usize, usize, [bool; 2]))> {
    let list: SetItems<'_, u8> = SetItems::new(items);
    written_and_read(alloc, list.clone().ok()?, &three_keys())
}

#[test]
fn a_copy_of_a_list_is_archived_alike(rt: HostRuntime) {
    item_clones_are_the_same::<u8, FxHasher64>();
    pair_clones_are_the_same::<u8, u8, FxHasher64>();
    expect_eq!(rt; copied(rt.alloc(), &[1, 2, 3]), Some((true, (3, 3, [true, false]))));
}

#[test]
fn lists_are_compared_by_items_and_load_factor(rt: HostRuntime) {
    pair_lists_are_compared::<u8, u8, FxHasher64>();
    item_lists_are_compared::<u8, FxHasher64>();
    let list: MapPairs<'_, u8, u8> = MapPairs::new(&[(1, 2), (3, 4)]);
    let items: SetItems<'_, u8> = SetItems::new(&[1, 2]);
    expect_eq!(rt; list == MapPairs::new(&[(1, 2), (3, 4)]), true);
    expect_eq!(rt; list == MapPairs::new(&[(1, 2), (3, 5)]), false);
    expect_eq!(rt; list == MapPairs::with_load_factor(&[(1, 2), (3, 4)], (1, 2)), false);
    expect_eq!(rt; items == SetItems::new(&[1, 2]), true);
    expect_eq!(rt; items == SetItems::new(&[2, 1]), false);
    expect_eq!(rt; items == SetItems::with_load_factor(&[1, 2], (1, 2)), false);
}

#[test]
fn lists_print_their_items_and_load_factor(rt: HostRuntime) {
    let list: MapPairs<'_, u8, u8> = MapPairs::new(&[(1, 2)]);
    let items: SetItems<'_, u8> = SetItems::with_load_factor(&[3, 4], (1, 2));
    expect_eq!(rt; prints(rt.alloc(), &list,
        "MapPairs { pairs: [(1, 2)], load_factor: (7, 8), .. }"), true);
    expect_eq!(rt; prints(rt.alloc(), &items,
        "SetItems { items: [3, 4], load_factor: (1, 2), .. }"), true);
}
