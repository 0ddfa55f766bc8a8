//! Iterators, which are called only after the allocations.
//!
//! Those of index maps and index sets are called after the allocations for the items, and before
//! those for the table.

use rkyv_base::{Narrow, VecWriter};
use rkyv_collections::{ArchivedHashMap, ArchivedHashSet};
use rkyv_index::{ArchivedIndexMap, ArchivedIndexSet};
use rkyv_scan::FxHasher64;
use std::alloc::Global;
use std::cell::Cell;
use std::iter;
use test_support::requests::{
    Outcome, outcome_of, requests_of_pairs, requests_of_table, yields_next,
};

type Numbers = ArchivedHashMap<'static, i8, i8, FxHasher64, Narrow>;

type Keys = ArchivedHashSet<'static, i8, FxHasher64, Narrow>;

type OrderedNumbers = ArchivedIndexMap<'static, i8, i8, FxHasher64, Narrow>;

type OrderedKeys = ArchivedIndexSet<'static, i8, FxHasher64, Narrow>;

// Returns whether the number of calls of an iterator of two items fits the outcome of a write.
// There is no call if an allocation fails first, and else one for each item and one for the end.
fn fits(write: (Outcome, usize)) -> bool {
    match write {
        (Outcome::Memory, requests) => requests == 0,
        (Outcome::Written | Outcome::Growth, requests) => requests == 3,
        _ => false,
    }
}

// Does the same for an index map or index set. Memory for the items is allocated before the calls,
// and memory for the table afterwards.
fn fits_index(write: (Outcome, usize)) -> bool {
    match write {
        (Outcome::Memory, requests) => requests == 0 || requests == 3,
        (Outcome::Written | Outcome::Growth, requests) => requests == 3,
        _ => false,
    }
}

// Does the same for an index map or index set of two items under the claimed length 3.
// Memory for the items is allocated before the calls, and none after them.
fn fits_too_short(write: (Outcome, usize)) -> bool {
    match write {
        (Outcome::Memory, requests) => requests == 0,
        (Outcome::Mismatch(3, 2), requests) => requests == 3,
        _ => false,
    }
}

// Writes a collection of two items under a claimed length.
// Returns the outcome, and the number of calls of the iterator.
macro_rules! two_written {
    ($collection:ty, [$($param:ty),*], $item:expr, $alloc:expr, $len:expr) => {{
        let requests = Cell::new(0usize);
        let mut writer = VecWriter::new($alloc);
        let outcome = <$collection>::serialize_from_iter::<VecWriter, $($param,)* _>(
            $alloc,
            iter::from_fn(|| yields_next(&requests, 2).then_some($item)),
            $len,
            (7, 8),
            &mut writer,
        );
        (outcome_of(outcome, &writer), requests.get())
    }};
}

fn map(alloc: Global) -> (Outcome, usize) {
    two_written!(Numbers, [i8, i8, i8, i8], (1i8, 2i8), alloc, 2)
}

fn set(alloc: Global) -> (Outcome, usize) {
    two_written!(Keys, [i8, i8], 1i8, alloc, 2)
}

fn index_map(alloc: Global, len: usize) -> (Outcome, usize) {
    two_written!(OrderedNumbers, [i8, i8, i8, i8], (1i8, 2i8), alloc, len)
}

fn index_set(alloc: Global, len: usize) -> (Outcome, usize) {
    two_written!(OrderedKeys, [i8, i8], 1i8, alloc, len)
}

#[test]
fn tables_maps_and_sets_allocate_before_reading_items(rt: HostRuntime) {
    let (outcome, items, hashes) = requests_of_table(rt.alloc(), 2, 2, 2);
    assert!(rt; fits((outcome, items)) && fits((outcome, hashes)));
    assert!(rt; fits(requests_of_pairs(rt.alloc(), 2, 2, (7, 8))));
    assert!(rt; fits(map(rt.alloc())));
    assert!(rt; fits(set(rt.alloc())));
}

#[test]
fn writing_tables_maps_and_sets_succeeds(rt: HostRuntime) {
    expect_eq!(rt; requests_of_table(rt.alloc(), 2, 2, 2), (Outcome::Written, 3, 3));
    expect_eq!(rt; requests_of_pairs(rt.alloc(), 2, 2, (7, 8)), (Outcome::Written, 3));
    expect_eq!(rt; map(rt.alloc()), (Outcome::Written, 3));
    expect_eq!(rt; set(rt.alloc()), (Outcome::Written, 3));
}

#[test]
fn index_maps_and_sets_without_memory_have_taken_no_item_or_all(rt: HostRuntime) {
    assert!(rt; fits_index(index_map(rt.alloc(), 2)));
    assert!(rt; fits_index(index_set(rt.alloc(), 2)));
}

#[test]
fn writing_index_maps_and_sets_succeeds(rt: HostRuntime) {
    expect_eq!(rt; index_map(rt.alloc(), 2), (Outcome::Written, 3));
    expect_eq!(rt; index_set(rt.alloc(), 2), (Outcome::Written, 3));
}

#[test]
fn index_maps_and_sets_count_their_items_before_they_allocate_their_table(rt: HostRuntime) {
    assert!(rt; fits_too_short(index_map(rt.alloc(), 3)));
    assert!(rt; fits_too_short(index_set(rt.alloc(), 3)));
}

#[test]
fn counting_the_items_of_index_maps_and_sets_succeeds(rt: HostRuntime) {
    expect_eq!(rt; index_map(rt.alloc(), 3), (Outcome::Mismatch(3, 2), 3));
    expect_eq!(rt; index_set(rt.alloc(), 3), (Outcome::Mismatch(3, 2), 3));
}
