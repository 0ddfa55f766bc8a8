//! The number of calls of the iterators of items, of hashes and of pairs.

use rkyv_base::{VecWriter, Wide, WriteError};
use rkyv_table::ArchivedHashTable;
use std::alloc::Global;
use std::cell::Cell;
use std::iter;
use test_support::requests::{
    Outcome, expected_outcome, max_requests, requests_of_pairs, requests_of_table, right_writes,
};

// Returns the expected outcome for `items` items and `hashes` hashes. The items are counted first.
fn expected_of_both(items: usize, hashes: usize, len: usize) -> Outcome {
    match expected_outcome(items, len) {
        Outcome::Written => expected_outcome(hashes, len),
        failure => failure,
    }
}

// Returns `true` if a table of the numbers has the expected outcome, and no iterator is called too
// often.
fn is_right_of_both(alloc: Global, items: usize, hashes: usize, len: usize) -> bool {
    let (outcome, of_items, of_hashes) = requests_of_table(alloc, items, hashes, len);
    let expected_outcome = expected_of_both(items, hashes, len);
    let few = of_items <= max_requests(items, len) && of_hashes <= max_requests(hashes, len);
    outcome == expected_outcome && few
}

// Returns the number of tables with the expected outcome. They have up to five items and five
// hashes, and a claimed number of up to three.
fn right_of_both(alloc: Global) -> usize {
    let mut right = 0usize;
    for len in 0..4 {
        for items in 0..6 {
            for hashes in 0..6 {
                if is_right_of_both(alloc, items, hashes, len) {
                    right = right.wrapping_add(1);
                }
            }
        }
    }
    right
}

#[test]
fn iterators_are_called_at_most_len_plus_one_times(rt: HostRuntime) {
    let alloc = rt.alloc();
    expect_eq!(rt; right_of_both(alloc), 4 * 6 * 6);
    expect_eq!(rt; right_writes(alloc, requests_of_pairs), 4 * 6);
}

// Returns the outcome, and the number of calls of the iterator of items.
fn requests_of_items(alloc: Global, items: usize, hashes: usize, len: usize) -> (Outcome, usize) {
    let (outcome, of_items, _) = requests_of_table(alloc, items, hashes, len);
    (outcome, of_items)
}

#[test]
fn no_call_follows_the_end_or_an_extra_item(rt: HostRuntime) {
    let (all, alloc) = (usize::MAX, rt.alloc());
    expect_eq!(rt; requests_of_items(alloc, all, all, 2), (Outcome::Mismatch(2, 3), 3));
    expect_eq!(rt; requests_of_items(alloc, 2, all, 5), (Outcome::Mismatch(5, 2), 3));
    expect_eq!(rt; requests_of_items(alloc, all, all, 0), (Outcome::Mismatch(0, 1), 1));
    expect_eq!(rt; requests_of_items(alloc, 0, 0, 0), (Outcome::Written, 1));
    expect_eq!(rt; requests_of_pairs(alloc, all, 2, (7, 8)), (Outcome::Mismatch(2, 3), 3));
    expect_eq!(rt; requests_of_pairs(alloc, 2, 5, (7, 8)), (Outcome::Mismatch(5, 2), 3));
    expect_eq!(rt; requests_of_pairs(alloc, all, 0, (7, 8)), (Outcome::Mismatch(0, 1), 1));
    expect_eq!(rt; requests_of_pairs(alloc, 0, 0, (7, 8)), (Outcome::Written, 1));
}

// The slots have more bytes than an address space.
#[test]
fn rejects_a_table_larger_than_memory(rt: HostRuntime) {
    let mut writer = VecWriter::new(rt.alloc());
    let calls = Cell::new(0usize);
    let items = iter::repeat_with(|| {
        calls.set(calls.get().wrapping_add(1));
        7u64
    });
    let failure = matches!(
        ArchivedHashTable::<u64, Wide>::serialize_from_iter::<VecWriter, u64, u64, _, _>(
            rt.alloc(),
            items,
            iter::repeat(0u64),
            4_000_000_000_000_000_000,
            (1, 1),
            &mut writer,
        ),
        Err(WriteError::Memory)
    );
    expect_eq!(rt; (failure, calls.get(), writer.bytes().len()), (true, 0, 0));
}
