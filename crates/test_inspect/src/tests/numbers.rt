//! The numbers of archives of each kind and width.

use crate::tests::archives::{
    EMPTY, INDEX_NUMBER, MISPLACED, NAMES, NUMBERED_TEXTS, ONE_HASH, ONE_NUMBER, WIDE_NUMBERS,
    WIDE_SET,
};
use crate::tests::support::{narrow, numbers, wide};
use rkyv_base::access::access;
use rkyv_collections::HashMapOf;
use rkyv_container::{Contents, ItemType, Kind};
use rkyv_index::IndexMapOf;
use rkyv_inspect::index_summary::index_summary;
use rkyv_inspect::map_summary::map_summary;
use rkyv_inspect::{Lookups, Summary, inspect};
use std::alloc::Global;
use std::test::Fail;

/// The numbers of an archive.
///
/// They are the length, the capacity, the positions of the header and of the control bytes, and the
/// number of misplaced keys.
type Numbers = (usize, usize, u64, Option<usize>, Option<usize>);

/// Returns the numbers of an archive.
fn numbers_of(alloc: Global, archive: &[u8], contents: Contents) -> Result<Numbers, Fail> {
    let inspection = inspect(alloc, archive, contents, 1000)?;
    Ok(all_of(&inspection.summary))
}

/// Returns the numbers of a summary.
fn all_of(summary: &Summary) -> Numbers {
    (
        summary.len,
        summary.capacity,
        summary.header_pos,
        summary.controls_pos,
        misplaced_of(summary),
    )
}

/// Returns the number of misplaced keys, if the keys are looked up.
fn misplaced_of(summary: &Summary) -> Option<usize> {
    match &summary.lookups {
        Some(lookups) => Some(lookups.misplaced),
        None => None,
    }
}

/// Returns an entry of a histogram, or 0 behind its end.
fn entry_of(counts: &[usize], n: usize) -> usize {
    match counts.get(n) {
        Some(count) => *count,
        None => 0,
    }
}

/// Returns the first four entries of a histogram.
fn first_of(lookups: &Lookups) -> [usize; 4] {
    let counts = lookups.strides.as_slice();
    [
        entry_of(counts, 0),
        entry_of(counts, 1),
        entry_of(counts, 2),
        entry_of(counts, 3),
    ]
}

/// Returns the first four entries of the histogram of an archive, if its keys are looked up.
fn strides_of(
    alloc: Global,
    archive: &[u8],
    contents: Contents,
    limit: u64,
) -> Result<Option<[usize; 4]>, Fail> {
    let inspection = inspect(alloc, archive, contents, limit)?;
    let lookups = inspection.summary.lookups.as_ref();
    Ok(lookups.map(|lookups| first_of(lookups)))
}

#[test]
fn maps_and_sets(rt: HostRuntime) -> Result<(), Fail> {
    let names = narrow(Kind::HashMap, ItemType::Text, ItemType::U64);
    let wide_numbers = wide(Kind::HashMap, ItemType::U64, ItemType::U32);
    let one_hash = wide(Kind::HashSet, ItemType::Text, ItemType::Unit);
    let index_number = narrow(Kind::IndexMap, ItemType::U32, ItemType::U32);
    let numbered = narrow(Kind::IndexMap, ItemType::U32, ItemType::Text);
    let wide_set = wide(Kind::IndexSet, ItemType::U64, ItemType::Unit);
    let rows: [(&[u8], Contents, Numbers); 9] = [
        (&ONE_NUMBER, numbers(), (1, 2, 48, Some(16), Some(0))),
        (&MISPLACED, numbers(), (1, 2, 48, Some(16), Some(1))),
        (&NAMES, names, (2, 3, 96, Some(64), Some(0))),
        (&WIDE_NUMBERS, wide_numbers, (2, 3, 80, Some(48), Some(0))),
        (&EMPTY, numbers(), (0, 0, 0, None, Some(0))),
        (&ONE_HASH, one_hash, (20, 22, 400, Some(352), Some(0))),
        (&INDEX_NUMBER, index_number, (1, 2, 48, Some(8), Some(0))),
        (&NUMBERED_TEXTS, numbered, (2, 3, 84, Some(12), Some(0))),
        (&WIDE_SET, wide_set, (3, 4, 88, Some(32), Some(0))),
    ];
    for (archive, contents, expected) in &rows {
        let found = numbers_of(rt.alloc(), archive, *contents)?;
        expect_eq!(rt; found, *expected);
    }
    Ok(())
}

// A `char` has the bytes and the hash of its number.
#[test]
fn summaries_of_other_keys(rt: HostRuntime) -> Result<(), Fail> {
    let alloc = rt.alloc();
    let map = access::<HashMapOf<char, u32>>(&ONE_NUMBER)?;
    let index = access::<IndexMapOf<char, u32>>(&INDEX_NUMBER)?;
    let found = [
        all_of(&map_summary(alloc, map, 1000)?),
        all_of(&index_summary(alloc, index, 1000)?),
    ];
    expect_eq!(rt;
        found,
        [(1, 2, 48, Some(16), Some(0)), (1, 2, 48, Some(8), Some(0))]
    );
    Ok(())
}

#[test]
fn strides_and_their_limit(rt: HostRuntime) -> Result<(), Fail> {
    let numbered = narrow(Kind::IndexMap, ItemType::U32, ItemType::Text);
    let one_hash = wide(Kind::HashSet, ItemType::Text, ItemType::Unit);
    let rows: [(&[u8], Contents, u64, Option<[usize; 4]>); 5] = [
        (&ONE_NUMBER, numbers(), 1000, Some([0, 1, 0, 0])),
        (&NUMBERED_TEXTS, numbered, 1000, Some([0, 2, 0, 0])),
        (&ONE_HASH, one_hash, 1000, Some([0, 16, 4, 0])),
        (&ONE_HASH, one_hash, 24, Some([0, 16, 4, 0])),
        (&ONE_HASH, one_hash, 23, None),
    ];
    for (archive, contents, limit, expected) in &rows {
        let strides = strides_of(rt.alloc(), archive, *contents, *limit)?;
        expect_eq!(rt; strides, *expected);
    }
    Ok(())
}
