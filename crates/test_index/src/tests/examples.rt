//! The examples of the docs of entry points that no other test has, and counts of misplaced keys.

use crate::tests::archives::{no_pairs, one_key_twice};
use crate::tests::opened::small_map;
use rkyv_base::VerifyError;
use rkyv_base::access::access;
use rkyv_index::{ArchivedIndexMap, IndexMapOf};
use rkyv_table::Strides;
use test_support::archives::four_entries;

// Returns the number of pairs of an index map, and the value of a key.
fn look_up(archive: &[u8], key: i8) -> Result<(usize, Option<i8>), VerifyError> {
    let map = ArchivedIndexMap::of(access::<IndexMapOf<i8, i8>>(archive)?);
    match map.get(&key) {
        Some(value) => Ok((map.len(), Some(value.to_native()))),
        None => Ok((map.len(), None)),
    }
}

#[test]
fn an_index_map_is_opened(rt: HostRuntime) {
    assert_eq!(rt; look_up(&four_entries(), 3).ok(), Some((4, Some(4))));
}

// Returns the number of keys of an index map that a lookup of their own doesn't find.
fn misplaced(archive: &[u8]) -> Result<usize, VerifyError> {
    Ok(ArchivedIndexMap::of(access::<IndexMapOf<i8, i8>>(archive)?).misplaced())
}

#[test]
fn a_repeated_key_is_counted(rt: HostRuntime) {
    assert_eq!(rt; misplaced(&one_key_twice()).ok(), Some(1));
}

fn misplaced_within(archive: &[u8], limit: u64) -> Result<Option<usize>, VerifyError> {
    Ok(ArchivedIndexMap::of(access::<IndexMapOf<i8, i8>>(archive)?).misplaced_up_to(limit))
}

#[test]
fn misplaced_keys_are_counted_up_to_a_limit(rt: HostRuntime) {
    let four = four_entries();
    let twice = one_key_twice();
    expect_eq!(rt; misplaced_within(&four, 3), Ok(None));
    expect_eq!(rt; misplaced_within(&four, 4), Ok(Some(0)));
    expect_eq!(rt; misplaced_within(&four, u64::MAX), Ok(Some(0)));
    expect_eq!(rt; misplaced_within(&twice, 1), Ok(None));
    expect_eq!(rt; misplaced_within(&twice, 2), Ok(Some(1)));
    expect_eq!(rt; misplaced_within(&no_pairs(), 0), Ok(Some(0)));
}

// Returns the count of misplaced keys of an index map, and of the strides that it reads.
fn misplaced_counted(archive: &[u8], limit: u64) -> Result<(Option<usize>, u64), VerifyError> {
    let map = ArchivedIndexMap::of(access::<IndexMapOf<i8, i8>>(archive)?);
    let mut strides = Strides::new();
    let misplaced = map.misplaced_up_to_counted(limit, &mut strides);
    Ok((misplaced, strides.count()))
}

#[test]
fn the_strides_of_all_lookups_are_counted(rt: HostRuntime) {
    let four = four_entries();
    let counted = [misplaced_counted(&four, 4), misplaced_counted(&four, 1)];
    expect_eq!(rt; counted, [Ok((Some(0), 4)), Ok((None, 2))]);
}

// Counts the misplaced keys twice, and returns the strides that both counts read.
fn counted_twice(archive: &[u8]) -> Option<([usize; 2], u64)> {
    let map = small_map(archive).ok()?;
    let mut strides = Strides::new();
    let first = map.misplaced_up_to_counted(4, &mut strides)?;
    let second = map.misplaced_up_to_counted(4, &mut strides)?;
    Some(([first, second], strides.count()))
}

#[test]
fn earlier_strides_stay_counted(rt: HostRuntime) {
    expect_eq!(rt; counted_twice(&four_entries()), Some(([0, 0], 8)));
}
