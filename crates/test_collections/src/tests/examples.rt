//! The examples of the docs of entry points that no other test has.

use rkyv_base::VerifyError;
use rkyv_base::access::access;
use rkyv_collections::{ArchivedHashMap, ArchivedHashSet, HashMapOf, HashSetOf};
use test_support::archives::{four_pairs, four_pairs_backwards, one_key_twice, three_keys};

// Returns the number of pairs of a map, and the value of a key.
fn look_up(archive: &[u8], key: i8) -> Result<(usize, Option<i8>), VerifyError> {
    let map = ArchivedHashMap::of(access::<HashMapOf<i8, i8>>(archive)?);
    match map.get(&key) {
        Some(value) => Ok((map.len(), Some(value.to_native()))),
        None => Ok((map.len(), None)),
    }
}

#[test]
fn a_map_is_opened(rt: HostRuntime) {
    assert_eq!(rt; look_up(&four_pairs(), 3).ok(), Some((4, Some(4))));
}

// Returns the sum of the values of a map.
fn total(archive: &[u8]) -> Result<i8, VerifyError> {
    let map = ArchivedHashMap::of(access::<HashMapOf<i8, i8>>(archive)?);
    let mut total = 0i8;
    for (_, value) in map.iter() {
        total = total.wrapping_add(value.to_native());
    }
    Ok(total)
}

#[test]
fn pairs_are_iterated(rt: HostRuntime) {
    assert_eq!(rt; total(&four_pairs()).ok(), Some(20));
}

// Returns whether the maps in two archives have the same pairs.
fn equal(first: &[u8], second: &[u8]) -> Result<bool, VerifyError> {
    let first = ArchivedHashMap::of(access::<HashMapOf<i8, i8>>(first)?);
    let second = ArchivedHashMap::of(access::<HashMapOf<i8, i8>>(second)?);
    Ok(first.eq_map(second))
}

#[test]
fn maps_are_compared(rt: HostRuntime) {
    let same = equal(&four_pairs(), &four_pairs_backwards()).ok();
    assert_eq!(rt; same, Some(true));
}

// Returns the number of keys of a map that a lookup of their own doesn't find.
fn misplaced(archive: &[u8]) -> Result<usize, VerifyError> {
    Ok(ArchivedHashMap::of(access::<HashMapOf<i8, i8>>(archive)?).misplaced())
}

#[test]
fn a_repeated_key_is_counted(rt: HostRuntime) {
    assert_eq!(rt; misplaced(&one_key_twice()).ok(), Some(1));
}

// Returns the same number, or `None` if its lookups read more than `limit` strides.
fn misplaced_within(archive: &[u8], limit: u64) -> Result<Option<usize>, VerifyError> {
    Ok(ArchivedHashMap::of(access::<HashMapOf<i8, i8>>(archive)?).misplaced_up_to(limit))
}

#[test]
fn counting_ends_at_the_limit(rt: HostRuntime) {
    expect_eq!(rt; misplaced_within(&four_pairs(), 4).ok(), Some(Some(0)));
    expect_eq!(rt; misplaced_within(&four_pairs(), 3).ok(), Some(None));
}

// Returns the key of a set that a query finds.
fn stored(archive: &[u8], key: u8) -> Result<Option<u8>, VerifyError> {
    let set = ArchivedHashSet::of(access::<HashSetOf<u8>>(archive)?);
    Ok(set.get(&key).map(|stored| stored.to_native()))
}

#[test]
fn a_key_of_a_set_is_found(rt: HostRuntime) {
    let found = [stored(&three_keys(), 3).ok(), stored(&three_keys(), 4).ok()];
    assert_eq!(rt; found, [Some(Some(3)), Some(None)]);
}

// Returns the sum of the keys of a set.
fn sum(archive: &[u8]) -> Result<u8, VerifyError> {
    let set = ArchivedHashSet::of(access::<HashSetOf<u8>>(archive)?);
    let mut sum = 0u8;
    for key in set.iter() {
        sum = sum.wrapping_add(key.to_native());
    }
    Ok(sum)
}

#[test]
fn keys_of_a_set_are_iterated(rt: HostRuntime) {
    assert_eq!(rt; sum(&three_keys()).ok(), Some(6));
}
