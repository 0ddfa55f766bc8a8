//! Tests of reading sets in place, from fixed bytes.

use crate::tests::opened::key_set;
use crate::tests::query_results::{
    equal_maps, equal_sets, map_prints, member_of, set_counts, set_prints,
};
use rkyv_base::{Narrow, VerifyError, Wide, access_in};
use rkyv_collections::set::laws;
use rkyv_collections::{ArchivedHashMap, ArchivedHashSet, HashMapOf, HashSetOf};
use rkyv_keys::{ElementDebug, KeyElement, Query};
use rkyv_scan::{FxHasher64, FxHasher64Wide};
use std::alloc::Global;
use std::process::Abort;
use std::test::Fail;
use test_support::archives::{no_items, one_unit, set_in_a_map, three_keys, two_units};

// Returns the number of buckets of a set.
fn capacity(bytes: &[u8]) -> Option<usize> {
    Some(key_set(bytes).ok()?.capacity())
}

#[test]
fn a_set_has_a_capacity(rt: HostRuntime) {
    expect_eq!(rt; [capacity(&three_keys()), capacity(&no_items())], [Some(4), Some(0)]);
}

// Compares whether a set is empty, its length, the number of its misplaced keys and its text.
fn expect_read<K: KeyElement + ElementDebug>(
    rt: &impl Abort,
    alloc: Global,
    bytes: &[u8],
    counts: (bool, usize, usize),
    text: &str,
) {
    expect_eq!(*rt; set_counts::<K, FxHasher64, Narrow>(bytes), Ok(counts));
    expect_eq!(*rt; set_prints::<K, FxHasher64, Narrow>(alloc, bytes, text), true);
}

// Compares whether a set has a key, and the position of the key.
fn expect_member<K: KeyElement + Query<K> + Drop>(
    rt: &impl Abort,
    bytes: &[u8],
    key: K,
    expected: (bool, Option<u64>),
) {
    expect_eq!(*rt; member_of::<K, FxHasher64, Narrow, K>(bytes, &key), Ok(expected));
}

#[test]
fn a_set_is_read(rt: HostRuntime) {
    laws::members_found_are_listed::<u8, u8, u8, FxHasher64, Narrow>();
    let three = three_keys();
    let none = no_items();
    expect_read::<u8>(&rt, rt.alloc(), &three, (false, 3, 0), "{1, 2, 3}");
    expect_read::<u8>(&rt, rt.alloc(), &none, (true, 0, 0), "{}");
    expect_member(&rt, &three, 3u8, (true, Some(0)));
    expect_member(&rt, &three, 4u8, (false, None));
    expect_member(&rt, &none, 4u8, (false, None));
}

// Returns the number of misplaced keys of a set, or `None` if more than `limit` strides are read.
fn misplaced_up_to(bytes: &[u8], limit: u64) -> Result<Option<usize>, VerifyError> {
    Ok(key_set(bytes)?.misplaced_up_to(limit))
}

#[test]
fn counting_misplaced_keys_of_a_set_ends_at_a_limit(rt: HostRuntime) {
    let three = three_keys();
    expect_eq!(rt; misplaced_up_to(&three, 2), Ok(None));
    expect_eq!(rt; misplaced_up_to(&three, 3), Ok(Some(0)));
}

#[test]
fn sets_are_compared(rt: HostRuntime) {
    let bytes = three_keys();
    laws::sets_are_compared::<u8, FxHasher64, Narrow>();
    let mut other = three_keys();
    other[2] = 9;
    expect_eq!(rt; equal_sets::<u8, FxHasher64, Narrow>(&bytes, &bytes), Ok((true, true)));
    expect_eq!(rt; equal_sets::<u8, FxHasher64, Narrow>(&bytes, &other), Ok((false, false)));
}

#[test]
fn sets_of_units_are_read(rt: HostRuntime) {
    expect_read::<()>(&rt, rt.alloc(), &one_unit(), (false, 1, 0), "{()}");
    expect_read::<()>(&rt, rt.alloc(), &two_units(), (false, 2, 1), "{(), ()}");
    expect_member(&rt, &one_unit(), (), (true, Some(0)));
    expect_member(&rt, &two_units(), (), (true, Some(0)));
    expect_member(&rt, &no_items(), (), (false, None));
}

type Inner = HashSetOf<i8, FxHasher64Wide, Wide>;

// Returns the length of the set at key 1, whether it has 1, and whether it has 2.
fn inner_set(bytes: &[u8]) -> Result<Option<(usize, bool, bool)>, VerifyError> {
    let root = access_in::<Wide, HashMapOf<i8, Inner, FxHasher64Wide, Wide>>(bytes)?;
    let map = ArchivedHashMap::of(root);
    match map.get(&1i8) {
        Some(value) => {
            let set = ArchivedHashSet::of(value);
            Ok(Some((set.len(), set.contains(&1i8), set.contains(&2i8))))
        }
        None => Ok(None),
    }
}

#[test]
fn a_set_is_the_value_of_a_map(rt: HostRuntime) {
    let bytes = set_in_a_map();
    expect_eq!(rt; inner_set(&bytes), Ok(Some((1, true, false))));
    expect_eq!(rt; equal_maps::<i8, Inner, FxHasher64Wide, Wide>(&bytes, &bytes), Ok((true, true)));
    expect_eq!(rt; map_prints::<i8, Inner, FxHasher64Wide, Wide>(rt.alloc(), &bytes, "{1: {1}}"),
        true);
}

#[test]
fn a_copy_of_a_set_is_read(rt: HostRuntime) -> Result<(), Fail> {
    laws::clones_are_the_same::<u8, FxHasher64, Narrow>();
    let bytes = three_keys();
    expect_eq!(rt; key_set(&bytes)?.clone()?.len(), 3);
    Ok(())
}
