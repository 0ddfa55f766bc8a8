//! Tests of several lookups in one map.

use crate::tests::opened::Small;
use rkyv_base::access::access;
use rkyv_base::{Narrow, Scalar, VerifyError, Wide, Width, access_in};
use rkyv_collections::map::laws::both_hashers_look_up_alike;
use rkyv_collections::{ArchivedHashMap, HashMapOf};
use rkyv_keys::{KeyElement, Query};
use rkyv_scan::{FxHasher64, KeyHasher};
use std::process::Abort;
use test_support::archives::{four_pairs, no_items, one_key_twice, one_wide_number};

// Returns the value of a key, the positions of both, and whether the map has the key.
fn found<K: KeyElement, N: Scalar, H: KeyHasher, W: Width, Q: Query<K>>(
    bytes: &[u8],
    key: &Q,
) -> Result<(Option<N>, Option<(u64, u64)>, bool), VerifyError> {
    let root = access_in::<W, HashMapOf<K, N, H, W>>(bytes)?;
    let map = ArchivedHashMap::<K, N, H, W>::of(root);
    let there = map.contains_key(key);
    let positions = match map.get_key_value(key) {
        Some((stored, value)) => Some((stored.pos(), value.pos())),
        None => None,
    };
    match map.get(key) {
        Some(value) => Ok((Some(value.to_native()), positions, there)),
        None => Ok((None, positions, there)),
    }
}

// Returns the value of a key, in a map whose header was decoded before.
fn found_by_header(bytes: &[u8], key: i8) -> Result<Option<i8>, VerifyError> {
    let root = access::<Small>(bytes)?;
    let header = ArchivedHashMap::of(root).header();
    match ArchivedHashMap::with_header(root, header).get(&key) {
        Some(value) => Ok(Some(value.to_native())),
        None => Ok(None),
    }
}

#[test]
fn a_decoded_header_leads_to_the_same_value(rt: HostRuntime) {
    expect_eq!(rt; found_by_header(&four_pairs(), 5), Ok(Some(6)));
}

/// Compares the result of `found` for a key of a map of `i8` to `i8`.
pub(crate) fn expect_found(
    rt: &impl Abort,
    bytes: &[u8],
    key: i8,
    expected: (Option<i8>, Option<(u64, u64)>, bool),
) {
    expect_eq!(*rt; found::<i8, i8, FxHasher64, Narrow, i8>(bytes, &key), Ok(expected));
}

#[test]
fn pairs_are_found_with_their_positions(rt: HostRuntime) {
    both_hashers_look_up_alike::<i8, i8, i8, Narrow>();
    let four = four_pairs();
    expect_found(&rt, &four, 1, (Some(2), Some((2, 3)), true));
    expect_found(&rt, &four, 5, (Some(6), Some((8, 9)), true));
    expect_found(&rt, &four, 2, (None, None, false));
    expect_found(&rt, &one_key_twice(), 1, (Some(2), Some((4, 5)), true));
    expect_found(&rt, &no_items(), 1, (None, None, false));
}

// Compares the result of `found` for a key of the wide map of 1 to 2.
fn expect_wide(rt: &impl Abort, key: u32, expected: (Option<u32>, Option<(u64, u64)>, bool)) {
    let found = found::<u32, u32, FxHasher64, Wide, u32>(&one_wide_number(), &key);
    expect_eq!(*rt; found, Ok(expected));
}

#[test]
fn a_pair_of_a_wide_archive_is_found_with_its_position(rt: HostRuntime) {
    expect_wide(&rt, 1, (Some(2), Some((0, 4)), true));
    expect_wide(&rt, 2, (None, None, false));
}
