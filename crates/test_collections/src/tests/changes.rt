//! Archives of a map with one byte changed to each other value.

use crate::tests::opened::Numbers;
use rkyv_base::access::access;
use rkyv_base::{Entry, VerifyError};
use rkyv_collections::ArchivedHashMap;
use rkyv_scan::{FxHasher64, KeyHasher};
use rkyv_table::{ArchivedHashTable, Strides, TableOf};
use test_support::archives::one_number;
use test_support::changes::{OutcomeCounts, outcomes_of_changes};

// Returns the number of pairs of a walk.
fn count_walked(bytes: &[u8]) -> Result<usize, VerifyError> {
    let map = ArchivedHashMap::of(access::<Numbers>(bytes)?);
    let mut count = 0usize;
    for _ in map.iter() {
        count = count.wrapping_add(1);
    }
    Ok(count)
}

// Returns the value of a key.
fn value_of(bytes: &[u8], key: u32) -> Result<Option<u32>, VerifyError> {
    let map = ArchivedHashMap::of(access::<Numbers>(bytes)?);
    Ok(map.get(&key).map(|value| value.to_native()))
}

// Returns the same by a lookup in the map's table, and the number of strides that it reads.
fn counted_value_of(bytes: &[u8], key: u32) -> Result<(Option<u32>, u64), VerifyError> {
    let table = ArchivedHashTable::of(access::<TableOf<Entry<u32, u32>>>(bytes)?);
    let mut hasher = FxHasher64::default();
    hasher.write_u32(key);
    let mut strides = Strides::new();
    let found = table.get_counted(
        hasher.finish(),
        |pair| pair.key().to_native() == key,
        &mut strides,
    );
    match found {
        Some(pair) => Ok((Some(pair.value().to_native()), strides.count())),
        None => Ok((None, strides.count())),
    }
}

// Returns `true` if both lookups of a number have one result, and the second reads one stride.
fn is_one_stride(bytes: &[u8], key: u32) -> bool {
    let value = value_of(bytes, key);
    match (value, counted_value_of(bytes, key)) {
        (Ok(value), Ok((counted, strides))) => value == counted && strides == 1,
        _ => false,
    }
}

// Returns `true` if a walk over a valid map returns one pair, and a lookup of each number
// from 0 to 9 reads one stride.
fn is_small(bytes: &[u8]) -> Result<bool, VerifyError> {
    let mut right = count_walked(bytes)? == 1;
    for key in 0..10 {
        right = right && is_one_stride(bytes, key);
    }
    Ok(right)
}

#[test]
fn changes_of_one_byte_have_known_outcomes(rt: HostRuntime) {
    let mut bytes = one_number();
    expect_eq!(rt; outcomes_of_changes(&mut bytes, is_small), OutcomeCounts { right: 7764,
        accepted: 7764, place_out_of_range: 0, unwrapped: 4220, out_of_range: 2037,
        invalid_length: 1021, wrong_number: 257, unaligned: 1, other: 0, });
}
