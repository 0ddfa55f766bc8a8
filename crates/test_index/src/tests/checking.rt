//! Tests of valid and invalid archives of index maps.

use crate::tests::archives::{no_pairs, no_wide_pairs, one_pair};
use crate::tests::forms::expect_found;
use crate::tests::lookups::counts;
use crate::tests::opened::{map_in, small_map};
use rkyv_base::access::access;
use rkyv_base::{Narrow, VerifyError, Wide};
use rkyv_index::IndexMapOf;
use std::test::Fail;
use test_support::archives::four_entries;

// Returns the index and the length in the error of an index out of range, or zeros.
fn index_error(bytes: &[u8]) -> (usize, usize) {
    match small_map(bytes) {
        Err(VerifyError::PlaceOutOfRange { place, len }) => (place, len),
        _ => (0, 0),
    }
}

#[test]
fn rejects_indices_out_of_range(rt: HostRuntime) {
    let mut one = one_pair();
    one[0] = 1;
    expect_eq!(rt; index_error(&one), (1, 1));
    let mut four = four_entries();
    four[12] = 4;
    expect_eq!(rt; index_error(&four), (4, 4));
}

#[test]
fn an_empty_bucket_may_hold_any_index(rt: HostRuntime) {
    let mut four = four_entries();
    four[8] = 4;
    expect_eq!(rt; counts(&four), Ok((4, 0)));
    expect_found::<Narrow>(&rt, &four, &[(5, Some((2, 5, 6)))]);
    let mut four = four_entries();
    four[8] = 5;
    four[12] = 4;
    expect_eq!(rt; index_error(&four), (4, 4));
}

// Returns the pairs of a map as digits.
fn digits(bytes: &[u8]) -> Result<i32, VerifyError> {
    let mut digits = 0i32;
    for (key, value) in small_map(bytes)? {
        let pair = i32::from(key.to_native()).wrapping_mul(10);
        let pair = pair.wrapping_add(i32::from(value.to_native()));
        digits = digits.wrapping_mul(100).wrapping_add(pair);
    }
    Ok(digits)
}

#[test]
fn entries_may_be_anywhere(rt: HostRuntime) {
    let mut bytes = four_entries();
    bytes[72] = 0xec;
    expect_eq!(rt; digits(&bytes), Ok(23456780));
}

#[test]
fn empty_maps_are_accepted(rt: HostRuntime) -> Result<(), Fail> {
    let bytes = no_pairs();
    let map = small_map(&bytes)?;
    assert!(rt; map.is_empty());
    assert!(rt; map.get(&5).is_none());
    assert!(rt; map.iter().next().is_none());
    let wide = no_wide_pairs();
    assert!(rt; map_in::<Wide>(&wide)?.is_empty());
    Ok(())
}

// Returns the position and the size in the error of the empty map, with `byte` as the first byte of
// the distance to the entries.
fn range_error(byte: u8) -> Option<(i128, u128)> {
    let mut bytes = no_pairs();
    bytes[12] = byte;
    match small_map(&bytes) {
        Err(VerifyError::OutOfRange { pos, size }) => Some((pos, size)),
        _ => None,
    }
}

#[test]
fn the_row_of_no_entries_is_validated(rt: HostRuntime) {
    expect_eq!(rt; [range_error(0xf3), range_error(0xf5)], [Some((-1, 0)), Some((1, 0))]);
    let mut bytes = [0; 20];
    bytes[4] = 1;
    bytes[16..].copy_from_slice(&[0xf1, 0xff, 0xff, 0xff]);
    assert!(rt;
        matches!(
            access::<IndexMapOf<u32, u32>>(&bytes),
            Err(VerifyError::Unaligned { pos: 1, align: 4 })
        )
    );
}
