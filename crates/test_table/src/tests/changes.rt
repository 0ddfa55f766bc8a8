//! Archives with one byte changed to each other value.

use crate::tests::archives::hash_of_u32;
use crate::tests::reading::{count_walked, failure, value_of, walks_over};
use rkyv_base::{Entry, Narrow, VerifyError};
use test_support::archives::one_number;
use test_support::changes::{OutcomeCounts, outcomes_of_changes};

// Returns `true` if a lookup of a number reads one stride.
fn is_one_stride(bytes: &[u8], key: u32) -> bool {
    matches!(value_of::<Narrow>(bytes, hash_of_u32(key), key), Ok((_, 1)))
}

// Returns `true` if a walk over a valid archive returns one item, and a lookup of each number
// from 0 to 9 reads one stride.
fn is_small(bytes: &[u8]) -> Result<bool, VerifyError> {
    let mut right = count_walked::<Entry<u32, u32>, Narrow>(bytes)? == 1;
    for key in 0..10 {
        right = right && is_one_stride(bytes, key);
    }
    Ok(right)
}

#[test]
fn changes_of_one_byte_have_known_outcomes(rt: HostRuntime) {
    let mut bytes = one_number();
    expect_eq!(rt; outcomes_of_changes(&mut bytes, is_small), OutcomeCounts { right: 7764,
        accepted: 7764, place_out_of_range: 0, unwrapped: 4220, out_of_range: 2037,
        invalid_length: 1021, wrong_number: 257, unaligned: 1, other: 0, });
}

#[test]
fn rejects_a_distance_to_an_unaligned_position(rt: HostRuntime) {
    let mut bytes = one_number();
    bytes[48] = 0xe1;
    expect_eq!(rt; failure::<Entry<u32, u32>, Narrow>(&bytes),
        Some(VerifyError::Unaligned { pos: 1, align: 4 }));
}

#[test]
fn a_changed_key_is_walked_and_not_found(rt: HostRuntime) {
    let mut bytes = one_number();
    bytes[0] = 5;
    let pair = [5, 0, 0, 0, 2, 0, 0, 0];
    expect_eq!(rt; value_of::<Narrow>(&bytes, hash_of_u32(1), 1), Ok((None, 1)));
    expect_eq!(rt; value_of::<Narrow>(&bytes, hash_of_u32(5), 5), Ok((None, 1)));
    expect_eq!(rt; walks_over::<Entry<u32, u32>, Narrow>(&bytes, &pair), Ok(true));
}
