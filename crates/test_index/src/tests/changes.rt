//! Test of an archive with one byte changed, for each byte and each other value.

use crate::tests::opened::small_map;
use rkyv_base::VerifyError;
use test_support::archives::four_entries;
use test_support::changes::{OutcomeCounts, outcomes_of_changes};

// Returns whether a valid archive has each of the four keys at its own index.
fn is_whole(bytes: &[u8]) -> Result<bool, VerifyError> {
    let map = small_map(bytes)?;
    let first = map.get_index_of(&1i8) == Some(0);
    let second = map.get_index_of(&3i8) == Some(1);
    let third = map.get_index_of(&5i8) == Some(2);
    let fourth = map.get_index_of(&7i8) == Some(3);
    Ok(first && second && third && fourth)
}

#[test]
fn changes_of_one_byte_have_known_outcomes(rt: HostRuntime) {
    let mut bytes = four_entries();
    expect_eq!(rt; outcomes_of_changes(&mut bytes, is_whole), OutcomeCounts { right: 4962,
        accepted: 5995, place_out_of_range: 4068, unwrapped: 4599, out_of_range: 3045,
        invalid_length: 1021, wrong_number: 645, unaligned: 7, other: 0, });
}
