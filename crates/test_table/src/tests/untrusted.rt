//! Untrusted headers and control bytes.

use crate::tests::archives::{bools_archived, fifteen_archived};
use crate::tests::reading::{counts, counts_and_lookup, failure};
use rkyv_base::access::access;
use rkyv_base::{Entry, Narrow, PartRange, VerifyError, Wide};
use rkyv_table::{ArchivedHashTable, TableOf};
use test_support::archives::one_number;

#[test]
fn the_distance_of_an_empty_table_is_not_read(rt: HostRuntime) {
    expect_eq!(rt; counts_and_lookup::<Entry<u32, u32>>(&[77, 0, 0, 0, 0, 0, 0, 0, 0, 0, 0, 0], 0),
        Ok((true, 0, 0, true)));
}

#[test]
fn rejects_wrong_lengths(rt: HostRuntime) {
    expect_eq!(rt; failure::<Entry<u32, u32>, Narrow>(&[1, 0, 0, 0, 2, 0, 0, 0, 2, 0, 0, 0]),
        Some(VerifyError::InvalidLength { len: 2, cap: 2 }));
    let mut bytes = one_number();
    bytes[52] = 0;
    expect_eq!(rt; failure::<Entry<u32, u32>, Narrow>(&bytes),
        Some(VerifyError::WrongNumberOfElements { expected: 0, actual: 1, }));
}

#[test]
fn a_table_that_has_buckets_and_no_items_is_accepted(rt: HostRuntime) {
    let mut bytes = one_number();
    bytes[17] = 0xff;
    bytes[19] = 0xff;
    bytes[52] = 0;
    expect_eq!(rt; counts_and_lookup::<Entry<u32, u32>>(&bytes, 0x5000_0000_0000_0001),
        Ok((true, 0, 2, true)));
}

#[test]
fn mirrored_control_bytes_are_compared(rt: HostRuntime) {
    let mut large = fifteen_archived();
    large[32] = 1;
    expect_eq!(rt; failure::<u8, Narrow>(&large),
        Some(VerifyError::UnwrappedControlByte { index: 16 }));
    let mut bytes = one_number();
    bytes[20] = 0;
    expect_eq!(rt; failure::<Entry<u32, u32>, Narrow>(&bytes),
        Some(VerifyError::UnwrappedControlByte { index: 4 }));
    let mut bytes = one_number();
    bytes[16] = 0x80;
    bytes[18] = 0x80;
    expect_eq!(rt; counts::<Entry<u32, u32>, Narrow>(&bytes), Ok((1, 2)));
}

#[test]
fn the_part_of_a_table_is_the_range_up_to_its_end(rt: HostRuntime) {
    let whole = PartRange { lo: 0, hi: 48 };
    let accepted = matches!(
        ArchivedHashTable::<Entry<u32, u32>, Narrow>::verify(&one_number(), 48, whole),
        Ok(PartRange { lo: 47, hi: 48 })
    );
    let narrower = PartRange { lo: 1, hi: 48 };
    let outside = Err(VerifyError::OutOfRange { pos: 0, size: 47 });
    expect_eq!(rt; ArchivedHashTable::<Entry<u32, u32>, Narrow>::verify(&one_number(), 48,
        narrower), outside);
    let shorter = PartRange { lo: 0, hi: 46 };
    expect_eq!(rt; ArchivedHashTable::<Entry<u32, u32>, Narrow>::verify(&one_number(), 48, shorter),
        outside);
    assert!(rt; accepted);
}

// Returns `true` if the first `len` bytes of the archive of one pair have the expected result.
fn has_known_result(len: usize, front: &[u8]) -> bool {
    let failure = failure::<Entry<u32, u32>, Narrow>(front);
    let expected = match len {
        0..12 => VerifyError::OutOfRange {
            pos: len as i128 - 12,
            size: 12,
        },
        12 => VerifyError::InvalidLength { len: 2, cap: 0 },
        16 => return counts::<Entry<u32, u32>, Narrow>(front) == Ok((0, 0)),
        20 => VerifyError::OutOfRange {
            pos: -5_502_486_512,
            size: 6_190_297_351,
        },
        24 | 52 => return matches!(failure, Some(VerifyError::OutOfRange { .. })),
        28 | 32 | 36 | 40 | 44 => VerifyError::InvalidLength {
            len: 4_294_967_295,
            cap: 4_294_967_295,
        },
        48 => VerifyError::InvalidLength {
            len: 4_294_967_295,
            cap: 16_777_215,
        },
        56 => VerifyError::InvalidLength {
            len: 4_294_967_264,
            cap: 1,
        },
        _ => VerifyError::Unaligned {
            pos: len as u64 - 12,
            align: 4,
        },
    };
    failure == Some(expected)
}

#[test]
fn archives_of_other_lengths_and_widths_have_known_results(rt: HostRuntime) {
    let mut right = access::<TableOf<Entry<u32, u32>>>(&one_number()).is_ok();
    for len in 0..60 {
        right = right && has_known_result(len, &one_number()[..len]);
    }
    assert!(rt; right);
    expect_eq!(rt; failure::<Entry<u32, u32>, Wide>(&one_number()),
        Some(VerifyError::Unaligned { pos: 36, align: 8 }));
}

#[test]
fn rejects_invalid_items(rt: HostRuntime) {
    let mut bytes = bools_archived();
    expect_eq!(rt; counts::<bool, Narrow>(&bytes), Ok((2, 3)));
    // an empty bucket can have any bytes
    bytes[1] = 2;
    expect_eq!(rt; counts::<bool, Narrow>(&bytes), Ok((2, 3)));
    bytes[0] = 2;
    expect_eq!(rt; failure::<bool, Narrow>(&bytes), Some(VerifyError::InvalidValue { pos: 0 }));
}
