//! A byte string in an index map, which is read back.

use crate::tests::std_maps::is_read_back_or_fails_to_allocate;
use rkyv_base::access::access;
use rkyv_base::{Bytes, ReadError, VerifyError};
use rkyv_index::{ArchivedIndexMap, IndexMapOf};
use std::alloc::Global;
use test_support::archives::archive;

// Returns the index map of 1 to the bytes 61 62 63.
//
// Full bucket from 4 on, controls from 8 on, bytes from 39 on, entry at 44, header at 56.
fn one_byte_string() -> [u8; 72] {
    archive(
        &[0, 0, 0, 0, 0, 0, 0, 0, 0xff, 0x28, 0xff, 0x28],
        &[
            b'a', b'b', b'c', 0, 0, 1, 0, 0, 0, 0xf7, 0xff, 0xff, 0xff, 3, 0, 0, 0, 0xd0, 0xff,
            0xff, 0xff, 1, 0, 0, 0, 2, 0, 0, 0, 0xe8, 0xff, 0xff, 0xff,
        ],
    )
}

// Returns whether these are the number 1 and its three bytes.
fn is_one_byte_string(pairs: &[(i8, Vec<u8>)]) -> bool {
    match pairs {
        [pair] => pair.0 == 1 && pair.1.as_slice() == b"abc".as_slice(),
        _ => false,
    }
}

// Returns whether the pair is read back from its archive, or the error.
fn byte_string_back(alloc: Global) -> Result<Result<bool, ReadError>, VerifyError> {
    let bytes = one_byte_string();
    let root = ArchivedIndexMap::of(access::<IndexMapOf<i8, Bytes>>(&bytes)?);
    let back: Result<Vec<(i8, Vec<u8>)>, ReadError> = root.deserialize_pairs(alloc);
    Ok(back.map(|list| is_one_byte_string(list.as_slice())))
}

#[test]
fn byte_string_is_read_back_or_fails_to_allocate(rt: HostRuntime) {
    assert!(rt; is_read_back_or_fails_to_allocate(byte_string_back(rt.alloc())));
}

#[test]
fn reading_a_byte_string_back_succeeds(rt: HostRuntime) {
    expect_eq!(rt; byte_string_back(rt.alloc()), Ok(Ok(true)));
}
