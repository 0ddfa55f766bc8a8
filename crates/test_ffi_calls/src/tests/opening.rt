//! Tests of opening archives, by the codes of their contents.

use crate::tests::calls::{
    BOOL, BYTES, Contents, F32, F64, INDEX_MAP, INDEX_SET, MAP, Numbers, SET, TEXT, U32, U64, UNIT,
    len, opened,
};
use crate::tests::cases::{Bytes, Case, EMPTY_27, HEADER};
use crate::tests::expect_equal;
use std::process::Abort;

// The numbers of no error.
const VALID: Numbers = (0, 0, 0, 0);

// Fails the test unless opening an archive with these contents has this error.
fn expect_error(rt: &impl Abort, archive: &[u8], contents: Contents, expected: Numbers) {
    let (numbers, status) = opened(archive, contents);
    expect_equal(
        rt,
        (contents, numbers, status),
        (contents, expected, expected.0),
    );
}

// Fails the test unless the case is valid as its contents alone, and each damaged byte has its
// error.
fn expect_errors(rt: &impl Abort, case: &Case, contents: Contents, bytes: &Bytes) {
    expect_error(rt, bytes.as_slice(), contents, VALID);
    expect_equal(rt, len(bytes.as_slice(), contents), Some(case.pairs.len()));
    for (pos, byte, expected) in case.damaged {
        expect_error(
            rt,
            bytes.with(*pos, &[*byte]).as_slice(),
            contents,
            *expected,
        );
    }
    for others in case.rejected {
        let (_, status) = opened(bytes.as_slice(), *others);
        expect_equal(rt, (*others, status == 0), (*others, false));
    }
}

#[test]
fn archives_are_validated(rt: HostRuntime) {
    each_case!(rt, expect_errors);
}

// The header of a hash map has 12 or 24 bytes, and that of an index map 16 or 32.
#[test]
fn headers_out_of_range_have_a_position_and_a_size(rt: HostRuntime) {
    for (kind, size) in [(MAP, 12), (SET, 12), (INDEX_MAP, 16), (INDEX_SET, 16)] {
        for key in [U32, U64, TEXT] {
            for value in [U32, U64, TEXT] {
                let value = if kind == MAP || kind == INDEX_MAP {
                    value
                } else {
                    UNIT
                };
                let (narrow, wide) = ((kind, key, value, 4), (kind, key, value, 8));
                let pos = if size == 12 { -12 } else { -16 };
                expect_error(&rt, &[], narrow, (16, pos, size, 0));
                expect_error(&rt, &[0; 23], wide, (16, 23 + pos * 2, size * 2, 0));
            }
        }
    }
}

#[test]
fn codes_without_a_collection_are_unknown(rt: HostRuntime) {
    let rows = [
        (0, U32, U32, 4),
        (INDEX_SET, U32, U32, 4),
        (5, U32, U32, 4),
        (MAP, U32, UNIT, 4),
        (INDEX_MAP, U32, UNIT, 4),
        (SET, U32, U32, 4),
        (MAP, UNIT, U32, 4),
        (MAP, BOOL, U32, 4),
        (MAP, BYTES, U32, 4),
        (MAP, 0x23, U32, 4),
        (MAP, F32, U32, 4),
        (SET, F64, UNIT, 4),
        (SET, U32, F32, 4),
        (MAP, U32, 0x32, 4),
        (MAP, U32, 6, 4),
        (MAP, U32, U32, 0),
        (MAP, U32, U32, 5),
    ];
    for contents in rows {
        expect_error(&rt, b"\x01\0\0\0\0\0\0\0\0\0\0\0", contents, (7, 0, 0, 0));
    }
}

// The buckets of a number have 16 bytes, those of a text 24, and the control bytes 31. The first
// four bytes are absent.
#[test]
fn parts_out_of_range_have_a_position_and_a_size(rt: HostRuntime) {
    let number = Bytes::new(&[&[0; 12], b"\xff\x28\xff\x28", EMPTY_27, HEADER]);
    let text = Bytes::new(&[&[0; 20], b"\xff\x15\xff\x15", EMPTY_27, HEADER]);
    expect_error(&rt, number.as_slice(), (MAP, U32, U32, 4), (16, -4, 47, 0));
    expect_error(&rt, text.as_slice(), (MAP, TEXT, U32, 4), (16, -4, 55, 0));
}

#[test]
fn unaligned_headers_have_a_position_and_an_alignment(rt: HostRuntime) {
    for key in [U32, TEXT] {
        expect_error(&rt, &[0; 13], (MAP, key, U32, 4), (17, 1, 4, 0));
        expect_error(&rt, &[0; 28], (MAP, key, U64, 8), (17, 4, 8, 0));
    }
}
