//! Tests of archives of lists of items, as each collection.

use crate::tests::calls::{
    Contents, F32, INDEX_MAP, INDEX_SET, MAP, OTHER, Pair, SET, TEXT, U32, U64, UNIT, any, write,
};
use crate::tests::cases::{Bytes, Case, GREAT, LARGE, MAX};
use crate::tests::expect_equal;
use crate::tests::lookups::with_unread;
use ffi_calls::any_value::AnyPair;
use ffi_calls::laws;
use rkyv_base::Narrow;
use std::alloc::Global;
use std::process::Abort;

// Returns the item of a pair. The members that are not read may have other values.
fn item_of(pairs: &[Pair<'static>], index: usize, unread: Option<Contents>) -> AnyPair<'static> {
    let (_, key, value) = pairs.get(index).copied().unwrap_or((0, OTHER, OTHER));
    match unread {
        Some((_, of, to, _)) => AnyPair {
            key: any(with_unread(of, key)),
            value: any(with_unread(to, value)),
        },
        None => AnyPair {
            key: any(key),
            value: any(value),
        },
    }
}

// Returns the result of a write of at most three pairs.
fn written(
    alloc: Global,
    contents: Contents,
    pairs: &[Pair<'static>],
    unread: Option<Contents>,
    bytes: &[u8],
) -> (u32, bool) {
    let one = item_of(pairs, 0, unread);
    let two = item_of(pairs, 1, unread);
    let three = item_of(pairs, 2, unread);
    match pairs.len() {
        0 => write(alloc, contents, &[], bytes),
        1 => write(alloc, contents, &[one], bytes),
        2 => write(alloc, contents, &[one, two], bytes),
        _ => write(alloc, contents, &[one, two, three], bytes),
    }
}

// Fails the test unless the archive of the pairs is that of the case.
fn expect_archive(rt: &impl Abort, case: &Case, contents: Contents, bytes: &Bytes, alloc: Global) {
    let found = written(alloc, contents, case.pairs, None, bytes.as_slice());
    expect_equal(rt, (contents, found), (contents, (0, true)));
}

// Fails the test unless the archive of the pairs is that of the case, or an allocation fails.
fn expect_permitted(
    rt: &impl Abort,
    case: &Case,
    contents: Contents,
    bytes: &Bytes,
    alloc: Global,
) {
    let unread = Some(contents);
    let (status, is_expected) = written(alloc, contents, case.pairs, unread, bytes.as_slice());
    assert!(*rt; is_expected && (status == 0 || status == 12));
}

#[test]
fn each_archive_succeeds(rt: HostRuntime) {
    laws::archives_represent_their_lists::<u32, u32, Narrow>();
    laws::set_archives_represent_their_lists::<u32, Narrow>();
    laws::indexes_represent_their_lists::<u32, u32, u32, u32, Narrow>();
    let alloc = rt.alloc();
    each_case!(rt, expect_archive, alloc);
}

#[test]
fn archives_have_their_bytes_or_no_memory(rt: HostRuntime) {
    let alloc = rt.alloc();
    each_case!(rt, expect_permitted, alloc);
}

// A write of items that fails: the contents, the pairs and the status.
type Row = (Contents, &'static [Pair<'static>], u32);

macro_rules! rows {
    ($($kind:tt $k:ident $v:ident $width:literal: $($of:tt => $to:tt),+ = $error:literal;)*) => {
        &[$((($kind, $k, $v, $width), &[$((0, part!($of), part!($to))),+], $error)),*]
    };
}

const FAILING: &[Row] = rows! {
    MAP U32 U32 4: LARGE => 1 = 3;
    MAP U64 U32 8: 1 => LARGE = 3;
    MAP U32 TEXT 4: 1 => [b"\x80"] = 4;
    MAP U64 TEXT 8: GREAT => [b"\x80"] = 4;
    MAP TEXT TEXT 4: [b"\x80"] => [b"x"] = 4;
    MAP TEXT TEXT 8: [b"x"] => [b"a\xff"] = 4;
    SET U32 UNIT 8: LARGE => (9, b"\x80") = 3;
    SET TEXT UNIT 4: [b"\x80"] => (9, b"\x80") = 4;
    INDEX_MAP U32 U32 4: 1 => LARGE = 3;
    INDEX_MAP U32 U32 8: 1 => LARGE = 3;
    INDEX_MAP U64 U32 4: GREAT => LARGE = 3;
    INDEX_MAP U64 U32 8: 1 => MAX = 3;
    INDEX_MAP TEXT U32 4: [b"main"] => LARGE = 3;
    INDEX_MAP TEXT U64 4: [b"\x80"] => LARGE = 4;
    INDEX_MAP U32 TEXT 4: 1 => [b"\x80"] = 4;
    INDEX_MAP U64 TEXT 8: GREAT => [b"\x80"] = 4;
    INDEX_MAP TEXT TEXT 4: [b"\x80"] => [b"x"] = 4;
    INDEX_MAP TEXT TEXT 8: [b"x"] => [b"a\xff"] = 4;
    INDEX_SET U32 UNIT 4: LARGE => (9, b"\x80") = 3;
    INDEX_SET TEXT UNIT 8: [b"\x80"] => (9, b"\x80") = 4;
    // The key before the value.
    MAP TEXT U32 4: [b"\x80"] => LARGE = 4;
    MAP U32 TEXT 4: LARGE => [b"\x80"] = 3;
    // The first item that has no place.
    MAP U32 U32 4: 1 => LARGE, 1 => 2 = 3;
    MAP U32 U32 4: 1 => 2, 1 => MAX = 3;
    MAP U32 U32 8: 1 => 0xffff_ffff, 1 => LARGE = 3;
    MAP U64 U32 4: 1 => 2, GREAT => LARGE = 3;
    MAP TEXT U32 4: [b"main"] => LARGE, [b"\x80"] => 1 = 3;
    MAP TEXT U32 4: [b"\x80"] => 1, [b"main"] => LARGE = 4;
    MAP TEXT U32 8: [b"\x80"] => LARGE, [b"main"] => 1 = 4;
    MAP TEXT U32 8: [b"main"] => 1, [b"main"] => LARGE = 3;
    MAP TEXT U64 4: [b"main"] => MAX, [b"\x80"] => 1 = 4;
    MAP TEXT U64 8: [b"\x80"] => LARGE, [b"\x80"] => LARGE = 4;
    MAP U32 TEXT 8: 1 => [b"x"], 1 => [b"\xc3"] = 4;
    MAP U64 TEXT 4: 1 => [b"x"], GREAT => [b"\xc3"] = 4;
    SET TEXT UNIT 4: [b"x"] => (9, b"\x80"), [b"\x80"] => (9, b"\x80") = 4;
    INDEX_MAP TEXT TEXT 4: [b"x"] => [b"x"], [b"\x80"] => [b"x"] = 4;
    INDEX_MAP U32 TEXT 8: 1 => [b"x"], 5 => [b""], 1 => [b"\xc3"] = 4;
    INDEX_MAP U64 TEXT 4: 1 => [b"x"], GREAT => [b"\xc3"], 1 => [b"x"] = 4;
    // Codes without a collection.
    0 U32 U32 4: 1 => 2 = 7;
    5 U32 U32 4: 1 => 2 = 7;
    MAP F32 U32 4: 1 => 2 = 7;
    MAP U32 UNIT 4: 1 => 2 = 7;
    SET U32 U32 4: 1 => 2 = 7;
    MAP U32 U32 2: 1 => 2 = 7;
    MAP U32 U32 2: LARGE => 2 = 7;
};

#[test]
fn the_status_of_the_first_error_succeeds(rt: HostRuntime) {
    for (contents, pairs, status) in FAILING {
        let found = written(rt.alloc(), *contents, pairs, None, &[]);
        expect_equal(&rt, (*contents, found), (*contents, (*status, true)));
    }
}
