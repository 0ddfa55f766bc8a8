//! Tests of lookups, of iteration and of misplaced keys, on each case.

use crate::tests::calls::{
    BEFORE, BYTES, Contents, Found, INDEX_MAP, INDEX_SET, NINE, OTHER, Pair, Part, TEXT, UNIT,
    look_up, look_up_many, misplaced, next,
};
use crate::tests::cases::{Bytes, Case, MAX};
use crate::tests::expect_equal;
use ffi_calls::laws;
use rkyv_base::Narrow;
use std::process::Abort;

// Returns whether the two keys or values are the same.
fn is_same(one: Part<'_>, other: Part<'_>) -> bool {
    one.0 == other.0 && one.1 == other.1
}

/// Returns the index and the value of the first pair with the key.
pub(crate) fn first_of(pairs: &[Pair<'static>], key: Part<'_>) -> Option<(usize, Part<'static>)> {
    for (index, (_, stored, value)) in pairs.iter().enumerate() {
        if is_same(*stored, key) {
            return Some((index, *value));
        }
    }
    None
}

/// Returns the part with another number or other bytes, if calls do not read these for its type.
pub(crate) fn with_unread(code: u8, (number, bytes): Part<'static>) -> Part<'static> {
    match code {
        UNIT => (9, &[0x80]),
        TEXT | BYTES => (MAX, bytes),
        _ => (number, &[0x80]),
    }
}

// Returns the result of a lookup: that of the first pair with the key, of the row, or 'not found'.
fn result_of(case: &Case, contents: Contents, key: Part<'_>) -> Found<'static> {
    if let Some((index, value)) = first_of(case.pairs, key) {
        let is_indexed = contents.0 == INDEX_MAP || contents.0 == INDEX_SET;
        return (0, if is_indexed { index } else { 0 }, value);
    }
    for (absent, status) in case.absent {
        if is_same(*absent, key) {
            return (*status, BEFORE.1, OTHER);
        }
    }
    (1, BEFORE.1, OTHER)
}

// Returns a key: of the pairs, then of those without one, and of the pairs again.
fn key_at(case: &Case, index: usize) -> Part<'static> {
    let absent = index.wrapping_sub(case.pairs.len());
    if let Some((_, key, _)) = case.pairs.get(index) {
        return *key;
    }
    if let Some((key, _)) = case.absent.get(absent) {
        return *key;
    }
    match case.pairs.get(absent.wrapping_sub(case.absent.len())) {
        Some((_, key, _)) => *key,
        None => OTHER,
    }
}

// Returns six keys of a case.
fn keys_of(case: &Case) -> [Part<'static>; 6] {
    [
        key_at(case, 0),
        key_at(case, 1),
        key_at(case, 2),
        key_at(case, 3),
        key_at(case, 4),
        key_at(case, 5),
    ]
}

// Fails the test unless each key has its result, also with another value in the member that is not
// read.
fn expect_lookups(rt: &impl Abort, case: &Case, contents: Contents, bytes: &Bytes) {
    for key in keys_of(case) {
        let (status, index, value) = result_of(case, contents, key);
        let expected = Some((status, index, true));
        let found = look_up(bytes.as_slice(), contents, key, value);
        expect_equal(rt, (contents, key.0, found), (contents, key.0, expected));
        let other = with_unread(contents.1, key);
        let found = look_up(bytes.as_slice(), contents, other, value);
        expect_equal(
            rt,
            (contents, other.0, found),
            (contents, other.0, expected),
        );
    }
}

// Fails the test unless several lookups have the results of as many lookups of one key, and the
// others are unchanged.
fn expect_several(rt: &impl Abort, case: &Case, contents: Contents, bytes: &Bytes, number: usize) {
    let keys = keys_of(case);
    let mut expected = [BEFORE; 6];
    for (index, key) in keys.iter().enumerate() {
        if index < number {
            expected[index] = result_of(case, contents, *key);
        }
    }
    let found = look_up_many(bytes.as_slice(), contents, keys, number, expected);
    expect_equal(rt, (contents, found), (contents, Some(6)));
}

// Returns the first pair behind a bucket or an index, in the order of these.
fn next_of(pairs: &[Pair<'static>], from: u64) -> Option<Pair<'static>> {
    let mut least: Option<Pair<'static>> = None;
    for pair in pairs {
        if pair.0 > from && least.is_none_or(|least| pair.0 < least.0) {
            least = Some(*pair);
        }
    }
    least
}

// Fails the test unless the two items from a bucket or an index on are the next pairs.
fn expect_items(rt: &impl Abort, case: &Case, contents: Contents, bytes: &Bytes, from: u64) {
    let mut expected = [NINE; 2];
    let mut count = 0usize;
    if let Some(first) = next_of(case.pairs, from) {
        expected[0] = first;
        count = 1;
        if let Some(second) = next_of(case.pairs, first.0) {
            expected[1] = second;
            count = 2;
        }
    }
    let found = next(bytes.as_slice(), contents, from, expected);
    let all = Some((count, 2));
    expect_equal(rt, (contents, from, found), (contents, from, all));
}

// Fails the test unless the bytes have this number of misplaced keys, and the limit of one stride
// for each key is exact. The archives have at most sixteen buckets, so each lookup reads one
// stride.
fn expect_count(rt: &impl Abort, case: &Case, contents: Contents, bytes: &Bytes, count: u64) {
    let keys = case.pairs.len() as u64;
    for limit in [MAX, keys] {
        let found = misplaced(bytes.as_slice(), contents, limit);
        expect_equal(rt, (contents, found), (contents, Some((0, count))));
    }
    if keys > 0 {
        let found = misplaced(bytes.as_slice(), contents, keys - 1);
        expect_equal(rt, (contents, found), (contents, Some((15, 7))));
    }
}

// Fails the test unless the keys that repeat an earlier one are misplaced, and with other bytes as
// many as the row has.
fn expect_misplaced(rt: &impl Abort, case: &Case, contents: Contents, bytes: &Bytes) {
    let mut repeated = 0u64;
    for (index, (_, key, _)) in case.pairs.iter().enumerate() {
        if first_of(case.pairs, *key).is_some_and(|(first, _)| first != index) {
            repeated = repeated.wrapping_add(1);
        }
    }
    expect_count(rt, case, contents, bytes, repeated);
    for (pos, others, count) in case.misplaced {
        expect_count(rt, case, contents, &bytes.with(*pos, others), *count);
    }
}

#[test]
fn keys_are_looked_up(rt: HostRuntime) {
    laws::set_lookups_find_listed::<u32, u32, Narrow>();
    each_case!(rt, expect_lookups);
}

#[test]
fn several_keys_are_looked_up(rt: HostRuntime) {
    for number in [6, 3, 1, 0] {
        each_case!(rt, expect_several, number);
    }
}

#[test]
fn items_are_visited(rt: HostRuntime) {
    laws::walks_visit_listed::<u32, u32, u32, u32, Narrow>();
    for from in [0, 1, 2, 3, 7, MAX] {
        each_case!(rt, expect_items, from);
    }
}

#[test]
fn misplaced_keys_are_counted(rt: HostRuntime) {
    each_case!(rt, expect_misplaced);
}
