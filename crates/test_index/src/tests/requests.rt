//! Tests of the number of calls of the iterators of pairs and of keys.

use rkyv_base::{Narrow, VecWriter};
use rkyv_index::{ArchivedIndexMap, ArchivedIndexSet};
use rkyv_scan::FxHasher64;
use std::alloc::Global;
use std::cell::Cell;
use std::iter;
use test_support::requests::{
    Outcome, expected_at_the_end, outcome_of, right_writes, writes_at_the_end, yields_next,
};

type Numbers = ArchivedIndexMap<'static, i8, i8, FxHasher64, Narrow>;

type Keys = ArchivedIndexSet<'static, i8, FxHasher64, Narrow>;

// Writes an index map of `pairs` pairs under the claimed length `len`.
// Returns the result, and the number of calls of the iterator.
fn requests_of_map(
    alloc: Global,
    pairs: usize,
    len: usize,
    load_factor: (usize, usize),
) -> (Outcome, usize) {
    let requests = Cell::new(0usize);
    let mut writer = VecWriter::new(alloc);
    let outcome = Numbers::serialize_from_iter::<VecWriter, i8, i8, i8, i8, _>(
        alloc,
        iter::from_fn(|| yields_next(&requests, pairs).then_some((1i8, 2i8))),
        len,
        load_factor,
        &mut writer,
    );
    (outcome_of(outcome, &writer), requests.get())
}

// Does the same with an index set of `keys` keys.
fn requests_of_set(
    alloc: Global,
    keys: usize,
    len: usize,
    load_factor: (usize, usize),
) -> (Outcome, usize) {
    let requests = Cell::new(0usize);
    let mut writer = VecWriter::new(alloc);
    let outcome = Keys::serialize_from_iter::<VecWriter, i8, i8, _>(
        alloc,
        iter::from_fn(|| yields_next(&requests, keys).then_some(1i8)),
        len,
        load_factor,
        &mut writer,
    );
    (outcome_of(outcome, &writer), requests.get())
}

#[test]
fn iterators_are_called_as_often_as_needed(rt: HostRuntime) {
    let alloc = rt.alloc();
    expect_eq!(rt; right_writes(alloc, requests_of_map), 24);
    expect_eq!(rt; right_writes(alloc, requests_of_set), 24);
    expect_eq!(rt; writes_at_the_end(alloc, requests_of_map), expected_at_the_end());
    expect_eq!(rt; writes_at_the_end(alloc, requests_of_set), expected_at_the_end());
}
