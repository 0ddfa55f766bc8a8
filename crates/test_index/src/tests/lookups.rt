//! Tests of lookups, walks, equality and printing of index maps.

use crate::tests::archives::{map_in_a_map, no_pairs, one_key_twice, one_pair};
use crate::tests::forms::expect_found;
use crate::tests::opened::{Small, small_map};
use crate::tests::writing::narrow;
use rkyv_base::access::access;
use rkyv_base::{Element, Narrow, VerifyError, View, to_bytes};
use rkyv_index::map::laws::list_archives::{
    scalars_found_are_listed, texts_found_are_listed, values_found_are_listed,
};
use rkyv_index::map::laws::{
    both_hashers_look_up_alike, clones_are_the_same, index_maps_are_laid_out, items_are_yielded,
    lookups_find_listed, pairs_at_are_listed, walks_by_for_are_iterations, walks_visit_in_order,
};
use rkyv_index::{
    ArchivedIndexMap, IndexMapOf, IndexSetOf, Iter, Keys, OrderedItems, OrderedPairs, Values,
};
use rkyv_scan::{FxHasher64, FxHasher64Wide};
use rkyv_table::Strides;
use std::alloc::Global;
use std::cell::Cell;
use std::fmt::Debug;
use std::test::Fail;
use test_support::archives::four_entries;

// Returns the pair at an index.
fn pair_at(bytes: &[u8], index: usize) -> Result<Option<(i8, i8)>, VerifyError> {
    match small_map(bytes)?.get_index(index) {
        Some((key, value)) => Ok(Some((key.to_native(), value.to_native()))),
        None => Ok(None),
    }
}

/// Returns the number of pairs, and the number of misplaced keys.
pub(crate) fn counts(bytes: &[u8]) -> Result<(usize, usize), VerifyError> {
    let map = small_map(bytes)?;
    Ok((map.len(), map.misplaced()))
}

#[test]
fn found_pairs_have_their_indices(rt: HostRuntime) -> Result<(), Fail> {
    index_maps_are_laid_out::<Narrow, FxHasher64, i8, i8, i8, i8>();
    items_are_yielded::<i8, i8>();
    pairs_at_are_listed::<i8, i8, i8, i8, FxHasher64, Narrow>();
    walks_visit_in_order::<i8, i8, i8, i8, FxHasher64, Narrow>();
    both_hashers_look_up_alike::<i8, i8, i8, Narrow>();
    lookups_find_listed::<i8, i8, i8, i8, FxHasher64, Narrow>();
    values_found_are_listed::<i8, i8, i8, i8, i8, FxHasher64, Narrow>();
    scalars_found_are_listed::<i8, i8, i8, i8, FxHasher64, Narrow>();
    texts_found_are_listed::<i8, i8, i8, FxHasher64, Narrow>();
    let four = four_entries();
    expect_eq!(rt; [pair_at(&four, 1), pair_at(&four, 4)], [Ok(Some((3, 4))), Ok(None)]);
    let bytes = four_entries();
    let root = access::<Small>(&bytes)?;
    let map = ArchivedIndexMap::with_header(root, ArchivedIndexMap::of(root).header());
    let found = map
        .get_full(&7i8)
        .map(|(index, _, value)| (index, value.to_native()));
    expect_eq!(rt; found, Some((3, 8)));
    let bytes = one_pair();
    let map = ArchivedIndexMap::of(access::<IndexMapOf<i8, i8, FxHasher64Wide>>(&bytes)?);
    let found = map.get_full(&1i8);
    let found = found.map(|(index, key, value)| (index, key.to_native(), value.to_native()));
    expect_eq!(rt; found, Some((0, 1, 2)));
    Ok(())
}

// Accepts each key.
fn accept(_query: &i8, _key: View<'_, i8>) -> bool {
    true
}

// Accepts no key.
fn reject(_query: &i8, _key: View<'_, i8>) -> bool {
    false
}

#[test]
fn lookup_takes_a_comparison(rt: HostRuntime) -> Result<(), Fail> {
    let bytes = four_entries();
    let map = small_map(&bytes)?;
    let found = map.get_full_with(&5i8, accept);
    let found = found.map(|(index, _, value)| (index, value.to_native()));
    let value = map.get_with(&5i8, accept).map(|value| value.to_native());
    let key = map
        .get_key_value_with(&5i8, accept)
        .map(|(key, _)| key.to_native());
    let index = map.get_index_of_with(&5i8, accept);
    expect_eq!(rt; (found, value, key), (Some((2, 6)), Some(6), Some(5)));
    assert!(rt; index == Some(2));
    Ok(())
}

// Returns the number of buckets of a map.
fn capacity(bytes: &[u8]) -> Result<usize, VerifyError> {
    Ok(small_map(bytes)?.capacity())
}

#[test]
fn the_buckets_of_a_map(rt: HostRuntime) {
    expect_eq!(rt; [capacity(&four_entries()), capacity(&no_pairs())], [Ok(5), Ok(0)]);
}

#[test]
fn a_walk_keeps_the_order(rt: HostRuntime) -> Result<(), Fail> {
    walks_by_for_are_iterations::<i8, i8, FxHasher64, Narrow>();
    let bytes = four_entries();
    let map = small_map(&bytes)?;
    let mut keys = 0i32;
    for key in map.keys() {
        keys = keys
            .wrapping_mul(10)
            .wrapping_add(i32::from(key.to_native()));
    }
    let mut values = 0i32;
    for value in map.values() {
        values = values
            .wrapping_mul(10)
            .wrapping_add(i32::from(value.to_native()));
    }
    expect_eq!(rt; (keys, values), (1357, 2468));
    Ok(())
}

// `len` and `size_hint` of an iterator: before all steps, in between, and after all.
pub(crate) type Lengths = [(usize, (usize, Option<usize>)); 3];

// Returns the next pair.
fn next_pair(rest: &mut Iter<'_, i8, i8>) -> Option<(i8, i8)> {
    match rest.next() {
        Some((key, value)) => Some((key.to_native(), value.to_native())),
        None => None,
    }
}

// Returns the next key.
pub(crate) fn next_key<V: Element>(rest: &mut Keys<'_, i8, V>) -> Option<i8> {
    match rest.next() {
        Some(key) => Some(key.to_native()),
        None => None,
    }
}

// Returns the next value.
fn next_value(rest: &mut Values<'_, i8, i8>) -> Option<i8> {
    rest.next().map(|value| value.to_native())
}

// Takes six steps of an iterator by a function. Returns their results, and then `len` and
// `size_hint` before the steps, after two of them and after all.
macro_rules! six_steps {
    ($rest:expr, $next:path) => {{
        let mut rest = $rest;
        let before = (rest.len(), rest.size_hint());
        let (first, second) = ($next(&mut rest), $next(&mut rest));
        let after_two = (rest.len(), rest.size_hint());
        let (third, fourth) = ($next(&mut rest), $next(&mut rest));
        let steps = [first, second, third, fourth, $next(&mut rest), $next(&mut rest)];
        (steps, [before, after_two, (rest.len(), rest.size_hint())])
    }};
}

fn pairs_of(bytes: &[u8]) -> Result<([Option<(i8, i8)>; 6], Lengths), VerifyError> {
    Ok(six_steps!(small_map(bytes)?.iter(), next_pair))
}

fn keys_of(bytes: &[u8]) -> Result<([Option<i8>; 6], Lengths), VerifyError> {
    Ok(six_steps!(small_map(bytes)?.keys(), next_key))
}

fn values_of(bytes: &[u8]) -> Result<([Option<i8>; 6], Lengths), VerifyError> {
    Ok(six_steps!(small_map(bytes)?.values(), next_value))
}

#[test]
fn lengths_of_walks_are_exact(rt: HostRuntime) {
    let bytes = four_entries();
    let pairs = [
        Some((1, 2)),
        Some((3, 4)),
        Some((5, 6)),
        Some((7, 8)),
        None,
        None,
    ];
    let keys = [Some(1), Some(3), Some(5), Some(7), None, None];
    let values = [Some(2), Some(4), Some(6), Some(8), None, None];
    let left = [(4, (4, Some(4))), (2, (2, Some(2))), (0, (0, Some(0)))];
    expect_eq!(rt; pairs_of(&bytes), Ok((pairs, left)));
    expect_eq!(rt; keys_of(&bytes), Ok((keys, left)));
    expect_eq!(rt; values_of(&bytes), Ok((values, left)));
}

// In the changed archive, the buckets of both keys have the index 0.
#[test]
fn of_equal_keys_the_first_is_found(rt: HostRuntime) {
    let bytes = one_key_twice();
    let mut changed = bytes;
    changed[4] = 0;
    expect_found::<Narrow>(&rt, &changed, &[(1, Some((0, 1, 2)))]);
    expect_eq!(rt; [counts(&bytes), counts(&changed)], [Ok((2, 1)); 2]);
    expect_eq!(rt; pair_at(&bytes, 1), Ok(Some((1, 9))));
}

#[test]
fn a_comparison_that_accepts_none(rt: HostRuntime) -> Result<(), Fail> {
    let bytes = one_key_twice();
    let map = small_map(&bytes)?;
    let calls = Cell::new(0usize);
    let found = map.get_with(&1i8, |_: &i8, _: View<'_, i8>| {
        calls.set(calls.get().wrapping_add(1));
        false
    });
    assert!(rt; found.is_none());
    expect_eq!(rt; calls.get(), 4);
    Ok(())
}

#[test]
fn strides_are_counted(rt: HostRuntime) -> Result<(), Fail> {
    let four = four_entries();
    let map = small_map(&four)?;
    let none = no_pairs();
    let empty = small_map(&none)?;
    let mut strides = Strides::new();
    expect_eq!(rt; map.get_index_of_counted(&5i8, |_: &i8, _: View<'_, i8>| true, &mut strides),
        Some(2));
    expect_eq!(rt; strides.count(), 1);
    expect_eq!(rt; map.get_index_of_counted(&5i8, reject, &mut strides), None);
    expect_eq!(rt; strides.count(), 2);
    expect_eq!(rt; empty.get_index_of_counted(&5i8, accept, &mut strides), None);
    expect_eq!(rt; strides.count(), 2);
    // Seventeen equal keys fill the sixteen buckets of the first stride of their hash, and one of
    // the second stride, which has an empty control byte behind it.
    let bytes = narrow(rt.alloc(), &[(1, 2); 17])?;
    let map = small_map(bytes.as_slice())?;
    let last = match map.get_index(16) {
        Some((key, _)) => key.pos(),
        None => 0,
    };
    let mut strides = Strides::new();
    expect_eq!(rt; map.get_index_of_counted(&1i8, accept, &mut strides), Some(0));
    expect_eq!(rt; strides.count(), 1);
    let at = |_: &i8, key: View<'_, i8>| key.pos() == last;
    expect_eq!(rt; map.get_index_of_counted(&1i8, at, &mut strides), Some(16));
    expect_eq!(rt; strides.count(), 3);
    expect_eq!(rt; map.get_index_of_counted(&1i8, reject, &mut strides), None);
    expect_eq!(rt; strides.count(), 5);
    Ok(())
}

// The hash of 5 doesn't lead to the bucket of the key that was changed to 5.
#[test]
fn a_key_that_was_changed_is_misplaced(rt: HostRuntime) {
    let mut bytes = one_pair();
    bytes[39] = 5;
    expect_eq!(rt; (pair_at(&bytes, 0), counts(&bytes)), (Ok(Some((5, 2))), Ok((1, 1))));
    expect_found::<Narrow>(&rt, &bytes, &[(5, None)]);
}

#[test]
fn equality_is_that_of_the_lists(rt: HostRuntime) -> Result<(), Fail> {
    let bytes = four_entries();
    let map = ArchivedIndexMap::of(access::<Small>(&bytes)?);
    let backwards = narrow(rt.alloc(), &[(7, 8), (5, 6), (3, 4), (1, 2)])?;
    let other = ArchivedIndexMap::of(access::<Small>(backwards.as_slice())?);
    let own = map.eq_index(map);
    let turned = map.eq_index(other);
    assert_eq!(rt; (own, turned, map.misplaced()), (true, false, 0));
    Ok(())
}

// Returns whether a value prints as `text`.
pub(crate) fn prints<M: Debug>(alloc: Global, value: &M, text: &str) -> bool {
    matches!(format!(in alloc; "{value:?}"), Ok(shown) if shown.as_str() == text)
}

#[test]
fn maps_are_printed(rt: HostRuntime) -> Result<(), Fail> {
    let (four, none) = (four_entries(), no_pairs());
    expect_eq!(rt; prints(rt.alloc(), &small_map(&four)?, "{1: 2, 3: 4, 5: 6, 7: 8}"), true);
    expect_eq!(rt; prints(rt.alloc(), &small_map(&none)?, "{}"), true);
    Ok(())
}

type Nested = IndexMapOf<i8, Small>;

type Sets = IndexMapOf<i8, IndexSetOf<i8>>;

#[test]
fn nested_collections_are_printed_and_compared(rt: HostRuntime) -> Result<(), Fail> {
    let bytes = map_in_a_map();
    let map = ArchivedIndexMap::of(access::<Nested>(&bytes)?);
    expect_eq!(rt; (prints(rt.alloc(), &map, "{1: {1: 2}}"), map == map), (true, true));
    let items = OrderedItems(vec![in rt.alloc(); 4i8, 1, 3]?);
    let outer = OrderedPairs(vec![in rt.alloc(); (1i8, items)]?);
    let bytes = to_bytes(rt.alloc(), &outer)?;
    let map = ArchivedIndexMap::of(access::<Sets>(bytes.as_slice())?);
    expect_eq!(rt; (prints(rt.alloc(), &map, "{1: {4, 1, 3}}"), map == map), (true, true));
    Ok(())
}

#[test]
fn a_copy_of_a_map_is_read(rt: HostRuntime) -> Result<(), Fail> {
    clones_are_the_same::<i8, i8, FxHasher64, Narrow>();
    let bytes = four_entries();
    expect_eq!(rt; small_map(&bytes)?.clone()?.len(), 4);
    Ok(())
}
