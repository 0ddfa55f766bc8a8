//! Tests of reading maps in place, from fixed bytes.
ghost use Rattle.std.specs.Int.{w32};
ghost use Rattle.rkyv_base.specs.{IsValidView, entry_spec, text_spec};

use crate::tests::archives::map_archive;
use crate::tests::lookups::expect_found;
use crate::tests::opened::{Small, nested_map, small_map};
use crate::tests::query_results::{
    counts, equal_maps, expect_counts, expect_values, map_prints, number_of,
};
use rkyv_base::access::access;
use rkyv_base::{Entry, Narrow, Text, VerifyError, View, Wide, access_in};
use rkyv_collections::map::laws::list_archives::{
    scalars_found_are_listed, values_found_are_listed,
};
use rkyv_collections::map::laws::{
    clones_are_the_same, equal_maps_have_the_same_pairs, items_are_yielded, maps_are_compared,
    maps_are_laid_out, matched_keys_are_found, repeated_keys_are_misplaced,
};
use rkyv_collections::{ArchivedHashMap, HashMapOf};
use rkyv_scan::FxHasher64;
use std::alloc::Global;
use std::cell::Cell;
use std::process::Abort;
use std::test::Fail;
use test_support::archives::{
    four_pairs, four_pairs_backwards, nested, no_items, one_key_twice, one_pair, one_symbol,
    one_wide_number,
};

// Compares two maps by both calls, whose results are to be `expected`.
fn expect_equality(rt: &impl Abort, bytes: &[u8], other: &[u8], expected: bool) {
    expect_eq!(*rt; equal_maps::<i8, i8, FxHasher64, Narrow>(bytes, other),
        Ok((expected, expected)));
}

fn small_prints(alloc: Global, bytes: &[u8], text: &str) -> bool {
    map_prints::<i8, i8, FxHasher64, Narrow>(alloc, bytes, text)
}

#[test]
fn maps_of_no_pair_and_of_one_are_read(rt: HostRuntime) {
    let bytes = no_items();
    expect_counts(&rt, &bytes, (true, 0, 0));
    expect_found(&rt, &bytes, 1, (None, None, false));
    expect_equality(&rt, &bytes, &bytes, true);
    expect_eq!(rt; small_prints(rt.alloc(), &bytes, "{}"), true);
    items_are_yielded::<i8, i8, FxHasher64, Narrow>();
    maps_are_laid_out::<Narrow, FxHasher64, i8, i8, i8, i8>();
    let bytes = one_pair();
    expect_counts(&rt, &bytes, (false, 1, 2));
    expect_found(&rt, &bytes, 1, (Some(2), Some((0, 1)), true));
    expect_found(&rt, &bytes, 2, (None, None, false));
    expect_eq!(rt; small_prints(rt.alloc(), &bytes, "{1: 2}"), true);
}

// Counts a call of a comparison, and returns `accepts`.
fn count_call(calls: &Cell<usize>, accepts: bool) -> bool {
    calls.set(calls.get().wrapping_add(1));
    accepts
}

// Looks a key up by a comparison that always returns `accepts`.
// Returns the position of the value, if one is found, and the number of calls of the comparison.
fn value_with(bytes: &[u8], key: i8, accepts: bool) -> Result<(Option<u64>, usize), VerifyError> {
    let map = small_map(bytes)?;
    let calls = Cell::new(0usize);
    match map.get_with(&key, |_: &i8, _: View<'_, i8>| count_call(&calls, accepts)) {
        Some(value) => Ok((Some(value.pos()), calls.get())),
        None => Ok((None, calls.get())),
    }
}

// Does the same by the lookup that also returns the key.
fn pair_with(bytes: &[u8], key: i8, accepts: bool) -> Result<(Option<u64>, usize), VerifyError> {
    let map = small_map(bytes)?;
    let calls = Cell::new(0usize);
    match map.get_key_value_with(&key, |_: &i8, _: View<'_, i8>| count_call(&calls, accepts)) {
        Some((_, value)) => Ok((Some(value.pos()), calls.get())),
        None => Ok((None, calls.get())),
    }
}

// Compares the results of both lookups, which are to be the same.
fn expect_with(
    rt: &impl Abort,
    bytes: &[u8],
    key: i8,
    accepts: bool,
    expected: (Option<u64>, usize),
) {
    expect_eq!(*rt; value_with(bytes, key, accepts), Ok(expected));
    expect_eq!(*rt; pair_with(bytes, key, accepts), Ok(expected));
}

// In a small table each control byte is mirrored, so a comparison that fails sees each pair twice.
#[test]
fn lookup_takes_a_comparison(rt: HostRuntime) {
    let one = one_pair();
    let twice = one_key_twice();
    expect_with(&rt, &one, 1, true, (Some(1), 1));
    expect_with(&rt, &one, 1, false, (None, 2));
    expect_with(&rt, &one, 2, true, (None, 0));
    expect_with(&rt, &twice, 1, true, (Some(5), 1));
    expect_with(&rt, &twice, 1, false, (None, 4));
}

// Returns whether the two texts of a key are those of `query`.
fn has_names(query: &(&str, &str), key: View<'_, Entry<Text, Text>>) -> bool
    requires { IsValidView (entry_spec (text_spec w32) (text_spec w32)) key }
{
    key.key().as_str() == query.0 && key.value().as_str() == query.1
}

// Returns whether the value of a key of two texts is `text`.
fn is_text_of_two(
    bytes: &[u8],
    key: (&str, &str),
    text: &str,
) -> Result<Option<bool>, VerifyError> {
    let map = ArchivedHashMap::of(access::<HashMapOf<Entry<Text, Text>, Text>>(bytes)?);
    let found = map.get_with(
        &key,
        |query: &(&str, &str), key: View<'_, Entry<Text, Text>>|
            requires { IsValidView (entry_spec (text_spec w32) (text_spec w32)) key }
        { has_names(query, key) },
    );
    match found {
        Some(value) => Ok(Some(value.as_str() == text)),
        None => Ok(None),
    }
}

#[test]
fn a_key_of_two_texts_is_compared(rt: HostRuntime) -> Result<(), Fail> {
    let pairs = [(("my", "key"), "value"), (("wrong", "key"), "wrong value")];
    let bytes = map_archive(rt.alloc(), &pairs)?;
    expect_eq!(rt; is_text_of_two(bytes.as_slice(), ("my", "key"), "value"), Ok(Some(true)));
    Ok(())
}

#[test]
fn pairs_are_found_and_printed(rt: HostRuntime) {
    values_found_are_listed::<i8, i8, i8, i8, i8, FxHasher64, Narrow>();
    scalars_found_are_listed::<i8, i8, i8, i8, FxHasher64, Narrow>();
    let bytes = four_pairs();
    expect_values(&rt, &bytes, &[(1, Some(2)), (3, Some(4)), (5, Some(6))]);
    expect_values(&rt, &bytes, &[(7, Some(8)), (2, None)]);
    expect_eq!(rt; small_prints(rt.alloc(), &bytes, "{5: 6, 7: 8, 1: 2, 3: 4}"), true);
}

#[test]
fn equality_ignores_insertion_order_and_repeated_keys_are_unequal(rt: HostRuntime) {
    let four = four_pairs();
    let backwards = four_pairs_backwards();
    let one = one_pair();
    equal_maps_have_the_same_pairs::<i8, i8, FxHasher64, Narrow>();
    maps_are_compared::<i8, i8, FxHasher64, Narrow>();
    let mut changed = four_pairs();
    changed[1] = 5;
    expect_equality(&rt, &four, &backwards, true);
    expect_equality(&rt, &backwards, &four, true);
    expect_equality(&rt, &four, &one, false);
    expect_equality(&rt, &one, &four, false);
    expect_equality(&rt, &four, &changed, false);
    let bytes = one_key_twice();
    expect_counts(&rt, &bytes, (false, 2, 3));
    expect_values(&rt, &bytes, &[(1, Some(2))]);
    expect_equality(&rt, &bytes, &bytes, false);
    expect_eq!(rt; small_prints(rt.alloc(), &bytes, "{1: 2, 1: 9}"), true);
}

fn misplaced(bytes: &[u8]) -> Result<usize, VerifyError> {
    Ok(small_map(bytes)?.misplaced())
}

#[test]
fn misplaced_keys_are_counted(rt: HostRuntime) {
    repeated_keys_are_misplaced::<i8, i8, FxHasher64, Narrow>();
    matched_keys_are_found::<i8, i8, i8, FxHasher64, Narrow>();
    let mut moved = one_pair();
    moved[0] = 2;
    expect_eq!(rt; misplaced(&four_pairs()), Ok(0));
    expect_eq!(rt; misplaced(&one_key_twice()), Ok(1));
    expect_eq!(rt; misplaced(&moved), Ok(1));
    expect_values(&rt, &moved, &[(2, None)]);
}

// Returns the number of misplaced keys of a map, or `None` if more than `limit` strides are read.
fn misplaced_up_to(bytes: &[u8], limit: u64) -> Result<Option<usize>, VerifyError> {
    Ok(small_map(bytes)?.misplaced_up_to(limit))
}

// A table of at most sixteen buckets has one stride, so each lookup reads one.
#[test]
fn counting_misplaced_keys_ends_at_a_limit(rt: HostRuntime) {
    let four = four_pairs();
    expect_eq!(rt; misplaced_up_to(&four, 3), Ok(None));
    expect_eq!(rt; misplaced_up_to(&four, 4), Ok(Some(0)));
    expect_eq!(rt; misplaced_up_to(&four, u64::MAX), Ok(Some(0)));
    let twice = one_key_twice();
    expect_eq!(rt; misplaced_up_to(&twice, 1), Ok(None));
    expect_eq!(rt; misplaced_up_to(&twice, 2), Ok(Some(1)));
    expect_eq!(rt; misplaced_up_to(&no_items(), 0), Ok(Some(0)));
}

// Returns the address of a symbol, from an untrusted archive.
fn address(symbols: &[u8], name: &str) -> Result<Option<u64>, VerifyError> {
    let map = ArchivedHashMap::of(access::<HashMapOf<Text, u64>>(symbols)?);
    Ok(map.get(&name).map(|address| address.to_native()))
}

#[test]
fn a_symbol_is_found(rt: HostRuntime) {
    let bytes = one_symbol();
    expect_eq!(rt; address(&bytes, "main"), Ok(Some(4096)));
    expect_eq!(rt; address(&bytes, "exit"), Ok(None));
}

// Returns the number at `inner_key` in the map at `key`.
fn inner_value(bytes: &[u8], key: i8, inner_key: i8) -> Result<Option<i8>, VerifyError> {
    let map = nested_map(bytes)?;
    match map.get(&key) {
        Some(inner) => match ArchivedHashMap::of(inner).get(&inner_key) {
            Some(value) => Ok(Some(value.to_native())),
            None => Ok(None),
        },
        None => Ok(None),
    }
}

#[test]
fn maps_inside_are_read_and_validated(rt: HostRuntime) {
    let bytes = nested();
    expect_eq!(rt; inner_value(&bytes, 1, 1), Ok(Some(2)));
    expect_eq!(rt; inner_value(&bytes, 1, 2), Ok(None));
    expect_eq!(rt; equal_maps::<i8, Small, FxHasher64, Narrow>(&bytes, &bytes), Ok((true, true)));
    expect_eq!(rt; map_prints::<i8, Small, FxHasher64, Narrow>(rt.alloc(), &bytes, "{1: {1: 2}}"),
        true);
    let mut bytes = nested();
    bytes[40] = 0xdd;
    let unwrapped = VerifyError::UnwrappedControlByte { index: 30 };
    expect_eq!(rt; inner_value(&bytes, 1, 1), Err(unwrapped));
    bytes[40] = 0xde;
    let outside = VerifyError::OutOfRange { pos: 2, size: 35 };
    expect_eq!(rt; inner_value(&bytes, 1, 1), Err(outside));
    // Each valid prefix of the archive ends with eight zeros, and is an empty map.
    let bytes = nested();
    let mut right = true;
    for len in 0..112 {
        let empty = matches!(nested_map(&bytes[..len]), Ok(map) if map.is_empty());
        right = right && empty == matches!(len, 60 | 64 | 68);
    }
    assert!(rt; right);
}

// Returns the value of a key by `index`, if the map has the key.
fn indexed(bytes: &[u8], key: u32) -> Result<Option<u32>, VerifyError> {
    let root = access_in::<Wide, HashMapOf<u32, u32, FxHasher64, Wide>>(bytes)?;
    let map = ArchivedHashMap::of(root);
    if map.contains_key(&key) {
        return Ok(Some(map.index(&key).to_native()));
    }
    Ok(None)
}

#[test]
fn wide_maps_are_read_and_validated(rt: HostRuntime) {
    let bytes = one_wide_number();
    expect_eq!(rt; counts::<u32, u32, FxHasher64, Wide>(&bytes), Ok((false, 1, 2)));
    expect_eq!(rt; number_of::<u32, u32, FxHasher64, Wide, u32>(&bytes, &1), Ok(Some(2)));
    expect_eq!(rt; indexed(&bytes, 1), Ok(Some(2)));
    expect_eq!(rt; indexed(&bytes, 2), Ok(None));
    let bytes = [
        0, 0, 0, 0, 0, 0, 0, 0, 1, 0, 0, 0, 0, 0, 0, 0, 0xff, 0xff, 0xff, 0xff, 0xff, 0xff, 0xff,
        0xff,
    ];
    expect_eq!(rt; indexed(&bytes, 1),
        Err(VerifyError::OutOfRange { pos: -147_573_952_589_676_412_920,
        size: 166_020_696_663_385_964_551 }));
}

#[test]
fn a_copy_of_a_map_is_read(rt: HostRuntime) -> Result<(), Fail> {
    clones_are_the_same::<i8, i8, FxHasher64, Narrow>();
    let bytes = four_pairs();
    expect_eq!(rt; small_map(&bytes)?.clone()?.len(), 4);
    Ok(())
}
