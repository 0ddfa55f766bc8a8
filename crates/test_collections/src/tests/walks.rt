//! Tests of walks over maps and sets: the items, their order, and the number left.
use crate::tests::opened::{key_set, small_map};
use rkyv_base::access::access;
use rkyv_base::{Element, Narrow, VerifyError};
use rkyv_collections::map::laws as map_laws;
use rkyv_collections::set::laws as set_laws;
use rkyv_collections::{
    ArchivedHashMap, ArchivedHashSet, HashMapOf, HashSetOf, Iter, Keys, Values,
};
use rkyv_scan::FxHasher64;
use test_support::archives::{four_pairs, no_items, one_unit, three_keys};

// `len` and `size_hint` of an iterator.
type Left = (usize, (usize, Option<usize>));

// Returns the positions of the next key and its value.
fn next_pair(rest: &mut Iter<'_, i8, i8>) -> Option<(u64, u64)> {
    match rest.next() {
        Some((key, value)) => Some((key.pos(), value.pos())),
        None => None,
    }
}

// Returns the position of the next key.
fn next_key<K: Element, V: Element, H, W>(rest: &mut Keys<'_, K, V, H, W>) -> Option<u64> {
    match rest.next() {
        Some(key) => Some(key.pos()),
        None => None,
    }
}

// Returns the position of the next value.
fn next_value(rest: &mut Values<'_, i8, i8>) -> Option<u64> {
    rest.next().map(|value| value.pos())
}

// Takes six steps of an iterator by a function. Returns their results, and then `len` and
// `size_hint` before the steps, after two of them and after all.
macro_rules! six_steps {
    ($rest:expr, $next:path) => {{
        let mut rest = $rest;
        let before = (rest.len(), rest.size_hint());
        let (first, second) = ($next(&mut rest), $next(&mut rest));
        let after_two = (rest.len(), rest.size_hint());
        let (third, fourth) = ($next(&mut rest), $next(&mut rest));
        let steps = [first, second, third, fourth, $next(&mut rest), $next(&mut rest)];
        (steps, [before, after_two, (rest.len(), rest.size_hint())])
    }};
}

// The results of six steps, and what is left before, between and after them.
type Steps<T> = Result<([Option<T>; 6], [Left; 3]), VerifyError>;

fn pairs_of(bytes: &[u8]) -> Steps<(u64, u64)> {
    Ok(six_steps!(small_map(bytes)?.iter(), next_pair))
}

fn keys_of(bytes: &[u8]) -> Steps<u64> {
    Ok(six_steps!(small_map(bytes)?.keys(), next_key))
}

fn values_of(bytes: &[u8]) -> Steps<u64> {
    Ok(six_steps!(small_map(bytes)?.values(), next_value))
}

// Returns the same of a set.
fn members<K: Element>(bytes: &[u8]) -> Steps<u64> {
    let set = ArchivedHashSet::of(access::<HashSetOf<K>>(bytes)?);
    Ok(six_steps!(set.iter(), next_key))
}

// Returns the number of pairs whose value a lookup of their key finds at the same position.
fn found_by_own_keys(bytes: &[u8]) -> Result<usize, VerifyError> {
    let map = small_map(bytes)?;
    let mut count = 0usize;
    for (key, value) in map {
        if map.get(&key.to_native()).map(|found| found.pos()) == Some(value.pos()) {
            count = count.wrapping_add(1);
        }
    }
    Ok(count)
}

// Returns the sum of the keys and values of a map, by `for`.
fn sum_of_pairs(bytes: &[u8]) -> Result<u8, VerifyError> {
    let map = ArchivedHashMap::of(access::<HashMapOf<u8, u8>>(bytes)?);
    let mut sum = 0u8;
    for (key, value) in &map {
        sum = sum.wrapping_add(key.to_native());
        sum = sum.wrapping_add(value.to_native());
    }
    Ok(sum)
}

// Returns the sum of the keys of a set, by `for` over the set and over a reference to it.
fn sums_of_keys(bytes: &[u8]) -> Result<(u8, u8), VerifyError> {
    let set = key_set(bytes)?;
    let (mut sum, mut sum_by_reference) = (0u8, 0u8);
    for key in set {
        sum = sum.wrapping_add(key.to_native());
    }
    for key in &set {
        sum_by_reference = sum_by_reference.wrapping_add(key.to_native());
    }
    Ok((sum, sum_by_reference))
}

#[test]
fn maps_and_sets_are_walked_by_for(rt: HostRuntime) {
    map_laws::walks_by_for_are_iterations::<u8, u8, FxHasher64, Narrow>();
    set_laws::walks_by_for_are_iterations::<u8, FxHasher64, Narrow>();
    expect_eq!(rt; sum_of_pairs(&four_pairs()), Ok(36));
    expect_eq!(rt; sums_of_keys(&three_keys()), Ok((6, 6)));
}

#[test]
fn maps_are_walked_by_ascending_bucket(rt: HostRuntime) {
    // In bucket order, the pairs are 5 to 6, 7 to 8, 1 to 2 and 3 to 4. The first has the last two
    // bytes before the controls.
    map_laws::walks_visit_each::<i8, i8, i8, i8, FxHasher64, Narrow>();
    let bytes = four_pairs();
    let pairs = [
        Some((8, 9)),
        Some((6, 7)),
        Some((2, 3)),
        Some((0, 1)),
        None,
        None,
    ];
    let keys = [Some(8), Some(6), Some(2), Some(0), None, None];
    let values = [Some(9), Some(7), Some(3), Some(1), None, None];
    let left = [(4, (4, Some(4))), (2, (2, Some(2))), (0, (0, Some(0)))];
    expect_eq!(rt; pairs_of(&bytes), Ok((pairs, left)));
    expect_eq!(rt; keys_of(&bytes), Ok((keys, left)));
    expect_eq!(rt; values_of(&bytes), Ok((values, left)));
    expect_eq!(rt; found_by_own_keys(&bytes), Ok(4));
    let left = [(0, (0, Some(0))); 3];
    expect_eq!(rt; pairs_of(&no_items()), Ok(([None; 6], left)));
    expect_eq!(rt; keys_of(&no_items()), Ok(([None; 6], left)));
    expect_eq!(rt; values_of(&no_items()), Ok(([None; 6], left)));
}

#[test]
fn keys_of_a_set_are_walked_by_ascending_bucket(rt: HostRuntime) {
    set_laws::walks_visit_each::<u8, u8, FxHasher64, Narrow>();
    let three = [Some(2), Some(1), Some(0), None, None, None];
    let left = [(3, (3, Some(3))), (1, (1, Some(1))), (0, (0, Some(0)))];
    expect_eq!(rt; members::<u8>(&three_keys()), Ok((three, left)));
    let one = [Some(0), None, None, None, None, None];
    let left = [(1, (1, Some(1))), (0, (0, Some(0))), (0, (0, Some(0)))];
    expect_eq!(rt; members::<()>(&one_unit()), Ok((one, left)));
}
