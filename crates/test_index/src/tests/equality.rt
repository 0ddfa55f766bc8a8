//! `==` of index maps, of index sets and of the lists that are archived as them.

use crate::tests::mixed::hash_map;
use crate::tests::opened::{key_set, map_in};
use crate::tests::writing::{narrow, set_archive, wide};
use rkyv_base::access::access;
use rkyv_base::{Narrow, VerifyError, Wide, to_bytes};
use rkyv_collections::MapPairs;
use rkyv_index::map::laws::{
    index_maps_are_compared, matched_keys_are_found, pair_lists_are_compared,
    read_index_maps_are_compared,
};
use rkyv_index::set::laws::{
    index_sets_are_compared, item_lists_are_compared, read_index_sets_are_compared,
};
use rkyv_index::{IndexMapOf, IndexSetOf, IndexWidth, OrderedItems, OrderedPairs};
use rkyv_keys::ElementEq;
use rkyv_scan::FxHasher64;
use std::alloc::Global;
use std::test::Fail;
use test_support::archives::four_entries;

// Whether the index maps in two archives are `==`.
fn equal<'a, W: IndexWidth>(first: &'a [u8], second: &'a [u8]) -> Result<bool, VerifyError> {
    Ok(map_in::<W>(first)? == map_in::<W>(second)?)
}

const FOUR_PAIRS: &[(i8, i8)] = &[(1, 2), (3, 4), (5, 6), (7, 8)];

const THREE_PAIRS: &[(i8, i8)] = &[(1, 2), (3, 4), (5, 6)];

const TWO_PAIRS: &[(i8, i8)] = &[(1, 2), (3, 4)];

// Two lists of pairs, and whether they are archived as equal index maps.
type PairsRow = (&'static [(i8, i8)], &'static [(i8, i8)], bool);

const MAPS: &[PairsRow] = &[
    (FOUR_PAIRS, FOUR_PAIRS, true),
    (FOUR_PAIRS, &[(7, 8), (5, 6), (3, 4), (1, 2)], false),
    (FOUR_PAIRS, &[(1, 2), (3, 4), (5, 6), (7, 9)], false),
    (FOUR_PAIRS, &[(1, 2), (3, 4), (5, 6), (9, 8)], false),
    (FOUR_PAIRS, THREE_PAIRS, false),
    (THREE_PAIRS, FOUR_PAIRS, false),
    (TWO_PAIRS, TWO_PAIRS, true),
    (TWO_PAIRS, &[(3, 4), (1, 2)], false),
    (TWO_PAIRS, &[(1, 2), (3, 5)], false),
    (TWO_PAIRS, &[(1, 2), (5, 4)], false),
    (TWO_PAIRS, &[(1, 2)], false),
];

#[test]
fn equal_maps_have_the_same_pairs_in_order(rt: HostRuntime) -> Result<(), Fail> {
    read_index_maps_are_compared::<i8, i8, FxHasher64, Narrow>();
    for (first, second, expected) in MAPS {
        let (one, other) = (narrow(rt.alloc(), first)?, narrow(rt.alloc(), second)?);
        expect_eq!(rt; equal::<Narrow>(one.as_slice(), other.as_slice())?, *expected);
        let (one, other) = (wide(rt.alloc(), first)?, wide(rt.alloc(), second)?);
        expect_eq!(rt; equal::<Wide>(one.as_slice(), other.as_slice())?, *expected);
    }
    Ok(())
}

// Two lists of items, and whether they are archived as equal index sets.
const SETS: &[(&[i8], &[i8], bool)] = &[
    (&[4, 1], &[4, 1], true),
    (&[4, 1], &[1, 4], false),
    (&[4, 1], &[4, 2], false),
    (&[4, 1], &[4], false),
];

#[test]
fn equal_sets_have_the_same_keys_in_order(rt: HostRuntime) -> Result<(), Fail> {
    read_index_sets_are_compared::<i8, FxHasher64, Narrow>();
    for (first, second, expected) in SETS {
        let (one, other) = (
            set_archive(rt.alloc(), first)?,
            set_archive(rt.alloc(), second)?,
        );
        expect_eq!(rt; key_set(one.as_slice())? == key_set(other.as_slice())?, *expected);
    }
    Ok(())
}

#[test]
fn a_map_of_known_bytes_equals_the_one_that_is_written(rt: HostRuntime) -> Result<(), Fail> {
    let written = narrow(rt.alloc(), &[(1, 2), (3, 4), (5, 6), (7, 8)])?;
    assert!(rt; equal::<Narrow>(&four_entries(), written.as_slice())?);
    Ok(())
}

// Whether the index maps in two archives are the same values.
fn same_maps(first: &[u8], second: &[u8]) -> Result<bool, VerifyError> {
    let own = access::<IndexMapOf<i8, i8>>(first)?;
    let other = access::<IndexMapOf<i8, i8>>(second)?;
    Ok(IndexMapOf::<i8, i8>::same(own, other))
}

#[test]
fn maps_that_are_values_have_the_same_pairs_in_order(rt: HostRuntime) -> Result<(), Fail> {
    index_maps_are_compared::<i8, i8, FxHasher64, Narrow>();
    matched_keys_are_found::<i8, i8, i8, FxHasher64, Narrow>();
    let alloc = rt.alloc();
    let backwards = narrow(alloc, &[(7, 8), (5, 6), (3, 4), (1, 2)])?;
    expect_eq!(rt; same_maps(&four_entries(), &four_entries())?, true);
    expect_eq!(rt; same_maps(&four_entries(), backwards.as_slice())?, false);
    Ok(())
}

// Whether the index sets in two archives are the same values.
fn same_sets(first: &[u8], second: &[u8]) -> Result<bool, VerifyError> {
    let own = access::<IndexSetOf<i8>>(first)?;
    let other = access::<IndexSetOf<i8>>(second)?;
    Ok(IndexSetOf::<i8>::same(own, other))
}

#[test]
fn sets_that_are_values_have_the_same_keys_in_order(rt: HostRuntime) -> Result<(), Fail> {
    index_sets_are_compared::<i8, FxHasher64, Narrow>();
    let alloc = rt.alloc();
    let four = set_archive(alloc, &[1, 3, 5, 7])?;
    let backwards = set_archive(alloc, &[7, 5, 3, 1])?;
    expect_eq!(rt; same_sets(four.as_slice(), four.as_slice())?, true);
    expect_eq!(rt; same_sets(four.as_slice(), backwards.as_slice())?, false);
    Ok(())
}

// Returns the archive of the hash map of 1 to the index map of these two pairs.
fn map_of_two(alloc: Global, first: (i8, i8), second: (i8, i8)) -> Result<Vec<u8>, Fail> {
    let pairs = [(1i8, OrderedPairs(vec![in alloc; first, second]?))];
    let outer: MapPairs<'_, i8, OrderedPairs<i8, i8>> = MapPairs::new(&pairs);
    Ok(to_bytes(alloc, &outer)?)
}

// Whether the hash maps in two archives have the same keys and the same index maps.
fn same_values(first: &[u8], second: &[u8]) -> Result<bool, VerifyError> {
    let own = hash_map(first)?;
    let other = hash_map(second)?;
    Ok(own.eq_map(other))
}

#[test]
fn hash_maps_compare_index_maps_in_order(rt: HostRuntime) -> Result<(), Fail> {
    let alloc = rt.alloc();
    let two = map_of_two(alloc, (1, 2), (3, 4))?;
    let backwards = map_of_two(alloc, (3, 4), (1, 2))?;
    expect_eq!(rt; same_values(two.as_slice(), two.as_slice())?, true);
    expect_eq!(rt; same_values(two.as_slice(), backwards.as_slice())?, false);
    Ok(())
}

#[test]
fn lists_are_compared_and_printed(rt: HostRuntime) -> Result<(), Fail> {
    pair_lists_are_compared::<i8, i8>();
    item_lists_are_compared::<i8>();
    let alloc = rt.alloc();
    let pairs = OrderedPairs(vec![in alloc; (1i8, 2i8), (3, 4)]?);
    let items = OrderedItems(vec![in alloc; 1i8, 2]?);
    expect_eq!(rt; pairs == OrderedPairs(vec![in alloc; (1, 2), (3, 4)]?), true);
    expect_eq!(rt; pairs == OrderedPairs(vec![in alloc; (3, 4), (1, 2)]?), false);
    expect_eq!(rt; pairs == OrderedPairs(vec![in alloc; (1, 2), (5, 4)]?), false);
    expect_eq!(rt; pairs == OrderedPairs(vec![in alloc; (1, 2), (3, 5)]?), false);
    expect_eq!(rt; pairs == OrderedPairs(vec![in alloc; (1, 2)]?), false);
    expect_eq!(rt; items == OrderedItems(vec![in alloc; 1, 2]?), true);
    expect_eq!(rt; items == OrderedItems(vec![in alloc; 1, 3]?), false);
    expect_eq!(rt; items == OrderedItems(vec![in alloc; 1]?), false);
    let pairs = OrderedPairs(vec![in alloc; (1i8, 2i8)]?);
    let items = OrderedItems(vec![in alloc; 1i8, 2]?);
    let shown = format!(in alloc; "{pairs:?} {items:?}")?;
    expect_eq!(rt; shown.as_str(), "OrderedPairs([(1, 2)]) OrderedItems([1, 2])");
    Ok(())
}
