//! Tests of index sets.

use crate::tests::archives::{no_pairs, one_key_parts};
use crate::tests::lookups::{Lengths, next_key, prints};
use crate::tests::opened::key_set;
use crate::tests::writing::{expect_archive, set_archive};
use rkyv_base::access::access;
use rkyv_base::{Narrow, NoMemory, VecWriter, VerifyError, WriteError};
use rkyv_index::set::laws::{
    both_hashers_look_up_alike, clones_are_the_same, index_sets_are_laid_out, items_at_are_listed,
    listed_items_are_written, members_found_are_listed, ordered_items_are_written,
    walks_by_for_are_iterations, walks_visit_in_order,
};
use rkyv_index::{ArchivedIndexMap, ArchivedIndexSet, IndexSetOf};
use rkyv_scan::FxHasher64;
use std::alloc::Global;
use std::test::Fail;
use test_support::archives::one_index_key;

type Keys = IndexSetOf<i8>;

#[test]
fn one_item_is_written(rt: HostRuntime) -> Result<(), Fail> {
    both_hashers_look_up_alike::<i8, i8, Narrow>();
    index_sets_are_laid_out::<Narrow, FxHasher64, i8, i8>();
    listed_items_are_written::<Narrow, FxHasher64, i8, i8>();
    ordered_items_are_written::<Narrow, i8, i8>();
    walks_visit_in_order::<i8, i8, FxHasher64, Narrow>();
    items_at_are_listed::<i8, i8, FxHasher64, Narrow>();
    members_found_are_listed::<i8, i8, i8, FxHasher64, Narrow>();
    walks_by_for_are_iterations::<i8, FxHasher64, Narrow>();
    let alloc = rt.alloc();
    let bytes = set_archive(alloc, &[1])?;
    expect_eq!(rt; bytes.as_slice(), one_index_key().as_slice());
    let set = key_set(bytes.as_slice())?;
    let found = set
        .get_full(&1i8)
        .map(|(index, key)| (index, key.to_native()));
    expect_eq!(rt; found, Some((0, 1)));
    Ok(())
}

// Writes one key as an index set at position 0. Returns the bytes before the header.
fn set_of(alloc: Global, keys: Vec<i8>) -> Result<Vec<u8>, WriteError<NoMemory>> {
    let mut writer = VecWriter::new(alloc);
    let resolver = ArchivedIndexSet::<i8, FxHasher64, Narrow>::serialize_from_iter::<
        VecWriter,
        i8,
        i8,
        _,
    >(alloc, keys.into_iter(), 1, (7, 8), &mut writer)?;
    let _len = resolver.len();
    Ok(writer.into_vec())
}

// Does the same with the key and the unit value, as an index map.
fn map_of(alloc: Global, pairs: Vec<(i8, ())>) -> Result<Vec<u8>, WriteError<NoMemory>> {
    let mut writer = VecWriter::new(alloc);
    let resolver = ArchivedIndexMap::<i8, (), FxHasher64, Narrow>::serialize_from_iter::<
        VecWriter,
        i8,
        (),
        i8,
        (),
        _,
    >(alloc, pairs.into_iter(), 1, (7, 8), &mut writer)?;
    let _len = resolver.len();
    Ok(writer.into_vec())
}

#[test]
fn a_set_is_a_map_to_units(rt: HostRuntime) -> Result<(), Fail> {
    let alloc = rt.alloc();
    expect_archive(&rt, set_of(alloc, vec![in alloc; 1i8]?), &one_key_parts())?;
    expect_archive(
        &rt,
        map_of(alloc, vec![in alloc; (1i8, ())]?),
        &one_key_parts(),
    )
}

#[test]
fn keys_are_found(rt: HostRuntime) -> Result<(), Fail> {
    let alloc = rt.alloc();
    let bytes = set_archive(alloc, &[4, 1, 3])?;
    let set = ArchivedIndexSet::of(access::<Keys>(bytes.as_slice())?);
    let stored = set.get(&3i8).map(|key| key.to_native());
    let first = set.get_index(0).map(|key| key.to_native());
    expect_eq!(rt; (stored, first, set.len(), set.misplaced()), (Some(3), Some(4), 3, 0));
    expect_eq!(rt; (set.misplaced_up_to(2), set.misplaced_up_to(3)), (None, Some(0)));
    expect_eq!(rt; set.contains(&3), true);
    expect_eq!(rt; set.contains(&2), false);
    expect_eq!(rt; set.eq_index(set), true);
    expect_eq!(rt; set.is_empty(), false);
    assert!(rt; set.get_index_of(&3) == Some(2));
    assert!(rt; set.get_index(3).is_none());
    // 4, 1 and 3 are digits to the base 5.
    let mut digits = [0i8; 2];
    for key in set {
        digits[0] = digits[0].wrapping_mul(5).wrapping_add(key.to_native());
    }
    for key in &set {
        digits[1] = digits[1].wrapping_mul(5).wrapping_add(key.to_native());
    }
    expect_eq!(rt; digits, [108; 2]);
    Ok(())
}

// Returns the number of misplaced keys of a set, and whether it has the key 5.
fn misplaced_and_five(bytes: &[u8]) -> Result<(usize, bool), VerifyError> {
    let set = key_set(bytes)?;
    Ok((set.misplaced(), set.contains(&5)))
}

#[test]
fn misplaced_keys_are_counted(rt: HostRuntime) -> Result<(), Fail> {
    let twice = set_archive(rt.alloc(), &[4, 1, 4])?;
    let mut changed = one_index_key();
    changed[39] = 5;
    expect_eq!(rt; misplaced_and_five(twice.as_slice()), Ok((1, false)));
    expect_eq!(rt; misplaced_and_five(&changed), Ok((1, false)));
    Ok(())
}

// Walks over a set. Returns the results of the first five steps. Then come `len` and `size_hint`
// before the steps, after one of them and after all.
fn keys_of(bytes: &[u8]) -> Result<([Option<i8>; 5], Lengths), VerifyError> {
    let mut rest = key_set(bytes)?.iter();
    let before = (rest.len(), rest.size_hint());
    let first = next_key(&mut rest);
    let after_one = (rest.len(), rest.size_hint());
    let steps = [
        first,
        next_key(&mut rest),
        next_key(&mut rest),
        next_key(&mut rest),
        next_key(&mut rest),
    ];
    Ok((steps, [before, after_one, (rest.len(), rest.size_hint())]))
}

#[test]
fn a_walk_keeps_the_order(rt: HostRuntime) -> Result<(), Fail> {
    let bytes = set_archive(rt.alloc(), &[4, 1, 3])?;
    let keys = [Some(4), Some(1), Some(3), None, None];
    let left = [(3, (3, Some(3))), (2, (2, Some(2))), (0, (0, Some(0)))];
    expect_eq!(rt; keys_of(bytes.as_slice()), Ok((keys, left)));
    Ok(())
}

#[test]
fn sets_are_compared_printed_and_copied(rt: HostRuntime) -> Result<(), Fail> {
    let bytes = set_archive(rt.alloc(), &[4, 1, 3])?;
    let backwards = set_archive(rt.alloc(), &[3, 1, 4])?;
    let (set, other) = (key_set(bytes.as_slice())?, key_set(backwards.as_slice())?);
    expect_eq!(rt; (set.eq_index(set), set.eq_index(other)), (true, false));
    let bytes = set_archive(rt.alloc(), &[4, 1, 3])?;
    let (one, none) = (one_index_key(), no_pairs());
    expect_eq!(rt; prints(rt.alloc(), &key_set(&one)?, "{1}"), true);
    expect_eq!(rt; prints(rt.alloc(), &key_set(bytes.as_slice())?, "{4, 1, 3}"), true);
    expect_eq!(rt; prints(rt.alloc(), &key_set(&none)?, "{}"), true);
    clones_are_the_same::<i8, FxHasher64, Narrow>();
    let bytes = one_index_key();
    expect_eq!(rt; (key_set(&bytes)?.capacity(), key_set(&bytes)?.clone()?.len()), (2, 1));
    Ok(())
}
