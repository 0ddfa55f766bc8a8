//! Items that a lookup of their own doesn't find.

use crate::tests::archives::{hash_of_i8, hash_of_u32, two_archived};
use rkyv_base::access::access;
use rkyv_base::{Entry, VerifyError};
use rkyv_table::table::laws;
use rkyv_table::table::misplaced::finds_another_or_none;
use rkyv_table::{ArchivedHashTable, Strides, TableOf, controls};
use std::cell::Cell;
use std::cmp::Ordering;
use test_support::archives::{four_pairs, no_items, one_key_twice, one_number, two_units};

// Returns the number of misplaced pairs of a table. Pairs with one key are the same.
fn misplaced_small(bytes: &[u8]) -> Result<usize, VerifyError> {
    let table = ArchivedHashTable::of(access::<TableOf<Entry<i8, i8>>>(bytes)?);
    Ok(table.misplaced_by(
        |pair| hash_of_i8(pair.key().to_native()),
        |own, other| own.key().to_native() == other.key().to_native(),
    ))
}

fn misplaced(bytes: &[u8]) -> Result<usize, VerifyError> {
    let table = ArchivedHashTable::of(access::<TableOf<Entry<u32, u32>>>(bytes)?);
    Ok(table.misplaced_by(
        |pair| hash_of_u32(pair.key().to_native()),
        |own, other| own.key().to_native() == other.key().to_native(),
    ))
}

#[test]
fn misplaced_items_are_counted(rt: HostRuntime) {
    expect_eq!(rt; misplaced_small(&four_pairs()), Ok(0));
    expect_eq!(rt; misplaced(&one_number()), Ok(0));
    expect_eq!(rt; misplaced_small(&no_items()), Ok(0));
    expect_eq!(rt; finds_another_or_none(1, Some(1)), false);
    expect_eq!(rt; finds_another_or_none(1, Some(2)), true);
    expect_eq!(rt; finds_another_or_none(1, None), true);
    laws::misplaced::repeated_are_misplaced();
    assert_eq!(rt; misplaced_small(&one_key_twice()).ok(), Some(1));
}

// Returns the number of misplaced units of a table. All units are the same.
fn misplaced_units(bytes: &[u8]) -> Result<usize, VerifyError> {
    let view = access::<TableOf<()>>(bytes)?;
    Ok(ArchivedHashTable::of(view).misplaced_by(|_| 0, |_, _| true))
}

#[test]
fn units_and_changed_keys_are_misplaced(rt: HostRuntime) {
    expect_eq!(rt; misplaced_units(&two_units()), Ok(1));
    laws::misplaced::none_misplaced_is_complete();
    let mut bytes = one_number();
    bytes[0] = 5;
    expect_eq!(rt; misplaced(&bytes), Ok(1));
}

// Returns the number of misplaced numbers under the hash 2. An item is the same as each other one
// that it doesn't compare to as `order`.
fn misplaced_by_order(bytes: &[u8], order: Ordering) -> Result<usize, VerifyError> {
    let table = ArchivedHashTable::of(access::<TableOf<u8>>(bytes)?);
    Ok(table.misplaced_by(
        |_| 2,
        |own, other| own.to_native().cmp(&other.to_native()) != order,
    ))
}

#[test]
fn misplaced_by_passes_the_own_item_first(rt: HostRuntime) {
    let archive = two_archived();
    expect_eq!(rt; misplaced_by_order(&archive, Ordering::Greater), Ok(0));
    expect_eq!(rt; misplaced_by_order(&archive, Ordering::Less), Ok(1));
}

// Returns the number of misplaced pairs of a table, and the number of strides that were read.
fn counted_up_to(bytes: &[u8], limit: u64) -> Result<(Option<usize>, u64), VerifyError> {
    let table = ArchivedHashTable::of(access::<TableOf<Entry<i8, i8>>>(bytes)?);
    let mut strides = Strides::new();
    let misplaced = table.misplaced_up_to_by(
        |pair| hash_of_i8(pair.key().to_native()),
        |own, other| own.key().to_native() == other.key().to_native(),
        limit,
        &mut strides,
    );
    Ok((misplaced, strides.count()))
}

// A table of at most sixteen buckets has one stride, so each lookup reads one.
#[test]
fn counting_ends_with_the_first_stride_past_the_limit(rt: HostRuntime) {
    let four = four_pairs();
    expect_eq!(rt; counted_up_to(&four, 0), Ok((None, 1)));
    expect_eq!(rt; counted_up_to(&four, 3), Ok((None, 4)));
    expect_eq!(rt; counted_up_to(&four, 4), Ok((Some(0), 4)));
    expect_eq!(rt; counted_up_to(&one_key_twice(), 2), Ok((Some(1), 2)));
    expect_eq!(rt; counted_up_to(&no_items(), 0), Ok((Some(0), 0)));
}

// Counts a call of a comparison, and returns `accepts`.
fn count_call(calls: &Cell<usize>, accepts: bool) -> bool {
    calls.set(calls.get().wrapping_add(1));
    accepts
}

// Returns the number of misplaced pairs of a table up to a limit, by a comparison that always
// returns `accepts`, and the number of its calls.
fn compared_up_to(
    bytes: &[u8],
    limit: u64,
    accepts: bool,
) -> Result<(Option<usize>, usize), VerifyError> {
    let table = ArchivedHashTable::of(access::<TableOf<Entry<i8, i8>>>(bytes)?);
    let calls = Cell::new(0usize);
    let misplaced = table.misplaced_up_to_by(
        |pair| hash_of_i8(pair.key().to_native()),
        |_, _| count_call(&calls, accepts),
        limit,
        &mut Strides::new(),
    );
    Ok((misplaced, calls.get()))
}

// The keys of the four pairs have different tags, so a lookup that accepts compares one pair. One
// key twice has one tag, and each control byte is mirrored: a lookup that rejects compares four.
#[test]
fn each_item_is_looked_up_once_up_to_the_limit(rt: HostRuntime) {
    expect_eq!(rt; compared_up_to(&four_pairs(), 0, true), Ok((None, 1)));
    expect_eq!(rt; compared_up_to(&four_pairs(), 3, true), Ok((None, 4)));
    expect_eq!(rt; compared_up_to(&four_pairs(), 4, true), Ok((Some(0), 4)));
    expect_eq!(rt; compared_up_to(&one_key_twice(), 0, false), Ok((None, 4)));
    expect_eq!(rt; compared_up_to(&one_key_twice(), 2, false), Ok((Some(2), 8)));
    expect_eq!(rt; compared_up_to(&no_items(), 0, true), Ok((Some(0), 0)));
}

// Returns the number of misplaced pairs of a table whose lookups read at most four strides. The
// strides are counted in addition to earlier ones.
fn counted_behind(bytes: &[u8], strides: &mut Strides) -> Option<usize> {
    match access::<TableOf<Entry<i8, i8>>>(bytes) {
        Ok(view) => ArchivedHashTable::of(view).misplaced_up_to_by(
            |pair| hash_of_i8(pair.key().to_native()),
            |own, other| own.key().to_native() == other.key().to_native(),
            4,
            strides,
        ),
        Err(_) => None,
    }
}

// Counts the misplaced pairs of a table twice, and returns the strides that both counts read,
// with `earlier` ones.
fn counted_twice(bytes: &[u8], earlier: u64) -> ([Option<usize>; 2], u64) {
    let mut strides = Strides::new();
    strides.add(earlier);
    let misplaced = [
        counted_behind(bytes, &mut strides),
        counted_behind(bytes, &mut strides),
    ];
    (misplaced, strides.count())
}

#[test]
fn earlier_strides_stay_counted(rt: HostRuntime) {
    expect_eq!(rt; counted_twice(&four_pairs(), 0), ([Some(0), Some(0)], 8));
    // The limit bounds the strides of one call, whatever was counted before.
    controls::laws::counts_add_up();
    expect_eq!(rt; counted_twice(&four_pairs(), u64::MAX - 9), ([Some(0), Some(0)], u64::MAX - 1));
    expect_eq!(rt; counted_twice(&four_pairs(), u64::MAX - 5), ([Some(0), Some(0)], u64::MAX));
    expect_eq!(rt; counted_twice(&four_pairs(), u64::MAX), ([Some(0), Some(0)], u64::MAX));
}
