//! Walks over the items of tables.

use crate::tests::archives::{sixteen_archived, two_archived};
use crate::tests::reading::walks_over;
use rkyv_base::access::access;
use rkyv_base::{Element, Entry, Narrow, VerifyError};
use rkyv_table::table::laws;
use rkyv_table::table::list_inputs::{PairRefs, Refs, WithUnits};
use rkyv_table::table::write::take::next_item;
use rkyv_table::{ArchivedHashTable, RawIter, TableOf};
use test_support::archives::{four_pairs, no_items, one_key_twice, two_units};

// Returns `true` if so many items of a walk remain.
fn has_left(rest: &RawIter<'_, u8>, left: usize) -> bool {
    rest.len() == left && rest.size_hint() == (left, Some(left))
}

// Returns `true` if a walk over a table of numbers returns `items` and then `None`. The number
// of items that remain is right at each step.
fn yields(mut rest: RawIter<'_, u8>, bytes: &[u8], items: &[u8]) -> bool {
    let mut right = true;
    let mut left = items.len();
    for expected in items {
        right = right && has_left(&rest, left);
        left = left.saturating_sub(1);
        match rest.next() {
            Some(pos) => right = right && bytes.get(pos as usize) == Some(expected),
            None => return false,
        }
    }
    right && has_left(&rest, 0) && rest.next().is_none() && rest.next().is_none()
}

// Returns the same of the walk over the table at the end of an archive.
fn walks(bytes: &[u8], items: &[u8]) -> Result<bool, VerifyError> {
    let view = access::<TableOf<u8>>(bytes)?;
    Ok(yields(ArchivedHashTable::of(view).raw_iter(), bytes, items))
}

#[test]
fn items_are_walked_by_ascending_bucket(rt: HostRuntime) {
    laws::positions_are_yielded::<u32>();
    laws::walk_visits_homes();
    let sixteen = [2, 3, 4, 5, 6, 7, 8, 9, 10, 11, 12, 13, 14, 15, 16, 1];
    expect_eq!(rt; walks(&two_archived(), &[20, 10]), Ok(true));
    expect_eq!(rt; walks(&sixteen_archived(), &sixteen), Ok(true));
    expect_eq!(rt; walks(&no_items(), &[]), Ok(true));
    let pairs = [5, 6, 7, 8, 1, 2, 3, 4];
    expect_eq!(rt; walks_over::<Entry<i8, i8>, Narrow>(&four_pairs(), &pairs), Ok(true));
    expect_eq!(rt; walks_over::<Entry<i8, i8>, Narrow>(&one_key_twice(), &[1, 2, 1, 9]), Ok(true));
}

// Returns the first four results of a walk.
fn four_steps<T: Element>(bytes: &[u8]) -> Result<[Option<u64>; 4], VerifyError> {
    let table = ArchivedHashTable::of(access::<TableOf<T>>(bytes)?);
    let mut rest = table.raw_iter();
    Ok([rest.next(), rest.next(), rest.next(), rest.next()])
}

#[test]
fn a_walk_yields_positions(rt: HostRuntime) {
    let given = four_steps::<u8>(&two_archived()).ok();
    assert_eq!(rt; given, Some([Some(2), Some(0), None, None]));
}

#[test]
fn units_and_empty_tables_are_walked(rt: HostRuntime) {
    expect_eq!(rt; four_steps::<()>(&two_units()), Ok([Some(0), Some(0), None, None]));
    let mut rest = RawIter::<u8>::empty();
    expect_eq!(rt; rest.next().is_none(), true);
    expect_eq!(rt; rest.next().is_none(), true);
    expect_eq!(rt; rest.next_view().is_none(), true);
    expect_eq!(rt; rest.len(), 0);
}

// Returns the numbers of a table of two, by the views of a walk, and whether the walk then ends.
fn two_views(bytes: &[u8]) -> Result<Option<(u8, u8, bool)>, VerifyError> {
    let table = ArchivedHashTable::of(access::<TableOf<u8>>(bytes)?);
    let mut rest = table.raw_iter();
    let (first, second) = match (rest.next_view(), rest.next_view()) {
        (Some(first), Some(second)) => (first.to_native(), second.to_native()),
        _ => return Ok(None),
    };
    let ended = rest.next_view().is_none() && rest.next_view().is_none();
    Ok(Some((first, second, ended)))
}

#[test]
fn a_walk_yields_views(rt: HostRuntime) {
    expect_eq!(rt; two_views(&two_archived()), Ok(Some((20, 10, true))));
}

// Returns for each step of an iterator of two pairs whether it is right, up to the end.
fn right_steps_of_pairs() -> [bool; 3] {
    let list = [(1u8, 2u8), (3, 4)];
    let mut pairs = PairRefs::of(&list);
    [
        matches!(pairs.next(), Some((&1, &2))),
        matches!(pairs.next(), Some((&3, &4))),
        pairs.next().is_none(),
    ]
}

// The same of an iterator of two keys, each with the unit value.
fn right_steps_of_keys() -> [bool; 3] {
    let keys = [5u8, 6];
    let mut units = WithUnits {
        keys: Refs::of(&keys),
    };
    [
        matches!(units.next(), Some((&5, ()))),
        matches!(units.next(), Some((&6, ()))),
        units.next().is_none(),
    ]
}

#[test]
fn lists_are_yielded_in_order(rt: HostRuntime) {
    laws::lists_are_yielded::<u8, u8, &u8, Refs<'_, u8>>();
    expect_eq!(rt; [right_steps_of_pairs(), right_steps_of_keys()], [[true; 3]; 2]);
    let list = [5u8, 6];
    let mut items = Refs::of(&list);
    expect_eq!(rt; matches!(next_item(&mut items), Some(&5)), true);
    expect_eq!(rt; matches!(next_item(&mut items), Some(&6)), true);
    expect_eq!(rt; next_item(&mut items).is_none(), true);
}
