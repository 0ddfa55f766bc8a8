//! All forms of a lookup in an index map or an index set.

use crate::tests::archives::{no_pairs, one_key_twice, wide_pair};
use crate::tests::opened::{key_set, map_in};
use rkyv_base::{Narrow, VerifyError, Wide};
use rkyv_index::IndexWidth;
use std::process::Abort;
use test_support::archives::{four_entries, one_index_key};

// The results of the forms of a lookup: index, key and value; key and value; the value; the index;
// whether the key is found.
type Found = (
    Option<(usize, i8, i8)>,
    Option<(i8, i8)>,
    Option<i8>,
    Option<usize>,
    bool,
);

// Returns the results of the forms of a lookup in a map of the width `W`.
fn found<W: IndexWidth>(bytes: &[u8], key: i8) -> Result<Found, VerifyError> {
    let map = map_in::<W>(bytes)?;
    let full = match map.get_full(&key) {
        Some((index, key, value)) => Some((index, key.to_native(), value.to_native())),
        None => None,
    };
    let pair = match map.get_key_value(&key) {
        Some((key, value)) => Some((key.to_native(), value.to_native())),
        None => None,
    };
    let value = match map.get(&key) {
        Some(value) => Some(value.to_native()),
        None => None,
    };
    Ok((
        full,
        pair,
        value,
        map.get_index_of(&key),
        map.contains_key(&key),
    ))
}

// The same in a set: index and key; the key; the index; whether the key is found.
type Member = (Option<(usize, i8)>, Option<i8>, Option<usize>, bool);

fn member(bytes: &[u8], key: i8) -> Result<Member, VerifyError> {
    let set = key_set(bytes)?;
    let full = match set.get_full(&key) {
        Some((index, key)) => Some((index, key.to_native())),
        None => None,
    };
    let stored = set.get(&key).map(|key| key.to_native());
    Ok((full, stored, set.get_index_of(&key), set.contains(&key)))
}

// Returns the results of the forms if the index, the key and the value in `full` are found.
fn forms_of(full: Option<(usize, i8, i8)>) -> Found {
    match full {
        Some((index, key, value)) => (full, Some((key, value)), Some(value), Some(index), true),
        None => (None, None, None, None, false),
    }
}

/// Fails the test unless all forms of a lookup of each key find the index, the key and the value
/// of its row, or nothing.
pub(crate) fn expect_found<W: IndexWidth>(
    rt: &impl Abort,
    bytes: &[u8],
    rows: &[(i8, Option<(usize, i8, i8)>)],
) {
    for (key, full) in rows {
        expect_eq!(*rt; (*key, found::<W>(bytes, *key)), (*key, Ok(forms_of(*full))));
    }
}

#[test]
fn all_forms_find_items_with_their_indices(rt: HostRuntime) {
    expect_found::<Narrow>(
        &rt,
        &four_entries(),
        &[
            (1, Some((0, 1, 2))),
            (5, Some((2, 5, 6))),
            (7, Some((3, 7, 8))),
            (9, None),
        ],
    );
    expect_found::<Narrow>(&rt, &one_key_twice(), &[(1, Some((0, 1, 2)))]);
    expect_found::<Narrow>(&rt, &no_pairs(), &[(1, None)]);
    expect_found::<Wide>(&rt, &wide_pair(), &[(1, Some((0, 1, 2))), (2, None)]);
    expect_eq!(rt; member(&one_index_key(), 1), Ok((Some((0, 1)), Some(1), Some(0), true)));
    expect_eq!(rt; member(&one_index_key(), 2), Ok((None, None, None, false)));
}
