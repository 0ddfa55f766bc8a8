//! Tests of the first and the last pair of index maps, those of index sets, and values by `index`.

use crate::tests::archives::{no_pairs, no_wide_pairs, one_key_twice, wide_key, wide_pair};
use crate::tests::opened::map_in;
use rkyv_base::{Narrow, VerifyError, Wide, access_in};
use rkyv_index::{ArchivedIndexMap, ArchivedIndexSet, IndexMapOf, IndexSetOf, IndexWidth};
use rkyv_scan::FxHasher64;
use test_support::archives::{four_entries, one_index_key};

type Ends = (Option<(i8, i8)>, Option<(i8, i8)>);

// Returns the first and the last pair of a map.
fn ends<W: IndexWidth>(bytes: &[u8]) -> Result<Ends, VerifyError> {
    let map = map_in::<W>(bytes)?;
    let first = match map.first() {
        Some((key, value)) => Some((key.to_native(), value.to_native())),
        None => None,
    };
    let last = match map.last() {
        Some((key, value)) => Some((key.to_native(), value.to_native())),
        None => None,
    };
    Ok((first, last))
}

#[test]
fn the_first_and_the_last_pair_are_read(rt: HostRuntime) {
    let one = Some((1, 2));
    expect_eq!(rt; ends::<Narrow>(&four_entries()), Ok((one, Some((7, 8)))));
    expect_eq!(rt; ends::<Narrow>(&one_key_twice()), Ok((one, Some((1, 9)))));
    expect_eq!(rt; ends::<Wide>(&wide_pair()), Ok((one, one)));
    expect_eq!(rt; ends::<Narrow>(&no_pairs()), Ok((None, None)));
    expect_eq!(rt; ends::<Wide>(&no_wide_pairs()), Ok((None, None)));
}

// Returns the first and the last key of a set.
fn end_keys<W: IndexWidth>(bytes: &[u8]) -> Result<(Option<i8>, Option<i8>), VerifyError> {
    let set = ArchivedIndexSet::of(access_in::<W, IndexSetOf<i8, FxHasher64, W>>(bytes)?);
    let first = match set.first() {
        Some(key) => Some(key.to_native()),
        None => None,
    };
    let last = match set.last() {
        Some(key) => Some(key.to_native()),
        None => None,
    };
    Ok((first, last))
}

#[test]
fn the_first_and_the_last_key_are_read(rt: HostRuntime) {
    let both = Ok((Some(1), Some(1)));
    expect_eq!(rt; end_keys::<Narrow>(&one_index_key()), both);
    expect_eq!(rt; end_keys::<Wide>(&wide_key()), both);
    expect_eq!(rt; end_keys::<Narrow>(&no_pairs()), Ok((None, None)));
    expect_eq!(rt; end_keys::<Wide>(&no_wide_pairs()), Ok((None, None)));
}

// Returns the value of a key by `index`, if the map has the key.
fn indexed<W: IndexWidth>(bytes: &[u8], key: i8) -> Result<Option<i8>, VerifyError> {
    let root = access_in::<W, IndexMapOf<i8, i8, FxHasher64, W>>(bytes)?;
    let map = ArchivedIndexMap::of(root);
    if map.contains_key(&key) {
        return Ok(Some(map.index(&key).to_native()));
    }
    Ok(None)
}

#[test]
fn a_key_that_is_found_has_a_value(rt: HostRuntime) {
    let four = four_entries();
    expect_eq!(rt; indexed::<Narrow>(&four, 5), Ok(Some(6)));
    expect_eq!(rt; indexed::<Narrow>(&four, 9), Ok(None));
    expect_eq!(rt; indexed::<Wide>(&wide_pair(), 1), Ok(Some(2)));
    expect_eq!(rt; indexed::<Wide>(&no_wide_pairs(), 1), Ok(None));
}
