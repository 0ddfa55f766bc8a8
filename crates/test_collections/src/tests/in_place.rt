//! Tests of values of maps that a closure or a cursor writes over the plain bytes.

use crate::tests::archives::expect_four_with;
use crate::tests::opened::{small_pos, small_seal};
use rkyv_base::{Element, Narrow, Scalar, VerifyError, View, Width, access_in};
use rkyv_collections::{ArchivedHashMap, HashMapOf};
use rkyv_scan::FxHasher64;
use test_support::archives::four_pairs;
use test_support::changes::change;

// Writes a byte over the value of a key. Returns the position of the value, if the key is found.
fn change_found(bytes: &mut [u8], key: i8, byte: u8) -> Result<Option<u64>, VerifyError> {
    let root = small_pos(&*bytes)?;
    Ok(ArchivedHashMap::<i8, i8, FxHasher64, Narrow>::found_with(
        bytes,
        root,
        &key,
        |archive: &mut [u8], pos: u64| change(archive, pos, byte),
    ))
}

#[test]
fn a_found_value_is_written_over_the_bare_bytes(rt: HostRuntime) {
    let mut bytes = four_pairs();
    expect_eq!(rt; change_found(&mut bytes, 7, 70), Ok(Some(7)));
    expect_four_with(&rt, &bytes, [3, 4, 1, 2, 0, 0, 7, 70, 5, 6]);
    let mut bytes = four_pairs();
    expect_eq!(rt; change_found(&mut bytes, 9, 70), Ok(None));
    expect_eq!(rt; bytes, four_pairs());
}

// Writes a byte over the value of a key, if the comparison accepts it. Returns the position of
// the value, if one is written.
fn change_accepted(
    bytes: &mut [u8],
    key: i8,
    accepts: bool,
    byte: u8,
) -> Result<Option<u64>, VerifyError> {
    let root = small_pos(&*bytes)?;
    Ok(ArchivedHashMap::<i8, i8, FxHasher64, Narrow>::found_by(
        bytes,
        root,
        &key,
        |_: &i8, _: View<'_, i8>| accepts,
        |archive: &mut [u8], pos: u64| change(archive, pos, byte),
    ))
}

#[test]
fn an_accepted_value_is_written_over_the_bare_bytes(rt: HostRuntime) {
    let mut bytes = four_pairs();
    expect_eq!(rt; change_accepted(&mut bytes, 7, true, 70), Ok(Some(7)));
    expect_four_with(&rt, &bytes, [3, 4, 1, 2, 0, 0, 7, 70, 5, 6]);
    let mut bytes = four_pairs();
    expect_eq!(rt; change_accepted(&mut bytes, 7, false, 70), Ok(None));
    expect_eq!(rt; bytes, four_pairs());
}

// Writes a byte behind the key of each pair while the cursor steps. Returns the results of five
// steps, which are positions of keys or `None`, and the number of pairs left.
fn change_stepping(bytes: &mut [u8], byte: u8) -> Result<([Option<u64>; 5], usize), VerifyError> {
    let whole = small_seal(bytes)?;
    let mut rest = ArchivedHashMap::iter_seal(whole);
    let mut positions = [None; 5];
    for key_pos in &mut positions {
        *key_pos = rest.next_with(|archive: &mut [u8], pos: u64| {
            let _value = change(archive, pos.wrapping_add(1), byte);
        });
    }
    Ok((positions, rest.len()))
}

#[test]
fn pairs_are_written_while_the_cursor_steps(rt: HostRuntime) {
    let mut bytes = four_pairs();
    expect_eq!(rt; change_stepping(&mut bytes, 20),
        Ok(([Some(8), Some(6), Some(2), Some(0), None], 0)));
    expect_four_with(&rt, &bytes, [3, 20, 1, 20, 0, 0, 7, 20, 5, 20]);
}

// Writes a number over the values of the first two pairs of the map in the plain bytes.
// Returns the positions of their keys, and the number of pairs left.
fn write_behind_keys(
    bytes: &mut [u8],
    value: i8,
) -> Result<([Option<u64>; 2], usize), VerifyError> {
    let root = small_pos(&*bytes)?;
    let mut rest = ArchivedHashMap::<i8, i8, FxHasher64, Narrow>::iter_over(bytes, root);
    let mut positions = [None; 2];
    for key_pos in &mut positions {
        if let Some(pos) = rest.next_pos() {
            rest.set_at(pos, value);
            *key_pos = Some(pos);
        }
    }
    Ok((positions, rest.len()))
}

#[test]
fn pairs_are_written_over_the_bare_bytes(rt: HostRuntime) {
    let mut bytes = four_pairs();
    expect_eq!(rt; write_behind_keys(&mut bytes, 20), Ok(([Some(8), Some(6)], 2)));
    expect_four_with(&rt, &bytes, [3, 4, 1, 2, 0, 0, 7, 20, 5, 20]);
}

// Writes these numbers over the values of the map in the plain bytes, one after the other.
// Returns the number of values left.
fn write_over<K: Element, N: Scalar, H, W: Width>(
    bytes: &mut [u8],
    values: &[N],
) -> Result<usize, VerifyError> {
    let root = access_in::<W, HashMapOf<K, N, H, W>>(&*bytes)?.pos();
    let mut rest = ArchivedHashMap::<K, N, H, W>::values_over(bytes, root);
    for value in values {
        if let Some(pos) = rest.next_pos() {
            rest.set_at(pos, *value);
        }
    }
    Ok(rest.len())
}

#[test]
fn values_are_written_over_the_bare_bytes(rt: HostRuntime) {
    let mut bytes = four_pairs();
    expect_eq!(rt; write_over::<i8, i8, FxHasher64, Narrow>(&mut bytes, &[10, 11, 12]), Ok(1));
    expect_four_with(&rt, &bytes, [3, 4, 1, 12, 0, 0, 7, 11, 5, 10]);
}
