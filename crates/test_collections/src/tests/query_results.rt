//! Queries of archived maps and sets, with results in plain numbers.

use rkyv_base::{Element, Narrow, Scalar, VerifyError, Width, access_in};
use rkyv_collections::{ArchivedHashMap, ArchivedHashSet, HashMapOf, HashSetOf};
use rkyv_keys::{ElementDebug, ElementEq, KeyElement, Query};
use rkyv_scan::{FxHasher64, KeyHasher};
use std::alloc::Global;
use std::process::Abort;

/// Returns whether a map is empty, its length and its capacity.
pub(crate) fn counts<K: Element, V: Element, H, W: Width>(
    bytes: &[u8],
) -> Result<(bool, usize, usize), VerifyError> {
    let root = access_in::<W, HashMapOf<K, V, H, W>>(bytes)?;
    let map = ArchivedHashMap::<K, V, H, W>::of(root);
    Ok((map.is_empty(), map.len(), map.capacity()))
}

/// Returns the number that a map has for a key, if it has the key.
pub(crate) fn number_of<K: KeyElement, N: Scalar, H: KeyHasher, W: Width, Q: Query<K>>(
    bytes: &[u8],
    key: &Q,
) -> Result<Option<N>, VerifyError> {
    let root = access_in::<W, HashMapOf<K, N, H, W>>(bytes)?;
    let map = ArchivedHashMap::<K, N, H, W>::of(root);
    match map.get(key) {
        Some(value) => Ok(Some(value.to_native())),
        None => Ok(None),
    }
}

/// Looks each key up in a map of `i8` to `i8`, and compares its value.
pub(crate) fn expect_values(rt: &impl Abort, bytes: &[u8], expected: &[(i8, Option<i8>)]) {
    for (key, value) in expected {
        expect_eq!(*rt; number_of::<i8, i8, FxHasher64, Narrow, i8>(bytes, key), Ok(*value));
    }
}

/// Compares whether a map of `i8` to `i8` is empty, its length and its capacity.
pub(crate) fn expect_counts(rt: &impl Abort, bytes: &[u8], expected: (bool, usize, usize)) {
    expect_eq!(*rt; counts::<i8, i8, FxHasher64, Narrow>(bytes), Ok(expected));
}

/// Returns whether two maps are equal, by `eq_map` and by `ElementEq::same`.
pub(crate) fn equal_maps<K: KeyElement, V: ElementEq, H: KeyHasher, W: Width>(
    bytes: &[u8],
    other: &[u8],
) -> Result<(bool, bool), VerifyError> {
    let root = access_in::<W, HashMapOf<K, V, H, W>>(bytes)?;
    let map = ArchivedHashMap::<K, V, H, W>::of(root);
    let other_root = access_in::<W, HashMapOf<K, V, H, W>>(other)?;
    let other_map = ArchivedHashMap::<K, V, H, W>::of(other_root);
    let same = HashMapOf::<K, V, H, W>::same(root, other_root);
    Ok((map.eq_map(other_map), same))
}

/// Returns whether two sets are equal, by `eq_set` and by `ElementEq::same`.
pub(crate) fn equal_sets<K: KeyElement, H: KeyHasher, W: Width>(
    bytes: &[u8],
    other: &[u8],
) -> Result<(bool, bool), VerifyError> {
    let root = access_in::<W, HashSetOf<K, H, W>>(bytes)?;
    let set = ArchivedHashSet::<K, H, W>::of(root);
    let other_root = access_in::<W, HashSetOf<K, H, W>>(other)?;
    let other_set = ArchivedHashSet::<K, H, W>::of(other_root);
    let same = HashSetOf::<K, H, W>::same(root, other_root);
    Ok((set.eq_set(other_set), same))
}

/// Returns whether the bytes are valid and their map prints as `text`.
pub(crate) fn map_prints<K: ElementDebug, V: ElementDebug, H, W: Width>(
    alloc: Global,
    bytes: &[u8],
    text: &str,
) -> bool {
    match access_in::<W, HashMapOf<K, V, H, W>>(bytes) {
        Ok(root) => {
            let map = ArchivedHashMap::<K, V, H, W>::of(root);
            matches!(format!(in alloc; "{map:?}"), Ok(shown) if shown.as_str() == text)
        }
        Err(_) => false,
    }
}

/// Returns whether the bytes are valid and their set prints as `text`.
pub(crate) fn set_prints<K: ElementDebug, H, W: Width>(
    alloc: Global,
    bytes: &[u8],
    text: &str,
) -> bool {
    match access_in::<W, HashSetOf<K, H, W>>(bytes) {
        Ok(root) => {
            let set = ArchivedHashSet::<K, H, W>::of(root);
            matches!(format!(in alloc; "{set:?}"), Ok(shown) if shown.as_str() == text)
        }
        Err(_) => false,
    }
}

/// Returns whether a set is empty, its length and the number of its misplaced keys.
pub(crate) fn set_counts<K: KeyElement, H: KeyHasher, W: Width>(
    bytes: &[u8],
) -> Result<(bool, usize, usize), VerifyError> {
    let root = access_in::<W, HashSetOf<K, H, W>>(bytes)?;
    let set = ArchivedHashSet::<K, H, W>::of(root);
    Ok((set.is_empty(), set.len(), set.misplaced()))
}

/// Returns whether a set has a key, and the position of the key in it.
pub(crate) fn member_of<K: KeyElement, H: KeyHasher, W: Width, Q: Query<K>>(
    bytes: &[u8],
    key: &Q,
) -> Result<(bool, Option<u64>), VerifyError> {
    let root = access_in::<W, HashSetOf<K, H, W>>(bytes)?;
    let set = ArchivedHashSet::<K, H, W>::of(root);
    match set.get(key) {
        Some(found) => Ok((set.contains(key), Some(found.pos()))),
        None => Ok((set.contains(key), None)),
    }
}
