//! Tests of a hash map that is a value of an index map, and of the reverse.
ghost use Rattle.std.specs.Int.{w32, w8};
ghost use Rattle.std.specs.Prelude.{IfOk, IfSome};
ghost use Rattle.rkyv_base.specs.{Viewable, entry_spec, scalar_spec, signed};
ghost use Rattle.rkyv_index.specs.{index_spec};

use crate::tests::sealed::{index_of, value_pos};
use rkyv_base::access::access;
use rkyv_base::{Narrow, VerifyError, to_bytes};
use rkyv_collections::map::in_place::set_value_of;
use rkyv_collections::map::laws::nested::{nested_writes_keep_lookups, nested_writes_keep_maps};
use rkyv_collections::{ArchivedHashMap, HashMapOf, MapPairs};
use rkyv_index::map::in_place::set_value_at;
use rkyv_index::map::laws::nested::nested_writes_keep_index_maps;
use rkyv_index::{ArchivedIndexMap, IndexMapOf, OrderedPairs};
use rkyv_scan::FxHasher64;
use std::alloc::Global;
use std::test::Fail;

type MapsInOrder = IndexMapOf<i8, HashMapOf<i8, i8>>;

type OrderedMaps = HashMapOf<i8, IndexMapOf<i8, i8>>;

// Returns the archive of an index map of 1 to the hash map of 1 to 2.
fn maps_in_order(alloc: Global) -> Result<Vec<u8>, Fail> {
    let pairs = [(1i8, 2i8)];
    let inner: MapPairs<'_, i8, i8> = MapPairs::new(&pairs);
    let outer = OrderedPairs(vec![in alloc; (1i8, inner)]?);
    Ok(to_bytes(alloc, &outer)?)
}

// Returns the archive of a hash map of 1 to the index map of 1 to 2.
fn ordered_maps(alloc: Global) -> Result<Vec<u8>, Fail> {
    let pairs = [(1i8, OrderedPairs(vec![in alloc; (1i8, 2i8)]?))];
    let outer: MapPairs<'_, i8, OrderedPairs<i8, i8>> = MapPairs::new(&pairs);
    Ok(to_bytes(alloc, &outer)?)
}

// Returns the value of the key 1 in the hash map of the key 1.
fn value_in_map(bytes: &[u8]) -> Result<Option<i8>, VerifyError> {
    let outer = ArchivedIndexMap::of(access::<MapsInOrder>(bytes)?);
    let Some(inner) = outer.get(&1i8) else {
        return Ok(None);
    };
    match ArchivedHashMap::of(inner).get(&1i8) {
        Some(value) => Ok(Some(value.to_native())),
        None => Ok(None),
    }
}

/// Validates an archive, and returns its hash map of `i8` to index maps of `i8` to `i8`.
pub(crate) fn hash_map(
    bytes: &[u8],
) -> Result<ArchivedHashMap<'_, i8, IndexMapOf<i8, i8>>, VerifyError> {
    Ok(ArchivedHashMap::of(access::<OrderedMaps>(bytes)?))
}

// Returns the value of the key 1 in the index map of the key 1.
fn value_in_order(bytes: &[u8]) -> Result<Option<i8>, VerifyError> {
    let outer = hash_map(bytes)?;
    let Some(inner) = outer.get(&1i8) else {
        return Ok(None);
    };
    match ArchivedIndexMap::of(inner).get(&1i8) {
        Some(value) => Ok(Some(value.to_native())),
        None => Ok(None),
    }
}

// Returns the position of the index map of a key, which is valid.
fn order_pos(bytes: &[u8], key: i8) -> Result<Option<u64>, VerifyError>
    ensures { IfOk result (λ found. IfSome found (Viewable
        (index_spec w32 (entry_spec (scalar_spec (signed w8)) (scalar_spec (signed w8))))
        bytes.now)) }
{
    let outer = ArchivedHashMap::of(access::<OrderedMaps>(bytes)?);
    match outer.get(&key) {
        Some(inner) => Ok(Some(inner.pos())),
        None => Ok(None),
    }
}

// Writes the value of the key 1 of the hash map of a key. Returns `false` if there is none.
fn write_in_map(bytes: &mut [u8], key: i8, value: i8) -> Result<bool, VerifyError> {
    let Some(pos) = value_pos::<HashMapOf<i8, i8>>(&*bytes, key)? else {
        return Ok(false);
    };
    Ok(set_value_of::<i8, i8, i8, FxHasher64, Narrow>(bytes, pos, &1, value))
}

// Writes the value of the key 1 of the index map of a key. Returns `false` if there is none.
fn write_in_order(bytes: &mut [u8], key: i8, value: i8) -> Result<bool, VerifyError> {
    let Some(pos) = order_pos(&*bytes, key)? else {
        return Ok(false);
    };
    let Some(index) = index_of::<i8, i8, FxHasher64, Narrow, i8>(&*bytes, pos, &1) else {
        return Ok(false);
    };
    set_value_at::<i8, i8, i8, FxHasher64, Narrow>(bytes, pos, index, value);
    Ok(true)
}

// Returns the number of positions at which the bytes differ, or `None` if their lengths do.
fn differences(one: &[u8], other: &[u8]) -> Option<usize> {
    if one.len() != other.len() {
        return None;
    }
    let mut count = 0usize;
    for pos in 0..one.len() {
        if one.get(pos) != other.get(pos) {
            count = count.wrapping_add(1);
        }
    }
    Some(count)
}

#[test]
fn maps_of_the_other_kind_are_written_in_place(rt: HostRuntime) -> Result<(), Fail> {
    nested_writes_keep_index_maps::<i8, HashMapOf<i8, i8>, FxHasher64, Narrow>();
    let before = maps_in_order(rt.alloc())?;
    let mut bytes = maps_in_order(rt.alloc())?;
    expect_eq!(rt; write_in_map(&mut bytes, 1, 7), Ok(true));
    expect_eq!(rt; write_in_map(&mut bytes, 2, 8), Ok(false));
    expect_eq!(rt; differences(&before, &bytes), Some(1));
    expect_eq!(rt; [value_in_map(&before), value_in_map(&bytes)], [Ok(Some(2)), Ok(Some(7))]);
    nested_writes_keep_maps::<i8, IndexMapOf<i8, i8>, FxHasher64, Narrow>();
    nested_writes_keep_lookups::<i8, IndexMapOf<i8, i8>, i8, FxHasher64, Narrow>();
    let before = ordered_maps(rt.alloc())?;
    let mut bytes = ordered_maps(rt.alloc())?;
    expect_eq!(rt; write_in_order(&mut bytes, 1, 7), Ok(true));
    expect_eq!(rt; write_in_order(&mut bytes, 2, 8), Ok(false));
    expect_eq!(rt; differences(&before, &bytes), Some(1));
    expect_eq!(rt; [value_in_order(&before), value_in_order(&bytes)], [Ok(Some(2)), Ok(Some(7))]);
    Ok(())
}
