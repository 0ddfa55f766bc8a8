//! Tests of a map whose values are maps: writing, reading, and values that share bytes.

ghost use Rattle.rkyv_base.specs.{Viewable};
ghost use Rattle.rkyv_table.specs.{WritesAmongParts};
ghost use Rattle.rkyv_collections.specs.{map_spec};

use crate::tests::archives::is_map_archive;
use rkyv_base::access::access;
use rkyv_base::{
    Element, Entry, Narrow, Represents, Scalar, VecWriter, VerifyError, Width, WriteError,
    write_root,
};
use rkyv_collections::map::in_place::set_value_of;
use rkyv_collections::map::laws::nested::value_writes_are_nested;
use rkyv_collections::{ArchivedHashMap, FxHasher64, HashMapOf, KeyElement, MapPairs, NativeKey};
use std::alloc::Global;
use test_support::archives::{one_pair, two_maps};
use test_support::changes::with_bytes;

type Inner = HashMapOf<u16, u16>;

type Outer = HashMapOf<Entry<u8, u8>, Inner>;

// Returns whether (1, 2) and (3, 4), each mapped to the map of 1337 to 42, are archived as `bytes`.
fn two_maps_are(alloc: Global, bytes: &[u8]) -> bool {
    let inner: MapPairs<'_, u16, u16> = MapPairs::new(&[(1337, 42)]);
    is_map_archive(alloc, &[((1u8, 2u8), inner), ((3, 4), inner)], bytes)
}

// Returns the number of values that map 1337 to 42. Then comes whether the outer map has the keys
// (1, 2), (3, 4) and (1, 4).
fn reads(bytes: &[u8]) -> Result<(usize, [bool; 3]), VerifyError> {
    let map = ArchivedHashMap::of(access::<Outer>(bytes)?);
    let mut count = 0usize;
    for value in map.values() {
        match ArchivedHashMap::of(value).get(&1337u16) {
            Some(number) if number.to_native() == 42 => count = count.wrapping_add(1),
            _ => {}
        }
    }
    let keys = [
        map.contains_key(&(1u8, 2u8)),
        map.contains_key(&(3u8, 4u8)),
        map.contains_key(&(1u8, 4u8)),
    ];
    Ok((count, keys))
}

#[test]
fn two_maps_are_written(rt: HostRuntime) {
    assert!(rt; two_maps_are(rt.alloc(), &two_maps()));
}

// Writes the map of 1 and 3 to maps of 1 to 2. The load factor of the second inner map is invalid.
// Returns the load factor of the error, and whether the written bytes are those of the first inner
// map.
fn second_fails(alloc: Global) -> (Option<(usize, usize)>, bool) {
    let pairs = [(1i8, 2i8)];
    let first: MapPairs<'_, i8, i8> = MapPairs::new(&pairs);
    let second: MapPairs<'_, i8, i8> = MapPairs::with_load_factor(&pairs, (8, 7));
    let values = [(1i8, first), (3, second)];
    let outer: MapPairs<'_, i8, MapPairs<'_, i8, i8>> = MapPairs::new(&values);
    let mut writer = VecWriter::new(alloc);
    let load_factor = match write_root(alloc, &outer, &mut writer) {
        Err(
            WriteError::InvalidLoadFactor {
                numerator,
                denominator,
            },
        ) => Some((numerator, denominator)),
        _ => None,
    };
    (load_factor, one_pair().get(..35) == Some(writer.bytes()))
}

#[test]
fn a_value_that_fails_ends_the_write(rt: HostRuntime) {
    expect_eq!(rt; second_fails(rt.alloc()), (Some((8, 7)), true));
}

#[test]
fn two_maps_are_read(rt: HostRuntime) {
    value_writes_are_nested::<i8, HashMapOf<i8, i8>, Narrow>();
    expect_eq!(rt; reads(&two_maps()), Ok((2, [true, true, false])));
}

// Returns the archive of the two maps, with both values at the bytes of the first map.
fn one_map_twice() -> [u8; 172] {
    let mut bytes = two_maps();
    bytes[84..88].copy_from_slice(&(-76i32).to_le_bytes());
    bytes
}

#[test]
fn maps_share_no_bytes(rt: HostRuntime) {
    let error = VerifyError::OutOfRange { pos: 0, size: 39 };
    expect_eq!(rt; reads(&one_map_twice()), Err(error));
}

// Writes the value of a key in the first map of a map of maps, in bucket order.
// Returns the position of that map.
fn set_in_first<K: Element, A: NativeKey<L>, L: KeyElement + Represents<A>, N: Scalar, W: Width>(
    bytes: &mut [u8],
    root: u64,
    key: &A,
    value: N,
) -> Option<u64>
    requires { Viewable (map_spec W.word K.spec (map_spec W.word L.spec N.spec)) bytes.old root }
{
    let mut maps = ArchivedHashMap::<K, HashMapOf<L, N, FxHasher64, W>, FxHasher64, W>::values_over(
        bytes, root,
    );
    maps.next_with(
        |archive: &mut [u8], pos: u64|
            requires { Viewable (map_spec W.word L.spec N.spec) archive.old pos }
            ensures { WritesAmongParts (map_spec W.word L.spec N.spec) archive.old archive.new pos }
        {
            let _found = set_value_of::<A, L, N, FxHasher64, W>(archive, pos, key, value);
        },
    )
}

// Writes the number of 1337 in the first map. Returns the position of that map.
fn change_first(bytes: &mut [u8; 172], number: u16) -> Result<Option<u64>, VerifyError> {
    let root = access::<Outer>(bytes)?.pos();
    Ok(set_in_first::<Entry<u8, u8>, u16, u16, u16, Narrow>(bytes, root, &1337, number))
}

#[test]
fn a_closure_of_a_step_writes_in_an_inner_map(rt: HostRuntime) {
    let mut bytes = two_maps();
    expect_eq!(rt; change_first(&mut bytes, 43), Ok(Some(116)));
    expect_eq!(rt; bytes, with_bytes(two_maps(), 2, &[43]));
}
