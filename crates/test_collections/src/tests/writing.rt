//! Tests of the written bytes of maps and sets.

use crate::tests::archives::{is_map_archive, map_archive};
use crate::tests::query_results::{expect_counts, expect_values};
use rkyv_base::{Narrow, NoMemory, Represents, Serialize, VecWriter, WriteError};
use rkyv_collections::map::laws::written::{listed_pairs_are_written, written_maps_represent};
use rkyv_collections::set::laws::written::{listed_items_are_written, written_sets_represent};
use rkyv_collections::set::laws::{both_hashers_look_up_alike, sets_are_laid_out};
use rkyv_collections::{ArchivedHashMap, ArchivedHashSet, MapPairs};
use rkyv_keys::{KeyElement, NativeKey};
use rkyv_scan::FxHasher64;
use std::alloc::Global;
use std::test::Fail;
use test_support::archives::{four_pairs_backwards, nested, no_items, three_keys};
use test_support::written::is_then_empty;

type Numbers = ArchivedHashMap<'static, i8, i8, FxHasher64, Narrow>;

// Writes the map of these pairs at position 0. Returns the position that resolves the map, if the
// written bytes are `front` and then `empty` empty controls.
fn map_pos(
    alloc: Global,
    pairs: &[(i8, i8)],
    front: &[u8],
    empty: usize,
) -> Result<Option<u64>, WriteError<NoMemory>> {
    let mut writer = VecWriter::new(alloc);
    let resolver = Numbers::serialize_from_iter::<VecWriter, i8, i8, i8, i8, _>(
        alloc,
        pairs.iter().copied(),
        pairs.len(),
        (7, 8),
        &mut writer,
    )?;
    if is_then_empty(writer.bytes(), front, empty) {
        return Ok(Some(resolver.pos()));
    }
    Ok(None)
}

// Does the same with the set of these keys.
fn set_pos<
    K: KeyElement
        + NativeKey<K>
        + Serialize<VecWriter, Narrow, Archived = K>
        + Copy
        + Represents<K>,
>(
    alloc: Global,
    keys: &[K],
    front: &[u8],
    empty: usize,
) -> Result<Option<u64>, WriteError<NoMemory>> {
    let mut writer = VecWriter::new(alloc);
    let resolver = ArchivedHashSet::<K, FxHasher64, Narrow>::serialize_from_iter::<
        VecWriter,
        K,
        &K,
        _,
    >(alloc, keys.iter(), keys.len(), (7, 8), &mut writer)?;
    if is_then_empty(writer.bytes(), front, empty) {
        return Ok(Some(resolver.pos()));
    }
    Ok(None)
}

#[test]
fn maps_are_written(rt: HostRuntime) {
    listed_pairs_are_written::<Narrow, FxHasher64, i8, i8, i8, i8>();
    written_maps_represent::<Narrow, FxHasher64, i8, i8, i8, i8>();
    let alloc = rt.alloc();
    let one = [1, 2, 0, 0, 0xff, 0x28, 0xff, 0x28];
    let twice = [0, 0, 1, 9, 1, 2, 0x28, 0x28, 0xff, 0x28, 0x28, 0xff];
    let four = [
        3, 4, 1, 2, 0, 0, 7, 8, 5, 6, 0x4b, 0x1d, 0xff, 0x28, 0x7a, 0x4b, 0x1d, 0xff, 0x28, 0x7a,
    ];
    expect_eq!(rt; map_pos(alloc, &[(1, 2)], &one, 27), Ok(Some(4)));
    expect_eq!(rt; map_pos(alloc, &[(1, 2), (1, 9)], &twice, 25), Ok(Some(6)));
    expect_eq!(rt; map_pos(alloc, &[(1, 2), (3, 4), (5, 6), (7, 8)], &four, 21), Ok(Some(10)));
    expect_eq!(rt; map_pos(alloc, &[], &[], 0), Ok(Some(0)));
    let pairs: &[(i8, i8)] = &[(7, 8), (5, 6), (3, 4), (1, 2)];
    assert!(rt; is_map_archive(rt.alloc(), pairs, &four_pairs_backwards()));
}

#[test]
fn sets_are_written(rt: HostRuntime) {
    both_hashers_look_up_alike::<i8, i8, Narrow>();
    listed_items_are_written::<Narrow, FxHasher64, i8, i8>();
    sets_are_laid_out::<Narrow, FxHasher64, i8, i8>();
    written_sets_represent::<Narrow, FxHasher64, u8, u8>();
    let alloc = rt.alloc();
    let three = [3, 2, 1, 0, 0xff, 0x28, 0x51, 0x7a, 0xff, 0x28, 0x51, 0x7a];
    expect_eq!(rt; set_pos::<()>(alloc, &[()], &[0, 0xff, 0], 28), Ok(Some(0)));
    expect_eq!(rt; set_pos::<()>(alloc, &[(), ()], &[0, 0, 0xff, 0, 0], 26), Ok(Some(0)));
    expect_eq!(rt; set_pos::<u8>(alloc, &[1, 2, 3], &three, 23), Ok(Some(4)));
    expect_eq!(rt; set_pos::<u8>(alloc, &[], &[], 0), Ok(Some(0)));
}

// Returns the header of the set of 1, 2 and 3 at position 36, and whether it fits.
fn set_header(alloc: Global) -> Result<([u8; 12], bool), WriteError<NoMemory>> {
    let mut writer = VecWriter::new(alloc);
    let resolver = ArchivedHashSet::<u8, FxHasher64, Narrow>::serialize_from_iter::<
        VecWriter,
        u8,
        u8,
        _,
    >(alloc, [1u8, 2, 3].into_iter(), 3, (7, 8), &mut writer)?;
    let (len, load_factor) = (resolver.len(), resolver.load_factor());
    let mut header = [0u8; 12];
    let fits = ArchivedHashSet::<u8, FxHasher64, Narrow>::resolve_from_len(
        len,
        load_factor,
        resolver,
        36,
        &mut header,
    ).is_ok();
    Ok((header, fits))
}

#[test]
fn the_header_of_a_set(rt: HostRuntime) {
    let mut header = [0; 12];
    header.copy_from_slice(&three_keys()[36..]);
    expect_eq!(rt; set_header(rt.alloc()), Ok((header, true)));
}

// Returns the header of the map of 1 to 2 at a position, and whether its distance fits.
// The header is written over sevens.
fn map_header(alloc: Global, pos: u32) -> Result<([u8; 12], bool), WriteError<NoMemory>> {
    let mut writer = VecWriter::new(alloc);
    let resolver = Numbers::serialize_from_iter::<VecWriter, i8, i8, i8, i8, _>(
        alloc,
        [(1i8, 2i8)].into_iter(),
        1,
        (7, 8),
        &mut writer,
    )?;
    let (len, load_factor) = (resolver.len(), resolver.load_factor());
    let mut header = [7u8; 12];
    let fits = Numbers::resolve_from_len(
        len,
        load_factor,
        resolver,
        u64::from(pos),
        &mut header,
    ).is_ok();
    Ok((header, fits))
}

#[test]
fn the_header_of_a_map_and_the_empty_map(rt: HostRuntime) {
    let near = [0xe0, 0xff, 0xff, 0xff, 1, 0, 0, 0, 2, 0, 0, 0];
    expect_eq!(rt; map_header(rt.alloc(), 36), Ok((near, true)));
    let farthest = [0, 0, 0, 0x80, 1, 0, 0, 0, 2, 0, 0, 0];
    expect_eq!(rt; map_header(rt.alloc(), 2_147_483_652), Ok((farthest, true)));
    expect_eq!(rt; map_header(rt.alloc(), 2_147_483_656), Ok(([7; 12], false)));
    assert!(rt; is_map_archive::<i8, i8>(rt.alloc(), &[], &no_items()));
}

// Returns the archive of a list of five pairs, two of them with one key.
fn archived_list(alloc: Global) -> Result<Vec<u8>, WriteError<NoMemory>> {
    map_archive::<i8, i8>(alloc, &[(1, 2), (3, 4), (5, 6), (7, 8), (3, 9)])
}

#[test]
fn a_list_is_looked_up(rt: HostRuntime) -> Result<(), Fail> {
    let bytes = archived_list(rt.alloc())?;
    expect_values(
        &rt,
        bytes.as_slice(),
        &[(3, Some(4)), (7, Some(8)), (2, None)],
    );
    expect_counts(&rt, bytes.as_slice(), (false, 5, 6));
    Ok(())
}

// Returns whether the map of 1 to the map of 1 to 2 is archived as `bytes`.
fn one_in_one_is(alloc: Global, bytes: &[u8]) -> bool {
    let inner: MapPairs<'_, i8, i8> = MapPairs::new(&[(1, 2)]);
    is_map_archive(alloc, &[(1i8, inner)], bytes)
}

#[test]
fn a_map_of_maps(rt: HostRuntime) {
    assert!(rt; one_in_one_is(rt.alloc(), &nested()));
}
