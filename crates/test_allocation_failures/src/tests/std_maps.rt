//! Std maps and sets that are archived, and read back.

use rkyv_base::access::access;
use rkyv_base::{
    Entry, Narrow, NoMemory, ReadError, Text, VecWriter, VerifyError, WriteError, Writer,
    write_root,
};
use rkyv_collections::std_maps::round_trip::{RoundTripError, round_trips_equal};
use rkyv_collections::{ArchivedHashMap, ArchivedHashSet, HashMapOf, HashSetOf, Hashed};
use std::alloc::{AllocError, Global};
use std::collections::{HashMap, HashSet};
use std::hash::BuildHasherDefault;
use test_support::archives;
use test_support::archives::{archive, four_pairs};

type Inner = Hashed<HashMap<u16, u16>>;

type Maps = HashMap<(u8, u8), Inner>;

type ArchivedMaps<'a> = ArchivedHashMap<'a, Entry<u8, u8>, HashMapOf<u16, u16>>;

// Returns the map of 1337 to 42.
fn one_number(alloc: Global) -> Result<Inner, AllocError> {
    let mut map = HashMap::new(alloc);
    map.insert(1337, 42)?;
    Ok(Hashed::new(map))
}

// Returns the map of (1, 2) and (3, 4), each to the map of 1337 to 42.
fn two_maps(alloc: Global) -> Result<Hashed<Maps>, AllocError> {
    let mut maps = HashMap::new(alloc);
    maps.insert((1, 2), one_number(alloc)?)?;
    maps.insert((3, 4), one_number(alloc)?)?;
    Ok(Hashed::new(maps))
}

// Validates an archive, and returns its map of maps.
fn archived_maps(bytes: &[u8]) -> Result<ArchivedMaps<'_>, VerifyError> {
    Ok(ArchivedHashMap::of(access::<HashMapOf<Entry<u8, u8>, HashMapOf<u16, u16>>>(bytes)?))
}

// Returns whether an archived map of maps equals one of std.
fn equals(archived: ArchivedMaps<'_>, maps: &Maps) -> bool {
    archived.eq_std::<(u8, u8), Inner, _>(maps)
}

// Returns whether the archive is valid, and its map equals `maps`.
fn is_the_same(bytes: &[u8], maps: &Maps) -> bool {
    matches!(archived_maps(bytes), Ok(archived) if equals(archived, maps))
}

// Returns whether the archive of the map is right, or the error of its write and the number
// of failures of its writer. It is `None` if the map fails to allocate.
fn written(alloc: Global) -> Option<Result<bool, (WriteError<NoMemory>, u64)>> {
    let map = two_maps(alloc).ok()?;
    let mut writer = VecWriter::new(alloc);
    match write_root(alloc, &map, &mut writer) {
        Ok(_) => {
            let bytes = writer.bytes();
            Some(Ok(bytes.len() == 172 && is_the_same(bytes, map.get())))
        }
        Err(e) => Some(Err((e, writer.failures()))),
    }
}

#[test]
fn archive_is_complete_or_fails_to_allocate(rt: HostRuntime) {
    let right = match written(rt.alloc()) {
        Some(Ok(whole)) => whole,
        Some(Err((WriteError::Memory, failures))) => failures == 0,
        Some(Err((WriteError::Writer(NoMemory), failures))) => failures == 1,
        Some(Err(_)) => false,
        None => true,
    };
    assert!(rt; right);
}

#[test]
fn an_archive_succeeds(rt: HostRuntime) {
    expect_eq!(rt; written(rt.alloc()), Some(Ok(true)));
}

// Returns whether the std map that is read back has the four pairs, or the error.
fn read_back(alloc: Global) -> Result<Result<bool, ReadError>, VerifyError> {
    let bytes = four_pairs();
    let root = ArchivedHashMap::of(access::<HashMapOf<i8, i8>>(&bytes)?);
    let back: Result<HashMap<i8, i8>, ReadError> = root.deserialize_std(
        alloc,
        BuildHasherDefault::new(),
    );
    Ok(back.map(|map| root.eq_std(&map)))
}

/// Returns whether all is read back, or an allocation fails.
pub(super) fn is_read_back_or_fails_to_allocate(
    back: Result<Result<bool, ReadError>, VerifyError>,
) -> bool {
    match back {
        Ok(Ok(whole)) => whole,
        Ok(Err(cause)) => matches!(cause, ReadError::Memory),
        Err(_) => false,
    }
}

// Returns the control bytes and the header of a map or a set with the keys hello and wonderful.
fn two_controls() -> [u8; 44] {
    archive(
        &[0xff, 0x6c, 0x65, 0xff, 0x6c, 0x65],
        &[0, 0xe0, 0xff, 0xff, 0xff, 2, 0, 0, 0, 3, 0, 0, 0],
    )
}

// Returns the map of hello to a wonderful text, and of wonderful to world.
//
// Out-of-line texts from 0 and 16 on, buckets from 28 on, controls from 76 on, header at 108.
fn two_texts() -> [u8; 120] {
    let buckets = archive::<76>(
        b"a wonderful textwonderful\0\0\0\x89\0\0\0\xf4\xff\xff\xffworld",
        b"hello\xff\xff\xff\x90\0\0\0\xcc\xff\xff\xff\0\0\0\0\0\0\0\0\0\0\0\0\0\0\0\0",
    );
    archive(&buckets, &two_controls())
}

// Returns whether the std map that is read back has the two texts, or the error.
fn texts_back(alloc: Global) -> Result<Result<bool, ReadError>, VerifyError> {
    let bytes = two_texts();
    let root = ArchivedHashMap::of(access::<HashMapOf<Text, Text>>(&bytes)?);
    let back: Result<HashMap<String, String>, ReadError> = root.deserialize_std(
        alloc,
        BuildHasherDefault::new(),
    );
    Ok(back.map(|map| root.eq_std(&map)))
}

// Returns the set of hello and wonderful.
//
// The out-of-line text from 0 on, buckets from 12 on, controls from 36 on, header at 68.
fn two_words() -> [u8; 80] {
    let buckets = archive::<36>(
        b"wonderful\0\0\0\x89\0\0\0\xf4\xff\xff\xffhello",
        &[0, 0, 0, 0, 0, 0, 0, 0],
    );
    archive(&buckets, &two_controls())
}

// Returns whether the std set that is read back has the two words, or the error.
fn words_back(alloc: Global) -> Result<Result<bool, ReadError>, VerifyError> {
    let bytes = two_words();
    let root = ArchivedHashSet::of(access::<HashSetOf<Text>>(&bytes)?);
    let back: Result<HashSet<String>, ReadError> = root.deserialize_std(
        alloc,
        BuildHasherDefault::new(),
    );
    Ok(back.map(|set| root.eq_std(&set)))
}

// Returns whether the std map that is read back has the two maps, or the error.
fn maps_back(alloc: Global) -> Result<Result<bool, ReadError>, VerifyError> {
    let bytes = archives::two_maps();
    let archived = archived_maps(&bytes)?;
    let back: Result<Maps, ReadError> = archived.deserialize_std(alloc, BuildHasherDefault::new());
    Ok(back.map(|maps| equals(archived, &maps)))
}

#[test]
fn maps_and_sets_are_read_back_or_fail_to_allocate(rt: HostRuntime) {
    assert!(rt; is_read_back_or_fails_to_allocate(read_back(rt.alloc())));
    assert!(rt; is_read_back_or_fails_to_allocate(texts_back(rt.alloc())));
    assert!(rt; is_read_back_or_fails_to_allocate(words_back(rt.alloc())));
    assert!(rt; is_read_back_or_fails_to_allocate(maps_back(rt.alloc())));
}

#[test]
fn reading_maps_and_sets_back_succeeds(rt: HostRuntime) {
    expect_eq!(rt; read_back(rt.alloc()), Ok(Ok(true)));
    expect_eq!(rt; texts_back(rt.alloc()), Ok(Ok(true)));
    expect_eq!(rt; words_back(rt.alloc()), Ok(Ok(true)));
    expect_eq!(rt; maps_back(rt.alloc()), Ok(Ok(true)));
}

// Returns the result of the round trip of the map of 1337 to 42.
// It is `None` if the map fails to allocate.
fn round_trip(alloc: Global) -> Option<Result<bool, RoundTripError>> {
    let map = one_number(alloc).ok()?;
    Some(round_trips_equal::<Narrow, Inner>(alloc, &map))
}

#[test]
fn round_trip_is_equal_or_fails_to_allocate(rt: HostRuntime) {
    let right = match round_trip(rt.alloc()) {
        Some(Ok(same)) => same,
        Some(Err(RoundTripError::Write(WriteError::Memory))) => true,
        Some(Err(RoundTripError::Write(WriteError::Writer(NoMemory)))) => true,
        Some(Err(RoundTripError::Read(ReadError::Memory))) => true,
        Some(Err(_)) => false,
        None => true,
    };
    assert!(rt; right);
}

#[test]
fn a_round_trip_succeeds(rt: HostRuntime) {
    expect_eq!(rt; round_trip(rt.alloc()), Some(Ok(true)));
}
