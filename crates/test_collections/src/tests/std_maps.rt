//! Round trips of std's maps.

use crate::tests::opened::{Nested as ArchivedNested, nested_map, small_map, text_map};
use rkyv_base::access::access;
use rkyv_base::{
    LimitFault, LimitWriter, Narrow, Serialize, Text, VecWriter, VerifyError, Wide, Width,
    WriteError, to_bytes, write_root,
};
use rkyv_collections::std_maps::laws;
use rkyv_collections::std_maps::round_trip::round_trips_equal;
use rkyv_collections::{ArchivedHashMap, EqArchived, HashMapOf, Hashed};
use rkyv_keys::{
    Deserialize, EqualsWritten, KeyElement, MatchesNative, NativeKey, RepresentsUniquely,
};
use rkyv_scan::{FxHasher64, FxHasher64Wide, KeyHasher};
use std::alloc::{AllocError, Global};
use std::collections::HashMap;
use std::hash::{BuildHasher, BuildHasherDefault, Hash, RandomState};
use std::test::Fail;
use test_support::archives::{nested, no_items, one_key_twice, one_number, one_pair};
use test_support::written::is_archived_as;

type Small = Hashed<HashMap<i8, i8>>;

type Nested = Hashed<HashMap<i8, Small>>;

// Returns whether a map is the same after a round trip through an archive.
pub(super) fn map_round_trips<
    W: Width,
    H: KeyHasher,
    A: Serialize<VecWriter, W> + Eq + Hash + Drop,
    B: Serialize<VecWriter, W> + EqualsWritten<W> + PartialEq + Drop,
>(alloc: Global, map: &Hashed<HashMap<A, B>, H>) -> Option<bool>
where
    A::Archived: KeyElement + Deserialize<A> + RepresentsUniquely<A>,
    A: NativeKey<A::Archived>,
    B::Archived: Deserialize<B> + MatchesNative<B> + RepresentsUniquely<B>,
{
    round_trips_equal::<W, Hashed<HashMap<A, B>, H>>(alloc, map).ok()
}

// Returns the map of these pairs.
pub(super) fn map_of<A: Eq + Hash + Copy + Drop, B: Copy + Drop>(
    alloc: Global,
    pairs: &[(A, B)],
) -> Result<HashMap<A, B>, AllocError> {
    let mut map = HashMap::new(alloc);
    for (key, value) in pairs {
        map.insert(*key, *value)?;
    }
    Ok(map)
}

// Returns the map of one pair.
pub(super) fn one_of<A: Eq + Hash + Drop, B: Drop>(
    alloc: Global,
    key: A,
    value: B,
) -> Result<HashMap<A, B>, AllocError> {
    let mut map = HashMap::new(alloc);
    map.insert(key, value)?;
    Ok(map)
}

// Inserts the texts of these pairs.
fn insert_texts<T: BuildHasher>(
    map: &mut HashMap<String, String, T>,
    alloc: Global,
    pairs: &[(&str, &str)],
) -> Result<(), AllocError> {
    for (key, value) in pairs {
        let text = String::from_str(alloc, *key)?;
        let mapped = String::from_str(alloc, *value)?;
        map.insert(text, mapped)?;
    }
    Ok(())
}

// Returns the map of the texts of 0 to 99 to their numbers.
fn hundred(alloc: Global) -> Result<HashMap<String, u32>, AllocError> {
    let mut map = HashMap::new(alloc);
    for number in 0..100 {
        map.insert(format!(in alloc; "{number}")?, number)?;
    }
    Ok(map)
}

// Returns whether an archived map equals a std map, by the calls of both sides.
fn equals_small(bytes: &[u8], map: &HashMap<i8, i8>) -> Result<(bool, bool), VerifyError> {
    let root = ArchivedHashMap::of(access::<HashMapOf<i8, i8>>(bytes)?);
    Ok((root.eq_std(map), map.eq_archived(root)))
}

#[test]
fn a_map_of_one_pair(rt: HostRuntime) -> Result<(), Fail> {
    laws::std_maps_are_represented::<i8, i8, i8, i8, RandomState, FxHasher64, Narrow>();
    laws::std_maps_are_written::<Narrow, FxHasher64, i8, i8, i8, RandomState>();
    laws::std_maps_fail_as_pairs::<i8, i8, i8, i8, FxHasher64, Narrow>();
    laws::written_maps_are_looked_up::<i8, Narrow, FxHasher64, i8, i8, RandomState>();
    laws::archives_round_trip::<Narrow, i8>();
    let two = map_of(rt.alloc(), &[(1i8, 2i8), (3, 4)])?;
    expect_eq!(rt; equals_small(&one_pair(), &two), Ok((false, false)));
    let map: Small = Hashed::new(one_of(rt.alloc(), 1, 2)?);
    expect_eq!(rt; is_archived_as(rt.alloc(), &map, &one_pair()), true);
    expect_eq!(rt; equals_small(&one_pair(), map.get()), Ok((true, true)));
    expect_eq!(rt; map_round_trips::<Narrow, _, _, _>(rt.alloc(), &map), Some(true));
    expect_eq!(rt; map_round_trips::<Wide, _, _, _>(rt.alloc(), &map), Some(true));
    expect_eq!(rt; map.into_inner().len(), 1);
    Ok(())
}

// Returns whether the map of these pairs is the same after a round trip.
fn round_trips<
    A: Serialize<VecWriter, Narrow> + Eq + Hash + Copy + Drop,
    B: Serialize<VecWriter, Narrow> + EqualsWritten<Narrow> + PartialEq + Copy + Drop,
>(alloc: Global, pairs: &[(A, B)]) -> Option<bool>
where
    A::Archived: KeyElement + Deserialize<A> + RepresentsUniquely<A>,
    A: NativeKey<A::Archived>,
    B::Archived: Deserialize<B> + MatchesNative<B> + RepresentsUniquely<B>,
{
    let map: Hashed<HashMap<A, B>> = Hashed::new(map_of(alloc, pairs).ok()?);
    map_round_trips::<Narrow, _, _, _>(alloc, &map)
}

#[test]
fn maps_of_fixed_size_round_trip(rt: HostRuntime) {
    expect_eq!(rt; round_trips(rt.alloc(), &[(1i8, 2i8), (3, 4), (5, 6), (7, 8)]), Some(true));
    expect_eq!(rt; round_trips(rt.alloc(), &[((), 10i32)]), Some(true));
    expect_eq!(rt; round_trips(rt.alloc(), &[((), ())]), Some(true));
}

#[test]
fn the_empty_map(rt: HostRuntime) {
    let map: Hashed<HashMap<i8, i32>> = Hashed::new(HashMap::new(rt.alloc()));
    expect_eq!(rt; is_archived_as(rt.alloc(), &map, &no_items()), true);
    expect_eq!(rt; map_round_trips::<Narrow, _, _, _>(rt.alloc(), &map), Some(true));
}

// Returns the map of 1 to the map of 1 to `value`.
fn map_in_a_map(alloc: Global, value: i8) -> Result<Nested, AllocError> {
    let inner = one_of(alloc, 1, value)?;
    Ok(Hashed::new(one_of(alloc, 1, Hashed::new(inner))?))
}

#[test]
fn a_map_in_a_map(rt: HostRuntime) -> Result<(), Fail> {
    let outer = map_in_a_map(rt.alloc(), 2)?;
    expect_eq!(rt; is_archived_as(rt.alloc(), &outer, &nested()), true);
    expect_eq!(rt; map_round_trips::<Narrow, _, _, _>(rt.alloc(), &outer), Some(true));
    expect_eq!(rt; map_round_trips::<Wide, _, _, _>(rt.alloc(), &outer), Some(true));
    Ok(())
}

// Returns whether an archived map equals a std map, by `eq_native` and by `eq_std`.
fn equals_nested(bytes: &[u8], map: &Nested) -> Result<[bool; 2], VerifyError> {
    let root = access::<ArchivedNested>(bytes)?;
    let native = <ArchivedNested as MatchesNative<Nested>>::eq_native(root, map);
    let by_lookups = ArchivedHashMap::of(root).eq_std::<i8, Small, _>(map.get());
    Ok([native, by_lookups])
}

#[test]
fn maps_of_unequal_maps_are_unequal(rt: HostRuntime) -> Result<(), Fail> {
    laws::std_maps_are_compared::<i8, i8, FxHasher64, Narrow, i8, i8, RandomState>();
    laws::std_values_are_compared::<i8, i8, FxHasher64, Narrow, i8, i8, RandomState>();
    laws::written_maps_are_equal::<Narrow, FxHasher64, i8, i8, RandomState>();
    laws::written_maps_are_lists::<Narrow, FxHasher64, i8, i8, RandomState>();
    expect_eq!(rt; equals_nested(&nested(), &map_in_a_map(rt.alloc(), 2)?), Ok([true; 2]));
    expect_eq!(rt; equals_nested(&nested(), &map_in_a_map(rt.alloc(), 3)?), Ok([false; 2]));
    Ok(())
}

#[test]
fn a_plain_map_in_a_map_is_read(rt: HostRuntime) -> Result<(), Fail> {
    let bytes = nested();
    let root = nested_map(&bytes)?;
    let state = BuildHasherDefault::new();
    let map: HashMap<i8, HashMap<i8, i8>> = root.deserialize_std(rt.alloc(), state)?;
    expect_eq!(rt; map.len(), 1);
    expect_eq!(rt; map.get(&1).map(|inner| inner.get(&1).copied()), Some(Some(2)));
    expect_eq!(rt; root.eq_std::<i8, HashMap<i8, i8>, _>(&map), true);
    Ok(())
}

#[test]
fn wrapped_maps_are_equal_if_the_maps_are(rt: HostRuntime) -> Result<(), Fail> {
    laws::hashed_values_are_compared::<HashMap<i8, i8>, FxHasher64>();
    let one: Small = Hashed::new(one_of(rt.alloc(), 1, 2)?);
    let same: Small = Hashed::new(one_of(rt.alloc(), 1, 2)?);
    let other: Small = Hashed::new(one_of(rt.alloc(), 1, 3)?);
    expect_eq!(rt; (one == same, one == other), (true, false));
    Ok(())
}

#[test]
fn two_maps_in_a_map(rt: HostRuntime) -> Result<(), Fail> {
    let mut pairs = HashMap::new(rt.alloc());
    for key in &[(1u8, 2u8), (3, 4)] {
        let inner: Hashed<HashMap<u16, u16>> = Hashed::new(one_of(rt.alloc(), 1337, 42)?);
        pairs.insert(*key, inner)?;
    }
    let pairs: Hashed<HashMap<(u8, u8), Hashed<HashMap<u16, u16>>>> = Hashed::new(pairs);
    expect_eq!(rt; to_bytes(rt.alloc(), &pairs)?.len(), 172);
    expect_eq!(rt; map_round_trips::<Narrow, _, _, _>(rt.alloc(), &pairs), Some(true));
    Ok(())
}

#[test]
fn texts_to_numbers(rt: HostRuntime) -> Result<(), Fail> {
    let mut map = HashMap::new(rt.alloc());
    for (key, value) in &[
        ("Hello", 12),
        ("world", 34),
        ("foo", 56),
        ("bar", 78),
        ("baz", 90),
    ] {
        map.insert(String::from_str(rt.alloc(), *key)?, *value)?;
    }
    let map: Hashed<HashMap<String, i32>> = Hashed::new(map);
    expect_eq!(rt; map_round_trips::<Narrow, _, _, _>(rt.alloc(), &map), Some(true));
    Ok(())
}

#[test]
fn texts_to_texts(rt: HostRuntime) -> Result<(), Fail> {
    let mut texts = HashMap::new(rt.alloc());
    let pairs = [("hello", "world"), ("foo", "bar"), ("baz", "bat")];
    insert_texts(&mut texts, rt.alloc(), &pairs)?;
    let map: Hashed<HashMap<String, String>> = Hashed::new(texts);
    expect_eq!(rt; map_round_trips::<Narrow, _, _, _>(rt.alloc(), &map), Some(true));
    Ok(())
}

// Returns the number of pairs of an archived map that a std map has, and of pairs of the map
// of std's that the archived map has.
fn found_both_ways(
    root: ArchivedHashMap<'_, Text, u32>,
    map: &HashMap<String, u32>,
) -> (usize, usize) {
    let (mut in_std, mut in_archive) = (0usize, 0usize);
    for (key, value) in root.iter() {
        if map.get(key.as_str()) == Some(&value.to_native()) {
            in_std = in_std.wrapping_add(1);
        }
    }
    for (key, number) in map.iter() {
        if root.get(key).map(|value| value.to_native()) == Some(*number) {
            in_archive = in_archive.wrapping_add(1);
        }
    }
    (in_std, in_archive)
}

// Returns whether the hundred texts are the same after round trips in both widths, under the hasher
// `H`.
fn hundred_round_trip<H: KeyHasher>(alloc: Global) -> Option<[Option<bool>; 2]> {
    let map: Hashed<HashMap<String, u32>, H> = Hashed::new(hundred(alloc).ok()?);
    Some([
        map_round_trips::<Narrow, _, _, _>(alloc, &map),
        map_round_trips::<Wide, _, _, _>(alloc, &map),
    ])
}

#[test]
fn a_hundred_texts(rt: HostRuntime) -> Result<(), Fail> {
    let map: Hashed<HashMap<String, u32>> = Hashed::new(hundred(rt.alloc())?);
    let bytes = to_bytes(rt.alloc(), &map)?;
    let root = ArchivedHashMap::of(access::<HashMapOf<Text, u32>>(bytes.as_slice())?);
    expect_eq!(rt; found_both_ways(root, map.get()), (100, 100));
    expect_eq!(rt; (root.len(), root.eq_std(map.get())), (100, true));
    expect_eq!(rt; hundred_round_trip::<FxHasher64>(rt.alloc()), Some([Some(true); 2]));
    expect_eq!(rt; hundred_round_trip::<FxHasher64Wide>(rt.alloc()), Some([Some(true); 2]));
    Ok(())
}

#[test]
fn the_later_of_equal_keys(rt: HostRuntime) -> Result<(), Fail> {
    let bytes = one_key_twice();
    let mut same = one_key_twice();
    same[3] = 2;
    let two = map_of(rt.alloc(), &[(1i8, 2i8), (3, 4)])?;
    expect_eq!(rt; equals_small(&bytes, &two), Ok((false, false)));
    expect_eq!(rt; equals_small(&same, &two), Ok((false, false)));
    let state = BuildHasherDefault::new();
    let map: HashMap<i8, i8> = small_map(&bytes)?.deserialize_std(rt.alloc(), state)?;
    expect_eq!(rt; (map.len(), map.get(&1).copied()), (1, Some(9)));
    Ok(())
}

#[test]
fn both_hashers_write_a_number_alike(rt: HostRuntime) -> Result<(), Fail> {
    let map: Hashed<HashMap<u32, u32>, FxHasher64> = Hashed::new(one_of(rt.alloc(), 1, 2)?);
    expect_eq!(rt; is_archived_as(rt.alloc(), &map, &one_number()), true);
    let map: Hashed<HashMap<u32, u32>, FxHasher64Wide> = Hashed::new(one_of(rt.alloc(), 1, 2)?);
    expect_eq!(rt; is_archived_as(rt.alloc(), &map, &one_number()), true);
    Ok(())
}

// Writes the map of 1 to 2 with a limit. Returns `true` if the writer keeps the first `limit`
// bytes, and fails with `Full` if and only if these are not all.
fn keeps_a_prefix(alloc: Global, map: &Hashed<HashMap<u32, u32>>, limit: u64) -> bool {
    let mut writer = LimitWriter::new(VecWriter::new(alloc), limit);
    let as_expected = match write_root(alloc, map, &mut writer) {
        Ok(pos) => limit == 60 && pos == 48,
        Err(WriteError::Writer(LimitFault::Full)) => limit < 60,
        Err(_) => false,
    };
    as_expected && one_number().get(..limit as usize) == Some(writer.into_inner().bytes())
}

#[test]
fn limit_keeps_a_prefix_of_the_archive(rt: HostRuntime) -> Result<(), Fail> {
    let map: Hashed<HashMap<u32, u32>> = Hashed::new(one_of(rt.alloc(), 1, 2)?);
    for limit in 0..61 {
        expect_eq!(rt; (limit, keeps_a_prefix(rt.alloc(), &map, limit)), (limit, true));
    }
    Ok(())
}

// Returns whether a map with this hash state equals its archive, and is read back from it.
fn round_trips_with(
    alloc: Global,
    map: &Hashed<HashMap<i8, i8, RandomState>>,
    state: RandomState,
) -> Result<bool, Fail> {
    let bytes = to_bytes(alloc, map)?;
    let root = small_map(bytes.as_slice())?;
    let back = root.deserialize_std::<i8, i8, RandomState>(alloc, state)?;
    Ok(root.eq_std(map.get()) && back == *map.get())
}

// Does the same with a map of texts.
fn texts_round_trip_with(
    alloc: Global,
    map: &Hashed<HashMap<String, String, RandomState>>,
    state: RandomState,
) -> Result<bool, Fail> {
    let bytes = to_bytes(alloc, map)?;
    let root = text_map(bytes.as_slice())?;
    let back = root.deserialize_std::<String, String, RandomState>(alloc, state)?;
    Ok(root.eq_std(map.get()) && back == *map.get())
}

#[test]
fn maps_with_a_hash_state_of_their_own(rt: HostRuntime) -> Result<(), Fail> {
    let (alloc, state) = (rt.alloc(), RandomState::new(&rt)?);
    let empty = Hashed::new(HashMap::with_hasher(alloc, state));
    let mut small = HashMap::with_hasher(alloc, state);
    for (key, value) in &[(1i8, 2i8), (3, 4), (5, 6), (7, 8)] {
        small.insert(*key, *value)?;
    }
    let mut texts = HashMap::with_hasher(alloc, state);
    let pairs = [("hello", "world"), ("foo", "bar"), ("baz", "bat")];
    insert_texts(&mut texts, alloc, &pairs)?;
    expect_eq!(rt; round_trips_with(alloc, &empty, state)?, true);
    expect_eq!(rt; round_trips_with(alloc, &Hashed::new(small), state)?, true);
    expect_eq!(rt; texts_round_trip_with(alloc, &Hashed::new(texts), state)?, true);
    Ok(())
}
