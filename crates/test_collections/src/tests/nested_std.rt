//! Lookups in std maps and sets that are values of std maps, or parts of such values.

ghost use Rattle.std.specs.Prelude.{◌==◌, ◌≡◌, Ok};
ghost use Rattle.rkyv_collections.specs.{IsNarrowWritten, inner_entries, map_bytes, map_pos};
ghost use Rattle.rkyv_keys.specs.{first_value};
ghost use Rattle.test_collections.specs.InStdMaps.{has_under, value_beside, value_under};

use crate::tests::std_maps::one_of;
use crate::tests::std_sets::set_of_one;
use rkyv_base::access::access;
use rkyv_base::{Archive, Entry, Narrow, Represents, VerifyError, to_bytes};
use rkyv_collections::map::laws::lookups_find_listed;
use rkyv_collections::set::laws::lookups_find_listed as set_lookups_find_listed;
use rkyv_collections::std_maps::nested::{
    EntriesRelation, KeysRelation, PairRelation, ValueRelation, WrittenRelation,
    nested_lookups_find_listed, nested_maps_are_lists, nested_maps_are_looked_up,
    nested_walks_visit_each, written_relations_are_defined, written_values_are_related,
};
use rkyv_collections::{ArchivedHashMap, ArchivedHashSet, HashMapOf, HashSetOf, Hashed};
use rkyv_scan::FxHasher64;
use std::alloc::Global;
use std::collections::{HashMap, HashSet};
use std::hash::{BuildHasherDefault, FoldHasher, RandomState};
use std::test::Fail;

type Fares = HashMapOf<u32, u64>;

type FareMap = Hashed<HashMap<u32, u64>>;

type Cities = HashMapOf<u32, Fares>;

type CityMap = Hashed<HashMap<u32, FareMap>>;

type FareRelation = EntriesRelation<ValueRelation>;

// Returns the value that a std map has under the key, if the archived map is one.
fn fare_in(fares: ArchivedHashMap<'_, u32, u64>, line: u32) -> Option<u64>
    ensures { let r = ⟦<FareRelation as WrittenRelation<Narrow, FareMap>>⟧ in
        (map : _) → r.related (map_bytes fares.entry) (map_pos fares.entry) map
        → result ≡ first_value (λ key. line == key) (inner_entries map) }
{
    lookups_find_listed::<u32, u64, u32, u64, FxHasher64, Narrow>();
    match fares.get(&line) {
        Some(fare) => Some(fare.to_native()),
        None => None,
    }
}

// Returns the value that an archived std map maps has under the two keys.
fn fare_of(table: &[u8], city: u32, line: u32) -> Result<Option<u64>, VerifyError>
    ensures { (cities : _) → IsNarrowWritten ⟦<Cities as Represents<CityMap>>⟧
        ⟦<CityMap as Archive<Narrow>>⟧.format table.now cities
        → result ≡ Ok (value_under city line cities) }
{
    nested_maps_are_lists::<
        Narrow,
        FxHasher64,
        u32,
        FareMap,
        BuildHasherDefault<FoldHasher>,
        FareRelation,
    >();
    nested_lookups_find_listed::<u32, Narrow, FxHasher64, u32, FareMap, FareRelation>();
    let cities = ArchivedHashMap::of(access::<Cities>(table)?);
    match cities.get(&city) {
        Some(fares) => Ok(fare_in(ArchivedHashMap::of(fares), line)),
        None => Ok(None),
    }
}

// Archives the map of 1 to the map of 2 to 3.
fn write_fare(alloc: Global) -> Result<Vec<u8>, Fail> {
    let fares: FareMap = Hashed::new(one_of(alloc, 2, 3)?);
    let cities: CityMap = Hashed::new(one_of(alloc, 1, fares)?);
    Ok(to_bytes(alloc, &cities)?)
}

#[test]
fn a_fare_of_a_city(rt: HostRuntime) -> Result<(), Fail> {
    nested_maps_are_looked_up::<u32, Narrow, FxHasher64, u32, CityMap, RandomState, Deep>();
    nested_maps_are_lists::<Narrow, FxHasher64, u32, CityMap, RandomState, Deep>();
    nested_walks_visit_each::<Narrow, FxHasher64, u32, CityMap, Deep>();
    let table = write_fare(rt.alloc())?;
    expect_eq!(rt; fare_of(table.as_slice(), 1, 2), Ok(Some(3)));
    expect_eq!(rt; fare_of(table.as_slice(), 1, 1), Ok(None));
    expect_eq!(rt; fare_of(table.as_slice(), 2, 2), Ok(None));
    Ok(())
}

type LineSet = Hashed<HashSet<u32>>;

type Lines = HashMapOf<u32, HashSetOf<u32>>;

type LineMap = Hashed<HashMap<u32, LineSet>>;

// Returns whether the set that an archived std map sets has under `city` has the line.
fn has_line(table: &[u8], city: u32, line: u32) -> Result<Option<bool>, VerifyError>
    ensures { (cities : _) → IsNarrowWritten ⟦<Lines as Represents<LineMap>>⟧
        ⟦<LineMap as Archive<Narrow>>⟧.format table.now cities
        → result ≡ Ok (has_under city line cities) }
{
    nested_maps_are_lists::<
        Narrow,
        FxHasher64,
        u32,
        LineSet,
        BuildHasherDefault<FoldHasher>,
        KeysRelation,
    >();
    nested_lookups_find_listed::<u32, Narrow, FxHasher64, u32, LineSet, KeysRelation>();
    set_lookups_find_listed::<u32, u32, u32, FxHasher64, Narrow>();
    let cities = ArchivedHashMap::of(access::<Lines>(table)?);
    match cities.get(&city) {
        Some(lines) => Ok(Some(ArchivedHashSet::of(lines).contains(&line))),
        None => Ok(None),
    }
}

// Archives the map of 1 to the set of 2.
fn write_line(alloc: Global) -> Result<Vec<u8>, Fail> {
    let lines: LineSet = Hashed::new(set_of_one(alloc, 2)?);
    let cities: LineMap = Hashed::new(one_of(alloc, 1, lines)?);
    Ok(to_bytes(alloc, &cities)?)
}

#[test]
fn a_line_of_a_city(rt: HostRuntime) -> Result<(), Fail> {
    let table = write_line(rt.alloc())?;
    expect_eq!(rt; has_line(table.as_slice(), 1, 2), Ok(Some(true)));
    expect_eq!(rt; has_line(table.as_slice(), 1, 1), Ok(Some(false)));
    expect_eq!(rt; has_line(table.as_slice(), 2, 2), Ok(None));
    Ok(())
}

// The days of a season, and its fares.
type Season = (u8, FareMap);

type SeasonMap = Hashed<HashMap<u32, Season>>;

type Seasons = HashMapOf<u32, Entry<u8, Fares>>;

type SeasonRelation = PairRelation<ValueRelation, FareRelation>;

// Returns the value under `line` of the map in the pair that an archived map has under `season`.
fn season_fare(table: &[u8], season: u32, line: u32) -> Result<Option<u64>, VerifyError>
    ensures { (seasons : _) → IsNarrowWritten ⟦<Seasons as Represents<SeasonMap>>⟧
        ⟦<SeasonMap as Archive<Narrow>>⟧.format table.now seasons
        → result ≡ Ok (value_beside season line seasons) }
{
    nested_maps_are_lists::<
        Narrow,
        FxHasher64,
        u32,
        Season,
        BuildHasherDefault<FoldHasher>,
        SeasonRelation,
    >();
    nested_lookups_find_listed::<u32, Narrow, FxHasher64, u32, Season, SeasonRelation>();
    let seasons = ArchivedHashMap::of(access::<Seasons>(table)?);
    match seasons.get(&season) {
        Some(pair) => Ok(fare_in(ArchivedHashMap::of(pair.value()), line)),
        None => Ok(None),
    }
}

// Archives the map of 1 to the pair of 90 and the map of 2 to 3.
fn write_season(alloc: Global) -> Result<Vec<u8>, Fail> {
    let fares: FareMap = Hashed::new(one_of(alloc, 2, 3)?);
    let seasons: SeasonMap = Hashed::new(one_of(alloc, 1, (90, fares))?);
    Ok(to_bytes(alloc, &seasons)?)
}

#[test]
fn a_fare_of_a_season(rt: HostRuntime) -> Result<(), Fail> {
    written_values_are_related::<Narrow, Season, SeasonRelation>();
    written_relations_are_defined::<
        Narrow,
        FxHasher64,
        u32,
        Fares,
        u32,
        FareMap,
        RandomState,
        FareRelation,
        ValueRelation,
    >();
    let table = write_season(rt.alloc())?;
    expect_eq!(rt; season_fare(table.as_slice(), 1, 2), Ok(Some(3)));
    expect_eq!(rt; season_fare(table.as_slice(), 1, 1), Ok(None));
    expect_eq!(rt; season_fare(table.as_slice(), 2, 2), Ok(None));
    Ok(())
}

type Deep = EntriesRelation<FareRelation>;

// Adds a pair to a map in its wrapper. Returns the length, and the value of the new key.
fn pair_added(alloc: Global) -> Result<(usize, Option<i8>), Fail> {
    let mut map: Hashed<HashMap<i8, i8>> = Hashed::new(HashMap::new(alloc));
    map.get_mut().insert(3, 4)?;
    Ok((map.get().len(), map.get().get(&3).copied()))
}

#[test]
fn a_wrapped_map_is_changed(rt: HostRuntime) -> Result<(), Fail> {
    expect_eq!(rt; pair_added(rt.alloc())?, (1, Some(4)));
    Ok(())
}
