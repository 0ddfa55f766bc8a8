//! Lookups in an archived std map and in an archived std set.

ghost use Rattle.std.specs.List.{list_any};
ghost use Rattle.std.specs.Prelude.{◌==◌, ◌≡◌, Ok};
ghost use Rattle.std.specs.String.{string_bytes};
ghost use Rattle.rkyv_base.specs.{OpensNarrow};
ghost use Rattle.rkyv_collections.specs.{IsNarrowWritten, inner_entries, inner_keys};
ghost use Rattle.rkyv_keys.specs.{first_value, same_bytes};

use rkyv_base::access::access;
use rkyv_base::{Archive, HasSpec, Narrow, Represents, Text, VerifyError};
use rkyv_collections::map::laws::list_archives::scalars_found_are_listed;
use rkyv_collections::set::laws::members_found_are_listed;
use rkyv_collections::std_maps::laws::{written_maps_are_lists, written_sets_are_lists};
use rkyv_collections::{ArchivedHashMap, ArchivedHashSet, HashMapOf, HashSetOf, Hashed};
use rkyv_scan::FxHasher64;
use std::collections::{HashMap, HashSet};
use std::hash::{BuildHasherDefault, FoldHasher};

/// A map of numbers in a narrow archive.
pub type Fares = HashMapOf<u32, u64>;

/// The std map that is archived as `Fares`.
pub type FareMap = Hashed<HashMap<u32, u64>>;

/// A map of texts to numbers in a narrow archive.
pub type Ages = HashMapOf<Text, u8>;

/// The std map that is archived as `Ages`.
pub type AgeMap = Hashed<HashMap<String, u8>>;

/// A set of numbers in a narrow archive.
pub type Lines = HashSetOf<u32>;

/// The std set that is archived as `Lines`.
pub type LineSet = Hashed<HashSet<u32>>;

/// Returns the value that the archived std map has under the key.
///
/// # Errors
///
/// - The error of the validation.
pub fn fare_of(table: &[u8], line: u32) -> Result<Option<u64>, VerifyError>
    ensures opened { OpensNarrow ⟦<Fares as HasSpec>⟧.spec table.now result }
    ensures listed { (map : _) → IsNarrowWritten ⟦<Fares as Represents<FareMap>>⟧
        ⟦<FareMap as Archive<Narrow>>⟧.format table.now map
        → result ≡ Ok (first_value (λ other. line == other) (inner_entries map)) }
{
    written_maps_are_lists::<Narrow, FxHasher64, u32, u64, BuildHasherDefault<FoldHasher>>();
    scalars_found_are_listed::<u32, u32, u64, u32, FxHasher64, Narrow>();
    let fares = ArchivedHashMap::of(access::<Fares>(table)?);
    match fares.get(&line) {
        Some(fare) => Ok(Some(fare.to_native())),
        None => Ok(None),
    }
}

/// Returns the value that the archived std map has under the name.
///
/// The keys are `String`s, and a `&str` looks them up.
///
/// # Errors
///
/// - The error of the validation.
pub fn age_of(table: &[u8], name: &str) -> Result<Option<u8>, VerifyError>
    ensures opened { OpensNarrow ⟦<Ages as HasSpec>⟧.spec table.now result }
    ensures listed { (m : _) → IsNarrowWritten ⟦<Ages as Represents<AgeMap>>⟧
        ⟦<AgeMap as Archive<Narrow>>⟧.format table.now m
        → result ≡ Ok (first_value (λ key. same_bytes name.now (string_bytes key))
        (inner_entries m)) }
{
    written_maps_are_lists::<Narrow, FxHasher64, String, u8, BuildHasherDefault<FoldHasher>>();
    scalars_found_are_listed::<String, &str, u8, Text, FxHasher64, Narrow>();
    let ages = ArchivedHashMap::of(access::<Ages>(table)?);
    match ages.get(&name) {
        Some(age) => Ok(Some(age.to_native())),
        None => Ok(None),
    }
}

/// Returns `true` if and only if the archived std set has the number.
///
/// # Errors
///
/// - The error of the validation.
pub fn has_line(set: &[u8], line: u32) -> Result<bool, VerifyError>
    ensures opened { OpensNarrow ⟦<Lines as HasSpec>⟧.spec set.now result }
    ensures listed { (lines : _) → IsNarrowWritten ⟦<Lines as Represents<LineSet>>⟧
        ⟦<LineSet as Archive<Narrow>>⟧.format set.now lines
        → result ≡ Ok (list_any (λ other. line == other) (inner_keys lines)) }
{
    written_sets_are_lists::<Narrow, FxHasher64, u32, BuildHasherDefault<FoldHasher>>();
    members_found_are_listed::<u32, u32, u32, FxHasher64, Narrow>();
    let lines = ArchivedHashSet::of(access::<Lines>(set)?);
    Ok(lines.contains(&line))
}
