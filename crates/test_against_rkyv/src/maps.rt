//! Comparisons of hash maps.
ghost use Rattle.rkyv_base.specs.{IsValidView};

use crate::comparisons::{Visits, lookup_differs, same_bytes, same_len};
use crate::entries::{has_key, pairs};
use crate::errors::{Difference, LineError};
use crate::fields::{Field, KeyField};
use crate::line::Line;
use rkyv_base::{Element, Represents, Serialize, VecWriter, View, Width, access_in, to_bytes_in};
use rkyv_collections::{ArchivedHashMap, FxHasher64, HashMapOf, MapPairs};
use rkyv_keys::{Deserialize, KeyElement, MatchesNative, NativeKey};
use std::alloc::Global;
use std::collections::HashMap;
use std::fmt::Display;
use std::hash::{BuildHasherDefault, Hash};

/// Returns whether a lookup finds the value.
fn finds<A: NativeKey<K>, B, K: KeyElement + Represents<A>, V: MatchesNative<B>, W: Width>(
    map: ArchivedHashMap<'_, K, V, FxHasher64, W>,
    key: &A,
    value: &B,
) -> bool {
    match map.get(key) {
        Some(found) => V::eq_native(found, value),
        None => false,
    }
}

/// Fails unless the lookup of each key finds its value.
fn check_lookups<
    A: NativeKey<K> + Display,
    B,
    K: KeyElement + Represents<A>,
    V: MatchesNative<B>,
    W: Width,
>(
    alloc: Global,
    map: ArchivedHashMap<'_, K, V, FxHasher64, W>,
    entries: &[(A, B)],
) -> Result<(), Difference> {
    for (key, value) in entries {
        if !finds(map, key, value) {
            return Err(lookup_differs(alloc, key));
        }
    }
    Ok(())
}

/// Fails unless the probe is found if and only if it is among the keys.
pub fn check_probe<
    A: KeyField + NativeKey<K> + Display + Drop,
    B,
    K: KeyElement + Represents<A>,
    V: Element,
    W: Width,
>(
    alloc: Global,
    map: ArchivedHashMap<'_, K, V, FxHasher64, W>,
    entries: &[(A, B)],
) -> Result<(), Difference> {
    let probe = A::probe(alloc)?;
    if map.contains_key(&probe) == has_key(entries, &probe) {
        Ok(())
    } else {
        Err(lookup_differs(alloc, &probe))
    }
}

/// Returns the index of the entry that equals a pair of the map.
fn index_of<A, B, K: MatchesNative<A>, V: MatchesNative<B>>(
    entries: &[(A, B)],
    key: View<'_, K>,
    value: View<'_, V>,
) -> Option<usize>
    requires key { IsValidView K.spec key }
    requires value { IsValidView V.spec value }
{
    for (index, entry) in entries.iter().enumerate() {
        if K::eq_native(key, &entry.0) && V::eq_native(value, &entry.1) {
            return Some(index);
        }
    }
    None
}

/// Fails unless the iteration visits each entry once, and nothing else.
fn check_iteration<A, B, K: MatchesNative<A>, V: MatchesNative<B>, W: Width>(
    alloc: Global,
    map: ArchivedHashMap<'_, K, V, FxHasher64, W>,
    entries: &[(A, B)],
) -> Result<(), Difference> {
    let mut visits = Visits::new(alloc, entries.len())?;
    for (key, value) in &map {
        if !visits.visit(index_of(entries, key, value)) {
            return Err(Difference::Iteration);
        }
    }
    visits.all()
}

/// Fails unless the std map has exactly the entries.
pub fn same_std<A: Eq + Hash, B: PartialEq>(
    map: &HashMap<A, B>,
    entries: &[(A, B)],
) -> Result<(), Difference> {
    let same = entries
        .iter()
        .all(|(key, value)| map.get(key) == Some(value));
    (same && map.len() == entries.len())
        .then_some(())
        .ok_or(Difference::ReadBack)
}

/// Fails unless the map is read back as the entries.
fn check_read_back<
    A: Eq + Hash + Drop,
    B: PartialEq + Drop,
    K: Deserialize<A>,
    V: Deserialize<B>,
    W: Width,
>(
    alloc: Global,
    map: ArchivedHashMap<'_, K, V, FxHasher64, W>,
    entries: &[(A, B)],
) -> Result<(), Difference> {
    let back = map.deserialize_std(alloc, BuildHasherDefault::new())?;
    same_std(&back, entries)
}

/// Fails unless the map has exactly the entries.
pub fn check_map<
    A: KeyField + NativeKey<K> + Display + Hash + Drop,
    B: PartialEq + Drop,
    K: KeyElement + MatchesNative<A> + Deserialize<A>,
    V: MatchesNative<B> + Deserialize<B>,
    W: Width,
>(
    alloc: Global,
    map: ArchivedHashMap<'_, K, V, FxHasher64, W>,
    entries: &[(A, B)],
) -> Result<(), Difference> {
    same_len(map.len(), entries.len())?;
    check_lookups(alloc, map, entries)?;
    check_probe(alloc, map, entries)?;
    check_iteration(alloc, map, entries)?;
    check_read_back(alloc, map, entries)
}

/// Fails unless the entries are archived as these bytes, and the bytes are a map of the entries.
fn check_pairs<W: Width, A, B>(
    alloc: Global,
    entries: &[(A, B)],
    bytes: &[u8],
) -> Result<(), Difference>
where
    A: KeyField + Serialize<VecWriter, W> + NativeKey<A::Archived> + Display + Hash + Drop,
    A::Archived: KeyElement + MatchesNative<A> + Deserialize<A>,
    B: Serialize<VecWriter, W> + PartialEq + Drop,
    B::Archived: MatchesNative<B> + Deserialize<B>,
{
    let list: MapPairs<'_, A, B> = MapPairs::new(entries);
    let written = to_bytes_in::<W, MapPairs<'_, A, B>>(alloc, &list)?;
    same_bytes(written.as_slice(), bytes)?;
    let root = access_in::<W, HashMapOf<A::Archived, B::Archived, FxHasher64, W>>(bytes)?;
    check_map(alloc, ArchivedHashMap::of(root), entries)
}

/// Compares the hash map of a line.
pub fn check<W: Width, A, B>(alloc: Global, line: &Line<'_>) -> Result<(), LineError>
where
    A: KeyField + Serialize<VecWriter, W> + NativeKey<A::Archived> + Display + Hash + Drop,
    A::Archived: KeyElement + MatchesNative<A> + Deserialize<A>,
    B: Field + Serialize<VecWriter, W> + PartialEq + Drop,
    B::Archived: MatchesNative<B> + Deserialize<B>,
{
    let entries = pairs::<A, B>(alloc, line)?;
    let checked = check_pairs::<W, A, B>(alloc, entries.as_slice(), line.bytes.as_slice());
    line.outcome(checked)
}
