//! Comparisons of hash maps of texts to hash maps of numbers.
ghost use Rattle.rkyv_base.specs.{IsValidView};

use crate::comparisons::{Visits, lookup_differs, same_bytes, same_len};
use crate::entries::{pairs, pairs_of};
use crate::errors::{Difference, LineError, Malformed};
use crate::fields::Field;
use crate::line::Line;
use crate::maps::{check_map, check_probe, same_std};
use rkyv_base::{HasSpec, Text, View, Width, access_in, to_bytes_in};
use rkyv_collections::{ArchivedHashMap, FxHasher64, HashMapOf, MapPairs};
use std::alloc::{AllocError, Global};
use std::collections::HashMap;
use std::hash::BuildHasherDefault;

/// A value of a line that is a map of numbers: its pairs, in insertion order.
#[derive(Drop)]
pub struct Numbers(Vec<(u32, u32)>);

/// The element of such a map.
type Inner<W> = HashMapOf<u32, u32, FxHasher64, W>;

/// The element of a map of texts to such maps.
type Outer<W> = HashMapOf<Text<W>, Inner<W>, FxHasher64, W>;

/// The native pairs of a map of texts to maps of numbers.
type Lists<'a> = MapPairs<'a, &'a str, MapPairs<'a, u32, u32>>;

impl Field for Numbers {
    fn parse(alloc: Global, text: &str) -> Result<Numbers, LineError> {
        let inner = text.strip_prefix('{').ok_or(Malformed::Braces)?;
        let inner = inner.strip_suffix('}').ok_or(Malformed::Braces)?;
        Ok(Numbers(pairs_of(alloc, inner, ',')?))
    }
}

/// Returns the entries as a list of texts with maps.
fn lists<'a>(
    alloc: Global,
    entries: &'a [(String, Numbers)],
) -> Result<Vec<(&'a str, MapPairs<'a, u32, u32>)>, AllocError> {
    let mut lists = Vec::with_capacity(alloc, entries.len())?;
    for (key, numbers) in entries {
        lists.push((key.as_str(), MapPairs::new(numbers.0.as_slice())))?;
    }
    Ok(lists)
}

/// Fails unless the entries are archived as these bytes.
fn check_bytes<W: Width>(
    alloc: Global,
    entries: &[(String, Numbers)],
    bytes: &[u8],
) -> Result<(), Difference> {
    let lists = lists(alloc, entries)?;
    let written = to_bytes_in::<W, Lists<'_>>(alloc, &MapPairs::new(lists.as_slice()))?;
    same_bytes(written.as_slice(), bytes)
}

/// Fails unless the lookup of each key finds its map.
fn check_lookups<W: Width>(
    alloc: Global,
    map: ArchivedHashMap<'_, Text<W>, Inner<W>, FxHasher64, W>,
    entries: &[(String, Numbers)],
) -> Result<(), Difference> {
    for (key, numbers) in entries {
        match map.get(key) {
            Some(found) => check_map(alloc, ArchivedHashMap::of(found), numbers.0.as_slice())?,
            None => return Err(lookup_differs(alloc, key)),
        }
    }
    Ok(())
}

/// Returns the index of the entry with the key. Fails unless the value is its map.
fn index_of<W: Width>(
    alloc: Global,
    entries: &[(String, Numbers)],
    key: View<'_, Text<W>>,
    value: View<'_, Inner<W>>,
) -> Result<Option<usize>, Difference>
    requires key { IsValidView ⟦<Text<W> as HasSpec>⟧.spec key }
    requires value { IsValidView ⟦<Inner<W> as HasSpec>⟧.spec value }
{
    for (index, (name, numbers)) in entries.iter().enumerate() {
        if key.as_str() == name.as_str() {
            check_map(alloc, ArchivedHashMap::of(value), numbers.0.as_slice())?;
            return Ok(Some(index));
        }
    }
    Ok(None)
}

/// Fails unless the iteration visits each entry once, and nothing else.
fn check_iteration<W: Width>(
    alloc: Global,
    map: ArchivedHashMap<'_, Text<W>, Inner<W>, FxHasher64, W>,
    entries: &[(String, Numbers)],
) -> Result<(), Difference> {
    let mut visits = Visits::new(alloc, entries.len())?;
    for (key, value) in &map {
        if !visits.visit(index_of(alloc, entries, key, value)?) {
            return Err(Difference::Iteration);
        }
    }
    visits.all()
}

/// Fails unless the std map has exactly the entries.
fn same_nested(
    map: &HashMap<String, HashMap<u32, u32>>,
    entries: &[(String, Numbers)],
) -> Result<(), Difference> {
    for (key, numbers) in entries {
        match map.get(key) {
            Some(found) => same_std(found, numbers.0.as_slice())?,
            None => return Err(Difference::ReadBack),
        }
    }
    (map.len() == entries.len())
        .then_some(())
        .ok_or(Difference::ReadBack)
}

/// Fails unless the map is read back as the entries.
fn check_read_back<W: Width>(
    alloc: Global,
    map: ArchivedHashMap<'_, Text<W>, Inner<W>, FxHasher64, W>,
    entries: &[(String, Numbers)],
) -> Result<(), Difference> {
    let back = map.deserialize_std::<String, HashMap<u32, u32>, _>(
        alloc,
        BuildHasherDefault::new(),
    )?;
    same_nested(&back, entries)
}

/// Fails unless the entries are archived as these bytes, and the bytes are a map of the entries.
fn check_nested<W: Width>(
    alloc: Global,
    entries: &[(String, Numbers)],
    bytes: &[u8],
) -> Result<(), Difference> {
    check_bytes::<W>(alloc, entries, bytes)?;
    let map = ArchivedHashMap::of(access_in::<W, Outer<W>>(bytes)?);
    same_len(map.len(), entries.len())?;
    check_lookups(alloc, map, entries)?;
    check_probe(alloc, map, entries)?;
    check_iteration(alloc, map, entries)?;
    check_read_back(alloc, map, entries)
}

/// Compares the nested map of a line.
pub fn check<W: Width>(alloc: Global, line: &Line<'_>) -> Result<(), LineError> {
    let entries = pairs::<String, Numbers>(alloc, line)?;
    let checked = check_nested::<W>(alloc, entries.as_slice(), line.bytes.as_slice());
    line.outcome(checked)
}
