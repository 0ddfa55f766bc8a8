//! Comparisons of index maps.
ghost use Rattle.rkyv_base.specs.{IsValidView};

use crate::comparisons::{lookup_differs, same_bytes, same_len};
use crate::entries::{has_key, pairs};
use crate::errors::{Difference, LineError};
use crate::fields::{Field, KeyField};
use crate::line::Line;
use rkyv_base::{Element, Represents, Serialize, VecWriter, View, access_in, to_bytes_in};
use rkyv_index::{ArchivedIndexMap, FxHasher64, IndexMapOf, IndexWidth, OrderedPairs};
use rkyv_keys::{Deserialize, KeyElement, MatchesNative, NativeKey};
use std::alloc::Global;
use std::fmt::Display;

/// Returns whether a lookup finds the index and the value.
fn finds<A: NativeKey<K>, B, K: KeyElement + Represents<A>, V: MatchesNative<B>, W: IndexWidth>(
    map: ArchivedIndexMap<'_, K, V, FxHasher64, W>,
    index: usize,
    key: &A,
    value: &B,
) -> bool {
    match map.get_full(key) {
        Some((found, _, mapped)) => found == index && V::eq_native(mapped, value),
        None => false,
    }
}

/// Fails unless the lookup of each key finds its index and its value.
fn check_lookups<
    A: NativeKey<K> + Display,
    B,
    K: KeyElement + Represents<A>,
    V: MatchesNative<B>,
    W: IndexWidth,
>(
    alloc: Global,
    map: ArchivedIndexMap<'_, K, V, FxHasher64, W>,
    entries: &[(A, B)],
) -> Result<(), Difference> {
    for (index, (key, value)) in entries.iter().enumerate() {
        if !finds(map, index, key, value) {
            return Err(lookup_differs(alloc, key));
        }
    }
    Ok(())
}

/// Fails unless the probe is found if and only if it is among the keys.
fn check_probe<
    A: KeyField + NativeKey<K> + Display + Drop,
    B,
    K: KeyElement + Represents<A>,
    V: Element,
    W: IndexWidth,
>(
    alloc: Global,
    map: ArchivedIndexMap<'_, K, V, FxHasher64, W>,
    entries: &[(A, B)],
) -> Result<(), Difference> {
    let probe = A::probe(alloc)?;
    if map.contains_key(&probe) == has_key(entries, &probe) {
        Ok(())
    } else {
        Err(lookup_differs(alloc, &probe))
    }
}

/// Returns whether a pair of the map equals an entry.
fn is_entry<A, B, K: MatchesNative<A>, V: MatchesNative<B>>(
    entry: Option<&(A, B)>,
    key: View<'_, K>,
    value: View<'_, V>,
) -> bool
    requires key { IsValidView K.spec key }
    requires value { IsValidView V.spec value }
{
    match entry {
        Some(entry) => K::eq_native(key, &entry.0) && V::eq_native(value, &entry.1),
        None => false,
    }
}

/// Fails unless the iteration visits the entries in their order.
fn check_iteration<A, B, K: MatchesNative<A>, V: MatchesNative<B>, W: IndexWidth>(
    map: ArchivedIndexMap<'_, K, V, FxHasher64, W>,
    entries: &[(A, B)],
) -> Result<(), Difference> {
    let mut rest = entries.iter();
    for (key, value) in &map {
        if !is_entry(rest.next(), key, value) {
            return Err(Difference::Iteration);
        }
    }
    rest.next()
        .is_none()
        .then_some(())
        .ok_or(Difference::Iteration)
}

/// Fails unless the map is read back as the entries.
fn check_read_back<
    A: PartialEq + Drop,
    B: PartialEq + Drop,
    K: Deserialize<A>,
    V: Deserialize<B>,
    W: IndexWidth,
>(
    alloc: Global,
    map: ArchivedIndexMap<'_, K, V, FxHasher64, W>,
    entries: &[(A, B)],
) -> Result<(), Difference> {
    let back = map.deserialize_pairs::<A, B>(alloc)?;
    (back.as_slice() == entries)
        .then_some(())
        .ok_or(Difference::ReadBack)
}

/// Fails unless the entries are archived as these bytes, and the bytes are a map of the entries.
fn check_pairs<W: IndexWidth, A, B>(
    alloc: Global,
    list: &OrderedPairs<A, B>,
    bytes: &[u8],
) -> Result<(), Difference>
where
    A: KeyField + Serialize<VecWriter, W> + NativeKey<A::Archived> + Display + Drop,
    A::Archived: KeyElement + MatchesNative<A> + Deserialize<A>,
    B: Serialize<VecWriter, W> + PartialEq + Drop,
    B::Archived: MatchesNative<B> + Deserialize<B>,
{
    let written = to_bytes_in::<W, OrderedPairs<A, B>>(alloc, list)?;
    same_bytes(written.as_slice(), bytes)?;
    let root = access_in::<W, IndexMapOf<A::Archived, B::Archived, FxHasher64, W>>(bytes)?;
    let map = ArchivedIndexMap::of(root);
    let entries = list.0.as_slice();
    same_len(map.len(), entries.len())?;
    check_lookups(alloc, map, entries)?;
    check_probe(alloc, map, entries)?;
    check_iteration(map, entries)?;
    check_read_back(alloc, map, entries)
}

/// Compares the index map of a line.
pub fn check<W: IndexWidth, A, B>(alloc: Global, line: &Line<'_>) -> Result<(), LineError>
where
    A: KeyField + Serialize<VecWriter, W> + NativeKey<A::Archived> + Display + Drop,
    A::Archived: KeyElement + MatchesNative<A> + Deserialize<A>,
    B: Field + Serialize<VecWriter, W> + PartialEq + Drop,
    B::Archived: MatchesNative<B> + Deserialize<B>,
{
    let list = OrderedPairs(pairs::<A, B>(alloc, line)?);
    let checked = check_pairs::<W, A, B>(alloc, &list, line.bytes.as_slice());
    line.outcome(checked)
}
