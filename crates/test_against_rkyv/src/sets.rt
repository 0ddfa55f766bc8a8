//! Comparisons of hash sets.
ghost use Rattle.rkyv_base.specs.{IsValidView};

use crate::comparisons::{Visits, lookup_differs, same_bytes, same_len};
use crate::entries::items;
use crate::errors::{Difference, LineError};
use crate::fields::KeyField;
use crate::line::Line;
use rkyv_base::{Represents, Serialize, VecWriter, View, Width, access_in, to_bytes_in};
use rkyv_collections::{ArchivedHashSet, FxHasher64, HashSetOf, SetItems};
use rkyv_keys::{Deserialize, KeyElement, MatchesNative, NativeKey};
use std::alloc::Global;
use std::collections::HashSet;
use std::fmt::Display;
use std::hash::{BuildHasherDefault, Hash};

/// Fails unless the lookup of each item finds it.
fn check_lookups<A: NativeKey<K> + Display, K: KeyElement + Represents<A>, W: Width>(
    alloc: Global,
    set: ArchivedHashSet<'_, K, FxHasher64, W>,
    entries: &[A],
) -> Result<(), Difference> {
    for item in entries {
        if !set.contains(item) {
            return Err(lookup_differs(alloc, item));
        }
    }
    Ok(())
}

/// Fails unless the probe is found if and only if it is among the items.
fn check_probe<
    A: KeyField + NativeKey<K> + Display + Drop,
    K: KeyElement + Represents<A>,
    W: Width,
>(
    alloc: Global,
    set: ArchivedHashSet<'_, K, FxHasher64, W>,
    entries: &[A],
) -> Result<(), Difference> {
    let probe = A::probe(alloc)?;
    if set.contains(&probe) == entries.contains(&probe) {
        Ok(())
    } else {
        Err(lookup_differs(alloc, &probe))
    }
}

/// Returns the index of the entry that equals an item of the set.
fn index_of<A, K: MatchesNative<A>>(entries: &[A], item: View<'_, K>) -> Option<usize>
    requires { IsValidView K.spec item }
{
    for (index, entry) in entries.iter().enumerate() {
        if K::eq_native(item, entry) {
            return Some(index);
        }
    }
    None
}

/// Fails unless the iteration visits each entry once, and nothing else.
fn check_iteration<A, K: MatchesNative<A>, W: Width>(
    alloc: Global,
    set: ArchivedHashSet<'_, K, FxHasher64, W>,
    entries: &[A],
) -> Result<(), Difference> {
    let mut visits = Visits::new(alloc, entries.len())?;
    for item in &set {
        if !visits.visit(index_of(entries, item)) {
            return Err(Difference::Iteration);
        }
    }
    visits.all()
}

/// Fails unless the std set has exactly the entries.
fn same_std<A: Eq + Hash>(set: &HashSet<A>, entries: &[A]) -> Result<(), Difference> {
    (entries.iter().all(|item| set.contains(item)) && set.len() == entries.len())
        .then_some(())
        .ok_or(Difference::ReadBack)
}

/// Fails unless the set is read back as the entries.
fn check_read_back<A: Eq + Hash + Drop, K: Deserialize<A>, W: Width>(
    alloc: Global,
    set: ArchivedHashSet<'_, K, FxHasher64, W>,
    entries: &[A],
) -> Result<(), Difference> {
    let back = set.deserialize_std(alloc, BuildHasherDefault::new())?;
    same_std(&back, entries)
}

/// Fails unless the entries are archived as these bytes, and the bytes are a set of the entries.
fn check_items<W: Width, A>(alloc: Global, entries: &[A], bytes: &[u8]) -> Result<(), Difference>
where
    A: KeyField + Serialize<VecWriter, W> + NativeKey<A::Archived> + Display + Hash + Drop,
    A::Archived: KeyElement + MatchesNative<A> + Deserialize<A>,
{
    let list: SetItems<'_, A> = SetItems::new(entries);
    let written = to_bytes_in::<W, SetItems<'_, A>>(alloc, &list)?;
    same_bytes(written.as_slice(), bytes)?;
    let root = access_in::<W, HashSetOf<A::Archived, FxHasher64, W>>(bytes)?;
    let set = ArchivedHashSet::of(root);
    same_len(set.len(), entries.len())?;
    check_lookups(alloc, set, entries)?;
    check_probe(alloc, set, entries)?;
    check_iteration(alloc, set, entries)?;
    check_read_back(alloc, set, entries)
}

/// Compares the hash set of a line.
pub fn check<W: Width, A>(alloc: Global, line: &Line<'_>) -> Result<(), LineError>
where
    A: KeyField + Serialize<VecWriter, W> + NativeKey<A::Archived> + Display + Hash + Drop,
    A::Archived: KeyElement + MatchesNative<A> + Deserialize<A>,
{
    let entries = items::<A>(alloc, line)?;
    let checked = check_items::<W, A>(alloc, entries.as_slice(), line.bytes.as_slice());
    line.outcome(checked)
}
