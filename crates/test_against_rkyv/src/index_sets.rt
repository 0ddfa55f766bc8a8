//! Comparisons of index sets.
ghost use Rattle.rkyv_base.specs.{IsValidView};

use crate::comparisons::{lookup_differs, same_bytes, same_len};
use crate::entries::items;
use crate::errors::{Difference, LineError};
use crate::fields::KeyField;
use crate::line::Line;
use rkyv_base::{Represents, Serialize, VecWriter, View, access_in, to_bytes_in};
use rkyv_index::{ArchivedIndexSet, FxHasher64, IndexSetOf, IndexWidth, OrderedItems};
use rkyv_keys::{Deserialize, KeyElement, MatchesNative, NativeKey};
use std::alloc::Global;
use std::fmt::Display;

/// Fails unless the lookup of each item finds its index.
fn check_lookups<A: NativeKey<K> + Display, K: KeyElement + Represents<A>, W: IndexWidth>(
    alloc: Global,
    set: ArchivedIndexSet<'_, K, FxHasher64, W>,
    entries: &[A],
) -> Result<(), Difference> {
    for (index, item) in entries.iter().enumerate() {
        if set.get_index_of(item) != Some(index) {
            return Err(lookup_differs(alloc, item));
        }
    }
    Ok(())
}

/// Fails unless the probe is found if and only if it is among the items.
fn check_probe<
    A: KeyField + NativeKey<K> + Display + Drop,
    K: KeyElement + Represents<A>,
    W: IndexWidth,
>(
    alloc: Global,
    set: ArchivedIndexSet<'_, K, FxHasher64, W>,
    entries: &[A],
) -> Result<(), Difference> {
    let probe = A::probe(alloc)?;
    if set.contains(&probe) == entries.contains(&probe) {
        Ok(())
    } else {
        Err(lookup_differs(alloc, &probe))
    }
}

/// Returns whether an item of the set equals an entry.
fn is_entry<A, K: MatchesNative<A>>(entry: Option<&A>, item: View<'_, K>) -> bool
    requires { IsValidView K.spec item }
{
    match entry {
        Some(entry) => K::eq_native(item, entry),
        None => false,
    }
}

/// Fails unless the iteration visits the entries in their order.
fn check_iteration<A, K: MatchesNative<A>, W: IndexWidth>(
    set: ArchivedIndexSet<'_, K, FxHasher64, W>,
    entries: &[A],
) -> Result<(), Difference> {
    let mut rest = entries.iter();
    for item in &set {
        if !is_entry(rest.next(), item) {
            return Err(Difference::Iteration);
        }
    }
    rest.next()
        .is_none()
        .then_some(())
        .ok_or(Difference::Iteration)
}

/// Fails unless the set is read back as the entries.
fn check_read_back<A: PartialEq + Drop, K: Deserialize<A>, W: IndexWidth>(
    alloc: Global,
    set: ArchivedIndexSet<'_, K, FxHasher64, W>,
    entries: &[A],
) -> Result<(), Difference> {
    let back = set.deserialize_items::<A>(alloc)?;
    (back.as_slice() == entries)
        .then_some(())
        .ok_or(Difference::ReadBack)
}

/// Fails unless the entries are archived as these bytes, and the bytes are a set of the entries.
fn check_items<W: IndexWidth, A>(
    alloc: Global,
    list: &OrderedItems<A>,
    bytes: &[u8],
) -> Result<(), Difference>
where
    A: KeyField + Serialize<VecWriter, W> + NativeKey<A::Archived> + Display + Drop,
    A::Archived: KeyElement + MatchesNative<A> + Deserialize<A>,
{
    let written = to_bytes_in::<W, OrderedItems<A>>(alloc, list)?;
    same_bytes(written.as_slice(), bytes)?;
    let root = access_in::<W, IndexSetOf<A::Archived, FxHasher64, W>>(bytes)?;
    let set = ArchivedIndexSet::of(root);
    let entries = list.0.as_slice();
    same_len(set.len(), entries.len())?;
    check_lookups(alloc, set, entries)?;
    check_probe(alloc, set, entries)?;
    check_iteration(set, entries)?;
    check_read_back(alloc, set, entries)
}

/// Compares the index set of a line.
pub fn check<W: IndexWidth, A>(alloc: Global, line: &Line<'_>) -> Result<(), LineError>
where
    A: KeyField + Serialize<VecWriter, W> + NativeKey<A::Archived> + Display + Drop,
    A::Archived: KeyElement + MatchesNative<A> + Deserialize<A>,
{
    let list = OrderedItems(items::<A>(alloc, line)?);
    let checked = check_items::<W, A>(alloc, &list, line.bytes.as_slice());
    line.outcome(checked)
}
