//! Summaries of hash maps.
ghost use Rattle.rkyv_base.specs.{IsValidView, entry_spec};
ghost use Rattle.rkyv_collections.specs.{map_spec};

use crate::summary::{Lookups, Summary, count_one, no_strides, summary_of};
use rkyv_base::{Element, Entry, View, Width};
use rkyv_collections::{ArchivedHashMap, HashMapOf};
use rkyv_keys::{KeyElement, KeyView, hash_value};
use rkyv_scan::KeyHasher;
use rkyv_table::{ArchivedHashTable, Strides, TableOf};
use std::alloc::{AllocError, Global};

/// Returns the number of strides that a lookup of a key of the table reads.
fn strides_of<'a, K: KeyElement, V: Element, H: KeyHasher, W: Width>(
    table: ArchivedHashTable<'a, Entry<K, V>, W>,
    key: View<'a, K>,
) -> u64
    requires { IsValidView K.spec key }
{
    let mut strides = Strides::new();
    let _ = table.get_counted(
        hash_value::<KeyView<'_, K>, H>(&KeyView::of(key)),
        |other|
            requires key { IsValidView K.spec key }
            requires other { IsValidView (entry_spec K.spec V.spec) other }
        { K::same(key, other.key()) },
        &mut strides,
    );
    strides.count()
}

/// Returns the histogram of the strides that lookups of all keys of a map read.
fn strides_histogram<K: KeyElement, V: Element, H: KeyHasher, W: Width>(
    alloc: Global,
    root: View<'_, HashMapOf<K, V, H, W>>,
) -> Result<Vec<usize>, AllocError>
    requires { IsValidView (map_spec W.word K.spec V.spec) root }
{
    let table = ArchivedHashTable::of(root.at::<TableOf<Entry<K, V>, W>>(root.pos()));
    let mut counts = no_strides(alloc, table.capacity())?;
    for (key, _) in ArchivedHashMap::of(root).iter() {
        count_one(&mut counts, strides_of::<K, V, H, W>(table, key));
    }
    Ok(counts)
}

/// Looks up each key of a map, unless the lookups read more than `limit` strides.
fn map_lookups<K: KeyElement, V: Element, H: KeyHasher, W: Width>(
    alloc: Global,
    root: View<'_, HashMapOf<K, V, H, W>>,
    limit: u64,
) -> Result<Option<Lookups>, AllocError>
    requires { IsValidView (map_spec W.word K.spec V.spec) root }
{
    let Some(misplaced) = ArchivedHashMap::of(root).misplaced_up_to(limit) else {
        return Ok(None);
    };
    let strides = strides_histogram(alloc, root)?;
    Ok(Some(Lookups { misplaced, strides }))
}

/// Returns the summary of the valid hash map at a view of its header, or fails to allocate it.
///
/// Each key is looked up, unless the lookups read more than `limit` strides.
pub fn map_summary<K: KeyElement, V: Element, H: KeyHasher, W: Width>(
    alloc: Global,
    root: View<'_, HashMapOf<K, V, H, W>>,
    limit: u64,
) -> Result<Summary, AllocError>
    requires { IsValidView (map_spec W.word K.spec V.spec) root }
{
    let lookups = map_lookups(alloc, root, limit)?;
    let header = ArchivedHashMap::of(root).header();
    Ok(summary_of(header, root.pos(), lookups))
}
