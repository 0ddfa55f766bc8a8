//! Summaries of index maps.
ghost use Rattle.rkyv_base.specs.{IsValidView, entry_spec};
ghost use Rattle.rkyv_index.specs.{index_spec};

use crate::summary::{Lookups, Summary, count_one, no_strides, summary_of};
use rkyv_base::{Element, View};
use rkyv_index::{ArchivedIndexMap, IndexMapOf, IndexWidth};
use rkyv_keys::{KeyElement, KeyView};
use rkyv_scan::KeyHasher;
use rkyv_table::Strides;
use std::alloc::{AllocError, Global};

/// Returns the number of strides that a lookup of a key of the map reads.
fn strides_of<'a, K: KeyElement, V: Element, H: KeyHasher, W: IndexWidth>(
    map: ArchivedIndexMap<'a, K, V, H, W>,
    key: View<'a, K>,
) -> u64
    requires { IsValidView K.spec key }
{
    let mut strides = Strides::new();
    let _ = map.get_index_of_counted(
        &KeyView::of(key),
        |_, stored|
            requires key { IsValidView K.spec key }
            requires stored { IsValidView K.spec stored }
        { K::same(key, stored) },
        &mut strides,
    );
    strides.count()
}

/// Looks up each key of a map, unless the lookups read more than `limit` strides.
fn index_lookups<K: KeyElement, V: Element, H: KeyHasher, W: IndexWidth>(
    alloc: Global,
    map: ArchivedIndexMap<'_, K, V, H, W>,
    limit: u64,
) -> Result<Option<Lookups>, AllocError> {
    let Some(misplaced) = map.misplaced_up_to(limit) else {
        return Ok(None);
    };
    let mut strides = no_strides(alloc, map.capacity())?;
    for (key, _) in map.iter() {
        count_one(&mut strides, strides_of(map, key));
    }
    Ok(Some(Lookups { misplaced, strides }))
}

/// Returns the summary of the valid index map at a view of its header, or fails to allocate it.
///
/// Each key is looked up, unless the lookups read more than `limit` strides.
pub fn index_summary<K: KeyElement, V: Element, H: KeyHasher, W: IndexWidth>(
    alloc: Global,
    root: View<'_, IndexMapOf<K, V, H, W>>,
    limit: u64,
) -> Result<Summary, AllocError>
    requires { IsValidView (index_spec W.word (entry_spec K.spec V.spec)) root }
{
    let map = ArchivedIndexMap::of(root);
    let lookups = index_lookups(alloc, map, limit)?;
    Ok(summary_of(map.header(), root.pos(), lookups))
}
