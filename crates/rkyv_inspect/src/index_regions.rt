//! The regions of the archive of an index map.
ghost use Rattle.std.specs.Prelude.{IfOk, length};
ghost use Rattle.rkyv_base.specs.{IsValidView, bytes_of, entry_spec};
ghost use Rattle.rkyv_index.specs.{index_spec};
ghost use Rattle.rkyv_inspect.specs.{Covers};

use crate::fields::{Field, pair_text};
use crate::map_regions::{add_header, add_pair_parts, add_word};
use crate::regions::{Region, RegionKind, with_gaps};
use crate::table_regions::{Buckets, IndexItem, distance_at};
use rkyv_base::{Element, Entry, View};
use rkyv_index::{ArchivedIndexMap, IndexMapOf, IndexWidth};
use std::alloc::{AllocError, Global};

/// Appends the out-of-line bytes of all pairs, in order.
fn add_parts<K: Field, V: Field, H, W: IndexWidth>(
    alloc: Global,
    map: ArchivedIndexMap<'_, K, V, H, W>,
    fields: &mut Vec<Region>,
) -> Result<(), AllocError> {
    for (key, value) in map.iter() {
        add_pair_parts(alloc, key, value, fields)?;
    }
    Ok(())
}

/// Appends the entries, in order.
fn add_entries<K: Field, V: Field, H, W: IndexWidth>(
    alloc: Global,
    bytes: &[u8],
    map: ArchivedIndexMap<'_, K, V, H, W>,
    fields: &mut Vec<Region>,
) -> Result<(), AllocError> {
    for (index, (key, _)) in map.iter().enumerate() {
        let begin = key.pos() as usize;
        fields.push(Region {
            begin,
            end: begin.saturating_add(Entry::<K, V>::size()),
            kind: RegionKind::Entry,
            text: pair_text::<K, V>(alloc, "entry", index, bytes, begin)?,
        })?;
    }
    Ok(())
}

/// Returns the regions of the archive of a valid index map, or fails to allocate them.
pub fn index_regions<K: Field, V: Field, H, W: IndexWidth>(
    alloc: Global,
    root: View<'_, IndexMapOf<K, V, H, W>>,
) -> Result<Vec<Region>, AllocError>
    requires { IsValidView (index_spec W.word (entry_spec K.spec V.spec)) root }
    ensures { IfOk result (λ regions. Covers 0 regions.items (length (bytes_of root.entry))) }
{
    let bytes = root.bytes();
    let map = ArchivedIndexMap::of(root);
    let header = map.header();
    let mut fields = Vec::new(alloc);
    let buckets = Buckets {
        bytes,
        controls_pos: header.controls_pos(),
        capacity: header.capacity(),
        size: W::ALIGN,
    };
    buckets.add::<IndexItem<W>>(alloc, &mut fields)?;
    add_parts(alloc, map, &mut fields)?;
    add_entries(alloc, bytes, map, &mut fields)?;
    let pos = add_header::<W>(alloc, bytes, root.pos() as usize, header, &mut fields)?;
    let distance = distance_at::<W>(bytes, pos);
    let text = format!(in alloc; "header: distance {distance} to the entries")?;
    add_word::<W>(pos, text, &mut fields)?;
    with_gaps(alloc, bytes, fields)
}
