//! The regions of the archive of a hash map.
ghost use Rattle.std.specs.Prelude.{IfOk, length};
ghost use Rattle.rkyv_base.specs.{IsValidView, bytes_of};
ghost use Rattle.rkyv_collections.specs.{map_spec};
ghost use Rattle.rkyv_inspect.specs.{Covers};

use crate::fields::{Field, Part};
use crate::regions::{Region, RegionKind, with_gaps};
use crate::table_regions::{Buckets, distance_at};
use rkyv_base::{Element, Entry, View, Width};
use rkyv_collections::{ArchivedHashMap, HashMapOf};
use rkyv_table::table::decoded::Decoded;
use std::alloc::{AllocError, Global};

fn add_part(alloc: Global, part: Option<Part>, fields: &mut Vec<Region>) -> Result<(), AllocError> {
    if let Some(Part { begin, end }) = part {
        fields.push(Region {
            begin,
            end,
            kind: RegionKind::Text,
            text: String::from_str(alloc, "out-of-line text")?,
        })?;
    }
    Ok(())
}

/// Appends the out-of-line bytes of a pair.
pub(crate) fn add_pair_parts<K: Field, V: Field>(
    alloc: Global,
    key: View<'_, K>,
    value: View<'_, V>,
    fields: &mut Vec<Region>,
) -> Result<(), AllocError>
    requires key { IsValidView K.spec key }
    requires value { IsValidView V.spec value }
{
    add_part(alloc, K::part(key), fields)?;
    add_part(alloc, V::part(value), fields)
}

/// Appends a word of a header, and returns its end.
pub(crate) fn add_word<W: Width>(
    pos: usize,
    text: String,
    fields: &mut Vec<Region>,
) -> Result<usize, AllocError> {
    let end = pos.saturating_add(W::ALIGN);
    fields.push(Region {
        begin: pos,
        end,
        kind: RegionKind::Header,
        text,
    })?;
    Ok(end)
}

/// Appends the three words of a table's header, and returns their end.
pub(crate) fn add_header<W: Width>(
    alloc: Global,
    bytes: &[u8],
    pos: usize,
    header: Decoded,
    fields: &mut Vec<Region>,
) -> Result<usize, AllocError> {
    let distance = distance_at::<W>(bytes, pos);
    let text = format!(in alloc; "header: distance {distance} to the control bytes")?;
    let pos = add_word::<W>(pos, text, fields)?;
    let text = format!(in alloc; "header: length {}", header.len())?;
    let pos = add_word::<W>(pos, text, fields)?;
    let text = format!(in alloc; "header: capacity {}", header.capacity())?;
    add_word::<W>(pos, text, fields)
}

/// Returns the regions of the archive of a valid hash map, or fails to allocate them.
pub fn map_regions<K: Field, V: Field, H, W: Width>(
    alloc: Global,
    root: View<'_, HashMapOf<K, V, H, W>>,
) -> Result<Vec<Region>, AllocError>
    requires { IsValidView (map_spec W.word K.spec V.spec) root }
    ensures { IfOk result (λ regions. Covers 0 regions.items (length (bytes_of root.entry))) }
{
    let bytes = root.bytes();
    let map = ArchivedHashMap::of(root);
    let mut fields = Vec::new(alloc);
    for (key, value) in map.iter() {
        add_pair_parts(alloc, key, value, &mut fields)?;
    }
    let header = map.header();
    let buckets = Buckets {
        bytes,
        controls_pos: header.controls_pos(),
        capacity: header.capacity(),
        size: Entry::<K, V>::size(),
    };
    buckets.add::<Entry<K, V>>(alloc, &mut fields)?;
    add_header::<W>(alloc, bytes, root.pos() as usize, header, &mut fields)?;
    with_gaps(alloc, bytes, fields)
}
