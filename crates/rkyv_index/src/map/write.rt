//! Writing the bytes of an index map, from a slice of its entries.
//!
//! 1. The table of indices is written, each under the hash of its entry.
//! 2. The parts of the entries are written, in order.
//! 3. Zeros are written up to the alignment of the entries.
//! 4. The entries are written, contiguous.

ghost use Rattle.std.specs.Prelude.{◌≡◌, ◌<◌, ◌≤◌, [], length, vec_capacity};
ghost use Rattle.rkyv_table.specs.{HasCapacity};
ghost use Rattle.rkyv_index.specs.{WritesEntries, WritesIndices, hashed, hashed_row, indices};

pub(crate) mod hashed_indices;
pub mod resolve;
mod row;
pub mod serialize;
mod source;

use crate::map::write::hashed_indices::{HashedEntry, HashedIndices};
use crate::map::write::resolve::IndexMapResolver;
use crate::map::write::row::{serialize_row, write_row};
use crate::width::IndexWidth;
use rkyv_base::{Serialize, WriteResult, Writer, align_for_in};
use rkyv_scan::simd::lanes;
use rkyv_table::{ArchivedHashTable, HashTableResolver};
use std::alloc::Global;

#[inline]
fn write_indices<W: IndexWidth, H, S: Writer, U: HashedEntry<H>>(
    alloc: Global,
    entries: &[U],
    load_factor: (usize, usize),
    serializer: &mut S,
) -> WriteResult<HashTableResolver<W>, S>
    requires capacity { HasCapacity (length entries.now) load_factor W.MAX_CAPACITY }
    ensures { WritesIndices W.Width (indices W.Index.spec W.Index.encoding)
        (hashed U.hash load_factor entries.now)
        (S.output serializer.old) (S.output serializer.new) result }
{
    let indices = HashedIndices::<'_, U, H, W>::new(entries);
    ArchivedHashTable::<W::Index, W>::serialize_by::<
        lanes::Group,
        S,
        W::Index,
        W::Index,
        HashedIndices<'_, U, H, W>,
    >(alloc, indices, entries.len(), load_factor, serializer)
}

// Writes the table of indices, the parts of the entries, zeros and the entries.
pub(crate) fn write_index<W: IndexWidth, H, S: Writer, U: HashedEntry<H> + Serialize<S, W>>(
    alloc: Global,
    entries: &[U],
    resolvers: Vec<U::Resolver>,
    scratch: &mut [u8],
    load_factor: (usize, usize),
    serializer: &mut S,
) -> WriteResult<IndexMapResolver<W>, S>
    requires capacity { HasCapacity (length entries.now) load_factor W.MAX_CAPACITY }
    requires empty { resolvers.items ≡ [] }
    requires resolvers { length entries.now ≤ vec_capacity resolvers }
    requires room { 0 < length entries.now → length scratch.old ≡ U.Archived.spec.size }
    ensures { WritesEntries W.Width (indices W.Index.spec W.Index.encoding)
        (hashed_row U.Archived.spec U.format U.hash load_factor entries.now)
        (S.output serializer.old) (S.output serializer.new) result }
{
    let table = write_indices::<W, H, _, _>(alloc, entries, load_factor, serializer)?;
    let mut kept = resolvers;
    serialize_row::<W, _, _>(alloc, entries, &mut kept, serializer)?;
    let pos = align_for_in::<W, U::Archived, _>(serializer)?;
    write_row::<W, _, _>(entries, kept, scratch, serializer)?;
    Ok(IndexMapResolver {
        table,
        entries: pos,
    })
}
