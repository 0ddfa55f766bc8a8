//! The resolver of a written index map, and writing its header.

ghost use Rattle.std.specs.Prelude.{◌≡◌, ◌+◌, ◌<◌, ◌^◌, length};
ghost use Rattle.rkyv_index.specs.{IndexResolver, WritesIndexHeader};

use crate::map::ArchivedIndexMap;
use crate::width::IndexWidth;
use rkyv_base::{DistanceTooLarge, HasSpec, Narrow, ResolveResult};
use rkyv_table::{ArchivedHashTable, HashTableResolver};
use std::marker::Model;

/// The resolver of a written index map: its table's resolver, and the position of its entries.
#[derive(Drop)]
#[must_use]
pub struct IndexMapResolver<W: IndexWidth = Narrow> {
    pub(crate) table: HashTableResolver<W>,
    pub(crate) entries: u64,
}

impl<W: IndexWidth> Model for IndexMapResolver<W> {
    ghost Value = { IndexResolver };

    ghost view = { λ r. record { table = r.table; entries = r.entries } };
}

impl<W: IndexWidth> IndexMapResolver<W> {
    /// Returns the number of pairs of the map.
    #[inline]
    pub fn len(&self) -> usize
        ensures { result ≡ self.now.table.len }
    {
        self.table.len()
    }

    /// Returns the load factor of the map.
    #[inline]
    pub fn load_factor(&self) -> (usize, usize)
        ensures { result ≡ self.now.table.load_factor }
    {
        self.table.load_factor()
    }

    /// Writes the header of the written map over the whole of `out`, for a header at `pos`.
    ///
    /// Fails with `DistanceTooLarge`, and leaves `out` unchanged, if the distance to the entries,
    /// or to a table that isn't empty, doesn't fit in the width.
    pub fn resolve(self, pos: u64, out: &mut [u8]) -> ResolveResult
        requires room { length out.old ≡ W.INDEX_SIZE }
        requires fits { pos + W.INDEX_SIZE < 2 ^ 64 }
        ensures { WritesIndexHeader W.word self pos out.old out.new result }
    {
        let (len, load_factor) = (self.len(), self.load_factor());
        ArchivedIndexMap::<'_, (), (), (), W>::resolve_from_len(len, load_factor, self, pos, out)
    }
}

impl<'a, K: HasSpec, V: HasSpec, H, W: IndexWidth> ArchivedIndexMap<'a, K, V, H, W> {
    /// Writes as `IndexMapResolver::resolve` does, with rkyv's signature.
    ///
    /// `len` and `load_factor` must be the resolver's.
    pub fn resolve_from_len(
        len: usize,
        load_factor: (usize, usize),
        resolver: IndexMapResolver<W>,
        pos: u64,
        out: &mut [u8],
    ) -> ResolveResult
        requires same { (len ≡ resolver.table.len) × (load_factor ≡ resolver.table.load_factor) }
        requires room { length out.old ≡ W.INDEX_SIZE }
        requires fits { pos + W.INDEX_SIZE < 2 ^ 64 }
        ensures { WritesIndexHeader W.word resolver pos out.old out.new result }
    {
        let Some(distance) = W::distance(resolver.entries, pos + W::TABLE_SIZE as u64) else {
            return Err(DistanceTooLarge);
        };
        let (table, entries) = out.split_at_mut(W::TABLE_SIZE);
        ArchivedHashTable::<W::Index, W>::resolve_from_len(
            len,
            load_factor,
            resolver.table,
            pos,
            table,
        )?;
        W::write_distance(entries, distance);
        Ok(())
    }
}
