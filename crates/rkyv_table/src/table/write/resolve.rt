//! The resolver of a written table, and writing the header of the table.
//!
//! `HashTableResolver::resolve` writes the header. `resolve_from_len` does so too, and takes
//! the length and the load factor again, as in rkyv.

ghost use Rattle.std.specs.Prelude.{◌≡◌, ◌<◌, ◌≤◌, ◌^◌, FitsSigned, length};
ghost use mir.Val.{bits};
ghost use Rattle.rkyv_table.specs.{IsLoadFactor, TableResolver, WritesHeader, capacity};
ghost use Rattle.rkyv_table.specs.{header_bytes, resolved_capacity, resolver_of};

use crate::controls::numbers::capacity;
use crate::table::ArchivedHashTable;
use rkyv_base::{DistanceTooLarge, HasSpec, Narrow, ResolveResult, Width};
use std::marker::{Model, PhantomData};

/// The resolver of a written table: the position of its control bytes, its length and load factor.
#[derive(Drop)]
#[must_use]
pub struct HashTableResolver<W: Width = Narrow> {
    pub(crate) pos: u64,
    pub(crate) len: usize,
    pub(crate) load_factor: (usize, usize),
    pub(crate) width: PhantomData<W>,
}

impl<W: Width> Model for HashTableResolver<W> {
    ghost Value = { TableResolver };

    ghost view = { λ r. record { pos = r.pos; len = r.len; load_factor = r.load_factor } };

    ghost invariant = { λ r. IsLoadFactor r.load_factor
        × (capacity r.len r.load_factor ≤ W.MAX_CAPACITY) };
}

impl<W: Width> HashTableResolver<W> {
    /// Returns the position of the table's first control byte, or 0 for an empty table.
    #[inline]
    pub fn pos(&self) -> u64
        ensures { result ≡ self.now.pos }
    {
        self.pos
    }

    /// Returns the number of items of the table.
    #[inline]
    pub fn len(&self) -> usize
        ensures { result ≡ self.now.len }
    {
        self.len
    }

    /// Returns the load factor of the table.
    #[inline]
    pub fn load_factor(&self) -> (usize, usize)
        ensures { result ≡ self.now.load_factor }
    {
        self.load_factor
    }

    /// Writes the header of the written table over the whole of `out`, for a header at `pos`.
    ///
    /// Fails with `DistanceTooLarge` if the table isn't empty and the distance doesn't fit in the
    /// width. `out` is then unchanged. The distance of an empty table is 1, and never read.
    pub fn resolve(self, pos: u64, out: &mut [u8]) -> ResolveResult
        requires room { length out.old ≡ W.TABLE_SIZE }
        ensures { WritesHeader W.word self pos out.old out.new result }
    {
        let (len, load_factor) = (self.len, self.load_factor);
        ArchivedHashTable::<'_, (), W>::resolve_from_len(len, load_factor, self, pos, out)
    }
}

#[inline]
fn write_header<W: Width>(out: &mut [u8], distance: i64, len: u64, cap: u64)
    requires room { length out.old ≡ W.TABLE_SIZE }
    requires distance_fits { FitsSigned W.word distance }
    requires len_fits { len < 2 ^ bits W.word }
    requires cap_fits { cap < 2 ^ bits W.word }
    ensures { out.new ≡ header_bytes W.word distance len cap }
{
    let (first, others) = out.split_at_mut(W::ALIGN);
    let (second, third) = others.split_at_mut(W::ALIGN);
    W::write_distance(first, distance);
    W::write_count(second, len);
    W::write_count(third, cap);
}

#[inline]
pub(crate) fn resolved_capacity<W: Width>(resolver: &HashTableResolver<W>) -> usize
    ensures value { result ≡ resolved_capacity resolver.now }
    ensures fits { result < 2 ^ bits W.word }
{
    capacity(resolver.len, resolver.load_factor, W::MAX_CAPACITY).unwrap()
}

impl<'a, T: HasSpec, W: Width> ArchivedHashTable<'a, T, W> {
    /// Writes the header as `resolve` does, with the resolver's length and load factor again.
    pub fn resolve_from_len(
        len: usize,
        load_factor: (usize, usize),
        resolver: HashTableResolver<W>,
        pos: u64,
        out: &mut [u8],
    ) -> ResolveResult
        requires same { (len ≡ resolver.len) × (load_factor ≡ resolver.load_factor) }
        requires room { length out.old ≡ W.TABLE_SIZE }
        ensures { WritesHeader W.word (resolver_of len load_factor resolver.pos) pos
            out.old out.new result }
    {
        if len == 0 {
            write_header::<W>(out, 1, 0, 0);
            return Ok(());
        }
        let cap = resolved_capacity(&resolver) as u64;
        let distance = W::distance(resolver.pos(), pos).ok_or(DistanceTooLarge)?;
        write_header::<W>(out, distance, len as u64, cap);
        Ok(())
    }
}
