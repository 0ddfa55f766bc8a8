//! Writing maps from iterators of pairs.
//!
//! `serialize_from_iter` writes the entries and returns a resolver. Its `resolve` then writes
//! the header.

ghost use Rattle.std.specs.Prelude.{◌≡◌, length};
ghost use Rattle.rkyv_table.specs.{pairs_in, resolver_of};
ghost use Rattle.rkyv_keys.specs.{native_format};
ghost use Rattle.rkyv_collections.specs.{ResolvesMap, WritesMap};

mod hashing;

use crate::map::ArchivedHashMap;
use crate::map::write::hashing::HashedEntries;
use rkyv_base::{
    Entry, EntryAdapter, HasSpec, Lend, Narrow, Represents, ResolveResult, Serialize, Width,
    WriteResult, Writer,
};
use rkyv_keys::{KeyElement, NativeKey};
use rkyv_scan::KeyHasher;
use rkyv_scan::simd::lanes;
use rkyv_table::{ArchivedHashTable, HashTableResolver};
use std::alloc::Global;

/// The resolver of a written map, which is the resolver of the table of its entries.
pub type HashMapResolver<W = Narrow> = HashTableResolver<W>;

impl<'a, K: KeyElement, V: HasSpec, H: KeyHasher, W: Width> ArchivedHashMap<'a, K, V, H, W> {
    /// Writes a map of `len` pairs, under a load factor, and returns its resolver.
    ///
    /// The pairs have keys and values or references to them. Pairs with equal keys are kept, and
    /// a lookup finds the first. Tested only: the iterator is called at most `len + 1` times, not
    /// after it returned `None`, and not if an allocation of this call fails.
    ///
    /// # Errors
    ///
    /// - `InvalidLoadFactor`: the load factor isn't above 0 and at most 1.
    /// - `CapacityTooLarge`: the capacity is above `W::MAX_CAPACITY`.
    /// - `Memory`: `len` isn't 0, and memory for placing the pairs could not be allocated.
    /// - `IteratorLengthMismatch`: the number of pairs, counted up to `len + 1`, isn't `len`.
    /// - The error of the first key, value or piece that fails. Bytes may have been written.
    ///
    /// # Examples
    ///
    /// ```rust
    /// type Numbers = ArchivedHashMap<'static, i8, i8, FxHasher64, Narrow>;
    ///
    /// let mut writer = VecWriter::new(alloc);
    /// let resolver = Numbers::serialize_from_iter::<VecWriter, i8, i8, i8, i8, _>(
    ///     alloc,
    ///     pairs.iter().copied(),
    ///     pairs.len(),
    ///     (7, 8),
    ///     &mut writer,
    /// )?;
    /// ```
    pub fn serialize_from_iter<
        S: Writer,
        A: NativeKey<K> + Serialize<S, W, Archived = K>,
        B: Serialize<S, W, Archived = V>,
        BK: Lend<A> + Drop,
        BV: Lend<B> + Drop,
        I: Iterator<Item = (BK, BV)>,
    >(
        alloc: Global,
        iter: I,
        len: usize,
        load_factor: (usize, usize),
        serializer: &mut S,
    ) -> WriteResult<HashMapResolver<W>, S>
    where
        K: Represents<A>,
        V: Represents<B>,
        requires ready { I.can_next iter }
        ensures { WritesMap W.Width
            (native_format K.spec V.spec A.format B.format H.hasher A.calls)
            (pairs_in BK.Lend BV.Lend I.Iterator iter len load_factor)
            (S.output serializer.old) (S.output serializer.new) result }
    {
        let entries = HashedEntries::new(iter);
        ArchivedHashTable::<Entry<K, V>, W>::serialize_by::<
            lanes::Group,
            S,
            EntryAdapter<BK, BV, A, B>,
            EntryAdapter<BK, BV, A, B>,
            HashedEntries<I, A, B, H>,
        >(alloc, entries, len, load_factor, serializer)
    }

    /// Writes the header of a written map at `pos` over the whole of `out`.
    ///
    /// Requires the `len` and `load_factor` of the resolver. Fails with `DistanceTooLarge`
    /// if the map isn't empty and the distance doesn't fit in the width.
    pub fn resolve_from_len(
        len: usize,
        load_factor: (usize, usize),
        resolver: HashMapResolver<W>,
        pos: u64,
        out: &mut [u8],
    ) -> ResolveResult
        requires same { (len ≡ resolver.len) × (load_factor ≡ resolver.load_factor) }
        requires room { length out.old ≡ W.TABLE_SIZE }
        ensures { ResolvesMap W.word (resolver_of len load_factor resolver.pos) pos
            out.old out.new result }
    {
        ArchivedHashTable::<Entry<K, V>, W>::resolve_from_len(len, load_factor, resolver, pos, out)
    }
}
