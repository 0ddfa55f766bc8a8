//! Writing index maps from iterators of pairs.
//!
//! `serialize_from_iter` writes a table of indices and the entries, and returns a resolver.
//! Its `resolve` then writes the header.

ghost use Rattle.std.specs.Prelude.{List, ℕ};
ghost use Rattle.rkyv_base.specs.{Format};
ghost use Rattle.rkyv_keys.specs.{native_format};
ghost use Rattle.rkyv_table.specs.{WritesInFormat, pairs_in};
ghost use Rattle.rkyv_index.specs.{IndexResolver, index_map_format, indices};

use crate::map::write::resolve::IndexMapResolver;
use crate::map::write::source::{Room, take_entries};
use crate::map::write::write_index;
use crate::map::{ArchivedIndexMap, IndexMapOf};
use crate::width::IndexWidth;
use rkyv_base::{
    Archive, Element, Entry, EntryAdapter, IteratorLengthMismatch, Lend, Represents, Serialize,
    WriteError, WriteResult, Writer,
};
use rkyv_keys::{KeyElement, KeyHash, NativeKey};
use rkyv_scan::KeyHasher;
use rkyv_table::controls::numbers::capacity;
use std::alloc::Global;

/// The format of lists of `X` under each load factor.
pub trait ListFormat<X> {
    ghost format: { ℕ × ℕ → Format (List X) IndexResolver };
}

impl<
    K: Element,
    V: Element,
    H: KeyHasher,
    W: IndexWidth,
    A: KeyHash + Archive<W>,
    B: Archive<W>,
> ListFormat<(A, B)> for IndexMapOf<K, V, H, W> {
    ghost format = { index_map_format W.word (indices W.Index.spec W.Index.encoding)
        (native_format K.spec V.spec A.format B.format H.hasher A.calls) };
}

impl<'a, K: KeyElement, V: Element, H: KeyHasher, W: IndexWidth> ArchivedIndexMap<'a, K, V, H, W> {
    /// Writes an index map of `len` pairs of keys and values or references. Returns its resolver.
    ///
    /// The table of indices is written first, then the parts of the entries, zeros up to the
    /// alignment of an entry, and the entries. Pairs with equal keys are kept.
    ///
    /// Tested only: `next` is called at most `len + 1` times, and not after it returned `None`.
    /// Memory for the pairs is allocated before the first call, memory for the table afterwards.
    ///
    /// # Errors
    ///
    /// - `InvalidLoadFactor`: the load factor isn't above 0 and at most 1.
    /// - `CapacityTooLarge`: the capacity is above `W::MAX_CAPACITY`.
    /// - `Memory`: `len` isn't 0, and memory for the pairs or for the table could not be allocated.
    /// - `IteratorLengthMismatch`: there aren't `len` pairs. They are counted up to `len + 1`.
    /// - The error of the first key, value or piece that fails.
    ///
    /// Nothing is written before one of the first four, unless it is a key's or value's own error.
    ///
    /// # Examples
    ///
    /// ```rust
    /// let resolver = ArchivedIndexMap::<i8, i8, FxHasher64, Narrow>::serialize_from_iter::<
    ///     VecWriter,
    ///     i8,
    ///     i8,
    ///     i8,
    ///     i8,
    ///     _,
    /// >(alloc, pairs.into_iter(), len, load_factor, &mut writer)?;
    /// ```
    pub fn serialize_from_iter<
        S: Writer,
        A: NativeKey<K> + Serialize<S, W, Archived = K>,
        B: Serialize<S, W, Archived = V>,
        BK: Lend<A> + Drop,
        BV: Lend<B> + Drop,
        I: Iterator<Item = (BK, BV)>,
    >(
        alloc: Global,
        iter: I,
        len: usize,
        load_factor: (usize, usize),
        serializer: &mut S,
    ) -> WriteResult<IndexMapResolver<W>, S>
    where
        K: Represents<A>,
        V: Represents<B>,
        requires ready { I.can_next iter }
        ensures { WritesInFormat W.Width ⟦<IndexMapOf<K, V, H, W> as ListFormat<(A, B)>>⟧.format
            (pairs_in BK.Lend BV.Lend I.Iterator iter len load_factor)
            (S.output serializer.old) (S.output serializer.new) result }
    {
        capacity(len, load_factor, W::MAX_CAPACITY)?;
        let Room {
            mut entries,
            mut scratch,
            resolvers,
        } = Room::new(alloc, len, Entry::<K, V>::size())?;
        match take_entries(iter, len, &mut entries) {
            Ok(()) => {}
            Err(actual) => {
                return Err(WriteError::IteratorLengthMismatch(IteratorLengthMismatch {
                    expected: len,
                    actual,
                }));
            }
        }
        write_index::<W, H, _, EntryAdapter<_, _, A, B>>(
            alloc,
            entries.as_slice(),
            resolvers,
            scratch.as_mut_slice(),
            load_factor,
            serializer,
        )
    }
}
