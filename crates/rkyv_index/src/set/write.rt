//! Writing index sets from iterators of keys.
//!
//! `serialize_from_iter` writes the keys and returns a resolver. Its `resolve` then writes
//! the header.

ghost use Rattle.std.specs.Prelude.{◌≡◌, ◌+◌, ◌<◌, ◌^◌, length};
ghost use Rattle.rkyv_keys.specs.{native_key_format};
ghost use Rattle.rkyv_table.specs.{WritesInFormat, keys_in};
ghost use Rattle.rkyv_index.specs.{WritesIndexHeader, index_keys_format, indices};

use crate::map::ArchivedIndexMap;
use crate::map::write::resolve::IndexMapResolver;
use crate::map::write::serialize::ListFormat;
use crate::set::{ArchivedIndexSet, IndexSetOf};
use crate::width::IndexWidth;
use rkyv_base::{
    Archive, Element, Lend, Narrow, Represents, ResolveResult, Serialize, WriteResult, Writer,
};
use rkyv_keys::{KeyElement, KeyHash, NativeKey};
use rkyv_scan::KeyHasher;
use rkyv_table::table::list_inputs::WithUnits;
use std::alloc::Global;

/// The resolver of a written index set: the resolver of the index map of its keys.
pub type IndexSetResolver<W = Narrow> = IndexMapResolver<W>;

impl<K: Element, H: KeyHasher, W: IndexWidth, A: KeyHash + Archive<W>> ListFormat<A>
    for IndexSetOf<K, H, W> {
    ghost format = { index_keys_format W.word (indices W.Index.spec W.Index.encoding)
        (native_key_format K.spec A.format H.hasher A.calls) };
}

impl<'a, K: KeyElement, H: KeyHasher, W: IndexWidth> ArchivedIndexSet<'a, K, H, W> {
    /// Writes an index set of `len` keys or references, and returns its resolver.
    ///
    /// The bytes are an index map's, of the keys to the unit value. The errors, and the order of
    /// allocations and of calls of the iterator, are as in `serialize_from_iter` of index maps.
    pub fn serialize_from_iter<
        S: Writer,
        A: NativeKey<K> + Serialize<S, W, Archived = K>,
        BK: Lend<A> + Drop,
        I: Iterator<Item = BK>,
    >(
        alloc: Global,
        iter: I,
        len: usize,
        load_factor: (usize, usize),
        serializer: &mut S,
    ) -> WriteResult<IndexSetResolver<W>, S>
    where
        K: Represents<A>,
        requires ready { I.can_next iter }
        ensures { WritesInFormat W.Width ⟦<IndexSetOf<K, H, W> as ListFormat<A>>⟧.format
            (keys_in BK.Lend I.Iterator iter len load_factor)
            (S.output serializer.old) (S.output serializer.new) result }
    {
        ArchivedIndexMap::<K, (), H, W>::serialize_from_iter::<_, A, (), _, _, _>(
            alloc,
            WithUnits { keys: iter },
            len,
            load_factor,
            serializer,
        )
    }

    /// Writes the header as `IndexMapResolver::resolve` does, with rkyv's signature.
    ///
    /// `len` and `load_factor` must be the resolver's.
    pub fn resolve_from_len(
        len: usize,
        load_factor: (usize, usize),
        resolver: IndexSetResolver<W>,
        pos: u64,
        out: &mut [u8],
    ) -> ResolveResult
        requires same { (len ≡ resolver.table.len) × (load_factor ≡ resolver.table.load_factor) }
        requires room { length out.old ≡ W.INDEX_SIZE }
        requires fits { pos + W.INDEX_SIZE < 2 ^ 64 }
        ensures { WritesIndexHeader W.word resolver pos out.old out.new result }
    {
        ArchivedIndexMap::<K, (), H, W>::resolve_from_len(len, load_factor, resolver, pos, out)
    }
}
