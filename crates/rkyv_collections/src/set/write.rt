//! Writing sets from iterators of keys.
//!
//! `serialize_from_iter` writes the keys and returns a resolver. Its `resolve` then writes
//! the header.

ghost use Rattle.std.specs.Prelude.{◌≡◌, length};
ghost use Rattle.rkyv_table.specs.{keys_in, resolver_of};
ghost use Rattle.rkyv_keys.specs.{native_key_format};
ghost use Rattle.rkyv_collections.specs.{ResolvesMap, WritesSet};

use crate::map::ArchivedHashMap;
use crate::map::write::HashMapResolver;
use crate::set::ArchivedHashSet;
use rkyv_base::{Lend, Narrow, Represents, ResolveResult, Serialize, Width, WriteResult, Writer};
use rkyv_keys::{KeyElement, NativeKey};
use rkyv_scan::KeyHasher;
use rkyv_table::table::list_inputs::WithUnits;
use std::alloc::Global;

/// The resolver of a written set, which is the resolver of the map of its keys.
pub type HashSetResolver<W = Narrow> = HashMapResolver<W>;

impl<'a, K: KeyElement, H: KeyHasher, W: Width> ArchivedHashSet<'a, K, H, W> {
    /// Writes a set of `len` keys, under a load factor, and returns its resolver.
    ///
    /// The keys are themselves or references. Equal keys are kept, and a lookup finds the first.
    /// Errors and limits are the same as in a map's `serialize_from_iter`.
    pub fn serialize_from_iter<
        S: Writer,
        A: NativeKey<K> + Serialize<S, W, Archived = K>,
        BK: Lend<A> + Drop,
        I: Iterator<Item = BK>,
    >(
        alloc: Global,
        iter: I,
        len: usize,
        load_factor: (usize, usize),
        serializer: &mut S,
    ) -> WriteResult<HashSetResolver<W>, S>
    where
        K: Represents<A>,
        requires ready { I.can_next iter }
        ensures { WritesSet W.Width (native_key_format K.spec A.format H.hasher A.calls)
            (keys_in BK.Lend I.Iterator iter len load_factor)
            (S.output serializer.old) (S.output serializer.new) result }
    {
        ArchivedHashMap::<K, (), H, W>::serialize_from_iter::<_, A, (), _, _, _>(
            alloc,
            WithUnits { keys: iter },
            len,
            load_factor,
            serializer,
        )
    }

    /// Writes the header of a written set at `pos` over the whole of `out`.
    ///
    /// Requires the `len` and `load_factor` of the resolver. Fails with `DistanceTooLarge`
    /// if the set isn't empty and the distance doesn't fit in the width.
    pub fn resolve_from_len(
        len: usize,
        load_factor: (usize, usize),
        resolver: HashSetResolver<W>,
        pos: u64,
        out: &mut [u8],
    ) -> ResolveResult
        requires same { (len ≡ resolver.len) × (load_factor ≡ resolver.load_factor) }
        requires room { length out.old ≡ W.TABLE_SIZE }
        ensures { ResolvesMap W.word (resolver_of len load_factor resolver.pos) pos
            out.old out.new result }
    {
        ArchivedHashMap::<K, (), H, W>::resolve_from_len(len, load_factor, resolver, pos, out)
    }
}
