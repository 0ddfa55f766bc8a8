//! Lists that are archived as index maps and as index sets.
//!
//! `OrderedPairs` is a list of pairs, and `OrderedItems` a list of keys.

ghost use Rattle.rkyv_base.specs.{RepresentsAs, entry_spec, written_as};
ghost use Rattle.rkyv_base.specs.Lemmas.Pairs.{written_as-format};
ghost use Rattle.rkyv_scan.specs.{fx_hasher, low_halves};
ghost use Rattle.rkyv_keys.specs.{hash_at, hash_of};
ghost use Rattle.rkyv_index.specs.{IndexRepresents, IndexSetRepresents, index_format};
ghost use Rattle.rkyv_index.specs.{index_set_format, index_set_spec, index_spec};
ghost use Rattle.rkyv_index.specs.Lemmas.IndexLocal.{index_represents_local};
ghost use Rattle.rkyv_index.specs.Lemmas.IndexSound.{index_sound};
ghost use Rattle.rkyv_table.specs.{listed};
ghost use Rattle.rkyv_table.specs.Lemmas.Listed.{listed-format};
ghost use Rattle.rkyv_index.specs.Lemmas.SetSound.{index_set_local, index_set_sound};

use crate::map::write::resolve::IndexMapResolver;
use crate::map::{ArchivedIndexMap, IndexMapOf};
use crate::set::write::IndexSetResolver;
use crate::set::{ArchivedIndexSet, IndexSetOf};
use crate::width::IndexWidth;
use rkyv_base::{Archive, Represents, ResolveResult, Serialize, WriteResult, Writer};
use rkyv_keys::{KeyElement, NativeKey};
use rkyv_scan::FxHasher64;
use rkyv_table::table::list_inputs::{PairRefs, Refs};
use std::alloc::Global;

/// A list of pairs that is archived as an index map under `FxHasher64` and the load factor 7 / 8.
///
/// Pairs with equal keys are all kept, and a lookup finds the first of them.
///
/// # Examples
///
/// ```rust
/// // Archives names with prices, in this order.
/// fn write_prices(alloc: Global) -> Result<Vec<u8>, Fail> {
///     let list = OrderedPairs(vec![in alloc; ("tea", 3u32), ("coffee", 4), ("cake", 5)]?);
///     Ok(to_bytes(alloc, &list)?)
/// }
/// ```
#[derive(Debug, Drop, Eq, PartialEq)]
pub struct OrderedPairs<A, B>(pub Vec<(A, B)>);

impl<W: IndexWidth, A, B, K: KeyElement + Represents<A>, V: Represents<B>> Represents<
    OrderedPairs<A, B>,
> for IndexMapOf<K, V, FxHasher64, W> {
    ghost represents = { RepresentsAs (λ x. x.0.items)
        (IndexRepresents W.word K.spec V.spec K.represents V.represents
        (hash_at (fx_hasher low_halves) K.key_calls) (7, 8)) };

    ghost local = { λ x.
        index_represents_local (fx_hasher low_halves) W.word W.layout.kind K.laws V.laws
        (7, 8)
        K.key K.local V.local x.0.items };
}

impl<W: IndexWidth, A: Archive<W>, B: Archive<W>> Archive<W> for OrderedPairs<A, B>
where
    A::Archived: KeyElement,
    A: NativeKey<A::Archived>,
{
    type Archived = IndexMapOf<A::Archived, B::Archived, FxHasher64, W>;

    type Resolver = IndexMapResolver<W>;

    ghost format = { written_as (λ x. x.0.items) (listed W.MAX_CAPACITY (7, 8)
        (index_format W.word W.Index.spec W.Index.encoding A.Archived.spec B.Archived.spec
        A.format B.format
        (hash_of (fx_hasher low_halves) A.calls) (7, 8))) };

    fn resolve(&self, resolver: IndexMapResolver<W>, pos: u64, out: &mut [u8]) -> ResolveResult {
        resolver.resolve(pos, out)
    }

    ghost laws = { let represents = IndexRepresents W.word A.Archived.spec B.Archived.spec
        A.Archived.represents B.Archived.represents
        (hash_at (fx_hasher low_halves) A.Archived.key_calls) (7, 8) in
        let format = index_format W.word W.Index.spec W.Index.encoding A.Archived.spec
        B.Archived.spec A.format
        B.format
        (hash_of (fx_hasher low_halves) A.calls) (7, 8) in
        let spec = index_spec W.word (entry_spec A.Archived.spec B.Archived.spec) in
        written_as-format (λ x. x.0.items) spec represents (listed W.MAX_CAPACITY (7, 8) format)
        (listed-format W.MAX_CAPACITY (7, 8) spec represents format
        (index_sound (fx_hasher low_halves) W.word W.layout.kind W.Index.spec W.Index.encoding
        W.Index.HasSpec.laws W.Index.Scalar.laws W.index W.reads_back
        A.Archived.laws B.Archived.laws (7, 8) A.query A.native A.Eq.laws.refl A.Archive.laws
        B.laws)) };
}

impl<S: Writer, W: IndexWidth, A: Serialize<S, W>, B: Serialize<S, W>> Serialize<S, W>
    for OrderedPairs<A, B>
where
    A::Archived: KeyElement,
    A: NativeKey<A::Archived>,
{
    fn serialize(&self, alloc: Global, serializer: &mut S) -> WriteResult<IndexMapResolver<W>, S> {
        let pairs = PairRefs::of(self.0.as_slice());
        ArchivedIndexMap::<A::Archived, B::Archived, FxHasher64, W>::serialize_from_iter::<
            S,
            A,
            B,
            &A,
            &B,
            PairRefs<'_, A, B>,
        >(alloc, pairs, self.0.len(), (7, 8), serializer)
    }
}

/// A list of keys that is archived as an index set under `FxHasher64` and the load factor 7 / 8.
///
/// Equal keys are all kept, and a lookup finds the first of them.
#[derive(Debug, Drop, Eq, PartialEq)]
pub struct OrderedItems<A>(pub Vec<A>);

impl<W: IndexWidth, A, K: KeyElement + Represents<A>> Represents<OrderedItems<A>>
    for IndexSetOf<K, FxHasher64, W> {
    ghost represents = { RepresentsAs (λ x. x.0.items)
        (IndexSetRepresents W.word K.spec K.represents
        (hash_at (fx_hasher low_halves) K.key_calls) (7, 8)) };

    ghost local = { λ x.
        index_set_local (fx_hasher low_halves) W.word W.layout.kind K.laws (7, 8)
        K.key K.local x.0.items };
}

impl<W: IndexWidth, A: Archive<W>> Archive<W> for OrderedItems<A>
where
    A::Archived: KeyElement,
    A: NativeKey<A::Archived>,
{
    type Archived = IndexSetOf<A::Archived, FxHasher64, W>;

    type Resolver = IndexSetResolver<W>;

    ghost format = { written_as (λ x. x.0.items) (listed W.MAX_CAPACITY (7, 8)
        (index_set_format W.word W.Index.spec W.Index.encoding A.Archived.spec A.format
        (hash_of (fx_hasher low_halves) A.calls) (7, 8))) };

    fn resolve(&self, resolver: IndexSetResolver<W>, pos: u64, out: &mut [u8]) -> ResolveResult {
        resolver.resolve(pos, out)
    }

    ghost laws = { let represents = IndexSetRepresents W.word A.Archived.spec A.Archived.represents
        (hash_at (fx_hasher low_halves) A.Archived.key_calls) (7, 8) in
        let format = index_set_format W.word W.Index.spec W.Index.encoding A.Archived.spec
        A.format
        (hash_of (fx_hasher low_halves) A.calls) (7, 8) in
        let spec = index_set_spec W.word A.Archived.spec in
        written_as-format (λ x. x.0.items) spec represents (listed W.MAX_CAPACITY (7, 8) format)
        (listed-format W.MAX_CAPACITY (7, 8) spec represents format
        (index_set_sound (fx_hasher low_halves) W.word W.layout.kind A.Archived.laws
        (7, 8) W.Index.spec W.Index.encoding W.Index.HasSpec.laws W.Index.Scalar.laws W.index
        W.reads_back
        A.query A.native A.Eq.laws.refl A.Archive.laws)) };
}

impl<S: Writer, W: IndexWidth, A: Serialize<S, W>> Serialize<S, W> for OrderedItems<A>
where
    A::Archived: KeyElement,
    A: NativeKey<A::Archived>,
{
    fn serialize(&self, alloc: Global, serializer: &mut S) -> WriteResult<IndexSetResolver<W>, S> {
        let keys = Refs::of(self.0.as_slice());
        ArchivedIndexSet::<A::Archived, FxHasher64, W>::serialize_from_iter::<
            S,
            A,
            &A,
            Refs<'_, A>,
        >(alloc, keys, self.0.len(), (7, 8), serializer)
    }
}
