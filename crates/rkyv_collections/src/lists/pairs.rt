//! Lists of pairs that are archived as maps.

ghost use Rattle.std.specs.Prelude.{◌≡◌};
ghost use Rattle.rkyv_keys.specs.{archived_hash, hash_at, hash_of, native_hash};
ghost use Rattle.rkyv_table.specs.{listed, written_as_each};
ghost use Rattle.rkyv_table.specs.Lemmas.Listed.{written_as_each-format};
ghost use Rattle.rkyv_collections.specs.{MapRepresents, listed_pairs, map_format, map_spec};
ghost use Rattle.rkyv_collections.specs.{pairs_load_factor};
ghost use Rattle.rkyv_collections.specs.Lemmas.MapSound.{listed_map_sound, map_local};

use crate::map::write::HashMapResolver;
use crate::map::{ArchivedHashMap, HashMapOf};
use rkyv_base::{Archive, Represents, ResolveResult, Serialize, Width, WriteResult, Writer};
use rkyv_keys::{KeyElement, NativeKey};
use rkyv_scan::{FxHasher64, KeyHasher};
use rkyv_table::table::list_inputs::PairRefs;
use std::alloc::Global;
use std::marker::PhantomData;

/// A list of pairs that is archived as a map under the hasher `H` and a load factor.
///
/// Pairs with equal keys are kept, and a lookup finds the first of them in the order of the slice.
///
/// # Examples
///
/// ```rust
/// let list: MapPairs<'_, &str, u32> = MapPairs::new(&[("tea", 3), ("coffee", 4), ("cake", 5)]);
/// to_bytes(alloc, &list)
/// ```
#[derive_where(Clone, Copy)]
#[derive_where(Debug, Eq, PartialEq; A, B)]
pub struct MapPairs<'a, A, B, H = FxHasher64> {
    pairs: &'a [(A, B)],
    load_factor: (usize, usize),
    #[derive_where(skip)]
    hasher: PhantomData<H>,
}

impl<'a, A, B> MapPairs<'a, A, B> {
    /// Returns the list under `FxHasher64` and the load factor 7 / 8.
    #[inline]
    pub fn new(pairs: &'a [(A, B)]) -> MapPairs<'a, A, B>
        ensures pairs { listed_pairs result ≡ pairs.now }
        ensures load_factor { pairs_load_factor result ≡ (7, 8) }
    {
        MapPairs::with_load_factor(pairs, (7, 8))
    }
}

impl<'a, A, B, H> MapPairs<'a, A, B, H> {
    /// Returns the list under a load factor, numerator first.
    ///
    /// Archiving fails with `InvalidLoadFactor` unless the load factor is above 0 and at most 1.
    #[inline]
    pub fn with_load_factor(
        pairs: &'a [(A, B)],
        load_factor: (usize, usize),
    ) -> MapPairs<'a, A, B, H>
        ensures pairs { listed_pairs result ≡ pairs.now }
        ensures load_factor { pairs_load_factor result ≡ load_factor }
    {
        MapPairs {
            pairs,
            load_factor,
            hasher: PhantomData,
        }
    }
}

impl<'a, W: Width, H: KeyHasher, A, B, K: KeyElement + Represents<A>, V: Represents<B>> Represents<
    MapPairs<'a, A, B, H>,
> for HashMapOf<K, V, H, W> {
    ghost represents = { λ b p x. MapRepresents W.word K.spec V.spec K.represents V.represents
        (archived_hash H.KeyHasher K.KeyElement) (pairs_load_factor x) b p (listed_pairs x) };

    ghost local = { λ x. map_local H.hasher W.word K.laws V.laws (pairs_load_factor x) K.key K.local
        V.local (listed_pairs x) };
}

impl<'a, W: Width, H: KeyHasher, A: Archive<W>, B: Archive<W>> Archive<W> for MapPairs<'a, A, B, H>
where
    A::Archived: KeyElement,
    A: NativeKey<A::Archived>,
{
    type Archived = HashMapOf<A::Archived, B::Archived, H, W>;

    type Resolver = HashMapResolver<W>;

    ghost format = { written_as_each listed_pairs (λ x. listed W.MAX_CAPACITY (pairs_load_factor x)
        (map_format W.word A.Archived.spec B.Archived.spec A.format B.format
        (native_hash H.KeyHasher A.KeyHash) (pairs_load_factor x))) };

    fn resolve(&self, resolver: HashMapResolver<W>, pos: u64, out: &mut [u8]) -> ResolveResult {
        resolver.resolve(pos, out)
    }

    ghost laws = { let hash = hash_at H.hasher A.Archived.key_calls in
        let own = hash_of H.hasher A.calls in
        written_as_each-format listed_pairs (map_spec W.word A.Archived.spec B.Archived.spec)
        (λ x. MapRepresents W.word A.Archived.spec B.Archived.spec A.Archived.represents
        B.Archived.represents
        hash (pairs_load_factor x))
        (λ x. listed W.MAX_CAPACITY (pairs_load_factor x)
        (map_format W.word A.Archived.spec B.Archived.spec A.format B.format own
        (pairs_load_factor x)))
        (λ x. listed_map_sound H.hasher W.word A.Archived.laws B.Archived.laws (pairs_load_factor x)
        W.MAX_CAPACITY W.layout.kind
        A.query A.native A.Eq.laws.refl A.Archive.laws B.laws) };
}

impl<'a, S: Writer, W: Width, H: KeyHasher, A: Serialize<S, W>, B: Serialize<S, W>> Serialize<S, W>
    for MapPairs<'a, A, B, H>
where
    A::Archived: KeyElement,
    A: NativeKey<A::Archived>,
{
    fn serialize(&self, alloc: Global, serializer: &mut S) -> WriteResult<HashMapResolver<W>, S> {
        let pairs = PairRefs::of(self.pairs);
        ArchivedHashMap::<A::Archived, B::Archived, H, W>::serialize_from_iter::<
            S,
            A,
            B,
            &A,
            &B,
            PairRefs<'_, A, B>,
        >(alloc, pairs, self.pairs.len(), self.load_factor, serializer)
    }
}
