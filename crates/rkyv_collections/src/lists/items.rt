//! Lists of items that are archived as sets.

ghost use Rattle.std.specs.Prelude.{◌≡◌};
ghost use Rattle.rkyv_keys.specs.{archived_hash, hash_at, hash_of, native_hash};
ghost use Rattle.rkyv_table.specs.{listed, written_as_each};
ghost use Rattle.rkyv_table.specs.Lemmas.Listed.{listed-format, written_as_each-format};
ghost use Rattle.rkyv_collections.specs.{SetRepresents, items_load_factor, listed_items};
ghost use Rattle.rkyv_collections.specs.{set_format, set_spec};
ghost use Rattle.rkyv_collections.specs.Lemmas.SetSound.{set_local, set_sound};

use crate::set::write::HashSetResolver;
use crate::set::{ArchivedHashSet, HashSetOf};
use rkyv_base::{Archive, Represents, ResolveResult, Serialize, Width, WriteResult, Writer};
use rkyv_keys::{KeyElement, NativeKey};
use rkyv_scan::{FxHasher64, KeyHasher};
use rkyv_table::table::list_inputs::Refs;
use std::alloc::Global;
use std::marker::PhantomData;

/// A list of items that is archived as a set under the hasher `H` and a load factor.
///
/// Equal items are kept, and a lookup finds the first of them in the order of the slice.
#[derive_where(Clone, Copy)]
#[derive_where(Debug, Eq, PartialEq; A)]
pub struct SetItems<'a, A, H = FxHasher64> {
    items: &'a [A],
    load_factor: (usize, usize),
    #[derive_where(skip)]
    hasher: PhantomData<H>,
}

impl<'a, A> SetItems<'a, A> {
    /// Returns the list under `FxHasher64` and the load factor 7 / 8.
    #[inline]
    pub fn new(items: &'a [A]) -> SetItems<'a, A>
        ensures items { listed_items result ≡ items.now }
        ensures load_factor { items_load_factor result ≡ (7, 8) }
    {
        SetItems::with_load_factor(items, (7, 8))
    }
}

impl<'a, A, H> SetItems<'a, A, H> {
    /// Returns the list under a load factor, numerator first.
    ///
    /// Archiving fails with `InvalidLoadFactor` unless the load factor is above 0 and at most 1.
    #[inline]
    pub fn with_load_factor(items: &'a [A], load_factor: (usize, usize)) -> SetItems<'a, A, H>
        ensures items { listed_items result ≡ items.now }
        ensures load_factor { items_load_factor result ≡ load_factor }
    {
        SetItems {
            items,
            load_factor,
            hasher: PhantomData,
        }
    }
}

impl<'a, W: Width, H: KeyHasher, A, K: KeyElement + Represents<A>> Represents<SetItems<'a, A, H>>
    for HashSetOf<K, H, W> {
    ghost represents = { λ b p x. SetRepresents W.word K.spec K.represents
        (archived_hash H.KeyHasher K.KeyElement)
        (items_load_factor x) b p (listed_items x) };

    ghost local = { λ x. set_local H.hasher W.word K.laws (items_load_factor x) K.key K.local
        (listed_items x) };
}

impl<'a, W: Width, H: KeyHasher, A: Archive<W>> Archive<W> for SetItems<'a, A, H>
where
    A::Archived: KeyElement,
    A: NativeKey<A::Archived>,
{
    type Archived = HashSetOf<A::Archived, H, W>;

    type Resolver = HashSetResolver<W>;

    ghost format = { written_as_each listed_items (λ x. listed W.MAX_CAPACITY (items_load_factor x)
        (set_format W.word A.Archived.spec A.format (native_hash H.KeyHasher A.KeyHash)
        (items_load_factor x))) };

    fn resolve(&self, resolver: HashSetResolver<W>, pos: u64, out: &mut [u8]) -> ResolveResult {
        resolver.resolve(pos, out)
    }

    ghost laws = { let hash = hash_at H.hasher A.Archived.key_calls in
        let own = hash_of H.hasher A.calls in
        written_as_each-format listed_items (set_spec W.word A.Archived.spec)
        (λ x. SetRepresents W.word A.Archived.spec A.Archived.represents hash (items_load_factor x))
        (λ x. listed W.MAX_CAPACITY (items_load_factor x)
        (set_format W.word A.Archived.spec A.format own (items_load_factor x)))
        (λ x. listed-format W.MAX_CAPACITY (items_load_factor x) (set_spec W.word A.Archived.spec)
        (SetRepresents W.word A.Archived.spec A.Archived.represents hash (items_load_factor x))
        (set_format W.word A.Archived.spec A.format own (items_load_factor x))
        (set_sound H.hasher W.word A.Archived.laws (items_load_factor x) W.layout.kind
        A.query A.native A.Eq.laws.refl A.Archive.laws)) };
}

impl<'a, S: Writer, W: Width, H: KeyHasher, A: Serialize<S, W>> Serialize<S, W>
    for SetItems<'a, A, H>
where
    A::Archived: KeyElement,
    A: NativeKey<A::Archived>,
{
    fn serialize(&self, alloc: Global, serializer: &mut S) -> WriteResult<HashSetResolver<W>, S> {
        let items = Refs::of(self.items);
        ArchivedHashSet::<A::Archived, H, W>::serialize_from_iter::<_, A, _, _>(
            alloc,
            items,
            self.items.len(),
            self.load_factor,
            serializer,
        )
    }
}
