//! Values of std maps that are std maps or sets, or that have such parts.
//!
//! By `Represents`, an archived map has the pairs of a std map. Only a written map also has them
//! where lookups find them. The laws of this module keep this fact of inner maps: they are about
//! values under any `WrittenRelation`. `EntriesRelation` is the relation of written std maps.

ghost use Rattle.std.specs.Prelude.{List, ℕ};
ghost use Rattle.rkyv_base.specs.{IsFormat, PairRepresents, SameValues};
ghost use Rattle.rkyv_base.specs.Lemmas.Empty.{unit_element, unit_is_format};
ghost use Rattle.rkyv_base.specs.Lemmas.Pairs.{pair_is_format};
ghost use Rattle.rkyv_keys.specs.{archived_hash, found_views, native_keys, native_pairs};
ghost use Rattle.rkyv_keys.specs.{queries_of};
ghost use Rattle.rkyv_table.specs.{with_units};
ghost use Rattle.rkyv_collections.specs.{FindsInWrittenMap, FoundAreListed, IsListOfKeys};
ghost use Rattle.rkyv_collections.specs.{IsListOfRelated, LookupsFindListed, WalksVisitEach};
ghost use Rattle.rkyv_collections.specs.{WalksVisitPairs, WrittenMapsAreLists};
ghost use Rattle.rkyv_collections.specs.{WrittenMapsListEntries, WrittenRootsAre, inner_entries};
ghost use Rattle.rkyv_collections.specs.{inner_keys, with_relation};
ghost use Rattle.rkyv_collections.specs.Lemmas.StdLists.{entries_listed};

use crate::std_maps::hashed::Hashed;
use rkyv_base::{Archive, Represents, Width};
use rkyv_keys::{KeyElement, NativeKey, NativeQuery, Query};
use rkyv_scan::KeyHasher;
use std::collections::{HashMap, HashSet};
use std::hash::{BuildHasher, Hash};
use std::marker::PhantomData;

/// A relation between bytes and values of the type `B`, in archives of the width `W`.
pub trait WrittenRelation<W: Width, B: Archive<W>> {
    // The bytes at a position are related to a value.
    ghost related: { List ℕ → ℕ → B → Type 0 };

    // In each archive that has the bytes of a written value, these are related to it.
    ghost written: { IsFormat B.Archived.spec related B.format };
}

/// The relation by which archived values represent native values.
pub struct ValueRelation {}

impl<W: Width, B: Archive<W>> WrittenRelation<W, B> for ValueRelation {
    ghost related = { B.Archived.represents };

    ghost written = { B.laws };
}

/// The relation of maps that represent the entries of a std map, each value by the relation `R`.
///
/// For a std std map maps, it is `EntriesRelation<EntriesRelation<ValueRelation>>`.
pub struct EntriesRelation<R> {
    values: PhantomData<R>,
}

impl<
    W: Width,
    H: KeyHasher,
    A: Archive<W> + Hash,
    B: Archive<W>,
    T: BuildHasher,
    R: WrittenRelation<W, B>,
> WrittenRelation<W, Hashed<HashMap<A, B, T>, H>> for EntriesRelation<R>
where
    A::Archived: KeyElement,
    A: NativeKey<A::Archived>,
{
    ghost related = { IsListOfRelated W.word A.Archived.Represents B.Archived.Represents R.related
        (archived_hash H.KeyHasher A.Archived.KeyElement) };

    ghost written = { entries_listed H.hasher W.word W.layout.kind W.MAX_CAPACITY A.Archived.laws
        B.Archived.laws A.query A.native A.Eq.laws.refl A.Archive.laws R.written
        inner_entries };
}

/// The relation of sets that represent the list of the keys of a std set.
pub struct KeysRelation {}

impl<W: Width, H: KeyHasher, A: Archive<W> + Hash, T: BuildHasher> WrittenRelation<
    W,
    Hashed<HashSet<A, T>, H>,
> for KeysRelation
where
    A::Archived: KeyElement,
    A: NativeKey<A::Archived>,
{
    ghost related = { IsListOfKeys W.word A.Archived.Represents
        (archived_hash H.KeyHasher A.Archived.KeyElement) };

    ghost written = { entries_listed H.hasher W.word W.layout.kind W.MAX_CAPACITY A.Archived.laws
        unit_element A.query A.native A.Eq.laws.refl A.Archive.laws unit_is_format
        (λ x. with_units (inner_keys x)) };
}

/// The relation of entries to pairs, whose parts have the relations `R` and `S`.
///
/// For a std map to pairs of an integer and a std map, it is
/// `EntriesRelation<PairRelation<ValueRelation, EntriesRelation<ValueRelation>>>`.
pub struct PairRelation<R, S> {
    parts: PhantomData<(R, S)>,
}

impl<
    W: Width,
    A: Archive<W>,
    B: Archive<W>,
    R: WrittenRelation<W, A>,
    S: WrittenRelation<W, B>,
> WrittenRelation<W, (A, B)> for PairRelation<R, S> {
    ghost related = { PairRepresents A.Archived.spec B.Archived.spec R.related S.related };

    ghost written = { pair_is_format A.Archived.spec B.Archived.spec A.Archived.laws
        B.Archived.laws R.related S.related A.format B.format R.written S.written };
}

/// States that the written bytes of a value have the relation `R` to it.
pub fn written_values_are_related<W: Width, B: Archive<W>, R: WrittenRelation<W, B>>()
    ensures root { WrittenRootsAre B.Archived.spec R.related B.format }
    ensures written { IsFormat B.Archived.spec R.related B.format }
{}

/// States that a lookup in an archive of a std map finds a value with the relation `R`.
pub fn nested_maps_are_looked_up<
    Q: Query<A::Archived>,
    W: Width,
    H: KeyHasher,
    A: Archive<W> + Hash,
    B: Archive<W>,
    T: BuildHasher,
    R: WrittenRelation<W, B>,
>()
where
    A::Archived: KeyElement,
    A: NativeKey<A::Archived>,
    ensures { FindsInWrittenMap W.word A.Archived.Represents
        (with_relation B.Archived.Represents R.related) (queries_of H.KeyHasher Q.Query)
        ⟦<Hashed<HashMap<A, B, T>, H> as Archive<W>>⟧.format }
{}

/// States that a written std map represents the list of its entries, each value by `R`.
pub fn nested_maps_are_lists<
    W: Width,
    H: KeyHasher,
    A: Archive<W> + Hash,
    B: Archive<W>,
    T: BuildHasher,
    R: WrittenRelation<W, B>,
>()
where
    A::Archived: KeyElement,
    A: NativeKey<A::Archived>,
    ensures root { WrittenMapsAreLists W.word A.Archived.Represents
        (with_relation B.Archived.Represents R.related)
        (archived_hash H.KeyHasher A.Archived.KeyElement)
        ⟦<Hashed<HashMap<A, B, T>, H> as Archive<W>>⟧.format }
    ensures written { WrittenMapsListEntries W.word A.Archived.Represents B.Archived.Represents
        R.related (archived_hash H.KeyHasher A.Archived.KeyElement)
        ⟦<Hashed<HashMap<A, B, T>, H> as Archive<W>>⟧.format }
{
    written_values_are_related::<W, Hashed<HashMap<A, B, T>, H>, EntriesRelation<R>>();
}

/// States that a lookup finds the first pair of the represented list, whose value has relation `R`.
///
/// - `maps`: any map that represents a list with values by `R`, as in `map::laws`.
/// - `root`: `get` in a root map, as in `map::laws::list_archives`.
pub fn nested_lookups_find_listed<
    Q: NativeQuery<A, A::Archived>,
    W: Width,
    H: KeyHasher,
    A: Archive<W>,
    B: Archive<W>,
    R: WrittenRelation<W, B>,
>()
where
    A::Archived: KeyElement,
    ensures maps { LookupsFindListed H W.Word A.Archived.HasSpec B.Archived.HasSpec
        (native_pairs A.Archived.represents R.related H.hasher A.Archived.key_calls) }
    ensures root { FoundAreListed H W.Word A.Archived.HasSpec B.Archived.HasSpec
        (native_keys A.Archived.represents (archived_hash H.KeyHasher A.Archived.KeyElement) Q.fits
        Q.equals)
        (found_views R.related) }
{}

/// States that iterators return each pair of the represented list once, with a value by `R`.
pub fn nested_walks_visit_each<
    W: Width,
    H: KeyHasher,
    A: Archive<W>,
    B: Archive<W>,
    R: WrittenRelation<W, B>,
>()
where
    A::Archived: KeyElement,
    ensures homes { WalksVisitPairs W.word A.Archived.spec B.Archived.spec A.Archived.represents
        R.related (archived_hash H.KeyHasher A.Archived.KeyElement) }
    ensures pairs { WalksVisitEach W.word A.Archived.spec B.Archived.spec A.Archived.represents
        R.related (archived_hash H.KeyHasher A.Archived.KeyElement) }
{}

/// States the definitions of the relations of values, of std maps, of std sets and of pairs.
pub fn written_relations_are_defined<W: Width, H: KeyHasher, K, V, A, B, T: BuildHasher, R, S>()
where
    K: KeyElement + Represents<A>,
    V: Represents<B>,
    A: NativeKey<K> + Archive<W, Archived = K> + Hash,
    B: Archive<W, Archived = V>,
    R: WrittenRelation<W, B>,
    S: WrittenRelation<W, A>,
    ensures values { SameValues ⟦<ValueRelation as WrittenRelation<W, B>>⟧.related V.represents }
    ensures maps { SameValues
        ⟦<EntriesRelation<R> as WrittenRelation<W, Hashed<HashMap<A, B, T>, H>>>⟧.related
        (IsListOfRelated W.word K.Represents V.Represents R.related
        (archived_hash H.KeyHasher K.KeyElement)) }
    ensures sets { SameValues
        ⟦<KeysRelation as WrittenRelation<W, Hashed<HashSet<A, T>, H>>>⟧.related
        (IsListOfKeys W.word K.Represents (archived_hash H.KeyHasher K.KeyElement)) }
    ensures pairs { SameValues ⟦<PairRelation<S, R> as WrittenRelation<W, (A, B)>>⟧.related
        (PairRepresents K.spec V.spec S.related R.related) }
{}
