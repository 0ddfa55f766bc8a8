//! Laws of archives of std maps and sets, over only their definitions.
//!
//! They are about the written bytes, lookups in these archives, comparisons, and values that are
//! read back.

ghost use Rattle.std.specs.Prelude.{◌≡◌, ◌↔◌};
ghost use Rattle.rkyv_base.specs.{IsFormat, RepresentsAs, SameFormat, SameValues, unit_format};
ghost use Rattle.rkyv_base.specs.{unit_spec, written_as};
ghost use Rattle.rkyv_keys.specs.{SameErrors, archived_hash, native_format, native_hash};
ghost use Rattle.rkyv_keys.specs.{queries_of};
ghost use Rattle.rkyv_table.specs.{with_units};
ghost use Rattle.rkyv_collections.specs.{ArchivesRoundTrip, FindsInWrittenMap, FindsInWrittenSet};
ghost use Rattle.rkyv_collections.specs.{StdMapEquals, StdMapEqualsIn, StdMapRepresents};
ghost use Rattle.rkyv_collections.specs.{StdSetEquals, StdSetEqualsIn, StdSetRepresents};
ghost use Rattle.rkyv_collections.specs.{WrittenMapsAreEqual, WrittenMapsAreLists};
ghost use Rattle.rkyv_collections.specs.{WrittenSetsAreEqual, WrittenSetsAreLists, inner};
ghost use Rattle.rkyv_collections.specs.{inner_entries, inner_keys, referent, std_map_fails};
ghost use Rattle.rkyv_collections.specs.{std_map_format, std_set_fails};

use crate::map::{ArchivedHashMap, HashMapOf};
use crate::set::{ArchivedHashSet, HashSetOf};
use crate::std_maps::equality::EqArchived;
use crate::std_maps::hashed::Hashed;
use crate::std_maps::nested::{
    KeysRelation, ValueRelation, nested_maps_are_lists, nested_maps_are_looked_up,
    written_values_are_related,
};
use rkyv_base::{Archive, Represents, Width};
use rkyv_keys::{
    Deserialize, EqualsWritten, KeyElement, MatchesNative, NativeKey, Query, RepresentsUniquely,
};
use rkyv_scan::{FxHasher64, KeyHasher};
use std::collections::{HashMap, HashSet};
use std::hash::{BuildHasher, Hash};

/// States that a lookup in any archive of a std map agrees with that map, for any query.
///
/// The comparison must depend only on the represented keys. For a native key it is equality.
pub fn written_maps_are_looked_up<
    Q: Query<A::Archived>,
    W: Width,
    H: KeyHasher,
    A: Archive<W> + Hash,
    B: Archive<W>,
    T: BuildHasher,
>()
where
    A::Archived: KeyElement,
    A: NativeKey<A::Archived>,
    ensures { let format = ⟦<Hashed<HashMap<A, B, T>, H> as Archive<W>>⟧.format in
        FindsInWrittenMap W.word A.Archived.Represents B.Archived.Represents
        (queries_of H.KeyHasher Q.Query) format }
{
    nested_maps_are_looked_up::<Q, W, H, A, B, T, ValueRelation>();
}

/// States that a lookup in any archive of a std set agrees with that set, for any query.
///
/// The comparison must depend only on the represented keys. For a native key it is equality.
pub fn written_sets_are_looked_up<
    Q: Query<A::Archived>,
    W: Width,
    H: KeyHasher,
    A: Archive<W> + Hash,
    T: BuildHasher,
>()
where
    A::Archived: KeyElement,
    A: NativeKey<A::Archived>,
    ensures { let format = ⟦<Hashed<HashSet<A, T>, H> as Archive<W>>⟧.format in
        FindsInWrittenSet W.word A.Archived.Represents (queries_of H.KeyHasher Q.Query)
        format }
{}

/// States that a map represents the std map of its pairs, inserted in bucket order.
pub fn std_maps_are_represented<'a, K, V, A, B, T: BuildHasher, H, W: Width>()
where
    K: Represents<A>,
    V: Represents<B>,
    A: Eq + Hash + 'a,
    B: 'a,
    T: 'a,
    ensures maps { SameValues ⟦<HashMapOf<K, V, H, W> as Represents<HashMap<A, B, T>>>⟧.represents
        (StdMapRepresents K.spec V.spec K.represents V.represents W.word A.eq) }
    ensures hashed { let m = ⟦<HashMapOf<K, V, H, W> as Represents<Hashed<HashMap<A, B, T>, H>>>⟧ in
        SameValues m.represents (RepresentsAs inner
        (StdMapRepresents K.spec V.spec K.represents V.represents W.word A.eq)) }
    ensures references { SameValues
        ⟦<HashMapOf<K, V, H, W> as Represents<Hashed<&'a HashMap<A, B, T>, H>>>⟧.represents
        (RepresentsAs referent
        ⟦<HashMapOf<K, V, H, W> as Represents<Hashed<HashMap<A, B, T>, H>>>⟧.represents) }
    ensures default_hasher { SameValues
        ⟦<HashMapOf<K, V> as Represents<Hashed<HashMap<A, B, T>>>>⟧.represents
        ⟦<HashMapOf<K, V> as Represents<Hashed<HashMap<A, B, T>, FxHasher64>>>⟧.represents }
{}

/// States that a set represents the std set of its keys, inserted in bucket order.
pub fn std_sets_are_represented<'a, K, A, T: BuildHasher, H, W: Width>()
where
    K: Represents<A>,
    A: Eq + Hash + 'a,
    T: 'a,
    ensures sets { SameValues ⟦<HashSetOf<K, H, W> as Represents<HashSet<A, T>>>⟧.represents
        (StdSetRepresents K.spec K.represents W.word A.eq) }
    ensures hashed { let s = ⟦<HashSetOf<K, H, W> as Represents<Hashed<HashSet<A, T>, H>>>⟧ in
        SameValues s.represents (RepresentsAs inner
        (StdSetRepresents K.spec K.represents W.word A.eq)) }
    ensures references { SameValues
        ⟦<HashSetOf<K, H, W> as Represents<Hashed<&'a HashSet<A, T>, H>>>⟧.represents
        (RepresentsAs referent
        ⟦<HashSetOf<K, H, W> as Represents<Hashed<HashSet<A, T>, H>>>⟧.represents) }
    ensures default_hasher { SameValues
        ⟦<HashSetOf<K> as Represents<Hashed<HashSet<A, T>>>>⟧.represents
        ⟦<HashSetOf<K> as Represents<Hashed<HashSet<A, T>, FxHasher64>>>⟧.represents }
{}

/// States that an archived map is compared with a std map by their lengths and by lookups.
pub fn std_maps_are_compared<K, V, H, W: Width, A, B, T: BuildHasher>()
where
    K: KeyElement + Represents<A>,
    V: MatchesNative<B>,
    H: KeyHasher,
    A: NativeKey<K> + Hash,
    ensures maps { SameValues ⟦<HashMapOf<K, V, H, W> as MatchesNative<HashMap<A, B, T>>>⟧.equals
        (StdMapEquals W.word K.spec V.spec (native_hash H.KeyHasher A.KeyHash) A.fits V.equals) }
    ensures hashed { SameValues
        ⟦<HashMapOf<K, V, H, W> as MatchesNative<Hashed<HashMap<A, B, T>, H>>>⟧.equals
        (RepresentsAs inner
        (StdMapEquals W.word K.spec V.spec (native_hash H.KeyHasher A.KeyHash) A.fits V.equals)) }
{}

/// States that an archived set is compared with a std set by their lengths and by lookups.
pub fn std_sets_are_compared<K, H, W: Width, A, T: BuildHasher>()
where
    K: KeyElement + Represents<A>,
    H: KeyHasher,
    A: NativeKey<K> + Hash,
    ensures sets { SameValues ⟦<HashSetOf<K, H, W> as MatchesNative<HashSet<A, T>>>⟧.equals
        (StdSetEquals W.word K.spec (native_hash H.KeyHasher A.KeyHash) A.fits) }
    ensures hashed { SameValues
        ⟦<HashSetOf<K, H, W> as MatchesNative<Hashed<HashSet<A, T>, H>>>⟧.equals
        (RepresentsAs inner
        (StdSetEquals W.word K.spec (native_hash H.KeyHasher A.KeyHash) A.fits)) }
{}

/// States that `eq_archived` of a std map or set returns the result of `eq_std`.
pub fn std_values_are_compared<'a, K, V, H, W: Width, A, B, T: BuildHasher>()
where
    K: KeyElement + Represents<A>,
    V: MatchesNative<B>,
    H: KeyHasher,
    A: NativeKey<K> + Hash,
    ensures maps { (m : _) (x : _) →
        ⟦<HashMap<A, B, T> as EqArchived<ArchivedHashMap<'a, K, V, H, W>>>⟧.equals_archived m x
        ↔ StdMapEqualsIn m (queries_of H.KeyHasher A.Query) V.equals x }
    ensures sets { (s : _) (x : _) →
        ⟦<HashSet<A, T> as EqArchived<ArchivedHashSet<'a, K, H, W>>>⟧.equals_archived s x
        ↔ StdSetEqualsIn s (queries_of H.KeyHasher A.Query) x }
{}

/// States that wrapped std maps or sets are equal if and only if the maps or sets are.
pub fn hashed_values_are_compared<M: PartialEq, H>()
    ensures { (x y : _) → ⟦<Hashed<M, H> as PartialEq>⟧.eq x y ≡ M.eq (inner x) (inner y) }
{}

/// States that a clone of a wrapped value wraps a clone of it, and fails only if cloning it does.
pub fn hashed_values_are_cloned<M: Clone, H>()
    ensures clones { (x clone : _) →
        ⟦<Hashed<M, H> as Clone>⟧.is_clone x clone ↔ M.is_clone (inner x) (inner clone) }
    ensures infallible { (x : _) →
        ⟦<Hashed<M, H> as Clone>⟧.is_infallible x ↔ M.is_infallible (inner x) }
{}

/// States which errors deserializing a std map can return.
pub fn std_maps_fail_as_pairs<K, V, A, B, H, W: Width>()
where
    K: Deserialize<A>,
    V: Deserialize<B>,
    A: Eq + Hash + Drop,
    B: Drop,
    ensures maps { let m = ⟦<HashMapOf<K, V, H, W> as Deserialize<HashMap<A, B>>>⟧ in
        SameErrors m.deserialize_fails
        (std_map_fails W.word K.Deserialize V.Deserialize) }
    ensures hashed { let m = ⟦<HashMapOf<K, V, H, W> as Deserialize<Hashed<HashMap<A, B>, H>>>⟧ in
        SameErrors m.deserialize_fails
        (std_map_fails W.word K.Deserialize V.Deserialize) }
{}

/// States which errors deserializing a std set can return.
pub fn std_sets_fail_as_keys<K, A, H, W: Width>()
where
    K: Deserialize<A>,
    A: Eq + Hash + Drop,
    ensures sets { SameErrors ⟦<HashSetOf<K, H, W> as Deserialize<HashSet<A>>>⟧.deserialize_fails
        (std_set_fails W.word K.Deserialize) }
    ensures hashed { let s = ⟦<HashSetOf<K, H, W> as Deserialize<Hashed<HashSet<A>, H>>>⟧ in
        SameErrors s.deserialize_fails (std_set_fails W.word K.Deserialize) }
{}

/// States that a std map is written as the map of its entries, whose keys are distinct.
pub fn std_maps_are_written<W: Width, H: KeyHasher, K, A, B, T: BuildHasher>()
where
    K: KeyElement + Represents<A>,
    A: NativeKey<K> + Archive<W, Archived = K> + Hash,
    B: Archive<W>,
    ensures { SameFormat ⟦<Hashed<HashMap<A, B, T>, H> as Archive<W>>⟧.format
        (std_map_format W.Width
        (native_format K.spec B.Archived.spec A.format B.format H.hasher A.calls) A.eq
        inner_entries) }
{}

/// States that a std set is written as the set of its keys, which are distinct.
pub fn std_sets_are_written<W: Width, H: KeyHasher, K, A, T: BuildHasher>()
where
    K: KeyElement + Represents<A>,
    A: NativeKey<K> + Archive<W, Archived = K> + Hash,
    ensures { SameFormat ⟦<Hashed<HashSet<A, T>, H> as Archive<W>>⟧.format
        (std_map_format W.Width
        (native_format K.spec unit_spec A.format unit_format H.hasher A.calls) A.eq
        (λ x. with_units (inner_keys x))) }
{}

/// States that a wrapped reference to a std map is written as the wrapped map.
pub fn map_references_are_written<'a, W: Width, H: KeyHasher, A, B: Archive<W>, T: BuildHasher>()
where
    A: Archive<W> + Hash + 'a,
    B: 'a,
    T: 'a,
    A::Archived: KeyElement,
    A: NativeKey<A::Archived>,
    ensures { SameFormat ⟦<Hashed<&'a HashMap<A, B, T>, H> as Archive<W>>⟧.format
        (written_as referent ⟦<Hashed<HashMap<A, B, T>, H> as Archive<W>>⟧.format) }
{}

/// States that a wrapped reference to a std set is written as the wrapped set.
pub fn set_references_are_written<'a, W: Width, H: KeyHasher, A, T: BuildHasher>()
where
    A: Archive<W> + Hash + 'a,
    T: 'a,
    A::Archived: KeyElement,
    A: NativeKey<A::Archived>,
    ensures { SameFormat ⟦<Hashed<&'a HashSet<A, T>, H> as Archive<W>>⟧.format
        (written_as referent ⟦<Hashed<HashSet<A, T>, H> as Archive<W>>⟧.format) }
{}

/// States that in any archive with the written bytes of a std map, the archived map equals it.
pub fn written_maps_are_equal<
    W: Width,
    H: KeyHasher,
    A: Archive<W> + Hash,
    B: EqualsWritten<W>,
    T: BuildHasher,
>()
where
    A::Archived: KeyElement,
    B::Archived: MatchesNative<B>,
    A: NativeKey<A::Archived>,
    ensures { WrittenMapsAreEqual W.word A.Archived.spec B.Archived.spec
        (queries_of H.KeyHasher A.Query) B.Archived.equals
        ⟦<Hashed<HashMap<A, B, T>, H> as Archive<W>>⟧.format }
{
    written_values_are_equal::<W, Hashed<HashMap<A, B, T>, H>>();
}

/// States that in any archive with the written bytes of a std set, the archived set equals it.
pub fn written_sets_are_equal<W: Width, H: KeyHasher, A: Archive<W> + Hash, T: BuildHasher>()
where
    A::Archived: KeyElement,
    A: NativeKey<A::Archived>,
    ensures { WrittenSetsAreEqual W.word A.Archived.spec (queries_of H.KeyHasher A.Query)
        ⟦<Hashed<HashSet<A, T>, H> as Archive<W>>⟧.format }
{
    written_values_are_equal::<W, Hashed<HashSet<A, T>, H>>();
}

/// States that the root of an archive of a std map represents the list of its entries.
pub fn written_maps_are_lists<
    W: Width,
    H: KeyHasher,
    A: Archive<W> + Hash,
    B: Archive<W>,
    T: BuildHasher,
>()
where
    A::Archived: KeyElement,
    A: NativeKey<A::Archived>,
    ensures { let format = ⟦<Hashed<HashMap<A, B, T>, H> as Archive<W>>⟧.format in
        WrittenMapsAreLists W.word A.Archived.Represents B.Archived.Represents
        (archived_hash H.KeyHasher A.Archived.KeyElement) format }
{
    nested_maps_are_lists::<W, H, A, B, T, ValueRelation>();
}

/// States that the root of an archive of a std set represents the list of its keys.
pub fn written_sets_are_lists<W: Width, H: KeyHasher, A: Archive<W> + Hash, T: BuildHasher>()
where
    A::Archived: KeyElement,
    A: NativeKey<A::Archived>,
    ensures { let format = ⟦<Hashed<HashSet<A, T>, H> as Archive<W>>⟧.format in
        WrittenSetsAreLists W.word A.Archived.Represents
        (archived_hash H.KeyHasher A.Archived.KeyElement) format }
{
    written_values_are_related::<W, Hashed<HashSet<A, T>, H>, KeysRelation>();
}

/// States that the root of an archive of a value equals the value.
///
/// So a deserialized value, which the root represents, is `==` to the value.
pub fn archives_round_trip<W: Width, M: EqualsWritten<W> + PartialEq>()
where
    M::Archived: MatchesNative<M> + RepresentsUniquely<M>,
    ensures { ArchivesRoundTrip W.LIMIT M.Archived.spec M.Archived.represents M.Archived.equals
        M.format M.eq }
{}

/// States that in any archive with the written bytes of a value, the archived value equals it.
fn written_values_are_equal<W: Width, M: EqualsWritten<W>>()
where
    M::Archived: MatchesNative<M>,
    ensures { IsFormat M.Archived.spec M.Archived.equals M.format }
{}
