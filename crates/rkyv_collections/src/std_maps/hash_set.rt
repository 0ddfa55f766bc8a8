//! Archiving, comparing and deserializing std's sets.

ghost use Rattle.std.specs.Prelude.{IsTrue, MatchResult, ◌↔◌};
ghost use Rattle.rkyv_base.specs.{AtView, IsValidView, RepresentsAs, unit_format, unit_represents};
ghost use Rattle.rkyv_base.specs.{unit_spec, written_as};
ghost use Rattle.rkyv_base.specs.Lemmas.Empty.{unit_element, unit_is_format, unit_local};
ghost use Rattle.rkyv_keys.specs.{Deserializes, hash_of, native_format, native_hash, queries_of};
ghost use Rattle.rkyv_table.specs.{listed, with_units};
ghost use Rattle.rkyv_collections.specs.{EntriesEqual, InsertsKey, ReadsStdSet, SerializesEntries};
ghost use Rattle.rkyv_collections.specs.{StdSetEquals, StdSetEqualsIn, StdSetRepresents, inner};
ghost use Rattle.rkyv_collections.specs.{inner_keys, insert_key_fails, map_format, of_entries};
ghost use Rattle.rkyv_collections.specs.{set_spec, set_view, std_set_fails};
ghost use Rattle.rkyv_collections.specs.Lemmas.StdOnce.{std_set_once};
ghost use Rattle.rkyv_collections.specs.Lemmas.StdMapLaws.{entries_local};
ghost use Rattle.rkyv_collections.specs.Lemmas.StdMapSound.{std_map_equal, std_map_sound};
ghost use Rattle.rkyv_collections.specs.Lemmas.StdSet.{set_equal_written};

use crate::set::write::HashSetResolver;
use crate::set::{ArchivedHashSet, HashSetOf};
use crate::std_maps::equality::EqArchived;
use crate::std_maps::hashed::Hashed;
use rkyv_base::{
    Archive, Element, ReadError, Represents, ResolveResult, Serialize, View, Width, WriteResult,
    Writer,
};
use rkyv_keys::{
    Deserialize, EqualsWritten, KeyElement, MatchesNative, NativeKey, RepresentsUniquely,
};
use rkyv_scan::KeyHasher;
use std::alloc::Global;
use std::collections::HashSet;
use std::hash::{BuildHasher, BuildHasherDefault, Hash};

impl<A: Eq + Hash, T: BuildHasher, H, W: Width, K: Represents<A>> Represents<HashSet<A, T>>
    for HashSetOf<K, H, W> {
    ghost represents = { StdSetRepresents K.spec K.represents W.word A.eq };

    ghost local = { λ s. entries_local K.spec unit_spec K.laws unit_element W.word A.eq K.local
        unit_local (with_units s.keys) };
}

impl<A: Eq + Hash, T: BuildHasher, H, W: Width, K: Represents<A>> Represents<
    Hashed<HashSet<A, T>, H>,
> for HashSetOf<K, H, W> {
    ghost represents = { RepresentsAs inner (StdSetRepresents K.spec K.represents W.word A.eq) };

    ghost local = { λ x. entries_local K.spec unit_spec K.laws unit_element W.word A.eq K.local
        unit_local (with_units (inner_keys x)) };
}

impl<W: Width, H: KeyHasher, A: Archive<W> + Hash, T: BuildHasher> Archive<W>
    for Hashed<HashSet<A, T>, H>
where
    A::Archived: KeyElement,
    A: NativeKey<A::Archived>,
{
    type Archived = HashSetOf<A::Archived, H, W>;

    type Resolver = HashSetResolver<W>;

    ghost format = { written_as (λ x. with_units (inner_keys x))
        (of_entries A.eq (listed W.MAX_CAPACITY (7, 8)
        (map_format W.word A.Archived.spec unit_spec A.format unit_format
        (native_hash H.KeyHasher A.KeyHash) (7, 8)))) };

    fn resolve(&self, resolver: HashSetResolver<W>, pos: u64, out: &mut [u8]) -> ResolveResult {
        resolver.resolve(pos, out)
    }

    ghost laws = { std_map_sound (λ x. with_units (inner_keys x)) H.hasher W.word A.Archived.laws
        unit_element W.MAX_CAPACITY W.layout.kind A.query A.native A.Eq.laws
        A.Archive.laws unit_is_format };
}

impl<S: Writer, W: Width, H: KeyHasher, A: Serialize<S, W> + Hash, T: BuildHasher> Serialize<S, W>
    for Hashed<HashSet<A, T>, H>
where
    A::Archived: KeyElement,
    A: NativeKey<A::Archived>,
{
    fn serialize(&self, alloc: Global, serializer: &mut S) -> WriteResult<HashSetResolver<W>, S> {
        serialize_set::<S, W, H, A, T>(alloc, &self.map, serializer)
    }
}

pub(crate) fn serialize_set<
    S: Writer,
    W: Width,
    H: KeyHasher,
    A: Serialize<S, W> + Hash,
    T: BuildHasher,
>(alloc: Global, set: &HashSet<A, T>, serializer: &mut S) -> WriteResult<HashSetResolver<W>, S>
where
    A::Archived: KeyElement,
    A: NativeKey<A::Archived>,
    ensures { SerializesEntries W.Width
        (native_format A.Archived.spec unit_spec A.format unit_format H.hasher A.calls) A.eq
        (with_units set.now.keys) (S.output serializer.old, S.output serializer.new) result }
{
    ArchivedHashSet::<A::Archived, H, W>::serialize_from_iter::<_, A, _, _>(
        alloc,
        set.iter(),
        set.len(),
        (7, 8),
        serializer,
    )
}

#[inline]
fn insert_read<K: Deserialize<A>, A: Eq + Hash + Drop, T: BuildHasher>(
    set: &mut HashSet<A, T>,
    alloc: Global,
    key: View<'_, K>,
) -> Result<(), ReadError>
    requires { IsValidView K.spec key }
    ensures { MatchResult result
        (λ _. InsertsKey A.eq (AtView K.represents key.entry) set.old set.new)
        (AtView (insert_key_fails K.deserialize_fails) key.entry) }
{
    let read = K::deserialize(alloc, key)?;
    set.insert(read)?;
    Ok(())
}

impl<'a, K: Element, H, W: Width> ArchivedHashSet<'a, K, H, W> {
    /// Returns the std set of the keys, with the hash state `state`.
    ///
    /// The keys are inserted in bucket order. Of equal keys, the first is kept.
    /// Not proved: memory for all keys is allocated first.
    ///
    /// # Errors
    ///
    /// - `Memory`: memory for the set could not be allocated. An empty set needs none.
    /// - The first error of deserializing a key, in bucket order.
    pub fn deserialize_std<A: Eq + Hash + Drop, T: BuildHasher + Drop>(
        self,
        alloc: Global,
        state: T,
    ) -> Result<HashSet<A, T>, ReadError>
    where
        K: Deserialize<A>,
        ensures { ReadsStdSet (StdSetRepresents K.spec K.represents W.word A.eq)
            (std_set_fails W.word K.Deserialize) (set_view self.entry) state result }
    {
        let mut set = HashSet::with_hasher(alloc, state);
        set.reserve(self.len())?;
        for key in self.iter() {
            insert_read(&mut set, alloc, key)?;
        }
        Ok(set)
    }
}

impl<'a, K: KeyElement, H: KeyHasher, W: Width> ArchivedHashSet<'a, K, H, W> {
    /// Returns `true` if and only if this set equals a std set of the same length, by lookups here.
    ///
    /// Each key of `other` costs a lookup, which may read all control bytes of an untrusted set.
    #[inline]
    pub fn eq_std<A: NativeKey<K> + Hash, T: BuildHasher>(self, other: &HashSet<A, T>) -> bool
    where
        K: Represents<A>,
        ensures { let queries = queries_of H.KeyHasher A.Query in
            IsTrue result ↔ StdSetEqualsIn self.entry queries other.now }
    {
        if self.len() != other.len() {
            return false;
        }
        for key in other.iter() {
            if !self.map.finds_equal(key, &()) {
                return false;
            }
        }
        true
    }
}

impl<
    K: KeyElement + Represents<A>,
    H: KeyHasher,
    W: Width,
    A: NativeKey<K> + Hash,
    T: BuildHasher,
> MatchesNative<HashSet<A, T>> for HashSetOf<K, H, W> {
    ghost equals = { StdSetEquals W.word K.spec (native_hash H.KeyHasher A.KeyHash) A.fits };

    #[inline]
    fn eq_native(view: View<'_, HashSetOf<K, H, W>>, value: &HashSet<A, T>) -> bool
        requires { IsValidView (set_spec W.word K.spec) view }
        ensures { let hash = native_hash H.KeyHasher A.KeyHash in
            IsTrue result ↔ AtView (StdSetEquals W.word K.spec hash A.fits) view.entry
            value.now }
    {
        ArchivedHashSet::of(view).eq_std(value)
    }
}

impl<K, H, W, M> MatchesNative<Hashed<M, H>> for HashSetOf<K, H, W>
where
    HashSetOf<K, H, W>: MatchesNative<M> + Represents<Hashed<M, H>>,
{
    ghost equals = { λ b p x. ⟦<HashSetOf<K, H, W> as MatchesNative<M>>⟧.equals b p (inner x) };

    #[inline]
    fn eq_native(view: View<'_, Self>, value: &Hashed<M, H>) -> bool
        requires { IsValidView ⟦<HashSetOf<K, H, W> as Element>⟧.spec view }
        ensures { let equals = ⟦<HashSetOf<K, H, W> as MatchesNative<M>>⟧.equals in
            IsTrue result ↔ AtView equals view.entry (inner value.now) }
    {
        <HashSetOf<K, H, W> as MatchesNative<M>>::eq_native(view, &value.map)
    }
}

impl<
    'a,
    K: KeyElement + Represents<A>,
    H: KeyHasher,
    W: Width,
    A: NativeKey<K> + Hash,
    T: BuildHasher,
> EqArchived<ArchivedHashSet<'a, K, H, W>> for HashSet<A, T> {
    ghost equals_archived = { λ other s.
        StdSetEqualsIn other (queries_of H.KeyHasher A.Query) s };

    #[inline]
    fn eq_archived(&self, other: ArchivedHashSet<'a, K, H, W>) -> bool
        ensures { IsTrue result ↔ StdSetEqualsIn other.entry
            (queries_of H.KeyHasher A.Query) self.now }
    {
        other.eq_std(self)
    }
}

impl<W: Width, H: KeyHasher, A: Archive<W> + Hash, T: BuildHasher> EqualsWritten<W>
    for Hashed<HashSet<A, T>, H>
where
    A::Archived: KeyElement,
    A: NativeKey<A::Archived>,
{
    ghost equal = { let set = set_spec W.word A.Archived.spec in
        set_equal_written W.word A.Archived.spec set (hash_of H.hasher A.calls) A.fits
        inner_keys ⟦<Hashed<HashSet<A, T>, H> as Archive<W>>⟧.format
        (std_map_equal (λ x. with_units (inner_keys x)) H.hasher W.word A.Archived.laws unit_element
        W.MAX_CAPACITY W.layout.kind A.query A.native A.Eq.laws A.Archive.laws
        unit_is_format) };
}

impl<K: Deserialize<A>, H, W: Width, A: Eq + Hash + Drop> Deserialize<HashSet<A>>
    for HashSetOf<K, H, W> {
    ghost deserialize_fails = { std_set_fails W.word K.Deserialize };

    #[inline]
    fn deserialize(alloc: Global, view: View<'_, Self>) -> Result<HashSet<A>, ReadError>
        requires { IsValidView (set_spec W.word K.spec) view }
        ensures { Deserializes (StdSetRepresents K.spec K.represents W.word A.eq)
            (std_set_fails W.word K.Deserialize) view.entry result }
    {
        ArchivedHashSet::of(view).deserialize_std(alloc, BuildHasherDefault::new())
    }
}

impl<K: Deserialize<A>, H, W: Width, A: Eq + Hash + Drop> Deserialize<Hashed<HashSet<A>, H>>
    for HashSetOf<K, H, W> {
    ghost deserialize_fails = { std_set_fails W.word K.Deserialize };

    #[inline]
    fn deserialize(alloc: Global, view: View<'_, Self>) -> Result<Hashed<HashSet<A>, H>, ReadError>
        requires { IsValidView (set_spec W.word K.spec) view }
        ensures { Deserializes
            (RepresentsAs inner (StdSetRepresents K.spec K.represents W.word A.eq))
            (std_set_fails W.word K.Deserialize) view.entry result }
    {
        let set = ArchivedHashSet::of(view).deserialize_std(alloc, BuildHasherDefault::new())?;
        Ok(Hashed::new(set))
    }
}

impl<K: RepresentsUniquely<A>, H, W: Width, A: Eq + Hash, T: BuildHasher> RepresentsUniquely<
    HashSet<A, T>,
> for HashSetOf<K, H, W> {
    ghost once = { std_set_once A.eq A.Eq.laws K.spec K.laws W.word K.represents K.once };
}

impl<K: RepresentsUniquely<A>, H, W: Width, A: Eq + Hash, T: BuildHasher> RepresentsUniquely<
    Hashed<HashSet<A, T>, H>,
> for HashSetOf<K, H, W> {
    ghost once = { λ s t. std_set_once A.eq A.Eq.laws K.spec K.laws W.word
        K.represents K.once (inner s)
        (inner t) };
}
