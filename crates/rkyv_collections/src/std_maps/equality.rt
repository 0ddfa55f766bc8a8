//! Comparing archived maps with std maps.
//!
//! - `ArchivedHashMap::eq_std` takes a std map.
//! - `EqArchived::eq_archived` is the same call from the side of the std map.
//! - `MatchesNative` compares maps that are values.

ghost use Rattle.std.specs.Prelude.{IsTrue, ◌↔◌};
ghost use Rattle.rkyv_base.specs.{AtView, IsValidView};
ghost use Rattle.rkyv_keys.specs.{native_hash, queries_of};
ghost use Rattle.rkyv_table.specs.{listed};
ghost use Rattle.rkyv_collections.specs.{EntriesEqual, FindsFirstAcceptedIn, FindsPairIn};
ghost use Rattle.rkyv_collections.specs.{StdMapEquals, StdMapEqualsIn, inner, inner_entries};
ghost use Rattle.rkyv_collections.specs.{map_format, map_spec, of_entries};
ghost use Rattle.rkyv_collections.specs.Lemmas.StdOnce.{std_map_once};
ghost use Rattle.rkyv_collections.specs.Lemmas.StdMapSound.{std_map_equal};

use crate::map::{ArchivedHashMap, HashMapOf};
use crate::std_maps::hashed::Hashed;
use rkyv_base::{Archive, Element, HasSpec, Represents, View, Width};
use rkyv_keys::{EqualsWritten, KeyElement, MatchesNative, NativeKey, Query, RepresentsUniquely};
use rkyv_scan::KeyHasher;
use std::collections::HashMap;
use std::hash::{BuildHasher, Hash};

impl<'a, K: KeyElement, V: HasSpec, H: KeyHasher, W: Width> ArchivedHashMap<'a, K, V, H, W> {
    #[inline]
    pub(crate) fn finds_equal<A: Query<K>, B>(self, key: &A, value: &B) -> bool
    where
        V: MatchesNative<B>,
        ensures { let queries = queries_of H.KeyHasher A.Query in
            IsTrue result ↔ FindsPairIn self.entry queries V.equals (key.now, value.now) }
    {
        match self.get(key) {
            Some(found) => V::eq_native(found, value),
            None => false,
        }
    }

    #[inline]
    pub(crate) fn agrees_on<A: NativeKey<K> + Hash, B, T: BuildHasher>(
        self,
        other: &HashMap<A, B, T>,
        key: &A,
    ) -> bool
    where
        K: Represents<A>,
        V: MatchesNative<B>,
        ensures { let queries = queries_of H.KeyHasher A.Query in
            IsTrue result ↔ FindsFirstAcceptedIn self.entry queries V.equals key.now (A.eq key.now)
            other.now.entries }
    {
        match other.get(key) {
            Some(value) => self.finds_equal(key, value),
            None => !self.contains_key(key),
        }
    }

    /// Returns `true` if and only if this map equals a std map of the same length, by lookups here.
    ///
    /// Each pair of `other` costs a lookup, which may read all control bytes of an untrusted map.
    #[inline]
    pub fn eq_std<A: NativeKey<K> + Hash, B, T: BuildHasher>(self, other: &HashMap<A, B, T>) -> bool
    where
        K: Represents<A>,
        V: MatchesNative<B>,
        ensures { let queries = queries_of H.KeyHasher A.Query in
            IsTrue result ↔ StdMapEqualsIn self.entry queries V.equals other.now }
    {
        if self.len() != other.len() {
            return false;
        }
        for (key, value) in other.iter() {
            if !self.finds_equal(key, value) {
                return false;
            }
        }
        true
    }
}

impl<
    K: KeyElement + Represents<A>,
    V: MatchesNative<B>,
    H: KeyHasher,
    W: Width,
    A: NativeKey<K> + Hash,
    B,
    T: BuildHasher,
> MatchesNative<HashMap<A, B, T>> for HashMapOf<K, V, H, W> {
    ghost equals = { StdMapEquals W.word K.spec V.spec (native_hash H.KeyHasher A.KeyHash) A.fits
        V.equals };

    #[inline]
    fn eq_native(view: View<'_, HashMapOf<K, V, H, W>>, value: &HashMap<A, B, T>) -> bool
        requires { IsValidView (map_spec W.word K.spec V.spec) view }
        ensures { let hash = native_hash H.KeyHasher A.KeyHash in
            IsTrue result ↔ AtView (StdMapEquals W.word K.spec V.spec hash A.fits V.equals)
            view.entry value.now }
    {
        ArchivedHashMap::of(view).eq_std(value)
    }
}

impl<K, V, H, W, M> MatchesNative<Hashed<M, H>> for HashMapOf<K, V, H, W>
where
    HashMapOf<K, V, H, W>: MatchesNative<M> + Represents<Hashed<M, H>>,
{
    ghost equals = { λ b p x. ⟦<HashMapOf<K, V, H, W> as MatchesNative<M>>⟧.equals b p (inner x) };

    #[inline]
    fn eq_native(view: View<'_, Self>, value: &Hashed<M, H>) -> bool
        requires { IsValidView ⟦<HashMapOf<K, V, H, W> as Element>⟧.spec view }
        ensures { let equals = ⟦<HashMapOf<K, V, H, W> as MatchesNative<M>>⟧.equals in
            IsTrue result ↔ AtView equals view.entry (inner value.now) }
    {
        <HashMapOf<K, V, H, W> as MatchesNative<M>>::eq_native(view, &value.map)
    }
}

impl<
    W: Width,
    H: KeyHasher,
    A: Archive<W> + Hash,
    B: EqualsWritten<W>,
    T: BuildHasher,
> EqualsWritten<W> for Hashed<HashMap<A, B, T>, H>
where
    A::Archived: KeyElement,
    B::Archived: MatchesNative<B>,
    A: NativeKey<A::Archived>,
{
    ghost equal = { std_map_equal inner_entries H.hasher W.word A.Archived.laws
        B.Archived.laws W.MAX_CAPACITY W.layout.kind A.query A.native A.Eq.laws
        A.Archive.laws B.equal };
}

/// A std map or set that can be compared with an archived one of the type `C`.
pub trait EqArchived<C> {
    ghost equals_archived: { C → Self → Type 0 };

    /// Returns the result of `eq_std` of the archived map or set.
    fn eq_archived(&self, other: C) -> bool
        ensures { IsTrue result ↔ equals_archived other self.now };
}

impl<
    'a,
    K: KeyElement + Represents<A>,
    V: MatchesNative<B>,
    H: KeyHasher,
    W: Width,
    A: NativeKey<K> + Hash,
    B,
    T: BuildHasher,
> EqArchived<ArchivedHashMap<'a, K, V, H, W>> for HashMap<A, B, T> {
    ghost equals_archived = { λ other m.
        StdMapEqualsIn other (queries_of H.KeyHasher A.Query) V.equals m };

    #[inline]
    fn eq_archived(&self, other: ArchivedHashMap<'a, K, V, H, W>) -> bool
        ensures { IsTrue result ↔ StdMapEqualsIn other.entry
            (queries_of H.KeyHasher A.Query) V.equals self.now }
    {
        other.eq_std(self)
    }
}

impl<
    K: RepresentsUniquely<A>,
    V: RepresentsUniquely<B>,
    H,
    W: Width,
    A: Eq + Hash,
    B: PartialEq,
    T: BuildHasher,
> RepresentsUniquely<HashMap<A, B, T>> for HashMapOf<K, V, H, W> {
    ghost once = { std_map_once A.eq A.Eq.laws B.eq K.spec V.spec K.laws V.laws
        W.word K.represents
        V.represents K.once V.once };
}

impl<
    K: RepresentsUniquely<A>,
    V: RepresentsUniquely<B>,
    H,
    W: Width,
    A: Eq + Hash,
    B: PartialEq,
    T: BuildHasher,
> RepresentsUniquely<Hashed<HashMap<A, B, T>, H>> for HashMapOf<K, V, H, W> {
    ghost once = { λ m n. std_map_once A.eq A.Eq.laws B.eq K.spec V.spec K.laws V.laws W.word
        K.represents V.represents K.once V.once (inner m) (inner n) };
}
