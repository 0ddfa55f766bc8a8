//! `PairEntry` as a key: equality, hashing, lookup and deserialization.

ghost use Rattle.std.specs.Prelude.{◌&&◌, ◌++◌, ◌↔◌, ◌≡◌, IsTrue};
ghost use Rattle.std.proofs.Common.{rules};
ghost use Rattle.std.specs.Cmp.{and_equiv, and_per, on_equiv, on_per};
ghost use Rattle.rkyv_base.specs.{AtView, IsValidView, entry_spec};
ghost use Rattle.rkyv_keys.specs.{Deserializes, at_view, entry_deserialize_fails, entry_fits};
ghost use Rattle.rkyv_keys.specs.{pair_calls};
ghost use Rattle.rkyv_keys.specs.Lemmas.OfEntries.{entry_equals_once, entry_fits_its_equal};
ghost use Rattle.rkyv_keys.specs.Lemmas.OfEntries.{entry_once, entry_query};
ghost use Rattle.rkyv_user_types.specs.{RepresentsAsPair, equals_as};
ghost use Rattle.rkyv_user_types.specs.Lemmas.Wrapped.{pair_as_format, query_as};

use crate::pair::{AsPair, FromPair, PairEntry};
use rkyv_base::{Archive, Entry, ReadError, Represents, View, Width};
use rkyv_keys::{
    Deserialize, EqualsUniquely, EqualsWritten, KeyElement, KeyHash, MatchesNative, NativeKey,
    Query, RepresentsUniquely,
};
use rkyv_scan::KeyHasher;
use std::alloc::Global;
use std::hash::{Hash, Hasher};

impl<A: PartialEq, B: PartialEq, T: AsPair<First = A, Second = B>> PartialEq for PairEntry<T> {
    ghost eq = { λ x y.
        A.eq (T.pair x.0).0 (T.pair y.0).0 && B.eq (T.pair x.0).1 (T.pair y.0).1 };

    ghost laws = { and_per (on_per (λ x. (T.pair x.0).0) A.laws)
        (on_per (λ x. (T.pair x.0).1) B.laws) };

    #[inline]
    fn eq(&self, other: &PairEntry<T>) -> bool {
        self.0.first() == other.0.first() && self.0.second() == other.0.second()
    }
}

impl<A: Eq, B: Eq, T: AsPair<First = A, Second = B>> Eq for PairEntry<T> {
    ghost laws = { and_equiv (on_equiv (λ x. (T.pair x.0).0) A.Eq.laws)
        (on_equiv (λ x. (T.pair x.0).1) B.Eq.laws) };
}

/// std's maps and sets hash the first part, and then the second.
impl<A: Hash, B: Hash, T: AsPair<First = A, Second = B>> Hash for PairEntry<T> {
    ghost hash_input = { λ x.
        A.hash_input (T.pair x.0).0 ++ B.hash_input (T.pair x.0).1 };

    ghost respects_eq = { Prim.search rules };

    #[inline]
    fn hash<S: Hasher>(&self, state: &mut S) {
        let (first, second) = (self.0.first(), self.0.second());
        first.hash(state);
        second.hash(state);
    }
}

impl<A: KeyHash, B: KeyHash, T: AsPair<First = A, Second = B>> KeyHash for PairEntry<T> {
    ghost calls = { λ x. pair_calls A.calls B.calls (T.pair x.0) };

    #[inline]
    fn hash<H: KeyHasher>(&self, state: &mut H) {
        self.0.first().hash(state);
        self.0.second().hash(state);
    }
}

impl<
    K: KeyElement,
    V: KeyElement,
    A: Query<K>,
    B: Query<V>,
    T: AsPair<First = A, Second = B>,
> Query<Entry<K, V>> for PairEntry<T> {
    ghost fits = { λ x. entry_fits K.spec V.spec A.fits B.fits (T.pair x.0) };

    #[inline]
    fn same(&self, key: View<'_, Entry<K, V>>) -> bool
        requires { IsValidView (entry_spec K.spec V.spec) key }
        ensures { result
            ≡ at_view (entry_fits K.spec V.spec A.fits B.fits (T.pair self.now.0)) key.entry }
    {
        self.0.first().same(key.key()) && self.0.second().same(key.value())
    }

    ghost query = { query_as (λ x. T.pair x.0) (entry_query K.laws V.laws A.query B.query) };
}

impl<
    K: KeyElement + Represents<A>,
    V: KeyElement + Represents<B>,
    A: NativeKey<K>,
    B: NativeKey<V>,
    T: AsPair<First = A, Second = B>,
> NativeKey<Entry<K, V>> for PairEntry<T> {
    ghost native = { λ x y. entry_fits_its_equal K.laws V.laws K.represents V.represents A.eq B.eq
        A.fits B.fits A.native B.native (T.pair x.0) (T.pair y.0) };
}

impl<
    A,
    B,
    T: AsPair<First = A, Second = B>,
    K: MatchesNative<A>,
    V: MatchesNative<B>,
> MatchesNative<PairEntry<T>> for Entry<K, V> {
    ghost equals = { equals_as K.spec V.spec K.equals V.equals (λ x. T.pair x.0) };

    #[inline]
    fn eq_native(view: View<'_, Entry<K, V>>, value: &PairEntry<T>) -> bool
        requires { IsValidView (entry_spec K.spec V.spec) view }
        ensures { IsTrue result ↔ AtView
            (equals_as K.spec V.spec K.equals V.equals (λ x. T.pair x.0))
            view.entry value.now }
    {
        K::eq_native(view.key(), value.0.first()) && V::eq_native(view.value(), value.0.second())
    }
}

impl<
    W: Width,
    A: EqualsWritten<W>,
    B: EqualsWritten<W>,
    T: AsPair<First = A, Second = B>,
> EqualsWritten<W> for PairEntry<T>
where
    A::Archived: MatchesNative<A>,
    B::Archived: MatchesNative<B>,
{
    ghost equal = { pair_as_format (λ x. T.pair x.0) A.Archived.laws B.Archived.laws A.equal
        B.equal };
}

impl<
    A: PartialEq,
    B: PartialEq,
    T: AsPair<First = A, Second = B>,
    K: EqualsUniquely<A>,
    V: EqualsUniquely<B>,
> EqualsUniquely<PairEntry<T>> for Entry<K, V> {
    ghost once = { λ x y. entry_equals_once K.laws V.laws K.represents V.represents K.equals
        V.equals A.eq B.eq K.once V.once (T.pair x.0) (T.pair y.0) };
}

impl<
    A: PartialEq,
    B: PartialEq,
    T: AsPair<First = A, Second = B>,
    K: RepresentsUniquely<A>,
    V: RepresentsUniquely<B>,
> RepresentsUniquely<PairEntry<T>> for Entry<K, V> {
    ghost once = { λ x y. entry_once K.laws V.laws K.represents V.represents A.eq B.eq K.once
        V.once (T.pair x.0) (T.pair y.0) };
}

impl<
    A: Drop,
    B,
    T: FromPair<First = A, Second = B>,
    K: Deserialize<A>,
    V: Deserialize<B>,
> Deserialize<PairEntry<T>> for Entry<K, V> {
    ghost deserialize_fails = { entry_deserialize_fails K.Deserialize V.Deserialize };

    #[inline]
    fn deserialize(alloc: Global, view: View<'_, Entry<K, V>>) -> Result<PairEntry<T>, ReadError>
        requires { IsValidView (entry_spec K.spec V.spec) view }
        ensures { Deserializes
            (RepresentsAsPair K.spec V.spec K.represents V.represents (λ x. T.pair x.0))
            (entry_deserialize_fails K.Deserialize V.Deserialize)
            view.entry result }
    {
        let first = K::deserialize(alloc, view.key())?;
        let second = V::deserialize(alloc, view.value())?;
        Ok(PairEntry(T::from_pair(first, second)))
    }
}
