//! `TupleEntry` as a key: equality, hashing, lookup and deserialization.

ghost use Rattle.std.specs.Prelude.{◌&&◌, ◌++◌, ◌↔◌, ◌≡◌, IsTrue};
ghost use Rattle.std.proofs.Common.{rules};
ghost use Rattle.std.specs.Cmp.{and_equiv, and_per, on_equiv, on_per};
ghost use Rattle.rkyv_base.specs.{AtView, IsValidView, entry_spec};
ghost use Rattle.rkyv_keys.specs.{Deserializes, at_view, entry_deserialize_fails, entry_fits};
ghost use Rattle.rkyv_keys.specs.{pair_calls};
ghost use Rattle.rkyv_keys.specs.Lemmas.OfEntries.{entry_equals_once, entry_fits_its_equal};
ghost use Rattle.rkyv_keys.specs.Lemmas.OfEntries.{entry_once, entry_query};
ghost use Rattle.rkyv_user_types.specs.{RepresentsAsPair, equals_as};
ghost use Rattle.rkyv_user_types.specs.Lemmas.Wrapped.{pair_as_format, query_as};

use crate::tuple::{AsTuple, FromTuple, TupleEntry};
use rkyv_base::{Archive, Entry, ReadError, Represents, View, Width};
use rkyv_keys::{
    Deserialize, EqualsUniquely, EqualsWritten, KeyElement, KeyHash, MatchesNative, NativeKey,
    Query, RepresentsUniquely,
};
use rkyv_scan::KeyHasher;
use std::alloc::Global;
use std::hash::{Hash, Hasher};

impl<A: PartialEq + Drop, B: PartialEq + Drop, T: AsTuple<First = A, Second = B>> PartialEq
    for TupleEntry<T> {
    ghost eq = { λ x y.
        A.eq (T.tuple x.0).0 (T.tuple y.0).0 && B.eq (T.tuple x.0).1 (T.tuple y.0).1 };

    ghost laws = { and_per (on_per (λ x. (T.tuple x.0).0) A.laws)
        (on_per (λ x. (T.tuple x.0).1) B.laws) };

    #[inline]
    fn eq(&self, other: &TupleEntry<T>) -> bool {
        self.0.tuple() == other.0.tuple()
    }
}

impl<A: Eq + Drop, B: Eq + Drop, T: AsTuple<First = A, Second = B>> Eq for TupleEntry<T> {
    ghost laws = { and_equiv (on_equiv (λ x. (T.tuple x.0).0) A.Eq.laws)
        (on_equiv (λ x. (T.tuple x.0).1) B.Eq.laws) };
}

/// std's maps and sets hash the first part, and then the second.
impl<A: Hash + Drop, B: Hash + Drop, T: AsTuple<First = A, Second = B>> Hash for TupleEntry<T> {
    ghost hash_input = { λ x.
        A.hash_input (T.tuple x.0).0 ++ B.hash_input (T.tuple x.0).1 };

    ghost respects_eq = { Prim.search rules };

    #[inline]
    fn hash<S: Hasher>(&self, state: &mut S) {
        let parts = self.0.tuple();
        parts.hash(state);
    }
}

impl<A: KeyHash + Drop, B: KeyHash + Drop, T: AsTuple<First = A, Second = B>> KeyHash
    for TupleEntry<T> {
    ghost calls = { λ x. pair_calls A.calls B.calls (T.tuple x.0) };

    #[inline]
    fn hash<H: KeyHasher>(&self, state: &mut H) {
        self.0.tuple().hash(state);
    }
}

impl<
    K: KeyElement,
    V: KeyElement,
    A: Query<K> + Drop,
    B: Query<V> + Drop,
    T: AsTuple<First = A, Second = B>,
> Query<Entry<K, V>> for TupleEntry<T> {
    ghost fits = { λ x. entry_fits K.spec V.spec A.fits B.fits (T.tuple x.0) };

    #[inline]
    fn same(&self, key: View<'_, Entry<K, V>>) -> bool
        requires { IsValidView (entry_spec K.spec V.spec) key }
        ensures { result
            ≡ at_view (entry_fits K.spec V.spec A.fits B.fits (T.tuple self.now.0)) key.entry }
    {
        self.0.tuple().same(key)
    }

    ghost query = { query_as (λ x. T.tuple x.0) (entry_query K.laws V.laws A.query B.query) };
}

impl<
    K: KeyElement + Represents<A>,
    V: KeyElement + Represents<B>,
    A: NativeKey<K> + Drop,
    B: NativeKey<V> + Drop,
    T: AsTuple<First = A, Second = B>,
> NativeKey<Entry<K, V>> for TupleEntry<T> {
    ghost native = { λ x y. entry_fits_its_equal K.laws V.laws K.represents V.represents A.eq B.eq
        A.fits B.fits A.native B.native (T.tuple x.0) (T.tuple y.0) };
}

impl<
    A: Drop,
    B: Drop,
    T: AsTuple<First = A, Second = B>,
    K: MatchesNative<A>,
    V: MatchesNative<B>,
> MatchesNative<TupleEntry<T>> for Entry<K, V> {
    ghost equals = { equals_as K.spec V.spec K.equals V.equals (λ x. T.tuple x.0) };

    #[inline]
    fn eq_native(view: View<'_, Entry<K, V>>, value: &TupleEntry<T>) -> bool
        requires { IsValidView (entry_spec K.spec V.spec) view }
        ensures { IsTrue result ↔ AtView
            (equals_as K.spec V.spec K.equals V.equals (λ x. T.tuple x.0))
            view.entry value.now }
    {
        Entry::<K, V>::eq_native(view, &value.0.tuple())
    }
}

impl<
    W: Width,
    A: EqualsWritten<W> + Drop,
    B: EqualsWritten<W> + Drop,
    T: AsTuple<First = A, Second = B>,
> EqualsWritten<W> for TupleEntry<T>
where
    A::Archived: MatchesNative<A>,
    B::Archived: MatchesNative<B>,
{
    ghost equal = { pair_as_format (λ x. T.tuple x.0) A.Archived.laws B.Archived.laws A.equal
        B.equal };
}

impl<
    A: PartialEq + Drop,
    B: PartialEq + Drop,
    T: AsTuple<First = A, Second = B>,
    K: EqualsUniquely<A>,
    V: EqualsUniquely<B>,
> EqualsUniquely<TupleEntry<T>> for Entry<K, V> {
    ghost once = { λ x y. entry_equals_once K.laws V.laws K.represents V.represents K.equals
        V.equals A.eq B.eq K.once V.once (T.tuple x.0) (T.tuple y.0) };
}

impl<
    A: PartialEq + Drop,
    B: PartialEq + Drop,
    T: AsTuple<First = A, Second = B>,
    K: RepresentsUniquely<A>,
    V: RepresentsUniquely<B>,
> RepresentsUniquely<TupleEntry<T>> for Entry<K, V> {
    ghost once = { λ x y. entry_once K.laws V.laws K.represents V.represents A.eq B.eq K.once
        V.once (T.tuple x.0) (T.tuple y.0) };
}

impl<
    A: Drop,
    B,
    T: FromTuple<First = A, Second = B>,
    K: Deserialize<A>,
    V: Deserialize<B>,
> Deserialize<TupleEntry<T>> for Entry<K, V> {
    ghost deserialize_fails = { entry_deserialize_fails K.Deserialize V.Deserialize };

    #[inline]
    fn deserialize(alloc: Global, view: View<'_, Entry<K, V>>) -> Result<TupleEntry<T>, ReadError>
        requires { IsValidView (entry_spec K.spec V.spec) view }
        ensures { Deserializes
            (RepresentsAsPair K.spec V.spec K.represents V.represents (λ x. T.tuple x.0))
            (entry_deserialize_fails K.Deserialize V.Deserialize)
            view.entry result }
    {
        let first = K::deserialize(alloc, view.key())?;
        let second = V::deserialize(alloc, view.value())?;
        Ok(TupleEntry(T::from_tuple(first, second)))
    }
}
