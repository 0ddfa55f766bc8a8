//! The implementations for entries and pairs.
//!
//! An entry is hashed and compared by its key and then its value. It is looked up by a pair
//! of queries.

ghost use Rattle.std.specs.Prelude.{◌≡◌, IsTrue, ◌↔◌};
ghost use Rattle.rkyv_base.specs.{AtView, IsValidView, PairRepresents, entry_spec};
ghost use Rattle.rkyv_base.specs.Lemmas.Pairs.{pair_is_format};
ghost use Rattle.rkyv_keys.specs.{after_calls, at_view, at_views, entry_calls};
ghost use Rattle.rkyv_keys.specs.{Deserializes, entry_deserialize_fails, entry_equals, entry_fits};
ghost use Rattle.rkyv_keys.specs.{entry_same, pair_calls};
ghost use Rattle.rkyv_keys.specs.Lemmas.Fixed.{entry_fixed};
ghost use Rattle.rkyv_keys.specs.Lemmas.OfEntries.{entry_equals_once, entry_once};
ghost use Rattle.rkyv_keys.specs.Lemmas.OfEntries.{entry_equivalence, entry_fits_its_equal};
ghost use Rattle.rkyv_keys.specs.Lemmas.OfEntries.{entry_key, entry_query};

use crate::deserialize::Deserialize;
use crate::equality::{
    ElementEq, ElementEquiv, EqualsUniquely, EqualsWritten, MatchesNative, RepresentsUniquely,
};
use crate::hash::KeyHash;
use crate::keys::{FixedKey, KeyElement, NativeKey, Query};
use rkyv_base::{Entry, ReadError, Represents, View, Width};
use rkyv_scan::KeyHasher;
use std::alloc::Global;

impl<A: KeyHash, B: KeyHash> KeyHash for (A, B) {
    ghost calls = { pair_calls A.calls B.calls };

    #[inline]
    fn hash<H: KeyHasher>(&self, state: &mut H) {
        self.0.hash(state);
        self.1.hash(state);
    }
}

impl<K: ElementEq, V: ElementEq> ElementEq for Entry<K, V> {
    ghost same = { entry_same K.spec V.spec K.same V.same };

    #[inline]
    fn same(a: View<'_, Entry<K, V>>, b: View<'_, Entry<K, V>>) -> bool
        requires a { IsValidView (entry_spec K.spec V.spec) a }
        requires b { IsValidView (entry_spec K.spec V.spec) b }
        ensures { result ≡ at_views (entry_same K.spec V.spec K.same V.same) a.entry b.entry }
    {
        K::same(a.key(), b.key()) && V::same(a.value(), b.value())
    }
}

impl<K: ElementEquiv, V: ElementEquiv> ElementEquiv for Entry<K, V> {
    ghost equivalence = { entry_equivalence K.laws V.laws K.equivalence V.equivalence };
}

impl<K: KeyElement, V: KeyElement> KeyElement for Entry<K, V> {
    ghost key_calls = { entry_calls K.spec V.spec K.key_calls V.key_calls };

    #[inline]
    fn hash_view<H: KeyHasher>(view: View<'_, Entry<K, V>>, state: &mut H)
        requires { IsValidView (entry_spec K.spec V.spec) view }
        ensures { let calls = entry_calls K.spec V.spec K.key_calls V.key_calls in
            state.new ≡ after_calls H.hasher state.old (at_view calls view.entry) }
    {
        K::hash_view(view.key(), state);
        V::hash_view(view.value(), state);
    }

    ghost key = { entry_key K.laws V.laws K.key V.key };
}

impl<K: FixedKey, V: FixedKey> FixedKey for Entry<K, V> {
    ghost fixed = { entry_fixed K.spec V.spec K.laws V.laws
        K.key_calls V.key_calls K.fixed V.fixed };
}

impl<K: KeyElement, V: KeyElement, A: Query<K>, B: Query<V>> Query<Entry<K, V>> for (A, B) {
    ghost fits = { entry_fits K.spec V.spec A.fits B.fits };

    #[inline]
    fn same(&self, key: View<'_, Entry<K, V>>) -> bool
        requires { IsValidView (entry_spec K.spec V.spec) key }
        ensures { result ≡ at_view (entry_fits K.spec V.spec A.fits B.fits self.now) key.entry }
    {
        self.0.same(key.key()) && self.1.same(key.value())
    }

    ghost query = { entry_query K.laws V.laws A.query B.query };
}

impl<
    K: KeyElement + Represents<A>,
    V: KeyElement + Represents<B>,
    A: NativeKey<K>,
    B: NativeKey<V>,
> NativeKey<Entry<K, V>> for (A, B) {
    ghost native = { entry_fits_its_equal K.laws V.laws
        K.represents V.represents A.eq B.eq A.fits B.fits A.native B.native };
}

impl<A, B, K: MatchesNative<A>, V: MatchesNative<B>> MatchesNative<(A, B)> for Entry<K, V> {
    ghost equals = { entry_equals K.spec V.spec K.equals V.equals };

    #[inline]
    fn eq_native(view: View<'_, Entry<K, V>>, value: &(A, B)) -> bool
        requires { IsValidView (entry_spec K.spec V.spec) view }
        ensures { IsTrue result
            ↔ AtView (entry_equals K.spec V.spec K.equals V.equals) view.entry value.now }
    {
        K::eq_native(view.key(), &value.0) && V::eq_native(view.value(), &value.1)
    }
}

impl<A: Drop, B, K: Deserialize<A>, V: Deserialize<B>> Deserialize<(A, B)> for Entry<K, V> {
    ghost deserialize_fails = { entry_deserialize_fails K.Deserialize V.Deserialize };

    #[inline]
    fn deserialize(alloc: Global, view: View<'_, Entry<K, V>>) -> Result<(A, B), ReadError>
        requires { IsValidView (entry_spec K.spec V.spec) view }
        ensures { Deserializes (PairRepresents K.spec V.spec K.represents V.represents)
            (entry_deserialize_fails K.Deserialize V.Deserialize) view.entry result }
    {
        let key = K::deserialize(alloc, view.key())?;
        let value = V::deserialize(alloc, view.value())?;
        Ok((key, value))
    }
}

impl<W: Width, A: EqualsWritten<W>, B: EqualsWritten<W>> EqualsWritten<W> for (A, B)
where
    A::Archived: MatchesNative<A>,
    B::Archived: MatchesNative<B>,
{
    ghost equal = { pair_is_format A.Archived.spec B.Archived.spec A.Archived.laws B.Archived.laws
        A.Archived.equals B.Archived.equals A.format B.format A.equal B.equal };
}

impl<A: PartialEq, B: PartialEq, K: EqualsUniquely<A>, V: EqualsUniquely<B>> EqualsUniquely<(A, B)>
    for Entry<K, V> {
    ghost once = { entry_equals_once K.laws V.laws K.represents V.represents K.equals V.equals
        A.eq B.eq K.once V.once };
}

impl<
    A: PartialEq,
    B: PartialEq,
    K: RepresentsUniquely<A>,
    V: RepresentsUniquely<B>,
> RepresentsUniquely<(A, B)> for Entry<K, V> {
    ghost once = { entry_once K.laws V.laws K.represents V.represents A.eq B.eq K.once V.once };
}
