//! The implementations for the unit value.
//!
//! It makes no hasher call, and all unit values are the same.

ghost use Rattle.std.specs.Prelude.{◌≡◌, true, MatchResult};
ghost use Rattle.std.proofs.Common.{refl};
ghost use Rattle.rkyv_base.specs.{AtView, IsValidView, unit_represents, unit_spec};
ghost use Rattle.rkyv_base.specs.Lemmas.Empty.{unit_is_format};
ghost use Rattle.rkyv_keys.specs.{no_calls, nothing_fails, unit_calls, unit_fits, unit_same};
ghost use Rattle.rkyv_keys.specs.Lemmas.OfUnits.{unit_equivalence, unit_fits_its_equal, unit_fixed};
ghost use Rattle.rkyv_keys.specs.Lemmas.OfUnits.{unit_key, unit_query};

use crate::deserialize::Deserialize;
use crate::equality::{
    ElementEq, ElementEquiv, EqualsUniquely, EqualsWritten, MatchesNative, RepresentsUniquely,
};
use crate::hash::KeyHash;
use crate::keys::{FixedKey, KeyElement, NativeKey, Query};
use rkyv_base::{ReadError, View, Width};
use rkyv_scan::KeyHasher;
use std::alloc::Global;

impl KeyHash for () {
    ghost calls = { no_calls };

    #[inline]
    fn hash<H: KeyHasher>(&self, _state: &mut H) {}
}

impl ElementEq for () {
    ghost same = { unit_same };

    #[inline]
    fn same(_a: View<'_, ()>, _b: View<'_, ()>) -> bool
        requires a { IsValidView unit_spec _a }
        requires b { IsValidView unit_spec _b }
        ensures { result ≡ true }
    {
        true
    }
}

impl ElementEquiv for () {
    ghost equivalence = { unit_equivalence };
}

impl KeyElement for () {
    ghost key_calls = { unit_calls };

    #[inline]
    fn hash_view<H: KeyHasher>(_view: View<'_, ()>, state: &mut H)
        requires { IsValidView unit_spec _view }
        ensures { state.new ≡ state.old }
    {}

    ghost key = { unit_key };
}

impl FixedKey for () {
    ghost fixed = { unit_fixed };
}

impl Query<()> for () {
    ghost fits = { unit_fits };

    #[inline]
    fn same(&self, _key: View<'_, ()>) -> bool
        requires { IsValidView unit_spec _key }
        ensures { result ≡ true }
    {
        true
    }

    ghost query = { unit_query };
}

impl NativeKey<()> for () {
    ghost native = { unit_fits_its_equal };
}

impl MatchesNative<()> for () {
    ghost equals = { unit_represents };

    #[inline]
    fn eq_native(_view: View<'_, ()>, _value: &()) -> bool
        requires { IsValidView unit_spec _view }
        ensures { result ≡ true }
    {
        true
    }
}

impl Deserialize<()> for () {
    ghost deserialize_fails = { nothing_fails };

    #[inline]
    fn deserialize(_alloc: Global, _view: View<'_, ()>) -> Result<(), ReadError>
        requires { IsValidView unit_spec _view }
        ensures { MatchResult result
            (AtView unit_represents _view.entry)
            (AtView nothing_fails _view.entry) }
    {
        Ok(())
    }
}

impl<W: Width> EqualsWritten<W> for () {
    ghost equal = { unit_is_format };
}

impl EqualsUniquely<()> for () {
    ghost once = { λ v x b p h st eq. refl };
}

impl RepresentsUniquely<()> for () {
    ghost once = { λ v x b p h st st'. refl };
}
