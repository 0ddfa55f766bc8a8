//! Spots as keys.
ghost use Rattle.std.specs.Prelude.{◌≡◌, IsTrue, MatchResult, ◌↔◌};
ghost use Rattle.rkyv_base.specs.{AtView, IsValidView};
ghost use Rattle.rkyv_keys.specs.{after_calls, at_view, at_views, nothing_fails};
ghost use Rattle.test_user_types.specs.Spot.{SpotRepresents, spot_spec};
ghost use Rattle.test_user_types.specs.SpotKeys.{spot_calls, spot_fits, spot_key_calls, spot_same};
ghost use Rattle.test_user_types.specs.Lemmas.SpotKeys.{spot_equivalence, spot_fits_its_equal};
ghost use Rattle.test_user_types.specs.Lemmas.SpotKeys.{spot_key, spot_query};

use crate::spot::Spot;
use crate::spot_archived::{ArchivedSpot, spot_of};
use rkyv_base::{Entry, ReadError, View};
use rkyv_keys::{
    Deserialize, ElementEq, ElementEquiv, KeyElement, KeyHash, MatchesNative, NativeKey, Query,
};
use rkyv_scan::KeyHasher;
use std::alloc::Global;

impl ElementEq for ArchivedSpot {
    ghost same = { spot_same };

    fn same(a: View<'_, ArchivedSpot>, b: View<'_, ArchivedSpot>) -> bool
        requires a { IsValidView spot_spec a }
        requires b { IsValidView spot_spec b }
        ensures { result ≡ at_views spot_same a.entry b.entry }
    {
        Entry::<i32, i32>::same(
            a.at::<Entry<i32, i32>>(a.pos()),
            b.at::<Entry<i32, i32>>(b.pos()),
        )
    }
}

impl ElementEquiv for ArchivedSpot {
    ghost equivalence = { spot_equivalence };
}

impl KeyElement for ArchivedSpot {
    ghost key_calls = { spot_key_calls };

    fn hash_view<H: KeyHasher>(view: View<'_, ArchivedSpot>, state: &mut H)
        requires { IsValidView spot_spec view }
        ensures { state.new ≡ after_calls H.hasher state.old (at_view spot_key_calls view.entry) }
    {
        Entry::<i32, i32>::hash_view(view.at::<Entry<i32, i32>>(view.pos()), state);
    }

    ghost key = { spot_key };
}

impl KeyHash for Spot {
    ghost calls = { spot_calls };

    fn hash<H: KeyHasher>(&self, state: &mut H) {
        state.write_i32(self.x);
        state.write_i32(self.y);
    }
}

impl Query<ArchivedSpot> for Spot {
    ghost fits = { spot_fits };

    fn same(&self, key: View<'_, ArchivedSpot>) -> bool
        requires { IsValidView spot_spec key }
        ensures { result ≡ at_view (spot_fits self.now) key.entry }
    {
        (self.x, self.y).same(key.at::<Entry<i32, i32>>(key.pos()))
    }

    ghost query = { spot_query };
}

impl NativeKey<ArchivedSpot> for Spot {
    ghost native = { spot_fits_its_equal };
}

impl MatchesNative<Spot> for ArchivedSpot {
    ghost equals = { SpotRepresents };

    fn eq_native(view: View<'_, ArchivedSpot>, value: &Spot) -> bool
        requires { IsValidView spot_spec view }
        ensures { IsTrue result ↔ AtView SpotRepresents view.entry value.now }
    {
        Entry::<i32, i32>::eq_native(view.at::<Entry<i32, i32>>(view.pos()), &(value.x, value.y))
    }
}

impl Deserialize<Spot> for ArchivedSpot {
    ghost deserialize_fails = { nothing_fails };

    fn deserialize(_alloc: Global, view: View<'_, ArchivedSpot>) -> Result<Spot, ReadError>
        requires { IsValidView spot_spec view }
        ensures { MatchResult result (AtView SpotRepresents view.entry) (AtView nothing_fails
            view.entry) }
    {
        Ok(spot_of(view))
    }
}
