//! The implementations for scalars.
//!
//! A type that implements `ScalarKey` has the traits of keys. Integers, `bool` and `char`
//! implement it.

ghost use Rattle.std.specs.Prelude.{◌≡◌, IsTrue, ◌↔◌, MatchResult};
ghost use Rattle.std.specs.Cmp.{booleans_Decides, signed_Decides, unsigned_Decides};
ghost use Rattle.rkyv_scan.specs.{HasherCall, I16, I32, I64, I8, IsFixed, U16, U32, U64, U8};
ghost use Rattle.rkyv_base.specs.{AtView, IsValidView, ScalarRepresents};
ghost use Rattle.rkyv_base.specs.Lemmas.Scalar.{scalar_is_format};
ghost use Rattle.rkyv_keys.specs.{DecidesEquality, after_calls, at_view, at_views, bool_call};
ghost use Rattle.rkyv_keys.specs.{nothing_fails, one_call, scalar_calls, scalar_fits, scalar_same};
ghost use Rattle.rkyv_keys.specs.Lemmas.QueryLaws.{native_once};
ghost use Rattle.rkyv_keys.specs.Lemmas.OfScalars.{scalar_equivalence, scalar_fits_its_equal};
ghost use Rattle.rkyv_keys.specs.Lemmas.OfScalars.{scalar_fixed, scalar_key, scalar_query};

use crate::deserialize::Deserialize;
use crate::equality::{
    ElementEq, ElementEquiv, EqualsUniquely, EqualsWritten, MatchesNative, RepresentsUniquely,
};
use crate::hash::KeyHash;
use crate::keys::{FixedKey, KeyElement, NativeKey, Query};
use rkyv_base::{ReadError, Scalar, View, Width};
use rkyv_scan::KeyHasher;
use std::alloc::Global;

/// A scalar that is hashed by one call, and is equal only to itself.
///
/// Each is a key, is a query for itself and is deserialized as itself.
pub trait ScalarKey: Scalar + Eq {
    // Its one call.
    ghost call: { Self → HasherCall };

    /// Feeds the value's call to a hasher.
    fn feed<H: KeyHasher>(self, state: &mut H)
        ensures { state.new ≡ H.hasher.feed state.old (call self) };

    ghost decides: { DecidesEquality Self.eq };

    ghost fixed: { (v : Self) → IsFixed (call v) };
}

impl ScalarKey for u8 {
    ghost call = { U8 };

    #[inline]
    fn feed<H: KeyHasher>(self, state: &mut H) {
        state.write_u8(self);
    }

    ghost decides = { unsigned_Decides };

    ghost fixed = { λ v. tt };
}

impl ScalarKey for u16 {
    ghost call = { U16 };

    #[inline]
    fn feed<H: KeyHasher>(self, state: &mut H) {
        state.write_u16(self);
    }

    ghost decides = { unsigned_Decides };

    ghost fixed = { λ v. tt };
}

impl ScalarKey for u32 {
    ghost call = { U32 };

    #[inline]
    fn feed<H: KeyHasher>(self, state: &mut H) {
        state.write_u32(self);
    }

    ghost decides = { unsigned_Decides };

    ghost fixed = { λ v. tt };
}

impl ScalarKey for u64 {
    ghost call = { U64 };

    #[inline]
    fn feed<H: KeyHasher>(self, state: &mut H) {
        state.write_u64(self);
    }

    ghost decides = { unsigned_Decides };

    ghost fixed = { λ v. tt };
}

impl ScalarKey for i8 {
    ghost call = { I8 };

    #[inline]
    fn feed<H: KeyHasher>(self, state: &mut H) {
        state.write_i8(self);
    }

    ghost decides = { signed_Decides };

    ghost fixed = { λ v. tt };
}

impl ScalarKey for i16 {
    ghost call = { I16 };

    #[inline]
    fn feed<H: KeyHasher>(self, state: &mut H) {
        state.write_i16(self);
    }

    ghost decides = { signed_Decides };

    ghost fixed = { λ v. tt };
}

impl ScalarKey for i32 {
    ghost call = { I32 };

    #[inline]
    fn feed<H: KeyHasher>(self, state: &mut H) {
        state.write_i32(self);
    }

    ghost decides = { signed_Decides };

    ghost fixed = { λ v. tt };
}

impl ScalarKey for i64 {
    ghost call = { I64 };

    #[inline]
    fn feed<H: KeyHasher>(self, state: &mut H) {
        state.write_i64(self);
    }

    ghost decides = { signed_Decides };

    ghost fixed = { λ v. tt };
}

impl ScalarKey for bool {
    ghost call = { bool_call };

    #[inline]
    fn feed<H: KeyHasher>(self, state: &mut H) {
        state.write_u8(u8::from(self));
    }

    ghost decides = { booleans_Decides };

    ghost fixed = { λ v. tt };
}

impl ScalarKey for char {
    ghost call = { U32 };

    #[inline]
    fn feed<H: KeyHasher>(self, state: &mut H) {
        state.write_u32(u32::from(self));
    }

    ghost decides = { unsigned_Decides };

    ghost fixed = { λ v. tt };
}

impl<N: ScalarKey> KeyHash for N {
    ghost calls = { one_call N.call };

    #[inline]
    fn hash<H: KeyHasher>(&self, state: &mut H) {
        (*self).feed(state);
    }
}

impl<N: ScalarKey> ElementEq for N {
    ghost same = { scalar_same N.encoding N.eq };

    #[inline]
    fn same(a: View<'_, N>, b: View<'_, N>) -> bool
        requires a { IsValidView N.spec a }
        requires b { IsValidView N.spec b }
        ensures { result ≡ at_views (scalar_same N.encoding N.eq) a.entry b.entry }
    {
        a.to_native() == b.to_native()
    }
}

impl<N: ScalarKey> ElementEquiv for N {
    ghost equivalence = { scalar_equivalence N.spec N.encoding N.eq N.decides };
}

impl<N: ScalarKey> KeyElement for N {
    ghost key_calls = { scalar_calls N.encoding N.call };

    #[inline]
    fn hash_view<H: KeyHasher>(view: View<'_, N>, state: &mut H)
        requires { IsValidView N.spec view }
        ensures { let calls = scalar_calls N.encoding N.call in
            state.new ≡ after_calls H.hasher state.old (at_view calls view.entry) }
    {
        view.to_native().feed(state);
    }

    ghost key = { scalar_key N.spec N.encoding N.eq N.decides N.call N.Scalar.laws };
}

impl<N: ScalarKey> FixedKey for N {
    ghost fixed = { scalar_fixed N.spec N.encoding N.call N.fixed };
}

impl<N: ScalarKey> Query<N> for N {
    ghost fits = { scalar_fits N.encoding N.eq };

    #[inline]
    fn same(&self, key: View<'_, N>) -> bool
        requires { IsValidView N.spec key }
        ensures { result ≡ at_view (scalar_fits N.encoding N.eq self.now) key.entry }
    {
        *self == key.to_native()
    }

    ghost query = { scalar_query N.spec N.encoding N.eq N.decides N.call };
}

impl<N: ScalarKey> NativeKey<N> for N {
    ghost native = { scalar_fits_its_equal N.spec N.encoding N.eq };
}

impl<N: ScalarKey> MatchesNative<N> for N {
    ghost equals = { ScalarRepresents N.encoding };

    #[inline]
    fn eq_native(view: View<'_, N>, value: &N) -> bool
        requires { IsValidView N.spec view }
        ensures { IsTrue result ↔ AtView (ScalarRepresents N.encoding) view.entry value.now }
    {
        view.to_native() == *value
    }
}

impl<N: ScalarKey> Deserialize<N> for N {
    ghost deserialize_fails = { nothing_fails };

    #[inline]
    fn deserialize(_alloc: Global, view: View<'_, N>) -> Result<N, ReadError>
        requires { IsValidView N.spec view }
        ensures { MatchResult result
            (AtView (ScalarRepresents N.encoding) view.entry)
            (AtView nothing_fails view.entry) }
    {
        Ok(view.to_native())
    }
}

impl<N: ScalarKey, W: Width> EqualsWritten<W> for N {
    ghost equal = { scalar_is_format N.spec N.encoding N.Scalar.laws };
}

impl<N: ScalarKey> EqualsUniquely<N> for N {
    ghost once = { native_once N.spec (ScalarRepresents N.encoding) N.eq
        (scalar_fits N.encoding N.eq) (scalar_fits_its_equal N.spec N.encoding N.eq)
        N.Eq.laws.refl };
}

impl<N: ScalarKey> RepresentsUniquely<N> for N {
    ghost once = { native_once N.spec (ScalarRepresents N.encoding) N.eq
        (scalar_fits N.encoding N.eq) (scalar_fits_its_equal N.spec N.encoding N.eq)
        N.Eq.laws.refl };
}
