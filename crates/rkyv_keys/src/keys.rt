//! Keys, and the queries by which they are looked up.
//!
//! `KeyElement` is the trait of archived keys, and `Query` the trait of values by which they
//! are looked up. A `NativeKey` is a query for its own archived form. A `NativeQuery` finds
//! the archived forms of the native keys that it equals.

ghost use Rattle.std.specs.Prelude.{◌≡◌, ℕ, Bool, List};
ghost use Rattle.rkyv_scan.specs.{HasherCall};
ghost use Rattle.rkyv_base.specs.{IsValidView};
ghost use Rattle.rkyv_keys.specs.{FitsItsEqual, IsKey, IsQuery, MakesFixedCalls, after_calls};
ghost use Rattle.rkyv_keys.specs.{at_view};

use crate::equality::ElementEquiv;
use crate::hash::KeyHash;
use rkyv_base::{Represents, View};
use rkyv_scan::KeyHasher;

/// An element whose values are hashed in place.
///
/// # Examples
///
/// ```rust
/// impl KeyElement for LowByte {
///     ghost key_calls = { low_calls };
///
///     fn hash_view<H: KeyHasher>(view: View<'_, LowByte>, state: &mut H)
///         requires { IsValidView low_spec view }
///         ensures { state.new ≡ after_calls H.hasher state.old (at_view low_calls view.entry) }
///     {
///         state.write_u8((number(view) % 256) as u8);
///     }
///
///     ghost key = { low_key };
/// }
/// ```
pub trait KeyElement: ElementEquiv {
    // The calls of the value at a position, in order.
    ghost key_calls: { List ℕ → ℕ → List HasherCall };

    /// Feeds the calls of an archived value to a hasher.
    fn hash_view<H: KeyHasher>(view: View<'_, Self>, state: &mut H)
        requires { IsValidView Self.spec view }
        ensures { state.new ≡ after_calls H.hasher state.old (at_view key_calls view.entry) };

    ghost key: { IsKey Self.spec Self.same key_calls };
}

/// A value by which a key of the element `K` is looked up.
///
/// # Examples
///
/// ```rust
/// impl Query<LowByte> for EndsIn {
///     ghost fits = { low_fits (λ q. q.0) };
///
///     fn same(&self, key: View<'_, LowByte>) -> bool
///         requires { IsValidView low_spec key }
///         ensures { result ≡ at_view (low_fits (λ q. q.0) self.now) key.entry }
///     {
///         u32::from(self.0) == number(key) % 256
///     }
///
///     ghost query = { low_query (λ q. q.0) };
/// }
/// ```
pub trait Query<K: KeyElement>: KeyHash {
    // The query fits the key at a position.
    ghost fits: { Self → List ℕ → ℕ → Bool };

    /// Returns `true` if and only if the query matches the key.
    fn same(&self, key: View<'_, K>) -> bool
        requires { IsValidView K.spec key }
        ensures { result ≡ at_view (fits self.now) key.entry };

    ghost query: { IsQuery K.spec K.same K.key_calls Self.calls fits };
}

/// A type whose values are archived as keys of the element `K`, and which look these up.
pub trait NativeKey<K: KeyElement + Represents<Self>>: Query<K> + Eq {
    ghost native: { FitsItsEqual K.spec K.represents Self.eq Self.fits };
}

/// A query that matches an archived native key of type `A` if and only if they are equal.
///
/// Each native key is such a query of its own type. A `&str` is one of `String` keys,
/// and a `String` one of `&str` keys. The laws of lookups in lists are about these queries.
pub trait NativeQuery<A, K: KeyElement + Represents<A>>: Query<K> {
    // The query equals a native key.
    ghost equals: { Self → A → Bool };

    ghost finds: { FitsItsEqual K.spec K.represents equals Self.fits };
}

impl<A: NativeKey<K>, K: KeyElement + Represents<A>> NativeQuery<A, K> for A {
    ghost equals = { A.eq };

    ghost finds = { A.native };
}

/// A key whose hash makes no call for a `usize` or an `isize`.
///
/// `FxHasher64` and `FxHasher64Wide` hash it alike. All keys of this crate but byte strings
/// implement it, an entry if both of its parts do.
pub trait FixedKey: KeyElement {
    ghost fixed: { MakesFixedCalls Self.spec Self.key_calls };
}
