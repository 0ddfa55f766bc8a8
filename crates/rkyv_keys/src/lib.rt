//! Keys: hashing, comparison, lookup and deserialization of archived values.
//!
//! - `KeyHash` hashes native values, and `KeyElement` archived ones. It replaces std's `Hash`,
//!   whose calls depend on the machine.
//! - `ElementEq` compares archived values, and `MatchesNative` compares them with native ones.
//! - `Query` is the trait of values by which a key is looked up: a native key, a `KeyView` of an
//!   archived one, or a value of another type. rkyv has `Borrow` in its place.
//! - `Deserialize` reads an archived value back.
//! - `Shown` formats an archived value by `Debug`.
//!
//! Scalar keys, text, byte strings, entries and the unit value implement them. The root
//! re-exports the traits. Begin with `KeyHash` and `Query`.
#![tactic(auto)]

mod bytes;
pub mod debug;
pub mod deserialize;
mod entries;
pub mod equality;
pub mod hash;
pub mod keys;
pub mod laws;
pub mod scalars;
mod texts;
mod units;
mod views;

pub use debug::{ElementDebug, Shown, valid_at};
pub use deserialize::Deserialize;
pub use equality::{
    ElementEq, ElementEquiv, EqualsUniquely, EqualsWritten, MatchesNative, RepresentsUniquely,
};
pub use hash::{KeyHash, hash_value};
pub use keys::{FixedKey, KeyElement, NativeKey, NativeQuery, Query};
pub use scalars::ScalarKey;
pub use views::KeyView;
