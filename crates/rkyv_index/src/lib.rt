//! Archived index maps and index sets: hash maps and hash sets in insertion order.
//!
//! The pairs of a map are contiguous entries, in insertion order. Their indices are in a
//! SwissTable, a hash table with a control byte for each bucket: seven bits of a hash, or empty. A
//! lookup reads sixteen control bytes at a time. It begins at the hash modulo the capacity, which
//! need not be a power of two, and continues by triangular probing. A set maps its keys to `()`.
//!
//! To write, begin with `OrderedPairs` or `OrderedItems`, or for iterators `serialize_from_iter`.
//! To read, begin with `ArchivedIndexMap::of` or `ArchivedIndexSet::of`, then `get`, `get_full`,
//! `get_index`, `iter` or `deserialize_pairs`. The module `map::in_place` lists the calls that
//! write values in place.
//!
//! The bytes are rkyv's. Unlike rkyv, validation checks that each index is below the length, and
//! equal keys may be written. In an untrusted archive, a lookup may read all control bytes;
//! `misplaced` counts the keys that lookups miss. `FxHasher64` doesn't protect from chosen keys.
#![tactic(auto)]

pub mod lists;
pub mod map;
pub mod round_trip;
pub mod set;
pub mod width;

pub use lists::{OrderedItems, OrderedPairs};
pub use map::read::iter::{Iter, Keys, Values};
pub use map::write::resolve::IndexMapResolver;
pub use map::{ArchivedIndexMap, IndexMapOf};
pub use rkyv_keys::KeyView;
pub use rkyv_keys::keys::{KeyElement, NativeKey, NativeQuery, Query};
pub use rkyv_scan::hash::{FxHasher64, FxHasher64Wide, KeyHasher};
pub use rkyv_table::{Decoded, Strides};
pub use set::write::IndexSetResolver;
pub use set::{ArchivedIndexSet, IndexSetOf};
pub use width::IndexWidth;
