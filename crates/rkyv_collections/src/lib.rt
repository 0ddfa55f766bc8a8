//! Archived hash maps and hash sets: writing, validating, reading and changing them in place.
//!
//! A map is a SwissTable of entries: it has one control byte for each bucket, and a lookup compares
//! sixteen of them at once. Probing is triangular, and a capacity need not be a power of two.
//! A set is the map of its keys to the unit value. The bytes are rkyv's, as tests compare them.
//! Unlike in rkyv, each lookup terminates, also in an untrusted archive.
//!
//! - To archive a list, wrap it in `MapPairs` or `SetItems`; a std map or set, in `Hashed`.
//! - To read, pass a view of a `HashMapOf` to `ArchivedHashMap::of`, or of a `HashSetOf`
//!   to `ArchivedHashSet::of`. Begin with `get` and `iter`.
//! - To write values in place, `map::in_place` has a table of the calls.
//! - To compare, there are `eq_map`, `eq_set` and `eq_std`; `deserialize_std` returns std's types.
//! - `misplaced` counts the keys that lookups don't find.
//!
//! `FxHasher64` takes no secret key, so it doesn't protect from chosen input.
//! In an untrusted archive, a lookup may read all control bytes.
#![tactic(auto)]

pub mod lists;
pub mod map;
pub mod set;
pub mod std_maps;

pub use lists::{MapPairs, SetItems};
pub use map::in_place::iter_seal::{IterMut, ValuesMut};
pub use map::read::iter::{Iter, Keys, Values};
pub use map::write::HashMapResolver;
pub use map::{ArchivedHashMap, HashMapOf};
pub use rkyv_keys::KeyView;
pub use rkyv_keys::keys::{KeyElement, NativeKey, NativeQuery, Query};
pub use rkyv_scan::hash::{FxHasher64, FxHasher64Wide, KeyHasher};
pub use rkyv_table::Decoded;
pub use set::write::HashSetResolver;
pub use set::{ArchivedHashSet, HashSetOf};
pub use std_maps::equality::EqArchived;
pub use std_maps::hashed::Hashed;
