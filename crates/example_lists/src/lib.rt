//! Lookups in archives of lists, one for each kind of collection, and a write by key.
//!
//! Each contract is about the list that the archive represents: a lookup finds the first pair
//! of the list whose key equals the given one, and `None` or `false` if the list has no such pair.
//! The bytes are untrusted. Valid archives of the type are opened, and an error is the first
//! fault of other bytes.
#![tactic(auto)]

pub mod containers;
pub mod in_place;
pub mod index_maps;
pub mod maps;
pub mod maps_of_std;
pub mod sets;
