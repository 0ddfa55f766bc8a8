//! Archiving, comparing and deserializing std's maps and sets.
//!
//! - `hashed` has the wrapper for archiving them, or references to them.
//! - `equality` compares them with archived maps and sets.
//! - `round_trip` writes, opens and compares them, and `laws` has the laws of their archives.
//! - `nested` has the laws of std maps and sets that are values of std maps.

mod deserialize;
pub mod equality;
mod hash_map;
mod hash_set;
pub mod hashed;
pub mod laws;
pub mod nested;
mod references;
pub mod round_trip;
