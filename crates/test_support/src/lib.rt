//! Helpers for the tests of several crates.
//!
//! - `archives` returns archives of known bytes, and `written` compares archives with known bytes.
//! - `writers` has writers that fail, are near the greatest position, or keep lengths of pieces.
//! - `requests` counts the calls of iterators whose items are written.
//! - `changes` writes one byte, and counts the results for archives with changed bytes.
#![tactic(auto)]

pub mod archives;
pub mod changes;
pub mod requests;
pub mod writers;
pub mod written;
