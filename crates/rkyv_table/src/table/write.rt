//! Writing tables.
//!
//! - `serialize` writes the items of a table and its control bytes, and `resolve` its header.
//! - `source`, `take` and `take_two` take the input, and place each item.
//! - `bytes` writes the placed items: their parts, the buckets, the control bytes. `chunks` joins
//!   small buckets to one piece.

mod buckets;
mod bytes;
pub mod chunks;
mod parts;
pub mod resolve;
mod serialize;
mod source;
pub mod take;
mod take_two;
