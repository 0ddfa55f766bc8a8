//! User-defined types that are archived as the pair of their parts.
//!
//! A wrapped value is an element of any collection, and a key that is hashed and compared by its
//! parts. Unlike rkyv's derived types, three parts are nested pairs. Begin with `AsPair`.
//!
//! - `AsPair` and `PairEntry` are for types that return their parts by reference.
//! - `AsTuple` and `TupleEntry` are for types that return copies of their parts.
//! - `FromPair` and `FromTuple` are for deserialization.
//!
//! # Examples
//!
//! ```rust
//! let point = PairEntry(Point { x: -2, y: 3 });
//!
//! let bytes = to_bytes(rt.alloc(), &point)?;
//! let root = access::<Entry<i32, i32>>(bytes.as_slice())?;
//! let back: PairEntry<Point> = Entry::<i32, i32>::deserialize(rt.alloc(), root)?;
//! ```
#![tactic(auto)]

pub mod laws;
pub mod pair;
mod pair_keys;
pub mod tuple;
mod tuple_keys;

pub use pair::{AsPair, FromPair, PairEntry};
pub use tuple::{AsTuple, FromTuple, TupleEntry};
