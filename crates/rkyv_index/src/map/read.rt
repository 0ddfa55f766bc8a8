//! Reading an index map: its length, lookups, iterators, comparisons, the count of misplaced keys,
//! and lists of its pairs.

pub(crate) mod accessors;
mod debug;
mod deserialize;
pub(crate) mod entries;
mod equality;
pub mod iter;
mod lookup;
mod misplaced;
