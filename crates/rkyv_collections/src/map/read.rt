//! Reading a map: its length, lookups, iterators, comparisons and the count of misplaced keys.

mod accessors;
mod debug;
mod equality;
pub mod iter;
mod lookup;
mod misplaced;
