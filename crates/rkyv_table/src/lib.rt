//! Archived hash tables of items: writing, validating, reading and changing them.
//!
//! A table is a SwissTable, as rkyv's: a header, buckets, and one control byte for each bucket,
//! which is empty or has seven bits of the item's hash. A lookup compares sixteen at once, in the
//! order of triangular probing. The capacity need not be a power of two. Unlike in rkyv, all
//! mirrored control bytes are validated. The caller passes each item's hash and a comparison.
//!
//! Begin with `ArchivedHashTable`, the table that is read; `TableOf` is the element of its header.
//!
//! - `serialize_from_iter` writes a table, and `HashTableResolver::resolve` its header.
//! - `of` decodes the header at a view, once for all lookups. `get_with` looks an item up.
//! - `raw_iter` iterates over the items. `found_with`, `for_each_seal`, `raw_iter_seal` write them.
//! - `misplaced_by` counts the items that a lookup of the same item doesn't return.
//!
//! The module `controls` has the algorithms over only control bytes, `table` the calls on tables.
#![tactic(auto)]

pub mod controls;
pub mod table;

pub use controls::find::Strides;
pub use table::decoded::Decoded;
pub use table::raw_iter::RawIter;
pub use table::raw_iter_seal::RawIterSeal;
pub use table::write::resolve::HashTableResolver;
pub use table::{ArchivedHashTable, TableOf};
