//! Hash maps and sets, index maps and containers for C, of numbers or texts, narrow or wide.
//!
//! - `collection` validates archives and decodes their headers, by the codes of their contents.
//!   `misplaced` counts the keys that a lookup of the key itself doesn't find.
//! - `lookup` looks up keys in any collection, by the codes of its contents.
//! - `overwrite` overwrites values that are numbers, in any map.
//! - `iteration` stores the items of any collection, by the codes of its contents.
//! - `building` writes the archive of a list of items as any collection, and leaks its bytes to the
//!   caller.
//! - `containers` writes the headers of containers, opens containers, and updates their checksums.
//! - `any_value` and `from_any` have keys and values of any type. `texts` validates texts.
//! - `explanation` explains the first error of an archive or of a container, with its numbers.
//! - `status` has the statuses that calls return.
//! - `laws` states that archives represent their lists, that walks visit each pair once, and that
//!   clones are equal to their values.
#![tactic(auto)]

pub mod any_value;
mod archives;
pub mod building;
pub mod collection;
pub mod containers;
pub mod explanation;
pub mod from_any;
mod index;
mod index_in_place;
pub mod iteration;
pub mod laws;
pub mod lookup;
mod map_lookup;
pub mod misplaced;
pub mod overwrite;
pub mod status;
pub mod texts;
pub mod types;
mod value;
mod walk;
