//! Inspections of archives of maps and sets, for debugging. rkyv has no counterpart.
//!
//! Begin with `inspect`. It validates an archive, and returns an `Inspection`: the values of the
//! header, the lookups of all keys, and all bytes field by field. `Printed` is its text, and
//! `Drawing` a drawing of its regions.
//!
//! The maps have a SwissTable, a hash table with a control byte for each bucket: seven bits of a
//! hash, or empty. A lookup reads strides of sixteen control bytes, from the hash modulo the
//! capacity on, which need not be a power of two, and then by triangular probing. The histogram of
//! strides shows how well the hashes spread. A key is misplaced if its lookup doesn't find it.
//!
//! Keys are `u32`, `u64` or text, and values are these or unit. The values of a set are unit.
#![tactic(auto)]

pub mod drawing;
pub mod errors;
pub mod fields;
pub mod index_regions;
pub mod index_summary;
pub mod inspection;
pub mod map_regions;
pub mod map_summary;
pub mod printing;
pub mod regions;
pub mod summary;
mod table_regions;

pub use drawing::Drawing;
pub use errors::InspectError;
pub use inspection::{Inspection, inspect};
pub use printing::{ContainerLine, Printed};
pub use regions::{Region, RegionKind};
pub use summary::{Lookups, Summary};
