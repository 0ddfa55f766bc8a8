//! A hash table from end to end: written, validated, iterated over and looked up.
//!
//! The table is a SwissTable with rkyv's layout: triangular probing over strides of sixteen control
//! bytes, and a capacity that need not be a power of two. The calls take the hash of each item.
//! Unlike in rkyv, a lookup in any validated table reads at most ceil(capacity / 16) strides.
//!
//! - Begin with `write_and_look_over`: it does all of this, with a list and a `VecWriter`.
//! - `write_list` does the first step, with any `Writer`.
//! - `look_over` does the other steps, over untrusted bytes.
//!
//! # Examples
//!
//! ```rust
//! let items = [10u8, 20, 30];
//! let hashes = [2u64, 2, 5];
//! let result = write_and_look_over::<W, u8, &u8, _, _, _>(
//!     alloc,
//!     items.iter(),
//!     hashes.iter().copied(),
//!     3,
//!     (1, 1),
//!     &mut writer,
//!     2,
//!     |item| item.to_native() > 10,
//! );
//! ```
//!
//! ```rust
//! // Looks up a hash in that table, with a comparison that accepts every item.
//! fn look(alloc: Global, bytes: &[u8; 60], hash: u64) -> Result<TableReport, LookError> {
//!     let range = PartRange { lo: 0, hi: 48 };
//!     look_over::<Narrow, Entry<u32, u32>, _>(alloc, bytes, 48, range, hash, |_| true)
//! }
//! ```
#![tactic(auto)]

mod laws;
mod looking;
mod whole;
mod writing;

pub use laws::{
    errors_are_converted, lookups_find_listed, written_items_are_replaced, written_lists_are_found,
    written_lists_represent,
};
pub use looking::{LookError, TableReport, look_over};
pub use whole::{ListError, write_and_look_over};
pub use writing::{WrittenList, write_list};
