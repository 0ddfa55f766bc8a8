//! The core of an archive: elements and their validation, views, seals and writers.
//!
//! - To write, `to_bytes` returns the archive of a value, and `write_root` appends it to a writer.
//! - To read, `access` validates untrusted bytes and returns a `View` of the root.
//! - To write in place, `access_mut` validates the bytes and returns an `ArchiveSeal` of the root.
//!
//! An `Element` is a type of archived values; `Archive` and `Serialize` are the traits of types
//! that are archived as an element. Unlike in rkyv, a view is a position in the archive's bytes,
//! validation is always available, and the width is a type: calls that end in `_in` take it, and
//! the others, but for `access_unchecked`, are for `Narrow`.
//!
//! The root re-exports most names that callers need. Others, as `access::access`, stay in their
//! modules.
#![tactic(auto)]

pub mod access;
pub mod adapter;
pub mod archive;
mod byte_search;
pub mod bytes;
pub mod element;
pub mod entry;
pub mod errors;
pub mod laws;
pub mod lend;
pub mod limit;
mod numbers;
pub mod pairs;
pub mod part;
pub mod root;
pub mod scalars;
pub mod seal;
pub mod seal_text;
pub mod strings;
pub mod text;
mod unit;
pub mod view;
pub mod width;
pub mod writer;

pub use access::{
    access_in, access_mut, access_mut_in, access_mut_with, access_mut_with_in, access_unchecked,
};
pub use adapter::EntryAdapter;
pub use archive::{Archive, ResolveResult, Serialize, WriteResult};
pub use bytes::{Bytes, BytesResolver};
pub use element::{Element, HasSpec, PartRange, Represents};
pub use entry::{Entry, MAX_ELEMENT_SIZE, value_offset, whole_size};
pub use errors::{DistanceTooLarge, IteratorLengthMismatch, ReadError, VerifyError, WriteError};
pub use lend::Lend;
pub use limit::{LimitFault, LimitWriter};
pub use pairs::EntryResolver;
pub use part::{distance_target, part_in};
pub use root::{to_bytes, to_bytes_in, write_root, write_root_in};
pub use scalars::Scalar;
pub use seal::{ArchiveSeal, Seal, set_at, set_value, split_at_value};
pub use strings::TextResolver;
pub use text::Text;
pub use view::{View, found_pos};
pub use width::{Narrow, Wide, Width};
pub use writer::{NoMemory, VecWriter, Writer, align_for, align_for_in, append, append_in};
