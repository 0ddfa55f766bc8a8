//! A container for archives in files: a header of 32 bytes, then the archive.
//!
//! The header names the kind of collection, the types of its keys and values, and its width. It has
//! the length of the archive, and its checksum if the writer asks for one. `open_as` opens
//! no container of other contents. No function compares the contents with the archive itself.
//!
//! - To write, `fill_header` writes a header over the first 32 bytes, which the caller has left
//!   before the archive. `Header::new` and `Header::to_bytes` are its two steps.
//! - To read, `open_as` returns the archive of a container with the expected contents. `open`
//!   returns the header and the archive of any container.
//!
//! A container detects a wrong type and an accident, not an attacker. Its archive is still
//! untrusted bytes that `rkyv_base::access` validates.
#![tactic(auto)]

pub mod checksum;
pub mod container;
pub mod contents;
pub mod errors;
mod fields;
pub mod header;
pub mod laws;

pub use checksum::adler32;
pub use container::{fill_header, open, open_as};
pub use contents::{Contents, ItemType, Kind, Width};
pub use errors::ContainerError;
pub use header::{HEADER_LEN, Header, MAGIC, VERSION};
