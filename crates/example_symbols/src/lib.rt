//! Symbol tables: maps of names to addresses, archived and looked up in place.
//!
//! - `lines` parses the lines that `nm` prints.
//! - `table` writes, validates and looks up the archives.
#![tactic(auto)]

pub mod lines;
pub mod table;
