//! A dictionary of integers or strings, archived as a hash map and driven by a script.
//!
//! The archive is a `HashMapOf` of `rkyv_collections`, in rkyv's layout: a SwissTable with
//! triangular probing, whose capacity need not be a power of two. Unlike in rkyv, a lookup in
//! an untrusted archive terminates. Repeated keys are kept, and `get` finds the first.
//!
//! - Begin with `run`: it reads a script from a reader and writes its output to a writer.
//! - `dict` executes one line at a time; `script` and `words` parse it.
//! - `archives` writes, validates and reads the archives.
//! - `laws` states that builds, checks and scripts have one result each, and what `==` and clones
//!   are.
#![tactic(auto)]

pub mod archives;
pub mod dict;
pub mod errors;
pub mod form;
pub mod hex;
pub mod laws;
pub mod pairs;
pub mod parts;
pub mod run;
pub mod script;
pub mod words;
