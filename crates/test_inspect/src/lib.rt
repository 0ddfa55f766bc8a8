//! Tests of `rkyv_inspect`: the numbers, the regions, the text and the drawing of archives.
//!
//! The bytes of the archives and the expected numbers follow from the rules of `docs/FORMAT.md`.
#![tactic(auto)]

#[cfg(test)]
mod tests;
