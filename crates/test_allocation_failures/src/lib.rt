//! Tests of calls whose allocations fail.
//!
//! `tools/fail-allocations` runs them, and makes each allocation fail in turn.
//!
//! A test whose name ends in `succeeds` passes only if no allocation fails. Each other test that
//! allocates has one beside it that makes the same calls. If all tests of a run pass, no allocation
//! failed.
//!
//! Each test of `counts` makes eight allocations. The script compares the number.
#![tactic(auto)]

#[cfg(test)]
mod tests;
