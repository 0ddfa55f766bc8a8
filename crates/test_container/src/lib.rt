//! Tests of `rkyv_container`: worked rows of bytes, each error, round trips, and checksums.
#![tactic(auto)]

#[cfg(test)]
mod tests;
