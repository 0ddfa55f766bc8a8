//! Tests of `rkyv_collections`: worked examples, and calls of its functions.
#![tactic(auto)]

#[cfg(test)]
mod tests;
