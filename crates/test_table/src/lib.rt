//! Tests of `rkyv_table` and `rkyv_end_to_end`: worked examples, and a call of each function.
#![tactic(auto)]

#[cfg(test)]
mod tests;
