//! Tests of `rkyv_base`: worked examples, and one call of each public function.
#![tactic(auto)]

#[cfg(test)]
mod tests;
