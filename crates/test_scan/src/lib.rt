//! Tests of `rkyv_scan`: worked examples, and one call of each public function.
#![tactic(auto)]

#[cfg(test)]
mod tests;
