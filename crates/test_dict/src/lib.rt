//! Tests of `rkyv_dict`: scripts and their output, archives of each form, and streams that fail.
#![tactic(auto)]

#[cfg(test)]
mod tests;
