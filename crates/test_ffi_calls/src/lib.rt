//! Tests of `ffi_calls`, on archives of known bytes.
//!
//! Tables list archives of each kind of collection, whose keys are numbers of 32 bits, numbers
//! of 64 bits or texts, narrow and wide, and some of the other types. Each public call runs on
//! each of these archives. Each status that a call can return on small inputs is returned once.
//! The statuses 24 to 29 take archives of gigabytes. No validation of these maps fails with 23,
//! and only one of an index map with 21.
//!
//! A test whose name ends in `succeeds` passes only if no allocation fails. Each other test passes
//! whichever allocation fails.
#![tactic(auto)]

#[cfg(test)]
mod tests;
