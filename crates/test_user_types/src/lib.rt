//! User-defined types: the examples of docs/OWN_TYPES.md, with their tests.
#![tactic(auto)]

pub mod color;
mod color_scalar;
pub mod landmark;
pub mod pixel;
pub mod point;
pub mod segment;
pub mod spot;
pub mod spot_archived;
pub mod spot_keys;
pub mod symbol;
#[cfg(test)]
mod tests;
pub mod wide;
