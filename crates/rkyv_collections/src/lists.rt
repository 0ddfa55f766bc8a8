//! Lists that are archived as maps and as sets.
//!
//! `MapPairs` is a list of pairs, and `SetItems` a list of items.

mod items;
pub mod laws;
mod pairs;

pub use items::SetItems;
pub use pairs::MapPairs;
