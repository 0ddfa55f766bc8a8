//! Symbols, which are archived as the pair of a text and a number.

use rkyv_user_types::AsPair;

/// A name and its address.
#[derive(Debug, Drop)]
pub struct Symbol {
    pub name: String,
    pub address: u64,
}

impl AsPair for Symbol {
    type First = String;

    type Second = u64;

    ghost pair = { λ symbol. (symbol.name, symbol.address) };

    fn first(&self) -> &String {
        &self.name
    }

    fn second(&self) -> &u64 {
        &self.address
    }
}
