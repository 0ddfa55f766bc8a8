//! Tests of the examples: the first map, the symbol table, the messages and the lists.
#![tactic(auto)]

#[cfg(test)]
mod tests;
