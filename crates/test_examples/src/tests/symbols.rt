//! Tests of `example_symbols`.

mod caller;
mod damaged;
mod tables;
