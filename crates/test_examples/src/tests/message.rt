//! Tests of `example_message`.

mod caller;
mod damaged;
mod numbers;
