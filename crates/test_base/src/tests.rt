//! The tests, by the module that they test.

use std::fmt::Debug;
use std::process::Abort;

// Fails the test unless the two are equal, and prints both then.
fn expect_equal<T: PartialEq + Debug + Drop>(rt: &impl Abort, found: T, expected: T) {
    assert_eq!(*rt; found, expected);
}

// Is `assert_eq!` by one call, for which a check takes a quarter of the time.
macro_rules! expect_eq {
    ($rt:expr; $found:expr, $expected:expr $(,)?) => {
        $crate::tests::expect_equal(&$rt, $found, $expected)
    };
}

mod access_failures;
mod bytes;
mod closure_writes;
mod errors;
mod examples;
mod memory;
mod own;
mod parts;
mod pieces;
mod roots;
mod scalars;
mod seals;
mod text;
mod writing;
