//! The tests, by what they call.

use std::fmt::Debug;
use std::process::Abort;

// Fails the test unless the two are equal, and prints both then.
fn expect_equal<T: PartialEq + Debug + Drop>(rt: &impl Abort, found: T, expected: T) {
    assert_eq!(*rt; found, expected);
}

// Is `assert_eq!` by one call, for which a check takes a quarter of the time.
macro_rules! expect_eq {
    ($rt:expr; $found:expr, $expected:expr $(,)?) => {
        $crate::tests::expect_equal(&$rt, $found, $expected)
    };
}

mod archives;
mod by_key;
mod changes;
mod checking;
mod ends;
mod equality;
mod examples;
mod forms;
mod headers;
mod in_place;
mod interning;
mod lookups;
mod mixed;
mod opened;
mod pieces;
mod reading_back;
mod recipes;
mod requests;
mod sealed;
mod sets;
mod writing;
