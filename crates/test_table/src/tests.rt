//! The tests, by the calls that they test.
//!
//! `archives` writes tables and `reading` reads them, for the other modules.

use std::fmt::Debug;
use std::process::Abort;

// Fails the test unless the two are equal, and prints both then.
fn expect_equal<T: PartialEq + Debug + Drop>(rt: &impl Abort, found: T, expected: T) {
    assert_eq!(*rt; found, expected);
}

// Is `assert_eq!` by one call, for which a check takes a quarter of the time.
macro_rules! expect_eq {
    ($rt:expr; $found:expr, $expected:expr $(,)?) => {
        $crate::tests::expect_equal(&$rt, $found, $expected)
    };
}

mod archives;
mod capacities;
mod changes;
mod controls;
mod cursors;
mod each;
mod end_to_end;
mod examples;
mod headers;
mod in_place;
mod lookups;
mod misplaced;
mod nested;
mod pieces;
mod reading;
mod requests;
mod sealed;
mod untrusted;
mod walks;
mod wide;
mod write_failures;
mod writers;
mod writing;
