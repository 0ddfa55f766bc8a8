//! The tests, one module for each topic.

use std::fmt::Debug;
use std::process::Abort;

// Fails the test unless the two are equal, and prints both then.
fn expect_equal<T: PartialEq + Debug + Drop>(rt: &impl Abort, found: T, expected: T) {
    assert_eq!(*rt; found, expected);
}

// Is `assert_eq!` by one call, for which a check takes a quarter of the time.
macro_rules! expect_eq {
    ($rt:expr; $found:expr, $expected:expr $(,)?) => {
        $crate::tests::expect_equal(&$rt, $found, $expected)
    };
}

mod archives;
mod changes;
mod each;
mod examples;
mod in_place;
mod lists;
mod lookups;
mod nested;
mod nested_std;
mod opened;
mod query_results;
mod reading;
mod recipes;
mod references;
mod requests;
mod round_trip;
mod sealed;
mod sets;
mod std_maps;
mod std_sets;
mod texts_by_key;
mod walks;
mod writing;
