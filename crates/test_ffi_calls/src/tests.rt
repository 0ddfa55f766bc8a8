//! The tests, by the calls that they test.

use std::fmt::Debug;
use std::process::Abort;

// Fails the test unless the two are equal, and prints both then.
fn expect_equal<T: PartialEq + Debug + Drop>(rt: &impl Abort, found: T, expected: T) {
    assert_eq!(*rt; found, expected);
}

// The key or the value that a row of a table has: a number, a text in brackets, a unit, or both
// members.
macro_rules! part {
    (()) => {
        (0, b"")
    };
    ([$text:expr]) => {
        (0, $text)
    };
    (($number:expr, $text:expr)) => {
        ($number, $text)
    };
    ($number:expr) => {
        ($number, b"")
    };
}

// Calls a function for the bytes of each case and each of its contents.
macro_rules! each_case {
    ($rt:ident, $check:ident $(, $more:expr)*) => {
        for number in 0..$crate::tests::cases::TABLES {
            for case in $crate::tests::cases::table(number) {
                let bytes = $crate::tests::cases::Bytes::new(case.pieces);
                for contents in case.contents {
                    $check(&$rt, case, *contents, &bytes $(, $more)*);
                }
            }
        }
    };
}

mod building;
mod calls;
mod cases;
mod containers;
mod lookups;
mod opening;
mod overwrites;
mod texts;
