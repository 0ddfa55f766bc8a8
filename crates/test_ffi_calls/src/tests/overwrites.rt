//! Tests of overwrites in place, on each case.

use crate::tests::calls::{Contents, INDEX_MAP, set, set_and_get};
use crate::tests::cases::{Bytes, Case};
use crate::tests::expect_equal;
use crate::tests::lookups::first_of;
use std::process::Abort;

// Fails the test unless each overwrite changes only the bytes of its row, and a lookup by the
// handle from before finds the new value.
fn expect_sets(rt: &impl Abort, case: &Case, contents: Contents, bytes: &Bytes) {
    for (key, value, pos, others) in case.sets {
        let expected = bytes.with(*pos, others);
        let mut found = *bytes;
        let status = set(found.as_mut_slice(), contents, *key, *value);
        expect_equal(rt, (contents, key.0, status), (contents, key.0, Some(0)));
        assert!(*rt; found.as_slice() == expected.as_slice());
        let mut again = *bytes;
        let (first, _) = first_of(case.pairs, *key).unwrap_or((9, *key));
        let index = if contents.0 == INDEX_MAP { first } else { 0 };
        let found = set_and_get(again.as_mut_slice(), contents, *key, *value);
        expect_equal(rt, found, Some((0, 0, index, *value)));
    }
}

// Fails the test unless each overwrite has the status of its row, and changes no byte.
fn expect_errors(rt: &impl Abort, case: &Case, contents: Contents, bytes: &Bytes) {
    for (key, value, status) in case.fails {
        let mut found = *bytes;
        let error = set(found.as_mut_slice(), contents, *key, *value);
        expect_equal(
            rt,
            (contents, key.0, error),
            (contents, key.0, Some(*status)),
        );
        assert!(*rt; found.as_slice() == bytes.as_slice());
    }
}

#[test]
fn overwrites_change_the_first_value_alone(rt: HostRuntime) {
    each_case!(rt, expect_sets);
}

#[test]
fn overwrites_have_their_errors(rt: HostRuntime) {
    each_case!(rt, expect_errors);
}
