//! Scripts, and comparisons of their output with the expected one.

use rkyv_dict::run::run;
use std::alloc::{AllocError, Global};

/// The archive of the pair 1 and 2.
pub(crate) const ONE: &str =
    "01000000020000000000000000000000ff28ff28ffffffffffffffffffffffffffffffffffffffffffffffffffffff00e0ffffff0100000002000000";

/// A script.
pub(crate) const SCRIPT: &[u8] = b"put 1 2\nbuild\nhex\nget 1\nget 2\nlist\n";

/// The output of the script.
pub(crate) const EXPECTED_OUTPUT: &str =
    "built 60\n01000000020000000000000000000000ff28ff28ffffffffffffffffffffffffffffffffffffffffffffffffffffff00e0ffffff0100000002000000\n2\nnone\nentries 1\n1 2\n";

/// Returns whether the output of a script is `expected`.
pub(crate) fn outputs(alloc: Global, script: &[u8], expected: &str) -> bool {
    let mut reader = script;
    let mut out = Vec::new(alloc);
    let outcome = run(alloc, &mut reader, &mut out);
    outcome.is_ok() && out.as_slice() == expected.as_bytes()
}

/// Returns the first script whose output isn't the text beside it.
pub(crate) fn first_wrong<'a>(alloc: Global, rows: &[(&'a str, &str)]) -> Option<&'a str> {
    for (script, expected) in rows {
        if !outputs(alloc, script.as_bytes(), expected) {
            return Some(script);
        }
    }
    None
}

/// Appends a head, `put K 0` for the keys below `count`, and a tail to a script.
pub(crate) fn push_puts(
    script: &mut String,
    head: &str,
    count: u32,
    tail: &str,
) -> Result<(), AllocError> {
    script.push_str(head)?;
    for key in 0..count {
        write!(script, "put {key} 0\n")?;
    }
    script.push_str(tail)
}

// Returns whether the output of a script of `push_puts` is `expected`.
fn puts_output(alloc: Global, head: &str, count: u32, tail: &str, expected: &str) -> bool {
    let mut script = String::new(alloc);
    push_puts(&mut script, head, count, tail).is_ok() && outputs(alloc, script.as_bytes(), expected)
}

/// Returns the head and the count of the first row whose output isn't the last text of the row.
///
/// The script of a row is that of `push_puts` with the head, the count and the tail.
pub(crate) fn first_wrong_puts<'a>(
    alloc: Global,
    rows: &[(&'a str, u32, &str, &str)],
) -> Option<(&'a str, u32)> {
    for (head, count, tail, expected) in rows {
        if !puts_output(alloc, head, *count, tail, expected) {
            return Some((head, *count));
        }
    }
    None
}

/// Returns the digits of the first row whose output isn't the last text of the row.
///
/// The script of a row is its head, `check` with its digits, and its tail.
pub(crate) fn first_wrong_check<'a>(
    alloc: Global,
    rows: &[(&str, &'a str, &str, &str)],
) -> Option<&'a str> {
    for (head, digits, tail, expected) in rows {
        let script = format!(in alloc; "{head}check {digits}\n{tail}");
        let right = match script {
            Ok(script) => outputs(alloc, script.as_bytes(), expected),
            Err(_) => false,
        };
        if !right {
            return Some(digits);
        }
    }
    None
}
