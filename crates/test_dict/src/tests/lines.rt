//! Bad lines, and lines that are skipped.
use crate::tests::scripts::{first_wrong, outputs};
use std::alloc::Global;

#[test]
fn skips_empty_lines(rt: HostRuntime) {
    expect_eq!(rt; first_wrong(rt.alloc(),
        &[("\n\nput 0 4294967295\n\n\nbuild\nget 0\n\nget 4294967295",
        "built 60\n4294967295\nnone\n")]), None);
}

// Returns the first of these lines that isn't rejected as a bad line.
fn first_taken<'a>(alloc: Global, lines: &[&'a [u8]]) -> Option<&'a [u8]> {
    for line in lines {
        if !outputs(alloc, line, "error 10 BadLine\n") {
            return Some(line);
        }
    }
    None
}

#[test]
fn rejects_bad_lines(rt: HostRuntime) {
    expect_eq!(rt; first_taken(rt.alloc(), &[b"put 1  2", b" build", b"build ", b" ", b"build\r",
        b"put 1 2\r", b"put\t1 2", b"put 4294967296 1", b"put 1 4294967296",
        b"put 99999999999999999999999 1", b"lf 18446744073709551616 1", b"lf 1", b"lf 1 2 3",
        b"put 01 2", b"put 1 02", b"put 00 2", b"put -1 2", b"put +1 2", b"put 1", b"put 1 2 3",
        b"put a b", b"put", b"get", b"get 1 2", b"get ", b"hex 1", b"list 1", b"build 1",
        b"audit 1", b"Build", b"kind", b"kind ", b"kind num num", b"kind Text", b"kind numb",
        b"width", b"width 16", b"width 064", b"width 32 64", b"check", b"check ", b"check 0",
        b"check 010", b"check 0g", b"check g0", b"check 0x01", b"check 01 02", b"check 01\r",
        b"get \xff", b"\xff", b"\xc3\x28", b"get \xd9\xa1"]), None);
}

#[test]
fn text_that_is_not_utf8_is_a_bad_line(rt: HostRuntime) {
    let script = b"kind text\nput a \xff\nput \xc3 b\nbuild\nget \xff\n";
    let expected = "error 10 BadLine\nerror 10 BadLine\nbuilt 12\nerror 10 BadLine\n";
    assert!(rt; outputs(rt.alloc(), script, expected));
}

#[test]
fn bad_lines_change_nothing(rt: HostRuntime) {
    expect_eq!(rt; first_wrong(rt.alloc(), &[
        ("put 1 2\nbuild\nkind\nwidth 16\nlf 1\ncheck 0\nput 1\nget 1\nbuild\n",
            "built 60\nerror 10 BadLine\nerror 10 BadLine\nerror 10 BadLine\nerror 10 BadLine\nerror 10 BadLine\n2\nbuilt 60\n",
        )]), None);
}
