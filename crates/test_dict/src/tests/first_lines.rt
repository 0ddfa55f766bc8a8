//! First lines of a script, each executed by a new dictionary.
use rkyv_dict::dict::Dict;
use std::alloc::Global;

// Returns whether the output of a line is `expected`.
#[tactic(auto, using(rkyv_dict::proofs::Sound::start_sound))]
fn outputs(alloc: Global, line: &[u8], expected: &str) -> bool {
    let mut dict = Dict::new(alloc);
    let mut out = String::new(alloc);
    dict.execute(alloc, line, &mut out).is_ok() && out.as_str() == expected
}

// Returns the first line whose output isn't the text beside it.
fn first_wrong<'a>(alloc: Global, rows: &[(&'a str, &str)]) -> Option<&'a str> {
    for (line, expected) in rows {
        if !outputs(alloc, line.as_bytes(), expected) {
            return Some(line);
        }
    }
    None
}

#[test]
fn a_first_line_is_executed(rt: HostRuntime) {
    expect_eq!(rt; first_wrong(rt.alloc(), &[
        ("", ""),
        ("put 1 2", ""),
        ("build", "built 12\n"),
        ("get 1", "error 11 NoArchive\n"),
        ("put 1  2", "error 10 BadLine\n"),
        (
            "check 01000000020000000000000000000000ff28ff28ffffffffffffffffffffffffffffffffffffffffffffffffffffff00e0ffffff0100000002000000",
            "ok 1\n")]), None);
}
