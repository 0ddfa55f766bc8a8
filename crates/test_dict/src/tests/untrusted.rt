//! Untrusted archives, from `check`.
use crate::tests::scripts::{ONE, first_wrong, first_wrong_check};

#[test]
fn untrusted_archives_are_taken_audited_and_rejected(rt: HostRuntime) {
    const UPPER: &str =
        "01000000020000000000000000000000FF28FF28FFFFFFFFFFFFFFFFFFFFFFFFFFFFFFFFFFfffFfFfFfFfFfFfFfFfF00E0FFFFFF0100000002000000";
    const TAIL: &str = "hex\nget 1\nget 2\nlist\naudit\n";
    const EXPECTED: &str =
        "ok 1\n01000000020000000000000000000000ff28ff28ffffffffffffffffffffffffffffffffffffffffffffffffffffff00e0ffffff0100000002000000\n2\nnone\nentries 1\n1 2\nmisplaced 0\n";
    expect_eq!(rt; first_wrong_check(rt.alloc(),
        &[("", ONE, TAIL, EXPECTED), ("", UPPER, TAIL, EXPECTED)]), None);
    // A key that isn't in a bucket of its hash: a walk visits it, and no lookup finds it.
    expect_eq!(rt; first_wrong(rt.alloc(), &[
        (
            "check 05000000020000000000000000000000ff28ff28ffffffffffffffffffffffffffffffffffffffffffffffffffffff00e0ffffff0100000002000000\nlist\nget 5\nget 1\naudit\n",
            "ok 1\nentries 1\n5 2\nnone\nnone\nmisplaced 1\n")]), None);
    expect_eq!(rt; first_wrong_check(rt.alloc(), &[
        ("", "01", "", "refused 1 OutOfRange\n"),
        ("kind text\n", ONE, "", "refused 1 OutOfRange\n"),
        ("",
            "01000000020000000000000000000000ff28ff28ffffffffffffffffffffffffffffffffffffffffffffffffffffff00e0ffffff01000000020000",
            "", "refused 2 Unaligned\n"),
        ("", "010000000200000000000000", "", "refused 3 InvalidLength\n"),
        ("",
            "01000000020000000000000000000000ff28ff28ffffffffffffffffffffffffffffffffffffffffffffffffffffff00e0ffffff0000000002000000",
            "", "refused 4 WrongNumberOfElements\n"),
        ("",
            "01000000020000000000000000000000ff28ff2800ffffffffffffffffffffffffffffffffffffffffffffffffffff00e0ffffff0100000002000000",
            "", "refused 5 UnwrappedControlByte\n"),
        ("kind text\n",
            "61ffffffffffffffc328ffffffffffff00000000000000000000000000000000ff55ff55ffffffffffffffffffffffffffffffffffffffffffffffffffffff00e0ffffff0100000002000000",
            "", "refused 7 InvalidValue\n")]), None);
    expect_eq!(rt; first_wrong(rt.alloc(), &[
        (
            "put 1 2\nbuild\nput 3 4\ncheck 01\nget 1\ncheck 010000000000000000000000\nget 1\ncheck 01\nlist\nbuild\nget 3\n",
            "built 60\nrefused 1 OutOfRange\n2\nok 0\nnone\nrefused 1 OutOfRange\nentries 0\nbuilt 68\n4\n",
        ),
        ("check 01\nget 1\n", "refused 1 OutOfRange\nerror 11 NoArchive\n")]), None);
}

// The texts of an untrusted archive may have LF or a space, or be empty.
#[test]
fn prints_texts_as_they_are(rt: HostRuntime) {
    expect_eq!(rt; first_wrong(rt.alloc(), &[
        (
            "kind text\ncheck 61ffffffffffffff0a2078ffffffffff00000000000000000000000000000000ff55ff55ffffffffffffffffffffffffffffffffffffffffffffffffffffff00e0ffffff0100000002000000\nget a\nlist\n",
            "ok 1\n\n x\nentries 1\na \n x\n"),
        (
            "kind text\ncheck 61ffffffffffffffffffffffffffffff00000000000000000000000000000000ff55ff55ffffffffffffffffffffffffffffffffffffffffffffffffffffff00e0ffffff0100000002000000\nget a\nlist\n",
            "ok 1\n\nentries 1\na \n"),
        (
            "kind text\ncheck ffffffffffffffff612062ffffffffff00000000000000000000000000000000ff15ff15ffffffffffffffffffffffffffffffffffffffffffffffffffffff00e0ffffff0100000002000000\nlist\naudit\n",
            "ok 1\nentries 1\n a b\nmisplaced 0\n")]), None);
}
