//! Archives of 64 bits.
use crate::tests::scripts::{ONE, first_wrong, first_wrong_check};

#[test]
fn archives_in_64_bits(rt: HostRuntime) {
    expect_eq!(rt; first_wrong(rt.alloc(), &[
        ("width 64\nput 1 2\nbuild\nhex\nget 1\nlist\naudit\n",
            "built 72\n01000000020000000000000000000000ff28ff28ffffffffffffffffffffffffffffffffffffffffffffffffffffff00e0ffffffffffffff01000000000000000200000000000000\n2\nentries 1\n1 2\nmisplaced 0\n",
        ),
        ("width 64\nkind text\nput a b\nbuild\nget a\n", "built 120\nb\n"),
        ("kind text\nwidth 64\nput a b\nbuild\nget a\nlist\naudit\n",
            "built 120\nb\nentries 1\na b\nmisplaced 0\n"),
        ("width 64\nbuild\nhex\nlist\n",
            "built 24\n010000000000000000000000000000000000000000000000\nentries 0\n"),
        (
            "width 64\nlf 1 18446744073709551615\nput 1 2\nbuild\n",
            "error 3 CapacityTooLarge\n")]), None);
    expect_eq!(rt; first_wrong(rt.alloc(), &[("put 1 2\nbuild\nwidth 32\nget 1\nbuild\n",
        "built 60\nerror 11 NoArchive\nbuilt 12\n"),
        ("lf 8 7\nwidth 64\nbuild\nlf 7 8\nwidth 32\nbuild\n",
        "error 1 InvalidLoadFactor\nbuilt 12\n")]), None);
}

#[test]
fn checks_in_64_bits(rt: HostRuntime) {
    const WIDE: &str =
        "01000000020000000000000000000000ff28ff28ffffffffffffffffffffffffffffffffffffffffffffffffffffff00e0ffffffffffffff01000000000000000200000000000000";
    expect_eq!(rt; first_wrong_check(rt.alloc(), &[("width 64\n", ONE, "list\n",
        "refused 2 Unaligned\nerror 11 NoArchive\n"), ("width 64\n", WIDE, "get 1\n",
        "ok 1\n2\n")]), None);
}
