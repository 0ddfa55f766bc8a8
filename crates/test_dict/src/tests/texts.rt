//! Maps of texts.
use crate::tests::scripts::first_wrong;

#[test]
fn texts_are_archived_and_kind_empties_the_list(rt: HostRuntime) {
    expect_eq!(rt; first_wrong(rt.alloc(), &[
        ("kind text\nput a b\nbuild\nget a\nget b\nlist\n", "built 76\nb\nnone\nentries 1\na b\n"),
        ("kind text\nput wonderful wonderful\nbuild\nget wonderful\n", "built 96\nwonderful\n"),
        ("kind text\nput a b\nbuild\nhex\n",
            "built 76\n61ffffffffffffff62ffffffffffffff00000000000000000000000000000000ff55ff55ffffffffffffffffffffffffffffffffffffffffffffffffffffff00e0ffffff0100000002000000\n",
        ),
        ("kind text\nput a b\nput a c\nbuild\nget a\naudit\n", "built 92\nb\nmisplaced 1\n"),
        ("kind text\nbuild\nhex\nget a\nlist\n",
            "built 12\n010000000000000000000000\nnone\nentries 0\n")]), None);
    expect_eq!(rt; first_wrong(rt.alloc(),
        &[("put 1 2\nkind text\nput 1 2\nbuild\nlist\nkind num\nlist\nbuild\n",
        "built 76\nentries 1\n1 2\nerror 11 NoArchive\nbuilt 12\n")]), None);
}

#[test]
fn texts_have_a_byte_and_no_space(rt: HostRuntime) {
    expect_eq!(rt; first_wrong(rt.alloc(), &[
        (
            "kind text\nput \t\r x\r\nput \0 \u{a0}\nput 01 -1\nbuild\nget \t\r\nget \0\nget 01\nget 1\n",
            "built 108\nx\r\n\u{a0}\n-1\nnone\n")]), None);
    expect_eq!(rt; first_wrong(rt.alloc(), &[
        ("kind text\nput  b\nput a \nput a\nput a b c\nget \nget\nget a b\nput a  b\nbuild\n",
            "error 10 BadLine\nerror 10 BadLine\nerror 10 BadLine\nerror 10 BadLine\nerror 10 BadLine\nerror 10 BadLine\nerror 10 BadLine\nerror 10 BadLine\nbuilt 12\n",
        )]), None);
}
