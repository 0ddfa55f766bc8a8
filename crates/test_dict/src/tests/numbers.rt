//! Maps of numbers.
use crate::tests::scripts::{first_wrong, first_wrong_puts, outputs, push_puts};
use rkyv_dict::laws;
use std::alloc::{AllocError, Global};

#[test]
fn scripts_of_numbers_have_the_expected_output(rt: HostRuntime) {
    laws::scripts_have_output();
    laws::scripts_are_one();
    expect_eq!(rt; first_wrong(rt.alloc(), &[
        ("put 1 2\nbuild\nhex\nget 1\nget 2\nlist\n",
            "built 60\n01000000020000000000000000000000ff28ff28ffffffffffffffffffffffffffffffffffffffffffffffffffffff00e0ffffff0100000002000000\n2\nnone\nentries 1\n1 2\n",
        ),
        ("build\nhex\nget 5\nlist\n", "built 12\n010000000000000000000000\nnone\nentries 0\n"),
        ("put 1 2\nput 1 9\nbuild\nget 1\nlist\naudit\n",
            "built 68\n2\nentries 2\n1 2\n1 9\nmisplaced 1\n"),
        ("get 1\nput 1 2\nbuild\nput 3 4\nget 3\n", "error 11 NoArchive\nbuilt 60\nnone\n"),
        ("lf 8 7\nput 1 2\nbuild\nhex\nget 01\ncheck 0\ncheck 010000000000000000000000\nlist\n",
            "error 1 InvalidLoadFactor\nerror 11 NoArchive\nerror 10 BadLine\nerror 10 BadLine\nok 0\nentries 0\n",
        ),
        ("", "")]), None);
    expect_eq!(rt; first_wrong(rt.alloc(), &[
        ("put 1 2\nbuild\nlf 0 1\nbuild\nget 1\nlf 1 0\nbuild\nlf 7 8\nbuild\nget 1\n",
            "built 60\nerror 1 InvalidLoadFactor\nerror 11 NoArchive\nerror 1 InvalidLoadFactor\nbuilt 60\n2\n",
        ),
        ("lf 1 4294967296\nput 1 2\nbuild\nhex\n",
            "error 3 CapacityTooLarge\nerror 11 NoArchive\n")]), None);
    expect_eq!(rt; first_wrong(rt.alloc(), &[
        ("put 1 2\nlf 8 7\nkind num\nget 1\nlist\naudit\nhex\nbuild\nlf 7 8\nbuild\nlist\n",
            "error 11 NoArchive\nerror 11 NoArchive\nerror 11 NoArchive\nerror 11 NoArchive\nerror 1 InvalidLoadFactor\nbuilt 12\nentries 0\n",
        ),
        ("put 1 2\nbuild\nkind num\nget 1\nbuild\nlist\naudit\n",
            "built 60\nerror 11 NoArchive\nbuilt 12\nentries 0\nmisplaced 0\n")]), None);
}

// The output for 15 pairs.
const FIFTEEN: &str =
    "built 196\n0b00000000000000060000000000000001000000000000000c00000000000000070000000000000002000000000000000d000000000000000800000000000000030000000000000000000000000000000e000000000000000900000000000000040000000000000000000000000000000a0000000000000005000000000000000000000000000000004b17ff226e3aff7a4511511d68287440004b17ff226e3aff7a4511511d68287440ffffffffffffffffffffffffff00d0ffffff0f00000011000000\n";

#[test]
fn archives_many(rt: HostRuntime) {
    expect_eq!(rt; first_wrong_puts(rt.alloc(), &[("", 14, "build\n", "built 172\n"), ("", 15,
        "build\nhex\n", FIFTEEN), ("lf 1 1\n", 15, "build\n", "built 172\n"), ("lf 1 1\n", 16,
        "build\n", "built 196\n")]), None);
}

// Returns a script of 20,000 pairs, with a lookup of each key and of one more.
fn many_lookups(alloc: Global) -> Result<String, AllocError> {
    let mut script = String::new(alloc);
    push_puts(&mut script, "", 20_000, "build\n")?;
    for key in 0..20_000u32 {
        write!(script, "get {key}\n")?;
    }
    script.push_str("get 20000\n")?;
    Ok(script)
}

// Returns the output of `many_lookups`.
fn many_values(alloc: Global) -> Result<String, AllocError> {
    let mut expected = String::new(alloc);
    expected.push_str("built 205748\n")?;
    for _ in 0..20_000u32 {
        expected.push_str("0\n")?;
    }
    expected.push_str("none\n")?;
    Ok(expected)
}

#[test]
fn output_longer_than_a_piece(rt: HostRuntime) -> Result<(), AllocError> {
    let script = many_lookups(rt.alloc())?;
    let expected = many_values(rt.alloc())?;
    assert!(rt; outputs(rt.alloc(), script.as_bytes(), expected.as_str()));
    Ok(())
}

#[test]
fn takes_numbers_at_their_limits(rt: HostRuntime) {
    expect_eq!(rt; first_wrong(rt.alloc(), &[
        (
            "lf 18446744073709551615 18446744073709551615\nput 4294967295 0\nput 0 4294967295\nbuild\nget 4294967295\nget 0\n",
            "built 68\n0\n4294967295\n")]), None);
}
