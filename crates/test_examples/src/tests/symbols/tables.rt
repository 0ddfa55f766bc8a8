//! The symbols of lines, and their tables.

use example_symbols::lines::parse;
use example_symbols::table::{address_of, archive};
use std::alloc::Global;
use std::test::Fail;

// Lines with four symbols, two of them of one name; all other lines have no symbol.
// Two have no address, one has fifteen digits, one has no name, one has a letter that is no digit,
// and one has no type.
const LINES: &str = "                 U puts@GLIBC_2.2.5
0000000000001139 T main
0000000000004010 B a_name_of_some_length
                 w __gmon_start__
ffffffffFFFFFFFF a top
0000000000000001 t main
000000000000113  T short
0000000000001139 T\u{20}
00000000000011g9 T no_digits
0000000000001139  no_type
";

// Returns the number of the symbols, and whether the second one is as expected.
fn parsed(alloc: Global) -> Result<(usize, bool), Fail> {
    let symbols = parse(alloc, LINES)?;
    let second = symbols.get(1) == Some(&("a_name_of_some_length", 0x4010));
    Ok((symbols.len(), second))
}

#[test]
fn symbols_are_parsed(rt: HostRuntime) -> Result<(), Fail> {
    expect_eq!(rt; parsed(rt.alloc())?, (4, true));
    Ok(())
}

// Returns the addresses of some names in the table of the lines.
fn addresses(alloc: Global) -> Result<[Option<u64>; 5], Fail> {
    let symbols = parse(alloc, LINES)?;
    let table = archive(alloc, symbols.as_slice())?;
    let bytes = table.as_slice();
    Ok([
        address_of(bytes, "main")?,
        address_of(bytes, "a_name_of_some_length")?,
        address_of(bytes, "top")?,
        address_of(bytes, "puts@GLIBC_2.2.5")?,
        address_of(bytes, "short")?,
    ])
}

#[test]
fn names_are_found(rt: HostRuntime) -> Result<(), Fail> {
    expect_eq!(rt; addresses(rt.alloc())?, [Some(0x1139), Some(0x4010), Some(u64::MAX), None,
        None]);
    Ok(())
}
