//! The caller in the library's README.

use example_symbols::lines::parse;
use example_symbols::table::{address_of, archive};
use std::alloc::Global;
use std::test::Fail;

// Returns the address of a name, in the table of the symbols of the lines.
fn address_among(alloc: Global, lines: &str, name: &str) -> Result<Option<u64>, Fail> {
    let symbols = parse(alloc, lines)?;
    let table = archive(alloc, symbols.as_slice())?;
    Ok(address_of(table.as_slice(), name)?)
}

#[test]
fn the_first_of_a_name_is_found(rt: HostRuntime) -> Result<(), Fail> {
    let lines = "0000000000001139 T main\n0000000000000001 t main\n";
    expect_eq!(rt; address_among(rt.alloc(), lines, "main")?, Some(0x1139));
    Ok(())
}
