//! The first map, which the pages print.

use example_first_map::{look_up, round_trip, write};
use std::alloc::Global;
use std::test::Fail;

// Returns the addresses of a name that is in the list twice and of a name that isn't in it.
// It also returns whether the table without its last byte is invalid.
fn looked_up(alloc: Global) -> Result<(Option<u64>, Option<u64>, bool), Fail> {
    let symbols = [("main", 0x1139), ("top", u64::MAX), ("main", 1)];
    let table = write(alloc, &symbols)?;
    let bytes = table.as_slice();
    let failed = look_up(&bytes[..bytes.len().saturating_sub(1)], "main").is_err();
    Ok((look_up(bytes, "main")?, look_up(bytes, "puts")?, failed))
}

#[test]
fn the_first_address_is_found(rt: HostRuntime) -> Result<(), Fail> {
    expect_eq!(rt; looked_up(rt.alloc())?, (Some(0x1139), None, true));
    let symbols = [("main", 0x1139), ("top", u64::MAX), ("main", 1)];
    let main = round_trip(rt.alloc(), &symbols, "main")?;
    let puts = round_trip(rt.alloc(), &symbols, "puts")?;
    expect_eq!(rt; (main, puts), (Some(0x1139), None));
    Ok(())
}
