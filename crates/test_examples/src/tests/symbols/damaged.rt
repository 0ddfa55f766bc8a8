//! Tables without their last bytes, and tables with a changed byte.

use example_symbols::table::{address_of, archive};
use rkyv_base::VerifyError;
use std::alloc::Global;
use std::test::Fail;
use test_support::changes::permitted_flips;

// Returns a table of two symbols, one with an out of line name.
fn table(alloc: Global) -> Result<Vec<u8>, Fail> {
    let symbols = [("main", 0x1139), ("a_name_of_some_length", 0x4010)];
    Ok(archive(alloc, &symbols)?)
}

// Returns whether the addresses differ in the bits of at most one byte.
fn is_near(one: u64, other: u64) -> bool {
    let bits = one ^ other;
    bits == 0 || bits.wrapping_shr(bits.trailing_zeros() / 8 * 8) <= 255
}

// Returns whether lookups in the bytes have a permitted result.
// For `main`: its address except for a changed byte, `None` or an error. For no symbol: no address.
fn is_permitted(bytes: &[u8]) -> bool {
    let main = match address_of(bytes, "main") {
        Ok(Some(address)) => is_near(address, 0x1139),
        _ => true,
    };
    main && !matches!(address_of(bytes, "none_such"), Ok(Some(_)))
}

// Returns the number of prefixes with permitted results.
// It also returns the number of those shorter than a header that fail with `OutOfRange`.
fn permitted_prefixes(bytes: &[u8]) -> (usize, usize) {
    let mut permitted = 0usize;
    let mut short = 0usize;
    for len in 0..bytes.len() {
        let front = &bytes[..len];
        if is_permitted(front) {
            permitted = permitted.wrapping_add(1);
        }
        if len < 12
            && matches!(
                address_of(front, "main"),
                Err(VerifyError::OutOfRange { .. })
            )
        {
            short = short.wrapping_add(1);
        }
    }
    (permitted, short)
}

#[test]
fn prefixes_have_permitted_results(rt: HostRuntime) -> Result<(), Fail> {
    let bytes = table(rt.alloc())?;
    expect_eq!(rt; permitted_prefixes(bytes.as_slice()), (bytes.len(), 12));
    Ok(())
}

#[test]
fn changed_bytes_have_permitted_results(rt: HostRuntime) -> Result<(), Fail> {
    let mut bytes = table(rt.alloc())?;
    let len = bytes.len();
    expect_eq!(rt; permitted_flips(bytes.as_mut_slice(), |table: &mut [u8]| is_permitted(&*table)),
        len);
    Ok(())
}
