//! Messages without their last bytes, and messages with a changed byte.

use example_message::message::{archive, number_of, set_number};
use rkyv_base::VerifyError;
use rkyv_collections::MapPairs;
use std::alloc::Global;
use std::test::Fail;
use test_support::changes::permitted_flips;

// Returns the message of a part with two fields.
fn message(alloc: Global) -> Result<Vec<u8>, Fail> {
    let fields = [("a field of some length", 7), ("b", 8)];
    let parts = [("head", MapPairs::new(&fields))];
    Ok(archive(alloc, &parts)?)
}

// Returns whether no number of a missing field or part is returned or overwritten.
fn is_permitted(bytes: &mut [u8]) -> bool {
    let field = number_of(bytes, "head", "none_such");
    let part = number_of(bytes, "none_such", "b");
    let write = set_number(bytes, "head", "none_such", 1);
    !matches!(field, Ok(Some(_))) && !matches!(part, Ok(Some(_))) && !matches!(write, Ok(true))
}

// Returns the number of prefixes that pass `is_permitted`.
// It also returns the number of those shorter than a header that fail with `OutOfRange`.
fn permitted_prefixes(bytes: &mut [u8]) -> (usize, usize) {
    let mut permitted = 0usize;
    let mut short = 0usize;
    for len in 0..bytes.len() {
        let front = &mut bytes[..len];
        if is_permitted(front) {
            permitted = permitted.wrapping_add(1);
        }
        let found = number_of(front, "head", "b");
        if len < 12 && matches!(found, Err(VerifyError::OutOfRange { .. })) {
            short = short.wrapping_add(1);
        }
    }
    (permitted, short)
}

#[test]
fn prefixes_have_permitted_results(rt: HostRuntime) -> Result<(), Fail> {
    let mut bytes = message(rt.alloc())?;
    let len = bytes.len();
    expect_eq!(rt; permitted_prefixes(bytes.as_mut_slice()), (len, 12));
    Ok(())
}

#[test]
fn changed_bytes_have_permitted_results(rt: HostRuntime) -> Result<(), Fail> {
    let mut bytes = message(rt.alloc())?;
    let len = bytes.len();
    expect_eq!(rt; permitted_flips(bytes.as_mut_slice(), is_permitted), len);
    Ok(())
}
