//! A message whose numbers are read, and one of them overwritten in place.

use example_message::message::{archive, number_of, set_number};
use rkyv_collections::MapPairs;
use std::alloc::Global;
use std::test::Fail;

// Returns the message of two parts, which borrow their fields from one list.
// The second part has a name twice.
fn message(alloc: Global) -> Result<Vec<u8>, Fail> {
    let fields = [("a field of some length", 7), ("b", 8), ("b", 9), ("b", 10)];
    let (head, tail) = fields.as_slice().split_at(2);
    let parts = [("head", MapPairs::new(head)), ("tail", MapPairs::new(tail))];
    Ok(archive(alloc, &parts)?)
}

// Returns the numbers of five fields of some parts.
fn numbers(bytes: &[u8]) -> Result<[Option<u32>; 5], Fail> {
    Ok([
        number_of(bytes, "head", "a field of some length")?,
        number_of(bytes, "head", "b")?,
        number_of(bytes, "tail", "b")?,
        number_of(bytes, "head", "c")?,
        number_of(bytes, "body", "b")?,
    ])
}

#[test]
fn numbers_are_read(rt: HostRuntime) -> Result<(), Fail> {
    let bytes = message(rt.alloc())?;
    expect_eq!(rt; numbers(bytes.as_slice())?, [Some(7), Some(8), Some(9), None, None]);
    Ok(())
}

// Returns the results of three overwrites, and the numbers after them.
fn written(alloc: Global) -> Result<([bool; 3], [Option<u32>; 5]), Fail> {
    let mut bytes = message(alloc)?;
    let lookups = [
        set_number(bytes.as_mut_slice(), "head", "b", 99)?,
        set_number(bytes.as_mut_slice(), "head", "c", 1)?,
        set_number(bytes.as_mut_slice(), "body", "b", 1)?,
    ];
    Ok((lookups, numbers(bytes.as_slice())?))
}

#[test]
fn a_number_is_written(rt: HostRuntime) -> Result<(), Fail> {
    expect_eq!(rt; written(rt.alloc())?, ([true, false, false],
        [Some(7), Some(99), Some(9), None, None]));
    Ok(())
}
