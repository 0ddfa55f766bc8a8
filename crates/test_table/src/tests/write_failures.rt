//! Tables for which writing fails before the first byte.
ghost use Rattle.std.specs.Prelude.{◌≤◌};

use rkyv_base::{Narrow, NoMemory, VecWriter, WriteError, append};
use rkyv_scan::simd::lanes;
use rkyv_table::{ArchivedHashTable, HashTableResolver};
use std::alloc::Global;

// Returns `true` if writing failed with this text, and nothing was written after a nine.
fn is_failure(
    alloc: Global,
    outcome: Result<HashTableResolver, WriteError<NoMemory>>,
    writer: &VecWriter,
    text: &str,
) -> bool {
    match outcome {
        Ok(_) => false,
        Err(error) => match error.to_string(alloc) {
            Ok(shown) => shown.as_str() == text && writer.bytes() == [9].as_slice(),
            Err(_) => false,
        },
    }
}

// The claimed number of items, and the load factor.
type Claim = (usize, (usize, usize));

// Returns a writer that has written a nine.
fn behind_a_nine(alloc: Global) -> Option<VecWriter> {
    let mut writer = VecWriter::new(alloc);
    match append(&mut writer, &[9]) {
        Ok(()) => Some(writer),
        Err(_) => None,
    }
}

// Returns `true` if writing a table fails with this text, and nothing is written. Its items are
// the first `items` of 7, 8, 9 and 10, and its hashes the first `hashes` of 0, 1, 2 and 3.
fn write_fails(alloc: Global, items: usize, hashes: usize, claim: Claim, text: &str) -> bool
    requires items { items ≤ 4 }
    requires hashes { hashes ≤ 4 }
{
    let mut writer = match behind_a_nine(alloc) {
        Some(writer) => writer,
        None => return false,
    };
    let outcome = ArchivedHashTable::<u8, Narrow>::serialize_from_iter::<VecWriter, u8, &u8, _, _>(
        alloc,
        [7, 8, 9, 10][..items].iter(),
        [0, 1, 2, 3][..hashes].iter().copied(),
        claim.0,
        claim.1,
        &mut writer,
    );
    is_failure(alloc, outcome, &writer, text)
}

// Returns the same for the first `pairs` pairs of these hashes and items.
fn write_of_pairs_fails(alloc: Global, pairs: usize, claim: Claim, text: &str) -> bool
    requires { pairs ≤ 4 }
{
    let mut writer = match behind_a_nine(alloc) {
        Some(writer) => writer,
        None => return false,
    };
    let outcome = ArchivedHashTable::<u8, Narrow>::serialize_by::<
        lanes::Group,
        VecWriter,
        u8,
        u8,
        _,
    >(
        alloc,
        [(0, 7), (1, 8), (2, 9), (3, 10)][..pairs].iter().copied(),
        claim.0,
        claim.1,
        &mut writer,
    );
    is_failure(alloc, outcome, &writer, text)
}

#[test]
fn rejects_invalid_load_factors(rt: HostRuntime) {
    let alloc = rt.alloc();
    let above = "invalid load factor 8 / 7, load factor must be a fraction in the range (0, 1]";
    let zero = "invalid load factor 0 / 1, load factor must be a fraction in the range (0, 1]";
    let undivided = "invalid load factor 1 / 0, load factor must be a fraction in the range (0, 1]";
    expect_eq!(rt; write_fails(alloc, 1, 1, (1, (8, 7)), above), true);
    expect_eq!(rt; write_fails(alloc, 1, 1, (1, (0, 1)), zero), true);
    expect_eq!(rt; write_fails(alloc, 1, 1, (1, (1, 0)), undivided), true);
    // also for no items, and before they are counted
    expect_eq!(rt; write_fails(alloc, 0, 0, (0, (8, 7)), above), true);
    expect_eq!(rt; write_fails(alloc, 1, 0, (0, (0, 1)), zero), true);
    expect_eq!(rt; write_of_pairs_fails(alloc, 1, (1, (8, 7)), above), true);
    expect_eq!(rt; write_of_pairs_fails(alloc, 0, (0, (1, 0)), undivided), true);
}

#[test]
fn rejects_large_capacities(rt: HostRuntime) {
    let alloc = rt.alloc();
    let one = "capacity too large for length 1";
    let full = "capacity too large for length 4294967295";
    let all = "capacity too large for length 18446744073709551615";
    expect_eq!(rt; write_fails(alloc, 1, 1, (1, (1, 4_294_967_296)), one), true);
    expect_eq!(rt; write_fails(alloc, 0, 0, (4_294_967_295, (1, 1)), full), true);
    expect_eq!(rt; write_fails(alloc, 0, 0, (usize::MAX, (1, usize::MAX)), all), true);
    expect_eq!(rt; write_of_pairs_fails(alloc, 0, (4_294_967_295, (1, 1)), full), true);
}

#[test]
fn rejects_other_numbers_of_items(rt: HostRuntime) {
    let alloc = rt.alloc();
    let two = "iterator claimed that it contained 3 elements, but yielded 2 items during iteration";
    let none =
        "iterator claimed that it contained 0 elements, but yielded 1 items during iteration";
    let one = "iterator claimed that it contained 2 elements, but yielded 1 items during iteration";
    let more =
        "iterator claimed that it contained 2 elements, but yielded 3 items during iteration";
    expect_eq!(rt; write_fails(alloc, 2, 3, (3, (7, 8)), two), true);
    expect_eq!(rt; write_fails(alloc, 1, 0, (0, (7, 8)), none), true);
    expect_eq!(rt; write_fails(alloc, 3, 0, (0, (7, 8)), none), true);
    expect_eq!(rt; write_fails(alloc, 0, 3, (0, (7, 8)), none), true);
    expect_eq!(rt; write_fails(alloc, 2, 1, (2, (7, 8)), one), true);
    expect_eq!(rt; write_fails(alloc, 2, 4, (2, (7, 8)), more), true);
    expect_eq!(rt; write_fails(alloc, 4, 2, (2, (7, 8)), more), true);
    // the items are counted before the hashes
    expect_eq!(rt; write_fails(alloc, 1, 3, (2, (7, 8)), one), true);
    expect_eq!(rt; write_fails(alloc, 3, 1, (2, (7, 8)), more), true);
    expect_eq!(rt; write_of_pairs_fails(alloc, 2, (3, (7, 8)), two), true);
    expect_eq!(rt; write_of_pairs_fails(alloc, 1, (0, (7, 8)), none), true);
    expect_eq!(rt; write_of_pairs_fails(alloc, 4, (2, (7, 8)), more), true);
}
