//! Writers that fail in the middle of a table.

use crate::tests::archives::{hash_of_u32, write_header};
use rkyv_base::{LimitFault, LimitWriter, Narrow, VecWriter, WriteError, WriteResult, Writer};
use rkyv_table::ArchivedHashTable;
use std::alloc::Global;
use test_support::archives::one_number;
use test_support::writers::{Broken, BrokenWriter, LateWriter};

// Writes the table of the pair 1 and 2, and its header.
fn write_one_pair<S: Writer>(alloc: Global, writer: &mut S) -> WriteResult<(), S> {
    let resolver = ArchivedHashTable::<_, Narrow>::serialize_from_iter::<
        S,
        (u32, u32),
        (u32, u32),
        _,
        _,
    >(
        alloc,
        [(1u32, 2u32)].into_iter(),
        [hash_of_u32(1)].into_iter(),
        1,
        (7, 8),
        writer,
    )?;
    write_header(resolver, writer)
}

#[test]
fn failures_end_the_write(rt: HostRuntime) {
    let mut writer = LateWriter::new(rt.alloc());
    expect_eq!(rt; matches!(write_one_pair(rt.alloc(), &mut writer),
        Err(WriteError::PositionTooLarge)), true);
    expect_eq!(rt; writer.failures(), 0);
    expect_eq!(rt; writer.bytes(), [0, 0].as_slice());
    let mut writer = BrokenWriter::new(0);
    expect_eq!(rt; matches!(write_one_pair(rt.alloc(), &mut writer),
        Err(WriteError::Writer(Broken))), true);
    expect_eq!(rt; writer.calls(), 1);
    expect_eq!(rt; writer.failures(), 1);
}

// Returns `true` if a writer with this limit keeps as many bytes of the archive, and reports
// that it is full unless these are all.
fn keeps_a_prefix(alloc: Global, limit: u64) -> bool {
    let mut writer = LimitWriter::new(VecWriter::new(alloc), limit);
    let full = limit < 60;
    let expected = if full {
        Err(WriteError::Writer(LimitFault::Full))
    } else {
        Ok(())
    };
    let as_expected = write_one_pair(alloc, &mut writer) == expected;
    let counted = writer.pos() == limit && writer.failures() == u64::from(full);
    as_expected
        && counted
        && one_number().get(..limit as usize) == Some(writer.into_inner().bytes())
}

#[test]
fn limit_keeps_a_prefix_of_the_table(rt: HostRuntime) {
    let mut right = true;
    for limit in 0..61 {
        right = right && keeps_a_prefix(rt.alloc(), limit);
    }
    assert!(rt; right);
}
