//! Tests of writers: positions at the limit, faults, and writers with a limit.

use rkyv_base::{
    EntryAdapter, Lend, LimitFault, LimitWriter, Narrow, NoMemory, VecWriter, Wide, WriteError,
    Writer, align_for, align_for_in, append, append_in, laws, write_root, write_root_in,
};
use std::alloc::Global;
use test_support::writers::{Broken, BrokenWriter, LateWriter, NoRoom};
use test_support::written::is_archived_as;

#[test]
fn vec_writer_stores_the_written_bytes(rt: HostRuntime) {
    laws::outputs_of_writers::<VecWriter>();
    let mut writer = VecWriter::new(rt.alloc());
    expect_eq!(rt; writer.pos(), 0);
    expect_eq!(rt; writer.write(&[1, 2, 3]).is_ok(), true);
    expect_eq!(rt; append(&mut writer, &[4]).is_ok(), true);
    expect_eq!(rt; align_for::<u8, VecWriter>(&mut writer).ok(), Some(4));
    expect_eq!(rt; append_in::<Wide, VecWriter>(&mut writer, &[5]).is_ok(), true);
    expect_eq!(rt; align_for_in::<Wide, u64, VecWriter>(&mut writer).ok(), Some(8));
    expect_eq!(rt; writer.pos(), 8);
    expect_eq!(rt; writer.failures(), 0);
    let expected = [1, 2, 3, 4, 5, 0, 0, 0];
    expect_eq!(rt; writer.bytes() == expected.as_slice(), true);
    let bytes = writer.into_vec();
    expect_eq!(rt; bytes.as_slice(), expected.as_slice());
}

// Returns `true` if a write fails since it would end after the greatest position.
fn is_too_large<T: Drop>(outcome: Result<T, WriteError<NoRoom>>) -> bool {
    matches!(outcome, Err(WriteError::PositionTooLarge))
}

#[test]
fn bytes_are_appended_up_to_the_limit(rt: HostRuntime) {
    let mut writer = LateWriter::new(rt.alloc());
    expect_eq!(rt; is_too_large(append(&mut writer, &[1, 2, 3, 4, 5, 6])), true);
    expect_eq!(rt; writer.bytes().len(), 0);
    expect_eq!(rt; append(&mut writer, &[1, 2]).is_ok(), true);
    expect_eq!(rt; append(&mut writer, &[3, 4, 5]).is_ok(), true);
    expect_eq!(rt; writer.pos(), 4_294_967_295);
    expect_eq!(rt; is_too_large(append(&mut writer, &[6])), true);
    expect_eq!(rt; append(&mut writer, &[]).is_ok(), true);
    expect_eq!(rt; writer.bytes() == [1, 2, 3, 4, 5].as_slice(), true);
    expect_eq!(rt; append_in::<Wide, LateWriter>(&mut writer, &[6]).is_ok(), true);
    expect_eq!(rt; writer.pos(), 4_294_967_296);
    expect_eq!(rt; is_too_large(append(&mut writer, &[])), true);
    expect_eq!(rt; writer.failures(), 0);
    let mut writer = LateWriter::new(rt.alloc());
    expect_eq!(rt; is_too_large(align_for::<u64, LateWriter>(&mut writer)), true);
    expect_eq!(rt; align_for::<u16, LateWriter>(&mut writer).ok(), Some(4_294_967_290));
    expect_eq!(rt; writer.bytes().len(), 0);
    expect_eq!(rt; align_for::<u32, LateWriter>(&mut writer).ok(), Some(4_294_967_292));
    expect_eq!(rt; writer.bytes() == [0, 0].as_slice(), true);
    expect_eq!(rt; align_for_in::<Wide, u64, LateWriter>(&mut writer).ok(), Some(4_294_967_296));
    let mut writer = LateWriter::new(rt.alloc());
    expect_eq!(rt; is_too_large(write_root(rt.alloc(), &(1u32, 2u32), &mut writer)), true);
    expect_eq!(rt; writer.bytes() == [0, 0].as_slice(), true);
    expect_eq!(rt; write_root(rt.alloc(), &(1u8, 2u8), &mut writer).ok(), Some(4_294_967_292));
    expect_eq!(rt; write_root_in::<Wide, LateWriter, u8>(rt.alloc(), &3, &mut writer).ok(),
        Some(4_294_967_294));
    expect_eq!(rt; writer.bytes(), [0, 0, 1, 2, 3].as_slice());
}

#[test]
fn failures_are_counted(rt: HostRuntime) {
    let mut writer = BrokenWriter::new(0);
    expect_eq!(rt; matches!(write_root(rt.alloc(), &(1u32, 2u32), &mut writer),
        Err(WriteError::Writer(Broken))), true);
    expect_eq!(rt; writer.calls(), 1);
    expect_eq!(rt; writer.failures(), 1);
    let mut writer = BrokenWriter::new(18_446_744_073_709_551_614);
    let expected = (true, 18_446_744_073_709_551_615);
    expect_eq!(rt; (append(&mut writer, &[1]).is_err(), writer.failures()), expected);
    expect_eq!(rt; (append(&mut writer, &[1]).is_err(), writer.failures()), expected);
}

// The byte 9, followed by the aligned archive of 1 and 2.
const WHOLE: [u8; 12] = [9, 0, 0, 0, 1, 0, 0, 0, 2, 0, 0, 0];

// Writes these bytes, and returns the position of the root.
fn write_whole(
    alloc: Global,
    writer: &mut LimitWriter<VecWriter>,
) -> Result<u64, WriteError<LimitFault<NoMemory>>> {
    append(writer, &[9])?;
    write_root(alloc, &(1u8, 2u32), writer)
}

// Returns `true` if a writer with this limit is full, and has a prefix of these bytes.
fn keeps_a_prefix(alloc: Global, limit: u64) -> bool {
    let mut writer = LimitWriter::new(VecWriter::new(alloc), limit);
    let full = matches!(
        write_whole(alloc, &mut writer),
        Err(WriteError::Writer(LimitFault::Full))
    );
    let counted = writer.pos() == limit && writer.failures() == 1;
    let inner = writer.into_inner();
    let kept = WHOLE.get(..limit as usize) == Some(inner.bytes());
    full && counted && kept && inner.failures() == 0
}

#[test]
fn limit_keeps_a_prefix_of_the_archive(rt: HostRuntime) {
    let mut right = true;
    for limit in 0..12 {
        right = right && keeps_a_prefix(rt.alloc(), limit);
    }
    let mut writer = LimitWriter::new(VecWriter::new(rt.alloc()), 12);
    expect_eq!(rt; write_whole(rt.alloc(), &mut writer).ok(), Some(4));
    expect_eq!(rt; writer.pos(), 12);
    expect_eq!(rt; writer.failures(), 0);
    expect_eq!(rt; append(&mut writer, &[]).is_ok(), true);
    expect_eq!(rt; append(&mut writer, &[1]).err(), Some(WriteError::Writer(LimitFault::Full)));
    let inner = writer.into_inner();
    expect_eq!(rt; right, true);
    expect_eq!(rt; inner.bytes(), WHOLE.as_slice());
}

#[test]
fn errors_of_the_inner_writer_are_returned(rt: HostRuntime) {
    let mut writer = LimitWriter::new(LimitWriter::new(VecWriter::new(rt.alloc()), 3), 5);
    // The piece fits in the outer limit, and the inner writer takes three of its bytes.
    expect_eq!(rt; writer.write(&[1, 2, 3, 4]).err(), Some(LimitFault::Inner(LimitFault::Full)));
    expect_eq!(rt; writer.pos(), 3);
    expect_eq!(rt; writer.failures(), 1);
    // The inner writer takes none of the two bytes that still fit in the outer limit.
    expect_eq!(rt; writer.write(&[4, 5, 6]).err(), Some(LimitFault::Inner(LimitFault::Full)));
    expect_eq!(rt; writer.write(&[4, 5]).err(), Some(LimitFault::Inner(LimitFault::Full)));
    expect_eq!(rt; writer.write(&[]).is_ok(), true);
    expect_eq!(rt; writer.pos(), 3);
    expect_eq!(rt; writer.failures(), 3);
    let inner = writer.into_inner();
    let failures = inner.failures();
    let inmost = inner.into_inner();
    expect_eq!(rt; failures, 3);
    expect_eq!(rt; inmost.bytes(), [1, 2, 3].as_slice());
    let mut writer = LimitWriter::new(BrokenWriter::new(0), 0);
    let full = matches!(writer.write(&[1]), Err(LimitFault::Full));
    let broken = matches!(writer.write(&[]), Err(LimitFault::Inner(Broken)));
    let failures = writer.failures();
    let calls = writer.into_inner().calls();
    expect_eq!(rt; (full, broken, failures, calls), (true, true, 2, 1));
}

#[test]
fn borrowed_parts_are_archived_as_a_pair(rt: HostRuntime) {
    laws::adapters_are_pairs::<Narrow, u8, &u32, u8, u32, u8, u32>();
    let value = 2u32;
    let adapter = EntryAdapter::<u8, &u32, u8, u32>::new(1, &value);
    expect_eq!(rt; is_archived_as(rt.alloc(), &adapter, &[1, 0, 0, 0, 2, 0, 0, 0]), true);
    expect_eq!(rt; *Lend::<u32>::lend(&value), 2);
    expect_eq!(rt; *Lend::<u32>::lend(&&value), 2);
}
