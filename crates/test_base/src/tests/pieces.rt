//! Tests of the pieces in which archives are written.

use rkyv_base::{
    Element, LimitFault, LimitWriter, Narrow, Serialize, Wide, Writer, align_for, append,
    append_in, write_root, write_root_in,
};
use std::alloc::Global;
use test_support::writers::PieceWriter;

// Returns `true` if the root of a narrow archive is written in pieces of these lengths.
fn is_written_in<V: Serialize<PieceWriter, Narrow>>(
    alloc: Global,
    value: &V,
    lengths: &[usize],
) -> bool {
    let mut writer = PieceWriter::new(alloc);
    let written = write_root(alloc, value, &mut writer).is_ok();
    written && writer.lengths() == lengths
}

// Returns `true` if the root of a wide archive is written in pieces of these lengths.
fn is_written_wide_in<V: Serialize<PieceWriter, Wide>>(
    alloc: Global,
    value: &V,
    lengths: &[usize],
) -> bool {
    let mut writer = PieceWriter::new(alloc);
    let written = write_root_in::<Wide, PieceWriter, V>(alloc, value, &mut writer).is_ok();
    written && writer.lengths() == lengths
}

// The same of a narrow archive of one text.
fn is_text_in(alloc: Global, text: &str, lengths: &[usize]) -> bool {
    is_written_in::<&str>(alloc, &text, lengths)
}

// The same of a narrow archive of two texts.
fn are_texts_in(alloc: Global, first: &str, second: &str, lengths: &[usize]) -> bool {
    is_written_in::<(&str, &str)>(alloc, &(first, second), lengths)
}

// The same of a wide archive of one text.
fn is_wide_text_in(alloc: Global, text: &str, lengths: &[usize]) -> bool {
    is_written_wide_in::<&str>(alloc, &text, lengths)
}

#[test]
fn roots_are_written_in_pieces(rt: HostRuntime) {
    let alloc = rt.alloc();
    expect_eq!(rt; is_written_in(alloc, &7u8, &[0, 1]), true);
    expect_eq!(rt; is_written_in(alloc, &(1u32, 2u32), &[0, 8]), true);
    expect_eq!(rt; is_written_in(alloc, &(1u8, (2u64, true)), &[0, 24]), true);
    expect_eq!(rt; is_written_in(alloc, &(), &[0, 0]), true);
    expect_eq!(rt; is_written_wide_in(alloc, &(1u8, 2u64), &[0, 16]), true);
    expect_eq!(rt; is_text_in(alloc, "wonderful", &[9, 3, 8]), true);
    expect_eq!(rt; are_texts_in(alloc, "wonderful", "marvellous", &[9, 10, 1, 16]), true);
    expect_eq!(rt; is_written_in(alloc, &("wonderful", ("hello", "magnificent")), &[9, 11, 0, 24]),
        true);
    expect_eq!(rt; is_wide_text_in(alloc, "wonderful wonders", &[17, 7, 16]), true);
    expect_eq!(rt; is_text_in(alloc, "hello", &[0, 8]), true);
    expect_eq!(rt; is_text_in(alloc, "", &[0, 8]), true);
    expect_eq!(rt; are_texts_in(alloc, "hello", "wonderful", &[9, 3, 16]), true);
    expect_eq!(rt; is_wide_text_in(alloc, "wonderful", &[0, 16]), true);
}

// Appends bytes and aligns for a `T`. Returns the position.
fn aligned_behind<T: Element>(writer: &mut PieceWriter, bytes: &[u8]) -> Option<u64> {
    match append(writer, bytes) {
        Ok(()) => align_for::<T, PieceWriter>(writer).ok(),
        Err(_) => None,
    }
}

#[test]
fn appended_pieces_are_passed_on(rt: HostRuntime) {
    let mut writer = PieceWriter::new(rt.alloc());
    expect_eq!(rt; aligned_behind::<u16>(&mut writer, &[1, 2]), Some(2));
    expect_eq!(rt; aligned_behind::<u32>(&mut writer, &[3]), Some(4));
    expect_eq!(rt; aligned_behind::<u64>(&mut writer, &[4]), Some(8));
    expect_eq!(rt; writer.lengths(), [2, 0, 1, 1, 1, 3].as_slice());
    expect_eq!(rt; writer.bytes(), [1, 2, 3, 0, 4, 0, 0, 0].as_slice());
    let mut writer = PieceWriter::new(rt.alloc());
    expect_eq!(rt; append(&mut writer, &[]).is_ok(), true);
    expect_eq!(rt; append(&mut writer, &[1]).is_ok(), true);
    expect_eq!(rt; append_in::<Wide, PieceWriter>(&mut writer, &[]).is_ok(), true);
    expect_eq!(rt; writer.lengths(), [0, 1, 0].as_slice());
    expect_eq!(rt; writer.failures(), 0);
    let mut writer = LimitWriter::new(PieceWriter::new(rt.alloc()), 0);
    expect_eq!(rt; writer.write(&[]).is_ok(), true);
    expect_eq!(rt; append(&mut writer, &[]).is_ok(), true);
    let failures = writer.failures();
    expect_eq!(rt; writer.into_inner().lengths(), [0, 0].as_slice());
    expect_eq!(rt; failures, 0);
    let mut writer = LimitWriter::new(PieceWriter::new(rt.alloc()), 3);
    expect_eq!(rt; writer.write(&[1]).is_ok(), true);
    expect_eq!(rt; matches!(writer.write(&[2, 3, 4]), Err(LimitFault::Full)), true);
    expect_eq!(rt; matches!(writer.write(&[5]), Err(LimitFault::Full)), true);
    expect_eq!(rt; writer.write(&[]).is_ok(), true);
    let inner = writer.into_inner();
    expect_eq!(rt; inner.lengths(), [1, 2, 0].as_slice());
    expect_eq!(rt; inner.bytes(), [1, 2, 3].as_slice());
}
