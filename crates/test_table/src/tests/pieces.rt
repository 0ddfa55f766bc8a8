//! The pieces in which tables are written.

use crate::tests::archives::{FOUR_PAIRS, SIXTEEN, write_header};
use rkyv_base::{LimitFault, LimitWriter, Narrow, Serialize, Wide, Width, WriteError, append};
use rkyv_table::ArchivedHashTable;
use std::alloc::Global;
use test_support::writers::PieceWriter;

// Returns `true` if the table of these items, behind some bytes, is written in pieces of these
// lengths, and has no other byte.
fn is_written_in<W: Width, U: Serialize<PieceWriter, W>>(
    alloc: Global,
    items: &[U],
    hashes: &[u64],
    load_factor: (usize, usize),
    behind: &[u8],
    lengths: &[usize],
) -> bool {
    let mut writer = PieceWriter::new(alloc);
    let begun = behind.is_empty() || append(&mut writer, behind).is_ok();
    let written = ArchivedHashTable::<U::Archived, W>::serialize_from_iter::<
        PieceWriter,
        U,
        &U,
        _,
        _,
    >(
        alloc,
        items.iter(),
        hashes.iter().copied(),
        items.len(),
        load_factor,
        &mut writer,
    )
    .is_ok();
    let mut sum = 0usize;
    for length in lengths {
        sum = sum.wrapping_add(*length);
    }
    begun && written && writer.lengths() == lengths && writer.bytes().len() == sum
}

// The same of a narrow table that begins at position 0, under the load factor 7 / 8.
fn is_narrow_in<U: Serialize<PieceWriter, Narrow>>(
    alloc: Global,
    items: &[U],
    hashes: &[u64],
    lengths: &[usize],
) -> bool {
    is_written_in::<Narrow, U>(alloc, items, hashes, (7, 8), &[], lengths)
}

// The same of one item under the hash 0. Its parts have types of their own: the bounds of a type of
// nested pairs take longer to check.
fn is_one_in<A, B, C>(alloc: Global, items: &[(A, (B, C)); 1], lengths: &[usize]) -> bool
where
    A: Serialize<PieceWriter, Narrow>,
    B: Serialize<PieceWriter, Narrow>,
    C: Serialize<PieceWriter, Narrow>,
{
    is_narrow_in(alloc, items, &[0], lengths)
}

#[test]
fn small_buckets_are_one_piece(rt: HostRuntime) {
    let alloc = rt.alloc();
    let large = (
        (1u64, 2u64),
        ((3u64, 4u64), (5u64, (6u64, (7u64, (8u64, 9u64))))),
    );
    let written = [
        is_narrow_in(alloc, &[(1u32, 2u32)], &[0], &[0, 16, 31]),
        is_narrow_in(alloc, &FOUR_PAIRS, &[0; 4], &[0, 10, 31]),
        is_written_in::<Narrow, u8>(alloc, &SIXTEEN, &[16; 16], (1, 1), &[], &[0, 17, 47]),
        is_written_in::<Wide, u16>(alloc, &[7], &[0], (7, 8), &[], &[0, 4, 31]),
        // 145 buckets
        is_narrow_in(alloc, &[7u64; 127], &[0; 127], &[0, 1024, 136, 175]),
        // buckets of more than 64 bytes, each one piece
        is_one_in(alloc, &[large], &[0, 72, 72, 31]),
    ];
    expect_eq!(rt; written, [true; 6]);
}

#[test]
fn the_zeros_before_the_buckets_are_one_piece(rt: HostRuntime) {
    let alloc = rt.alloc();
    let (items, hashes) = ([(1u32, 2u64)], [0]);
    let behind = [
        is_written_in::<Narrow, (u32, u64)>(alloc, &items, &hashes, (7, 8), &[9], &[1, 7, 32, 31]),
        is_written_in::<Narrow, (u32, u64)>(
            alloc,
            &items,
            &hashes,
            (7, 8),
            &[9; 8],
            &[8, 0, 32, 31],
        ),
    ];
    expect_eq!(rt; behind, [true; 2]);
}

// The first item goes into bucket 1, and the second into bucket 0, of three.
#[test]
fn the_parts_of_items_are_pieces_by_ascending_bucket(rt: HostRuntime) {
    let alloc = rt.alloc();
    let overflow = ["wonderful", "marvellous"];
    let pairs = [("wonderful", "splendidly"), ("hello", "marvellously")];
    let written = [
        is_narrow_in(alloc, &overflow, &[1, 0], &[10, 9, 1, 24, 31]),
        is_narrow_in(alloc, &overflow, &[0, 1], &[9, 10, 1, 24, 31]),
        is_narrow_in(alloc, &pairs, &[1, 0], &[12, 9, 10, 1, 48, 31]),
        // a text that is inline has no piece of its own
        is_narrow_in(alloc, &["hello", "marvellous"], &[0, 1], &[10, 2, 24, 31]),
    ];
    expect_eq!(rt; written, [true; 4]);
}

#[test]
fn buckets_of_no_bytes_are_empty_pieces(rt: HostRuntime) {
    let written = is_narrow_in(rt.alloc(), &[()], &[0], &[0, 0, 0, 31]);
    assert!(rt; written);
}

#[test]
fn a_table_of_no_items_has_no_piece(rt: HostRuntime) {
    let alloc = rt.alloc();
    let written = [
        is_narrow_in::<u32>(alloc, &[], &[], &[]),
        is_narrow_in::<&str>(alloc, &[], &[], &[]),
        is_written_in::<Wide, u64>(alloc, &[], &[], (7, 8), &[9], &[1]),
    ];
    expect_eq!(rt; written, [true; 3]);
}

// Writes the table of one number, and its header.
fn write_seven(alloc: Global, writer: &mut PieceWriter) -> bool {
    match ArchivedHashTable::<u8, Narrow>::serialize_from_iter::<PieceWriter, u8, u8, _, _>(
        alloc,
        [7u8].into_iter(),
        [0u64].into_iter(),
        1,
        (7, 8),
        writer,
    ) {
        Ok(resolver) => write_header(resolver, writer).is_ok(),
        Err(_) => false,
    }
}

#[test]
fn a_header_is_one_piece(rt: HostRuntime) {
    let mut writer = PieceWriter::new(rt.alloc());
    let written = write_seven(rt.alloc(), &mut writer);
    expect_eq!(rt;
        (written, writer.lengths()),
        (true, [0, 2, 31, 3, 12].as_slice())
    );
}

// Writes the table of one number to a writer with this limit.
// Returns whether it is full, and the writer.
fn write_up_to(alloc: Global, limit: u64) -> (bool, PieceWriter) {
    let mut writer = LimitWriter::new(PieceWriter::new(alloc), limit);
    let outcome = ArchivedHashTable::<u32, Narrow>::serialize_from_iter::<_, u32, u32, _, _>(
        alloc,
        [7u32].into_iter(),
        [0u64].into_iter(),
        1,
        (7, 8),
        &mut writer,
    );
    let full = matches!(outcome, Err(WriteError::Writer(LimitFault::Full)));
    (full, writer.into_inner())
}

#[test]
fn a_limit_cuts_one_piece(rt: HostRuntime) {
    let (cut, in_the_buckets) = write_up_to(rt.alloc(), 6);
    let (still_cut, in_the_controls) = write_up_to(rt.alloc(), 38);
    let (none, whole) = write_up_to(rt.alloc(), 39);
    expect_eq!(rt;
        (
            [cut, still_cut, none],
            in_the_buckets.lengths(),
            in_the_controls.lengths(),
            whole.lengths()
        ),
        (
            [true, true, false],
            [0, 6].as_slice(),
            [0, 8, 30].as_slice(),
            [0, 8, 31].as_slice()
        )
    );
}
