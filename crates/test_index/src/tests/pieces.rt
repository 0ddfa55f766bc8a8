//! The lengths of the pieces that index maps and index sets append.

use rkyv_base::{Narrow, Serialize, Wide, write_root};
use rkyv_index::{ArchivedIndexMap, ArchivedIndexSet, IndexWidth, OrderedPairs};
use rkyv_keys::{KeyElement, NativeKey};
use rkyv_scan::FxHasher64;
use rkyv_table::table::list_inputs::PairRefs;
use std::alloc::Global;
use std::test::Fail;
use test_support::writers::PieceWriter;

const FOUR_PAIRS: [(i8, i8); 4] = [(1, 2), (3, 4), (5, 6), (7, 8)];

// Returns `true` if the writer has pieces of these lengths, and no other byte.
fn has_pieces(writer: &PieceWriter, lengths: &[usize]) -> bool {
    let mut sum = 0usize;
    for length in lengths {
        sum = sum.wrapping_add(*length);
    }
    writer.lengths() == lengths && writer.bytes().len() == sum
}

// Returns `true` if the index map of these pairs, at position 0, is written in pieces of these
// lengths, and has no other byte.
fn is_written_in<W: IndexWidth, A, B: Serialize<PieceWriter, W>>(
    alloc: Global,
    pairs: &[(A, B)],
    lengths: &[usize],
) -> bool
where
    A: NativeKey<A::Archived> + Serialize<PieceWriter, W>,
    A::Archived: KeyElement,
{
    let mut writer = PieceWriter::new(alloc);
    let written = ArchivedIndexMap::<
        A::Archived,
        B::Archived,
        FxHasher64,
        W,
    >::serialize_from_iter::<PieceWriter, A, B, &A, &B, PairRefs<'_, A, B>>(
        alloc,
        PairRefs::of(pairs),
        pairs.len(),
        (7, 8),
        &mut writer,
    ).is_ok();
    written && has_pieces(&writer, lengths)
}

#[test]
fn the_entries_are_one_piece_behind_the_table(rt: HostRuntime) {
    let alloc = rt.alloc();
    let four = [0, 20, 31, 0, 8];
    let written = [
        is_written_in::<Narrow, i8, i8>(alloc, &FOUR_PAIRS, &four),
        is_written_in::<Wide, i8, i8>(alloc, &[(1, 2)], &[0, 16, 31, 0, 2]),
        // the zeros before the entries are one piece
        is_written_in::<Narrow, u32, u32>(alloc, &[(1, 2)], &[0, 8, 31, 1, 8]),
        // a text out of line is a piece before the entries
        is_written_in::<Narrow, &str, u32>(alloc, &[("wonderful", 1)], &[0, 8, 31, 9, 0, 12]),
        is_written_in::<Narrow, i8, i8>(alloc, &[], &[0]),
    ];
    expect_eq!(rt; written, [true; 5]);
}

// Returns `true` if the index set of 1 is written in pieces of these lengths, and has no other
// byte.
fn is_set_written_in(alloc: Global, lengths: &[usize]) -> bool {
    let mut writer = PieceWriter::new(alloc);
    let written = ArchivedIndexSet::<i8, FxHasher64, Narrow>::serialize_from_iter::<
        PieceWriter,
        i8,
        i8,
        _,
    >(alloc, [1i8].into_iter(), 1, (7, 8), &mut writer).is_ok();
    written && has_pieces(&writer, lengths)
}

#[test]
fn the_keys_of_a_set_are_one_piece(rt: HostRuntime) {
    let written = is_set_written_in(rt.alloc(), &[0, 8, 31, 0, 1]);
    assert!(rt; written);
}

// Returns `true` if the index map of these pairs is written as a root in pieces of these lengths,
// and has no other byte.
fn is_root_in(alloc: Global, pairs: &[(i8, i8)], lengths: &[usize]) -> Result<bool, Fail> {
    let mut list = Vec::new(alloc);
    for pair in pairs {
        list.push(*pair)?;
    }
    let mut writer = PieceWriter::new(alloc);
    let written = write_root(alloc, &OrderedPairs(list), &mut writer).is_ok();
    Ok(written && has_pieces(&writer, lengths))
}

#[test]
fn a_root_is_two_pieces_more(rt: HostRuntime) -> Result<(), Fail> {
    let alloc = rt.alloc();
    let four = [0, 20, 31, 0, 8, 1, 16];
    let written = [
        is_root_in(alloc, &FOUR_PAIRS, &four)?,
        is_root_in(alloc, &[], &[0, 0, 16])?,
    ];
    expect_eq!(rt; written, [true; 2]);
    Ok(())
}
