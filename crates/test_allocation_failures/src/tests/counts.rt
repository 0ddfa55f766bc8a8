//! The number of allocations of a call.
//!
//! Each test makes eight allocations: those of its call, after as many of its own as are missing.
//! `tools/fail-allocations` compares the number.

use crate::tests::causes::EIGHT;
use rkyv_base::{Narrow, Serialize, VecWriter, WriteError, Writer, to_bytes, write_root};
use rkyv_table::ArchivedHashTable;
use std::alloc::Global;
use test_support::writers::{Broken, BrokenWriter};

// Makes a number of allocations, and returns `true` if none fails.
fn allocates(alloc: Global, count: usize) -> bool {
    for _ in 0..count {
        if (vec![in alloc; 7u8]).is_err() {
            return false;
        }
    }
    true
}

// Makes new writers, and returns their number.
fn new_writers(alloc: Global) -> usize {
    let mut count = 0usize;
    for _ in 0..20 {
        let writer = VecWriter::new(alloc);
        if writer.bytes().is_empty() {
            count = count.wrapping_add(1);
        }
    }
    count
}

// Writes the table of an item under the hash 0, and returns whether it is written.
fn writes_table(alloc: Global, items: &[u8]) -> bool {
    let mut writer = VecWriter::new(alloc);
    ArchivedHashTable::<u8, Narrow>::serialize_from_iter::<VecWriter, u8, &u8, _, _>(
        alloc,
        items.iter(),
        [0u64].into_iter().take(items.len()),
        items.len(),
        (7, 8),
        &mut writer,
    )
    .is_ok()
}

// Writes the table of an item to a writer that fails, and returns whether that is the error.
fn fails_to_write_table<U: Serialize<BrokenWriter, Narrow>>(alloc: Global, item: &U) -> bool {
    let mut writer = BrokenWriter::new(0);
    let outcome = ArchivedHashTable::<U::Archived, Narrow>::serialize_from_iter::<
        BrokenWriter,
        U,
        &U,
        _,
        _,
    >(
        alloc,
        [item].into_iter(),
        [0u64].into_iter(),
        1,
        (7, 8),
        &mut writer,
    );
    matches!(outcome, Err(WriteError::Writer(Broken))) && writer.failures() == 1
}

// Archives a text, and returns whether that succeeds.
fn archives_text(alloc: Global, text: &str) -> bool {
    to_bytes(alloc, &text).is_ok()
}

#[test]
fn a_new_writer_makes_no_allocation_and_succeeds(rt: HostRuntime) {
    expect_eq!(rt; new_writers(rt.alloc()), 20);
    expect_eq!(rt; allocates(rt.alloc(), 8), true);
}

#[test]
fn an_archive_of_no_bytes_makes_no_allocation_and_succeeds(rt: HostRuntime) {
    assert!(rt; to_bytes(rt.alloc(), &()).is_ok() && allocates(rt.alloc(), 8));
}

// The allocation is the writer's: the buffer for the fixed bytes of a small root needs no memory.
#[test]
fn a_number_makes_one_allocation_and_succeeds(rt: HostRuntime) {
    assert!(rt; allocates(rt.alloc(), 7) && to_bytes(rt.alloc(), &7u32).is_ok());
}

#[test]
fn an_inline_text_makes_one_allocation_and_succeeds(rt: HostRuntime) {
    assert!(rt; allocates(rt.alloc(), 7) && archives_text(rt.alloc(), "hello"));
}

// The writer makes one for each of its three pieces: 9, 3 and 8 bytes, and doubles what it has.
#[test]
fn an_out_of_line_text_makes_three_allocations_and_succeeds(rt: HostRuntime) {
    assert!(rt; allocates(rt.alloc(), 5) && archives_text(rt.alloc(), "wonderful"));
}

// Writes a root to a writer that fails, and returns whether that is the error.
fn fails_to_write_root<V: Serialize<BrokenWriter, Narrow>>(alloc: Global, value: &V) -> bool {
    let mut writer = BrokenWriter::new(0);
    let outcome = write_root(alloc, value, &mut writer);
    matches!(outcome, Err(WriteError::Writer(Broken)))
}

#[test]
fn a_root_of_64_bytes_makes_no_allocation_of_its_own_and_succeeds(rt: HostRuntime) {
    assert!(rt; allocates(rt.alloc(), 8) && fails_to_write_root(rt.alloc(), &EIGHT));
}

// The allocation is that of the buffer for the fixed bytes.
#[test]
fn a_root_of_72_bytes_makes_one_allocation_of_its_own_and_succeeds(rt: HostRuntime) {
    assert!(rt; allocates(rt.alloc(), 7) && fails_to_write_root(rt.alloc(), &(EIGHT, 9u64)));
}

// They are for the slots of items, for the controls and a bucket, and for the resolvers.
#[test]
fn a_table_makes_three_allocations_of_its_own_and_succeeds(rt: HostRuntime) {
    assert!(rt; allocates(rt.alloc(), 5) && fails_to_write_table(rt.alloc(), &7u8));
}

#[test]
fn a_table_of_texts_makes_as_many_and_succeeds(rt: HostRuntime) {
    assert!(rt; allocates(rt.alloc(), 5) && fails_to_write_table(rt.alloc(), &"hello"));
}

// The writer makes one for the first bucket and one for the controls.
#[test]
fn a_table_in_memory_makes_five_allocations_and_succeeds(rt: HostRuntime) {
    assert!(rt; allocates(rt.alloc(), 3) && writes_table(rt.alloc(), &[7]));
}

#[test]
fn a_table_of_no_items_makes_no_allocation_and_succeeds(rt: HostRuntime) {
    assert!(rt; writes_table(rt.alloc(), &[]) && allocates(rt.alloc(), 8));
}
