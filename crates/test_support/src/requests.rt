//! The number of calls of the iterators whose items are written, and the outcomes of the writes.

use rkyv_base::{IteratorLengthMismatch, Narrow, NoMemory, VecWriter, WriteError};
use rkyv_scan::simd::generic;
use rkyv_table::ArchivedHashTable;
use std::alloc::Global;
use std::cell::Cell;
use std::iter;

/// Counts a call of an iterator of `items` items, and returns whether it yields one more.
pub fn yields_next(requests: &Cell<usize>, items: usize) -> bool {
    let request = requests.get();
    requests.set(request.wrapping_add(1));
    request < items
}

/// The outcome of a write with a writer that had no bytes before.
#[derive(Clone, Copy, Debug, PartialEq, Eq)]
pub enum Outcome {
    /// The write succeeds.
    Written,
    /// The claimed length differs from the counted one, and no byte is written.
    Mismatch(usize, usize),
    /// The load factor, of this numerator and denominator, is invalid; no byte is written.
    LoadFactor(usize, usize),
    /// An allocation fails, and no byte is written.
    Memory,
    /// The writer fails, or an allocation fails after bytes are written.
    Growth,
    /// Any other error.
    Other,
}

/// Returns the outcome of a write with this writer, which had no bytes before.
pub fn outcome_of<R: Drop>(
    outcome: Result<R, WriteError<NoMemory>>,
    writer: &VecWriter,
) -> Outcome {
    let clean = writer.bytes().is_empty();
    match outcome {
        Ok(_) => Outcome::Written,
        Err(WriteError::IteratorLengthMismatch(IteratorLengthMismatch { expected, actual }))
            if clean => { Outcome::Mismatch(expected, actual) }
        Err(
            WriteError::InvalidLoadFactor {
                numerator,
                denominator,
            },
        ) if clean => Outcome::LoadFactor(numerator, denominator),
        Err(WriteError::Memory) if clean => Outcome::Memory,
        Err(WriteError::Memory | WriteError::Writer(_)) => Outcome::Growth,
        Err(_) => Outcome::Other,
    }
}

/// Returns the expected outcome of a write of `items` items under the claimed length `len`.
pub fn expected_outcome(items: usize, len: usize) -> Outcome {
    if items < len {
        Outcome::Mismatch(len, items)
    } else if items == len {
        Outcome::Written
    } else {
        Outcome::Mismatch(len, len.saturating_add(1))
    }
}

/// Returns the greatest number of calls of an iterator of `items` items.
///
/// It is one more than the items or than the claimed length `len`, whichever is less.
pub fn max_requests(items: usize, len: usize) -> usize {
    if items < len {
        items.saturating_add(1)
    } else {
        len.saturating_add(1)
    }
}

/// A write of a number of items under a claimed length, with a load factor.
///
/// It returns the outcome, and the number of calls of the iterator.
pub type CountedWrite = fn(Global, usize, usize, (usize, usize)) -> (Outcome, usize);

/// Writes up to five items under claimed lengths of up to three: 24 writes.
///
/// Returns how many of them have the expected outcome and make no surplus call of the iterator.
///
/// # Requires
///
/// - `write` can be called with any arguments.
pub fn right_writes(alloc: Global, write: CountedWrite) -> usize
    requires { CountedWrite.IsAlwaysCallable write }
{
    let mut right = 0usize;
    for len in 0..4 {
        for items in 0..6 {
            let (outcome, requests) = write(alloc, items, len, (7, 8));
            if outcome == expected_outcome(items, len) && requests <= max_requests(items, len) {
                right = right.wrapping_add(1);
            }
        }
    }
    right
}

/// Returns the outcomes of writes whose iterator ends early, in time, late or never.
///
/// The last outcome is that of a write whose load factor is invalid.
///
/// # Requires
///
/// - `write` can be called with any arguments.
pub fn writes_at_the_end(alloc: Global, write: CountedWrite) -> [(Outcome, usize); 5]
    requires { CountedWrite.IsAlwaysCallable write }
{
    [
        write(alloc, 2, 3, (7, 8)),
        write(alloc, 1, 0, (7, 8)),
        write(alloc, usize::MAX, 2, (7, 8)),
        write(alloc, 0, 0, (7, 8)),
        write(alloc, 1, 1, (8, 7)),
    ]
}

/// Returns the expected outcomes of `writes_at_the_end`.
pub fn expected_at_the_end() -> [(Outcome, usize); 5] {
    [
        (Outcome::Mismatch(3, 2), 3),
        (Outcome::Mismatch(0, 1), 1),
        (Outcome::Mismatch(2, 3), 3),
        (Outcome::Written, 1),
        (Outcome::LoadFactor(8, 7), 0),
    ]
}

/// Writes a table of items and hashes under the claimed length `len`.
///
/// Returns the outcome, and the numbers of calls of the two iterators.
pub fn requests_of_table(
    alloc: Global,
    items: usize,
    hashes: usize,
    len: usize,
) -> (Outcome, usize, usize) {
    let (of_items, of_hashes) = (Cell::new(0usize), Cell::new(0usize));
    let mut writer = VecWriter::new(alloc);
    let outcome = ArchivedHashTable::<u8, Narrow>::serialize_from_iter::<VecWriter, u8, u8, _, _>(
        alloc,
        iter::from_fn(|| yields_next(&of_items, items).then_some(7u8)),
        iter::from_fn(|| yields_next(&of_hashes, hashes).then_some(0u64)),
        len,
        (7, 8),
        &mut writer,
    );
    (
        outcome_of(outcome, &writer),
        of_items.get(),
        of_hashes.get(),
    )
}

/// Writes a table of pairs of hash and item under the claimed length `len`.
///
/// Returns the outcome, and the number of calls of the iterator. It is a `CountedWrite`.
pub fn requests_of_pairs(
    alloc: Global,
    pairs: usize,
    len: usize,
    load_factor: (usize, usize),
) -> (Outcome, usize) {
    let requests = Cell::new(0usize);
    let mut writer = VecWriter::new(alloc);
    let outcome = ArchivedHashTable::<u8, Narrow>::serialize_by::<
        generic::Group,
        VecWriter,
        u8,
        u8,
        _,
    >(
        alloc,
        iter::from_fn(|| yields_next(&requests, pairs).then_some((0u64, 7u8))),
        len,
        load_factor,
        &mut writer,
    );
    (outcome_of(outcome, &writer), requests.get())
}
