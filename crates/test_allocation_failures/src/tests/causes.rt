//! The error of a failed allocation: that of the writer, which counts a failure, or of the call.

use rkyv_base::{Narrow, NoMemory, Serialize, VecWriter, WriteError, Writer, to_bytes, write_root};
use rkyv_table::ArchivedHashTable;
use std::alloc::Global;
use test_support::archives::archive;

// How a write ends.
#[derive(Clone, Copy, Debug, PartialEq, Eq)]
enum Ending {
    // The write succeeds.
    Written,
    // An allocation of the call fails.
    Memory,
    // An allocation of the writer fails.
    Writer,
    // The write fails in any other way.
    Other,
}

fn ending_of<R: Drop>(outcome: Result<R, WriteError<NoMemory>>) -> Ending {
    match outcome {
        Ok(_) => Ending::Written,
        Err(WriteError::Memory) => Ending::Memory,
        Err(WriteError::Writer(NoMemory)) => Ending::Writer,
        Err(_) => Ending::Other,
    }
}

// Returns `true` if the writer, which was new before the write, is as the ending says.
//
// After an allocation of the call has failed it is unchanged. After one of its own has failed it
// has one failure, and the pieces before the failed one.
fn fits(ending: Ending, writer: &VecWriter, bytes: &[u8]) -> bool {
    let written = writer.bytes();
    match ending {
        Ending::Written => writer.failures() == 0 && written == bytes,
        Ending::Memory => writer.failures() == 0 && written.is_empty(),
        Ending::Writer => {
            writer.failures() == 1 && written.len() < bytes.len() && bytes.starts_with(written)
        }
        Ending::Other => false,
    }
}

// Writes a root, and returns how that ends and whether the writer fits it.
fn root<V: Serialize<VecWriter, Narrow>>(alloc: Global, value: &V, bytes: &[u8]) -> (Ending, bool) {
    let mut writer = VecWriter::new(alloc);
    let ending = ending_of(write_root(alloc, value, &mut writer));
    (ending, fits(ending, &writer, bytes))
}

// Writes the number 7 as a root, and returns the same.
fn root_of_number(alloc: Global) -> (Ending, bool) {
    root(alloc, &7u32, &[7, 0, 0, 0])
}

type Pair = (u64, u64);

type Four = (Pair, Pair);

/// Eight numbers, of 64 bytes.
pub(super) const EIGHT: (Four, Four) = (((1, 2), (3, 4)), ((5, 6), (7, 8)));

// Writes the text wonderful and eight numbers as a root of 72 bytes, and returns the same.
fn root_of_text_and_numbers(alloc: Global) -> (Ending, bool) {
    root(alloc, &("wonderful", EIGHT), &wonderful_and_eight())
}

// Writes the table of the text wonderful under the hash 0, and returns the same.
fn table_of_text(alloc: Global) -> (Ending, bool) {
    let mut writer = VecWriter::new(alloc);
    let ending = ending_of(ArchivedHashTable::<_, Narrow>::serialize_from_iter::<
        VecWriter,
        &str,
        &str,
        _,
        _,
    >(
        alloc,
        ["wonderful"].into_iter(),
        [0u64].into_iter(),
        1,
        (7, 8),
        &mut writer,
    ));
    (ending, fits(ending, &writer, &table_of_wonderful()))
}

// Returns the archive of the text wonderful.
fn wonderful() -> [u8; 20] {
    archive(b"wonderful\0\0\0", &[0x89, 0, 0, 0, 0xf4, 0xff, 0xff, 0xff])
}

// Returns the archive of the text wonderful and the numbers from 1 to 8.
//
// The text's bytes from 0 on, the root at 16.
fn wonderful_and_eight() -> [u8; 88] {
    [
        b'w', b'o', b'n', b'd', b'e', b'r', b'f', b'u', b'l', 0, 0, 0, 0, 0, 0, 0, 0x89, 0, 0, 0,
        0xf0, 0xff, 0xff, 0xff, 1, 0, 0, 0, 0, 0, 0, 0, 2, 0, 0, 0, 0, 0, 0, 0, 3, 0, 0, 0, 0, 0,
        0, 0, 4, 0, 0, 0, 0, 0, 0, 0, 5, 0, 0, 0, 0, 0, 0, 0, 6, 0, 0, 0, 0, 0, 0, 0, 7, 0, 0, 0,
        0, 0, 0, 0, 8, 0, 0, 0, 0, 0, 0, 0,
    ]
}

// Returns the table of the text wonderful under the hash 0, without its header.
//
// The text's bytes from 0 on, buckets from 12 on, controls from 28 on.
fn table_of_wonderful() -> [u8; 59] {
    archive(
        b"wonderful\0\0\0\0\0\0\0\0\0\0\0\x89\0\0\0\xec\xff\xff\xff\0\xff\0",
        &[],
    )
}

// A root of more than 64 fixed bytes allocates a buffer, before it writes its text.
#[test]
fn writer_state_matches_the_outcome(rt: HostRuntime) {
    expect_eq!(rt; root_of_number(rt.alloc()).1, true);
    expect_eq!(rt; root_of_text_and_numbers(rt.alloc()).1, true);
    expect_eq!(rt; table_of_text(rt.alloc()).1, true);
}

#[test]
fn writing_roots_and_a_table_succeeds(rt: HostRuntime) {
    expect_eq!(rt; root_of_number(rt.alloc()), (Ending::Written, true));
    expect_eq!(rt; root_of_text_and_numbers(rt.alloc()), (Ending::Written, true));
    expect_eq!(rt; table_of_text(rt.alloc()), (Ending::Written, true));
}

// Archives the text wonderful, and returns whether the archive is as expected.
fn archives_text(alloc: Global) -> Result<bool, WriteError<NoMemory>> {
    let bytes = to_bytes(alloc, &"wonderful")?;
    Ok(bytes.as_slice() == wonderful().as_slice())
}

#[test]
fn archive_is_complete_or_fails_to_allocate(rt: HostRuntime) {
    let right = match archives_text(rt.alloc()) {
        Ok(whole) => whole,
        Err(WriteError::Memory | WriteError::Writer(NoMemory)) => true,
        Err(_) => false,
    };
    assert!(rt; right);
}

#[test]
fn the_archive_of_a_text_succeeds(rt: HostRuntime) {
    expect_eq!(rt; archives_text(rt.alloc()), Ok(true));
}

#[test]
fn the_unit_value_needs_no_memory(rt: HostRuntime) {
    expect_eq!(rt; root(rt.alloc(), &(), &[]), (Ending::Written, true));
}
