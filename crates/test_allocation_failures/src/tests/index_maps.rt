//! Index maps and sets that are archived.

use crate::tests::std_maps::is_read_back_or_fails_to_allocate;
use rkyv_base::access::access;
use rkyv_base::{
    Narrow, NoMemory, ReadError, Text, VecWriter, VerifyError, WriteError, append, to_bytes,
};
use rkyv_index::{
    ArchivedIndexMap, ArchivedIndexSet, IndexMapOf, IndexSetOf, OrderedItems, OrderedPairs,
};
use rkyv_scan::FxHasher64;
use std::alloc::Global;
use test_support::archives::{archive, four_entries, one_index_key};

// Returns the four pairs, or `None` if their list fails to allocate.
fn four(alloc: Global) -> Option<Vec<(i8, i8)>> {
    vec![in alloc; (1i8, 2i8), (3, 4), (5, 6), (7, 8)].ok()
}

// Returns the archive of the four pairs, or `None` if their list fails to allocate.
fn four_built(alloc: Global) -> Option<Result<Vec<u8>, WriteError<NoMemory>>> {
    let list = OrderedPairs(four(alloc)?);
    Some(to_bytes(alloc, &list))
}

// Returns the archive of the set of 1, or `None` if its list fails to allocate.
fn one_built(alloc: Global) -> Option<Result<Vec<u8>, WriteError<NoMemory>>> {
    let list = OrderedItems(vec![in alloc; 1i8].ok()?);
    Some(to_bytes(alloc, &list))
}

// Returns whether these bytes are built, or an allocation fails.
fn is_complete_or_fails_to_allocate(
    built: Option<Result<Vec<u8>, WriteError<NoMemory>>>,
    bytes: &[u8],
) -> bool {
    match built {
        Some(Ok(built)) => built.as_slice() == bytes,
        Some(Err(WriteError::Memory)) => true,
        Some(Err(WriteError::Writer(NoMemory))) => true,
        Some(Err(_)) => false,
        None => true,
    }
}

// Returns whether these bytes are built.
fn is_whole(built: Option<Result<Vec<u8>, WriteError<NoMemory>>>, bytes: &[u8]) -> bool {
    match built {
        Some(Ok(built)) => built.as_slice() == bytes,
        _ => false,
    }
}

#[test]
fn maps_and_sets_are_complete_or_fail_to_allocate(rt: HostRuntime) {
    assert!(rt; is_complete_or_fails_to_allocate(four_built(rt.alloc()), &four_entries()));
    assert!(rt; is_complete_or_fails_to_allocate(one_built(rt.alloc()), &one_index_key()));
}

#[test]
fn writing_a_map_and_a_set_succeeds(rt: HostRuntime) {
    assert!(rt; is_whole(four_built(rt.alloc()), &four_entries()));
    assert!(rt; is_whole(one_built(rt.alloc()), &one_index_key()));
}

// Writes the four pairs behind a byte 9, or returns `None` if either fails to allocate.
// Returns whether they are written, and whether the byte 9 is unchanged.
// After `Memory`, no byte may be behind it.
fn behind_a_nine(alloc: Global) -> Option<(bool, bool)> {
    let pairs = four(alloc)?;
    let mut writer = VecWriter::new(alloc);
    append(&mut writer, &[9]).ok()?;
    let outcome = ArchivedIndexMap::<i8, i8, FxHasher64, Narrow>::serialize_from_iter::<
        VecWriter,
        i8,
        i8,
        i8,
        i8,
        _,
    >(alloc, pairs.into_iter(), 4, (7, 8), &mut writer);
    let nothing = writer.bytes() == [9].as_slice();
    let kept = matches!(writer.bytes(), [9, ..]);
    match outcome {
        Ok(_) => Some((true, kept)),
        Err(WriteError::Memory) => Some((false, nothing)),
        Err(WriteError::Writer(NoMemory)) => Some((false, kept)),
        Err(_) => Some((false, false)),
    }
}

#[test]
fn map_allocates_before_writing(rt: HostRuntime) {
    let right = match behind_a_nine(rt.alloc()) {
        Some((_, right)) => right,
        None => true,
    };
    assert!(rt; right);
}

#[test]
fn a_map_behind_a_byte_succeeds(rt: HostRuntime) {
    expect_eq!(rt; behind_a_nine(rt.alloc()), Some((true, true)));
}

// Returns whether the four pairs are read back from their archive, or the error.
fn pairs_back(alloc: Global) -> Result<Result<bool, ReadError>, VerifyError> {
    let bytes = four_entries();
    let root = ArchivedIndexMap::of(access::<IndexMapOf<i8, i8>>(&bytes)?);
    let back: Result<Vec<(i8, i8)>, ReadError> = root.deserialize_pairs(alloc);
    Ok(back.map(|list| list.as_slice() == [(1i8, 2i8), (3, 4), (5, 6), (7, 8)].as_slice()))
}

// Returns whether the one key is read back from its archive, or the error.
fn items_back(alloc: Global) -> Result<Result<bool, ReadError>, VerifyError> {
    let bytes = one_index_key();
    let root = ArchivedIndexSet::of(access::<IndexSetOf<i8>>(&bytes)?);
    let back: Result<Vec<i8>, ReadError> = root.deserialize_items(alloc);
    Ok(back.map(|list| list.as_slice() == [1i8].as_slice()))
}

// Returns the index map of hello to a wonderful text, and of wonderful to world.
//
// Buckets from 0 on, controls from 12 on, out-of-line texts from 43 and 59 on, entries from 68 on,
// header at 100.
fn two_texts() -> [u8; 116] {
    let table = archive::<43>(
        &[
            1, 0, 0, 0, 0, 0, 0, 0, 0, 0, 0, 0, 0xff, 0x6c, 0x65, 0xff, 0x6c, 0x65,
        ],
        &[],
    );
    let entries = archive::<57>(
        b"a wonderful textwonderfulhello",
        b"\x90\0\0\0\xdf\xff\xff\xff\x89\0\0\0\xe7\xff\xff\xffworld\xff\xff\xff",
    );
    let header = [
        0xa8, 0xff, 0xff, 0xff, 2, 0, 0, 0, 3, 0, 0, 0, 0xd4, 0xff, 0xff, 0xff,
    ];
    archive(&archive::<100>(&table, &entries), &header)
}

// Returns whether these are the two pairs of texts, in this order.
fn are_two_texts(pairs: &[(String, String)]) -> bool {
    match pairs {
        [first, second] => {
            first.0.as_str() == "hello"
                && first.1.as_str() == "a wonderful text"
                && second.0.as_str() == "wonderful"
                && second.1.as_str() == "world"
        }
        _ => false,
    }
}

// Returns whether the two pairs of texts are read back from their archive, or the error.
fn texts_back(alloc: Global) -> Result<Result<bool, ReadError>, VerifyError> {
    let bytes = two_texts();
    let root = ArchivedIndexMap::of(access::<IndexMapOf<Text, Text>>(&bytes)?);
    let back: Result<Vec<(String, String)>, ReadError> = root.deserialize_pairs(alloc);
    Ok(back.map(|list| are_two_texts(list.as_slice())))
}

#[test]
fn lists_are_read_back_or_fail_to_allocate(rt: HostRuntime) {
    assert!(rt; is_read_back_or_fails_to_allocate(pairs_back(rt.alloc())));
    assert!(rt; is_read_back_or_fails_to_allocate(items_back(rt.alloc())));
    assert!(rt; is_read_back_or_fails_to_allocate(texts_back(rt.alloc())));
}

#[test]
fn reading_lists_back_succeeds(rt: HostRuntime) {
    expect_eq!(rt; pairs_back(rt.alloc()), Ok(Ok(true)));
    expect_eq!(rt; items_back(rt.alloc()), Ok(Ok(true)));
    expect_eq!(rt; texts_back(rt.alloc()), Ok(Ok(true)));
}
