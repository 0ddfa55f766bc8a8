//! Tables and archives that the tests write, and the bytes that they compare.

use rkyv_base::{
    Narrow, NoMemory, Serialize, VecWriter, WriteError, WriteResult, Writer, align_for, append,
};
use rkyv_scan::{FxHasher64, KeyHasher};
use rkyv_table::{ArchivedHashTable, HashTableResolver};
use std::alloc::Global;
use test_support::archives::archive;

/// Pairs of numbers of eight bits.
pub(crate) const FOUR_PAIRS: [(i8, i8); 4] = [(1, 2), (3, 4), (5, 6), (7, 8)];

/// The numbers from 1 to 16.
pub(crate) const SIXTEEN: [u8; 16] = [1, 2, 3, 4, 5, 6, 7, 8, 9, 10, 11, 12, 13, 14, 15, 16];

/// A hash with the start of `ODD_TAG`. Their tags differ in the lowest bit.
pub(crate) const EVEN_TAG: u64 = 0x5000_0000_0000_0001;

/// A hash with the start of `EVEN_TAG`.
pub(crate) const ODD_TAG: u64 = 0x5200_0000_0000_0000;

/// Returns the archive of the table of the numbers 10 and 20, both under the hash 2.
pub(crate) fn two_archived() -> [u8; 48] {
    archive(
        &[10, 0, 20, 0, 0xff, 0, 0, 0xff, 0],
        &[0, 0, 0xdf, 0xff, 0xff, 0xff, 2, 0, 0, 0, 3, 0, 0, 0],
    )
}

/// Returns the archive of the table of 10 under `EVEN_TAG` and 20 under `ODD_TAG`.
pub(crate) fn tags_archived() -> [u8; 48] {
    archive(
        &[0, 20, 10, 0x28, 0x29, 0xff, 0x28, 0x29],
        &[0, 0, 0xdf, 0xff, 0xff, 0xff, 2, 0, 0, 0, 3, 0, 0, 0],
    )
}

/// Returns the archive of the table of `SIXTEEN`, each under the hash 16.
pub(crate) fn sixteen_archived() -> [u8; 76] {
    archive(
        &[
            1, 0, 16, 15, 14, 13, 12, 11, 10, 9, 8, 7, 6, 5, 4, 3, 2, 0, 0, 0, 0, 0, 0, 0, 0, 0, 0,
            0, 0, 0, 0, 0, 0xff, 0, 0, 0, 0, 0, 0, 0, 0, 0, 0, 0, 0, 0, 0, 0, 0, 0xff, 0,
        ],
        &[0xd1, 0xff, 0xff, 0xff, 16, 0, 0, 0, 17, 0, 0, 0],
    )
}

/// Returns the archive of the table of the numbers from 1 to 15.
///
/// Each is in the bucket before its own number. The table has sixteen buckets of one byte, 31
/// control bytes, and a zero before the header.
pub(crate) fn fifteen_archived() -> [u8; 60] {
    let mut bytes = [0; 60];
    bytes[1..16].copy_from_slice(&[15, 14, 13, 12, 11, 10, 9, 8, 7, 6, 5, 4, 3, 2, 1]);
    bytes[31] = 0xff;
    bytes[48..].copy_from_slice(&[0xe0, 0xff, 0xff, 0xff, 15, 0, 0, 0, 16, 0, 0, 0]);
    bytes
}

/// Returns the archive of one bucket without an item.
pub(crate) fn empty_bucket_archived() -> [u8; 44] {
    archive(&[0], &[0xe1, 0xff, 0xff, 0xff, 0, 0, 0, 0, 1, 0, 0, 0])
}

/// Returns the wide archive of the table of the number 7 under the hash 1.
pub(crate) fn wide_seven_archived() -> [u8; 64] {
    archive(
        &[7, 0, 0xff, 0, 0xff, 0],
        &[
            0, 0, 0, 0, 0, 0, 0, 0xda, 0xff, 0xff, 0xff, 0xff, 0xff, 0xff, 0xff, 1, 0, 0, 0, 0, 0,
            0, 0, 2, 0, 0, 0, 0, 0, 0, 0,
        ],
    )
}

/// Returns the archive of the table of `true` and `false`, both under the hash 2.
pub(crate) fn bools_archived() -> [u8; 48] {
    archive(
        &[1, 0, 0, 0, 0xff, 0, 0, 0xff, 0],
        &[0, 0, 0xdf, 0xff, 0xff, 0xff, 2, 0, 0, 0, 3, 0, 0, 0],
    )
}

/// Returns the hash of a number of eight bits.
pub(crate) fn hash_of_i8(number: i8) -> u64 {
    let mut hasher = FxHasher64::default();
    hasher.write_i8(number);
    hasher.finish()
}

/// Returns the hash of a number of 32 bits.
pub(crate) fn hash_of_u32(number: u32) -> u64 {
    let mut hasher = FxHasher64::default();
    hasher.write_u32(number);
    hasher.finish()
}

/// Returns the hash of a number of the machine's width, by one of the hashers.
pub(crate) fn hash_of_usize<H: KeyHasher + Default>(number: usize) -> u64 {
    let mut hasher = H::default();
    hasher.write_usize(number);
    hasher.finish()
}

// Writes a table of the items, each under its hash.
fn write_items<U: Serialize<VecWriter, Narrow>>(
    alloc: Global,
    items: &[U],
    hashes: &[u64],
    load_factor: (usize, usize),
    writer: &mut VecWriter,
) -> Result<HashTableResolver, WriteError<NoMemory>> {
    ArchivedHashTable::<U::Archived, Narrow>::serialize_from_iter::<VecWriter, U, &U, _, _>(
        alloc,
        items.iter(),
        hashes.iter().copied(),
        items.len(),
        load_factor,
        writer,
    )
}

/// Returns the bytes of a table of the items and the position of its first control byte.
///
/// The table is written from position 0 on, with each item under its hash.
pub(crate) fn written<U: Serialize<VecWriter, Narrow>>(
    alloc: Global,
    items: &[U],
    hashes: &[u64],
    load_factor: (usize, usize),
) -> Result<(Vec<u8>, u64), WriteError<NoMemory>> {
    let mut writer = VecWriter::new(alloc);
    let resolver = write_items(alloc, items, hashes, load_factor, &mut writer)?;
    Ok((writer.into_vec(), resolver.pos()))
}

/// Writes the header of a table after it.
pub(crate) fn write_header<S: Writer>(
    resolver: HashTableResolver,
    writer: &mut S,
) -> WriteResult<(), S> {
    let root = align_for::<u32, S>(writer)?;
    let mut header = [0u8; 12];
    let (len, load_factor) = (resolver.len(), resolver.load_factor());
    match ArchivedHashTable::<(), Narrow>::resolve_from_len(
        len,
        load_factor,
        resolver,
        root,
        &mut header,
    ) {
        Ok(()) => append(writer, &header),
        Err(_) => Err(WriteError::DistanceTooLarge),
    }
}

/// Returns the archive of a table of the items, each under its hash.
pub(crate) fn archived<U: Serialize<VecWriter, Narrow>>(
    alloc: Global,
    items: &[U],
    hashes: &[u64],
    load_factor: (usize, usize),
) -> Result<Vec<u8>, WriteError<NoMemory>> {
    let mut writer = VecWriter::new(alloc);
    let resolver = write_items(alloc, items, hashes, load_factor, &mut writer)?;
    write_header(resolver, &mut writer)?;
    Ok(writer.into_vec())
}

/// Returns `true` if the bytes are the archive of a table of the items, each under its hash.
pub(crate) fn is_archive<U: Serialize<VecWriter, Narrow>>(
    alloc: Global,
    bytes: &[u8],
    items: &[U],
    hashes: &[u64],
    load_factor: (usize, usize),
) -> bool {
    match archived(alloc, items, hashes, load_factor) {
        Ok(expected) => expected.as_slice() == bytes,
        Err(_) => false,
    }
}
