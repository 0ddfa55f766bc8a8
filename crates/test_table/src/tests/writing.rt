//! The bytes of written tables.

use crate::tests::archives::{
    EVEN_TAG, FOUR_PAIRS, ODD_TAG, SIXTEEN, archived, bools_archived, fifteen_archived, hash_of_i8,
    hash_of_u32, hash_of_usize, is_archive, sixteen_archived, tags_archived, two_archived, written,
};
use crate::tests::reading::counts;
use rkyv_base::{Narrow, NoMemory, Serialize, VecWriter, WriteError, append};
use rkyv_scan::simd::{bytewise, generic, lanes, paired};
use rkyv_scan::{FxHasher64, FxHasher64Wide, GroupKind, KeyHasher};
use rkyv_table::ArchivedHashTable;
use rkyv_table::table::laws;
use std::alloc::Global;
use test_support::archives::{
    four_pairs, no_items, one_key_twice, one_number, one_unit, two_units,
};
use test_support::written::is_then_empty;

// Returns `true` if a table written by groups of the kind `G` has the first control byte at `pos`,
// and these bytes.
fn is_by<G: GroupKind, U: Serialize<VecWriter, Narrow>>(
    alloc: Global,
    items: &[U],
    hashes: &[u64],
    load_factor: (usize, usize),
    pos: u64,
    bytes: &[u8],
) -> bool {
    let mut writer = VecWriter::new(alloc);
    let pairs = hashes.iter().copied().zip(items.iter());
    match ArchivedHashTable::<U::Archived, Narrow>::serialize_by::<G, VecWriter, U, &U, _>(
        alloc,
        pairs,
        items.len(),
        load_factor,
        &mut writer,
    ) {
        Ok(resolver) => resolver.pos() == pos && writer.bytes() == bytes,
        Err(_) => false,
    }
}

// Returns `true` if a table of the items has the first control byte at `pos`, and the bytes `front`
// followed by `empty` empty control bytes. It is written by groups of each kind.
fn is_written<U: Serialize<VecWriter, Narrow>>(
    alloc: Global,
    items: &[U],
    hashes: &[u64],
    load_factor: (usize, usize),
    pos: u64,
    front: &[u8],
    empty: usize,
) -> bool {
    let (bytes, first_control) = match written(alloc, items, hashes, load_factor) {
        Ok(table) => table,
        Err(_) => return false,
    };
    let bytes = bytes.as_slice();
    let by_bytes = is_by::<bytewise::Group, U>(alloc, items, hashes, load_factor, pos, bytes);
    let by_words = is_by::<generic::Group, U>(alloc, items, hashes, load_factor, pos, bytes);
    let by_lanes = is_by::<lanes::Group, U>(alloc, items, hashes, load_factor, pos, bytes);
    let by_pairs = is_by::<paired::Group, U>(alloc, items, hashes, load_factor, pos, bytes);
    let plain = first_control == pos && is_then_empty(bytes, front, empty);
    plain && by_bytes && by_words && by_lanes && by_pairs
}

#[test]
fn tables_are_written(rt: HostRuntime) {
    laws::ready_elements_are_written_one_way::<Narrow, u32, u8, u32>();
    let alloc = rt.alloc();
    let front = [1, 2, 0, 0, 0xff, 0x28, 0xff, 0x28];
    let (small, large) = ([(1i8, 2i8)], [(1u32, 2u32)]);
    expect_eq!(rt; is_written(alloc, &small, &[hash_of_i8(1)], (7, 8), 4, &front, 27), true);
    expect_eq!(rt; is_archive(alloc, &one_number(), &large, &[hash_of_u32(1)], (7, 8)), true);
    let front = [
        3, 4, 1, 2, 0, 0, 7, 8, 5, 6, 0x4b, 0x1d, 0xff, 0x28, 0x7a, 0x4b, 0x1d, 0xff, 0x28, 0x7a,
    ];
    let hashes = [hash_of_i8(1), hash_of_i8(3), hash_of_i8(5), hash_of_i8(7)];
    assert!(rt; is_written(rt.alloc(), &FOUR_PAIRS, &hashes, (7, 8), 10, &front, 21));
    let front = [0, 0, 1, 9, 1, 2, 0x28, 0x28, 0xff, 0x28, 0x28, 0xff];
    let hashes = [hash_of_i8(1), hash_of_i8(1)];
    let pairs = [(1i8, 2i8), (1, 9)];
    assert!(rt; is_written(rt.alloc(), &pairs, &hashes, (7, 8), 6, &front, 25));
    let front = [0, 0xff, 0];
    let hash = FxHasher64::default().finish();
    assert!(rt; is_written(rt.alloc(), &[()], &[hash], (7, 8), 0, &front, 28));
    laws::tables_are_laid_out::<Narrow, u32>();
    laws::tables_are_written_one_way::<Narrow, u32, u32>();
    laws::written::tables_represent_locally::<Narrow, u32, u32>();
    laws::written::written_tables_represent::<Narrow, u32, u32>();
    laws::written::written_tables_pass::<Narrow, u32, u32>();
    laws::written::represented_lists_were_written::<Narrow, u32, u32>();
    let front = [3, 2, 1, 0, 0xff, 0x28, 0x51, 0x7a, 0xff, 0x28, 0x51, 0x7a];
    // a number of eight bits has the same hash with a sign and without
    let hashes = [hash_of_i8(1), hash_of_i8(2), hash_of_i8(3)];
    assert!(rt; is_written(rt.alloc(), &[1u8, 2, 3], &hashes, (7, 8), 4, &front, 23));
    let front = [10, 0, 20, 0, 0xff, 0, 0, 0xff, 0];
    assert!(rt; is_written(rt.alloc(), &[10u8, 20], &[2, 2], (1, 1), 3, &front, 25));
    let front = [0, 20, 10, 0x28, 0x29, 0xff, 0x28, 0x29, 0xff];
    let hashes = [0x5000_0000_0000_0001, 0x5200_0000_0000_0000];
    assert!(rt; is_written(rt.alloc(), &[10u8, 20], &hashes, (1, 1), 3, &front, 25));
    let front = [
        1, 0, 16, 15, 14, 13, 12, 11, 10, 9, 8, 7, 6, 5, 4, 3, 2, // the buckets
        0, 0, 0, 0, 0, 0, 0, 0, 0, 0, 0, 0, 0, 0, 0, 0xff, 0, // their controls
        0, 0, 0, 0, 0, 0, 0, 0, 0, 0, 0, 0, 0, 0, 0, 0xff, 0, // the same again
    ];
    assert!(rt; is_written(rt.alloc(), &SIXTEEN, &[16; 16], (1, 1), 17, &front, 13));
    let starts = [0, 1, 2, 3, 4, 5, 6, 7, 8, 9, 10, 11, 12, 13, 14, 15];
    // sixteen buckets: the last one is empty, and the control bytes mirror all but it
    let front = [
        0, 15, 14, 13, 12, 11, 10, 9, 8, 7, 6, 5, 4, 3, 2, 1, // the buckets
        0, 0, 0, 0, 0, 0, 0, 0, 0, 0, 0, 0, 0, 0, 0, 0xff, // their controls
        0, 0, 0, 0, 0, 0, 0, 0, 0, 0, 0, 0, 0, 0, 0,
    ];
    expect_eq!(rt; is_written(alloc, &SIXTEEN[..15], &starts[..15], (1, 1), 16, &front, 0), true);
    // seventeen buckets: 47 control bytes, and the last 13 are empty
    let front = [
        0, 16, 15, 14, 13, 12, 11, 10, 9, 8, 7, 6, 5, 4, 3, 2, 1, // the buckets
        0, 0, 0, 0, 0, 0, 0, 0, 0, 0, 0, 0, 0, 0, 0, 0, 0xff, // their controls
        0, 0, 0, 0, 0, 0, 0, 0, 0, 0, 0, 0, 0, 0, 0, 0, 0xff, // the same again
    ];
    expect_eq!(rt; is_written(alloc, &SIXTEEN, &starts, (1, 1), 17, &front, 13), true);
}

// Returns `true` if the table of 1 and 4,294,967,297 is written with these tags. The hashes
// are by one of the hashers.
fn has_tags_of_wide<H: KeyHasher + Default>(
    alloc: Global,
    first: u8,
    second: u8,
) -> Result<bool, WriteError<NoMemory>> {
    let hashes = [hash_of_usize::<H>(1), hash_of_usize::<H>(4_294_967_297)];
    let (bytes, pos) = written(alloc, &[1u64, 4_294_967_297], &hashes, (7, 8))?;
    let front = [
        0, 0, 0, 0, 0, 0, 0, 0, 1, 0, 0, 0, 1, 0, 0, 0, 1, 0, 0, 0, 0, 0, 0, 0, // the buckets
        first, second, 0xff, first, second, 0xff,
    ];
    Ok(pos == 24 && is_then_empty(bytes.as_slice(), &front, 25))
}

#[test]
fn hashes_of_wide_numbers_are_written(rt: HostRuntime) {
    expect_eq!(rt; has_tags_of_wide::<FxHasher64Wide>(rt.alloc(), 0x28, 0x3c).ok(), Some(true));
    expect_eq!(rt; has_tags_of_wide::<FxHasher64>(rt.alloc(), 0x28, 0x28).ok(), Some(true));
}

// Returns the position of the first control byte of a table of no numbers, and the number
// of its bytes.
fn size_of_empty(alloc: Global) -> Option<(u64, usize)> {
    let (bytes, pos) = written::<u8>(alloc, &[], &[], (7, 8)).ok()?;
    Some((pos, bytes.len()))
}

#[test]
fn archives_are_written(rt: HostRuntime) {
    expect_eq!(rt; is_archive::<u8>(rt.alloc(), &no_items(), &[], &[], (7, 8)), true);
    expect_eq!(rt; size_of_empty(rt.alloc()), Some((0, 0)));
    let alloc = rt.alloc();
    let keys = [hash_of_i8(1), hash_of_i8(3), hash_of_i8(5), hash_of_i8(7)];
    let twice = [(1i8, 2i8), (1, 9)];
    let starts = [0, 1, 2, 3, 4, 5, 6, 7, 8, 9, 10, 11, 12, 13, 14];
    let tags = [EVEN_TAG, ODD_TAG];
    expect_eq!(rt; is_archive(alloc, &four_pairs(), &FOUR_PAIRS, &keys, (7, 8)), true);
    expect_eq!(rt; is_archive(alloc, &one_key_twice(), &twice, &[keys[0]; 2], (7, 8)), true);
    expect_eq!(rt; is_archive(alloc, &two_archived(), &[10u8, 20], &[2; 2], (1, 1)), true);
    expect_eq!(rt; is_archive(alloc, &tags_archived(), &[10u8, 20], &tags, (1, 1)), true);
    expect_eq!(rt; is_archive(alloc, &sixteen_archived(), &SIXTEEN, &[16; 16], (1, 1)), true);
    expect_eq!(rt; is_archive(alloc, &fifteen_archived(), &SIXTEEN[..15], &starts, (1, 1)), true);
    expect_eq!(rt; is_archive(alloc, &bools_archived(), &[true, false], &[2; 2], (1, 1)), true);
    expect_eq!(rt; is_archive(alloc, &one_unit(), &[()], &[0], (7, 8)), true);
    expect_eq!(rt; is_archive(alloc, &two_units(), &[(); 2], &[0; 2], (7, 8)), true);
}

// Writes a nine and the table of one number of 16 bits. Returns the position of
// its first control byte, its length and its load factor.
fn write_behind_a_nine(
    alloc: Global,
    writer: &mut VecWriter,
) -> Option<(u64, usize, (usize, usize))> {
    append(writer, &[9]).ok()?;
    let resolver = ArchivedHashTable::<u16, Narrow>::serialize_from_iter::<
        VecWriter,
        u16,
        u16,
        _,
        _,
    >(
        alloc,
        [7u16].into_iter(),
        [0u64].into_iter(),
        1,
        (7, 8),
        writer,
    )
    .ok()?;
    Some((resolver.pos(), resolver.len(), resolver.load_factor()))
}

#[test]
fn a_table_begins_at_a_multiple_of_the_alignment(rt: HostRuntime) {
    let mut writer = VecWriter::new(rt.alloc());
    expect_eq!(rt; write_behind_a_nine(rt.alloc(), &mut writer), Some((6, 1, (7, 8))));
    expect_eq!(rt; is_then_empty(writer.bytes(), &[9, 0, 0, 0, 7, 0, 0, 0xff, 0], 28), true);
}

// Returns the number of buckets of a table of the numbers, and the number of its bytes.
fn room_of(alloc: Global, items: &[u8], hashes: &[u64]) -> Option<(usize, usize)> {
    let archive = archived(alloc, items, hashes, (7, 8)).ok()?;
    let (_, buckets) = counts::<u8, Narrow>(archive.as_slice()).ok()?;
    let (bytes, _) = written(alloc, items, hashes, (7, 8)).ok()?;
    Some((buckets, bytes.len()))
}

// Returns the same for up to a hundred sevens.
fn room_of_sevens(alloc: Global, len: usize) -> Option<(usize, usize)> {
    room_of(alloc, [7; 100].get(..len)?, [0; 100].get(..len)?)
}

#[test]
fn an_eighth_of_the_buckets_is_empty(rt: HostRuntime) {
    let alloc = rt.alloc();
    expect_eq!(rt; room_of_sevens(alloc, 0), Some((0, 0)));
    expect_eq!(rt; room_of_sevens(alloc, 1), Some((2, 2 + 31)));
    expect_eq!(rt; room_of_sevens(alloc, 3), Some((4, 4 + 31)));
    expect_eq!(rt; room_of_sevens(alloc, 5), Some((6, 6 + 31)));
    expect_eq!(rt; room_of_sevens(alloc, 7), Some((8, 8 + 31)));
    expect_eq!(rt; room_of_sevens(alloc, 100), Some((114, 114 + 143)));
}
