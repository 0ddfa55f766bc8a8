//! Headers of written tables, at distances that fit their width and at larger ones.
ghost use Rattle.std.specs.Prelude.{length, ◌≡◌};

use crate::tests::archives::hash_of_u32;
use rkyv_base::{Narrow, NoMemory, Serialize, VecWriter, Wide, Width, WriteError};
use rkyv_table::{ArchivedHashTable, HashTableResolver};
use std::alloc::Global;
use std::process::Abort;

// Writes the table of one item under a hash from position 0 on.
fn write_item<W: Width, U: Serialize<VecWriter, W>>(
    alloc: Global,
    item: &[U],
    hash: u64,
) -> Result<HashTableResolver<W>, WriteError<NoMemory>> {
    let mut writer = VecWriter::new(alloc);
    ArchivedHashTable::<U::Archived, W>::serialize_from_iter::<VecWriter, U, &U, _, _>(
        alloc,
        item.iter(),
        [hash].into_iter(),
        item.len(),
        (7, 8),
        &mut writer,
    )
}

// Writes the table of one item under a hash, and its header at `pos`, by the table and by its
// resolver. Returns the position of the control bytes, and for each whether the distance fits.
fn write_headers<W: Width, U: Serialize<VecWriter, W>>(
    alloc: Global,
    item: &[U],
    hash: u64,
    pos: u64,
    by_table: &mut [u8],
    by_resolver: &mut [u8],
) -> Result<(u64, [bool; 2]), WriteError<NoMemory>>
    requires first { length by_table.old ≡ W.TABLE_SIZE }
    requires second { length by_resolver.old ≡ W.TABLE_SIZE }
{
    let resolver = write_item::<W, U>(alloc, item, hash)?;
    let second = write_item::<W, U>(alloc, item, hash)?;
    let (controls, len, load_factor) = (resolver.pos(), resolver.len(), resolver.load_factor());
    let fits = [
        ArchivedHashTable::<U::Archived, W>::resolve_from_len(
            len,
            load_factor,
            resolver,
            pos,
            by_table,
        ).is_ok(),
        second.resolve(pos, by_resolver).is_ok(),
    ];
    Ok((controls, fits))
}

// Fails the test unless the table of one item has its control bytes at `controls`, and each header
// is right. A row has the position of a header and its bytes, or `None` if the distance is too
// large. Then the bytes remain `before`.
fn expect_headers<W: Width, U: Serialize<VecWriter, W>, const N: usize>(
    rt: &impl Abort,
    alloc: Global,
    item: &[U],
    hash: u64,
    controls: u64,
    before: [u8; N],
    rows: &[(u64, Option<[u8; N]>)],
)
    requires size { N ≡ W.TABLE_SIZE }
{
    for (pos, header) in rows {
        let (mut first, mut second) = (before, before);
        let written = write_headers::<W, U>(alloc, item, hash, *pos, &mut first, &mut second);
        let fits = Some((controls, [header.is_some(); 2]));
        let expected = header.unwrap_or(before);
        expect_eq!(*rt; (*pos, written.ok(), first, second), (*pos, fits, expected, expected));
    }
}

const BEFORE: [u8; 12] = [1, 2, 3, 4, 5, 6, 7, 8, 9, 10, 11, 12];

const NEAR: [u8; 12] = [0xe0, 0xff, 0xff, 0xff, 1, 0, 0, 0, 2, 0, 0, 0];

const FARTHEST: [u8; 12] = [0, 0, 0, 0x80, 1, 0, 0, 0, 2, 0, 0, 0];

const OF_PAIR: &[(u64, Option<[u8; 12]>)] = &[
    (48, Some(NEAR)),
    (2_147_483_664, Some(FARTHEST)),
    (2_147_483_668, None),
];

const OF_SEVEN: &[(u64, Option<[u8; 12]>)] = &[
    (2_147_483_650, Some(FARTHEST)),
    (2_147_483_651, None),
    (4_294_967_295, None),
];

#[test]
fn distances_have_32_bits(rt: HostRuntime) {
    let alloc = rt.alloc();
    expect_headers::<Narrow, _, 12>(
        &rt,
        alloc,
        &[(1u32, 2u32)],
        hash_of_u32(1),
        16,
        BEFORE,
        OF_PAIR,
    );
    expect_headers::<Narrow, _, 12>(&rt, alloc, &[7u8], 0, 2, BEFORE, OF_SEVEN);
}

const BEFORE_WIDE: [u8; 24] = [
    1, 2, 3, 4, 5, 6, 7, 8, 9, 10, 11, 12, 13, 14, 15, 16, 17, 18, 19, 20, 21, 22, 23, 24,
];

const WIDE_FAR: [u8; 24] = [
    2, 0, 0, 0, 0xff, 0xff, 0xff, 0xff, 1, 0, 0, 0, 0, 0, 0, 0, 2, 0, 0, 0, 0, 0, 0, 0,
];

const WIDE_FARTHEST: [u8; 24] = [
    0, 0, 0, 0, 0, 0, 0, 0x80, 1, 0, 0, 0, 0, 0, 0, 0, 2, 0, 0, 0, 0, 0, 0, 0,
];

const OF_WIDE_SEVEN: &[(u64, Option<[u8; 24]>)] = &[
    (4_294_967_296, Some(WIDE_FAR)),
    (9_223_372_036_854_775_810, Some(WIDE_FARTHEST)),
    (9_223_372_036_854_775_811, None),
    (18_446_744_073_709_551_000, None),
    (18_446_744_073_709_551_591, None),
];

#[test]
fn distances_of_wide_archives_have_64_bits(rt: HostRuntime) {
    let alloc = rt.alloc();
    expect_headers::<Wide, _, 24>(&rt, alloc, &[7u8], 0, 2, BEFORE_WIDE, OF_WIDE_SEVEN);
}
