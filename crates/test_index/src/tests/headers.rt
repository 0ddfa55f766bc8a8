//! Headers of written index maps and index sets.

use rkyv_base::{Narrow, NoMemory, VecWriter, WriteError};
use rkyv_index::{ArchivedIndexMap, ArchivedIndexSet, IndexMapResolver, IndexSetResolver};
use rkyv_scan::FxHasher64;
use std::alloc::Global;

type Numbers = ArchivedIndexMap<'static, i8, i8, FxHasher64, Narrow>;

type Keys = ArchivedIndexSet<'static, i8, FxHasher64, Narrow>;

// Returns the resolver of the index map of these pairs, which is written at position 0.
pub(crate) fn map_resolver(
    alloc: Global,
    pairs: &[(i8, i8)],
    load_factor: (usize, usize),
) -> Result<IndexMapResolver, WriteError<NoMemory>> {
    let mut writer = VecWriter::new(alloc);
    Numbers::serialize_from_iter::<VecWriter, i8, i8, i8, i8, _>(
        alloc,
        pairs.iter().copied(),
        pairs.len(),
        load_factor,
        &mut writer,
    )
}

// Returns the resolver of the index set of these keys, which is written at position 0.
pub(crate) fn set_resolver(
    alloc: Global,
    keys: &[i8],
    load_factor: (usize, usize),
) -> Result<IndexSetResolver, WriteError<NoMemory>> {
    let mut writer = VecWriter::new(alloc);
    Keys::serialize_from_iter::<VecWriter, i8, i8, _>(
        alloc,
        keys.iter().copied(),
        keys.len(),
        load_factor,
        &mut writer,
    )
}

// Returns the header of the index map of these pairs at a position, and whether its distances fit.
// The header is written over sevens.
fn header_at(
    alloc: Global,
    pairs: &[(i8, i8)],
    pos: u32,
) -> Result<([u8; 16], bool), WriteError<NoMemory>> {
    let resolver = map_resolver(alloc, pairs, (7, 8))?;
    let (len, load_factor) = (resolver.len(), resolver.load_factor());
    let mut header = [7u8; 16];
    let fits = Numbers::resolve_from_len(
        len,
        load_factor,
        resolver,
        u64::from(pos),
        &mut header,
    ).is_ok();
    Ok((header, fits))
}

const FARTHEST_EMPTY: [u8; 16] = [1, 0, 0, 0, 0, 0, 0, 0, 0, 0, 0, 0, 0, 0, 0, 0x80];

const NEAR: [u8; 16] = [
    0xdc, 0xff, 0xff, 0xff, 1, 0, 0, 0, 2, 0, 0, 0, 0xef, 0xff, 0xff, 0xff,
];

const FARTHEST: [u8; 16] = [0, 0, 0, 0x80, 1, 0, 0, 0, 2, 0, 0, 0, 0x13, 0, 0, 0x80];

// Pairs, a position, the header there, and whether its distances fit.
const HEADERS: &[(&[(i8, i8)], u32, [u8; 16], bool)] = &[
    (&[], 2_147_483_636, FARTHEST_EMPTY, true),
    (&[], 2_147_483_640, [7; 16], false),
    (&[(1, 2)], 44, NEAR, true),
    (&[(1, 2)], 2_147_483_656, FARTHEST, true),
    (&[(1, 2)], 2_147_483_660, [7; 16], false),
];

#[test]
fn distances_have_32_bits(rt: HostRuntime) {
    for (pairs, pos, header, fits) in HEADERS {
        expect_eq!(rt; header_at(rt.alloc(), pairs, *pos), Ok((*header, *fits)));
    }
}

// Does the same as `header_at`, by the method of the resolver.
fn resolved_at(
    alloc: Global,
    pairs: &[(i8, i8)],
    pos: u32,
) -> Result<([u8; 16], bool), WriteError<NoMemory>> {
    let resolver = map_resolver(alloc, pairs, (7, 8))?;
    let mut header = [7u8; 16];
    let fits = resolver.resolve(u64::from(pos), &mut header).is_ok();
    Ok((header, fits))
}

#[test]
fn the_header_of_a_resolver(rt: HostRuntime) {
    expect_eq!(rt; resolved_at(rt.alloc(), &[(1, 2)], 44), Ok((NEAR, true)));
}

// Does the same as `header_at`, with the index set of these keys.
fn set_header_at(
    alloc: Global,
    keys: &[i8],
    pos: u32,
) -> Result<([u8; 16], bool), WriteError<NoMemory>> {
    let resolver = set_resolver(alloc, keys, (7, 8))?;
    let (len, load_factor) = (resolver.len(), resolver.load_factor());
    let mut header = [7u8; 16];
    let fits = Keys::resolve_from_len(
        len,
        load_factor,
        resolver,
        u64::from(pos),
        &mut header,
    ).is_ok();
    Ok((header, fits))
}

#[test]
fn the_header_of_a_set(rt: HostRuntime) {
    let expected = [
        0xe0, 0xff, 0xff, 0xff, 1, 0, 0, 0, 2, 0, 0, 0, 0xf3, 0xff, 0xff, 0xff,
    ];
    expect_eq!(rt; set_header_at(rt.alloc(), &[1], 40), Ok((expected, true)));
}
