//! The regions of archives of each kind and width.

use crate::tests::archives::{
    EMPTY, INDEX_NUMBER, NAMES, NUMBERED_TEXTS, ONE_NUMBER, WIDE_NUMBERS, WIDE_SET,
};
use crate::tests::support::{narrow, numbers, wide};
use rkyv_container::{Contents, ItemType, Kind};
use rkyv_inspect::{RegionKind, inspect};
use std::alloc::Global;
use std::process::Abort;
use std::test::Fail;

/// Returns the ends of the regions of an archive, and their kinds.
fn ends_of(
    alloc: Global,
    archive: &[u8],
    contents: Contents,
) -> Result<Vec<(usize, RegionKind)>, Fail> {
    let mut ends = Vec::new(alloc);
    for region in &inspect(alloc, archive, contents, 1000)?.regions {
        ends.push((region.end, region.kind))?;
    }
    Ok(ends)
}

/// An archive, its contents, and the ends and the kinds of its regions.
type Row<'a> = (&'a [u8], Contents, &'a [(usize, RegionKind)]);

/// Fails the test unless each archive has the regions of its row.
fn expect_ends(rt: &impl Abort, alloc: Global, rows: &[Row<'_>]) -> Result<(), Fail> {
    for (archive, contents, expected) in rows {
        let ends = ends_of(alloc, archive, *contents)?;
        expect_eq!(*rt; ends.as_slice(), *expected);
    }
    Ok(())
}

#[test]
fn hash_maps(rt: HostRuntime) -> Result<(), Fail> {
    let rows: [Row<'_>; 3] = [
        (
            &NAMES,
            narrow(Kind::HashMap, ItemType::Text, ItemType::U64),
            &[
                (13, RegionKind::Text),
                (16, RegionKind::Padding),
                (32, RegionKind::EmptyBucket),
                (48, RegionKind::FullBucket),
                (64, RegionKind::FullBucket),
                (67, RegionKind::Controls),
                (95, RegionKind::MirroredControls),
                (96, RegionKind::Padding),
                (100, RegionKind::Header),
                (104, RegionKind::Header),
                (108, RegionKind::Header),
            ],
        ),
        (
            &WIDE_NUMBERS,
            wide(Kind::HashMap, ItemType::U64, ItemType::U32),
            &[
                (16, RegionKind::FullBucket),
                (32, RegionKind::FullBucket),
                (48, RegionKind::EmptyBucket),
                (51, RegionKind::Controls),
                (79, RegionKind::MirroredControls),
                (80, RegionKind::Padding),
                (88, RegionKind::Header),
                (96, RegionKind::Header),
                (104, RegionKind::Header),
            ],
        ),
        (
            &EMPTY,
            numbers(),
            &[
                (4, RegionKind::Header),
                (8, RegionKind::Header),
                (12, RegionKind::Header),
            ],
        ),
    ];
    expect_ends(&rt, rt.alloc(), &rows)
}

#[test]
fn index_maps(rt: HostRuntime) -> Result<(), Fail> {
    let rows: [Row<'_>; 3] = [
        (
            &NUMBERED_TEXTS,
            narrow(Kind::IndexMap, ItemType::U32, ItemType::Text),
            &[
                (4, RegionKind::FullBucket),
                (8, RegionKind::FullBucket),
                (12, RegionKind::EmptyBucket),
                (15, RegionKind::Controls),
                (43, RegionKind::MirroredControls),
                (59, RegionKind::Text),
                (60, RegionKind::Padding),
                (72, RegionKind::Entry),
                (84, RegionKind::Entry),
                (88, RegionKind::Header),
                (92, RegionKind::Header),
                (96, RegionKind::Header),
                (100, RegionKind::Header),
            ],
        ),
        (
            &INDEX_NUMBER,
            narrow(Kind::IndexMap, ItemType::U32, ItemType::U32),
            &[
                (4, RegionKind::FullBucket),
                (8, RegionKind::EmptyBucket),
                (10, RegionKind::Controls),
                (39, RegionKind::MirroredControls),
                (40, RegionKind::Padding),
                (48, RegionKind::Entry),
                (52, RegionKind::Header),
                (56, RegionKind::Header),
                (60, RegionKind::Header),
                (64, RegionKind::Header),
            ],
        ),
        (
            &WIDE_SET,
            wide(Kind::IndexSet, ItemType::U64, ItemType::Unit),
            &[
                (8, RegionKind::FullBucket),
                (16, RegionKind::FullBucket),
                (24, RegionKind::EmptyBucket),
                (32, RegionKind::FullBucket),
                (36, RegionKind::Controls),
                (63, RegionKind::MirroredControls),
                (64, RegionKind::Padding),
                (72, RegionKind::Entry),
                (80, RegionKind::Entry),
                (88, RegionKind::Entry),
                (96, RegionKind::Header),
                (104, RegionKind::Header),
                (112, RegionKind::Header),
                (120, RegionKind::Header),
            ],
        ),
    ];
    expect_ends(&rt, rt.alloc(), &rows)
}

#[test]
fn eight_bytes_before_the_buckets(rt: HostRuntime) -> Result<(), Fail> {
    let mut bytes = [0; 68];
    bytes[8..].copy_from_slice(&ONE_NUMBER);
    let ends = ends_of(rt.alloc(), &bytes, numbers())?;
    let first = ends.as_slice().first().copied();
    expect_eq!(rt; first, Some((8, RegionKind::Unknown)));
    Ok(())
}

#[test]
fn a_byte_that_is_no_padding(rt: HostRuntime) -> Result<(), Fail> {
    let mut bytes = ONE_NUMBER;
    bytes[47] = 1;
    let ends = ends_of(rt.alloc(), &bytes, numbers())?;
    let fifth = ends.as_slice().get(4).copied();
    expect_eq!(rt; fifth, Some((48, RegionKind::Unknown)));
    Ok(())
}
