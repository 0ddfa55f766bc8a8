//! Values that differ in one field are unequal, and equal values are equal.

use rkyv_inspect::RegionKind;
use rkyv_inspect::fields::Part;
use std::process::Abort;

#[test]
fn parts_differ(rt: HostRuntime) {
    let part = Part { begin: 1, end: 2 };
    let equal = [
        part == Part { begin: 1, end: 2 },
        part == Part { begin: 0, end: 2 },
        part == Part { begin: 1, end: 3 },
    ];
    expect_eq!(rt; equal, [true, false, false]);
}

// Fails the test if the kinds of a row are equal, or one isn't equal to itself.
fn expect_other_kinds(rt: &impl Abort, rows: &[(RegionKind, RegionKind)]) {
    for (a, b) in rows {
        expect_eq!(*rt; (*a == *b, *a == *a), (false, true));
    }
}

#[test]
fn kinds_of_regions_differ(rt: HostRuntime) {
    expect_other_kinds(
        &rt,
        &[
            (RegionKind::Unknown, RegionKind::Text),
            (RegionKind::Text, RegionKind::FullBucket),
            (RegionKind::FullBucket, RegionKind::EmptyBucket),
            (RegionKind::EmptyBucket, RegionKind::Controls),
            (RegionKind::Controls, RegionKind::MirroredControls),
            (RegionKind::MirroredControls, RegionKind::Entry),
            (RegionKind::Entry, RegionKind::Padding),
            (RegionKind::Padding, RegionKind::Header),
            (RegionKind::Header, RegionKind::Unknown),
        ],
    );
}
