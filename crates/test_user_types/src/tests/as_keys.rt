//! User-defined types as the keys of a map.

use crate::point::Point;
use rkyv_base::access::access;
use rkyv_base::{Entry, VerifyError, to_bytes};
use rkyv_collections::{ArchivedHashMap, HashMapOf, MapPairs};
use rkyv_user_types::PairEntry;
use std::alloc::Global;

type Heights = HashMapOf<Entry<i32, i32>, u8>;

// Returns the archive of the heights of some points.
fn archive_of(alloc: Global, heights: &[(PairEntry<Point>, u8)]) -> Option<Vec<u8>> {
    let list: MapPairs<'_, PairEntry<Point>, u8> = MapPairs::new(heights);
    to_bytes(alloc, &list).ok()
}

// Returns the height of a point.
fn height_of(bytes: &[u8], point: Point) -> Result<Option<u8>, VerifyError> {
    let map = ArchivedHashMap::of(access::<Heights>(bytes)?);
    Ok(map.get(&PairEntry(point)).map(|height| height.to_native()))
}

// Returns the length of the archive of two heights, and the heights of its points and of a third.
fn two_heights(alloc: Global) -> Option<(usize, [Option<Option<u8>>; 3])> {
    let (first, second) = (Point { x: -2, y: 3 }, Point { x: 3, y: -2 });
    let bytes = archive_of(alloc, &[(PairEntry(first), 7), (PairEntry(second), 9)])?;
    let found = [
        height_of(bytes.as_slice(), first).ok(),
        height_of(bytes.as_slice(), second).ok(),
        height_of(bytes.as_slice(), Point { x: -2, y: -2 }).ok(),
    ];
    Some((bytes.len(), found))
}

// Three buckets of 12 bytes, 31 control bytes, a zero, and the header of 12 bytes.
#[test]
fn points_are_the_keys_of_a_map(rt: HostRuntime) {
    assert_eq!(rt;
        two_heights(rt.alloc()),
        Some((80, [Some(Some(7)), Some(Some(9)), Some(None)]))
    );
}
