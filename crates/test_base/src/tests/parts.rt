//! Tests of parts, entries and roots that are known to be valid.

use rkyv_base::access::access;
use rkyv_base::{
    Archive, EntryResolver, MAX_ELEMENT_SIZE, Narrow, PartRange, access_in, access_unchecked,
    distance_target, found_pos, laws, part_in, whole_size,
};

#[test]
fn parts_lie_in_their_range(rt: HostRuntime) {
    let range = PartRange { lo: 4, hi: 16 };
    expect_eq!(rt; part_in(4, 12, 4, range).ok(), Some(4));
    expect_eq!(rt; part_in(16, 0, 8, range).ok(), Some(16));
    expect_eq!(rt; part_in(3, 1, 1, range).ok(), None);
    expect_eq!(rt; part_in(-1, 1, 1, range).ok(), None);
    expect_eq!(rt; part_in(8, 9, 1, range).ok(), None);
    expect_eq!(rt; part_in(6, 4, 4, range).ok(), None);
    expect_eq!(rt; distance_target(16, -12), 4);
    expect_eq!(rt; distance_target(4, -8), -4);
    expect_eq!(rt; distance_target(u64::MAX, i64::MAX), 27_670_116_110_564_327_422);
}

// Returns the fixed bytes of a pair at position 0.
fn resolved(pair: &(u8, u32)) -> [u8; 8] {
    let mut out = [0xff; 8];
    let resolver = EntryResolver { key: (), value: () };
    match <(u8, u32) as Archive<Narrow>>::resolve(pair, resolver, 0, &mut out) {
        Ok(()) => out,
        Err(_) => [0; 8],
    }
}

// Reads the number at the end of its archive a second time, without validation.
fn number_again(bytes: &[u8]) -> Option<u32> {
    match access_in::<Narrow, u32>(bytes) {
        Ok(_) => Some(access_unchecked::<u32>(bytes).to_native()),
        Err(_) => None,
    }
}

#[test]
fn entries_are_resolved_and_found(rt: HostRuntime) {
    let resolved = resolved(&(1, 2));
    expect_eq!(rt; whole_size::<u8, u32>() <= MAX_ELEMENT_SIZE, true);
    expect_eq!(rt; number_again(&[7, 0, 0, 0]), Some(7));
    expect_eq!(rt; resolved, [1, 0, 0, 0, 2, 0, 0, 0]);
    let found = access::<u8>(&[7, 8]).ok();
    expect_eq!(rt; (found_pos(found), found_pos::<u8>(None)), (Some(1), None));
}

// Returns the position and the number of a clone of the view of a number at the end, and whether
// its archive is that of the view.
fn cloned_number(bytes: &[u8]) -> Option<(u64, u32, bool)> {
    let view = access_in::<Narrow, u32>(bytes).ok()?;
    let same = view.clone().ok()?;
    Some((same.pos(), same.to_native(), same.bytes() == bytes))
}

#[test]
fn clones_are_the_same(rt: HostRuntime) {
    laws::views_are_cloned::<u32>();
    let range = PartRange { lo: 4, hi: 16 };
    expect_eq!(rt; range.clone().ok(), Some(range));
    expect_eq!(rt; cloned_number(&[0, 0, 0, 0, 7, 0, 0, 0]), Some((4, 7, true)));
}
