//! The control bytes of tables, with each kind of group.
ghost use Rattle.std.specs.Prelude.{IfSome, length, ◌<◌, ◌≤◌, ◌^◌};
ghost use Rattle.rkyv_table.specs.{AreValidControls, IsFullBucket, control_count};

use rkyv_scan::simd::{bytewise, generic, lanes, paired};
use rkyv_scan::{FxHasher64, GroupKind, KeyHasher};
use rkyv_table::Strides;
use rkyv_table::controls::find::{find, find_from};
use rkyv_table::controls::laws;
use rkyv_table::controls::numbers::{
    CapacityError, bucket_of, capacity, control_count, modulus, probe_capacity, tag,
};
use rkyv_table::controls::place::{place, place_from, place_one};
use rkyv_table::controls::probe::Probe;
use rkyv_table::controls::reciprocal::Reciprocal;
use rkyv_table::controls::walk::{Walk, next_full};
use rkyv_table::controls::wrapped::check_wrapped;
use std::alloc::{AllocError, Global};
use std::cell::Cell;

const NARROW: u64 = 4_294_967_295;

const WIDE: u64 = 4_611_686_018_427_387_904;

// The control bytes of a written table, and the buckets of its items.
#[derive(Drop)]
struct Table {
    cap: usize,
    len: usize,
    controls: Vec<u8>,
    homes: Vec<usize>,
    ghost accepted: { AreValidControls cap len controls.items },
}

impl Table {
    fn written<G: GroupKind>(alloc: Global, cap: usize, hashes: &[u64]) -> Result<Table, AllocError>
        requires room { length hashes.now < cap }
        requires small { cap < 2 ^ 16 }
    {
        let mut controls = vec![in alloc; 0xffu8; control_count(cap)]?;
        let homes = place::<G>(alloc, controls.as_mut_slice(), cap, hashes)?;
        Ok(Table {
            cap,
            len: hashes.len(),
            controls,
            homes,
        })
    }

    // Returns the bucket that a lookup finds, and the number of strides that it reads.
    fn lookup<G: GroupKind, F: Fn(usize) -> bool>(&self, hash: u64, cmp: F) -> (Option<usize>, u64)
        requires { F.IsAlwaysCallable cmp }
    {
        let mut strides = Strides::new();
        let found = find::<G, F>(
            self.controls.as_slice(),
            self.cap,
            self.len,
            hash,
            cmp,
            &mut strides,
        );
        (found, strides.count())
    }
}

// Returns the same bucket as `candidate`, by a lookup that takes the start of the probe sequence.
fn candidate_from(controls: &[u8], cap: usize, len: usize, hash: u64) -> Option<usize>
    requires some { 0 < cap }
    requires accepted { AreValidControls cap len controls.now }
    ensures { IfSome result (IsFullBucket cap controls.now) }
{
    let start = (hash % cap as u64) as usize;
    let mut strides = Strides::new();
    find_from::<lanes::Group, _>(controls, cap, len, hash, start, |_| true, &mut strides)
}

// Returns a bucket whose item may have the hash.
fn candidate(controls: &[u8], cap: usize, len: usize, hash: u64) -> Option<usize>
    requires { AreValidControls cap len controls.now }
    ensures { IfSome result (IsFullBucket cap controls.now) }
{
    let mut strides = Strides::new();
    find::<lanes::Group, _>(controls, cap, len, hash, |_| true, &mut strides)
}

fn hash_of(key: i8) -> u64 {
    let mut hasher = FxHasher64::default();
    hasher.write_i8(key);
    hasher.finish()
}

#[test]
fn capacities_hold_the_items(rt: HostRuntime) {
    expect_eq!(rt; capacity(0, (7, 8), NARROW), Ok(0));
    expect_eq!(rt; capacity(1, (7, 8), NARROW), Ok(2));
    expect_eq!(rt; capacity(3, (7, 8), NARROW), Ok(4));
    expect_eq!(rt; capacity(5, (7, 8), NARROW), Ok(6));
    expect_eq!(rt; capacity(7, (7, 8), NARROW), Ok(8));
    expect_eq!(rt; capacity(100, (7, 8), NARROW), Ok(114));
    expect_eq!(rt; capacity(15, (1, 1), NARROW), Ok(16));
    expect_eq!(rt; capacity(16, (1, 1), NARROW), Ok(17));
    expect_eq!(rt; capacity(1, (1, 4_294_967_295), NARROW), Ok(4_294_967_295));
    expect_eq!(rt; capacity(4_294_967_294, (1, 1), NARROW), Ok(4_294_967_295));
    expect_eq!(rt; capacity(4_611_686_018_427_387_903, (1, 1), WIDE),
        Ok(4_611_686_018_427_387_904));
}

// The errors of invalid load factors.
const ABOVE_ONE: CapacityError = CapacityError::InvalidLoadFactor {
    numerator: 8,
    denominator: 7,
};

const ZERO: CapacityError = CapacityError::InvalidLoadFactor {
    numerator: 0,
    denominator: 1,
};

const BY_ZERO: CapacityError = CapacityError::InvalidLoadFactor {
    numerator: 1,
    denominator: 0,
};

#[test]
fn rejects_invalid_capacities(rt: HostRuntime) {
    expect_eq!(rt; capacity(0, (8, 7), NARROW), Err(ABOVE_ONE));
    expect_eq!(rt; capacity(0, (0, 1), NARROW), Err(ZERO));
    expect_eq!(rt; capacity(0, (1, 0), NARROW), Err(BY_ZERO));
    expect_eq!(rt; capacity(1, (8, 7), NARROW), Err(ABOVE_ONE));
    expect_eq!(rt; capacity(1, (0, 1), NARROW), Err(ZERO));
    expect_eq!(rt; capacity(1, (1, 0), NARROW), Err(BY_ZERO));
    expect_eq!(rt; capacity(1, (1, 4_294_967_296), NARROW),
        Err(CapacityError::CapacityTooLarge { len: 1 }));
    expect_eq!(rt; capacity(4_294_967_295, (1, 1), NARROW),
        Err(CapacityError::CapacityTooLarge { len: 4_294_967_295 }));
    expect_eq!(rt; capacity(usize::MAX, (1, usize::MAX), NARROW),
        Err(CapacityError::CapacityTooLarge { len: usize::MAX }));
    expect_eq!(rt; capacity(usize::MAX, (1, 1), u64::MAX),
        Err(CapacityError::CapacityTooLarge { len: usize::MAX }));
    expect_eq!(rt; capacity(4_611_686_018_427_387_904, (1, 1), WIDE),
        Err(CapacityError::CapacityTooLarge { len: 4_611_686_018_427_387_904, }));
}

#[test]
fn sizes_and_tags_are_computed(rt: HostRuntime) {
    expect_eq!(rt; probe_capacity(114), 128);
    expect_eq!(rt; control_count(114), 143);
    expect_eq!(rt; modulus(114), 256);
    expect_eq!(rt; control_count(16), 31);
    expect_eq!(rt; control_count(17), 47);
    expect_eq!(rt; probe_capacity(1 << 62), 1 << 62);
    expect_eq!(rt; control_count(1 << 62), (1 << 62) + 15);
    expect_eq!(rt; modulus(1 << 62), 1 << 63);
    expect_eq!(rt; bucket_of(2, 3), 2);
    expect_eq!(rt; bucket_of(3, 3), 0);
    expect_eq!(rt; bucket_of(5, 3), 2);
    expect_eq!(rt; tag(hash_of(1)), 0x28);
    expect_eq!(rt; tag(u64::MAX), 0x7f);
}

#[test]
fn the_rest_of_a_division(rt: HostRuntime) {
    let rests = [
        (Reciprocal::new(1).remainder(u64::MAX), 0),
        (Reciprocal::new(3).remainder(u64::MAX), 0),
        (Reciprocal::new(5).remainder(5), 0),
        (Reciprocal::new(7).remainder(6), 6),
        (Reciprocal::new(10).remainder(u64::MAX), 5),
        (
            Reciprocal::new(1 << 63).remainder(u64::MAX),
            9_223_372_036_854_775_807,
        ),
        (
            Reciprocal::new(u64::MAX).remainder(u64::MAX - 1),
            18_446_744_073_709_551_614,
        ),
        (Reciprocal::new(u64::MAX).remainder(u64::MAX), 0),
    ];
    expect_eq!(rt; rests.map(|(found, _)| found), rests.map(|(_, rest)| rest));
}

// Returns the first four indices of a probe sequence.
fn four_indices(start: u64, cap: usize) -> [Option<usize>; 4]
    requires some { 0 < cap }
    requires fits { control_count cap ≤ 2 ^ 63 }
{
    let mut probe = Probe::new(start, cap);
    [probe.next(), probe.next(), probe.next(), probe.next()]
}

#[test]
fn probe_indices(rt: HostRuntime) {
    laws::strides_are_yielded();
    laws::strides_cover();
    laws::strides_read_a_row();
    laws::buckets_are_probed();
    expect_eq!(rt; four_indices(1, 33), [Some(1), Some(17), Some(33), None]);
    expect_eq!(rt; four_indices(32, 33), [Some(32), Some(16), Some(0), None]);
    expect_eq!(rt; four_indices(5, 1 << 62), [Some(5), Some(21), Some(53), Some(101)]);
    let mut probe = Probe::starting_at(1, 33);
    let indices = [probe.next(), probe.next(), probe.next(), probe.next()];
    expect_eq!(rt; indices, [Some(1), Some(17), Some(33), None]);
}

#[test]
fn sixteen_buckets_are_one_stride(rt: HostRuntime) {
    let mut right = true;
    for start in 0..16 {
        right = right && four_indices(start, 16) == [Some(start as usize), None, None, None];
    }
    assert!(rt; right);
}

// Returns whether all controls are empty.
fn are_empty(controls: &[u8]) -> bool {
    controls.iter().all(|&control| control == 0xff)
}

// Returns whether the controls are `front`, then bytes 0xff.
fn is_then_empty(controls: &[u8], front: &[u8]) -> bool {
    match controls.split_at_checked(front.len()) {
        Some((first, others)) => first == front && are_empty(others),
        None => false,
    }
}

// Returns whether the items are in these buckets, and the controls are `front`, then bytes 0xff.
fn is_written<G: GroupKind>(
    alloc: Global,
    cap: usize,
    hashes: &[u64],
    homes: &[usize],
    front: &[u8],
) -> bool
    requires room { length hashes.now < cap }
    requires small { cap < 2 ^ 16 }
{
    let table = match Table::written::<G>(alloc, cap, hashes) {
        Ok(table) => table,
        Err(_) => return false,
    };
    table.homes.as_slice() == homes && is_then_empty(table.controls.as_slice(), front)
}

// Returns `is_written` for all kinds of group.
fn all_write(alloc: Global, cap: usize, hashes: &[u64], homes: &[usize], front: &[u8]) -> bool
    requires room { length hashes.now < cap }
    requires small { cap < 2 ^ 16 }
{
    let by_bytes = is_written::<bytewise::Group>(alloc, cap, hashes, homes, front);
    let by_words = is_written::<generic::Group>(alloc, cap, hashes, homes, front);
    let by_lanes = is_written::<lanes::Group>(alloc, cap, hashes, homes, front);
    let by_pairs = is_written::<paired::Group>(alloc, cap, hashes, homes, front);
    by_bytes && by_words && by_lanes && by_pairs
}

#[test]
fn items_are_placed(rt: HostRuntime) {
    laws::homes_exist();
    laws::homes_are_first_empty();
    laws::first_empty_is_next_home();
    laws::homes_are_one_list();
    laws::written_are_one_list();
    laws::written_are_valid();
    let alloc = rt.alloc();
    let keys = [hash_of(1), hash_of(3), hash_of(5), hash_of(7)];
    let three = [hash_of(1), hash_of(2), hash_of(3)];
    let of_three = [0xff, 0x28, 0x51, 0x7a, 0xff, 0x28, 0x51, 0x7a];
    let of_four = [0x4b, 0x1d, 0xff, 0x28, 0x7a, 0x4b, 0x1d, 0xff, 0x28, 0x7a];
    let twice = [hash_of(1), hash_of(1)];
    let of_twice = [0x28, 0x28, 0xff, 0x28, 0x28, 0xff];
    let apart = [0x5000_0000_0000_0001, 0x5200_0000_0000_0000];
    let of_apart = [0x28, 0x29, 0xff, 0x28, 0x29, 0xff];
    let wrapped = [16, 0, 1, 2, 3, 4, 5, 6, 7, 8, 9, 10, 11, 12, 13, 14];
    let mut of_wrapped = [0u8; 34];
    of_wrapped[15] = 0xff;
    of_wrapped[32] = 0xff;
    expect_eq!(rt; all_write(alloc, 2, &keys[..1], &[1], &[0xff, 0x28, 0xff, 0x28]), true);
    expect_eq!(rt; all_write(alloc, 2, &[0], &[0], &[0, 0xff, 0]), true);
    expect_eq!(rt; all_write(alloc, 4, &three, &[1, 2, 3], &of_three), true);
    expect_eq!(rt; all_write(alloc, 3, &[2, 2], &[2, 0], &[0, 0xff, 0, 0, 0xff, 0]), true);
    expect_eq!(rt; all_write(alloc, 5, &keys, &[3, 4, 0, 1], &of_four), true);
    expect_eq!(rt; all_write(alloc, 3, &twice, &[0, 1], &of_twice), true);
    expect_eq!(rt; all_write(alloc, 3, &apart, &[0, 1], &of_apart), true);
    expect_eq!(rt; all_write(alloc, 17, &[16; 16], &wrapped, &of_wrapped), true);
}

// The second item is placed from the start of its hash, bucket 1, and its tag is 0x29.
#[test]
fn one_item_is_placed(rt: HostRuntime) {
    let mut controls = [0xffu8; 31];
    let bucket = place_one::<generic::Group>(&mut controls, 2, hash_of(1));
    let written = controls[..5] == [0xff, 0x28, 0xff, 0x28, 0xff];
    let mut others = [0xffu8; 31];
    let other = place_from::<generic::Group>(&mut others, 3, 1, 0x5200_0000_0000_0000);
    let other_written = others[..7] == [0xff, 0x29, 0xff, 0xff, 0x29, 0xff, 0xff];
    expect_eq!(rt; [(bucket, written), (other, other_written)], [(1, true); 2]);
}

// The buckets that a lookup accepts.
#[derive(Clone, Copy)]
enum Accepted {
    Each,
    Only(usize),
    Nothing,
}

// Returns `true` if a lookup accepts the bucket.
fn is_accepted(bucket: usize, accepted: Accepted) -> bool {
    match accepted {
        Accepted::Each => true,
        Accepted::Only(expected) => bucket == expected,
        Accepted::Nothing => false,
    }
}

// Returns the bucket that a lookup finds, and the number of strides that it reads.
fn found<G: GroupKind>(table: &Table, hash: u64, accepted: Accepted) -> (Option<usize>, u64) {
    table.lookup::<G, _>(hash, |bucket| is_accepted(bucket, accepted))
}

// Returns `true` if each of these lookups has its result, in the table of these hashes. A row has
// the hash, the accepted buckets and the result.
fn are_found<G: GroupKind>(
    alloc: Global,
    cap: usize,
    hashes: &[u64],
    rows: &[(u64, Accepted, (Option<usize>, u64))],
) -> bool
    requires room { length hashes.now < cap }
    requires small { cap < 2 ^ 16 }
{
    let table = match Table::written::<G>(alloc, cap, hashes) {
        Ok(table) => table,
        Err(_) => return false,
    };
    let mut right = true;
    for (hash, accepted, expected) in rows {
        right = right && found::<G>(&table, *hash, *accepted) == *expected;
    }
    right
}

// Returns whether lookups in four tables find the expected buckets in the expected strides.
fn finds<G: GroupKind>(alloc: Global) -> bool {
    let in_two = are_found::<G>(
        alloc,
        3,
        &[2, 2],
        &[
            (2, Accepted::Each, (Some(2), 1)),
            (2, Accepted::Only(0), (Some(0), 1)),
        ],
    );
    let in_wrapped = are_found::<G>(
        alloc,
        17,
        &[16; 16],
        &[
            (16, Accepted::Only(16), (Some(16), 1)),
            (16, Accepted::Only(14), (Some(14), 1)),
            (16, Accepted::Only(7), (Some(7), 1)),
            (16, Accepted::Nothing, (None, 2)),
        ],
    );
    let in_apart = are_found::<G>(
        alloc,
        3,
        &[0x5000_0000_0000_0001, 0x5200_0000_0000_0000],
        &[(0x5000_0000_0000_0001, Accepted::Each, (Some(0), 1))],
    );
    let in_empty = are_found::<G>(alloc, 3, &[], &[(2, Accepted::Each, (None, 0))]);
    in_two && in_wrapped && in_apart && in_empty
}

#[test]
fn finds_a_candidate(rt: HostRuntime) -> Result<(), AllocError> {
    let table = Table::written::<lanes::Group>(rt.alloc(), 3, &[2, 2])?;
    let controls = table.controls.as_slice();
    laws::search_is_bounded();
    laws::counters_begin_at_zero();
    laws::marked_are_walked();
    expect_eq!(rt; candidate(controls, table.cap, table.len, 2), Some(2));
    expect_eq!(rt; candidate(controls, table.cap, table.len, 1 << 63), None);
    expect_eq!(rt; candidate_from(controls, table.cap, table.len, 2), Some(2));
    expect_eq!(rt; candidate_from(controls, table.cap, table.len, 1 << 63), None);
    Ok(())
}

#[test]
fn finds_by_each_kind(rt: HostRuntime) -> Result<(), AllocError> {
    laws::found_on_written();
    expect_eq!(rt; finds::<bytewise::Group>(rt.alloc()), true);
    expect_eq!(rt; finds::<generic::Group>(rt.alloc()), true);
    expect_eq!(rt; finds::<lanes::Group>(rt.alloc()), true);
    expect_eq!(rt; finds::<paired::Group>(rt.alloc()), true);
    // A word of eight also marks a tag that differs in the lowest bit, right after an equal one.
    let hash = 0x5000_0000_0000_0001;
    let table = Table::written::<generic::Group>(rt.alloc(), 3, &[hash, 0x5200_0000_0000_0000])?;
    expect_eq!(rt; found::<generic::Group>(&table, hash, Accepted::Only(1)), (Some(1), 1));
    expect_eq!(rt; found::<bytewise::Group>(&table, hash, Accepted::Only(1)), (None, 1));
    expect_eq!(rt; found::<lanes::Group>(&table, hash, Accepted::Only(1)), (None, 1));
    expect_eq!(rt; found::<paired::Group>(&table, hash, Accepted::Only(1)), (Some(1), 1));
    Ok(())
}

// Returns whether a lookup that accepts no bucket tries those of the first stride, then the second.
fn compares_in_order<G: GroupKind>(alloc: Global) -> Result<bool, AllocError> {
    let table = Table::written::<G>(alloc, 17, &[16; 16])?;
    let calls = Cell::new(0usize);
    let in_order = Cell::new(true);
    let outcome = table.lookup::<G, _>(16, |b| {
        let call = calls.get();
        calls.set(call.wrapping_add(1));
        let expected = match call {
            0 => 16,
            1..16 => call - 1,
            _ => call - 16,
        };
        in_order.set(in_order.get() && b == expected);
        false
    });
    Ok(outcome == (None, 2) && calls.get() == 31 && in_order.get())
}

#[test]
fn comparisons_are_called_in_order(rt: HostRuntime) -> Result<(), AllocError> {
    expect_eq!(rt; compares_in_order::<bytewise::Group>(rt.alloc()).ok(), Some(true));
    expect_eq!(rt; compares_in_order::<generic::Group>(rt.alloc()).ok(), Some(true));
    expect_eq!(rt; compares_in_order::<lanes::Group>(rt.alloc()).ok(), Some(true));
    expect_eq!(rt; compares_in_order::<paired::Group>(rt.alloc()).ok(), Some(true));
    // A comparison that returns `false` at its first call, and `true` from then on.
    let table = Table::written::<generic::Group>(rt.alloc(), 3, &[2, 2])?;
    let compared = Cell::new(false);
    assert!(rt; table.lookup::<generic::Group, _>(2, |_| compared.replace(true)) == (Some(0), 1));
    Ok(())
}

fn walks<G: GroupKind>(alloc: Global) -> Result<bool, AllocError> {
    let table = Table::written::<G>(alloc, 17, &[16; 16])?;
    let controls = table.controls.as_slice();
    if controls.len() != 47 {
        return Ok(false);
    }
    let mut walk = Walk::<G>::new(controls, 17);
    let mut right = true;
    for expected in 0..15 {
        right = right && walk.next() == Some(expected);
    }
    right = right && walk.next() == Some(16) && walk.next() == None && walk.next() == None;
    Ok(right && Walk::<G>::empty().next() == None)
}

#[test]
fn walks_by_each_kind(rt: HostRuntime) {
    laws::buckets_are_yielded::<generic::Group>();
    laws::walked_are_full();
    expect_eq!(rt; walks::<bytewise::Group>(rt.alloc()).ok(), Some(true));
    expect_eq!(rt; walks::<generic::Group>(rt.alloc()).ok(), Some(true));
    expect_eq!(rt; walks::<lanes::Group>(rt.alloc()).ok(), Some(true));
    expect_eq!(rt; walks::<paired::Group>(rt.alloc()).ok(), Some(true));
}

#[test]
fn the_next_full_bucket_is_found(rt: HostRuntime) {
    let controls = [0xff, 0x28, 0x51, 0xff, 0xff, 0x7a];
    expect_eq!(rt; [0, 1, 2, 3, 5].map(|from| next_full(&controls, 5, from)), [Some(1), Some(1),
        Some(2), None, None]);
}

#[test]
fn mirrored_control_bytes_are_checked(rt: HostRuntime) {
    let mut small = [0xffu8; 31];
    small[1] = 0x28;
    small[3] = 0x28;
    expect_eq!(rt; check_wrapped(&small, 2), Ok(()));
    small[4] = 0;
    expect_eq!(rt; check_wrapped(&small, 2), Err(4));
    small[4] = 0xff;
    small[0] = 0x80;
    expect_eq!(rt; check_wrapped(&small, 2), Err(2));
    small[2] = 0x80;
    expect_eq!(rt; check_wrapped(&small, 2), Ok(()));
    small[30] = 0x7f;
    expect_eq!(rt; check_wrapped(&small, 2), Err(30));
    let mut even = [0xffu8; 31];
    even[0] = 1;
    expect_eq!(rt; check_wrapped(&even, 16), Err(16));
}
