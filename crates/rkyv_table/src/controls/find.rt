//! Lookups: finding the bucket of an item by the control bytes.
//!
//! A lookup reads the strides of a hash in order. It ends at the first stride with an item
//! that the comparison accepts, or with an empty control byte.
ghost use Rattle.std.specs.Prelude.{Bool, IfSome, List, drop, length, map, slice_index, take, true};
ghost use Rattle.std.specs.Prelude.{ℕ, ◌%◌, ◌*◌, ◌+◌, ◌<◌, ◌^◌, ◌≡◌, ◌≤◌};
ghost use Rattle.std.specs.List.{find};
ghost use Rattle.rkyv_table.specs.{AreValidControls, ComparesByBucket, FindsBucket, IsAcceptedBy};
ghost use Rattle.rkyv_table.specs.{IsFullBucket, IsFullIfAccepted, IsFullInStride, IsMarked};
ghost use Rattle.rkyv_table.specs.{SeesFirst, candidates, count_after, lookup, stride_has_empty};

use crate::controls::numbers::{bucket_of, start, tag};
use crate::controls::probe::Probe;
use rkyv_scan::{GroupKind, Marks};
use std::marker::Model;

/// A counter of the strides of sixteen control bytes that lookups read. It ends at 2^64 - 1.
#[derive(Debug, Drop)]
pub struct Strides {
    count: u64,
}

impl Model for Strides {
    ghost Value = { ℕ };

    ghost view = { λ s. s.count };
}

impl Default for Strides {
    ghost is_default = { λ s. s ≡ 0 };

    #[inline]
    fn default() -> Self {
        Strides::new()
    }
}

impl Strides {
    /// Returns a counter with the count 0.
    pub fn new() -> Strides
        ensures { result ≡ 0 }
    {
        Strides { count: 0 }
    }

    /// Returns the number of strides that were counted, and at most 2^64 - 1.
    #[inline]
    pub fn count(&self) -> u64
        ensures { result ≡ self.now }
    {
        self.count
    }

    /// Adds a number of strides.
    #[inline]
    pub fn add(&mut self, read: u64)
        ensures { self.new ≡ count_after self.old read }
    {
        self.count = self.count.saturating_add(read);
    }

    #[inline]
    fn stride<'a>(&mut self, controls: &'a [u8], pos: usize) -> &'a [u8]
        requires { pos + 16 ≤ length controls.now }
        ensures value { result.now ≡ take 16 (drop pos controls.now) }
        ensures counted { self.new ≡ count_after self.old 1 }
    {
        self.add(1);
        &controls[pos..pos + 16]
    }
}

// Returns the first accepted bucket of the marked indices. The group's first index is `at`.
#[inline]
fn first_accepted<M: Marks, F: Fn(usize) -> bool>(
    marks: M,
    at: usize,
    cap: usize,
    cmp: &F,
) -> Option<usize>
    requires small { cap < 2 ^ 63 }
    requires below { (k : ℕ) → k < length (M.indices marks)
        → at + slice_index (M.indices marks) k < 2 * cap }
    requires callable { (b : ℕ) → IsMarked at cap (M.indices marks) b → F.pre cmp.now b }
    ensures among { IfSome result (IsMarked at cap (M.indices marks)) }
    ensures accepted { IfSome result (λ b. F.post cmp.now b true) }
    ensures first { (accept : ℕ → Bool)
        → ComparesByBucket (F.post cmp.now) (IsMarked at cap (M.indices marks)) accept
        → result ≡ find accept (map (λ j. (at + j) % cap) (M.indices marks)) }
{
    let mut rest = marks;
    while let Some(j) = rest.lowest_set_bit() {
        let bucket = bucket_of(at + j, cap);
        if cmp(bucket) {
            return Some(bucket);
        }
        rest = rest.remove_lowest_bit();
    }
    None
}

// The outcome of one stride: an accepted bucket, or else an empty control byte, or neither.
#[derive(Drop)]
enum StrideOutcome {
    Accepted(usize),
    HasEmpty,
    Continue,
}

// Reads one stride: as one group if groups are sixteen wide, else as groups in order.
#[inline]
fn scan<G: GroupKind, F: Fn(usize) -> bool>(
    stride: &[u8],
    pos: usize,
    cap: usize,
    tag: u8,
    cmp: &F,
) -> StrideOutcome
    requires whole { length stride.now ≡ 16 }
    requires small { cap < 2 ^ 63 }
    requires fits { pos + 16 < 2 ^ 64 }
    requires tag { tag < 128 }
    requires below { (q : ℕ) → q < 16 → slice_index stride.now q < 128 → pos + q < 2 * cap }
    requires callable { (b : ℕ) → IsFullInStride stride.now pos cap b → F.pre cmp.now b }
    ensures full { IsFullIfAccepted stride.now pos cap result }
    ensures accepted { IsAcceptedBy (F.post cmp.now) result }
    ensures outcome { (bytes : List ℕ) → stride.now ≡ take 16 (drop pos bytes)
        → SeesFirst (F.post cmp.now) (IsFullInStride stride.now pos cap)
        (candidates G.kind bytes cap tag pos) (stride_has_empty bytes pos) result }
{
    if G::WIDTH == 16 {
        let whole = G::read(stride, 0);
        if let Some(bucket) = first_accepted(whole.match_byte(tag), pos, cap, cmp) {
            return StrideOutcome::Accepted(bucket);
        }
        if whole.match_empty().any_bit_set() {
            return StrideOutcome::HasEmpty;
        }
        return StrideOutcome::Continue;
    }
    let mut empty = false;
    for i in 0..16 / G::WIDTH {
        let at = i * G::WIDTH;
        let group = G::read(stride, at);
        if let Some(bucket) = first_accepted(group.match_byte(tag), pos + at, cap, cmp) {
            return StrideOutcome::Accepted(bucket);
        }
        if group.match_empty().any_bit_set() {
            empty = true;
        }
    }
    if empty {
        StrideOutcome::HasEmpty
    } else {
        StrideOutcome::Continue
    }
}

/// Looks up as `find` does, from `start`, which is `hash % cap`, or anything without buckets.
#[inline]
pub fn find_from<G: GroupKind, F: Fn(usize) -> bool>(
    controls: &[u8],
    cap: usize,
    len: usize,
    hash: u64,
    start: usize,
    cmp: F,
    strides: &mut Strides,
) -> Option<usize>
    requires accepted { 0 < len → AreValidControls cap len controls.now }
    requires start { 0 < cap → start ≡ hash % cap }
    requires callable { (b : ℕ) → IsFullBucket cap controls.now b → F.pre cmp b }
    ensures { FindsBucket (lookup G.kind controls.now cap len hash) (F.post cmp) strides.old
        strides.new result }
{
    if len == 0 {
        return None;
    }
    let tag = tag(hash);
    // A `for` would ask the probe in each lookup whether the stride is the first one.
    let mut rest = Probe::starting_at(start, cap);
    let mut next = rest.next();
    while let Some(pos) = next {
        match scan::<G, F>(strides.stride(controls, pos), pos, cap, tag, &cmp) {
            StrideOutcome::Accepted(bucket) => return Some(bucket),
            StrideOutcome::HasEmpty => return None,
            StrideOutcome::Continue => {}
        }
        next = rest.next();
    }
    None
}

/// Returns a full bucket that the comparison accepts, in a lookup under `hash`, or `None`.
///
/// The comparison is called only with full buckets. If it depends only on the bucket, the strides
/// of the hash decide the result. Each stride that is read is counted: none if `len` is 0, else at
/// most ceil(cap / 16). The control bytes must be valid if `len` is above 0.
#[inline]
pub fn find<G: GroupKind, F: Fn(usize) -> bool>(
    controls: &[u8],
    cap: usize,
    len: usize,
    hash: u64,
    cmp: F,
    strides: &mut Strides,
) -> Option<usize>
    requires accepted { 0 < len → AreValidControls cap len controls.now }
    requires callable { (b : ℕ) → IsFullBucket cap controls.now b → F.pre cmp b }
    ensures { FindsBucket (lookup G.kind controls.now cap len hash) (F.post cmp) strides.old
        strides.new result }
{
    find_from::<G, F>(controls, cap, len, hash, start(hash, cap), cmp, strides)
}
