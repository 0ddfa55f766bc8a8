//! Iterators over the full buckets, a group of control bytes at a time.
ghost use Rattle.std.specs.Prelude.{List, MatchOption, [], length, slice_index, ℕ, ◌+◌};
ghost use Rattle.std.specs.Prelude.{◌<◌, ◌∷◌, ◌≡◌, ◌≤◌};
ghost use Rattle.std.specs.Iterator.{YieldsFirst, item_count};
ghost use Rattle.rkyv_table.specs.{IsWalk, control_count, full_from, left, walk};

use rkyv_scan::{GroupKind, MAX_GROUP_WIDTH, Marks};
use std::marker::Model;

/// The full buckets that remain, in ascending order.
#[derive(Drop)]
pub struct Walk<'a, G: GroupKind> {
    controls: &'a [u8],
    cap: usize,
    // The first index of the current group.
    base: usize,
    // The full indices of that group that remain.
    marks: G::Mask,
}

impl<'a, G: GroupKind> Model for Walk<'a, G> {
    ghost Value = { List ℕ };

    ghost view = { λ w. left w.controls.now w.cap w.base G.kind.width (G.Mask.indices w.marks) };

    ghost invariant = { λ w. IsWalk w.controls.now w.cap w.base G.kind.width
        (G.Mask.indices w.marks) };
}

static EMPTY_GROUP: [u8; MAX_GROUP_WIDTH] = [0xff; MAX_GROUP_WIDTH];

impl<G: GroupKind> Walk<'static, G> {
    /// Returns an iterator over no buckets.
    #[inline]
    pub fn empty() -> Walk<'static, G>
        ensures { result ≡ [] }
    {
        Walk::new(&EMPTY_GROUP, 0)
    }
}

impl<'a, G: GroupKind> Walk<'a, G> {
    /// Returns an iterator over the full ones of the first `cap` buckets.
    #[inline]
    pub fn new(controls: &'a [u8], cap: usize) -> Walk<'a, G>
        requires some { 16 ≤ length controls.now }
        requires count { control_count cap ≤ length controls.now }
        ensures { result ≡ walk controls.now cap }
    {
        Walk {
            controls,
            cap,
            base: 0,
            marks: G::read(controls, 0).match_full(),
        }
    }
}

impl<'a, G: GroupKind> Iterator for Walk<'a, G> {
    type Item = usize;

    ghost next_gives = { YieldsFirst (λ s. s) };

    ghost remaining = { item_count (λ s. s) };

    #[inline]
    fn next(&mut self) -> Option<usize> {
        while self.base < self.cap {
            if let Some(j) = self.marks.lowest_set_bit() {
                let bucket = self.base + j;
                if bucket >= self.cap {
                    return None;
                }
                self.marks = self.marks.remove_lowest_bit();
                return Some(bucket);
            }
            if self.cap - self.base <= G::WIDTH {
                return None;
            }
            self.base += G::WIDTH;
            self.marks = G::read(self.controls, self.base).match_full();
        }
        None
    }
}

/// Returns the first full bucket from `from` on and below `cap`, or `None`.
#[inline]
pub fn next_full(controls: &[u8], cap: usize, from: usize) -> Option<usize>
    requires { cap ≤ length controls.now }
    ensures { MatchOption result (full_from controls.now cap from ≡ [])
        (λ b. (b < cap) × (slice_index controls.now b < 128)
        × (full_from controls.now cap from ≡ b ∷ full_from controls.now cap (b + 1))) }
{
    for bucket in from..cap {
        if controls[bucket] < 0x80 {
            return Some(bucket);
        }
    }
    None
}
