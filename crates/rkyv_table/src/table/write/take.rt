//! Taking items from one iterator of pairs, each into its home bucket.
//!
//! The number of pairs is counted up to one more than claimed.

ghost use Rattle.std.specs.Prelude.{◌≡◌, ℕ, ◌%◌, ◌+◌, ◌<◌, ◌∷◌, ◌++◌, List, []};
ghost use Rattle.std.specs.Prelude.{IfSome, MatchResult, None, Some, length, replicate, slice_set};
ghost use Rattle.std.specs.Iterator.{Drains};
ghost use Rattle.rkyv_table.specs.{ArePlaced, HasEmptyBucket, PlacesInput, YieldsOtherCount};
ghost use Rattle.rkyv_table.specs.{fresh_controls, from_iter};

use crate::controls::place::place_from;
use crate::controls::reciprocal::Reciprocal;
use rkyv_scan::GroupKind;

/// Returns the next item of an iterator, which need not end.
#[inline]
pub fn next_item<I: Iterator>(rest: &mut I) -> Option<I::Item>
    requires { I.can_next rest.old }
    ensures steps { I.next_gives rest.old result rest.new }
    ensures keeps { IfSome result (λ _. I.can_next rest.new) }
{
    rest.next()
}

#[inline]
fn put<X: Drop>(slots: &mut [Option<X>], bucket: usize, item: X)
    requires { bucket < length slots.old }
    ensures { slots.new ≡ slice_set slots.old bucket (Some item) }
{
    slots[bucket] = Some(item);
}

// The hash is `start` modulo `cap`.
#[inline]
pub(crate) fn place_item<G: GroupKind, X: Drop>(
    controls: &mut [u8],
    slots: &mut [Option<X>],
    cap: usize,
    start: usize,
    hash: u64,
    item: X,
)
    requires room { HasEmptyBucket cap slots.old controls.old }
    requires begun { start ≡ hash % cap }
    ensures { (pairs : List (ℕ × X)) → ArePlaced cap pairs slots.old controls.old
        → ArePlaced cap (pairs ++ (hash, item) ∷ []) slots.new controls.new }
{
    let bucket = place_from::<G>(controls, cap, start, hash);
    put(slots, bucket, item);
}

// An `Err` has the number of pairs, counted up to `len + 1`.
pub(crate) fn take_pairs<G: GroupKind, X: Drop, I: Iterator<Item = (u64, X)>>(
    pairs: I,
    len: usize,
    cap: usize,
    controls: &mut [u8],
    slots: &mut [Option<X>],
) -> Result<(), usize>
    requires ready { I.can_next pairs }
    requires room { len < cap }
    requires fresh { controls.old ≡ fresh_controls cap }
    requires empty { slots.old ≡ replicate cap None }
    ensures { PlacesInput (from_iter I.next_gives pairs) len cap slots.new controls.new result }
{
    let mut rest = pairs;
    let reciprocal = Reciprocal::new(cap as u64);
    for count in 0..len {
        let Some((hash, item)) = next_item(&mut rest) else {
            return Err(count);
        };
        let start = reciprocal.remainder(hash) as usize;
        place_item::<G, X>(controls, slots, cap, start, hash, item);
    }
    match next_item(&mut rest) {
        Some(_) => Err(len + 1),
        None => Ok(()),
    }
}

// Checks that an iterator has no items, with one call. An `Err` has 1.
pub(crate) fn expect_none<I: Iterator>(items: I) -> Result<(), usize>
where
    I::Item: Drop,
    requires { I.can_next items }
    ensures { MatchResult result (λ _. Drains I.next_gives items [])
        (YieldsOtherCount I.next_gives 0 items) }
{
    let mut rest = items;
    match next_item(&mut rest) {
        Some(_) => Err(1),
        None => Ok(()),
    }
}
