//! Taking items and their hashes from two iterators, each item into its home bucket.
//!
//! The items are counted up to one more than claimed, and then the hashes.

ghost use Rattle.std.specs.Prelude.{◌≡◌, ◌+◌, ◌<◌, ◌≤◌, ◌^◌, None, replicate};
ghost use Rattle.rkyv_table.specs.{CountedOn, PlacesInput, fresh_controls, from_both};

use crate::controls::reciprocal::Reciprocal;
use crate::table::write::take::{next_item, place_item};
use rkyv_scan::GroupKind;

fn count_rest<I: Iterator>(rest: I, before: usize, len: usize) -> usize
where
    I::Item: Drop,
    requires ready { I.can_next rest }
    requires below { before ≤ len }
    requires fits { len + 1 < 2 ^ 64 }
    ensures { CountedOn I.next_gives len rest before result }
{
    let mut others = rest;
    for count in before..len + 1 {
        if next_item(&mut others).is_none() {
            return count;
        }
    }
    len + 1
}

// An `Err` has the number of items, counted up to `len + 1`. If it is `len`, it has the number of
// hashes.
pub(crate) fn take_two<G: GroupKind, X: Drop, I: Iterator<Item = X>, J: Iterator<Item = u64>>(
    items: I,
    hashes: J,
    len: usize,
    cap: usize,
    controls: &mut [u8],
    slots: &mut [Option<X>],
) -> Result<(), usize>
    requires ready { I.can_next items × J.can_next hashes }
    requires room { len < cap }
    requires fresh { controls.old ≡ fresh_controls cap }
    requires empty { slots.old ≡ replicate cap None }
    ensures { PlacesInput (from_both I.next_gives J.next_gives items hashes) len cap slots.new
        controls.new result }
{
    let mut rest = items;
    let mut rest_hashes = hashes;
    let reciprocal = Reciprocal::new(cap as u64);
    for count in 0..len {
        let Some(item) = next_item(&mut rest) else {
            return Err(count);
        };
        let Some(hash) = next_item(&mut rest_hashes) else {
            let count_of_items = count_rest(rest, count + 1, len);
            if count_of_items == len {
                return Err(count);
            }
            return Err(count_of_items);
        };
        let start = reciprocal.remainder(hash) as usize;
        place_item::<G, X>(controls, slots, cap, start, hash, item);
    }
    match next_item(&mut rest) {
        Some(_) => return Err(len + 1),
        None => {}
    }
    match next_item(&mut rest_hashes) {
        Some(_) => Err(len + 1),
        None => Ok(()),
    }
}
