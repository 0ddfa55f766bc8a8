//! The input of a table: an iterator of pairs, or one of items and one of hashes.

ghost use Rattle.std.specs.Prelude.{◌≡◌, ℕ, ◌<◌, [], MatchResult, None, replicate};
ghost use Rattle.rkyv_table.specs.{Input, PlacesInput, fresh_controls, from_both, from_iter};

use crate::table::write::take::{expect_none, take_pairs};
use crate::table::write::take_two::take_two;
use rkyv_scan::GroupKind;

/// An input of items, each with its hash.
pub(crate) trait ItemSource<X>: Drop {
    // The iterators of the input can be called.
    ghost ready: { Self → Type 0 };

    // The input pairs of hash and item.
    ghost input: { Self → Input (ℕ × X) };

    // Takes `len` pairs, and puts each item into the first empty bucket that its hash probes.
    // An `Err` has the number of input pairs, counted up to `len + 1`.
    fn place_all<G: GroupKind>(
        self,
        len: usize,
        cap: usize,
        controls: &mut [u8],
        slots: &mut [Option<X>],
    ) -> Result<(), usize>
        requires ready { ready self }
        requires room { len < cap }
        requires fresh { controls.old ≡ fresh_controls cap }
        requires empty { slots.old ≡ replicate cap None }
        ensures { PlacesInput (input self) len cap slots.new controls.new result };

    // Checks that the input is empty. An `Err` has the number of input pairs, counted up to 1.
    fn expect_none(self) -> Result<(), usize>
        requires { ready self }
        ensures { MatchResult result (λ _. (input self).yields [])
            ((input self).yields_other_count 0) };
}

#[derive(Drop)]
pub(crate) struct Pairs<I> {
    pub(crate) pairs: I,
}

#[derive(Drop)]
pub(crate) struct ItemsAndHashes<I, J> {
    pub(crate) items: I,
    pub(crate) hashes: J,
}

impl<X: Drop, I: Iterator<Item = (u64, X)>> ItemSource<X> for Pairs<I> {
    ghost ready = { λ s. I.can_next s.pairs };

    ghost input = { λ s. from_iter I.next_gives s.pairs };

    #[inline]
    fn place_all<G: GroupKind>(
        self,
        len: usize,
        cap: usize,
        controls: &mut [u8],
        slots: &mut [Option<X>],
    ) -> Result<(), usize> {
        take_pairs::<G, _, _>(self.pairs, len, cap, controls, slots)
    }

    #[inline]
    fn expect_none(self) -> Result<(), usize> {
        expect_none(self.pairs)
    }
}

impl<X: Drop, I: Iterator<Item = X>, J: Iterator<Item = u64>> ItemSource<X>
    for ItemsAndHashes<I, J> {
    ghost ready = { λ s. I.can_next s.items × J.can_next s.hashes };

    ghost input = { λ s. from_both I.next_gives J.next_gives s.items s.hashes };

    #[inline]
    fn place_all<G: GroupKind>(
        self,
        len: usize,
        cap: usize,
        controls: &mut [u8],
        slots: &mut [Option<X>],
    ) -> Result<(), usize> {
        take_two::<G, _, _, _>(self.items, self.hashes, len, cap, controls, slots)
    }

    #[inline]
    fn expect_none(self) -> Result<(), usize> {
        expect_none(self.items)?;
        expect_none(self.hashes)
    }
}
