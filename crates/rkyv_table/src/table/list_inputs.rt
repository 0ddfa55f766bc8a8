//! Iterators over the items of a list, as the input of a call that writes a table.
//!
//! They return a pair as two references, an item by reference, and a key with the unit value.

ghost use Rattle.std.specs.Iterator.{YieldsFirstBy, at_most};
ghost use Rattle.std.specs.Prelude.{length, ◌≡◌};
ghost use Rattle.rkyv_table.specs.{UnitStep, items_left, pairs_left};

/// The pairs of a list, each as a pair of references.
#[derive(Drop)]
pub struct PairRefs<'a, A, B> {
    pairs: std::slice::Iter<'a, (A, B)>,
}

impl<'a, A, B> PairRefs<'a, A, B> {
    /// Returns an iterator over the pairs of a list, in order.
    #[inline]
    pub fn of(pairs: &'a [(A, B)]) -> PairRefs<'a, A, B>
        ensures { pairs_left result ≡ pairs.now }
    {
        PairRefs {
            pairs: pairs.iter(),
        }
    }
}

impl<'a, A, B> Iterator for PairRefs<'a, A, B> {
    type Item = (&'a A, &'a B);

    ghost next_gives = { YieldsFirstBy (λ halves. (halves.0.now, halves.1.now))
        pairs_left };

    ghost remaining = { λ s. at_most (length (pairs_left s)) };

    #[inline]
    fn next(&mut self) -> Option<(&'a A, &'a B)> {
        let pair = self.pairs.next()?;
        Some((&pair.0, &pair.1))
    }
}

/// The items of a list, by reference.
#[derive(Drop)]
pub struct Refs<'a, A> {
    items: std::slice::Iter<'a, A>,
}

impl<'a, A> Refs<'a, A> {
    /// Returns an iterator over the items of a list, in order.
    #[inline]
    pub fn of(items: &'a [A]) -> Refs<'a, A>
        ensures { items_left result ≡ items.now }
    {
        Refs {
            items: items.iter(),
        }
    }
}

impl<'a, A> Iterator for Refs<'a, A> {
    type Item = &'a A;

    ghost next_gives = { YieldsFirstBy (λ item. item.now) items_left };

    ghost remaining = { λ s. at_most (length (items_left s)) };

    #[inline]
    fn next(&mut self) -> Option<&'a A> {
        self.items.next()
    }
}

/// The keys of an iterator, each with the unit value.
#[derive(Drop)]
pub struct WithUnits<I> {
    /// The iterator of keys.
    pub keys: I,
}

impl<BK, I: Iterator<Item = BK>> Iterator for WithUnits<I> {
    type Item = (BK, ());

    ghost can_next = { λ s. I.can_next s.keys };

    ghost next_gives = { λ s r t. UnitStep I.next_gives s.keys r t.keys };

    ghost remaining = { λ s. I.remaining s.keys };

    #[inline]
    fn next(&mut self) -> Option<(BK, ())> {
        Some((self.keys.next()?, ()))
    }
}
