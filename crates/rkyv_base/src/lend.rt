//! Items that are passed by value or by reference.
//!
//! Calls that write from an iterator take items of a type `Lend<K>`: `K` itself or `&K`.

ghost use Rattle.std.specs.Prelude.{◌≡◌};

/// A value of the type `K`, or a reference to one.
pub trait Lend<K> {
    // The value of the type `K`.
    ghost lent: { Self → K };

    /// Returns a reference to the value.
    fn lend(&self) -> &K
        ensures { result.now ≡ lent self.now };
}

impl<K> Lend<K> for K {
    ghost lent = { λ k. k };

    #[inline]
    fn lend(&self) -> &K {
        self
    }
}

impl<'a, K> Lend<K> for &'a K {
    ghost lent = { λ k. k.now };

    #[inline]
    fn lend(&self) -> &K {
        *self
    }
}
