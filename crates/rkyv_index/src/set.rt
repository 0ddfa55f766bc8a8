//! Index sets.
//!
//! A set is the index map of its keys to the unit value. `write` writes sets from iterators.
//! `laws` has laws of the list that `ArchivedIndexSet::deserialize_items` returns, of lookups and
//! of the layout.
ghost use Rattle.std.specs.Prelude.{MatchResult, Ok, ◌≡◌, ⊤};

mod accessors;
mod debug;
mod deserialize;
mod element;
mod equality;
pub mod laws;
pub mod write;

use crate::map::ArchivedIndexMap;
use rkyv_base::width::Word;
use rkyv_base::{HasSpec, Narrow};
use rkyv_scan::FxHasher64;
use std::alloc::AllocError;
use std::marker::PhantomData;

/// The header of an index set of `K` under the hasher `H`, in an archive of the width `W`.
pub struct IndexSetOf<K, H = FxHasher64, W = Narrow> {
    kinds: PhantomData<(K, H, W)>,
}

/// An index set of `K` under the hasher `H`, read in an archive of the width `W`.
pub struct ArchivedIndexSet<'a, K: HasSpec, H = FxHasher64, W: Word = Narrow> {
    pub(crate) map: ArchivedIndexMap<'a, K, (), H, W>,
}

impl<'a, K: HasSpec, H, W: Word> Clone for ArchivedIndexSet<'a, K, H, W> {
    #[inline]
    fn clone(&self) -> Result<ArchivedIndexSet<'a, K, H, W>, AllocError>
        ensures cases { MatchResult result (λ clone. clone ≡ self.now) (λ _. ¬ ⊤) }
        ensures same { result ≡ Ok self.now }
    {
        Ok(*self)
    }

    ghost is_clone = { λ set clone. clone ≡ set };

    ghost is_infallible = { λ _. ⊤ };
}

impl<'a, K: HasSpec, H, W: Word> Copy for ArchivedIndexSet<'a, K, H, W> {}
