//! Hash sets.
//!
//! A set is the map of its keys to the unit value. `write` writes sets from iterators,
//! and `laws` has laws of their bytes, their layout, lookups and iterators.
ghost use Rattle.std.specs.Prelude.{MatchResult, Ok, ◌≡◌, ⊤};

mod accessors;
mod debug;
mod equality;
pub mod laws;
pub mod write;

use crate::map::ArchivedHashMap;
use rkyv_base::width::Word;
use rkyv_base::{HasSpec, Narrow};
use rkyv_scan::FxHasher64;
use std::alloc::AllocError;
use std::marker::PhantomData;

/// The header of a hash set of `K` under the hasher `H`, in an archive of the width `W`.
pub struct HashSetOf<K, H = FxHasher64, W = Narrow> {
    kinds: PhantomData<(K, H, W)>,
}

/// A hash set of `K` under the hasher `H`, read in an archive of the width `W`.
///
/// Its bytes are valid. It is the map of its keys to the unit value.
pub struct ArchivedHashSet<'a, K: HasSpec, H = FxHasher64, W: Word = Narrow> {
    pub(crate) map: ArchivedHashMap<'a, K, (), H, W>,
}

impl<'a, K: HasSpec, H, W: Word> Clone for ArchivedHashSet<'a, K, H, W> {
    #[inline]
    fn clone(&self) -> Result<ArchivedHashSet<'a, K, H, W>, AllocError>
        ensures cases { MatchResult result (λ clone. clone ≡ self.now) (λ _. ¬ ⊤) }
        ensures same { result ≡ Ok self.now }
    {
        Ok(*self)
    }

    ghost is_clone = { λ set clone. clone ≡ set };

    ghost is_infallible = { λ _. ⊤ };
}

impl<'a, K: HasSpec, H, W: Word> Copy for ArchivedHashSet<'a, K, H, W> {}
