//! Hash maps.
//!
//! - `write` writes maps from iterators.
//! - `read` has lookups, iterators and comparisons.
//! - `in_place` writes values over the bytes of an archive.
//! - `laws` has laws that a proof cites.
ghost use Rattle.std.specs.Prelude.{MatchResult, Ok, ◌≡◌, ⊤};
ghost use Rattle.rkyv_base.specs.Lemmas.ElementSpec.{viewable_prop};
ghost use Rattle.rkyv_base.specs.{IsValidView, bytes_of, pos_of};
ghost use Rattle.rkyv_table.specs.{IsDecoded};
ghost use Rattle.rkyv_collections.specs.Map.MapSpec.{map_spec};
ghost use Rattle.rkyv_collections.specs.Lemmas.MapElement.{map_element};

mod element;
pub mod in_place;
pub mod laws;
pub mod read;
pub mod write;

use rkyv_base::width::Word;
use rkyv_base::{HasSpec, Narrow, View};
use rkyv_scan::FxHasher64;
use rkyv_table::table::decoded::Decoded;
use std::alloc::AllocError;
use std::marker::PhantomData;

/// The header of a hash map of `K` to `V` under the hasher `H`, in an archive of the width `W`.
pub struct HashMapOf<K, V, H = FxHasher64, W = Narrow> {
    kinds: PhantomData<(K, V, H, W)>,
}

/// A hash map of `K` to `V` under the hasher `H`, read in an archive of the width `W`.
///
/// Its bytes are valid, so its calls need no condition. It is small, and is passed by value.
pub struct ArchivedHashMap<'a, K: HasSpec, V: HasSpec, H = FxHasher64, W: Word = Narrow> {
    pub(crate) view: View<'a, HashMapOf<K, V, H, W>>,
    pub(crate) header: Decoded,
    ghost valid: { IsValidView (map_spec W.word K.spec V.spec) view } by { viewable_prop (map_spec
        W.word K.spec V.spec)
        (map_element W.word W.kind K.spec V.spec K.laws V.laws) (bytes_of view) (pos_of view) },
    ghost decoded: { IsDecoded W.word (bytes_of view) (pos_of view) header },
}

impl<'a, K: HasSpec, V: HasSpec, H, W: Word> Clone for ArchivedHashMap<'a, K, V, H, W> {
    #[inline]
    fn clone(&self) -> Result<ArchivedHashMap<'a, K, V, H, W>, AllocError>
        ensures cases { MatchResult result (λ clone. clone ≡ self.now) (λ _. ¬ ⊤) }
        ensures same { result ≡ Ok self.now }
    {
        Ok(*self)
    }

    ghost is_clone = { λ map clone. clone ≡ map };

    ghost is_infallible = { λ _. ⊤ };
}

impl<'a, K: HasSpec, V: HasSpec, H, W: Word> Copy for ArchivedHashMap<'a, K, V, H, W> {}
