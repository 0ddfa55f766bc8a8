//! Index maps.
//!
//! - `write` writes maps from iterators, and their headers.
//! - `read` has lookups, iterators and comparisons, and returns lists of pairs.
//! - `in_place` writes values over the bytes of an archive.
//! - `laws` has laws that a proof cites.
ghost use Rattle.std.specs.Prelude.{MatchResult, Ok, ◌≡◌, ⊤};
ghost use Rattle.rkyv_base.specs.{IsValidView, bytes_of, entry_spec, pos_of};
ghost use Rattle.rkyv_base.specs.Lemmas.Entry.{entry_element};
ghost use Rattle.rkyv_base.specs.Lemmas.ElementSpec.{viewable_prop};
ghost use Rattle.rkyv_table.specs.{IsDecoded};
ghost use Rattle.rkyv_index.specs.Map.IndexLayout.{entries_pos, index_spec};
ghost use Rattle.rkyv_index.specs.Lemmas.IndexLaws.{index_element};

mod check;
mod element;
pub mod in_place;
pub mod laws;
pub mod read;
pub mod write;

use rkyv_base::width::Word;
use rkyv_base::{HasSpec, Narrow, View};
use rkyv_scan::FxHasher64;
use rkyv_table::table::decoded::Decoded;
use std::alloc::AllocError;
use std::marker::PhantomData;

/// The header of an index map of `K` to `V` under the hasher `H`, in an archive of the width `W`.
pub struct IndexMapOf<K, V, H = FxHasher64, W = Narrow> {
    kinds: PhantomData<(K, V, H, W)>,
}

/// An index map of `K` to `V` under the hasher `H`, read in an archive of the width `W`.
pub struct ArchivedIndexMap<'a, K: HasSpec, V: HasSpec, H = FxHasher64, W: Word = Narrow> {
    pub(crate) view: View<'a, IndexMapOf<K, V, H, W>>,
    pub(crate) header: Decoded,
    pub(crate) begin: u64,
    ghost valid: { IsValidView (index_spec W.word
        (entry_spec K.spec V.spec)) view } by { viewable_prop
            (index_spec W.word (entry_spec K.spec V.spec))
            (index_element W.word W.kind (entry_spec K.spec V.spec)
            (entry_element K.spec V.spec K.laws V.laws)) (bytes_of view) (pos_of view) },
    ghost decoded: { IsDecoded W.word (bytes_of view) (pos_of view) header },
    ghost begins: { begin ≡ entries_pos W.word (bytes_of view) (pos_of view) },
}

impl<'a, K: HasSpec, V: HasSpec, H, W: Word> Clone for ArchivedIndexMap<'a, K, V, H, W> {
    #[inline]
    fn clone(&self) -> Result<ArchivedIndexMap<'a, K, V, H, W>, AllocError>
        ensures cases { MatchResult result (λ clone. clone ≡ self.now) (λ _. ¬ ⊤) }
        ensures same { result ≡ Ok self.now }
    {
        Ok(*self)
    }

    ghost is_clone = { λ map clone. clone ≡ map };

    ghost is_infallible = { λ _. ⊤ };
}

impl<'a, K: HasSpec, V: HasSpec, H, W: Word> Copy for ArchivedIndexMap<'a, K, V, H, W> {}
