//! Round trips: lists that are written as index maps and index sets, opened and deserialized.

ghost use Rattle.std.specs.Prelude.{◌≡◌, IfErr, IfOk, true};
ghost use Rattle.rkyv_keys.specs.{HasArchive, RoundTripFails};
ghost use Rattle.rkyv_index.specs.{items_trip, pairs_trip};

use crate::lists::{OrderedItems, OrderedPairs};
use crate::map::laws::pairs_read_back_are_listed;
use crate::map::{ArchivedIndexMap, IndexMapOf};
use crate::set::laws::items_read_back_are_listed;
use crate::set::{ArchivedIndexSet, IndexSetOf};
use crate::width::IndexWidth;
pub use rkyv_base::errors::RoundTripError;
use rkyv_base::{Archive, Serialize, VecWriter, access_in, to_bytes_in};
use rkyv_keys::{Deserialize, KeyElement, NativeKey, RepresentsUniquely};
use rkyv_scan::FxHasher64;
use std::alloc::Global;

/// Writes a list of pairs, opens the archive, deserializes the index map and compares the lists.
///
/// Fails with the error of `to_bytes_in` or `deserialize_pairs`. The result is never `Ok(false)`.
pub fn pairs_round_trip<
    W: IndexWidth,
    A: Serialize<VecWriter, W> + Drop,
    B: Serialize<VecWriter, W> + PartialEq + Drop,
>(alloc: Global, pairs: &OrderedPairs<A, B>) -> Result<bool, RoundTripError>
where
    A::Archived: KeyElement + Deserialize<A> + RepresentsUniquely<A>,
    A: NativeKey<A::Archived>,
    B::Archived: Deserialize<B> + RepresentsUniquely<B>,
    ensures same { IfOk result (λ same. same ≡ true) }
    ensures archived { IfOk result (λ _. HasArchive (pairs_trip W.LIMIT W.word
        A.Archived.Deserialize B.Archived.Deserialize
        ⟦<OrderedPairs<A, B> as Archive<W>>⟧.format) pairs.now) }
    ensures error { IfErr result (RoundTripFails (pairs_trip W.LIMIT W.word A.Archived.Deserialize
        B.Archived.Deserialize ⟦<OrderedPairs<A, B> as Archive<W>>⟧.format) pairs.now) }
{
    pairs_read_back_are_listed::<A, B, A::Archived, B::Archived, FxHasher64, W>();
    let bytes = to_bytes_in::<W, OrderedPairs<A, B>>(alloc, pairs)?;
    let Ok(root) = access_in::<W, IndexMapOf<A::Archived, B::Archived, FxHasher64, W>>(
        bytes.as_slice(),
    ) else {
        return Ok(false);
    };
    let back = ArchivedIndexMap::of(root).deserialize_pairs::<A, B>(alloc)?;
    Ok(pairs.0 == back)
}

/// Writes a list of keys, opens the archive, deserializes the index set and compares the lists.
///
/// Fails with the error of `to_bytes_in` or `deserialize_items`. The result is never `Ok(false)`.
pub fn items_round_trip<W: IndexWidth, A: Serialize<VecWriter, W> + Drop>(
    alloc: Global,
    items: &OrderedItems<A>,
) -> Result<bool, RoundTripError>
where
    A::Archived: KeyElement + Deserialize<A> + RepresentsUniquely<A>,
    A: NativeKey<A::Archived>,
    ensures same { IfOk result (λ same. same ≡ true) }
    ensures archived { IfOk result (λ _. HasArchive (items_trip W.LIMIT W.word
        A.Archived.Deserialize ⟦<OrderedItems<A> as Archive<W>>⟧.format) items.now) }
    ensures error { IfErr result (RoundTripFails (items_trip W.LIMIT W.word A.Archived.Deserialize
        ⟦<OrderedItems<A> as Archive<W>>⟧.format) items.now) }
{
    items_read_back_are_listed::<A, A::Archived, FxHasher64, W>();
    let bytes = to_bytes_in::<W, OrderedItems<A>>(alloc, items)?;
    let Ok(root) = access_in::<W, IndexSetOf<A::Archived, FxHasher64, W>>(bytes.as_slice()) else {
        return Ok(false);
    };
    let back = ArchivedIndexSet::of(root).deserialize_items::<A>(alloc)?;
    Ok(items.0 == back)
}
