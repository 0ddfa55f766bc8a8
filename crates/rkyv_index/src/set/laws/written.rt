//! The law of written index sets, in any archive that contains their bytes.

ghost use Rattle.rkyv_keys.specs.{archived_hash, native_hash};
ghost use Rattle.rkyv_index.specs.{WrittenIndexSets, element, indices};

use crate::width::IndexWidth;
use rkyv_base::{Archive, Represents};
use rkyv_keys::{KeyElement, NativeKey};
use rkyv_scan::KeyHasher;

/// States that a written index set with its header is valid in any archive with its bytes.
///
/// The header must be aligned and after the written bytes.
pub fn written_index_sets_represent<
    W: IndexWidth,
    H: KeyHasher,
    K: KeyElement + Represents<A>,
    A: NativeKey<K> + Archive<W, Archived = K>,
>()
    ensures { WrittenIndexSets W.word (indices W.Index.spec W.Index.encoding)
        (element K.spec K.represents A.format)
        (archived_hash H.KeyHasher K.KeyElement) (native_hash H.KeyHasher A.KeyHash) }
{}
