//! Laws of written index maps, in any archive that contains their bytes, and of lists of pairs.

ghost use Rattle.rkyv_base.specs.{SameFormat};
ghost use Rattle.rkyv_keys.specs.{fx_format, native_format};
ghost use Rattle.rkyv_index.specs.{SameFormats, WrittenIndexMaps, element, index_map_format};
ghost use Rattle.rkyv_index.specs.{indices, key_hashes, ordered_pairs_format};

use crate::lists::OrderedPairs;
use crate::map::IndexMapOf;
use crate::map::write::serialize::ListFormat;
use crate::width::IndexWidth;
use rkyv_base::{Archive, Represents};
use rkyv_keys::{KeyElement, NativeKey};
use rkyv_scan::KeyHasher;

/// States that a written index map with its header is valid in any archive with its bytes.
///
/// The header must be aligned and after the written bytes.
pub fn written_index_maps_represent<
    W: IndexWidth,
    H: KeyHasher,
    K: KeyElement + Represents<A>,
    V: Represents<B>,
    A: NativeKey<K> + Archive<W, Archived = K>,
    B: Archive<W, Archived = V>,
>()
    ensures { WrittenIndexMaps W.word (indices W.Index.spec W.Index.encoding)
        (element K.spec K.represents A.format) (element V.spec V.represents B.format)
        (key_hashes H.KeyHasher K.KeyElement A.KeyHash) }
{}

/// States that `serialize_from_iter` writes a list of pairs as the index map of these pairs.
pub fn listed_pairs_are_written<W: IndexWidth, H: KeyHasher, K, V, A, B>()
where
    K: KeyElement + Represents<A>,
    V: Represents<B>,
    A: NativeKey<K> + Archive<W, Archived = K>,
    B: Archive<W, Archived = V>,
    ensures { SameFormats ⟦<IndexMapOf<K, V, H, W> as ListFormat<(A, B)>>⟧.format
        (index_map_format W.word (indices W.Index.spec W.Index.encoding)
        (native_format K.spec V.spec A.format B.format H.hasher A.calls)) }
{}

/// States that a list of pairs is written as the index map of these pairs.
pub fn ordered_pairs_are_written<
    W: IndexWidth,
    K: KeyElement + Represents<A>,
    V: Represents<B>,
    A: NativeKey<K> + Archive<W, Archived = K>,
    B: Archive<W, Archived = V>,
>()
    ensures { SameFormat ⟦<OrderedPairs<A, B> as Archive<W>>⟧.format
        (ordered_pairs_format W.Width (indices W.Index.spec W.Index.encoding)
        (fx_format K.spec V.spec A.format B.format A.calls) (λ x. x.0.items)) }
{}
