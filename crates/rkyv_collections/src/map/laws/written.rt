//! Laws of written maps, in any archive that contains their bytes, and of lists of pairs.

ghost use Rattle.rkyv_base.specs.{SameFormat};
ghost use Rattle.rkyv_collections.specs.{WrittenMapsRepresent, listed_pairs, map_list_format};
ghost use Rattle.rkyv_collections.specs.{pairs_load_factor};
ghost use Rattle.rkyv_keys.specs.{native_format, native_pairs};

use crate::lists::MapPairs;
use rkyv_base::{Archive, Represents, Width};
use rkyv_keys::{KeyElement, NativeKey};
use rkyv_scan::KeyHasher;

/// States that a written map with its header is valid in any archive that has its bytes.
///
/// The header must be aligned and after the written bytes.
pub fn written_maps_represent<
    W: Width,
    H: KeyHasher,
    K: KeyElement + Represents<A>,
    V: Represents<B>,
    A: NativeKey<K> + Archive<W, Archived = K>,
    B: Archive<W, Archived = V>,
>()
    ensures { WrittenMapsRepresent W.word
        (native_format K.spec V.spec A.format B.format H.hasher A.calls)
        (native_pairs K.represents V.represents H.hasher K.key_calls) }
{}

/// States that a list of pairs is written as the map of these pairs, under its load factor.
pub fn listed_pairs_are_written<'a, W, H, K, V, A, B>()
where
    W: Width,
    H: KeyHasher,
    K: KeyElement + Represents<A>,
    V: Represents<B>,
    A: 'a + NativeKey<K> + Archive<W, Archived = K>,
    B: 'a + Archive<W, Archived = V>,
    ensures { SameFormat ⟦<MapPairs<'a, A, B, H> as Archive<W>>⟧.format
        (map_list_format W.Width (native_format K.spec V.spec A.format B.format H.hasher A.calls)
        pairs_load_factor listed_pairs) }
{}
