//! Laws of written sets, in any archive that contains their bytes, and of lists of keys.

ghost use Rattle.rkyv_base.specs.{SameFormat};
ghost use Rattle.rkyv_collections.specs.{WrittenSetsRepresent, items_load_factor, listed_items};
ghost use Rattle.rkyv_collections.specs.{set_list_format};
ghost use Rattle.rkyv_keys.specs.{archived_hash, native_hash, native_key_format};

use crate::lists::SetItems;
use rkyv_base::{Archive, Represents, Width};
use rkyv_keys::{KeyElement, NativeKey};
use rkyv_scan::KeyHasher;

/// States that a written set with its header is valid in any archive that has its bytes.
///
/// The header must be aligned and after the written bytes.
pub fn written_sets_represent<
    W: Width,
    H: KeyHasher,
    K: KeyElement + Represents<A>,
    A: NativeKey<K> + Archive<W, Archived = K>,
>()
    ensures { WrittenSetsRepresent W.word K.spec K.represents
        (archived_hash H.KeyHasher K.KeyElement) A.format
        (native_hash H.KeyHasher A.KeyHash) }
{}

/// States that a list of keys is written as the set of these keys, under its load factor.
pub fn listed_items_are_written<'a, W, H, K, A>()
where
    W: Width,
    H: KeyHasher,
    K: KeyElement + Represents<A>,
    A: 'a + NativeKey<K> + Archive<W, Archived = K>,
    ensures { SameFormat ⟦<SetItems<'a, A, H> as Archive<W>>⟧.format
        (set_list_format W.Width (native_key_format K.spec A.format H.hasher A.calls)
        items_load_factor listed_items) }
{}
