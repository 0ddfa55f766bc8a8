//! Laws of writes among the parts of a value, as to a map that is the value of another map.
ghost use Rattle.rkyv_keys.specs.{archived_hash, native_hash, native_keys};
ghost use Rattle.rkyv_collections.specs.{NestedWritesKeepLookups, NestedWritesKeepMaps};
ghost use Rattle.rkyv_collections.specs.{NestedWritesRepresent, ValueWritesAreNested};

use rkyv_base::{Element, Represents, Width};
use rkyv_keys::{KeyElement, NativeQuery, Query};
use rkyv_scan::KeyHasher;

/// States that a write of one value that keeps it valid is a write among its map's parts.
pub fn value_writes_are_nested<K: KeyElement, V: Element, W: Width>()
    ensures { ValueWritesAreNested W.word K.spec V.spec }
{}

/// States that a write among the parts of a value that keeps it valid keeps the map.
pub fn nested_writes_keep_maps<K: KeyElement, V: Element, H: KeyHasher, W: Width>()
    ensures { NestedWritesKeepMaps W.word K.spec V.spec (archived_hash H.KeyHasher K.KeyElement) }
{}

/// States that each query finds the same key after a write among the parts of a value.
pub fn nested_writes_keep_lookups<K: KeyElement, V: Element, Q: Query<K>, H: KeyHasher, W: Width>()
    ensures { let hash = native_hash H.KeyHasher Q.KeyHash in
        NestedWritesKeepLookups W.word K.spec V.spec hash Q.fits }
{}

/// States that a write among the parts of a found value replaces it in the represented list.
pub fn nested_writes_represent<
    A,
    Q: NativeQuery<A, K>,
    B,
    K: KeyElement + Represents<A>,
    V: Represents<B>,
    H: KeyHasher,
    W: Width,
>()
    ensures { NestedWritesRepresent W.word K.spec V.spec
        (native_keys K.represents (archived_hash H.KeyHasher K.KeyElement) Q.fits Q.equals)
        V.represents }
{}
