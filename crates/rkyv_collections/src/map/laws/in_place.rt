//! Laws of writes of one value in place.

ghost use Rattle.rkyv_keys.specs.{archived_hash, native_hash};
ghost use Rattle.rkyv_collections.specs.{ValueWritesKeepLookups, ValueWritesKeepMaps};
ghost use Rattle.rkyv_collections.specs.{ValuesWrittenRepresent};

use rkyv_base::{Element, Represents, Width};
use rkyv_keys::{KeyElement, Query};
use rkyv_scan::KeyHasher;

/// States that a write of one value in place that keeps it valid keeps the map and its lookups.
pub fn value_writes_keep_maps<K: KeyElement, V: Element, H: KeyHasher, W: Width>()
    ensures { ValueWritesKeepMaps W.word K.spec V.spec
        (archived_hash H.KeyHasher K.KeyElement) }
{}

/// States that each query finds the same key after a write of one value that keeps it valid.
pub fn value_writes_keep_lookups<K: KeyElement, V: Element, Q: Query<K>, H: KeyHasher, W: Width>()
    ensures { let hash = native_hash H.KeyHasher Q.KeyHash in
        ValueWritesKeepLookups W.word K.spec V.spec hash Q.fits }
{}

/// States that a write of one value in place replaces it in the represented list of pairs.
pub fn values_written_represent<A, B, K: KeyElement, V: Represents<B>, H: KeyHasher, W: Width>()
where
    K: Represents<A>,
    ensures { ValuesWrittenRepresent W.word K.spec V.spec K.represents V.represents
        (archived_hash H.KeyHasher K.KeyElement) }
{}
