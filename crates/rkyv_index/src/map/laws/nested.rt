//! Laws of writes among the parts of a value, as to a map that is the value of an index map.
ghost use Rattle.rkyv_base.specs.{value_pos};
ghost use Rattle.rkyv_keys.specs.{archived_hash, native_hash, native_pairs};
ghost use Rattle.rkyv_table.specs.{WritesAmongParts};
ghost use Rattle.rkyv_index.specs.{NestedWritesKeepIndexMaps, ValueWritesAreNested};
ghost use Rattle.rkyv_index.specs.{WritesKeepLookups, WritesRepresent};

use crate::width::IndexWidth;
use rkyv_base::{Element, Represents};
use rkyv_keys::{KeyElement, Query};
use rkyv_scan::KeyHasher;

/// States that a valid write of one value is a write among the parts of its index map.
///
/// So the index map may itself be a value of another map or index map.
pub fn value_writes_are_nested<K: KeyElement, V: Element, W: IndexWidth>()
    ensures { ValueWritesAreNested W.word K.spec V.spec }
{}

/// States that a valid write among the parts of a value keeps the index map and its lookups.
///
/// A lookup keeps its index if its comparison depends only on the key and its parts.
pub fn nested_writes_keep_index_maps<K: KeyElement, V: Element, H: KeyHasher, W: IndexWidth>()
    ensures { NestedWritesKeepIndexMaps W.word K.spec V.spec
        (archived_hash H.KeyHasher K.KeyElement) }
{}

/// States that each query finds the same index after a write among the parts of a value.
pub fn nested_writes_keep_lookups<
    K: KeyElement,
    V: Element,
    Q: Query<K>,
    H: KeyHasher,
    W: IndexWidth,
>()
    ensures { (q : _) → WritesKeepLookups W.word K.spec V.spec
        (λ b c at. WritesAmongParts V.spec b c (value_pos K.spec V.spec at))
        (native_hash H.KeyHasher Q.KeyHash q) (Q.fits q) }
{}

/// States that a write among the parts of the value at an index replaces it in the list.
pub fn nested_writes_represent<A, B, K: KeyElement, V: Represents<B>, H: KeyHasher, W: IndexWidth>()
where
    K: Represents<A>,
    ensures { WritesRepresent W.word K.spec V.spec
        (λ b c at. WritesAmongParts V.spec b c (value_pos K.spec V.spec at))
        (native_pairs K.represents V.represents H.hasher K.key_calls) }
{}
