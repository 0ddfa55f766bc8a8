//! Equality of maps.
//!
//! `eq_map` compares two maps by lookups, in any order of their pairs. `ElementEq` does the same
//! for maps that are values.
ghost use Rattle.std.specs.Prelude.{◌+◌, ◌≡◌};
ghost use Rattle.rkyv_base.specs.{IsAt, IsValidView, archive_of, pos_of, value_offset};
ghost use Rattle.rkyv_keys.specs.{archived_hash, at_views};
ghost use Rattle.rkyv_collections.specs.{finds_same, map_equal, map_spec, map_view};

use crate::map::{ArchivedHashMap, HashMapOf};
use rkyv_base::{View, Width};
use rkyv_keys::{ElementEq, KeyElement, KeyView};
use rkyv_scan::KeyHasher;

impl<'a, K: KeyElement, V: ElementEq, H: KeyHasher, W: Width> ArchivedHashMap<'a, K, V, H, W> {
    #[inline]
    fn matches(self, key: View<'_, K>, value: View<'_, V>) -> bool
        requires key { IsValidView K.spec key }
        requires value { IsValidView V.spec value }
        requires pair { IsAt value (archive_of key) (pos_of key + value_offset K.spec V.spec) }
        ensures { let key_hash = archived_hash H.KeyHasher K.KeyElement in
            result ≡ finds_same self.entry key_hash K.same V.same key.entry }
    {
        match self.get(&KeyView::of(key)) {
            Some(found) => V::same(value, found),
            None => false,
        }
    }

    /// Returns `true` if and only if the lengths and, by lookups in `other`, the pairs are equal.
    ///
    /// A map with misplaced keys may differ from itself, and with repeated keys it isn't symmetric.
    /// Each pair costs a lookup in `other`. In an untrusted map, keys that share a hash make
    /// the cost quadratic in their number.
    #[inline]
    pub fn eq_map(self, other: ArchivedHashMap<'_, K, V, H, W>) -> bool
        ensures { let key_hash = archived_hash H.KeyHasher K.KeyElement in
            result ≡ at_views (map_equal W.word K.spec V.spec key_hash K.same V.same)
            (map_view self.entry) (map_view other.entry) }
    {
        if self.len() != other.len() {
            return false;
        }
        for (key, value) in self.iter() {
            if !other.matches(key, value) {
                return false;
            }
        }
        true
    }
}

impl<K: KeyElement, V: ElementEq, H: KeyHasher, W: Width> ElementEq for HashMapOf<K, V, H, W> {
    ghost same = { map_equal W.word K.spec V.spec (archived_hash H.KeyHasher K.KeyElement)
        K.same V.same };

    #[inline]
    fn same(a: View<'_, HashMapOf<K, V, H, W>>, b: View<'_, HashMapOf<K, V, H, W>>) -> bool
        requires a { IsValidView (map_spec W.word K.spec V.spec) a }
        requires b { IsValidView (map_spec W.word K.spec V.spec) b }
        ensures { let key_hash = archived_hash H.KeyHasher K.KeyElement in
            result ≡ at_views (map_equal W.word K.spec V.spec key_hash K.same V.same) a.entry
            b.entry }
    {
        ArchivedHashMap::of(a).eq_map(ArchivedHashMap::of(b))
    }
}
