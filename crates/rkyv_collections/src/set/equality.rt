//! Equality of sets, and the keys that a lookup of their own doesn't find.
ghost use Rattle.std.specs.Prelude.{◌≡◌};
ghost use Rattle.rkyv_base.specs.{IsValidView};
ghost use Rattle.rkyv_keys.specs.{archived_hash, archived_keys, at_views};
ghost use Rattle.rkyv_collections.specs.{CountsMembersUpTo, set_equal, set_misplaced, set_spec};
ghost use Rattle.rkyv_collections.specs.{set_view};

use crate::set::{ArchivedHashSet, HashSetOf};
use rkyv_base::{View, Width};
use rkyv_keys::{ElementEq, KeyElement};
use rkyv_scan::KeyHasher;

impl<'a, K: KeyElement, H: KeyHasher, W: Width> ArchivedHashSet<'a, K, H, W> {
    /// Returns `true` if and only if the lengths and, by lookups in `other`, the keys are equal.
    ///
    /// A set with misplaced keys may differ from itself, and with repeated keys it isn't symmetric.
    /// It costs as much as `eq_map` of maps.
    #[inline]
    pub fn eq_set(self, other: ArchivedHashSet<'_, K, H, W>) -> bool
        ensures { let key_hash = archived_hash H.KeyHasher K.KeyElement in
            result ≡ at_views (set_equal W.word K.spec key_hash K.same) (set_view self.entry)
            (set_view other.entry) }
    {
        self.map.eq_map(other.map)
    }

    /// Counts the keys that `get` of the same key doesn't return, as `misplaced` of maps does.
    #[inline]
    pub fn misplaced(self) -> usize
        ensures { result ≡ set_misplaced self.entry (archived_keys H.KeyHasher K.KeyElement) }
    {
        self.map.misplaced()
    }

    /// Returns the result of `misplaced`, or `None` if its lookups read more than `limit` strides.
    ///
    /// Not proved: the call reads at most `limit` strides and one more lookup's.
    #[inline]
    pub fn misplaced_up_to(self, limit: u64) -> Option<usize>
        ensures { CountsMembersUpTo self.entry (archived_keys H.KeyHasher K.KeyElement) limit
            result }
    {
        self.map.misplaced_up_to(limit)
    }
}

impl<K: KeyElement, H: KeyHasher, W: Width> ElementEq for HashSetOf<K, H, W> {
    ghost same = { set_equal W.word K.spec (archived_hash H.KeyHasher K.KeyElement) K.same };

    #[inline]
    fn same(a: View<'_, HashSetOf<K, H, W>>, b: View<'_, HashSetOf<K, H, W>>) -> bool
        requires a { IsValidView (set_spec W.word K.spec) a }
        requires b { IsValidView (set_spec W.word K.spec) b }
        ensures { let key_hash = archived_hash H.KeyHasher K.KeyElement in
            result ≡ at_views (set_equal W.word K.spec key_hash K.same) a.entry b.entry }
    {
        ArchivedHashSet::of(a).eq_set(ArchivedHashSet::of(b))
    }
}
