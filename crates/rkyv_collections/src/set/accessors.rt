//! Opening a set, iterating over it and looking up keys.
//!
//! `get` returns a view of the key that a query finds, and `contains` returns `true`
//! if there is one.
//!
//! A lookup in an untrusted set may read all of its control bytes.
//! `FxHasher64` takes no secret key, so it doesn't protect from chosen input.

ghost use Rattle.std.specs.Prelude.{IsTrue, length, ◌↔◌, ◌≡◌};
ghost use Rattle.rkyv_base.specs.{IsValidView, archive_of, pos_of, unit_spec};
ghost use Rattle.rkyv_base.specs.Lemmas.Empty.{unit_element};
ghost use Rattle.rkyv_collections.specs.{FoundMemberHas, GetsMember, IsSetAt, WalksAllKeys};
ghost use Rattle.rkyv_collections.specs.{member_positions, set_archive, set_cap, set_len, set_spec};
ghost use Rattle.rkyv_keys.specs.{IsFoundAt, lookup_of};
ghost use Rattle.rkyv_collections.specs.Lemmas.MapElement.{map_element};

use crate::map::read::iter::Keys;
use crate::map::{ArchivedHashMap, HashMapOf};
use crate::set::{ArchivedHashSet, HashSetOf};
use rkyv_base::width::Word;
use rkyv_base::{Element, HasSpec, PartRange, VerifyError, View, Width};
use rkyv_keys::{KeyElement, Query};
use rkyv_scan::KeyHasher;

impl<K: HasSpec, H, W: Word> HasSpec for HashSetOf<K, H, W> {
    ghost spec = { set_spec W.word K.spec };

    ghost laws = { map_element W.word W.kind K.spec unit_spec K.laws unit_element };
}

impl<K: Element, H, W: Width> Element for HashSetOf<K, H, W> {
    #[inline]
    fn size() -> usize {
        HashMapOf::<K, (), H, W>::size()
    }

    #[inline]
    fn align() -> usize {
        HashMapOf::<K, (), H, W>::align()
    }

    #[inline]
    fn check(bytes: &[u8], pos: u64, range: PartRange) -> Result<PartRange, VerifyError> {
        HashMapOf::<K, (), H, W>::check(bytes, pos, range)
    }
}

impl<'a, K: Element, H, W: Width> ArchivedHashSet<'a, K, H, W> {
    /// Returns the set at a view of its header. Decodes the header, once for all lookups.
    ///
    /// # Examples
    ///
    /// ```rust
    /// // Returns the number of words, and whether one is among them.
    /// fn has_word(archive: &[u8], word: &str) -> Result<(usize, bool), VerifyError> {
    ///     let words = ArchivedHashSet::of(access::<HashSetOf<Text>>(archive)?);
    ///     Ok((words.len(), words.contains(&word)))
    /// }
    /// ```
    #[inline]
    pub fn of(view: View<'a, HashSetOf<K, H, W>>) -> ArchivedHashSet<'a, K, H, W>
        requires { IsValidView (set_spec W.word K.spec) view }
        ensures at { IsSetAt result (archive_of view.entry) (pos_of view.entry) }
    {
        ArchivedHashSet {
            map: ArchivedHashMap::of(view.at::<HashMapOf<K, (), H, W>>(view.pos())),
        }
    }

    /// Returns `true` if and only if the set has no keys.
    #[inline]
    pub fn is_empty(self) -> bool
        ensures { IsTrue result ↔ (set_len self.entry ≡ 0) }
    {
        self.map.is_empty()
    }

    /// Returns the number of keys.
    #[inline]
    pub fn len(self) -> usize
        ensures { result ≡ set_len self.entry }
    {
        self.map.len()
    }

    /// Returns the number of buckets.
    #[inline]
    pub fn capacity(self) -> usize
        ensures { result ≡ set_cap self.entry }
    {
        self.map.capacity()
    }

    /// Returns an iterator over the keys, in bucket order.
    #[inline]
    pub fn iter(self) -> Keys<'a, K, (), H, W>
        ensures archive { result.archive ≡ set_archive self.entry }
        ensures positions { result.positions ≡ member_positions self.entry }
        ensures count { length result.positions ≡ set_len self.entry }
    {
        self.map.keys()
    }
}

/// `for key in set` iterates over the keys, in bucket order.
impl<'a, K: Element, H, W: Width> IntoIterator for ArchivedHashSet<'a, K, H, W> {
    type Item = View<'a, K>;

    type IntoIter = Keys<'a, K, (), H, W>;

    ghost into_iter_gives = { λ set. WalksAllKeys set };

    #[inline]
    fn into_iter(self) -> Keys<'a, K, (), H, W>
        ensures into_iter_gives { WalksAllKeys self.entry result }
    {
        self.iter()
    }
}

/// `for key in &set` iterates over the keys, in bucket order.
impl<'a, K: Element, H, W: Width> IntoIterator for &ArchivedHashSet<'a, K, H, W> {
    type Item = View<'a, K>;

    type IntoIter = Keys<'a, K, (), H, W>;

    ghost into_iter_gives = { λ set. WalksAllKeys set.now };

    #[inline]
    fn into_iter(self) -> Keys<'a, K, (), H, W>
        ensures into_iter_gives { WalksAllKeys self.entry.now result }
    {
        self.iter()
    }
}

impl<'a, K: KeyElement, H: KeyHasher, W: Width> ArchivedHashSet<'a, K, H, W> {
    /// Returns the key that the query finds, or `None`, by a lookup like `get_key_value` of maps.
    ///
    /// An untrusted set may miss keys unless `misplaced` is 0, and may read all control bytes.
    #[inline]
    pub fn get<Q: Query<K>>(self, key: &Q) -> Option<View<'a, K>>
        ensures { GetsMember self.entry
            (lookup_of H.KeyHasher K.KeyElement Q.Query key.now) result }
    {
        let (stored, _) = self.map.get_key_value(key)?;
        Some(stored)
    }

    /// Returns `true` if and only if `get` returns a key.
    #[inline]
    pub fn contains<Q: Query<K>>(self, key: &Q) -> bool
        ensures { FoundMemberHas self.entry
            (lookup_of H.KeyHasher K.KeyElement Q.Query key.now)
            (IsFoundAt result) }
    {
        self.map.contains_key(key)
    }
}
