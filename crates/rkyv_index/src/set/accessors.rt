//! Opening, iterating over and looking up in an index set.
//!
//! - `get` returns a view of the key that a query finds, and `get_full` also its index.
//! - `get_index_of` returns the index, and `contains` returns `true` if a key is found.
//! - `get_index` returns the key at an index, and `first` and `last` the first and the last key.
//!
//! A lookup in an untrusted set may read all of its control bytes.
//! `FxHasher64` takes no secret key, so it doesn't protect from chosen input.
ghost use Rattle.std.specs.Prelude.{IfSome, IsTrue, MatchOption, length, ◌-◌, ◌↔◌, ◌≡◌, ◌≤◌};
ghost use Rattle.rkyv_base.specs.{IsAt, IsValidView, archive_of, entry_spec, pos_of, unit_spec};
ghost use Rattle.rkyv_table.specs.{AllValid};
ghost use Rattle.rkyv_index.specs.{FoundKeyHas, GetsKey, IsKeyOf, IsMemberAt, IsStoredIndex};
ghost use Rattle.rkyv_index.specs.{WalksAll, full_key_part, index_archive, index_cap, index_len};
ghost use Rattle.rkyv_index.specs.{index_of_set, index_part, index_set_spec, key_part};
ghost use Rattle.rkyv_index.specs.{index_view, key_positions, keys_of};
ghost use Rattle.rkyv_keys.specs.{IsFoundAt, lookup_of};

use crate::map::read::iter::Keys;
use crate::map::{ArchivedIndexMap, IndexMapOf};
use crate::set::{ArchivedIndexSet, IndexSetOf};
use crate::width::IndexWidth;
use rkyv_base::{Element, View};
use rkyv_keys::{KeyElement, Query};
use rkyv_scan::KeyHasher;

impl<'a, K: Element, H, W: IndexWidth> ArchivedIndexSet<'a, K, H, W> {
    /// Returns the set at a valid view of its header, and decodes it once.
    ///
    /// # Examples
    ///
    /// ```rust
    /// // Returns the number of a text, from an untrusted table.
    /// fn number(table: &[u8], text: &str) -> Result<Option<usize>, VerifyError> {
    ///     let set = ArchivedIndexSet::of(access::<IndexSetOf<Text>>(table)?);
    ///     Ok(set.get_index_of(&text))
    /// }
    /// ```
    #[inline]
    pub fn of(view: View<'a, IndexSetOf<K, H, W>>) -> ArchivedIndexSet<'a, K, H, W>
        requires { IsValidView (index_set_spec W.word K.spec) view }
        ensures at { IsAt (index_view (keys_of result)) (archive_of view.entry)
            (pos_of view.entry) }
    {
        ArchivedIndexSet {
            map: ArchivedIndexMap::of(view.at::<IndexMapOf<K, (), H, W>>(view.pos())),
        }
    }

    /// Returns `true` if the set has no keys.
    #[inline]
    pub fn is_empty(self) -> bool
        ensures { IsTrue result ↔ (index_len (keys_of self.entry) ≡ 0) }
    {
        self.map.is_empty()
    }

    /// Returns the number of keys.
    #[inline]
    pub fn len(self) -> usize
        ensures { result ≡ index_len (keys_of self.entry) }
    {
        self.map.len()
    }

    /// Returns the number of buckets of the table of indices.
    #[inline]
    pub fn capacity(self) -> usize
        ensures { result ≡ index_cap (keys_of self.entry) }
    {
        self.map.capacity()
    }

    /// Returns an iterator over the keys, in insertion order.
    #[inline]
    pub fn iter(self) -> Keys<'a, K, ()>
        ensures archive { result.archive ≡ index_archive (keys_of self.entry) }
        ensures positions { result.positions ≡ key_positions (keys_of self.entry) }
        ensures count { length result.positions ≡ index_len (keys_of self.entry) }
        ensures all_valid { AllValid (entry_spec K.spec unit_spec) result }
    {
        self.map.keys()
    }

    /// Returns the key at an index, or `None` if the index isn't below the length.
    #[inline]
    pub fn get_index(self, index: usize) -> Option<View<'a, K>>
        ensures { MatchOption result
            (index_len (keys_of self.entry) ≤ index)
            (λ key. IsKeyOf (keys_of self.entry) index key) }
    {
        let (key, _) = self.map.get_index(index)?;
        Some(key)
    }

    /// Returns the first key in insertion order.
    #[inline]
    pub fn first(self) -> Option<View<'a, K>>
        ensures { MatchOption result
            (index_len (keys_of self.entry) ≡ 0)
            (λ key. IsKeyOf (keys_of self.entry) 0 key) }
    {
        let (key, _) = self.map.first()?;
        Some(key)
    }

    /// Returns the last key in insertion order.
    #[inline]
    pub fn last(self) -> Option<View<'a, K>>
        ensures { MatchOption result
            (index_len (keys_of self.entry) ≡ 0)
            (λ key. IsKeyOf (keys_of self.entry) (index_len (keys_of self.entry) - 1) key) }
    {
        let (key, _) = self.map.last()?;
        Some(key)
    }
}

/// `for key in set` visits the keys, in insertion order.
impl<'a, K: Element, H, W: IndexWidth> IntoIterator for ArchivedIndexSet<'a, K, H, W> {
    type Item = View<'a, K>;

    type IntoIter = Keys<'a, K, ()>;

    ghost into_iter_gives = { λ set. WalksAll (keys_of set) };

    #[inline]
    fn into_iter(self) -> Keys<'a, K, ()>
        ensures into_iter_gives { WalksAll (keys_of self.entry) result }
    {
        self.iter()
    }
}

/// `for key in &set` visits the keys, in insertion order.
impl<'a, K: Element, H, W: IndexWidth> IntoIterator for &ArchivedIndexSet<'a, K, H, W> {
    type Item = View<'a, K>;

    type IntoIter = Keys<'a, K, ()>;

    ghost into_iter_gives = { λ set. WalksAll (keys_of set.now) };

    #[inline]
    fn into_iter(self) -> Keys<'a, K, ()>
        ensures into_iter_gives { WalksAll (keys_of self.entry.now) result }
    {
        self.iter()
    }
}

impl<'a, K: KeyElement, H: KeyHasher, W: IndexWidth> ArchivedIndexSet<'a, K, H, W> {
    /// Returns the key that the query finds, with its index.
    ///
    /// In a written set, it is the first key in insertion order that the query matches.
    ///
    /// A lookup in an untrusted set may read all control bytes, and may miss a key that the query
    /// matches, unless `misplaced` is 0. `FxHasher64` doesn't protect from chosen keys.
    #[inline]
    pub fn get_full<Q: Query<K>>(self, key: &Q) -> Option<(usize, View<'a, K>)>
        ensures { GetsKey full_key_part (keys_of self.entry)
            (lookup_of H.KeyHasher K.KeyElement Q.Query key.now) result }
    {
        let (index, stored, _) = self.map.get_full(key)?;
        Some((index, stored))
    }

    /// Looks up as `get_full` does, and returns the key.
    #[inline]
    pub fn get<Q: Query<K>>(self, key: &Q) -> Option<View<'a, K>>
        ensures { GetsKey key_part (keys_of self.entry)
            (lookup_of H.KeyHasher K.KeyElement Q.Query key.now) result }
    {
        self.key_of(self.map.index_of_key(key))
    }

    #[inline]
    fn key_of(self, index: Option<usize>) -> Option<View<'a, K>>
        requires stored { IfSome index (IsStoredIndex (keys_of self)) }
        ensures { IsMemberAt self.entry result index }
    {
        Some(self.map.entry(index?).key())
    }

    /// Looks up as `get_full` does, and returns the index.
    #[inline]
    pub fn get_index_of<Q: Query<K>>(self, key: &Q) -> Option<usize>
        ensures { GetsKey index_part (keys_of self.entry)
            (lookup_of H.KeyHasher K.KeyElement Q.Query key.now) result }
    {
        self.map.get_index_of(key)
    }

    /// Returns `true` if `get_full` finds a key.
    #[inline]
    pub fn contains<Q: Query<K>>(self, key: &Q) -> bool
        ensures { FoundKeyHas (index_of_set self.entry)
            (lookup_of H.KeyHasher K.KeyElement Q.Query key.now)
            (IsFoundAt result) }
    {
        self.map.contains_key(key)
    }
}
