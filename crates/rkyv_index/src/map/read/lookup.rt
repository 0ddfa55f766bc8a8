//! Lookups: finding a pair of an index map by its key.
//!
//! - `get` returns a view of the value, `get_key_value` also of the key, and `get_full` also
//!   the index.
//! - `get_index_of` returns the index, and `contains_key` returns `true` if a key is found.
//! - `index` returns the value, and takes a key that must be found.
//! - `get_with`, `get_key_value_with`, `get_full_with` and `get_index_of_with` take a comparison
//!   in place of the query's own.
//! - `get_index_of_counted` counts the strides of control bytes that are read.
//!
//! A lookup in an untrusted map may read all of its control bytes.
//! `FxHasher64` takes no secret key, so it doesn't protect from chosen input.
ghost use Rattle.std.specs.Prelude.{IfSome, IsSome, Some, ◌<◌, ◌^◌, ◌≡◌};
ghost use Rattle.rkyv_base.specs.{IsValidView, bytes_of, entry_spec, pos_of};
ghost use Rattle.rkyv_scan.specs.{hash_of_calls};
ghost use Rattle.rkyv_base.specs.declared.view.View.{View};
ghost use Rattle.rkyv_table.specs.{len_at};
ghost use Rattle.rkyv_keys.specs.{IsFoundAt, lookup_hashes, lookup_of, native_hash};
ghost use Rattle.rkyv_index.specs.{CanCompareKeys, CanCompareKeysIn, CountsBy, CountsKey};
ghost use Rattle.rkyv_index.specs.{FindsKey, FoundKeyHas, GetsBy, GetsKey, IsKeyIn, IsPairAt};
ghost use Rattle.rkyv_index.specs.{IsStoredIndex};
ghost use Rattle.rkyv_index.specs.{IsValueAt, ReadsWithinBound, entries_pos, full_part, index_of};
ghost use Rattle.rkyv_index.specs.{index_part, index_spec, pair_part, value_part};

use crate::map::ArchivedIndexMap;
use crate::map::read::entries::{find_index, key_in};
use crate::width::IndexWidth;
use rkyv_base::view::PairView;
use rkyv_base::{Element, View};
use rkyv_keys::{KeyElement, KeyHash, Query, hash_value};
use rkyv_scan::KeyHasher;
use rkyv_table::Strides;

// Every lookup is one call of `index_with`.
impl<'a, K: KeyElement, V: Element, H: KeyHasher, W: IndexWidth> ArchivedIndexMap<'a, K, V, H, W> {
    /// Returns the index of an accepted key under the hash of `key`, and counts the strides read.
    #[inline]
    pub(crate) fn index_with<Q: KeyHash, F>(
        self,
        key: &Q,
        cmp: F,
        strides: &mut Strides,
    ) -> Option<usize>
    where
        F: Fn(&Q, View<'a, K>) -> bool,
        requires callable { CanCompareKeys self (F.pre cmp key) }
        ensures found { GetsBy index_part self.entry
            (lookup_hashes H.KeyHasher K.KeyElement Q.KeyHash key.now) (F.post cmp key.entry)
            result }
        ensures hash { hash_of_calls H.hasher (Q.calls key.now) < 2 ^ 64 }
        ensures bounded { ReadsWithinBound self.entry strides.old strides.new }
        ensures counted { CountsBy (index_of self.entry) (F.post cmp key.entry)
            (native_hash H.KeyHasher Q.KeyHash key.now) strides.old strides.new }
    {
        let hash = hash_value::<Q, H>(key);
        let table = self.table();
        let (view, begin) = (self.view, self.begin);
        find_index::<W, _>(
            table,
            hash,
            |index|
                requires map { IsValidView (index_spec W.word (entry_spec K.spec V.spec)) view }
                requires begin { begin ≡ entries_pos W.word (bytes_of view) (pos_of view) }
                requires below { index < len_at W.word (bytes_of view) (pos_of view) }
                requires callable { CanCompareKeysIn W.word K.spec V.spec view (F.pre cmp key) }
                ensures { (k : View K) × IsKeyIn W.word K.spec V.spec view.entry index k
                    × F.post cmp key.entry k result }
            { cmp(key, key_in(view, begin, index)) },
            strides,
        )
    }

    /// Returns a pair whose key the comparison accepts, with its index, under the hash of `key`.
    ///
    /// `cmp` must be callable with `key` and each key of the map. It may be called twice with a
    /// key, and in an untrusted map twice for each bucket with its index. If it depends only on
    /// the index of a key, the control bytes decide which pair is returned. In a written map, it
    /// is the first accepted pair if all accepted keys are under that hash.
    #[inline]
    pub fn get_full_with<Q: KeyHash, F>(
        self,
        key: &Q,
        cmp: F,
    ) -> Option<(usize, View<'a, K>, View<'a, V>)>
    where
        F: Fn(&Q, View<'a, K>) -> bool,
        requires callable { CanCompareKeys self (F.pre cmp key) }
        ensures { GetsBy full_part self.entry
            (lookup_hashes H.KeyHasher K.KeyElement Q.KeyHash key.now) (F.post cmp key.entry)
            result }
    {
        let index = self.index_with(key, cmp, &mut Strides::new())?;
        let entry = self.entry(index);
        Some((index, entry.key(), entry.value()))
    }

    #[inline]
    pub(crate) fn index_counted<Q: Query<K>>(self, key: &Q, strides: &mut Strides) -> Option<usize>
        ensures found { GetsKey index_part self.entry
            (lookup_of H.KeyHasher K.KeyElement Q.Query key.now) result }
        ensures bounded { ReadsWithinBound self.entry strides.old strides.new }
        ensures counted { CountsKey (index_of self.entry)
            (native_hash H.KeyHasher Q.KeyHash key.now) (Q.fits key.now) strides.old strides.new }
    {
        self.index_with(
            key,
            |key, stored|
                requires { IsValidView K.spec stored }
                ensures { result ≡ Q.fits key.entry.now (bytes_of stored.entry)
                    (pos_of stored.entry) }
            { key.same(stored) },
            strides,
        )
    }

    /// Returns the index of the key that the query finds, or `None`.
    #[inline]
    pub(crate) fn index_of_key<Q: Query<K>>(self, key: &Q) -> Option<usize>
        ensures { GetsKey index_part self.entry
            (lookup_of H.KeyHasher K.KeyElement Q.Query key.now) result }
    {
        self.index_counted(key, &mut Strides::new())
    }

    /// Returns the pair of the key that the query finds, with its index.
    ///
    /// In a written map, it is the first pair in insertion order whose key the query matches.
    ///
    /// A lookup in an untrusted map may read all control bytes, and may miss a key that the query
    /// matches, unless `misplaced` is 0. `FxHasher64` doesn't protect from chosen keys.
    #[inline(always)]
    pub fn get_full<Q: Query<K>>(self, key: &Q) -> Option<(usize, View<'a, K>, View<'a, V>)>
        ensures { GetsKey full_part self.entry
            (lookup_of H.KeyHasher K.KeyElement Q.Query key.now) result }
    {
        let index = self.index_of_key(key)?;
        let entry = self.entry(index);
        Some((index, entry.key(), entry.value()))
    }

    #[inline]
    fn pair_of(self, index: Option<usize>) -> Option<PairView<'a, K, V>>
        requires stored { IfSome index (IsStoredIndex self) }
        ensures { IsPairAt self.entry result index }
    {
        Some(self.pair(index?))
    }

    #[inline]
    fn value_of(self, index: Option<usize>) -> Option<View<'a, V>>
        requires stored { IfSome index (IsStoredIndex self) }
        ensures { IsValueAt self.entry result index }
    {
        Some(self.entry(index?).value())
    }

    /// Looks up as `get_full_with` does, and returns the key and the value.
    #[inline]
    pub fn get_key_value_with<Q: KeyHash, F>(self, key: &Q, cmp: F) -> Option<PairView<'a, K, V>>
    where
        F: Fn(&Q, View<'a, K>) -> bool,
        requires callable { CanCompareKeys self (F.pre cmp key) }
        ensures { GetsBy pair_part self.entry
            (lookup_hashes H.KeyHasher K.KeyElement Q.KeyHash key.now) (F.post cmp key.entry)
            result }
    {
        self.pair_of(self.index_with(key, cmp, &mut Strides::new()))
    }

    /// Looks up as `get_full` does, and returns the key and the value.
    #[inline]
    pub fn get_key_value<Q: Query<K>>(self, key: &Q) -> Option<PairView<'a, K, V>>
        ensures { GetsKey pair_part self.entry
            (lookup_of H.KeyHasher K.KeyElement Q.Query key.now) result }
    {
        self.pair_of(self.index_of_key(key))
    }

    /// Looks up as `get_full_with` does, and returns the value.
    #[inline]
    pub fn get_with<Q: KeyHash, F>(self, key: &Q, cmp: F) -> Option<View<'a, V>>
    where
        F: Fn(&Q, View<'a, K>) -> bool,
        requires callable { CanCompareKeys self (F.pre cmp key) }
        ensures { GetsBy value_part self.entry
            (lookup_hashes H.KeyHasher K.KeyElement Q.KeyHash key.now) (F.post cmp key.entry)
            result }
    {
        self.value_of(self.index_with(key, cmp, &mut Strides::new()))
    }

    /// Looks up as `get_full` does, and returns the value.
    ///
    /// # Examples
    ///
    /// ```rust
    /// type Prices = IndexMapOf<Text, u32>;
    ///
    /// // Returns the price of a name.
    /// fn price_of(archive: &[u8], name: &str) -> Result<Option<u32>, VerifyError> {
    ///     let prices = ArchivedIndexMap::of(access::<Prices>(archive)?);
    ///     Ok(prices.get(&name).map(|price| price.to_native()))
    /// }
    /// ```
    #[inline]
    pub fn get<Q: Query<K>>(self, key: &Q) -> Option<View<'a, V>>
        ensures { GetsKey value_part self.entry
            (lookup_of H.KeyHasher K.KeyElement Q.Query key.now) result }
    {
        self.value_of(self.index_of_key(key))
    }

    /// Looks up as `get_full_with` does, and returns the index.
    #[inline]
    pub fn get_index_of_with<Q: KeyHash, F>(self, key: &Q, cmp: F) -> Option<usize>
    where
        F: Fn(&Q, View<'a, K>) -> bool,
        requires callable { CanCompareKeys self (F.pre cmp key) }
        ensures { GetsBy index_part self.entry
            (lookup_hashes H.KeyHasher K.KeyElement Q.KeyHash key.now) (F.post cmp key.entry)
            result }
    {
        self.index_with(key, cmp, &mut Strides::new())
    }

    /// Looks up as `get_full_with` does, returns the index, and counts the strides it reads.
    ///
    /// A stride has sixteen control bytes. The count ends at 2^64 - 1. It is exact if the
    /// comparison depends only on the index of a key, and grows by at most ceil(n / 16), for n
    /// buckets.
    #[inline]
    pub fn get_index_of_counted<Q: KeyHash, F>(
        self,
        key: &Q,
        cmp: F,
        strides: &mut Strides,
    ) -> Option<usize>
    where
        F: Fn(&Q, View<'a, K>) -> bool,
        requires callable { CanCompareKeys self (F.pre cmp key) }
        ensures found { GetsBy index_part self.entry
            (lookup_hashes H.KeyHasher K.KeyElement Q.KeyHash key.now) (F.post cmp key.entry)
            result }
        ensures bounded { ReadsWithinBound self.entry strides.old strides.new }
        ensures counted { CountsBy (index_of self.entry) (F.post cmp key.entry)
            (native_hash H.KeyHasher Q.KeyHash key.now) strides.old strides.new }
    {
        self.index_with(key, cmp, strides)
    }

    /// Looks up as `get_full` does, and returns the index.
    #[inline]
    pub fn get_index_of<Q: Query<K>>(self, key: &Q) -> Option<usize>
        ensures { GetsKey index_part self.entry
            (lookup_of H.KeyHasher K.KeyElement Q.Query key.now) result }
    {
        self.index_of_key(key)
    }

    /// Returns `true` if `get_full` finds a key.
    #[inline]
    pub fn contains_key<Q: Query<K>>(self, key: &Q) -> bool
        ensures { FoundKeyHas (index_of self.entry)
            (lookup_of H.KeyHasher K.KeyElement Q.Query key.now)
            (IsFoundAt result) }
    {
        self.index_of_key(key).is_some()
    }

    /// Returns the value of a key for which `contains_key` must return `true`.
    #[inline]
    pub fn index<Q: Query<K>>(self, key: &Q) -> View<'a, V>
        requires found { FindsKey (index_of self) (native_hash H.KeyHasher Q.KeyHash key.now)
            (Q.fits key.now) IsSome }
        ensures { GetsKey value_part self.entry
            (lookup_of H.KeyHasher K.KeyElement Q.Query key.now)
            (Some result) }
    {
        self.entry(self.index_of_key(key).unwrap()).value()
    }
}
