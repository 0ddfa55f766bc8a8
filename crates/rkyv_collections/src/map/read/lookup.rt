//! Lookups: finding a pair of a map by its key.
//!
//! - `get` returns a view of the value, and `get_key_value` also of the key.
//! - `contains_key` returns `true` if a key is found. `index` takes a key that must be found.
//! - `get_with` and `get_key_value_with` take a comparison in place of the query's own.
//!
//! A lookup in an untrusted map may read all of its control bytes.
//! `FxHasher64` takes no secret key, so it doesn't protect from chosen input.
ghost use Rattle.std.specs.Prelude.{IfSome, IsSome, Option, Some, ◌<◌, ◌^◌, ◌≡◌, ℕ};
ghost use Rattle.rkyv_base.specs.{IsAt, IsValidView, archive_of, bytes_of, entry_spec, pos_of};
ghost use Rattle.rkyv_base.specs.declared.view.View.{View};
ghost use Rattle.rkyv_collections.specs.{CanCompareKeys, FindsKey, FoundKeyHas, GetsBy, GetsKey};
ghost use Rattle.rkyv_collections.specs.{IsPairOfEntry, IsValueOfEntry, IsViewAt, entry_part};
ghost use Rattle.rkyv_collections.specs.{map_bytes, pair_part, value_part};
ghost use Rattle.rkyv_keys.specs.{IsFoundAt, lookup_hashes, lookup_of, native_hash};

use crate::map::ArchivedHashMap;
use rkyv_base::view::PairView;
use rkyv_base::{Element, Entry, View, Width};
use rkyv_keys::{KeyElement, KeyHash, Query, hash_value};
use rkyv_scan::KeyHasher;

#[inline]
pub(crate) fn is_found<T: Element>(found: Option<View<'_, T>>) -> bool
    ensures { (key_pos : Option ℕ) → IsViewAt found.entry key_pos → IsFoundAt result key_pos }
{
    found.is_some()
}

#[inline]
pub(crate) fn found_pair<'a, K: Element, V: Element>(
    found: Option<View<'a, Entry<K, V>>>,
) -> Option<PairView<'a, K, V>>
    requires { IfSome found (IsValidView (entry_spec K.spec V.spec)) }
    ensures { IsPairOfEntry K.spec V.spec result found.entry }
{
    let entry = found?;
    Some((entry.key(), entry.value()))
}

#[inline]
pub(crate) fn found_value<'a, K: Element, V: Element>(
    found: Option<View<'a, Entry<K, V>>>,
) -> Option<View<'a, V>>
    requires { IfSome found (IsValidView (entry_spec K.spec V.spec)) }
    ensures { IsValueOfEntry K.spec V.spec result found.entry }
{
    Some(found?.value())
}

// Every lookup is one call of `entry_with`.
impl<'a, K: KeyElement, V: Element, H: KeyHasher, W: Width> ArchivedHashMap<'a, K, V, H, W> {
    /// Returns an entry whose key the comparison accepts, under the hash of `key`, or `None`.
    #[inline]
    pub(crate) fn entry_with<Q: KeyHash, F>(self, key: &Q, cmp: F) -> Option<View<'a, Entry<K, V>>>
    where
        F: Fn(&Q, View<'a, K>) -> bool,
        requires callable { CanCompareKeys self (F.pre cmp key) }
        ensures found { GetsBy entry_part self.entry
            (lookup_hashes H.KeyHasher K.KeyElement Q.KeyHash key.now) (F.post cmp key.entry)
            result }
        ensures hash { native_hash H.KeyHasher Q.KeyHash key.now < 2 ^ 64 }
    {
        let hash = hash_value::<Q, H>(key);
        self.table().get_with(
            hash,
            |entry|
                requires entry { IsValidView (entry_spec K.spec V.spec) entry }
                requires callable { (k : View K) → IsAt k (archive_of entry) (pos_of entry)
                    → IsValidView K.spec k → F.pre cmp key k }
                ensures { (k : View K) × IsAt k (archive_of entry.entry) (pos_of entry.entry)
                    × IsValidView K.spec k × F.post cmp key.entry k result }
            { cmp(key, entry.key()) },
        )
    }

    /// Returns a pair whose key the comparison accepts, in a lookup under the hash of `key`.
    ///
    /// The comparison may be called twice with one key. If it depends only on the key, and each
    /// accepted key is under the hash of `key`, the first accepted pair of a written map is found.
    #[inline]
    pub fn get_key_value_with<Q: KeyHash, F>(self, key: &Q, cmp: F) -> Option<PairView<'a, K, V>>
    where
        F: Fn(&Q, View<'a, K>) -> bool,
        requires callable { CanCompareKeys self (F.pre cmp key) }
        ensures { GetsBy pair_part self.entry
            (lookup_hashes H.KeyHasher K.KeyElement Q.KeyHash key.now) (F.post cmp key.entry)
            result }
    {
        found_pair(self.entry_with(key, cmp))
    }

    /// Returns the value of the pair that `get_key_value_with` returns, or `None`.
    #[inline]
    pub fn get_with<Q: KeyHash, F>(self, key: &Q, cmp: F) -> Option<View<'a, V>>
    where
        F: Fn(&Q, View<'a, K>) -> bool,
        requires callable { CanCompareKeys self (F.pre cmp key) }
        ensures { GetsBy value_part self.entry
            (lookup_hashes H.KeyHasher K.KeyElement Q.KeyHash key.now) (F.post cmp key.entry)
            result }
    {
        found_value(self.entry_with(key, cmp))
    }

    #[inline]
    pub(crate) fn entry_of<Q: Query<K>>(self, key: &Q) -> Option<View<'a, Entry<K, V>>>
        ensures { GetsKey entry_part self.entry
            (lookup_of H.KeyHasher K.KeyElement Q.Query key.now) result }
    {
        self.entry_with(
            key,
            |key, stored|
                requires { IsValidView K.spec stored }
                ensures { result ≡ Q.fits key.entry.now (bytes_of stored.entry)
                    (pos_of stored.entry) }
            { key.same(stored) },
        )
    }

    /// Returns the pair of the key that the query finds, or `None`.
    ///
    /// In a written map, it is the first pair in insertion order whose key the query matches.
    /// In an untrusted map, a lookup may miss keys unless `misplaced` is 0, and may read all
    /// control bytes. `FxHasher64` takes no secret key, so it doesn't protect from chosen input.
    #[inline]
    pub fn get_key_value<Q: Query<K>>(self, key: &Q) -> Option<PairView<'a, K, V>>
        ensures { GetsKey pair_part self.entry
            (lookup_of H.KeyHasher K.KeyElement Q.Query key.now) result }
    {
        found_pair(self.entry_of(key))
    }

    /// Returns the value of the pair that `get_key_value` returns, or `None`.
    ///
    /// # Examples
    ///
    /// ```rust
    /// type Prices = HashMapOf<Text, u32>;
    ///
    /// fn price_of(archive: &[u8], name: &str) -> Result<Option<u32>, VerifyError> {
    ///     let prices = ArchivedHashMap::of(access::<Prices>(archive)?);
    ///     Ok(prices.get(&name).map(|price| price.to_native()))
    /// }
    /// ```
    #[inline(always)]
    pub fn get<Q: Query<K>>(self, key: &Q) -> Option<View<'a, V>>
        ensures { GetsKey value_part self.entry
            (lookup_of H.KeyHasher K.KeyElement Q.Query key.now) result }
    {
        found_value(self.entry_of(key))
    }

    /// Returns `true` if and only if `get` returns a value.
    #[inline]
    pub fn contains_key<Q: Query<K>>(self, key: &Q) -> bool
        ensures { FoundKeyHas self.entry
            (lookup_of H.KeyHasher K.KeyElement Q.Query key.now)
            (IsFoundAt result) }
    {
        is_found(self.entry_of(key))
    }

    /// Returns the value of a key for which `contains_key` returns `true`.
    #[inline]
    pub fn index<Q: Query<K>>(self, key: &Q) -> View<'a, V>
        requires found { FindsKey self
            (native_hash H.KeyHasher Q.KeyHash key.now)
            (Q.fits key.now (map_bytes self)) IsSome }
        ensures { GetsKey value_part self.entry
            (lookup_of H.KeyHasher K.KeyElement Q.Query key.now)
            (Some result) }
    {
        self.entry_of(key).unwrap().value()
    }
}
