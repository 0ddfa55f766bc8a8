//! Lookups that return a seal of the value.
//!
//! - `get_seal` returns a seal of the value, and `get_key_value_seal` also a view of the key.
//! - `get_seal_with` and `get_key_value_seal_with` take a comparison.
//!
//! Take `found_with` or `found_by` of `map::in_place` if the contract must cover the bytes
//! afterwards.
//! That module has a table of all calls that write values.
//!
//! A lookup in an untrusted map may read all of its control bytes.
ghost use Rattle.std.specs.Prelude.{IfSome, length, ◌+◌, ◌≡◌, ◌≤◌};
ghost use Rattle.rkyv_base.specs.{IsValidView, LiesIn, SealAt, Viewable, archive_in, bytes_in};
ghost use Rattle.rkyv_base.specs.{pos_in, seal_pos, value_pos};
ghost use Rattle.rkyv_collections.specs.{CanCompareKeysIn, FoundByHasAt, FoundKeyHasAt, IsKeyPosIn};
ghost use Rattle.rkyv_collections.specs.{IsMapSeal, IsPairSeal, IsPairSealAt, IsValueSeal};
ghost use Rattle.rkyv_collections.specs.{IsValueSealAt, map_bytes, map_pos, map_sealed};
ghost use Rattle.rkyv_keys.specs.{lookup_hashes, lookup_of};

use crate::map::{ArchivedHashMap, HashMapOf};
use rkyv_base::{ArchiveSeal, Element, Seal, View, Width, found_pos};
use rkyv_keys::{KeyElement, KeyHash, Query};
use rkyv_scan::KeyHasher;

#[inline]
fn map_in<'s, K: Element, V: Element, H, W: Width>(
    this: &'s ArchiveSeal<'_, HashMapOf<K, V, H, W>>,
) -> ArchivedHashMap<'s, K, V, H, W>
    requires { IsMapSeal W.word K.spec V.spec this.now }
    ensures bytes { map_bytes result ≡ archive_in this.now }
    ensures pos { map_pos result ≡ pos_in this.now }
{
    ArchivedHashMap::of(this.as_view())
}

impl<'a, K: KeyElement, V: Element, H: KeyHasher, W: Width> ArchivedHashMap<'a, K, V, H, W> {
    #[inline]
    fn key_pos_with<Q: KeyHash, F: Fn(&Q, View<'_, K>) -> bool>(
        this: &ArchiveSeal<'_, HashMapOf<K, V, H, W>>,
        key: &Q,
        cmp: F,
    ) -> Option<u64>
        requires map { IsMapSeal W.word K.spec V.spec this.now }
        requires callable { CanCompareKeysIn W.word K.spec V.spec this.now (F.pre cmp key) }
        ensures walked { IfSome result (IsKeyPosIn W.word K.spec V.spec this.now) }
        ensures finds { FoundByHasAt (map_sealed W.Word K.HasSpec V.HasSpec this.now)
            (lookup_hashes H.KeyHasher K.KeyElement Q.KeyHash key.now)
            (F.post cmp key.entry) (λ key_pos. result ≡ key_pos) }
    {
        found_pos(map_in(this).entry_with(key, cmp))
    }

    #[inline]
    fn key_pos_of<Q: Query<K>>(
        this: &ArchiveSeal<'_, HashMapOf<K, V, H, W>>,
        key: &Q,
    ) -> Option<u64>
        requires map { IsMapSeal W.word K.spec V.spec this.now }
        ensures walked { IfSome result (IsKeyPosIn W.word K.spec V.spec this.now) }
        ensures finds { FoundKeyHasAt (map_sealed W.Word K.HasSpec V.HasSpec this.now)
            (lookup_of H.KeyHasher K.KeyElement Q.Query key.now)
            (λ key_pos. result ≡ key_pos) }
    {
        found_pos(map_in(this).entry_of(key))
    }

    #[inline]
    fn lend_pair(
        this: ArchiveSeal<'a, HashMapOf<K, V, H, W>>,
        found: Option<u64>,
    ) -> Option<(View<'a, K>, Seal<'a, V>)>
        requires map { IsMapSeal W.word K.spec V.spec this }
        requires found { IfSome found (IsKeyPosIn W.word K.spec V.spec this) }
        ensures inside { IfSome result (λ pair. LiesIn V.spec pair.1) }
        ensures viewable { IfSome result (λ pair. IsValidView K.spec pair.0) }
        ensures walked { IfSome result (IsPairSeal W.word K.spec V.spec this.entry) }
        ensures at { IsPairSealAt result found }
    {
        Some(this.split_value(found?))
    }

    #[inline]
    fn lend_value(
        this: ArchiveSeal<'a, HashMapOf<K, V, H, W>>,
        found: Option<u64>,
    ) -> Option<Seal<'a, V>>
        requires map { IsMapSeal W.word K.spec V.spec this }
        requires found { IfSome found (IsKeyPosIn W.word K.spec V.spec this) }
        ensures inside { IfSome result (LiesIn V.spec) }
        ensures viewable { IfSome result (λ value. Viewable V.spec (bytes_in value)
            (seal_pos value)) }
        ensures walked { IfSome result (IsValueSeal W.word K.spec V.spec this.entry) }
        ensures at { IsValueSealAt K.spec V.spec result found }
    {
        Some(this.value_seal::<K, V>(found?))
    }
}

impl<'a, K: KeyElement, V: Element, H: KeyHasher, W: Width> ArchivedHashMap<'a, K, V, H, W> {
    /// Returns the key that `get_key_value_with` finds and a seal of its value, or `None`.
    ///
    /// It splits the archive as `get_key_value_seal` does. `found_by` has clauses on its bytes.
    #[inline]
    pub fn get_key_value_seal_with<Q: KeyHash, F: Fn(&Q, View<'_, K>) -> bool>(
        this: ArchiveSeal<'a, HashMapOf<K, V, H, W>>,
        key: &Q,
        cmp: F,
    ) -> Option<(View<'a, K>, Seal<'a, V>)>
        requires map { IsMapSeal W.word K.spec V.spec this }
        requires callable { CanCompareKeysIn W.word K.spec V.spec this (F.pre cmp key) }
        ensures inside { IfSome result (λ pair. LiesIn V.spec pair.1) }
        ensures viewable { IfSome result (λ pair. IsValidView K.spec pair.0) }
        ensures walked { IfSome result (IsPairSeal W.word K.spec V.spec this.entry) }
        ensures finds { FoundByHasAt (map_sealed W.Word K.HasSpec V.HasSpec this.entry)
            (lookup_hashes H.KeyHasher K.KeyElement Q.KeyHash key.now)
            (F.post cmp key.entry) (IsPairSealAt result) }
    {
        let found = Self::key_pos_with(&this, key, cmp);
        Self::lend_pair(this, found)
    }

    /// Returns the key that `get_key_value` finds and a seal of its value, or `None`.
    ///
    /// The view borrows the bytes before the value, and the seal borrows the rest.
    /// The contract of `found_with` also covers the archive's bytes after a write.
    #[inline]
    pub fn get_key_value_seal<Q: Query<K>>(
        this: ArchiveSeal<'a, HashMapOf<K, V, H, W>>,
        key: &Q,
    ) -> Option<(View<'a, K>, Seal<'a, V>)>
        requires map { IsMapSeal W.word K.spec V.spec this }
        ensures inside { IfSome result (λ pair. LiesIn V.spec pair.1) }
        ensures viewable { IfSome result (λ pair. IsValidView K.spec pair.0) }
        ensures walked { IfSome result (IsPairSeal W.word K.spec V.spec this.entry) }
        ensures finds { FoundKeyHasAt (map_sealed W.Word K.HasSpec V.HasSpec this.entry)
            (lookup_of H.KeyHasher K.KeyElement Q.Query key.now)
            (IsPairSealAt result) }
    {
        let found = Self::key_pos_of(&this, key);
        Self::lend_pair(this, found)
    }

    /// Returns a seal of the value that `get_with` finds, or `None`. See `found_by` for the bytes.
    #[inline]
    pub fn get_seal_with<Q: KeyHash, F: Fn(&Q, View<'_, K>) -> bool>(
        this: ArchiveSeal<'a, HashMapOf<K, V, H, W>>,
        key: &Q,
        cmp: F,
    ) -> Option<Seal<'a, V>>
        requires map { IsMapSeal W.word K.spec V.spec this }
        requires callable { CanCompareKeysIn W.word K.spec V.spec this (F.pre cmp key) }
        ensures inside { IfSome result (LiesIn V.spec) }
        ensures viewable { IfSome result (λ value. Viewable V.spec (bytes_in value)
            (seal_pos value)) }
        ensures walked { IfSome result (IsValueSeal W.word K.spec V.spec this.entry) }
        ensures finds { FoundByHasAt (map_sealed W.Word K.HasSpec V.HasSpec this.entry)
            (lookup_hashes H.KeyHasher K.KeyElement Q.KeyHash key.now)
            (F.post cmp key.entry) (IsValueSealAt K.spec V.spec result) }
    {
        let found = Self::key_pos_with(&this, key, cmp);
        Self::lend_value(this, found)
    }

    /// Returns a seal of the value that `get` finds, or `None`.
    ///
    /// The contract of `found_with` also covers the archive's bytes after a write.
    ///
    /// # Examples
    ///
    /// ```rust
    /// type Prices = HashMapOf<Text, u32>;
    ///
    /// // Adds 1 to the price of a name, by a seal. Returns the price before.
    /// fn raise_price(archive: &mut [u8], name: &str) -> Result<Option<u32>, VerifyError> {
    ///     let prices = access_mut::<Prices>(archive)?;
    ///     match ArchivedHashMap::get_seal(prices, &name) {
    ///         Some(mut price) => {
    ///             let before = price.to_native();
    ///             price.set(before.wrapping_add(1));
    ///             Ok(Some(before))
    ///         }
    ///         None => Ok(None),
    ///     }
    /// }
    /// ```
    #[inline]
    pub fn get_seal<Q: Query<K>>(
        this: ArchiveSeal<'a, HashMapOf<K, V, H, W>>,
        key: &Q,
    ) -> Option<Seal<'a, V>>
        requires map { IsMapSeal W.word K.spec V.spec this }
        ensures inside { IfSome result (LiesIn V.spec) }
        ensures viewable { IfSome result (λ value. Viewable V.spec (bytes_in value)
            (seal_pos value)) }
        ensures walked { IfSome result (IsValueSeal W.word K.spec V.spec this.entry) }
        ensures finds { FoundKeyHasAt (map_sealed W.Word K.HasSpec V.HasSpec this.entry)
            (lookup_of H.KeyHasher K.KeyElement Q.Query key.now)
            (IsValueSealAt K.spec V.spec result) }
    {
        let found = Self::key_pos_of(&this, key);
        Self::lend_value(this, found)
    }
}
