//! Lookups that return a seal of the value.
//!
//! - `get_seal` returns a seal of the value, and `get_key_value_seal` also a view of the key.
//!   `get_full_seal` returns the index, too.
//! - `get_seal_with`, `get_key_value_seal_with` and `get_full_seal_with` take a comparison.
//!
//! Take `found_with` or `found_by` of `map::in_place` if the contract must cover the bytes
//! afterwards.
//! That module has a table of all calls that write values. `map::laws` has the laws of writes in
//! place.
//!
//! A lookup in an untrusted map may read all of its control bytes.
ghost use Rattle.std.specs.Prelude.{IfSome, length, ◌+◌, ◌<◌, ◌≡◌, ◌≤◌};
ghost use Rattle.rkyv_base.specs.{IsValidView, LiesIn, SealAt, Viewable, archive_in, bytes_in};
ghost use Rattle.rkyv_base.specs.{entry_spec, pos_in, seal_pos, value_pos};
ghost use Rattle.rkyv_keys.specs.{lookup_hashes, lookup_of};
ghost use Rattle.rkyv_table.specs.{LendsPair, len_at};
ghost use Rattle.rkyv_index.specs.{CanCompareKeysOf, FoundByHas, FoundKeyHas, IsFullSeal};
ghost use Rattle.rkyv_index.specs.{IsFullSealAt, IsIndex, IsIndexSeal, IsPairPosIn, IsPairSeal};
ghost use Rattle.rkyv_index.specs.{IsStoredIn, IsValueSeal, SealsPair, SealsValue, SealsValueAt};
ghost use Rattle.rkyv_index.specs.{index_bytes, index_in, index_pos};

use crate::map::read::accessors::begin;
use crate::map::read::entries::entry_in;
use crate::map::{ArchivedIndexMap, IndexMapOf};
use crate::width::IndexWidth;
use rkyv_base::{ArchiveSeal, Element, Seal, View};
use rkyv_keys::{KeyElement, KeyHash, Query};
use rkyv_scan::KeyHasher;
use rkyv_table::Strides;

// Every sealed lookup finds an index, and then returns a seal of the pair or value at it.
impl<'a, K: KeyElement, V: Element, H: KeyHasher, W: IndexWidth> ArchivedIndexMap<'a, K, V, H, W> {
    #[inline]
    fn read<'s>(
        this: &'s ArchiveSeal<'_, IndexMapOf<K, V, H, W>>,
    ) -> ArchivedIndexMap<'s, K, V, H, W>
        requires { IsIndexSeal W.word K.spec V.spec this.now }
        ensures bytes { index_bytes result ≡ archive_in this.now }
        ensures pos { index_pos result ≡ pos_in this.now }
    {
        ArchivedIndexMap::of(this.as_view())
    }

    #[inline]
    fn index_with_in<Q: KeyHash, F: Fn(&Q, View<'_, K>) -> bool>(
        this: &ArchiveSeal<'_, IndexMapOf<K, V, H, W>>,
        key: &Q,
        cmp: F,
    ) -> Option<usize>
        requires map { IsIndexSeal W.word K.spec V.spec this.now }
        requires callable { CanCompareKeysOf (index_in W.word K.spec V.spec this.now)
            (F.pre cmp key) }
        ensures stored { IfSome result (IsStoredIn W.word this.now) }
        ensures finds { FoundByHas (index_in W.word K.spec V.spec this.now)
            (lookup_hashes H.KeyHasher K.KeyElement Q.KeyHash key.now)
            (F.post cmp key.entry) (IsIndex result) }
    {
        Self::read(this).index_with(key, cmp, &mut Strides::new())
    }

    #[inline]
    fn index_of_key_in<Q: Query<K>>(
        this: &ArchiveSeal<'_, IndexMapOf<K, V, H, W>>,
        key: &Q,
    ) -> Option<usize>
        requires map { IsIndexSeal W.word K.spec V.spec this.now }
        ensures stored { IfSome result (IsStoredIn W.word this.now) }
        ensures finds { FoundKeyHas (index_in W.word K.spec V.spec this.now)
            (lookup_of H.KeyHasher K.KeyElement Q.Query key.now)
            (IsIndex result) }
    {
        Self::read(this).index_of_key(key)
    }

    #[inline]
    fn pair_pos_in(this: &ArchiveSeal<'_, IndexMapOf<K, V, H, W>>, index: usize) -> u64
        requires map { IsIndexSeal W.word K.spec V.spec this.now }
        requires below { index < len_at W.word (archive_in this.now) (pos_in this.now) }
        ensures at { IsPairPosIn W.word K.spec V.spec this.now index result }
        ensures entry { Viewable (entry_spec K.spec V.spec) (archive_in this.now) result }
    {
        let map = this.as_view();
        entry_in(map, begin(map), index).pos()
    }

    /// Returns a view of the key at `index` and a seal of its value.
    #[inline]
    fn lend_pair(
        this: ArchiveSeal<'a, IndexMapOf<K, V, H, W>>,
        index: usize,
    ) -> (View<'a, K>, Seal<'a, V>)
        requires map { IsIndexSeal W.word K.spec V.spec this }
        requires below { index < len_at W.word (archive_in this) (pos_in this) }
        ensures inside { LiesIn V.spec result.1 }
        ensures lent { LendsPair K.spec V.spec (archive_in this.entry)
            (IsPairPosIn W.word K.spec V.spec this.entry index) result }
    {
        let pos = Self::pair_pos_in(&this, index);
        this.split_value(pos)
    }

    #[inline]
    fn lend_value(this: ArchiveSeal<'a, IndexMapOf<K, V, H, W>>, index: usize) -> Seal<'a, V>
        requires map { IsIndexSeal W.word K.spec V.spec this }
        requires below { index < len_at W.word (archive_in this) (pos_in this) }
        ensures inside { LiesIn V.spec result }
        ensures viewable { Viewable V.spec (bytes_in result) (seal_pos result) }
        ensures lent { SealsValueAt W.word K.spec V.spec this.entry index result }
    {
        let pos = Self::pair_pos_in(&this, index);
        this.value_seal::<K, V>(pos)
    }

    #[inline]
    fn full_seal_of(
        this: ArchiveSeal<'a, IndexMapOf<K, V, H, W>>,
        index: Option<usize>,
    ) -> Option<(usize, View<'a, K>, Seal<'a, V>)>
        requires map { IsIndexSeal W.word K.spec V.spec this }
        requires stored { IfSome index (IsStoredIn W.word this) }
        ensures inside { IfSome result (λ full. LiesIn V.spec full.2) }
        ensures viewable { IfSome result (λ full. IsValidView K.spec full.1) }
        ensures walked { IfSome result (IsFullSeal W.word K.spec V.spec this.entry) }
        ensures at { IsFullSealAt result index }
    {
        let index = index?;
        let (key, value) = Self::lend_pair(this, index);
        Some((index, key, value))
    }

    #[inline]
    fn pair_seal_of(
        this: ArchiveSeal<'a, IndexMapOf<K, V, H, W>>,
        index: Option<usize>,
    ) -> Option<(View<'a, K>, Seal<'a, V>)>
        requires map { IsIndexSeal W.word K.spec V.spec this }
        requires stored { IfSome index (IsStoredIn W.word this) }
        ensures inside { IfSome result (λ pair. LiesIn V.spec pair.1) }
        ensures viewable { IfSome result (λ pair. IsValidView K.spec pair.0) }
        ensures walked { IfSome result (IsPairSeal W.word K.spec V.spec this.entry) }
        ensures at { SealsPair W.word K.spec V.spec this.entry result index }
    {
        Some(Self::lend_pair(this, index?))
    }

    #[inline]
    fn value_seal_of(
        this: ArchiveSeal<'a, IndexMapOf<K, V, H, W>>,
        index: Option<usize>,
    ) -> Option<Seal<'a, V>>
        requires map { IsIndexSeal W.word K.spec V.spec this }
        requires stored { IfSome index (IsStoredIn W.word this) }
        ensures inside { IfSome result (LiesIn V.spec) }
        ensures viewable { IfSome result (λ value. Viewable V.spec (bytes_in value)
            (seal_pos value)) }
        ensures walked { IfSome result (IsValueSeal W.word K.spec V.spec this.entry) }
        ensures at { SealsValue W.word K.spec V.spec this.entry result index }
    {
        Some(Self::lend_value(this, index?))
    }
}

impl<'a, K: KeyElement, V: Element, H: KeyHasher, W: IndexWidth> ArchivedIndexMap<'a, K, V, H, W> {
    /// Looks up as `get_full_with` does, and returns a seal as `get_full_seal` does.
    #[inline]
    pub fn get_full_seal_with<Q: KeyHash, F: Fn(&Q, View<'_, K>) -> bool>(
        this: ArchiveSeal<'a, IndexMapOf<K, V, H, W>>,
        key: &Q,
        cmp: F,
    ) -> Option<(usize, View<'a, K>, Seal<'a, V>)>
        requires map { IsIndexSeal W.word K.spec V.spec this }
        requires callable { CanCompareKeysOf (index_in W.word K.spec V.spec this)
            (F.pre cmp key) }
        ensures inside { IfSome result (λ full. LiesIn V.spec full.2) }
        ensures viewable { IfSome result (λ full. IsValidView K.spec full.1) }
        ensures walked { IfSome result (IsFullSeal W.word K.spec V.spec this.entry) }
        ensures finds { FoundByHas (index_in W.word K.spec V.spec this.entry)
            (lookup_hashes H.KeyHasher K.KeyElement Q.KeyHash key.now)
            (F.post cmp key.entry) (IsFullSealAt result) }
    {
        let index = Self::index_with_in(&this, key, cmp);
        Self::full_seal_of(this, index)
    }

    /// Looks up as `get_full` does, and returns a seal of the value.
    ///
    /// The view borrows the bytes before the value, the seal the rest.
    #[inline]
    pub fn get_full_seal<Q: Query<K>>(
        this: ArchiveSeal<'a, IndexMapOf<K, V, H, W>>,
        key: &Q,
    ) -> Option<(usize, View<'a, K>, Seal<'a, V>)>
        requires map { IsIndexSeal W.word K.spec V.spec this }
        ensures inside { IfSome result (λ full. LiesIn V.spec full.2) }
        ensures viewable { IfSome result (λ full. IsValidView K.spec full.1) }
        ensures walked { IfSome result (IsFullSeal W.word K.spec V.spec this.entry) }
        ensures finds { FoundKeyHas (index_in W.word K.spec V.spec this.entry)
            (lookup_of H.KeyHasher K.KeyElement Q.Query key.now)
            (IsFullSealAt result) }
    {
        let index = Self::index_of_key_in(&this, key);
        Self::full_seal_of(this, index)
    }

    /// Looks up as `get_key_value_with` does, and returns a seal as `get_full_seal` does.
    #[inline]
    pub fn get_key_value_seal_with<Q: KeyHash, F: Fn(&Q, View<'_, K>) -> bool>(
        this: ArchiveSeal<'a, IndexMapOf<K, V, H, W>>,
        key: &Q,
        cmp: F,
    ) -> Option<(View<'a, K>, Seal<'a, V>)>
        requires map { IsIndexSeal W.word K.spec V.spec this }
        requires callable { CanCompareKeysOf (index_in W.word K.spec V.spec this)
            (F.pre cmp key) }
        ensures inside { IfSome result (λ pair. LiesIn V.spec pair.1) }
        ensures viewable { IfSome result (λ pair. IsValidView K.spec pair.0) }
        ensures walked { IfSome result (IsPairSeal W.word K.spec V.spec this.entry) }
        ensures finds { FoundByHas (index_in W.word K.spec V.spec this.entry)
            (lookup_hashes H.KeyHasher K.KeyElement Q.KeyHash key.now)
            (F.post cmp key.entry) (SealsPair W.word K.spec V.spec this.entry result) }
    {
        let index = Self::index_with_in(&this, key, cmp);
        Self::pair_seal_of(this, index)
    }

    /// Looks up as `get_key_value` does, and returns a seal of the value.
    ///
    /// The view borrows the bytes before the value, the seal the rest.
    #[inline]
    pub fn get_key_value_seal<Q: Query<K>>(
        this: ArchiveSeal<'a, IndexMapOf<K, V, H, W>>,
        key: &Q,
    ) -> Option<(View<'a, K>, Seal<'a, V>)>
        requires map { IsIndexSeal W.word K.spec V.spec this }
        ensures inside { IfSome result (λ pair. LiesIn V.spec pair.1) }
        ensures viewable { IfSome result (λ pair. IsValidView K.spec pair.0) }
        ensures walked { IfSome result (IsPairSeal W.word K.spec V.spec this.entry) }
        ensures finds { FoundKeyHas (index_in W.word K.spec V.spec this.entry)
            (lookup_of H.KeyHasher K.KeyElement Q.Query key.now)
            (SealsPair W.word K.spec V.spec this.entry result) }
    {
        let index = Self::index_of_key_in(&this, key);
        Self::pair_seal_of(this, index)
    }

    /// Looks up as `get_with` does, and returns a seal as `get_seal` does.
    #[inline]
    pub fn get_seal_with<Q: KeyHash, F: Fn(&Q, View<'_, K>) -> bool>(
        this: ArchiveSeal<'a, IndexMapOf<K, V, H, W>>,
        key: &Q,
        cmp: F,
    ) -> Option<Seal<'a, V>>
        requires map { IsIndexSeal W.word K.spec V.spec this }
        requires callable { CanCompareKeysOf (index_in W.word K.spec V.spec this)
            (F.pre cmp key) }
        ensures inside { IfSome result (LiesIn V.spec) }
        ensures viewable { IfSome result (λ value. Viewable V.spec (bytes_in value)
            (seal_pos value)) }
        ensures walked { IfSome result (IsValueSeal W.word K.spec V.spec this.entry) }
        ensures finds { FoundByHas (index_in W.word K.spec V.spec this.entry)
            (lookup_hashes H.KeyHasher K.KeyElement Q.KeyHash key.now)
            (F.post cmp key.entry) (SealsValue W.word K.spec V.spec this.entry result) }
    {
        let index = Self::index_with_in(&this, key, cmp);
        Self::value_seal_of(this, index)
    }

    /// Looks up as `get` does, and returns a seal of the value over the whole archive.
    ///
    /// The contract of `found_with` also covers the bytes of the archive afterwards.
    ///
    /// # Examples
    ///
    /// ```rust
    /// type Small = IndexMapOf<i8, i8>;
    ///
    /// let whole = access_mut::<Small>(bytes)?;
    /// match ArchivedIndexMap::get_seal(whole, &key) {
    ///     Some(mut seal) => {
    ///         let before = seal.to_native();
    ///         seal.set(value);
    ///         Ok(Some((before, seal.to_native())))
    ///     }
    ///     None => Ok(None),
    /// }
    /// ```
    #[inline]
    pub fn get_seal<Q: Query<K>>(
        this: ArchiveSeal<'a, IndexMapOf<K, V, H, W>>,
        key: &Q,
    ) -> Option<Seal<'a, V>>
        requires map { IsIndexSeal W.word K.spec V.spec this }
        ensures inside { IfSome result (LiesIn V.spec) }
        ensures viewable { IfSome result (λ value. Viewable V.spec (bytes_in value)
            (seal_pos value)) }
        ensures walked { IfSome result (IsValueSeal W.word K.spec V.spec this.entry) }
        ensures finds { FoundKeyHas (index_in W.word K.spec V.spec this.entry)
            (lookup_of H.KeyHasher K.KeyElement Q.Query key.now)
            (SealsValue W.word K.spec V.spec this.entry result) }
    {
        let index = Self::index_of_key_in(&this, key);
        Self::value_seal_of(this, index)
    }
}
