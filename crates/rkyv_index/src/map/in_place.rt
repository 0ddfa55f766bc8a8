//! Writing values of an index map in place.
//!
//! A write in place changes the value of a key that is in the map. It adds and removes no key.
//!
//! | To write | Call | Takes |
//! |---|---|---|
//! | a scalar | `set_value_of` | bytes, a native key and the scalar |
//! | an inline text in upper case | `make_ascii_uppercase_of` | bytes and a native key |
//! | a scalar at an index | `set_value_at` | bytes, an index and the scalar |
//! | an inline text at an index in upper case | `make_ascii_uppercase_at` | bytes and an index |
//! | a value of any type | `ArchivedIndexMap::found_with` | bytes, a query and a closure |
//! | a value of any type, by a comparison | `ArchivedIndexMap::found_by` | two closures |
//! | a value by its seal | `ArchivedIndexMap::get_seal` | a seal of the map and a query |
//! | a value while its key is read | `ArchivedIndexMap::get_key_value_seal` | the same |
//! | the same, with the index | `ArchivedIndexMap::get_full_seal` | the same |
//!
//! Take the first call that fits. The contracts of the first four also have the list that the map
//! represents afterwards. The contracts of `found_with` and `found_by` cover all bytes of the
//! archive afterwards.
//!
//! `make_ascii_uppercase_of` and `make_ascii_uppercase_at` are in `map::in_place::text`.
//! The sealed lookups that end in `_with` take a comparison. `map::laws` has the laws of the map
//! afterwards. If the map is a value of another map or index map, `map::laws::nested` has the laws
//! of the outer one.
ghost use Rattle.std.specs.Prelude.{IfSome, length, ◌+◌, ◌<◌, ◌≡◌, ◌≤◌};
ghost use Rattle.rkyv_base.specs.{ScalarRepresents, Viewable, entry_spec, value_pos, with_value};
ghost use Rattle.rkyv_keys.specs.{archived_hash, lookup_hashes, lookup_of, native_pairs};
ghost use Rattle.rkyv_table.specs.{MayWriteIn, WritesAmongParts, WritesIn, len_at};
ghost use Rattle.rkyv_index.specs.{CanCompareKeysOf, FoundKeyHas, FoundValueByHas, FoundValueHas};
ghost use Rattle.rkyv_index.specs.{IndexRepresents, IsIndex};
ghost use Rattle.rkyv_index.specs.{KeepsIndexMap, SetsFirst, SetsListed, SetsValue, index_kind};
ghost use Rattle.rkyv_index.specs.{WritesFoundBy, index_over, index_spec, pair_at};

mod sealed;
pub mod text;

use crate::map::read::accessors::begin;
use crate::map::read::entries::entry_in;
use crate::map::{ArchivedIndexMap, IndexMapOf};
use crate::width::IndexWidth;
use rkyv_base::{Element, Represents, Scalar, View, found_pos, set_at};
use rkyv_keys::{KeyElement, KeyHash, NativeKey, Query};
use rkyv_scan::KeyHasher;

#[inline]
fn value_pos_at<K: Element, V: Element, H, W: IndexWidth>(
    archive: &[u8],
    root: u64,
    index: usize,
) -> u64
    requires map { Viewable (index_spec W.word (entry_spec K.spec V.spec)) archive.now root }
    requires below { index < len_at W.word archive.now root }
    ensures at { result ≡ value_pos K.spec V.spec
        (pair_at W.word K.spec V.spec archive.now root index) }
    ensures inside { result + V.spec.size ≤ length archive.now }
{
    let map = View::<'_, IndexMapOf<K, V, H, W>>::new(archive, root);
    entry_in(map, begin(map), index).value().pos()
}

impl<'a, K: KeyElement, V: Element, H: KeyHasher, W: IndexWidth> ArchivedIndexMap<'a, K, V, H, W> {
    #[inline]
    fn value_pos_in<Q: Query<K>>(archive: &[u8], root: u64, key: &Q) -> Option<u64>
        requires map { Viewable (index_spec W.word (entry_spec K.spec V.spec)) archive.now root }
        ensures inside { IfSome result (λ pos. pos + V.spec.size ≤ length archive.now) }
        ensures viewable { IfSome result (λ pos. Viewable V.spec archive.now pos) }
        ensures finds { FoundValueHas (index_over W.Word K.HasSpec V.HasSpec archive.now root)
            (lookup_of H.KeyHasher K.KeyElement Q.Query key.now)
            (λ pos. result ≡ pos) }
    {
        let map = ArchivedIndexMap::<K, V, H, W>::of(View::new(archive, root));
        found_pos(map.get(key))
    }

    #[inline]
    fn value_pos_by<Q: KeyHash, F: Fn(&Q, View<'_, K>) -> bool>(
        archive: &[u8],
        root: u64,
        key: &Q,
        cmp: F,
    ) -> Option<u64>
        requires map { Viewable (index_spec W.word (entry_spec K.spec V.spec)) archive.now root }
        requires callable { CanCompareKeysOf
            (index_over W.Word K.HasSpec V.HasSpec archive.now root) (F.pre cmp key) }
        ensures inside { IfSome result (λ pos. pos + V.spec.size ≤ length archive.now) }
        ensures viewable { IfSome result (λ pos. Viewable V.spec archive.now pos) }
        ensures finds { FoundValueByHas (index_over W.Word K.HasSpec V.HasSpec archive.now root)
            (lookup_hashes H.KeyHasher K.KeyElement Q.KeyHash key.now)
            (F.post cmp key.entry) (λ pos. result ≡ pos) }
    {
        let map = ArchivedIndexMap::<K, V, H, W>::of(View::new(archive, root));
        found_pos(map.get_with(key, cmp))
    }

    #[inline]
    fn index_in<Q: Query<K>>(archive: &[u8], root: u64, key: &Q) -> Option<usize>
        requires map { Viewable (index_spec W.word (entry_spec K.spec V.spec)) archive.now root }
        ensures below { IfSome result (λ index. index < len_at W.word archive.now root) }
        ensures finds { FoundKeyHas (index_over W.Word K.HasSpec V.HasSpec archive.now root)
            (lookup_of H.KeyHasher K.KeyElement Q.Query key.now)
            (IsIndex result) }
    {
        ArchivedIndexMap::<K, V, H, W>::of(View::new(archive, root)).get_index_of(key)
    }

    /// Calls `write` with the archive and the position of the value that a lookup finds.
    ///
    /// `write` must be callable with the archive and the position of any valid value.
    /// Returns the result of `write`, or `None` if no key is found.
    /// In an untrusted archive, the lookup may read all control bytes.
    #[inline]
    pub fn found_with<Q: Query<K>, R, F: FnOnce(&mut [u8], u64) -> R>(
        archive: &mut [u8],
        root: u64,
        key: &Q,
        write: F,
    ) -> Option<R>
        requires map { Viewable (index_spec W.word (entry_spec K.spec V.spec)) archive.old root }
        requires callable { MayWriteIn F.pre V.spec write archive.old }
        ensures { FoundValueHas (index_over W.Word K.HasSpec V.HasSpec archive.old root)
            (lookup_of H.KeyHasher K.KeyElement Q.Query key.now)
            (WritesIn F.post write archive.old result archive.new) }
    {
        let pos = Self::value_pos_in(&*archive, root, key)?;
        Some(write(archive, pos))
    }

    /// Looks up as `get_with` does, and writes as `found_with` does.
    #[inline]
    pub fn found_by<Q: KeyHash, R, F: Fn(&Q, View<'_, K>) -> bool, G: FnOnce(&mut [u8], u64) -> R>(
        archive: &mut [u8],
        root: u64,
        key: &Q,
        cmp: F,
        write: G,
    ) -> Option<R>
        requires map { Viewable (index_spec W.word (entry_spec K.spec V.spec)) archive.old root }
        requires callable { CanCompareKeysOf
            (index_over W.Word K.HasSpec V.HasSpec archive.old root) (F.pre cmp key) }
        requires writable { MayWriteIn G.pre V.spec write archive.old }
        ensures { WritesFoundBy (index_over W.Word K.HasSpec V.HasSpec archive.old root)
            (lookup_hashes H.KeyHasher K.KeyElement Q.KeyHash key.now) (F.post cmp key.entry)
            (WritesIn G.post write) result archive.new }
    {
        let pos = Self::value_pos_by(&*archive, root, key, cmp)?;
        Some(write(archive, pos))
    }
}

/// Writes the value at `index`, which `get_index_of` returns, of the map at `root` of an archive.
///
/// `A` is the type of the keys in lists that the map represents.
pub fn set_value_at<A, K: KeyElement + Represents<A>, N: Scalar, H: KeyHasher, W: IndexWidth>(
    archive: &mut [u8],
    root: u64,
    index: usize,
    value: N,
)
    requires map { Viewable (index_spec W.word (entry_spec K.spec N.spec))
        archive.old root }
    requires below { index < len_at W.word archive.old root }
    ensures written { archive.new ≡ with_value N.encoding archive.old
        (value_pos K.spec N.spec
        (pair_at W.word K.spec N.spec archive.old root index)) value }
    ensures kept { KeepsIndexMap
        (index_kind W.word K.spec N.spec (archived_hash H.KeyHasher K.KeyElement))
        archive.old archive.new root index }
    ensures listed { SetsListed
        (IndexRepresents W.word K.spec N.spec K.represents (ScalarRepresents N.encoding)
        (archived_hash H.KeyHasher K.KeyElement)) archive.old archive.new root index value }
    ensures parts { WritesAmongParts (index_spec W.word (entry_spec K.spec N.spec))
        archive.old archive.new root }
{
    let pos = value_pos_at::<K, N, H, W>(&*archive, root, index);
    set_at(archive, pos as usize, value);
}

/// Writes the value of a key in the map at `root` of an archive.
///
/// Returns `false` if no key is found. In an untrusted archive, the lookup may read all control
/// bytes.
///
/// # Examples
///
/// ```rust
/// type Prices = IndexMapOf<Text, u32>;
///
/// // Writes the price of a name. Returns `false` if the map has no such name.
/// fn set_price(archive: &mut [u8], name: &str, price: u32) -> Result<bool, VerifyError> {
///     let root = access::<Prices>(&*archive)?.pos();
///     Ok(set_value_of::<&str, Text, u32, FxHasher64, Narrow>(archive, root, &name, price))
/// }
/// ```
pub fn set_value_of<
    A: NativeKey<K>,
    K: KeyElement + Represents<A>,
    N: Scalar,
    H: KeyHasher,
    W: IndexWidth,
>(archive: &mut [u8], root: u64, key: &A, value: N) -> bool
    requires map { Viewable (index_spec W.word (entry_spec K.spec N.spec)) archive.old root }
    ensures sets { SetsValue (index_over W.Word K.HasSpec N.HasSpec archive.old root)
        (lookup_of H.KeyHasher K.KeyElement A.Query key.now)
        N.encoding value result archive.new }
    ensures listed { SetsFirst (index_over W.Word K.HasSpec N.HasSpec archive.old root)
        (native_pairs K.represents (ScalarRepresents N.encoding) H.hasher K.key_calls)
        (A.eq key.now) value result archive.new }
    ensures parts { WritesAmongParts (index_spec W.word (entry_spec K.spec N.spec))
        archive.old archive.new root }
{
    match ArchivedIndexMap::<K, N, H, W>::index_in(&*archive, root, key) {
        Some(index) => {
            set_value_at::<A, K, N, H, W>(archive, root, index, value);
            true
        }
        None => false,
    }
}
