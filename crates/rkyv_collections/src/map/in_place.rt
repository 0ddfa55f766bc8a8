//! Writing values of a map in place.
//!
//! A write in place changes the value of a key that is in the map. It adds and removes no key.
//!
//! | To write | Call | Takes |
//! |---|---|---|
//! | a scalar | `set_value_of` | bytes, a native key and the scalar |
//! | an inline text in upper case | `make_ascii_uppercase_of` | bytes and a native key |
//! | a value of any type | `ArchivedHashMap::found_with` | bytes, a query and a closure |
//! | a value of any type, by a comparison | `ArchivedHashMap::found_by` | two closures |
//! | a value by its seal | `ArchivedHashMap::get_seal` | a seal of the map and a query |
//! | a value while its key is read | `ArchivedHashMap::get_key_value_seal` | the same |
//! | each value | `ArchivedHashMap::for_each_value` | bytes and a closure |
//! | some values | `ArchivedHashMap::values_over` or `values_seal` | bytes or a seal of the map |
//! | each value while its key is read | `ArchivedHashMap::iter_over` or `iter_seal` | the same |
//!
//! Take the first call that fits. The contracts of the first two also have the list that the map
//! represents afterwards. The contracts of `found_with`, `found_by` and `for_each_value` cover all
//! bytes of the archive afterwards.
//!
//! `make_ascii_uppercase_of` is in `map::in_place::text`.
//! `get_seal_with` and `get_key_value_seal_with` look up by a comparison.
//! If the map is a value of another map, `map::laws::nested` has the laws of the outer map.
//!
//! In an untrusted archive, a lookup may read all control bytes.
ghost use Rattle.std.specs.Prelude.{IfSome, length, ℕ, ◌+◌, ◌≡◌, ◌≤◌};
ghost use Rattle.rkyv_base.specs.{Viewable, value_pos};
ghost use Rattle.rkyv_table.specs.{MayWriteIn, WritesAmongParts, WritesIn};
ghost use Rattle.rkyv_collections.specs.{CanCompareKeysAt, FoundValueByHasAt, FoundValueHasAt};
ghost use Rattle.rkyv_collections.specs.{IsKeyPosAt, SetsFirst, SetsValue, WritesFoundBy, map_at};
ghost use Rattle.rkyv_collections.specs.{map_bytes, map_pos, map_spec, value_lookup_of};
ghost use Rattle.rkyv_keys.specs.{lookup_hashes, lookup_of};

mod for_each;
pub mod iter_seal;
mod sealed;
pub mod text;

use crate::map::ArchivedHashMap;
use rkyv_base::{Element, Represents, Scalar, View, Width, found_pos, set_at};
use rkyv_keys::{KeyElement, KeyHash, NativeKey, Query};
use rkyv_scan::KeyHasher;

#[inline]
fn map_over<K: Element, V: Element, H, W: Width>(
    archive: &[u8],
    root: u64,
) -> ArchivedHashMap<'_, K, V, H, W>
    requires { Viewable (map_spec W.word K.spec V.spec) archive.now root }
    ensures bytes { map_bytes result ≡ archive.now }
    ensures pos { map_pos result ≡ root }
{
    ArchivedHashMap::of(View::new(archive, root))
}

impl<'a, K: KeyElement, V: Element, H: KeyHasher, W: Width> ArchivedHashMap<'a, K, V, H, W> {
    /// Returns the position of the value that a lookup finds in the map at `root`.
    #[inline]
    pub(crate) fn value_pos_in<Q: Query<K>>(archive: &[u8], root: u64, key: &Q) -> Option<u64>
        requires map { Viewable (map_spec W.word K.spec V.spec) archive.now root }
        ensures walked { IfSome result (λ pos. (key_pos : ℕ)
            × IsKeyPosAt W.word K.spec V.spec archive.now root key_pos
            × (pos ≡ value_pos K.spec V.spec key_pos)) }
        ensures inside { IfSome result (λ pos. pos + V.spec.size ≤ length archive.now) }
        ensures viewable { IfSome result (λ pos. Viewable V.spec archive.now pos) }
        ensures finds { FoundValueHasAt (map_at W.Word K.HasSpec V.HasSpec archive.now root)
            (lookup_of H.KeyHasher K.KeyElement Q.Query key.now)
            (λ pos. result ≡ pos) }
    {
        found_pos(map_over::<K, V, H, W>(archive, root).get(key))
    }

    #[inline]
    fn value_pos_by<Q: KeyHash, F: Fn(&Q, View<'_, K>) -> bool>(
        archive: &[u8],
        root: u64,
        key: &Q,
        cmp: F,
    ) -> Option<u64>
        requires map { Viewable (map_spec W.word K.spec V.spec) archive.now root }
        requires callable { CanCompareKeysAt W.word K.spec V.spec archive.now root
            (F.pre cmp key) }
        ensures inside { IfSome result (λ pos. pos + V.spec.size ≤ length archive.now) }
        ensures viewable { IfSome result (λ pos. Viewable V.spec archive.now pos) }
        ensures finds { FoundValueByHasAt (map_at W.Word K.HasSpec V.HasSpec archive.now root)
            (lookup_hashes H.KeyHasher K.KeyElement Q.KeyHash key.now)
            (F.post cmp key.entry) (λ pos. result ≡ pos) }
    {
        found_pos(map_over::<K, V, H, W>(archive, root).get_with(key, cmp))
    }

    /// Calls `write` with the archive and the position of a key's value, in the map at `root`.
    ///
    /// Returns the result of `write`, or `None` if no key is found. `write` may write any bytes.
    #[inline]
    pub fn found_with<Q: Query<K>, R, F: FnOnce(&mut [u8], u64) -> R>(
        archive: &mut [u8],
        root: u64,
        key: &Q,
        write: F,
    ) -> Option<R>
        requires map { Viewable (map_spec W.word K.spec V.spec) archive.old root }
        requires callable { MayWriteIn F.pre V.spec write archive.old }
        ensures { FoundValueHasAt (map_at W.Word K.HasSpec V.HasSpec archive.old root)
            (lookup_of H.KeyHasher K.KeyElement Q.Query key.now)
            (WritesIn F.post write archive.old result archive.new) }
    {
        let pos = Self::value_pos_in(&*archive, root, key)?;
        Some(write(archive, pos))
    }

    /// Writes as `found_with` does, and looks up as `get_with` does.
    #[inline]
    pub fn found_by<Q: KeyHash, R, F: Fn(&Q, View<'_, K>) -> bool, G: FnOnce(&mut [u8], u64) -> R>(
        archive: &mut [u8],
        root: u64,
        key: &Q,
        cmp: F,
        write: G,
    ) -> Option<R>
        requires map { Viewable (map_spec W.word K.spec V.spec) archive.old root }
        requires callable { CanCompareKeysAt W.word K.spec V.spec archive.old root
            (F.pre cmp key) }
        requires writable { MayWriteIn G.pre V.spec write archive.old }
        ensures { WritesFoundBy (map_at W.Word K.HasSpec V.HasSpec archive.old root)
            (lookup_hashes H.KeyHasher K.KeyElement Q.KeyHash key.now) (F.post cmp key.entry)
            (WritesIn G.post write) result archive.new }
    {
        let pos = Self::value_pos_by(&*archive, root, key, cmp)?;
        Some(write(archive, pos))
    }
}

/// Writes the value of a key in the map at `root`. Returns `false` if the key isn't found.
///
/// In an untrusted archive, the lookup may read all control bytes.
///
/// # Examples
///
/// ```rust
/// type Prices = HashMapOf<Text, u32>;
///
/// // Writes the price of a name. Returns `false` if the map has no such name.
/// fn set_price(archive: &mut [u8], name: &str, price: u32) -> Result<bool, VerifyError> {
///     let root = access::<Prices>(&*archive)?.pos();
///     Ok(set_value_of::<&str, Text, u32, FxHasher64, Narrow>(archive, root, &name, price))
/// }
/// ```
pub fn set_value_of<
    A: NativeKey<K>,
    K: KeyElement + Represents<A>,
    N: Scalar,
    H: KeyHasher,
    W: Width,
>(archive: &mut [u8], root: u64, key: &A, value: N) -> bool
    requires map { Viewable (map_spec W.word K.spec N.spec) archive.old root }
    ensures sets { SetsValue (map_at W.Word K.HasSpec N.HasSpec archive.old root)
        (lookup_of H.KeyHasher K.KeyElement A.Query key.now)
        N.encoding value result archive.new }
    ensures listed { SetsFirst (map_at W.Word K.HasSpec N.HasSpec archive.old root)
        (value_lookup_of H.KeyHasher K.KeyElement K.represents (A.eq key.now))
        N.encoding value result archive.new }
    ensures parts { WritesAmongParts (map_spec W.word K.spec N.spec)
        archive.old archive.new root }
{
    match ArchivedHashMap::<K, N, H, W>::value_pos_in(&*archive, root, key) {
        Some(pos) => {
            set_at(archive, pos as usize, value);
            true
        }
        None => false,
    }
}
