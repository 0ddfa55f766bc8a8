//! Index maps: the map in a valid archive, lookups of keys, and items by index.

ghost use Rattle.std.specs.Prelude.{◌+◌, ◌<◌, ◌^◌, ◌≡◌};
ghost use Rattle.rkyv_index.specs.{index_bytes, index_pos};
ghost use Rattle.ffi_calls.specs.{FindsFirstIndexed, FindsIndexed, IsHeaderOf, IsIndexArchive};
ghost use Rattle.ffi_calls.specs.{IsIndexItem, IsItemAtIndex, StoresItemsFrom, StoresListed};
ghost use Rattle.ffi_calls.specs.{found_index, fx_pairs, index_at, index_in, index_root};
ghost use Rattle.ffi_calls.specs.{query_of_key};

use crate::any_value::{AnyItem, IndexedValue, ToAny};
use crate::types::{StoredKey, StoredValue};
use rkyv_base::{Element, Represents, access_unchecked};
use rkyv_index::map::laws::lookups_find_listed;
use rkyv_index::{ArchivedIndexMap, IndexMapOf, IndexWidth};
use rkyv_keys::{KeyElement, NativeKey};
use rkyv_scan::FxHasher64;
use rkyv_table::table::decoded::Decoded;

/// Returns the decoded header of the index map in a valid archive.
pub(crate) fn index_header_of<K: Element, V: Element, W: IndexWidth>(archive: &[u8]) -> Decoded
    requires { IsIndexArchive W.word W.LIMIT K.spec V.spec archive.now }
    ensures { IsHeaderOf (index_in W.word K.spec V.spec archive.now) result }
{
    ArchivedIndexMap::of(access_unchecked::<IndexMapOf<K, V, FxHasher64, W>>(archive)).header()
}

/// Returns the index map in a valid archive, by its decoded header.
#[inline]
pub(crate) fn index_of<'a, K: Element, V: Element, W: IndexWidth>(
    archive: &'a [u8],
    header: &Decoded,
) -> ArchivedIndexMap<'a, K, V, FxHasher64, W>
    requires archive { IsIndexArchive W.word W.LIMIT K.spec V.spec archive.now }
    requires header { IsHeaderOf (index_in W.word K.spec V.spec archive.now) header.now }
    ensures bytes { index_bytes result ≡ archive.now }
    ensures pos { index_pos result ≡ index_root W.word K.spec V.spec archive.now }
{
    let root = access_unchecked::<IndexMapOf<K, V, FxHasher64, W>>(archive);
    ArchivedIndexMap::with_header(root, *header)
}

/// Looks up a key in a valid archive, and returns the index and the value of its pair.
///
/// Returns `None` if the lookup doesn't find the key.
#[inline]
pub(crate) fn find_in<
    'a,
    A: NativeKey<K>,
    B,
    K: KeyElement + Represents<A>,
    V: StoredValue<B>,
    W: IndexWidth,
>(archive: &'a [u8], header: &Decoded, key: &A) -> Option<IndexedValue<'a>>
    requires archive { IsIndexArchive W.word W.LIMIT K.spec V.spec archive.now }
    requires header { IsHeaderOf (index_in W.word K.spec V.spec archive.now) header.now }
    ensures finds { let m = index_in W.word K.spec V.spec archive.now in FindsIndexed m V.any
        (found_index m (A.calls key.now) (A.fits key.now archive.now)) result }
    ensures first { FindsFirstIndexed (index_in W.word K.spec V.spec archive.now)
        (query_of_key K.represents K.key_calls (A.eq key.now)) V.represents V.is_of result }
{
    lookups_find_listed::<A, B, K, V, FxHasher64, W>();
    match index_of::<K, V, W>(archive, header).get_full(key) {
        Some((index, _, value)) => Some(IndexedValue {
            index,
            value: V::to_any(value),
        }),
        None => None,
    }
}

/// Returns the item at an index of a map, or `None` if the index isn't below the length.
#[inline]
fn item_of<'a, K: ToAny, V: ToAny, W: IndexWidth>(
    map: ArchivedIndexMap<'a, K, V, FxHasher64, W>,
    index: usize,
) -> Option<AnyItem<'a>>
    requires { index + 1 < 2 ^ 64 }
    ensures { let m = index_at map.entry in
        IsItemAtIndex m (IsIndexItem m K.any V.any) index result }
{
    let (key, value) = map.get_index(index)?;
    Some(AnyItem {
        next: (index + 1) as u64,
        key: K::to_any(key),
        value: V::to_any(value),
    })
}

/// Stores the items from an index on of the map in a valid archive, and returns their number.
pub(crate) fn items_in<'a, A, B, K: StoredKey<A>, V: StoredValue<B>, W: IndexWidth>(
    archive: &'a [u8],
    header: &Decoded,
    from: usize,
    items: &mut [AnyItem<'a>],
) -> usize
    requires archive { IsIndexArchive W.word W.LIMIT K.spec V.spec archive.now }
    requires header { IsHeaderOf (index_in W.word K.spec V.spec archive.now) header.now }
    ensures stores { StoresItemsFrom (index_in W.word K.spec V.spec archive.now) K.any V.any from
        items.old result items.new }
    ensures listed { StoresListed (index_in W.word K.spec V.spec archive.now)
        (fx_pairs K.represents V.represents K.key_calls) K.is_of V.is_of from items.old result
        items.new }
{
    let map = index_of::<K, V, W>(archive, header);
    let number = items.len().min(map.len().saturating_sub(from));
    for count in 0..number {
        items[count] = item_of::<K, V, W>(map, from + count).unwrap();
    }
    number
}
