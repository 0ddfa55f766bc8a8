//! Tests of values of index maps that are written in place.
ghost use Rattle.std.specs.Prelude.{IfOk, IfSome, ◌<◌};
ghost use Rattle.rkyv_base.specs.{Viewable, entry_spec};
ghost use Rattle.rkyv_table.specs.{len_at};
ghost use Rattle.rkyv_index.specs.{index_spec};

use crate::tests::archives::{map_in_a_map, one_pair, wide_pair};
use crate::tests::opened::{small_map, small_seal};
use rkyv_base::access::access;
use rkyv_base::{
    Element, Narrow, Represents, Scalar, VerifyError, View, Wide, access_in, access_mut,
    access_mut_in, found_pos,
};
use rkyv_index::map::in_place::set_value_at;
use rkyv_index::map::laws::nested::{
    nested_writes_keep_index_maps, nested_writes_keep_lookups, nested_writes_represent,
    value_writes_are_nested,
};
use rkyv_index::map::laws::{
    value_writes_keep_index_maps, value_writes_keep_lookups, values_written_represent,
};
use rkyv_index::{ArchivedIndexMap, IndexMapOf, IndexWidth, OrderedPairs};
use rkyv_keys::{KeyElement, Query};
use rkyv_scan::{FxHasher64, KeyHasher};
use test_support::archives::four_entries;
use test_support::changes::with_bytes;

type Small = IndexMapOf<i8, i8>;

type SmallOf<W> = IndexMapOf<i8, i8, FxHasher64, W>;

// Returns the value of a key, by a plain lookup.
fn value_of(bytes: &[u8], key: i8) -> Result<Option<i8>, VerifyError> {
    Ok(small_map(bytes)?.get(&key).map(|value| value.to_native()))
}

// Writes a number by a found seal, after what is read before.
macro_rules! write_found {
    ($found:expr, $pattern:pat => $seal:ident, $value:expr; $before:expr) => {
        match $found {
            Some($pattern) => {
                let before = $before;
                $seal.set($value);
                Ok(Some(before))
            }
            None => Ok(None),
        }
    };
}

type Full = Result<Option<(usize, i8, i8)>, VerifyError>;

type Pair = Result<Option<(i8, i8)>, VerifyError>;

// Writes a number over the value of a key. Returns the index, the key, and the value before that.
fn replace<W: IndexWidth>(bytes: &mut [u8], key: i8, value: i8) -> Full {
    let found = ArchivedIndexMap::get_full_seal(access_mut_in::<W, SmallOf<W>>(bytes)?, &key);
    write_found!(found, (index, stored, mut seal) => seal, value;
        (index, stored.to_native(), seal.to_native()))
}

// Does the same by a comparison that always returns `accepts`.
fn replace_by(bytes: &mut [u8], key: i8, value: i8, accepts: bool) -> Full {
    let whole = small_seal(bytes)?;
    let accept = |_: &i8, _: View<'_, i8>| accepts;
    let found = ArchivedIndexMap::get_full_seal_with(whole, &key, accept);
    write_found!(found, (index, stored, mut seal) => seal, value;
        (index, stored.to_native(), seal.to_native()))
}

// Does the same by `get_key_value_seal`. Returns the key, and the value before the write.
fn replace_beside_key(bytes: &mut [u8], key: i8, value: i8) -> Pair {
    let found = ArchivedIndexMap::get_key_value_seal(small_seal(bytes)?, &key);
    write_found!(found, (stored, mut seal) => seal, value; (stored.to_native(), seal.to_native()))
}

// Does the same by a comparison that always returns `accepts`.
fn replace_beside_key_by(bytes: &mut [u8], key: i8, value: i8, accepts: bool) -> Pair {
    let whole = small_seal(bytes)?;
    let accept = |_: &i8, _: View<'_, i8>| accepts;
    let found = ArchivedIndexMap::get_key_value_seal_with(whole, &key, accept);
    write_found!(found, (stored, mut seal) => seal, value; (stored.to_native(), seal.to_native()))
}

// Writes a number over the value of a key. Returns the values before and after the write.
fn replace_value(bytes: &mut [u8], key: i8, value: i8) -> Pair {
    let whole = access_mut::<Small>(bytes)?;
    match ArchivedIndexMap::get_seal(whole, &key) {
        Some(mut seal) => {
            let before = seal.to_native();
            seal.set(value);
            Ok(Some((before, seal.to_native())))
        }
        None => Ok(None),
    }
}

// Does the same by a comparison that always returns `accepts`.
fn replace_value_by(
    bytes: &mut [u8],
    key: i8,
    value: i8,
    accepts: bool,
) -> Result<Option<i8>, VerifyError> {
    let whole = small_seal(bytes)?;
    let accept = |_: &i8, _: View<'_, i8>| accepts;
    let found = ArchivedIndexMap::get_seal_with(whole, &key, accept);
    write_found!(found, mut seal => seal, value; seal.to_native())
}

#[test]
fn found_values_are_written_in_place(rt: HostRuntime) {
    value_writes_keep_index_maps::<i8, i8, FxHasher64, Narrow>();
    value_writes_keep_lookups::<i8, i8, i8, FxHasher64, Narrow>();
    values_written_represent::<i8, i8, i8, i8, FxHasher64, Narrow>();
    let mut bytes = one_pair();
    expect_eq!(rt; replace::<Narrow>(&mut bytes, 1, -1), Ok(Some((0, 1, 2))));
    expect_eq!(rt; value_of(&bytes, 1), Ok(Some(-1)));
    expect_eq!(rt; bytes, with_bytes(one_pair(), 40, &[0xff]));
    let mut bytes = wide_pair();
    expect_eq!(rt; replace::<Wide>(&mut bytes, 1, -1), Ok(Some((0, 1, 2))));
    expect_eq!(rt; replace::<Wide>(&mut bytes, 2, 7), Ok(None));
    expect_eq!(rt; bytes, with_bytes(wide_pair(), 48, &[0xff]));
    let mut bytes = four_entries();
    expect_eq!(rt; replace::<Narrow>(&mut bytes, 7, 80), Ok(Some((3, 7, 8))));
    expect_eq!(rt; replace_by(&mut bytes, 3, 40, true), Ok(Some((1, 3, 4))));
    expect_eq!(rt; replace_beside_key(&mut bytes, 5, 60), Ok(Some((5, 6))));
    expect_eq!(rt; replace_value(&mut bytes, 1, 20), Ok(Some((2, 20))));
    expect_eq!(rt; bytes, with_bytes(four_entries(), 51, &[1, 20, 3, 40, 5, 60, 7, 80]));
    let (mut pair_bytes, mut value_bytes) = (four_entries(), four_entries());
    expect_eq!(rt; replace_beside_key_by(&mut pair_bytes, 5, 60, true), Ok(Some((5, 6))));
    expect_eq!(rt; replace_value_by(&mut value_bytes, 5, 60, true), Ok(Some(6)));
    expect_eq!(rt; [pair_bytes, value_bytes], [with_bytes(four_entries(), 56, &[60]); 2]);
    let mut bytes = four_entries();
    expect_eq!(rt; replace::<Narrow>(&mut bytes, 9, 80), Ok(None));
    expect_eq!(rt; replace_by(&mut bytes, 3, 40, false), Ok(None));
    expect_eq!(rt; replace_beside_key(&mut bytes, 2, 60), Ok(None));
    expect_eq!(rt; replace_value(&mut bytes, 2, 20), Ok(None));
    expect_eq!(rt; replace_beside_key_by(&mut bytes, 5, 60, false), Ok(None));
    expect_eq!(rt; replace_value_by(&mut bytes, 5, 60, false), Ok(None));
    expect_eq!(rt; bytes, four_entries());
}

// Returns the index of a key, by a plain lookup in the map at `root`.
pub(crate) fn index_of<K: KeyElement, V: Element, H: KeyHasher, W: IndexWidth, Q: Query<K>>(
    bytes: &[u8],
    root: u64,
    key: &Q,
) -> Option<usize>
    requires { Viewable (index_spec W.word (entry_spec K.spec V.spec)) bytes.now root }
    ensures { IfSome result (λ index. index < len_at W.word bytes.now root) }
{
    ArchivedIndexMap::<K, V, H, W>::of(View::new(bytes, root)).get_index_of(key)
}

// Validates an archive, and writes a value over that of a key, by its index. Returns the index.
fn write_at<A, K: KeyElement + Represents<A>, N: Scalar, H: KeyHasher, W: IndexWidth, Q: Query<K>>(
    bytes: &mut [u8],
    key: &Q,
    value: N,
) -> Result<Option<usize>, VerifyError> {
    let root = access_in::<W, IndexMapOf<K, N, H, W>>(&*bytes)?.pos();
    match index_of::<K, N, H, W, Q>(&*bytes, root, key) {
        Some(index) => {
            set_value_at::<A, K, N, H, W>(bytes, root, index, value);
            Ok(Some(index))
        }
        None => Ok(None),
    }
}

// Does the same as `write_at`, with small numbers.
fn write_small(bytes: &mut [u8], key: i8, value: i8) -> Result<Option<usize>, VerifyError> {
    write_at::<i8, i8, i8, FxHasher64, Narrow, i8>(bytes, &key, value)
}

#[test]
fn a_value_is_written_by_its_index(rt: HostRuntime) {
    let mut bytes = four_entries();
    expect_eq!(rt; write_small(&mut bytes, 5, -1), Ok(Some(2)));
    expect_eq!(rt; write_small(&mut bytes, 9, 0), Ok(None));
    expect_eq!(rt; value_of(&bytes, 5), Ok(Some(-1)));
    expect_eq!(rt; bytes, with_bytes(four_entries(), 56, &[0xff]));
}

// Returns the position of the value of a key, which is valid.
pub(crate) fn value_pos<V: Element>(bytes: &[u8], key: i8) -> Result<Option<u64>, VerifyError>
    ensures { IfOk result (λ found. IfSome found (Viewable V.spec bytes.now)) }
{
    let map = ArchivedIndexMap::of(access::<IndexMapOf<i8, V>>(bytes)?);
    Ok(found_pos(map.get(&key)))
}

// Writes the value of a key of the inner map of a key. Returns `false` if one of them isn't found.
fn write_inner(bytes: &mut [u8], outer: i8, key: i8, value: i8) -> Result<bool, VerifyError> {
    let Some(pos) = value_pos::<Small>(&*bytes, outer)? else {
        return Ok(false);
    };
    match index_of::<i8, i8, FxHasher64, Narrow, i8>(&*bytes, pos, &key) {
        Some(index) => {
            set_value_at::<i8, i8, i8, FxHasher64, Narrow>(bytes, pos, index, value);
            Ok(true)
        }
        None => Ok(false),
    }
}

#[test]
fn a_value_of_an_inner_map_is_written(rt: HostRuntime) {
    value_writes_are_nested::<i8, i8, Narrow>();
    nested_writes_keep_index_maps::<i8, Small, FxHasher64, Narrow>();
    nested_writes_keep_lookups::<i8, Small, i8, FxHasher64, Narrow>();
    nested_writes_represent::<i8, OrderedPairs<i8, i8>, i8, Small, FxHasher64, Narrow>();
    let mut bytes = map_in_a_map();
    expect_eq!(rt; write_inner(&mut bytes, 1, 1, 7), Ok(true));
    expect_eq!(rt; write_inner(&mut bytes, 1, 2, 8), Ok(false));
    expect_eq!(rt; write_inner(&mut bytes, 2, 1, 9), Ok(false));
    expect_eq!(rt; bytes, with_bytes(map_in_a_map(), 80, &[7]));
}
