//! Tests of values of maps that are written in place.
ghost use Rattle.std.specs.Prelude.{IfOk, IfSome, ℕ, ◌≡◌};
ghost use Rattle.std.specs.Option.{option_map};
ghost use Rattle.rkyv_base.specs.{Viewable, value_at, value_pos};
ghost use Rattle.rkyv_scan.specs.{hash_of_calls};
ghost use Rattle.rkyv_keys.specs.{hash_at};
ghost use Rattle.rkyv_collections.specs.{IsKeyPosAt, map_at, map_spec};
ghost use Rattle.test_collections.specs.InMaps.{FindsIn, KeepsIn};

use crate::tests::archives::{expect_four_with, text_archive};
use crate::tests::opened::{is_text, number_seal, small_seal, text_seal};
use crate::tests::query_results::{expect_values, number_of};
use rkyv_base::{
    Element, Narrow, Scalar, VerifyError, View, Wide, Width, access_in, access_mut_in, set_at,
};
use rkyv_collections::map::laws::in_place::{
    value_writes_keep_lookups, value_writes_keep_maps, values_written_represent,
};
use rkyv_collections::{ArchivedHashMap, HashMapOf};
use rkyv_keys::{KeyElement, Query};
use rkyv_scan::{FxHasher64, KeyHasher};
use std::alloc::Global;
use std::test::Fail;
use test_support::archives::{four_pairs, one_number, one_wide_number};
use test_support::changes::{change, with_bytes};

type Numbers<W> = HashMapOf<u32, u32, FxHasher64, W>;

// Returns the position of a key's value, by a plain lookup in the map at `root`.
fn value_found<K: KeyElement, V: Element, H: KeyHasher, W: Width, Q: Query<K>>(
    bytes: &[u8],
    root: u64,
    key: &Q,
) -> Option<u64>
    requires { Viewable (map_spec W.word K.spec V.spec) bytes.now root }
    ensures walked { IfSome result (λ pos. (key_pos : ℕ)
        × IsKeyPosAt W.word K.spec V.spec bytes.now root key_pos
        × (pos ≡ value_pos K.spec V.spec key_pos)) }
    ensures finds { let h = hash_of_calls H.hasher (Q.calls key.now) in
        FindsIn (map_at W.Word K.HasSpec V.HasSpec bytes.now root) h (Q.fits key.now)
        (λ key_pos. result ≡ option_map (value_pos K.spec V.spec) key_pos) }
{
    let map = ArchivedHashMap::<K, V, H, W>::of(View::new(bytes, root));
    match map.get(key) {
        Some(value) => Some(value.pos()),
        None => None,
    }
}

// Writes the value at `pos` of the map at `root`, over the plain bytes.
fn write_value<K: KeyElement, N: Scalar, H: KeyHasher, W: Width>(
    bytes: &mut [u8],
    root: u64,
    pos: u64,
    value: N,
)
    requires map { Viewable (map_spec W.word K.spec N.spec) bytes.old root }
    requires key_pos { (key_pos : ℕ) × IsKeyPosAt W.word K.spec N.spec bytes.old
        root key_pos × (pos ≡ value_pos K.spec N.spec key_pos) }
    ensures kept { let key_hash = hash_at H.hasher K.key_calls in
        (i : ℕ) × KeepsIn (map_at W.Word K.HasSpec N.HasSpec bytes.old root) key_hash bytes.new i }
    ensures reads { value_at N.encoding bytes.new pos ≡ value }
{
    set_at(bytes, pos as usize, value);
}

// Writes the value of a key in place, if the map has the key, and looks the key up again.
// Returns the value from the second lookup, which is the new value.
fn stored<K: KeyElement, N: Scalar, H: KeyHasher, W: Width, Q: Query<K>>(
    bytes: &mut [u8],
    root: u64,
    key: &Q,
    value: N,
) -> Option<N>
    requires { Viewable (map_spec W.word K.spec N.spec) bytes.old root }
    ensures { let hash = hash_of_calls H.hasher (Q.calls key.now) in
        FindsIn (map_at W.Word K.HasSpec N.HasSpec bytes.old root) hash (Q.fits key.now)
        (λ at. result ≡ option_map (λ _. value) at) }
{
    let pos = match value_found::<K, N, H, W, Q>(&*bytes, root, key) {
        Some(pos) => pos,
        None => return None,
    };
    write_value::<K, N, H, W>(bytes, root, pos, value);
    match value_found::<K, N, H, W, Q>(&*bytes, root, key) {
        Some(found) => Some(View::<N>::new(&*bytes, found).to_native()),
        None => None,
    }
}

// Does the same as `stored`, after it validates the archive.
fn stored_in<K: KeyElement, N: Scalar, H: KeyHasher, W: Width, Q: Query<K>>(
    bytes: &mut [u8],
    key: &Q,
    value: N,
) -> Result<Option<N>, VerifyError>
    ensures { IfOk result (λ found. IfSome found (λ n. n ≡ value)) }
{
    let root = access_in::<W, HashMapOf<K, N, H, W>>(&*bytes)?.pos();
    Ok(stored::<K, N, H, W, Q>(bytes, root, key, value))
}

// Does the same as `stored_in`, with numbers.
fn number_stored(bytes: &mut [u8], key: u32, value: u32) -> Result<Option<u32>, VerifyError>
    ensures { IfOk result (λ found. IfSome found (λ n. n ≡ value)) }
{
    stored_in::<u32, u32, FxHasher64, Narrow, u32>(bytes, &key, value)
}

#[test]
fn a_stored_value_is_looked_up(rt: HostRuntime) {
    let mut bytes = one_number();
    expect_eq!(rt; number_stored(&mut bytes, 1, 7), Ok(Some(7)));
    expect_eq!(rt; number_stored(&mut bytes, 2, 7), Ok(None));
    expect_eq!(rt; bytes[4], 7);
}

// Writes a number over the value of a key. Returns the values before and after the write.
fn replace(bytes: &mut [u8], key: u32, value: u32) -> Result<Option<(u32, u32)>, VerifyError> {
    let whole = number_seal(bytes)?;
    match ArchivedHashMap::get_seal(whole, &key) {
        Some(mut seal) => {
            let before = seal.to_native();
            seal.set(value);
            Ok(Some((before, seal.to_native())))
        }
        None => Ok(None),
    }
}

// Writes a number by a found seal, after what is read before.
macro_rules! write_found {
    ($found:expr, $pattern:pat => $seal:ident, $value:expr; $before:expr) => {
        match $found {
            Some($pattern) => {
                let before = $before;
                $seal.set($value);
                Ok(Some(before))
            }
            None => Ok(None),
        }
    };
}

type Pair = Result<Option<(u32, u32)>, VerifyError>;

// Does the same by `get_key_value_seal`. Returns the key, and the value before the write.
fn replace_beside_key<W: Width>(bytes: &mut [u8], key: u32, value: u32) -> Pair {
    let found = ArchivedHashMap::get_key_value_seal(access_mut_in::<W, Numbers<W>>(bytes)?, &key);
    write_found!(found, (stored, mut seal) => seal, value; (stored.to_native(), seal.to_native()))
}

#[test]
fn found_values_are_written_in_place(rt: HostRuntime) {
    value_writes_keep_maps::<u32, u32, FxHasher64, Narrow>();
    value_writes_keep_lookups::<u32, u32, u32, FxHasher64, Narrow>();
    values_written_represent::<u32, u32, u32, u32, FxHasher64, Narrow>();
    let mut bytes = one_number();
    expect_eq!(rt; replace(&mut bytes, 1, 16_909_060), Ok(Some((2, 16_909_060))));
    expect_eq!(rt; number_of::<u32, u32, FxHasher64, Narrow, u32>(&bytes, &1),
        Ok(Some(16_909_060)));
    expect_eq!(rt; bytes, with_bytes(one_number(), 4, &[4, 3, 2, 1]));
    let mut bytes = one_number();
    expect_eq!(rt; replace(&mut bytes, 2, 7), Ok(None));
    expect_eq!(rt; replace_beside_key::<Narrow>(&mut bytes, 2, 7), Ok(None));
    expect_eq!(rt; replace_by(&mut bytes, 1, 7, false), Ok(None));
    expect_eq!(rt; replace_beside_key_by(&mut bytes, 2, 7, true), Ok(None));
    expect_eq!(rt; bytes, one_number());
    let mut bytes = one_number();
    expect_eq!(rt; replace_beside_key::<Narrow>(&mut bytes, 1, 7), Ok(Some((1, 2))));
    expect_eq!(rt; bytes[4], 7);
    let mut bytes = one_wide_number();
    expect_eq!(rt; replace_beside_key::<Wide>(&mut bytes, 1, 16_909_060), Ok(Some((1, 2))));
    expect_eq!(rt; replace_beside_key::<Wide>(&mut bytes, 2, 7), Ok(None));
    expect_eq!(rt; bytes, with_bytes(one_wide_number(), 4, &[4, 3, 2, 1]));
}

// Writes a number over the value that is found by a comparison that always returns `accepts`.
// Returns the value before the write.
fn replace_by(
    bytes: &mut [u8],
    key: u32,
    value: u32,
    accepts: bool,
) -> Result<Option<u32>, VerifyError> {
    let whole = number_seal(bytes)?;
    let accept = |_: &u32, _: View<'_, u32>| accepts;
    let found = ArchivedHashMap::get_seal_with(whole, &key, accept);
    write_found!(found, mut seal => seal, value; seal.to_native())
}

// Does the same by `get_key_value_seal_with`. Returns the key, and the value before the write.
fn replace_beside_key_by(bytes: &mut [u8], key: u32, value: u32, accepts: bool) -> Pair {
    let whole = number_seal(bytes)?;
    let accept = |_: &u32, _: View<'_, u32>| accepts;
    let found = ArchivedHashMap::get_key_value_seal_with(whole, &key, accept);
    write_found!(found, (stored, mut seal) => seal, value; (stored.to_native(), seal.to_native()))
}

#[test]
fn sealed_lookup_takes_a_comparison(rt: HostRuntime) {
    let (mut bytes, mut pair_bytes) = (one_number(), one_number());
    expect_eq!(rt; replace_by(&mut bytes, 1, 7, true), Ok(Some(2)));
    expect_eq!(rt; replace_beside_key_by(&mut pair_bytes, 1, 7, true), Ok(Some((1, 2))));
    let mut expected = one_number();
    expected[4] = 7;
    expect_eq!(rt; [bytes, pair_bytes], [expected; 2]);
}

// Writes these numbers over the values that a cursor reaches, one after the other.
// Returns `true` if the map has as many values, each `len` is right, and no seal follows the last.
fn write_values(bytes: &mut [u8], values: &[i8]) -> Result<bool, VerifyError> {
    let whole = small_seal(bytes)?;
    let mut rest = ArchivedHashMap::values_seal(whole);
    let mut right = true;
    let mut left = values.len();
    for value in values {
        right = right && rest.len() == left;
        left = left.saturating_sub(1);
        match rest.next_seal() {
            Some(mut seal) => seal.set(*value),
            None => return Ok(false),
        }
    }
    let ended = rest.len() == 0 && rest.next_seal().is_none();
    Ok(right && ended && rest.next_seal().is_none() && rest.len() == 0)
}

// Does the same by the positions of the values, but compares only the last `len`.
fn write_values_by_pos(bytes: &mut [u8], values: &[i8]) -> Result<bool, VerifyError> {
    let whole = small_seal(bytes)?;
    let mut rest = ArchivedHashMap::values_seal(whole);
    for value in values {
        match rest.next_pos() {
            Some(pos) => rest.set_at(pos, *value),
            None => return Ok(false),
        }
    }
    let ended = rest.len() == 0 && rest.next_pos().is_none();
    Ok(ended && rest.next_pos().is_none() && rest.len() == 0)
}

// Writes the numbers of these pairs over the values.
// Returns `true` if the map has exactly their keys, in this order.
fn write_pairs(bytes: &mut [u8], pairs: &[(i8, i8)]) -> Result<bool, VerifyError> {
    let whole = small_seal(bytes)?;
    let mut rest = ArchivedHashMap::iter_seal(whole);
    let mut right = true;
    for pair in pairs {
        match rest.next_seal() {
            Some((key, mut value)) => {
                right = right && key.to_native() == pair.0;
                value.set(pair.1);
            }
            None => return Ok(false),
        }
    }
    let ended = rest.len() == 0 && rest.next_seal().is_none();
    Ok(right && ended && rest.next_seal().is_none() && rest.len() == 0)
}

#[test]
fn each_value_is_written_by_a_cursor(rt: HostRuntime) {
    let mut bytes = four_pairs();
    expect_eq!(rt; write_values(&mut bytes, &[0; 4]), Ok(true));
    let zero = Some(0);
    expect_values(&rt, &bytes, &[(1, zero), (3, zero), (5, zero), (7, zero)]);
    expect_four_with(&rt, &bytes, [3, 0, 1, 0, 0, 0, 7, 0, 5, 0]);
    let mut bytes = four_pairs();
    expect_eq!(rt; write_values_by_pos(&mut bytes, &[10, 11, 12, 13]), Ok(true));
    expect_four_with(&rt, &bytes, [3, 13, 1, 12, 0, 0, 7, 11, 5, 10]);
}

// Writes 20 and 21 over the first two values while the cursor steps. Returns their positions.
fn write_stepping(bytes: &mut [u8]) -> Result<[Option<u64>; 2], VerifyError> {
    let whole = small_seal(bytes)?;
    let mut rest = ArchivedHashMap::values_seal(whole);
    let first = rest.next_with(|archive: &mut [u8], pos: u64| {
        change(archive, pos, 20);
    });
    let second = rest.next_with(|archive: &mut [u8], pos: u64| {
        change(archive, pos, 21);
    });
    Ok([first, second])
}

#[test]
fn values_are_written_while_the_cursor_steps(rt: HostRuntime) {
    let mut bytes = four_pairs();
    expect_eq!(rt; write_stepping(&mut bytes), Ok([Some(9), Some(7)]));
    expect_four_with(&rt, &bytes, [3, 4, 1, 2, 0, 0, 7, 21, 5, 20]);
}

#[test]
fn pairs_are_yielded_by_ascending_bucket(rt: HostRuntime) {
    let mut bytes = four_pairs();
    expect_eq!(rt; write_pairs(&mut bytes, &[(5, -5), (7, -7), (1, -1), (3, -3)]), Ok(true));
    expect_four_with(&rt, &bytes, [3, 0xfd, 1, 0xff, 0, 0, 7, 0xf9, 5, 0xfb]);
}

// Writes a number behind the first key. Returns the number of pairs before the step, the key and
// its position, and the number of pairs left.
fn write_first(
    bytes: &mut [u8],
    value: i8,
) -> Result<Option<(usize, u64, i8, usize)>, VerifyError> {
    let whole = small_seal(bytes)?;
    let mut rest = ArchivedHashMap::iter_seal(whole);
    let before = rest.len();
    match rest.next_pos() {
        Some(pos) => {
            let key = rest.key_at(pos).to_native();
            rest.set_at(pos, value);
            Ok(Some((before, pos, key, rest.len())))
        }
        None => Ok(None),
    }
}

#[test]
fn pairs_are_written_by_position(rt: HostRuntime) {
    let mut bytes = four_pairs();
    expect_eq!(rt; write_first(&mut bytes, 9), Ok(Some((4, 8, 5, 3))));
    expect_four_with(&rt, &bytes, [3, 4, 1, 2, 0, 0, 7, 8, 5, 9]);
}

// Returns the archive of three texts, mapped to these values.
fn archive_of(alloc: Global, values: [&str; 3]) -> Result<Vec<u8>, Fail> {
    let pairs = [("hello", values[0]), ("foo", values[1]), ("baz", values[2])];
    Ok(text_archive(alloc, &pairs)?)
}

// Returns whether the value of a key is `text`, as read by a seal.
fn is_text_in_place(bytes: &mut [u8], key: &str, text: &str) -> Result<Option<bool>, VerifyError> {
    let whole = text_seal(bytes)?;
    match ArchivedHashMap::get_seal(whole, &key) {
        Some(seal) => Ok(Some(seal.as_str() == Some(text))),
        None => Ok(None),
    }
}

// Writes the value of a key in upper case. Returns the result of the seal.
fn uppercase(bytes: &mut [u8], key: &str) -> Result<Option<bool>, VerifyError> {
    let whole = text_seal(bytes)?;
    match ArchivedHashMap::get_seal(whole, &key) {
        Some(mut seal) => Ok(Some(seal.make_ascii_uppercase())),
        None => Ok(None),
    }
}

#[test]
fn text_is_uppercased_in_place(rt: HostRuntime) -> Result<(), Fail> {
    let mut bytes = archive_of(rt.alloc(), ["world", "bar", "bat"])?;
    expect_eq!(rt; is_text_in_place(bytes.as_mut_slice(), "hello", "world"), Ok(Some(true)));
    expect_eq!(rt; uppercase(bytes.as_mut_slice(), "hello"), Ok(Some(true)));
    expect_eq!(rt; is_text(bytes.as_slice(), "hello", "WORLD"), Ok(Some(true)));
    let expected = archive_of(rt.alloc(), ["WORLD", "bar", "bat"])?;
    expect_eq!(rt; bytes.as_slice(), expected.as_slice());
    Ok(())
}

#[test]
fn each_text_is_uppercased_in_place(rt: HostRuntime) -> Result<(), Fail> {
    let mut bytes = archive_of(rt.alloc(), ["world", "bar", "bat"])?;
    let mut rest = ArchivedHashMap::values_seal(text_seal(bytes.as_mut_slice())?);
    for _ in 0..3 {
        let uppercased = match rest.next_seal() {
            Some(mut seal) => seal.make_ascii_uppercase(),
            None => false,
        };
        expect_eq!(rt; uppercased, true);
    }
    drop(rest);
    let expected = archive_of(rt.alloc(), ["WORLD", "BAR", "BAT"])?;
    expect_eq!(rt; bytes.as_slice(), expected.as_slice());
    Ok(())
}

#[test]
fn each_inline_text_is_read_by_a_cursor(rt: HostRuntime) -> Result<(), Fail> {
    let mut bytes = archive_of(rt.alloc(), ["world", "bar", "wonderful"])?;
    let mut rest = ArchivedHashMap::values_seal(text_seal(bytes.as_mut_slice())?);
    let mut count = 0usize;
    for _ in 0..rest.len() {
        if let Some(seal) = rest.next_seal() {
            if matches!(seal.as_str(), Some("world" | "bar" | "wonderful")) {
                count = count.wrapping_add(1);
            }
        }
    }
    expect_eq!(rt; count, 2);
    Ok(())
}

#[test]
fn a_text_out_of_line_stays(rt: HostRuntime) -> Result<(), Fail> {
    let mut bytes = archive_of(rt.alloc(), ["wonderful", "bar", "bat"])?;
    expect_eq!(rt; uppercase(bytes.as_mut_slice(), "hello"), Ok(Some(false)));
    let expected = archive_of(rt.alloc(), ["wonderful", "bar", "bat"])?;
    expect_eq!(rt; bytes.as_slice(), expected.as_slice());
    Ok(())
}
