//! Tests of values of index maps that are written over the plain bytes: by a closure, and texts.
ghost use Rattle.std.specs.Prelude.{◌≡◌};
ghost use Rattle.rkyv_base.specs.{Viewable, entry_spec};
ghost use Rattle.rkyv_table.specs.{len_at};
ghost use Rattle.rkyv_index.specs.{index_spec};

use crate::tests::archives::{two_texts, wide_pair, wide_texts};
use rkyv_base::{Element, Narrow, Represents, Scalar, Text, VerifyError, View, Wide, access_in};
use rkyv_index::map::in_place::text::make_ascii_uppercase_at;
use rkyv_index::{ArchivedIndexMap, IndexMapOf, IndexWidth};
use rkyv_keys::{KeyElement, Query};
use rkyv_scan::{FxHasher64, KeyHasher};
use test_support::archives::four_entries;
use test_support::changes::{change, with_bytes};

// Writes a byte over the value of a key. Returns the position of the value, if the key is found.
fn change_found<K: KeyElement, N: Scalar, H: KeyHasher, W: IndexWidth, Q: Query<K>>(
    bytes: &mut [u8],
    key: &Q,
    byte: u8,
) -> Result<Option<u64>, VerifyError> {
    let root = access_in::<W, IndexMapOf<K, N, H, W>>(&*bytes)?.pos();
    Ok(ArchivedIndexMap::<K, N, H, W>::found_with(
        bytes,
        root,
        key,
        |archive: &mut [u8], pos: u64| change(archive, pos, byte),
    ))
}

// Does the same in a map of `i8` to `i8`.
fn change_small<W: IndexWidth>(
    bytes: &mut [u8],
    key: i8,
    byte: u8,
) -> Result<Option<u64>, VerifyError> {
    change_found::<i8, i8, FxHasher64, W, i8>(bytes, &key, byte)
}

#[test]
fn a_found_value_is_written_over_the_bare_bytes(rt: HostRuntime) {
    let mut bytes = four_entries();
    expect_eq!(rt; change_small::<Narrow>(&mut bytes, 5, 60), Ok(Some(56)));
    let mut wide = wide_pair();
    expect_eq!(rt; change_small::<Wide>(&mut wide, 1, 20), Ok(Some(48)));
    expect_eq!(rt; bytes, with_bytes(four_entries(), 56, &[60]));
    expect_eq!(rt; wide, with_bytes(wide_pair(), 48, &[20]));
    let mut bytes = four_entries();
    expect_eq!(rt; change_small::<Narrow>(&mut bytes, 9, 60), Ok(None));
    let mut wide = wide_pair();
    expect_eq!(rt; change_small::<Wide>(&mut wide, 9, 20), Ok(None));
    expect_eq!(rt; bytes, four_entries());
    expect_eq!(rt; wide, wide_pair());
}

// Writes a byte over the value of a key, if the comparison accepts it. Returns the position of
// the value, if one is written.
fn change_accepted<W: IndexWidth>(
    bytes: &mut [u8],
    key: i8,
    accepts: bool,
    byte: u8,
) -> Result<Option<u64>, VerifyError> {
    let root = access_in::<W, IndexMapOf<i8, i8, FxHasher64, W>>(&*bytes)?.pos();
    Ok(ArchivedIndexMap::<i8, i8, FxHasher64, W>::found_by(
        bytes,
        root,
        &key,
        |_: &i8, _: View<'_, i8>| accepts,
        |archive: &mut [u8], pos: u64| change(archive, pos, byte),
    ))
}

#[test]
fn an_accepted_value_is_written_over_the_bare_bytes(rt: HostRuntime) {
    let mut bytes = four_entries();
    expect_eq!(rt; change_accepted::<Narrow>(&mut bytes, 5, true, 60), Ok(Some(56)));
    let mut wide = wide_pair();
    expect_eq!(rt; change_accepted::<Wide>(&mut wide, 1, true, 20), Ok(Some(48)));
    expect_eq!(rt; bytes, with_bytes(four_entries(), 56, &[60]));
    expect_eq!(rt; wide, with_bytes(wide_pair(), 48, &[20]));
    let mut bytes = four_entries();
    expect_eq!(rt; change_accepted::<Narrow>(&mut bytes, 5, false, 60), Ok(None));
    let mut wide = wide_pair();
    expect_eq!(rt; change_accepted::<Wide>(&mut wide, 1, false, 20), Ok(None));
    expect_eq!(rt; bytes, four_entries());
    expect_eq!(rt; wide, wide_pair());
}

// Returns the length of the map at `root`.
fn len_of<K: Element, V: Element, H, W: IndexWidth>(bytes: &[u8], root: u64) -> usize
    requires { Viewable (index_spec W.word (entry_spec K.spec V.spec)) bytes.now root }
    ensures { result ≡ len_at W.word bytes.now root }
{
    ArchivedIndexMap::<K, V, H, W>::of(View::new(bytes, root)).len()
}

// Writes the text at an index in upper case. Returns the result of the call, or `None`
// if the index is too large.
fn uppercase<A, K: KeyElement + Represents<A>, H: KeyHasher, W: IndexWidth>(
    bytes: &mut [u8],
    index: usize,
) -> Result<Option<bool>, VerifyError> {
    let root = access_in::<W, IndexMapOf<K, Text<W>, H, W>>(&*bytes)?.pos();
    if index < len_of::<K, Text<W>, H, W>(&*bytes, root) {
        let is_inline = make_ascii_uppercase_at::<A, K, H, W>(bytes, root, index);
        Ok(Some(is_inline))
    } else {
        Ok(None)
    }
}

// Does the same in a map of `i8` to texts.
fn uppercase_small<W: IndexWidth>(
    bytes: &mut [u8],
    index: usize,
) -> Result<Option<bool>, VerifyError> {
    uppercase::<i8, i8, FxHasher64, W>(bytes, index)
}

// Writes the texts at the first three indices in upper case. Returns the results.
fn uppercase_three<W: IndexWidth>(bytes: &mut [u8]) -> [Result<Option<bool>, VerifyError>; 3] {
    [
        uppercase_small::<W>(bytes, 0),
        uppercase_small::<W>(bytes, 1),
        uppercase_small::<W>(bytes, 2),
    ]
}

#[test]
fn an_inline_text_is_uppercased_by_its_index(rt: HostRuntime) {
    let mut bytes = two_texts();
    let results = [Ok(Some(true)), Ok(Some(false)), Ok(None)];
    expect_eq!(rt; uppercase_three::<Narrow>(&mut bytes), results);
    let mut wide = wide_texts();
    expect_eq!(rt; uppercase_three::<Wide>(&mut wide), results);
    expect_eq!(rt; bytes, with_bytes(two_texts(), 56, b"HELLO"));
    expect_eq!(rt; wide, with_bytes(wide_texts(), 80, b"HELLO"));
}
