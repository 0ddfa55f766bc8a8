//! Tests of values of index maps that are written by their key, over the plain bytes.

use crate::tests::archives::{one_key_twice, two_texts, wide_pair, wide_texts};
use rkyv_base::access::access;
use rkyv_base::{Narrow, Text, VerifyError, Wide, access_in, to_bytes};
use rkyv_index::map::in_place::set_value_of;
use rkyv_index::map::in_place::text::make_ascii_uppercase_of;
use rkyv_index::{ArchivedIndexMap, IndexMapOf, IndexWidth, OrderedPairs};
use rkyv_scan::FxHasher64;
use std::alloc::Global;
use std::test::Fail;
use test_support::archives::four_entries;
use test_support::changes::with_bytes;

// Writes the value of a key in a map of `i8` to `i8`. Returns the result of the call.
fn set_small<W: IndexWidth>(bytes: &mut [u8], key: i8, value: i8) -> Result<bool, VerifyError> {
    let root = access_in::<W, IndexMapOf<i8, i8, FxHasher64, W>>(&*bytes)?.pos();
    Ok(set_value_of::<i8, i8, i8, FxHasher64, W>(bytes, root, &key, value))
}

#[test]
fn values_are_written_by_their_keys(rt: HostRuntime) {
    let mut bytes = four_entries();
    expect_eq!(rt; set_small::<Narrow>(&mut bytes, 5, 60), Ok(true));
    let mut wide = wide_pair();
    expect_eq!(rt; set_small::<Wide>(&mut wide, 1, 20), Ok(true));
    expect_eq!(rt; bytes, with_bytes(four_entries(), 56, &[60]));
    expect_eq!(rt; wide, with_bytes(wide_pair(), 48, &[20]));
    let mut bytes = four_entries();
    expect_eq!(rt; set_small::<Narrow>(&mut bytes, 9, 60), Ok(false));
    let mut wide = wide_pair();
    expect_eq!(rt; set_small::<Wide>(&mut wide, 9, 20), Ok(false));
    expect_eq!(rt; bytes, four_entries());
    expect_eq!(rt; wide, wide_pair());
    let mut bytes = one_key_twice();
    expect_eq!(rt; set_small::<Narrow>(&mut bytes, 1, 60), Ok(true));
    expect_eq!(rt; bytes, with_bytes(one_key_twice(), 44, &[60]));
}

// Writes the text of a key in upper case. Returns the result of the call.
fn uppercase_of<W: IndexWidth>(bytes: &mut [u8], key: i8) -> Result<Option<bool>, VerifyError> {
    let root = access_in::<W, IndexMapOf<i8, Text<W>, FxHasher64, W>>(&*bytes)?.pos();
    Ok(make_ascii_uppercase_of::<i8, i8, FxHasher64, W>(bytes, root, &key))
}

#[test]
fn inline_texts_are_uppercased_by_their_keys(rt: HostRuntime) {
    let mut bytes = two_texts();
    expect_eq!(rt; uppercase_of::<Narrow>(&mut bytes, 1), Ok(Some(true)));
    let mut wide = wide_texts();
    expect_eq!(rt; uppercase_of::<Wide>(&mut wide, 1), Ok(Some(true)));
    expect_eq!(rt; bytes, with_bytes(two_texts(), 56, b"HELLO"));
    expect_eq!(rt; wide, with_bytes(wide_texts(), 80, b"HELLO"));
    // Both buckets have the index of the text that is out of line.
    let mut bytes = two_texts();
    bytes[8] = 1;
    let before = bytes;
    expect_eq!(rt; uppercase_of::<Narrow>(&mut bytes, 1), Ok(Some(false)));
    let mut wide = wide_texts();
    wide[16] = 1;
    let wide_before = wide;
    expect_eq!(rt; uppercase_of::<Wide>(&mut wide, 1), Ok(Some(false)));
    expect_eq!(rt; bytes, before);
    expect_eq!(rt; wide, wide_before);
    let mut bytes = two_texts();
    expect_eq!(rt; uppercase_of::<Narrow>(&mut bytes, 9), Ok(None));
    let mut wide = wide_texts();
    expect_eq!(rt; uppercase_of::<Wide>(&mut wide, 9), Ok(None));
    expect_eq!(rt; bytes, two_texts());
    expect_eq!(rt; wide, wide_texts());
}

type Prices = IndexMapOf<Text, u32>;

// Writes the price of a name. Returns `false` if the map has no such name.
fn set_price(archive: &mut [u8], name: &str, price: u32) -> Result<bool, VerifyError> {
    let root = access::<Prices>(&*archive)?.pos();
    Ok(set_value_of::<&str, Text, u32, FxHasher64, Narrow>(archive, root, &name, price))
}

// Archives names with prices, in this order.
fn write_prices(alloc: Global) -> Result<Vec<u8>, Fail> {
    let list = OrderedPairs(vec![in alloc; ("tea", 3u32), ("coffee", 4), ("tea", 5)]?);
    Ok(to_bytes(alloc, &list)?)
}

// Returns the price at an index.
fn price_at(archive: &[u8], index: usize) -> Result<Option<u32>, VerifyError> {
    let prices = ArchivedIndexMap::of(access::<Prices>(archive)?);
    match prices.get_index(index) {
        Some((_, price)) => Ok(Some(price.to_native())),
        None => Ok(None),
    }
}

// Writes two prices. Returns the results, and all prices afterwards.
fn set_prices(archive: &mut [u8]) -> Result<([bool; 2], [Option<u32>; 3]), VerifyError> {
    let set = [
        set_price(archive, "tea", 9)?,
        set_price(archive, "milk", 1)?,
    ];
    let prices = [
        price_at(archive, 0)?,
        price_at(archive, 1)?,
        price_at(archive, 2)?,
    ];
    Ok((set, prices))
}

#[test]
fn a_price_is_written_by_its_name(rt: HostRuntime) -> Result<(), Fail> {
    let mut archive = write_prices(rt.alloc())?;
    expect_eq!(rt; set_prices(archive.as_mut_slice()),
        Ok(([true, false], [Some(9), Some(4), Some(5)])));
    Ok(())
}
