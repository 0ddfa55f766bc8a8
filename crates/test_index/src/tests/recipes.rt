//! The programs of the page of recipes that are about index maps and index sets.

use rkyv_base::access::access;
use rkyv_base::{Text, VerifyError, to_bytes};
use rkyv_index::{
    ArchivedIndexMap, ArchivedIndexSet, IndexMapOf, IndexSetOf, OrderedItems, OrderedPairs,
};
use std::alloc::Global;
use std::test::Fail;

type Prices = IndexMapOf<Text, u32>;

// Archives names with prices, in this order.
fn write_prices(alloc: Global) -> Result<Vec<u8>, Fail> {
    let list = OrderedPairs(vec![in alloc; ("tea", 3u32), ("coffee", 4), ("cake", 5)]?);
    Ok(to_bytes(alloc, &list)?)
}

// Returns the price of a name.
fn price_of(archive: &[u8], name: &str) -> Result<Option<u32>, VerifyError> {
    let prices = ArchivedIndexMap::of(access::<Prices>(archive)?);
    Ok(prices.get(&name).map(|price| price.to_native()))
}

// Returns the index of a name, and its price.
fn find(archive: &[u8], name: &str) -> Result<Option<(usize, u32)>, VerifyError> {
    let prices = ArchivedIndexMap::of(access::<Prices>(archive)?);
    let found = prices.get_full(&name);
    Ok(found.map(|(index, _, price)| (index, price.to_native())))
}

// Returns the name at an index, borrowed from the archive.
fn name_at(archive: &[u8], index: usize) -> Result<Option<&str>, VerifyError> {
    let prices = ArchivedIndexMap::of(access::<Prices>(archive)?);
    Ok(prices.get_index(index).map(|(name, _)| name.as_str()))
}

// Returns the first name, borrowed from the archive.
fn first_name(archive: &[u8]) -> Result<Option<&str>, VerifyError> {
    let prices = ArchivedIndexMap::of(access::<Prices>(archive)?);
    Ok(prices.first().map(|(name, _)| name.as_str()))
}

// Returns the last price.
fn last_price(archive: &[u8]) -> Result<Option<u32>, VerifyError> {
    let prices = ArchivedIndexMap::of(access::<Prices>(archive)?);
    Ok(prices.last().map(|(_, price)| price.to_native()))
}

// Returns the prices in insertion order.
fn all_prices(alloc: Global, archive: &[u8]) -> Result<Vec<u32>, Fail> {
    let prices = ArchivedIndexMap::of(access::<Prices>(archive)?);
    let mut all = Vec::new(alloc);
    for (_, price) in &prices {
        all.push(price.to_native())?;
    }
    Ok(all)
}

type Found = ([Option<u32>; 2], Option<(usize, u32)>, bool);

// Returns the prices of two names, the index and the price of a third, and whether "tea" is the
// first name of less than four.
fn found_prices(archive: &[u8]) -> Result<Found, VerifyError> {
    let prices = [price_of(archive, "coffee")?, price_of(archive, "milk")?];
    let cake = find(archive, "cake")?;
    let is_first = name_at(archive, 0)? == Some("tea") && name_at(archive, 3)?.is_none();
    Ok((prices, cake, is_first))
}

#[test]
fn an_index_map(rt: HostRuntime) -> Result<(), Fail> {
    let alloc = rt.alloc();
    let archive = write_prices(alloc)?;
    expect_eq!(rt;
        found_prices(archive.as_slice()).ok(),
        Some(([Some(4), None], Some((2, 5)), true))
    );
    let all = all_prices(alloc, archive.as_slice())?;
    expect_eq!(rt; all.as_slice(), [3, 4, 5].as_slice());
    Ok(())
}

#[test]
fn the_ends_of_an_index_map(rt: HostRuntime) -> Result<(), Fail> {
    let archive = write_prices(rt.alloc())?;
    let first = first_name(archive.as_slice())?;
    let last = last_price(archive.as_slice())?;
    expect_eq!(rt; (first == Some("tea"), last), (true, Some(5)));
    Ok(())
}

// Archives words, in this order.
fn write_words(alloc: Global) -> Result<Vec<u8>, Fail> {
    let list = OrderedItems(vec![in alloc; "red", "green", "blue"]?);
    Ok(to_bytes(alloc, &list)?)
}

// Returns the index of a word.
fn index_of(archive: &[u8], word: &str) -> Result<Option<usize>, VerifyError> {
    let words = ArchivedIndexSet::of(access::<IndexSetOf<Text>>(archive)?);
    Ok(words.get_index_of(&word))
}

// Returns the first word, borrowed from the archive.
fn first_word(archive: &[u8]) -> Result<Option<&str>, VerifyError> {
    let words = ArchivedIndexSet::of(access::<IndexSetOf<Text>>(archive)?);
    Ok(words.first().map(|word| word.as_str()))
}

// Returns the last word, borrowed from the archive.
fn last_word(archive: &[u8]) -> Result<Option<&str>, VerifyError> {
    let words = ArchivedIndexSet::of(access::<IndexSetOf<Text>>(archive)?);
    Ok(words.last().map(|word| word.as_str()))
}

// Reads the list of words back.
fn read_words(alloc: Global, archive: &[u8]) -> Result<Vec<String>, Fail> {
    let words = ArchivedIndexSet::of(access::<IndexSetOf<Text>>(archive)?);
    Ok(words.deserialize_items(alloc)?)
}

#[test]
fn an_index_set(rt: HostRuntime) -> Result<(), Fail> {
    let alloc = rt.alloc();
    let archive = write_words(alloc)?;
    let blue = index_of(archive.as_slice(), "blue")?;
    let pink = index_of(archive.as_slice(), "pink")?;
    expect_eq!(rt; (blue, pink), (Some(2), None));
    let words = read_words(alloc, archive.as_slice())?;
    assert!(rt; words.len() == 3 && words[1].as_str() == "green");
    Ok(())
}

#[test]
fn the_ends_of_an_index_set(rt: HostRuntime) -> Result<(), Fail> {
    let archive = write_words(rt.alloc())?;
    let is_first = first_word(archive.as_slice())? == Some("red");
    let is_last = last_word(archive.as_slice())? == Some("blue");
    assert!(rt; is_first && is_last);
    Ok(())
}
