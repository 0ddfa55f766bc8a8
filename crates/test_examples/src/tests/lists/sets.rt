//! A hash set of words and an index set of numbers.

use super::{out_of_range, without_first};
use example_lists::sets::{WordItems, has_word, index_of_id, name_at};
use rkyv_base::to_bytes;
use rkyv_collections::SetItems;
use rkyv_index::OrderedItems;
use std::alloc::Global;
use std::test::Fail;

// Returns the archive of four words, two of them the same.
// The set begins with 5 buckets of 8 bytes and 31 control bytes, 71 bytes.
fn words(alloc: Global) -> Result<Vec<u8>, Fail> {
    let words = ["tea", "coffee", "tea", "cake"];
    let items: WordItems<'_> = SetItems::new(&words);
    Ok(to_bytes(alloc, &items)?)
}

// Returns the archive of four numbers, two of them the same.
// The index set begins with 5 buckets of 4 bytes and 31 control bytes, 51 bytes.
fn ids(alloc: Global) -> Result<Vec<u8>, Fail> {
    let ids: OrderedItems<u64> = OrderedItems(vec![in alloc; u64::MAX, 3, 3, 40]?);
    Ok(to_bytes(alloc, &ids)?)
}

// Returns the archive of three names.
fn names(alloc: Global) -> Result<Vec<u8>, Fail> {
    let names: OrderedItems<&str> = OrderedItems(vec![in alloc; "red", "green", "blue"]?);
    Ok(to_bytes(alloc, &names)?)
}

#[test]
fn items_of_sets_are_found(rt: HostRuntime) -> Result<(), Fail> {
    let archive = words(rt.alloc())?;
    let bytes = archive.as_slice();
    expect_eq!(rt; has_word(bytes, "tea")?, true);
    expect_eq!(rt; has_word(bytes, "cake")?, true);
    expect_eq!(rt; has_word(bytes, "te")?, false);
    expect_eq!(rt; has_word(bytes, "")?, false);
    let archive = ids(rt.alloc())?;
    let bytes = archive.as_slice();
    expect_eq!(rt; index_of_id(bytes, 3)?, Some(1));
    expect_eq!(rt; index_of_id(bytes, 40)?, Some(3));
    expect_eq!(rt; index_of_id(bytes, u64::MAX)?, Some(0));
    expect_eq!(rt; index_of_id(bytes, 0)?, None);
    let archive = names(rt.alloc())?;
    let bytes = archive.as_slice();
    let found = [name_at(bytes, 0)?, name_at(bytes, 2)?, name_at(bytes, 3)?];
    assert_eq!(rt; found, [Some("red"), Some("blue"), None]);
    Ok(())
}

#[test]
fn sets_without_their_first_bytes_are_out_of_range(rt: HostRuntime) -> Result<(), Fail> {
    let words = words(rt.alloc())?;
    let ids = ids(rt.alloc())?;
    expect_eq!(rt; out_of_range(has_word(without_first(words.as_slice(), 4), "tea")),
        Some((-4, 71)));
    expect_eq!(rt; out_of_range(index_of_id(without_first(ids.as_slice(), 4), 3)), Some((-4, 51)));
    Ok(())
}
