//! An index map of names to prices.

use super::{out_of_range, without_first};
use example_lists::index_maps::{PricePairs, index_of_name, price_of};
use rkyv_base::to_bytes;
use rkyv_index::OrderedPairs;
use std::alloc::Global;
use std::test::Fail;

// Returns the archive of four prices, two of them with the same name.
// The index map begins with 5 buckets of 4 bytes and 31 control bytes, 51 bytes.
fn prices(alloc: Global) -> Result<Vec<u8>, Fail> {
    let list: PricePairs<'_> = OrderedPairs(vec![in alloc;
        ("coffee", 4),
        ("tea", 3),
        ("tea", 5),
        ("hot chocolate", 6),
    ]?);
    Ok(to_bytes(alloc, &list)?)
}

#[test]
fn first_pairs_of_index_maps_are_found(rt: HostRuntime) -> Result<(), Fail> {
    let archive = prices(rt.alloc())?;
    let bytes = archive.as_slice();
    expect_eq!(rt; price_of(bytes, "tea")?, Some(3));
    expect_eq!(rt; price_of(bytes, "hot chocolate")?, Some(6));
    expect_eq!(rt; price_of(bytes, "milk")?, None);
    let archive = prices(rt.alloc())?;
    let bytes = archive.as_slice();
    expect_eq!(rt; index_of_name(bytes, "tea")?, Some(1));
    expect_eq!(rt; index_of_name(bytes, "hot chocolate")?, Some(3));
    expect_eq!(rt; index_of_name(bytes, "coffee")?, Some(0));
    expect_eq!(rt; index_of_name(bytes, "milk")?, None);
    Ok(())
}

// Without its first 4 bytes, the archive has a table that begins before it.
// Its first 15 bytes are one byte less than a header.
#[test]
fn parts_of_index_maps_are_out_of_range(rt: HostRuntime) -> Result<(), Fail> {
    let archive = prices(rt.alloc())?;
    let bytes = archive.as_slice();
    expect_eq!(rt; out_of_range(price_of(without_first(bytes, 4), "tea")), Some((-4, 51)));
    expect_eq!(rt; out_of_range(index_of_name(without_first(bytes, 4), "tea")), Some((-4, 51)));
    expect_eq!(rt; out_of_range(index_of_name(&bytes[..bytes.len().min(15)], "tea")),
        Some((-1, 16)));
    Ok(())
}
