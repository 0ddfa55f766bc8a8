//! A write by key in a map of texts to numbers.

use super::out_of_range;
use example_first_map::look_up;
use example_lists::in_place::set_count;
use rkyv_base::to_bytes;
use rkyv_collections::MapPairs;
use std::alloc::Global;
use std::test::Fail;

// Returns the archive of three counts, two of them under one name.
fn counts(alloc: Global) -> Result<Vec<u8>, Fail> {
    let list: MapPairs<'_, &str, u64> = MapPairs::new(&[("tea", 3), ("cake", 5), ("tea", 4)]);
    Ok(to_bytes(alloc, &list)?)
}

#[test]
fn the_count_of_a_name_is_written(rt: HostRuntime) -> Result<(), Fail> {
    let mut archive = counts(rt.alloc())?;
    expect_eq!(rt; set_count(archive.as_mut_slice(), "tea", 9)?, true);
    expect_eq!(rt; set_count(archive.as_mut_slice(), "milk", 7)?, false);
    let table = archive.as_slice();
    expect_eq!(rt; look_up(table, "tea")?, Some(9));
    expect_eq!(rt; look_up(table, "cake")?, Some(5));
    expect_eq!(rt; look_up(table, "milk")?, None);
    Ok(())
}

#[test]
fn a_map_that_is_too_short_is_not_written(rt: HostRuntime) {
    let mut short = [0u8; 11];
    expect_eq!(rt; out_of_range(set_count(&mut short, "tea", 9)), Some((-1, 12)));
    expect_eq!(rt; short, [0; 11]);
}
