//! A std map and a std set.

use super::{out_of_range, without_first};
use example_lists::maps_of_std::{AgeMap, FareMap, LineSet, age_of, fare_of, has_line};
use rkyv_base::to_bytes;
use rkyv_collections::Hashed;
use std::alloc::Global;
use std::collections::{HashMap, HashSet};
use std::test::Fail;

// Returns the archive of two fares. The fare of line 12 is inserted twice.
// The map begins with 3 buckets of 16 bytes and 31 control bytes, 79 bytes.
fn fares(alloc: Global) -> Result<Vec<u8>, Fail> {
    let mut fares = HashMap::new(alloc);
    fares.insert(12, 240)?;
    fares.insert(31, u64::MAX)?;
    fares.insert(12, 250)?;
    let fares: FareMap = Hashed::new(fares);
    Ok(to_bytes(alloc, &fares)?)
}

// Returns the archive of two ages.
fn ages(alloc: Global) -> Result<Vec<u8>, Fail> {
    let mut ages = HashMap::new(alloc);
    ages.insert(String::from_str(alloc, "Ada")?, 36u8)?;
    ages.insert(String::from_str(alloc, "Grace")?, 85u8)?;
    let ages: AgeMap = Hashed::new(ages);
    Ok(to_bytes(alloc, &ages)?)
}

// Returns the archive of two lines. Line 12 is inserted twice.
// The set begins with 3 buckets of 4 bytes and 31 control bytes, 43 bytes.
fn lines(alloc: Global) -> Result<Vec<u8>, Fail> {
    let mut lines = HashSet::new(alloc);
    lines.insert(12)?;
    lines.insert(31)?;
    lines.insert(12)?;
    let lines: LineSet = Hashed::new(lines);
    Ok(to_bytes(alloc, &lines)?)
}

#[test]
fn entries_of_std_collections_are_found(rt: HostRuntime) -> Result<(), Fail> {
    // A std map keeps one value of a key, the last one that is inserted.
    let archive = fares(rt.alloc())?;
    let bytes = archive.as_slice();
    let found = [fare_of(bytes, 12)?, fare_of(bytes, 31)?, fare_of(bytes, 0)?];
    expect_eq!(rt; found, [Some(250), Some(u64::MAX), None]);
    let archive = ages(rt.alloc())?;
    let bytes = archive.as_slice();
    expect_eq!(rt; age_of(bytes, "Ada")?, Some(36));
    expect_eq!(rt; age_of(bytes, "Grace")?, Some(85));
    expect_eq!(rt; age_of(bytes, "Alan")?, None);
    let archive = lines(rt.alloc())?;
    let bytes = archive.as_slice();
    expect_eq!(rt; has_line(bytes, 12)?, true);
    expect_eq!(rt; has_line(bytes, 31)?, true);
    expect_eq!(rt; has_line(bytes, 0)?, false);
    Ok(())
}

#[test]
fn std_archives_without_their_first_bytes_are_out_of_range(rt: HostRuntime) -> Result<(), Fail> {
    let fares = fares(rt.alloc())?;
    let lines = lines(rt.alloc())?;
    expect_eq!(rt; out_of_range(fare_of(without_first(fares.as_slice(), 4), 12)), Some((-4, 79)));
    expect_eq!(rt; out_of_range(has_line(without_first(lines.as_slice(), 4), 12)), Some((-4, 43)));
    Ok(())
}
