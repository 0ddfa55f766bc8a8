//! Hash maps of numbers, of texts and of pairs of numbers.

use super::{out_of_range, without_first};
use example_lists::maps::{
    NumberPairs, SpotPairs, TitlePairs, number_of, spot_of, title_of, write_numbers,
};
use rkyv_base::{Wide, to_bytes, to_bytes_in};
use rkyv_collections::MapPairs;
use std::alloc::Global;
use std::test::Fail;

// Four pairs, two of them with the key 7.
// The wide map has 5 buckets of 16 bytes and 31 control bytes, 111 bytes at the beginning.
const NUMBERS: [(u32, u64); 4] = [(9, u64::MAX), (7, 70), (7, 71), (8, 0)];

// Returns the wide archive of the numbers.
fn numbers(alloc: Global) -> Result<Vec<u8>, Fail> {
    let list: NumberPairs<'_> = MapPairs::new(&NUMBERS);
    Ok(to_bytes_in::<Wide, NumberPairs<'_>>(alloc, &list)?)
}

// Returns the archive of three titles, two of them with the key 7.
// The map has 4 buckets. The title of 12 bytes precedes them.
fn titles(alloc: Global) -> Result<Vec<u8>, Fail> {
    let titles = [(7, "iron"), (8, "a long title"), (7, "lead")];
    let list: TitlePairs<'_> = MapPairs::new(&titles);
    Ok(to_bytes(alloc, &list)?)
}

// Returns the archive of three spots, two of them with the same name.
// The map has 4 buckets. The two names of 14 bytes precede them.
fn spots(alloc: Global) -> Result<Vec<u8>, Fail> {
    let spots = [
        ("harbour bridge", (3, 4)),
        ("hill", (0, u32::MAX)),
        ("harbour bridge", (5, 6)),
    ];
    let list: SpotPairs<'_> = MapPairs::new(&spots);
    Ok(to_bytes(alloc, &list)?)
}

#[test]
fn first_entries_of_maps_are_found(rt: HostRuntime) -> Result<(), Fail> {
    let archive = numbers(rt.alloc())?;
    let bytes = archive.as_slice();
    expect_eq!(rt; number_of(bytes, 7)?, Some(70));
    expect_eq!(rt; number_of(bytes, 8)?, Some(0));
    expect_eq!(rt; number_of(bytes, 9)?, Some(u64::MAX));
    expect_eq!(rt; number_of(bytes, 0)?, None);
    let list: NumberPairs<'_> = MapPairs::new(&NUMBERS);
    let archive = write_numbers(rt.alloc(), &list)?;
    let bytes = archive.as_slice();
    expect_eq!(rt; number_of(bytes, 7)?, Some(70));
    expect_eq!(rt; number_of(bytes, 9)?, Some(u64::MAX));
    expect_eq!(rt; number_of(bytes, 6)?, None);
    let archive = titles(rt.alloc())?;
    let bytes = archive.as_slice();
    expect_eq!(rt; title_of(bytes, 7)?, Some("iron"));
    expect_eq!(rt; title_of(bytes, 8)?, Some("a long title"));
    expect_eq!(rt; title_of(bytes, 0)?, None);
    let archive = spots(rt.alloc())?;
    let bytes = archive.as_slice();
    expect_eq!(rt; spot_of(bytes, "harbour bridge")?, Some((3, 4)));
    expect_eq!(rt; spot_of(bytes, "hill")?, Some((0, u32::MAX)));
    expect_eq!(rt; spot_of(bytes, "harbour")?, None);
    Ok(())
}

// Without its first bytes, the numbers' table begins before the archive.
// So do the title and the first of the names that precede the buckets.
#[test]
fn maps_without_their_first_bytes_are_out_of_range(rt: HostRuntime) -> Result<(), Fail> {
    let numbers = numbers(rt.alloc())?;
    let titles = titles(rt.alloc())?;
    let spots = spots(rt.alloc())?;
    expect_eq!(rt; out_of_range(number_of(without_first(numbers.as_slice(), 8), 7)),
        Some((-8, 111)));
    expect_eq!(rt; out_of_range(title_of(without_first(titles.as_slice(), 4), 7)), Some((-4, 12)));
    expect_eq!(rt; out_of_range(spot_of(without_first(spots.as_slice(), 4), "hill")),
        Some((-4, 14)));
    Ok(())
}
