//! The programs of the page of recipes that are about maps and sets.

ghost use Rattle.std.specs.Int.{w32};
ghost use Rattle.std.specs.Prelude.{IfOk, IfSome, length, ◌+◌, ◌≤◌};
ghost use Rattle.rkyv_base.specs.{Viewable, scalar_spec, text_spec, unsigned};
ghost use Rattle.rkyv_collections.specs.{map_spec};

use crate::tests::archives::map_archive;
use rkyv_base::access::access;
use rkyv_base::{
    Entry, Narrow, NoMemory, Text, VerifyError, Wide, WriteError, access_in, access_mut, set_at,
    to_bytes, to_bytes_in,
};
use rkyv_collections::map::in_place::set_value_of;
use rkyv_collections::{
    ArchivedHashMap, ArchivedHashSet, FxHasher64, HashMapOf, HashSetOf, Hashed, MapPairs, SetItems,
};
use std::alloc::Global;
use std::collections::{HashMap, HashSet};
use std::hash::{BuildHasherDefault, RandomState};
use std::process::Abort;
use std::test::Fail;

type Ages = HashMap<String, u8>;

// Returns a std map with two pairs.
fn two_ages(alloc: Global) -> Result<Ages, Fail> {
    let mut ages = HashMap::new(alloc);
    ages.insert(String::from_str(alloc, "ann")?, 41)?;
    ages.insert(String::from_str(alloc, "bob")?, 7)?;
    Ok(ages)
}

// Archives a std map, and reads it back.
fn ages_round_trip(alloc: Global, ages: &Ages) -> Result<Ages, Fail> {
    let ages: Hashed<&Ages> = Hashed::new(ages);
    let archive = to_bytes(alloc, &ages)?;
    let map = ArchivedHashMap::of(access::<HashMapOf<Text, u8>>(archive.as_slice())?);
    Ok(map.deserialize_std(alloc, BuildHasherDefault::new())?)
}

#[test]
fn a_map_of_std(rt: HostRuntime) -> Result<(), Fail> {
    let alloc = rt.alloc();
    let ages = two_ages(alloc)?;
    assert!(rt; ages_round_trip(alloc, &ages)? == ages);
    Ok(())
}

// Archives a std set, and reads it back with a state of its own.
fn primes_round_trip(alloc: Global, state: RandomState) -> Result<HashSet<u32, RandomState>, Fail> {
    let mut primes = HashSet::new(alloc);
    primes.insert(2)?;
    primes.insert(3)?;
    let primes: Hashed<HashSet<u32>> = Hashed::new(primes);
    let archive = to_bytes(alloc, &primes)?;
    let set = ArchivedHashSet::of(access::<HashSetOf<u32>>(archive.as_slice())?);
    Ok(set.deserialize_std(alloc, state)?)
}

#[test]
fn a_set_of_std(rt: HostRuntime) -> Result<(), Fail> {
    let back = primes_round_trip(rt.alloc(), RandomState::new(&rt)?)?;
    expect_eq!(rt; (back.len(), back.contains(&3), back.contains(&4)), (2, true, false));
    Ok(())
}

type Rooms = HashMapOf<Text, HashMapOf<Text, u32>>;

// Archives two rooms, each with the numbers of its things.
fn write_rooms(alloc: Global) -> Result<Vec<u8>, WriteError<NoMemory>> {
    let north = MapPairs::new(&[("desk", 2), ("chair", 4)]);
    let south = MapPairs::new(&[("desk", 1)]);
    let rooms = [("north", north), ("south", south)];
    let list: MapPairs<'_, &str, MapPairs<'_, &str, u32>> = MapPairs::new(&rooms);
    to_bytes(alloc, &list)
}

// Returns the number of a thing in a room.
fn number_of(archive: &[u8], room: &str, thing: &str) -> Result<Option<u32>, VerifyError> {
    let rooms = ArchivedHashMap::of(access::<Rooms>(archive)?);
    let Some(things) = rooms.get(&room) else {
        return Ok(None);
    };
    let number = ArchivedHashMap::of(things).get(&thing);
    Ok(number.map(|number| number.to_native()))
}

// Writes the number of a thing, by a seal of each map. Returns `false` if there is none.
fn change(archive: &mut [u8], room: &str, thing: &str, number: u32) -> Result<bool, VerifyError> {
    let rooms = access_mut::<Rooms>(archive)?;
    let Some(things) = ArchivedHashMap::get_seal(rooms, &room) else {
        return Ok(false);
    };
    let Some(mut seal) = ArchivedHashMap::get_seal(things.into_archive(), &thing) else {
        return Ok(false);
    };
    seal.set(number);
    Ok(true)
}

// Returns the position of a room's map, which is valid.
fn pos_of_room(archive: &[u8], room: &str) -> Result<Option<u64>, VerifyError>
    ensures { IfOk result (λ found. IfSome found (Viewable
        (map_spec w32 (text_spec w32) (scalar_spec (unsigned w32))) archive.now)) }
{
    let map = ArchivedHashMap::of(access::<Rooms>(archive)?);
    match map.get(&room) {
        Some(things) => Ok(Some(things.pos())),
        None => Ok(None),
    }
}

// Writes the number of a thing in a room. Returns `false` if there is none.
fn set_number(
    archive: &mut [u8],
    room: &str,
    thing: &str,
    number: u32,
) -> Result<bool, VerifyError> {
    match pos_of_room(&*archive, room) {
        Ok(Some(pos)) => Ok(set_value_of::<&str, Text, u32, FxHasher64, Narrow>(
            archive, pos, &thing, number,
        )),
        Ok(None) => Ok(false),
        Err(error) => Err(error),
    }
}

// Writes five numbers. Returns whether each thing was found.
fn change_numbers(rooms: &mut [u8]) -> Result<[bool; 5], VerifyError> {
    Ok([
        set_number(rooms, "north", "chair", 5)?,
        set_number(rooms, "south", "chair", 6)?,
        set_number(rooms, "west", "chair", 7)?,
        change(rooms, "south", "desk", 8)?,
        change(rooms, "south", "chair", 9)?,
    ])
}

// Returns the numbers of three things.
fn three_numbers(rooms: &[u8]) -> Result<[Option<u32>; 3], VerifyError> {
    Ok([
        number_of(rooms, "north", "chair")?,
        number_of(rooms, "north", "desk")?,
        number_of(rooms, "south", "desk")?,
    ])
}

#[test]
fn a_map_of_maps(rt: HostRuntime) -> Result<(), Fail> {
    let mut archive = write_rooms(rt.alloc())?;
    expect_eq!(rt; three_numbers(archive.as_slice()), Ok([Some(4), Some(2), Some(1)]));
    expect_eq!(rt; change_numbers(archive.as_mut_slice()), Ok([true, false, false, true, false]));
    expect_eq!(rt; three_numbers(archive.as_slice()), Ok([Some(5), Some(2), Some(8)]));
    Ok(())
}

type Prices = HashMapOf<Text, u32>;

// Writes the price of a name. Returns `false` if the map has no such name.
fn set_price(archive: &mut [u8], name: &str, price: u32) -> Result<bool, VerifyError> {
    let root = access::<Prices>(&*archive)?.pos();
    Ok(set_value_of::<&str, Text, u32, FxHasher64, Narrow>(archive, root, &name, price))
}

// Adds 1 to the price of a name, by a seal. Returns the price before.
fn raise_price(archive: &mut [u8], name: &str) -> Result<Option<u32>, VerifyError> {
    let prices = access_mut::<Prices>(archive)?;
    match ArchivedHashMap::get_seal(prices, &name) {
        Some(mut price) => {
            let before = price.to_native();
            price.set(before.wrapping_add(1));
            Ok(Some(before))
        }
        None => Ok(None),
    }
}

// Doubles each price, by a cursor over the values.
fn double_prices(archive: &mut [u8]) -> Result<(), VerifyError> {
    let mut rest = ArchivedHashMap::values_seal(access_mut::<Prices>(archive)?);
    for _ in 0..rest.len() {
        if let Some(mut price) = rest.next_seal() {
            let doubled = price.to_native().wrapping_mul(2);
            price.set(doubled);
        }
    }
    Ok(())
}

// Sets each price of more than a limit to the limit, by a cursor over the pairs, but for one name.
fn cap_prices(archive: &mut [u8], limit: u32, free: &str) -> Result<(), VerifyError> {
    let mut rest = ArchivedHashMap::iter_seal(access_mut::<Prices>(archive)?);
    for _ in 0..rest.len() {
        if let Some((name, mut price)) = rest.next_seal() {
            if price.to_native() > limit && name.as_str() != free {
                price.set(limit);
            }
        }
    }
    Ok(())
}

fn price_of(archive: &[u8], name: &str) -> Result<Option<u32>, VerifyError> {
    let prices = ArchivedHashMap::of(access::<Prices>(archive)?);
    Ok(prices.get(&name).map(|price| price.to_native()))
}

// Compares the price of each name.
fn expect_prices(rt: &impl Abort, archive: &[u8], rows: &[(&str, Option<u32>)]) {
    for (name, price) in rows {
        expect_eq!(*rt; price_of(archive, *name), Ok(*price));
    }
}

fn write_prices(alloc: Global) -> Result<Vec<u8>, WriteError<NoMemory>> {
    let list: MapPairs<'_, &str, u32> = MapPairs::new(&[("tea", 3), ("coffee", 4), ("cake", 5)]);
    to_bytes(alloc, &list)
}

// Writes prices by name. Compares whether each of two names was found, the price of a third before,
// and all prices.
fn expect_changes_by_name(rt: &impl Abort, archive: &mut [u8]) {
    expect_eq!(*rt; set_price(&mut *archive, "tea", 2), Ok(true));
    expect_eq!(*rt; set_price(&mut *archive, "milk", 9), Ok(false));
    expect_eq!(*rt; raise_price(&mut *archive, "cake"), Ok(Some(5)));
    expect_prices(
        rt,
        &*archive,
        &[("tea", Some(2)), ("coffee", Some(4)), ("cake", Some(6))],
    );
}

// Writes all prices twice. Compares the prices after each time.
fn expect_changes_of_all(rt: &impl Abort, archive: &mut [u8]) {
    expect_eq!(*rt; double_prices(&mut *archive), Ok(()));
    expect_prices(
        rt,
        &*archive,
        &[("tea", Some(4)), ("coffee", Some(8)), ("cake", Some(12))],
    );
    expect_eq!(*rt; cap_prices(&mut *archive, 6, "cake"), Ok(()));
    expect_prices(
        rt,
        &*archive,
        &[("tea", Some(4)), ("coffee", Some(6)), ("cake", Some(12))],
    );
}

#[test]
fn prices_in_place(rt: HostRuntime) -> Result<(), Fail> {
    let mut archive = write_prices(rt.alloc())?;
    let prices = archive.as_mut_slice();
    expect_changes_by_name(&rt, &mut *prices);
    expect_changes_of_all(&rt, &mut *prices);
    Ok(())
}

type Points = HashMapOf<Text, Entry<i32, i32>>;

// Writes both parts of the pair at `pos`.
fn write_point(bytes: &mut [u8], pos: u64, point: (i32, i32))
    requires { pos + 8 ≤ length bytes.old }
{
    set_at(bytes, pos as usize, point.0);
    set_at(bytes, pos as usize + 4, point.1);
}

// Writes the point of a name. Returns `false` if the map has no such name.
fn move_point(archive: &mut [u8], name: &str, point: (i32, i32)) -> Result<bool, VerifyError> {
    let root = access::<Points>(&*archive)?.pos();
    let found = ArchivedHashMap::<Text, Entry<i32, i32>, FxHasher64, Narrow>::found_with(
        archive,
        root,
        &name,
        |bytes: &mut [u8], pos: u64| write_point(bytes, pos, point),
    );
    Ok(found.is_some())
}

// Returns the point of a name.
fn point_of(archive: &[u8], name: &str) -> Result<Option<(i32, i32)>, VerifyError> {
    let points = ArchivedHashMap::of(access::<Points>(archive)?);
    match points.get(&name) {
        Some(point) => Ok(Some((point.key().to_native(), point.value().to_native()))),
        None => Ok(None),
    }
}

// Writes the points of two names. Returns whether each was found.
fn move_two(archive: &mut [u8]) -> Result<[bool; 2], VerifyError> {
    Ok([
        move_point(archive, "b", (-3, 5))?,
        move_point(archive, "c", (0, 0))?,
    ])
}

// Returns the points of two names.
fn two_points(archive: &[u8]) -> Result<[Option<(i32, i32)>; 2], VerifyError> {
    Ok([point_of(archive, "a")?, point_of(archive, "b")?])
}

#[test]
fn points_in_place(rt: HostRuntime) -> Result<(), Fail> {
    let mut archive = map_archive(rt.alloc(), &[("a", (1i32, 2i32)), ("b", (3, 4))])?;
    expect_eq!(rt; move_two(archive.as_mut_slice()), Ok([true, false]));
    expect_eq!(rt; two_points(archive.as_slice()), Ok([Some((1, 2)), Some((-3, 5))]));
    Ok(())
}

type Sizes = HashMapOf<Text<Wide>, u64, FxHasher64, Wide>;

// Archives names with sizes, with positions of 64 bits.
fn write_sizes(alloc: Global, sizes: &[(&str, u64)]) -> Result<Vec<u8>, WriteError<NoMemory>> {
    let list: MapPairs<'_, &str, u64> = MapPairs::new(sizes);
    to_bytes_in::<Wide, MapPairs<'_, &str, u64>>(alloc, &list)
}

// Returns the size of a name.
fn size_of(archive: &[u8], name: &str) -> Result<Option<u64>, VerifyError> {
    let sizes = ArchivedHashMap::of(access_in::<Wide, Sizes>(archive)?);
    Ok(sizes.get(&name).map(|size| size.to_native()))
}

#[test]
fn a_wide_archive(rt: HostRuntime) -> Result<(), Fail> {
    let archive = write_sizes(rt.alloc(), &[("disk", 5_000_000_000), ("file", 12)])?;
    expect_eq!(rt; size_of(archive.as_slice(), "disk"), Ok(Some(5_000_000_000)));
    expect_eq!(rt; size_of(archive.as_slice(), "tape"), Ok(None));
    Ok(())
}

// Archives words as a set.
fn write_words(alloc: Global, words: &[&str]) -> Result<Vec<u8>, WriteError<NoMemory>> {
    let items: SetItems<'_, &str> = SetItems::new(words);
    to_bytes(alloc, &items)
}

// Returns the number of words, and whether one is among them.
fn has_word(archive: &[u8], word: &str) -> Result<(usize, bool), VerifyError> {
    let words = ArchivedHashSet::of(access::<HashSetOf<Text>>(archive)?);
    Ok((words.len(), words.contains(&word)))
}

#[test]
fn a_set(rt: HostRuntime) -> Result<(), Fail> {
    let archive = write_words(rt.alloc(), &["red", "green"])?;
    expect_eq!(rt; has_word(archive.as_slice(), "green"), Ok((2, true)));
    expect_eq!(rt; has_word(archive.as_slice(), "blue"), Ok((2, false)));
    Ok(())
}
