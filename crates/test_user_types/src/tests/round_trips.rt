//! Round trips of values of user-defined types, and of a map of std with such values.

ghost use Rattle.std.specs.Prelude.{◌≡◌, IfOk, true};

use crate::pixel::Pixel;
use crate::point::Point;
use rkyv_base::errors::RoundTripError;
use rkyv_base::{Entry, Narrow, Wide};
use rkyv_collections::Hashed;
use rkyv_collections::std_maps::round_trip::round_trips_equal;
use rkyv_user_types::laws::{
    pairs_are_archived_as_their_parts, pairs_are_compared_as_their_parts,
    pairs_fail_as_their_parts, pairs_hash_as_their_parts, pairs_hash_for_std,
    tuples_are_archived_as_their_parts, tuples_are_compared_as_their_parts,
    tuples_fail_as_their_parts, tuples_hash_as_their_parts, tuples_hash_for_std,
};
use rkyv_user_types::{PairEntry, TupleEntry};
use std::alloc::{AllocError, Global};
use std::collections::{HashMap, HashSet};
use std::test::Fail;

type Places = Hashed<HashMap<u8, PairEntry<Point>>>;

type Names = Hashed<HashMap<PairEntry<Point>, u8>>;

type Pixels = Hashed<HashSet<TupleEntry<Pixel>>>;

// Writes a point and a pixel, compares the archives with them, and reads them back.
fn values_round_trip(
    alloc: Global,
    point: &PairEntry<Point>,
    pixel: &TupleEntry<Pixel>,
) -> Result<(bool, bool), RoundTripError>
    ensures { IfOk result (λ same. (same.0 ≡ true) × (same.1 ≡ true)) }
{
    let first = round_trips_equal::<Narrow, PairEntry<Point>>(alloc, point)?;
    let second = round_trips_equal::<Wide, TupleEntry<Pixel>>(alloc, pixel)?;
    Ok((first, second))
}

// Returns a map with one point as a value.
fn one_place(alloc: Global) -> Result<Places, AllocError> {
    let mut map = HashMap::new(alloc);
    map.insert(7u8, PairEntry(Point { x: -2, y: 3 }))?;
    Ok(Hashed::new(map))
}

#[test]
fn a_point_and_a_pixel(rt: HostRuntime) {
    pairs_are_archived_as_their_parts::<Narrow, i32, i32, Point>();
    pairs_are_compared_as_their_parts::<i32, i32, Point, i32, i32>();
    pairs_hash_as_their_parts::<i32, i32, Point>();
    pairs_fail_as_their_parts::<i32, i32, Point, i32, i32>();
    tuples_are_archived_as_their_parts::<Wide, u8, (u16, u16), Pixel>();
    tuples_are_compared_as_their_parts::<u8, (u16, u16), Pixel, u8, Entry<u16, u16>>();
    tuples_hash_as_their_parts::<u8, (u16, u16), Pixel>();
    tuples_fail_as_their_parts::<u8, (u16, u16), Pixel, u8, Entry<u16, u16>>();
    let point = PairEntry(Point { x: -2, y: 3 });
    let pixel = TupleEntry(Pixel {
        level: 7,
        x: 300,
        y: 2,
    });
    let same = values_round_trip(rt.alloc(), &point, &pixel).ok();
    assert_eq!(rt; same, Some((true, true)));
}

#[test]
fn a_map_of_points(rt: HostRuntime) -> Result<(), Fail> {
    let map = one_place(rt.alloc())?;
    let same = round_trips_equal::<Narrow, Places>(rt.alloc(), &map).ok();
    assert_eq!(rt; same, Some(true));
    Ok(())
}

// Returns whether a map of std with a point as a key comes back.
fn named_points_round_trip(alloc: Global) -> Result<bool, Fail> {
    let mut map = HashMap::new(alloc);
    map.insert(PairEntry(Point { x: -2, y: 3 }), 7u8)?;
    let names: Names = Hashed::new(map);
    Ok(round_trips_equal::<Narrow, Names>(alloc, &names)?)
}

// Returns whether a set of std with a pixel comes back.
fn pixels_round_trip(alloc: Global) -> Result<bool, Fail> {
    let mut set = HashSet::new(alloc);
    set.insert(TupleEntry(Pixel {
        level: 7,
        x: 300,
        y: 2,
    }))?;
    let pixels: Pixels = Hashed::new(set);
    Ok(round_trips_equal::<Wide, Pixels>(alloc, &pixels)?)
}

#[test]
fn user_defined_types_are_keys_of_std_maps(rt: HostRuntime) -> Result<(), Fail> {
    pairs_hash_for_std::<i32, i32, Point>();
    tuples_hash_for_std::<u8, (u16, u16), Pixel>();
    expect_eq!(rt; named_points_round_trip(rt.alloc())?, true);
    expect_eq!(rt; pixels_round_trip(rt.alloc())?, true);
    Ok(())
}
