//! User-defined types as values and as keys.

use crate::color::Color;
use crate::landmark::Landmark;
use crate::pixel::Pixel;
use crate::point::Point;
use crate::segment::Segment;
use crate::spot::Spot;
use crate::spot_archived::{ArchivedSpot, spot_of};
use crate::symbol::Symbol;
use crate::wide::{archive_wide, wide_name};
use rkyv_base::access::access;
use rkyv_base::{Element, Entry, Text, VerifyError, to_bytes};
use rkyv_keys::{Deserialize, MatchesNative, Query, hash_value};
use rkyv_scan::FxHasher64;
use rkyv_user_types::{PairEntry, TupleEntry};
use std::fmt::Debug;
use std::process::Abort;
use std::test::Fail;

// Fails the test unless the two are equal, and prints both then.
fn expect_equal<T: PartialEq + Debug + Drop>(rt: &impl Abort, found: T, expected: T) {
    assert_eq!(*rt; found, expected);
}

// Is `assert_eq!` by one call, for which a check takes a quarter of the time.
macro_rules! expect_eq {
    ($rt:expr; $found:expr, $expected:expr $(,)?) => {
        $crate::tests::expect_equal(&$rt, $found, $expected)
    };
}

mod as_keys;
mod round_trips;

#[test]
fn a_point_is_a_pair(rt: HostRuntime) -> Result<(), Fail> {
    let point = PairEntry(Point { x: -2, y: 3 });
    let other = PairEntry(Point { x: 3, y: -2 });
    let bytes = to_bytes(rt.alloc(), &point)?;
    let root = access::<Entry<i32, i32>>(bytes.as_slice())?;
    let back: PairEntry<Point> = Entry::<i32, i32>::deserialize(rt.alloc(), root)?;
    let hashes = [
        hash_value::<PairEntry<Point>, FxHasher64>(&point),
        hash_value::<(i32, i32), FxHasher64>(&(-2, 3)),
    ];
    expect_eq!(rt; bytes.as_slice() == [0xfe, 0xff, 0xff, 0xff, 3, 0, 0, 0].as_slice(), true);
    expect_eq!(rt; root.key().to_native() == -2, true);
    expect_eq!(rt; back == point, true);
    expect_eq!(rt; back != other, true);
    expect_eq!(rt; point.same(root), true);
    expect_eq!(rt; !other.same(root), true);
    expect_eq!(rt; Entry::<i32, i32>::eq_native(root, &point), true);
    expect_eq!(rt; !Entry::<i32, i32>::eq_native(root, &other), true);
    expect_eq!(rt; hashes[0] == hashes[1], true);
    Ok(())
}

#[test]
fn entries_differ_by_each_part(rt: HostRuntime) {
    let point = PairEntry(Point { x: -2, y: 3 });
    let pixel = TupleEntry(Pixel {
        level: 7,
        x: 300,
        y: 2,
    });
    expect_eq!(rt; point == PairEntry(Point { x: -2, y: 3 }), true);
    expect_eq!(rt; point == PairEntry(Point { x: -1, y: 3 }), false);
    expect_eq!(rt; point == PairEntry(Point { x: -2, y: 4 }), false);
    expect_eq!(rt; pixel == TupleEntry(Pixel { level: 7, x: 300, y: 2 }), true);
    expect_eq!(rt; pixel == TupleEntry(Pixel { level: 8, x: 300, y: 2 }), false);
    expect_eq!(rt; pixel == TupleEntry(Pixel { level: 7, x: 301, y: 2 }), false);
    expect_eq!(rt; pixel == TupleEntry(Pixel { level: 7, x: 300, y: 3 }), false);
}

#[test]
fn a_segment_is_a_pair_of_points(rt: HostRuntime) -> Result<(), Fail> {
    let segment = PairEntry(Segment {
        from: PairEntry(Point { x: -2, y: 3 }),
        to: PairEntry(Point { x: 1, y: 0 }),
    });
    let bytes = to_bytes(rt.alloc(), &segment)?;
    let root = access::<Entry<Entry<i32, i32>, Entry<i32, i32>>>(bytes.as_slice())?;
    expect_eq!(rt; bytes.as_slice() == [0xfe, 0xff, 0xff, 0xff, 3, 0, 0, 0, 1, 0, 0, 0, 0, 0, 0,
        0].as_slice(), true);
    expect_eq!(rt; root.key().value().to_native() == 3, true);
    expect_eq!(rt; root.value().key().to_native() == 1, true);
    expect_eq!(rt; segment.same(root), true);
    Ok(())
}

#[test]
fn a_pixel_is_a_tuple(rt: HostRuntime) -> Result<(), Fail> {
    let pixel = TupleEntry(Pixel {
        level: 7,
        x: 300,
        y: 2,
    });
    let other = TupleEntry(Pixel {
        level: 7,
        x: 2,
        y: 300,
    });
    let bytes = to_bytes(rt.alloc(), &pixel)?;
    let root = access::<Entry<u8, Entry<u16, u16>>>(bytes.as_slice())?;
    let back: TupleEntry<Pixel> = Entry::<u8, Entry<u16, u16>>::deserialize(rt.alloc(), root)?;
    let results = [
        bytes.as_slice() == [7, 0, 44, 1, 2, 0].as_slice(),
        root.value().key().to_native() == 300,
        back == pixel,
        back != other,
        pixel.same(root),
        !other.same(root),
        Entry::<u8, Entry<u16, u16>>::eq_native(root, &pixel),
        !Entry::<u8, Entry<u16, u16>>::eq_native(root, &other),
        hash_value::<TupleEntry<Pixel>, FxHasher64>(&pixel)
            == hash_value::<(u8, (u16, u16)), FxHasher64>(&(7, (300, 2))),
    ];
    assert_eq!(rt; results, [true; 9]);
    Ok(())
}

#[test]
fn a_symbol_is_a_pair_with_a_text(rt: HostRuntime) -> Result<(), Fail> {
    let name = String::from_str(rt.alloc(), "a name of more than sixteen bytes")?;
    let symbol = PairEntry(Symbol {
        name,
        address: 0x1_0000_0000,
    });
    let bytes = archive_wide(rt.alloc(), &symbol)?;
    let name = wide_name(bytes.as_slice())?;
    assert_eq!(rt; name, "a name of more than sixteen bytes");
    Ok(())
}

#[test]
fn a_landmark_is_a_text_and_a_pair(rt: HostRuntime) -> Result<(), Fail> {
    let landmark = PairEntry(Landmark {
        name: String::from_str(rt.alloc(), "inn")?,
        coordinates: (-2, 3),
    });
    let bytes = to_bytes(rt.alloc(), &landmark)?;
    let root = access::<Entry<Text, Entry<i32, i32>>>(bytes.as_slice())?;
    let back: PairEntry<Landmark> = Entry::<Text, Entry<i32, i32>>::deserialize(rt.alloc(), root)?;
    let name = [b'i', b'n', b'n', 0xff, 0xff, 0xff, 0xff, 0xff];
    let coordinates = [0xfe, 0xff, 0xff, 0xff, 3, 0, 0, 0];
    expect_eq!(rt; bytes[..8] == name[..], true);
    expect_eq!(rt; bytes[8..] == coordinates[..], true);
    expect_eq!(rt; root.key().as_str() == "inn", true);
    expect_eq!(rt; root.value().key().to_native() == -2, true);
    expect_eq!(rt; root.value().value().to_native() == 3, true);
    expect_eq!(rt; back == landmark, true);
    Ok(())
}

#[test]
fn a_color_is_a_scalar(rt: HostRuntime) -> Result<(), Fail> {
    let bytes = to_bytes(rt.alloc(), &(Color::Blue, 5u8))?;
    let root = access::<Entry<Color, u8>>(bytes.as_slice())?;
    expect_eq!(rt; bytes.as_slice() == [2, 5].as_slice(), true);
    expect_eq!(rt; root.key().to_native() == Color::Blue, true);
    expect_eq!(rt; Color::Blue.same(root.key()), true);
    expect_eq!(rt; !Color::Red.same(root.key()), true);
    expect_eq!(rt; matches!(access::<Color>(&[3]), Err(VerifyError::InvalidValue { pos: 0 })),
        true);
    Ok(())
}

#[test]
fn a_spot_is_an_entry_by_hand(rt: HostRuntime) -> Result<(), Fail> {
    let spot = Spot { x: -2, y: 3 };
    let bytes = to_bytes(rt.alloc(), &spot)?;
    let root = access::<ArchivedSpot>(bytes.as_slice())?;
    expect_eq!(rt; bytes.as_slice() == [0xfe, 0xff, 0xff, 0xff, 3, 0, 0, 0].as_slice(), true);
    expect_eq!(rt; spot_of(root) == spot, true);
    expect_eq!(rt; spot.same(root), true);
    expect_eq!(rt; !Spot { x: 3, y: -2 }.same(root), true);
    expect_eq!(rt; ArchivedSpot::eq_native(root, &spot), true);
    expect_eq!(rt; ArchivedSpot::size() == 8, true);
    Ok(())
}
