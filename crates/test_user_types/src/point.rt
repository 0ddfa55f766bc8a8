//! Points, which are archived as the pair of their coordinates.

use rkyv_user_types::{AsPair, FromPair};

/// A point of the plane.
#[derive(Clone, Copy, Debug, PartialEq, Eq)]
pub struct Point {
    pub x: i32,
    pub y: i32,
}

impl AsPair for Point {
    type First = i32;

    type Second = i32;

    ghost pair = { λ point. (point.x, point.y) };

    fn first(&self) -> &i32 {
        &self.x
    }

    fn second(&self) -> &i32 {
        &self.y
    }
}

impl FromPair for Point {
    fn from_pair(x: i32, y: i32) -> Point {
        Point { x, y }
    }
}
