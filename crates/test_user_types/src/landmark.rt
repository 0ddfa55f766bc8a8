//! Landmarks, which have three parts: an owned text, and two numbers as one pair.

use rkyv_user_types::{AsPair, FromPair};

/// A name and its coordinates.
#[derive(Debug, PartialEq, Drop)]
pub struct Landmark {
    pub name: String,
    pub coordinates: (i32, i32),
}

impl AsPair for Landmark {
    type First = String;

    type Second = (i32, i32);

    ghost pair = { λ landmark. (landmark.name, landmark.coordinates) };

    fn first(&self) -> &String {
        &self.name
    }

    fn second(&self) -> &(i32, i32) {
        &self.coordinates
    }
}

impl FromPair for Landmark {
    fn from_pair(name: String, coordinates: (i32, i32)) -> Landmark {
        Landmark { name, coordinates }
    }
}
