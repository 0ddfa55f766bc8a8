//! Pixels, which are archived as the tuple of their three parts.

use rkyv_user_types::{AsTuple, FromTuple};

/// A pixel: its brightness and its coordinates.
#[derive(Clone, Copy, Debug, PartialEq, Eq)]
pub struct Pixel {
    pub level: u8,
    pub x: u16,
    pub y: u16,
}

impl AsTuple for Pixel {
    type First = u8;

    type Second = (u16, u16);

    ghost tuple = { λ pixel. (pixel.level, (pixel.x, pixel.y)) };

    fn tuple(&self) -> (u8, (u16, u16)) {
        (self.level, (self.x, self.y))
    }
}

impl FromTuple for Pixel {
    fn from_tuple(level: u8, place: (u16, u16)) -> Pixel {
        Pixel {
            level,
            x: place.0,
            y: place.1,
        }
    }
}
