//! Segments, which are archived as the pair of their ends.

use crate::point::Point;
use rkyv_user_types::{AsPair, PairEntry};

/// A segment between two points.
#[derive(Clone, Copy, Debug, PartialEq, Eq)]
pub struct Segment {
    pub from: PairEntry<Point>,
    pub to: PairEntry<Point>,
}

impl AsPair for Segment {
    type First = PairEntry<Point>;

    type Second = PairEntry<Point>;

    ghost pair = { λ segment. (segment.from, segment.to) };

    fn first(&self) -> &PairEntry<Point> {
        &self.from
    }

    fn second(&self) -> &PairEntry<Point> {
        &self.to
    }
}
