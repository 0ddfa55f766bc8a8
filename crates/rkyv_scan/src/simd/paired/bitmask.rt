//! The mask of a group of two halves.
ghost use Rattle.std.specs.Prelude.{false, ◌≡◌};
ghost use Rattle.rkyv_scan.specs.Masks.{group_lanes, mask_bits};
ghost use Rattle.rkyv_scan.specs.Paired.{MarksEqual};

use crate::simd::lanes;

/// A mask with one bit for each of sixteen indices.
///
/// The lowest mark of a match is an equal byte. So only the equal bytes are known at first, and
/// the other marks are computed when the lowest one is removed.
#[derive(Clone, Copy)]
pub struct Bitmask {
    pub(crate) known: lanes::Bitmask,
    pub(crate) both: lanes::Group,
    pub(crate) byte: u8,
    pub(crate) is_whole: bool,
    ghost equal: { is_whole ≡ false → MarksEqual (group_lanes both) byte (mask_bits known) },
}
