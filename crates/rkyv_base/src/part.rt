//! The parts of a value, which are out of line, before it.
//!
//! A validator calls `part_in` with a part's begin, which is computed from untrusted bytes.

ghost use Rattle.std.specs.Prelude.{◌+ℤ◌, ◌<◌, ◌≡◌, pos as int, MatchResult};
ghost use Rattle.rkyv_base.specs.{PartFails, PartIn};

use crate::element::PartRange;
use crate::errors::VerifyError;

/// Returns the target of a distance from a position.
#[inline]
pub fn distance_target(from: u64, distance: i64) -> i128
    ensures { result ≡ int from +ℤ distance }
{
    i128::from(from) + i128::from(distance)
}

/// Returns the position of a part of `size` bytes that begins at `begin`.
///
/// Fails with `OutOfRange` if it isn't inside the range, or else with `Unaligned`.
#[inline]
pub fn part_in(begin: i128, size: u128, align: u64, range: PartRange) -> Result<u64, VerifyError>
    requires { 0 < align }
    ensures { MatchResult result
        (PartIn begin size align range.lo range.hi)
        (PartFails begin size align range.lo range.hi) }
{
    let (lo, hi) = (i128::from(range.lo), i128::from(range.hi));
    if begin < lo || hi < begin || u128::from(range.hi - begin as u64) < size {
        return Err(VerifyError::OutOfRange { pos: begin, size });
    }
    let at = begin as u64;
    if at % align != 0 {
        return Err(VerifyError::Unaligned { pos: at, align });
    }
    Ok(at)
}
