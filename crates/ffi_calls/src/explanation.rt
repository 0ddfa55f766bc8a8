//! Why an archive is invalid, or a container: the first error, with its numbers.

ghost use Rattle.std.specs.Prelude.{◌≡◌};
ghost use Rattle.ffi_calls.specs.{explain, explain_container_error, explained, nearest};

use rkyv_base::VerifyError;
use rkyv_container::ContainerError;

/// The status of an error, its position and its other numbers.
///
/// The numbers are the numbers of the error, in order. A kind, a type or a width is its code.
/// A number that the error doesn't have is 0.
#[repr(C)]
#[derive(Clone, Copy)]
pub struct Explanation {
    /// The status of the error, or `DONE` if there is none.
    pub status: u32,
    /// The position, or the nearest `i64`. It is negative if it is before the archive.
    pub position: i64,
    /// The first number besides the position, or the greatest `u64`.
    pub first: u64,
    /// The second number besides the position.
    pub second: u64,
}

/// Returns the `i64` that is nearest to a position.
#[inline]
fn nearest(pos: i128) -> i64
    ensures { result ≡ nearest pos }
{
    pos.clamp(i128::from(i64::MIN), i128::from(i64::MAX)) as i64
}

/// Returns an explanation with these numbers.
#[inline]
pub(crate) fn explained(status: u32, position: i64, first: u64, second: u64) -> Explanation
    ensures { result ≡ explained status position first second }
{
    Explanation {
        status,
        position,
        first,
        second,
    }
}

/// Returns the explanation of a validation error.
#[tactic(auto, unfolding(crate::specs::Explanation::explain))]
pub(crate) fn explain(error: &VerifyError) -> Explanation
    ensures { result ≡ explain error.now }
{
    match error {
        VerifyError::OutOfRange { pos, size } => {
            let size = (*size).min(u128::from(u64::MAX)) as u64;
            explained(16, nearest(*pos), size, 0)
        }
        VerifyError::Unaligned { pos, align } => {
            explained(17, nearest(i128::from(*pos)), *align, 0)
        }
        VerifyError::InvalidLength { len, cap } => explained(18, 0, *len as u64, *cap as u64),
        VerifyError::WrongNumberOfElements { expected, actual } => {
            explained(19, 0, *expected as u64, *actual as u64)
        }
        VerifyError::UnwrappedControlByte { index } => explained(20, 0, *index as u64, 0),
        VerifyError::PlaceOutOfRange { place, len } => {
            explained(21, 0, *place as u64, *len as u64)
        }
        VerifyError::InvalidValue { pos } => explained(22, nearest(i128::from(*pos)), 0, 0),
        VerifyError::Refused(reason) => explained(23, 0, u64::from(*reason), 0),
    }
}

/// Returns the explanation of a container's error. Kinds, types and widths are their codes.
#[tactic(auto, unfolding(crate::specs::Explanation::explain_container_error))]
pub(crate) fn explain_container_error(error: &ContainerError) -> Explanation
    ensures { result ≡ explain_container_error error.now }
{
    match error {
        ContainerError::TooShort { len } => explained(32, 0, *len as u64, 0),
        ContainerError::WrongMagic => explained(33, 0, 0, 0),
        ContainerError::UnsupportedVersion(version) => explained(34, 0, u64::from(*version), 0),
        ContainerError::UnknownKind(code) => explained(35, 0, u64::from(*code), 0),
        ContainerError::UnknownKeyType(code) => explained(36, 0, u64::from(*code), 0),
        ContainerError::UnknownValueType(code) => explained(37, 0, u64::from(*code), 0),
        ContainerError::UnknownWidth(code) => explained(38, 0, u64::from(*code), 0),
        ContainerError::UnknownFlags(flags) => explained(39, 0, u64::from(*flags), 0),
        ContainerError::UnexpectedChecksum(checksum) => explained(40, 0, u64::from(*checksum), 0),
        ContainerError::NonzeroReserved(number) => explained(41, 0, u64::from(*number), 0),
        ContainerError::WrongKind { expected, found } => {
            explained(42, 0, u64::from(expected.code()), u64::from(found.code()))
        }
        ContainerError::WrongKeyType { expected, found } => {
            explained(43, 0, u64::from(expected.code()), u64::from(found.code()))
        }
        ContainerError::WrongValueType { expected, found } => {
            explained(44, 0, u64::from(expected.code()), u64::from(found.code()))
        }
        ContainerError::WrongWidth { expected, found } => {
            explained(45, 0, u64::from(expected.code()), u64::from(found.code()))
        }
        ContainerError::WrongLength { expected, found } => explained(46, 0, *expected, *found),
        ContainerError::WrongChecksum { expected, found } => {
            explained(47, 0, u64::from(*expected), u64::from(*found))
        }
    }
}
