//! The statuses that calls return.

ghost use Rattle.std.specs.Prelude.{Err, MatchResult, Ok, ◌≡◌};
ghost use Rattle.ffi_calls.specs.{container_status, write_status};

use crate::explanation::explain_container_error;
use rkyv_base::{NoMemory, WriteError};
use rkyv_container::ContainerError;

/// The call succeeded.
pub const DONE: u32 = 0;

/// The lookup doesn't find the key.
pub const NOT_FOUND: u32 = 1;

/// The value has more bits than the values of the map.
pub const VALUE_TOO_LARGE: u32 = 3;

/// The bytes of a key, a value or an item aren't UTF-8.
pub const NOT_TEXT: u32 = 4;

/// No contents of a container, or no collection of this library, have the codes. Or the call isn't
/// for collections with the codes.
pub const UNKNOWN_CODES: u32 = 7;

/// An allocation failed.
pub const NO_MEMORY: u32 = 12;

/// The lookups of all keys read more strides of control bytes than the limit.
pub const LIMIT_REACHED: u32 = 15;

/// The length in a container's header isn't the number of bytes after the header.
pub const WRONG_LENGTH: u32 = 46;

/// Returns the status of a write error: `NO_MEMORY`, or 23 to 29.
#[tactic(auto, unfolding(crate::specs::Status::write_status))]
fn write_status(error: &WriteError<NoMemory>) -> u32
    ensures { result ≡ write_status error.now }
{
    match error {
        WriteError::Memory | WriteError::Writer(_) => NO_MEMORY,
        WriteError::Refused(_) => 23,
        WriteError::CapacityTooLarge { .. } => 24,
        WriteError::PositionTooLarge => 25,
        WriteError::DistanceTooLarge => 26,
        WriteError::TextTooLong => 27,
        WriteError::InvalidLoadFactor { .. } => 28,
        WriteError::IteratorLengthMismatch(_) => 29,
    }
}

/// Returns the archive that was written, or the status of the write error.
pub(crate) fn or_status(archive: Result<Vec<u8>, WriteError<NoMemory>>) -> Result<Vec<u8>, u32>
    ensures { MatchResult archive (λ v. result ≡ Ok v) (λ e. result ≡ Err (write_status e)) }
{
    archive.map_err(|error| write_status(&error))
}

/// Returns the status of a container's error: 32 to 47.
pub(crate) fn container_status(error: &ContainerError) -> u32
    ensures { result ≡ container_status error.now }
{
    explain_container_error(error).status
}
