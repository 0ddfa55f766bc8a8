//! The number and the name of each error, as the output has them.
ghost use Rattle.rkyv_dict.specs.{write_error_text, is_allocation_failure, verify_error_text};
ghost use Rattle.std.specs.Prelude.{◌≡◌};

use rkyv_base::{NoMemory, VerifyError, WriteError};

/// Returns the number and the name of a validation error.
#[tactic(auto, unfolding(crate::specs::Errors::verify_error_text))]
pub fn verify_error_text(error: &VerifyError) -> &'static str
    ensures { result.now ≡ verify_error_text error.now }
{
    match error {
        VerifyError::OutOfRange { .. } => "1 OutOfRange",
        VerifyError::Unaligned { .. } => "2 Unaligned",
        VerifyError::InvalidLength { .. } => "3 InvalidLength",
        VerifyError::WrongNumberOfElements { .. } => "4 WrongNumberOfElements",
        VerifyError::UnwrappedControlByte { .. } => "5 UnwrappedControlByte",
        VerifyError::PlaceOutOfRange { .. } => "6 PlaceOutOfRange",
        VerifyError::InvalidValue { .. } => "7 InvalidValue",
        VerifyError::Refused(_) => "8 Refused",
    }
}

/// Returns the number and the name of a write error.
#[tactic(auto, unfolding(crate::specs::Errors::write_error_text))]
pub fn write_error_text(error: &WriteError<NoMemory>) -> &'static str
    ensures { result.now ≡ write_error_text error.now }
{
    match error {
        WriteError::InvalidLoadFactor { .. } => "1 InvalidLoadFactor",
        WriteError::IteratorLengthMismatch(_) => "2 IteratorLengthMismatch",
        WriteError::CapacityTooLarge { .. } => "3 CapacityTooLarge",
        WriteError::PositionTooLarge => "4 PositionTooLarge",
        WriteError::DistanceTooLarge => "5 DistanceTooLarge",
        WriteError::TextTooLong => "6 TextTooLong",
        WriteError::Writer(_) => "7 Writer",
        WriteError::Memory => "8 Memory",
        WriteError::Refused(_) => "9 Refused",
    }
}

/// Returns whether a write error is an allocation failure.
#[tactic(auto, unfolding(crate::specs::Errors::is_allocation_failure))]
pub fn is_allocation_failure(error: &WriteError<NoMemory>) -> bool
    ensures { result ≡ is_allocation_failure error.now }
{
    matches!(error, WriteError::Writer(_) | WriteError::Memory)
}
