//! The errors of an inspection.
ghost use Rattle.std.specs.Prelude.{◌≡◌};
ghost use Rattle.rkyv_inspect.specs.declared.errors.InspectError.TheVariants.{Invalid, Memory};

use rkyv_base::VerifyError;
use rkyv_container::ItemType;
use std::alloc::AllocError;
use thiserror::Error;

/// The error of an inspection.
#[derive(Debug, Drop, Error)]
pub enum InspectError {
    /// The bytes aren't a valid archive of the expected type.
    #[error("{0}")]
    Invalid(VerifyError),
    /// Keys or values of this type aren't supported in this collection.
    #[error("keys or values of the type {0} aren't supported in this collection")]
    Unsupported(ItemType),
    /// An allocation failed.
    #[error("no memory")]
    Memory,
}

impl From<VerifyError> for InspectError {
    ghost from_gives = { λ error e. e ≡ Invalid error };

    fn from(error: VerifyError) -> InspectError {
        InspectError::Invalid(error)
    }
}

impl From<AllocError> for InspectError {
    ghost from_gives = { λ _ e. e ≡ Memory };

    fn from(_error: AllocError) -> InspectError {
        InspectError::Memory
    }
}
