//! The errors of the program.

use rkyv_base::VerifyError;
use rkyv_container::ContainerError;
use rkyv_inspect::InspectError;
use std::alloc::{AllocError, Global};
use std::io;
use thiserror::Error;

/// The error with which the program fails.
#[derive(Debug, Drop, Error)]
pub enum ProgramError {
    /// The arguments can't be read, or one isn't valid UTF-8.
    #[error("arguments: {0}")]
    Arguments(io::Error),
    /// Standard output can't be written.
    #[error("standard output: {0}")]
    Output(#[from] io::Error),
    /// An allocation failed.
    #[error("no memory")]
    Memory(#[from] AllocError),
    /// The file can't be read.
    #[error("{file}: {error}")]
    File { file: String, error: io::Error },
    /// The file can't be opened as a container.
    #[error("{file}: {error}")]
    Container { file: String, error: ContainerError },
    /// The file isn't a valid archive.
    #[error("{file}: {error}")]
    Invalid { file: String, error: VerifyError },
    /// The inspection failed for another reason.
    #[error("{file}: {error}")]
    Inspection { file: String, error: InspectError },
}

/// Returns the error of a read of a file.
pub fn file_error(alloc: Global, file: &str, error: io::Error) -> ProgramError {
    match String::from_str(alloc, file) {
        Ok(file) => ProgramError::File { file, error },
        Err(refused) => ProgramError::Memory(refused),
    }
}

/// Returns the error of a file that can't be opened as a container.
pub fn container_error(alloc: Global, file: &str, error: ContainerError) -> ProgramError {
    match String::from_str(alloc, file) {
        Ok(file) => ProgramError::Container { file, error },
        Err(refused) => ProgramError::Memory(refused),
    }
}

/// Returns the error of an inspection of a file.
pub fn inspect_error(alloc: Global, file: &str, error: InspectError) -> ProgramError {
    match (String::from_str(alloc, file), error) {
        (Ok(file), InspectError::Invalid(error)) => ProgramError::Invalid { file, error },
        (Ok(file), error) => ProgramError::Inspection { file, error },
        (Err(refused), _) => ProgramError::Memory(refused),
    }
}
