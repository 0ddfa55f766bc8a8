//! The errors of the program.
ghost use Rattle.example_symbols_program.specs.{IsFileError, IsValidationError, IsWriteError};

use rkyv_base::{NoMemory, VerifyError, WriteError};
use std::alloc::{AllocError, Global};
use std::io;
use thiserror::Error;

/// The error with which a command fails.
#[derive(Debug, Drop, Error)]
pub enum SymbolsError {
    /// The arguments can't be read, or one isn't valid UTF-8.
    #[error("arguments: {0}")]
    Arguments(io::Error),
    /// Standard input can't be read, or isn't valid UTF-8.
    #[error("standard input: {0}")]
    Input(io::Error),
    /// Standard output can't be written.
    #[error("standard output: {0}")]
    Output(#[from] io::Error),
    /// An allocation failed.
    #[error("no memory")]
    Memory(#[from] AllocError),
    /// A file can't be read or written.
    #[error("{file}: {error}")]
    File {
        file: String,
        error: io::Error,
    },
    /// The symbols can't be archived for a file.
    #[error("{file}: {error}")]
    Write {
        file: String,
        error: WriteError<NoMemory>,
    },
    /// A file isn't a valid table or index.
    #[error("{file}: {error}")]
    Invalid {
        file: String,
        error: VerifyError,
    },
}

/// Returns the error of a read or a write of a file.
pub fn file_error(alloc: Global, file: &str, error: io::Error) -> SymbolsError
    ensures { IsFileError file.now error result }
{
    match String::from_str(alloc, file) {
        Ok(file) => SymbolsError::File { file, error },
        Err(failure) => SymbolsError::Memory(failure),
    }
}

/// Returns the error of an archive that is to be written to a file.
pub fn write_error(alloc: Global, file: &str, error: WriteError<NoMemory>) -> SymbolsError
    ensures { IsWriteError file.now error result }
{
    match String::from_str(alloc, file) {
        Ok(file) => SymbolsError::Write { file, error },
        Err(failure) => SymbolsError::Memory(failure),
    }
}

/// Returns the error of a file that isn't a valid table or index.
pub fn invalid_error(alloc: Global, file: &str, error: VerifyError) -> SymbolsError
    ensures { IsValidationError file.now error result }
{
    match String::from_str(alloc, file) {
        Ok(file) => SymbolsError::Invalid { file, error },
        Err(failure) => SymbolsError::Memory(failure),
    }
}
