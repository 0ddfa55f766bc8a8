//! The errors of the program.
use crate::hashes::HashType;
use crate::kinds::Kind;
use rkyv_base::{NoMemory, ReadError, VerifyError, WriteError};
use std::alloc::{AllocError, Global};
use std::io;
use thiserror::Error;

/// The error with which the program fails.
#[derive(Debug, Drop, Error)]
pub enum ProgramError {
    /// The command line isn't two files.
    #[error("{}", crate::USAGE)]
    Misused,
    /// The arguments can't be read, or one isn't valid UTF-8.
    #[error("arguments: {0}")]
    Arguments(io::Error),
    /// Standard output can't be written.
    #[error("standard output: {0}")]
    Output(#[from] io::Error),
    /// An allocation failed.
    #[error("no memory")]
    Memory(#[from] AllocError),
    /// A file can't be read, or isn't valid UTF-8.
    #[error("{file}: {error}")]
    File {
        file: String,
        error: io::Error,
    },
    /// A line of a file is malformed or differs, or an allocation failed.
    #[error("{file}:{line}: {error}")]
    Line {
        file: String,
        line: usize,
        error: LineError,
    },
}

/// The error of a line.
#[derive(Debug, Drop, Error)]
pub enum LineError {
    /// The line is malformed.
    #[error("malformed: {0}")]
    Malformed(#[from] Malformed),
    /// The archive of a line differs.
    #[error("{kind}: {difference}")]
    Archive {
        kind: Kind,
        difference: Difference,
    },
    /// The hash of a line differs.
    #[error("the hash of {value} as {hash_type} is {found:016x}, and not {given:016x}")]
    Hash {
        hash_type: HashType,
        value: String,
        found: u64,
        given: u64,
    },
    /// An allocation failed.
    #[error("no memory")]
    Memory(#[from(alloc)] AllocError),
}

/// The first malformed part of a line.
#[derive(Clone, Copy, Debug, Error)]
pub enum Malformed {
    /// A line has another number of fields.
    #[error("another number of fields")]
    Fields,
    /// The collection is unknown.
    #[error("unknown collection")]
    Collection,
    /// A type is unknown.
    #[error("unknown type")]
    Type,
    /// No collection of the program has these types.
    #[error("types that aren't supported in this collection")]
    Types,
    /// The width is unknown.
    #[error("unknown width")]
    Width,
    /// A number isn't one of its type.
    #[error("a number that isn't one of its type")]
    Number,
    /// A `bool`, `char` or `()` isn't one.
    #[error("a value that isn't one of its type")]
    Value,
    /// An entry of a map has no `=`, or a pair no parentheses or comma.
    #[error("an entry that isn't a pair")]
    Pair,
    /// A value that is a map has no braces.
    #[error("a map without braces")]
    Braces,
    /// The count isn't the number of entries.
    #[error("a count that isn't the number of entries")]
    Count,
    /// The bytes aren't pairs of hexadecimal digits.
    #[error("bytes that aren't pairs of hexadecimal digits")]
    Bytes,
    /// The hash doesn't have sixteen hexadecimal digits.
    #[error("a hash that doesn't have sixteen hexadecimal digits")]
    Hash,
}

/// The first difference between this library and an archive.
#[derive(Debug, Drop, Error)]
pub enum Difference {
    /// The entries can't be archived.
    #[error("the entries can't be archived: {0}")]
    Write(#[from] WriteError<NoMemory>),
    /// The written bytes differ from the bytes of the line.
    #[error("bytes differ at {0}")]
    Bytes(usize),
    /// The bytes of the line aren't a valid archive.
    #[error("invalid archive: {0}")]
    Invalid(#[from] VerifyError),
    /// The length of the collection isn't the number of entries.
    #[error("length {0}")]
    Len(usize),
    /// The lookup of a key has another result.
    #[error("lookup of key {0}")]
    Lookup(String),
    /// The iteration doesn't visit exactly the entries.
    #[error("iteration")]
    Iteration,
    /// The collection can't be read back.
    #[error("read back: {0}")]
    Read(#[from] ReadError),
    /// The collection that was read back is another one.
    #[error("read back")]
    ReadBack,
    /// An allocation failed.
    #[error("no memory")]
    Memory(#[from(alloc)] AllocError),
}

/// Returns the error of a file that can't be read.
pub fn file_error(alloc: Global, file: &str, error: io::Error) -> ProgramError {
    match String::from_str(alloc, file) {
        Ok(file) => ProgramError::File { file, error },
        Err(failure) => ProgramError::Memory(failure),
    }
}

/// Returns the error of the line at `index` of a file.
pub fn line_error(alloc: Global, file: &str, index: usize, error: LineError) -> ProgramError {
    match String::from_str(alloc, file) {
        Ok(file) => ProgramError::Line {
            file,
            line: index.saturating_add(1),
            error,
        },
        Err(failure) => ProgramError::Memory(failure),
    }
}
