//! The errors of reading a header and of opening a container.

use crate::contents::{ItemType, Kind, Width};
use thiserror::Error;

/// The error of reading a header or of opening a container: the first check that fails.
#[derive(Clone, Copy, Debug, PartialEq, Eq, Error)]
pub enum ContainerError {
    #[error("container of {len} bytes is shorter than its header of 32 bytes")]
    TooShort {
        /// The number of bytes.
        len: usize,
    },
    #[error("wrong magic bytes, this is no container")]
    WrongMagic,
    #[error("unsupported container version {0}")]
    UnsupportedVersion(u16),
    #[error("unknown kind of collection {0}")]
    UnknownKind(u8),
    #[error("unknown key type {0}")]
    UnknownKeyType(u8),
    #[error("unknown value type {0}")]
    UnknownValueType(u8),
    #[error("unknown width {0}")]
    UnknownWidth(u8),
    /// A flag other than the lowest bit is set.
    #[error("unknown flags {0}")]
    UnknownFlags(u16),
    /// The checksum field isn't 0, but no flag asks for a checksum.
    #[error("checksum {0} without its flag")]
    UnexpectedChecksum(u32),
    /// The reserved bytes aren't 0. The integer is theirs, little-endian.
    #[error("reserved bytes are {0} and not 0")]
    NonzeroReserved(u32),
    #[error("wrong kind of collection (expected: {expected}, found: {found})")]
    WrongKind {
        /// The kind that the caller expects.
        expected: Kind,
        found: Kind,
    },
    #[error("wrong key type (expected: {expected}, found: {found})")]
    WrongKeyType {
        /// The type of the keys that the caller expects.
        expected: ItemType,
        found: ItemType,
    },
    #[error("wrong value type (expected: {expected}, found: {found})")]
    WrongValueType {
        /// The type of the values that the caller expects.
        expected: ItemType,
        found: ItemType,
    },
    #[error("wrong width (expected: {expected}, found: {found})")]
    WrongWidth {
        /// The width that the caller expects.
        expected: Width,
        found: Width,
    },
    #[error("wrong archive length (expected: {expected}, found: {found})")]
    WrongLength {
        /// The length in the header.
        expected: u64,
        found: u64,
    },
    #[error("wrong checksum (expected: {expected}, found: {found})")]
    WrongChecksum {
        /// The checksum in the header.
        expected: u32,
        found: u32,
    },
}
