//! The errors of writing, of validation and of deserialization.
//!
//! - `WriteError` is the error of a write, with the fault of the writer.
//! - `VerifyError` is the first fault of a validation.
//! - `ReadError` is the error of a deserialization.
//! - `RoundTripError` is the error of writing a value and deserializing it.
//! - `DistanceTooLarge` is only the error of `resolve`.
//!
//! `?` converts an `AllocError` or an `AllocFailed` into the `Memory` of a `WriteError` or a
//! `ReadError`, and `DistanceTooLarge` into `WriteError::DistanceTooLarge`. It wraps an
//! `IteratorLengthMismatch` into a `WriteError`, and a `WriteError<NoMemory>` and a `ReadError`
//! into a `RoundTripError`.

ghost use Rattle.std.specs.Prelude.{◌≡◌};
ghost use Rattle.rkyv_base.specs.declared.errors.ReadError.TheVariants as read;
ghost use Rattle.rkyv_base.specs.declared.errors.RoundTripError.TheVariants.{Read, Write};
ghost use Rattle.rkyv_base.specs.declared.errors.WriteError.TheVariants as write;

use crate::writer::NoMemory;
use std::alloc::{AllocError, AllocFailed};
use thiserror::Error;

/// The error for a distance from a position to a part that doesn't fit in the width.
#[derive(Clone, Copy, Debug, PartialEq, Eq, Error)]
#[error("distance too large")]
pub struct DistanceTooLarge;

/// The error for an iterator that yields another number of items than it claimed.
#[derive(Clone, Copy, Debug, PartialEq, Eq, Error)]
#[error("iterator claimed that it contained {expected} elements, but yielded {actual} items during iteration")]
pub struct IteratorLengthMismatch {
    /// The number of items that the iterator claimed.
    pub expected: usize,
    /// The number of items that it yielded, counted up to one more than the claimed number.
    pub actual: usize,
}

/// The error of a write. `F` is the type of the writer's fault.
#[derive(Clone, Copy, Debug, PartialEq, Eq, Error)]
pub enum WriteError<F> {
    /// A part of the load factor is 0, or the numerator is greater than the denominator.
    #[error("invalid load factor {numerator} / {denominator}, load factor must be a fraction in the range (0, 1]")]
    InvalidLoadFactor {
        /// The numerator of the load factor.
        numerator: usize,
        denominator: usize,
    },
    /// An iterator yielded another number of items than it claimed.
    #[error("{0}")]
    IteratorLengthMismatch(IteratorLengthMismatch),
    /// A hash table of this length needs more buckets than the width's greatest capacity.
    #[error("capacity too large for length {len}")]
    CapacityTooLarge {
        /// The number of items.
        len: usize,
    },
    /// The next piece would end after the limit of the width. Nothing of it was written.
    #[error("position too large")]
    PositionTooLarge,
    /// A distance to a part that was written doesn't fit in the width.
    #[error("distance too large")]
    DistanceTooLarge,
    /// A text has 2^30 bytes or more, or 2^62 or more in a wide archive.
    #[error("text too long")]
    TextTooLong,
    /// The writer failed. It may have written a prefix of the piece.
    #[error("writer fault")]
    Writer(F),
    /// Memory could not be allocated for the write.
    #[error("no memory")]
    Memory,
    /// The value can't be archived, for a reason of its type: 0 is an entry that is too large.
    #[error("refused {0}")]
    Refused(u32),
}

impl<F> From<AllocError> for WriteError<F> {
    ghost from_gives = { λ _ e. e ≡ write.Memory };

    #[inline]
    fn from(_error: AllocError) -> WriteError<F> {
        WriteError::Memory
    }
}

impl<F, T: Drop> From<AllocFailed<T>> for WriteError<F> {
    ghost from_gives = { λ _ e. e ≡ write.Memory };

    #[inline]
    fn from(_error: AllocFailed<T>) -> WriteError<F> {
        WriteError::Memory
    }
}

impl<F> From<DistanceTooLarge> for WriteError<F> {
    ghost from_gives = { λ _ e. e ≡ write.DistanceTooLarge };

    #[inline]
    fn from(_error: DistanceTooLarge) -> WriteError<F> {
        WriteError::DistanceTooLarge
    }
}

impl<F> From<IteratorLengthMismatch> for WriteError<F> {
    ghost from_gives = { λ error e. e ≡ write.IteratorLengthMismatch error };

    #[inline]
    fn from(error: IteratorLengthMismatch) -> WriteError<F> {
        WriteError::IteratorLengthMismatch(error)
    }
}

/// The error of a validation: the first fault in the bytes.
#[derive(Clone, Copy, Debug, PartialEq, Eq, Error)]
pub enum VerifyError {
    /// A part or the root isn't inside its range, or the archive is longer than the limit.
    ///
    /// `pos` is negative if a distance leads before the start of the archive, if the buckets
    /// of a table would begin before it, or if the archive is shorter than its root.
    #[error("{size} bytes at {pos} are out of range")]
    OutOfRange {
        /// The position of the first byte of the part.
        pos: i128,
        size: u128,
    },
    /// The position of a part or the root is not a multiple of its alignment.
    #[error("position {pos} is no multiple of {align}")]
    Unaligned {
        pos: u64,
        /// The alignment of the part, in bytes.
        align: u64,
    },
    /// The length of a hash table is not below its capacity, and they are not both 0.
    #[error("hash table length must be strictly less than its capacity (length: {len}, capacity: {cap})")]
    InvalidLength {
        len: usize,
        /// The number of buckets of the table.
        cap: usize,
    },
    /// The number of full buckets of a hash table is not its length.
    #[error("hash table contained a different number of elements than indicated by its length (expected: {expected}, actual: {actual})")]
    WrongNumberOfElements {
        /// The length of the table.
        expected: usize,
        actual: usize,
    },
    /// A control byte after the buckets' own differs from the one that it mirrors or, from twice
    /// the capacity on, isn't empty.
    #[error("unwrapped control byte at index {index}")]
    UnwrappedControlByte {
        /// The index of the control byte.
        index: usize,
    },
    /// A bucket of an index map has an index that is not below the map's length.
    #[error("place {place} is not below {len}")]
    PlaceOutOfRange {
        /// The index in the bucket.
        place: usize,
        len: usize,
    },
    /// The fixed bytes at this position, or the text to which they lead, are not a valid value.
    #[error("invalid value at {pos}")]
    InvalidValue {
        /// The position of the fixed bytes.
        pos: u64,
    },
    /// The element rejects the value, for a reason of its type: 0 is an entry that is too large.
    #[error("refused {0}")]
    Refused(u32),
}

/// The error of a deserialization.
#[derive(Clone, Copy, Debug, PartialEq, Eq, Error)]
pub enum ReadError {
    /// Memory could not be allocated for the value.
    #[error("no memory")]
    Memory,
    /// The type rejects the value, for a reason of its own.
    #[error("refused {0}")]
    Refused(u32),
}

impl From<AllocError> for ReadError {
    ghost from_gives = { λ _ e. e ≡ read.Memory };

    #[inline]
    fn from(_error: AllocError) -> ReadError {
        ReadError::Memory
    }
}

impl<T: Drop> From<AllocFailed<T>> for ReadError {
    ghost from_gives = { λ _ e. e ≡ read.Memory };

    #[inline]
    fn from(_error: AllocFailed<T>) -> ReadError {
        ReadError::Memory
    }
}

/// The error of a round trip: a value is written to memory, and deserialized from its archive.
#[derive(Clone, Copy, Debug, PartialEq, Eq, Error)]
pub enum RoundTripError {
    /// The value could not be written.
    #[error("{0}")]
    Write(WriteError<NoMemory>),
    /// The value could not be deserialized.
    #[error("{0}")]
    Read(ReadError),
}

impl From<WriteError<NoMemory>> for RoundTripError {
    ghost from_gives = { λ error e. e ≡ Write error };

    #[inline]
    fn from(error: WriteError<NoMemory>) -> RoundTripError {
        RoundTripError::Write(error)
    }
}

impl From<ReadError> for RoundTripError {
    ghost from_gives = { λ error e. e ≡ Read error };

    #[inline]
    fn from(error: ReadError) -> RoundTripError {
        RoundTripError::Read(error)
    }
}
