//! Tests of the texts of each error, of the conversions between errors, and of their comparison.

use rkyv_base::access::access;
use rkyv_base::errors::RoundTripError;
use rkyv_base::{
    DistanceTooLarge, IteratorLengthMismatch, LimitFault, NoMemory, PartRange, ReadError,
    VerifyError, WriteError, laws,
};
use std::alloc::{AllocError, Global};
use std::error::Error;
use std::fmt::Debug;

// Returns `true` if `Debug` formats a value as this text.
fn is_debugged<T: Debug + Drop>(alloc: Global, value: T, text: &str) -> bool {
    matches!(format!(in alloc; "{value:?}"), Ok(shown) if shown.as_str() == text)
}

// Returns `true` if an error has this message, through the trait `Error`.
fn has_message<E: Error>(alloc: Global, error: E, text: &str) -> bool {
    matches!(format!(in alloc; "{error}"), Ok(shown) if shown.as_str() == text)
}

// Returns `true` if an error of writing has this text of `Debug` and this message.
fn is_write_error(alloc: Global, error: WriteError<NoMemory>, debug: &str, message: &str) -> bool {
    is_debugged(alloc, error, debug) && has_message(alloc, error, message)
}

// Returns `true` if an error of validation has this text of `Debug` and this message.
fn is_verify_error(alloc: Global, error: VerifyError, debug: &str, message: &str) -> bool {
    is_debugged(alloc, error, debug) && has_message(alloc, error, message)
}

fn mismatch(expected: usize, actual: usize) -> IteratorLengthMismatch {
    IteratorLengthMismatch { expected, actual }
}

#[test]
fn errors_have_texts(rt: HostRuntime) {
    let alloc = rt.alloc();
    expect_eq!(rt; is_write_error(alloc,
        WriteError::InvalidLoadFactor { numerator: 8, denominator: 7 },
        "InvalidLoadFactor { numerator: 8, denominator: 7 }",
        "invalid load factor 8 / 7, load factor must be a fraction in the range (0, 1]"), true);
    expect_eq!(rt; is_write_error(alloc, WriteError::IteratorLengthMismatch(mismatch(3, 2)),
        "IteratorLengthMismatch(IteratorLengthMismatch { expected: 3, actual: 2 })",
        "iterator claimed that it contained 3 elements, but yielded 2 items during iteration"),
        true);
    expect_eq!(rt; is_write_error(alloc, WriteError::CapacityTooLarge { len: 4_294_967_295 },
        "CapacityTooLarge { len: 4294967295 }", "capacity too large for length 4294967295"), true);
    expect_eq!(rt; is_write_error(alloc, WriteError::PositionTooLarge, "PositionTooLarge",
        "position too large"), true);
    expect_eq!(rt; is_write_error(alloc, WriteError::DistanceTooLarge, "DistanceTooLarge",
        "distance too large"), true);
    expect_eq!(rt; is_write_error(alloc, WriteError::TextTooLong, "TextTooLong", "text too long"),
        true);
    expect_eq!(rt; is_write_error(alloc, WriteError::Writer(NoMemory), "Writer(NoMemory)",
        "writer fault"), true);
    expect_eq!(rt; is_write_error(alloc, WriteError::Memory, "Memory", "no memory"), true);
    expect_eq!(rt; is_write_error(alloc, WriteError::Refused(5), "Refused(5)", "refused 5"), true);
    expect_eq!(rt; is_verify_error(alloc, VerifyError::OutOfRange { pos: -12, size: 9 },
        "OutOfRange { pos: -12, size: 9 }", "9 bytes at -12 are out of range"), true);
    expect_eq!(rt; is_verify_error(alloc, VerifyError::Unaligned { pos: 1, align: 4 },
        "Unaligned { pos: 1, align: 4 }", "position 1 is no multiple of 4"), true);
    expect_eq!(rt; is_verify_error(alloc, VerifyError::InvalidLength { len: 3, cap: 2 },
        "InvalidLength { len: 3, cap: 2 }",
        "hash table length must be strictly less than its capacity (length: 3, capacity: 2)"),
        true);
    expect_eq!(rt; is_verify_error(alloc,
        VerifyError::WrongNumberOfElements { expected: 0, actual: 1 },
        "WrongNumberOfElements { expected: 0, actual: 1 }",
        "hash table contained a different number of elements than indicated by its length (expected: 0, actual: 1)",
        ), true);
    expect_eq!(rt; is_verify_error(alloc, VerifyError::UnwrappedControlByte { index: 16 },
        "UnwrappedControlByte { index: 16 }", "unwrapped control byte at index 16"), true);
    expect_eq!(rt; is_verify_error(alloc, VerifyError::PlaceOutOfRange { place: 4, len: 3 },
        "PlaceOutOfRange { place: 4, len: 3 }", "place 4 is not below 3"), true);
    expect_eq!(rt; is_verify_error(alloc, VerifyError::InvalidValue { pos: 12 },
        "InvalidValue { pos: 12 }", "invalid value at 12"), true);
    let refused = VerifyError::Refused(0);
    expect_eq!(rt; is_verify_error(alloc, refused, "Refused(0)", "refused 0"), true);
    let text =
        "iterator claimed that it contained 2 elements, but yielded 3 items during iteration";
    expect_eq!(rt; is_debugged(alloc, ReadError::Memory, "Memory"), true);
    expect_eq!(rt; is_debugged(alloc, ReadError::Refused(7), "Refused(7)"), true);
    expect_eq!(rt; is_debugged(alloc, mismatch(2, 3),
        "IteratorLengthMismatch { expected: 2, actual: 3 }"), true);
    expect_eq!(rt; is_debugged(alloc, DistanceTooLarge, "DistanceTooLarge"), true);
    expect_eq!(rt; is_debugged(alloc, NoMemory, "NoMemory"), true);
    expect_eq!(rt; is_debugged::<LimitFault<NoMemory>>(alloc, LimitFault::Full, "Full"), true);
    expect_eq!(rt; is_debugged(alloc, LimitFault::Inner(NoMemory), "Inner(NoMemory)"), true);
    expect_eq!(rt; has_message(alloc, ReadError::Memory, "no memory"), true);
    expect_eq!(rt; has_message(alloc, ReadError::Refused(7), "refused 7"), true);
    expect_eq!(rt; has_message(alloc, mismatch(2, 3), text), true);
    let inner = WriteError::Writer(LimitFault::Inner(NoMemory));
    expect_eq!(rt; has_message(alloc, inner, "writer fault"), true);
    expect_eq!(rt; has_message(alloc, DistanceTooLarge, "distance too large"), true);
    expect_eq!(rt; has_message(alloc, NoMemory, "no memory"), true);
    expect_eq!(rt; has_message::<LimitFault<NoMemory>>(alloc, LimitFault::Full, "limit reached"),
        true);
    expect_eq!(rt; has_message(alloc, LimitFault::Inner(NoMemory), "inner writer fault"), true);
}

#[test]
fn errors_are_compared(rt: HostRuntime) {
    let error = access::<u32>(&[0; 2]).err();
    let other = Some(VerifyError::OutOfRange { pos: -1, size: 4 });
    expect_eq!(rt; error, Some(VerifyError::OutOfRange { pos: -2, size: 4 }));
    expect_eq!(rt; error == other, false);
}

// Returns `true` if no value is equal to an earlier one.
fn are_distinct<T: PartialEq>(values: &[T]) -> bool {
    for index in 0..values.len() {
        for earlier in 0..index {
            if values[index] == values[earlier] {
                return false;
            }
        }
    }
    true
}

fn range(lo: u64, hi: u64) -> PartRange {
    PartRange { lo, hi }
}

fn load_factor(numerator: usize, denominator: usize) -> WriteError<ReadError> {
    WriteError::InvalidLoadFactor {
        numerator,
        denominator,
    }
}

#[test]
fn errors_differ_by_each_field(rt: HostRuntime) {
    laws::equal_are_the_same();
    laws::clones_are_the_same();
    expect_eq!(rt; are_distinct(&[range(0, 0), range(1, 0), range(0, 1)]), true);
    expect_eq!(rt; are_distinct(&[mismatch(0, 0), mismatch(1, 0), mismatch(0, 1)]), true);
    expect_eq!(rt; are_distinct(&[ReadError::Memory, ReadError::Refused(0), ReadError::Refused(1)]),
        true);
    expect_eq!(rt; are_distinct(&[LimitFault::Full, LimitFault::Inner(ReadError::Refused(0)),
        LimitFault::Inner(ReadError::Refused(1))]), true);
    expect_eq!(rt; are_distinct(&[RoundTripError::Write(WriteError::Memory),
        RoundTripError::Write(WriteError::TextTooLong), RoundTripError::Read(ReadError::Memory),
        RoundTripError::Read(ReadError::Refused(0))]), true);
    laws::equal_with_faults_are_the_same::<ReadError>();
    laws::clones_with_faults_are_the_same::<ReadError>();
    expect_eq!(rt; are_distinct(&[load_factor(0, 0), load_factor(1, 0), load_factor(0, 1),
        WriteError::IteratorLengthMismatch(mismatch(0, 0)),
        WriteError::IteratorLengthMismatch(mismatch(1, 0)),
        WriteError::IteratorLengthMismatch(mismatch(0, 1)),
        WriteError::CapacityTooLarge { len: 0 }, WriteError::CapacityTooLarge { len: 1 },
        WriteError::PositionTooLarge, WriteError::DistanceTooLarge, WriteError::TextTooLong,
        WriteError::Writer(ReadError::Refused(0)), WriteError::Writer(ReadError::Refused(1)),
        WriteError::Memory, WriteError::Refused(0), WriteError::Refused(1)]), true);
    expect_eq!(rt; are_distinct(&[VerifyError::OutOfRange { pos: 0, size: 0 },
        VerifyError::OutOfRange { pos: 1, size: 0 }, VerifyError::OutOfRange { pos: 0, size: 1 },
        VerifyError::Unaligned { pos: 0, align: 0 }, VerifyError::Unaligned { pos: 1, align: 0 },
        VerifyError::Unaligned { pos: 0, align: 1 }, VerifyError::InvalidLength { len: 0, cap: 0 },
        VerifyError::InvalidLength { len: 1, cap: 0 }, VerifyError::InvalidLength { len: 0,
        cap: 1 }, VerifyError::WrongNumberOfElements { expected: 0, actual: 0 },
        VerifyError::WrongNumberOfElements { expected: 1, actual: 0 },
        VerifyError::WrongNumberOfElements { expected: 0, actual: 1 },
        VerifyError::UnwrappedControlByte { index: 0 },
        VerifyError::UnwrappedControlByte { index: 1 }, VerifyError::PlaceOutOfRange { place: 0,
        len: 0 }, VerifyError::PlaceOutOfRange { place: 1, len: 0 },
        VerifyError::PlaceOutOfRange { place: 0, len: 1 }, VerifyError::InvalidValue { pos: 0 },
        VerifyError::InvalidValue { pos: 1 }, VerifyError::Refused(0), VerifyError::Refused(1)]),
        true);
}

// Returns the number of items in a list to which one is pushed.
fn pushed(alloc: Global) -> Result<usize, WriteError<NoMemory>> {
    let mut list = Vec::new(alloc);
    list.push(7u8)?;
    Ok(list.len())
}

#[test]
fn errors_are_converted(rt: HostRuntime) {
    laws::errors_are_converted::<NoMemory, u8>();
    let alloc = rt.alloc();
    let of_mismatch: WriteError<NoMemory> = WriteError::from(mismatch(3, 2));
    expect_eq!(rt; of_mismatch, WriteError::IteratorLengthMismatch(mismatch(3, 2)));
    expect_eq!(rt; WriteError::<NoMemory>::from(AllocError), WriteError::Memory);
    expect_eq!(rt; WriteError::<NoMemory>::from(DistanceTooLarge), WriteError::DistanceTooLarge);
    expect_eq!(rt; ReadError::from(AllocError), ReadError::Memory);
    let too_long: WriteError<NoMemory> = WriteError::TextTooLong;
    expect_eq!(rt; has_message(alloc, RoundTripError::from(too_long), "text too long"), true);
    let refused = RoundTripError::from(ReadError::Refused(5));
    expect_eq!(rt; has_message(alloc, refused, "refused 5"), true);
    expect_eq!(rt; pushed(alloc).ok(), Some(1));
}
