//! The numbers and names of errors, and the errors that end a run.

use rkyv_base::{IteratorLengthMismatch, NoMemory, VerifyError, WriteError};
use rkyv_dict::errors::{is_allocation_failure, verify_error_text, write_error_text};

#[test]
fn verify_errors_have_a_text(rt: HostRuntime) {
    expect_eq!(rt; verify_error_text(&VerifyError::OutOfRange { pos: -12, size: 9 }),
        "1 OutOfRange");
    expect_eq!(rt; verify_error_text(&VerifyError::Unaligned { pos: 1, align: 4 }), "2 Unaligned");
    expect_eq!(rt; verify_error_text(&VerifyError::InvalidLength { len: 3, cap: 2 }),
        "3 InvalidLength");
    expect_eq!(rt;
        verify_error_text(&VerifyError::WrongNumberOfElements { expected: 0, actual: 1 }),
        "4 WrongNumberOfElements"
    );
    expect_eq!(rt; verify_error_text(&VerifyError::UnwrappedControlByte { index: 16 }),
        "5 UnwrappedControlByte");
    expect_eq!(rt; verify_error_text(&VerifyError::PlaceOutOfRange { place: 4, len: 3 }),
        "6 PlaceOutOfRange");
    expect_eq!(rt; verify_error_text(&VerifyError::InvalidValue { pos: 12 }), "7 InvalidValue");
    expect_eq!(rt; verify_error_text(&VerifyError::Refused(0)), "8 Refused");
}

// Returns the text of an error, and whether it is an allocation failure.
fn text_and_failure(error: WriteError<NoMemory>) -> (&'static str, bool) {
    (write_error_text(&error), is_allocation_failure(&error))
}

#[test]
fn write_errors_have_a_text(rt: HostRuntime) {
    let mismatch = IteratorLengthMismatch {
        expected: 3,
        actual: 2,
    };
    expect_eq!(rt; text_and_failure(WriteError::InvalidLoadFactor { numerator: 8, denominator: 7 }),
        ("1 InvalidLoadFactor", false));
    expect_eq!(rt; text_and_failure(WriteError::IteratorLengthMismatch(mismatch)),
        ("2 IteratorLengthMismatch", false));
    expect_eq!(rt; text_and_failure(WriteError::CapacityTooLarge { len: 4_294_967_295 }),
        ("3 CapacityTooLarge", false));
    expect_eq!(rt; text_and_failure(WriteError::PositionTooLarge), ("4 PositionTooLarge", false));
    expect_eq!(rt; text_and_failure(WriteError::DistanceTooLarge), ("5 DistanceTooLarge", false));
    expect_eq!(rt; text_and_failure(WriteError::TextTooLong), ("6 TextTooLong", false));
    expect_eq!(rt; text_and_failure(WriteError::Writer(NoMemory)), ("7 Writer", true));
    expect_eq!(rt; text_and_failure(WriteError::Memory), ("8 Memory", true));
    expect_eq!(rt; text_and_failure(WriteError::Refused(5)), ("9 Refused", false));
}
