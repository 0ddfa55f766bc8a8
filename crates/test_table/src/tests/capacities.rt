//! The errors of capacities, by their texts.

use rkyv_base::{NoMemory, WriteError};
use rkyv_table::controls::laws;
use rkyv_table::controls::numbers::{CapacityError, capacity};
use std::alloc::Global;

// Returns `true` if the error of a capacity has this text of `Debug`.
fn fails_with(alloc: Global, len: usize, load_factor: (usize, usize), text: &str) -> bool {
    match capacity(len, load_factor, 4_294_967_295) {
        Ok(_) => false,
        Err(error) => match format!(in alloc; "{error:?}") {
            Ok(shown) => shown.as_str() == text,
            Err(_) => false,
        },
    }
}

#[test]
fn errors_of_capacities_have_a_debug_text(rt: HostRuntime) {
    let alloc = rt.alloc();
    expect_eq!(rt; fails_with(alloc, 1, (8, 7),
        "InvalidLoadFactor { numerator: 8, denominator: 7 }"), true);
    expect_eq!(rt; fails_with(alloc, 4_294_967_295, (1, 1), "CapacityTooLarge { len: 4294967295 }"),
        true);
    let error = CapacityError::InvalidLoadFactor {
        numerator: 8,
        denominator: 7,
    };
    expect_eq!(rt; capacity(1, (8, 7), 2) == Err(error), true);
}

// Returns whether an error is displayed as this text.
fn is_displayed(alloc: Global, error: CapacityError, text: &str) -> bool {
    matches!(format!(in alloc; "{error}"), Ok(shown) if shown.as_str() == text)
}

#[test]
fn errors_of_capacities_are_write_errors(rt: HostRuntime) {
    let alloc = rt.alloc();
    expect_eq!(rt; is_displayed(alloc,
        CapacityError::InvalidLoadFactor { numerator: 8, denominator: 7 },
        "invalid load factor 8 / 7, load factor must be a fraction in the range (0, 1]"), true);
    expect_eq!(rt; is_displayed(alloc, CapacityError::CapacityTooLarge { len: 9 },
        "capacity too large for length 9"), true);
    laws::capacity_errors_are_converted::<NoMemory>();
    let fraction = WriteError::from(CapacityError::InvalidLoadFactor {
        numerator: 8,
        denominator: 7,
    });
    let size = WriteError::from(CapacityError::CapacityTooLarge { len: 9 });
    let expected: [WriteError<NoMemory>; 2] = [
        WriteError::InvalidLoadFactor {
            numerator: 8,
            denominator: 7,
        },
        WriteError::CapacityTooLarge { len: 9 },
    ];
    expect_eq!(rt; [fraction, size], expected);
}

const ERROR: CapacityError = CapacityError::InvalidLoadFactor {
    numerator: 8,
    denominator: 7,
};

// Each error but the first differs from the first one in one field or in its variant.
#[test]
fn errors_of_capacities_are_unequal_if_a_field_is(rt: HostRuntime) {
    laws::equal_errors_are_the_same();
    laws::clones_are_the_same();
    let others = [
        CapacityError::InvalidLoadFactor {
            numerator: 9,
            denominator: 7,
        },
        CapacityError::InvalidLoadFactor {
            numerator: 8,
            denominator: 6,
        },
        CapacityError::CapacityTooLarge { len: 8 },
    ];
    let same = [ERROR == others[0], ERROR == others[1], ERROR == others[2]];
    let lengths = CapacityError::CapacityTooLarge { len: 9 } == others[2];
    expect_eq!(rt; (ERROR == ERROR, same, lengths), (true, [false; 3], false));
}
