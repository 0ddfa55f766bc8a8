//! The errors of inspections.

use crate::tests::archives::ONE_NUMBER;
use crate::tests::support::{narrow, numbers};
use rkyv_base::VerifyError;
use rkyv_container::{ItemType, Kind};
use rkyv_inspect::{InspectError, inspect};
use std::alloc::AllocError;
use std::test::Fail;

#[test]
fn length_of_the_capacity(rt: HostRuntime) -> Result<(), Fail> {
    let mut bytes = ONE_NUMBER;
    bytes[52] = 2;
    let failed = inspect(rt.alloc(), &bytes, numbers(), 1000);
    let length = matches!(
        &failed,
        Err(InspectError::Invalid(VerifyError::InvalidLength { len: 2, cap: 2 }))
    );
    assert!(rt; length);
    Ok(())
}

#[test]
fn fewer_bytes_than_a_header(rt: HostRuntime) -> Result<(), Fail> {
    let text = match inspect(rt.alloc(), &ONE_NUMBER[..8], numbers(), 1000) {
        Ok(_) => String::from_str(rt.alloc(), "valid")?,
        Err(error) => format!(in rt.alloc(); "{error}")?,
    };
    expect_eq!(rt; text.as_str(), "12 bytes at -4 are out of range");
    Ok(())
}

// The values of `ONE_NUMBER` have the size of an `f32`, and aren't shown as integers.
#[test]
fn unsupported_types(rt: HostRuntime) {
    let rows = [
        (Kind::HashMap, ItemType::U8, ItemType::U32, ItemType::U8),
        (
            Kind::HashMap,
            ItemType::U32,
            ItemType::Bytes,
            ItemType::Bytes,
        ),
        (Kind::HashSet, ItemType::U32, ItemType::U32, ItemType::U32),
        (Kind::HashMap, ItemType::U32, ItemType::F32, ItemType::F32),
        (Kind::IndexMap, ItemType::U32, ItemType::F64, ItemType::F64),
        (Kind::HashMap, ItemType::F32, ItemType::U32, ItemType::F32),
    ];
    for (kind, key, value, expected) in &rows {
        let contents = narrow(*kind, *key, *value);
        let found = match inspect(rt.alloc(), &ONE_NUMBER, contents, 1000) {
            Err(InspectError::Unsupported(item)) => Some(item),
            _ => None,
        };
        expect_eq!(rt; found, Some(*expected));
    }
}

#[test]
fn errors_are_converted_into_those_of_their_names(rt: HostRuntime) {
    let invalid = InspectError::from(VerifyError::InvalidLength { len: 2, cap: 2 });
    let is_fault = matches!(
        &invalid,
        InspectError::Invalid(VerifyError::InvalidLength { len: 2, cap: 2 })
    );
    let memory = InspectError::from(AllocError);
    assert!(rt; is_fault && matches!(&memory, InspectError::Memory));
}
