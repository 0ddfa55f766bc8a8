//! Tests of the texts of errors, kinds and types.
use rkyv_container::{ContainerError, ItemType, Kind, Width, laws};
use std::alloc::Global;
use std::fmt::Display;

// Returns `true` if a value is formatted as this text.
fn shows<T: Display + Drop>(alloc: Global, value: T, text: &str) -> bool {
    match value.to_string(alloc) {
        Ok(shown) => shown.as_str() == text,
        Err(_) => false,
    }
}

#[test]
fn errors_have_messages(rt: HostRuntime) {
    expect_eq!(rt; shows(rt.alloc(), ContainerError::TooShort { len: 31 },
        "container of 31 bytes is shorter than its header of 32 bytes"), true);
    expect_eq!(rt; shows(rt.alloc(), ContainerError::WrongMagic,
        "wrong magic bytes, this is no container"), true);
    expect_eq!(rt; shows(rt.alloc(), ContainerError::UnsupportedVersion(2),
        "unsupported container version 2"), true);
    expect_eq!(rt; shows(rt.alloc(), ContainerError::UnknownKind(5),
        "unknown kind of collection 5"), true);
    expect_eq!(rt; shows(rt.alloc(), ContainerError::UnknownKeyType(6), "unknown key type 6"),
        true);
    expect_eq!(rt; shows(rt.alloc(), ContainerError::UnknownValueType(7), "unknown value type 7"),
        true);
    expect_eq!(rt; shows(rt.alloc(), ContainerError::UnknownWidth(16), "unknown width 16"), true);
    expect_eq!(rt; shows(rt.alloc(), ContainerError::UnknownFlags(2), "unknown flags 2"), true);
    expect_eq!(rt; shows(rt.alloc(), ContainerError::UnexpectedChecksum(7),
        "checksum 7 without its flag"), true);
    expect_eq!(rt; shows(rt.alloc(), ContainerError::NonzeroReserved(1),
        "reserved bytes are 1 and not 0"), true);
    expect_eq!(rt; shows(rt.alloc(),
        ContainerError::WrongKind { expected: Kind::HashMap, found: Kind::IndexSet },
        "wrong kind of collection (expected: hash map, found: index set)"), true);
    expect_eq!(rt; shows(rt.alloc(),
        ContainerError::WrongKeyType { expected: ItemType::Text, found: ItemType::U32 },
        "wrong key type (expected: text, found: u32)"), true);
    expect_eq!(rt; shows(rt.alloc(),
        ContainerError::WrongValueType { expected: ItemType::Unit, found: ItemType::I64 },
        "wrong value type (expected: (), found: i64)"), true);
    expect_eq!(rt; shows(rt.alloc(),
        ContainerError::WrongWidth { expected: Width::Narrow, found: Width::Wide },
        "wrong width (expected: narrow, found: wide)"), true);
    expect_eq!(rt; shows(rt.alloc(), ContainerError::WrongLength { expected: 60, found: 59 },
        "wrong archive length (expected: 60, found: 59)"), true);
    expect_eq!(rt; shows(rt.alloc(), ContainerError::WrongChecksum { expected: 2, found: 1 },
        "wrong checksum (expected: 2, found: 1)"), true);
}

#[test]
fn types_and_kinds_have_names(rt: HostRuntime) {
    laws::displayed_as_named();
    expect_eq!(rt; shows(rt.alloc(), ItemType::Unit, "()"), true);
    expect_eq!(rt; shows(rt.alloc(), ItemType::Bool, "bool"), true);
    expect_eq!(rt; shows(rt.alloc(), ItemType::Char, "char"), true);
    expect_eq!(rt; shows(rt.alloc(), ItemType::Text, "text"), true);
    expect_eq!(rt; shows(rt.alloc(), ItemType::Bytes, "bytes"), true);
    expect_eq!(rt; shows(rt.alloc(), ItemType::U8, "u8"), true);
    expect_eq!(rt; shows(rt.alloc(), ItemType::U16, "u16"), true);
    expect_eq!(rt; shows(rt.alloc(), ItemType::U32, "u32"), true);
    expect_eq!(rt; shows(rt.alloc(), ItemType::U64, "u64"), true);
    expect_eq!(rt; shows(rt.alloc(), ItemType::I8, "i8"), true);
    expect_eq!(rt; shows(rt.alloc(), ItemType::I16, "i16"), true);
    expect_eq!(rt; shows(rt.alloc(), ItemType::I32, "i32"), true);
    expect_eq!(rt; shows(rt.alloc(), ItemType::I64, "i64"), true);
    expect_eq!(rt; shows(rt.alloc(), ItemType::F32, "f32"), true);
    expect_eq!(rt; shows(rt.alloc(), ItemType::F64, "f64"), true);
    expect_eq!(rt; shows(rt.alloc(), Kind::HashMap, "hash map"), true);
    expect_eq!(rt; shows(rt.alloc(), Kind::HashSet, "hash set"), true);
    expect_eq!(rt; shows(rt.alloc(), Kind::IndexMap, "index map"), true);
    expect_eq!(rt; shows(rt.alloc(), Kind::IndexSet, "index set"), true);
}
