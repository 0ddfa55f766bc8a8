//! Values that differ in one field are unequal, and equal values are equal.
use rkyv_container::{ContainerError, Contents, Header, ItemType, Kind, Width};

const NUMBERS: Contents = Contents {
    kind: Kind::HashMap,
    key: ItemType::U32,
    value: ItemType::U32,
    width: Width::Narrow,
};

const HEADER: Header = Header {
    contents: NUMBERS,
    len: 60,
    checksum: Some(7),
};

// Returns whether a value is equal to itself and unequal to another one.
fn differ<T: PartialEq + Copy>(value: T, other: T) -> bool {
    value == value && value != other
}

#[test]
fn contents_and_headers_differ_by_each_field(rt: HostRuntime) {
    expect_eq!(rt; Kind::HashMap == Kind::HashMap, true);
    expect_eq!(rt; Kind::HashMap == Kind::IndexMap, false);
    expect_eq!(rt; ItemType::U32 == ItemType::U32, true);
    expect_eq!(rt; ItemType::U32 == ItemType::U64, false);
    expect_eq!(rt; Width::Narrow == Width::Narrow, true);
    expect_eq!(rt; Width::Narrow == Width::Wide, false);
    expect_eq!(rt; differ(Contents { kind: Kind::HashSet, key: ItemType::U32, value: ItemType::U32,
        width: Width::Narrow }, NUMBERS), true);
    expect_eq!(rt; differ(Contents { kind: Kind::HashMap, key: ItemType::U64, value: ItemType::U32,
        width: Width::Narrow }, NUMBERS), true);
    expect_eq!(rt; differ(Contents { kind: Kind::HashMap, key: ItemType::U32, value: ItemType::U64,
        width: Width::Narrow }, NUMBERS), true);
    expect_eq!(rt; differ(Contents { kind: Kind::HashMap, key: ItemType::U32, value: ItemType::U32,
        width: Width::Wide }, NUMBERS), true);
    let mut contents = NUMBERS;
    contents.value = ItemType::Unit;
    expect_eq!(rt; differ(Header { contents, len: 60, checksum: Some(7) }, HEADER), true);
    expect_eq!(rt; differ(Header { contents: NUMBERS, len: 61, checksum: Some(7) }, HEADER), true);
    expect_eq!(rt; differ(Header { contents: NUMBERS, len: 60, checksum: Some(8) }, HEADER), true);
    expect_eq!(rt; differ(Header { contents: NUMBERS, len: 60, checksum: None }, HEADER), true);
}

#[test]
fn errors_differ_by_each_field(rt: HostRuntime) {
    expect_eq!(rt; differ(ContainerError::TooShort { len: 3 }, ContainerError::TooShort { len: 4 }),
        true);
    expect_eq!(rt; differ(ContainerError::WrongMagic, ContainerError::TooShort { len: 4 }), true);
    expect_eq!(rt; differ(ContainerError::UnsupportedVersion(3),
        ContainerError::UnsupportedVersion(4)), true);
    expect_eq!(rt; differ(ContainerError::UnknownKind(3), ContainerError::UnknownKind(4)), true);
    expect_eq!(rt; differ(ContainerError::UnknownKeyType(3), ContainerError::UnknownKeyType(4)),
        true);
    expect_eq!(rt; differ(ContainerError::UnknownValueType(3), ContainerError::UnknownValueType(4)),
        true);
    expect_eq!(rt; differ(ContainerError::UnknownWidth(3), ContainerError::UnknownWidth(4)), true);
    expect_eq!(rt; differ(ContainerError::UnknownFlags(3), ContainerError::UnknownFlags(4)), true);
    expect_eq!(rt; differ(ContainerError::UnexpectedChecksum(3),
        ContainerError::UnexpectedChecksum(4)), true);
    expect_eq!(rt; differ(ContainerError::NonzeroReserved(3), ContainerError::NonzeroReserved(4)),
        true);
    expect_eq!(rt; differ(ContainerError::UnknownKeyType(3), ContainerError::UnknownValueType(3)),
        true);
    expect_eq!(rt; differ(ContainerError::WrongKind { expected: Kind::HashMap,
        found: Kind::HashSet }, ContainerError::WrongKind { expected: Kind::IndexMap,
        found: Kind::HashSet }), true);
    expect_eq!(rt; differ(ContainerError::WrongKind { expected: Kind::HashMap,
        found: Kind::HashSet }, ContainerError::WrongKind { expected: Kind::HashMap,
        found: Kind::IndexSet }), true);
    expect_eq!(rt; differ(ContainerError::WrongKeyType { expected: ItemType::U32,
        found: ItemType::Text }, ContainerError::WrongKeyType { expected: ItemType::U64,
        found: ItemType::Text }), true);
    expect_eq!(rt; differ(ContainerError::WrongKeyType { expected: ItemType::U32,
        found: ItemType::Text }, ContainerError::WrongKeyType { expected: ItemType::U32,
        found: ItemType::Bytes }), true);
    expect_eq!(rt; differ(ContainerError::WrongValueType { expected: ItemType::U32,
        found: ItemType::Text }, ContainerError::WrongValueType { expected: ItemType::U64,
        found: ItemType::Text }), true);
    expect_eq!(rt; differ(ContainerError::WrongValueType { expected: ItemType::U32,
        found: ItemType::Text }, ContainerError::WrongValueType { expected: ItemType::U32,
        found: ItemType::Bytes }), true);
    expect_eq!(rt; differ(ContainerError::WrongWidth { expected: Width::Narrow,
        found: Width::Wide }, ContainerError::WrongWidth { expected: Width::Wide,
        found: Width::Wide }), true);
    expect_eq!(rt; differ(ContainerError::WrongWidth { expected: Width::Narrow,
        found: Width::Wide }, ContainerError::WrongWidth { expected: Width::Narrow,
        found: Width::Narrow }), true);
    expect_eq!(rt; differ(ContainerError::WrongLength { expected: 5, found: 6 },
        ContainerError::WrongLength { expected: 4, found: 6 }), true);
    expect_eq!(rt; differ(ContainerError::WrongLength { expected: 5, found: 6 },
        ContainerError::WrongLength { expected: 5, found: 7 }), true);
    expect_eq!(rt; differ(ContainerError::WrongChecksum { expected: 5, found: 6 },
        ContainerError::WrongChecksum { expected: 4, found: 6 }), true);
    expect_eq!(rt; differ(ContainerError::WrongChecksum { expected: 5, found: 6 },
        ContainerError::WrongChecksum { expected: 5, found: 7 }), true);
}
