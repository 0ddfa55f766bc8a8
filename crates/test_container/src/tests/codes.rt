//! Tests of the codes of kinds, types and widths.
use rkyv_container::{ItemType, Kind, Width};

#[test]
fn kinds_and_widths_have_codes(rt: HostRuntime) {
    expect_eq!(rt; Kind::from_code(0), None);
    expect_eq!(rt; Kind::from_code(1), Some(Kind::HashMap));
    expect_eq!(rt; Kind::from_code(2), Some(Kind::HashSet));
    expect_eq!(rt; Kind::from_code(3), Some(Kind::IndexMap));
    expect_eq!(rt; Kind::from_code(4), Some(Kind::IndexSet));
    expect_eq!(rt; Kind::from_code(5), None);
    expect_eq!(rt; Width::from_code(0), None);
    expect_eq!(rt; Width::from_code(4), Some(Width::Narrow));
    expect_eq!(rt; Width::from_code(8), Some(Width::Wide));
    expect_eq!(rt; Width::from_code(16), None);
    expect_eq!(rt; Kind::HashMap.code(), 1);
    expect_eq!(rt; Kind::HashSet.code(), 2);
    expect_eq!(rt; Kind::IndexMap.code(), 3);
    expect_eq!(rt; Kind::IndexSet.code(), 4);
    expect_eq!(rt; Width::Narrow.code(), 4);
    expect_eq!(rt; Width::Wide.code(), 8);
}

// Returns whether a type has the code, and the code the type.
fn agree(item: ItemType, code: u8) -> bool {
    item.code() == code && ItemType::from_code(code) == Some(item)
}

#[test]
fn codes_of_types(rt: HostRuntime) {
    expect_eq!(rt; agree(ItemType::Unit, 0x01), true);
    expect_eq!(rt; agree(ItemType::Bool, 0x02), true);
    expect_eq!(rt; agree(ItemType::Char, 0x03), true);
    expect_eq!(rt; agree(ItemType::Text, 0x04), true);
    expect_eq!(rt; agree(ItemType::Bytes, 0x05), true);
    expect_eq!(rt; agree(ItemType::U8, 0x11), true);
    expect_eq!(rt; agree(ItemType::U16, 0x12), true);
    expect_eq!(rt; agree(ItemType::U32, 0x14), true);
    expect_eq!(rt; agree(ItemType::U64, 0x18), true);
    expect_eq!(rt; agree(ItemType::I8, 0x21), true);
    expect_eq!(rt; agree(ItemType::I16, 0x22), true);
    expect_eq!(rt; agree(ItemType::I32, 0x24), true);
    expect_eq!(rt; agree(ItemType::I64, 0x28), true);
    expect_eq!(rt; agree(ItemType::F32, 0x34), true);
    expect_eq!(rt; agree(ItemType::F64, 0x38), true);
}
