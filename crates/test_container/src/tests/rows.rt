//! Worked rows: the bytes of containers, written down from the layout.
use rkyv_container::header::header_constants;
use rkyv_container::{Contents, Header, ItemType, Kind, Width, fill_header, open, open_as};
use std::process::Abort;

/// The header of the narrow hash map of `u32` with 1 to 2, which has 60 bytes, without a checksum.
pub(crate) const NUMBERS: [u8; 32] = [
    0x89, 0x52, 0x4b, 0x59, 0x56, 0x0d, 0x0a, 0x1a, // magic bytes
    0x01, 0x00, 0x01, 0x14, 0x14, 0x04, 0x00, 0x00, // version, contents, flags
    0x3c, 0x00, 0x00, 0x00, 0x00, 0x00, 0x00, 0x00, // length
    0x00, 0x00, 0x00, 0x00, 0x00, 0x00, 0x00, 0x00, // checksum, reserved
];

/// A container of a wide index set of text, with the nine bytes `Wikipedia` in place of an archive.
pub(crate) const NAMES: [u8; 41] = [
    0x89, 0x52, 0x4b, 0x59, 0x56, 0x0d, 0x0a, 0x1a, // magic bytes
    0x01, 0x00, 0x04, 0x04, 0x01, 0x08, 0x01, 0x00, // version, contents, flags
    0x09, 0x00, 0x00, 0x00, 0x00, 0x00, 0x00, 0x00, // length
    0x98, 0x03, 0xe6, 0x11, 0x00, 0x00, 0x00, 0x00, // checksum, reserved
    0x57, 0x69, 0x6b, 0x69, 0x70, 0x65, 0x64, 0x69, 0x61, // archive
];

pub(crate) fn numbers() -> Contents {
    Contents {
        kind: Kind::HashMap,
        key: ItemType::U32,
        value: ItemType::U32,
        width: Width::Narrow,
    }
}

pub(crate) fn names() -> Contents {
    Contents {
        kind: Kind::IndexSet,
        key: ItemType::Text,
        value: ItemType::Unit,
        width: Width::Wide,
    }
}

fn names_header() -> Header {
    Header {
        contents: names(),
        len: 9,
        checksum: Some(0x11e6_0398),
    }
}

#[test]
fn headers_are_written_and_read(rt: HostRuntime) {
    let header = Header::new(numbers(), &[0; 60], false);
    let long = Header {
        contents: numbers(),
        len: 0x0807_0605_0403_0201,
        checksum: Some(0x0c0b_0a09),
    };
    let mut out = [0xff; 32];
    long.write(&mut out);
    assert_eq!(rt; header.to_bytes(), NUMBERS);
    expect_eq!(rt; &out[16..], [1, 2, 3, 4, 5, 6, 7, 8, 9, 10, 11, 12, 0, 0, 0, 0].as_slice());
    header_constants();
    let header = Header {
        contents: numbers(),
        len: 60,
        checksum: None,
    };
    assert_eq!(rt; Header::read(&NUMBERS), Ok(header));
    expect_eq!(rt; Header::read(&NAMES), Ok(names_header()));
}

// Returns the bytes of the header of numbers with these codes of its key and value types.
fn header_of_types(key: u8, value: u8) -> [u8; 32] {
    let mut bytes = NUMBERS;
    bytes[11] = key;
    bytes[12] = value;
    bytes
}

// Fails the test unless the header of numbers with these types is written as bytes with their
// codes and read from them, in each row: the key type and its code, the value type and its code.
fn expect_types(rt: &impl Abort, rows: &[(ItemType, u8, ItemType, u8)]) {
    for (key, key_code, value, value_code) in rows {
        let mut contents = numbers();
        contents.key = *key;
        contents.value = *value;
        let header = Header::new(contents, &[0; 60], false);
        let bytes = header_of_types(*key_code, *value_code);
        expect_eq!(*rt; header.to_bytes(), bytes);
        expect_eq!(*rt; Header::read(&bytes), Ok(header));
    }
}

// A header with floats as keys is read, although no collection has such keys.
#[test]
fn headers_of_floats_are_written_and_read(rt: HostRuntime) {
    expect_types(
        &rt,
        &[
            (ItemType::U32, 0x14, ItemType::F32, 0x34),
            (ItemType::U32, 0x14, ItemType::F64, 0x38),
            (ItemType::F32, 0x34, ItemType::U32, 0x14),
            (ItemType::F64, 0x38, ItemType::U32, 0x14),
        ],
    );
}

#[test]
fn containers_are_sealed(rt: HostRuntime) {
    let mut bytes = [0; 41];
    bytes[32..].copy_from_slice(b"Wikipedia");
    let header = fill_header(&mut bytes, names(), true);
    assert_eq!(rt; header, names_header());
    assert_eq!(rt; bytes, NAMES);
}

// Returns whether `open` returns this header and archive.
fn opens(bytes: &[u8], header: Header, archive: &[u8]) -> bool {
    match open(bytes) {
        Ok((found, rest)) => found == header && rest == archive,
        Err(_) => false,
    }
}

// Returns whether `open_as` returns this archive.
fn opens_as(bytes: &[u8], contents: Contents, archive: &[u8]) -> bool {
    match open_as(bytes, contents) {
        Ok(found) => found == archive,
        Err(_) => false,
    }
}

#[test]
fn containers_are_opened(rt: HostRuntime) {
    let mut empty = [0xff; 32];
    let header = fill_header(&mut empty, numbers(), true);
    expect_eq!(rt; opens(&NAMES, names_header(), b"Wikipedia"), true);
    expect_eq!(rt; opens_as(&NAMES, names(), b"Wikipedia"), true);
    expect_eq!(rt; opens(&empty, header, b""), true);
    expect_eq!(rt; opens_as(&empty, numbers(), b""), true);
    expect_eq!(rt; opens_as(&empty, names(), b""), false);
    expect_eq!(rt; header.checksum, Some(1));
}
