//! Tests of each error, at its least and its greatest wrong byte, and of the order of the checks.
ghost use Rattle.std.specs.Prelude.{◌<◌, ◌≤◌};

use crate::tests::rows::{NAMES, NUMBERS, names};
use rkyv_container::{ContainerError, Contents, Header, ItemType, Kind, Width, open, open_as};

// Returns the error of reading the header of numbers with another byte at `at`.
fn header_fault(at: usize, byte: u8) -> Option<ContainerError>
    requires { at < 32 }
{
    let mut bytes = NUMBERS;
    bytes[at] = byte;
    Header::read(&bytes).err()
}

// Returns the error of opening bytes.
fn open_fault(bytes: &[u8]) -> Option<ContainerError> {
    match open(bytes) {
        Ok(_) => None,
        Err(e) => Some(e),
    }
}

// Returns the error of opening the container of names with another byte at `at`.
fn names_fault(at: usize, byte: u8) -> Option<ContainerError>
    requires { at < 41 }
{
    let mut bytes = NAMES;
    bytes[at] = byte;
    open_fault(&bytes)
}

// Returns the error of opening bytes with the expected contents.
fn open_as_fault(bytes: &[u8], expected: Contents) -> Option<ContainerError> {
    match open_as(bytes, expected) {
        Ok(_) => None,
        Err(e) => Some(e),
    }
}

#[test]
fn faults_of_headers_are_errors(rt: HostRuntime) {
    expect_eq!(rt; Header::read(&NUMBERS[..31]), Err(ContainerError::TooShort { len: 31 }));
    expect_eq!(rt; open_fault(b""), Some(ContainerError::TooShort { len: 0 }));
    expect_eq!(rt; header_fault(0, 0x88), Some(ContainerError::WrongMagic));
    expect_eq!(rt; header_fault(7, 0x1b), Some(ContainerError::WrongMagic));
    expect_eq!(rt; header_fault(8, 0), Some(ContainerError::UnsupportedVersion(0)));
    expect_eq!(rt; header_fault(8, 2), Some(ContainerError::UnsupportedVersion(2)));
    expect_eq!(rt; header_fault(9, 1), Some(ContainerError::UnsupportedVersion(257)));
    expect_eq!(rt; header_fault(8, 1), None);
    expect_eq!(rt; header_fault(10, 0), Some(ContainerError::UnknownKind(0)));
    expect_eq!(rt; header_fault(10, 5), Some(ContainerError::UnknownKind(5)));
    expect_eq!(rt; header_fault(11, 0), Some(ContainerError::UnknownKeyType(0)));
    expect_eq!(rt; header_fault(11, 0x13), Some(ContainerError::UnknownKeyType(19)));
    expect_eq!(rt; header_fault(12, 6), Some(ContainerError::UnknownValueType(6)));
    expect_eq!(rt; header_fault(12, 0xff), Some(ContainerError::UnknownValueType(255)));
    expect_eq!(rt; header_fault(11, 0x33), Some(ContainerError::UnknownKeyType(51)));
    expect_eq!(rt; header_fault(12, 0x32), Some(ContainerError::UnknownValueType(50)));
    expect_eq!(rt; header_fault(12, 0x39), Some(ContainerError::UnknownValueType(57)));
    expect_eq!(rt; header_fault(13, 0), Some(ContainerError::UnknownWidth(0)));
    expect_eq!(rt; header_fault(13, 16), Some(ContainerError::UnknownWidth(16)));
    expect_eq!(rt; header_fault(14, 2), Some(ContainerError::UnknownFlags(2)));
    expect_eq!(rt; header_fault(15, 1), Some(ContainerError::UnknownFlags(256)));
    expect_eq!(rt; header_fault(24, 7), Some(ContainerError::UnexpectedChecksum(7)));
    expect_eq!(rt; header_fault(27, 0x80), Some(ContainerError::UnexpectedChecksum(2_147_483_648)));
    expect_eq!(rt; header_fault(28, 1), Some(ContainerError::NonzeroReserved(1)));
    expect_eq!(rt; header_fault(31, 0x80), Some(ContainerError::NonzeroReserved(2_147_483_648)));
    expect_eq!(rt; open_fault(&NAMES[..40]),
        Some(ContainerError::WrongLength { expected: 9, found: 8 }));
    expect_eq!(rt; open_fault(&NAMES[..32]),
        Some(ContainerError::WrongLength { expected: 9, found: 0 }));
    expect_eq!(rt; names_fault(16, 8), Some(ContainerError::WrongLength { expected: 8, found: 9 }));
    expect_eq!(rt; names_fault(23, 1),
        Some(ContainerError::WrongLength { expected: 72_057_594_037_927_945, found: 9 }));
    // The last byte of `Wikipedia` is `a`; with `b` both sums are one more.
    expect_eq!(rt; names_fault(24, 0x99),
        Some(ContainerError::WrongChecksum { expected: 0x11e6_0399, found: 0x11e6_0398 }));
    expect_eq!(rt; names_fault(40, b'b'),
        Some(ContainerError::WrongChecksum { expected: 0x11e6_0398, found: 0x11e7_0399 }));
    expect_eq!(rt; names_fault(14, 0), Some(ContainerError::UnexpectedChecksum(0x11e6_0398)));
    let mut kind = names();
    kind.kind = Kind::HashSet;
    let mut key = names();
    key.key = ItemType::U32;
    let mut value = names();
    value.value = ItemType::Text;
    let mut width = names();
    width.width = Width::Narrow;
    expect_eq!(rt; open_as_fault(&NAMES, kind),
        Some(ContainerError::WrongKind { expected: Kind::HashSet, found: Kind::IndexSet }));
    expect_eq!(rt; open_as_fault(&NAMES, key),
        Some(ContainerError::WrongKeyType { expected: ItemType::U32, found: ItemType::Text }));
    expect_eq!(rt; open_as_fault(&NAMES, value),
        Some(ContainerError::WrongValueType { expected: ItemType::Text, found: ItemType::Unit }));
    expect_eq!(rt; open_as_fault(&NAMES, width),
        Some(ContainerError::WrongWidth { expected: Width::Narrow, found: Width::Wide }));
    expect_eq!(rt; open_as_fault(&NAMES, names()), None);
}

// Returns the first `len` bytes of the container of names, followed by bytes 0xff.
fn names_up_to(len: usize) -> [u8; 40]
    requires { len ≤ 40 }
{
    let mut bytes = [0xff; 40];
    bytes[..len].copy_from_slice(&NAMES[..len]);
    bytes
}

// Of several faults the first in the order of the checks is returned.
#[test]
fn the_first_fault_is_returned(rt: HostRuntime) {
    expect_eq!(rt; open_fault(&names_up_to(0)), Some(ContainerError::WrongMagic));
    expect_eq!(rt; open_fault(&names_up_to(8)), Some(ContainerError::UnsupportedVersion(65_535)));
    expect_eq!(rt; open_fault(&names_up_to(10)), Some(ContainerError::UnknownKind(255)));
    expect_eq!(rt; open_fault(&names_up_to(14)), Some(ContainerError::UnknownFlags(65_535)));
    expect_eq!(rt; open_fault(&names_up_to(28)),
        Some(ContainerError::NonzeroReserved(4_294_967_295)));
    let bytes = names_up_to(32);
    let mut contents = names();
    contents.width = Width::Narrow;
    expect_eq!(rt; open_as_fault(&bytes, contents),
        Some(ContainerError::WrongWidth { expected: Width::Narrow, found: Width::Wide }));
    expect_eq!(rt; open_as_fault(&bytes, names()),
        Some(ContainerError::WrongLength { expected: 9, found: 8 }));
}
