//! Tests of the calls for containers, on containers of three bytes.
//!
//! These calls don't validate an archive, so the three bytes are none.

use crate::tests::calls::{Contents, INDEX_MAP, MAP, Numbers, SET, codes, numbers_of};
use crate::tests::expect_equal;
use ffi_calls::containers::{
    Opened, container_width, explain_container, open_container, update_container, write_header,
};

// The container of the bytes 1, 2, 3 as a narrow map of texts to numbers of 64 bits.
//
// The sums of Adler-32 are 1 + 1 + 2 + 3 = 7 and 3 + 3 * 1 + 2 * 2 + 3 = 13.
const TEXTS: &[u8; 35] = &[
    0x89, b'R', b'K', b'Y', b'V', b'\r', b'\n', 0x1a, // magic bytes
    1, 0, 1, 4, 0x18, 4, 1, 0, // version, hash map, text, u64, narrow, a checksum
    3, 0, 0, 0, 0, 0, 0, 0, // length
    7, 0, 13, 0, 0, 0, 0, 0, // checksum, reserved
    1, 2, 3,
];

// The contents of `TEXTS`.
const OF_TEXTS: Contents = (MAP, 4, 0x18, 4);

// The contents of an index map of texts to numbers of 64 bits.
const OF_INDEX: Contents = (INDEX_MAP, 4, 0x18, 4);

// Returns the container of the bytes 1, 2, 3 with these contents.
fn container((kind, key, value, width): Contents) -> [u8; 35] {
    let mut bytes = *TEXTS;
    bytes[10] = kind;
    bytes[11] = key;
    bytes[12] = value;
    bytes[13] = width;
    bytes
}

// Returns the container with another byte at `pos`.
fn with_byte(pos: usize, byte: u8) -> [u8; 35] {
    let mut bytes = *TEXTS;
    if let Some(old) = bytes.get_mut(pos) {
        *old = byte;
    }
    bytes
}

// Returns the status of opening a container, the length of the archive that is found, and the
// numbers of the first error.
fn opened(bytes: &[u8], contents: Contents) -> (u32, usize, Numbers) {
    let codes = codes(contents);
    let mut opened = Opened { archive: &[] };
    let status = open_container(bytes, codes, &mut opened);
    let Opened { archive } = opened;
    let numbers = numbers_of(explain_container(bytes, codes));
    (status, archive.len(), numbers)
}

// Returns the result of opening that has these numbers.
fn result_of(numbers: Numbers) -> (u32, usize, Numbers) {
    (numbers.0, if numbers.0 == 0 { 3 } else { 0 }, numbers)
}

// Returns the result of opening the first bytes of the container with these contents.
fn opened_to(len: usize, contents: Contents) -> (u32, usize, Numbers) {
    let bytes = container(contents);
    opened(bytes.get(..len).unwrap_or(&[]), contents)
}

// Returns the status of writing a header, and whether it is that of the container. One without a
// checksum has no flag.
fn writes(contents: Contents, checked: bool) -> (u32, bool) {
    let mut header = [9; 32];
    let status = write_header(&[1, 2, 3], codes(contents), checked, &mut header);
    let mut expected = container(contents);
    if !checked {
        expected[14] = 0;
        expected[24] = 0;
        expected[26] = 0;
    }
    (
        status,
        header.as_slice() == expected.get(..32).unwrap_or(&[]),
    )
}

// Returns the status of reading a width, and whether it is wide, or `before` after an error.
fn width_of(bytes: &[u8], before: bool) -> (u32, bool) {
    let mut wide = before;
    let status = container_width(bytes, &mut wide);
    (status, wide)
}

#[test]
fn containers_open_as_their_own_form(rt: HostRuntime) {
    let rows: [(Contents, Contents, Numbers); 32] = [
        (OF_TEXTS, OF_TEXTS, (0, 0, 0, 0)),
        (OF_TEXTS, (MAP, 0x14, 0x18, 4), (43, 0, 0x14, 4)),
        (OF_TEXTS, (MAP, 4, 0x14, 4), (44, 0, 0x14, 0x18)),
        (OF_TEXTS, (MAP, 4, 0x18, 8), (45, 0, 8, 4)),
        (OF_TEXTS, (MAP, 0x14, 0x14, 8), (43, 0, 0x14, 4)),
        (OF_TEXTS, (MAP, 0x18, 0x18, 4), (43, 0, 0x18, 4)),
        (OF_TEXTS, (MAP, 4, 4, 4), (44, 0, 4, 0x18)),
        (OF_TEXTS, OF_INDEX, (42, 0, 3, 1)),
        (OF_TEXTS, (SET, 4, 1, 4), (42, 0, 2, 1)),
        (OF_INDEX, OF_INDEX, (0, 0, 0, 0)),
        (OF_INDEX, (INDEX_MAP, 0x14, 0x18, 4), (43, 0, 0x14, 4)),
        (OF_INDEX, (INDEX_MAP, 4, 0x14, 4), (44, 0, 0x14, 0x18)),
        (OF_INDEX, (INDEX_MAP, 4, 0x18, 8), (45, 0, 8, 4)),
        (OF_INDEX, OF_TEXTS, (42, 0, 1, 3)),
        ((MAP, 0x18, 0x14, 8), (MAP, 0x18, 0x14, 8), (0, 0, 0, 0)),
        (
            (MAP, 0x18, 0x14, 8),
            (MAP, 0x14, 0x14, 8),
            (43, 0, 0x14, 0x18),
        ),
        (
            (MAP, 0x18, 0x14, 8),
            (MAP, 0x18, 0x18, 8),
            (44, 0, 0x18, 0x14),
        ),
        ((MAP, 0x18, 0x14, 8), (MAP, 0x18, 0x14, 4), (45, 0, 4, 8)),
        ((MAP, 4, 4, 4), (MAP, 4, 4, 4), (0, 0, 0, 0)),
        ((MAP, 4, 4, 4), (MAP, 0x14, 4, 4), (43, 0, 0x14, 4)),
        ((MAP, 4, 4, 4), (MAP, 4, 4, 8), (45, 0, 8, 4)),
        ((MAP, 4, 4, 4), OF_TEXTS, (44, 0, 0x18, 4)),
        ((MAP, 0x14, 4, 8), (MAP, 0x14, 4, 8), (0, 0, 0, 0)),
        ((MAP, 0x14, 4, 8), (MAP, 4, 4, 8), (43, 0, 4, 0x14)),
        ((SET, 0x14, 1, 4), (SET, 0x14, 1, 4), (0, 0, 0, 0)),
        ((SET, 0x14, 1, 4), (SET, 4, 1, 4), (43, 0, 4, 0x14)),
        ((SET, 4, 1, 8), (SET, 4, 1, 8), (0, 0, 0, 0)),
        ((SET, 4, 1, 8), (SET, 4, 1, 4), (45, 0, 4, 8)),
        ((SET, 4, 1, 8), OF_TEXTS, (42, 0, 1, 2)),
        (OF_TEXTS, (0, 4, 0x18, 4), (7, 0, 0, 0)),
        (OF_TEXTS, (MAP, 6, 0x18, 4), (7, 0, 0, 0)),
        (OF_TEXTS, (MAP, 4, 0x18, 32), (7, 0, 0, 0)),
    ];
    for (contents, others, numbers) in rows {
        expect_equal(
            &rt,
            opened(&container(contents), others),
            result_of(numbers),
        );
    }
    let unknown = result_of((7, 0, 0, 0));
    for codes in [(5, 4, 0x18, 4), (MAP, 4, 0, 4), (MAP, 4, 0x18, 0)] {
        expect_equal(&rt, opened(TEXTS, codes), unknown);
    }
}

// The sums of Adler-32 of 1, 2 and 4 are 8 and 14, and those of 2, 2 and 3 are 8 and 16.
#[test]
fn damaged_containers_have_their_errors(rt: HostRuntime) {
    let rows: [(usize, u8, Numbers); 22] = [
        (0, 0x89, (0, 0, 0, 0)),
        (0, 0, (33, 0, 0, 0)),
        (1, b'r', (33, 0, 0, 0)),
        (8, 2, (34, 0, 2, 0)),
        (10, 5, (35, 0, 5, 0)),
        (10, 9, (35, 0, 9, 0)),
        (11, 6, (36, 0, 6, 0)),
        (12, 0, (37, 0, 0, 0)),
        (13, 5, (38, 0, 5, 0)),
        (14, 2, (39, 0, 2, 0)),
        (14, 3, (39, 0, 3, 0)),
        (14, 0, (40, 0, 13 << 16 | 7, 0)),
        (28, 1, (41, 0, 1, 0)),
        (10, 2, (42, 0, 1, 2)),
        (11, 0x14, (43, 0, 4, 0x14)),
        (12, 0x14, (44, 0, 0x18, 0x14)),
        (13, 8, (45, 0, 4, 8)),
        (16, 2, (46, 0, 2, 3)),
        (34, 2, (47, 0, 13 << 16 | 7, 12 << 16 | 6)),
        (34, 4, (47, 0, 13 << 16 | 7, 14 << 16 | 8)),
        (32, 2, (47, 0, 13 << 16 | 7, 16 << 16 | 8)),
        (24, 8, (47, 0, 13 << 16 | 8, 13 << 16 | 7)),
    ];
    for (pos, byte, numbers) in rows {
        expect_equal(
            &rt,
            opened(&with_byte(pos, byte), OF_TEXTS),
            result_of(numbers),
        );
    }
    for contents in [OF_TEXTS, OF_INDEX, (MAP, 4, 4, 4)] {
        expect_equal(&rt, opened_to(31, contents), result_of((32, 0, 31, 0)));
        expect_equal(&rt, opened_to(34, contents), result_of((46, 0, 3, 2)));
    }
}

#[test]
fn headers_are_those_of_the_format(rt: HostRuntime) {
    for contents in [OF_TEXTS, OF_INDEX, (MAP, 4, 4, 4), (SET, 4, 1, 8)] {
        expect_equal(&rt, writes(contents, true), (0, true));
    }
    for contents in [
        (MAP, 0x14, 0x14, 8),
        (INDEX_MAP, 0x14, 0x14, 8),
        (MAP, 0x14, 4, 8),
    ] {
        expect_equal(&rt, writes(contents, false), (0, true));
    }
    let mut header = [9; 32];
    let status = write_header(&[1, 2, 3], codes((MAP, 4, 0x18, 64)), true, &mut header);
    expect_equal(&rt, (status, header == [9; 32]), (7, true));
}

#[test]
fn widths_are_read(rt: HostRuntime) {
    expect_equal(&rt, width_of(TEXTS, true), (0, false));
    expect_equal(&rt, width_of(&with_byte(13, 8), false), (0, true));
    expect_equal(&rt, width_of(&TEXTS[..31], true), (32, true));
    expect_equal(&rt, width_of(&container(OF_INDEX), true), (0, false));
}

#[test]
fn updates_correct_the_checksum(rt: HostRuntime) {
    let rows = [
        (34, 4, (0, 8)),
        (24, 0, (0, 7)),
        (16, 2, (46, 7)),
        (0, 0, (33, 7)),
    ];
    for (pos, byte, expected) in rows {
        let mut bytes = with_byte(pos, byte);
        let status = update_container(&mut bytes);
        expect_equal(&rt, (status, bytes[24]), expected);
    }
    let mut index = container(OF_INDEX);
    index[34] = 4;
    expect_equal(&rt, update_container(&mut index), 0);
    expect_equal(&rt, (index[10], index[24]), (3, 8));
}
