//! Archives of index maps, as fixed bytes.

// Returns the map of 1 to 2: indices from 0 on, controls from 8 on, the entry at 39, and the
// header at 44.
pub(crate) fn one_pair() -> [u8; 60] {
    let mut bytes = [0xff; 60];
    bytes[..12].copy_from_slice(&[0, 0, 0, 0, 0, 0, 0, 0, 0xff, 0x28, 0xff, 0x28]);
    bytes[39..45].copy_from_slice(&[1, 2, 0, 0, 0, 0xdc]);
    bytes[48..57].copy_from_slice(&[1, 0, 0, 0, 2, 0, 0, 0, 0xef]);
    bytes
}

// Returns the empty map.
pub(crate) fn no_pairs() -> [u8; 16] {
    [1, 0, 0, 0, 0, 0, 0, 0, 0, 0, 0, 0, 0xf4, 0xff, 0xff, 0xff]
}

// Returns the bytes before the header in the archive of the set of 1.
pub(crate) fn one_key_parts() -> [u8; 40] {
    let mut bytes = [0xff; 40];
    bytes[..12].copy_from_slice(&[0, 0, 0, 0, 0, 0, 0, 0, 0xff, 0x28, 0xff, 0x28]);
    bytes[39] = 1;
    bytes
}

// Returns the wide map of 1 to 2: indices from 0 on, controls from 16 on, the entry at 47, and
// the header at 56.
pub(crate) fn wide_pair() -> [u8; 88] {
    let mut bytes = [0xff; 88];
    bytes[..16].copy_from_slice(&[0; 16]);
    bytes[16..20].copy_from_slice(&[0xff, 0x28, 0xff, 0x28]);
    bytes[47..57].copy_from_slice(&[1, 2, 0, 0, 0, 0, 0, 0, 0, 0xd8]);
    bytes[64..81].copy_from_slice(&[1, 0, 0, 0, 0, 0, 0, 0, 2, 0, 0, 0, 0, 0, 0, 0, 0xdf]);
    bytes
}

// Returns the wide set of 1: indices from 0 on, controls from 16 on, the key at 47, and the header
// at 48.
pub(crate) fn wide_key() -> [u8; 80] {
    let mut bytes = [0xff; 80];
    bytes[..16].copy_from_slice(&[0; 16]);
    bytes[16..20].copy_from_slice(&[0xff, 0x28, 0xff, 0x28]);
    bytes[47..49].copy_from_slice(&[1, 0xe0]);
    bytes[56..73].copy_from_slice(&[1, 0, 0, 0, 0, 0, 0, 0, 2, 0, 0, 0, 0, 0, 0, 0, 0xe7]);
    bytes
}

// Returns the empty wide map.
pub(crate) fn no_wide_pairs() -> [u8; 32] {
    let mut bytes = [0; 32];
    bytes[0] = 1;
    bytes[24..].copy_from_slice(&[0xe8, 0xff, 0xff, 0xff, 0xff, 0xff, 0xff, 0xff]);
    bytes
}

// Returns the map of 1 to 2 and 1 to 9: indices from 0 on, controls from 12 on, entries from 43 on,
// the header at 48.
pub(crate) fn one_key_twice() -> [u8; 64] {
    let mut bytes = [0xff; 64];
    bytes[..12].copy_from_slice(&[0, 0, 0, 0, 1, 0, 0, 0, 0, 0, 0, 0]);
    bytes[12..18].copy_from_slice(&[0x28, 0x28, 0xff, 0x28, 0x28, 0xff]);
    bytes[43..49].copy_from_slice(&[1, 2, 1, 9, 0, 0xdc]);
    bytes[52..61].copy_from_slice(&[2, 0, 0, 0, 3, 0, 0, 0, 0xef]);
    bytes
}

// Returns the map of 1 to the map of 1 to 2: indices from 0 on, controls from 8 on, the entry
// at 84, the header at 104. In the inner map: indices from 40 on, controls from 48 on, the entry
// at 79.
pub(crate) fn map_in_a_map() -> [u8; 120] {
    let mut bytes = [0xff; 120];
    bytes[..12].copy_from_slice(&[0, 0, 0, 0, 0, 0, 0, 0, 0xff, 0x28, 0xff, 0x28]);
    bytes[39..52].copy_from_slice(&[0, 0, 0, 0, 0, 0, 0, 0, 0, 0xff, 0x28, 0xff, 0x28]);
    bytes[79..89].copy_from_slice(&[1, 2, 0, 0, 0, 1, 0, 0, 0, 0xd8]);
    bytes[92..101].copy_from_slice(&[1, 0, 0, 0, 2, 0, 0, 0, 0xeb]);
    bytes[104] = 0xa0;
    bytes[108..117].copy_from_slice(&[1, 0, 0, 0, 2, 0, 0, 0, 0xe0]);
    bytes
}

// Returns the map of 1 to "hello", inline, and of 1 to "wonderful", out of line: indices from 0 on,
// controls from 12 on, the text at 43, entries of 12 bytes from 52 on, the header at 76.
pub(crate) fn two_texts() -> [u8; 92] {
    let mut bytes = [0xff; 92];
    bytes[..12].copy_from_slice(&[0, 0, 0, 0, 1, 0, 0, 0, 0, 0, 0, 0]);
    bytes[12..18].copy_from_slice(&[0x28, 0x28, 0xff, 0x28, 0x28, 0xff]);
    bytes[43..52].copy_from_slice(b"wonderful");
    bytes[52..64].copy_from_slice(b"\x01\0\0\0hello\xff\xff\xff");
    bytes[64..77].copy_from_slice(&[1, 0, 0, 0, 0x89, 0, 0, 0, 0xe7, 0xff, 0xff, 0xff, 0xc0]);
    bytes[80..89].copy_from_slice(&[2, 0, 0, 0, 3, 0, 0, 0, 0xdc]);
    bytes
}

// Returns the wide map of 1 to "hello", inline, and of 1 to "seventeen letters", out of line:
// indices from 0 on, controls from 24 on, the text at 55, entries of 24 bytes from 72 on,
// the header at 120.
pub(crate) fn wide_texts() -> [u8; 152] {
    let mut bytes = [0xff; 152];
    bytes[..24].copy_from_slice(&[0; 24]);
    bytes[8] = 1;
    bytes[24..30].copy_from_slice(&[0x28, 0x28, 0xff, 0x28, 0x28, 0xff]);
    bytes[55..72].copy_from_slice(b"seventeen letters");
    bytes[72..85].copy_from_slice(b"\x01\0\0\0\0\0\0\0hello");
    bytes[96..113].copy_from_slice(&[1, 0, 0, 0, 0, 0, 0, 0, 0x91, 0, 0, 0, 0, 0, 0, 0, 0xcf]);
    bytes[120] = 0xa0;
    bytes[128..145].copy_from_slice(&[2, 0, 0, 0, 0, 0, 0, 0, 3, 0, 0, 0, 0, 0, 0, 0, 0xb8]);
    bytes
}
