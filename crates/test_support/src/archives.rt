//! Archives of known bytes.
//!
//! The comment of an archive has the position of each part. Empty control bytes are 0xff.
ghost use Rattle.std.specs.Prelude.{◌+◌, ◌≤◌, length};

/// Returns `N` bytes: `front`, then bytes 0xff, then `back`.
///
/// # Requires
///
/// - `N` is at least the length of both.
pub fn archive<const N: usize>(front: &[u8], back: &[u8]) -> [u8; N]
    requires { length front.now + length back.now ≤ N }
{
    let mut bytes = [0xff; N];
    let room = &mut bytes[..];
    room[..front.len()].copy_from_slice(front);
    room[N - back.len()..].copy_from_slice(back);
    bytes
}

/// Returns the empty table, map or set.
pub fn no_items() -> [u8; 12] {
    [1, 0, 0, 0, 0, 0, 0, 0, 0, 0, 0, 0]
}

/// Returns the map of 1 to 2, of 8 bits each.
///
/// Buckets from 0 on, controls from 4 on, header at 36.
pub fn one_pair() -> [u8; 48] {
    archive(
        &[1, 2, 0, 0, 0xff, 0x28, 0xff, 0x28],
        &[0, 0xe0, 0xff, 0xff, 0xff, 1, 0, 0, 0, 2, 0, 0, 0],
    )
}

/// Returns the map of 1 to 2, 3 to 4, 5 to 6 and 7 to 8, inserted in this order.
///
/// Buckets from 0 on, controls from 10 on, header at 44.
pub fn four_pairs() -> [u8; 56] {
    archive(
        &[
            3, 4, 1, 2, 0, 0, 7, 8, 5, 6, 0x4b, 0x1d, 0xff, 0x28, 0x7a, 0x4b, 0x1d, 0xff, 0x28,
            0x7a,
        ],
        &[0, 0, 0, 0xde, 0xff, 0xff, 0xff, 4, 0, 0, 0, 5, 0, 0, 0],
    )
}

/// Returns the map of the same four pairs, inserted in reverse order.
pub fn four_pairs_backwards() -> [u8; 56] {
    archive(
        &[
            7, 8, 1, 2, 0, 0, 3, 4, 5, 6, 0x4b, 0x7a, 0xff, 0x28, 0x1d, 0x4b, 0x7a, 0xff, 0x28,
            0x1d,
        ],
        &[0, 0, 0, 0xde, 0xff, 0xff, 0xff, 4, 0, 0, 0, 5, 0, 0, 0],
    )
}

/// Returns the map of the pairs 1 and 2, and 1 and 9.
pub fn one_key_twice() -> [u8; 52] {
    archive(
        &[0, 0, 1, 9, 1, 2, 0x28, 0x28, 0xff, 0x28, 0x28],
        &[0, 0, 0, 0xde, 0xff, 0xff, 0xff, 2, 0, 0, 0, 3, 0, 0, 0],
    )
}

/// Returns the map of 1 to 2, of 32 bits each.
///
/// Buckets from 0 on, controls from 16 on, header at 48.
pub fn one_number() -> [u8; 60] {
    archive(
        &[
            1, 0, 0, 0, 2, 0, 0, 0, 0, 0, 0, 0, 0, 0, 0, 0, 0xff, 0x28, 0xff, 0x28,
        ],
        &[0, 0xe0, 0xff, 0xff, 0xff, 1, 0, 0, 0, 2, 0, 0, 0],
    )
}

/// Returns the wide map of 1 to 2, of 32 bits each.
pub fn one_wide_number() -> [u8; 72] {
    archive(
        &[
            1, 0, 0, 0, 2, 0, 0, 0, 0, 0, 0, 0, 0, 0, 0, 0, 0xff, 0x28, 0xff, 0x28,
        ],
        &[
            0, 0xe0, 0xff, 0xff, 0xff, 0xff, 0xff, 0xff, 0xff, 1, 0, 0, 0, 0, 0, 0, 0, 2, 0, 0, 0,
            0, 0, 0, 0,
        ],
    )
}

/// Returns the map of 1 to the map of 1 to 2.
///
/// Inner map from 0 on, buckets from 36 on, controls from 68 on, header at 100.
pub fn nested() -> [u8; 112] {
    let inner = archive::<36>(&[1, 2, 0, 0, 0xff, 0x28, 0xff, 0x28], &[0]);
    let outer = archive::<76>(
        &[
            1, 0, 0, 0, 0xdc, 0xff, 0xff, 0xff, 1, 0, 0, 0, 2, 0, 0, 0, 0, 0, 0, 0, 0, 0, 0, 0, 0,
            0, 0, 0, 0, 0, 0, 0, 0xff, 0x28, 0xff, 0x28,
        ],
        &[0, 0xe0, 0xff, 0xff, 0xff, 1, 0, 0, 0, 2, 0, 0, 0],
    );
    archive(&inner, &outer)
}

/// Returns the map of (1, 2) and (3, 4), each to the map of 1337 to 42.
///
/// Inner maps from 0 and 40 on, buckets from 80 on, controls from 128 on, header at 160.
pub fn two_maps() -> [u8; 172] {
    let inner = archive::<40>(
        &[0x39, 5, 0x2a, 0, 0, 0, 0, 0, 0xff, 0x4a, 0xff, 0x4a],
        &[0],
    );
    let outer = archive::<92>(
        &[
            1, 2, 0, 0, 0xdc, 0xff, 0xff, 0xff, 1, 0, 0, 0, 2, 0, 0, 0, 0, 0, 0, 0, 0, 0, 0, 0, 0,
            0, 0, 0, 0, 0, 0, 0, 3, 4, 0, 0, 0x94, 0xff, 0xff, 0xff, 1, 0, 0, 0, 2, 0, 0, 0, 0x70,
            0xff, 0x35, 0x70, 0xff, 0x35,
        ],
        &[0, 0xe0, 0xff, 0xff, 0xff, 2, 0, 0, 0, 3, 0, 0, 0],
    );
    archive(&archive::<80>(&inner, &inner), &outer)
}

/// Returns the set of 1, 2 and 3.
///
/// Buckets from 0 on, controls from 4 on, header at 36.
pub fn three_keys() -> [u8; 48] {
    archive(
        &[3, 2, 1, 0, 0xff, 0x28, 0x51, 0x7a, 0xff, 0x28, 0x51, 0x7a],
        &[0, 0xe0, 0xff, 0xff, 0xff, 3, 0, 0, 0, 4, 0, 0, 0],
    )
}

/// Returns the set of the unit value.
///
/// The buckets have no bytes. Controls from 0 on, header at 32.
pub fn one_unit() -> [u8; 44] {
    archive(
        &[0, 0xff, 0],
        &[0, 0xe0, 0xff, 0xff, 0xff, 1, 0, 0, 0, 2, 0, 0, 0],
    )
}

/// Returns the set of the unit value, inserted twice.
pub fn two_units() -> [u8; 44] {
    archive(
        &[0, 0, 0xff, 0, 0],
        &[0, 0xe0, 0xff, 0xff, 0xff, 2, 0, 0, 0, 3, 0, 0, 0],
    )
}

/// Returns the wide map of 1 to the set of 1, under the hasher that feeds all bits.
///
/// Bucket of the set from 0 on, its controls from 2 on.
/// Buckets of the map from 40 on, its controls from 104 on, its header at 136.
pub fn set_in_a_map() -> [u8; 160] {
    let inner = archive::<40>(&[1, 0, 0xff, 0x28, 0xff, 0x28], &[0, 0, 0, 0, 0, 0, 0]);
    let outer = archive::<120>(
        &[
            1, 0, 0, 0, 0, 0, 0, 0, 0xd2, 0xff, 0xff, 0xff, 0xff, 0xff, 0xff, 0xff, 1, 0, 0, 0, 0,
            0, 0, 0, 2, 0, 0, 0, 0, 0, 0, 0, 0, 0, 0, 0, 0, 0, 0, 0, 0, 0, 0, 0, 0, 0, 0, 0, 0, 0,
            0, 0, 0, 0, 0, 0, 0, 0, 0, 0, 0, 0, 0, 0, 0xff, 0x28, 0xff, 0x28,
        ],
        &[
            0, 0xe0, 0xff, 0xff, 0xff, 0xff, 0xff, 0xff, 0xff, 1, 0, 0, 0, 0, 0, 0, 0, 2, 0, 0, 0,
            0, 0, 0, 0,
        ],
    );
    archive(&inner, &outer)
}

/// Returns the map of the text "main" to 4096.
///
/// Buckets from 0 on, controls from 32 on, header at 64.
pub fn one_symbol() -> [u8; 76] {
    archive(
        &[
            0, 0, 0, 0, 0, 0, 0, 0, 0, 0, 0, 0, 0, 0, 0, 0, 0x6d, 0x61, 0x69, 0x6e, 0xff, 0xff,
            0xff, 0xff, 0, 16, 0, 0, 0, 0, 0, 0, 0x38, 0xff, 0x38,
        ],
        &[0, 0xe0, 0xff, 0xff, 0xff, 1, 0, 0, 0, 2, 0, 0, 0],
    )
}

/// Returns the index map of 1 to 2, 3 to 4, 5 to 6 and 7 to 8.
///
/// Buckets from 0 on, controls from 20 on, entries from 51 on, header at 60.
pub fn four_entries() -> [u8; 76] {
    archive(
        &[
            1, 0, 0, 0, 0, 0, 0, 0, 0, 0, 0, 0, 3, 0, 0, 0, 2, 0, 0, 0, 0x4b, 0x1d, 0xff, 0x28,
            0x7a, 0x4b, 0x1d, 0xff, 0x28, 0x7a,
        ],
        &[
            1, 2, 3, 4, 5, 6, 7, 8, 0, 0xd8, 0xff, 0xff, 0xff, 4, 0, 0, 0, 5, 0, 0, 0, 0xeb, 0xff,
            0xff, 0xff,
        ],
    )
}

/// Returns the index set of 1.
///
/// Full bucket from 4 on, controls from 8 on, key at 39, header at 40.
pub fn one_index_key() -> [u8; 56] {
    archive(
        &[0, 0, 0, 0, 0, 0, 0, 0, 0xff, 0x28, 0xff, 0x28],
        &[
            1, 0xe0, 0xff, 0xff, 0xff, 1, 0, 0, 0, 2, 0, 0, 0, 0xf3, 0xff, 0xff, 0xff,
        ],
    )
}
