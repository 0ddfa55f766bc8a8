//! Tests of archived byte strings: compared, looked up, deserialized and formatted.
use crate::tests::queries::shows;
use rkyv_base::{Bytes, Narrow, NoMemory, Wide, Width, WriteError, to_bytes_in};
use rkyv_keys::{
    Deserialize, ElementEq, EqualsUniquely, EqualsWritten, KeyElement, MatchesNative, NativeKey,
    NativeQuery, Query, RepresentsUniquely, hash_value, laws, valid_at,
};
use rkyv_scan::{FxHasher64, FxHasher64Wide, KeyHasher};
use std::alloc::{AllocError, Global};

// Returns the results of comparing two byte strings, in place and with native ones.
fn compared_at<W: Width>(
    first: &[u8],
    second: &[u8],
    pos: (u64, u64),
    items: &[u8],
) -> Option<[bool; 3]> {
    let first = valid_at::<Bytes<W>>(first, pos.0)?;
    let second = valid_at::<Bytes<W>>(second, pos.1)?;
    Some([
        <Bytes<W> as ElementEq>::same(first, second),
        <Bytes<W> as MatchesNative<&[u8]>>::eq_native(first, &items),
        <Bytes<W> as MatchesNative<&[u8]>>::eq_native(second, &items),
    ])
}

#[test]
fn byte_strings_are_compared_by_their_bytes(rt: HostRuntime) {
    laws::byte_strings_are_compared::<Narrow>();
    let one = b"\xff\0\0\0\xfc\xff\xff\xff\x01\0\0\0";
    let same = b"ab\xff\0\xfe\xff\xff\xff\x01\0\0\0";
    let two = b"\xff\xff\0\0\xfc\xff\xff\xff\x02\0\0\0";
    let wide = b"\xff\0\0\0\0\0\0\0\xf8\xff\xff\xff\xff\xff\xff\xff\x01\0\0\0\0\0\0\0";
    expect_eq!(rt; compared_at::<Narrow>(one, same, (4, 4), b"\xff"), Some([true, true, true]));
    expect_eq!(rt; compared_at::<Narrow>(one, two, (4, 4), b"\xff"), Some([false, true, false]));
    expect_eq!(rt; compared_at::<Narrow>(one, &[0; 8], (4, 0), b""), Some([false, false, true]));
    expect_eq!(rt; compared_at::<Wide>(wide, wide, (8, 8), b"\xfe"), Some([true, false, false]));
}

// Archives a vector. Returns `true` if the root at this position equals the vector in place,
// and is deserialized as an equal vector.
fn equals_itself<W: Width>(
    alloc: Global,
    items: &Vec<u8>,
    pos: u64,
) -> Result<bool, WriteError<NoMemory>> {
    let bytes = to_bytes_in::<W, Vec<u8>>(alloc, items)?;
    let Some(view) = valid_at::<Bytes<W>>(bytes.as_slice(), pos) else {
        return Ok(false);
    };
    let in_place = <Bytes<W> as MatchesNative<Vec<u8>>>::eq_native(view, items);
    match <Bytes<W> as Deserialize<Vec<u8>>>::deserialize(alloc, view) {
        Ok(read) => Ok(in_place && read == *items),
        Err(_) => Ok(false),
    }
}

// Returns `len` bytes: 0, 1, 2 and so on, and 0 again after 255.
fn counted(alloc: Global, len: usize) -> Result<Vec<u8>, AllocError> {
    let mut items = Vec::new(alloc);
    for index in 0..len {
        items.push((index % 256) as u8)?;
    }
    Ok(items)
}

// Returns the results of `equals_itself` for `len` bytes in both widths, with these positions.
fn counted_equals(alloc: Global, len: usize, pos: (u64, u64)) -> Option<[bool; 2]> {
    let items = counted(alloc, len).ok()?;
    Some([
        equals_itself::<Narrow>(alloc, &items, pos.0).ok()?,
        equals_itself::<Wide>(alloc, &items, pos.1).ok()?,
    ])
}

#[test]
fn vectors_are_read_back(rt: HostRuntime) {
    let alloc = rt.alloc();
    expect_eq!(rt; counted_equals(alloc, 0, (0, 0)), Some([true; 2]));
    expect_eq!(rt; counted_equals(alloc, 1, (4, 8)), Some([true; 2]));
    expect_eq!(rt; counted_equals(alloc, 5, (8, 8)), Some([true; 2]));
    expect_eq!(rt; counted_equals(alloc, 300, (300, 304)), Some([true; 2]));
}

#[test]
fn byte_strings_are_formatted_as_lists(rt: HostRuntime) {
    let alloc = rt.alloc();
    expect_eq!(rt; shows::<Bytes>(alloc, &[0; 8], "[]"), true);
    expect_eq!(rt; shows::<Bytes>(alloc, b"\xff\0\0\0\xfc\xff\xff\xff\x02\0\0\0", "[255, 0]"),
        true);
}

// The hash of the bytes 61 62 63, whose words are 3, 6261 and 63.
const OF_ABC: u64 = 0xa6a9_1e60_c835_047e;

#[test]
fn byte_strings_hash_by_their_length_and_bytes(rt: HostRuntime) {
    laws::byte_strings_hash_by_their_bytes();
    let empty = Vec::new(rt.alloc());
    let items: &[u8] = b"abc";
    expect_eq!(rt; hash_value::<&[u8], FxHasher64>(&items), OF_ABC);
    expect_eq!(rt; hash_value::<&[u8], FxHasher64Wide>(&items), OF_ABC);
    expect_eq!(rt; hash_value::<Vec<u8>, FxHasher64>(&empty), 0);
}

// Returns the hash of an archived byte string, and whether a slice and a vector match it.
fn looked_up<W: Width>(
    alloc: Global,
    bytes: &[u8],
    pos: u64,
    items: &[u8],
) -> Option<(u64, [bool; 2])> {
    let view = valid_at::<Bytes<W>>(bytes, pos)?;
    let vector = Vec::from_slice(alloc, items).ok()?;
    let mut state = FxHasher64::default();
    <Bytes<W> as KeyElement>::hash_view(view, &mut state);
    let matches = [
        Query::<Bytes<W>>::same(&items, view),
        Query::<Bytes<W>>::same(&vector, view),
    ];
    Some((state.finish(), matches))
}

#[test]
fn byte_strings_are_looked_up(rt: HostRuntime) {
    let alloc = rt.alloc();
    let narrow = b"abc\0\xfc\xff\xff\xff\x03\0\0\0";
    let wide = b"abc\0\0\0\0\0\xf8\xff\xff\xff\xff\xff\xff\xff\x03\0\0\0\0\0\0\0";
    expect_eq!(rt; looked_up::<Narrow>(alloc, narrow, 4, b"abc"), Some((OF_ABC, [true; 2])));
    expect_eq!(rt; looked_up::<Wide>(alloc, wide, 8, b"abd"), Some((OF_ABC, [false; 2])));
}

// Returns 7 for a value with the laws of equality, and a query for its archived form.
fn has_laws<W: Width, Q, V: EqualsWritten<W> + PartialEq + NativeKey<V::Archived>>() -> u8
where
    V::Archived: KeyElement + EqualsUniquely<V> + RepresentsUniquely<V>,
    Q: NativeQuery<V, V::Archived>,
{
    7
}

#[test]
fn slices_and_vectors_have_the_laws_of_keys(rt: HostRuntime) {
    expect_eq!(rt; has_laws::<Narrow, Vec<u8>, &[u8]>(), 7);
    expect_eq!(rt; has_laws::<Wide, &[u8], &[u8]>(), 7);
    expect_eq!(rt; has_laws::<Narrow, &[u8], Vec<u8>>(), 7);
    expect_eq!(rt; has_laws::<Wide, Vec<u8>, Vec<u8>>(), 7);
}
