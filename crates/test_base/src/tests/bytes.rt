//! Tests of byte strings: their bytes, their errors, and reading them in place.
use crate::tests::access_failures::access_failure;
use rkyv_base::{
    Archive, Bytes, BytesResolver, Element, Entry, Narrow, PartRange, Serialize, VerifyError, Wide,
    Width, WriteError, access_in, laws, to_bytes_in,
};
use std::alloc::{AllocError, Global};
use test_support::writers::LateWriter;
use test_support::written::is_archived_as;

// Returns `true` if this byte string is the root of an archive.
#[tactic(auto, using(rkyv_base::specs::Lemmas::Access::root_viewable))]
fn is_root<W: Width>(bytes: &[u8], items: &[u8]) -> bool {
    match access_in::<W, Bytes<W>>(bytes) {
        Ok(root) => {
            root.as_slice() == items
                && root.len() == items.len()
                && root.is_empty() == items.is_empty()
        }
        Err(_) => false,
    }
}

// Returns `true` if a byte string is archived as these bytes, and reads back from them.
fn represents_as<W: Width>(alloc: Global, items: &[u8], bytes: &[u8]) -> bool {
    match to_bytes_in::<W, &[u8]>(alloc, &items) {
        Ok(archive) => archive.as_slice() == bytes && is_root::<W>(bytes, items),
        Err(_) => false,
    }
}

#[test]
fn byte_strings_are_before_their_fixed_bytes(rt: HostRuntime) {
    laws::byte_strings_are_their_bytes::<Narrow>();
    let alloc = rt.alloc();
    let five = b"ab\0\xff\x80\0\0\0\xf8\xff\xff\xff\x05\0\0\0";
    expect_eq!(rt; represents_as::<Narrow>(alloc, b"", &[0; 8]), true);
    expect_eq!(rt; represents_as::<Narrow>(alloc, b"\xff", b"\xff\0\0\0\xfc\xff\xff\xff\x01\0\0\0"),
        true);
    expect_eq!(rt; represents_as::<Narrow>(alloc, b"ab\0\xff\x80", five), true);
    let one = b"\xff\0\0\0\0\0\0\0\xf8\xff\xff\xff\xff\xff\xff\xff\x01\0\0\0\0\0\0\0";
    let five = b"ab\0\xff\x80\0\0\0\xf8\xff\xff\xff\xff\xff\xff\xff\x05\0\0\0\0\0\0\0";
    expect_eq!(rt; represents_as::<Wide>(alloc, b"", &[0; 16]), true);
    expect_eq!(rt; represents_as::<Wide>(alloc, b"\xff", one), true);
    expect_eq!(rt; represents_as::<Wide>(alloc, b"ab\0\xff\x80", five), true);
}

// Returns `len` bytes: 0, 1, 2 and so on, and 0 again after 255.
fn counted(alloc: Global, len: usize) -> Result<Vec<u8>, AllocError> {
    let mut items = Vec::new(alloc);
    for index in 0..len {
        items.push((index % 256) as u8)?;
    }
    Ok(items)
}

// Returns `true` if a vector is archived as a slice is, with these bytes at the end, and reads
// back.
fn ends_with<W: Width>(alloc: Global, items: &Vec<u8>, end: &[u8]) -> bool {
    match to_bytes_in::<W, Vec<u8>>(alloc, items) {
        Ok(archive) => {
            archive.as_slice().ends_with(end)
                && represents_as::<W>(alloc, items.as_slice(), archive.as_slice())
        }
        Err(_) => false,
    }
}

// Returns the results for 300 bytes in both widths.
fn three_hundred(alloc: Global) -> Option<[bool; 2]> {
    let items = counted(alloc, 300).ok()?;
    let wide = b"\0\0\0\0\xd0\xfe\xff\xff\xff\xff\xff\xff\x2c\x01\0\0\0\0\0\0";
    Some([
        ends_with::<Narrow>(alloc, &items, b"\xd4\xfe\xff\xff\x2c\x01\0\0"),
        ends_with::<Wide>(alloc, &items, wide),
    ])
}

#[test]
fn vectors_are_archived_as_slices(rt: HostRuntime) {
    expect_eq!(rt; three_hundred(rt.alloc()), Some([true; 2]));
}

// Returns `true` if these two byte strings are the root of an archive.
fn are_root(bytes: &[u8], items: (&[u8], &[u8])) -> bool {
    match access_in::<Narrow, Entry<Bytes, Bytes>>(bytes) {
        Ok(root) => (root.key().as_slice(), root.value().as_slice()) == items,
        Err(_) => false,
    }
}

// The empty byte string has the distance to the position behind the first one.
#[test]
fn an_empty_byte_string_is_where_it_was_serialized(rt: HostRuntime) {
    let bytes = b"a\0\0\0\xfc\xff\xff\xff\x01\0\0\0\xf5\xff\xff\xff\0\0\0\0";
    let items: (&[u8], &[u8]) = (b"a", b"");
    expect_eq!(rt; is_archived_as(rt.alloc(), &items, bytes), true);
    expect_eq!(rt; are_root(bytes, items), true);
}

#[test]
fn byte_strings_share_no_byte(rt: HostRuntime) {
    let bytes = b"ab\0\0\xfc\xff\xff\xff\x02\0\0\0\xf5\xff\xff\xff\x01\0\0\0";
    expect_eq!(rt; access_failure::<Narrow, Entry<Bytes, Bytes>>(bytes),
        Some(VerifyError::OutOfRange { pos: 1, size: 1 }));
}

// Returns the error of the narrow byte string at 4, with this distance and this length.
fn failure_of(distance: i32, len: u32) -> Option<VerifyError> {
    let mut bytes = [0; 12];
    bytes[4..8].copy_from_slice(&distance.to_le_bytes());
    bytes[8..].copy_from_slice(&len.to_le_bytes());
    access_failure::<Narrow, Bytes>(&bytes)
}

#[test]
fn byte_strings_lie_in_their_range(rt: HostRuntime) {
    expect_eq!(rt; failure_of(-4, 4), None);
    expect_eq!(rt; failure_of(-4, 0), None);
    expect_eq!(rt; failure_of(-1, 1), None);
    expect_eq!(rt; failure_of(0, 0), None);
    expect_eq!(rt; failure_of(-5, 0), Some(VerifyError::OutOfRange { pos: -1, size: 0 }));
    expect_eq!(rt; failure_of(-4, 5), Some(VerifyError::OutOfRange { pos: 0, size: 5 }));
    expect_eq!(rt; failure_of(-1, 2), Some(VerifyError::OutOfRange { pos: 3, size: 2 }));
    expect_eq!(rt; failure_of(0, 1), Some(VerifyError::OutOfRange { pos: 4, size: 1 }));
    expect_eq!(rt; failure_of(1, 0), Some(VerifyError::OutOfRange { pos: 5, size: 0 }));
    expect_eq!(rt; failure_of(-2_147_483_648, 4_294_967_295),
        Some(VerifyError::OutOfRange { pos: -2_147_483_644, size: 4_294_967_295 }));
    let failures = [
        access_failure::<Wide, Bytes<Wide>>(b"\xff\xff\xff\xff\xff\xff\xff\xff\0\0\0\0\0\0\0\0"),
        access_failure::<Wide, Bytes<Wide>>(b"\0\0\0\0\0\0\0\0\xff\xff\xff\xff\xff\xff\xff\xff"),
        access_failure::<Wide, Bytes<Wide>>(&[0; 20]),
        access_failure::<Narrow, Bytes>(&[0; 9]),
        access_failure::<Narrow, Bytes>(&[0; 7]),
    ];
    expect_eq!(rt; failures, [Some(VerifyError::OutOfRange { pos: -1, size: 0 }),
        Some(VerifyError::OutOfRange { pos: 0, size: 18_446_744_073_709_551_615 }),
        Some(VerifyError::Unaligned { pos: 4, align: 8 }),
        Some(VerifyError::Unaligned { pos: 1, align: 4 }),
        Some(VerifyError::OutOfRange { pos: -1, size: 8 })]);
    let bytes = b"abcdefgh\xfb\xff\xff\xff\x02\0\0\0";
    expect_eq!(rt; Bytes::<Narrow>::size(), 8);
    expect_eq!(rt; Bytes::<Narrow>::align(), 4);
    expect_eq!(rt; Bytes::<Wide>::size(), 16);
    expect_eq!(rt; Bytes::<Wide>::align(), 8);
    expect_eq!(rt; Bytes::<Narrow>::check(bytes, 8, PartRange { lo: 3, hi: 5 }).ok(),
        Some(PartRange { lo: 5, hi: 5 }));
    expect_eq!(rt; Bytes::<Narrow>::check(bytes, 8, PartRange { lo: 0, hi: 8 }).ok(),
        Some(PartRange { lo: 5, hi: 8 }));
    expect_eq!(rt; Bytes::<Narrow>::check(bytes, 8, PartRange { lo: 4, hi: 8 }).ok(), None);
    expect_eq!(rt; Bytes::<Narrow>::check(bytes, 8, PartRange { lo: 0, hi: 4 }).ok(), None);
}

#[test]
fn rejects_a_distance_to_bytes_that_does_not_fit(rt: HostRuntime) {
    let (mut local, mut far, mut wide) = ([0; 8], [0; 8], [0; 16]);
    let items: &[u8] = b"ab";
    let start = BytesResolver { pos: 0 };
    expect_eq!(rt; Archive::<Narrow>::resolve(&items, start, 2_147_483_648, &mut local).is_ok(),
        true);
    expect_eq!(rt; Archive::<Narrow>::resolve(&items, start, 2_147_483_652, &mut far).is_ok(),
        false);
    expect_eq!(rt; Archive::<Wide>::resolve(&items, start, 2_147_483_656, &mut wide).is_ok(), true);
    expect_eq!(rt; local, *b"\0\0\0\x80\x02\0\0\0");
    expect_eq!(rt; wide, *b"\xf8\xff\xff\x7f\xff\xff\xff\xff\x02\0\0\0\0\0\0\0");
}

// Returns the position of a byte string that is written at the end of a narrow archive,
// or `None` if it would end after the greatest position.
fn serialized_late(alloc: Global, items: &[u8]) -> Result<Option<u64>, bool> {
    let mut writer = LateWriter::new(alloc);
    match Serialize::<LateWriter, Narrow>::serialize(&items, alloc, &mut writer) {
        Ok(resolver) => Ok(Some(resolver.pos)),
        Err(WriteError::PositionTooLarge) => Ok(None),
        Err(_) => Err(writer.bytes().is_empty()),
    }
}

#[test]
fn byte_strings_end_within_the_limit(rt: HostRuntime) {
    let alloc = rt.alloc();
    expect_eq!(rt; serialized_late(alloc, b"12345"), Ok(Some(4_294_967_290)));
    expect_eq!(rt; serialized_late(alloc, b"123456"), Ok(None));
    expect_eq!(rt; serialized_late(alloc, b""), Ok(Some(4_294_967_290)));
}
