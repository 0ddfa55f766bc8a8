//! Tests of scalars, widths and entries at their limits.
use crate::tests::access_failures::access_failure;
use rkyv_base::{
    Element, Entry, Narrow, Scalar, VerifyError, Wide, Width, access_in, laws, to_bytes_in,
    value_offset, whole_size,
};
use std::alloc::Global;

// Returns `true` if a scalar is archived as these bytes in this width, and reads back.
fn represents_in<W: Width, N: Scalar + PartialEq>(alloc: Global, value: N, bytes: &[u8]) -> bool {
    match to_bytes_in::<W, N>(alloc, &value) {
        Ok(archive) => archive.as_slice() == bytes && is_root::<W, N>(bytes, value),
        Err(_) => false,
    }
}

// Returns `true` if a scalar is the root of an archive.
fn is_root<W: Width, N: Scalar + PartialEq>(bytes: &[u8], value: N) -> bool {
    match access_in::<W, N>(bytes) {
        Ok(root) => root.to_native() == value,
        Err(_) => false,
    }
}

// Returns `true` if both widths archive a scalar as the same bytes, and read it back.
fn represents_as<N: Scalar + PartialEq>(alloc: Global, value: N, bytes: &[u8]) -> bool {
    represents_in::<Narrow, N>(alloc, value, bytes) && represents_in::<Wide, N>(alloc, value, bytes)
}

#[test]
fn scalars_at_their_limits(rt: HostRuntime) {
    laws::integers_are_encoded_by_their_types();
    laws::scalars_are_numbers::<Narrow, u32>();
    let alloc = rt.alloc();
    expect_eq!(rt; represents_as(alloc, 0u8, &[0]), true);
    expect_eq!(rt; represents_as(alloc, 255u8, &[0xff]), true);
    expect_eq!(rt; represents_as(alloc, 0u16, &[0; 2]), true);
    expect_eq!(rt; represents_as(alloc, 0x0102u16, &[2, 1]), true);
    expect_eq!(rt; represents_as(alloc, 65_535u16, &[0xff; 2]), true);
    expect_eq!(rt; represents_as(alloc, 0u32, &[0; 4]), true);
    expect_eq!(rt; represents_as(alloc, 0x0102_0304u32, &[4, 3, 2, 1]), true);
    expect_eq!(rt; represents_as(alloc, 4_294_967_295u32, &[0xff; 4]), true);
    expect_eq!(rt; represents_as(alloc, 0u64, &[0; 8]), true);
    expect_eq!(rt; represents_as(alloc, 0x0102_0304_0506_0708u64, &[8, 7, 6, 5, 4, 3, 2, 1]), true);
    expect_eq!(rt; represents_as(alloc, 18_446_744_073_709_551_615u64, &[0xff; 8]), true);
    let least = [0, 0, 0, 0, 0, 0, 0, 0x80];
    let greatest = [0xff, 0xff, 0xff, 0xff, 0xff, 0xff, 0xff, 0x7f];
    expect_eq!(rt; represents_as(alloc, -128i8, &[0x80]), true);
    expect_eq!(rt; represents_as(alloc, 127i8, &[0x7f]), true);
    expect_eq!(rt; represents_as(alloc, -32_768i16, &[0, 0x80]), true);
    expect_eq!(rt; represents_as(alloc, 32_767i16, &[0xff, 0x7f]), true);
    expect_eq!(rt; represents_as(alloc, -2_147_483_648i32, &[0, 0, 0, 0x80]), true);
    expect_eq!(rt; represents_as(alloc, -2i32, &[0xfe, 0xff, 0xff, 0xff]), true);
    expect_eq!(rt; represents_as(alloc, 2_147_483_647i32, &[0xff, 0xff, 0xff, 0x7f]), true);
    expect_eq!(rt; represents_as(alloc, -9_223_372_036_854_775_808i64, &least), true);
    expect_eq!(rt; represents_as(alloc, 9_223_372_036_854_775_807i64, &greatest), true);
    laws::bools_and_chars_are_numbers();
    expect_eq!(rt; represents_as(alloc, false, &[0]), true);
    expect_eq!(rt; represents_as(alloc, true, &[1]), true);
    expect_eq!(rt; represents_as(alloc, '\0', &[0; 4]), true);
    expect_eq!(rt; represents_as(alloc, '\u{d7ff}', &[0xff, 0xd7, 0, 0]), true);
    expect_eq!(rt; represents_as(alloc, '\u{e000}', &[0, 0xe0, 0, 0]), true);
    expect_eq!(rt; represents_as(alloc, '\u{10ffff}', &[0xff, 0xff, 0x10, 0]), true);
    expect_eq!(rt; access_failure::<Narrow, char>(&[0xff, 0xdf, 0, 0]),
        Some(VerifyError::InvalidValue { pos: 0 }));
    expect_eq!(rt; access_failure::<Narrow, char>(&[0, 0, 0x11, 0]),
        Some(VerifyError::InvalidValue { pos: 0 }));
    expect_eq!(rt; access_failure::<Narrow, char>(&[0xff, 0xff, 0xff, 0xff]),
        Some(VerifyError::InvalidValue { pos: 0 }));
}

#[test]
fn widths_have_their_constants(rt: HostRuntime) {
    laws::widths_have_their_numbers();
    laws::words_read_back::<Narrow>();
    laws::wide_distances_fit();
    expect_eq!(rt; Narrow::LIMIT, 4_294_967_295);
    expect_eq!(rt; Narrow::MAX_CAPACITY, 4_294_967_295);
    expect_eq!(rt; Narrow::TEXT_LIMIT, 1_073_741_824);
    expect_eq!(rt; Narrow::ALIGN, 4);
    expect_eq!(rt; Narrow::TABLE_SIZE, 12);
    expect_eq!(rt; Narrow::INDEX_SIZE, 16);
    expect_eq!(rt; Narrow::TEXT_SIZE, 8);
    expect_eq!(rt; <<Narrow as Width>::Place as Element>::size(), 4);
    expect_eq!(rt; Wide::LIMIT, 9_223_372_036_854_775_807);
    expect_eq!(rt; Wide::MAX_CAPACITY, 4_611_686_018_427_387_904);
    expect_eq!(rt; Wide::TEXT_LIMIT, 4_611_686_018_427_387_904);
    expect_eq!(rt; Wide::ALIGN, 8);
    expect_eq!(rt; Wide::TABLE_SIZE, 24);
    expect_eq!(rt; Wide::INDEX_SIZE, 32);
    expect_eq!(rt; Wide::TEXT_SIZE, 16);
    expect_eq!(rt; <<Wide as Width>::Place as Element>::size(), 8);
}

#[test]
fn counts_and_distances_at_their_limits(rt: HostRuntime) {
    let mut word = [0; 4];
    Narrow::write_count(&mut word, 0);
    expect_eq!(rt; Narrow::read_count(&word, 0), 0);
    Narrow::write_count(&mut word, 1);
    expect_eq!(rt; Narrow::read_count(&word, 0), 1);
    Narrow::write_count(&mut word, 4_294_967_295);
    expect_eq!(rt; Narrow::read_count(&word, 0), 4_294_967_295);
    expect_eq!(rt; word, [0xff; 4]);
    Narrow::write_distance(&mut word, -2_147_483_648);
    expect_eq!(rt; Narrow::read_distance(&word, 0), -2_147_483_648);
    expect_eq!(rt; word, [0, 0, 0, 0x80]);
    Narrow::write_distance(&mut word, 2_147_483_647);
    expect_eq!(rt; Narrow::read_distance(&word, 0), 2_147_483_647);
    expect_eq!(rt; Narrow::distance(2_147_483_647, 0), Some(2_147_483_647));
    expect_eq!(rt; Narrow::distance(2_147_483_648, 0), None);
    expect_eq!(rt; Narrow::distance(16, 2_147_483_664), Some(-2_147_483_648));
    expect_eq!(rt; Narrow::distance(16, 2_147_483_668), None);
    expect_eq!(rt; word, [0xff, 0xff, 0xff, 0x7f]);
    let (low, high) = (-9_223_372_036_854_775_808, 9_223_372_036_854_775_807);
    let mut word = [0; 8];
    Wide::write_count(&mut word, 0);
    expect_eq!(rt; Wide::read_count(&word, 0), 0);
    Wide::write_count(&mut word, 1);
    expect_eq!(rt; Wide::read_count(&word, 0), 1);
    Wide::write_count(&mut word, 18_446_744_073_709_551_615);
    expect_eq!(rt; Wide::read_count(&word, 0), 18_446_744_073_709_551_615);
    expect_eq!(rt; word, [0xff; 8]);
    Wide::write_distance(&mut word, -9_223_372_036_854_775_808);
    expect_eq!(rt; Wide::read_distance(&word, 0), low);
    expect_eq!(rt; word, [0, 0, 0, 0, 0, 0, 0, 0x80]);
    Wide::write_distance(&mut word, 9_223_372_036_854_775_807);
    expect_eq!(rt; Wide::read_distance(&word, 0), high);
    let limit = 9_223_372_036_854_775_807;
    expect_eq!(rt; Wide::distance(limit, 0), Some(high));
    expect_eq!(rt; Wide::distance(limit + 1, 0), None);
    expect_eq!(rt; Wide::distance(0, limit + 1), Some(low));
    expect_eq!(rt; Wide::distance(0, limit + 2), None);
    expect_eq!(rt; word, [0xff, 0xff, 0xff, 0xff, 0xff, 0xff, 0xff, 0x7f]);
}

// Returns the size of an entry, its alignment, and the offset of its value.
fn laid_out<K: Element, V: Element>() -> (usize, usize, usize) {
    (
        <Entry<K, V> as Element>::size(),
        <Entry<K, V> as Element>::align(),
        value_offset::<K, V>(),
    )
}

#[test]
fn entries_of_every_mix_of_alignments(rt: HostRuntime) {
    expect_eq!(rt; laid_out::<u8, u8>(), (2, 1, 1));
    expect_eq!(rt; laid_out::<u8, i16>(), (4, 2, 2));
    expect_eq!(rt; laid_out::<u8, u32>(), (8, 4, 4));
    expect_eq!(rt; laid_out::<u8, i64>(), (16, 8, 8));
    expect_eq!(rt; laid_out::<u16, i8>(), (4, 2, 2));
    expect_eq!(rt; laid_out::<u16, u16>(), (4, 2, 2));
    expect_eq!(rt; laid_out::<u16, char>(), (8, 4, 4));
    expect_eq!(rt; laid_out::<u16, u64>(), (16, 8, 8));
    expect_eq!(rt; laid_out::<u32, bool>(), (8, 4, 4));
    expect_eq!(rt; laid_out::<u32, u16>(), (8, 4, 4));
    expect_eq!(rt; laid_out::<u32, u32>(), (8, 4, 4));
    expect_eq!(rt; laid_out::<u32, u64>(), (16, 8, 8));
    expect_eq!(rt; laid_out::<u64, u8>(), (16, 8, 8));
    expect_eq!(rt; laid_out::<u64, u16>(), (16, 8, 8));
    expect_eq!(rt; laid_out::<u64, u32>(), (16, 8, 8));
    expect_eq!(rt; laid_out::<u64, u64>(), (16, 8, 8));
    expect_eq!(rt; laid_out::<(), ()>(), (0, 1, 0));
    expect_eq!(rt; laid_out::<(), u32>(), (4, 4, 0));
    expect_eq!(rt; laid_out::<u32, ()>(), (4, 4, 4));
    expect_eq!(rt; laid_out::<Entry<u8, u16>, u8>(), (6, 2, 4));
    expect_eq!(rt; laid_out::<u8, Entry<u8, u32>>(), (12, 4, 4));
    expect_eq!(rt; whole_size::<u64, u8>(), 16);
}
