//! Tests of values that are written in place.

ghost use Rattle.std.specs.Prelude.{◌≡◌, ◌+◌, ◌≤◌, length};
ghost use Rattle.std.specs.Int.{w32, w64};
ghost use Rattle.rkyv_base.specs.{Viewable, entry_spec, number_at, scalar_spec, signed, unsigned};
ghost use Rattle.rkyv_base.specs.{with_value};

use crate::tests::access_failures::access_mut_failure;
use rkyv_base::access::access;
use rkyv_base::seal_text::uppercase_at;
use rkyv_base::{
    ArchiveSeal, Entry, Narrow, Seal, Text, VerifyError, View, Wide, Width, access_mut,
    access_mut_in, laws, set_at, set_value, split_at_value, to_bytes,
};
use std::test::Fail;
use test_support::written::is_archived_as;

// Writes by `Seal::over`. The contract states all bytes after the write.
fn sets_over(bytes: &mut [u8], pos: usize, value: i64)
    requires { pos + 8 ≤ length bytes.old }
    ensures { bytes.new ≡ with_value (signed w64) bytes.old pos value }
{
    let mut seal = Seal::<i64>::over(bytes, pos);
    seal.set(value);
}

// Reads the key and writes the value by `split_at_value`. The contract states all bytes after the
// write.
fn sets_behind_key(archive: &mut [u8], entry_pos: u64, value: u32) -> u32
    requires inside { entry_pos + 8 ≤ length archive.old }
    requires entry { Viewable (entry_spec (scalar_spec (unsigned w32))
        (scalar_spec (unsigned w32)))
        archive.old entry_pos }
    ensures key { result ≡ number_at w32 archive.old entry_pos }
    ensures written { archive.new ≡ with_value (unsigned w32) archive.old (entry_pos + 4) value }
{
    let (front, back) = split_at_value::<u32, u32>(archive, entry_pos);
    let key = View::<u32>::new(front, entry_pos);
    let mut seal = Seal::<u32>::over(back, 0);
    seal.set(value);
    key.to_native()
}

#[test]
fn numbers_are_written_over_bytes(rt: HostRuntime) {
    let mut bytes = [1, 2, 3];
    let mut seal = Seal::<u8>::over(&mut bytes, 1);
    expect_eq!(rt; seal.to_native(), 2);
    seal.set(255);
    expect_eq!(rt; seal.to_native(), 255);
    drop(seal);
    let mut others = [9; 10];
    sets_over(&mut others, 1, -2);
    expect_eq!(rt; others, [9, 254, 255, 255, 255, 255, 255, 255, 255, 9]);
    set_at(&mut others, 4, 16_909_060u32);
    expect_eq!(rt; bytes, [1, 255, 3]);
    expect_eq!(rt; others, [9, 254, 255, 255, 4, 3, 2, 1, 255, 9]);
}

#[test]
fn dropped_seals_keep_bytes(rt: HostRuntime) {
    let mut bytes = [1, 2, 3];
    laws::dropped_seals_keep_bytes::<u8>(&mut bytes, 1);
    laws::dropped_archive_seals_keep_bytes::<u8>(&mut bytes, 1);
    expect_eq!(rt; bytes, [1, 2, 3]);
}

// Writes a `bool` over the root of an archive. Returns its position, the value of a view,
// the old value, and the new value.
fn root_replaced(bytes: &mut [u8], value: bool) -> Result<(u64, bool, bool, bool), VerifyError> {
    let whole = access_mut::<bool>(bytes)?;
    let (root, viewable) = (whole.pos(), whole.as_view().to_native());
    let mut seal = whole.seal_at::<bool>(root);
    let before = seal.to_native();
    seal.set(value);
    Ok((root, viewable, before, seal.to_native()))
}

#[test]
fn roots_are_written_in_place(rt: HostRuntime) {
    let mut bytes = [1];
    expect_eq!(rt; root_replaced(&mut bytes, false), Ok((0, true, true, false)));
    expect_eq!(rt; is_archived_as(rt.alloc(), &true, &[1]), true);
    expect_eq!(rt; bytes, [0]);
}

// Writes a character over the root of a wide archive. Returns the old value and the new value.
fn wide_root_replaced(bytes: &mut [u8], value: char) -> Result<(char, char), VerifyError> {
    let whole = access_mut_in::<Wide, char>(bytes)?;
    let root = whole.pos();
    let mut seal = whole.seal_at::<char>(root);
    let before = seal.to_native();
    seal.set(value);
    Ok((before, seal.to_native()))
}

#[test]
fn wide_roots_are_written_in_place(rt: HostRuntime) {
    let mut bytes = [0x61, 0, 0, 0];
    let replaced = wide_root_replaced(&mut bytes, '€').ok();
    assert_eq!(rt; (replaced, bytes), (Some(('a', '€')), [0xac, 0x20, 0, 0]));
}

// Writes the value of the entry at position 0. Returns the key and the old value.
fn value_replaced(bytes: &mut [u8], value: u32) -> Result<(u8, u32), VerifyError> {
    let whole = access_mut::<Entry<u8, u32>>(bytes)?;
    let (key, mut seal) = whole.split_value::<u8, u32>(0);
    let before = (key.to_native(), seal.to_native());
    seal.set(value);
    Ok(before)
}

// Returns the value of an entry.
fn value_of(bytes: &[u8]) -> Result<u32, VerifyError> {
    let entry = access::<Entry<u8, u32>>(bytes)?;
    Ok(entry.value().to_native())
}

#[test]
fn values_of_entries_are_written_in_place(rt: HostRuntime) {
    let mut bytes = [1, 0, 0, 0, 2, 0, 0, 0];
    expect_eq!(rt; value_replaced(&mut bytes, 16_909_060), Ok((1, 2)));
    expect_eq!(rt; value_of(&bytes), Ok(16_909_060));
    set_value::<u8, u32>(&mut bytes, 0, 7);
    expect_eq!(rt; bytes, [1, 0, 0, 0, 7, 0, 0, 0]);
}

// Writes the value of the entry at position 0 by a seal of the value. Returns the old value.
fn value_sealed(bytes: &mut [u8], value: u32) -> Result<u32, VerifyError> {
    let whole = access_mut::<Entry<u8, u32>>(bytes)?;
    let mut seal = whole.value_seal::<u8, u32>(0);
    let before = seal.to_native();
    seal.set(value);
    Ok(before)
}

#[test]
fn values_of_entries_are_sealed(rt: HostRuntime) {
    let mut bytes = [1, 0, 0, 0, 2, 0, 0, 0];
    expect_eq!(rt; value_sealed(&mut bytes, 16_909_060), Ok(2));
    expect_eq!(rt; bytes, [1, 0, 0, 0, 4, 3, 2, 1]);
    // The wide text is at position 8, behind a key of one byte and its padding.
    let mut bytes = *b"\x01\0\0\0\0\0\0\0wonderful\xff\xff\xff\xff\xff\xff\xff";
    let whole = ArchiveSeal::<Entry<u8, Text<Wide>>>::new(&mut bytes, 0);
    let mut seal = whole.value_seal::<u8, Text<Wide>>(0);
    expect_eq!(rt; seal.make_ascii_uppercase(), true);
    drop(seal);
    expect_eq!(rt; bytes, *b"\x01\0\0\0\0\0\0\0WONDERFUL\xff\xff\xff\xff\xff\xff\xff");
}

#[test]
fn a_value_is_written_behind_its_key(rt: HostRuntime) -> Result<(), Fail> {
    let mut bytes = to_bytes(rt.alloc(), &(1u32, 2u32))?;
    expect_eq!(rt; sets_behind_key(bytes.as_mut_slice(), 0, 9), 1);
    expect_eq!(rt; bytes.as_slice(), [1, 0, 0, 0, 9, 0, 0, 0].as_slice());
    Ok(())
}

#[test]
fn archive_seal_returns_the_archive(rt: HostRuntime) {
    let mut bytes = [1, 2];
    let mut whole = ArchiveSeal::<u8>::new(&mut bytes, 1);
    let begun = whole.pos();
    let mut seal = whole.as_mut().seal_at::<u8>(0);
    seal.set(7);
    drop(seal);
    let (archive, pos) = whole.into_parts();
    expect_eq!(rt; (begun, pos, &*archive), (1, 1, [7, 2].as_slice()));
}

#[test]
fn access_mut_rejects_invalid_roots(rt: HostRuntime) {
    let (mut bytes, mut zeros) = ([2], [0, 0, 0, 0, 0]);
    expect_eq!(rt; access_mut_failure::<Narrow, bool>(&mut bytes),
        Some(VerifyError::InvalidValue { pos: 0 }));
    expect_eq!(rt; access_mut_failure::<Narrow, u32>(&mut zeros),
        Some(VerifyError::Unaligned { pos: 1, align: 4 }));
    expect_eq!(rt; access_mut_failure::<Wide, u64>(&mut zeros),
        Some(VerifyError::OutOfRange { pos: -3, size: 8 }));
    expect_eq!(rt; bytes, [2]);
}

// Returns `true` if a seal of the text at the root has this text.
fn shows_in_place<W: Width>(bytes: &mut [u8], text: &str) -> Result<bool, VerifyError> {
    let whole = access_mut_in::<W, Text<W>>(bytes)?;
    let root = whole.pos();
    let seal = whole.seal_at::<Text<W>>(root);
    Ok(seal.as_str() == Some(text))
}

#[test]
fn inline_text_is_read_in_place(rt: HostRuntime) {
    let mut bytes = *b"hello\xff\xff\xff";
    expect_eq!(rt; shows_in_place::<Narrow>(&mut bytes, "hello"), Ok(true));
    let mut bytes = *b"\xc3(\xff\xff\xff\xff\xff\xff";
    let seal = Seal::<Text>::over(&mut bytes, 0);
    expect_eq!(rt; seal.as_str(), None);
}

#[test]
fn inline_text_is_uppercased_in_place(rt: HostRuntime) {
    let mut bytes = [0x68, 0x65, 0x6c, 0x6c, 0x6f, 255, 255, 255, 97];
    let mut full = [0x7a; 8];
    let mut seal = Seal::<Text>::over(&mut bytes, 0);
    expect_eq!(rt; seal.make_ascii_uppercase(), true);
    drop(seal);
    let mut seal = Seal::<Text>::over(&mut full, 0);
    expect_eq!(rt; seal.make_ascii_uppercase(), true);
    drop(seal);
    expect_eq!(rt; bytes, [0x48, 0x45, 0x4c, 0x4c, 0x4f, 255, 255, 255, 97]);
    expect_eq!(rt; full, [0x5a; 8]);
    let mut inline = *b"abchello\xff\xff\xffxyz";
    let mut wonderful = *b"wonderful\0\0\0\x89\0\0\0\xf4\xff\xff\xff";
    expect_eq!(rt; uppercase_at::<Narrow>(&mut inline, 3), true);
    expect_eq!(rt; uppercase_at::<Narrow>(&mut wonderful, 12), false);
    expect_eq!(rt; inline, *b"abcHELLO\xff\xff\xffxyz");
    expect_eq!(rt; wonderful, *b"wonderful\0\0\0\x89\0\0\0\xf4\xff\xff\xff");
}

// Returns two flags: a seal of the text at the root has no text, and it converts the text.
fn uppercases_elsewhere<W: Width>(bytes: &mut [u8]) -> Result<(bool, bool), VerifyError> {
    let whole = access_mut_in::<W, Text<W>>(bytes)?;
    let root = whole.pos();
    let mut seal = whole.seal_at::<Text<W>>(root);
    Ok((seal.as_str().is_none(), seal.make_ascii_uppercase()))
}

#[test]
fn wide_texts_are_written_in_place(rt: HostRuntime) {
    let wonderful = *b"wonderful\0\0\0\x89\0\0\0\xf4\xff\xff\xff";
    let mut bytes = wonderful;
    expect_eq!(rt; uppercases_elsewhere::<Narrow>(&mut bytes), Ok((true, false)));
    expect_eq!(rt; is_archived_as(rt.alloc(), &"wonderful", &bytes), true);
    expect_eq!(rt; bytes, wonderful);
    let mut bytes = *b"wonderful\xff\xff\xff\xff\xff\xff\xff";
    expect_eq!(rt; shows_in_place::<Wide>(&mut bytes, "wonderful"), Ok(true));
    let mut bytes = [
        0x77, 0x6f, 0x6e, 0x64, 0x65, 0x72, 0x66, 0x75, 0x6c, 255, 97, 97, 97, 97, 97, 97,
    ];
    let mut seal = Seal::<Text<Wide>>::over(&mut bytes, 0);
    expect_eq!(rt; seal.make_ascii_uppercase(), true);
    drop(seal);
    let uppercased = [
        0x57, 0x4f, 0x4e, 0x44, 0x45, 0x52, 0x46, 0x55, 0x4c, 255, 97, 97, 97, 97, 97, 97,
    ];
    expect_eq!(rt; bytes, uppercased);
    // The text, five zeros, its length, and the distance back to its start.
    let text = *b"most wonderful text\0\0\0\0\0\x93\0\0\0\0\0\0\0\xe8\xff\xff\xff\xff\xff\xff\xff";
    let mut bytes = text;
    expect_eq!(rt; uppercases_elsewhere::<Wide>(&mut bytes), Ok((true, false)));
    expect_eq!(rt; bytes, text);
}
