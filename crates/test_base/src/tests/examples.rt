//! The examples of the docs of entry points that no other test has.

use rkyv_base::access::access;
use rkyv_base::{
    Entry, Seal, VecWriter, VerifyError, Wide, Writer, access_in, access_mut, access_mut_with,
    access_mut_with_in, align_for, append, set_at, to_bytes, to_bytes_in, write_root,
};
use std::test::Fail;

// Returns the key and the value of a pair in an archive.
fn pair_of(archive: &[u8]) -> Result<(u8, u32), VerifyError> {
    let pair = access::<Entry<u8, u32>>(archive)?;
    Ok((pair.key().to_native(), pair.value().to_native()))
}

#[test]
fn a_pair_is_read(rt: HostRuntime) {
    assert_eq!(rt; pair_of(&[1, 0, 0, 0, 2, 0, 0, 0]).ok(), Some((1, 2)));
}

// Returns the number at the root of a wide archive.
fn number_of(archive: &[u8]) -> Result<u64, VerifyError> {
    Ok(access_in::<Wide, u64>(archive)?.to_native())
}

#[test]
fn a_wide_number_is_read(rt: HostRuntime) {
    assert_eq!(rt; number_of(&[1, 2, 0, 0, 0, 0, 0, 0]).ok(), Some(513));
}

// Writes the number at the root of an archive, and returns the number before.
fn replace_root(archive: &mut [u8], number: u32) -> Result<u32, VerifyError> {
    let whole = access_mut::<u32>(archive)?;
    let pos = whole.pos();
    let mut root = whole.seal_at::<u32>(pos);
    let before = root.to_native();
    root.set(number);
    Ok(before)
}

#[test]
fn a_root_is_written(rt: HostRuntime) {
    let mut archive = [2, 0, 0, 0];
    let before = replace_root(&mut archive, 3).ok();
    assert_eq!(rt; (before, archive), (Some(2), [3, 0, 0, 0]));
}

#[test]
fn a_root_is_written_by_a_closure(rt: HostRuntime) {
    let mut archive = [1, 0, 0, 0];
    let pos = access_mut_with::<u32, u64, _>(&mut archive, |bytes: &mut [u8], pos: u64| {
        bytes.fill(7);
        pos
    });
    assert_eq!(rt; (pos.ok(), archive), (Some(0), [7; 4]));
}

#[test]
fn a_wide_root_is_written_by_a_closure(rt: HostRuntime) {
    let mut archive = [1; 8];
    let pos = access_mut_with_in::<Wide, u64, u64, _>(&mut archive, |bytes: &mut [u8], pos: u64| {
        bytes.fill(7);
        pos
    });
    assert_eq!(rt; (pos.ok(), archive), (Some(0), [7; 8]));
}

#[test]
fn a_pair_is_archived(rt: HostRuntime) -> Result<(), Fail> {
    let bytes = to_bytes(rt.alloc(), &(1u8, 2u32))?;
    assert_eq!(rt; bytes.as_slice(), [1, 0, 0, 0, 2, 0, 0, 0].as_slice());
    Ok(())
}

#[test]
fn a_wide_text_is_archived(rt: HostRuntime) -> Result<(), Fail> {
    let bytes = to_bytes_in::<Wide, &str>(rt.alloc(), &"wonderful")?;
    assert_eq!(rt;
        bytes.as_slice(),
        b"wonderful\xff\xff\xff\xff\xff\xff\xff".as_slice()
    );
    Ok(())
}

#[test]
fn a_root_is_appended(rt: HostRuntime) {
    let mut writer = VecWriter::new(rt.alloc());
    let root = write_root(rt.alloc(), &(1u8, 2u16), &mut writer).ok();
    assert_eq!(rt; (root, writer.bytes()), (Some(0), [1, 0, 2, 0].as_slice()));
}

#[test]
fn a_root_is_appended_to_the_bytes_of_a_vector(rt: HostRuntime) -> Result<(), Fail> {
    let mut writer = VecWriter::from(vec![in rt.alloc(); 1, 2, 3]?);
    let root = write_root(rt.alloc(), &7u32, &mut writer).ok();
    assert_eq!(rt;
        (root, writer.bytes()),
        (Some(4), [1, 2, 3, 0, 7, 0, 0, 0].as_slice())
    );
    Ok(())
}

#[test]
fn pieces_are_appended(rt: HostRuntime) {
    let mut writer = VecWriter::new(rt.alloc());
    let appended = append(&mut writer, &[1, 2, 3]).is_ok();
    let aligned = align_for::<u32, VecWriter>(&mut writer).ok();
    assert_eq!(rt; (appended, aligned, writer.pos()), (true, Some(4), 4));
}

#[test]
fn a_number_is_written_over_bytes(rt: HostRuntime) {
    let mut bytes = [9; 6];
    set_at(&mut bytes, 1, 16_909_060u32);
    assert_eq!(rt; bytes, [9, 4, 3, 2, 1, 9]);
}

#[test]
fn a_seal_is_read_and_written(rt: HostRuntime) {
    let mut bytes = [1, 2, 3];
    let mut seal = Seal::<u8>::over(&mut bytes, 1);
    let before = seal.to_native();
    seal.set(255);
    drop(seal);
    assert_eq!(rt; (before, bytes), (2, [1, 255, 3]));
}
