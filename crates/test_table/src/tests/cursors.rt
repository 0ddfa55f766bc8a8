//! The calls of a cursor over the items of a table, each by itself.

use crate::tests::archives::two_archived;
use rkyv_base::access::access;
use rkyv_base::{Entry, Narrow, VerifyError, access_mut};
use rkyv_table::{ArchivedHashTable, TableOf};
use test_support::archives::one_number;
use test_support::changes::with_bytes;

// The positions of the items of the table of 10 and 20, by ascending bucket, and the number of
// items that are left before the first, before the second and after both.
fn positions_over(bytes: &mut [u8]) -> Result<([Option<u64>; 3], [usize; 3]), VerifyError> {
    let pos = access::<TableOf<u8>>(&*bytes)?.pos();
    let mut rest = ArchivedHashTable::<u8, Narrow>::raw_iter_over(bytes, pos);
    let before = rest.len();
    let first = rest.next_pos();
    let between = rest.len();
    let second = rest.next_pos();
    let third = rest.next_pos();
    Ok(([first, second, third], [before, between, rest.len()]))
}

#[test]
fn a_cursor_over_bare_bytes_yields_each_position(rt: HostRuntime) {
    let mut bytes = two_archived();
    expect_eq!(rt; positions_over(&mut bytes), Ok(([Some(2), Some(0), None], [2, 1, 0])));
    expect_eq!(rt; bytes, two_archived());
}

// Writes the numbers 3 and 4 over the key 1 and the value 2 of 32 bits, by a cursor.
// Returns the position of the pair, and whether there is no other.
fn write_pair(bytes: &mut [u8]) -> Result<Option<(u64, bool)>, VerifyError> {
    let whole = access_mut::<TableOf<Entry<u32, u32>>>(bytes)?;
    let mut rest = ArchivedHashTable::raw_iter_seal(whole);
    let pos = match rest.next_pos() {
        Some(pos) => pos,
        None => return Ok(None),
    };
    if pos > 52 || rest.bytes().len() != 60 {
        return Ok(None);
    }
    rest.write_at(pos, 0, 3u32);
    rest.write_at(pos, 4, 4u32);
    Ok(Some((pos, rest.next_pos().is_none())))
}

#[test]
fn a_scalar_is_written_at_an_offset_of_an_item(rt: HostRuntime) {
    let mut bytes = one_number();
    expect_eq!(rt; write_pair(&mut bytes), Ok(Some((0, true))));
    expect_eq!(rt; bytes, with_bytes(with_bytes(one_number(), 0, &[3]), 4, &[4]));
}

// Writes a byte over the first item of the table of 10 and 20, by a closure. Returns the position
// of the second item.
fn write_by_closure(bytes: &mut [u8], byte: u8) -> Result<Option<u64>, VerifyError> {
    let whole = access_mut::<TableOf<u8>>(bytes)?;
    let mut rest = ArchivedHashTable::raw_iter_seal(whole);
    match rest.next_pos() {
        Some(first) => rest.write_with(first, |archive: &mut [u8], pos: u64| {
            match archive.get_mut(pos as usize) {
                Some(old) => *old = byte,
                None => {}
            }
        }),
        None => {}
    }
    Ok(rest.next_pos())
}

#[test]
fn a_closure_writes_at_an_item(rt: HostRuntime) {
    let mut bytes = two_archived();
    expect_eq!(rt; write_by_closure(&mut bytes, 30), Ok(Some(0)));
    expect_eq!(rt; bytes, with_bytes(two_archived(), 2, &[30]));
}

// Writes a byte over the first item of the table of 10 and 20, in the bytes of the cursor.
// Returns the number of these bytes, and the position of the second item.
fn write_in_bytes(bytes: &mut [u8], byte: u8) -> Result<(usize, Option<u64>), VerifyError> {
    let whole = access_mut::<TableOf<u8>>(bytes)?;
    let mut rest = ArchivedHashTable::raw_iter_seal(whole);
    let pos = rest.next_pos();
    let archive = rest.bytes_mut();
    let count = archive.len();
    match pos {
        Some(pos) => match archive.get_mut(pos as usize) {
            Some(old) => *old = byte,
            None => {}
        },
        None => {}
    }
    Ok((count, rest.next_pos()))
}

#[test]
fn the_bytes_of_a_cursor_are_the_archive(rt: HostRuntime) {
    let mut bytes = two_archived();
    expect_eq!(rt; write_in_bytes(&mut bytes, 30), Ok((48, Some(0))));
    expect_eq!(rt; bytes, with_bytes(two_archived(), 2, &[30]));
}
