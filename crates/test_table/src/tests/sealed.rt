//! Items written in place.

use crate::tests::archives::{sixteen_archived, two_archived};
use crate::tests::lookups::{Accepted, CallRecord, is_accepted};
use rkyv_base::access::access;
use rkyv_base::{VerifyError, access_mut};
use rkyv_table::{ArchivedHashTable, RawIterSeal, TableOf};
use test_support::archives::no_items;
use test_support::changes::with_bytes;

// Returns the number of the seal that is found under a hash.
fn sealed(bytes: &mut [u8], hash: u64, accepted: Accepted<'_>) -> Result<Option<u8>, VerifyError> {
    let whole = access_mut::<TableOf<u8>>(bytes)?;
    match ArchivedHashTable::get_seal_with(
        whole,
        hash,
        |item| is_accepted(item.to_native(), accepted),
    ) {
        Some(seal) => Ok(Some(seal.to_native())),
        None => Ok(None),
    }
}

// Writes a number over the one that is found under a hash. Returns the number before and after it.
fn replace(bytes: &mut [u8], hash: u64, old: u8, new: u8) -> Result<Option<(u8, u8)>, VerifyError> {
    let whole = access_mut::<TableOf<u8>>(bytes)?;
    match ArchivedHashTable::get_seal_with(whole, hash, |item| item.to_native() == old) {
        Some(mut seal) => {
            let before = seal.to_native();
            seal.set(new);
            Ok(Some((before, seal.to_native())))
        }
        None => Ok(None),
    }
}

// Returns the position of a number that is found under a hash.
fn pos_of_number(bytes: &[u8], hash: u64, number: u8) -> Result<Option<u64>, VerifyError> {
    let table = ArchivedHashTable::of(access::<TableOf<u8>>(bytes)?);
    Ok(table.get_pos_with(hash, |item| item.to_native() == number))
}

// The way to write the items of a cursor.
#[derive(Clone, Copy)]
enum By {
    Seal,
    Position,
}

// Writes a number over the next item of a cursor. Returns `false` if there is none.
fn write_next(rest: &mut RawIterSeal<'_, u8>, number: u8, by: By) -> bool {
    match by {
        By::Seal => match rest.next_seal() {
            Some(mut seal) => {
                seal.set(number);
                true
            }
            None => false,
        },
        By::Position => match rest.next_pos() {
            Some(pos) => {
                rest.set_at(pos, number);
                true
            }
            None => false,
        },
    }
}

// Returns `true` if a cursor has no item left.
fn has_ended(rest: &mut RawIterSeal<'_, u8>, by: By) -> bool {
    match by {
        By::Seal => rest.next_seal().is_none(),
        By::Position => rest.next_pos().is_none(),
    }
}

// Writes the numbers over the items of a cursor in order. Returns `true` if there are as many
// items, the cursor has the right length at each step, and it returns `None` after the last.
fn writes_all(mut rest: RawIterSeal<'_, u8>, numbers: &[u8], by: By) -> bool {
    let mut right = true;
    let mut left = numbers.len();
    for number in numbers {
        right = right && rest.len() == left && write_next(&mut rest, *number, by);
        left = left.saturating_sub(1);
    }
    right = right && rest.len() == 0;
    right && has_ended(&mut rest, by) && has_ended(&mut rest, by) && rest.len() == 0
}

// Returns the same of the cursor over the table at the end of an archive.
fn write_each(bytes: &mut [u8], numbers: &[u8], by: By) -> Result<bool, VerifyError> {
    let whole = access_mut::<TableOf<u8>>(bytes)?;
    Ok(writes_all(ArchivedHashTable::raw_iter_seal(whole), numbers, by))
}

#[test]
fn unsuccessful_sealed_lookup_compares_each_item(rt: HostRuntime) {
    let mut bytes = sixteen_archived();
    let calls = CallRecord::new();
    expect_eq!(rt; sealed(&mut bytes, 16, Accepted::Nothing(&calls)), Ok(None));
    expect_eq!(rt; (calls.are_all(), bytes), (true, sixteen_archived()));
}

#[test]
fn found_items_are_written_in_place(rt: HostRuntime) {
    let mut bytes = two_archived();
    expect_eq!(rt; replace(&mut bytes, 2, 20, 30), Ok(Some((20, 30))));
    expect_eq!(rt; pos_of_number(&bytes, 2, 30), Ok(Some(2)));
    expect_eq!(rt; pos_of_number(&bytes, 2, 20), Ok(None));
    expect_eq!(rt; bytes, with_bytes(two_archived(), 2, &[30]));
    let mut bytes = two_archived();
    expect_eq!(rt; sealed(&mut bytes, 2, Accepted::Each), Ok(Some(10)));
    let mut bytes = two_archived();
    expect_eq!(rt; replace(&mut bytes, 2, 30, 40), Ok(None));
    expect_eq!(rt; bytes, two_archived());
}

#[test]
fn items_are_written_by_a_cursor(rt: HostRuntime) {
    let mut bytes = two_archived();
    expect_eq!(rt; write_each(&mut bytes, &[40, 30], By::Seal), Ok(true));
    expect_eq!(rt; bytes, with_bytes(with_bytes(two_archived(), 0, &[30]), 2, &[40]));
    let mut bytes = sixteen_archived();
    expect_eq!(rt; write_each(&mut bytes, &[7; 16], By::Position), Ok(true));
    expect_eq!(rt; bytes, with_bytes(with_bytes(sixteen_archived(), 0, &[7]), 2, &[7; 15]));
}

#[test]
fn an_empty_table_has_no_sealed_item(rt: HostRuntime) {
    let mut bytes = no_items();
    expect_eq!(rt; sealed(&mut bytes, 2, Accepted::Each), Ok(None));
    expect_eq!(rt; write_each(&mut bytes, &[], By::Seal), Ok(true));
    expect_eq!(rt; write_each(&mut bytes, &[], By::Position), Ok(true));
    expect_eq!(rt; bytes, no_items());
}

#[test]
fn invalid_table_is_unchanged(rt: HostRuntime) {
    let mut bytes = [1, 0, 0, 0, 2, 0, 0, 0, 2, 0, 0, 0];
    expect_eq!(rt; matches!(access_mut::<TableOf<u8>>(&mut bytes),
        Err(VerifyError::InvalidLength { len: 2, cap: 2 })), true);
    expect_eq!(rt; bytes, [1, 0, 0, 0, 2, 0, 0, 0, 2, 0, 0, 0]);
}
