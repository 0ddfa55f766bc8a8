//! Writing each item of a table in place, by a cursor over the bare bytes.
//!
//! The calls are proved for every scalar and both widths, and run over numbers.
ghost use Rattle.rkyv_base.specs.{LiesIn, ModifiesOnly, SealStays, StaysValid, Viewable, bytes_in};
ghost use Rattle.rkyv_base.specs.{seal_pos};
ghost use Rattle.rkyv_table.specs.{CanCompareOf, table_spec};

use crate::tests::archives::two_archived;
use rkyv_base::access::access;
use rkyv_base::{Narrow, Scalar, Seal, VerifyError, View, Width, access_mut};
use rkyv_table::table::laws;
use rkyv_table::{ArchivedHashTable, TableOf};
use test_support::changes::{change, with_bytes};

// Sets each item of a table, which stays valid.
fn set_all<N: Scalar, W: Width>(archive: &mut [u8], pos: u64, value: N)
    requires { Viewable (table_spec W.word N.spec) archive.old pos }
    ensures { Viewable (table_spec W.word N.spec) archive.new pos }
{
    let mut rest = ArchivedHashTable::<N, W>::raw_iter_over(archive, pos);
    while let Some(next) = rest.next_pos() {
        rest.set_at(next, value);
    }
}

// Sets each item of a table by seals. The table stays valid.
fn set_all_by_seals<N: Scalar, W: Width>(archive: &mut [u8], pos: u64, value: N)
    requires { Viewable (table_spec W.word N.spec) archive.old pos }
    ensures { Viewable (table_spec W.word N.spec) archive.new pos }
{
    let mut rest = ArchivedHashTable::<N, W>::raw_iter_over(archive, pos);
    for _ in 0..rest.len() {
        rest.next_seal_with(
            |seal: &mut Seal<'_, N>|
                requires { LiesIn N.spec seal.old }
                ensures stays { SealStays seal.old seal.new }
                ensures sealed { ModifiesOnly (bytes_in seal.old) (seal_pos seal.old)
                    N.spec.size (bytes_in seal.new) }
                ensures is_valid { StaysValid N.spec (bytes_in seal.old)
                    (bytes_in seal.new) (seal_pos seal.old) }
            {
                seal.set(value);
            },
        );
    }
}

// Sets each number of an archived table to 7, and then by seals to 9. Returns the bytes after each.
fn set_twice(bytes: &mut [u8; 48]) -> Result<([u8; 48], [u8; 48]), VerifyError> {
    let pos = access::<TableOf<u8>>(bytes)?.pos();
    set_all::<u8, Narrow>(bytes, pos, 7);
    let first = *bytes;
    set_all_by_seals::<u8, Narrow>(bytes, pos, 9);
    Ok((first, *bytes))
}

// Steps over the items of an archived table, and returns the bytes.
fn stepped(bytes: &mut [u8; 48], steps: usize) -> Result<[u8; 48], VerifyError> {
    let pos = access::<TableOf<u8>>(bytes)?.pos();
    laws::in_place::cursors_keep_bytes::<u8, Narrow>(bytes, pos, steps);
    Ok(*bytes)
}

#[test]
fn items_are_set_by_a_cursor(rt: HostRuntime) {
    laws::in_place::items_written_represent::<u32, u32, Narrow>();
    laws::in_place::writes_keep_the_table::<u32, Narrow>();
    laws::in_place::writes_keep_archives::<TableOf<u32>, Narrow>();
    let mut bytes = two_archived();
    let mut sevens = two_archived();
    sevens[0] = 7;
    sevens[2] = 7;
    let mut nines = two_archived();
    nines[0] = 9;
    nines[2] = 9;
    expect_eq!(rt; set_twice(&mut bytes), Ok((sevens, nines)));
    let mut bytes = two_archived();
    expect_eq!(rt; stepped(&mut bytes, 0), Ok(two_archived()));
    expect_eq!(rt; stepped(&mut bytes, 1), Ok(two_archived()));
    expect_eq!(rt; stepped(&mut bytes, 3), Ok(two_archived()));
}

// Writes a number over the item that is found under a hash, and returns the number that is read
// back.
fn set_found<N: Scalar, W: Width, F: Fn(View<'_, N>) -> bool>(
    archive: &mut [u8],
    pos: u64,
    hash: u64,
    accepts: F,
    value: N,
) -> Option<N>
    requires table { Viewable (table_spec W.word N.spec) archive.old pos }
    requires callable { CanCompareOf (F.pre accepts) W.word N.spec archive.old pos }
{
    ArchivedHashTable::<N, W>::found_with(
        archive,
        pos,
        hash,
        accepts,
        |seal: &mut Seal<'_, N>|
            requires { LiesIn N.spec seal.old }
        {
            seal.set(value);
            seal.to_native()
        },
    )
}

// Writes a number over another one, if that is found under a hash.
fn set_number(
    bytes: &mut [u8],
    hash: u64,
    expected: u8,
    number: u8,
) -> Result<Option<u8>, VerifyError> {
    let pos = access::<TableOf<u8>>(&*bytes)?.pos();
    Ok(set_found::<u8, Narrow, _>(
        bytes,
        pos,
        hash,
        |item| item.to_native() == expected,
        number,
    ))
}

#[test]
fn a_found_item_is_written_in_place(rt: HostRuntime) {
    laws::in_place::value_writes_keep_the_table::<u8, u32, Narrow>();
    laws::in_place::writes_keep_lookups::<u32, Narrow>();
    let mut bytes = two_archived();
    expect_eq!(rt; set_number(&mut bytes, 2, 20, 30), Ok(Some(30)));
    expect_eq!(rt; bytes, with_bytes(two_archived(), 2, &[30]));
    let mut bytes = two_archived();
    expect_eq!(rt; set_number(&mut bytes, 2, 30, 40), Ok(None));
    expect_eq!(rt; bytes, two_archived());
}

// Writes 7 and 9 over the two items of a table while the cursor steps. Returns the three results,
// and the number of items that remain.
fn write_stepping(bytes: &mut [u8]) -> Result<([Option<u64>; 3], usize), VerifyError> {
    let whole = access_mut::<TableOf<u8>>(bytes)?;
    let mut rest = ArchivedHashTable::raw_iter_seal(whole);
    let positions = [
        rest.next_with(|archive: &mut [u8], pos: u64| {
            change(archive, pos, 7);
        }),
        rest.next_with(|archive: &mut [u8], pos: u64| {
            change(archive, pos, 9);
        }),
        rest.next_with(|archive: &mut [u8], pos: u64| {
            change(archive, pos, 11);
        }),
    ];
    Ok((positions, rest.len()))
}

#[test]
fn items_are_written_while_the_cursor_steps(rt: HostRuntime) {
    let mut bytes = two_archived();
    expect_eq!(rt; write_stepping(&mut bytes), Ok(([Some(2), Some(0), None], 0)));
    expect_eq!(rt; bytes, with_bytes(with_bytes(two_archived(), 2, &[7]), 0, &[9]));
}
