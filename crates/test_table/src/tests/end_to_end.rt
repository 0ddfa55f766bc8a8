//! Lists that the calls of `rkyv_end_to_end` write in both widths, and untrusted archives.
ghost use Rattle.std.specs.Int.{byte_len};
ghost use Rattle.std.specs.Prelude.{length, ◌%◌, ◌*◌, ◌+◌, ◌≡◌, ◌≤◌};
ghost use Rattle.rkyv_base.specs.{LiesIn, Viewable};
ghost use Rattle.rkyv_table.specs.{CanCompareOf, table_spec};

use rkyv_base::{
    Entry, LimitFault, LimitWriter, Narrow, NoMemory, PartRange, Scalar, Seal, VecWriter,
    VerifyError, View, Wide, Width, WriteError, Writer, access_in, append_in,
};
use rkyv_end_to_end::{
    ListError, LookError, TableReport, errors_are_converted, look_over, lookups_find_listed,
    write_and_look_over, write_list, written_items_are_replaced, written_lists_are_found,
    written_lists_represent,
};
use rkyv_table::{ArchivedHashTable, HashTableResolver, TableOf};
use std::alloc::{AllocError, Global};
use std::cell::Cell;
use std::fmt::Display;
use std::process::Abort;
use test_support::archives::one_number;

// Returns `true` if the walk, the result and the strides of a lookup are these.
fn is_report(report: &TableReport, walked: &[u64], found: Option<u64>, strides: u64) -> bool {
    report.walked.as_slice() == walked && report.found == found && report.strides == strides
}

// Writes 10, 20 and 30 after a zero, the first two with the hash 2 and the last with 5.
// Returns `true` if the header ends at `end`, the walk visits the items of four buckets in order,
// and a lookup is right. The lookup by 2 of a number above 10 finds 20.
fn is_looked_over<W: Width>(alloc: Global, end: u64) -> bool {
    let mut writer = VecWriter::new(alloc);
    if writer.write(&[0]).is_err() {
        return false;
    }
    let items = [10u8, 20, 30];
    let hashes = [2u64, 2, 5];
    let result = write_and_look_over::<W, u8, &u8, _, _, _>(
        alloc,
        items.iter(),
        hashes.iter().copied(),
        3,
        (1, 1),
        &mut writer,
        2,
        |item| item.to_native() > 10,
    );
    match result {
        Ok(report) => is_report(&report, &[3, 2, 1], Some(1), 1) && writer.pos() == end,
        Err(_) => false,
    }
}

#[test]
fn a_list_is_found_as_it_was_written(rt: HostRuntime) {
    written_lists_represent::<Narrow, u8, &u8>();
    let alloc = rt.alloc();
    expect_eq!(rt; is_looked_over::<Narrow>(alloc, 48), true);
    expect_eq!(rt; is_looked_over::<Wide>(alloc, 64), true);
}

// Does the same with a writer of at most `limit` bytes, and looks over its bytes afterwards.
// After a failed write, the error is whether the list has more bytes than that.
fn is_limited<W: Width>(alloc: Global, limit: u64) -> Result<bool, bool> {
    let mut writer = LimitWriter::new(VecWriter::new(alloc), limit);
    if writer.write(&[0]).is_err() {
        return Err(false);
    }
    let items = [10u8, 20, 30];
    let hashes = [2u64, 2, 5];
    let wrote = write_list::<W, _, u8, &u8, _, _>(
        alloc,
        items.iter(),
        hashes.iter().copied(),
        3,
        (1, 1),
        &mut writer,
    );
    let at = match wrote {
        Ok(at) => at,
        Err(error) => return Err(matches!(error, WriteError::Writer(LimitFault::Full))),
    };
    let range = PartRange { lo: 1, hi: at.end };
    let inner = writer.into_inner();
    match look_over::<W, u8, _>(
        alloc,
        inner.bytes(),
        at.pos,
        range,
        2,
        |item| item.to_native() > 10,
    ) {
        Ok(report) => Ok(is_report(&report, &[3, 2, 1], Some(1), 1)),
        Err(_) => Ok(false),
    }
}

#[test]
fn a_list_is_written_by_any_writer(rt: HostRuntime) {
    let alloc = rt.alloc();
    expect_eq!(rt; is_limited::<Narrow>(alloc, 48), Ok(true));
    expect_eq!(rt; is_limited::<Narrow>(alloc, 47), Err(true));
    expect_eq!(rt; is_limited::<Wide>(alloc, 64), Ok(true));
    expect_eq!(rt; is_limited::<Wide>(alloc, 63), Err(true));
}

// Counts a call of a comparison, and returns `accepts`.
fn count_call(calls: &Cell<usize>, accepts: bool) -> bool {
    calls.set(calls.get().wrapping_add(1));
    accepts
}

// Writes the same list, and looks up the hash 2 of a number above `least`.
// Returns the number of comparisons.
fn compared_in_list(alloc: Global, least: u8) -> Option<usize> {
    let mut writer = VecWriter::new(alloc);
    let items = [10u8, 20, 30];
    let hashes = [2u64, 2, 5];
    let calls = Cell::new(0usize);
    let result = write_and_look_over::<Narrow, u8, &u8, _, _, _>(
        alloc,
        items.iter(),
        hashes.iter().copied(),
        3,
        (1, 1),
        &mut writer,
        2,
        |item| count_call(&calls, item.to_native() > least),
    );
    match result {
        Ok(_) => Some(calls.get()),
        Err(_) => None,
    }
}

// Returns the number of comparisons of a lookup in the table of one pair, in the second of two
// buckets, by a comparison that always returns `accepts`.
fn compared_in_bytes(alloc: Global, accepts: bool) -> Option<usize> {
    let range = PartRange { lo: 0, hi: 48 };
    let hash = 0x5000_0000_0000_0001;
    let calls = Cell::new(0usize);
    let result = look_over::<Narrow, Entry<u32, u32>, _>(
        alloc,
        &one_number(),
        48,
        range,
        hash,
        |_| count_call(&calls, accepts),
    );
    match result {
        Ok(_) => Some(calls.get()),
        Err(_) => None,
    }
}

// Looks up a hash in that table, with a comparison that accepts every item.
fn look(alloc: Global, bytes: &[u8; 60], hash: u64) -> Result<TableReport, LookError> {
    let range = PartRange { lo: 0, hi: 48 };
    look_over::<Narrow, Entry<u32, u32>, _>(alloc, bytes, 48, range, hash, |_| true)
}

// The three items have one tag, and are in the buckets 2, 3 and 1 of four. The first stride begins
// at bucket 2, and mirrors all four: it has them in the order 2, 3, 1, 2, 3.
#[test]
fn one_lookup_is_made(rt: HostRuntime) {
    let alloc = rt.alloc();
    expect_eq!(rt; compared_in_list(alloc, 0), Some(1));
    expect_eq!(rt; compared_in_list(alloc, 10), Some(2));
    expect_eq!(rt; compared_in_list(alloc, 99), Some(5));
    expect_eq!(rt; compared_in_bytes(alloc, true), Some(1));
    expect_eq!(rt; compared_in_bytes(alloc, false), Some(2));
}

// Writes a number over the first item that is accepted under the hash 2. Returns `None` if there
// is no such item.
fn set_found<N: Scalar, W: Width, F: Fn(View<'_, N>) -> bool>(
    archive: &mut [u8],
    pos: u64,
    accepts: F,
    number: N,
) -> Option<()>
    requires table { Viewable (table_spec W.word N.spec) archive.old pos }
    requires callable { CanCompareOf (F.pre accepts) W.word N.spec archive.old pos }
{
    ArchivedHashTable::<N, W>::found_with(
        archive,
        pos,
        2,
        accepts,
        |seal: &mut Seal<'_, N>|
            requires { LiesIn N.spec seal.old }
        {
            seal.set(number);
        },
    )
}

// Writes 40 over the first item above 10 of the table at the root of an archive.
fn set_above_ten<W: Width>(archive: &mut [u8]) -> Result<Option<()>, VerifyError> {
    let pos = access_in::<W, TableOf<u8, W>>(&*archive)?.pos();
    Ok(set_found::<u8, W, _>(archive, pos, |item| item.to_native() > 10, 40))
}

// Writes the list of 10, 20 and 30, and 40 over the 20. Returns `true` if the walk is as before,
// and a lookup finds 40 where the 20 was, and the 20 no more.
fn is_changed<W: Width>(alloc: Global) -> bool {
    let mut writer = VecWriter::new(alloc);
    let items = [10u8, 20, 30];
    let hashes = [2u64, 2, 5];
    let wrote = write_list::<W, _, u8, &u8, _, _>(
        alloc,
        items.iter(),
        hashes.iter().copied(),
        3,
        (1, 1),
        &mut writer,
    );
    let Ok(at) = wrote else {
        return false;
    };
    let mut bytes = writer.into_vec();
    let written = set_above_ten::<W>(bytes.as_mut_slice());
    let range = PartRange { lo: 0, hi: at.end };
    let bytes = bytes.as_slice();
    let new = look_over::<W, u8, _>(
        alloc,
        bytes,
        at.pos,
        range,
        2,
        |item| item.to_native() == 40,
    );
    let old = look_over::<W, u8, _>(
        alloc,
        bytes,
        at.pos,
        range,
        2,
        |item| item.to_native() == 20,
    );
    match (written, new, old) {
        (Ok(Some(())), Ok(new), Ok(old)) => {
            is_report(&new, &[2, 1, 0], Some(0), 1) && is_report(&old, &[2, 1, 0], None, 1)
        }
        _ => false,
    }
}

// Calls the law of lookups for a comparison.
fn finds_listed<F: Fn(View<'_, u8>) -> bool>(_cmp: F) {
    lookups_find_listed::<Narrow, u8, &u8, F>();
}

#[test]
fn a_changed_list_is_found_with_its_new_item(rt: HostRuntime) {
    written_items_are_replaced::<Narrow, u8, &u8>();
    finds_listed(|item| item.to_native() > 10);
    let alloc = rt.alloc();
    expect_eq!(rt; [is_changed::<Narrow>(alloc), is_changed::<Wide>(alloc)], [true; 2]);
}

// The archive of the list of 10, 20 and 30 after a zero. The table has the buckets 3 to 0 and the
// control bytes, and ends at 36. Behind it are 24 sevens, then the header.
const NARROW_BEHIND: [u8; 72] = [
    0x00, 0x14, 0x0a, 0x1e, 0x00, 0xff, 0x00, 0x00, 0x00, 0xff, 0x00, 0x00, 0x00, 0xff, 0xff, 0xff,
    0xff, 0xff, 0xff, 0xff, 0xff, 0xff, 0xff, 0xff, 0xff, 0xff, 0xff, 0xff, 0xff, 0xff, 0xff, 0xff,
    0xff, 0xff, 0xff, 0xff, 0x07, 0x07, 0x07, 0x07, 0x07, 0x07, 0x07, 0x07, 0x07, 0x07, 0x07, 0x07,
    0x07, 0x07, 0x07, 0x07, 0x07, 0x07, 0x07, 0x07, 0x07, 0x07, 0x07, 0x07, 0xc9, 0xff, 0xff, 0xff,
    0x03, 0x00, 0x00, 0x00, 0x04, 0x00, 0x00, 0x00,
];

// The same archive with a wide header, 24 bytes behind its first aligned position.
const WIDE_BEHIND: [u8; 88] = [
    0x00, 0x14, 0x0a, 0x1e, 0x00, 0xff, 0x00, 0x00, 0x00, 0xff, 0x00, 0x00, 0x00, 0xff, 0xff, 0xff,
    0xff, 0xff, 0xff, 0xff, 0xff, 0xff, 0xff, 0xff, 0xff, 0xff, 0xff, 0xff, 0xff, 0xff, 0xff, 0xff,
    0xff, 0xff, 0xff, 0xff, 0x07, 0x07, 0x07, 0x07, 0x07, 0x07, 0x07, 0x07, 0x07, 0x07, 0x07, 0x07,
    0x07, 0x07, 0x07, 0x07, 0x07, 0x07, 0x07, 0x07, 0x07, 0x07, 0x07, 0x07, 0x07, 0x07, 0x07, 0x07,
    0xc5, 0xff, 0xff, 0xff, 0xff, 0xff, 0xff, 0xff, 0x03, 0x00, 0x00, 0x00, 0x00, 0x00, 0x00, 0x00,
    0x04, 0x00, 0x00, 0x00, 0x00, 0x00, 0x00, 0x00,
];

// Writes a zero, that table and the gap, and returns the resolver.
fn write_with_gap<W: Width>(
    alloc: Global,
    gap: &[u8],
    writer: &mut VecWriter,
) -> Result<HashTableResolver<W>, WriteError<NoMemory>> {
    append_in::<W, VecWriter>(writer, &[0])?;
    let items = [10u8, 20, 30];
    let hashes = [2u64, 2, 5];
    let resolver = ArchivedHashTable::<u8, W>::serialize_from_iter::<VecWriter, u8, &u8, _, _>(
        alloc,
        items.iter(),
        hashes.iter().copied(),
        3,
        (1, 1),
        writer,
    )?;
    append_in::<W, VecWriter>(writer, gap)?;
    Ok(resolver)
}

// Writes the narrow archive.
fn write_narrow_behind(alloc: Global) -> Result<Vec<u8>, WriteError<NoMemory>> {
    let mut writer = VecWriter::new(alloc);
    let resolver = write_with_gap::<Narrow>(alloc, &[7; 24], &mut writer)?;
    let mut header = [0u8; 12];
    resolver.resolve(60, &mut header)?;
    append_in::<Narrow, VecWriter>(&mut writer, &header)?;
    Ok(writer.into_vec())
}

// Writes the wide archive.
fn write_wide_behind(alloc: Global) -> Result<Vec<u8>, WriteError<NoMemory>> {
    let mut writer = VecWriter::new(alloc);
    let resolver = write_with_gap::<Wide>(alloc, &[7; 28], &mut writer)?;
    let mut header = [0u8; 24];
    resolver.resolve(64, &mut header)?;
    append_in::<Wide, VecWriter>(&mut writer, &header)?;
    Ok(writer.into_vec())
}

// Returns `true` if these bytes were written.
fn is_written(written: &Result<Vec<u8>, WriteError<NoMemory>>, expected: &[u8]) -> bool {
    matches!(written, Ok(bytes) if bytes.as_slice() == expected)
}

// Returns `true` if the walk visits the three items, and the lookup by 2 of a number above 10
// finds 20.
fn is_found_behind<W: Width>(alloc: Global, bytes: &[u8], pos: u64) -> bool
    requires inside { pos + 3 * byte_len W.word ≤ length bytes.now }
    requires aligned { pos % byte_len W.word ≡ 0 }
    requires behind { 36 ≤ pos }
{
    let range = PartRange { lo: 1, hi: 36 };
    match look_over::<W, u8, _>(alloc, bytes, pos, range, 2, |item| item.to_native() > 10) {
        Ok(report) => is_report(&report, &[3, 2, 1], Some(1), 1),
        Err(_) => false,
    }
}

// Calls the law of headers further behind for a comparison.
fn finds_behind<F: Fn(View<'_, u8>) -> bool>(_cmp: F) {
    written_lists_are_found::<Narrow, u8, &u8, F>();
}

#[test]
fn a_list_is_found_with_its_header_further_behind(rt: HostRuntime) {
    finds_behind(|item| item.to_native() > 10);
    let alloc = rt.alloc();
    expect_eq!(rt; is_written(&write_narrow_behind(alloc), &NARROW_BEHIND), true);
    expect_eq!(rt; is_written(&write_wide_behind(alloc), &WIDE_BEHIND), true);
    expect_eq!(rt; is_found_behind::<Narrow>(alloc, &NARROW_BEHIND, 60), true);
    expect_eq!(rt; is_found_behind::<Wide>(alloc, &WIDE_BEHIND, 64), true);
}

// Returns `true` if a lookup in that table has this result, and its walk visits the pair.
fn finds(alloc: Global, hash: u64, found: Option<u64>) -> bool {
    matches!(look(alloc, &one_number(), hash), Ok(report) if is_report(&report, &[0], found, 1))
}

#[test]
fn untrusted_bytes_are_reported_or_rejected(rt: HostRuntime) {
    let alloc = rt.alloc();
    let mut bytes = one_number();
    bytes[52] = 0;
    expect_eq!(rt; matches!(look(alloc, &bytes, 1),
        Err(LookError::Verify(VerifyError::WrongNumberOfElements { expected: 0, actual: 1, }))),
        true);
    expect_eq!(rt; finds(alloc, 0x5000_0000_0000_0001, Some(0)), true);
    expect_eq!(rt; finds(alloc, 1, None), true);
}

// Fails the test unless each of these errors is displayed as the text beside it.
fn expect_texts<E: Display>(
    rt: &impl Abort,
    alloc: Global,
    rows: &[(E, &str)],
) -> Result<(), AllocError> {
    for (error, text) in rows {
        let shown = format!(in alloc; "{error}")?;
        expect_eq!(*rt; shown.as_str(), *text);
    }
    Ok(())
}

#[test]
fn errors_are_displayed_and_converted(rt: HostRuntime) -> Result<(), AllocError> {
    expect_texts(
        &rt,
        rt.alloc(),
        &[
            (LookError::Memory, "no memory"),
            (
                LookError::Verify(VerifyError::UnwrappedControlByte { index: 3 }),
                "unwrapped control byte at index 3",
            ),
        ],
    )?;
    expect_texts(
        &rt,
        rt.alloc(),
        &[
            (
                ListError::Write(WriteError::CapacityTooLarge { len: 7 }),
                "capacity too large for length 7",
            ),
            (ListError::Look(LookError::Memory), "no memory"),
        ],
    )?;
    errors_are_converted();
    let fault = VerifyError::UnwrappedControlByte { index: 3 };
    expect_eq!(rt; LookError::from(fault), LookError::Verify(fault));
    expect_eq!(rt; LookError::from(AllocError), LookError::Memory);
    expect_eq!(rt; ListError::from(WriteError::CapacityTooLarge { len: 7 }),
        ListError::Write(WriteError::CapacityTooLarge { len: 7 }));
    expect_eq!(rt; ListError::from(LookError::Memory), ListError::Look(LookError::Memory));
    Ok(())
}
