//! Lookups: the found item, and the number of strides and items that are read.

use crate::tests::archives::{
    EVEN_TAG, archived, empty_bucket_archived, fifteen_archived, hash_of_i8, hash_of_u32,
    hash_of_usize, sixteen_archived, tags_archived, two_archived, wide_seven_archived,
};
use crate::tests::reading::{counts, counts_and_lookup, first_pos, value_of, value_of_small};
use rkyv_base::access::access;
use rkyv_base::{Element, Entry, Narrow, VerifyError, Wide, Width, access_in};
use rkyv_scan::simd::{bytewise, generic, lanes, paired};
use rkyv_scan::{FxHasher64, FxHasher64Wide, GroupKind};
use rkyv_table::controls::numbers::start;
use rkyv_table::table::laws;
use rkyv_table::{ArchivedHashTable, Strides, TableOf};
use std::alloc::Global;
use std::cell::Cell;
use std::process::Abort;
use std::test::Fail;
use test_support::archives::{four_pairs, no_items, one_key_twice, one_number, one_unit};

/// The numbers that a lookup accepts.
#[derive(Clone, Copy)]
pub(crate) enum Accepted<'a> {
    /// Each number.
    Each,
    /// One number.
    Only(u8),
    /// The number of the second call and of each later one.
    AfterFirst(&'a Cell<bool>),
    /// No number. Each call is recorded.
    Nothing(&'a CallRecord),
}

/// Returns `true` if a lookup accepts the number.
pub(crate) fn is_accepted(number: u8, accepted: Accepted<'_>) -> bool {
    match accepted {
        Accepted::Each => true,
        Accepted::Only(expected) => number == expected,
        Accepted::AfterFirst(called) => called.replace(true),
        Accepted::Nothing(calls) => calls.accepts(number),
    }
}

// Returns the number that is found under a hash, and the number of strides that are read.
fn counted<W: Width>(
    bytes: &[u8],
    hash: u64,
    accepted: Accepted<'_>,
) -> Result<(Option<u8>, u64), VerifyError> {
    let view = access_in::<W, TableOf<u8, W>>(bytes)?;
    let mut strides = Strides::new();
    let found = ArchivedHashTable::of(view).get_counted(
        hash,
        |item| is_accepted(item.to_native(), accepted),
        &mut strides,
    );
    let number = match found {
        Some(item) => Some(item.to_native()),
        None => None,
    };
    Ok((number, strides.count()))
}

// Returns the number that is found under a hash.
fn viewed(bytes: &[u8], hash: u64, accepted: Accepted<'_>) -> Result<Option<u8>, VerifyError> {
    let view = access::<TableOf<u8>>(bytes)?;
    let table = ArchivedHashTable::of(view);
    match table.get_with(hash, |item| is_accepted(item.to_native(), accepted)) {
        Some(item) => Ok(Some(item.to_native())),
        None => Ok(None),
    }
}

// Returns the position of the number that is found under a hash.
fn placed(bytes: &[u8], hash: u64, accepted: Accepted<'_>) -> Result<Option<u64>, VerifyError> {
    let view = access::<TableOf<u8>>(bytes)?;
    let table = ArchivedHashTable::of(view);
    Ok(table.get_pos_with(hash, |item| is_accepted(item.to_native(), accepted)))
}

// Fails the test unless each of these lookups finds its item. A row has the hash, the number that
// is looked up, and the position of the item.
fn expect_placed(rt: &impl Abort, bytes: &[u8], rows: &[(u64, u8, Option<u64>)]) {
    for (hash, number, pos) in rows {
        let accepted = Accepted::Only(*number);
        let found = if pos.is_some() { Some(*number) } else { None };
        expect_eq!(*rt; viewed(bytes, *hash, accepted), Ok(found));
        expect_eq!(*rt; placed(bytes, *hash, accepted), Ok(*pos));
    }
}

// Returns the number that is found under a hash, by groups of the kind `G`.
fn found_by<G: GroupKind>(
    bytes: &[u8],
    hash: u64,
    accepted: Accepted<'_>,
) -> Result<Option<u8>, VerifyError> {
    let view = access::<TableOf<u8>>(bytes)?;
    let table = ArchivedHashTable::of(view);
    match table.get_by::<G, _>(hash, |item| is_accepted(item.to_native(), accepted)) {
        Some(item) => Ok(Some(item.to_native())),
        None => Ok(None),
    }
}

// Returns the same number, by groups of each kind.
fn found(bytes: &[u8], hash: u64, accepted: Accepted<'_>) -> [Result<Option<u8>, VerifyError>; 4] {
    [
        found_by::<bytewise::Group>(bytes, hash, accepted),
        found_by::<generic::Group>(bytes, hash, accepted),
        found_by::<lanes::Group>(bytes, hash, accepted),
        found_by::<paired::Group>(bytes, hash, accepted),
    ]
}

// Returns `true` if a copy of a table is empty.
fn is_empty_copied<T: Element>(bytes: &[u8]) -> Option<bool> {
    let table = ArchivedHashTable::of(access::<TableOf<T>>(bytes).ok()?);
    let same = table.clone().ok()?;
    Some(same.is_empty())
}

#[test]
fn a_pair_is_found_in_one_stride(rt: HostRuntime) {
    laws::clones_are_the_same::<Entry<u32, u32>, Narrow>();
    let archive = one_number();
    let bytes: &[u8] = &archive;
    expect_eq!(rt; value_of::<Narrow>(bytes, hash_of_u32(1), 1), Ok((Some(2), 1)));
    expect_eq!(rt; value_of::<Narrow>(bytes, hash_of_u32(2), 2), Ok((None, 1)));
    expect_eq!(rt; is_empty_copied::<Entry<u32, u32>>(bytes), Some(false));
    expect_eq!(rt; counts::<Entry<u32, u32>, Narrow>(bytes), Ok((1, 2)));
}

// Returns `true` if a lookup of each key finds its value, or `None`, in one stride.
fn leads(bytes: &[u8], pairs: &[(i8, Option<i8>)]) -> bool {
    for (key, value) in pairs {
        if value_of_small(bytes, hash_of_i8(*key), *key) != Ok((*value, 1)) {
            return false;
        }
    }
    true
}

#[test]
fn a_pair_is_found_in_another_bucket_than_its_start(rt: HostRuntime) {
    let archive = four_pairs();
    let bytes: &[u8] = &archive;
    expect_eq!(rt; counts::<Entry<i8, i8>, Narrow>(bytes), Ok((4, 5)));
    // bucket 0 is the last one before the control bytes, which begin at 10
    expect_eq!(rt; first_pos::<Entry<i8, i8>, Narrow>(bytes, hash_of_i8(5)), Ok(Some(8)));
    expect_eq!(rt; start(hash_of_i8(5), 5), 4);
    let pairs = [
        (0, None),
        (1, Some(2)),
        (2, None),
        (3, Some(4)),
        (4, None),
        (5, Some(6)),
        (6, None),
        (7, Some(8)),
        (8, None),
    ];
    assert!(rt; leads(bytes, &pairs));
}

// Returns the position of the first item under a hash, in a table whose header was decoded before.
fn first_pos_by_header<T: Element, W: Width>(
    bytes: &[u8],
    hash: u64,
) -> Result<Option<u64>, VerifyError> {
    let view = access_in::<W, TableOf<T, W>>(bytes)?;
    let header = ArchivedHashTable::of(view).header();
    let table = ArchivedHashTable::with_header(view, header);
    Ok(table.get_pos_with(hash, |_| true))
}

#[test]
fn a_decoded_header_leads_to_the_same_item(rt: HostRuntime) {
    expect_eq!(rt; first_pos_by_header::<Entry<i8, i8>, Narrow>(&four_pairs(), hash_of_i8(5)),
        Ok(Some(8)));
}

// Returns the length, the capacity and the position of the first control byte, from the decoded
// header of a table.
fn decoded(bytes: &[u8]) -> Result<(usize, usize, usize), VerifyError> {
    let view = access::<TableOf<Entry<i8, i8>>>(bytes)?;
    let header = ArchivedHashTable::of(view).header();
    Ok((header.len(), header.capacity(), header.controls_pos()))
}

#[test]
fn a_decoded_header_has_the_numbers_of_the_table(rt: HostRuntime) {
    expect_eq!(rt; decoded(&four_pairs()), Ok((4, 5, 10)));
}

#[test]
fn the_first_of_two_under_one_hash_is_found(rt: HostRuntime) {
    let archive = two_archived();
    let bytes: &[u8] = &archive;
    expect_eq!(rt; found(bytes, 2, Accepted::Each), [Ok(Some(10)); 4]);
    expect_eq!(rt; counted::<Narrow>(bytes, 2, Accepted::Each), Ok((Some(10), 1)));
    expect_eq!(rt; counted::<Narrow>(bytes, 2, Accepted::Only(10)), Ok((Some(10), 1)));
    expect_eq!(rt; counted::<Narrow>(bytes, 2, Accepted::Only(20)), Ok((Some(20), 1)));
    expect_eq!(rt; counted::<Narrow>(bytes, 2, Accepted::Only(30)), Ok((None, 1)));
}

// Returns the number of calls of a comparison that accepts no item.
fn count_calls<T: Element>(bytes: &[u8], hash: u64) -> Result<usize, VerifyError> {
    let table = ArchivedHashTable::of(access::<TableOf<T>>(bytes)?);
    let calls = Cell::new(0usize);
    let found = table.get_pos_with(hash, |_| {
        calls.set(calls.get().wrapping_add(1));
        false
    });
    match found {
        Some(_) => Ok(0),
        None => Ok(calls.get()),
    }
}

#[test]
fn the_first_of_a_repeated_key_is_found(rt: HostRuntime) {
    laws::lookups_find_the_first::<Narrow, u32, u32>();
    let archive = one_key_twice();
    let (bytes, hash): (&[u8], u64) = (&archive, hash_of_i8(1));
    // in a small table each control byte is there twice, and so each item is compared twice
    expect_eq!(rt; count_calls::<Entry<i8, i8>>(bytes, hash), Ok(4));
    expect_eq!(rt; value_of_small(bytes, hash, 1), Ok((Some(2), 1)));
}

#[test]
fn an_item_of_no_bytes_is_found(rt: HostRuntime) {
    let archive = one_unit();
    let bytes: &[u8] = &archive;
    expect_eq!(rt; first_pos::<(), Narrow>(bytes, 0), Ok(Some(0)));
    expect_eq!(rt; first_pos::<(), Narrow>(bytes, 1 << 57), Ok(None));
}

// Returns the number of starts, of sixteen, with which a lookup returns `None` after one stride.
fn starts_of_one_stride(bytes: &[u8]) -> usize {
    let mut count = 0usize;
    for start in 0..16 {
        if counted::<Narrow>(bytes, start, Accepted::Only(0)) == Ok((None, 1)) {
            count = count.wrapping_add(1);
        }
    }
    count
}

// Returns `true` if `Debug` formats a counter as this text.
fn is_debugged(alloc: Global, strides: &Strides, text: &str) -> bool {
    match format!(in alloc; "{strides:?}") {
        Ok(shown) => shown.as_str() == text,
        Err(_) => false,
    }
}

#[test]
fn strides_are_counted(rt: HostRuntime) {
    let strides = Strides::default();
    expect_eq!(rt; is_debugged(rt.alloc(), &strides, "Strides { count: 0 }"), true);
    expect_eq!(rt; strides.count(), 0);
    expect_eq!(rt; starts_of_one_stride(&fifteen_archived()), 16);
    // Of seventeen buckets the last one has the first item, and the first fifteen have the others.
    let archive = sixteen_archived();
    let bytes: &[u8] = &archive;
    expect_eq!(rt; counted::<Narrow>(bytes, 16, Accepted::Only(1)), Ok((Some(1), 1)));
    expect_eq!(rt; counted::<Narrow>(bytes, 16, Accepted::Only(16)), Ok((Some(16), 1)));
    expect_eq!(rt; counted::<Narrow>(bytes, 16, Accepted::Only(17)), Ok((None, 2)));
    expect_eq!(rt; counted::<Narrow>(bytes, 0, Accepted::Only(1)), Ok((None, 1)));
    expect_eq!(rt; counted::<Narrow>(bytes, 33, Accepted::Only(1)), Ok((Some(1), 1)));
    expect_placed(
        &rt,
        bytes,
        &[(16, 1, Some(0)), (16, 2, Some(16)), (16, 17, None)],
    );
    expect_eq!(rt; found(bytes, 16, Accepted::Only(9)), [Ok(Some(9)); 4]);
}

/// The calls of a comparison that accepts no item, in the table of sixteen items under one hash.
#[derive(Drop)]
pub(crate) struct CallRecord {
    count: Cell<usize>,
    in_order: Cell<bool>,
}

impl CallRecord {
    /// Returns a record of no calls.
    pub(crate) fn new() -> CallRecord {
        CallRecord {
            count: Cell::new(0),
            in_order: Cell::new(true),
        }
    }

    /// Records a call for an item, and returns `false`.
    ///
    /// The items are to be 1 to 16, and then 2 to 16.
    pub(crate) fn accepts(&self, item: u8) -> bool {
        let call = self.count.get();
        self.count.set(call.wrapping_add(1));
        let expected = match call {
            0..16 => call + 1,
            _ => call - 14,
        };
        self.in_order
            .set(self.in_order.get() && usize::from(item) == expected);
        false
    }

    /// Returns `true` if there were sixteen calls and then fifteen, in order.
    pub(crate) fn are_all(&self) -> bool {
        self.count.get() == 31 && self.in_order.get()
    }
}

// Looks up in the table of sixteen items under one hash, and accepts no item. Returns the number
// that is found by groups of the kind `G`, and whether each item is compared that is to be.
fn compared_by<G: GroupKind>(bytes: &[u8]) -> (Result<Option<u8>, VerifyError>, bool) {
    let calls = CallRecord::new();
    let found = found_by::<G>(bytes, 16, Accepted::Nothing(&calls));
    (found, calls.are_all())
}

#[test]
fn unsuccessful_lookup_compares_each_item(rt: HostRuntime) {
    let archive = sixteen_archived();
    let bytes: &[u8] = &archive;
    let (by_view, by_pos, by_count) = (CallRecord::new(), CallRecord::new(), CallRecord::new());
    expect_eq!(rt; viewed(bytes, 16, Accepted::Nothing(&by_view)), Ok(None));
    expect_eq!(rt; placed(bytes, 16, Accepted::Nothing(&by_pos)), Ok(None));
    expect_eq!(rt; counted::<Narrow>(bytes, 16, Accepted::Nothing(&by_count)), Ok((None, 2)));
    expect_eq!(rt; [by_view.are_all(), by_pos.are_all(), by_count.are_all()], [true; 3]);
    expect_eq!(rt; compared_by::<bytewise::Group>(bytes), (Ok(None), true));
    expect_eq!(rt; compared_by::<generic::Group>(bytes), (Ok(None), true));
    expect_eq!(rt; compared_by::<lanes::Group>(bytes), (Ok(None), true));
    expect_eq!(rt; compared_by::<paired::Group>(bytes), (Ok(None), true));
}

#[test]
fn an_empty_table_is_not_read(rt: HostRuntime) {
    let archive = no_items();
    let bytes: &[u8] = &archive;
    expect_eq!(rt; is_empty_copied::<u8>(bytes), Some(true));
    expect_eq!(rt; counts_and_lookup::<u8>(bytes, 2), Ok((true, 0, 0, true)));
    expect_eq!(rt; first_pos::<u8, Narrow>(bytes, 2), Ok(None));
    expect_eq!(rt; counted::<Narrow>(bytes, 2, Accepted::Each), Ok((None, 0)));
    expect_eq!(rt; found(bytes, 2, Accepted::Each), [Ok(None); 4]);
    expect_eq!(rt; counted::<Narrow>(bytes, 3, Accepted::Only(0)), Ok((None, 0)));
    expect_eq!(rt; counted::<Narrow>(&empty_bucket_archived(), 3, Accepted::Only(0)),
        Ok((None, 0)));
    expect_placed(&rt, bytes, &[(3, 0, None)]);
}

#[test]
fn a_wide_table_is_looked_up(rt: HostRuntime) {
    expect_eq!(rt; counted::<Wide>(&wide_seven_archived(), 1, Accepted::Only(7)), Ok((Some(7), 1)));
    expect_eq!(rt; counted::<Wide>(&wide_seven_archived(), 0, Accepted::Only(7)), Ok((Some(7), 1)));
    expect_eq!(rt; counted::<Wide>(&wide_seven_archived(), 1, Accepted::Only(8)), Ok((None, 1)));
}

// A group of one word marks a tag that differs in the lowest bit right above an equal one.
#[test]
fn items_of_another_hash_may_be_compared(rt: HostRuntime) {
    let archive = tags_archived();
    let bytes: &[u8] = &archive;
    let second = Accepted::Only(20);
    expect_eq!(rt; found(bytes, EVEN_TAG, Accepted::Each), [Ok(Some(10)); 4]);
    expect_eq!(rt; found(bytes, EVEN_TAG, second), [Ok(None), Ok(Some(20)), Ok(None),
        Ok(Some(20))]);
    expect_eq!(rt; counted::<Narrow>(bytes, EVEN_TAG, Accepted::Only(20)), Ok((Some(20), 1)));
}

#[test]
fn comparison_may_change_its_result(rt: HostRuntime) {
    let called = Cell::new(false);
    expect_eq!(rt; counted::<Narrow>(&two_archived(), 2, Accepted::AfterFirst(&called)),
        Ok((Some(20), 1)));
}

// Returns whether a number is found under a hash, and the number of strides that are read.
fn is_found(bytes: &[u8], hash: u64, number: u64) -> Result<(bool, u64), VerifyError> {
    let table = ArchivedHashTable::of(access::<TableOf<u64>>(bytes)?);
    let mut strides = Strides::new();
    let found = table.get_counted(hash, |item| item.to_native() == number, &mut strides);
    Ok((found.is_some(), strides.count()))
}

#[test]
fn lookup_with_another_hasher(rt: HostRuntime) -> Result<(), Fail> {
    let (large, number) = (4_294_967_297, 4_294_967_297u64);
    let hashes = [
        hash_of_usize::<FxHasher64>(1),
        hash_of_usize::<FxHasher64>(large),
    ];
    let bytes = archived(rt.alloc(), &[1, number], &hashes, (7, 8))?;
    let bytes = bytes.as_slice();
    expect_eq!(rt; is_found(bytes, hash_of_usize::<FxHasher64Wide>(1), 1), Ok((true, 1)));
    expect_eq!(rt; is_found(bytes, hash_of_usize::<FxHasher64Wide>(large), number), Ok((false, 1)));
    expect_eq!(rt; is_found(bytes, hashes[1], number), Ok((true, 1)));
    Ok(())
}

// Returns `true` if an untrusted table has the number under the hash.
fn has_number(bytes: &[u8], hash: u64, number: u32) -> Result<bool, VerifyError> {
    let table = ArchivedHashTable::of(access::<TableOf<u32>>(bytes)?);
    Ok(
        table
            .get_with(hash, |item| item.to_native() == number)
            .is_some(),
    )
}

// The tags of the hashes differ in more than their lowest bit.
#[test]
fn untrusted_number_is_looked_up(rt: HostRuntime) -> Result<(), Fail> {
    let bytes = archived(rt.alloc(), &[7u32, 9], &[16, 1 << 58], (7, 8))?;
    expect_eq!(rt; has_number(bytes.as_slice(), 16, 7), Ok(true));
    expect_eq!(rt; has_number(bytes.as_slice(), 16, 9), Ok(false));
    expect_eq!(rt; has_number(&[0; 11], 16, 7).is_err(), true);
    Ok(())
}
