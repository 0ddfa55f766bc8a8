//! Tables of items that have parts of their own: texts and tables.
ghost use Rattle.rkyv_base.specs.{IsValidView, entry_spec};
ghost use Rattle.rkyv_table.specs.{table_spec};

use crate::tests::archives::{archived, hash_of_i8, written};
use rkyv_base::access::access;
use rkyv_base::{Element, Entry, Text, VerifyError, View, Width};
use rkyv_table::{ArchivedHashTable, TableOf};
use std::test::Fail;
use test_support::archives::nested;
use test_support::changes::change;
use test_support::written::is_then_empty;

// A table of the number 1 and the table of the pair 1 and 2.
type Outer = TableOf<Entry<i8, TableOf<Entry<i8, i8>>>>;

#[test]
fn texts_are_written_by_ascending_bucket(rt: HostRuntime) -> Result<(), Fail> {
    // the first text is in the highest bucket, and so the last, with an empty bucket between them;
    // the texts begin 15 and 44 bytes before their fixed bytes
    let front = b"wonderful twowonderful one\0\0\
\x8d\0\0\0\xf1\xff\xff\xff\0\0\0\0\0\0\0\0\x8d\0\0\0\xd4\xff\xff\xff\0\xff\0\0\xff\0";
    let texts = ["wonderful one", "wonderful two"];
    let (bytes, pos) = written(rt.alloc(), &texts, &[2, 2], (1, 1))?;
    expect_eq!(rt; (pos, is_then_empty(bytes.as_slice(), front, 25)), (52, true));
    Ok(())
}

// Returns `true` if a text is found under a hash.
fn has_text(bytes: &[u8], hash: u64, expected: &str) -> Result<bool, VerifyError> {
    let view = access::<TableOf<Text>>(bytes)?;
    let table = ArchivedHashTable::of(view);
    match table.get_with(hash, |text| text.as_str() == expected) {
        Some(text) => Ok(text.as_str() == expected),
        None => Ok(false),
    }
}

#[test]
fn texts_are_found(rt: HostRuntime) -> Result<(), Fail> {
    let bytes = archived(rt.alloc(), &["wonderful one", "two"], &[2, 2], (1, 1))?;
    expect_eq!(rt; has_text(bytes.as_slice(), 2, "wonderful one"), Ok(true));
    expect_eq!(rt; has_text(bytes.as_slice(), 2, "two"), Ok(true));
    expect_eq!(rt; has_text(bytes.as_slice(), 2, "three"), Ok(false));
    Ok(())
}

// The change copies the text of the first bucket to the highest bucket, so that one of the texts
// begins before the end of the others.
#[test]
fn two_texts_may_not_have_one_part(rt: HostRuntime) -> Result<(), Fail> {
    let texts = ["wonderful one", "wonderful two"];
    let mut bytes = archived(rt.alloc(), &texts, &[2, 2], (1, 1))?;
    expect_eq!(rt; bytes.len(), 96);
    change(bytes.as_mut_slice(), 32, 0xe4);
    let failed = matches!(
        access::<TableOf<Text>>(bytes.as_slice()),
        Err(VerifyError::OutOfRange { pos: 0, size: 13 })
    );
    expect_eq!(rt; failed, true);
    Ok(())
}

// Returns the number of items of the table that is the value of an entry.
fn value_len<K: Element, T: Element, W: Width>(entry: View<'_, Entry<K, TableOf<T, W>>>) -> usize
    requires { IsValidView (entry_spec K.spec (table_spec W.word T.spec)) entry }
{
    ArchivedHashTable::of(entry.value()).len()
}

// Returns the number of pairs of the table that is found under a key.
fn inner_len(bytes: &[u8], hash: u64, key: i8) -> Result<Option<usize>, VerifyError> {
    let view = access::<Outer>(bytes)?;
    let outer = ArchivedHashTable::of(view);
    match outer.get_with(hash, |entry| entry.key().to_native() == key) {
        Some(entry) => Ok(Some(value_len(entry))),
        None => Ok(None),
    }
}

#[test]
fn inner_tables_are_read_and_validated(rt: HostRuntime) {
    expect_eq!(rt; inner_len(&nested(), hash_of_i8(1), 1), Ok(Some(1)));
    expect_eq!(rt; inner_len(&nested(), hash_of_i8(2), 2), Ok(None));
    expect_eq!(rt; <Outer as Element>::size(), 12);
    let mut bytes = nested();
    bytes[40] = 0xdd;
    expect_eq!(rt; matches!(access::<Outer>(&bytes),
        Err(VerifyError::UnwrappedControlByte { index: 30 })), true);
    bytes[40] = 0xde;
    expect_eq!(rt; matches!(access::<Outer>(&bytes),
        Err(VerifyError::OutOfRange { pos: 2, size: 35 })), true);
}

// Returns `true` if the first `len` bytes of the archive are valid.
fn is_accepted(len: usize) -> bool {
    matches!(nested().get(..len), Some(front) if access::<Outer>(front).is_ok())
}

// If the last bytes are zeros of the empty bucket, they are the length and the capacity
// of an empty table.
#[test]
fn valid_prefixes_of_a_nested_table(rt: HostRuntime) {
    let mut right = true;
    for len in 0..113 {
        right = right && is_accepted(len) == matches!(len, 60 | 64 | 68 | 112);
    }
    assert!(rt; right);
}
