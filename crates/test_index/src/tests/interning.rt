//! Tests of an interning table: texts with numbers.

use rkyv_base::access::access;
use rkyv_base::{Text, VerifyError, to_bytes};
use rkyv_index::{ArchivedIndexSet, IndexSetOf, OrderedItems};
use std::test::Fail;

// Returns the number of a text, from an untrusted table.
fn number(table: &[u8], text: &str) -> Result<Option<usize>, VerifyError> {
    let set = ArchivedIndexSet::of(access::<IndexSetOf<Text>>(table)?);
    Ok(set.get_index_of(&text))
}

// Returns whether the text with this number is `text`.
fn has_number(table: &[u8], number: usize, text: &str) -> Result<bool, VerifyError> {
    let set = ArchivedIndexSet::of(access::<IndexSetOf<Text>>(table)?);
    match set.get_index(number) {
        Some(stored) => Ok(stored.as_str() == text),
        None => Ok(false),
    }
}

// Returns the numbers of two texts, and whether "wonderful" has the number 0, and 1.
fn results(table: &[u8]) -> Result<(Option<usize>, Option<usize>, bool, bool), VerifyError> {
    Ok((
        number(table, "excellent")?,
        number(table, "bar")?,
        has_number(table, 0, "wonderful")?,
        has_number(table, 1, "wonderful")?,
    ))
}

#[test]
fn texts_have_numbers(rt: HostRuntime) -> Result<(), Fail> {
    let alloc = rt.alloc();
    let texts = OrderedItems(vec![in alloc; "wonderful", "foo", "excellent"]?);
    let bytes = to_bytes(alloc, &texts)?;
    expect_eq!(rt; results(bytes.as_slice()), Ok((Some(2), None, true, false)));
    Ok(())
}
