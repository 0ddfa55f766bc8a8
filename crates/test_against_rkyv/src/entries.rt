//! The entries of a line.
use crate::errors::{LineError, Malformed};
use crate::fields::Field;
use crate::line::Line;
use std::alloc::Global;

/// Returns the pair of a text with `=`.
fn pair<A: Field + Drop, B: Field>(alloc: Global, text: &str) -> Result<(A, B), LineError> {
    let (key, value) = text.split_once('=').ok_or(Malformed::Pair)?;
    Ok((A::parse(alloc, key)?, B::parse(alloc, value)?))
}

/// Returns the pairs of a text that `separator` separates. An empty text has none.
pub fn pairs_of<A: Field + Drop, B: Field + Drop>(
    alloc: Global,
    text: &str,
    separator: char,
) -> Result<Vec<(A, B)>, LineError> {
    let mut pairs = Vec::new(alloc);
    if text.is_empty() {
        return Ok(pairs);
    }
    for entry in text.split(separator) {
        pairs.push(pair(alloc, entry)?)?;
    }
    Ok(pairs)
}

/// Returns the items of a text that blanks separate. An empty text has none.
fn items_of<A: Field + Drop>(alloc: Global, text: &str) -> Result<Vec<A>, LineError> {
    let mut items = Vec::new(alloc);
    if text.is_empty() {
        return Ok(items);
    }
    for item in text.split(' ') {
        items.push(A::parse(alloc, item)?)?;
    }
    Ok(items)
}

/// Fails unless the line has `len` entries.
fn check_count(line: &Line<'_>, len: usize) -> Result<(), Malformed> {
    (line.count == len).then_some(()).ok_or(Malformed::Count)
}

/// Returns the pairs of a line.
///
/// # Errors
///
/// - `Malformed`: an entry isn't a pair of these types, or the count is another number.
/// - `Memory`: an allocation failed.
pub fn pairs<A: Field + Drop, B: Field + Drop>(
    alloc: Global,
    line: &Line<'_>,
) -> Result<Vec<(A, B)>, LineError> {
    let pairs = pairs_of(alloc, line.entries, ' ')?;
    check_count(line, pairs.len())?;
    Ok(pairs)
}

/// Returns the items of a line.
///
/// # Errors
///
/// - `Malformed`: an item isn't one of this type, or the count is another number.
/// - `Memory`: an allocation failed.
pub fn items<A: Field + Drop>(alloc: Global, line: &Line<'_>) -> Result<Vec<A>, LineError> {
    let items = items_of(alloc, line.entries)?;
    check_count(line, items.len())?;
    Ok(items)
}

/// Returns whether an entry has the key.
pub fn has_key<A: PartialEq, B>(entries: &[(A, B)], key: &A) -> bool {
    entries.iter().any(|entry| entry.0 == *key)
}
