//! Reading archived tables, for the tests.

use rkyv_base::access::access;
use rkyv_base::{Element, Entry, VerifyError, Width, access_in};
use rkyv_table::{ArchivedHashTable, Strides, TableOf};

/// Returns the number of items of a table, and the number of its buckets.
pub(crate) fn counts<T: Element, W: Width>(bytes: &[u8]) -> Result<(usize, usize), VerifyError> {
    let view = access_in::<W, TableOf<T, W>>(bytes)?;
    let table = ArchivedHashTable::of(view);
    Ok((table.len(), table.capacity()))
}

/// Returns the error of an invalid table, or `None` if the table is valid.
pub(crate) fn failure<T: Element, W: Width>(bytes: &[u8]) -> Option<VerifyError> {
    match access_in::<W, TableOf<T, W>>(bytes) {
        Ok(_) => None,
        Err(error) => Some(error),
    }
}

/// Returns the value of a pair of numbers of eight bits, and the number of strides that are read.
///
/// The pair is found under a hash by its key.
pub(crate) fn value_of_small(
    bytes: &[u8],
    hash: u64,
    key: i8,
) -> Result<(Option<i8>, u64), VerifyError> {
    let table = ArchivedHashTable::of(access::<TableOf<Entry<i8, i8>>>(bytes)?);
    let mut strides = Strides::new();
    let found = table.get_counted(hash, |pair| pair.key().to_native() == key, &mut strides);
    let value = match found {
        Some(pair) => Some(pair.value().to_native()),
        None => None,
    };
    Ok((value, strides.count()))
}

/// Returns the same for numbers of 32 bits.
pub(crate) fn value_of<W: Width>(
    bytes: &[u8],
    hash: u64,
    key: u32,
) -> Result<(Option<u32>, u64), VerifyError> {
    let table = ArchivedHashTable::of(access_in::<W, TableOf<Entry<u32, u32>, W>>(bytes)?);
    let mut strides = Strides::new();
    let found = table.get_counted(hash, |pair| pair.key().to_native() == key, &mut strides);
    let value = match found {
        Some(pair) => Some(pair.value().to_native()),
        None => None,
    };
    Ok((value, strides.count()))
}

/// Returns the position of the item that is found under a hash if all items are accepted.
pub(crate) fn first_pos<T: Element, W: Width>(
    bytes: &[u8],
    hash: u64,
) -> Result<Option<u64>, VerifyError> {
    let view = access_in::<W, TableOf<T, W>>(bytes)?;
    Ok(ArchivedHashTable::of(view).get_pos_with(hash, |_| true))
}

/// Returns whether a table is empty, its length, its capacity, and whether a lookup finds nothing.
///
/// The lookup accepts all items.
pub(crate) fn counts_and_lookup<T: Element>(
    bytes: &[u8],
    hash: u64,
) -> Result<(bool, usize, usize, bool), VerifyError> {
    let view = access::<TableOf<T>>(bytes)?;
    let table = ArchivedHashTable::of(view);
    let none = table.get_with(hash, |_| true).is_none();
    Ok((table.is_empty(), table.len(), table.capacity(), none))
}

/// Returns the number of items of a walk.
pub(crate) fn count_walked<T: Element, W: Width>(bytes: &[u8]) -> Result<usize, VerifyError> {
    let view = access_in::<W, TableOf<T, W>>(bytes)?;
    let mut count = 0usize;
    for _ in ArchivedHashTable::of(view).raw_iter() {
        count = count.wrapping_add(1);
    }
    Ok(count)
}

// Returns what follows an item in `items`, or `None` if `items` doesn't begin with it. The item
// is the `size` bytes at a position.
fn after_item<'a>(bytes: &[u8], pos: u64, size: usize, items: &'a [u8]) -> Option<&'a [u8]> {
    match (items.split_at_checked(size), bytes.get(pos as usize..)) {
        (Some((item, others)), Some(tail)) => {
            if tail.starts_with(item) {
                Some(others)
            } else {
                None
            }
        }
        _ => None,
    }
}

/// Returns `true` if the items of a walk are the bytes `items`, one after the other.
pub(crate) fn walks_over<T: Element, W: Width>(
    bytes: &[u8],
    items: &[u8],
) -> Result<bool, VerifyError> {
    let table = ArchivedHashTable::of(access_in::<W, TableOf<T, W>>(bytes)?);
    let mut left = items;
    for pos in table.raw_iter() {
        match after_item(bytes, pos, T::size(), left) {
            Some(others) => left = others,
            None => return Ok(false),
        }
    }
    Ok(left.is_empty())
}
