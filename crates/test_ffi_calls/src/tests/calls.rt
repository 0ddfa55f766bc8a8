//! The calls of `ffi_calls` on an archive, by contents in place of codes and of a handle.

ghost use Rattle.std.specs.Prelude.{IfSome};
ghost use Rattle.ffi_calls.specs.{IsHandleOf};

use ffi_calls::any_value::{AnyItem, AnyPair, AnyValue, IndexedValue, LookedUp};
use ffi_calls::building::{Built, build};
use ffi_calls::collection::{Handle, decode, explain_archive, open_archive};
use ffi_calls::containers::Codes;
use ffi_calls::explanation::Explanation;
use ffi_calls::iteration::next_items;
use ffi_calls::lookup::get;
use ffi_calls::misplaced::misplaced_up_to;
use ffi_calls::overwrite::set_value;
use ffi_calls::status::DONE;
use std::alloc::Global;

// The codes of kinds.
pub(crate) const MAP: u8 = 1;

pub(crate) const SET: u8 = 2;

pub(crate) const INDEX_MAP: u8 = 3;

pub(crate) const INDEX_SET: u8 = 4;

// The codes of types.
pub(crate) const UNIT: u8 = 1;

pub(crate) const BOOL: u8 = 2;

pub(crate) const CHAR: u8 = 3;

pub(crate) const TEXT: u8 = 4;

pub(crate) const BYTES: u8 = 5;

pub(crate) const U8: u8 = 0x11;

pub(crate) const U16: u8 = 0x12;

pub(crate) const U32: u8 = 0x14;

pub(crate) const U64: u8 = 0x18;

pub(crate) const I8: u8 = 0x21;

pub(crate) const I16: u8 = 0x22;

pub(crate) const I32: u8 = 0x24;

pub(crate) const I64: u8 = 0x28;

pub(crate) const F32: u8 = 0x34;

pub(crate) const F64: u8 = 0x38;

/// The codes of contents: the kind, the key or item, the value and the width.
pub(crate) type Contents = (u8, u8, u8, u8);

/// A key or a value: its number and its bytes.
pub(crate) type Part<'a> = (u64, &'a [u8]);

/// A value that no archive has.
pub(crate) const OTHER: Part<'_> = (9, b"?");

/// A pair: the bucket or the index after its own, its key and its value.
pub(crate) type Pair<'a> = (u64, Part<'a>, Part<'a>);

/// An item that no call stores.
pub(crate) const NINE: Pair<'_> = (9, OTHER, OTHER);

/// The status, the position and the two numbers of an explanation.
pub(crate) type Numbers = (u32, i64, u64, u64);

/// The status of a lookup, and the index and the value that are stored.
pub(crate) type Found<'a> = (u32, usize, Part<'a>);

/// The result before a lookup.
pub(crate) const BEFORE: Found<'_> = (77, 8, OTHER);

/// Returns the codes of these contents.
pub(crate) fn codes((kind, key, value, width): Contents) -> Codes {
    Codes {
        kind,
        key,
        value,
        width,
    }
}

/// Returns the key or the value with these parts.
pub(crate) fn any((number, bytes): Part<'_>) -> AnyValue<'_> {
    AnyValue { number, bytes }
}

/// Returns the numbers of an explanation.
pub(crate) fn numbers_of(explanation: Explanation) -> Numbers {
    let Explanation {
        status,
        position,
        first,
        second,
    } = explanation;
    (status, position, first, second)
}

// Returns the handle of an archive, or `None` if it is invalid.
fn handle_in(archive: &[u8], contents: Contents) -> Option<Handle>
    ensures { IfSome result (IsHandleOf archive.now) }
{
    let codes = codes(contents);
    if open_archive(archive, codes) == DONE {
        Some(decode(archive, codes))
    } else {
        None
    }
}

/// Returns the first error of an archive, and the status of opening it.
pub(crate) fn opened(archive: &[u8], contents: Contents) -> (Numbers, u32) {
    let codes = codes(contents);
    let numbers = numbers_of(explain_archive(archive, codes));
    (numbers, open_archive(archive, codes))
}

/// Returns the number of pairs of an archive, or `None` if it is invalid.
pub(crate) fn len(archive: &[u8], contents: Contents) -> Option<usize> {
    Some(handle_in(archive, contents)?.header.len())
}

// Returns the lookup of a key, over a status and an index that no lookup stores.
fn lookup_of(key: Part<'_>) -> LookedUp<'_> {
    LookedUp {
        status: 77,
        found: IndexedValue {
            index: 8,
            value: any(key),
        },
    }
}

// Looks up a key by a handle of the archive.
fn look_up_by<'a>(archive: &'a [u8], handle: &'a Handle, key: Part<'a>) -> LookedUp<'a>
    requires { IsHandleOf archive.now handle.now }
{
    let mut lookups = [lookup_of(key)];
    get(archive, handle, &mut lookups);
    let [lookup] = lookups;
    lookup
}

/// Returns the status and the index of a lookup, and whether the value is the expected one then,
/// or still the key after an error. Returns `None` if the archive is invalid.
pub(crate) fn look_up(
    archive: &[u8],
    contents: Contents,
    key: Part<'_>,
    expected: Part<'_>,
) -> Option<(u32, usize, bool)> {
    let handle = handle_in(archive, contents)?;
    let LookedUp { status, found } = look_up_by(archive, &handle, key);
    let value = if status == DONE { expected } else { key };
    Some((status, found.index, is_part(found.value, value)))
}

// Returns an item with these parts.
fn item_of((next, key, value): Pair<'_>) -> AnyItem<'_> {
    AnyItem {
        next,
        key: any(key),
        value: any(value),
    }
}

// Returns whether a value has these parts.
fn is_part(value: AnyValue<'_>, (number, bytes): Part<'_>) -> bool {
    value.number == number && value.bytes == bytes
}

// Looks up the first keys, so many, by one call. Returns how many of the results are as expected.
fn look_up_many_by<'a>(
    archive: &'a [u8],
    handle: &'a Handle,
    keys: [Part<'static>; 6],
    number: usize,
    expected: [Found<'static>; 6],
) -> Option<usize>
    requires { IsHandleOf archive.now handle.now }
{
    let [a, b, c, d, e, f] = keys;
    let mut lookups = [
        lookup_of(a),
        lookup_of(b),
        lookup_of(c),
        lookup_of(d),
        lookup_of(e),
        lookup_of(f),
    ];
    get(archive, handle, lookups.get_mut(..number)?);
    let mut right = 0usize;
    for (index, lookup) in lookups.iter().enumerate() {
        let (status, position, value) = expected.get(index).copied()?;
        let key = keys.get(index).copied()?;
        let value = if status == DONE { value } else { key };
        let found = lookup.found;
        if lookup.status == status && found.index == position && is_part(found.value, value) {
            right = right.wrapping_add(1);
        }
    }
    Some(right)
}

/// Looks up the first keys, so many, by one call.
///
/// Returns how many of the results are as expected then. The value is still the key after an error.
pub(crate) fn look_up_many(
    archive: &[u8],
    contents: Contents,
    keys: [Part<'static>; 6],
    number: usize,
    expected: [Found<'static>; 6],
) -> Option<usize> {
    let handle = handle_in(archive, contents)?;
    look_up_many_by(archive, &handle, keys, number, expected)
}

/// Stores items over two, from a bucket or an index on.
///
/// Returns the number that the call returns, and how many of the two items are as expected then.
pub(crate) fn next(
    archive: &[u8],
    contents: Contents,
    from: u64,
    expected: [Pair<'static>; 2],
) -> Option<(usize, usize)> {
    let handle = handle_in(archive, contents)?;
    let mut items = [item_of(NINE); 2];
    let stored = next_items(archive, &handle, from, &mut items);
    let mut right = 0usize;
    for (index, item) in items.iter().enumerate() {
        let (next, key, value) = expected.get(index).copied()?;
        if item.next == next && is_part(item.key, key) && is_part(item.value, value) {
            right = right.wrapping_add(1);
        }
    }
    Some((stored, right))
}

/// Returns the status and the count of misplaced keys, which is 7 at first, or `None` if the
/// archive is invalid.
pub(crate) fn misplaced(archive: &[u8], contents: Contents, limit: u64) -> Option<(u32, u64)> {
    let handle = handle_in(archive, contents)?;
    let mut count = 7;
    let status = misplaced_up_to(archive, &handle, limit, &mut count);
    Some((status, count))
}

/// Returns the status of an overwrite, or `None` if the archive is invalid before it or after it.
pub(crate) fn set(
    archive: &mut [u8],
    contents: Contents,
    key: Part<'_>,
    value: u64,
) -> Option<u32> {
    let handle = handle_in(&*archive, contents)?;
    let status = set_value(archive, &handle, any(key), value);
    handle_in(&*archive, contents).is_some().then_some(status)
}

/// Returns the statuses of an overwrite and of a lookup by the handle from before, and the index
/// and the number that are found.
pub(crate) fn set_and_get(
    archive: &mut [u8],
    contents: Contents,
    key: Part<'_>,
    value: u64,
) -> Option<(u32, u32, usize, u64)> {
    let handle = handle_in(&*archive, contents)?;
    let status = set_value(archive, &handle, any(key), value);
    let again = look_up_by(&*archive, &handle, key);
    Some((
        status,
        again.status,
        again.found.index,
        again.found.value.number,
    ))
}

/// Returns the status of a write of the items, and whether `built` has `bytes` if it is 0.
///
/// After an error the flag is whether `built` is unchanged.
pub(crate) fn write<'a>(
    alloc: Global,
    contents: Contents,
    items: &'a [AnyPair<'a>],
    bytes: &[u8],
) -> (u32, bool) {
    let mut before = [1, 2];
    let mut built = Built { bytes: &mut before };
    let status = build(alloc, codes(contents), items, &mut built);
    let expected = if status == DONE { bytes } else { &[1, 2] };
    let Built { bytes: after } = built;
    (status, &*after == expected)
}
