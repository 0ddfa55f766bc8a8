//! The calls that open archives, count misplaced keys, iterate and build, by the codes of the
//! contents.
//!
//! The codes are those in the header of a container. The library has maps of fewer contents than a
//! container may have: all other codes are unknown here.

ghost use Rattle.std.specs.Prelude.{◌≡◌, Some};
ghost use Rattle.ffi_calls.specs.{BuildsByCodes, CountsMisplaced, ExplainsByCodes, IsHandleOf};
ghost use Rattle.ffi_calls.specs.{IsValidByCodes, OpensByCodes, StoresItemsAt, codes_of};
ghost use Rattle.ffi_calls.specs.{collection_at, collection_of};

use ffi_calls::any_value::{AnyItem, AnyPair};
use ffi_calls::building::{Built, build};
use ffi_calls::collection::{Handle, decode, explain_archive, open_archive};
use ffi_calls::containers::Codes;
use ffi_calls::explanation::Explanation;
use ffi_calls::iteration::next_items;
use ffi_calls::misplaced::misplaced_up_to;
use std::alloc::Global;

/// Validates the archive of the collection with the codes.
///
/// # Errors
///
/// - 7: no collection of this library has the codes.
/// - 16 to 23: the first validation error.
#[unsafe(no_mangle)]
pub extern "C" fn hk_c_open(archive: &[u8], kind: u8, key: u8, value: u8, width: u8) -> u32
    ensures status { OpensByCodes (codes_of kind key value width) archive.now result }
    ensures accepts { IsValidByCodes (codes_of kind key value width) archive.now → result ≡ 0 }
{
    let codes = Codes {
        kind,
        key,
        value,
        width,
    };
    open_archive(archive, codes)
}

/// Validates the archive of the collection with the codes, and stores the first error with its
/// numbers.
///
/// If no collection of this library has the codes, the status is 7, and the numbers are 0.
#[unsafe(no_mangle)]
pub extern "C" fn hk_c_explain(
    archive: &[u8],
    kind: u8,
    key: u8,
    value: u8,
    width: u8,
    explanation: &mut Explanation,
)
    ensures explains { ExplainsByCodes (codes_of kind key value width) archive.now explanation.new }
    ensures accepts { IsValidByCodes (codes_of kind key value width) archive.now
        → explanation.new.status ≡ 0 }
{
    let codes = Codes {
        kind,
        key,
        value,
        width,
    };
    *explanation = explain_archive(archive, codes);
}

/// Stores the handle of the archive of the collection with the codes, for the calls that read it.
///
/// # Requires
///
/// - The archive is valid: `hk_c_open` returned 0 for these codes.
#[unsafe(no_mangle)]
pub extern "C" fn hk_c_decode(
    archive: &[u8],
    kind: u8,
    key: u8,
    value: u8,
    width: u8,
    handle: &mut Handle,
)
    requires { IsValidByCodes (codes_of kind key value width) archive.now }
    ensures of { collection_of (codes_of kind key value width) ≡ Some (collection_at handle.new) }
    ensures handle { IsHandleOf archive.now handle.new }
{
    let codes = Codes {
        kind,
        key,
        value,
        width,
    };
    *handle = decode(archive, codes);
}

/// Stores the number of misplaced keys of a collection in `count`.
///
/// A key is misplaced if a lookup of the key itself finds another key that is the same, or none.
///
/// # Requires
///
/// - `handle` is a handle of the archive.
///
/// # Errors
///
/// - 15: the lookups of all keys read more than `limit` strides of sixteen control bytes; `count`
///   is unchanged then.
#[unsafe(no_mangle)]
pub extern "C" fn hk_c_misplaced_up_to(
    archive: &[u8],
    handle: &Handle,
    limit: u64,
    count: &mut u64,
) -> u32
    requires { IsHandleOf archive.now handle.now }
    ensures { CountsMisplaced handle.now archive.now limit count.old result count.new }
{
    misplaced_up_to(archive, handle, limit, count)
}

/// Stores the next items of a collection in `items`, and returns their number.
///
/// In a hash map and a hash set they are those from the bucket `from` on, in bucket order. In an
/// index map and an index set they are those from the index `from` on, in insertion order. If fewer
/// items are stored than `items` has room for, no item remains. Otherwise a next call continues at
/// the `next` of the last item.
///
/// # Requires
///
/// - `handle` is a handle of the archive.
#[unsafe(no_mangle)]
pub extern "C" fn hk_c_next<'a>(
    archive: &'a [u8],
    handle: &'a Handle,
    from: u64,
    items: &mut [AnyItem<'a>],
) -> usize
    requires { IsHandleOf archive.now handle.now }
    ensures { StoresItemsAt handle.now archive.now from items.old result items.new }
{
    next_items(archive, handle, from, items)
}

/// Writes the archive of the items as the collection with the codes, and stores its bytes in
/// `built`.
///
/// The items are inserted in order, and items with equal keys are kept. The load factor is 7 / 8.
/// A number, a `bool` and a character are read from `number`, texts and byte strings from `bytes`.
/// The values of a set are not read. The bytes of the archive are a block of `rattle_alloc` or
/// `rattle_realloc`, which the caller frees.
///
/// # Errors
///
/// - 7: no collection of this library has the codes.
/// - 12: an allocation fails.
/// - 3 or 4, of the first item with an error, the key before the value: a number is of no value of
///   its type, or the bytes of a text aren't UTF-8.
/// - 23 to 29: the error of the write, which is 27 if a text is too long.
///
/// After an error `built` is unchanged.
#[unsafe(no_mangle)]
pub extern "C" fn hk_c_build<'a>(
    alloc: Global,
    kind: u8,
    key: u8,
    value: u8,
    width: u8,
    items: &'a [AnyPair<'a>],
    built: &mut Built<'_>,
) -> u32
    ensures { BuildsByCodes (codes_of kind key value width) items.now built.old result built.new }
{
    let codes = Codes {
        kind,
        key,
        value,
        width,
    };
    build(alloc, codes, items, built)
}
