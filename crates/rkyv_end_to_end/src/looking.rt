//! Validating, iterating over and looking up in a table of untrusted bytes.

ghost use Rattle.std.specs.Prelude.{IfOk, MatchResult, length, ◌%◌, ◌*◌, ◌+◌, ◌<◌, ◌≡◌, ◌≤◌};
ghost use Rattle.std.specs.Int.{byte_len};
ghost use Rattle.std.specs.List.{All};
ghost use Rattle.rkyv_base.specs.{Viewable};
ghost use Rattle.rkyv_table.specs.{CanCompareOf, item_positions, len_at, table_in, table_spec};
ghost use Rattle.rkyv_end_to_end.specs.{CanCompareItems, LooksOver, LooksUpIn, ReadsExactlyIn};
ghost use Rattle.rkyv_end_to_end.specs.{ReadsWithinBound};
ghost use Rattle.rkyv_end_to_end.specs.declared.looking.LookError.TheVariants.{Memory, Verify};

use rkyv_base::{Element, PartRange, VerifyError, View, Width, found_pos};
use rkyv_table::controls::laws::walked_are_full;
use rkyv_table::table::laws::in_bytes::lookups_are_in_bytes;
use rkyv_table::{ArchivedHashTable, Strides};
use std::alloc::{AllocError, Global};
use thiserror::Error;

/// The items of a table, and the result of one lookup.
#[derive(Debug, Drop, Eq, PartialEq)]
pub struct TableReport {
    /// The positions of its items, in bucket order.
    pub walked: Vec<u64>,
    /// The position of the item that the lookup found.
    pub found: Option<u64>,
    /// The number of strides of sixteen control bytes that the lookup read.
    pub strides: u64,
}

/// The error of `look_over`.
#[derive(Clone, Copy, Debug, PartialEq, Eq, Error)]
pub enum LookError {
    /// The bytes are not a valid table.
    #[error("{0}")]
    Verify(VerifyError),
    /// Memory for the positions could not be allocated.
    #[error("no memory")]
    Memory,
}

impl From<VerifyError> for LookError {
    ghost from_gives = { λ error e. e ≡ Verify error };

    #[inline]
    fn from(error: VerifyError) -> LookError {
        LookError::Verify(error)
    }
}

impl From<AllocError> for LookError {
    ghost from_gives = { λ _ e. e ≡ Memory };

    #[inline]
    fn from(_error: AllocError) -> LookError {
        LookError::Memory
    }
}

#[derive(Drop)]
struct LookupResult {
    found: Option<u64>,
    strides: u64,
}

fn walk<W: Width, T: Element>(alloc: Global, bytes: &[u8], pos: u64) -> Result<Vec<u64>, AllocError>
    requires { Viewable (table_spec W.word T.spec) bytes.now pos }
    ensures items { MatchResult result
        (λ walked. walked.items ≡ item_positions W.word T.spec.size bytes.now pos)
        (λ _. 0 < len_at W.word bytes.now pos) }
    ensures count { IfOk result (λ walked. length walked.items ≡ len_at W.word bytes.now pos) }
    ensures all_valid { IfOk result (λ walked. All (Viewable T.spec bytes.now) walked.items) }
{
    let mut walked = Vec::new(alloc);
    for item in ArchivedHashTable::<T, W>::of(View::new(bytes, pos)).raw_iter() {
        walked.push(item)?;
    }
    Ok(walked)
}

fn look_up<W: Width, T: Element, F: Fn(View<'_, T>) -> bool>(
    bytes: &[u8],
    pos: u64,
    hash: u64,
    cmp: F,
) -> LookupResult
    requires table { Viewable (table_spec W.word T.spec) bytes.now pos }
    requires callable { CanCompareOf (F.pre cmp) W.word T.spec bytes.now pos }
    ensures looks { LooksUpIn (table_in W.Word T.HasSpec bytes.now pos) (F.post cmp) hash
        result.found }
    ensures reads { ReadsWithinBound W.word bytes.now pos result.strides }
    ensures exact { ReadsExactlyIn (table_in W.Word T.HasSpec bytes.now pos) (F.post cmp) hash
        result.strides }
{
    lookups_are_in_bytes::<T, W, F>();
    let table = ArchivedHashTable::<T, W>::of(View::new(bytes, pos));
    let mut strides = Strides::new();
    let found = found_pos(table.get_counted(hash, cmp, &mut strides));
    LookupResult {
        found,
        strides: strides.count(),
    }
}

/// Validates the table whose header is at `pos`, iterates over its items, and looks up `hash`.
///
/// The items must be in the range, which must end at or before `pos`.
///
/// # Errors
///
/// - `Verify`: the bytes are not a valid table. It has the first fault.
/// - `Memory`: memory for the positions of the items could not be allocated.
pub fn look_over<W: Width, T: Element, F: Fn(View<'_, T>) -> bool>(
    alloc: Global,
    bytes: &[u8],
    pos: u64,
    range: PartRange,
    hash: u64,
    cmp: F,
) -> Result<TableReport, LookError>
    requires inside { pos + 3 * byte_len W.word ≤ length bytes.now }
    requires aligned { pos % byte_len W.word ≡ 0 }
    requires ordered { (range.lo ≤ range.hi) × (range.hi ≤ pos) }
    requires callable { CanCompareItems (table_in W.Word T.HasSpec bytes.now pos) (F.pre cmp) }
    ensures { LooksOver (table_in W.Word T.HasSpec bytes.now pos) range (F.post cmp) hash result }
{
    let _ = ArchivedHashTable::<T, W>::verify(bytes, pos, range)?;
    let walked = walk::<W, T>(alloc, bytes, pos)?;
    walked_are_full();
    let lookup = look_up::<W, T, _>(bytes, pos, hash, cmp);
    Ok(TableReport {
        walked,
        found: lookup.found,
        strides: lookup.strides,
    })
}
