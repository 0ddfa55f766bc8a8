//! A list from its items to its lookup.

ghost use Rattle.std.specs.Prelude.{◌≡◌};
ghost use Rattle.rkyv_end_to_end.specs.{CanCompareAny, WritesAndFinds, encoding, list_of, pairs_of};
ghost use Rattle.rkyv_end_to_end.specs.declared.whole.ListError.TheVariants.{Look, Write};

use crate::laws::written_lists_represent;
use crate::looking::{LookError, TableReport, look_over};
use crate::writing::write_list;
use rkyv_base::{
    Archive, Lend, NoMemory, PartRange, Serialize, VecWriter, View, Width, WriteError, Writer,
};
use rkyv_table::table::laws::lookups_find_the_first;
use std::alloc::Global;
use thiserror::Error;

/// The error of `write_and_look_over`.
#[derive(Clone, Copy, Debug, PartialEq, Eq, Error)]
pub enum ListError {
    /// The list can't be written.
    #[error("{0}")]
    Write(WriteError<NoMemory>),
    /// Memory for the positions of the written list could not be allocated. Never `Verify`.
    #[error("{0}")]
    Look(LookError),
}

impl From<WriteError<NoMemory>> for ListError {
    ghost from_gives = { λ error e. e ≡ Write error };

    #[inline]
    fn from(error: WriteError<NoMemory>) -> ListError {
        ListError::Write(error)
    }
}

impl From<LookError> for ListError {
    ghost from_gives = { λ error e. e ≡ Look error };

    #[inline]
    fn from(error: LookError) -> ListError {
        ListError::Look(error)
    }
}

/// Writes a list of `len` items as a table, validates it, iterates over it, and looks up `hash`.
///
/// Each item has the next of the hashes. The lookup finds the first inserted item that `cmp`
/// accepts, if `cmp` depends only on the item and accepts only items with the hash `hash`.
pub fn write_and_look_over<
    W: Width,
    U: Serialize<VecWriter, W>,
    X: Lend<U> + Drop,
    I: Iterator<Item = X>,
    J: Iterator<Item = u64>,
    F: Fn(View<'_, U::Archived>) -> bool,
>(
    alloc: Global,
    items: I,
    hashes: J,
    len: usize,
    load_factor: (usize, usize),
    serializer: &mut VecWriter,
    hash: u64,
    cmp: F,
) -> Result<TableReport, ListError>
    requires ready { I.can_next items × J.can_next hashes }
    requires callable { CanCompareAny (F.pre cmp) U.Archived.spec }
    ensures { WritesAndFinds (list_of W.Width (encoding U.Archived.Represents U.Archive X.Lend)
        (pairs_of I.Iterator J.Iterator items hashes) len load_factor)
        (F.post cmp) hash serializer.old serializer.new result }
{
    let begin = serializer.pos();
    let at = write_list::<W, _, U, _, _, _>(alloc, items, hashes, len, load_factor, serializer)?;
    written_lists_represent::<W, U, X>();
    lookups_find_the_first::<W, U, X>();
    let range = PartRange {
        lo: begin,
        hi: at.end,
    };
    let bytes = serializer.bytes();
    let report = look_over::<W, U::Archived, _>(alloc, bytes, at.pos, range, hash, cmp)?;
    Ok(report)
}
