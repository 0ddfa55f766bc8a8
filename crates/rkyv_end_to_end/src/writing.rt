//! Writing a list as a table, followed by its header.

ghost use Rattle.rkyv_end_to_end.specs.{WritesList, encoding, list_of, pairs_of};

use rkyv_base::{Lend, Serialize, Width, WriteResult, Writer, align_for_in, append_in};
use rkyv_table::{ArchivedHashTable, TableOf};
use std::alloc::Global;

/// The positions of a written list.
#[derive(Clone, Copy, Debug, PartialEq, Eq)]
pub struct WrittenList {
    /// The position after the table.
    pub end: u64,
    /// The position of the header.
    pub pos: u64,
}

/// Writes a list of `len` items as a table, followed by its aligned header.
///
/// Each item has the next of the hashes. Fails with the errors of `serialize_from_iter` of tables,
/// of appending the zeros before the header, with `DistanceTooLarge`, or of appending the header.
pub fn write_list<
    W: Width,
    S: Writer,
    U: Serialize<S, W>,
    X: Lend<U> + Drop,
    I: Iterator<Item = X>,
    J: Iterator<Item = u64>,
>(
    alloc: Global,
    items: I,
    hashes: J,
    len: usize,
    load_factor: (usize, usize),
    serializer: &mut S,
) -> WriteResult<WrittenList, S>
    requires { I.can_next items × J.can_next hashes }
    ensures { WritesList (list_of W.Width (encoding U.Archived.Represents U.Archive X.Lend)
        (pairs_of I.Iterator J.Iterator items hashes) len load_factor)
        (S.output serializer.old) (S.output serializer.new) result }
{
    let resolver = ArchivedHashTable::<U::Archived, W>::serialize_from_iter::<_, U, X, _, _>(
        alloc,
        items,
        hashes,
        len,
        load_factor,
        serializer,
    )?;
    let end = serializer.pos();
    let pos = align_for_in::<W, TableOf<U::Archived, W>, _>(serializer)?;
    let mut scratch = [0u8; 24];
    let out = &mut scratch[..W::TABLE_SIZE];
    ArchivedHashTable::<U::Archived, W>::resolve_from_len(len, load_factor, resolver, pos, out)?;
    append_in::<W, S>(serializer, out)?;
    Ok(WrittenList { end, pos })
}
