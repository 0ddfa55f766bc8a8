//! Laws of writes in place.

ghost use Rattle.std.specs.Prelude.{List, length, ℕ, ◌-◌, ◌≡◌};
ghost use Rattle.rkyv_base.specs.{IsValidArchive, RepresentsAs, Viewable, entry_spec};
ghost use Rattle.rkyv_table.specs.{IsWalked, ItemsWrittenRepresent, KeepsArchive, KeepsTable};
ghost use Rattle.rkyv_table.specs.{KeptByValueWrites, KeptByWrites, SameLookups, WritesAmongParts};
ghost use Rattle.rkyv_table.specs.{table_spec};

use crate::table::ArchivedHashTable;
use rkyv_base::{Archive, Element, Lend, Represents, Width};

/// States that if a write changes only one item and keeps it valid, the table stays valid.
pub fn writes_keep_the_table<T: Element, W: Width>()
    ensures { (b : List ℕ) (p i : ℕ) → Viewable (table_spec W.word T.spec) b p
        → IsWalked W.word b p i
        → KeptByWrites W.word T.spec b p i }
{}

/// States that a table stays valid if a write changes one entry's value and keeps it valid.
pub fn value_writes_keep_the_table<K: Element, V: Element, W: Width>()
    ensures { (b : List ℕ) (p i : ℕ) → Viewable (table_spec W.word (entry_spec K.spec V.spec)) b p
        → IsWalked W.word b p i
        → KeptByValueWrites W.word K.spec V.spec b p i }
{}

/// States that lookups in a kept table find the same buckets and positions; it stays a written one.
pub fn writes_keep_lookups<T: Element, W: Width>()
    ensures { (b c : List ℕ) (p i : ℕ) → KeepsTable W.word T.spec b c p i
        → SameLookups W.word T.spec b c p }
{}

/// States that a write of one item in place replaces it in the list from which a table was written.
///
/// The write must change only the bytes of this item, and they must represent the new item, which
/// is then under the hash of the old one.
pub fn items_written_represent<X, T: Represents<X>, W: Width>()
    ensures { ItemsWrittenRepresent W.word T.spec T.represents }
{}

/// States that an archive stays valid if a write is among the parts of its root.
pub fn writes_keep_archives<T: Element, W: Width>()
    ensures { (b c : List ℕ) → IsValidArchive W.LIMIT T.spec b
        → WritesAmongParts T.spec b c (length b - T.spec.size)
        → KeepsArchive W.LIMIT T.spec b c }
{}

/// States that a cursor over a valid table changes no byte by its steps, nor when it is dropped.
pub fn cursors_keep_bytes<T: Element, W: Width>(archive: &mut [u8], pos: u64, steps: usize)
    requires { Viewable (table_spec W.word T.spec) archive.old pos }
    ensures { archive.new ≡ archive.old }
{
    let mut rest = ArchivedHashTable::<T, W>::raw_iter_over(archive, pos);
    for _ in 0..steps {
        rest.next_pos();
    }
}

/// States `items_written_represent` for a list of items that are borrowed.
pub fn lent_items_written_represent<W: Width, U: Archive<W>, X: Lend<U>>()
    ensures { ItemsWrittenRepresent W.word U.Archived.spec
        (RepresentsAs X.lent U.Archived.represents) }
{}
