//! Laws of written tables, in any archive that contains their bytes.

ghost use Rattle.std.specs.Prelude.{ℕ};
ghost use Rattle.rkyv_base.specs.{RepresentsAs, RepresentsLocally, written_as};
ghost use Rattle.rkyv_table.specs.{RepresentedWereWritten, TableRepresents, WrittenTablesPass};
ghost use Rattle.rkyv_table.specs.{WrittenTablesRepresent, table_spec};

use rkyv_base::{Archive, Lend, Width};

/// States that a written table with its header is valid in any archive that has its bytes.
///
/// The header must be aligned and after the written bytes.
pub fn written_tables_represent<W: Width, U: Archive<W>, X: Lend<U>>()
    ensures { (load_factor : ℕ × ℕ) → WrittenTablesRepresent W.word U.Archived.spec
        (RepresentsAs X.lent U.Archived.represents) (written_as X.lent U.format) load_factor }
{}

/// States that the written table is valid in each range around the written bytes.
pub fn written_tables_pass<W: Width, U: Archive<W>, X: Lend<U>>()
    ensures { (load_factor : ℕ × ℕ) →
        WrittenTablesPass W.word U.Archived.spec (written_as X.lent U.format) load_factor }
{}

/// States that the represented items depend only on the bytes that decide the table's validity.
pub fn tables_represent_locally<W: Width, U: Archive<W>, X: Lend<U>>()
    ensures { (load_factor : ℕ × ℕ) → let s = U.Archived.spec in
        RepresentsLocally (table_spec W.word s)
        (TableRepresents W.word s (RepresentsAs X.lent U.Archived.represents) load_factor) }
{}

/// States that a table that represents items was written from them, in order.
///
/// Each item is under its hash and in its home bucket. So a lookup finds the first accepted item.
pub fn represented_lists_were_written<W: Width, U: Archive<W>, X: Lend<U>>()
    ensures { (load_factor : ℕ × ℕ) →
        RepresentedWereWritten W.word U.Archived.spec (RepresentsAs X.lent
        U.Archived.represents) load_factor }
{}
