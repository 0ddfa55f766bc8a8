//! The header of a table as an element.
//!
//! Its validator is `ArchivedHashTable::verify`.
ghost use Rattle.rkyv_table.specs.{table_spec};
ghost use Rattle.rkyv_table.specs.Lemmas.TableLaws.{table_element};

use crate::table::{ArchivedHashTable, TableOf};
use rkyv_base::width::Word;
use rkyv_base::{Element, HasSpec, PartRange, VerifyError, Width};

impl<T: HasSpec, W: Word> HasSpec for TableOf<T, W> {
    ghost spec = { table_spec W.word T.spec };

    ghost laws = { table_element W.word W.kind T.spec T.laws };
}

impl<T: Element, W: Width> Element for TableOf<T, W> {
    #[inline]
    fn size() -> usize {
        W::TABLE_SIZE
    }

    #[inline]
    fn align() -> usize {
        W::ALIGN
    }

    #[inline]
    fn check(bytes: &[u8], pos: u64, range: PartRange) -> Result<PartRange, VerifyError> {
        ArchivedHashTable::<T, W>::verify(bytes, pos, range)
    }
}
