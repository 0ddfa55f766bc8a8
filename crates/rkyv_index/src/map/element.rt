//! The header of an index map as an element, and its validator.
ghost use Rattle.rkyv_base.specs.{entry_spec};
ghost use Rattle.rkyv_base.specs.Lemmas.Entry.{entry_element};
ghost use Rattle.rkyv_index.specs.{index_spec};
ghost use Rattle.rkyv_index.specs.Lemmas.IndexLaws.{index_element};

use crate::map::IndexMapOf;
use crate::map::check::{check_indices, check_part};
use crate::width::IndexWidth;
use rkyv_base::width::Word;
use rkyv_base::{Element, Entry, HasSpec, PartRange, VerifyError};
use rkyv_table::ArchivedHashTable;

impl<K: HasSpec, V: HasSpec, H, W: Word> HasSpec for IndexMapOf<K, V, H, W> {
    ghost spec = { index_spec W.word (entry_spec K.spec V.spec) };

    ghost laws = { index_element W.word W.kind (entry_spec K.spec V.spec)
        (entry_element K.spec V.spec K.laws V.laws) };
}

impl<K: Element, V: Element, H, W: IndexWidth> Element for IndexMapOf<K, V, H, W> {
    #[inline]
    fn size() -> usize {
        W::INDEX_SIZE
    }

    #[inline]
    fn align() -> usize {
        W::ALIGN
    }

    fn check(bytes: &[u8], pos: u64, range: PartRange) -> Result<PartRange, VerifyError> {
        let rest = ArchivedHashTable::<W::Index, W>::verify(bytes, pos, range)?;
        let len = check_indices::<W>(bytes, pos)?;
        let end = check_part::<W, Entry<K, V>>(bytes, pos, len, rest)?;
        Ok(PartRange {
            lo: end,
            hi: range.hi,
        })
    }
}
