//! The header of an index set as an element, and its validator.
ghost use Rattle.rkyv_base.specs.{entry_spec, unit_spec};
ghost use Rattle.rkyv_base.specs.Lemmas.Empty.{unit_element};
ghost use Rattle.rkyv_base.specs.Lemmas.Entry.{entry_element};
ghost use Rattle.rkyv_index.specs.Lemmas.IndexLaws.{index_element};
ghost use Rattle.rkyv_index.specs.{index_set_spec};

use crate::map::IndexMapOf;
use crate::set::IndexSetOf;
use crate::width::IndexWidth;
use rkyv_base::width::Word;
use rkyv_base::{Element, HasSpec, PartRange, VerifyError};

impl<K: HasSpec, H, W: Word> HasSpec for IndexSetOf<K, H, W> {
    ghost spec = { index_set_spec W.word K.spec };

    ghost laws = { index_element W.word W.kind (entry_spec K.spec unit_spec)
        (entry_element K.spec unit_spec K.laws unit_element) };
}

impl<K: Element, H, W: IndexWidth> Element for IndexSetOf<K, H, W> {
    #[inline]
    fn size() -> usize {
        IndexMapOf::<K, (), H, W>::size()
    }

    #[inline]
    fn align() -> usize {
        IndexMapOf::<K, (), H, W>::align()
    }

    #[inline]
    fn check(bytes: &[u8], pos: u64, range: PartRange) -> Result<PartRange, VerifyError> {
        IndexMapOf::<K, (), H, W>::check(bytes, pos, range)
    }
}
