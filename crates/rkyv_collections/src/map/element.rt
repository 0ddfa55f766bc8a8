//! The header of a map as an element.
ghost use Rattle.rkyv_collections.specs.{map_spec};
ghost use Rattle.rkyv_collections.specs.Lemmas.MapElement.{map_element};

use crate::map::HashMapOf;
use rkyv_base::width::Word;
use rkyv_base::{Element, Entry, HasSpec, PartRange, VerifyError, Width};
use rkyv_table::{ArchivedHashTable, TableOf};

impl<K: HasSpec, V: HasSpec, H, W: Word> HasSpec for HashMapOf<K, V, H, W> {
    ghost spec = { map_spec W.word K.spec V.spec };

    ghost laws = { map_element W.word W.kind K.spec V.spec K.laws V.laws };
}

impl<K: Element, V: Element, H, W: Width> Element for HashMapOf<K, V, H, W> {
    #[inline]
    fn size() -> usize {
        TableOf::<Entry<K, V>, W>::size()
    }

    #[inline]
    fn align() -> usize {
        TableOf::<Entry<K, V>, W>::align()
    }

    #[inline]
    fn check(bytes: &[u8], pos: u64, range: PartRange) -> Result<PartRange, VerifyError> {
        ArchivedHashTable::<Entry<K, V>, W>::verify(bytes, pos, range)
    }
}
