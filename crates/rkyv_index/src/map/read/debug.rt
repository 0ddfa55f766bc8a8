//! Formatting of index maps by `Debug`.
ghost use Rattle.rkyv_base.specs.{IsValidView, entry_spec};
ghost use Rattle.rkyv_index.specs.{index_spec};

use crate::map::{ArchivedIndexMap, IndexMapOf};
use crate::width::IndexWidth;
use rkyv_base::View;
use rkyv_keys::{ElementDebug, Shown};
use std::fmt::{self, Debug, Formatter, Write};

impl<K: ElementDebug, V: ElementDebug, H, W: IndexWidth> ElementDebug for IndexMapOf<K, V, H, W> {
    fn debug<U: Write>(view: View<'_, IndexMapOf<K, V, H, W>>, f: &mut Formatter<U>) -> fmt::Result
        requires { IsValidView (index_spec W.word (entry_spec K.spec V.spec)) view }
    {
        let mut printed = f.debug_map();
        for (key, value) in ArchivedIndexMap::of(view).iter() {
            printed.entry(&Shown::new(key), &Shown::new(value));
        }
        printed.finish()
    }
}

impl<'a, K: ElementDebug, V: ElementDebug, H, W: IndexWidth> Debug
    for ArchivedIndexMap<'a, K, V, H, W> {
    fn fmt<U: Write>(&self, f: &mut Formatter<U>) -> fmt::Result {
        IndexMapOf::debug(self.view, f)
    }
}
