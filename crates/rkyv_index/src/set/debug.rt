//! Formatting of index sets by `Debug`.
ghost use Rattle.rkyv_base.specs.{IsValidView};
ghost use Rattle.rkyv_index.specs.{index_set_spec};

use crate::set::{ArchivedIndexSet, IndexSetOf};
use crate::width::IndexWidth;
use rkyv_base::View;
use rkyv_keys::{ElementDebug, Shown};
use std::fmt::{self, Debug, Formatter, Write};

impl<K: ElementDebug, H, W: IndexWidth> ElementDebug for IndexSetOf<K, H, W> {
    fn debug<U: Write>(view: View<'_, IndexSetOf<K, H, W>>, f: &mut Formatter<U>) -> fmt::Result
        requires { IsValidView (index_set_spec W.word K.spec) view }
    {
        let mut printed = f.debug_set();
        for key in ArchivedIndexSet::of(view).iter() {
            printed.entry(&Shown::new(key));
        }
        printed.finish()
    }
}

impl<'a, K: ElementDebug, H, W: IndexWidth> Debug for ArchivedIndexSet<'a, K, H, W> {
    fn fmt<U: Write>(&self, f: &mut Formatter<U>) -> fmt::Result {
        let map = self.map.view;
        IndexSetOf::debug(map.at::<IndexSetOf<K, H, W>>(map.pos()), f)
    }
}
