//! Formatting of sets by `Debug`.
ghost use Rattle.rkyv_base.specs.{IsValidView};
ghost use Rattle.rkyv_collections.specs.{set_spec};

use crate::set::{ArchivedHashSet, HashSetOf};
use rkyv_base::{View, Width};
use rkyv_keys::{ElementDebug, Shown};
use std::fmt::{self, Debug, Formatter, Write};

impl<K: ElementDebug, H, W: Width> ElementDebug for HashSetOf<K, H, W> {
    fn debug<U: Write>(view: View<'_, HashSetOf<K, H, W>>, f: &mut Formatter<U>) -> fmt::Result
        requires { IsValidView (set_spec W.word K.spec) view }
    {
        let mut printed = f.debug_set();
        for key in ArchivedHashSet::of(view).iter() {
            printed.entry(&Shown::new(key));
        }
        printed.finish()
    }
}

impl<'a, K: ElementDebug, H, W: Width> Debug for ArchivedHashSet<'a, K, H, W> {
    fn fmt<U: Write>(&self, f: &mut Formatter<U>) -> fmt::Result {
        let map = self.map.view;
        HashSetOf::debug(map.at::<HashSetOf<K, H, W>>(map.pos()), f)
    }
}
