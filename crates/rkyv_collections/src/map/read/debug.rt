//! Formatting of maps by `Debug`.
ghost use Rattle.rkyv_base.specs.{IsValidView};
ghost use Rattle.rkyv_collections.specs.{map_spec};

use crate::map::{ArchivedHashMap, HashMapOf};
use rkyv_base::{View, Width};
use rkyv_keys::{ElementDebug, Shown};
use std::fmt::{self, Debug, Formatter, Write};

impl<K: ElementDebug, V: ElementDebug, H, W: Width> ElementDebug for HashMapOf<K, V, H, W> {
    fn debug<U: Write>(view: View<'_, HashMapOf<K, V, H, W>>, f: &mut Formatter<U>) -> fmt::Result
        requires { IsValidView (map_spec W.word K.spec V.spec) view }
    {
        let mut printed = f.debug_map();
        for (key, value) in ArchivedHashMap::of(view).iter() {
            printed.entry(&Shown::new(key), &Shown::new(value));
        }
        printed.finish()
    }
}

impl<'a, K: ElementDebug, V: ElementDebug, H, W: Width> Debug for ArchivedHashMap<'a, K, V, H, W> {
    fn fmt<U: Write>(&self, f: &mut Formatter<U>) -> fmt::Result {
        HashMapOf::debug(self.view, f)
    }
}
