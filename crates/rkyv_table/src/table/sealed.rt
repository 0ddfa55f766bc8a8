//! Lookups that return a seal.
//!
//! - `get_seal_with` takes a seal of the table. Its contract doesn't cover the bytes afterwards.
//! - `found_with` of `raw_iter_seal` takes bytes and a closure.
ghost use Rattle.std.specs.Prelude.{IfSome};
ghost use Rattle.rkyv_base.specs.{LiesIn};
ghost use Rattle.rkyv_table.specs.{AcceptedAt, CanCompareAt, IsItemSeal, IsTableSeal, SealsFirst};
ghost use Rattle.rkyv_table.specs.{SealsFound, pos_of_seal};

use crate::table::{ArchivedHashTable, TableOf};
use rkyv_base::{ArchiveSeal, Element, Seal, View, Width};

impl<'a, T: Element, W: Width> ArchivedHashTable<'a, T, W> {
    /// Looks up as `get_with`, for a seal. `found_with` also specifies the bytes afterwards.
    #[inline]
    pub fn get_seal_with<F: Fn(View<'_, T>) -> bool>(
        this: ArchiveSeal<'a, TableOf<T, W>>,
        hash: u64,
        cmp: F,
    ) -> Option<Seal<'a, T>>
        requires table { IsTableSeal W.word T.spec this }
        requires callable { CanCompareAt (F.pre cmp) W.word T.spec this }
        ensures inside { IfSome result (LiesIn T.spec) }
        ensures walked { IfSome result (IsItemSeal W.word T.spec this.entry) }
        ensures accepted { IfSome (pos_of_seal result)
            (AcceptedAt (F.post cmp) W.word T.spec this.entry) }
        ensures finds { SealsFound (F.post cmp) W.word T.spec this.entry hash
            (pos_of_seal result) }
        ensures first { SealsFirst (F.post cmp) W.word T.spec this.entry hash
            (pos_of_seal result) }
    {
        let pos = ArchivedHashTable::of(this.as_view()).get_pos_with(hash, cmp)?;
        Some(this.seal_at(pos))
    }
}
