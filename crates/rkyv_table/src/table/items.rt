//! The control bytes of a table, its items, and an iterator over its full buckets.
ghost use Rattle.std.specs.Prelude.{◌<◌, ◌≡◌};
ghost use Rattle.rkyv_table.specs.{IsFullIn, IsItemIn, cap_at, table_bytes, table_controls};
ghost use Rattle.rkyv_table.specs.{table_pos, walk};

use crate::controls::walk::Walk;
use crate::table::ArchivedHashTable;
use crate::table::header::controls_from;
use rkyv_base::{Element, View, Width};
use rkyv_scan::GroupKind;

impl<'a, T: Element, W: Width> ArchivedHashTable<'a, T, W> {
    /// Returns the control bytes, or none if there are no buckets.
    #[inline]
    pub(crate) fn controls(self) -> &'a [u8]
        ensures { 0 < self.entry.header.cap → result.now
            ≡ table_controls W.word (table_bytes self.entry) (table_pos self.entry) }
    {
        let header = self.header;
        if header.cap == 0 {
            return &[];
        }
        controls_from(self.view.bytes(), header.controls_pos, header.cap)
    }

    #[inline]
    pub(crate) fn item(self, bucket: usize) -> View<'a, T>
        requires { IsFullIn self bucket }
        ensures { IsItemIn self.entry bucket result }
    {
        let pos = self.header.controls_pos - (bucket + 1) * T::size();
        View::new(self.view.bytes(), pos as u64)
    }

    #[inline]
    pub(crate) fn walk<G: GroupKind>(self) -> Walk<'a, G>
        ensures { result ≡ walk
            (table_controls W.word (table_bytes self.entry) (table_pos self.entry))
            (cap_at W.word (table_bytes self.entry) (table_pos self.entry)) }
    {
        if self.header.cap == 0 {
            return Walk::empty();
        }
        Walk::new(self.controls(), self.header.cap)
    }
}
