//! Iterators over the items of a table.
//!
//! The iterator returns the positions of the items, and `next_view` returns views.
ghost use Rattle.std.specs.Prelude.{[], IfSome, MatchOption, length, slice_index, take, ◌<◌};
ghost use Rattle.std.specs.Prelude.{◌≤◌, ◌∷◌, ◌≡◌};
ghost use Rattle.rkyv_scan.specs.{indices_where, is_full};
ghost use Rattle.std.specs.Iterator.{at_most};
ghost use Rattle.rkyv_base.specs.{IsValidView, archive_of, pos_of};
ghost use Rattle.rkyv_table.specs.{AllValid, HintsExactly, YieldsPos, item_positions, len_at};
ghost use Rattle.rkyv_table.specs.{table_archive, table_bytes, table_pos};

use crate::table::ArchivedHashTable;
use rkyv_base::{Element, View, Width};
use rkyv_scan::simd::generic;
use rkyv_scan::{Bitmask, GroupKind, Marks};
use std::marker::{Model, PhantomData};

/// The positions of the items of a table that remain, in bucket order.
#[derive(Drop)]
pub struct RawIter<'a, T> {
    archive: &'a [u8],
    // The position at which the buckets of the current group end.
    buckets_end: usize,
    size: usize,
    count: usize,
    controls: &'a [u8],
    // The first index of the current group.
    base: usize,
    // The full indices of that group that remain.
    marks: Bitmask,
    kind: PhantomData<T>,
}

impl<'a, T> Model for RawIter<'a, T> {
    ghost use Rattle.rkyv_table.specs.Table.RawItems.{IsRawIter, ItemsLeft, positions_left};

    ghost Value = { ItemsLeft };

    ghost view = { λ r. record {
      archive = r.archive;
      positions =
          positions_left r.buckets_end r.size r.count r.controls.now r.base
          (⟦<Bitmask as Marks>⟧.indices r.marks);
    } };

    ghost invariant = { λ r. IsRawIter r.buckets_end r.size r.count r.controls.now r.base
        (⟦<Bitmask as Marks>⟧.indices r.marks) };
}

#[inline]
fn first_marks(controls: &[u8], len: usize) -> Bitmask
    requires { 0 < len → 8 ≤ length controls.now }
    ensures { 0 < len
        → ⟦<Bitmask as Marks>⟧.indices result
        ≡ indices_where (λ j. is_full (slice_index (take 8 controls.now) j)) 8 }
{
    if len == 0 {
        Bitmask::EMPTY
    } else {
        generic::Group::read(controls, 0).match_full()
    }
}

impl<T> RawIter<'static, T> {
    /// Returns an iterator over no items.
    #[inline]
    pub fn empty() -> RawIter<'static, T>
        ensures positions { result.positions ≡ [] }
        ensures archive { result.archive.now ≡ [] }
    {
        RawIter {
            archive: &[],
            buckets_end: 0,
            size: 0,
            count: 0,
            controls: &[],
            base: 0,
            marks: Bitmask::EMPTY,
            kind: PhantomData,
        }
    }
}

impl<'a, T: Element> RawIter<'a, T> {
    /// Returns a view of the next item, or `None` at the end.
    #[inline]
    pub fn next_view(&mut self) -> Option<View<'a, T>>
        requires { AllValid T.spec self.old }
        ensures archive { self.new.archive ≡ self.old.archive }
        ensures takes { MatchOption result
            ((self.old.positions ≡ []) × (self.new.positions ≡ []))
            (λ v. (self.old.positions ≡ pos_of v ∷ self.new.positions)
            × (archive_of v ≡ self.old.archive)) }
        ensures viewable { IfSome result (IsValidView T.spec) }
        ensures all_valid { AllValid T.spec self.new }
    {
        let pos = self.next()?;
        Some(View::new(self.archive, pos))
    }
}

impl<'a, T> Iterator for RawIter<'a, T> {
    type Item = u64;

    ghost next_gives = { YieldsPos };

    ghost remaining = { λ left. at_most (length left.positions) };

    #[inline]
    fn next(&mut self) -> Option<u64> {
        while self.count > 0 {
            if let Some(j) = self.marks.lowest_set_bit() {
                self.marks = self.marks.remove_lowest_bit();
                self.count -= 1;
                return Some((self.buckets_end - (j + 1) * self.size) as u64);
            }
            self.base += generic::Group::WIDTH;
            self.buckets_end -= generic::Group::WIDTH * self.size;
            self.marks = generic::Group::read(self.controls, self.base).match_full();
        }
        None
    }

    #[inline]
    fn size_hint(&self) -> (usize, Option<usize>)
        ensures { HintsExactly result (length self.now.positions) }
    {
        (self.count, Some(self.count))
    }
}

impl<'a, T> ExactSizeIterator for RawIter<'a, T> {
    #[inline]
    fn len(&self) -> usize {
        self.count
    }
}

impl<'a, T: Element, W: Width> ArchivedHashTable<'a, T, W> {
    /// Returns an iterator over the positions of the items, in bucket order.
    ///
    /// # Examples
    ///
    /// ```rust
    /// // Returns the first four results of a walk.
    /// fn four_steps<T: Element>(bytes: &[u8]) -> Result<[Option<u64>; 4], VerifyError> {
    ///     let table = ArchivedHashTable::of(access::<TableOf<T>>(bytes)?);
    ///     let mut rest = table.raw_iter();
    ///     Ok([rest.next(), rest.next(), rest.next(), rest.next()])
    /// }
    ///
    /// let given = four_steps::<u8>(&two_archived()).ok();
    /// assert_eq!(rt; given, Some([Some(2), Some(0), None, None]));
    /// ```
    #[inline]
    pub fn raw_iter(self) -> RawIter<'a, T>
        ensures archive { result.archive ≡ table_archive self.entry }
        ensures positions { result.positions
            ≡ item_positions W.word T.spec.size (table_bytes self.entry) (table_pos self.entry) }
        ensures count { length result.positions
            ≡ len_at W.word (table_bytes self.entry) (table_pos self.entry) }
        ensures all_valid { AllValid T.spec result }
    {
        let header = self.header;
        let controls = self.controls();
        RawIter {
            archive: self.view.bytes(),
            buckets_end: header.controls_pos,
            size: T::size(),
            count: header.len,
            controls,
            base: 0,
            marks: first_marks(controls, header.len),
            kind: PhantomData,
        }
    }
}
