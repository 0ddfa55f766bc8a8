//! Counting the items of a table that a lookup of the same item doesn't return.
//!
//! - `misplaced_by` looks up each item. Its cost on untrusted bytes may be quadratic.
//! - `misplaced_up_to_by` ends at a limit on the strides that are read.
ghost use Rattle.std.specs.Prelude.{IfSome, not, ◌≡◌, ◌≤◌};
ghost use Rattle.rkyv_scan.specs.{generic_kind};
ghost use Rattle.rkyv_table.specs.{CanCompare, ComparesItems, CountsAllStrides, CountsMisplaced};
ghost use Rattle.rkyv_table.specs.{CountsOwn, CountsUpTo, IsFullIn, IsItemIn, MayCompare};
ghost use Rattle.rkyv_table.specs.{ReadsUpTo, ReturnsMisplaced, is_found_at, table_len};

use crate::controls::find::{Strides, find_from};
use crate::table::ArchivedHashTable;
use rkyv_base::{Element, View, Width};
use rkyv_scan::simd::paired;

/// Returns `true` if a lookup found another bucket or returned `None`.
#[inline]
pub fn finds_another_or_none(bucket: usize, found: Option<usize>) -> bool
    ensures { result ≡ not (is_found_at bucket found) }
{
    found != Some(bucket)
}

impl<'a, T: Element, W: Width> ArchivedHashTable<'a, T, W> {
    #[inline]
    fn is_misplaced<H: Fn(View<'a, T>) -> u64, S: Fn(View<'a, T>, View<'a, T>) -> bool>(
        self,
        bucket: usize,
        item: View<'a, T>,
        hash_of: &H,
        same: &S,
        strides: &mut Strides,
    ) -> bool
        requires item { IsItemIn self bucket item }
        requires hashable { CanCompare (H.pre hash_of.now) self }
        requires comparable { MayCompare (S.pre same.now) self }
        ensures exact { ReturnsMisplaced (H.post hash_of.now) (S.post same.now) self.entry bucket
            result }
        ensures counts { CountsOwn (H.post hash_of.now) (S.post same.now) self.entry bucket
            strides.old strides.new }
    {
        let hash = hash_of(item);
        let found = find_from::<paired::Group, _>(
            self.controls(),
            self.header.cap,
            self.header.len,
            hash,
            self.start(hash),
            |other|
                requires full { IsFullIn self bucket }
                requires other { IsFullIn self other }
                requires comparable { MayCompare (S.pre same.now) self }
                ensures { ComparesItems (S.post same.entry.now) self.entry bucket other result }
            { same(self.item(bucket), self.item(other)) },
            strides,
        );
        finds_another_or_none(bucket, found)
    }

    /// Counts the items that a lookup of the same item doesn't return.
    ///
    /// The lookup of an item is under its `hash_of`, and accepts the items for which `same` returns
    /// `true` with the item as the first argument. The count is specified if both functions depend
    /// only on the arguments' positions. `repeated_are_misplaced` relates it to repeated items.
    ///
    /// Not proved: each item is looked up once. Items that share one hash cost comparisons that
    /// grow with the square of their number.
    pub fn misplaced_by<H: Fn(View<'a, T>) -> u64, S: Fn(View<'a, T>, View<'a, T>) -> bool>(
        self,
        hash_of: H,
        same: S,
    ) -> usize
        requires hashable { CanCompare (H.pre hash_of) self }
        requires comparable { MayCompare (S.pre same) self }
        ensures counts { CountsMisplaced (H.post hash_of) (S.post same) generic_kind
            self.entry result }
        ensures within { result ≤ table_len self.entry }
    {
        let mut count = 0;
        for bucket in self.walk::<rkyv_scan::Group>() {
            let item = self.item(bucket);
            if self.is_misplaced(bucket, item, &hash_of, &same, &mut Strides::new()) {
                count += 1;
            }
        }
        count
    }

    /// Counts as `misplaced_by` does, or returns `None` at a limit on the strides that it reads.
    ///
    /// If both functions depend only on the arguments' positions, it is `None` if and only if the
    /// lookups of all items read more than `limit` strides. They are added to `strides`.
    ///
    /// For any functions, it counts at most `limit` strides and one more lookup's, at most
    /// ceil(capacity / 16). So its cost on untrusted bytes is bounded.
    pub fn misplaced_up_to_by<H, S>(
        self,
        hash_of: H,
        same: S,
        limit: u64,
        strides: &mut Strides,
    ) -> Option<usize>
    where
        H: Fn(View<'a, T>) -> u64,
        S: Fn(View<'a, T>, View<'a, T>) -> bool,
        requires hashable { CanCompare (H.pre hash_of) self }
        requires comparable { MayCompare (S.pre same) self }
        ensures counts { CountsUpTo (H.post hash_of) (S.post same) self.entry limit result }
        ensures within { IfSome result (λ count. count ≤ table_len self.entry) }
        ensures counted { CountsAllStrides (H.post hash_of) (S.post same) self.entry strides.old
            strides.new result }
        ensures bounded { ReadsUpTo self.entry limit strides.old strides.new result }
    {
        let mut left = limit;
        let mut misplaced = 0;
        for bucket in self.walk::<rkyv_scan::Group>() {
            let item = self.item(bucket);
            let mut own = Strides::new();
            let is_misplaced = self.is_misplaced(bucket, item, &hash_of, &same, &mut own);
            let read = own.count();
            strides.add(read);
            if read > left {
                return None;
            }
            left -= read;
            if is_misplaced {
                misplaced += 1;
            }
        }
        Some(misplaced)
    }
}
