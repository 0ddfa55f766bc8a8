//! Cursors over the items of a table, for writing in place.
//!
//! - `next_with` passes the archive and the position of the next item to a closure,
//!   and `next_seal_with` passes a seal. Their contracts also cover the cursor afterwards.
//! - `next_pos` returns the position of the next item. `set_at`, `write_at` and `write_with` then
//!   write at a position.
//! - `next_seal` returns a seal of the next item, and leaves the cursor afterwards unspecified.
//! - `for_each_seal` of a table passes a seal of each item to a closure.
ghost use Rattle.std.specs.Prelude.{IfSome, MatchOption, length, slice_range, ◌*◌, ◌+◌, ◌-◌, ◌<◌};
ghost use Rattle.std.specs.Prelude.{◌≡◌, ◌≤◌};
ghost use Rattle.rkyv_base.specs.{LiesIn, ModifiesOnly, StaysValid, Viewable, archive_in, bytes_in};
ghost use Rattle.rkyv_base.specs.{pos_in, with_value};
ghost use Rattle.rkyv_table.specs.{CanCompareOf, CountsDown, FindsFirstLeft, IsSealIter};
ghost use Rattle.rkyv_table.specs.{IsTableSeal, KeepsCursor, LendsArchive, LendsFirst, LendsFound};
ghost use Rattle.rkyv_table.specs.{MaySeal, MaySealIn, MaySealNext, MayWriteAt, MayWriteNext};
ghost use Rattle.rkyv_table.specs.{SameArchive, SealedBy, StaysThere, StepsAndWrites, WrittenBy};
ghost use Rattle.rkyv_table.specs.{YieldsPosition, cap_at, cursor_archive, cursor_buckets_left};
ghost use Rattle.rkyv_table.specs.{cursor_bytes, cursor_len, len_at, pos_before, table_controls};
ghost use Rattle.rkyv_table.specs.{table_in, table_spec, walk};

mod for_each;

use crate::controls::walk::next_full;
use crate::table::{ArchivedHashTable, TableOf};
use rkyv_base::{ArchiveSeal, Element, Scalar, Seal, View, Width, set_at};
use std::marker::PhantomData;

#[inline]
fn part(bytes: &[u8], pos: usize, count: usize) -> Option<&[u8]>
    ensures { MatchOption result (length bytes.now < pos + count)
        (λ part. (pos + count ≤ length bytes.now)
        × (part.now ≡ slice_range bytes.now pos (pos + count))) }
{
    if bytes.len() < pos || bytes.len() - pos < count {
        return None;
    }
    Some(&bytes[pos..pos + count])
}

#[inline]
fn pos_before(buckets_end: usize, bucket: usize, size: usize) -> Option<usize>
    requires { size ≤ 1073741824 }
    ensures { MatchOption result (buckets_end < (bucket + 1) * size)
        (λ q. ((bucket + 1) * size ≤ buckets_end) × (q ≡ pos_before buckets_end size bucket)) }
{
    let behind = (bucket as u128 + 1) * size as u128;
    if behind > buckets_end as u128 {
        return None;
    }
    Some(buckets_end - behind as usize)
}

#[derive(Clone, Copy)]
struct NextItem {
    bucket: usize,
    at: usize,
}

/// A cursor over the items of a table, in bucket order, for writing in place.
///
/// While only items are written and stay valid, each item is returned once, and then `None`.
/// The cursor is unspecified after `next_seal` and after `bytes_mut`. If control bytes are
/// overwritten, it may return `None` while `len` stays above 0.
#[derive(Drop)]
#[must_use]
pub struct RawIterSeal<'a, T> {
    archive: &'a mut [u8],
    // The position of the first control byte, at which the buckets end.
    buckets_end: usize,
    cap: usize,
    // The bucket that is read next.
    next: usize,
    left: usize,
    kind: PhantomData<T>,
}

impl<'a, T: Element> RawIterSeal<'a, T> {
    /// Returns the number of items that remain.
    #[inline]
    pub fn len(&self) -> usize
        ensures { result ≡ cursor_len self.now }
    {
        self.left
    }

    #[inline]
    fn first(&self) -> Option<NextItem>
        ensures some { IfSome result (λ _. 0 < cursor_len self.now) }
        ensures below { IfSome result (λ f. f.bucket < self.now.cap) }
        ensures inside { IfSome result (λ f. f.at + T.spec.size ≤ length (cursor_bytes self.now)) }
        ensures first { FindsFirstLeft T.spec self.now result }
    {
        if self.left == 0 {
            return None;
        }
        let controls = part(&*self.archive, self.buckets_end, self.cap)?;
        let bucket = next_full(controls, self.cap, self.next)?;
        let at = pos_before(self.buckets_end, bucket, T::size())?;
        Some(NextItem { bucket, at })
    }

    /// Returns the position of the next item, or `None` if it finds none.
    #[inline]
    pub fn next_pos(&mut self) -> Option<u64>
        ensures archive { SameArchive self.old self.new }
        ensures counts { CountsDown self.old result self.new }
        ensures inside { IfSome result (λ q. q + T.spec.size ≤ length (cursor_bytes self.old)) }
        ensures takes { YieldsPosition T.spec self.old result self.new }
    {
        let first = self.first()?;
        self.next = first.bucket + 1;
        self.left -= 1;
        Some(first.at as u64)
    }

    /// Returns a seal of the next item. `next_seal_with` also specifies the items that remain.
    #[inline]
    pub fn next_seal(&mut self) -> Option<Seal<'_, T>>
        ensures inside { IfSome result (LiesIn T.spec) }
        ensures bytes { IfSome result (λ s. bytes_in s ≡ cursor_bytes self.old) }
        ensures first { LendsFirst T.spec self.old result }
    {
        let pos = self.next_pos()?;
        let bytes = &mut *self.archive;
        Some(Seal::over(bytes, pos as usize))
    }
}

impl<'a, T: Element> RawIterSeal<'a, T> {
    /// Calls `write` with the archive and the position of the next item, and returns the position.
    ///
    /// Without a next item, it writes nothing. `write` must accept each position at which an item
    /// fits. It may rely on a valid item there if the cursor is over a valid table.
    #[inline]
    pub fn next_with<F: FnOnce(&mut [u8], u64)>(&mut self, write: F) -> Option<u64>
        requires { MayWriteNext F.pre T.spec self.old write }
        ensures reference { (cursor_archive self.new).ghost_name
            ≡ (cursor_archive self.old).ghost_name }
        ensures steps { StepsAndWrites T.spec (WrittenBy F.post write tt) self.old result
            self.new }
    {
        let next = self.next_pos();
        if let Some(pos) = next {
            self.write_with(pos, write);
        }
        next
    }
}

#[inline]
fn lend_seal<T, R, F: FnOnce(&mut Seal<'_, T>) -> R>(bytes: &mut [u8], pos: usize, write: F) -> R
    requires { MaySeal F.pre write bytes.old pos }
    ensures { SealedBy F.post write result bytes.old pos bytes.new }
{
    let mut seal = Seal::<T>::over(bytes, pos);
    write(&mut seal)
}

impl<'a, T: Element> RawIterSeal<'a, T> {
    /// Calls `write` with a seal of the next item, and returns its position, as `next_with` does.
    #[inline]
    pub fn next_seal_with<F: FnOnce(&mut Seal<'_, T>)>(&mut self, write: F) -> Option<u64>
        requires { MaySealNext F.pre T.spec self.old write }
        ensures reference { (cursor_archive self.new).ghost_name
            ≡ (cursor_archive self.old).ghost_name }
        ensures steps { StepsAndWrites T.spec (SealedBy F.post write tt) self.old result self.new }
    {
        let next = self.next_pos();
        if let Some(pos) = next {
            let bytes = &mut *self.archive;
            lend_seal(bytes, pos as usize, write);
        }
        next
    }
}

impl<'a, T> RawIterSeal<'a, T> {
    /// Calls `write` with the archive and the position `pos`.
    #[inline]
    pub fn write_with<F: FnOnce(&mut [u8], u64)>(&mut self, pos: u64, write: F)
        requires { MayWriteAt F.pre self.old pos write }
        ensures stays { StaysThere self.old self.new }
        ensures written { WrittenBy F.post write tt (cursor_bytes self.old) pos
            (cursor_bytes self.new) }
    {
        let bytes = &mut *self.archive;
        write(bytes, pos)
    }

    /// Returns the bytes of the archive, to read.
    #[inline]
    pub fn bytes(&self) -> &[u8]
        ensures { result.now ≡ cursor_bytes self.now }
    {
        &*self.archive
    }

    /// Returns the bytes of the archive, to write. `write_with` also specifies how they change.
    #[inline]
    pub fn bytes_mut(&mut self) -> &mut [u8]
        ensures { result.now ≡ cursor_bytes self.old }
    {
        &mut *self.archive
    }

    /// Writes a scalar at position `pos + offset` of the archive.
    #[inline]
    pub fn write_at<N: Scalar>(&mut self, pos: u64, offset: usize, value: N)
        requires { pos + offset + N.spec.size ≤ length (cursor_bytes self.old) }
        ensures stays { StaysThere self.old self.new }
        ensures written { cursor_bytes self.new
            ≡ with_value N.encoding (cursor_bytes self.old) (pos + offset) value }
        ensures sealed { ModifiesOnly (cursor_bytes self.old) (pos + offset) (N.spec.size)
            (cursor_bytes self.new) }
        ensures is_valid { StaysValid N.spec (cursor_bytes self.old)
            (cursor_bytes self.new) (pos + offset) }
    {
        let bytes = &mut *self.archive;
        set_at(bytes, pos as usize + offset, value);
    }
}

impl<'a, N: Scalar> RawIterSeal<'a, N> {
    /// Writes a scalar at position `pos` of the archive.
    #[inline]
    pub fn set_at(&mut self, pos: u64, value: N)
        requires { pos + N.spec.size ≤ length (cursor_bytes self.old) }
        ensures stays { StaysThere self.old self.new }
        ensures written { cursor_bytes self.new
            ≡ with_value N.encoding (cursor_bytes self.old) pos value }
        ensures kept { KeepsCursor N.spec self.old pos self.new }
    {
        let bytes = &mut *self.archive;
        set_at(bytes, pos as usize, value);
    }
}

impl<'a, T: Element, W: Width> ArchivedHashTable<'a, T, W> {
    /// Returns a cursor over a sealed table. `raw_iter_over` also specifies the bytes afterwards.
    #[inline]
    pub fn raw_iter_seal(this: ArchiveSeal<'a, TableOf<T, W>>) -> RawIterSeal<'a, T>
        requires table { IsTableSeal W.word T.spec this }
        ensures archive { LendsArchive this.entry result }
        ensures iter { IsSealIter W.word T.spec (pos_in this.entry) result }
        ensures buckets { cursor_buckets_left W.word (pos_in this.entry) result
            ≡ walk (table_controls W.word (archive_in this.entry) (pos_in this.entry))
            (cap_at W.word (archive_in this.entry) (pos_in this.entry)) }
        ensures count { cursor_len result
            ≡ len_at W.word (archive_in this.entry) (pos_in this.entry) }
    {
        let (archive, pos) = this.into_parts();
        Self::raw_iter_over(archive, pos)
    }

    /// Returns a cursor over the items of the table at `pos` of an archive, in bucket order.
    #[inline]
    pub fn raw_iter_over(archive: &'a mut [u8], pos: u64) -> RawIterSeal<'a, T>
        requires table { Viewable (table_spec W.word T.spec) archive.old pos }
        ensures reference { (cursor_archive result).ghost_name ≡ archive.entry.ghost_name }
        ensures bytes { cursor_bytes result ≡ archive.old }
        ensures iter { IsSealIter W.word T.spec pos result }
        ensures buckets { cursor_buckets_left W.word pos result
            ≡ walk (table_controls W.word archive.old pos) (cap_at W.word archive.old pos) }
        ensures count { cursor_len result ≡ len_at W.word archive.old pos }
    {
        let header = ArchivedHashTable::<T, W>::of(View::new(&*archive, pos)).header;
        let (buckets_end, cap, left) = (header.controls_pos, header.cap, header.len);
        RawIterSeal {
            archive,
            buckets_end,
            cap,
            next: 0,
            left,
            kind: PhantomData,
        }
    }
}

impl<'a, T: Element, W: Width> ArchivedHashTable<'a, T, W> {
    /// Calls `write` with a seal of the item that a lookup finds, and returns its result.
    ///
    /// The table is at `pos` of the archive. If no item is found, the result is `None`, and nothing
    /// is written. `write` must accept a seal of each valid value of the archive.
    #[inline]
    pub fn found_with<R, F: Fn(View<'_, T>) -> bool, G: FnOnce(&mut Seal<'_, T>) -> R>(
        archive: &mut [u8],
        pos: u64,
        hash: u64,
        cmp: F,
        write: G,
    ) -> Option<R>
        requires table { Viewable (table_spec W.word T.spec) archive.old pos }
        requires callable { CanCompareOf (F.pre cmp) W.word T.spec archive.old pos }
        requires writable { MaySealIn G.pre T.spec write archive.old }
        ensures { LendsFound (table_in W.Word T.HasSpec archive.old pos) (F.post cmp)
            (SealedBy G.post write) hash result archive.new }
    {
        let table = ArchivedHashTable::<T, W>::of(View::new(&*archive, pos));
        let item_pos = table.get_pos_with(hash, cmp)?;
        Some(lend_seal(archive, item_pos as usize, write))
    }
}
