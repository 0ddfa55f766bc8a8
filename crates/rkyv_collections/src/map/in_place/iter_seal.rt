//! Cursors over the pairs and the values of a map, for writing the values in place.
//!
//! - `next_with` passes the archive and the position of the next key or value to a closure.
//!   Its contract also covers the cursor afterwards.
//! - `next_pos` returns the position of the next key or value. `set_at` takes this position and
//!   writes the value, a scalar. `key_at` reads a key.
//! - `next_seal` returns a seal of the next value, and leaves the cursor afterwards unspecified.
//!
//! `map::in_place` has a table of all calls that write values.
ghost use Rattle.std.specs.Prelude.{IfSome, IsSome, drop, length, take, ◌+◌, ◌≡◌, ◌≤◌};
ghost use Rattle.rkyv_base.specs.{IsValidView, LiesIn, Viewable, archive_in, bytes_in, bytes_of};
ghost use Rattle.rkyv_base.specs.{pos_in, pos_of, seal_pos, value_pos, with_value};
ghost use Rattle.rkyv_table.specs.{CountsDown, LendsArchive, SameArchive, StaysThere, WrittenBy};
ghost use Rattle.rkyv_table.specs.{cursor_archive, cursor_bytes, cursor_len};
ghost use Rattle.rkyv_collections.specs.{HasAllPairs, IsMapSeal, IsSplitPair, KeepsPairs};
ghost use Rattle.rkyv_collections.specs.{KeepsValues, LendsFirstPair, LendsFirstValue};
ghost use Rattle.rkyv_collections.specs.{MayWritePair, MayWriteValue, StepsAndWritesPair};
ghost use Rattle.rkyv_collections.specs.{StepsAndWritesValue, YieldsKeyPos, YieldsValuePos};
ghost use Rattle.rkyv_collections.specs.{entries_in, entries_of, map_spec};

use crate::map::{ArchivedHashMap, HashMapOf};
use rkyv_base::{
    ArchiveSeal, Element, Entry, MAX_ELEMENT_SIZE, Narrow, Scalar, Seal, View, Width, value_offset,
    whole_size,
};
use rkyv_keys::valid_at;
use rkyv_scan::FxHasher64;
use rkyv_table::{ArchivedHashTable, RawIterSeal};
use std::marker::PhantomData;

#[inline]
fn pair_at<K: Element, V: Element>(
    archive: &mut [u8],
    pos: u64,
) -> Option<(View<'_, K>, Seal<'_, V>)>
    requires { value_pos K.spec V.spec pos + V.spec.size ≤ length archive.old }
    ensures inside { IfSome result (λ pair. LiesIn V.spec pair.1) }
    ensures viewable { IfSome result (λ pair. IsValidView K.spec pair.0) }
    ensures key { IfSome result (λ pair. (pos_of pair.0 ≡ pos)
        × (bytes_of pair.0 ≡ take (value_pos K.spec V.spec pos) archive.old)) }
    ensures value { IfSome result (λ pair. (seal_pos pair.1 ≡ 0)
        × (bytes_in pair.1 ≡ drop (value_pos K.spec V.spec pos) archive.old)) }
    ensures found { Viewable K.spec archive.old pos → IsSome result }
{
    let begin = pos as usize + value_offset::<K, V>();
    let (front, back) = archive.split_at_mut(begin);
    let key = valid_at::<K>(front, pos)?;
    Some((key, Seal::over(back, 0)))
}

#[inline]
fn behind<K: Element, V: Element>(bytes: &[u8], pos: u64) -> u64
    requires { value_pos K.spec V.spec pos ≤ length bytes.now }
    ensures { result ≡ value_pos K.spec V.spec pos }
{
    pos + value_offset::<K, V>() as u64
}

/// A cursor over the pairs of a map, in bucket order, for writing their values in place.
///
/// If control bytes are overwritten, it may find no further pair. Its calls then return `None`,
/// and `len` stays above 0.
#[derive(Drop)]
#[must_use]
pub struct IterMut<'a, K, V, H = FxHasher64, W = Narrow> {
    entries: RawIterSeal<'a, Entry<K, V>>,
    hasher: PhantomData<H>,
    width: PhantomData<W>,
}

impl<'a, K: Element, V: Element, H, W> IterMut<'a, K, V, H, W> {
    /// Returns the number of pairs that remain.
    #[inline]
    pub fn len(&self) -> usize
        ensures { result ≡ cursor_len (entries_in self.now) }
    {
        self.entries.len()
    }

    /// Returns the position of the key of the next pair, or `None` at the end.
    #[inline]
    pub fn next_pos(&mut self) -> Option<u64>
        ensures archive { SameArchive (entries_in self.old) (entries_in self.new) }
        ensures counts { CountsDown (entries_in self.old) result (entries_in self.new) }
        ensures inside { IfSome result (λ q. value_pos K.spec V.spec q + V.spec.size
            ≤ length (cursor_bytes (entries_in self.old))) }
        ensures takes { YieldsKeyPos K.spec V.spec (entries_in self.old) result
            (entries_in self.new) }
    {
        if whole_size::<K, V>() > MAX_ELEMENT_SIZE {
            return None;
        }
        self.entries.next_pos()
    }

    /// Calls `write` with the archive and the position of the next key, and returns the position.
    ///
    /// `write` may rely on a valid pair at the position if the cursor is over a valid map.
    #[inline]
    pub fn next_with<F: FnOnce(&mut [u8], u64)>(&mut self, write: F) -> Option<u64>
        requires { MayWritePair K.spec V.spec F.pre (entries_in self.old) write }
        ensures { StepsAndWritesPair K.spec V.spec (WrittenBy F.post write tt)
            (entries_in self.old) result (entries_in self.new) }
    {
        let next = self.next_pos();
        if let Some(pos) = next {
            self.entries.write_with(pos, write);
        }
        next
    }

    /// Returns a view of the key at `pos`.
    #[inline]
    pub fn key_at(&self, pos: u64) -> View<'_, K>
        requires { Viewable K.spec (cursor_bytes (entries_in self.now)) pos }
        ensures bytes { bytes_of result ≡ cursor_bytes (entries_in self.now) }
        ensures at { pos_of result ≡ pos }
        ensures viewable { IsValidView K.spec result }
    {
        View::new(self.entries.bytes(), pos)
    }

    /// Returns a view of the next key and a seal of its value, or `None` at the end.
    ///
    /// The view borrows the bytes before the value, and the seal borrows the rest.
    /// The key is validated again, and the result is `None` if it is no longer valid.
    /// The cursor is unspecified afterwards.
    #[inline]
    pub fn next_seal(&mut self) -> Option<(View<'_, K>, Seal<'_, V>)>
        ensures inside { IfSome result (λ pair. LiesIn V.spec pair.1) }
        ensures viewable { IfSome result (λ pair. IsValidView K.spec pair.0) }
        ensures split { IfSome result (IsSplitPair K.spec V.spec
            (cursor_bytes (entries_in self.old))) }
        ensures first { LendsFirstPair K.spec V.spec (entries_in self.old) result }
    {
        let pos = self.next_pos()?;
        pair_at::<K, V>(self.entries.bytes_mut(), pos)
    }
}

impl<'a, K: Element, N: Scalar, H, W> IterMut<'a, K, N, H, W> {
    /// Writes a scalar as the value behind the key at `pos`.
    #[inline]
    pub fn set_at(&mut self, pos: u64, value: N)
        requires { value_pos K.spec N.spec pos + N.spec.size
            ≤ length (cursor_bytes (entries_in self.old)) }
        ensures stays { StaysThere (entries_in self.old) (entries_in self.new) }
        ensures written { cursor_bytes (entries_in self.new)
            ≡ with_value N.encoding (cursor_bytes (entries_in self.old))
            (value_pos K.spec N.spec pos) value }
        ensures kept { KeepsPairs K.spec N.spec (entries_in self.old) pos
            (entries_in self.new) }
    {
        self.entries.write_at(pos, value_offset::<K, N>(), value);
    }
}

/// A cursor over the values of a map, in bucket order, for writing them; otherwise as `IterMut`.
#[derive(Drop)]
#[must_use]
pub struct ValuesMut<'a, K, V, H = FxHasher64, W = Narrow> {
    pairs: IterMut<'a, K, V, H, W>,
}

impl<'a, K: Element, V: Element, H, W> ValuesMut<'a, K, V, H, W> {
    /// Returns the number of values that remain.
    #[inline]
    pub fn len(&self) -> usize
        ensures { result ≡ cursor_len (entries_of self.now) }
    {
        self.pairs.len()
    }

    /// Returns the position of the next value, or `None` at the end.
    #[inline]
    pub fn next_pos(&mut self) -> Option<u64>
        ensures archive { SameArchive (entries_of self.old) (entries_of self.new) }
        ensures counts { CountsDown (entries_of self.old) result (entries_of self.new) }
        ensures inside { IfSome result (λ q. q + V.spec.size
            ≤ length (cursor_bytes (entries_of self.old))) }
        ensures takes { YieldsValuePos K.spec V.spec (entries_of self.old) result
            (entries_of self.new) }
    {
        let key = self.pairs.next_pos()?;
        Some(behind::<K, V>(self.pairs.entries.bytes(), key))
    }

    /// Calls `write` with the archive and the position of the next value, and returns the position.
    ///
    /// `write` may rely on a valid value at the position if the cursor is over a valid map.
    #[inline]
    pub fn next_with<F: FnOnce(&mut [u8], u64)>(&mut self, write: F) -> Option<u64>
        requires { MayWriteValue K.spec V.spec F.pre (entries_of self.old) write }
        ensures { StepsAndWritesValue K.spec V.spec (WrittenBy F.post write tt)
            (entries_of self.old) result (entries_of self.new) }
    {
        let next = self.next_pos();
        if let Some(pos) = next {
            self.pairs.entries.write_with(pos, write);
        }
        next
    }

    /// Returns a seal of the next value, or `None` at the end. The cursor is then unspecified.
    #[inline]
    pub fn next_seal(&mut self) -> Option<Seal<'_, V>>
        ensures inside { IfSome result (LiesIn V.spec) }
        ensures bytes { IfSome result (λ value.
            bytes_in value ≡ cursor_bytes (entries_of self.old)) }
        ensures first { LendsFirstValue K.spec V.spec (entries_of self.old) result }
    {
        let pos = self.next_pos()?;
        let bytes = self.pairs.entries.bytes_mut();
        Some(Seal::over(bytes, pos as usize))
    }
}

impl<'a, K: Element, N: Scalar, H, W> ValuesMut<'a, K, N, H, W> {
    /// Writes a scalar as the value at `pos`.
    #[inline]
    pub fn set_at(&mut self, pos: u64, value: N)
        requires { pos + N.spec.size ≤ length (cursor_bytes (entries_of self.old)) }
        ensures stays { StaysThere (entries_of self.old) (entries_of self.new) }
        ensures written { cursor_bytes (entries_of self.new)
            ≡ with_value N.encoding (cursor_bytes (entries_of self.old)) pos value }
        ensures kept { KeepsValues K.spec N.spec (entries_of self.old) pos
            (entries_of self.new) }
    {
        self.pairs.entries.write_at(pos, 0, value);
    }
}

impl<'a, K: Element, V: Element, H, W: Width> ArchivedHashMap<'a, K, V, H, W> {
    /// Returns a cursor over the pairs of a sealed map, in bucket order, for writing their values.
    ///
    /// After it is dropped, no clause describes the archive's bytes, unlike after `for_each_value`.
    ///
    /// # Examples
    ///
    /// ```rust
    /// type Prices = HashMapOf<Text, u32>;
    ///
    /// fn cap_prices(archive: &mut [u8], limit: u32, free: &str) -> Result<(), VerifyError> {
    ///     let mut rest = ArchivedHashMap::iter_seal(access_mut::<Prices>(archive)?);
    ///     for _ in 0..rest.len() {
    ///         if let Some((name, mut price)) = rest.next_seal() {
    ///             if price.to_native() > limit && name.as_str() != free {
    ///                 price.set(limit);
    ///             }
    ///         }
    ///     }
    ///     Ok(())
    /// }
    /// ```
    #[inline]
    pub fn iter_seal(this: ArchiveSeal<'a, HashMapOf<K, V, H, W>>) -> IterMut<'a, K, V, H, W>
        requires map { IsMapSeal W.word K.spec V.spec this }
        ensures archive { LendsArchive this.entry (entries_in result) }
        ensures all { HasAllPairs K.spec V.spec W.word (archive_in this.entry)
            (pos_in this.entry) (entries_in result) }
    {
        let (archive, pos) = this.into_parts();
        Self::iter_over(archive, pos)
    }

    /// Returns the cursor of `iter_seal` over the map at `pos` of an archive.
    #[inline]
    pub fn iter_over(archive: &'a mut [u8], pos: u64) -> IterMut<'a, K, V, H, W>
        requires map { Viewable (map_spec W.word K.spec V.spec) archive.old pos }
        ensures reference { (cursor_archive (entries_in result)).ghost_name
            ≡ archive.entry.ghost_name }
        ensures bytes { cursor_bytes (entries_in result) ≡ archive.old }
        ensures all { HasAllPairs K.spec V.spec W.word archive.old pos (entries_in result) }
    {
        IterMut {
            entries: ArchivedHashTable::<Entry<K, V>, W>::raw_iter_over(archive, pos),
            hasher: PhantomData,
            width: PhantomData,
        }
    }

    /// Returns a cursor over the values of a sealed map, in bucket order; see `iter_seal`.
    #[inline]
    pub fn values_seal(this: ArchiveSeal<'a, HashMapOf<K, V, H, W>>) -> ValuesMut<'a, K, V, H, W>
        requires map { IsMapSeal W.word K.spec V.spec this }
        ensures archive { LendsArchive this.entry (entries_of result) }
        ensures all { HasAllPairs K.spec V.spec W.word (archive_in this.entry)
            (pos_in this.entry) (entries_of result) }
    {
        ValuesMut {
            pairs: Self::iter_seal(this),
        }
    }

    /// Returns the cursor of `values_seal` over the map at `pos` of an archive.
    #[inline]
    pub fn values_over(archive: &'a mut [u8], pos: u64) -> ValuesMut<'a, K, V, H, W>
        requires map { Viewable (map_spec W.word K.spec V.spec) archive.old pos }
        ensures reference { (cursor_archive (entries_of result)).ghost_name
            ≡ archive.entry.ghost_name }
        ensures bytes { cursor_bytes (entries_of result) ≡ archive.old }
        ensures all { HasAllPairs K.spec V.spec W.word archive.old pos (entries_of result) }
    {
        ValuesMut {
            pairs: Self::iter_over(archive, pos),
        }
    }
}
