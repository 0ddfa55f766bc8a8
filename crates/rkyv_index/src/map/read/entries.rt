//! The entries of an index map, and the indices in its table.
ghost use Rattle.std.specs.Prelude.{length, ◌*◌, ◌+◌, ◌<◌, ◌^◌, ◌≡◌, ◌≤◌};
ghost use Rattle.std.specs.Int.{byte_len};
ghost use Rattle.rkyv_base.specs.{IsAt, IsValidView, archive_of, bytes_of, entry_spec, pos_of};
ghost use Rattle.rkyv_table.specs.{CountsStrides, len_at, table_view};
ghost use Rattle.rkyv_scan.specs.{generic_kind};
ghost use Rattle.rkyv_index.specs.{CanCompareIndex, CanCompareIndices, ComparesIndexBy};
ghost use Rattle.rkyv_index.specs.{FindsIndexIn, IsEntryOf, IsKeyIn, IsPairOf, entries_pos};
ghost use Rattle.rkyv_index.specs.{entry_at, index_archive, index_len, index_pos, index_spec};
ghost use Rattle.rkyv_index.specs.{pair_at, stored_index};

use crate::map::{ArchivedIndexMap, IndexMapOf};
use crate::width::IndexWidth;
use rkyv_base::view::PairView;
use rkyv_base::{Element, Entry, View};
use rkyv_table::{ArchivedHashTable, Strides, TableOf};

/// Returns the position of entry `i` of contiguous entries from `begin` on.
#[inline]
fn entry_pos(begin: u64, i: usize, size: usize) -> u64
    requires { begin + i * size < 2 ^ 64 }
    ensures { result ≡ entry_at size begin i }
{
    begin + (i * size) as u64
}

#[inline]
pub(crate) fn entry_in<'a, K: Element, V: Element, H, W: IndexWidth>(
    view: View<'a, IndexMapOf<K, V, H, W>>,
    begin: u64,
    index: usize,
) -> View<'a, Entry<K, V>>
    requires map { IsValidView (index_spec W.word (entry_spec K.spec V.spec)) view }
    requires begin { begin ≡ entries_pos W.word (bytes_of view) (pos_of view) }
    requires below { index < len_at W.word (bytes_of view) (pos_of view) }
    ensures at { IsAt result (archive_of view.entry)
        (pair_at W.word K.spec V.spec (bytes_of view.entry) (pos_of view.entry) index) }
    ensures viewable { IsValidView (entry_spec K.spec V.spec) result }
{
    let at = entry_pos(begin, index, Entry::<K, V>::size());
    view.at::<Entry<K, V>>(at)
}

impl<'a, K: Element, V: Element, H, W: IndexWidth> ArchivedIndexMap<'a, K, V, H, W> {
    #[inline]
    pub(crate) fn table(self) -> ArchivedHashTable<'a, W::Index, W>
        ensures at { IsAt (table_view result) (index_archive self.entry) (index_pos self.entry) }
    {
        let view = self.view.at::<TableOf<W::Index, W>>(self.view.pos());
        ArchivedHashTable::with_header(view, self.header)
    }

    #[inline]
    pub(crate) fn entry(self, index: usize) -> View<'a, Entry<K, V>>
        requires below { index < index_len self }
        ensures { IsEntryOf self.entry index result }
    {
        entry_in(self.view, self.begin, index)
    }

    #[inline]
    pub(crate) fn pair(self, index: usize) -> PairView<'a, K, V>
        requires below { index < index_len self }
        ensures { IsPairOf self.entry index result }
    {
        let entry = self.entry(index);
        (entry.key(), entry.value())
    }
}

#[inline]
pub(crate) fn key_in<'a, K: Element, V: Element, H, W: IndexWidth>(
    view: View<'a, IndexMapOf<K, V, H, W>>,
    begin: u64,
    index: usize,
) -> View<'a, K>
    requires map { IsValidView (index_spec W.word (entry_spec K.spec V.spec)) view }
    requires begin { begin ≡ entries_pos W.word (bytes_of view) (pos_of view) }
    requires below { index < len_at W.word (bytes_of view) (pos_of view) }
    ensures { IsKeyIn W.word K.spec V.spec view.entry index result }
{
    entry_in(view, begin, index).key()
}

#[inline]
fn read_index<W: IndexWidth>(item: View<'_, W::Index>) -> usize
    requires { pos_of item + byte_len W.word ≤ length (bytes_of item) }
    ensures { result ≡ stored_index W.word item.entry }
{
    W::read_count(item.bytes(), item.pos() as usize) as usize
}

/// Returns an accepted index in a table under `hash`, and counts the strides that are read.
#[inline]
pub(crate) fn find_index<W: IndexWidth, F: Fn(usize) -> bool>(
    table: ArchivedHashTable<'_, W::Index, W>,
    hash: u64,
    accepts: F,
    strides: &mut Strides,
) -> Option<usize>
    requires callable { CanCompareIndices (F.pre accepts) table }
    ensures found { FindsIndexIn (F.post accepts) table.entry hash result }
    ensures counts { CountsStrides (ComparesIndexBy W.word (F.post accepts)) generic_kind
        table.entry
        hash strides.old strides.new }
{
    let found = table.get_counted(
        hash,
        |item|
            requires { CanCompareIndex W.word (F.pre accepts) item }
            ensures { ComparesIndexBy W.word (F.post accepts) item.entry result }
        { accepts(read_index::<W>(item)) },
        strides,
    );
    Some(read_index::<W>(found?))
}
