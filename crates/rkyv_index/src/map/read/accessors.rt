//! Opening an index map, the number of its pairs, and the pair at an index.
//!
//! `of` decodes the header once. `get_index`, `first` and `last` read no control bytes.
ghost use Rattle.std.specs.Prelude.{IsTrue, MatchOption, pos as int, unsigned_abs, ℕ, ◌<◌, ◌^◌};
ghost use Rattle.std.specs.Prelude.{◌-◌, ◌↔◌, ◌≡◌, ◌≤◌};
ghost use Rattle.rkyv_base.specs.{IsValidView, bytes_of, entry_spec, pos_of};
ghost use Rattle.rkyv_table.specs.{IsDecoded};
ghost use Rattle.rkyv_index.specs.{IsPairOf, entries_pos, index_bytes, index_cap, index_header};
ghost use Rattle.rkyv_index.specs.{index_len, index_pos, index_spec, index_view};

use crate::map::check::decode_entries;
use crate::map::{ArchivedIndexMap, IndexMapOf};
use crate::width::IndexWidth;
use rkyv_base::view::PairView;
use rkyv_base::{Element, View};
use rkyv_table::table::decoded::Decoded;
use rkyv_table::{ArchivedHashTable, TableOf};

#[inline]
fn decode_pos(decoded: i128) -> u64
    requires { (at : ℕ) × (int at ≡ decoded) × (at < 2 ^ 64) }
    ensures { result ≡ unsigned_abs decoded }
{
    decoded as u64
}

#[inline]
fn decode<K: Element, V: Element, H, W: IndexWidth>(
    view: View<'_, IndexMapOf<K, V, H, W>>,
) -> Decoded
    requires { IsValidView (index_spec W.word (entry_spec K.spec V.spec)) view }
    ensures { IsDecoded W.word (bytes_of view.entry) (pos_of view.entry) result }
{
    ArchivedHashTable::of(view.at::<TableOf<W::Index, W>>(view.pos())).header()
}

#[inline]
pub(crate) fn begin<K: Element, V: Element, H, W: IndexWidth>(
    view: View<'_, IndexMapOf<K, V, H, W>>,
) -> u64
    requires { IsValidView (index_spec W.word (entry_spec K.spec V.spec)) view }
    ensures { result ≡ entries_pos W.word (bytes_of view.entry) (pos_of view.entry) }
{
    decode_pos(decode_entries::<W>(view.bytes(), view.pos()))
}

impl<'a, K: Element, V: Element, H, W: IndexWidth> ArchivedIndexMap<'a, K, V, H, W> {
    /// Returns the map at a valid view of its header, and decodes it once. `get` has an example.
    #[inline]
    pub fn of(view: View<'a, IndexMapOf<K, V, H, W>>) -> ArchivedIndexMap<'a, K, V, H, W>
        requires { IsValidView (index_spec W.word (entry_spec K.spec V.spec)) view }
        ensures view { index_view result ≡ view.entry }
    {
        ArchivedIndexMap::with_header(view, decode(view))
    }

    /// Returns the map at a view, with the result of `header` of the map at this view.
    #[inline]
    pub fn with_header(
        view: View<'a, IndexMapOf<K, V, H, W>>,
        header: Decoded,
    ) -> ArchivedIndexMap<'a, K, V, H, W>
        requires view { IsValidView (index_spec W.word (entry_spec K.spec V.spec)) view }
        requires header { IsDecoded W.word (bytes_of view) (pos_of view) header }
        ensures view { index_view result ≡ view.entry }
        ensures header { index_header result ≡ header }
    {
        ArchivedIndexMap {
            view,
            header,
            begin: begin(view),
        }
    }

    /// Returns the decoded header, for `with_header`.
    #[inline]
    pub fn header(self) -> Decoded
        ensures { IsDecoded W.word (index_bytes self.entry) (index_pos self.entry) result }
    {
        self.header
    }

    /// Returns `true` if the map has no pairs.
    #[inline]
    pub fn is_empty(self) -> bool
        ensures { IsTrue result ↔ (index_len self.entry ≡ 0) }
    {
        self.len() == 0
    }

    /// Returns the number of pairs.
    #[inline]
    pub fn len(self) -> usize
        ensures { result ≡ index_len self.entry }
    {
        self.header.len()
    }

    /// Returns the number of buckets of the table of indices.
    #[inline]
    pub fn capacity(self) -> usize
        ensures { result ≡ index_cap self.entry }
    {
        self.header.capacity()
    }

    /// Returns the pair at an index, or `None` if the index isn't below the length.
    ///
    /// # Examples
    ///
    /// ```rust
    /// type Prices = IndexMapOf<Text, u32>;
    ///
    /// // Returns the name at an index, borrowed from the archive.
    /// fn name_at(archive: &[u8], index: usize) -> Result<Option<&str>, VerifyError> {
    ///     let prices = ArchivedIndexMap::of(access::<Prices>(archive)?);
    ///     Ok(prices.get_index(index).map(|(name, _)| name.as_str()))
    /// }
    /// ```
    #[inline]
    pub fn get_index(self, index: usize) -> Option<PairView<'a, K, V>>
        ensures { MatchOption result
            (index_len self.entry ≤ index)
            (λ pair. IsPairOf self.entry index pair) }
    {
        if index >= self.len() {
            return None;
        }
        Some(self.pair(index))
    }

    /// Returns the first pair in insertion order.
    #[inline]
    pub fn first(self) -> Option<PairView<'a, K, V>>
        ensures { MatchOption result
            (index_len self.entry ≡ 0)
            (λ pair. IsPairOf self.entry 0 pair) }
    {
        self.get_index(0)
    }

    /// Returns the last pair in insertion order.
    #[inline]
    pub fn last(self) -> Option<PairView<'a, K, V>>
        ensures { MatchOption result
            (index_len self.entry ≡ 0)
            (λ pair. IsPairOf self.entry (index_len self.entry - 1) pair) }
    {
        let len = self.len();
        if len == 0 {
            return None;
        }
        Some(self.pair(len - 1))
    }
}
