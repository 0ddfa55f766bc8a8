//! Opening a map, and the counts of its header.
//!
//! `of` decodes the header once. The map is a copy of the view and the counts, so it can be
//! passed by value.
ghost use Rattle.std.specs.Prelude.{IsTrue, ◌↔◌, ◌≡◌};
ghost use Rattle.rkyv_base.specs.{IsAt, IsValidView, bytes_of, pos_of};
ghost use Rattle.rkyv_table.specs.{IsDecoded, table_view};
ghost use Rattle.rkyv_collections.specs.{map_archive, map_bytes, map_cap, map_header, map_len};
ghost use Rattle.rkyv_collections.specs.{map_pos, map_spec, map_view};

use crate::map::{ArchivedHashMap, HashMapOf};
use rkyv_base::{Element, Entry, View, Width};
use rkyv_table::table::decoded::Decoded;
use rkyv_table::{ArchivedHashTable, TableOf};

impl<'a, K: Element, V: Element, H, W: Width> ArchivedHashMap<'a, K, V, H, W> {
    /// Returns the map at a view of its header. Decodes the header, once for all lookups.
    ///
    /// # Examples
    ///
    /// ```rust
    /// use rkyv_base::VerifyError;
    /// use rkyv_base::access::access;
    /// use rkyv_collections::{ArchivedHashMap, HashMapOf};
    ///
    /// // Returns the number of pairs of a map, and the value of a key.
    /// fn look_up(archive: &[u8], key: i8) -> Result<(usize, Option<i8>), VerifyError> {
    ///     let map = ArchivedHashMap::of(access::<HashMapOf<i8, i8>>(archive)?);
    ///     match map.get(&key) {
    ///         Some(value) => Ok((map.len(), Some(value.to_native()))),
    ///         None => Ok((map.len(), None)),
    ///     }
    /// }
    /// ```
    #[inline]
    pub fn of(view: View<'a, HashMapOf<K, V, H, W>>) -> ArchivedHashMap<'a, K, V, H, W>
        requires { IsValidView (map_spec W.word K.spec V.spec) view }
        ensures view { map_view result ≡ view.entry }
    {
        let table = ArchivedHashTable::of(view.at::<TableOf<Entry<K, V>, W>>(view.pos()));
        ArchivedHashMap {
            view,
            header: table.header(),
        }
    }

    /// Returns the map at a view of its header, which was decoded before.
    #[inline]
    pub fn with_header(
        view: View<'a, HashMapOf<K, V, H, W>>,
        header: Decoded,
    ) -> ArchivedHashMap<'a, K, V, H, W>
        requires view { IsValidView (map_spec W.word K.spec V.spec) view }
        requires header { IsDecoded W.word (bytes_of view) (pos_of view) header }
        ensures view { map_view result ≡ view.entry }
        ensures header { map_header result ≡ header }
    {
        ArchivedHashMap { view, header }
    }

    /// Returns its decoded header, for `with_header`.
    #[inline]
    pub fn header(self) -> Decoded
        ensures { IsDecoded W.word (map_bytes self.entry) (map_pos self.entry) result }
    {
        self.header
    }

    #[inline]
    pub(crate) fn table(self) -> ArchivedHashTable<'a, Entry<K, V>, W>
        ensures at { IsAt (table_view result) (map_archive self.entry) (map_pos self.entry) }
    {
        ArchivedHashTable::with_header(
            self.view.at::<TableOf<Entry<K, V>, W>>(self.view.pos()),
            self.header,
        )
    }

    /// Returns `true` if and only if the map has no pairs.
    #[inline]
    pub fn is_empty(self) -> bool
        ensures { IsTrue result ↔ (map_len self.entry ≡ 0) }
    {
        self.len() == 0
    }

    /// Returns the number of pairs.
    #[inline]
    pub fn len(self) -> usize
        ensures { result ≡ map_len self.entry }
    {
        self.header.len()
    }

    /// Returns the number of buckets.
    #[inline]
    pub fn capacity(self) -> usize
        ensures { result ≡ map_cap self.entry }
    {
        self.header.capacity()
    }
}
