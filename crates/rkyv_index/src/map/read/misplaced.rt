//! Counting the keys of an index map that `get_index_of` doesn't find at their own index.
//!
//! - `misplaced` looks up each key. Its cost on an untrusted map may be quadratic.
//! - `misplaced_up_to` ends at a limit on the strides that are read.
ghost use Rattle.std.specs.Prelude.{◌<◌, ◌≡◌};
ghost use Rattle.rkyv_keys.specs.{archived_keys};
ghost use Rattle.rkyv_table.specs.{count_after};
ghost use Rattle.rkyv_index.specs.{CountsAllStrides, CountsRepeated, CountsUpTo, ReadsUpTo};
ghost use Rattle.rkyv_index.specs.{ReadsWithinBound, ReturnsRepeated, index_len, index_misplaced};
ghost use Rattle.rkyv_index.specs.{index_of, is_misplaced, own_strides};

use crate::map::ArchivedIndexMap;
use crate::width::IndexWidth;
use rkyv_base::Element;
use rkyv_keys::{KeyElement, KeyView};
use rkyv_scan::KeyHasher;
use rkyv_table::Strides;
use rkyv_table::table::misplaced::finds_another_or_none;

impl<'a, K: KeyElement, V: Element, H: KeyHasher, W: IndexWidth> ArchivedIndexMap<'a, K, V, H, W> {
    // Returns `true` if a lookup of the key at `index` doesn't find `index`; counts its strides.
    #[inline]
    fn is_misplaced(self, index: usize, strides: &mut Strides) -> bool
        requires below { index < index_len self }
        ensures exact { result ≡ is_misplaced (index_of self.entry)
            (archived_keys H.KeyHasher K.KeyElement) index }
        ensures repeated { ReturnsRepeated (index_of self.entry)
            (archived_keys H.KeyHasher K.KeyElement) index result }
        ensures bounded { ReadsWithinBound self.entry strides.old strides.new }
        ensures counted { strides.new ≡ count_after strides.old (own_strides
            (index_of self.entry) (archived_keys H.KeyHasher K.KeyElement) index) }
    {
        let key = KeyView::of(self.entry(index).key());
        finds_another_or_none(index, self.index_counted(&key, strides))
    }

    /// Counts the keys whose index `get_index_of` of the same key doesn't return.
    ///
    /// In a written map, these are the keys that equal an earlier key.
    ///
    /// Not proved: each key is looked up once. The cost is quadratic in the number of keys that
    /// share a hash, and in the length of an untrusted map. `FxHasher64` has no secret key, so
    /// chosen keys can share a hash.
    pub fn misplaced(self) -> usize
        ensures exact { result ≡ index_misplaced (index_of self.entry)
            (archived_keys H.KeyHasher K.KeyElement) }
        ensures repeated { CountsRepeated (index_of self.entry)
            (archived_keys H.KeyHasher K.KeyElement) result }
    {
        let mut count = 0;
        for index in 0..self.len() {
            if self.is_misplaced(index, &mut Strides::new()) {
                count += 1;
            }
        }
        count
    }

    /// Counts as `misplaced` does, or returns `None` if the lookups read more than `limit` strides.
    ///
    /// The cost on an untrusted map is bounded: by the contract of `misplaced_up_to_counted`, it
    /// reads at most `limit` strides and one more lookup's. A written map takes about one stride
    /// for each key if its hashes are spread evenly.
    pub fn misplaced_up_to(self, limit: u64) -> Option<usize>
        ensures { CountsUpTo (index_of self.entry) (archived_keys H.KeyHasher K.KeyElement) limit
            result }
    {
        self.misplaced_up_to_counted(limit, &mut Strides::new())
    }

    /// Counts as `misplaced_up_to` does, and adds the strides it reads to `strides`.
    ///
    /// It reads at most `limit` strides and one more lookup's: at most ceil(n / 16), for n buckets.
    pub fn misplaced_up_to_counted(self, limit: u64, strides: &mut Strides) -> Option<usize>
        ensures counts { CountsUpTo (index_of self.entry) (archived_keys H.KeyHasher K.KeyElement)
            limit result }
        ensures counted { CountsAllStrides (index_of self.entry)
            (archived_keys H.KeyHasher K.KeyElement) strides.old strides.new result }
        ensures bounded { ReadsUpTo self.entry limit strides.old strides.new result }
    {
        let mut left = limit;
        let mut count = 0;
        for index in 0..self.len() {
            let mut own = Strides::new();
            let is_misplaced = self.is_misplaced(index, &mut own);
            let read = own.count();
            strides.add(read);
            if read > left {
                return None;
            }
            left -= read;
            if is_misplaced {
                count += 1;
            }
        }
        Some(count)
    }
}
