//! Counting the keys of a map that a lookup of their own doesn't find.
//!
//! - `misplaced` looks up each key. Its cost on an untrusted map may be quadratic.
//! - `misplaced_up_to` ends at a limit on the strides that are read.
//!
//! If the number is 0, each lookup is exact: it finds the one key that the query matches,
//! or returns `None`.
ghost use Rattle.std.specs.Prelude.{◌≡◌};
ghost use Rattle.rkyv_base.specs.{IsValidView, bytes_of, entry_spec, pos_of};
ghost use Rattle.rkyv_keys.specs.{archived_hash, archived_keys};
ghost use Rattle.rkyv_collections.specs.{CountsKeysUpTo, misplaced_keys};

use crate::map::ArchivedHashMap;
use rkyv_base::{Element, Width};
use rkyv_keys::{KeyElement, KeyView, hash_value};
use rkyv_scan::KeyHasher;
use rkyv_table::Strides;

impl<'a, K: KeyElement, V: Element, H: KeyHasher, W: Width> ArchivedHashMap<'a, K, V, H, W> {
    /// Counts the keys that their own lookup doesn't find: it returns another equal key, or `None`.
    ///
    /// In a written map, these are the repeated keys. An untrusted map may have others.
    /// Not proved: each key is looked up once. Keys that share a hash cost a number of comparisons
    /// that is quadratic in their number, and chosen keys can share one.
    pub fn misplaced(self) -> usize
        ensures { result ≡ misplaced_keys self.entry (archived_keys H.KeyHasher K.KeyElement) }
    {
        self.table().misplaced_by(
            |entry|
                requires { IsValidView (entry_spec K.spec V.spec) entry }
                ensures { result ≡ archived_hash H.KeyHasher K.KeyElement (bytes_of entry.entry)
                    (pos_of entry.entry) }
            { hash_value::<KeyView<'_, K>, H>(&KeyView::of(entry.key())) },
            |own, other|
                requires own { IsValidView (entry_spec K.spec V.spec) own }
                requires other { IsValidView (entry_spec K.spec V.spec) other }
                ensures { result ≡ K.same (bytes_of own.entry) (pos_of own.entry)
                    (bytes_of other.entry) (pos_of other.entry) }
            { K::same(own.key(), other.key()) },
        )
    }

    /// Returns the result of `misplaced`, or `None` if its lookups read more than `limit` strides.
    ///
    /// A stride is sixteen control bytes. A written map takes about one for each key if the hashes
    /// are spread evenly. Not proved: the call reads at most `limit` strides and one more lookup's.
    pub fn misplaced_up_to(self, limit: u64) -> Option<usize>
        ensures { CountsKeysUpTo self.entry (archived_keys H.KeyHasher K.KeyElement) limit result }
    {
        self.table().misplaced_up_to_by(
            |entry|
                requires { IsValidView (entry_spec K.spec V.spec) entry }
                ensures { result ≡ archived_hash H.KeyHasher K.KeyElement (bytes_of entry.entry)
                    (pos_of entry.entry) }
            { hash_value::<KeyView<'_, K>, H>(&KeyView::of(entry.key())) },
            |entry, other|
                requires entry { IsValidView (entry_spec K.spec V.spec) entry }
                requires other { IsValidView (entry_spec K.spec V.spec) other }
                ensures { result ≡ K.same (bytes_of entry.entry) (pos_of entry.entry)
                    (bytes_of other.entry) (pos_of other.entry) }
            { K::same(entry.key(), other.key()) },
            limit,
            &mut Strides::new(),
        )
    }
}
