//! Deserializing an index set into a list of keys.
ghost use Rattle.std.specs.Prelude.{MatchResult, ◌<◌};
ghost use Rattle.rkyv_index.specs.{ReadsItems, index_len, items_deserialize_fails, key_pos};
ghost use Rattle.rkyv_index.specs.{keys_of, set_bytes, set_pos};

use crate::set::ArchivedIndexSet;
use crate::width::IndexWidth;
use rkyv_base::{Element, ReadError};
use rkyv_keys::Deserialize;
use std::alloc::Global;

impl<'a, K: Element, H, W: IndexWidth> ArchivedIndexSet<'a, K, H, W> {
    #[inline]
    fn read_item<A>(self, alloc: Global, index: usize) -> Result<A, ReadError>
    where
        K: Deserialize<A>,
        requires below { index < index_len (keys_of self) }
        ensures { let at = key_pos (keys_of self.entry) index in
            MatchResult result (K.represents (set_bytes self.entry) at)
            (K.deserialize_fails (set_bytes self.entry) at) }
    {
        K::deserialize(alloc, self.map.entry(index).key())
    }

    /// Deserializes the keys into a list, in order.
    ///
    /// Fails with `Memory`, or with the first error of deserializing a key. Not proved: memory for
    /// the list is allocated before a key is deserialized.
    pub fn deserialize_items<A: Drop>(self, alloc: Global) -> Result<Vec<A>, ReadError>
    where
        K: Deserialize<A>,
        ensures { MatchResult result
            (λ list. ReadsItems K.represents self.entry list.items)
            (items_deserialize_fails W.word K.Deserialize (set_bytes self.entry)
            (set_pos self.entry)) }
    {
        let mut list = Vec::with_capacity(alloc, self.len())?;
        for index in 0..self.len() {
            let item = self.read_item(alloc, index)?;
            list.push_reserved(item);
        }
        Ok(list)
    }
}
