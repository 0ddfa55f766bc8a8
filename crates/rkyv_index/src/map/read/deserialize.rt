//! Deserializing an index map into a list of pairs.
ghost use Rattle.std.specs.Prelude.{MatchResult, ◌<◌};
ghost use Rattle.rkyv_index.specs.{IsPairRead, ReadsPairs, index_bytes, index_len, index_pos};
ghost use Rattle.rkyv_index.specs.{pair_deserialize_fails, pairs_deserialize_fails};

use crate::map::ArchivedIndexMap;
use crate::width::IndexWidth;
use rkyv_base::{Element, Entry, ReadError};
use rkyv_keys::Deserialize;
use std::alloc::Global;

impl<'a, K: Element, V: Element, H, W: IndexWidth> ArchivedIndexMap<'a, K, V, H, W> {
    #[inline]
    fn read_pair<A: Drop, B>(self, alloc: Global, index: usize) -> Result<(A, B), ReadError>
    where
        K: Deserialize<A>,
        V: Deserialize<B>,
        requires below { index < index_len self }
        ensures { MatchResult result
            (IsPairRead K.represents V.represents self.entry index)
            (pair_deserialize_fails K.Deserialize V.Deserialize self.entry index) }
    {
        Entry::<K, V>::deserialize(alloc, self.entry(index))
    }

    /// Deserializes the pairs into a list, in order.
    ///
    /// Not proved: memory for the list is allocated before a pair is deserialized.
    ///
    /// # Errors
    ///
    /// - `Memory`: memory for the list could not be allocated. An empty list needs none.
    /// - The first error of deserializing a key or a value.
    pub fn deserialize_pairs<A: Drop, B: Drop>(
        self,
        alloc: Global,
    ) -> Result<Vec<(A, B)>, ReadError>
    where
        K: Deserialize<A>,
        V: Deserialize<B>,
        ensures { MatchResult result
            (λ list. ReadsPairs K.represents V.represents self.entry list.items)
            (pairs_deserialize_fails W.word K.Deserialize V.Deserialize (index_bytes self.entry)
            (index_pos self.entry)) }
    {
        let mut list = Vec::with_capacity(alloc, self.len())?;
        for index in 0..self.len() {
            let pair = self.read_pair(alloc, index)?;
            list.push_reserved(pair);
        }
        Ok(list)
    }
}
