//! The indices of entries, each under the hash of its entry, as the input of a table.

ghost use Rattle.std.specs.Prelude.{ℕ, ◌≡◌, ◌+◌, ◌≤◌, length};
ghost use Rattle.std.specs.Iterator.{YieldsFirst, at_most};
ghost use Rattle.std.specs.Slice.Iter.{iter_rest};
ghost use Rattle.rkyv_keys.specs.{native_hash};
ghost use Rattle.rkyv_index.specs.{indices_from};

use crate::width::IndexWidth;
use rkyv_base::{EntryAdapter, Lend};
use rkyv_keys::{KeyHash, hash_value};
use rkyv_scan::KeyHasher;
use std::marker::PhantomData;

/// A value that has a hash under the hasher `H`.
pub(crate) trait HashedEntry<H> {
    ghost hash: { Self → ℕ };

    fn hash(&self) -> u64
        ensures { result ≡ hash self.now };
}

// The hash of an entry is its key's.
impl<BK: Lend<A>, BV, A: KeyHash, B, H: KeyHasher> HashedEntry<H> for EntryAdapter<BK, BV, A, B> {
    ghost hash = { λ entry. native_hash H.KeyHasher A.KeyHash (BK.lent entry.key) };

    #[inline]
    fn hash(&self) -> u64 {
        hash_value::<A, H>(self.key.lend())
    }
}

/// An iterator over the indices of values from 0 on, each with the hash of its value.
#[derive(Drop)]
pub(crate) struct HashedIndices<'a, U, H, W> {
    values: std::slice::Iter<'a, U>,
    index: u64,
    kinds: PhantomData<(H, W)>,
}

impl<'a, U, H, W> HashedIndices<'a, U, H, W> {
    #[inline]
    pub(crate) fn new(values: &'a [U]) -> HashedIndices<'a, U, H, W>
        ensures rest { iter_rest result.values ≡ values.now }
        ensures index { result.index ≡ 0 }
    {
        HashedIndices {
            values: values.iter(),
            index: 0,
            kinds: PhantomData,
        }
    }
}

impl<'a, U: HashedEntry<H>, H, W: IndexWidth> Iterator for HashedIndices<'a, U, H, W> {
    type Item = (u64, W::Index);

    ghost can_next = { λ s. s.index + length (iter_rest s.values) ≤ W.LIMIT };

    ghost next_gives = { YieldsFirst (λ s. indices_from U.hash W.Index.encoding.value s.index
        (iter_rest s.values)) };

    ghost remaining = { λ s. at_most (length (iter_rest s.values)) };

    #[inline]
    fn next(&mut self) -> Option<(u64, W::Index)> {
        let hash = self.values.next()?.hash();
        let index = W::to_index(self.index);
        self.index += 1;
        Some((hash, index))
    }
}
