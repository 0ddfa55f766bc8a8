//! Pairs under the hashes of their keys, as the input of a call that writes a table.

ghost use Rattle.std.specs.Prelude.{◌≡◌};
ghost use Rattle.rkyv_keys.specs.{native_hash};
ghost use Rattle.rkyv_collections.specs.{HashedStep};

use rkyv_base::{EntryAdapter, Lend};
use rkyv_keys::{KeyHash, hash_value};
use rkyv_scan::KeyHasher;
use std::marker::PhantomData;

#[derive(Drop)]
pub(crate) struct HashedEntries<I, A, B, H> {
    pairs: I,
    kinds: PhantomData<(A, B, H)>,
}

impl<I, A, B, H> HashedEntries<I, A, B, H> {
    #[inline]
    pub(crate) fn new(pairs: I) -> HashedEntries<I, A, B, H>
        ensures { result.pairs ≡ pairs }
    {
        HashedEntries {
            pairs,
            kinds: PhantomData,
        }
    }
}

impl<A: KeyHash, B, H: KeyHasher, BK: Lend<A>, BV: Lend<B>, I: Iterator<Item = (BK, BV)>> Iterator
    for HashedEntries<I, A, B, H> {
    type Item = (u64, EntryAdapter<BK, BV, A, B>);

    ghost can_next = { λ s. I.can_next s.pairs };

    ghost next_gives = { λ s r t. HashedStep I.next_gives (λ key.
        native_hash H.KeyHasher A.KeyHash (BK.lent key)) s.pairs r t.pairs };

    ghost remaining = { λ s. I.remaining s.pairs };

    #[inline]
    fn next(&mut self) -> Option<(u64, EntryAdapter<BK, BV, A, B>)> {
        let (key, value) = self.pairs.next()?;
        let hash = hash_value::<A, H>(key.lend());
        Some((hash, EntryAdapter::new(key, value)))
    }
}
