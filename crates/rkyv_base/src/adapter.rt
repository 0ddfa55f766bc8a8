//! Pairs of a key and a value by reference or by value, which are archived as entries.

ghost use Rattle.std.specs.Prelude.{◌≡◌};
ghost use Rattle.rkyv_base.specs.{PairRepresents, RepresentsAs, entry_spec, pair_format, pair_of};
ghost use Rattle.rkyv_base.specs.{written_as};
ghost use Rattle.rkyv_base.specs.Lemmas.Pairs.{pair_is_format, pair_local, written_as-format};

use crate::archive::{Archive, ResolveResult, Serialize, WriteResult};
use crate::element::Represents;
use crate::entry::Entry;
use crate::lend::Lend;
use crate::pairs::{EntryResolver, resolve_entry, serialize_entry};
use crate::width::Width;
use crate::writer::Writer;
use std::alloc::Global;
use std::marker::PhantomData;

/// A key and a value, each by value or by reference, which are archived as an entry.
#[derive(Drop)]
pub struct EntryAdapter<BK, BV, K, V> {
    /// The key, or a reference to it.
    pub key: BK,
    /// The value, or a reference to it.
    pub value: BV,
    kinds: PhantomData<(K, V)>,
}

impl<BK: Lend<K>, BV: Lend<V>, K, V> EntryAdapter<BK, BV, K, V> {
    /// Returns the pair of a key and a value.
    #[inline]
    pub fn new(key: BK, value: BV) -> EntryAdapter<BK, BV, K, V>
        ensures key { result.key ≡ key }
        ensures value { result.value ≡ value }
    {
        EntryAdapter {
            key,
            value,
            kinds: PhantomData,
        }
    }
}

impl<BK: Lend<A>, BV: Lend<B>, A, B, K: Represents<A>, V: Represents<B>> Represents<
    EntryAdapter<BK, BV, A, B>,
> for Entry<K, V> {
    ghost represents = { RepresentsAs (pair_of BK.lent BV.lent)
        (PairRepresents K.spec V.spec K.represents V.represents) };

    ghost local = { λ x.
        pair_local K.spec V.spec K.laws V.laws K.represents V.represents K.local V.local
        (pair_of BK.lent BV.lent x) };
}

impl<W: Width, BK: Lend<A>, BV: Lend<B>, A: Archive<W>, B: Archive<W>> Archive<W>
    for EntryAdapter<BK, BV, A, B> {
    type Archived = Entry<A::Archived, B::Archived>;

    type Resolver = EntryResolver<A::Resolver, B::Resolver>;

    ghost format = { written_as (pair_of BK.lent BV.lent)
        (pair_format A.Archived.spec B.Archived.spec A.format B.format) };

    #[inline]
    fn resolve(&self, resolver: Self::Resolver, pos: u64, out: &mut [u8]) -> ResolveResult {
        resolve_entry::<W, _, _>(self.key.lend(), self.value.lend(), resolver, pos, out)
    }

    ghost laws = { written_as-format (pair_of BK.lent BV.lent)
        (entry_spec A.Archived.spec B.Archived.spec)
        (PairRepresents A.Archived.spec B.Archived.spec A.Archived.represents B.Archived.represents)
        (pair_format A.Archived.spec B.Archived.spec A.format B.format)
        (pair_is_format A.Archived.spec B.Archived.spec A.Archived.laws B.Archived.laws
        A.Archived.represents B.Archived.represents A.format B.format A.laws B.laws) };
}

impl<
    S: Writer,
    W: Width,
    BK: Lend<A>,
    BV: Lend<B>,
    A: Serialize<S, W>,
    B: Serialize<S, W>,
> Serialize<S, W> for EntryAdapter<BK, BV, A, B> {
    #[inline]
    fn serialize(&self, alloc: Global, serializer: &mut S) -> WriteResult<Self::Resolver, S> {
        serialize_entry::<_, W, _, _>(self.key.lend(), self.value.lend(), alloc, serializer)
    }
}
