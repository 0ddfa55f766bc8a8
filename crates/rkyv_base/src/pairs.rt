//! Pairs, which are archived as entries.
//!
//! The parts of the key are written before the parts of the value. The fixed bytes are an `Entry`.

ghost use Rattle.std.specs.Prelude.{◌≡◌, ◌+◌, ◌^◌, ◌<◌, ◌≤◌, length, MatchResult};
ghost use Rattle.rkyv_base.specs.{Padded, PairRepresents, Serializes, entry_spec, pair_format};
ghost use Rattle.rkyv_base.specs.Lemmas.Pairs.{pair_is_format};
ghost use Rattle.rkyv_base.specs.Lemmas.Pairs.{pair_local};

use crate::archive::{Archive, ResolveResult, Serialize, WriteResult};
use crate::element::{Element, Represents};
use crate::entry::{Entry, MAX_ELEMENT_SIZE, value_offset, whole_size};
use crate::errors::WriteError;
use crate::width::Width;
use crate::writer::Writer;
use std::alloc::Global;

/// The resolver of an entry.
#[derive(Drop)]
#[must_use]
pub struct EntryResolver<K, V> {
    /// The resolver of the key.
    pub key: K,
    /// The resolver of the value.
    pub value: V,
}

#[inline]
fn resolve_padded<W: Width, V: Archive<W>>(
    value: &V,
    resolver: V::Resolver,
    pos: u64,
    out: &mut [u8],
) -> ResolveResult
    requires room { V.Archived.spec.size ≤ length out.old }
    requires fits { pos + V.Archived.spec.size < 2 ^ 64 }
    ensures { MatchResult result
        (λ _. Padded (length out.old) (V.format.image value.now resolver pos) out.new)
        (λ _. V.format.overflow value.now resolver pos) }
{
    let size = <V::Archived as Element>::size();
    value.resolve(resolver, pos, &mut out[..size])?;
    out[size..].fill(0);
    Ok(())
}

#[inline]
pub(crate) fn resolve_entry<W: Width, A: Archive<W>, B: Archive<W>>(
    key: &A,
    value: &B,
    resolver: EntryResolver<A::Resolver, B::Resolver>,
    pos: u64,
    out: &mut [u8],
) -> ResolveResult
    requires room { length out.old ≡ (entry_spec A.Archived.spec B.Archived.spec).size }
    requires fits { pos + (entry_spec A.Archived.spec B.Archived.spec).size < 2 ^ 64 }
    ensures { let f = pair_format A.Archived.spec B.Archived.spec A.format B.format in
        MatchResult result
        (λ _. f.image (key.now, value.now) resolver pos out.new)
        (λ _. f.overflow (key.now, value.now) resolver pos) }
{
    if whole_size::<A::Archived, B::Archived>() > MAX_ELEMENT_SIZE {
        return Ok(());
    }
    let offset = value_offset::<A::Archived, B::Archived>();
    let (front, back) = out.split_at_mut(offset);
    resolve_padded::<W, A>(key, resolver.key, pos, front)?;
    resolve_padded::<W, B>(value, resolver.value, pos + offset as u64, back)
}

#[inline]
pub(crate) fn serialize_entry<S: Writer, W: Width, A: Serialize<S, W>, B: Serialize<S, W>>(
    key: &A,
    value: &B,
    alloc: Global,
    serializer: &mut S,
) -> WriteResult<EntryResolver<A::Resolver, B::Resolver>, S>
    ensures { let f = pair_format A.Archived.spec B.Archived.spec A.format B.format in
        Serializes W.LIMIT f (key.now, value.now)
        (S.output serializer.old) (S.output serializer.new) result }
{
    if whole_size::<A::Archived, B::Archived>() > MAX_ELEMENT_SIZE {
        return Err(WriteError::Refused(0));
    }
    let key = key.serialize(alloc, serializer)?;
    let value = value.serialize(alloc, serializer)?;
    Ok(EntryResolver { key, value })
}

impl<A, B, K: Represents<A>, V: Represents<B>> Represents<(A, B)> for Entry<K, V> {
    ghost represents = { PairRepresents K.spec V.spec K.represents V.represents };

    ghost local = { pair_local K.spec V.spec K.laws V.laws K.represents
        V.represents K.local V.local };
}

impl<W: Width, A: Archive<W>, B: Archive<W>> Archive<W> for (A, B) {
    type Archived = Entry<A::Archived, B::Archived>;

    type Resolver = EntryResolver<A::Resolver, B::Resolver>;

    ghost format = { pair_format A.Archived.spec B.Archived.spec A.format B.format };

    #[inline]
    fn resolve(&self, resolver: Self::Resolver, pos: u64, out: &mut [u8]) -> ResolveResult {
        resolve_entry::<W, _, _>(&self.0, &self.1, resolver, pos, out)
    }

    ghost laws = { pair_is_format A.Archived.spec B.Archived.spec A.Archived.laws B.Archived.laws
        A.Archived.represents B.Archived.represents A.format B.format A.laws B.laws };
}

impl<S: Writer, W: Width, A: Serialize<S, W>, B: Serialize<S, W>> Serialize<S, W> for (A, B) {
    #[inline]
    fn serialize(&self, alloc: Global, serializer: &mut S) -> WriteResult<Self::Resolver, S> {
        serialize_entry::<_, W, _, _>(&self.0, &self.1, alloc, serializer)
    }
}
