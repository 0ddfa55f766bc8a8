//! Writing contiguous values: first their parts, and then their own bytes.
//!
//! If the own bytes of all values fit within the limit, several small values' bytes are one
//! piece. Otherwise each value's bytes are one piece.

ghost use Rattle.std.specs.Prelude.{◌≡◌, ◌+◌, ◌*◌, ◌<◌, ◌≤◌, ◌^◌, [], MatchResult, drop, length};
ghost use Rattle.std.specs.Prelude.{take, vec_capacity};
ghost use Rattle.rkyv_base.specs.{end_of};
ghost use Rattle.rkyv_index.specs.{SerializesRow, WritesRow, row_of};

use crate::width::IndexWidth;
use rkyv_base::{
    Archive, Element, ResolveResult, Serialize, WriteError, WriteResult, Writer, append_in,
};
use rkyv_table::table::write::chunks::{CHUNK, append_filled, fit_in_chunks, make_room};
use std::alloc::Global;

// Serializes the values in order, and pushes the resolver of each.
pub(crate) fn serialize_row<W: IndexWidth, S: Writer, U: Serialize<S, W>>(
    alloc: Global,
    values: &[U],
    resolvers: &mut Vec<U::Resolver>,
    serializer: &mut S,
) -> WriteResult<(), S>
    requires empty { resolvers.old.items ≡ [] }
    requires room { length values.now ≤ vec_capacity resolvers.old }
    ensures { SerializesRow (row_of U.format W.LIMIT values.now) resolvers.new.items
        (S.output serializer.old) (S.output serializer.new) result }
{
    for value in values {
        let resolver = value.serialize(alloc, serializer)?;
        resolvers.push_reserved(resolver);
    }
    Ok(())
}

// Writes the own bytes of the values in order, each as one piece.
#[inline]
fn write_by<W: IndexWidth, S: Writer, U: Archive<W>>(
    values: &[U],
    resolvers: Vec<U::Resolver>,
    scratch: &mut [u8],
    serializer: &mut S,
) -> WriteResult<(), S>
    requires count { length resolvers.items ≡ length values.now }
    requires room { 0 < length values.now → length scratch.old ≡ U.Archived.spec.size }
    requires within { end_of (S.output serializer.old) ≤ W.LIMIT }
    ensures { WritesRow (row_of U.format W.LIMIT values.now) resolvers.items
        (S.output serializer.old) (S.output serializer.new) result }
{
    let mut rest = resolvers.into_iter();
    for value in values {
        let Some(resolver) = rest.next() else {
            unreachable!()
        };
        value.resolve(resolver, serializer.pos(), scratch)?;
        append_in::<W, S>(serializer, scratch)?;
    }
    Ok(())
}

// Writes the own bytes of a value at an index of the chunk.
#[inline]
fn resolve_at<W: IndexWidth, U: Archive<W>>(
    value: &U,
    resolver: U::Resolver,
    pos: u64,
    chunk: &mut [u8],
    at: usize,
) -> ResolveResult
    requires room { at + U.Archived.spec.size ≤ length chunk.old }
    requires fits { pos + U.Archived.spec.size < 2 ^ 64 }
    ensures kept { length chunk.new ≡ length chunk.old }
    ensures front { take at chunk.new ≡ take at chunk.old }
    ensures writes { MatchResult result
        (λ _. U.format.image value.now resolver pos (take U.Archived.spec.size (drop at chunk.new)))
        (λ _. U.format.overflow value.now resolver pos) }
{
    let size = <U::Archived as Element>::size();
    value.resolve(resolver, pos, &mut chunk[at..at + size])
}

// Writes the own bytes of values that fit within the limit, several values' as one piece.
#[inline]
fn write_chunks<W: IndexWidth, S: Writer, U: Archive<W>>(
    values: &[U],
    resolvers: Vec<U::Resolver>,
    chunk: &mut [u8],
    serializer: &mut S,
) -> WriteResult<(), S>
    requires count { length resolvers.items ≡ length values.now }
    requires room { U.Archived.spec.size ≤ length chunk.old }
    requires fits { end_of (S.output serializer.old) + length values.now * U.Archived.spec.size
        ≤ W.LIMIT }
    ensures { WritesRow (row_of U.format W.LIMIT values.now) resolvers.items
        (S.output serializer.old) (S.output serializer.new) result }
{
    let size = <U::Archived as Element>::size();
    let mut rest = resolvers.into_iter();
    let mut end = 0;
    for value in values {
        let Some(resolver) = rest.next() else {
            unreachable!()
        };
        let at = make_room::<W, S>(chunk, end, size, serializer)?;
        let pos = serializer.pos() + at as u64;
        match resolve_at::<W, U>(value, resolver, pos, chunk, at) {
            Ok(()) => {}
            Err(error) => {
                append_filled::<W, S>(&chunk[..at], serializer)?;
                return Err(WriteError::from(error));
            }
        }
        end = at + size;
    }
    append_filled::<W, S>(&chunk[..end], serializer)
}

// Writes the own bytes of the values in order. `scratch` is the buffer of one value.
pub(crate) fn write_row<W: IndexWidth, S: Writer, U: Archive<W>>(
    values: &[U],
    resolvers: Vec<U::Resolver>,
    scratch: &mut [u8],
    serializer: &mut S,
) -> WriteResult<(), S>
    requires count { length resolvers.items ≡ length values.now }
    requires room { 0 < length values.now → length scratch.old ≡ U.Archived.spec.size }
    requires within { end_of (S.output serializer.old) ≤ W.LIMIT }
    ensures { WritesRow (row_of U.format W.LIMIT values.now) resolvers.items
        (S.output serializer.old) (S.output serializer.new) result }
{
    let size = <U::Archived as Element>::size();
    if fit_in_chunks::<W>(values.len(), size, serializer.pos()) {
        let mut chunk = [0u8; CHUNK];
        return write_chunks::<W, _, _>(values, resolvers, &mut chunk, serializer);
    }
    write_by::<W, _, _>(values, resolvers, scratch, serializer)
}
