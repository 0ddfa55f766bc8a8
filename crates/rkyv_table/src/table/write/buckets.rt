//! Writing the buckets of a table, from the highest to bucket 0.
//!
//! An empty bucket is zeros. If all buckets fit within the limit, several small ones are one
//! piece. Otherwise each bucket is one piece.

ghost use Rattle.std.specs.Prelude.{◌≡◌, ◌+◌, ◌*◌, ◌<◌, ◌≤◌, ◌^◌, IfSome, drop, length, take};
ghost use Rattle.rkyv_base.specs.{end_of};
ghost use Rattle.rkyv_table.specs.{FillsBucket, WritesBuckets, bucket_with, filled, item_format};
ghost use Rattle.rkyv_table.specs.{slots_with};

use crate::table::write::chunks::{CHUNK, append_filled, fit_in_chunks, make_room};
use rkyv_base::{
    Archive, Element, Lend, ResolveResult, Width, WriteError, WriteResult, Writer, append_in,
};

#[inline]
fn fill_bucket<W: Width, U: Archive<W>, X: Lend<U>>(
    slot: &Option<X>,
    rest: &mut Vec<U::Resolver>,
    pos: u64,
    bucket: &mut [u8],
) -> ResolveResult
    requires some { IfSome slot.now (λ _. 0 < length rest.old.items) }
    requires room { length bucket.old ≡ U.Archived.spec.size }
    requires fits { pos + U.Archived.spec.size < 2 ^ 64 }
    ensures kept { length bucket.new ≡ U.Archived.spec.size }
    ensures writes { FillsBucket (item_format U.Archived.spec X.lent U.format) slot.now
        rest.old.items rest.new.items (bucket_with pos bucket.new) result }
{
    match slot {
        Some(item) => {
            let resolver = rest.pop().unwrap();
            item.lend().resolve(resolver, pos, bucket)
        }
        None => {
            bucket.fill(0);
            Ok(())
        }
    }
}

#[inline]
fn write_by<W: Width, S: Writer, U: Archive<W>, X: Lend<U>>(
    slots: &[Option<X>],
    resolvers: Vec<U::Resolver>,
    bucket: &mut [u8],
    serializer: &mut S,
) -> WriteResult<(), S>
    requires count { length resolvers.items ≡ filled slots.now }
    requires room { length bucket.old ≡ U.Archived.spec.size }
    requires within { end_of (S.output serializer.old) ≤ W.LIMIT }
    ensures kept { length bucket.new ≡ U.Archived.spec.size }
    ensures writes { WritesBuckets W.LIMIT (item_format U.Archived.spec X.lent U.format)
        (slots_with slots.now resolvers.items)
        (S.output serializer.old) (S.output serializer.new) result }
{
    let mut rest = resolvers;
    let mut above = slots.len();
    while above > 0 {
        above -= 1;
        fill_bucket::<W, U, _>(&slots[above], &mut rest, serializer.pos(), bucket)?;
        append_in::<W, S>(serializer, bucket)?;
    }
    Ok(())
}

// Fills the bucket at an index of the chunk.
#[inline]
fn fill_at<W: Width, U: Archive<W>, X: Lend<U>>(
    slot: &Option<X>,
    rest: &mut Vec<U::Resolver>,
    pos: u64,
    chunk: &mut [u8],
    at: usize,
) -> ResolveResult
    requires some { IfSome slot.now (λ _. 0 < length rest.old.items) }
    requires room { at + U.Archived.spec.size ≤ length chunk.old }
    requires fits { pos + U.Archived.spec.size < 2 ^ 64 }
    ensures kept { length chunk.new ≡ length chunk.old }
    ensures front { take at chunk.new ≡ take at chunk.old }
    ensures writes { FillsBucket (item_format U.Archived.spec X.lent U.format) slot.now
        rest.old.items rest.new.items
        (bucket_with pos (take U.Archived.spec.size (drop at chunk.new))) result }
{
    let size = <U::Archived as Element>::size();
    fill_bucket::<W, U, _>(slot, rest, pos, &mut chunk[at..at + size])
}

// Writes buckets that fit within the limit, several as one piece.
#[inline]
fn write_chunks<W: Width, S: Writer, U: Archive<W>, X: Lend<U>>(
    slots: &[Option<X>],
    resolvers: Vec<U::Resolver>,
    chunk: &mut [u8],
    serializer: &mut S,
) -> WriteResult<(), S>
    requires count { length resolvers.items ≡ filled slots.now }
    requires room { U.Archived.spec.size ≤ length chunk.old }
    requires fits { end_of (S.output serializer.old) + length slots.now * U.Archived.spec.size
        ≤ W.LIMIT }
    ensures { WritesBuckets W.LIMIT (item_format U.Archived.spec X.lent U.format)
        (slots_with slots.now resolvers.items)
        (S.output serializer.old) (S.output serializer.new) result }
{
    let size = <U::Archived as Element>::size();
    let mut rest = resolvers;
    let mut above = slots.len();
    let mut end = 0;
    while above > 0 {
        above -= 1;
        let at = make_room::<W, S>(chunk, end, size, serializer)?;
        let pos = serializer.pos() + at as u64;
        match fill_at::<W, U, _>(&slots[above], &mut rest, pos, chunk, at) {
            Ok(()) => {}
            Err(error) => {
                append_filled::<W, S>(&chunk[..at], serializer)?;
                return Err(WriteError::from(error));
            }
        }
        end = at + size;
    }
    append_filled::<W, S>(&chunk[..end], serializer)
}

// `bucket` is the buffer of one bucket.
pub(crate) fn write_buckets<W: Width, S: Writer, U: Archive<W>, X: Lend<U>>(
    slots: &[Option<X>],
    resolvers: Vec<U::Resolver>,
    bucket: &mut [u8],
    serializer: &mut S,
) -> WriteResult<(), S>
    requires count { length resolvers.items ≡ filled slots.now }
    requires room { length bucket.old ≡ U.Archived.spec.size }
    requires within { end_of (S.output serializer.old) ≤ W.LIMIT }
    ensures kept { length bucket.new ≡ U.Archived.spec.size }
    ensures writes { WritesBuckets W.LIMIT (item_format U.Archived.spec X.lent U.format)
        (slots_with slots.now resolvers.items)
        (S.output serializer.old) (S.output serializer.new) result }
{
    let size = <U::Archived as Element>::size();
    if fit_in_chunks::<W>(slots.len(), size, serializer.pos()) {
        let mut chunk = [0u8; CHUNK];
        return write_chunks::<W, _, U, _>(slots, resolvers, &mut chunk, serializer);
    }
    write_by::<W, _, U, _>(slots, resolvers, bucket, serializer)
}
