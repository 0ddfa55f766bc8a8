//! Chunks: buffers from which several small values are appended as one piece.
//!
//! All values fit within the limit of the width, so appending a chunk only fails if the writer
//! does. The bytes that it appended are then a front of the values, each appended as one piece.

ghost use Rattle.std.specs.Prelude.{◌≤◌, IsTrue, length};
ghost use Rattle.rkyv_table.specs.{AppendsFilled, FitInChunks, MakesRoom};

use rkyv_base::{Width, WriteResult, Writer, append_in};

/// The length of a chunk in bytes.
pub const CHUNK: usize = 1024;

// The size of the greatest values of which several are one piece.
const SMALL: usize = 64;

/// Returns `true` only if values of a table or a row may be appended by chunks.
///
/// Each value has `size` bytes and fits in a chunk, and `count` of them fit from `pos` on within
/// the limit of the width. A value of no bytes is a piece of its own.
#[inline]
pub fn fit_in_chunks<W: Width>(count: usize, size: usize, pos: u64) -> bool
    ensures { IsTrue result → FitInChunks W.LIMIT count size pos }
{
    0 < size
        && size <= SMALL
        && u128::from(pos) + count as u128 * size as u128 <= u128::from(W::LIMIT)
}

/// Appends the values of a chunk as one piece, if there are some.
#[inline]
pub fn append_filled<W: Width, S: Writer>(filled: &[u8], serializer: &mut S) -> WriteResult<(), S>
    ensures { AppendsFilled W.LIMIT filled.now
        (S.output serializer.old) (S.output serializer.new) result }
{
    if filled.is_empty() {
        return Ok(());
    }
    append_in::<W, S>(serializer, filled)
}

/// Appends the first `end` bytes of a chunk if there is no room after them for `size` bytes.
///
/// Returns the index of these bytes: `end`, or 0 if the chunk was appended.
#[inline]
pub fn make_room<W: Width, S: Writer>(
    chunk: &[u8],
    end: usize,
    size: usize,
    serializer: &mut S,
) -> WriteResult<usize, S>
    requires room { size ≤ length chunk.now }
    requires inside { end ≤ length chunk.now }
    ensures { MakesRoom W.LIMIT size end chunk.now
        (S.output serializer.old) (S.output serializer.new) result }
{
    if end <= chunk.len() - size {
        return Ok(end);
    }
    append_in::<W, S>(serializer, &chunk[..end])?;
    Ok(0)
}
