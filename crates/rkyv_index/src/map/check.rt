//! Validating an index map in untrusted bytes.
//!
//! 1. The table of indices is valid.
//! 2. Each index in the table is below the length.
//! 3. The entries are in the range, and aligned.
//! 4. Each entry is valid, in order.
ghost use Rattle.std.specs.Prelude.{IfErr, IfOk, MatchResult, length, ◌%◌, ◌*◌};
ghost use Rattle.std.specs.Prelude.{true, ◌+◌, ◌-◌, ◌<◌, ◌≡◌, ◌≤◌};
ghost use Rattle.std.specs.Int.{byte_len};
ghost use Rattle.rkyv_base.specs.{Viewable};
ghost use Rattle.rkyv_table.specs.{AreValid, FirstFails, decoded_cap, decoded_controls_pos};
ghost use Rattle.rkyv_table.specs.{item_positions, len_at, table_spec};
ghost use Rattle.rkyv_index.specs.{AreBelow, EntriesFail, EntriesIn, FirstNotBelow, IndicesBelow};
ghost use Rattle.rkyv_index.specs.{decode_entries, entry_at, indices_of, stored_index_spec};

use crate::width::IndexWidth;
use rkyv_base::{Element, PartRange, VerifyError, View, Width, distance_target, part_in};
use rkyv_table::ArchivedHashTable;
use rkyv_table::table::decoded::Decoded;

/// Returns the position of the last bucket, at which the buckets begin, or 0 without buckets.
#[inline]
fn buckets_begin<W: Width>(header: Decoded) -> usize
    requires { 0 < decoded_cap header
        → decoded_cap header * byte_len W.word ≤ decoded_controls_pos header }
    ensures none { decoded_cap header ≡ 0 → result ≡ 0 }
    ensures some { 0 < decoded_cap header
        → result ≡ decoded_controls_pos header - decoded_cap header * byte_len W.word }
{
    if header.capacity() == 0 {
        return 0;
    }
    header.controls_pos() - header.capacity() * W::ALIGN
}

#[inline]
fn and_below(below: bool, index: u64, len: usize) -> bool
    ensures { result ≡ true → (below ≡ true) × (index < len) }
{
    below & (index < len as u64)
}

/// Returns `true` only if the `count` indices from `begin` on are below `len`, without branches.
fn all_below<W: Width>(bytes: &[u8], begin: usize, count: usize, len: usize) -> bool
    requires { begin + count * byte_len W.word ≤ length bytes.now }
    ensures { result ≡ true → AreBelow W.word bytes.now begin count len }
{
    let mut below = true;
    for i in 0..count {
        below = and_below(below, W::read_count(bytes, begin + i * W::ALIGN), len);
    }
    below
}

/// Checks that each index in the table at `pos` is below the length, and returns the length.
///
/// The indices of all buckets are checked in bulk. If one fails, which may be in an empty bucket,
/// the full buckets are checked in order. The first invalid index is a `PlaceOutOfRange`.
pub(crate) fn check_indices<W: IndexWidth>(bytes: &[u8], pos: u64) -> Result<usize, VerifyError>
    requires { Viewable (table_spec W.word (stored_index_spec W.word)) bytes.now pos }
    ensures below { IfOk result (λ _. IndicesBelow W.word bytes.now (len_at W.word bytes.now pos)
        (item_positions W.word (byte_len W.word) bytes.now pos)) }
    ensures len { IfOk result (λ n. n ≡ len_at W.word bytes.now pos) }
    ensures fails { IfErr result (FirstNotBelow W.word bytes.now (len_at W.word bytes.now pos)
        (item_positions W.word (byte_len W.word) bytes.now pos)) }
{
    let table = ArchivedHashTable::<W::Index, W>::of(View::new(bytes, pos));
    let len = table.len();
    let header = table.header();
    if all_below::<W>(bytes, buckets_begin::<W>(header), header.capacity(), len) {
        return Ok(len);
    }
    for at in table.raw_iter() {
        let index = W::read_count(bytes, at as usize) as usize;
        if index >= len {
            return Err(VerifyError::PlaceOutOfRange { place: index, len });
        }
    }
    Ok(len)
}

/// Validates `len` entries from `begin` on, in order, with their parts from `lo` to `begin`.
fn check_entries<T: Element>(
    bytes: &[u8],
    begin: u64,
    len: usize,
    lo: u64,
) -> Result<(), VerifyError>
    requires inside { begin + len * T.spec.size ≤ length bytes.now }
    requires aligned { begin % T.spec.align ≡ 0 }
    requires ordered { lo ≤ begin }
    ensures valid { IfOk result (λ _. AreValid T.spec (entry_at T.spec.size begin) bytes.now begin
        (indices_of len) lo) }
    ensures fails { IfErr result (FirstFails T.spec (entry_at T.spec.size begin) bytes.now begin
        (indices_of len) lo) }
{
    let mut low = lo;
    for i in 0..len {
        let at = begin + (i * T::size()) as u64;
        let rest = T::check(bytes, at, PartRange { lo: low, hi: begin })?;
        low = rest.lo;
    }
    Ok(())
}

/// Returns the position at which the entries begin, by the distance in the header at `pos`.
#[inline]
pub(crate) fn decode_entries<W: Width>(bytes: &[u8], pos: u64) -> i128
    requires inside { pos + 4 * byte_len W.word ≤ length bytes.now }
    ensures decoded { result ≡ decode_entries W.word bytes.now pos }
{
    let at = pos + 3 * W::ALIGN as u64;
    distance_target(at, W::read_distance(bytes, at as usize))
}

#[inline]
fn entries_size(len: usize, size: usize) -> u128
    requires { size ≤ 1073741824 }
    ensures { result ≡ len * size }
{
    len as u128 * size as u128
}

/// Validates the contiguous entries of the index map at `pos`, in order, and returns their end.
///
/// Fails with `OutOfRange`, `Unaligned`, or the first error of the first invalid entry.
pub(crate) fn check_part<W: Width, T: Element>(
    bytes: &[u8],
    pos: u64,
    len: usize,
    range: PartRange,
) -> Result<u64, VerifyError>
    requires header { pos + 4 * byte_len W.word ≤ length bytes.now }
    requires before { range.hi ≤ pos }
    ensures { MatchResult result
        (EntriesIn T.spec bytes.now (decode_entries W.word bytes.now pos) len range.lo range.hi)
        (EntriesFail T.spec bytes.now (decode_entries W.word bytes.now pos) len range.lo range.hi) }
{
    let size = T::size();
    let decoded = decode_entries::<W>(bytes, pos);
    let begin = part_in(decoded, entries_size(len, size), T::align() as u64, range)?;
    check_entries::<T>(bytes, begin, len, range.lo)?;
    Ok(begin + (len * size) as u64)
}
