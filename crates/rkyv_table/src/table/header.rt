//! Reading the header of a table, and the positions that it leads to.
//!
//! A header has three words: the distance to the control bytes, the length and the capacity.
ghost use Rattle.std.specs.Prelude.{length, pos as int, slice_range, unsigned_abs, ℕ, ◌*◌, ◌+ℤ◌};
ghost use Rattle.std.specs.Prelude.{◌+◌, ◌-ℤ◌, ◌<◌, ◌^◌, ◌≡◌, ◌≤◌};
ghost use Rattle.std.specs.Int.{byte_len};
ghost use Rattle.rkyv_base.specs.{signed_at};
ghost use Rattle.rkyv_table.specs.{bucket_at, cap_at, control_count, len_at, part_size};

use crate::controls::numbers::control_count;
use rkyv_base::{Width, distance_target};

/// The three words of a header.
#[derive(Clone, Copy)]
pub(crate) struct Header {
    /// The distance from the header's own position to the first control byte.
    pub(crate) distance: i64,
    pub(crate) len: u64,
    pub(crate) cap: u64,
}

#[inline]
pub(crate) fn read_header<W: Width>(bytes: &[u8], pos: u64) -> Header
    requires { pos + 3 * byte_len W.word ≤ length bytes.now }
    ensures distance { result.distance ≡ signed_at W.word bytes.now pos }
    ensures len { result.len ≡ len_at W.word bytes.now pos }
    ensures cap { result.cap ≡ cap_at W.word bytes.now pos }
{
    let at = pos as usize;
    Header {
        distance: W::read_distance(bytes, at),
        len: W::read_count(bytes, at + W::ALIGN),
        cap: W::read_count(bytes, at + 2 * W::ALIGN),
    }
}

#[inline]
fn buckets_size(cap: u64, size: usize) -> u128
    requires { size ≤ 1073741824 }
    ensures value { result ≡ cap * size }
    ensures bound { result < 2 ^ 95 }
{
    u128::from(cap) * size as u128
}

#[inline]
pub(crate) fn part_size(cap: u64, size: usize) -> u128
    requires { size ≤ 1073741824 }
    ensures { result ≡ part_size size cap }
{
    buckets_size(cap, size) + (u128::from(cap) + 15) / 16 * 16 + 15
}

/// Returns the position at which the buckets begin. It may be negative or beyond the archive.
#[inline]
pub(crate) fn decode_begin(pos: u64, header: Header, size: usize) -> i128
    requires { size ≤ 1073741824 }
    ensures { result ≡ (int pos +ℤ header.distance) -ℤ int (header.cap * size) }
{
    distance_target(pos, header.distance) - buckets_size(header.cap, size) as i128
}

#[inline]
pub(crate) fn bucket_position(begin: u64, cap: usize, bucket: usize, size: usize) -> u64
    requires inside { bucket < cap }
    requires fits { begin + cap * size < 2 ^ 64 }
    ensures { result ≡ bucket_at size begin cap bucket }
{
    begin + ((cap - (bucket + 1)) * size) as u64
}

#[inline]
pub(crate) fn controls_pos(pos: u64, header: Header) -> usize
    requires { (at : ℕ) × (int at ≡ int pos +ℤ header.distance) × (at < 2 ^ 64) }
    ensures { result ≡ unsigned_abs (int pos +ℤ header.distance) }
{
    distance_target(pos, header.distance) as usize
}

#[inline]
pub(crate) fn controls_from(bytes: &[u8], at: usize, cap: usize) -> &[u8]
    requires { at + control_count cap ≤ length bytes.now }
    ensures { result.now ≡ slice_range bytes.now at (at + control_count cap) }
{
    &bytes[at..at + control_count(cap)]
}
