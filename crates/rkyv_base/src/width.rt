//! The two widths of an archive.
//!
//! A `Width` has the limit of positions, the greatest capacity of a table, and the reading
//! and writing of counts and distances. `Narrow` has words of 32 bits, and `Wide` of 64.

ghost use Rattle.std.specs.Prelude.{FitsSigned, MatchOption, length, pos, ℕ, ◌*◌, ◌++◌, ◌+◌, ◌-ℤ◌};
ghost use Rattle.std.specs.Prelude.{◌-◌, ◌<◌, ◌^◌, ◌≡◌, ◌≤◌};
ghost use Rattle.std.specs.Int.{Width as IntWidth, byte_len, cast_unsigned, to_le_bytes, w32, w64};
ghost use mir.Val.{bits};
ghost use Rattle.rkyv_base.specs.{IsArchiveWord, IsLayout, narrow_limit, number_at, signed_at};
ghost use Rattle.rkyv_base.specs.Lemmas.Layout.{narrow_layout};
ghost use Rattle.rkyv_base.specs.Lemmas.Layout.{wide_layout};
ghost use Rattle.std.proofs.Common.{inl, inr, refl};

use crate::scalars::Scalar;

/// The word of an archive: the bytes of one count or one distance.
pub trait Word {
    // The width of the word.
    ghost word: { IntWidth };

    ghost kind: { IsArchiveWord word };
}

/// The width of the positions and counts of an archive, and the sizes that depend on it.
pub trait Width: Word {
    /// The integer that stores an index in an index map: `u32` or `u64`.
    type Place;

    /// The greatest position, and the greatest length of an archive, in bytes.
    const LIMIT: u64;

    ghost LIMIT: { ℕ };

    /// The size of a word in bytes, and the alignment of headers and text.
    const ALIGN: usize;

    ghost ALIGN: { ℕ };

    /// The greatest capacity of a table that is written, in buckets.
    const MAX_CAPACITY: u64;

    ghost MAX_CAPACITY: { ℕ };

    /// The size of a table's header in bytes.
    const TABLE_SIZE: usize;

    ghost TABLE_SIZE: { ℕ };

    /// The size of an index map's header in bytes.
    const INDEX_SIZE: usize;

    ghost INDEX_SIZE: { ℕ };

    /// The number of fixed bytes of a text, and the greatest length of an inline text.
    const TEXT_SIZE: usize;

    ghost TEXT_SIZE: { ℕ };

    /// The least length in bytes of a text that cannot be written.
    const TEXT_LIMIT: u64;

    ghost TEXT_LIMIT: { ℕ };

    /// Returns the count at position `at`.
    fn read_count(bytes: &[u8], at: usize) -> u64
        requires { at + byte_len Self.word ≤ length bytes.now }
        ensures { result ≡ number_at Self.word bytes.now at };

    /// Writes a count over the whole of `out`, which is one word.
    fn write_count(out: &mut [u8], count: u64)
        requires room { length out.old ≡ byte_len Self.word }
        requires fits { count < 2 ^ bits Self.word }
        ensures { out.new ≡ to_le_bytes Self.word count };

    /// Returns the distance at position `at`.
    fn read_distance(bytes: &[u8], at: usize) -> i64
        requires { at + byte_len Self.word ≤ length bytes.now }
        ensures { result ≡ signed_at Self.word bytes.now at };

    /// Writes a distance over the whole of `out`, which is one word.
    fn write_distance(out: &mut [u8], distance: i64)
        requires room { length out.old ≡ byte_len Self.word }
        requires fits { FitsSigned Self.word distance }
        ensures { out.new ≡ to_le_bytes Self.word (cast_unsigned Self.word distance) };

    /// Returns the distance from `from` to `target`, or `None` if it doesn't fit in a signed word.
    fn distance(target: u64, from: u64) -> Option<i64>
        ensures { MatchOption result (FitsSigned Self.word (pos target -ℤ pos from) → ⊥)
            (λ d. (d ≡ pos target -ℤ pos from) × FitsSigned Self.word d) };

    ghost layout: { IsLayout Self.word LIMIT MAX_CAPACITY TABLE_SIZE INDEX_SIZE ALIGN TEXT_SIZE
        TEXT_LIMIT };
}

/// The width of archives of up to 4,294,967,295 bytes. Positions and counts have 32 bits.
#[derive(Clone, Copy, Debug)]
pub struct Narrow;

/// The width of archives of up to 2^63 - 1 bytes. Positions and counts have 64 bits.
#[derive(Clone, Copy, Debug)]
pub struct Wide;

impl Word for Narrow {
    ghost word = { w32 };

    ghost kind = { inl refl };
}

impl Word for Wide {
    ghost word = { w64 };

    ghost kind = { inr refl };
}

impl Width for Narrow {
    type Place = u32;

    ghost LIMIT = { narrow_limit };

    ghost ALIGN = { 4 };

    ghost MAX_CAPACITY = { 4294967295 };

    ghost TABLE_SIZE = { 12 };

    ghost INDEX_SIZE = { 16 };

    ghost TEXT_SIZE = { 8 };

    ghost TEXT_LIMIT = { 1073741824 };

    const LIMIT: u64 = 4_294_967_295;

    const ALIGN: usize = 4;

    const MAX_CAPACITY: u64 = 4_294_967_295;

    const TABLE_SIZE: usize = 12;

    const INDEX_SIZE: usize = 16;

    const TEXT_SIZE: usize = 8;

    const TEXT_LIMIT: u64 = 1_073_741_824;

    fn read_count(bytes: &[u8], at: usize) -> u64 {
        u64::from(u32::read(&bytes[at..at + 4]))
    }

    fn write_count(out: &mut [u8], count: u64) {
        (count as u32).write(out);
    }

    fn read_distance(bytes: &[u8], at: usize) -> i64 {
        i64::from(i32::read(&bytes[at..at + 4]))
    }

    fn write_distance(out: &mut [u8], distance: i64) {
        (distance as i32).write(out);
    }

    fn distance(target: u64, from: u64) -> Option<i64> {
        let distance = i32::try_from(i128::from(target) - i128::from(from)).ok()?;
        Some(i64::from(distance))
    }

    ghost layout = { narrow_layout };
}

impl Width for Wide {
    type Place = u64;

    ghost LIMIT = { 9223372036854775807 };

    ghost ALIGN = { 8 };

    ghost MAX_CAPACITY = { 4611686018427387904 };

    ghost TABLE_SIZE = { 24 };

    ghost INDEX_SIZE = { 32 };

    ghost TEXT_SIZE = { 16 };

    ghost TEXT_LIMIT = { 4611686018427387904 };

    const LIMIT: u64 = 9_223_372_036_854_775_807;

    const ALIGN: usize = 8;

    const MAX_CAPACITY: u64 = 4_611_686_018_427_387_904;

    const TABLE_SIZE: usize = 24;

    const INDEX_SIZE: usize = 32;

    const TEXT_SIZE: usize = 16;

    const TEXT_LIMIT: u64 = 4_611_686_018_427_387_904;

    fn read_count(bytes: &[u8], at: usize) -> u64 {
        u64::read(&bytes[at..at + 8])
    }

    fn write_count(out: &mut [u8], count: u64) {
        count.write(out);
    }

    fn read_distance(bytes: &[u8], at: usize) -> i64 {
        i64::read(&bytes[at..at + 8])
    }

    fn write_distance(out: &mut [u8], distance: i64) {
        distance.write(out);
    }

    fn distance(target: u64, from: u64) -> Option<i64> {
        i64::try_from(i128::from(target) - i128::from(from)).ok()
    }

    ghost layout = { wide_layout };
}
