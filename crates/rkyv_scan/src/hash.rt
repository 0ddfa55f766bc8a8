//! Hashers whose hashes are the same on every machine.
//!
//! The hash of a `KeyHasher` depends only on the list of its calls, so an archive can depend on it.
//! std's `Hasher` leaves open how a call changes the hash, and its hashes may differ between
//! machines.
//!
//! `FxHasher64` is the hasher of archived maps, and `FxHasher64Wide` its variant
//! for 64-bit `usize` words.
ghost use Rattle.std.specs.Prelude.{◌≡◌, ℕ, ◌+◌, ◌≤◌, ◌%◌, ◌^◌, length};
ghost use Rattle.std.specs.Int.{w16, w32, w64};
ghost use Rattle.rkyv_scan.specs.{Bytes, Hasher, I128, I16, I32, I64, I8, Isize, NumbersFit};
ghost use Rattle.rkyv_scan.specs.{U128, U16, U32, U64, U8, Usize, all_bits, byte_words};
ghost use Rattle.rkyv_scan.specs.{four_bytes, fx_hasher, hash_word, hash_words, last_byte};
ghost use Rattle.rkyv_scan.specs.{low_halves, number_from, rest_words, two_bytes};
ghost use Rattle.rkyv_scan.specs.Lemmas.Numbers.{fx_fits};

use std::marker::Model;
use std::simd::prelude::*;

/// A state machine that is fed calls and returns a hash.
///
/// The methods' docs describe the words that `FxHasher64` feeds; another hasher may differ.
pub trait KeyHasher: Default + Drop {
    // The initial state, the state after one call, and the result of `finish`.
    ghost hasher: { Hasher Self };

    /// Feeds the bytes without their length: two writes may hash as one write of both joined.
    ///
    /// Feeds the words of eight bytes first, each in little-endian order. The rest is then fed
    /// as at most one word of four bytes, one of two and one of one, in this order.
    fn write(&mut self, bytes: &[u8])
        ensures { self.new ≡ hasher.feed self.old (Bytes bytes.now) };

    /// Feeds the integer as one word.
    fn write_u8(&mut self, number: u8)
        ensures { self.new ≡ hasher.feed self.old (U8 number) };

    /// Feeds the integer as one word.
    fn write_u16(&mut self, number: u16)
        ensures { self.new ≡ hasher.feed self.old (U16 number) };

    /// Feeds the integer as one word.
    fn write_u32(&mut self, number: u32)
        ensures { self.new ≡ hasher.feed self.old (U32 number) };

    /// Feeds the integer as one word.
    fn write_u64(&mut self, number: u64)
        ensures { self.new ≡ hasher.feed self.old (U64 number) };

    /// Feeds two words: the low 64 bits, and then the high 64 bits.
    fn write_u128(&mut self, number: u128)
        ensures { self.new ≡ hasher.feed self.old (U128 number) };

    /// Feeds the low 32 bits on every machine. `FxHasher64Wide` feeds all 64.
    fn write_usize(&mut self, number: usize)
        ensures { self.new ≡ hasher.feed self.old (Usize number) };

    /// Feeds the same words as `write_u8` of the same bits.
    fn write_i8(&mut self, number: i8)
        ensures { self.new ≡ hasher.feed self.old (I8 number) };

    /// Feeds the same words as `write_u16` of the same bits.
    fn write_i16(&mut self, number: i16)
        ensures { self.new ≡ hasher.feed self.old (I16 number) };

    /// Feeds the same words as `write_u32` of the same bits.
    fn write_i32(&mut self, number: i32)
        ensures { self.new ≡ hasher.feed self.old (I32 number) };

    /// Feeds the same words as `write_u64` of the same bits.
    fn write_i64(&mut self, number: i64)
        ensures { self.new ≡ hasher.feed self.old (I64 number) };

    /// Feeds the same words as `write_u128` of the same bits.
    fn write_i128(&mut self, number: i128)
        ensures { self.new ≡ hasher.feed self.old (I128 number) };

    /// Feeds the low 32 bits, sign-extended to 64, on every machine. `FxHasher64Wide` feeds all 64.
    fn write_isize(&mut self, number: isize)
        ensures { self.new ≡ hasher.feed self.old (Isize number) };

    /// Returns the hash of all calls made on this hasher, which can then be fed further calls.
    fn finish(&self) -> u64
        ensures { result ≡ hasher.finish self.now };

    // A default hasher is in the initial state.
    ghost starts: { (s : Self) → Self.is_default s → s ≡ hasher.initial };

    // The hash of any list of calls of a new hasher is below 2^64.
    ghost fits: { NumbersFit hasher };
}

#[inline]
fn hash_word(state: u64, word: u64) -> u64
    ensures { result ≡ hash_word state word }
{
    const SEED: u64 = 0x517c_c1b7_2722_0a95;
    (state.rotate_left(5) ^ word).wrapping_mul(SEED)
}

#[inline]
fn read_u64(bytes: &[u8], at: usize) -> u64
    requires { at + 8 ≤ length bytes.now }
    ensures { result ≡ number_from w64 bytes.now at }
{
    u64::from_le_bytes(u8x8::from_slice(&bytes[at..]).to_array())
}

#[inline]
fn read_u32(bytes: &[u8], at: usize) -> u32
    requires { at + 4 ≤ length bytes.now }
    ensures { result ≡ number_from w32 bytes.now at }
{
    u32::from_le_bytes(u8x4::from_slice(&bytes[at..]).to_array())
}

#[inline]
fn read_u16(bytes: &[u8], at: usize) -> u16
    requires { at + 2 ≤ length bytes.now }
    ensures { result ≡ number_from w16 bytes.now at }
{
    u16::from_le_bytes(u8x2::from_slice(&bytes[at..]).to_array())
}

// Hashes the word even if it is not fed, as `hash_two_bytes` and `hash_last_byte` do, to avoid a
// branch on a bit of the length, which is hard to predict for keys of many lengths.
#[inline]
fn hash_four_bytes(state: u64, bytes: &[u8]) -> u64
    ensures { result ≡ hash_words state (four_bytes bytes.now) }
{
    let len = bytes.len();
    if len < 4 {
        return state;
    }
    let fed = hash_word(state, u64::from(read_u32(bytes, len / 4 * 4 - 4)));
    if len / 4 % 2 == 1 { fed } else { state }
}

#[inline]
fn hash_two_bytes(state: u64, bytes: &[u8]) -> u64
    ensures { result ≡ hash_words state (two_bytes bytes.now) }
{
    let len = bytes.len();
    if len < 2 {
        return state;
    }
    let fed = hash_word(state, u64::from(read_u16(bytes, len / 2 * 2 - 2)));
    if len / 2 % 2 == 1 { fed } else { state }
}

#[inline]
fn hash_last_byte(state: u64, bytes: &[u8]) -> u64
    ensures { result ≡ hash_words state (last_byte bytes.now) }
{
    let len = bytes.len();
    if len < 1 {
        return state;
    }
    let fed = hash_word(state, u64::from(bytes[len - 1]));
    if len % 2 == 1 { fed } else { state }
}

#[inline]
fn hash_rest(state: u64, bytes: &[u8]) -> u64
    ensures { result ≡ hash_words state (rest_words bytes.now) }
{
    let state = hash_four_bytes(state, bytes);
    let state = hash_two_bytes(state, bytes);
    hash_last_byte(state, bytes)
}

#[inline]
fn hash_bytes(state: u64, bytes: &[u8]) -> u64
    ensures { result ≡ hash_words state (byte_words bytes.now) }
{
    let mut state = state;
    for k in 0..bytes.len() / 8 {
        state = hash_word(state, read_u64(bytes, 8 * k));
    }
    hash_rest(state, bytes)
}

/// The hasher of archived maps. On every machine it takes the low 32 bits of a `usize` or `isize`.
///
/// It takes no secret key, so whoever chooses the keys can let them share a hash. A lookup among
/// such keys may read the whole table, and writing them takes quadratic time.
///
/// # Examples
///
/// ```rust
/// let mut hasher = FxHasher64::default();
/// hasher.write_u8(1);
/// assert_eq!(rt; hasher.finish(), 0x517c_c1b7_2722_0a95);
/// ```
#[derive(Drop)]
pub struct FxHasher64 {
    state: u64,
}

impl Model for FxHasher64 {
    ghost Value = { ℕ };

    ghost view = { λ s. s.state };
}

impl Default for FxHasher64 {
    ghost is_default = { λ s. s ≡ 0 };

    #[inline]
    fn default() -> Self {
        FxHasher64 { state: 0 }
    }
}

impl KeyHasher for FxHasher64 {
    ghost hasher = { fx_hasher low_halves };

    ghost starts = { λ s h. h };

    ghost fits = { fx_fits low_halves };

    #[inline]
    fn write(&mut self, bytes: &[u8]) {
        self.state = hash_bytes(self.state, bytes);
    }

    #[inline]
    fn write_u8(&mut self, number: u8) {
        self.state = hash_word(self.state, u64::from(number));
    }

    #[inline]
    fn write_u16(&mut self, number: u16) {
        self.state = hash_word(self.state, u64::from(number));
    }

    #[inline]
    fn write_u32(&mut self, number: u32) {
        self.state = hash_word(self.state, u64::from(number));
    }

    #[inline]
    fn write_u64(&mut self, number: u64) {
        self.state = hash_word(self.state, number);
    }

    #[inline]
    fn write_u128(&mut self, number: u128) {
        let low = (number & 0xffff_ffff_ffff_ffff) as u64;
        let high = (number >> 64) as u64;
        self.state = hash_word(hash_word(self.state, low), high);
    }

    #[inline]
    fn write_usize(&mut self, number: usize) {
        self.write_u64((number & 0xffff_ffff) as u64);
    }

    #[inline]
    fn write_i8(&mut self, number: i8) {
        self.write_u8(number.cast_unsigned());
    }

    #[inline]
    fn write_i16(&mut self, number: i16) {
        self.write_u16(number.cast_unsigned());
    }

    #[inline]
    fn write_i32(&mut self, number: i32) {
        self.write_u32(number.cast_unsigned());
    }

    #[inline]
    fn write_i64(&mut self, number: i64) {
        self.write_u64(number.cast_unsigned());
    }

    #[inline]
    fn write_i128(&mut self, number: i128) {
        self.write_u128(number.cast_unsigned());
    }

    #[inline]
    fn write_isize(&mut self, number: isize) {
        let low = (number.cast_unsigned() & 0xffff_ffff) as u32;
        self.write_i64(i64::from(low.cast_signed()));
    }

    #[inline]
    fn finish(&self) -> u64 {
        self.state
    }
}

/// The variant of `FxHasher64` that feeds a `usize` or an `isize` as one word of all its 64 bits.
#[derive(Drop)]
pub struct FxHasher64Wide {
    inner: FxHasher64,
}

impl Model for FxHasher64Wide {
    ghost Value = { ℕ };

    ghost view = { λ s. s.inner };
}

impl Default for FxHasher64Wide {
    ghost is_default = { λ s. s ≡ 0 };

    #[inline]
    fn default() -> Self {
        FxHasher64Wide {
            inner: FxHasher64::default(),
        }
    }
}

impl KeyHasher for FxHasher64Wide {
    ghost hasher = { fx_hasher all_bits };

    ghost starts = { λ s h. h };

    ghost fits = { fx_fits all_bits };

    #[inline]
    fn write(&mut self, bytes: &[u8]) {
        self.inner.write(bytes);
    }

    #[inline]
    fn write_u8(&mut self, number: u8) {
        self.inner.write_u8(number);
    }

    #[inline]
    fn write_u16(&mut self, number: u16) {
        self.inner.write_u16(number);
    }

    #[inline]
    fn write_u32(&mut self, number: u32) {
        self.inner.write_u32(number);
    }

    #[inline]
    fn write_u64(&mut self, number: u64) {
        self.inner.write_u64(number);
    }

    #[inline]
    fn write_u128(&mut self, number: u128) {
        self.inner.write_u128(number);
    }

    #[inline]
    fn write_usize(&mut self, number: usize) {
        self.inner.write_u64(number as u64);
    }

    #[inline]
    fn write_i8(&mut self, number: i8) {
        self.inner.write_i8(number);
    }

    #[inline]
    fn write_i16(&mut self, number: i16) {
        self.inner.write_i16(number);
    }

    #[inline]
    fn write_i32(&mut self, number: i32) {
        self.inner.write_i32(number);
    }

    #[inline]
    fn write_i64(&mut self, number: i64) {
        self.inner.write_i64(number);
    }

    #[inline]
    fn write_i128(&mut self, number: i128) {
        self.inner.write_i128(number);
    }

    #[inline]
    fn write_isize(&mut self, number: isize) {
        self.inner.write_u64(number.cast_unsigned() as u64);
    }

    #[inline]
    fn finish(&self) -> u64 {
        self.inner.finish()
    }
}
