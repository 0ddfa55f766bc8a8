//! The search for the first byte of a kind, eight bytes at a time.

ghost use Rattle.std.specs.Prelude.{Bool, IsTrue, length, map, nat_le, position, take, ℕ, ◌==◌};
ghost use Rattle.std.specs.Prelude.{◌≡◌, ◌≤◌};
ghost use Rattle.std.specs.Simd.Lanes.{mask_l};
ghost use Rattle.std.specs.Str.{IsAscii};

use std::simd::prelude::*;

pub(crate) trait ByteClass {
    // The test for a byte of the kind.
    ghost in_class: { ℕ → Bool };

    fn contains(byte: u8) -> bool
        ensures { result ≡ in_class byte };

    fn mask(eight: u8x8) -> u64
        ensures { result ≡ mask_l (map in_class eight) };
}

/// The byte ff, which is in no text.
pub(crate) struct PadByte;

impl ByteClass for PadByte {
    ghost in_class = { λ x. x == 255 };

    #[inline]
    fn contains(byte: u8) -> bool {
        byte == 255
    }

    #[inline]
    fn mask(eight: u8x8) -> u64 {
        eight.simd_eq(u8x8::splat(255)).to_bitmask()
    }
}

pub(crate) struct NonAscii;

impl ByteClass for NonAscii {
    ghost in_class = { λ x. nat_le 128 x };

    #[inline]
    fn contains(byte: u8) -> bool {
        128 <= byte
    }

    #[inline]
    fn mask(eight: u8x8) -> u64 {
        eight.simd_ge(u8x8::splat(128)).to_bitmask()
    }
}

#[inline]
fn first_of_eight<S: ByteClass>(bytes: &[u8]) -> Option<usize>
    requires { 8 ≤ length bytes.now }
    ensures { result ≡ position S.in_class (take 8 bytes.now) }
{
    let marks = S::mask(u8x8::from_slice(bytes));
    if marks == 0 {
        None
    } else {
        Some(marks.trailing_zeros() as usize)
    }
}

#[inline]
fn first_of_bytes<S: ByteClass>(bytes: &[u8]) -> Option<usize>
    ensures { result ≡ position S.in_class bytes.now }
{
    bytes.iter().position(|byte| S::contains(*byte))
}

#[inline]
pub(crate) fn first<S: ByteClass>(bytes: &[u8]) -> Option<usize>
    ensures { result ≡ position S.in_class bytes.now }
{
    let mut at = 0;
    while 8 <= bytes.len() - at {
        if let Some(len) = first_of_eight::<S>(&bytes[at..]) {
            return Some(at + len);
        }
        at += 8;
    }
    Some(at + first_of_bytes::<S>(&bytes[at..])?)
}

/// Tests eight bytes at a time. The last eight may overlap the ones before.
#[inline]
pub(crate) fn is_ascii(bytes: &[u8]) -> bool
    requires { 8 ≤ length bytes.now }
    ensures { IsTrue result → IsAscii bytes.now }
{
    let mut at = 0;
    while 8 < bytes.len() - at {
        if first_of_eight::<NonAscii>(&bytes[at..]).is_some() {
            return false;
        }
        at += 8;
    }
    first_of_eight::<NonAscii>(&bytes[bytes.len() - 8..]).is_none()
}
