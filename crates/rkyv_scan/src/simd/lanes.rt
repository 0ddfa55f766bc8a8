//! The group of sixteen control bytes in one vector.
//!
//! A match marks the equal bytes and no others. The mask has one bit for each index.
ghost use Rattle.std.specs.Prelude.{◌≡◌, ℕ, bit_xor, length};
ghost use Rattle.std.specs.Iterator.{YieldsFirst, item_count};
ghost use Rattle.std.proofs.Common.{arith, refl};

use crate::simd::{GroupKind, Marks};
use std::simd::prelude::*;

/// A mask with one bit for each of sixteen indices.
#[derive(Clone, Copy)]
pub struct Bitmask {
    bits: u16,
}

impl Bitmask {
    ghost use Rattle.rkyv_scan.specs.{mask_bits};

    /// The mask that marks no index.
    pub const EMPTY: Self = Bitmask { bits: 0 };

    #[inline]
    pub(crate) fn of_bits(bits: u16) -> Self
        ensures { mask_bits result ≡ bits }
    {
        Bitmask { bits }
    }

    #[inline]
    pub(crate) fn bits(self) -> u16
        ensures { result ≡ mask_bits self }
    {
        self.bits
    }
}

impl Marks for Bitmask {
    ghost use Rattle.rkyv_scan.specs.{mask_bits, mask_indices};
    ghost use Rattle.rkyv_scan.specs.Lemmas.Ascending.{mask_ascends};

    ghost indices = { λ m. mask_indices 1 0 16 (mask_bits m) };

    ghost ascend = { λ m. mask_ascends 1 0 16 (mask_bits m) };

    ghost ready = { λ _. tt };

    ghost yields = { λ _ _ _ h. h };

    ghost ends = { λ _. refl };

    #[inline]
    fn any_bit_set(self) -> bool {
        self.bits != 0
    }

    #[inline]
    fn remove_lowest_bit(self) -> Self {
        Bitmask {
            bits: self.bits & (self.bits - 1),
        }
    }

    #[inline]
    fn lowest_set_bit(self) -> Option<usize> {
        if self.bits == 0 {
            None
        } else {
            Some(self.bits.trailing_zeros() as usize)
        }
    }
}

impl Iterator for Bitmask {
    ghost use Rattle.rkyv_scan.specs.{mask_bits, mask_indices};

    type Item = usize;

    ghost next_gives = { YieldsFirst (λ m. mask_indices 1 0 16 (mask_bits m)) };

    ghost remaining = { item_count (λ m. mask_indices 1 0 16 (mask_bits m)) };

    #[inline]
    fn next(&mut self) -> Option<usize> {
        let index = self.lowest_set_bit()?;
        *self = self.remove_lowest_bit();
        Some(index)
    }
}

/// A group of sixteen control bytes, which marks the bytes that are equal and no others.
#[derive(Clone, Copy)]
pub struct Group {
    lanes: u8x16,
    ghost sixteen: { length lanes ≡ 16 },
}

impl Group {
    ghost use Rattle.rkyv_scan.specs.{MarksEqual};

    /// Returns the bits of the indices whose control byte is `byte`.
    #[inline]
    pub(crate) fn equal_bits(self, byte: u8) -> u16
        ensures { MarksEqual self.lanes byte result }
    {
        let byte_lanes = u8x16::splat(byte);
        self.lanes.simd_eq(byte_lanes).to_bitmask() as u16
    }

    /// Returns the bits of the indices whose control byte is `byte ^ 1`.
    ///
    /// It flips the bits of the group, so a loop over groups keeps no vector of that byte.
    #[inline]
    pub(crate) fn neighbour_bits(self, byte: u8) -> u16
        ensures { MarksEqual self.lanes (bit_xor byte 1) result }
    {
        let flipped = self.lanes ^ u8x16::splat(1);
        flipped.simd_eq(u8x16::splat(byte)).to_bitmask() as u16
    }
}

impl GroupKind for Group {
    ghost use Rattle.rkyv_scan.specs.{group_lanes, lanes_kind};
    ghost use Rattle.rkyv_scan.specs.Lemmas.KindLaws.{equal_lawful};

    type Mask = Bitmask;

    const WIDTH: usize = 16;

    ghost WIDTH = { 16 };

    ghost controls = { group_lanes };

    ghost kind = { lanes_kind };

    ghost width = { refl };

    ghost lawful = { equal_lawful 4 (omega arith) };

    #[inline]
    fn read(bytes: &[u8], pos: usize) -> Self {
        Group {
            lanes: u8x16::from_slice(&bytes[pos..]),
        }
    }

    #[inline]
    fn match_byte(self, byte: u8) -> Bitmask {
        Bitmask {
            bits: self.lanes.simd_eq(u8x16::splat(byte)).to_bitmask() as u16,
        }
    }

    #[inline]
    fn match_empty(self) -> Bitmask {
        Bitmask {
            bits: self.lanes.simd_ge(u8x16::splat(0x80)).to_bitmask() as u16,
        }
    }

    #[inline]
    fn match_full(self) -> Bitmask {
        Bitmask {
            bits: self.lanes.simd_lt(u8x16::splat(0x80)).to_bitmask() as u16,
        }
    }
}
