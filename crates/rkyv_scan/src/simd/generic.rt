//! The group of eight control bytes in one word. It is the kind at the crate's root.
//!
//! The first control byte is in the lowest bits. The marks of a mask are the high bits
//! of the word's bytes. `match_byte` may also mark a byte right after a marked one.
ghost use Rattle.std.specs.Prelude.{◌≡◌, ℕ, ◌*◌, bit_and};
ghost use Rattle.std.specs.Iterator.{YieldsFirst, item_count};
ghost use Rattle.std.specs.Int.{to_le_bytes, w64};
ghost use Rattle.std.proofs.Common.{refl};

use crate::simd::{GroupKind, Marks};
use std::num::NonZeroU64;
use std::simd::prelude::*;

/// The word of a group. The first byte is in the lowest bits.
pub type Word = u64;

/// A word that is not zero.
pub type NonZeroWord = NonZeroU64;

/// A mask whose marks are the high bits of a word's bytes.
#[derive(Clone, Copy)]
pub struct Bitmask {
    bits: Word,
    ghost high_bits: { bit_and bits 0x8080_8080_8080_8080 ≡ bits },
}

impl Bitmask {
    /// The mask that marks no index.
    pub const EMPTY: Self = Bitmask { bits: 0 };
}

impl Marks for Bitmask {
    ghost use Rattle.rkyv_scan.specs.{mask_indices, mask_word};
    ghost use Rattle.rkyv_scan.specs.Lemmas.Ascending.{mask_ascends};

    ghost indices = { λ m. mask_indices 8 7 8 (mask_word m) };

    ghost ascend = { λ m. mask_ascends 8 7 8 (mask_word m) };

    ghost ready = { λ _. tt };

    ghost yields = { λ _ _ _ h. h };

    ghost ends = { λ _. refl };

    #[inline]
    fn any_bit_set(self) -> bool {
        self.bits != 0
    }

    #[inline]
    fn remove_lowest_bit(self) -> Self {
        Bitmask {
            bits: self.bits & (self.bits - 1),
        }
    }

    #[inline]
    fn lowest_set_bit(self) -> Option<usize> {
        Some(NonZeroWord::new(self.bits)?.trailing_zeros() as usize / 8)
    }
}

impl Iterator for Bitmask {
    ghost use Rattle.rkyv_scan.specs.{mask_indices, mask_word};

    type Item = usize;

    ghost next_gives = { YieldsFirst (λ m. mask_indices 8 7 8 (mask_word m)) };

    ghost remaining = { item_count (λ m. mask_indices 8 7 8 (mask_word m)) };

    #[inline]
    fn next(&mut self) -> Option<usize> {
        let index = self.lowest_set_bit()?;
        *self = self.remove_lowest_bit();
        Some(index)
    }
}

/// A group of eight control bytes in one word.
///
/// `match_byte` may also mark a byte right after a marked one if it differs from the byte to match
/// only in the lowest bit, as in rkyv.
#[derive(Clone, Copy)]
pub struct Group {
    word: Word,
}

#[inline]
fn repeat(byte: u8) -> Word
    ensures { result ≡ byte * 0x0101_0101_0101_0101 }
{
    Word::from(byte) * 0x0101_0101_0101_0101
}

impl GroupKind for Group {
    ghost use Rattle.rkyv_scan.specs.{generic_kind, group_word};
    ghost use Rattle.rkyv_scan.specs.Lemmas.KindLaws.{word_lawful};

    type Mask = Bitmask;

    const WIDTH: usize = 8;

    ghost WIDTH = { 8 };

    ghost controls = { λ g. to_le_bytes w64 (group_word g) };

    ghost kind = { generic_kind };

    ghost width = { refl };

    ghost lawful = { word_lawful };

    #[inline]
    fn read(bytes: &[u8], pos: usize) -> Self {
        Group {
            word: Word::from_le_bytes(u8x8::from_slice(&bytes[pos..]).to_array()),
        }
    }

    #[inline]
    fn match_byte(self, byte: u8) -> Bitmask {
        let differences = self.word ^ repeat(byte);
        let bits = differences.wrapping_sub(repeat(1)) & !differences & repeat(0x80);
        Bitmask { bits }
    }

    #[inline]
    fn match_empty(self) -> Bitmask {
        Bitmask {
            bits: self.word & repeat(0x80),
        }
    }

    #[inline]
    fn match_full(self) -> Bitmask {
        Bitmask {
            bits: !self.word & repeat(0x80),
        }
    }
}
