//! The group of eight control bytes that compares each byte by itself.
//!
//! A match marks the equal bytes and no others. The mask has one flag for each index.
ghost use Rattle.std.specs.Prelude.{◌≡◌, ℕ, false};
ghost use Rattle.std.specs.Iterator.{YieldsFirst, item_count};
ghost use Rattle.rkyv_scan.specs.{IsFirstFlag, bytewise_kind, flag_indices};
ghost use Rattle.rkyv_scan.specs.Lemmas.Ascending.{flags_ascend};
ghost use Rattle.rkyv_scan.specs.Lemmas.KindLaws.{equal_lawful};
ghost use Rattle.std.proofs.Common.{arith, refl};

use crate::simd::{GroupKind, Marks};
use std::simd::prelude::*;

/// A mask with one flag for each of eight indices.
#[derive(Clone, Copy)]
pub struct Bitmask {
    marks: [bool; 8],
}

impl Bitmask {
    /// The mask that marks no index.
    pub const EMPTY: Self = Bitmask { marks: [false; 8] };
}

// Returns the index of the first mark, or 8 if there is none.
#[inline]
fn first(marks: &[bool; 8]) -> usize
    ensures { IsFirstFlag marks.now result }
{
    for index in 0..8 {
        if marks[index] {
            return index;
        }
    }
    8
}

impl Marks for Bitmask {
    ghost use Rattle.rkyv_scan.specs.{mask_flags};

    ghost indices = { λ m. flag_indices (mask_flags m) };

    ghost ascend = { λ m. flags_ascend (mask_flags m) };

    ghost ready = { λ _. tt };

    ghost yields = { λ _ _ _ h. h };

    ghost ends = { λ _. refl };

    #[inline]
    fn any_bit_set(self) -> bool {
        first(&self.marks) < 8
    }

    #[inline]
    fn remove_lowest_bit(self) -> Self {
        let index = first(&self.marks);
        let mut marks = self.marks;
        marks[index] = false;
        Bitmask { marks }
    }

    #[inline]
    fn lowest_set_bit(self) -> Option<usize> {
        let index = first(&self.marks);
        if index < 8 { Some(index) } else { None }
    }
}

impl Iterator for Bitmask {
    ghost use Rattle.rkyv_scan.specs.{mask_flags};

    type Item = usize;

    ghost next_gives = { YieldsFirst (λ m. flag_indices (mask_flags m)) };

    ghost remaining = { item_count (λ m. flag_indices (mask_flags m)) };

    #[inline]
    fn next(&mut self) -> Option<usize> {
        let index = self.lowest_set_bit()?;
        *self = self.remove_lowest_bit();
        Some(index)
    }
}

/// A group of eight control bytes, which marks the bytes that are equal and no others.
#[derive(Clone, Copy)]
pub struct Group {
    bytes: [u8; 8],
}

impl GroupKind for Group {
    ghost use Rattle.rkyv_scan.specs.{group_bytes};

    type Mask = Bitmask;

    const WIDTH: usize = 8;

    ghost WIDTH = { 8 };

    ghost controls = { group_bytes };

    ghost kind = { bytewise_kind };

    ghost width = { refl };

    ghost lawful = { equal_lawful 3 (omega arith) };

    #[inline]
    fn read(bytes: &[u8], pos: usize) -> Self {
        Group {
            bytes: u8x8::from_slice(&bytes[pos..]).to_array(),
        }
    }

    #[inline]
    fn match_byte(self, byte: u8) -> Bitmask {
        let mut marks = [false; 8];
        for index in 0..8 {
            marks[index] = self.bytes[index] == byte;
        }
        Bitmask { marks }
    }

    #[inline]
    fn match_empty(self) -> Bitmask {
        let mut marks = [false; 8];
        for index in 0..8 {
            marks[index] = self.bytes[index] >= 0x80;
        }
        Bitmask { marks }
    }

    #[inline]
    fn match_full(self) -> Bitmask {
        let mut marks = [false; 8];
        for index in 0..8 {
            marks[index] = self.bytes[index] < 0x80;
        }
        Bitmask { marks }
    }
}
