//! The group of sixteen control bytes that marks each half as the group of eight marks it.
//!
//! It compares sixteen bytes at once. The lookups of `rkyv_table` use it.
ghost use Rattle.std.specs.Prelude.{◌≡◌, ℕ, ◌+◌, ◌*◌, ◌%◌, ◌<◌, ◌==◌};
ghost use Rattle.std.specs.Iterator.{YieldsFirst, item_count};
ghost use Rattle.rkyv_scan.specs.{bits_after, chain, mask_bits, mask_indices, paired_indices};
ghost use Rattle.rkyv_scan.specs.{paired_kind};
ghost use Rattle.rkyv_scan.specs.Lemmas.Paired.{paired_lawful};
ghost use Rattle.std.proofs.Common.{refl};

pub mod bitmask;

use crate::simd::paired::bitmask::Bitmask;
use crate::simd::{GroupKind, Marks, lanes};

/// A group of sixteen control bytes that marks each half as `generic::Group` does.
#[derive(Clone, Copy)]
pub struct Group {
    both: lanes::Group,
}

/// Moves each mark one index up, and drops the last mark of each half.
#[inline]
fn after(marks: u16) -> u16
    ensures { result ≡ bits_after marks }
{
    (marks << 1) & 0xfefe
}

/// Marks `equal`, and each index of `next` right above a marked one in the same half.
#[inline]
fn chained(equal: u16, next: u16) -> u16
    ensures { result ≡ chain equal next 7 }
{
    let mut marks = equal;
    for step in 0..7usize {
        marks = equal | (after(marks) & next);
    }
    marks
}

impl Bitmask {
    #[inline]
    fn whole(self) -> lanes::Bitmask
        ensures { mask_indices 1 0 16 (mask_bits result) ≡ paired_indices self }
    {
        if self.is_whole {
            return self.known;
        }
        let equal = self.known.bits();
        let next = self.both.neighbour_bits(self.byte);
        if after(equal) & next == 0 {
            return self.known;
        }
        lanes::Bitmask::of_bits(chained(equal, next))
    }
}

impl Marks for Bitmask {
    ghost use Rattle.rkyv_scan.specs.{paired_indices};
    ghost use Rattle.rkyv_scan.specs.Lemmas.PairedMask.{paired_ascends};

    ghost indices = { paired_indices };

    ghost ascend = { paired_ascends };

    ghost ready = { λ _. tt };

    ghost yields = { λ _ _ _ h. h };

    ghost ends = { λ _. refl };

    #[inline]
    fn any_bit_set(self) -> bool {
        self.known.any_bit_set()
    }

    #[inline]
    fn remove_lowest_bit(self) -> Self {
        Bitmask {
            known: self.whole().remove_lowest_bit(),
            both: self.both,
            byte: self.byte,
            is_whole: true,
        }
    }

    #[inline]
    fn lowest_set_bit(self) -> Option<usize> {
        self.known.lowest_set_bit()
    }
}

impl Iterator for Bitmask {
    ghost use Rattle.rkyv_scan.specs.{paired_indices};

    type Item = usize;

    ghost next_gives = { YieldsFirst paired_indices };

    ghost remaining = { item_count paired_indices };

    #[inline]
    fn next(&mut self) -> Option<usize> {
        let index = self.lowest_set_bit()?;
        *self = self.remove_lowest_bit();
        Some(index)
    }
}

impl GroupKind for Group {
    ghost use Rattle.rkyv_scan.specs.{paired_lanes};

    type Mask = Bitmask;

    const WIDTH: usize = 16;

    ghost WIDTH = { 16 };

    ghost controls = { paired_lanes };

    ghost kind = { paired_kind };

    ghost width = { refl };

    ghost lawful = { paired_lawful };

    #[inline]
    fn read(bytes: &[u8], pos: usize) -> Self {
        Group {
            both: lanes::Group::read(bytes, pos),
        }
    }

    #[inline]
    fn match_byte(self, byte: u8) -> Bitmask {
        Bitmask {
            known: lanes::Bitmask::of_bits(self.both.equal_bits(byte)),
            both: self.both,
            byte,
            is_whole: false,
        }
    }

    #[inline]
    fn match_empty(self) -> Bitmask {
        Bitmask {
            known: self.both.match_empty(),
            both: self.both,
            byte: 0,
            is_whole: true,
        }
    }

    #[inline]
    fn match_full(self) -> Bitmask {
        Bitmask {
            known: self.both.match_full(),
            both: self.both,
            byte: 0,
            is_whole: true,
        }
    }
}
