//! Archives of known bytes, with what each call returns for them.
//!
//! A row of `cases!` is the contents, and `NEXT: KEY => VALUE` for each pair, in insertion order.
//! `NEXT` is the bucket or the index after that of the pair. The bytes of the archive follow, in
//! pieces. A number is itself, a text or a byte string is in brackets, and a unit is `()`. These
//! may follow, in this order:
//!
//! | Part | What it lists |
//! |---|---|
//! | `absent` | keys, each with the status of a lookup |
//! | `damaged` | a position, another byte there, and the numbers of the error |
//! | `sets` | a key, its new value, and the only bytes that change |
//! | `fails` | a key, a value, and the status of an overwrite that fails |
//! | `rejected` | contents as which the archive is not valid |
//! | `misplaced` | a position, other bytes from there on, and the number of misplaced keys then |
//!
//! The hash of 1 is 517cc1b727220a95, with the tag 28, and that of the empty text 2b44f56ffae88a6b,
//! with the tag 15. A tag has seven bits of the hash: that of 5 is 4b, and that of `main` 38.

use crate::tests::calls::{Contents, Numbers, Pair, Part};

macro_rules! cases {
    ($({ $($kind:ident $key:ident $value:ident $width:literal),+ =
        $($next:literal: $of:tt => $to:tt),*;
        $($piece:expr),+;
        $(absent $($absent:tt $result:literal),+;)?
        $(damaged $($pos:literal $byte:tt $numbers:tt),+;)?
        $(sets $($set:tt = $new:tt at $at:literal $bytes:literal),+;)?
        $(fails $($fails:tt = $with:tt $error:literal),+;)?
        $(rejected $($akind:ident $akey:ident $avalue:ident $awidth:literal),+;)?
        $(misplaced $begin:literal $others:literal $count:literal;)? })*) => {
        &[$(Case {
            contents: &[$(($kind, $key, $value, $width)),+],
            pairs: &[$(($next, part!($of), part!($to))),*],
            pieces: &[$($piece),+],
            absent: &[$($((part!($absent), $result)),+)?],
            damaged: &[$($(($pos, $byte, $numbers)),+)?],
            sets: &[$($((part!($set), $new, $at, $bytes)),+)?],
            fails: &[$($((part!($fails), $with, $error)),+)?],
            rejected: &[$($(($akind, $akey, $avalue, $awidth)),+)?],
            misplaced: &[$(($begin, $others, $count))?],
        }),*]
    };
}

mod index_maps;
mod maps;
mod types;

/// A number whose low 32 bits are 1, and whose high 32 bits are 1.
pub(crate) const GREAT: u64 = 0x1_0000_0001;

/// The least number that has more than 32 bits.
pub(crate) const LARGE: u64 = 0x1_0000_0000;

/// The greatest number.
pub(crate) const MAX: u64 = u64::MAX;

/// Empty control bytes, behind those of two, of three or of four buckets.
pub(crate) const EMPTY_27: &[u8] = &[0xff; 27];

pub(crate) const EMPTY_25: &[u8] = &[0xff; 25];

pub(crate) const EMPTY_23: &[u8] = &[0xff; 23];

/// A zero, and the header of a hash map of one pair in two buckets, 32 bytes after the control
/// bytes.
pub(crate) const HEADER: &[u8] = b"\0\xe0\xff\xff\xff\x01\0\0\0\x02\0\0\0";

pub(crate) const WIDE_HEADER: &[u8] =
    b"\0\xe0\xff\xff\xff\xff\xff\xff\xff\x01\0\0\0\0\0\0\0\x02\0\0\0\0\0\0\0";

/// A zero, and the header of a hash map of two pairs in three buckets, likewise.
pub(crate) const HEADER_OF_TWO: &[u8] = b"\0\xe0\xff\xff\xff\x02\0\0\0\x03\0\0\0";

pub(crate) const WIDE_HEADER_OF_TWO: &[u8] =
    b"\0\xe0\xff\xff\xff\xff\xff\xff\xff\x02\0\0\0\0\0\0\0\x03\0\0\0\0\0\0\0";

/// An archive, and what calls return for it.
#[derive(Clone, Copy)]
pub(crate) struct Case {
    pub(crate) contents: &'static [Contents],
    pub(crate) pairs: &'static [Pair<'static>],
    pub(crate) pieces: &'static [&'static [u8]],
    pub(crate) absent: &'static [(Part<'static>, u32)],
    pub(crate) damaged: &'static [(usize, u8, Numbers)],
    pub(crate) sets: &'static [(Part<'static>, u64, usize, &'static [u8])],
    pub(crate) fails: &'static [(Part<'static>, u64, u32)],
    pub(crate) rejected: &'static [Contents],
    pub(crate) misplaced: &'static [(usize, &'static [u8], u64)],
}

/// The number of tables.
pub(crate) const TABLES: usize = 18;

/// Returns the cases of a table.
pub(crate) fn table(number: usize) -> &'static [Case] {
    match number {
        0 => maps::empty(),
        1 => maps::numbers(),
        2 => maps::long_numbers(),
        3 => maps::texts(),
        4 => maps::to_texts(),
        5 => maps::two_texts(),
        6 => maps::sets(),
        7 => index_maps::empty(),
        8 => index_maps::numbers(),
        9 => index_maps::long_numbers(),
        10 => index_maps::texts(),
        11 => index_maps::to_texts(),
        12 => index_maps::two_texts(),
        13 => index_maps::sets(),
        14 => types::integers(),
        15 => types::others(),
        16 => types::floats(),
        _ => types::sets(),
    }
}

/// At most 160 bytes.
#[derive(Clone, Copy)]
pub(crate) struct Bytes {
    room: [u8; 160],
    len: usize,
}

impl Bytes {
    /// Returns the bytes of all pieces.
    pub(crate) fn new(pieces: &[&[u8]]) -> Self {
        let mut bytes = Self {
            room: [0; 160],
            len: 0,
        };
        for piece in pieces {
            bytes = bytes.with(bytes.len, piece);
            bytes.len = bytes.len.wrapping_add(piece.len());
        }
        bytes
    }

    /// Returns the bytes with others from `pos` on, as far as there is room.
    pub(crate) fn with(&self, pos: usize, others: &[u8]) -> Self {
        let mut changed = *self;
        let mut at = pos;
        for byte in others {
            if let Some(old) = changed.room.get_mut(at) {
                *old = *byte;
            }
            at = at.wrapping_add(1);
        }
        changed
    }

    pub(crate) fn as_slice(&self) -> &[u8] {
        self.room.get(..self.len).unwrap_or(&[])
    }

    pub(crate) fn as_mut_slice(&mut self) -> &mut [u8] {
        let len = self.len;
        match self.room.get_mut(..len) {
            Some(bytes) => bytes,
            None => &mut [],
        }
    }
}
