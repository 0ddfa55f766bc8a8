//! Indices of entries as integers of a width.
//!
//! The items of an index map's table are such integers.

ghost use Rattle.std.specs.Prelude.{◌≡◌, ◌<◌, ◌^◌};
ghost use Rattle.std.proofs.Common.{refl};
ghost use mir.Val.{bits};
ghost use Rattle.rkyv_base.specs.{IsIndexEncoding};
ghost use Rattle.rkyv_index.specs.{CodesReadBack};

use rkyv_base::{Narrow, Scalar, Wide, Width};

/// A width whose integers can be indices of entries. Each integer is its own code.
pub trait IndexWidth: Width<Place = Self::Index> {
    /// The element of an index in an index map: an integer of one word.
    type Index: Scalar;

    /// Returns the integer of the width that encodes `number`.
    fn to_index(number: u64) -> Self::Index
        requires { number < 2 ^ bits Self.word }
        ensures { result ≡ Self.Index.encoding.value number };

    ghost index: { IsIndexEncoding Self.word Self.Index.encoding };

    ghost reads_back: { CodesReadBack Self.Index.encoding };
}

impl IndexWidth for Narrow {
    type Index = u32;

    #[inline]
    fn to_index(number: u64) -> u32 {
        number as u32
    }

    ghost index = { record { word = refl; any = λ n. tt } };

    ghost reads_back = { λ n. refl };
}

impl IndexWidth for Wide {
    type Index = u64;

    #[inline]
    fn to_index(number: u64) -> u64 {
        number
    }

    ghost index = { record { word = refl; any = λ n. tt } };

    ghost reads_back = { λ n. refl };
}
