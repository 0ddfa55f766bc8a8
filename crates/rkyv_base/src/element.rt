//! Elements: the types whose values are in the bytes of an archive.
//!
//! - `HasSpec` has the size, the alignment and the condition for valid bytes, only for contracts.
//! - `Element` adds the validator, `check`. It takes the `PartRange` that the value's parts
//!   may use, and returns the rest of it.
//! - `Represents` relates the bytes of an element to the native values that they represent.
//!
//! `docs/OWN_TYPES.md` has implementations for user-defined types.

ghost use Rattle.std.specs.Prelude.{◌≡◌, ℕ, ◌+◌, ◌%◌, ◌≤◌, List, length, MatchResult};
ghost use Rattle.rkyv_base.specs.Checking.{Fails, Passes};
ghost use Rattle.rkyv_base.specs.Formats.{RepresentsLocally};
ghost use Rattle.rkyv_base.specs.ElementSpecs.{ElementSpec, IsElement};

use crate::errors::VerifyError;

/// The range of bytes for the parts of a value: from `lo` on and below `hi`.
#[derive(Clone, Copy, Debug, PartialEq, Eq)]
pub struct PartRange {
    /// The position of the first byte.
    pub lo: u64,
    /// The position after the last byte.
    pub hi: u64,
}

/// The layout of an element and the condition for its valid bytes, only for contracts.
///
/// Collections that are read have this bound, so that their type carries that they are valid.
pub trait HasSpec {
    // The size and the alignment of its values, and the condition for valid bytes.
    ghost spec: { ElementSpec };

    ghost laws: { IsElement spec };
}

/// A type whose values are in the bytes of an archive.
///
/// A value has `size` fixed bytes at a multiple of `align`.
/// It may also have parts out of line, before it.
pub trait Element: HasSpec {
    /// Returns the size of a value in bytes: a multiple of the alignment, at most 1,073,741,824.
    fn size() -> usize
        ensures { result ≡ Self.spec.size };

    /// Returns the alignment of a value in bytes: 1, 2, 4 or 8.
    fn align() -> usize
        ensures { result ≡ Self.spec.align };

    /// Validates the value at `pos`, whose parts must be in the range.
    ///
    /// Returns the rest of the range, for the parts of the next value, or the first fault.
    fn check(bytes: &[u8], pos: u64, range: PartRange) -> Result<PartRange, VerifyError>
        requires inside { pos + Self.spec.size ≤ length bytes.now }
        requires aligned { pos % Self.spec.align ≡ 0 }
        requires ordered { (range.lo ≤ range.hi) × (range.hi ≤ pos) }
        ensures { MatchResult result (Passes Self.spec bytes.now pos range)
            (Fails Self.spec bytes.now pos range) };
}

/// An element whose values represent values of the type `V`.
pub trait Represents<V>: Element {
    // The bytes at a position represent the value.
    ghost represents: { List ℕ → ℕ → V → Type 0 };

    ghost local: { RepresentsLocally Self.spec represents };
}
