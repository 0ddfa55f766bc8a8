//! Equality of values in archives.
//!
//! - `ElementEq` compares two archived values, and `ElementEquiv` has the laws of an equivalence.
//! - `MatchesNative` compares an archived value with a native one.
//!   `EqualsWritten` and `EqualsUniquely` have its laws for written values.
//! - `RepresentsUniquely` states that the native values of one archived value are equal.

ghost use Rattle.std.specs.Prelude.{◌≡◌, ℕ, List, IsTrue, ◌↔◌};
ghost use Rattle.rkyv_base.specs.{AtView, IsFormat, IsValidView};
ghost use Rattle.rkyv_keys.specs.{Comparison, EqualsUniquely, IsEquivalence, RepresentsUniquely};
ghost use Rattle.rkyv_keys.specs.{at_views};

use rkyv_base::{Archive, Element, Represents, View, Width};

/// An element whose values can be compared in place, within one archive or between two.
pub trait ElementEq: Element {
    // The comparison of the values at two positions.
    ghost same: { Comparison };

    /// Returns `true` if and only if the two values are the same.
    fn same(a: View<'_, Self>, b: View<'_, Self>) -> bool
        requires a { IsValidView Self.spec a }
        requires b { IsValidView Self.spec b }
        ensures { result ≡ at_views same a.entry b.entry };
}

/// An element whose comparison is an equivalence.
pub trait ElementEquiv: ElementEq {
    ghost equivalence: { IsEquivalence Self.spec Self.same };
}

/// An element whose values can be compared in place with values of the type `V`.
pub trait MatchesNative<V>: Represents<V> {
    // The value at a position equals a native value.
    ghost equals: { List ℕ → ℕ → V → Type 0 };

    /// Returns `true` if and only if the archived value equals the native value.
    fn eq_native(view: View<'_, Self>, value: &V) -> bool
        requires { IsValidView Self.spec view }
        ensures { IsTrue result ↔ AtView equals view.entry value.now };
}

/// A type whose values equal their archived form, in archives of the width `W`.
pub trait EqualsWritten<W: Width>: Archive<W>
where
    Self::Archived: MatchesNative<Self>,
{
    // An archived value equals the written one, in each archive that has its bytes.
    ghost equal: { IsFormat Self.Archived.spec Self.Archived.equals Self.format };
}

/// An element whose values equal only native values that are equal to the represented ones.
///
/// Archived maps and sets don't implement it. A caller may know that the keys of an archived map
/// are distinct, but this law can't assume it.
pub trait EqualsUniquely<V: PartialEq>: MatchesNative<V> {
    ghost once: { EqualsUniquely Self.spec Self.represents Self.equals V.eq };
}

/// An element whose values each represent only native values that are equal to one another.
///
/// A deserialized value is therefore equal to the written one.
pub trait RepresentsUniquely<V: PartialEq>: Represents<V> {
    ghost once: { RepresentsUniquely Self.spec Self.represents V.eq };
}
