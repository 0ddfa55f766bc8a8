//! Native types whose values calls take in a form of their own.

ghost use Rattle.std.specs.Prelude.{MatchResult, ℕ};

/// A native type whose values calls take as `P`.
pub trait FromAny<P>: Copy {
    // There is a value of this type in the form `P`.
    ghost is_value: { P → Type 0 };

    // The value in the form `P` is this one.
    ghost shows: { P → Self → Type 0 };

    // There is no value of this type, and the status is the error's.
    ghost is_none: { P → ℕ → Type 0 };

    /// Returns the value.
    fn from_any(value: P) -> Result<Self, u32>
        ensures { MatchResult result (λ native. is_value value × shows value native)
            (is_none value) };
}
