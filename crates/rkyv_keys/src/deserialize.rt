//! Deserialization of archived values.
//!
//! A type implements `Deserialize` for each native type as which its values are read.

ghost use Rattle.std.specs.Prelude.{MatchResult};
ghost use Rattle.rkyv_base.specs.{AtView, IsValidView};
ghost use Rattle.rkyv_keys.specs.{DeserializeErrors};

use rkyv_base::{ReadError, Represents, View};
use std::alloc::Global;

/// An element whose values can be deserialized as values of the type `V`.
pub trait Deserialize<V>: Represents<V> {
    // The errors that deserializing the value at a position can return.
    ghost deserialize_fails: { DeserializeErrors };

    /// Deserializes the value.
    ///
    /// # Errors
    ///
    /// - `Memory`: memory could not be allocated, as for a text.
    /// - `Refused`: the element rejects the value.
    ///
    /// Integers, `bool`, `char` and `()` are deserialized without an error.
    fn deserialize(alloc: Global, view: View<'_, Self>) -> Result<V, ReadError>
        requires { IsValidView Self.spec view }
        ensures { MatchResult result
            (AtView Self.represents view.entry)
            (AtView deserialize_fails view.entry) };
}
