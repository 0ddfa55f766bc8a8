//! The traits of types whose values can be archived.
//!
//! `Archive` names the element of a type and writes the fixed bytes of a value.
//! `Serialize` writes the parts of a value before that.
//!
//! `docs/OWN_TYPES.md` has whole examples of user-defined types.

ghost use Rattle.std.specs.Prelude.{◌≡◌, ◌+◌, ◌^◌, ◌<◌, length, MatchResult};
ghost use Rattle.rkyv_base.specs.{Format, IsFormat, Serializes};

use crate::element::Represents;
use crate::errors::{DistanceTooLarge, WriteError};
use crate::width::Width;
use crate::writer::Writer;
use std::alloc::Global;

/// The result of resolving a value.
pub type ResolveResult = Result<(), DistanceTooLarge>;

/// The result of writing to a writer `S`, with an `R` on success.
pub type WriteResult<R, S> = Result<R, WriteError<<S as Writer>::Fault>>;

/// A type whose values are archived as values of an element, in archives of the width `W`.
pub trait Archive<W: Width> {
    /// The element as which the values are archived.
    type Archived: Represents<Self>;

    /// The positions of a value's parts. Serializing returns it, and resolving takes it.
    type Resolver: Drop;

    // The format of its values.
    ghost format: { Format Self Self.Resolver };

    /// Writes the fixed bytes of a value at `pos` over the whole of `out`.
    ///
    /// Fails with `DistanceTooLarge` if a distance to a part doesn't fit in the width. `out` may
    /// then have any bytes, as it may for a text that is too long to be serialized.
    fn resolve(&self, resolver: Self::Resolver, pos: u64, out: &mut [u8]) -> ResolveResult
        requires room { length out.old ≡ Self.Archived.spec.size }
        requires fits { pos + Self.Archived.spec.size < 2 ^ 64 }
        ensures { MatchResult result
            (λ _. format.image self.now resolver pos out.new)
            (λ _. format.overflow self.now resolver pos) };

    ghost laws: { IsFormat Self.Archived.spec Self.Archived.represents format };
}

/// A type whose values can be written to a writer.
pub trait Serialize<S: Writer, W: Width>: Archive<W> {
    /// Writes the parts of the value, which precede it in the archive, and returns its resolver.
    ///
    /// Fails with the error of the first piece or value that fails.
    fn serialize(&self, alloc: Global, serializer: &mut S) -> WriteResult<Self::Resolver, S>
        ensures { Serializes W.LIMIT Self.format self.now
            (S.output serializer.old) (S.output serializer.new) result };
}
