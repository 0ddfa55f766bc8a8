//! Scalars: values of a few fixed bytes, which are one little-endian integer.
//!
//! A scalar is an element, represents itself, is archived as itself, and has no parts.

ghost use Rattle.std.specs.Prelude.{◌≡◌, ◌+◌, length, IsTrue, ◌↔◌};
ghost use Rattle.std.specs.Int.{byte_len, from_le_bytes};
ghost use Rattle.rkyv_base.specs.{Encodes, Encoding, IsScalar, ScalarRepresents, scalar_format};
ghost use Rattle.rkyv_base.specs.Lemmas.Scalar.{scalar_is_format, scalar_local};

use crate::archive::{Archive, ResolveResult, Serialize, WriteResult};
use crate::element::{Element, HasSpec, PartRange, Represents};
use crate::errors::VerifyError;
use crate::width::Width;
use crate::writer::Writer;
use std::alloc::Global;

/// A value that is written as a little-endian integer of 1, 2, 4 or 8 bytes.
pub trait Scalar: Copy + HasSpec {
    // The encoding of its values.
    ghost encoding: { Encoding Self };

    /// Returns the number of bytes.
    fn byte_count() -> usize
        ensures { result ≡ byte_len encoding.word };

    /// Returns `true` if and only if the bytes, `byte_count` of them, are a valid value.
    fn is_value(bytes: &[u8]) -> bool
        requires { length bytes.now ≡ byte_len encoding.word }
        ensures { IsTrue result ↔ encoding.IsCode (from_le_bytes encoding.word bytes.now) };

    /// Returns the value of the bytes, which must be valid.
    fn read(bytes: &[u8]) -> Self
        requires whole { length bytes.now ≡ byte_len encoding.word }
        requires value { encoding.IsCode (from_le_bytes encoding.word bytes.now) }
        ensures { result ≡ encoding.value (from_le_bytes encoding.word bytes.now) };

    /// Writes the value over the whole of the bytes, `byte_count` of them.
    fn write(self, bytes: &mut [u8])
        requires { length bytes.old ≡ byte_len encoding.word }
        ensures { Encodes encoding self bytes.new };

    ghost laws: { IsScalar Self.spec encoding };
}

impl<N: Scalar> Element for N {
    #[inline]
    fn size() -> usize {
        N::byte_count()
    }

    #[inline]
    fn align() -> usize {
        N::byte_count()
    }

    #[inline]
    fn check(bytes: &[u8], pos: u64, range: PartRange) -> Result<PartRange, VerifyError> {
        let at = pos as usize;
        if N::is_value(&bytes[at..at + N::byte_count()]) {
            Ok(range)
        } else {
            Err(VerifyError::InvalidValue { pos })
        }
    }
}

impl<N: Scalar> Represents<N> for N {
    ghost represents = { ScalarRepresents N.encoding };

    ghost local = { scalar_local N.spec N.encoding N.Scalar.laws };
}

impl<W: Width, N: Scalar> Archive<W> for N {
    type Archived = N;

    type Resolver = ();

    ghost format = { scalar_format N.encoding };

    #[inline]
    fn resolve(&self, _resolver: (), _pos: u64, out: &mut [u8]) -> ResolveResult {
        self.write(out);
        Ok(())
    }

    ghost laws = { scalar_is_format N.spec N.encoding N.Scalar.laws };
}

impl<S: Writer, W: Width, N: Scalar> Serialize<S, W> for N {
    #[inline]
    fn serialize(&self, _alloc: Global, _serializer: &mut S) -> WriteResult<(), S> {
        Ok(())
    }
}
