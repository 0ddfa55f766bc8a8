//! Writers: the destinations of the bytes of an archive.
//!
//! `Writer` is the trait, and `VecWriter` writes to memory. `append` and `align_for` write
//! to a narrow archive by it, and `append_in` and `align_for_in` to one of any width.

ghost use Rattle.std.specs.Prelude.{List, OnErr, OnOk, [], length, ℕ, ◌+◌, ◌<◌, ◌^◌, ◌≡◌, ◌≤◌};
ghost use Rattle.rkyv_base.specs.{Aligns, Appends, AppendsPiece, Faults, Output, end_of};
ghost use Rattle.rkyv_base.specs.{narrow_limit, vec_output};

use crate::archive::WriteResult;
use crate::element::Element;
use crate::errors::WriteError;
use crate::width::{Narrow, Width};
use std::alloc::Global;
use std::fmt::Debug;
use std::marker::Model;
use thiserror::Error;

/// A destination that takes the bytes of an archive, in pieces.
pub trait Writer {
    /// The fault of a write that failed.
    type Fault: Debug + Drop;

    // The bytes already written, with their position, and the count of failures.
    ghost output: { Self → Output };

    /// Returns the position of the next byte.
    fn pos(&self) -> u64
        ensures { result ≡ end_of (output self.now) };

    /// Returns the number of failed writes, or 2^64 - 1 if there are more.
    fn failures(&self) -> u64
        ensures { result ≡ (output self.now).failures };

    /// Appends a piece, which must end below 2^64.
    ///
    /// On an error it appended some prefix of the piece, maybe all of it.
    fn write(&mut self, bytes: &[u8]) -> Result<(), Self::Fault>
        requires { end_of (output self.old) + length bytes.now < 2 ^ 64 }
        ensures appends { OnOk result (Appends (output self.old) (output self.new) bytes.now) }
        ensures faults { OnErr result (Faults (output self.old) (output self.new) bytes.now) };
}

/// The fault of an allocation that failed.
#[derive(Clone, Copy, Debug, PartialEq, Eq, Error)]
#[error("no memory")]
pub struct NoMemory;

/// A writer to memory, from position 0.
///
/// # Examples
///
/// ```rust
/// let mut writer = VecWriter::new(rt.alloc());
/// let appended = append(&mut writer, &[1, 2, 3]).is_ok();
/// let aligned = align_for::<u32, VecWriter>(&mut writer).ok();
/// assert_eq!(rt; (appended, aligned, writer.pos()), (true, Some(4), 4));
/// ```
#[derive(Drop)]
pub struct VecWriter {
    bytes: Vec<u8>,
    failures: u64,
}

impl Model for VecWriter {
    ghost Value = { List ℕ × ℕ };

    ghost view = { λ w. (w.bytes.items, w.failures) };
}

impl VecWriter {
    /// Returns a writer without bytes.
    pub fn new(alloc: Global) -> VecWriter
        ensures { result ≡ ([], 0) }
    {
        VecWriter {
            bytes: Vec::new(alloc),
            failures: 0,
        }
    }

    /// Returns all bytes of the writer.
    pub fn into_vec(self) -> Vec<u8>
        ensures { result.items ≡ self.0 }
    {
        self.bytes
    }

    /// Returns all bytes up to now.
    pub fn bytes(&self) -> &[u8]
        ensures { result.now ≡ self.now.0 }
    {
        self.bytes.as_slice()
    }
}

/// The writer of a vector appends to its bytes, and uses its memory.
impl From<Vec<u8>> for VecWriter {
    ghost from_gives = { λ bytes w. w ≡ (bytes.items, 0) };

    fn from(bytes: Vec<u8>) -> VecWriter {
        VecWriter { bytes, failures: 0 }
    }
}

impl Writer for VecWriter {
    type Fault = NoMemory;

    ghost output = { vec_output };

    #[inline]
    fn pos(&self) -> u64 {
        self.bytes.len() as u64
    }

    #[inline]
    fn failures(&self) -> u64 {
        self.failures
    }

    /// Appends the whole piece, or nothing if memory can't be allocated. An empty piece needs none.
    #[inline]
    fn write(&mut self, bytes: &[u8]) -> Result<(), NoMemory>
        requires { length self.old.0 + length bytes.now < 2 ^ 64 }
        ensures appends { OnOk result (Appends (vec_output self.old)
            (vec_output self.new) bytes.now) }
        ensures faults { OnErr result (Faults (vec_output self.old)
            (vec_output self.new) bytes.now) }
        ensures kept { OnErr result (self.new.0 ≡ self.old.0) }
        ensures some { OnErr result (0 < length bytes.now) }
    {
        if self.bytes.extend_from_slice(bytes).is_err() {
            self.failures = self.failures.saturating_add(1);
            return Err(NoMemory);
        }
        Ok(())
    }
}

/// Appends one piece to an archive of the width `W`.
///
/// Fails with `PositionTooLarge`, without writing, if the piece would end after the width's limit.
/// Fails with `Writer` if the writer failed, maybe after a prefix of the piece.
#[inline]
pub fn append_in<W: Width, S: Writer>(serializer: &mut S, bytes: &[u8]) -> WriteResult<(), S>
    ensures { AppendsPiece W.LIMIT bytes.now
        (S.output serializer.old) (S.output serializer.new) result }
{
    let pos = serializer.pos();
    let len = bytes.len() as u64;
    if pos > W::LIMIT || len > W::LIMIT - pos {
        return Err(WriteError::PositionTooLarge);
    }
    serializer.write(bytes).map_err(WriteError::Writer)
}

/// Appends zeros up to the next multiple of the element's alignment, in one piece.
///
/// Returns the position after them. Fails as `append_in` does.
#[inline]
pub fn align_for_in<W: Width, T: Element, S: Writer>(serializer: &mut S) -> WriteResult<u64, S>
    ensures { Aligns W.LIMIT T.spec.align
        (S.output serializer.old) (S.output serializer.new) result }
{
    let align = T::align();
    let over = (serializer.pos() % align as u64) as usize;
    let pad = (align - over) % align;
    append_in::<W, S>(serializer, &[0; 8][..pad])?;
    Ok(serializer.pos())
}

/// Appends one piece to a narrow archive, as `append_in` does.
#[inline]
pub fn append<S: Writer>(serializer: &mut S, bytes: &[u8]) -> WriteResult<(), S>
    ensures { AppendsPiece narrow_limit bytes.now
        (S.output serializer.old) (S.output serializer.new) result }
{
    append_in::<Narrow, S>(serializer, bytes)
}

/// Appends zeros to a narrow archive, as `align_for_in` does.
#[inline]
pub fn align_for<T: Element, S: Writer>(serializer: &mut S) -> WriteResult<u64, S>
    ensures { Aligns narrow_limit T.spec.align
        (S.output serializer.old) (S.output serializer.new) result }
{
    align_for_in::<Narrow, T, _>(serializer)
}
