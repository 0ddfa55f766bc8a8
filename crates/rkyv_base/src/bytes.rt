//! Byte strings in an archive, whose bytes may be any.
//!
//! | | Narrow | Wide |
//! |---|---|---|
//! | fixed bytes | 8 | 16 |
//! | distance to the first byte, signed | 4 bytes | 8 bytes |
//! | length, after the distance | 4 bytes | 8 bytes |
//!
//! This is the layout of rkyv's `ArchivedVec<u8>`. A view of a byte string has `as_slice`.
//! `&[u8]` and `Vec<u8>` are archived as byte strings.

ghost use Rattle.std.specs.Prelude.{FitsSigned, IsTrue, MatchResult, length, ◌+◌, ◌<◌, ◌^◌};
ghost use Rattle.std.specs.Prelude.{◌↔◌, ◌≡◌};
ghost use mir.Val.{bits};
ghost use Rattle.rkyv_base.specs.{IsByteStringOf, IsValidView, Serializes, Viewable};
ghost use Rattle.rkyv_base.specs.{byte_string_at, byte_string_begin, byte_string_format};
ghost use Rattle.rkyv_base.specs.{byte_string_length, byte_string_spec, byte_string_words};
ghost use Rattle.rkyv_base.specs.{bytes_of, pos_of, text_size, written_as};
ghost use Rattle.rkyv_base.specs.Lemmas.ByteStringWriting.{byte_string_as_format};
ghost use Rattle.rkyv_base.specs.Lemmas.ByteStrings.{byte_string_element, byte_string_local};

use crate::archive::{Archive, ResolveResult, Serialize, WriteResult};
use crate::element::{Element, HasSpec, PartRange, Represents};
use crate::errors::{DistanceTooLarge, VerifyError};
use crate::part::{distance_target, part_in};
use crate::text::{fixed_at, pos_of_begin};
use crate::view::View;
use crate::width::{Narrow, Width, Word};
use crate::writer::{Writer, append_in};
use std::alloc::Global;
use std::marker::PhantomData;

/// A byte string in an archive of the width `W`. Its bytes are out of line, and aren't validated.
pub struct Bytes<W = Narrow> {
    width: PhantomData<W>,
}

#[inline]
fn byte_string_len<W: Width>(fixed: &[u8]) -> u64
    requires { length fixed.now ≡ text_size W.word }
    ensures { result ≡ byte_string_length W.word fixed.now }
{
    W::read_count(fixed, W::ALIGN)
}

#[inline]
fn byte_string_start<W: Width>(fixed: &[u8], pos: u64) -> i128
    requires { length fixed.now ≡ text_size W.word }
    ensures { result ≡ byte_string_begin W.word fixed.now pos }
{
    distance_target(pos, W::read_distance(fixed, 0))
}

impl<W: Word> HasSpec for Bytes<W> {
    ghost spec = { byte_string_spec W.word };

    ghost laws = { byte_string_element W.word W.kind };
}

impl<W: Width> Element for Bytes<W> {
    #[inline]
    fn size() -> usize {
        W::TEXT_SIZE
    }

    #[inline]
    fn align() -> usize {
        W::ALIGN
    }

    #[inline]
    fn check(bytes: &[u8], pos: u64, range: PartRange) -> Result<PartRange, VerifyError> {
        let fixed = fixed_at::<W>(bytes, pos);
        let begin = byte_string_start::<W>(fixed, pos);
        let len = byte_string_len::<W>(fixed);
        let at = part_in(begin, u128::from(len), 1, range)?;
        Ok(PartRange {
            lo: at + len,
            hi: range.hi,
        })
    }
}

impl<W: Width> Represents<Vec<u8>> for Bytes<W> {
    ghost represents = { IsByteStringOf W.word (λ v. v.items) };

    ghost local = { λ v. byte_string_local W.word v.items };
}

impl<'t, W: Width> Represents<&'t [u8]> for Bytes<W> {
    ghost represents = { IsByteStringOf W.word (λ t. t.now) };

    ghost local = { λ t. byte_string_local W.word t.now };
}

#[inline]
fn byte_string_part<W: Width>(bytes: &[u8], pos: u64) -> &[u8]
    requires { Viewable (byte_string_spec W.word) bytes.now pos }
    ensures { result.now ≡ byte_string_at W.word bytes.now pos }
{
    let fixed = fixed_at::<W>(bytes, pos);
    let at = pos_of_begin(byte_string_start::<W>(fixed, pos));
    &bytes[at..at + byte_string_len::<W>(fixed) as usize]
}

impl<'a, W: Width> View<'a, Bytes<W>> {
    /// Returns the bytes of the byte string.
    #[inline]
    pub fn as_slice(self) -> &'a [u8]
        requires { IsValidView (byte_string_spec W.word) self }
        ensures { result.now ≡ byte_string_at W.word (bytes_of self.entry) (pos_of self.entry) }
    {
        byte_string_part::<W>(self.bytes(), self.pos())
    }

    /// Returns the number of bytes of the byte string.
    #[inline]
    pub fn len(self) -> usize
        requires { IsValidView (byte_string_spec W.word) self }
        ensures { result ≡ length (byte_string_at W.word (bytes_of self.entry)
            (pos_of self.entry)) }
    {
        self.as_slice().len()
    }

    /// Returns `true` if and only if the byte string has no bytes.
    #[inline]
    pub fn is_empty(self) -> bool
        requires { IsValidView (byte_string_spec W.word) self }
        ensures { IsTrue result
            ↔ (length (byte_string_at W.word (bytes_of self.entry) (pos_of self.entry)) ≡ 0) }
    {
        self.len() == 0
    }
}

/// The resolver of a byte string: the position of its first byte.
#[derive(Clone, Copy, Debug)]
#[must_use]
pub struct BytesResolver {
    /// The position of the first byte, or of the writer if there are no bytes.
    pub pos: u64,
}

#[inline]
fn fill_words<W: Width>(distance: i64, len: u64, out: &mut [u8])
    requires room { length out.old ≡ text_size W.word }
    requires fits { FitsSigned W.word distance }
    requires small { len < 2 ^ bits W.word }
    ensures { out.new ≡ byte_string_words W.word distance len }
{
    let (front, back) = out.split_at_mut(W::ALIGN);
    W::write_distance(front, distance);
    W::write_count(back, len);
}

#[inline]
fn resolve_bytes<W: Width>(
    bytes: &[u8],
    resolver: BytesResolver,
    pos: u64,
    out: &mut [u8],
) -> ResolveResult
    requires { length out.old ≡ text_size W.word }
    ensures { MatchResult result
        (λ _. (byte_string_format W.word).image bytes.now resolver pos out.new)
        (λ _. (byte_string_format W.word).overflow bytes.now resolver pos) }
{
    let len = bytes.len() as u64;
    // Four times the limit of a text is the first length that doesn't fit in a word.
    if W::TEXT_LIMIT <= len / 4 {
        return Ok(());
    }
    let distance = W::distance(resolver.pos, pos).ok_or(DistanceTooLarge)?;
    fill_words::<W>(distance, len, out);
    Ok(())
}

#[inline]
fn serialize_bytes<S: Writer, W: Width>(
    bytes: &[u8],
    serializer: &mut S,
) -> WriteResult<BytesResolver, S>
    ensures { Serializes W.LIMIT (byte_string_format W.word) bytes.now
        (S.output serializer.old) (S.output serializer.new) result }
{
    let pos = serializer.pos();
    append_in::<W, S>(serializer, bytes)?;
    Ok(BytesResolver { pos })
}

impl<'t, W: Width> Archive<W> for &'t [u8] {
    type Archived = Bytes<W>;

    type Resolver = BytesResolver;

    ghost format = { written_as (λ t. t.now) (byte_string_format W.word) };

    #[inline]
    fn resolve(&self, resolver: BytesResolver, pos: u64, out: &mut [u8]) -> ResolveResult {
        resolve_bytes::<W>(self, resolver, pos, out)
    }

    ghost laws = { byte_string_as_format W.word W.layout.kind (λ t. t.now) };
}

impl<W: Width> Archive<W> for Vec<u8> {
    type Archived = Bytes<W>;

    type Resolver = BytesResolver;

    ghost format = { written_as (λ v. v.items) (byte_string_format W.word) };

    #[inline]
    fn resolve(&self, resolver: BytesResolver, pos: u64, out: &mut [u8]) -> ResolveResult {
        resolve_bytes::<W>(self.as_slice(), resolver, pos, out)
    }

    ghost laws = { byte_string_as_format W.word W.layout.kind (λ v. v.items) };
}

impl<'t, S: Writer, W: Width> Serialize<S, W> for &'t [u8] {
    #[inline]
    fn serialize(&self, _alloc: Global, serializer: &mut S) -> WriteResult<BytesResolver, S>
        ensures { Serializes W.LIMIT (byte_string_format W.word) self.now.now
            (S.output serializer.old) (S.output serializer.new) result }
    {
        serialize_bytes::<S, W>(self, serializer)
    }
}

impl<S: Writer, W: Width> Serialize<S, W> for Vec<u8> {
    #[inline]
    fn serialize(&self, _alloc: Global, serializer: &mut S) -> WriteResult<BytesResolver, S>
        ensures { Serializes W.LIMIT (byte_string_format W.word) self.now.items
            (S.output serializer.old) (S.output serializer.new) result }
    {
        serialize_bytes::<S, W>(self.as_slice(), serializer)
    }
}
