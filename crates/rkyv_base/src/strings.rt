//! The `Archive` and `Serialize` impls of `&str` and `String`, which are archived as text.
//!
//! Serializing writes the bytes of a text that is too long to be inline. Resolving writes the text
//! itself, or its length and the distance to it.

ghost use Rattle.std.specs.Prelude.{FitsSigned, MatchResult, length, string_bytes, ◌++◌, ◌+◌, ◌-◌};
ghost use Rattle.std.specs.Prelude.{◌<◌, ◌^◌, ◌≡◌, ◌≤◌};
ghost use Rattle.rkyv_base.specs.{Serializes, inline_bytes, length_word, out_of_line_bytes};
ghost use Rattle.rkyv_base.specs.{text_format, text_limit, text_size, written_as};
ghost use Rattle.rkyv_base.specs.Lemmas.TextWriting.{text_as_format};

use crate::archive::{Archive, ResolveResult, Serialize, WriteResult};
use crate::errors::{DistanceTooLarge, WriteError};
use crate::text::Text;
use crate::width::Width;
use crate::writer::{Writer, append_in};
use std::alloc::Global;

/// The resolver of a text: the position of its bytes, or 0 if it is inline.
#[derive(Clone, Copy, Debug)]
#[must_use]
pub struct TextResolver {
    /// The position of the bytes, or 0.
    pub pos: u64,
}

#[inline]
fn fill_inline(text: &[u8], out: &mut [u8])
    requires { length text.now ≤ length out.old }
    ensures { out.new ≡ inline_bytes (length out.old) text.now }
{
    let (front, back) = out.split_at_mut(text.len());
    front.copy_from_slice(text);
    back.fill(255);
}

#[inline]
fn word_of_length(len: u64) -> u64
    requires { len < 2 ^ 62 }
    ensures { result ≡ length_word len }
{
    len % 64 + 128 + len / 64 * 256
}

#[inline]
fn fill_out_of_line<W: Width>(len: u64, distance: i64, out: &mut [u8])
    requires room { length out.old ≡ text_size W.word }
    requires small { len < text_limit W.word }
    requires fits { FitsSigned W.word distance }
    ensures { out.new ≡ out_of_line_bytes W.word len distance }
{
    let (front, back) = out.split_at_mut(W::ALIGN);
    W::write_count(front, word_of_length(len));
    W::write_distance(back, distance);
}

#[inline]
fn resolve_text<W: Width>(
    text: &str,
    resolver: TextResolver,
    pos: u64,
    out: &mut [u8],
) -> ResolveResult
    requires { length out.old ≡ text_size W.word }
    ensures { MatchResult result
        (λ _. (text_format W.word).image text.now resolver pos out.new)
        (λ _. (text_format W.word).overflow text.now resolver pos) }
{
    let len = text.len();
    if len <= W::TEXT_SIZE {
        fill_inline(text.as_bytes(), out);
        return Ok(());
    }
    if W::TEXT_LIMIT <= len as u64 {
        return Ok(());
    }
    let distance = W::distance(resolver.pos, pos).ok_or(DistanceTooLarge)?;
    fill_out_of_line::<W>(len as u64, distance, out);
    Ok(())
}

#[inline]
fn serialize_text<S: Writer, W: Width>(
    text: &str,
    serializer: &mut S,
) -> WriteResult<TextResolver, S>
    ensures { Serializes W.LIMIT (text_format W.word) text.now
        (S.output serializer.old) (S.output serializer.new) result }
{
    if text.len() <= W::TEXT_SIZE {
        return Ok(TextResolver { pos: 0 });
    }
    if W::TEXT_LIMIT <= text.len() as u64 {
        return Err(WriteError::TextTooLong);
    }
    let pos = serializer.pos();
    append_in::<W, S>(serializer, text.as_bytes())?;
    Ok(TextResolver { pos })
}

impl<'t, W: Width> Archive<W> for &'t str {
    type Archived = Text<W>;

    type Resolver = TextResolver;

    ghost format = { written_as (λ t. t.now) (text_format W.word) };

    #[inline]
    fn resolve(&self, resolver: TextResolver, pos: u64, out: &mut [u8]) -> ResolveResult {
        resolve_text::<W>(self, resolver, pos, out)
    }

    ghost laws = { text_as_format W.word W.layout.kind (λ t. t.now) };
}

impl<W: Width> Archive<W> for String {
    type Archived = Text<W>;

    type Resolver = TextResolver;

    ghost format = { written_as string_bytes (text_format W.word) };

    #[inline]
    fn resolve(&self, resolver: TextResolver, pos: u64, out: &mut [u8]) -> ResolveResult {
        resolve_text::<W>(self.as_str(), resolver, pos, out)
    }

    ghost laws = { text_as_format W.word W.layout.kind string_bytes };
}

impl<'t, S: Writer, W: Width> Serialize<S, W> for &'t str {
    #[inline]
    fn serialize(&self, _alloc: Global, serializer: &mut S) -> WriteResult<TextResolver, S>
        ensures { Serializes W.LIMIT (text_format W.word) self.now.now
            (S.output serializer.old) (S.output serializer.new) result }
    {
        serialize_text::<S, W>(self, serializer)
    }
}

impl<S: Writer, W: Width> Serialize<S, W> for String {
    #[inline]
    fn serialize(&self, _alloc: Global, serializer: &mut S) -> WriteResult<TextResolver, S>
        ensures { Serializes W.LIMIT (text_format W.word) (string_bytes self.now)
            (S.output serializer.old) (S.output serializer.new) result }
    {
        serialize_text::<S, W>(self.as_str(), serializer)
    }
}
