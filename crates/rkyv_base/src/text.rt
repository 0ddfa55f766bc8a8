//! Text in an archive.
//!
//! | | Narrow | Wide |
//! |---|---|---|
//! | fixed bytes | 8 | 16 |
//! | inline text | up to 8 bytes, then ff | up to 16 bytes, then ff |
//! | out-of-line text | its length and a distance, 4 bytes each | the same, 8 bytes each |
//!
//! A view of a text has `as_str`.

ghost use Rattle.std.specs.Prelude.{IsTrue, MatchResult, length, pos as int, string_bytes, true, ℕ};
ghost use Rattle.std.specs.Prelude.{◌+ℤ◌, ◌+◌, ◌<◌, ◌^◌, ◌≡◌, ◌≤◌};
ghost use Rattle.std.specs.Str.{IsAscii, IsUtf8};
ghost use Rattle.rkyv_base.specs.declared.errors.VerifyError.TheVariants.{InvalidValue};
ghost use Rattle.rkyv_base.specs.{Fails, IsTextOf, IsValidView, Passes, Viewable, bytes_of};
ghost use Rattle.rkyv_base.specs.{decode_length, fixed_bytes, inline_text, is_out_of_line};
ghost use Rattle.rkyv_base.specs.{out_of_line_begin, out_of_line_length, pos_of, text_at};
ghost use Rattle.rkyv_base.specs.{text_size, text_spec};
ghost use Rattle.rkyv_base.specs.Lemmas.Text.{text_element, text_local};

use crate::byte_search::{NonAscii, PadByte, first, is_ascii};
use crate::element::{Element, HasSpec, PartRange, Represents};
use crate::errors::VerifyError;
use crate::part::{distance_target, part_in};
use crate::view::View;
use crate::width::{Narrow, Width, Word};
use std::marker::PhantomData;

/// A text in an archive of the width `W`.
///
/// Inline text ends before the first ff of the fixed bytes. All bytes after it are written as ff,
/// and aren't validated. The fixed bytes of out-of-line text have its length, in a form with which
/// no text begins, and the distance to it.
///
/// A text of 1,073,741,824 bytes or more (2^62 in a wide archive) can't be archived.
pub struct Text<W = Narrow> {
    width: PhantomData<W>,
}

#[inline]
pub(crate) fn fixed_at<W: Width>(bytes: &[u8], pos: u64) -> &[u8]
    requires { pos + text_size W.word ≤ length bytes.now }
    ensures { result.now ≡ fixed_bytes W.word bytes.now pos }
{
    let at = pos as usize;
    &bytes[at..at + W::TEXT_SIZE]
}

/// Returns `true` if the text is out of line: its first fixed byte has the form 10xxxxxx.
#[inline]
pub(crate) fn is_out_of_line(fixed: &[u8]) -> bool
    requires { 0 < length fixed.now }
    ensures { result ≡ is_out_of_line fixed.now }
{
    128 <= fixed[0] && fixed[0] < 192
}

#[inline]
pub(crate) fn inline_part(fixed: &[u8]) -> &[u8]
    ensures { result.now ≡ inline_text fixed.now }
{
    &fixed[..first::<PadByte>(fixed).unwrap_or(fixed.len())]
}

/// The first fixed byte that is not ASCII, if there is one, is then the ff at its end.
#[inline]
fn is_inline_ascii(fixed: &[u8]) -> bool
    ensures { IsTrue result → IsAscii (inline_text fixed.now) }
{
    match first::<NonAscii>(fixed) {
        Some(at) => fixed[at] == 255,
        None => true,
    }
}

#[inline]
fn length_decoded(word: u64) -> u64
    ensures { result ≡ decode_length word }
{
    word % 64 + word / 256 * 64
}

#[inline]
fn out_of_line_len<W: Width>(fixed: &[u8]) -> u64
    requires { length fixed.now ≡ text_size W.word }
    ensures { result ≡ out_of_line_length W.word fixed.now }
{
    length_decoded(W::read_count(fixed, 0))
}

#[inline]
fn out_of_line_start<W: Width>(fixed: &[u8], pos: u64) -> i128
    requires { length fixed.now ≡ text_size W.word }
    ensures { result ≡ out_of_line_begin W.word fixed.now pos }
{
    distance_target(pos, W::read_distance(fixed, W::ALIGN))
}

/// The greatest length of out-of-line text that is first tested for ASCII, eight bytes at a time.
/// On longer text, std's validation takes more bytes at once.
const SHORT: usize = 64;

#[inline]
fn check_utf8(text: &[u8], pos: u64) -> Result<(), VerifyError>
    ensures { MatchResult result
        (λ _. IsUtf8 text.now)
        (λ e. (IsUtf8 text.now → ⊥) × (e ≡ InvalidValue pos)) }
{
    if str::from_utf8(text).is_err() {
        return Err(VerifyError::InvalidValue { pos });
    }
    Ok(())
}

#[inline]
fn check_inline_utf8(fixed: &[u8], pos: u64) -> Result<(), VerifyError>
    ensures { MatchResult result
        (λ _. IsUtf8 (inline_text fixed.now))
        (λ e. (IsUtf8 (inline_text fixed.now) → ⊥) × (e ≡ InvalidValue pos)) }
{
    if is_inline_ascii(fixed) {
        return Ok(());
    }
    check_utf8(inline_part(fixed), pos)
}

#[inline]
fn check_out_of_line_utf8(text: &[u8], pos: u64) -> Result<(), VerifyError>
    requires { 8 ≤ length text.now }
    ensures { MatchResult result
        (λ _. IsUtf8 text.now)
        (λ e. (IsUtf8 text.now → ⊥) × (e ≡ InvalidValue pos)) }
{
    if text.len() <= SHORT && is_ascii(text) {
        return Ok(());
    }
    check_utf8(text, pos)
}

fn check_out_of_line<W: Width>(
    bytes: &[u8],
    pos: u64,
    range: PartRange,
) -> Result<PartRange, VerifyError>
    requires inside { pos + text_size W.word ≤ length bytes.now }
    requires ordered { range.hi ≤ pos }
    requires out_of_line { is_out_of_line (fixed_bytes W.word bytes.now pos) ≡ true }
    ensures { MatchResult result
        (Passes (text_spec W.word) bytes.now pos range)
        (Fails (text_spec W.word) bytes.now pos range) }
{
    let fixed = fixed_at::<W>(bytes, pos);
    let len = out_of_line_len::<W>(fixed);
    if len <= W::TEXT_SIZE as u64 {
        return Err(VerifyError::InvalidValue { pos });
    }
    let begin = out_of_line_start::<W>(fixed, pos);
    let at = part_in(begin, u128::from(len), 1, range)?;
    let end = at + len;
    check_out_of_line_utf8(&bytes[at as usize..end as usize], pos)?;
    Ok(PartRange {
        lo: end,
        hi: range.hi,
    })
}

impl<W: Word> HasSpec for Text<W> {
    ghost spec = { text_spec W.word };

    ghost laws = { text_element W.word W.kind };
}

impl<W: Width> Element for Text<W> {
    #[inline]
    fn size() -> usize {
        W::TEXT_SIZE
    }

    #[inline]
    fn align() -> usize {
        W::ALIGN
    }

    #[inline]
    fn check(bytes: &[u8], pos: u64, range: PartRange) -> Result<PartRange, VerifyError> {
        let fixed = fixed_at::<W>(bytes, pos);
        if is_out_of_line(fixed) {
            return check_out_of_line::<W>(bytes, pos, range);
        }
        check_inline_utf8(fixed, pos)?;
        Ok(range)
    }
}

#[inline]
pub(crate) fn pos_of_begin(begin: i128) -> usize
    requires { (at : ℕ) × (int at ≡ begin) × (at < 2 ^ 64) }
    ensures { int result ≡ begin }
{
    begin as usize
}

#[inline]
fn out_of_line_part<W: Width>(bytes: &[u8], pos: u64) -> &[u8]
    requires viewable { Viewable (text_spec W.word) bytes.now pos }
    requires out_of_line { is_out_of_line (fixed_bytes W.word bytes.now pos) ≡ true }
    ensures { result.now ≡ text_at W.word bytes.now pos }
{
    let fixed = fixed_at::<W>(bytes, pos);
    let at = pos_of_begin(out_of_line_start::<W>(fixed, pos));
    &bytes[at..at + out_of_line_len::<W>(fixed) as usize]
}

#[inline]
fn text_part<W: Width>(bytes: &[u8], pos: u64) -> &[u8]
    requires { Viewable (text_spec W.word) bytes.now pos }
    ensures { result.now ≡ text_at W.word bytes.now pos }
{
    let fixed = fixed_at::<W>(bytes, pos);
    if is_out_of_line(fixed) {
        return out_of_line_part::<W>(bytes, pos);
    }
    inline_part(fixed)
}

impl<W: Width> Represents<String> for Text<W> {
    ghost represents = { IsTextOf W.word string_bytes };

    ghost local = { λ t. text_local W.word (string_bytes t) };
}

impl<'t, W: Width> Represents<&'t str> for Text<W> {
    ghost represents = { IsTextOf W.word (λ t. t.now) };

    ghost local = { λ t. text_local W.word t.now };
}

impl<'a, W: Width> View<'a, Text<W>> {
    /// Returns the text itself.
    #[inline]
    pub fn as_str(self) -> &'a str
        requires { IsValidView (text_spec W.word) self }
        ensures { result.now ≡ text_at W.word (bytes_of self.entry) (pos_of self.entry) }
    {
        unsafe { str::from_utf8_unchecked(text_part::<W>(self.bytes(), self.pos())) }
    }
}
