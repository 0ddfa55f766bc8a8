//! Text that is written in place, if it is inline.
//!
//! `as_str` returns the text, and `make_ascii_uppercase` writes its letters in upper case. Neither
//! reads or writes text that is out of line.

ghost use Rattle.std.specs.Prelude.{◌≡◌, ◌+◌, ◌≤◌, length, map, MatchOption};
ghost use Rattle.std.specs.Char.{to_ascii_uppercase};
ghost use Rattle.rkyv_base.specs.{IsInline, IsOutOfLine, IsUtf8IfInline, LacksInlineText, LiesIn};
ghost use Rattle.rkyv_base.specs.{ModifiesOnly, ReadsInline, SealStays, StaysValid, Uppercases};
ghost use Rattle.rkyv_base.specs.{bytes_in, inline_at, seal_pos, text_at, text_size, text_spec};

use crate::seal::Seal;
use crate::text::{Text, fixed_at, inline_part, is_out_of_line};
use crate::width::Width;

#[inline]
fn inline_text_at<W: Width>(bytes: &[u8], pos: usize) -> Option<&[u8]>
    requires { pos + text_size W.word ≤ length bytes.now }
    ensures { MatchOption result
        (IsOutOfLine W.word bytes.now pos)
        (λ text. IsInline W.word bytes.now pos
        × (text.now ≡ inline_at W.word bytes.now pos)) }
{
    let fixed = fixed_at::<W>(bytes, pos as u64);
    if is_out_of_line(fixed) {
        return None;
    }
    Some(inline_part(fixed))
}

#[inline]
fn inline_len<W: Width>(bytes: &[u8], pos: usize) -> Option<usize>
    requires { pos + text_size W.word ≤ length bytes.now }
    ensures { MatchOption result
        (IsOutOfLine W.word bytes.now pos)
        (λ len. IsInline W.word bytes.now pos
        × (len ≡ length (inline_at W.word bytes.now pos)) × (len ≤ text_size W.word)) }
{
    Some(inline_text_at::<W>(bytes, pos)?.len())
}

/// Writes each letter from a to z of the inline text at `pos` in upper case, and returns `true`.
///
/// Returns `false`, and changes no byte, if the text is out of line.
#[inline]
pub fn uppercase_at<W: Width>(bytes: &mut [u8], pos: usize) -> bool
    requires { pos + text_size W.word ≤ length bytes.old }
    ensures { Uppercases W.word bytes.old pos bytes.new result }
{
    match inline_len::<W>(&*bytes, pos) {
        Some(len) => {
            bytes[pos..pos + len].make_ascii_uppercase();
            true
        }
        None => false,
    }
}

impl<'a, W: Width> Seal<'a, Text<W>> {
    /// Returns the text, or `None` if it is out of line or, in invalid bytes, isn't UTF-8.
    #[inline]
    pub fn as_str(&self) -> Option<&str>
        requires { LiesIn (text_spec W.word) self.now }
        ensures { MatchOption result
            (LacksInlineText W.word (bytes_in self.now) (seal_pos self.now))
            (λ text. ReadsInline W.word (bytes_in self.now) (seal_pos self.now) text.now) }
    {
        let text = inline_text_at::<W>(&*self.bytes, self.pos)?;
        str::from_utf8(text).ok()
    }

    /// Writes inline text in upper case, as `uppercase_at` does.
    #[inline]
    pub fn make_ascii_uppercase(&mut self) -> bool
        requires { LiesIn (text_spec W.word) self.old }
        ensures stays { SealStays self.old self.new }
        ensures uppercased { Uppercases W.word (bytes_in self.old) (seal_pos self.old)
            (bytes_in self.new) result }
        ensures sealed { ModifiesOnly (bytes_in self.old) (seal_pos self.old)
            (text_size W.word) (bytes_in self.new) }
        ensures reads { IsInline W.word (bytes_in self.old) (seal_pos self.old) →
            text_at W.word (bytes_in self.new) (seal_pos self.old)
            ≡ map to_ascii_uppercase (text_at W.word (bytes_in self.old) (seal_pos self.old)) }
        ensures text { IsUtf8IfInline W.word (bytes_in self.old) (seal_pos self.old)
            → IsUtf8IfInline W.word (bytes_in self.new) (seal_pos self.old) }
        ensures is_valid { StaysValid (text_spec W.word)
            (bytes_in self.old) (bytes_in self.new) (seal_pos self.old) }
    {
        let pos = self.pos;
        let bytes = &mut *self.bytes;
        uppercase_at::<W>(bytes, pos)
    }
}
