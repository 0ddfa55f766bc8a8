//! The words of a line, and the values that they represent.
ghost use Rattle.rkyv_dict.specs.{bits_of_word, is_numeral, kind_of_word, number_of, one_of};
ghost use Rattle.rkyv_dict.specs.{parsed_by, parsed_by_both, parts_after, split_at, text_of};
ghost use Rattle.rkyv_dict.specs.{two_of, words_left, words_of};
ghost use Rattle.std.specs.Char.{digit_value, is_ascii_digit};
ghost use Rattle.std.specs.List.{list_all, position};
ghost use Rattle.std.specs.Option.{option_copied, option_map};
ghost use Rattle.std.specs.Prelude.{◌≡◌, ◌<◌, ◌≤◌, ◌==◌, ◌∷◌, IfSome, length, true};

use crate::form::{ArchiveWidth, Kind};

fn pos_of(bytes: &[u8], separator: u8) -> Option<usize>
    ensures { result ≡ position (λ b. b == separator) bytes.now }
{
    bytes.iter().position(|&b| b == separator)
}

/// Returns the bytes before the first byte `separator`, and those after it.
pub fn cut(bytes: &[u8], separator: u8) -> (&[u8], Option<&[u8]>)
    ensures parts { split_at separator bytes.now
        ≡ result.0.now ∷ parts_after separator (option_copied result.1) }
    ensures shorter { IfSome result.1 (λ rest. length rest.now < length bytes.now) }
{
    match pos_of(bytes, separator) {
        Some(i) => (&bytes[..i], Some(&bytes[i + 1..])),
        None => (bytes, None),
    }
}

/// Returns the string before the first space, and the string after it.
pub fn cut_word(text: &str) -> (&str, Option<&str>)
    ensures { words_of text.now ≡ result.0.now ∷ words_left result.1 }
{
    match text.split_once(' ') {
        Some((word, rest)) => (word, Some(rest)),
        None => (text, None),
    }
}

/// Returns the only word of the arguments, or `None` if they aren't one word.
#[tactic(auto, using(crate::proofs::Cuts::one_of_more))]
pub fn one_word(arguments: Option<&str>) -> Option<&str>
    ensures { option_copied result ≡ one_of (words_left arguments.entry) }
{
    let (word, more) = cut_word(arguments?);
    match more {
        Some(_) => None,
        None => Some(word),
    }
}

/// Returns the two words of the arguments, or `None` if they aren't two words.
#[tactic(auto, using(crate::proofs::Cuts::two_of_more))]
pub fn two_words(arguments: Option<&str>) -> Option<(&str, &str)>
    ensures { option_map (λ p. (p.0.now, p.1.now)) result ≡ two_of (words_left arguments.entry) }
{
    let (first, more) = cut_word(arguments?);
    let (second, more) = cut_word(more?);
    match more {
        Some(_) => None,
        None => Some((first, second)),
    }
}

fn all_digits(word: &[u8]) -> bool
    ensures { result ≡ list_all is_ascii_digit word.now }
{
    word.iter().all(|b| b.is_ascii_digit())
}

fn is_numeral(word: &[u8]) -> bool
    ensures { result ≡ is_numeral word.now }
{
    all_digits(word) && !matches!(word, [] | [b'0', _, ..])
}

fn digit(glyph: u8) -> u8
    requires { is_ascii_digit glyph ≡ true }
    ensures value { result ≡ digit_value glyph }
    ensures small { result < 10 }
{
    glyph - b'0'
}

/// Returns the integer that the word represents, if it is at most `most`.
pub fn number(word: &[u8], most: u64) -> Option<u64>
    ensures value { result ≡ number_of most word.now }
    ensures small { IfSome result (λ n. n ≤ most) }
{
    if !is_numeral(word) {
        return None;
    }
    let mut value = 0;
    for &glyph in word {
        let next = u128::from(value) * 10 + u128::from(digit(glyph));
        if next > u128::from(most) {
            return None;
        }
        value = next as u64;
    }
    Some(value)
}

/// Returns the only argument as an integer, if it is one of at most `most`.
pub fn one_number(arguments: Option<&str>, most: u64) -> Option<u64>
    ensures value { result ≡ parsed_by (number_of most) (one_of (words_left arguments.entry)) }
    ensures small { IfSome result (λ n. n ≤ most) }
{
    number(one_word(arguments)?.as_bytes(), most)
}

/// Returns the two arguments as integers, if they are two of at most `most`.
pub fn two_numbers(arguments: Option<&str>, most: u64) -> Option<(u64, u64)>
    ensures value { result ≡ parsed_by_both (number_of most) (two_of (words_left arguments.entry)) }
    ensures small { IfSome result (λ p. (p.0 ≤ most) × (p.1 ≤ most)) }
{
    let (first, second) = two_words(arguments)?;
    let a = number(first.as_bytes(), most)?;
    let b = number(second.as_bytes(), most)?;
    Some((a, b))
}

fn text(word: &str) -> Option<&str>
    ensures { option_copied result ≡ text_of word.now }
{
    if word.is_empty() { None } else { Some(word) }
}

/// Returns the only argument as a string of at least one byte.
pub fn one_text(arguments: Option<&str>) -> Option<&str>
    ensures { option_copied result ≡ parsed_by text_of (one_of (words_left arguments.entry)) }
{
    text(one_word(arguments)?)
}

/// Returns the two arguments as strings of at least one byte each.
pub fn two_texts(arguments: Option<&str>) -> Option<(&str, &str)>
    ensures { option_map (λ p. (p.0.now, p.1.now)) result
        ≡ parsed_by_both text_of (two_of (words_left arguments.entry)) }
{
    let (first, second) = two_words(arguments)?;
    Some((text(first)?, text(second)?))
}

/// Returns the kind with the name `num` or `text`.
pub fn kind_by_name(word: &str) -> Option<Kind>
    ensures { result ≡ kind_of_word word.now }
{
    match word {
        "num" => Some(Kind::Num),
        "text" => Some(Kind::Text),
        _ => None,
    }
}

/// Returns the width with the name `32` or `64`.
pub fn bits_by_name(word: &str) -> Option<ArchiveWidth>
    ensures { result ≡ bits_of_word word.now }
{
    match word {
        "32" => Some(ArchiveWidth::Bits32),
        "64" => Some(ArchiveWidth::Bits64),
        _ => None,
    }
}
