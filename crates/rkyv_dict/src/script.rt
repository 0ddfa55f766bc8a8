//! The commands of a script, and the parser of a line.
ghost use Rattle.rkyv_dict.specs.{NeedMemory, check_request, command_request, get_request};
ghost use Rattle.rkyv_dict.specs.{kind_request, load_factor_request, put_request, request_by};
ghost use Rattle.rkyv_dict.specs.{request_of, width_request, without_arguments, words_left};
ghost use Rattle.rkyv_dict.specs.{words_of};
ghost use Rattle.std.specs.Option.{option_map};
ghost use Rattle.std.specs.Prelude.{◌≡◌, ◌∷◌, IfOk, OnErr, codes};

use crate::form::{ArchiveWidth, Key, Kind};
use crate::hex::read_hex;
use crate::words::{
    bits_by_name, cut_word, kind_by_name, one_number, one_text, one_word, two_numbers, two_texts,
};
use std::alloc::{AllocError, Global};
use std::str;

/// The command of a line. Its strings are borrowed from the line.
#[derive(Debug, Drop)]
pub enum Command<'a> {
    /// Sets the kind, and empties the list and the archive.
    SetKind(Kind),
    /// Sets the width, and empties the list and the archive.
    SetWidth(ArchiveWidth),
    /// Sets the load factor: its numerator and its denominator.
    SetLoadFactor(u64, u64),
    /// Appends a pair of integers to the list: its key and its value.
    PutNumbers(u32, u32),
    /// Appends a pair of strings to the list: its key and its value.
    PutTexts(&'a str, &'a str),
    /// Archives the list.
    Build,
    /// Validates these bytes, and keeps them as the archive if they are valid.
    Check(Vec<u8>),
    /// Shows the bytes of the archive.
    Hex,
    /// Looks up a key in the archive.
    Get(Key<'a>),
    /// Shows the pairs of the archive.
    ListPairs,
    /// Counts the keys of the archive that their own lookup doesn't find.
    Audit,
}

#[tactic(auto, using(crate::proofs::Cuts::without_arguments_of_more))]
fn without_arguments<'a>(command: Command<'a>, arguments: Option<&str>) -> Option<Command<'a>>
    ensures { option_map command_request result
        ≡ without_arguments (command_request command.entry) (words_left arguments.entry) }
{
    match arguments {
        Some(_) => None,
        None => Some(command),
    }
}

fn set_kind(arguments: Option<&str>) -> Option<Command<'_>>
    ensures { option_map command_request result ≡ kind_request (words_left arguments.entry) }
{
    Some(Command::SetKind(kind_by_name(one_word(arguments)?)?))
}

fn set_width(arguments: Option<&str>) -> Option<Command<'_>>
    ensures { option_map command_request result ≡ width_request (words_left arguments.entry) }
{
    Some(Command::SetWidth(bits_by_name(one_word(arguments)?)?))
}

fn set_load_factor(arguments: Option<&str>) -> Option<Command<'_>>
    ensures { option_map command_request result ≡ load_factor_request (words_left arguments.entry) }
{
    let (numerator, denominator) = two_numbers(arguments, u64::MAX)?;
    Some(Command::SetLoadFactor(numerator, denominator))
}

/// The greatest key and the greatest value of a map of integers.
const MOST_NUMBER: u64 = 4_294_967_295;

fn put(kind: Kind, arguments: Option<&str>) -> Option<Command<'_>>
    ensures { option_map command_request result ≡ put_request kind (words_left arguments.entry) }
{
    match kind {
        Kind::Num => {
            let (key, value) = two_numbers(arguments, MOST_NUMBER)?;
            Some(Command::PutNumbers(key as u32, value as u32))
        }
        Kind::Text => {
            let (key, value) = two_texts(arguments)?;
            Some(Command::PutTexts(key, value))
        }
    }
}

fn get(kind: Kind, arguments: Option<&str>) -> Option<Command<'_>>
    ensures { option_map command_request result ≡ get_request kind (words_left arguments.entry) }
{
    match kind {
        Kind::Num => {
            let key = one_number(arguments, MOST_NUMBER)?;
            Some(Command::Get(Key::Number(key as u32)))
        }
        Kind::Text => Some(Command::Get(Key::Text(one_text(arguments)?))),
    }
}

#[tactic(auto, using(crate::proofs::Cuts::needs_memory))]
fn check(alloc: Global, arguments: Option<&str>) -> Result<Option<Command<'_>>, AllocError>
    ensures request { IfOk result (λ command.
        option_map command_request command ≡ check_request (words_left arguments.entry)) }
    ensures allocates { OnErr result (NeedMemory (codes "check" ∷ words_left arguments.entry)) }
{
    match one_word(arguments) {
        None | Some("") => Ok(None),
        Some(word) => match read_hex(alloc, word.as_bytes())? {
            Some(bytes) => Ok(Some(Command::Check(bytes))),
            None => Ok(None),
        },
    }
}

#[tactic(auto, unfolding(crate::specs::Script::request_by), using(crate::proofs::Cuts::needs_memory_as))]
fn by_verb<'a>(
    alloc: Global,
    kind: Kind,
    verb: &str,
    arguments: Option<&'a str>,
) -> Result<Option<Command<'a>>, AllocError>
    ensures request { IfOk result (λ command. option_map command_request command
        ≡ request_by kind verb.now (words_left arguments.entry)) }
    ensures allocates { OnErr result (NeedMemory (verb.now ∷ words_left arguments.entry)) }
{
    match verb {
        "kind" => Ok(set_kind(arguments)),
        "width" => Ok(set_width(arguments)),
        "lf" => Ok(set_load_factor(arguments)),
        "put" => Ok(put(kind, arguments)),
        "build" => Ok(without_arguments(Command::Build, arguments)),
        "check" => check(alloc, arguments),
        "hex" => Ok(without_arguments(Command::Hex, arguments)),
        "get" => Ok(get(kind, arguments)),
        "list" => Ok(without_arguments(Command::ListPairs, arguments)),
        "audit" => Ok(without_arguments(Command::Audit, arguments)),
        _ => Ok(None),
    }
}

/// Parses a line that isn't empty; returns `None` for a bad line.
///
/// - One space separates two words.
/// - An integer is `0`, or decimal digits without a leading zero.
/// - A string is a word of at least one byte.
/// - Bytes are pairs of hexadecimal digits of either case.
///
/// Fails with `AllocError` only at `check` and one word.
#[tactic(auto, unfolding(crate::specs::Script::request_of), using(crate::proofs::Texts::utf8_yes, crate::proofs::Texts::utf8_no))]
pub fn read_command(
    alloc: Global,
    kind: Kind,
    line: &[u8],
) -> Result<Option<Command<'_>>, AllocError>
    ensures request { IfOk result (λ command.
        option_map command_request command ≡ request_of kind line.now) }
    ensures allocates { OnErr result (NeedMemory (words_of line.now)) }
{
    let Ok(text) = str::from_utf8(line) else {
        return Ok(None);
    };
    let (verb, arguments) = cut_word(text);
    by_verb(alloc, kind, verb, arguments)
}
