//! A symbol table of the output of `nm`: written to files, read back, looked up and listed.
#![tactic(auto)]

ghost use Rattle.std.specs.Iterator.{IsFinite};
ghost use Rattle.std.specs.Prelude.{IfErr, IfOk, IsTrue, List, MatchResult, None, Ok, Some, drop};
ghost use Rattle.std.specs.Prelude.{false, length, map, string_bytes, ℕ, ◌<◌, ◌↔◌, ◌≡◌, ◌≢◌};
ghost use Rattle.std.specs.Str.Lines.{lines};
ghost use Rattle.example_symbols.specs.{IsTable, address_found, symbols_of};
ghost use Rattle.example_symbols_program.specs.{FileFails, IsInputError, IsOutcomeFor, LooksUpAll};
ghost use Rattle.example_symbols_program.specs.{RejectsTable, command_of, outcome_of};
ghost use Rattle.example_symbols_program.specs.{outcome_of_names};

mod by_address;
mod command;
mod errors;
mod outcome;

use crate::command::{Command, USAGE, command_of};
use crate::errors::{SymbolsError, file_error, invalid_error, write_error};
use crate::outcome::{Outcome, exit_status};
use example_symbols::lines::parse;
use example_symbols::table::{address_in, archive, check};
use std::alloc::AllocError;
use std::io::{BufWriter, Write};
use std::process::ExitCode;
use std::{env, fs, io};

/// Writes the table of the symbols to one file, and their index to another.
fn write(
    rt: &HostRuntime,
    symbols: &[(&str, u64)],
    table: &str,
    index: &str,
) -> Result<(), SymbolsError> {
    let bytes = archive(rt.alloc(), symbols);
    let bytes = bytes.map_err(|error| write_error(rt.alloc(), table, error))?;
    write_file(rt, table, bytes.as_slice())?;
    let bytes = by_address::archive(rt.alloc(), symbols);
    let bytes = bytes.map_err(|error| write_error(rt.alloc(), index, error))?;
    write_file(rt, index, bytes.as_slice())?;
    println!(rt; "symbols {}", symbols.len())?;
    Ok(())
}

/// Writes the bytes to a file.
fn write_file(rt: &HostRuntime, file: &str, bytes: &[u8]) -> Result<(), SymbolsError>
    ensures { IfErr result (FileFails file.now) }
{
    fs::write(rt, file, bytes).map_err(|error| file_error(rt.alloc(), file, error))
}

/// Returns the bytes of a file.
fn read_file(rt: &HostRuntime, file: &str) -> Result<Vec<u8>, SymbolsError>
    ensures { IfErr result (FileFails file.now) }
{
    fs::read(rt, file).map_err(|error| file_error(rt.alloc(), file, error))
}

/// Returns the text on standard input.
fn read_input(rt: &HostRuntime) -> Result<String, SymbolsError>
    ensures { IfErr result IsInputError }
{
    io::read_to_string(rt.alloc(), rt.reader()).map_err(SymbolsError::Input)
}

/// Writes the address of a name in a table, or a line with `none`.
fn write_address<W: Write>(out: &mut W, table: &[u8], name: &str) -> Result<Outcome, SymbolsError>
    requires { IsTable table.now }
    ensures { IfOk result (λ outcome. outcome ≡ outcome_of (address_found name.now table.now)) }
{
    match address_in(table, name) {
        Some(address) => {
            writeln!(out, "{address:016x} {name}")?;
            Ok(Outcome::Complete)
        }
        None => {
            writeln!(out, "none {name}")?;
            Ok(Outcome::Missing)
        }
    }
}

/// Validates the table of a file.
fn validate(rt: &HostRuntime, file: &str, table: &[u8]) -> Result<(), SymbolsError>
    ensures { MatchResult result (λ _. IsTable table.now)
        (RejectsTable file.now table.now) }
{
    check(table).map_err(|error| invalid_error(rt.alloc(), file, error))
}

/// Writes the address of each name in a table, or a line with `none`.
///
/// # Requires
///
/// - The bytes are a valid table.
/// - The iterator ends.
fn write_addresses<'a, W: Write, I: Iterator<Item = &'a str> + Drop>(
    out: &mut W,
    table: &[u8],
    names: I,
) -> Result<Outcome, SymbolsError>
    requires valid { IsTable table.now }
    requires ready { I.can_next names }
    requires ends { IsFinite (I.remaining names) }
    ensures { IfOk result (λ outcome. LooksUpAll I.next_gives names table.now outcome) }
{
    let mut missing = false;
    for name in names {
        missing |= matches!(write_address(out, table, name)?, Outcome::Missing);
    }
    Ok(Outcome::of_lookups(missing))
}

/// Writes the addresses of the arguments, or of the lines of standard input if there are none.
///
/// # Requires
///
/// - The bytes are a valid table.
fn write_requested<W: Write>(
    rt: &HostRuntime,
    out: &mut W,
    table: &[u8],
    names: &[String],
) -> Result<Outcome, SymbolsError>
    requires { IsTable table.now }
    ensures names { 0 < length names.now → IfOk result (λ outcome.
        outcome ≡ outcome_of_names table.now (map string_bytes names.now)) }
    ensures lines { length names.now ≡ 0 → IfOk result (λ outcome.
        (text : List ℕ) × (outcome ≡ outcome_of_names table.now (lines text))) }
{
    if names.is_empty() {
        let text = read_input(rt)?;
        write_addresses(out, table, text.as_str().lines())
    } else {
        write_addresses(out, table, names.iter().map(|name| name.as_str()))
    }
}

/// Prints the addresses of names in the table of a file.
///
/// The names are the arguments, or the lines of standard input if there are no arguments.
fn get(rt: &HostRuntime, table: &str, names: &[String]) -> Result<Outcome, SymbolsError>
    ensures names { 0 < length names.now
        → IfOk result (IsOutcomeFor (map string_bytes names.now)) }
    ensures lines { length names.now ≡ 0
        → IfOk result (λ outcome. (text : List ℕ) × IsOutcomeFor (lines text) outcome) }
    ensures no_misuse { IfOk result (λ outcome. outcome ≢ Outcome.Misused) }
{
    let bytes = read_file(rt, table)?;
    validate(rt, table, bytes.as_slice())?;
    let mut out = BufWriter::new(rt.alloc(), io::writer(rt))?;
    let outcome = write_requested(rt, &mut out, bytes.as_slice(), names)?;
    out.flush()?;
    Ok(outcome)
}

/// Prints the names in the index of a file, by ascending address.
fn list(rt: &HostRuntime, index: &str) -> Result<Outcome, SymbolsError>
    ensures { IfOk result (λ outcome. outcome ≡ Outcome.Complete) }
{
    let bytes = read_file(rt, index)?;
    let opened = by_address::open(bytes.as_slice());
    let map = opened.map_err(|error| invalid_error(rt.alloc(), index, error))?;
    let mut out = BufWriter::new(rt.alloc(), io::writer(rt))?;
    for i in 0..map.len() {
        if let Some((address, name)) = by_address::entry(map, i) {
            writeln!(out, "{address:016x} {name}")?;
        }
    }
    out.flush()?;
    Ok(Outcome::Complete)
}

/// Validates a table without its last byte, and prints the result.
fn cut_short(rt: &HostRuntime, table: &[u8]) -> Result<(), SymbolsError> {
    if let Some((_, front)) = table.split_last() {
        match check(front) {
            Ok(()) => println!(rt; "cut short: accepted")?,
            Err(failure) => println!(rt; "cut short: {failure:?}")?,
        }
    }
    Ok(())
}

/// Writes the table and the index of the lines of standard input to files.
///
/// If `all` is `true`, it then reads the files back and prints:
///
/// - the address of each name in the table,
/// - the entries of the index,
/// - the validation error of the table without its last byte.
fn build(rt: &HostRuntime, table: &str, index: &str, all: bool) -> Result<Outcome, SymbolsError>
    ensures all { IsTrue all → IfOk result (λ outcome. (text : List ℕ)
        × IsOutcomeFor (map (λ symbol. symbol.0) (symbols_of text)) outcome) }
    ensures write { all ≡ false → IfOk result (λ outcome. outcome ≡ Outcome.Complete) }
    ensures no_misuse { IfOk result (λ outcome. outcome ≢ Outcome.Misused) }
{
    let text = read_input(rt)?;
    let symbols = parse(rt.alloc(), text.as_str())?;
    write(rt, symbols.as_slice(), table, index)?;
    if !all {
        return Ok(Outcome::Complete);
    }
    let bytes = read_file(rt, table)?;
    validate(rt, table, bytes.as_slice())?;
    let mut out = BufWriter::new(rt.alloc(), io::writer(rt))?;
    let names = symbols.as_slice().iter().map(|symbol| symbol.0);
    let outcome = write_addresses(&mut out, bytes.as_slice(), names)?;
    out.flush()?;
    list(rt, index)?;
    cut_short(rt, bytes.as_slice())?;
    Ok(outcome)
}

/// Prints the usage to standard error.
fn print_usage(rt: &HostRuntime) -> Outcome
    ensures { result ≡ Outcome.Misused }
{
    let _ = rt.eprintln(USAGE);
    Outcome::Misused
}

/// Executes the command with the name and the arguments.
///
/// If they are no command, it prints the usage to standard error.
fn execute(rt: &HostRuntime, name: &str, arguments: &[String]) -> Result<Outcome, SymbolsError>
    ensures misused { (result ≡ Ok Outcome.Misused)
        ↔ (command_of name.now (length arguments.now) ≡ None) }
    ensures get { command_of name.now (length arguments.now) ≡ Some Command.Get
        → 1 < length arguments.now
        → IfOk result (IsOutcomeFor (map string_bytes (drop 1 arguments.now))) }
    ensures lines { command_of name.now (length arguments.now) ≡ Some Command.Get
        → length arguments.now ≡ 1
        → IfOk result (λ outcome. (text : List ℕ) × IsOutcomeFor (lines text) outcome) }
    ensures all { command_of name.now (length arguments.now) ≡ Some Command.All
        → IfOk result (λ outcome. (text : List ℕ)
        × IsOutcomeFor (map (λ symbol. symbol.0) (symbols_of text)) outcome) }
    ensures write { command_of name.now (length arguments.now) ≡ Some Command.Write
        → IfOk result (λ outcome. outcome ≡ Outcome.Complete) }
    ensures list { command_of name.now (length arguments.now) ≡ Some Command.List
        → IfOk result (λ outcome. outcome ≡ Outcome.Complete) }
    ensures help { command_of name.now (length arguments.now) ≡ Some Command.Help
        → IfOk result (λ outcome. outcome ≡ Outcome.Complete) }
{
    match command_of(name, arguments.len()) {
        Some(Command::Help) => {
            println!(rt; "{USAGE}")?;
            Ok(Outcome::Complete)
        }
        Some(Command::Write) => build(rt, arguments[0].as_str(), arguments[1].as_str(), false),
        Some(Command::All) => build(rt, arguments[0].as_str(), arguments[1].as_str(), true),
        Some(Command::Get) => get(rt, arguments[0].as_str(), &arguments[1..]),
        Some(Command::List) => list(rt, arguments[0].as_str()),
        None => Ok(print_usage(rt)),
    }
}

/// Executes the command of the command line.
fn run(rt: &HostRuntime) -> Result<Outcome, SymbolsError> {
    let given = env::args(rt).map_err(SymbolsError::Arguments)?;
    let mut words = Vec::new(rt.alloc());
    for word in given.skip(1) {
        words.push(word).map_err(AllocError::from)?;
    }
    match words.as_slice().split_first() {
        Some((name, arguments)) => execute(rt, name.as_str(), arguments),
        None => Ok(print_usage(rt)),
    }
}

fn main(rt: HostRuntime) -> ExitCode {
    let outcome = run(&rt);
    if let Err(error) = &outcome {
        let _ = eprintln!(rt; "symbols: {error}");
    }
    ExitCode::from(exit_status(&outcome))
}
