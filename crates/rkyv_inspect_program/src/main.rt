//! A program that inspects an archive in a file.
#![tactic(auto)]

mod errors;
mod file_inspection;
mod options;
mod outcome;

use crate::errors::{ProgramError, file_error};
use crate::file_inspection::{FileInspection, inspect_bytes};
use crate::options::{Options, USAGE};
use crate::outcome::{Outcome, exit_status};
use rkyv_container::{Contents, MAGIC};
use rkyv_inspect::{ContainerLine, Drawing, Printed};
use std::alloc::AllocError;
use std::io::{BufWriter, Write};
use std::process::ExitCode;
use std::{env, fs, io};

fn print(rt: &HostRuntime, found: &FileInspection<'_>, options: Options<'_>) -> io::Result<()> {
    let mut out = BufWriter::new(rt.alloc(), io::writer(rt))?;
    if options.svg {
        let drawing = Drawing::new(&found.inspection, found.archive.len());
        write!(out, "{drawing}")?;
    } else {
        if let Some(header) = found.header {
            write!(out, "{}", ContainerLine(header))?;
        }
        let printed = Printed::new(found.archive, &found.inspection, options.color);
        write!(out, "{printed}")?;
    }
    out.flush()
}

/// Prints the inspection of a file: a bare archive with these contents, or else a container.
fn inspect_file(
    rt: &HostRuntime,
    file: &str,
    contents: Option<Contents>,
    options: Options<'_>,
) -> Result<Outcome, ProgramError> {
    let bytes = read_file(rt, file)?;
    if contents.is_some() && bytes.as_slice().starts_with(MAGIC.as_slice()) {
        let _ = eprintln!(rt; "inspect: {file}: the file begins as a container");
    }
    let found = inspect_bytes(rt.alloc(), file, bytes.as_slice(), contents)?;
    print(rt, &found, options).map_err(ProgramError::Output)?;
    Ok(Outcome::Complete)
}

fn read_file(rt: &HostRuntime, file: &str) -> Result<Vec<u8>, ProgramError> {
    fs::read(rt, file).map_err(|error| file_error(rt.alloc(), file, error))
}

fn print_usage(rt: &HostRuntime) -> Outcome {
    let _ = rt.eprintln(USAGE);
    Outcome::Misused
}

fn execute(rt: &HostRuntime, words: &[String]) -> Result<Outcome, ProgramError> {
    let Some(options) = Options::parse(words) else {
        return Ok(print_usage(rt));
    };
    if options.help {
        println!(rt; "{USAGE}").map_err(ProgramError::Output)?;
        return Ok(Outcome::Complete);
    }
    let Some(file) = options.file else {
        return Ok(print_usage(rt));
    };
    if !options.is_bare() {
        return inspect_file(rt, file, None, options);
    }
    match options.contents() {
        Some(contents) => inspect_file(rt, file, Some(contents), options),
        None => Ok(print_usage(rt)),
    }
}

fn run(rt: &HostRuntime) -> Result<Outcome, ProgramError> {
    let given = env::args(rt).map_err(ProgramError::Arguments)?;
    let mut words = Vec::new(rt.alloc());
    for word in given.skip(1) {
        words.push(word).map_err(AllocError::from)?;
    }
    execute(rt, words.as_slice())
}

fn main(rt: HostRuntime) -> ExitCode {
    let outcome = run(&rt);
    if let Err(error) = &outcome {
        let _ = eprintln!(rt; "inspect: {error}");
    }
    ExitCode::from(exit_status(&outcome))
}
