//! A program that compares this library with archives and hashes of rkyv 0.8.18.
//!
//! It takes two files. A line of the first is an archive, and a line of the second a hash. Fields
//! are separated by tabs:
//!
//! ```text
//! COLLECTION  KEY TYPE  VALUE TYPE  WIDTH  COUNT  ENTRIES  BYTES
//! TYPE  VALUE  HASH
//! ```
//!
//! - COLLECTION is `map`, `set`, `index map` or `index set`. The value type of a set is `-`.
//! - ENTRIES are separated by blanks, in insertion order: `key=value`, or the item of a set. The
//!   keys are distinct. An empty text is `""`. Another text has no quote, blank, `=`, `,`, brace
//!   or tab. A value that is a map is `{key=value,key=value}`.
//! - BYTES are the archive, and HASH is the hash by `FxHasher64`, in hexadecimal digits.
//!
//! The table, map, set, index map, index set, group and hasher sources of rkyv 0.8.18 wrote the
//! archives and the hashes. They were compiled outside of this repository, little endian and
//! aligned, with the load factor 7 / 8. So buckets, control bytes, headers, entries, the order of
//! the parts and their alignment are rkyv's. Relative pointers, archived integers, the zeros of
//! padding and the layout of text follow rkyv's documentation: that code of rkyv was not run.
//!
//! For each archive, the program:
//!
//! - writes the entries in this order, and compares the bytes,
//! - opens the bytes of the line, and compares the length,
//! - looks up each key, and compares the value, and the index in an index map or an index set,
//! - looks up one more key, which is found if and only if it is among the entries,
//! - iterates, and compares the visited entries, in order for an index map or an index set,
//! - reads the collection back, and compares it.
//!
//! It ends with status 1 at the first difference, and prints it.
#![tactic(auto)]

mod archives;
mod comparisons;
mod counts;
mod entries;
mod errors;
mod fields;
mod hashes;
mod index_maps;
mod index_sets;
mod kinds;
mod line;
mod maps;
mod nested_maps;
mod sets;

use crate::archives::check_archive;
use crate::counts::Counts;
use crate::errors::{LineError, ProgramError, file_error, line_error};
use crate::hashes::{HashType, check_hash};
use crate::kinds::Kind;
use std::alloc::Global;
use std::process::ExitCode;
use std::{env, fs};

/// The text that is printed if the command line isn't two files.
const USAGE: &str = "usage: test_against_rkyv ARCHIVES HASHES

exit status: 0 if all lines agree, 1 if one differs, 2 if the command line isn't this, 3 if there is
another error";

/// Checks the archive of each line, and returns the number of lines of each kind.
fn check_archives(alloc: Global, file: &str, text: &str) -> Result<Counts<Kind>, ProgramError> {
    let mut counts = Counts::new(alloc);
    for (index, line) in text.lines().enumerate() {
        let checked = check_archive(alloc, line);
        counts.add(checked.map_err(|error| line_error(alloc, file, index, error))?)?;
    }
    Ok(counts)
}

/// Checks the hash of each line, and returns the number of lines of each type.
fn check_hashes(alloc: Global, file: &str, text: &str) -> Result<Counts<HashType>, ProgramError> {
    let mut counts = Counts::new(alloc);
    for (index, line) in text.lines().enumerate() {
        let checked = check_hash(alloc, line);
        counts.add(checked.map_err(|error| line_error(alloc, file, index, error))?)?;
    }
    Ok(counts)
}

/// Returns the text of a file.
fn read_file(rt: &HostRuntime, file: &str) -> Result<String, ProgramError> {
    fs::read_to_string(rt, file).map_err(|error| file_error(rt.alloc(), file, error))
}

/// Checks both files, and prints the numbers of archives and hashes that agree.
fn check_files(rt: &HostRuntime, archives: &str, hashes: &str) -> Result<(), ProgramError> {
    let text = read_file(rt, archives)?;
    let counts = check_archives(rt.alloc(), archives, text.as_str())?;
    print!(rt; "{counts}")?;
    println!(rt; "{} archives are the same bytes", counts.total())?;
    let text = read_file(rt, hashes)?;
    let counts = check_hashes(rt.alloc(), hashes, text.as_str())?;
    print!(rt; "{counts}")?;
    println!(rt; "{} hashes agree", counts.total())?;
    Ok(())
}

/// Checks the files of the command line.
fn run(rt: &HostRuntime) -> Result<(), ProgramError> {
    let mut words = env::args(rt).map_err(ProgramError::Arguments)?.skip(1);
    match (words.next(), words.next(), words.next()) {
        (Some(archives), Some(hashes), None) => {
            check_files(rt, archives.as_str(), hashes.as_str())
        }
        _ => Err(ProgramError::Misused),
    }
}

/// Returns the exit status of the program.
fn exit_status(outcome: &Result<(), ProgramError>) -> u8 {
    match outcome {
        Ok(()) => 0,
        Err(
            ProgramError::Line {
                error: LineError::Archive { .. } | LineError::Hash { .. },
                ..
            },
        ) => 1,
        Err(ProgramError::Misused) => 2,
        Err(_) => 3,
    }
}

fn main(rt: HostRuntime) -> ExitCode {
    let outcome = run(&rt);
    if let Err(error) = &outcome {
        let _ = eprintln!(rt; "{error}");
    }
    ExitCode::from(exit_status(&outcome))
}
