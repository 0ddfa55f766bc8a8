//! Readers and writers that fail, and the exit status of the run.

use crate::tests::scripts::{EXPECTED_OUTPUT, SCRIPT, outputs};
use rkyv_dict::run::{RunError, exit_status, run};
use std::alloc::{AllocError, Global};
use std::io;
use std::io::{Read, Write};

/// A reader of at most `most` bytes at a time. It fails once with `kind`, at `fails_at` bytes left.
#[derive(Drop)]
struct Slow<'a> {
    rest: &'a [u8],
    most: usize,
    fails_at: Option<usize>,
    kind: io::ErrorKind,
}

impl Read for Slow<'_> {
    fn read(&mut self, buf: &mut [u8]) -> io::Result<usize> {
        if self.fails_at == Some(self.rest.len()) {
            self.fails_at = None;
            return Err(io::Error::from(self.kind));
        }
        let n = buf.len().min(self.most).min(self.rest.len());
        let (front, rest) = self.rest.split_at(n);
        buf[..n].copy_from_slice(front);
        self.rest = rest;
        Ok(n)
    }
}

/// A writer of at most `most` bytes of a piece, which fails after `left` bytes.
#[derive(Drop)]
struct Short {
    taken: Vec<u8>,
    most: usize,
    left: usize,
}

impl Write for Short {
    fn write(&mut self, buf: &[u8]) -> io::Result<usize> {
        if self.left == 0 {
            return Err(io::Error::from(io::ErrorKind::Other));
        }
        let n = buf.len().min(self.most).min(self.left);
        self.taken.extend_from_slice(&buf[..n])?;
        self.left -= n;
        Ok(n)
    }

    fn flush(&mut self) -> io::Result<()> {
        Ok(())
    }
}

// Runs the script from a reader that fails once with `kind`, at `left` bytes left.
// Returns the exit status and the written bytes.
fn read_fails(alloc: Global, kind: io::ErrorKind, most: usize, left: usize) -> (u8, Vec<u8>) {
    let mut out = Vec::new(alloc);
    let mut reader = Slow {
        rest: SCRIPT,
        most,
        fails_at: Some(left),
        kind,
    };
    let outcome = run(alloc, &mut reader, &mut out);
    (exit_status(&outcome), out)
}

// Runs the script into a writer that fails after `left` bytes.
// Returns the exit status and the written bytes.
fn write_fails(alloc: Global, most: usize, left: usize) -> (u8, Vec<u8>) {
    let mut writer = Short {
        taken: Vec::new(alloc),
        most,
        left,
    };
    let mut reader = SCRIPT;
    let outcome = run(alloc, &mut reader, &mut writer);
    (exit_status(&outcome), writer.taken)
}

// Returns whether a run into a writer that fails after `left` bytes writes just these bytes.
fn leaves_a_prefix(alloc: Global, most: usize, left: usize) -> bool {
    let (status, taken) = write_fails(alloc, most, left);
    match EXPECTED_OUTPUT.as_bytes().get(..left) {
        Some(beginning) => status == 3 && taken.as_slice() == beginning,
        None => false,
    }
}

// Returns the number of bytes of the first run into a failing writer that doesn't write just these.
fn first_wrong_prefix(alloc: Global, most: usize) -> Option<usize> {
    for left in 0..EXPECTED_OUTPUT.len() {
        if !leaves_a_prefix(alloc, most, left) {
            return Some(left);
        }
    }
    None
}

// Returns the script after `count` empty lines.
fn behind_empty_lines(alloc: Global, count: usize) -> Result<Vec<u8>, AllocError> {
    let mut script = vec![in alloc; b'\n'; count]?;
    script.extend_from_slice(SCRIPT)?;
    Ok(script)
}

// Returns the messages of all errors.
fn messages(alloc: Global) -> Result<String, AllocError> {
    let (read, write, memory) = (RunError::Read, RunError::Write, RunError::Memory);
    format!(in alloc; "{read}, {write}, {memory}")
}

#[test]
fn outcomes_have_messages_and_exit_statuses(rt: HostRuntime) -> Result<(), AllocError> {
    let text = messages(rt.alloc())?;
    expect_eq!(rt; text.as_str(), "read fault, write fault, no memory");
    let (read, write, memory) = (RunError::Read, RunError::Write, RunError::Memory);
    for (outcome, status) in [
        (Ok(()), 0),
        (Err(read), 2),
        (Err(write), 3),
        (Err(memory), 4),
    ] {
        expect_eq!(rt; exit_status(&outcome), status);
    }
    Ok(())
}

// A row has the error, the greatest number of bytes of a read, and the number of bytes left.
#[test]
fn a_read_that_fails_ends_the_run(rt: HostRuntime) {
    let rows = [
        (io::ErrorKind::Other, 1, 0),
        (io::ErrorKind::Other, 1, 20),
        (io::ErrorKind::Other, 100, SCRIPT.len()),
        (io::ErrorKind::Interrupted, 1, 20),
    ];
    for (kind, most, left) in rows {
        let (status, written) = read_fails(rt.alloc(), kind, most, left);
        expect_eq!(rt; (kind, left, status, written.len()), (kind, left, 2, 0));
    }
}

#[test]
fn many_reads_are_made(rt: HostRuntime) -> Result<(), AllocError> {
    let script = behind_empty_lines(rt.alloc(), 3000)?;
    let mut reader = Slow {
        rest: script.as_slice(),
        most: 1,
        fails_at: None,
        kind: io::ErrorKind::Other,
    };
    let mut out = Vec::new(rt.alloc());
    expect_eq!(rt; exit_status(&run(rt.alloc(), &mut reader, &mut out)), 0);
    expect_eq!(rt; out.as_slice(), EXPECTED_OUTPUT.as_bytes());
    Ok(())
}

// A row has the greatest number of bytes of a write, the number of bytes after which it fails, the
// exit status and the written text.
#[test]
fn failed_write_leaves_a_prefix(rt: HostRuntime) {
    expect_eq!(rt; first_wrong_prefix(rt.alloc(), 7), None);
    let rows = [
        (1, EXPECTED_OUTPUT.len(), 0, EXPECTED_OUTPUT),
        (0, 9, 3, ""),
    ];
    for (most, left, status, output) in rows {
        let (found, taken) = write_fails(rt.alloc(), most, left);
        expect_eq!(rt; (most, found, taken.as_slice()), (most, status, output.as_bytes()));
    }
}

#[test]
fn script_has_the_expected_output(rt: HostRuntime) {
    assert!(rt; outputs(rt.alloc(), SCRIPT, EXPECTED_OUTPUT));
}
