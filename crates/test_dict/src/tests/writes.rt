//! Writers of which one write fails, and the writes of the run.
ghost use Rattle.std.specs.Prelude.{◌<◌};

use crate::tests::scripts::{EXPECTED_OUTPUT, SCRIPT};
use rkyv_dict::run::{RunError, run};
use std::alloc::{AllocError, Global};
use std::io;
use std::io::Write;

/// A writer of at most `most` bytes of a piece, of which only one write fails.
#[derive(Drop)]
struct FailsOnce {
    taken: Vec<u8>,
    most: usize,
    writes: usize,
    fails_at: usize,
    kind: io::ErrorKind,
}

impl FailsOnce {
    // Returns a writer whose write of the number `fails_at` fails, counted from 1.
    fn new(alloc: Global, most: usize, fails_at: usize) -> FailsOnce {
        FailsOnce {
            taken: Vec::new(alloc),
            most,
            writes: 0,
            fails_at,
            kind: io::ErrorKind::Other,
        }
    }
}

impl Write for FailsOnce {
    fn write(&mut self, buf: &[u8]) -> io::Result<usize> {
        self.writes = self.writes.saturating_add(1);
        if self.writes == self.fails_at {
            return Err(io::Error::from(self.kind));
        }
        let n = buf.len().min(self.most);
        self.taken.extend_from_slice(&buf[..n])?;
        Ok(n)
    }

    fn flush(&mut self) -> io::Result<()> {
        Ok(())
    }
}

// How a run ends.
#[derive(Clone, Copy, Debug, PartialEq, Eq)]
enum Ending {
    Done,
    Read,
    Write,
    Memory,
}

// Runs a script into a writer.
fn outcome(alloc: Global, script: &[u8], writer: &mut FailsOnce) -> Ending {
    let mut reader = script;
    match run(alloc, &mut reader, writer) {
        Ok(()) => Ending::Done,
        Err(RunError::Read) => Ending::Read,
        Err(RunError::Write) => Ending::Write,
        Err(RunError::Memory) => Ending::Memory,
    }
}

// Returns `true` if the script's write of the number `fails_at` is the last one, the run fails with
// `Write`, and the writes before it have all their bytes of the output.
fn is_returned(alloc: Global, most: usize, fails_at: usize) -> bool {
    let mut writer = FailsOnce::new(alloc, most, fails_at);
    let outcome = outcome(alloc, SCRIPT, &mut writer);
    let before = fails_at.saturating_sub(1).saturating_mul(most);
    outcome == Ending::Write
        && writer.writes == fails_at
        && EXPECTED_OUTPUT.as_bytes().get(..before) == Some(writer.taken.as_slice())
}

// Returns the number of writes of at most `most` bytes for the whole output.
fn writes(most: usize) -> usize
    requires { 0 < most }
{
    EXPECTED_OUTPUT.len().div_ceil(most)
}

// Returns the number of the first write of at most `most` bytes whose failure isn't returned.
fn first_not_returned(alloc: Global, most: usize) -> Option<usize>
    requires { 0 < most }
{
    for fails_at in 1..writes(most).saturating_add(1) {
        if !is_returned(alloc, most, fails_at) {
            return Some(fails_at);
        }
    }
    None
}

#[test]
fn outcomes_of_failed_writes_are_returned(rt: HostRuntime) {
    expect_eq!(rt; first_not_returned(rt.alloc(), 1), None);
    expect_eq!(rt; first_not_returned(rt.alloc(), 7), None);
    expect_eq!(rt; first_not_returned(rt.alloc(), 64), None);
    expect_eq!(rt; first_not_returned(rt.alloc(), 1000), None);
    let mut writer = FailsOnce::new(rt.alloc(), 7, 3);
    writer.kind = io::ErrorKind::Interrupted;
    expect_eq!(rt; outcome(rt.alloc(), SCRIPT, &mut writer), Ending::Write);
    expect_eq!(rt; writer.writes, 3);
    expect_eq!(rt; writer.taken.as_slice(), b"built 60\n01000".as_slice());
    let mut writer = FailsOnce::new(rt.alloc(), 64, writes(64).saturating_add(1));
    expect_eq!(rt; outcome(rt.alloc(), SCRIPT, &mut writer), Ending::Done);
    expect_eq!(rt; writer.writes, writes(64));
    expect_eq!(rt; writer.taken.as_slice(), EXPECTED_OUTPUT.as_bytes());
}

// Returns a script whose output has two pieces of at least 65,536 bytes and a shorter one.
fn long_script(alloc: Global) -> Result<Vec<u8>, AllocError> {
    let mut script = Vec::new(alloc);
    script.extend_from_slice(b"put 1 2\nbuild\n")?;
    for _ in 0..1100 {
        script.extend_from_slice(b"hex\n")?;
    }
    Ok(script)
}

// Runs the long script into a writer that takes whole pieces.
// Returns the outcome, and the numbers of writes and of taken bytes.
fn long_outcome(alloc: Global, fails_at: usize) -> Result<(Ending, usize, usize), AllocError> {
    let script = long_script(alloc)?;
    let mut writer = FailsOnce::new(alloc, usize::MAX, fails_at);
    let outcome = outcome(alloc, script.as_slice(), &mut writer);
    Ok((outcome, writer.writes, writer.taken.len()))
}

// `built 60` is a line of 9 bytes, and each `hex` one of 121. So 542 lines of digits are the first
// that fill a piece, and so do the 542 after them.
#[test]
fn nothing_is_written_after_a_failed_write(rt: HostRuntime) {
    expect_eq!(rt; long_outcome(rt.alloc(), 1), Ok((Ending::Write, 1, 0)));
    expect_eq!(rt; long_outcome(rt.alloc(), 2), Ok((Ending::Write, 2, 9 + 542 * 121)));
    expect_eq!(rt; long_outcome(rt.alloc(), 3), Ok((Ending::Write, 3, 9 + 1084 * 121)));
    expect_eq!(rt; long_outcome(rt.alloc(), 4), Ok((Ending::Done, 3, 9 + 1100 * 121)));
}
