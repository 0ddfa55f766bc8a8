//! Reads a script from a reader, and writes its output to a writer.
//!
//! 1. The script is read to the end, in pieces.
//! 2. Each line is executed by `dict`.
//! 3. The buffered output is written when it has at least one piece, and at the end.
ghost use Rattle.rkyv_dict.specs.{AppendsBeginning, AppendsOutput, AppendsProperBeginning};
ghost use Rattle.rkyv_dict.specs.{AppendsProperFront, Gathers, MovesFront, message_of};
ghost use Rattle.rkyv_dict.specs.declared.run.RunError.TheVariants.{Memory};
ghost use Rattle.std.specs.Io.KnownBytes.{Appends, IsAtEnd};
ghost use Rattle.std.specs.Prelude.{◌≡◌, ◌≢◌, ◌<◌, IfErr, IfOk, IfSome, IsErrOf, IsTrue, OnErr};
ghost use Rattle.std.specs.Prelude.{OnOk, Some, false, length, string_bytes, vec_len};

use crate::dict::Dict;
use crate::words::cut;
use std::alloc::{AllocError, Global};
use std::error::Error;
use std::fmt;
use std::io::{Read, Write};

/// The reason why a run failed.
#[derive(Debug, Drop)]
pub enum RunError {
    /// A read failed, or 9,223,372,036,854,775,807 reads met no end. Nothing is written.
    Read,
    /// A write failed, or wrote no byte of a piece. A prefix of the output may be written.
    Write,
    /// An allocation failed. A prefix of the output may be written.
    Memory,
}

impl fmt::Display for RunError {
    ghost output = { λ e. Some (message_of e) };

    fn fmt<W: fmt::Write>(&self, f: &mut fmt::Formatter<W>) -> fmt::Result {
        match self {
            RunError::Read => f.write_str("read fault"),
            RunError::Write => f.write_str("write fault"),
            RunError::Memory => f.write_str("no memory"),
        }
    }
}

impl Error for RunError {}

/// Returns the exit status of a program: 0 for `Ok`, 2 for `Read`, 3 for `Write`, 4 for `Memory`.
pub fn exit_status(outcome: &Result<(), RunError>) -> u8
    ensures success { OnOk outcome.now (result ≡ 0) }
    ensures read { IsErrOf outcome.now RunError.Read → result ≡ 2 }
    ensures write { IsErrOf outcome.now RunError.Write → result ≡ 3 }
    ensures memory { IsErrOf outcome.now RunError.Memory → result ≡ 4 }
{
    match outcome {
        Ok(()) => 0,
        Err(RunError::Read) => 2,
        Err(RunError::Write) => 3,
        Err(RunError::Memory) => 4,
    }
}

impl From<AllocError> for RunError {
    ghost from_gives = { λ _ e. e ≡ Memory };

    fn from(_e: AllocError) -> RunError {
        RunError::Memory
    }
}

/// The most bytes that one read asks for, and the number of buffered bytes that causes a write.
const PIECE: usize = 65_536;

const MOST_READS: u64 = 9_223_372_036_854_775_807;

/// Appends the bytes of one read to the input, and returns `true` only at the reader's end.
fn read_piece<R: Read>(
    reader: &mut R,
    piece: &mut [u8],
    input: &mut Vec<u8>,
) -> Result<bool, RunError>
    requires { 0 < length piece.old }
    ensures gathers { OnOk result (Gathers (R.remaining reader.old) (R.remaining reader.new)
        input.old.items input.new.items) }
    ensures end { IfOk result (λ ended. IsTrue ended → IsAtEnd (R.remaining reader.new)) }
    ensures more { IfOk result (λ ended. ended ≡ false → vec_len input.old < vec_len input.new) }
    ensures causes { IfErr result (λ e. e ≢ RunError.Write) }
{
    match reader.read(piece) {
        Ok(0) => Ok(true),
        Ok(n) => {
            input.extend_from_slice(&piece[..n])?;
            Ok(false)
        }
        Err(_) => Err(RunError::Read),
    }
}

fn room(alloc: Global, len: usize) -> Result<Vec<u8>, AllocError>
    ensures { IfOk result (λ v. vec_len v ≡ len) }
{
    vec![in alloc; 0u8; len]
}

#[tactic(auto, using(crate::proofs::Writing::gathers_more))]
fn read_input<R: Read>(alloc: Global, reader: &mut R) -> Result<Vec<u8>, RunError>
    ensures whole { IfOk result (λ input.
        IfSome (R.remaining reader.old) (λ bytes. input.items ≡ bytes)) }
    ensures end { OnOk result (IsAtEnd (R.remaining reader.new)) }
    ensures causes { IfErr result (λ e. e ≢ RunError.Write) }
{
    let mut input = Vec::new(alloc);
    let mut piece = room(alloc, PIECE)?;
    for _turn in 0..MOST_READS {
        if read_piece(reader, piece.as_mut_slice(), &mut input)? {
            return Ok(input);
        }
    }
    Err(RunError::Read)
}

fn write_piece<W: Write>(writer: &mut W, piece: &[u8]) -> Result<(), RunError>
    ensures ok { OnOk result (Appends (W.contents writer.old) (W.contents writer.new) piece.now) }
    ensures front { OnErr result
        (AppendsProperFront (W.contents writer.old) (W.contents writer.new) piece.now) }
    ensures cause { IfErr result (λ e. e ≡ RunError.Write) }
{
    let mut rest = piece;
    while !rest.is_empty() {
        match writer.write(rest) {
            Ok(0) => return Err(RunError::Write),
            Ok(n) => rest = rest.split_at(n).1,
            Err(_) => return Err(RunError::Write),
        }
    }
    Ok(())
}

/// Writes the buffered output and empties it, if it has at least `PIECE` bytes.
fn write_much<W: Write>(writer: &mut W, buffered: &mut String) -> Result<(), RunError>
    ensures ok { OnOk result (MovesFront (W.contents writer.old) (W.contents writer.new)
        (string_bytes buffered.old) (string_bytes buffered.new)) }
    ensures front { OnErr result (AppendsProperFront (W.contents writer.old)
        (W.contents writer.new) (string_bytes buffered.old)) }
    ensures cause { IfErr result (λ e. e ≡ RunError.Write) }
{
    if buffered.len() >= PIECE {
        write_piece(writer, buffered.as_bytes())?;
        buffered.clear();
    }
    Ok(())
}

fn write_output<W: Write>(alloc: Global, script: &[u8], writer: &mut W) -> Result<(), RunError>
    ensures ok { OnOk result
        (AppendsOutput (W.contents writer.old) (W.contents writer.new) script.now) }
    ensures front { OnErr result
        (AppendsBeginning (W.contents writer.old) (W.contents writer.new) script.now) }
    ensures write { IsErrOf result RunError.Write
        → AppendsProperBeginning (W.contents writer.old) (W.contents writer.new) script.now }
    ensures causes { IfErr result (λ e. e ≢ RunError.Read) }
{
    let mut dict = Dict::new(alloc);
    let mut buffered = String::new(alloc);
    let mut rest = Some(script);
    while let Some(text) = rest {
        let (line, more) = cut(text, b'\n');
        dict.execute(alloc, line, &mut buffered)?;
        write_much(writer, &mut buffered)?;
        rest = more;
    }
    write_piece(writer, buffered.as_bytes())
}

/// Reads a script to its end, then writes its output and nothing else.
///
/// A line ends with LF, which the last line may lack. Empty lines are skipped.
///
/// # Errors
///
/// - `Read`: a read fails, or 9,223,372,036,854,775,807 reads meet no end.
/// - `Memory`: an allocation fails.
/// - `Write`: a write fails or writes no byte.
///
/// An interrupted read or write isn't made again: it fails too.
///
/// # Examples
///
/// ```rust
/// let outcome = run(rt.alloc(), &mut rt.stdin(), &mut rt.stdout());
/// if let Err(error) = &outcome {
///     let _ = rt.eprintln(error);
/// }
/// ExitCode::from(exit_status(&outcome))
/// ```
pub fn run<R: Read, W: Write>(alloc: Global, reader: &mut R, writer: &mut W) -> Result<(), RunError>
    ensures ok { OnOk result (IfSome (R.remaining reader.old) (λ script.
        AppendsOutput (W.contents writer.old) (W.contents writer.new) script)) }
    ensures end { OnOk result (IsAtEnd (R.remaining reader.new)) }
    ensures read { IsErrOf result RunError.Read → writer.new ≡ writer.old }
    ensures front { OnErr result (IfSome (R.remaining reader.old) (λ script.
        AppendsBeginning (W.contents writer.old) (W.contents writer.new) script)) }
    ensures write { IsErrOf result RunError.Write → IfSome (R.remaining reader.old) (λ script.
        AppendsProperBeginning (W.contents writer.old) (W.contents writer.new) script) }
    ensures write_end { IsErrOf result RunError.Write → IsAtEnd (R.remaining reader.new) }
{
    let script = read_input(alloc, reader)?;
    write_output(alloc, script.as_slice(), writer)
}
