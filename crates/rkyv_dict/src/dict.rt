//! The dictionary: its state, and the output of each command.
//!
//! `Dict::execute` executes one line of a script, and appends its output.
ghost use Rattle.rkyv_dict.specs.Steps.{StepsLine, StepsTo};
ghost use Rattle.rkyv_dict.specs.Counts.{list_len};
ghost use Rattle.rkyv_dict.specs.Forms.{lookup_key};
ghost use Rattle.rkyv_dict.specs.Output.{archive_output, audit_line, error_line, get_line};
ghost use Rattle.rkyv_dict.specs.Output.{hex_line};
ghost use Rattle.rkyv_dict.specs.Output.{list_lines, verify_error_line};
ghost use Rattle.rkyv_dict.specs.Pushing.{AppendsText};
ghost use Rattle.rkyv_dict.specs.Run.{AppendsSome};
ghost use Rattle.rkyv_dict.specs.Script.{build_archive, check_archive};
ghost use Rattle.rkyv_dict.specs.States.{IsSound, emptied, form_of, start};
ghost use Rattle.std.specs.Option.{ForSome};
ghost use Rattle.std.specs.Prelude.{◌≡◌, ◌≤◌, ◌<◌, OnErr, OnOk, length, string_bytes};

use crate::archives::{self, push_line};
use crate::errors::{is_allocation_failure, verify_error_text, write_error_text};
use crate::form::{ArchiveWidth, Form, Key, Kind};
use crate::hex::push_hex;
use crate::pairs::PairList;
use crate::script::{Command, read_command};
use rkyv_base::{NoMemory, VerifyError, WriteError};
use std::alloc::{AllocError, Global};

const NO_ARCHIVE: &str = "error 11 NoArchive";

const BAD_LINE: &str = "error 10 BadLine";

/// The bytes of an archive. Only contracts read `built_len`: the length of the list when it
/// was built, or `None` after `check`.
#[derive(Drop)]
struct Stored {
    bytes: Vec<u8>,
    built_len: Option<usize>,
}

/// The state of a script. Its strings are borrowed from the script.
#[derive(Drop)]
pub struct Dict<'a> {
    bits: ArchiveWidth,
    load_factor: (usize, usize),
    list: PairList<'a>,
    archive: Option<Stored>,
    ghost built_in_list: { ForSome archive (λ a. ForSome a.built_len (λ n. n ≤ list_len list)) },
}

fn push_verify_error(out: &mut String, error: &VerifyError) -> Result<(), AllocError>
    ensures { AppendsText result out.old out.new (verify_error_line error.now) }
{
    writeln!(out, "refused {}", verify_error_text(error))
}

fn push_cause(out: &mut String, cause: &WriteError<NoMemory>) -> Result<(), AllocError>
    ensures { AppendsText result out.old out.new (error_line cause.now) }
{
    writeln!(out, "error {}", write_error_text(cause))
}

impl<'a> Dict<'a> {
    ghost use Rattle.rkyv_dict.specs.Commands.{command_request};
    ghost use Rattle.rkyv_dict.specs.Dicts.{state_of};

    /// Returns the state before the first line.
    pub fn new(alloc: Global) -> Dict<'a>
        ensures state { state_of result ≡ start }
        ensures sound { IsSound (state_of result) }
    {
        Dict {
            bits: ArchiveWidth::Bits32,
            load_factor: (7, 8),
            list: PairList::new(alloc, Kind::Num),
            archive: None,
        }
    }

    fn form(&self) -> Form
        ensures { result ≡ form_of (state_of self.now) }
    {
        Form {
            kind: self.list.kind(),
            bits: self.bits,
        }
    }

    fn push_hex(&self, out: &mut String) -> Result<(), AllocError>
        ensures { AppendsText result out.old out.new (archive_output hex_line
            (state_of self.now).archive) }
    {
        let Some(archive) = &self.archive else {
            return push_line(out, NO_ARCHIVE);
        };
        push_hex(out, archive.bytes.as_slice())?;
        push_line(out, "")
    }

    #[tactic(auto, using(crate::proofs::Sound::archive_of_dict))]
    fn push_get(&self, key: Key<'_>, out: &mut String) -> Result<(), AllocError>
        requires { IsSound (state_of self.now) }
        ensures { let s = state_of self.now in let key = lookup_key key.entry in
            AppendsText result out.old out.new
            (archive_output (get_line (form_of s) key) s.archive) }
    {
        let Some(archive) = &self.archive else {
            return push_line(out, NO_ARCHIVE);
        };
        archives::push_value(self.form(), archive.bytes.as_slice(), key, out)
    }

    #[tactic(auto, using(crate::proofs::Sound::archive_of_dict))]
    fn push_list(&self, out: &mut String) -> Result<(), AllocError>
        requires { IsSound (state_of self.now) }
        ensures { let s = state_of self.now in
            AppendsText result out.old out.new (archive_output (list_lines (form_of s)) s.archive) }
    {
        let Some(archive) = &self.archive else {
            return push_line(out, NO_ARCHIVE);
        };
        archives::push_pairs(self.form(), archive.bytes.as_slice(), out)
    }

    /// Appends the output of `audit`. Keys that share a hash take quadratic time.
    #[tactic(auto, using(crate::proofs::Sound::archive_of_dict))]
    fn push_audit(&self, out: &mut String) -> Result<(), AllocError>
        requires { IsSound (state_of self.now) }
        ensures { let s = state_of self.now in
            AppendsText result out.old out.new (archive_output (audit_line (form_of s)) s.archive) }
    {
        let Some(archive) = &self.archive else {
            return push_line(out, NO_ARCHIVE);
        };
        let count = archives::misplaced(self.form(), archive.bytes.as_slice());
        writeln!(out, "misplaced {count}")
    }

    fn build(&mut self, alloc: Global, out: &mut String) -> Result<(), AllocError>
        ensures { OnOk result (AppendsSome (string_bytes out.old) (string_bytes out.new) (λ printed.
            StepsTo (state_of self.old) build_archive printed (state_of self.new))) }
    {
        match archives::build(alloc, self.bits, &self.list, self.load_factor) {
            Ok(bytes) => {
                let len = bytes.len();
                let built_len = Some(self.list.len());
                self.archive = Some(Stored { bytes, built_len });
                writeln!(out, "built {len}")
            }
            Err(cause) if is_allocation_failure(&cause) => Err(AllocError),
            Err(cause) => {
                self.archive = None;
                push_cause(out, &cause)
            }
        }
    }

    fn check(&mut self, bytes: Vec<u8>, out: &mut String) -> Result<(), AllocError>
        ensures { OnOk result (AppendsSome (string_bytes out.old) (string_bytes out.new) (λ printed.
            StepsTo (state_of self.old) (check_archive bytes.items) printed
            (state_of self.new))) }
    {
        match archives::check(self.form(), bytes.as_slice()) {
            Ok(count) => {
                self.archive = Some(Stored {
                    bytes,
                    built_len: None,
                });
                writeln!(out, "ok {count}")
            }
            Err(error) => push_verify_error(out, &error),
        }
    }

    fn empty(&mut self, alloc: Global, kind: Kind, bits: ArchiveWidth)
        ensures { state_of self.new ≡ emptied kind bits (state_of self.old) }
    {
        self.bits = bits;
        self.archive = None;
        self.list = PairList::new(alloc, kind);
    }

    fn apply(
        &mut self,
        alloc: Global,
        command: Command<'a>,
        out: &mut String,
    ) -> Result<(), AllocError>
        requires { IsSound (state_of self.old) }
        ensures { OnOk result (AppendsSome (string_bytes out.old) (string_bytes out.new) (λ printed.
            StepsTo (state_of self.old) (command_request command.entry) printed
            (state_of self.new))) }
    {
        match command {
            Command::SetKind(kind) => {
                let bits = self.bits;
                self.empty(alloc, kind, bits);
                Ok(())
            }
            Command::SetWidth(bits) => {
                let kind = self.list.kind();
                self.empty(alloc, kind, bits);
                Ok(())
            }
            Command::SetLoadFactor(numerator, denominator) => {
                self.load_factor = (numerator as usize, denominator as usize);
                Ok(())
            }
            Command::PutNumbers(key, value) => self.list.put_numbers(key, value),
            Command::PutTexts(key, value) => self.list.put_texts(key, value),
            Command::Build => self.build(alloc, out),
            Command::Check(bytes) => self.check(bytes, out),
            Command::Hex => self.push_hex(out),
            Command::Get(key) => self.push_get(key, out),
            Command::ListPairs => self.push_list(out),
            Command::Audit => self.push_audit(out),
        }
    }

    /// Executes a line, and appends its output.
    ///
    /// Requires that the archive, if any, is valid, as after `new` and each line that succeeds.
    /// After `AllocError`, the state and the bytes of `out` are unspecified.
    pub fn execute(
        &mut self,
        alloc: Global,
        line: &'a [u8],
        out: &mut String,
    ) -> Result<(), AllocError>
        requires { IsSound (state_of self.old) }
        ensures step { OnOk result (AppendsSome (string_bytes out.old) (string_bytes out.new)
            (λ printed. StepsLine (state_of self.old) line.now printed (state_of self.new))) }
        ensures sound { OnOk result (IsSound (state_of self.new)) }
        ensures allocates { OnErr result (0 < length line.now) }
    {
        if line.is_empty() {
            return Ok(());
        }
        match read_command(alloc, self.form().kind, line)? {
            Some(command) => self.apply(alloc, command, out),
            None => push_line(out, BAD_LINE),
        }
    }
}
