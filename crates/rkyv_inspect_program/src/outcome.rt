//! The outcomes of the program, and their exit statuses.
ghost use Rattle.std.specs.Prelude.{Ok, ℕ, ◌≡◌};
ghost use Rattle.rkyv_inspect_program.specs.{status_of};

use crate::errors::ProgramError;

/// The outcome of a run that doesn't fail.
#[derive(Clone, Copy, Debug, PartialEq, Eq)]
pub enum Outcome {
    /// The archive is valid, or the usage is printed.
    Complete,
    /// The command line isn't one of the usage.
    Misused,
}

/// Returns the exit status.
///
/// It is 0 for `Complete`, 1 for a `Container` or `Invalid` error, 2 for `Misused`, and 3 for any
/// other error.
pub fn exit_status(outcome: &Result<Outcome, ProgramError>) -> u8
    ensures { result ≡ status_of outcome.now }
{
    match outcome {
        Ok(Outcome::Complete) => 0,
        Ok(Outcome::Misused) => 2,
        Err(ProgramError::Container { .. } | ProgramError::Invalid { .. }) => 1,
        Err(_) => 3,
    }
}
