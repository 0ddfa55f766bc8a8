//! The outcomes of the program, and their exit statuses.
ghost use Rattle.std.specs.Prelude.{IsTrue, Ok, OnErr, false, ◌≡◌, ◌≢◌};

use crate::errors::SymbolsError;

/// The outcome of a command that doesn't fail.
#[derive(Clone, Copy, Debug, PartialEq, Eq)]
pub enum Outcome {
    /// Each name was found, or the command looks up no name.
    Complete,
    /// A name wasn't found.
    Missing,
    /// The command line isn't one of the usage.
    Misused,
}

impl Outcome {
    /// Returns the outcome of lookups: `Missing` if a name wasn't found, else `Complete`.
    pub fn of_lookups(missing: bool) -> Outcome
        ensures missing { IsTrue missing → result ≡ Outcome.Missing }
        ensures complete { missing ≡ false → result ≡ Outcome.Complete }
        ensures no_misuse { result ≢ Outcome.Misused }
    {
        if missing {
            Outcome::Missing
        } else {
            Outcome::Complete
        }
    }
}

/// Returns the exit status of the program.
///
/// | Status | Outcome |
/// |---|---|
/// | 0 | each name was found, or the command looks up no name |
/// | 1 | a name wasn't found |
/// | 2 | the command line isn't one of the usage |
/// | 3 | another error |
pub fn exit_status(outcome: &Result<Outcome, SymbolsError>) -> u8
    ensures complete { outcome.now ≡ Ok Outcome.Complete → result ≡ 0 }
    ensures missing { outcome.now ≡ Ok Outcome.Missing → result ≡ 1 }
    ensures misused { outcome.now ≡ Ok Outcome.Misused → result ≡ 2 }
    ensures failed { OnErr outcome.now (result ≡ 3) }
{
    match outcome {
        Ok(Outcome::Complete) => 0,
        Ok(Outcome::Missing) => 1,
        Ok(Outcome::Misused) => 2,
        Err(_) => 3,
    }
}
