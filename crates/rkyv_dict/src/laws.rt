//! Laws of scripts, errors, forms and keys, each a function whose contract is the statement.
ghost use Rattle.rkyv_dict.specs.{BuildsAreOne, BuildsHaveResult, ChecksAreOne, ChecksHaveResult};
ghost use Rattle.rkyv_dict.specs.{ScriptsAreOne, ScriptsHaveOutput, lookup_key, message_of};
ghost use Rattle.rkyv_dict.specs.declared.run.RunError.TheVariants.{Memory};
ghost use Rattle.std.specs.Prelude.{Some, true, ◌≡◌, ◌↔◌};

use crate::form::{ArchiveWidth, Form, Key, Kind};
use crate::run::RunError;
use std::alloc::AllocError;
use std::fmt;

/// States that the pairs have at most one archive of a form under a load factor.
#[tactic(auto, using(crate::proofs::Once::builds_are_one))]
pub fn builds_are_one()
    ensures { BuildsAreOne }
{}

/// States that bytes that fail validation are no valid archive, and fail with one error only.
#[tactic(auto, using(crate::proofs::Once::checks_are_one))]
pub fn checks_are_one()
    ensures { ChecksAreOne }
{}

/// States that the same lines from the same state have one output and end in one state.
#[tactic(auto, using(crate::proofs::Outputs::scripts_are_one))]
pub fn scripts_are_one()
    ensures { ScriptsAreOne }
{}

/// States that native pairs have an archive or an error that isn't an allocation failure.
pub fn builds_have_result()
    ensures { BuildsHaveResult }
{}

/// States that bytes are a valid archive of a form, or fail validation with an error.
#[tactic(auto, using(crate::proofs::ValidOrNot::checks_have_result))]
pub fn checks_have_result()
    ensures { ChecksHaveResult }
{}

/// States that the lines of each script have an output.
#[tactic(auto, using(crate::proofs::ScriptOutputs::scripts_have_output))]
pub fn scripts_have_output()
    ensures { ScriptsHaveOutput }
{}

/// States that `?` converts a failed allocation into `Memory`.
pub fn errors_are_converted()
    ensures { (a : _) (e : _) → ⟦<RunError as From<AllocError>>⟧.from_gives a e ↔ (e ≡ Memory) }
{}

/// States the strings that `Display` writes for the errors of a run.
pub fn errors_are_displayed()
    ensures { (e : RunError) → ⟦<RunError as fmt::Display>⟧.output e ≡ Some (message_of e) }
{}

/// States that two values are equal by `==` if and only if they are the same.
pub fn equal_are_the_same<'a>()
    ensures kind { (a b : Kind) → (⟦<Kind as PartialEq>⟧.eq a b ≡ true) ↔ (a ≡ b) }
    ensures width { (a b : ArchiveWidth) → (⟦<ArchiveWidth as PartialEq>⟧.eq a b ≡ true) ↔ (a ≡ b) }
    ensures form { (a b : Form) → (⟦<Form as PartialEq>⟧.eq a b ≡ true) ↔ (a ≡ b) }
    ensures key { (a b : _) → (⟦<Key<'a> as PartialEq>⟧.eq a b ≡ true)
        ↔ (lookup_key a ≡ lookup_key b) }
{}

/// States that a clone is the value itself, and that cloning can't fail.
pub fn clones_are_the_same<'a>()
    ensures kind { (a clone : Kind) → ⟦<Kind as Clone>⟧.is_clone a clone ↔ (clone ≡ a) }
    ensures width { (a clone : ArchiveWidth) → ⟦<ArchiveWidth as Clone>⟧.is_clone a clone
        ↔ (clone ≡ a) }
    ensures form { (a clone : Form) → ⟦<Form as Clone>⟧.is_clone a clone ↔ (clone ≡ a) }
    ensures key { (a clone : _) → ⟦<Key<'a> as Clone>⟧.is_clone a clone ↔ (clone ≡ a) }
    ensures infallible_kind { (a : Kind) → ⟦<Kind as Clone>⟧.is_infallible a }
    ensures infallible_width { (a : ArchiveWidth) → ⟦<ArchiveWidth as Clone>⟧.is_infallible a }
    ensures infallible_form { (a : Form) → ⟦<Form as Clone>⟧.is_infallible a }
    ensures infallible_key { (a : _) → ⟦<Key<'a> as Clone>⟧.is_infallible a }
{}
