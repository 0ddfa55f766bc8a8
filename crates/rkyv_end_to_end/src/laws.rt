//! The laws of written lists, and of errors that `?` converts.
//!
//! The laws of lists also cover writes of items in place.
ghost use Rattle.std.specs.Prelude.{ℕ, ◌≡◌, ◌↔◌};
ghost use Rattle.rkyv_end_to_end.specs.{ItemsAreReplaced, ListsAreFound, ListsAreValid};
ghost use Rattle.rkyv_end_to_end.specs.{LookupsFindListed, encoding};
ghost use Rattle.rkyv_end_to_end.specs.declared.looking.LookError.TheVariants.{Memory, Verify};
ghost use Rattle.rkyv_end_to_end.specs.declared.whole.ListError.TheVariants.{Look, Write};

use crate::looking::LookError;
use crate::whole::ListError;
use rkyv_base::{Archive, Lend, NoMemory, VerifyError, View, Width, WriteError};
use rkyv_table::controls::laws::walked_are_full;
use rkyv_table::table::laws::in_place::{lent_items_written_represent, writes_keep_the_table};
use rkyv_table::table::laws::written::{
    represented_lists_were_written, written_tables_pass, written_tables_represent,
};
use rkyv_table::table::laws::{lookups_find_the_first, walk_visits_homes};
use std::alloc::AllocError;

/// States into which error `?` converts an error.
pub fn errors_are_converted()
    ensures verify { (a : _) (e : _) → ⟦<LookError as From<VerifyError>>⟧.from_gives a e
        ↔ (e ≡ Verify a) }
    ensures memory { (a : _) (e : _) → ⟦<LookError as From<AllocError>>⟧.from_gives a e
        ↔ (e ≡ Memory) }
    ensures write { (a : _) (e : _) → ⟦<ListError as From<WriteError<NoMemory>>>⟧.from_gives a e
        ↔ (e ≡ Write a) }
    ensures look { (a : _) (e : _) → ⟦<ListError as From<LookError>>⟧.from_gives a e
        ↔ (e ≡ Look a) }
{}

/// States that a written table with its header is valid in each archive that has its bytes.
pub fn written_lists_represent<W: Width, U: Archive<W>, X: Lend<U>>()
    ensures { (load_factor : ℕ × ℕ) →
        ListsAreValid W.word (encoding U.Archived.Represents U.Archive X.Lend) load_factor }
{
    written_tables_represent::<W, U, X>();
    written_tables_pass::<W, U, X>();
    represented_lists_were_written::<W, U, X>();
    walk_visits_homes();
}

/// States that a written list is valid and found with its header anywhere behind its table.
///
/// The header must be aligned, and have the words that `resolve` writes for its position.
pub fn written_lists_are_found<
    W: Width,
    U: Archive<W>,
    X: Lend<U>,
    F: Fn(View<'_, U::Archived>) -> bool,
>()
    ensures { (load_factor : ℕ × ℕ) (cmp : _) → ListsAreFound W.word
        (encoding U.Archived.Represents U.Archive X.Lend) load_factor (F.post cmp) }
{
    written_tables_represent::<W, U, X>();
    written_tables_pass::<W, U, X>();
    represented_lists_were_written::<W, U, X>();
    walk_visits_homes();
    lookups_find_the_first::<W, U, X>();
}

/// States that a write of one item in place puts the new item into the list of the table.
///
/// The write must change only this item and keep it valid. The item keeps its hash.
pub fn written_items_are_replaced<W: Width, U: Archive<W>, X: Lend<U>>()
    ensures { ItemsAreReplaced W.word (encoding U.Archived.Represents U.Archive X.Lend) }
{
    walk_visits_homes();
    walked_are_full();
    writes_keep_the_table::<U::Archived, W>();
    lent_items_written_represent::<W, U, X>();
}

/// States that `look_over` finds the first accepted item of a list, also after writes in place.
pub fn lookups_find_listed<
    W: Width,
    U: Archive<W>,
    X: Lend<U>,
    F: Fn(View<'_, U::Archived>) -> bool,
>()
    ensures { (cmp : _) → LookupsFindListed W.word
        (encoding U.Archived.Represents U.Archive X.Lend) (F.post cmp) }
{
    lookups_find_the_first::<W, U, X>();
}
