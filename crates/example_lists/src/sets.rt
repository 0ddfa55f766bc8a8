//! Lookups in hash sets and in index sets.

ghost use Rattle.std.specs.Prelude.{◌==◌, ◌≡◌, Ok, slice_get};
ghost use Rattle.std.specs.List.{list_any, position};
ghost use Rattle.rkyv_base.specs.{IsNarrowArchive, OpensNarrow};
ghost use Rattle.rkyv_collections.specs.{listed_items};
ghost use Rattle.rkyv_keys.specs.{IsTextOk, same_bytes};

use rkyv_base::access::access;
use rkyv_base::{HasSpec, Narrow, Represents, Text, VerifyError};
use rkyv_collections::set::laws::members_found_are_listed;
use rkyv_collections::{ArchivedHashSet, FxHasher64, HashSetOf, SetItems};
use rkyv_index::set::laws::{
    items_at_are_listed, members_found_are_listed as indexed_members_found_are_listed,
};
use rkyv_index::{ArchivedIndexSet, IndexSetOf, OrderedItems};

/// A set of texts in a narrow archive.
pub type Words = HashSetOf<Text>;

/// The list that a set of texts represents.
pub type WordItems<'a> = SetItems<'a, &'a str>;

/// An index set of numbers in a narrow archive.
pub type Ids = IndexSetOf<u64>;

/// An index set of texts in a narrow archive.
pub type Names = IndexSetOf<Text>;

/// Returns `true` if and only if the list has the word.
///
/// # Errors
///
/// - The error of the validation.
pub fn has_word(set: &[u8], word: &str) -> Result<bool, VerifyError>
    ensures opened { OpensNarrow ⟦<Words as HasSpec>⟧.spec set.now result }
    ensures listed { (list : _) → IsNarrowArchive
        ⟦<Words as Represents<WordItems<'static>>>⟧ set.now list
        → result ≡ Ok (list_any (λ other. same_bytes word.now other.now) (listed_items list)) }
{
    members_found_are_listed::<&str, &str, Text, FxHasher64, Narrow>();
    let words = ArchivedHashSet::of(access::<Words>(set)?);
    Ok(words.contains(&word))
}

/// Returns the index of the number in the list.
///
/// # Errors
///
/// - The error of the validation.
pub fn index_of_id(set: &[u8], id: u64) -> Result<Option<usize>, VerifyError>
    ensures opened { OpensNarrow ⟦<Ids as HasSpec>⟧.spec set.now result }
    ensures listed { (list : _) → IsNarrowArchive
        ⟦<Ids as Represents<OrderedItems<u64>>>⟧ set.now list
        → result ≡ Ok (position (λ other. id == other) list.0.items) }
{
    indexed_members_found_are_listed::<u64, u64, u64, FxHasher64, Narrow>();
    let ids = ArchivedIndexSet::of(access::<Ids>(set)?);
    Ok(ids.get_index_of(&id))
}

/// Returns the text at the index in the list.
///
/// # Errors
///
/// - The error of the validation.
pub fn name_at(set: &[u8], index: usize) -> Result<Option<&str>, VerifyError>
    ensures opened { OpensNarrow ⟦<Names as HasSpec>⟧.spec set.now result }
    ensures listed { (list : _) → IsNarrowArchive
        ⟦<Names as Represents<OrderedItems<&'static str>>>⟧ set.now list
        → IsTextOk (slice_get list.0.items index) result }
{
    items_at_are_listed::<&str, Text, FxHasher64, Narrow>();
    let names = ArchivedIndexSet::of(access::<Names>(set)?);
    match names.get_index(index) {
        Some(name) => Ok(Some(name.as_str())),
        None => Ok(None),
    }
}
