//! A map of numbers in a container: a header that records the types, then the archive.

ghost use Rattle.std.specs.Prelude.{◌==◌, ◌≡◌, IfOk, List, Ok, ℕ};
ghost use Rattle.rkyv_base.specs.{IsValidArchive, IsWideArchive, wide_limit};
ghost use Rattle.rkyv_collections.specs.{listed_pairs};
ghost use Rattle.rkyv_container.specs.{IsContainerOf};
ghost use Rattle.rkyv_keys.specs.{first_value};

use crate::maps::{NumberPairs, Numbers, number_of, write_numbers};
use rkyv_base::{HasSpec, Represents};
use rkyv_container::{Contents, Header, ItemType, Kind, Width, open_as};
use std::alloc::Global;
use std::test::Fail;

/// The contents of a container of `Numbers`.
pub const NUMBERS: Contents = Contents {
    kind: Kind::HashMap,
    key: ItemType::U32,
    value: ItemType::U64,
    width: Width::Wide,
};

/// Returns a container of the archive of a list, with a checksum.
///
/// # Errors
///
/// - The error of `write_numbers`.
/// - An allocation failure.
pub fn write_container(alloc: Global, list: &NumberPairs<'_>) -> Result<Vec<u8>, Fail>
    ensures { IfOk result (λ file. (a : List ℕ) × IsContainerOf NUMBERS a file.items
        × IsWideArchive ⟦<Numbers as Represents<NumberPairs<'static>>>⟧ a list.now) }
{
    let archive = write_numbers(alloc, list)?;
    let header = Header::new(NUMBERS, archive.as_slice(), true);
    let mut file = header.to_bytes().to_vec(alloc)?;
    file.extend_from_slice(archive.as_slice())?;
    Ok(file)
}

/// Opens a container, and returns the number of the first pair with the key.
///
/// In a container of the archive of a list, it finds the pair in the list.
///
/// # Errors
///
/// - The errors of `open_as` and of `number_of`.
pub fn number_in(file: &[u8], key: u32) -> Result<Option<u64>, Fail>
    ensures container { IfOk result (λ _. (a : List ℕ) × IsContainerOf NUMBERS a file.now
        × IsValidArchive wide_limit ⟦<Numbers as HasSpec>⟧.spec a) }
    ensures listed { (a : List ℕ) → (list : _) → IsContainerOf NUMBERS a file.now
        → IsWideArchive ⟦<Numbers as Represents<NumberPairs<'static>>>⟧ a list
        → result ≡ Ok (first_value (λ k. key == k) (listed_pairs list)) }
{
    let archive = open_as(file, NUMBERS)?;
    Ok(number_of(archive, key)?)
}
