//! Lookups in hash maps: of numbers, of texts, and of pairs of numbers.

ghost use Rattle.std.specs.Prelude.{◌-◌, ◌==◌, ◌≡◌, IfOk, Ok, length};
ghost use Rattle.rkyv_base.specs.{ArchivesWide, IsNarrowArchive, IsWideArchive, OpensNarrow};
ghost use Rattle.rkyv_base.specs.{OpensWide, RootBytes};
ghost use Rattle.rkyv_collections.specs.{listed_pairs};
ghost use Rattle.rkyv_keys.specs.{IsTextOk, first_value, same_bytes};

use rkyv_base::access::access;
use rkyv_base::{
    Archive, Entry, HasSpec, Narrow, NoMemory, Represents, Text, VerifyError, Wide, WriteError,
    access_in, to_bytes_in,
};
use rkyv_collections::map::laws::list_archives::{
    scalars_found_are_listed, texts_found_are_listed, values_found_are_listed,
};
use rkyv_collections::{ArchivedHashMap, FxHasher64, HashMapOf, MapPairs};
use std::alloc::Global;

/// A map of numbers in a wide archive.
pub type Numbers = HashMapOf<u32, u64, FxHasher64, Wide>;

/// The list that a map of numbers represents.
pub type NumberPairs<'a> = MapPairs<'a, u32, u64>;

/// A map of numbers to texts in a narrow archive.
pub type Titles = HashMapOf<u32, Text>;

/// The list that a map of numbers to texts represents.
pub type TitlePairs<'a> = MapPairs<'a, u32, &'a str>;

/// A map of texts to pairs of numbers in a narrow archive.
pub type Spots = HashMapOf<Text, Entry<u32, u32>>;

/// The list that a map of texts to pairs of numbers represents.
pub type SpotPairs<'a> = MapPairs<'a, &'a str, (u32, u32)>;

/// Archives a list of numbers.
///
/// The archive has no other bytes.
///
/// # Errors
///
/// - The error of `to_bytes_in`.
pub fn write_numbers(alloc: Global, list: &NumberPairs<'_>) -> Result<Vec<u8>, WriteError<NoMemory>>
    ensures archive { ArchivesWide ⟦<Numbers as Represents<NumberPairs<'static>>>⟧
        ⟦<NumberPairs<'static> as Archive<Wide>>⟧.format list.now result }
    ensures bytes { IfOk result (λ b. RootBytes ⟦<Numbers as HasSpec>⟧.spec.align
        ⟦<NumberPairs<'static> as Archive<Wide>>⟧.format list.now 0 b.items
        (length b.items - ⟦<Numbers as HasSpec>⟧.spec.size)) }
{
    to_bytes_in::<Wide, _>(alloc, list)
}

/// Returns the number of the first pair with the key.
///
/// # Errors
///
/// - The error of the validation.
pub fn number_of(table: &[u8], key: u32) -> Result<Option<u64>, VerifyError>
    ensures opened { OpensWide ⟦<Numbers as HasSpec>⟧.spec table.now result }
    ensures listed { (list : _) → IsWideArchive
        ⟦<Numbers as Represents<NumberPairs<'static>>>⟧ table.now list
        → result ≡ Ok (first_value (λ other. key == other) (listed_pairs list)) }
{
    scalars_found_are_listed::<u32, u32, u64, u32, FxHasher64, Wide>();
    let numbers = ArchivedHashMap::of(access_in::<Wide, Numbers>(table)?);
    match numbers.get(&key) {
        Some(number) => Ok(Some(number.to_native())),
        None => Ok(None),
    }
}

/// Returns the text of the first pair with the key.
///
/// # Errors
///
/// - The error of the validation.
pub fn title_of(table: &[u8], key: u32) -> Result<Option<&str>, VerifyError>
    ensures opened { OpensNarrow ⟦<Titles as HasSpec>⟧.spec table.now result }
    ensures listed { (list : _) → IsNarrowArchive
        ⟦<Titles as Represents<TitlePairs<'static>>>⟧ table.now list
        → IsTextOk (first_value (λ other. key == other) (listed_pairs list)) result }
{
    texts_found_are_listed::<u32, u32, u32, FxHasher64, Narrow>();
    let titles = ArchivedHashMap::of(access::<Titles>(table)?);
    match titles.get(&key) {
        Some(title) => Ok(Some(title.as_str())),
        None => Ok(None),
    }
}

/// Returns the pair of numbers of the first pair with the name.
///
/// # Errors
///
/// - The error of the validation.
pub fn spot_of(table: &[u8], name: &str) -> Result<Option<(u32, u32)>, VerifyError>
    ensures opened { OpensNarrow ⟦<Spots as HasSpec>⟧.spec table.now result }
    ensures listed { (list : _) → IsNarrowArchive
        ⟦<Spots as Represents<SpotPairs<'static>>>⟧ table.now list
        → result ≡ Ok (first_value (λ other. same_bytes name.now other.now) (listed_pairs list)) }
{
    values_found_are_listed::<&str, &str, (u32, u32), Text, Entry<u32, u32>, FxHasher64, Narrow>();
    let spots = ArchivedHashMap::of(access::<Spots>(table)?);
    match spots.get(&name) {
        Some(spot) => {
            let x = spot.key().to_native();
            let y = spot.value().to_native();
            Ok(Some((x, y)))
        }
        None => Ok(None),
    }
}
