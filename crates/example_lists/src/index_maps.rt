//! Lookups in index maps.

ghost use Rattle.std.specs.Prelude.{◌≡◌, Ok};
ghost use Rattle.std.specs.List.{position};
ghost use Rattle.rkyv_base.specs.{IsNarrowArchive, OpensNarrow};
ghost use Rattle.rkyv_keys.specs.{first_value, same_bytes};

use rkyv_base::access::access;
use rkyv_base::{HasSpec, Narrow, Represents, Text, VerifyError};
use rkyv_index::map::laws::list_archives::scalars_found_are_listed;
use rkyv_index::{ArchivedIndexMap, IndexMapOf, OrderedPairs};
use rkyv_scan::FxHasher64;

/// An index map of texts to numbers in a narrow archive.
pub type Prices = IndexMapOf<Text, u32>;

/// The list that an index map of texts to numbers represents.
pub type PricePairs<'a> = OrderedPairs<&'a str, u32>;

/// Returns the number of the first pair with the name.
///
/// # Errors
///
/// - The error of the validation.
pub fn price_of(table: &[u8], name: &str) -> Result<Option<u32>, VerifyError>
    ensures opened { OpensNarrow ⟦<Prices as HasSpec>⟧.spec table.now result }
    ensures listed { (list : _) → IsNarrowArchive
        ⟦<Prices as Represents<PricePairs<'static>>>⟧ table.now list
        → result ≡ Ok (first_value (λ other. same_bytes name.now other.now) list.0.items) }
{
    scalars_found_are_listed::<&str, &str, u32, Text, FxHasher64, Narrow>();
    let prices = ArchivedIndexMap::of(access::<Prices>(table)?);
    match prices.get(&name) {
        Some(price) => Ok(Some(price.to_native())),
        None => Ok(None),
    }
}

/// Returns the index of the first pair with the name in the list.
///
/// # Errors
///
/// - The error of the validation.
pub fn index_of_name(table: &[u8], name: &str) -> Result<Option<usize>, VerifyError>
    ensures opened { OpensNarrow ⟦<Prices as HasSpec>⟧.spec table.now result }
    ensures listed { (list : _) → IsNarrowArchive
        ⟦<Prices as Represents<PricePairs<'static>>>⟧ table.now list
        → result ≡ Ok (position (λ pair. same_bytes name.now pair.0.now) list.0.items) }
{
    scalars_found_are_listed::<&str, &str, u32, Text, FxHasher64, Narrow>();
    let prices = ArchivedIndexMap::of(access::<Prices>(table)?);
    Ok(prices.get_index_of(&name))
}
