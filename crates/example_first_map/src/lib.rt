//! A first map, of names to addresses: written by `write`, then validated and read by `look_up`.
#![tactic(auto)]

ghost use Rattle.std.specs.Int.{w64};
ghost use Rattle.std.specs.Prelude.{IfOk, ℕ, ◌≡◌};
ghost use Rattle.rkyv_base.specs.{unsigned};
ghost use Rattle.rkyv_collections.specs.{IsTextMap, OpensTextMap, TextMapResult, TextPairs};
ghost use Rattle.rkyv_collections.specs.{first_of_text, text_found};

use rkyv_base::access::access;
use rkyv_base::{Narrow, NoMemory, Text, VerifyError, WriteError, to_bytes};
use rkyv_collections::map::laws::list_archives::scalars_found_are_listed;
use rkyv_collections::{ArchivedHashMap, FxHasher64, HashMapOf, MapPairs};
use std::alloc::Global;
use std::test::Fail;

/// Writes the archive of the symbols, each a name with its address.
///
/// # Errors
///
/// The same as for `to_bytes` of a map.
pub fn write(alloc: Global, symbols: &[(&str, u64)]) -> Result<Vec<u8>, WriteError<NoMemory>>
    ensures { TextMapResult (unsigned w64) symbols.now result }
{
    let list: MapPairs<'_, &str, u64> = MapPairs::new(symbols);
    to_bytes(alloc, &list)
}

/// Validates the table, and returns the address that a lookup of the name finds.
///
/// In the table of a list, it is the address of the first symbol with the name.
/// It is `None` if the list has no such symbol.
///
/// # Errors
///
/// The same as for `access`.
pub fn look_up(table: &[u8], name: &str) -> Result<Option<u64>, VerifyError>
    ensures opened { OpensTextMap (unsigned w64) table.now result }
    ensures found { IfOk result
        (λ address. address ≡ text_found (unsigned w64) name.now table.now) }
    ensures listed { (symbols : TextPairs ℕ) → IsTextMap (unsigned w64) table.now symbols
        → result ≡ Ok (first_of_text name.now symbols) }
{
    scalars_found_are_listed::<&str, &str, u64, Text, FxHasher64, Narrow>();
    let symbols = ArchivedHashMap::of(access::<HashMapOf<Text, u64>>(table)?);
    match symbols.get(&name) {
        Some(address) => Ok(Some(address.to_native())),
        None => Ok(None),
    }
}

/// Writes the symbols, and looks up a name in their table.
///
/// # Errors
///
/// - The errors of `write` and of `look_up`.
pub fn round_trip(alloc: Global, symbols: &[(&str, u64)], name: &str) -> Result<Option<u64>, Fail>
    ensures { IfOk result (λ address. address ≡ first_of_text name.now symbols.now) }
{
    let table = write(alloc, symbols)?;
    Ok(look_up(table.as_slice(), name)?)
}
