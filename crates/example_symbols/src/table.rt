//! Tables of symbols: archives of maps of names to addresses.
//!
//! - `archive` writes a table.
//! - `check` validates one.
//! - `address_in` looks up a name in a valid table.
//! - `address_of` validates a table, then looks up a name.
ghost use Rattle.std.specs.Prelude.{IfOk, IsOk, MatchResult, ◌≡◌};
ghost use Rattle.rkyv_collections.specs.{first_of_text};
ghost use Rattle.example_symbols.specs.{IsTable, IsTableOf, Represents, Symbols, TableFails};
ghost use Rattle.example_symbols.specs.{ValidationFails, address_found};

use rkyv_base::access::access;
use rkyv_base::{Narrow, NoMemory, Text, VerifyError, WriteError, access_unchecked, to_bytes};
use rkyv_collections::map::laws::list_archives::scalars_found_are_listed;
use rkyv_collections::{ArchivedHashMap, FxHasher64, HashMapOf, MapPairs};
use std::alloc::Global;

/// Writes the table of the symbols, in insertion order.
///
/// # Errors
///
/// The same as for `to_bytes` of a map.
pub fn archive(alloc: Global, symbols: &[(&str, u64)]) -> Result<Vec<u8>, WriteError<NoMemory>>
    ensures whole { MatchResult result
        (λ table. IsTableOf symbols.now table.items)
        (TableFails symbols.now) }
    ensures represents { IfOk result (λ table.
        IsTable table.items × Represents table.items symbols.now) }
{
    let list: MapPairs<'_, &str, u64> = MapPairs::new(symbols);
    to_bytes(alloc, &list)
}

/// Validates a table.
///
/// # Errors
///
/// The same as for `access`.
pub fn check(table: &[u8]) -> Result<(), VerifyError>
    ensures checked { MatchResult result (λ _. IsTable table.now) (ValidationFails table.now) }
    ensures accepts { IsTable table.now → IsOk result }
{
    access::<HashMapOf<Text, u64>>(table)?;
    Ok(())
}

/// Returns the address that a lookup of the name finds in a valid table, which isn't validated.
///
/// In the table of a list, it is the address of the first symbol with the name.
/// It is `None` if the list has no such symbol.
///
/// # Requires
///
/// - The bytes are a valid table: `check` returns `Ok` for them.
pub fn address_in(table: &[u8], name: &str) -> Option<u64>
    requires { IsTable table.now }
    ensures found { result ≡ address_found name.now table.now }
    ensures listed { (symbols : Symbols) → Represents table.now symbols
        → result ≡ first_of_text name.now symbols }
{
    scalars_found_are_listed::<&str, &str, u64, Text, FxHasher64, Narrow>();
    let map = ArchivedHashMap::of(access_unchecked::<HashMapOf<Text, u64>>(table));
    Some(map.get(&name)?.to_native())
}

/// Validates a table, and returns the address that `address_in` returns.
///
/// # Errors
///
/// The same as for `access`.
pub fn address_of(table: &[u8], name: &str) -> Result<Option<u64>, VerifyError>
    ensures checked { MatchResult result
        (λ found. IsTable table.now × (found ≡ address_found name.now table.now))
        (ValidationFails table.now) }
    ensures accepts { IsTable table.now → IsOk result }
    ensures listed { (symbols : Symbols) → Represents table.now symbols
        → IfOk result (λ found. found ≡ first_of_text name.now symbols) }
{
    check(table)?;
    Ok(address_in(table, name))
}
