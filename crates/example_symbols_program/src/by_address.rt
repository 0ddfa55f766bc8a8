//! Indexes of symbols: archived index maps of addresses to names, in ascending order of address.
ghost use Rattle.std.specs.Prelude.{IfOk, IsOk, MatchOption, ◌≡◌, ◌≤◌};
ghost use Rattle.rkyv_base.specs.{IsValidArchive};
ghost use Rattle.rkyv_index.specs.{index_len};
ghost use Rattle.example_symbols_program.specs.{IndexResult, IsAscending, IsEntryOf, OpensIndex};
ghost use Rattle.example_symbols_program.specs.{turned};

use rkyv_base::access::access;
use rkyv_base::{Element, NoMemory, Text, VerifyError, WriteError, to_bytes};
use rkyv_index::{ArchivedIndexMap, IndexMapOf, OrderedPairs};
use std::alloc::{AllocError, Global};

/// The root of an index.
type Index = IndexMapOf<u64, Text>;

/// Returns the addresses with their names, in the order of the list.
fn turned<'a>(alloc: Global, symbols: &[(&'a str, u64)]) -> Result<Vec<(u64, &'a str)>, AllocError>
    ensures { IfOk result (λ row. row.items ≡ turned symbols.now) }
{
    symbols
        .iter()
        .map(|symbol| (symbol.1, symbol.0))
        .collect(alloc)
}

/// Returns the addresses with their names, by ascending address.
///
/// Names of one address are in the order of the list.
fn ascending<'a>(
    alloc: Global,
    symbols: &[(&'a str, u64)],
) -> Result<Vec<(u64, &'a str)>, AllocError>
    ensures { IfOk result (λ row. IsAscending (turned symbols.now) row.items) }
{
    let mut row = turned(alloc, symbols)?;
    row.sort_by_key(|entry| entry.0)?;
    Ok(row)
}

/// Writes the index of the symbols, by ascending address.
///
/// Names of one address are in the order of the list.
///
/// # Errors
///
/// - `Memory`: the sorted list fails to allocate.
/// - The errors of `to_bytes` for an index map.
pub fn archive(alloc: Global, symbols: &[(&str, u64)]) -> Result<Vec<u8>, WriteError<NoMemory>>
    ensures { IndexResult symbols.now result }
{
    let row = ascending(alloc, symbols)?;
    to_bytes(alloc, &OrderedPairs(row))
}

/// Validates an index, and returns a view of its index map.
///
/// # Errors
///
/// The same as for `access`.
pub fn open(index: &[u8]) -> Result<ArchivedIndexMap<'_, u64, Text>, VerifyError>
    ensures root { OpensIndex ⟦<Index as Element>⟧.spec index.entry result }
    ensures accepts { IsValidArchive 4294967295 ⟦<Index as Element>⟧.spec index.now → IsOk result }
{
    Ok(ArchivedIndexMap::of(access(index)?))
}

/// Returns the address and the name at `index` of the map, or `None` from its length on.
pub fn entry<'a>(map: ArchivedIndexMap<'a, u64, Text>, index: usize) -> Option<(u64, &'a str)>
    ensures { MatchOption result (index_len map.entry ≤ index) (IsEntryOf map.entry index) }
{
    let (address, name) = map.get_index(index)?;
    Some((address.to_native(), name.as_str()))
}
