//! Symbols in a wide archive, whose text is `Text<Wide>`.

use crate::symbol::Symbol;
use rkyv_base::{Entry, NoMemory, Text, VerifyError, Wide, WriteError, access_in, to_bytes_in};
use rkyv_user_types::PairEntry;
use std::alloc::Global;

/// Returns the wide archive of a symbol.
pub fn archive_wide(
    alloc: Global,
    symbol: &PairEntry<Symbol>,
) -> Result<Vec<u8>, WriteError<NoMemory>> {
    to_bytes_in::<Wide, PairEntry<Symbol>>(alloc, symbol)
}

/// Returns the name in a wide archive, borrowed from its bytes.
pub fn wide_name(bytes: &[u8]) -> Result<&str, VerifyError> {
    let root = access_in::<Wide, Entry<Text<Wide>, u64>>(bytes)?;
    Ok(root.key().as_str())
}
