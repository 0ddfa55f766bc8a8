//! Comparisons of archives with known bytes.

use rkyv_base::{Narrow, Serialize, VecWriter, to_bytes};
use std::alloc::Global;

/// Returns whether the narrow archive of a value has these bytes.
pub fn is_archived_as<V: Serialize<VecWriter, Narrow>>(
    alloc: Global,
    value: &V,
    bytes: &[u8],
) -> bool {
    match to_bytes(alloc, value) {
        Ok(archive) => archive.as_slice() == bytes,
        Err(_) => false,
    }
}

// Returns whether all controls are empty.
fn are_empty(controls: &[u8]) -> bool {
    controls.iter().all(|&control| control == 0xff)
}

/// Returns whether the bytes are `front`, then `empty` empty controls.
pub fn is_then_empty(bytes: &[u8], front: &[u8], empty: usize) -> bool {
    match bytes.split_at_checked(front.len()) {
        Some((first, others)) => first == front && others.len() == empty && are_empty(others),
        None => false,
    }
}
