//! Summaries of archived maps: the values of the header, and the lookups of all keys.

use rkyv_table::table::decoded::Decoded;
use std::alloc::{AllocError, Global};

/// The lookups of all keys of a map.
#[derive(Debug, Drop)]
pub struct Lookups {
    /// The number of keys whose lookup finds another key or none.
    pub misplaced: usize,
    /// The histogram of strides: entry n is the number of keys whose lookup reads n strides.
    ///
    /// A stride has sixteen control bytes, so there are ceil(capacity / 16) + 1 entries.
    pub strides: Vec<usize>,
}

/// The values of an archived map's header, and the lookups of its keys.
#[derive(Debug, Drop)]
pub struct Summary {
    /// The number of items.
    pub len: usize,
    /// The number of buckets.
    pub capacity: usize,
    /// The position of the header.
    pub header_pos: u64,
    /// The position of the first control byte, or `None` if there are no buckets.
    pub controls_pos: Option<usize>,
    /// The lookups of all keys, or `None` if they read more strides than a limit.
    pub lookups: Option<Lookups>,
}

/// Returns a histogram of the strides of no lookups among `capacity` buckets.
pub(crate) fn no_strides(alloc: Global, capacity: usize) -> Result<Vec<usize>, AllocError> {
    vec![in alloc; 0; capacity.div_ceil(16) + 1]
}

/// Adds one to the entry of `strides` in a histogram.
pub(crate) fn count_one(counts: &mut Vec<usize>, strides: u64) {
    if let Some(count) = counts.get_mut(strides as usize) {
        *count = count.saturating_add(1);
    }
}

/// Returns the summary of a map with this header.
pub(crate) fn summary_of(header: Decoded, header_pos: u64, lookups: Option<Lookups>) -> Summary {
    let capacity = header.capacity();
    Summary {
        len: header.len(),
        capacity,
        header_pos,
        controls_pos: if capacity == 0 {
            None
        } else {
            Some(header.controls_pos())
        },
        lookups,
    }
}
