//! Headers of tables, decoded.
//!
//! A table, map or set decodes its header once. The reciprocal of the capacity then replaces
//! a division in each lookup.
ghost use Rattle.std.specs.Prelude.{◌≡◌};
ghost use Rattle.rkyv_table.specs.{decoded_cap, decoded_controls_pos, decoded_len};

use crate::controls::reciprocal::Reciprocal;

/// The decoded header of a table, with the reciprocal of its capacity.
///
/// A caller in C can keep it between calls.
#[repr(C)]
#[derive(Clone, Copy, Debug)]
pub struct Decoded {
    // The position of the first control byte; without meaning if there are no buckets.
    pub(crate) controls_pos: usize,
    pub(crate) len: usize,
    pub(crate) cap: usize,
    // Of the capacity; without meaning if there are no buckets.
    pub(crate) reciprocal: Reciprocal,
}

impl Decoded {
    /// Returns the number of items.
    #[inline]
    pub fn len(self) -> usize
        ensures { result ≡ decoded_len self }
    {
        self.len
    }

    /// Returns the number of buckets.
    #[inline]
    pub fn capacity(self) -> usize
        ensures { result ≡ decoded_cap self }
    {
        self.cap
    }

    /// Returns the position of the first control byte. It has no meaning if there are no buckets.
    #[inline]
    pub fn controls_pos(self) -> usize
        ensures { result ≡ decoded_controls_pos self }
    {
        self.controls_pos
    }
}
