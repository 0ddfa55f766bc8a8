//! The control bytes of a table: probe sequences, placing, lookups, iteration and validation.
//!
//! A table with `cap` buckets has one control byte for each bucket, at the bucket's index.
//! A control byte below 128 is full: it is the tag of the item's hash. Any other is empty, and 255
//! is written.
//!
//! The indices from `cap` on and below `2 * cap` mirror the first control bytes, up to the number
//! of control bytes. The control bytes from `2 * cap` on are empty. A lookup or a placement reads
//! strides of sixteen control bytes along the probe sequence of a hash.
//!
//! - `numbers` has the capacity, the number of control bytes, and the start and tag of a hash.
//! - `probe` has the probe sequence, and `reciprocal` computes its start without a division.
//! - `place` finds the home bucket of an item, and `find` looks an item up.
//! - `walk` iterates over the full buckets, and `wrapped` validates the mirrored control bytes.

pub mod find;
pub mod laws;
pub mod numbers;
pub mod place;
pub mod probe;
pub mod reciprocal;
pub mod walk;
pub mod wrapped;
