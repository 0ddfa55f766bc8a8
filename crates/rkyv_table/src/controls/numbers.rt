//! The sizes of a table in buckets and control bytes, and the start and the tag of a hash.
//!
//! The rules are rkyv's.
ghost use Rattle.std.specs.Prelude.{◌≡◌, ◌%◌, ◌*◌, ◌+◌, ◌<◌, ◌^◌, ◌≤◌};
ghost use Rattle.rkyv_table.specs.{IsCapacity, capacity_write_error, control_count, modulus};
ghost use Rattle.rkyv_table.specs.{probe_capacity, start, tag};

use rkyv_base::WriteError;
use thiserror::Error;

/// The error of a capacity, with the messages of the write errors that it becomes.
#[derive(Clone, Copy, Debug, PartialEq, Eq, Error)]
pub enum CapacityError {
    /// The load factor isn't a fraction above 0 and at most 1.
    #[error("invalid load factor {numerator} / {denominator}, load factor must be a fraction in the range (0, 1]")]
    InvalidLoadFactor {
        /// The numerator of the load factor.
        numerator: usize,
        denominator: usize,
    },
    /// The capacity of a table of this length is above the limit.
    #[error("capacity too large for length {len}")]
    CapacityTooLarge {
        /// The number of items.
        len: usize,
    },
}

impl<F> From<CapacityError> for WriteError<F> {
    ghost from_gives = { λ error e. e ≡ capacity_write_error error };

    #[inline]
    fn from(error: CapacityError) -> WriteError<F> {
        match error {
            CapacityError::InvalidLoadFactor {
                numerator,
                denominator,
            } => WriteError::InvalidLoadFactor {
                numerator,
                denominator,
            },
            CapacityError::CapacityTooLarge { len } => WriteError::CapacityTooLarge { len },
        }
    }
}

/// Returns the number of buckets of a table of `len` items under a load factor, as in rkyv.
///
/// It is 0 for no items, else `len` divided by the load factor, rounded down, or if greater
/// `len + 1`. Fails with `InvalidLoadFactor` unless the load factor is above 0 and at most 1,
/// and with `CapacityTooLarge` above `limit`.
pub fn capacity(len: usize, load_factor: (usize, usize), limit: u64) -> Result<usize, CapacityError>
    ensures { IsCapacity len load_factor limit result }
{
    let (numerator, denominator) = load_factor;
    if numerator == 0 || numerator > denominator {
        return Err(CapacityError::InvalidLoadFactor {
            numerator,
            denominator,
        });
    }
    if len == 0 {
        return Ok(0);
    }
    let scaled = len as u128 * denominator as u128 / numerator as u128;
    let buckets = scaled.max(len as u128 + 1);
    if buckets > limit as u128 {
        return Err(CapacityError::CapacityTooLarge { len });
    }
    Ok(buckets as usize)
}

/// Returns the number of indices at which a stride may begin: `cap` rounded up to a multiple of 16.
#[inline]
pub fn probe_capacity(cap: usize) -> usize
    requires fits { cap + 15 < 2 ^ 64 }
    ensures { result ≡ probe_capacity cap }
{
    (cap + 15) / 16 * 16
}

/// Returns the number of control bytes of a table with `cap` buckets.
#[inline]
pub fn control_count(cap: usize) -> usize
    requires fits { control_count cap < 2 ^ 64 }
    ensures { result ≡ control_count cap }
{
    probe_capacity(cap) + 15
}

/// Returns the modulus of the probe sequence: the control count, rounded up to a power of two.
#[inline]
pub fn modulus(cap: usize) -> usize
    requires some { 0 < cap }
    requires fits { control_count cap ≤ 2 ^ 63 }
    ensures { result ≡ modulus cap }
{
    control_count(cap).next_power_of_two()
}

/// Returns the bucket at which the probe sequence of a hash begins, if there are buckets.
#[inline]
pub fn start(hash: u64, cap: usize) -> usize
    ensures { 0 < cap → result ≡ start hash cap }
{
    if cap == 0 {
        0
    } else {
        (hash % cap as u64) as usize
    }
}

/// Returns the tag of a hash: its seven highest bits.
#[inline]
pub fn tag(hash: u64) -> u8
    ensures { result ≡ tag hash }
{
    (hash >> 57) as u8
}

/// Returns the bucket of an index of a control byte.
#[inline]
pub fn bucket_of(index: usize, cap: usize) -> usize
    requires below { index < 2 * cap }
    ensures { result ≡ index % cap }
{
    if index < cap { index } else { index - cap }
}
