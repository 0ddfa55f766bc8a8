//! Archives with a changed byte, and the results for them.

use rkyv_base::VerifyError;

/// Writes `byte` at `pos`, if the archive has this position. Returns `pos`.
pub fn change(archive: &mut [u8], pos: u64, byte: u8) -> u64 {
    if let Some(old) = archive.get_mut(pos as usize) {
        *old = byte;
    }
    pos
}

/// Returns the bytes with `new` from `pos` on, as far as they have these positions.
pub fn with_bytes<const N: usize>(bytes: [u8; N], pos: u64, new: &[u8]) -> [u8; N] {
    let mut changed = bytes;
    let mut next = pos;
    for byte in new {
        change(&mut changed, next, *byte);
        next = next.wrapping_add(1);
    }
    changed
}

/// The numbers of changed archives, by the result for them.
#[derive(Clone, Copy, Debug, PartialEq, Eq)]
pub struct OutcomeCounts {
    /// Valid archives with the expected contents.
    pub right: u32,
    /// Valid archives.
    pub accepted: u32,
    /// Errors `PlaceOutOfRange`.
    pub place_out_of_range: u32,
    /// Errors `UnwrappedControlByte`.
    pub unwrapped: u32,
    /// Errors `OutOfRange`.
    pub out_of_range: u32,
    /// Errors `InvalidLength`.
    pub invalid_length: u32,
    /// Errors `WrongNumberOfElements`.
    pub wrong_number: u32,
    /// Errors `Unaligned`.
    pub unaligned: u32,
    /// All other errors.
    pub other: u32,
}

fn add_one(count: &mut u32) {
    *count = count.wrapping_add(1);
}

impl OutcomeCounts {
    fn new() -> OutcomeCounts {
        OutcomeCounts {
            right: 0,
            accepted: 0,
            place_out_of_range: 0,
            unwrapped: 0,
            out_of_range: 0,
            invalid_length: 0,
            wrong_number: 0,
            unaligned: 0,
            other: 0,
        }
    }

    // Counts one result; `Ok(true)` is a valid archive with the expected contents.
    fn count(&mut self, outcome: Result<bool, VerifyError>) {
        match outcome {
            Ok(right) => {
                add_one(&mut self.accepted);
                if right {
                    add_one(&mut self.right);
                }
            }
            Err(VerifyError::PlaceOutOfRange { .. }) => add_one(&mut self.place_out_of_range),
            Err(VerifyError::UnwrappedControlByte { .. }) => add_one(&mut self.unwrapped),
            Err(VerifyError::OutOfRange { .. }) => add_one(&mut self.out_of_range),
            Err(VerifyError::InvalidLength { .. }) => add_one(&mut self.invalid_length),
            Err(VerifyError::WrongNumberOfElements { .. }) => add_one(&mut self.wrong_number),
            Err(VerifyError::Unaligned { .. }) => add_one(&mut self.unaligned),
            Err(_) => add_one(&mut self.other),
        }
    }
}

/// Counts the results for all archives that differ from this one in one byte.
///
/// # Requires
///
/// - `outcome` is always callable.
pub fn outcomes_of_changes<A: Fn(&[u8]) -> Result<bool, VerifyError>>(
    archive: &mut [u8],
    outcome: A,
) -> OutcomeCounts
    requires { A.IsAlwaysCallable outcome }
{
    let mut outcomes = OutcomeCounts::new();
    for pos in 0..archive.len() {
        let kept = archive[pos];
        for value in 0..=255 {
            if value != kept {
                archive[pos] = value;
                outcomes.count(outcome(&*archive));
            }
        }
        archive[pos] = kept;
    }
    outcomes
}

/// Returns the number of archives that pass `is_permitted`, of those with one byte inverted.
///
/// # Requires
///
/// - `is_permitted` is always callable.
pub fn permitted_flips<A: Fn(&mut [u8]) -> bool>(archive: &mut [u8], is_permitted: A) -> usize
    requires { A.IsAlwaysCallable is_permitted }
{
    let mut permitted = 0usize;
    for pos in 0..archive.len() {
        archive[pos] ^= 0xff;
        if is_permitted(&mut *archive) {
            permitted = permitted.wrapping_add(1);
        }
        archive[pos] ^= 0xff;
    }
    permitted
}
