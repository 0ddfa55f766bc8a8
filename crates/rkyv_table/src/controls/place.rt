//! Placing items: the home bucket of each item, and its control bytes.
//!
//! The home bucket of an item is the first empty bucket that its hash probes.
ghost use Rattle.std.specs.Prelude.{IfErr, IfOk, IsOk, Some, [], length, ◌%◌, ◌+◌, ◌<◌, ◌≡◌, ◌≤◌};
ghost use Rattle.std.specs.List.{find};
ghost use Rattle.rkyv_table.specs.{AreWrittenControls, HasRoom, IsWrapped, empty_index};
ghost use Rattle.rkyv_table.specs.{fresh_controls, is_empty_at, probed, tag, with_control};

use crate::controls::numbers::{bucket_of, start, tag};
use crate::controls::probe::Probe;
use rkyv_scan::{GroupKind, Marks};
use std::alloc::{AllocError, Global};

#[inline]
fn first_empty<G: GroupKind>(controls: &[u8], pos: usize) -> Option<usize>
    requires { pos + 16 ≤ length controls.now }
    ensures { result ≡ empty_index controls.now pos }
{
    for i in 0..16 / G::WIDTH {
        let at = pos + i * G::WIDTH;
        if let Some(j) = G::read(controls, at).match_empty().lowest_set_bit() {
            return Some(at + j);
        }
    }
    None
}

/// Sets the control bytes of the first empty bucket that a hash probes, and returns the bucket.
///
/// The tag is written at the bucket's index, and at the mirrored index if there is one.
#[inline]
pub fn place_one<G: GroupKind>(controls: &mut [u8], cap: usize, hash: u64) -> usize
    requires wrapped { IsWrapped cap controls.old }
    requires room { HasRoom cap controls.old }
    ensures first { find (is_empty_at controls.old) (probed hash cap) ≡ Some result }
    ensures after { controls.new ≡ with_control controls.old cap result (tag hash) }
{
    place_from::<G>(controls, cap, start(hash, cap), hash)
}

// Returns the first empty bucket that a hash probes, by the start of the probe sequence.
#[cold]
#[inline(never)]
fn later_home<G: GroupKind>(controls: &[u8], cap: usize, start: usize, hash: u64) -> usize
    requires wrapped { IsWrapped cap controls.now }
    requires room { HasRoom cap controls.now }
    requires begun { start ≡ hash % cap }
    ensures { find (is_empty_at controls.now) (probed hash cap) ≡ Some result }
{
    for pos in Probe::starting_at(start, cap) {
        if let Some(index) = first_empty::<G>(controls, pos) {
            return bucket_of(index, cap);
        }
    }
    unreachable!()
}

// Returns the first empty bucket that a hash probes. The first stride mostly has it.
#[inline]
fn home<G: GroupKind>(controls: &[u8], cap: usize, start: usize, hash: u64) -> usize
    requires wrapped { IsWrapped cap controls.now }
    requires room { HasRoom cap controls.now }
    requires begun { start ≡ hash % cap }
    ensures { find (is_empty_at controls.now) (probed hash cap) ≡ Some result }
{
    match first_empty::<G>(controls, start) {
        Some(index) => bucket_of(index, cap),
        None => later_home::<G>(controls, cap, start, hash),
    }
}

/// Places an item as `place_one` does, by the start of the probe sequence, `hash % cap`.
#[inline]
pub fn place_from<G: GroupKind>(controls: &mut [u8], cap: usize, start: usize, hash: u64) -> usize
    requires wrapped { IsWrapped cap controls.old }
    requires room { HasRoom cap controls.old }
    requires begun { start ≡ hash % cap }
    ensures first { find (is_empty_at controls.old) (probed hash cap) ≡ Some result }
    ensures after { controls.new ≡ with_control controls.old cap result (tag hash) }
{
    let bucket = home::<G>(controls, cap, start, hash);
    let tag = tag(hash);
    controls[bucket] = tag;
    if bucket < controls.len() - cap {
        controls[cap + bucket] = tag;
    }
    bucket
}

/// Places an item for each hash, in order, and returns their buckets.
///
/// All control bytes must be 255. Fails only to allocate the list. No hashes need no memory.
pub fn place<G: GroupKind>(
    alloc: Global,
    controls: &mut [u8],
    cap: usize,
    hashes: &[u64],
) -> Result<Vec<usize>, AllocError>
    requires fresh { controls.old ≡ fresh_controls cap }
    requires room { length hashes.now < cap }
    ensures written { IfOk result
        (λ homes. AreWrittenControls cap hashes.now homes.items controls.new) }
    ensures succeeds { hashes.now ≡ [] → IsOk result }
    ensures kept { IfErr result (λ _. controls.new ≡ controls.old) }
{
    let mut homes = Vec::with_capacity(alloc, hashes.len())?;
    for hash in hashes {
        let bucket = place_one::<G>(controls, cap, *hash);
        homes.push_reserved(bucket);
    }
    Ok(homes)
}
