//! Control bytes of items that are placed.
ghost use Rattle.std.specs.Prelude.{length, ◌<◌, ◌^◌};

use rkyv_scan::simd::generic;
use rkyv_table::controls::numbers::control_count;
use rkyv_table::controls::place::place;
use std::alloc::{AllocError, Global};
use test_support::written::is_then_empty;

// Places an item for each hash into `cap` empty buckets.
// Returns the outcome, and the control bytes after it.
fn placed(
    alloc: Global,
    cap: usize,
    hashes: &[u64],
) -> Result<(Result<Vec<usize>, AllocError>, Vec<u8>), AllocError>
    requires room { length hashes.now < cap }
    requires small { cap < 2 ^ 16 }
{
    let mut controls = vec![in alloc; 0xffu8; control_count(cap)]?;
    let outcome = place::<generic::Group>(alloc, controls.as_mut_slice(), cap, hashes);
    Ok((outcome, controls))
}

// Places two items under the hash 2 into three buckets. Returns whether they are placed, and
// whether the control bytes are right: unchanged, if an allocation of the call fails.
fn two_placed(alloc: Global) -> Result<(bool, bool), AllocError> {
    let (outcome, controls) = placed(alloc, 3, &[2, 2])?;
    let controls = controls.as_slice();
    match outcome {
        Ok(homes) => {
            let written = is_then_empty(controls, &[0, 0xff, 0, 0, 0xff, 0], 25);
            Ok((true, written && homes.as_slice() == [2, 0].as_slice()))
        }
        Err(_) => Ok((false, is_then_empty(controls, &[], 31))),
    }
}

#[test]
fn control_bytes_are_written_or_unchanged(rt: HostRuntime) {
    let right = match two_placed(rt.alloc()) {
        Ok((_, right)) => right,
        Err(_) => true,
    };
    assert!(rt; right);
}

#[test]
fn placing_two_items_succeeds(rt: HostRuntime) {
    expect_eq!(rt; two_placed(rt.alloc()), Ok((true, true)));
}
