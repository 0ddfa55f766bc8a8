//! Tests of whole archives of numbers and pairs.
ghost use Rattle.std.specs.Prelude.{IfOk, ◌≡◌};

use crate::tests::access_failures::access_failure;
use rkyv_base::access::access;
use rkyv_base::{
    Entry, Narrow, NoMemory, Serialize, VecWriter, VerifyError, WriteError, laws, to_bytes,
};
use std::alloc::Global;
use test_support::written::is_archived_as;

#[test]
fn pairs_are_padded(rt: HostRuntime) {
    laws::entries_are_keys_and_values::<Narrow, u8, u32>();
    laws::units_are_empty::<Narrow>();
    let alloc = rt.alloc();
    expect_eq!(rt; is_archived_as(alloc, &(1u8, 2u32), &[1, 0, 0, 0, 2, 0, 0, 0]), true);
    expect_eq!(rt; is_archived_as(alloc, &(1u32, 2u8), &[1, 0, 0, 0, 2, 0, 0, 0]), true);
    expect_eq!(rt; is_archived_as(alloc, &((), 2u16), &[2, 0]), true);
}

// Returns `true` for each of these: the archive of a value has the first bytes, and that of the
// pair of the value and 9 has the second ones.
fn are_archived_as<V: Serialize<VecWriter, Narrow> + Copy>(
    alloc: Global,
    value: V,
    alone: &[u8],
    with_nine: &[u8],
) -> [bool; 2] {
    [
        is_archived_as(alloc, &value, alone),
        is_archived_as(alloc, &(value, 9u64), with_nine),
    ]
}

// Returns the same of the value that is a pair.
fn pair_is_archived_as<V: Serialize<VecWriter, Narrow> + Copy>(
    alloc: Global,
    pair: (V, V),
    alone: &[u8],
    with_nine: &[u8],
) -> [bool; 2] {
    are_archived_as::<(V, V)>(alloc, pair, alone, with_nine)
}

// Returns the same of the value that is a pair of pairs. So each bound is proved for one pair.
fn pairs_are_archived_as<V: Serialize<VecWriter, Narrow> + Copy>(
    alloc: Global,
    pairs: ((V, V), (V, V)),
    alone: &[u8],
    with_nine: &[u8],
) -> [bool; 2] {
    pair_is_archived_as::<(V, V)>(alloc, pairs, alone, with_nine)
}

// The buffer for up to 64 fixed bytes needs no memory; that for more is allocated.
#[test]
fn roots_of_64_and_of_72_bytes(rt: HostRuntime) {
    let first = [
        1, 0, 0, 0, 0, 0, 0, 0, 2, 0, 0, 0, 0, 0, 0, 0, 3, 0, 0, 0, 0, 0, 0, 0, 4, 0, 0, 0, 0, 0,
        0, 0, 5, 0, 0, 0, 0, 0, 0, 0, 6, 0, 0, 0, 0, 0, 0, 0, 7, 0, 0, 0, 0, 0, 0, 0, 8, 0, 0, 0,
        0, 0, 0, 0,
    ];
    let mut both = [0; 72];
    both[..64].copy_from_slice(&first);
    both[64] = 9;
    let eight = (((1u64, 2u64), (3u64, 4u64)), ((5u64, 6u64), (7u64, 8u64)));
    expect_eq!(rt; pairs_are_archived_as::<(u64, u64)>(rt.alloc(), eight, &first, &both),
        [true; 2]);
}

// Returns the parts of a pair and of its inner pair, read in place.
fn parts(bytes: &[u8]) -> Option<(u8, i32, bool)> {
    let root = access::<Entry<u8, Entry<i32, bool>>>(bytes).ok()?;
    let inner = root.value();
    Some((
        root.key().to_native(),
        inner.key().to_native(),
        inner.value().to_native(),
    ))
}

// Returns the same parts of the archive of 1, -2 and `true`.
fn parts_written(alloc: Global) -> Option<(u8, i32, bool)> {
    match to_bytes(alloc, &(1u8, (-2i32, true))) {
        Ok(bytes) => parts(bytes.as_slice()),
        Err(_) => None,
    }
}

#[test]
fn pairs_are_read_in_place(rt: HostRuntime) {
    expect_eq!(rt; parts_written(rt.alloc()), Some((1, -2, true)));
}

#[test]
fn rejects_invalid_roots(rt: HostRuntime) {
    expect_eq!(rt; access_failure::<Narrow, bool>(&[2]),
        Some(VerifyError::InvalidValue { pos: 0 }));
    expect_eq!(rt; access_failure::<Narrow, char>(&[0x00, 0xd8, 0x00, 0x00]),
        Some(VerifyError::InvalidValue { pos: 0 }));
    expect_eq!(rt; access_failure::<Narrow, u32>(&[0, 0, 0]),
        Some(VerifyError::OutOfRange { pos: -1, size: 4 }));
    expect_eq!(rt; access_failure::<Narrow, u32>(&[0, 0, 0, 0, 0]),
        Some(VerifyError::Unaligned { pos: 1, align: 4 }));
}

/// Archives a pair, and returns its key, read in place. It is the key that was archived.
fn archived_key(alloc: Global, pair: &(u32, bool)) -> Result<u32, WriteError<NoMemory>>
    ensures { IfOk result (λ key. key ≡ pair.now.0) }
{
    let bytes = to_bytes(alloc, pair)?;
    let root = access::<Entry<u32, bool>>(bytes.as_slice()).unwrap();
    Ok(root.key().to_native())
}

#[test]
fn an_archived_key_is_read_back(rt: HostRuntime) {
    expect_eq!(rt; archived_key(rt.alloc(), &(7, true)).ok(), Some(7));
}
