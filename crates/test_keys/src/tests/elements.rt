//! Tests of values in archives: deserialized, compared, hashed and formatted.
use crate::tests::queries::shows;
use rkyv_base::access::access;
use rkyv_base::{VerifyError, to_bytes};
use rkyv_keys::{
    Deserialize, ElementEq, KeyElement, MatchesNative, Query, ScalarKey, Shown, hash_value, laws,
};
use rkyv_scan::{FxHasher64, KeyHasher};
use std::alloc::Global;
use std::fmt::Debug;

// Returns the result of each comparison for the value of an archive, and for another value.
fn compared<N: ScalarKey>(
    bytes: &[u8],
    others: &[u8],
    value: N,
    other: N,
) -> Result<[bool; 6], VerifyError> {
    let view = access::<N>(bytes)?;
    let stranger = access::<N>(others)?;
    Ok([
        <N as ElementEq>::same(view, view),
        <N as ElementEq>::same(view, stranger),
        N::eq_native(view, &value),
        N::eq_native(view, &other),
        Query::same(&value, view),
        Query::same(&value, stranger),
    ])
}

// Returns `true` if the value of an archive has the hash of the native value.
fn hashes_alike<N: ScalarKey>(bytes: &[u8], value: N) -> Result<bool, VerifyError> {
    let view = access::<N>(bytes)?;
    let mut state = FxHasher64::default();
    N::hash_view(view, &mut state);
    Ok(state.finish() == hash_value::<N, FxHasher64>(&value))
}

// Returns `true` if the value of an archive is deserialized as this value.
fn is_read_back<N: ScalarKey>(alloc: Global, bytes: &[u8], value: N) -> bool {
    match access::<N>(bytes) {
        Ok(view) => matches!(N::deserialize(alloc, view), Ok(read) if read == value),
        Err(_) => false,
    }
}

// Returns `true` if all of these are as expected, for the archives of a value and of another.
fn represents_in<N: ScalarKey + Debug>(
    alloc: Global,
    bytes: &[u8],
    others: &[u8],
    value: N,
    other: N,
    text: &str,
) -> bool {
    compared(bytes, others, value, other).ok() == Some([true, false, true, false, true, false])
        && hashes_alike(bytes, value).ok() == Some(true)
        && is_read_back(alloc, bytes, value)
        && shows::<N>(alloc, bytes, text)
}

// Archives a value and another, and calls `represents_in` on the archives.
fn represents<N: ScalarKey + Debug>(alloc: Global, value: N, other: N, text: &str) -> Option<bool> {
    let bytes = to_bytes(alloc, &value).ok()?;
    let others = to_bytes(alloc, &other).ok()?;
    Some(represents_in(
        alloc,
        bytes.as_slice(),
        others.as_slice(),
        value,
        other,
        text,
    ))
}

#[test]
fn scalars_represent_themselves(rt: HostRuntime) {
    let alloc = rt.alloc();
    expect_eq!(rt; represents(alloc, 7u8, 8, "7"), Some(true));
    expect_eq!(rt; represents(alloc, 7u16, 263, "7"), Some(true));
    expect_eq!(rt; represents(alloc, 7u32, 65543, "7"), Some(true));
    expect_eq!(rt; represents(alloc, 7u64, 4_294_967_303, "7"), Some(true));
    expect_eq!(rt; represents(alloc, -7i8, 7, "-7"), Some(true));
    expect_eq!(rt; represents(alloc, -7i16, 7, "-7"), Some(true));
    expect_eq!(rt; represents(alloc, -7i32, 7, "-7"), Some(true));
    expect_eq!(rt; represents(alloc, -7i64, 7, "-7"), Some(true));
    expect_eq!(rt; represents(alloc, true, false, "true"), Some(true));
    expect_eq!(rt; represents(alloc, 'x', 'y', "'x'"), Some(true));
}

// Returns `true` if a clone of the shown value of an archive is formatted as 7.
fn is_cloned(alloc: Global, bytes: &[u8]) -> Option<bool> {
    let shown = Shown::new(access::<u8>(bytes).ok()?);
    let text = format!(in alloc; "{:?}", shown.clone().ok()?).ok()?;
    Some(text.as_str() == "7")
}

#[test]
fn a_clone_of_a_shown_value_is_formatted_alike(rt: HostRuntime) {
    laws::shown_values_are_cloned::<u8>();
    expect_eq!(rt; is_cloned(rt.alloc(), &[7]), Some(true));
}
