//! Tests of values that equal their archived form.

use rkyv_base::{Narrow, NoMemory, Serialize, VecWriter, Wide, Width, WriteError, to_bytes_in};
use rkyv_keys::{
    Deserialize, EqualsUniquely, EqualsWritten, FixedKey, MatchesNative, RepresentsUniquely,
    valid_at,
};
use std::alloc::Global;

// Archives a value. Returns `true` if the archived value is valid, equals the value in place,
// and is deserialized as an equal value.
fn equals_itself<W: Width, V: Serialize<VecWriter, W> + EqualsWritten<W> + PartialEq + Drop>(
    alloc: Global,
    value: &V,
) -> Result<bool, WriteError<NoMemory>>
where
    V::Archived: FixedKey + EqualsUniquely<V> + RepresentsUniquely<V> + Deserialize<V>,
{
    let bytes = to_bytes_in::<W, V>(alloc, value)?;
    let Some(view) = valid_at::<V::Archived>(bytes.as_slice(), 0) else {
        return Ok(false);
    };
    let in_place = <V::Archived as MatchesNative<V>>::eq_native(view, value);
    match <V::Archived as Deserialize<V>>::deserialize(alloc, view) {
        Ok(read) => Ok(in_place && read == *value),
        Err(_) => Ok(false),
    }
}

#[test]
fn keys_equal_themselves(rt: HostRuntime) {
    let alloc = rt.alloc();
    expect_eq!(rt; equals_itself::<Narrow, (u32, bool)>(alloc, &(7, true)).ok(), Some(true));
    expect_eq!(rt; equals_itself::<Wide, char>(alloc, &'x').ok(), Some(true));
}
