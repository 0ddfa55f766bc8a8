//! Round trips: values that are written, opened, compared and deserialized.
//!
//! - `round_trips_equal` writes a value, opens and deserializes it, and compares both.
//! - `lookups_agree` compares a lookup in the archive with one in the std map.
//! - `laws::archives_round_trip` is the law behind `round_trips_equal`.

ghost use Rattle.std.specs.Prelude.{◌≡◌, IfErr, IfOk, true};
ghost use Rattle.rkyv_keys.specs.{HasArchive, RoundTripFails, nothing_fails, round_trip};
ghost use Rattle.rkyv_collections.specs.{map_spec};

use crate::map::{ArchivedHashMap, HashMapOf};
use crate::std_maps::hashed::Hashed;
pub use rkyv_base::errors::RoundTripError;
use rkyv_base::{Archive, Serialize, VecWriter, Width, access_in, to_bytes_in};
use rkyv_keys::{
    Deserialize, EqualsWritten, KeyElement, MatchesNative, NativeKey, RepresentsUniquely,
};
use rkyv_scan::KeyHasher;
use std::alloc::Global;
use std::collections::HashMap;
use std::hash::{BuildHasher, Hash};

/// Writes a value, opens the archive, compares the root with the value, and deserializes it.
///
/// Returns `Ok(true)` or an error: `Write` of `to_bytes_in`, or `Read` of `deserialize`.
pub fn round_trips_equal<
    W: Width,
    M: Serialize<VecWriter, W> + EqualsWritten<W> + PartialEq + Drop,
>(alloc: Global, value: &M) -> Result<bool, RoundTripError>
where
    M::Archived: Deserialize<M> + MatchesNative<M> + RepresentsUniquely<M>,
    ensures same { IfOk result (λ same. same ≡ true) }
    ensures archived { IfOk result (λ _. HasArchive (round_trip W.LIMIT M.Archived.spec M.format
        M.Archived.deserialize_fails) value.now) }
    ensures error { IfErr result (RoundTripFails (round_trip W.LIMIT M.Archived.spec M.format
        M.Archived.deserialize_fails) value.now) }
{
    let bytes = to_bytes_in::<W, M>(alloc, value)?;
    let Ok(root) = access_in::<W, M::Archived>(bytes.as_slice()) else {
        return Ok(false);
    };
    if !M::Archived::eq_native(root, value) {
        return Ok(false);
    }
    let back = M::Archived::deserialize(alloc, root)?;
    Ok(back == *value)
}

/// Writes a std map, and compares a lookup in the archive with one in the map.
///
/// Returns `Ok(true)` or the error of `to_bytes_in`.
pub fn lookups_agree<
    W: Width,
    H: KeyHasher,
    A: Serialize<VecWriter, W> + Hash,
    B: Serialize<VecWriter, W> + EqualsWritten<W>,
    T: BuildHasher,
>(alloc: Global, map: &Hashed<HashMap<A, B, T>, H>, key: &A) -> Result<bool, RoundTripError>
where
    A::Archived: KeyElement,
    A: NativeKey<A::Archived>,
    B::Archived: MatchesNative<B>,
    ensures same { IfOk result (λ same. same ≡ true) }
    ensures archived { IfOk result (λ _. HasArchive (round_trip W.LIMIT
        (map_spec W.word A.Archived.spec B.Archived.spec)
        ⟦<Hashed<HashMap<A, B, T>, H> as Archive<W>>⟧.format nothing_fails) map.now) }
    ensures error { IfErr result (RoundTripFails (round_trip W.LIMIT
        (map_spec W.word A.Archived.spec B.Archived.spec)
        ⟦<Hashed<HashMap<A, B, T>, H> as Archive<W>>⟧.format nothing_fails) map.now) }
{
    let bytes = to_bytes_in::<W, Hashed<HashMap<A, B, T>, H>>(alloc, map)?;
    let Ok(root) = access_in::<W, HashMapOf<A::Archived, B::Archived, H, W>>(bytes.as_slice())
    else {
        return Ok(false);
    };
    Ok(ArchivedHashMap::of(root).agrees_on(&map.map, key))
}
