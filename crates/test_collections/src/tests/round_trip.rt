//! Round trips of std's maps and sets, lookups in their archives, and their printed forms.

ghost use Rattle.std.specs.Prelude.{◌≡◌, IfOk, true};

use rkyv_base::access::access;
use rkyv_base::{Narrow, Text, Wide, to_bytes};
use rkyv_collections::std_maps::round_trip::{RoundTripError, lookups_agree, round_trips_equal};
use rkyv_collections::{ArchivedHashSet, HashSetOf, Hashed};
use rkyv_scan::{FxHasher64, FxHasher64Wide};
use std::alloc::{AllocError, Global};
use std::collections::{HashMap, HashSet};
use std::fmt::Debug;
use std::hash::RandomState;
use std::test::Fail;

type Ports = Hashed<HashMap<String, u16>>;

// Writes a table of ports, compares the archive with it, and reads it back.
// Returns whether all are equal, and whether a lookup of `name` agrees with the table.
fn ports_round_trip(
    alloc: Global,
    ports: &Ports,
    name: &String,
) -> Result<(bool, bool), RoundTripError>
    ensures { IfOk result (λ same. (same.0 ≡ true) × (same.1 ≡ true)) }
{
    let back = round_trips_equal::<Narrow, Ports>(alloc, ports)?;
    let found = lookups_agree::<Narrow, _, _, _, _>(alloc, ports, name)?;
    Ok((back, found))
}

#[test]
fn a_table_of_ports(rt: HostRuntime) -> Result<(), Fail> {
    let alloc = rt.alloc();
    let mut table = HashMap::new(alloc);
    table.insert(String::from_str(alloc, "ssh")?, 22)?;
    table.insert(String::from_str(alloc, "https")?, 443)?;
    let (ports, missing) = (Hashed::new(table), String::from_str(alloc, "telnet")?);
    let name = String::from_str(alloc, "ssh")?;
    expect_eq!(rt; ports_round_trip(alloc, &ports, &name).ok(), Some((true, true)));
    expect_eq!(rt; ports_round_trip(alloc, &ports, &missing).ok(), Some((true, true)));
    Ok(())
}

// Returns the map of these pairs, with the hasher `H`.
fn map_of<H>(alloc: Global, pairs: &[(i8, i8)]) -> Result<Hashed<HashMap<i8, i8>, H>, AllocError> {
    let mut map = HashMap::new(alloc);
    for (key, value) in pairs {
        map.insert(*key, *value)?;
    }
    Ok(Hashed::new(map))
}

#[test]
fn lookups_in_both_widths(rt: HostRuntime) -> Result<(), Fail> {
    let map = map_of::<FxHasher64Wide>(rt.alloc(), &[(1, 2), (3, 4)])?;
    expect_eq!(rt; lookups_agree::<Narrow, _, _, _, _>(rt.alloc(), &map, &1).ok(), Some(true));
    expect_eq!(rt; lookups_agree::<Narrow, _, _, _, _>(rt.alloc(), &map, &2).ok(), Some(true));
    expect_eq!(rt; lookups_agree::<Wide, _, _, _, _>(rt.alloc(), &map, &3).ok(), Some(true));
    expect_eq!(rt; lookups_agree::<Wide, _, _, _, _>(rt.alloc(), &map, &4).ok(), Some(true));
    Ok(())
}

/// Returns whether a value prints as `text`.
pub(crate) fn prints<M: Debug>(alloc: Global, value: &M, text: &str) -> bool {
    matches!(format!(in alloc; "{value:?}"), Ok(shown) if shown.as_str() == text)
}

#[test]
fn hashed_is_printed_as_its_contents(rt: HostRuntime) -> Result<(), Fail> {
    let map = map_of::<FxHasher64>(rt.alloc(), &[(1, 2)])?;
    let mut maps = HashMap::new(rt.alloc());
    maps.insert(5u8, map_of::<FxHasher64>(rt.alloc(), &[(3, 4)])?)?;
    let nested: Hashed<HashMap<u8, Hashed<HashMap<i8, i8>>>> = Hashed::new(maps);
    let mut keys = HashSet::new(rt.alloc());
    keys.insert("a")?;
    let set: Hashed<HashSet<&str>> = Hashed::new(keys);
    expect_eq!(rt; prints(rt.alloc(), &map, "{1: 2}"), true);
    expect_eq!(rt; prints(rt.alloc(), &set, "{\"a\"}"), true);
    expect_eq!(rt; prints(rt.alloc(), &nested, "{5: {3: 4}}"), true);
    Ok(())
}

// Returns whether two values are equal, and whether they differ.
fn compared<M: Eq>(value: &M, other: &M) -> (bool, bool) {
    (*value == *other, *value != *other)
}

#[test]
fn hashed_is_compared_as_its_contents(rt: HostRuntime) -> Result<(), Fail> {
    let map = map_of::<FxHasher64>(rt.alloc(), &[(1, 2)])?;
    let same = map_of::<FxHasher64>(rt.alloc(), &[(1, 2)])?;
    let other = map_of::<FxHasher64>(rt.alloc(), &[(1, 3)])?;
    expect_eq!(rt; [compared(&map, &same), compared(&map, &other)], [(true, false), (false, true)]);
    Ok(())
}

#[test]
fn a_set_with_a_hash_state_of_its_own(rt: HostRuntime) -> Result<(), Fail> {
    let state = RandomState::new(&rt)?;
    let mut set = HashSet::with_hasher(rt.alloc(), state);
    set.insert(String::from_str(rt.alloc(), "hello")?)?;
    set.insert(String::from_str(rt.alloc(), "wonderful text")?)?;
    let set: Hashed<HashSet<String, RandomState>> = Hashed::new(set);
    let bytes = to_bytes(rt.alloc(), &set)?;
    let root = ArchivedHashSet::of(access::<HashSetOf<Text>>(bytes.as_slice())?);
    let back = root.deserialize_std::<String, RandomState>(rt.alloc(), state)?;
    expect_eq!(rt; (root.eq_std(set.get()), back == *set.get()), (true, true));
    Ok(())
}
