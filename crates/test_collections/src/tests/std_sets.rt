//! Round trips of std's sets.

use crate::tests::opened::key_set;
use crate::tests::std_maps::{map_round_trips, one_of};
use rkyv_base::access::access;
use rkyv_base::{Narrow, Serialize, Text, VecWriter, VerifyError, Wide, Width, to_bytes};
use rkyv_collections::std_maps::laws;
use rkyv_collections::std_maps::round_trip::round_trips_equal;
use rkyv_collections::{
    ArchivedHashMap, ArchivedHashSet, EqArchived, HashMapOf, HashSetOf, Hashed,
};
use rkyv_keys::{Deserialize, KeyElement, MatchesNative, NativeKey, RepresentsUniquely};
use rkyv_scan::{FxHasher64, FxHasher64Wide, KeyHasher};
use std::alloc::{AllocError, Global};
use std::collections::{HashMap, HashSet};
use std::hash::{BuildHasherDefault, Hash, RandomState};
use std::process::Abort;
use std::test::Fail;
use test_support::archives::{one_unit, three_keys};
use test_support::written::is_archived_as;

// Returns whether a set is the same after a round trip through an archive.
fn set_round_trips<W: Width, H: KeyHasher, A: Serialize<VecWriter, W> + Eq + Hash + Drop>(
    alloc: Global,
    set: &Hashed<HashSet<A>, H>,
) -> Option<bool>
where
    A::Archived: KeyElement + Deserialize<A> + RepresentsUniquely<A>,
    A: NativeKey<A::Archived>,
{
    round_trips_equal::<W, Hashed<HashSet<A>, H>>(alloc, set).ok()
}

// Returns the set of one key.
pub(super) fn set_of_one<A: Eq + Hash + Drop>(
    alloc: Global,
    key: A,
) -> Result<HashSet<A>, AllocError> {
    let mut set = HashSet::new(alloc);
    set.insert(key)?;
    Ok(set)
}

#[test]
fn sets_of_the_unit_value(rt: HostRuntime) -> Result<(), Fail> {
    let set: Hashed<HashSet<()>, FxHasher64> = Hashed::new(set_of_one(rt.alloc(), ())?);
    expect_eq!(rt; is_archived_as(rt.alloc(), &set, &one_unit()), true);
    expect_eq!(rt; set_round_trips::<Narrow, _, ()>(rt.alloc(), &set), Some(true));
    let set: Hashed<HashSet<()>, FxHasher64Wide> = Hashed::new(set_of_one(rt.alloc(), ())?);
    expect_eq!(rt; is_archived_as(rt.alloc(), &set, &one_unit()), true);
    expect_eq!(rt; set_round_trips::<Narrow, _, ()>(rt.alloc(), &set), Some(true));
    Ok(())
}

// Returns the number of archived texts that a std set has, and of its texts that the archived
// set has.
fn members_both_ways(root: ArchivedHashSet<'_, Text>, words: &HashSet<String>) -> (usize, usize) {
    let (mut in_std, mut in_archive) = (0usize, 0usize);
    for key in root.iter() {
        if words.contains(key.as_str()) {
            in_std = in_std.wrapping_add(1);
        }
    }
    for word in words.iter() {
        if root.contains(word) {
            in_archive = in_archive.wrapping_add(1);
        }
    }
    (in_std, in_archive)
}

// Compares the archive of the set of these five words with the set, and its round trips in both
// widths.
fn expect_five_words(rt: &impl Abort, alloc: Global, words: &[&str]) -> Result<(), Fail> {
    let mut set = HashSet::new(alloc);
    for word in words {
        set.insert(String::from_str(alloc, *word)?)?;
    }
    let words: Hashed<HashSet<String>> = Hashed::new(set);
    let bytes = to_bytes(alloc, &words)?;
    let root = ArchivedHashSet::of(access::<HashSetOf<Text>>(bytes.as_slice())?);
    expect_eq!(*rt; members_both_ways(root, words.get()), (5, 5));
    expect_eq!(*rt; (root.eq_std(words.get()), words.get().eq_archived(root)), (true, true));
    expect_eq!(*rt; set_round_trips::<Narrow, _, String>(alloc, &words), Some(true));
    expect_eq!(*rt; set_round_trips::<Wide, _, String>(alloc, &words), Some(true));
    Ok(())
}

#[test]
fn sets_of_texts(rt: HostRuntime) -> Result<(), Fail> {
    laws::std_sets_are_represented::<i8, i8, RandomState, FxHasher64, Narrow>();
    laws::std_sets_are_written::<Narrow, FxHasher64, i8, i8, RandomState>();
    laws::std_sets_fail_as_keys::<i8, i8, FxHasher64, Narrow>();
    laws::written_sets_are_looked_up::<i8, Narrow, FxHasher64, i8, RandomState>();
    expect_five_words(
        &rt,
        rt.alloc(),
        &["hello", "world", "foo", "bar", "wonderful text"],
    )?;
    expect_five_words(&rt, rt.alloc(), &["hello", "world", "foo", "bar", "baz"])
}

// Compares the archived set of 1, 2 and 3 with the set of these numbers, by the calls of both
// sides.
fn expect_equality(
    rt: &impl Abort,
    alloc: Global,
    keys: &[u8],
    expected: bool,
) -> Result<(), Fail> {
    let mut set = HashSet::new(alloc);
    for key in keys {
        set.insert(*key)?;
    }
    let bytes = three_keys();
    let root = key_set(&bytes)?;
    expect_eq!(*rt; (root.eq_std(&set), set.eq_archived(root)), (expected, expected));
    Ok(())
}

#[test]
fn equal_sets_have_the_same_keys(rt: HostRuntime) -> Result<(), Fail> {
    expect_equality(&rt, rt.alloc(), &[1, 2, 3], true)?;
    expect_equality(&rt, rt.alloc(), &[1, 2, 9], false)?;
    expect_equality(&rt, rt.alloc(), &[1, 2], false)
}

type Sets = Hashed<HashMap<i8, Hashed<HashSet<i8>>>>;

type ArchivedSets = HashMapOf<i8, HashSetOf<i8>>;

// Returns the map of 1 to the set of `key`.
fn set_in_a_map(alloc: Global, key: i8) -> Result<Sets, AllocError> {
    let set = set_of_one(alloc, key)?;
    Ok(Hashed::new(one_of(alloc, 1, Hashed::new(set))?))
}

// Returns whether an archived map of sets equals that of std's, by `eq_native` and by `eq_std`.
fn equals_sets(bytes: &[u8], map: &Sets) -> Result<[bool; 2], VerifyError> {
    let root = access::<ArchivedSets>(bytes)?;
    let native = <ArchivedSets as MatchesNative<Sets>>::eq_native(root, map);
    let map = map.get();
    let by_lookups = ArchivedHashMap::of(root).eq_std::<i8, Hashed<HashSet<i8>>, _>(map);
    Ok([native, by_lookups])
}

#[test]
fn a_set_in_a_map(rt: HostRuntime) -> Result<(), Fail> {
    laws::std_sets_are_compared::<i8, FxHasher64, Narrow, i8, RandomState>();
    laws::written_sets_are_equal::<Narrow, FxHasher64, i8, RandomState>();
    laws::written_sets_are_lists::<Narrow, FxHasher64, i8, RandomState>();
    let outer = set_in_a_map(rt.alloc(), 2)?;
    expect_eq!(rt; map_round_trips::<Narrow, _, _, _>(rt.alloc(), &outer), Some(true));
    expect_eq!(rt; map_round_trips::<Wide, _, _, _>(rt.alloc(), &outer), Some(true));
    let bytes = to_bytes(rt.alloc(), &outer)?;
    expect_eq!(rt; equals_sets(bytes.as_slice(), &outer), Ok([true; 2]));
    let other = set_in_a_map(rt.alloc(), 3)?;
    expect_eq!(rt; equals_sets(bytes.as_slice(), &other), Ok([false; 2]));
    Ok(())
}

#[test]
fn a_plain_set_in_a_map_is_read(rt: HostRuntime) -> Result<(), Fail> {
    let bytes = to_bytes(rt.alloc(), &set_in_a_map(rt.alloc(), 2)?)?;
    let root = ArchivedHashMap::of(access::<ArchivedSets>(bytes.as_slice())?);
    let state = BuildHasherDefault::new();
    let map: HashMap<i8, HashSet<i8>> = root.deserialize_std(rt.alloc(), state)?;
    let inner = map.get(&1).map(|inner| (inner.len(), inner.contains(&2)));
    expect_eq!(rt; (map.len(), inner), (1, Some((1, true))));
    expect_eq!(rt; root.eq_std::<i8, HashSet<i8>, _>(&map), true);
    Ok(())
}
