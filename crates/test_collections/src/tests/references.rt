//! Tests of std maps and sets that are archived by a reference.

use crate::tests::std_maps::one_of;
use crate::tests::std_sets::set_of_one;
use rkyv_base::Narrow;
use rkyv_collections::Hashed;
use rkyv_collections::std_maps::laws::{
    hashed_values_are_cloned, map_references_are_written, set_references_are_written,
};
use rkyv_scan::FxHasher64;
use std::collections::{HashMap, HashSet};
use std::hash::RandomState;
use std::test::Fail;
use test_support::archives::{one_pair, one_unit};
use test_support::written::is_archived_as;

#[test]
fn references_are_archived_as_maps_and_sets(rt: HostRuntime) -> Result<(), Fail> {
    map_references_are_written::<Narrow, FxHasher64, i8, i8, RandomState>();
    set_references_are_written::<Narrow, FxHasher64, (), RandomState>();
    hashed_values_are_cloned::<&HashMap<i8, i8>, FxHasher64>();
    let map = one_of(rt.alloc(), 1, 2)?;
    let reference: Hashed<&HashMap<i8, i8>> = Hashed::new(&map);
    let (clone, copy) = (reference.clone()?, reference);
    expect_eq!(rt; is_archived_as(rt.alloc(), &reference, &one_pair()), true);
    expect_eq!(rt; is_archived_as(rt.alloc(), &clone, &one_pair()), true);
    expect_eq!(rt; is_archived_as(rt.alloc(), &copy, &one_pair()), true);
    expect_eq!(rt; (clone == copy, map.len()), (true, 1));
    let set = set_of_one(rt.alloc(), ())?;
    let reference: Hashed<&HashSet<()>> = Hashed::new(&set);
    expect_eq!(rt; is_archived_as(rt.alloc(), &reference, &one_unit()), true);
    expect_eq!(rt; set.len(), 1);
    Ok(())
}
