//! A first program: archives counts of names, looks one up, and prints all.
#![tactic(auto)]

use rkyv_base::access::access;
use rkyv_base::{Text, to_bytes};
use rkyv_collections::{ArchivedHashMap, HashMapOf, MapPairs};
use std::test::Fail;

fn main(rt: HostRuntime) -> Result<(), Fail> {
    let counts: MapPairs<'_, &str, u64> = MapPairs::new(&[("tea", 3), ("cake", 5)]);
    let bytes = to_bytes(rt.alloc(), &counts)?;
    let map = ArchivedHashMap::of(access::<HashMapOf<Text, u64>>(bytes.as_slice())?);
    println!(rt; "{:?}", map.get(&"tea").map(|count| count.to_native()))?;
    for (name, count) in &map {
        println!(rt; "{} {}", name.as_str(), count.to_native())?;
    }
    Ok(())
}
