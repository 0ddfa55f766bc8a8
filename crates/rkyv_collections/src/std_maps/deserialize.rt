//! Deserializing archived maps as std maps.
//!
//! `deserialize_std` takes the hash state of the new map. `Deserialize` takes the default one.

ghost use Rattle.std.specs.Prelude.{◌+◌};
ghost use Rattle.rkyv_base.specs.{IsAt, IsValidView, PairRepresents, RepresentsAs, archive_of};
ghost use Rattle.rkyv_base.specs.{pos_of, value_offset};
ghost use Rattle.rkyv_keys.specs.{Deserializes};
ghost use Rattle.rkyv_collections.specs.{InsertsRead, ReadsStdMap, StdMapRepresents, inner};
ghost use Rattle.rkyv_collections.specs.{insert_pair_fails, map_spec, map_view, std_map_fails};

use crate::map::{ArchivedHashMap, HashMapOf};
use crate::std_maps::hashed::Hashed;
use rkyv_base::{Element, ReadError, View, Width};
use rkyv_keys::Deserialize;
use std::alloc::Global;
use std::collections::HashMap;
use std::hash::{BuildHasher, BuildHasherDefault, Hash};

#[inline]
fn insert_read<K: Deserialize<A>, V: Deserialize<B>, A: Eq + Hash + Drop, B: Drop, T: BuildHasher>(
    map: &mut HashMap<A, B, T>,
    alloc: Global,
    key: View<'_, K>,
    value: View<'_, V>,
) -> Result<(), ReadError>
    requires key { IsValidView K.spec key }
    requires value { IsValidView V.spec value }
    requires pair { IsAt value (archive_of key) (pos_of key + value_offset K.spec V.spec) }
    ensures { InsertsRead A.eq (PairRepresents K.spec V.spec K.represents V.represents)
        (insert_pair_fails K.Deserialize V.Deserialize)
        key.entry (map.old, map.new) result }
{
    let read = K::deserialize(alloc, key)?;
    let mapped = V::deserialize(alloc, value)?;
    map.insert(read, mapped)?;
    Ok(())
}

impl<'a, K: Element, V: Element, H, W: Width> ArchivedHashMap<'a, K, V, H, W> {
    /// Returns the std map of the pairs, with the hash state `state`.
    ///
    /// The pairs are inserted in bucket order. Of pairs with equal keys, the key of the first and
    /// the value of the last are kept. Not proved: memory for all pairs is allocated first.
    ///
    /// # Errors
    ///
    /// - `Memory`: memory for the map could not be allocated. An empty map needs none.
    /// - The first error of deserializing a key or a value, in bucket order.
    pub fn deserialize_std<A: Eq + Hash + Drop, B: Drop, T: BuildHasher + Drop>(
        self,
        alloc: Global,
        state: T,
    ) -> Result<HashMap<A, B, T>, ReadError>
    where
        K: Deserialize<A>,
        V: Deserialize<B>,
        ensures { ReadsStdMap (StdMapRepresents K.spec V.spec K.represents V.represents W.word A.eq)
            (std_map_fails W.word K.Deserialize V.Deserialize)
            (map_view self.entry) state result }
    {
        let mut map = HashMap::with_hasher(alloc, state);
        map.reserve(self.len())?;
        for (key, value) in self.iter() {
            insert_read(&mut map, alloc, key, value)?;
        }
        Ok(map)
    }
}

impl<K: Deserialize<A>, V: Deserialize<B>, H, W: Width, A: Eq + Hash + Drop, B: Drop> Deserialize<
    HashMap<A, B>,
> for HashMapOf<K, V, H, W> {
    ghost deserialize_fails = { std_map_fails W.word K.Deserialize V.Deserialize };

    #[inline]
    fn deserialize(alloc: Global, view: View<'_, Self>) -> Result<HashMap<A, B>, ReadError>
        requires { IsValidView (map_spec W.word K.spec V.spec) view }
        ensures { Deserializes
            (StdMapRepresents K.spec V.spec K.represents V.represents W.word A.eq)
            (std_map_fails W.word K.Deserialize V.Deserialize)
            view.entry result }
    {
        ArchivedHashMap::of(view).deserialize_std(alloc, BuildHasherDefault::new())
    }
}

impl<K: Deserialize<A>, V: Deserialize<B>, H, W: Width, A: Eq + Hash + Drop, B: Drop> Deserialize<
    Hashed<HashMap<A, B>, H>,
> for HashMapOf<K, V, H, W> {
    ghost deserialize_fails = { std_map_fails W.word K.Deserialize V.Deserialize };

    #[inline]
    fn deserialize(
        alloc: Global,
        view: View<'_, Self>,
    ) -> Result<Hashed<HashMap<A, B>, H>, ReadError>
        requires { IsValidView (map_spec W.word K.spec V.spec) view }
        ensures { Deserializes (RepresentsAs inner
            (StdMapRepresents K.spec V.spec K.represents V.represents W.word A.eq))
            (std_map_fails W.word K.Deserialize V.Deserialize)
            view.entry result }
    {
        let map = ArchivedHashMap::of(view).deserialize_std(alloc, BuildHasherDefault::new())?;
        Ok(Hashed::new(map))
    }
}
