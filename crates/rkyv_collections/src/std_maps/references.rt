//! Archiving std's maps and sets by reference, without giving them away.
//!
//! The archive of a wrapped reference is the archive of the wrapped map or set.

ghost use Rattle.rkyv_base.specs.{RepresentsAs, unit_spec, written_as};
ghost use Rattle.rkyv_base.specs.Lemmas.Empty.{unit_element, unit_is_format, unit_local};
ghost use Rattle.rkyv_table.specs.{with_units};
ghost use Rattle.rkyv_collections.specs.{inner_entries, inner_keys, referent};
ghost use Rattle.rkyv_collections.specs.Lemmas.StdMapLaws.{entries_local};
ghost use Rattle.rkyv_collections.specs.Lemmas.StdMapSound.{std_map_sound};

use crate::map::write::HashMapResolver;
use crate::map::{ArchivedHashMap, HashMapOf};
use crate::set::HashSetOf;
use crate::set::write::HashSetResolver;
use crate::std_maps::hash_map::serialize_map;
use crate::std_maps::hash_set::serialize_set;
use crate::std_maps::hashed::Hashed;
use rkyv_base::{Archive, Represents, ResolveResult, Serialize, Width, WriteResult, Writer};
use rkyv_keys::{KeyElement, NativeKey};
use rkyv_scan::KeyHasher;
use std::alloc::Global;
use std::collections::{HashMap, HashSet};
use std::hash::{BuildHasher, Hash};

impl<
    'a,
    A: Eq + Hash,
    B,
    T: BuildHasher,
    H,
    W: Width,
    K: Represents<A>,
    V: Represents<B>,
> Represents<Hashed<&'a HashMap<A, B, T>, H>> for HashMapOf<K, V, H, W> {
    ghost represents = { RepresentsAs referent
        ⟦<HashMapOf<K, V, H, W> as Represents<Hashed<HashMap<A, B, T>, H>>>⟧.represents };

    ghost local = { λ x. entries_local K.spec V.spec K.laws V.laws W.word A.eq K.local V.local
        (inner_entries (referent x)) };
}

impl<'a, W: Width, H: KeyHasher, A: Archive<W> + Hash, B: Archive<W>, T: BuildHasher> Archive<W>
    for Hashed<&'a HashMap<A, B, T>, H>
where
    A::Archived: KeyElement,
    A: NativeKey<A::Archived>,
{
    type Archived = HashMapOf<A::Archived, B::Archived, H, W>;

    type Resolver = HashMapResolver<W>;

    ghost format = { written_as referent
        ⟦<Hashed<HashMap<A, B, T>, H> as Archive<W>>⟧.format };

    fn resolve(&self, resolver: HashMapResolver<W>, pos: u64, out: &mut [u8]) -> ResolveResult {
        resolver.resolve(pos, out)
    }

    ghost laws = { std_map_sound (λ x. inner_entries (referent x)) H.hasher W.word A.Archived.laws
        B.Archived.laws W.MAX_CAPACITY W.layout.kind A.query A.native A.Eq.laws
        A.Archive.laws B.laws };
}

impl<
    'a,
    S: Writer,
    W: Width,
    H: KeyHasher,
    A: Serialize<S, W> + Hash,
    B: Serialize<S, W>,
    T: BuildHasher,
> Serialize<S, W> for Hashed<&'a HashMap<A, B, T>, H>
where
    A::Archived: KeyElement,
    A: NativeKey<A::Archived>,
{
    fn serialize(&self, alloc: Global, serializer: &mut S) -> WriteResult<HashMapResolver<W>, S> {
        serialize_map::<S, W, H, A, B, T>(alloc, self.map, serializer)
    }
}

impl<'a, A: Eq + Hash, T: BuildHasher, H, W: Width, K: Represents<A>> Represents<
    Hashed<&'a HashSet<A, T>, H>,
> for HashSetOf<K, H, W> {
    ghost represents = { RepresentsAs referent
        ⟦<HashSetOf<K, H, W> as Represents<Hashed<HashSet<A, T>, H>>>⟧.represents };

    ghost local = { λ x. entries_local K.spec unit_spec K.laws unit_element W.word A.eq K.local
        unit_local (with_units (inner_keys (referent x))) };
}

impl<'a, W: Width, H: KeyHasher, A: Archive<W> + Hash, T: BuildHasher> Archive<W>
    for Hashed<&'a HashSet<A, T>, H>
where
    A::Archived: KeyElement,
    A: NativeKey<A::Archived>,
{
    type Archived = HashSetOf<A::Archived, H, W>;

    type Resolver = HashSetResolver<W>;

    ghost format = { written_as referent
        ⟦<Hashed<HashSet<A, T>, H> as Archive<W>>⟧.format };

    fn resolve(&self, resolver: HashSetResolver<W>, pos: u64, out: &mut [u8]) -> ResolveResult {
        resolver.resolve(pos, out)
    }

    ghost laws = { std_map_sound (λ x. with_units (inner_keys (referent x))) H.hasher W.word
        A.Archived.laws unit_element W.MAX_CAPACITY W.layout.kind A.query A.native A.Eq.laws
        A.Archive.laws unit_is_format };
}

impl<'a, S: Writer, W: Width, H: KeyHasher, A: Serialize<S, W> + Hash, T: BuildHasher> Serialize<
    S,
    W,
> for Hashed<&'a HashSet<A, T>, H>
where
    A::Archived: KeyElement,
    A: NativeKey<A::Archived>,
{
    fn serialize(&self, alloc: Global, serializer: &mut S) -> WriteResult<HashSetResolver<W>, S> {
        serialize_set::<S, W, H, A, T>(alloc, self.map, serializer)
    }
}
