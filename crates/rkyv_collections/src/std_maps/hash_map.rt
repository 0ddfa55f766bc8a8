//! Archived maps as representations of std's maps, and the serialization of these.

ghost use Rattle.rkyv_base.specs.{RepresentsAs, written_as};
ghost use Rattle.rkyv_keys.specs.{native_format, native_hash};
ghost use Rattle.rkyv_table.specs.{listed};
ghost use Rattle.rkyv_collections.specs.{SerializesEntries, StdMapRepresents, inner, inner_entries};
ghost use Rattle.rkyv_collections.specs.{map_format, of_entries};
ghost use Rattle.rkyv_collections.specs.Lemmas.StdMapLaws.{entries_local};
ghost use Rattle.rkyv_collections.specs.Lemmas.StdMapSound.{std_map_sound};

use crate::map::write::HashMapResolver;
use crate::map::{ArchivedHashMap, HashMapOf};
use crate::std_maps::hashed::Hashed;
use rkyv_base::{Archive, Represents, ResolveResult, Serialize, Width, WriteResult, Writer};
use rkyv_keys::{KeyElement, NativeKey};
use rkyv_scan::KeyHasher;
use std::alloc::Global;
use std::collections::HashMap;
use std::collections::hash_map::Iter;
use std::hash::{BuildHasher, Hash};

impl<A: Eq + Hash, B, T: BuildHasher, H, W: Width, K: Represents<A>, V: Represents<B>> Represents<
    HashMap<A, B, T>,
> for HashMapOf<K, V, H, W> {
    ghost represents = { StdMapRepresents K.spec V.spec K.represents V.represents W.word A.eq };

    ghost local = { λ m. entries_local K.spec V.spec K.laws V.laws W.word A.eq K.local V.local
        m.entries };
}

impl<A: Eq + Hash, B, T: BuildHasher, H, W: Width, K: Represents<A>, V: Represents<B>> Represents<
    Hashed<HashMap<A, B, T>, H>,
> for HashMapOf<K, V, H, W> {
    ghost represents = { RepresentsAs inner
        (StdMapRepresents K.spec V.spec K.represents V.represents W.word A.eq) };

    ghost local = { λ x. entries_local K.spec V.spec K.laws V.laws W.word A.eq K.local V.local
        (inner_entries x) };
}

impl<W: Width, H: KeyHasher, A: Archive<W> + Hash, B: Archive<W>, T: BuildHasher> Archive<W>
    for Hashed<HashMap<A, B, T>, H>
where
    A::Archived: KeyElement,
    A: NativeKey<A::Archived>,
{
    type Archived = HashMapOf<A::Archived, B::Archived, H, W>;

    type Resolver = HashMapResolver<W>;

    ghost format = { written_as inner_entries (of_entries A.eq (listed W.MAX_CAPACITY
        (7, 8) (map_format W.word A.Archived.spec B.Archived.spec A.format B.format
        (native_hash H.KeyHasher A.KeyHash) (7, 8)))) };

    fn resolve(&self, resolver: HashMapResolver<W>, pos: u64, out: &mut [u8]) -> ResolveResult {
        resolver.resolve(pos, out)
    }

    ghost laws = { std_map_sound inner_entries H.hasher W.word A.Archived.laws
        B.Archived.laws W.MAX_CAPACITY W.layout.kind A.query A.native A.Eq.laws
        A.Archive.laws B.laws };
}

impl<
    S: Writer,
    W: Width,
    H: KeyHasher,
    A: Serialize<S, W> + Hash,
    B: Serialize<S, W>,
    T: BuildHasher,
> Serialize<S, W> for Hashed<HashMap<A, B, T>, H>
where
    A::Archived: KeyElement,
    A: NativeKey<A::Archived>,
{
    fn serialize(&self, alloc: Global, serializer: &mut S) -> WriteResult<HashMapResolver<W>, S> {
        serialize_map::<S, W, H, A, B, T>(alloc, &self.map, serializer)
    }
}

pub(crate) fn serialize_map<
    S: Writer,
    W: Width,
    H: KeyHasher,
    A: Serialize<S, W> + Hash,
    B: Serialize<S, W>,
    T: BuildHasher,
>(alloc: Global, map: &HashMap<A, B, T>, serializer: &mut S) -> WriteResult<HashMapResolver<W>, S>
where
    A::Archived: KeyElement,
    A: NativeKey<A::Archived>,
    ensures { SerializesEntries W.Width
        (native_format A.Archived.spec B.Archived.spec A.format B.format H.hasher A.calls) A.eq
        map.now.entries (S.output serializer.old, S.output serializer.new) result }
{
    ArchivedHashMap::<A::Archived, B::Archived, H, W>::serialize_from_iter::<
        S,
        A,
        B,
        &A,
        &B,
        Iter<'_, A, B>,
    >(alloc, map.iter(), map.len(), (7, 8), serializer)
}
