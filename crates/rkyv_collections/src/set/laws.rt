//! Laws of sets, over only their definitions.
//!
//! They are about equality, iterators, lookups and clones. `written` is about the bytes of
//! written sets.

ghost use Rattle.std.specs.Int.{w32};
ghost use Rattle.std.specs.Prelude.{◌↔◌, ◌≡◌};
ghost use Rattle.rkyv_collections.specs.{ComparedAlike, MembersFoundAreListed, QueriedAlike};
ghost use Rattle.rkyv_collections.specs.{SetLookupsFindListed, SetWalksVisitEach, WalksAllKeys};
ghost use Rattle.rkyv_collections.specs.{WrittenAlike, items_load_factor, listed_items, set_equal};
ghost use Rattle.rkyv_collections.specs.{set_list, set_spec};
ghost use Rattle.rkyv_base.specs.{SameSpec, SameValues, unit_spec};
ghost use Rattle.rkyv_keys.specs.{SameComparison, archived_hash, native_keys};

pub mod written;

use crate::lists::SetItems;
use crate::map::laws::both_hashers_look_up_alike as maps_look_up_alike;
use crate::set::{ArchivedHashSet, HashSetOf};
use rkyv_base::width::Word;
use rkyv_base::{Element, HasSpec, Represents, Width};
use rkyv_keys::{ElementEq, FixedKey, KeyElement, NativeQuery, Query};
use rkyv_scan::{FxHasher64, KeyHasher};

/// States that a `for` over a set, or over a reference to it, iterates as `iter` does.
pub fn walks_by_for_are_iterations<'a, 'b, K: Element, H, W: Width>()
    ensures owned { (set keys : _) →
        ⟦<ArchivedHashSet<'a, K, H, W> as IntoIterator>⟧.into_iter_gives set keys
        ↔ WalksAllKeys set keys }
    ensures borrowed { (set keys : _) →
        ⟦<&'b ArchivedHashSet<'a, K, H, W> as IntoIterator>⟧.into_iter_gives set keys
        ↔ WalksAllKeys set.now keys }
{}

/// States that a clone of a set is the same set, and that cloning never fails.
pub fn clones_are_the_same<'a, K: HasSpec, H, W: Word>()
    ensures same { (set clone : _) →
        ⟦<ArchivedHashSet<'a, K, H, W> as Clone>⟧.is_clone set clone ↔ (clone ≡ set) }
    ensures infallible { (set : _) →
        ⟦<ArchivedHashSet<'a, K, H, W> as Clone>⟧.is_infallible set }
{}

/// States that two sets that are values are compared by their lengths and by lookups.
pub fn sets_are_compared<K: KeyElement, H: KeyHasher, W: Width>()
    ensures { SameComparison ⟦<HashSetOf<K, H, W> as ElementEq>⟧.same
        (set_equal W.word K.spec (archived_hash H.KeyHasher K.KeyElement) K.same) }
{}

/// States that `iter` returns each key of the list that a set represents once.
pub fn walks_visit_each<A, K: KeyElement + Represents<A>, H: KeyHasher, W: Width>()
    ensures { SetWalksVisitEach W.word K.spec K.represents
        (archived_hash H.KeyHasher K.KeyElement) }
{}

/// States that `contains` is `true` if and only if the represented list has an equal key.
pub fn lookups_find_listed<
    A,
    Q: NativeQuery<A, K>,
    K: KeyElement + Represents<A>,
    H: KeyHasher,
    W: Width,
>()
    ensures { SetLookupsFindListed H W.Word K.HasSpec
        (native_keys K.represents (archived_hash H.KeyHasher K.KeyElement) Q.fits Q.equals) }
{}

/// States that `contains` in a root set is `true` if and only if the list has an equal key.
pub fn members_found_are_listed<
    A,
    Q: NativeQuery<A, K>,
    K: KeyElement + Represents<A>,
    H: KeyHasher,
    W: Width,
>()
    ensures { MembersFoundAreListed H W.Word K.HasSpec
        (native_keys K.represents (archived_hash H.KeyHasher K.KeyElement) Q.fits Q.equals) }
{}

/// States that `FxHasher64` and `FxHasher64Wide` find the same keys, if these are `FixedKey`.
pub fn both_hashers_look_up_alike<Q: Query<K>, K: FixedKey, W: Width>()
    ensures written { WrittenAlike W.word K.spec unit_spec K.key_calls }
    ensures compared { ComparedAlike W.word K.spec unit_spec }
    ensures queried { QueriedAlike W.word K.spec unit_spec K.key_calls Q.calls Q.fits }
{
    maps_look_up_alike::<Q, K, (), W>();
}

/// States the layout of a set, and that it represents the keys of a list in insertion order.
pub fn sets_are_laid_out<'a, W, H, A, K>()
where
    A: 'a,
    W: Width,
    H: KeyHasher,
    K: KeyElement + Represents<A>,
    ensures spec { SameSpec ⟦<HashSetOf<K, H, W> as HasSpec>⟧.spec (set_spec W.word K.spec) }
    ensures list { SameValues ⟦<HashSetOf<K, H, W> as Represents<SetItems<'a, A, H>>>⟧.represents
        (set_list W.word K.Represents (archived_hash H.KeyHasher K.KeyElement) items_load_factor
        listed_items) }
    ensures default_width { SameSpec ⟦<HashSetOf<K, H> as HasSpec>⟧.spec (set_spec w32 K.spec) }
    ensures default_hasher { SameValues
        ⟦<HashSetOf<K> as Represents<SetItems<'a, A>>>⟧.represents
        ⟦<HashSetOf<K, FxHasher64> as Represents<SetItems<'a, A, FxHasher64>>>⟧.represents }
{}
