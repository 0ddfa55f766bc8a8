//! Laws of maps, over only their definitions.
//!
//! - This module has laws of equality, lookups, iterators and clones.
//! - `written` is about the bytes of written maps, and `list_archives` about root maps.
//! - `in_place` is about writes of one value, `each` about writes of all values.
//! - `nested` is about maps that are values of maps.
ghost use Rattle.std.specs.Int.{w32};
ghost use Rattle.std.specs.Prelude.{◌↔◌, ◌≡◌};
ghost use Rattle.rkyv_base.specs.{SameSpec, SameValues};
ghost use Rattle.rkyv_keys.specs.{SameComparison, archived_hash, archived_keys, lookup_of};
ghost use Rattle.rkyv_keys.specs.{native_pairs};
ghost use Rattle.rkyv_table.specs.{CountsPositions, ItemsLeft, SameSteps, YieldsKey, YieldsPair};
ghost use Rattle.rkyv_table.specs.{YieldsValue};
ghost use Rattle.rkyv_collections.specs.{ComparedAlike, EqualHaveSamePairs, FindsMatchedKeys};
ghost use Rattle.rkyv_collections.specs.{LookupsFindListed, QueriedAlike, RepeatedKeysAreMisplaced};
ghost use Rattle.rkyv_collections.specs.{WalksAll, WalksVisitEach, WalksVisitPairs, WrittenAlike};
ghost use Rattle.rkyv_collections.specs.{listed_pairs, map_equal, map_list, map_spec};
ghost use Rattle.rkyv_collections.specs.{pairs_load_factor};

pub mod each;
pub mod in_place;
pub mod list_archives;
pub mod nested;
pub mod written;

use crate::lists::MapPairs;
use crate::map::read::iter::{Iter, Keys, Values};
use crate::map::{ArchivedHashMap, HashMapOf};
use rkyv_base::width::Word;
use rkyv_base::{Element, HasSpec, Represents, Width};
use rkyv_keys::{ElementEq, ElementEquiv, FixedKey, KeyElement, Query};
use rkyv_scan::{FxHasher64, KeyHasher};

/// States that the iterators yield the pairs, keys and values at their positions in turn.
pub fn items_are_yielded<'a, K: 'a + Element, V: 'a + Element, H: 'a, W: 'a>()
    ensures pairs { SameSteps ⟦<Iter<'a, K, V, H, W> as Iterator>⟧.next_gives
        (YieldsPair K.spec V.spec) }
    ensures keys { SameSteps ⟦<Keys<'a, K, V, H, W> as Iterator>⟧.next_gives (YieldsKey K.spec) }
    ensures values { SameSteps ⟦<Values<'a, K, V, H, W> as Iterator>⟧.next_gives
        (YieldsValue K.spec V.spec) }
    ensures pairs_left { CountsPositions ⟦<Iter<'a, K, V, H, W> as Iterator>⟧.remaining }
    ensures keys_left { CountsPositions ⟦<Keys<'a, K, V, H, W> as Iterator>⟧.remaining }
    ensures values_left { CountsPositions ⟦<Values<'a, K, V, H, W> as Iterator>⟧.remaining }
    ensures pairs_ready { (left : ItemsLeft) → ⟦<Iter<'a, K, V, H, W> as Iterator>⟧.can_next left }
    ensures keys_ready { (left : ItemsLeft) → ⟦<Keys<'a, K, V, H, W> as Iterator>⟧.can_next left }
    ensures values_ready { (left : ItemsLeft)
        → ⟦<Values<'a, K, V, H, W> as Iterator>⟧.can_next left }
{}

/// States that a `for` over a map, or over a reference to it, iterates as `iter` does.
pub fn walks_by_for_are_iterations<'a, 'b, K: Element, V: Element, H, W: Width>()
    ensures owned { (map pairs : _) →
        ⟦<ArchivedHashMap<'a, K, V, H, W> as IntoIterator>⟧.into_iter_gives map pairs
        ↔ WalksAll map pairs }
    ensures borrowed { (map pairs : _) →
        ⟦<&'b ArchivedHashMap<'a, K, V, H, W> as IntoIterator>⟧.into_iter_gives map pairs
        ↔ WalksAll map.now pairs }
{}

/// States that a clone of a map is the same map, and that cloning never fails.
pub fn clones_are_the_same<'a, K: HasSpec, V: HasSpec, H, W: Word>()
    ensures same { (map clone : _) →
        ⟦<ArchivedHashMap<'a, K, V, H, W> as Clone>⟧.is_clone map clone ↔ (clone ≡ map) }
    ensures infallible { (map : _) →
        ⟦<ArchivedHashMap<'a, K, V, H, W> as Clone>⟧.is_infallible map }
{}

/// States that two maps that are values are compared by their lengths and by lookups.
pub fn maps_are_compared<K: KeyElement, V: ElementEq, H: KeyHasher, W: Width>()
    ensures { SameComparison ⟦<HashMapOf<K, V, H, W> as ElementEq>⟧.same
        (map_equal W.word K.spec V.spec (archived_hash H.KeyHasher K.KeyElement) K.same V.same) }
{}

/// States that written maps of distinct keys are equal if and only if they have the same pairs.
pub fn equal_maps_have_the_same_pairs<K: KeyElement, V: ElementEquiv, H: KeyHasher, W: Width>()
    ensures { EqualHaveSamePairs W.word K.spec V.spec (archived_hash H.KeyHasher K.KeyElement)
        K.same V.same }
{}

/// States that `misplaced` of a written map counts the keys that are the same as an earlier key.
pub fn repeated_keys_are_misplaced<K: KeyElement, V: Element, H: KeyHasher, W: Width>()
    ensures { RepeatedKeysAreMisplaced W.word K.spec V.spec
        (archived_keys H.KeyHasher K.KeyElement) }
{}

/// States that a query that matches a key of a written map finds it, or an earlier equal key.
pub fn matched_keys_are_found<Q: Query<K>, K: KeyElement, V: Element, H: KeyHasher, W: Width>()
    ensures { FindsMatchedKeys W.word K.spec V.spec
        (lookup_of H.KeyHasher K.KeyElement Q.Query) }
{}

/// States that a lookup finds the first pair of the represented list with an accepted key.
///
/// The comparison must depend only on the represented keys. For a native key it is equality.
pub fn lookups_find_listed<
    A,
    B,
    K: KeyElement + Represents<A>,
    V: Represents<B>,
    H: KeyHasher,
    W: Width,
>()
    ensures { LookupsFindListed H W.Word K.HasSpec V.HasSpec
        (native_pairs K.represents V.represents H.hasher K.key_calls) }
{}

/// States that `iter`, `keys` and `values` return each pair of the represented list once.
///
/// - `homes`: they visit the home bucket of each pair, and no other, in ascending order.
/// - `pairs`: the positions that they visit have the pairs of the list, in some order.
pub fn walks_visit_each<
    A,
    B,
    K: KeyElement + Represents<A>,
    V: Represents<B>,
    H: KeyHasher,
    W: Width,
>()
    ensures homes { WalksVisitPairs W.word K.spec V.spec K.represents V.represents
        (archived_hash H.KeyHasher K.KeyElement) }
    ensures pairs { WalksVisitEach W.word K.spec V.spec K.represents V.represents
        (archived_hash H.KeyHasher K.KeyElement) }
{}

/// States that `FxHasher64` and `FxHasher64Wide` find the same keys, if these are `FixedKey`.
///
/// Such keys hash no `usize` or `isize`. In `rkyv_keys` only byte strings aren't `FixedKey`.
pub fn both_hashers_look_up_alike<Q: Query<K>, K: FixedKey, V: Element, W: Width>()
    ensures written { WrittenAlike W.word K.spec V.spec K.key_calls }
    ensures compared { ComparedAlike W.word K.spec V.spec }
    ensures queried { QueriedAlike W.word K.spec V.spec K.key_calls Q.calls Q.fits }
{}

/// States the layout of a map, and that it represents the pairs of a list in insertion order.
pub fn maps_are_laid_out<'a, W, H, A, B, K, V>()
where
    A: 'a,
    B: 'a,
    W: Width,
    H: KeyHasher,
    K: KeyElement + Represents<A>,
    V: Represents<B>,
    ensures spec { SameSpec ⟦<HashMapOf<K, V, H, W> as HasSpec>⟧.spec
        (map_spec W.word K.spec V.spec) }
    ensures list { SameValues
        ⟦<HashMapOf<K, V, H, W> as Represents<MapPairs<'a, A, B, H>>>⟧.represents
        (map_list W.word K.Represents V.Represents (archived_hash H.KeyHasher K.KeyElement)
        pairs_load_factor listed_pairs) }
    ensures default_width { SameSpec ⟦<HashMapOf<K, V, H> as HasSpec>⟧.spec
        (map_spec w32 K.spec V.spec) }
    ensures default_hasher { SameValues
        ⟦<HashMapOf<K, V> as Represents<MapPairs<'a, A, B>>>⟧.represents
        ⟦<HashMapOf<K, V, FxHasher64> as Represents<MapPairs<'a, A, B, FxHasher64>>>⟧.represents }
{}
