//! Laws of index maps, which follow from their definitions.
//!
//! They are about the layout, lookups, pairs at an index, iterations, comparisons, clones,
//! deserialized lists and writes of one value in place.
//! `written` is about the bytes of written index maps, `list_archives` about root index maps, and
//! `nested` about writes in a map or index map that is a value.
ghost use Rattle.std.specs.Cmp.Lexicographic.{pointwise};
ghost use Rattle.std.specs.Int.{w32};
ghost use Rattle.std.specs.Prelude.{◌↔◌, ◌≡◌};
ghost use Rattle.rkyv_base.specs.{SameSpec, SameValues, entry_spec};
ghost use Rattle.rkyv_keys.specs.{SameComparison, archived_hash, lookup_of, native_hash};
ghost use Rattle.rkyv_keys.specs.{native_pairs};
ghost use Rattle.rkyv_table.specs.{CountsPositions, ItemsLeft, SameSteps, YieldsKey, YieldsPair};
ghost use Rattle.rkyv_table.specs.{WritesValue, YieldsValue};
ghost use Rattle.rkyv_index.specs.{ComparedAlike, FindsMatchedKeys, LookupsFindListed};
ghost use Rattle.rkyv_index.specs.{PairsAtAreListed, PairsReadBackAreListed, QueriedAlike};
ghost use Rattle.rkyv_index.specs.{ValueWritesKeepIndexMaps, WalksAll, WalksVisitInOrder};
ghost use Rattle.rkyv_index.specs.{WritesKeepLookups, WritesRepresent, WrittenAlike};
ghost use Rattle.rkyv_index.specs.{index_map_equal, index_maps_equal, index_spec, ordered_pairs};
ghost use Rattle.rkyv_index.specs.{reads_as};

pub mod list_archives;
pub mod nested;
pub mod written;

use crate::lists::OrderedPairs;
use crate::map::read::iter::{Iter, Keys, Values};
use crate::map::{ArchivedIndexMap, IndexMapOf};
use crate::width::IndexWidth;
use rkyv_base::width::Word;
use rkyv_base::{Element, HasSpec, Represents};
use rkyv_keys::{ElementEq, ElementEquiv, FixedKey, KeyElement, Query, RepresentsUniquely};
use rkyv_scan::{FxHasher64, KeyHasher};

/// States that a write of one value in place that keeps it valid keeps the index map.
///
/// A lookup keeps its index if its comparison depends only on the key.
pub fn value_writes_keep_index_maps<K: KeyElement, V: Element, H: KeyHasher, W: IndexWidth>()
    ensures { ValueWritesKeepIndexMaps W.word K.spec V.spec
        (archived_hash H.KeyHasher K.KeyElement) }
{}

/// States that each query finds the same index after a write of one value that keeps it valid.
pub fn value_writes_keep_lookups<
    K: KeyElement,
    V: Element,
    Q: Query<K>,
    H: KeyHasher,
    W: IndexWidth,
>()
    ensures { (q : _) → WritesKeepLookups W.word K.spec V.spec
        (WritesValue K.spec V.spec) (native_hash H.KeyHasher Q.KeyHash q) (Q.fits q) }
{}

/// States that a write of one value in place replaces it in the represented list of pairs.
pub fn values_written_represent<
    A,
    B,
    K: KeyElement,
    V: Represents<B>,
    H: KeyHasher,
    W: IndexWidth,
>()
where
    K: Represents<A>,
    ensures { WritesRepresent W.word K.spec V.spec (WritesValue K.spec V.spec)
        (native_pairs K.represents V.represents H.hasher K.key_calls) }
{}

/// States that a list deserialized from an index map is `==` to the list that it represents.
pub fn pairs_read_back_are_listed<
    A: PartialEq,
    B: PartialEq,
    K: KeyElement + RepresentsUniquely<A>,
    V: RepresentsUniquely<B>,
    H: KeyHasher,
    W: IndexWidth,
>()
    ensures { PairsReadBackAreListed W.word (reads_as K.spec K.represents A.eq)
        (reads_as V.spec V.represents B.eq) (archived_hash H.KeyHasher K.KeyElement) }
{}

/// States that both hashers look up alike in an index map whose keys hash no `usize` or `isize`.
///
/// The hashers differ only in the calls for these types. All keys of `rkyv_keys` except byte
/// strings implement `FixedKey`, and so make none of these calls.
pub fn both_hashers_look_up_alike<Q: Query<K>, K: FixedKey, V: Element, W: IndexWidth>()
    ensures written { WrittenAlike W.word K.spec V.spec K.key_calls }
    ensures compared { ComparedAlike W.word }
    ensures queried { QueriedAlike W.word K.spec V.spec K.key_calls Q.calls Q.fits }
{}

/// States the layout of an index map, and that it represents the pairs of a list in order.
pub fn index_maps_are_laid_out<W, H, A, B, K: KeyElement + Represents<A>, V: Represents<B>>()
where
    W: IndexWidth,
    ensures spec { SameSpec ⟦<IndexMapOf<K, V, H, W> as HasSpec>⟧.spec
        (index_spec W.word (entry_spec K.spec V.spec)) }
    ensures list { SameValues
        ⟦<IndexMapOf<K, V, FxHasher64, W> as Represents<OrderedPairs<A, B>>>⟧.represents
        (ordered_pairs W.word K.Represents V.Represents K.key_calls (λ x. x.0.items)) }
    ensures default { SameValues
        ⟦<IndexMapOf<K, V> as Represents<OrderedPairs<A, B>>>⟧.represents
        (ordered_pairs w32 K.Represents V.Represents K.key_calls (λ x. x.0.items)) }
{}

/// States that index maps that are values are compared by their pairs in order.
pub fn index_maps_are_compared<K: ElementEq, V: ElementEq, H, W: IndexWidth>()
    ensures { SameComparison ⟦<IndexMapOf<K, V, H, W> as ElementEq>⟧.same
        (index_map_equal W.word K.spec V.spec K.same V.same) }
{}

/// States that index maps that are read are `==` if and only if they have the same pairs in order.
pub fn read_index_maps_are_compared<'a, K: ElementEquiv, V: ElementEquiv, H, W: IndexWidth>()
    ensures { (m n : _) → ⟦<ArchivedIndexMap<'a, K, V, H, W> as PartialEq>⟧.eq m n
        ≡ index_maps_equal K.same V.same m n }
{}

/// States that lists of pairs are equal if their pairs are, in order.
pub fn pair_lists_are_compared<A: PartialEq, B: PartialEq>()
    ensures { (x y : _) → ⟦<OrderedPairs<A, B> as PartialEq>⟧.eq x y
        ≡ pointwise ⟦<(A, B) as PartialEq>⟧.eq x.0.items y.0.items }
{}

/// States that a clone of an index map is the same index map, and that cloning never fails.
pub fn clones_are_the_same<'a, K: HasSpec, V: HasSpec, H, W: Word>()
    ensures same { (map clone : _)
        → ⟦<ArchivedIndexMap<'a, K, V, H, W> as Clone>⟧.is_clone map clone ↔ (clone ≡ map) }
    ensures infallible { (map : _)
        → ⟦<ArchivedIndexMap<'a, K, V, H, W> as Clone>⟧.is_infallible map }
{}

/// States that a lookup finds the index of the first pair of the list with an accepted key.
///
/// The index map must represent the list, and the comparison must depend only on the values that
/// the keys represent. The law applies to index sets too, as index maps to the unit value.
pub fn lookups_find_listed<
    A,
    B,
    K: KeyElement + Represents<A>,
    V: Represents<B>,
    H: KeyHasher,
    W: IndexWidth,
>()
    ensures { LookupsFindListed H W.Word K.HasSpec V.HasSpec
        (native_pairs K.represents V.represents H.hasher K.key_calls) }
{}

/// States that a query that matches a key of a written index map finds it, or the same key earlier.
pub fn matched_keys_are_found<Q: Query<K>, K: KeyElement, V: Element, H: KeyHasher, W: IndexWidth>()
    ensures { FindsMatchedKeys H W.Word K.HasSpec V.HasSpec
        (lookup_of H.KeyHasher K.KeyElement Q.Query) }
{}

/// States that `get_index` returns the pair of the represented list at its index.
pub fn pairs_at_are_listed<
    A,
    B,
    K: KeyElement + Represents<A>,
    V: Represents<B>,
    H: KeyHasher,
    W: IndexWidth,
>()
    ensures { PairsAtAreListed H W.Word K.HasSpec V.HasSpec
        (native_pairs K.represents V.represents H.hasher K.key_calls) }
{}

/// States that `iter`, `keys` and `values` return the pairs of the represented list, in order.
pub fn walks_visit_in_order<
    A,
    B,
    K: KeyElement + Represents<A>,
    V: Represents<B>,
    H: KeyHasher,
    W: IndexWidth,
>()
    ensures { WalksVisitInOrder W.word K.spec V.spec
        (native_pairs K.represents V.represents H.hasher K.key_calls) }
{}

/// States that the iterators yield the pairs, keys and values at their positions in turn.
pub fn items_are_yielded<'a, K: Element, V: Element>()
    ensures pairs { SameSteps ⟦<Iter<'a, K, V> as Iterator>⟧.next_gives (YieldsPair K.spec V.spec) }
    ensures keys { SameSteps ⟦<Keys<'a, K, V> as Iterator>⟧.next_gives (YieldsKey K.spec) }
    ensures values { SameSteps ⟦<Values<'a, K, V> as Iterator>⟧.next_gives
        (YieldsValue K.spec V.spec) }
    ensures pairs_left { CountsPositions ⟦<Iter<'a, K, V> as Iterator>⟧.remaining }
    ensures keys_left { CountsPositions ⟦<Keys<'a, K, V> as Iterator>⟧.remaining }
    ensures values_left { CountsPositions ⟦<Values<'a, K, V> as Iterator>⟧.remaining }
    ensures pairs_ready { (left : ItemsLeft) → ⟦<Iter<'a, K, V> as Iterator>⟧.can_next left }
    ensures keys_ready { (left : ItemsLeft) → ⟦<Keys<'a, K, V> as Iterator>⟧.can_next left }
    ensures values_ready { (left : ItemsLeft) → ⟦<Values<'a, K, V> as Iterator>⟧.can_next left }
{}

/// States that a `for` over an index map, or over a reference to it, visits the pairs of `iter`.
pub fn walks_by_for_are_iterations<'a, 'b, K: Element, V: Element, H, W: IndexWidth>()
where
    'a: 'b,
    ensures owned { (map : _) (pairs : _)
        → ⟦<ArchivedIndexMap<'a, K, V, H, W> as IntoIterator>⟧.into_iter_gives map pairs
        ↔ WalksAll map pairs }
    ensures borrowed { (map : _) (pairs : _)
        → ⟦<&'b ArchivedIndexMap<'a, K, V, H, W> as IntoIterator>⟧.into_iter_gives map pairs
        ↔ WalksAll map.now pairs }
{}
