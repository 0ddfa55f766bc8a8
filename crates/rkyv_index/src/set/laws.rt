//! Laws of index sets, which follow from their definitions.
//!
//! They are about the layout, the formats of lists, lookups, keys at an index, iterations,
//! comparisons, clones and deserialized lists.
//! `written` is about the bytes of written index sets.
ghost use Rattle.std.specs.Cmp.Lexicographic.{pointwise};
ghost use Rattle.std.specs.Int.{w32};
ghost use Rattle.std.specs.Prelude.{◌↔◌, ◌≡◌};
ghost use Rattle.rkyv_keys.specs.{SameComparison, archived_hash, fx_key_format};
ghost use Rattle.rkyv_keys.specs.{native_key_format, native_keys};
ghost use Rattle.rkyv_index.specs.{ComparedAlike, ItemsAtAreListed, ItemsReadBackAreListed};
ghost use Rattle.rkyv_index.specs.{MembersFoundAreListed, QueriedAlike, SameFormats};
ghost use Rattle.rkyv_index.specs.{SetWalksVisitInOrder, WalksAll, WrittenAlike};
ghost use Rattle.rkyv_index.specs.{index_keys_format, index_set_equal, index_set_spec};
ghost use Rattle.rkyv_index.specs.{index_sets_equal, indices, keys_of, ordered_items};
ghost use Rattle.rkyv_index.specs.{ordered_items_format};
ghost use Rattle.rkyv_base.specs.{SameFormat, SameSpec, SameValues, unit_spec};

pub mod written;

use crate::lists::OrderedItems;
use crate::map::laws::both_hashers_look_up_alike as maps_look_up_alike;
use crate::map::write::serialize::ListFormat;
use crate::set::{ArchivedIndexSet, IndexSetOf};
use crate::width::IndexWidth;
use rkyv_base::width::Word;
use rkyv_base::{Archive, Element, HasSpec, Represents};
use rkyv_keys::{
    ElementEq, ElementEquiv, FixedKey, KeyElement, NativeKey, NativeQuery, Query,
    RepresentsUniquely,
};
use rkyv_scan::{FxHasher64, KeyHasher};

/// States that a list deserialized from an index set is `==` to the list that it represents.
pub fn items_read_back_are_listed<
    A: PartialEq,
    K: KeyElement + RepresentsUniquely<A>,
    H: KeyHasher,
    W: IndexWidth,
>()
    ensures { ItemsReadBackAreListed W.word K.spec K.represents
        (archived_hash H.KeyHasher K.KeyElement) A.eq }
{}

/// States that lookups in a root index set find the first key of the list that equals a native key.
pub fn members_found_are_listed<
    A,
    Q: NativeQuery<A, K>,
    K: KeyElement + Represents<A>,
    H: KeyHasher,
    W: IndexWidth,
>()
    ensures { MembersFoundAreListed H W.Word K.HasSpec
        (native_keys K.represents (archived_hash H.KeyHasher K.KeyElement) Q.fits Q.equals) }
{}

/// States that `get_index` returns the key of the represented list at its index.
pub fn items_at_are_listed<A, K: KeyElement + Represents<A>, H: KeyHasher, W: IndexWidth>()
    ensures { ItemsAtAreListed H W.Word K.HasSpec K.represents
        (archived_hash H.KeyHasher K.KeyElement) }
{}

/// States that `iter` returns the keys of the list that an index set represents, in order.
pub fn walks_visit_in_order<A, K: KeyElement + Represents<A>, H: KeyHasher, W: IndexWidth>()
    ensures { SetWalksVisitInOrder W.word K.spec K.represents
        (archived_hash H.KeyHasher K.KeyElement) }
{}

/// States the law of index maps, for the index map of the keys to the unit value.
pub fn both_hashers_look_up_alike<Q: Query<K>, K: FixedKey, W: IndexWidth>()
    ensures written { WrittenAlike W.word K.spec unit_spec K.key_calls }
    ensures compared { ComparedAlike W.word }
    ensures queried { QueriedAlike W.word K.spec unit_spec K.key_calls Q.calls Q.fits }
{
    maps_look_up_alike::<Q, K, (), W>();
}

/// States the layout of an index set, and that it represents the keys of a list in order.
pub fn index_sets_are_laid_out<W: IndexWidth, H, A, K: KeyElement + Represents<A>>()
    ensures spec { SameSpec ⟦<IndexSetOf<K, H, W> as HasSpec>⟧.spec
        (index_set_spec W.word K.spec) }
    ensures list { SameValues
        ⟦<IndexSetOf<K, FxHasher64, W> as Represents<OrderedItems<A>>>⟧.represents
        (ordered_items W.word K.Represents K.key_calls (λ x. x.0.items)) }
    ensures default { SameValues
        ⟦<IndexSetOf<K> as Represents<OrderedItems<A>>>⟧.represents
        (ordered_items w32 K.Represents K.key_calls (λ x. x.0.items)) }
{}

/// States that index sets that are values are compared by their keys in order.
pub fn index_sets_are_compared<K: ElementEq, H, W: IndexWidth>()
    ensures { SameComparison ⟦<IndexSetOf<K, H, W> as ElementEq>⟧.same
        (index_set_equal W.word K.spec K.same) }
{}

/// States that index sets that are read are `==` if and only if they have the same keys in order.
pub fn read_index_sets_are_compared<'a, K: ElementEquiv, H, W: IndexWidth>()
    ensures { (s t : _) → ⟦<ArchivedIndexSet<'a, K, H, W> as PartialEq>⟧.eq s t
        ≡ index_sets_equal K.same s t }
{}

/// States that lists of keys are equal if their keys are, in order.
pub fn item_lists_are_compared<A: PartialEq>()
    ensures { (x y : _) → ⟦<OrderedItems<A> as PartialEq>⟧.eq x y
        ≡ pointwise A.eq x.0.items y.0.items }
{}

/// States that a clone of an index set is the same index set, and that cloning never fails.
pub fn clones_are_the_same<'a, K: HasSpec, H, W: Word>()
    ensures same { (set clone : _)
        → ⟦<ArchivedIndexSet<'a, K, H, W> as Clone>⟧.is_clone set clone ↔ (clone ≡ set) }
    ensures infallible { (set : _)
        → ⟦<ArchivedIndexSet<'a, K, H, W> as Clone>⟧.is_infallible set }
{}

/// States that a `for` over an index set, or over a reference to it, visits the keys of `iter`.
pub fn walks_by_for_are_iterations<'a, 'b, K: Element, H, W: IndexWidth>()
where
    'a: 'b,
    ensures owned { (set : _) (keys : _)
        → ⟦<ArchivedIndexSet<'a, K, H, W> as IntoIterator>⟧.into_iter_gives set keys
        ↔ WalksAll (keys_of set) keys }
    ensures borrowed { (set : _) (keys : _)
        → ⟦<&'b ArchivedIndexSet<'a, K, H, W> as IntoIterator>⟧.into_iter_gives set keys
        ↔ WalksAll (keys_of set.now) keys }
{}

/// States that `serialize_from_iter` writes a list of keys as the index set of these keys.
pub fn listed_items_are_written<W: IndexWidth, H: KeyHasher, K, A>()
where
    K: KeyElement + Represents<A>,
    A: NativeKey<K> + Archive<W, Archived = K>,
    ensures { SameFormats ⟦<IndexSetOf<K, H, W> as ListFormat<A>>⟧.format
        (index_keys_format W.word (indices W.Index.spec W.Index.encoding)
        (native_key_format K.spec A.format H.hasher A.calls)) }
{}

/// States that a list of keys is written as the index set of these keys.
pub fn ordered_items_are_written<
    W: IndexWidth,
    K: KeyElement + Represents<A>,
    A: NativeKey<K> + Archive<W, Archived = K>,
>()
    ensures { SameFormat ⟦<OrderedItems<A> as Archive<W>>⟧.format
        (ordered_items_format W.Width (indices W.Index.spec W.Index.encoding)
        (fx_key_format K.spec A.format A.calls) (λ x. x.0.items)) }
{}
