//! Laws of the lists, over only their definitions.

ghost use Rattle.std.specs.Cmp.Lexicographic.{pointwise};
ghost use Rattle.std.specs.Prelude.{◌&&◌, ◌≡◌, ◌↔◌};
ghost use Rattle.rkyv_collections.specs.{items_load_factor, listed_items, listed_pairs};
ghost use Rattle.rkyv_collections.specs.{pairs_load_factor, same_load_factor};

use crate::lists::{MapPairs, SetItems};

/// States that a clone of a list of pairs is the same list, and that cloning never fails.
pub fn pair_clones_are_the_same<'a, A, B, H>()
where
    A: 'a,
    B: 'a,
    ensures same { (list clone : _) →
        ⟦<MapPairs<'a, A, B, H> as Clone>⟧.is_clone list clone ↔ (clone ≡ list) }
    ensures infallible { (list : _) → ⟦<MapPairs<'a, A, B, H> as Clone>⟧.is_infallible list }
{}

/// States that a clone of a list of items is the same list, and that cloning never fails.
pub fn item_clones_are_the_same<'a, A, H>()
where
    A: 'a,
    ensures same { (list clone : _) →
        ⟦<SetItems<'a, A, H> as Clone>⟧.is_clone list clone ↔ (clone ≡ list) }
    ensures infallible { (list : _) → ⟦<SetItems<'a, A, H> as Clone>⟧.is_infallible list }
{}

/// States that lists of pairs are equal if their pairs are, in order, and their load factors.
pub fn pair_lists_are_compared<'a, A: PartialEq, B: PartialEq, H>()
where
    A: 'a,
    B: 'a,
    ensures { (x y : _) → ⟦<MapPairs<'a, A, B, H> as PartialEq>⟧.eq x y
        ≡ (pointwise ⟦<(A, B) as PartialEq>⟧.eq (listed_pairs x) (listed_pairs y)
        && same_load_factor (pairs_load_factor x) (pairs_load_factor y)) }
{}

/// States that lists of items are equal if their items are, in order, and their load factors.
pub fn item_lists_are_compared<'a, A: PartialEq, H>()
where
    A: 'a,
    ensures { (x y : _) → ⟦<SetItems<'a, A, H> as PartialEq>⟧.eq x y
        ≡ (pointwise A.eq (listed_items x) (listed_items y)
        && same_load_factor (items_load_factor x) (items_load_factor y)) }
{}
