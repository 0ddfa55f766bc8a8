//! Laws of archives that represent lists, of the results that calls store, and of clones.
//!
//! Each law is a function whose contract is the statement.

ghost use Rattle.std.specs.Prelude.{◌↔◌, ◌≡◌};
ghost use Rattle.rkyv_keys.specs.{fx_format};
ghost use Rattle.ffi_calls.specs.{ArchivesRepresent, IndexesRepresent, SetArchivesRepresent};
ghost use Rattle.ffi_calls.specs.{SetLookupsFindListed, WalksVisitListed, archive_width, fx_pairs};
ghost use Rattle.ffi_calls.specs.{index_width};

use crate::any_value::{AnyItem, AnyPair, AnyValue, IndexedValue};
use crate::collection::{Collection, KeyType, ValueType};
use crate::containers::Codes;
use crate::explanation::Explanation;
use rkyv_base::{Archive, Represents, Width};
use rkyv_collections::map::laws::walks_visit_each;
use rkyv_collections::{FxHasher64, KeyElement, NativeKey};
use rkyv_index::IndexWidth;

/// States that a walk over an archive of a list visits each pair's home bucket once, and no other.
///
/// The buckets ascend, and the n-th home bucket has the n-th pair of the list.
/// Repeated calls for the next pair, from bucket 0 on, thus return each pair of the list once.
pub fn walks_visit_listed<A, B, K: KeyElement + Represents<A>, V: Represents<B>, W: Width>()
    ensures { WalksVisitListed W.word K.spec V.spec
        (fx_pairs K.represents V.represents K.key_calls) }
{
    walks_visit_each::<A, B, K, V, FxHasher64, W>();
}

/// States that an archive that is written from a list of pairs is valid, and represents the list.
pub fn archives_represent_their_lists<A, B, W>()
where
    W: Width,
    A: NativeKey<A::Archived> + Archive<W>,
    A::Archived: KeyElement,
    B: Archive<W>,
    ensures { ArchivesRepresent (archive_width W.Width)
        (fx_format A.Archived.spec B.Archived.spec A.format B.format A.calls)
        (fx_pairs A.Archived.represents B.Archived.represents A.Archived.key_calls) }
{}

/// States that a map of keys to units that is written from a list is a valid set of the keys.
pub fn set_archives_represent_their_lists<A: NativeKey<A::Archived> + Archive<W>, W: Width>()
where
    A::Archived: KeyElement,
    ensures { SetArchivesRepresent (archive_width W.Width)
        A.Archived.spec A.format A.calls A.Archived.represents A.Archived.key_calls }
{}

/// States that a lookup in a set finds a key if and only if a key of the set's list is accepted.
///
/// The contract of `lookup::get` has the condition: the result in terms of lists of pairs.
pub fn set_lookups_find_listed<A, K: KeyElement + Represents<A>, W: Width>()
    ensures { SetLookupsFindListed W.word K.spec K.represents K.key_calls }
{}

/// States that an index map that is written from a list of pairs is valid, and represents the list.
pub fn indexes_represent_their_lists<A, B, K, V, W: IndexWidth>()
where
    A: NativeKey<K> + Archive<W, Archived = K>,
    B: Archive<W, Archived = V>,
    K: KeyElement + Represents<A>,
    V: Represents<B>,
    ensures { IndexesRepresent (index_width W.Width W.Index.spec W.Index.encoding)
        (fx_format K.spec V.spec A.format B.format A.calls)
        (fx_pairs K.represents V.represents K.key_calls) }
{}

/// States that a clone of codes, collections, explanations, values and items is the value itself.
///
/// Cloning them can't fail.
pub fn clones_are_the_same<'a>()
    ensures codes { (a clone : Codes) → ⟦<Codes as Clone>⟧.is_clone a clone ↔ (clone ≡ a) }
    ensures key { (a clone : KeyType) → ⟦<KeyType as Clone>⟧.is_clone a clone ↔ (clone ≡ a) }
    ensures value { (a clone : ValueType) → ⟦<ValueType as Clone>⟧.is_clone a clone ↔ (clone ≡ a) }
    ensures collection { (a clone : Collection) → ⟦<Collection as Clone>⟧.is_clone a clone
        ↔ (clone ≡ a) }
    ensures explanation { (a clone : Explanation) → ⟦<Explanation as Clone>⟧.is_clone a clone
        ↔ (clone ≡ a) }
    ensures any_value { (a clone : _) → ⟦<AnyValue<'a> as Clone>⟧.is_clone a clone
        ↔ (clone ≡ a) }
    ensures any_pair { (a clone : _) → ⟦<AnyPair<'a> as Clone>⟧.is_clone a clone ↔ (clone ≡ a) }
    ensures any_item { (a clone : _) → ⟦<AnyItem<'a> as Clone>⟧.is_clone a clone ↔ (clone ≡ a) }
    ensures indexed { (a clone : _) → ⟦<IndexedValue<'a> as Clone>⟧.is_clone a clone
        ↔ (clone ≡ a) }
    ensures infallible_codes { (a : Codes) → ⟦<Codes as Clone>⟧.is_infallible a }
    ensures infallible_key { (a : KeyType) → ⟦<KeyType as Clone>⟧.is_infallible a }
    ensures infallible_value { (a : ValueType) → ⟦<ValueType as Clone>⟧.is_infallible a }
    ensures infallible_collection { (a : Collection) → ⟦<Collection as Clone>⟧.is_infallible a }
    ensures infallible_explanation { (a : Explanation) → ⟦<Explanation as Clone>⟧.is_infallible a }
    ensures infallible_any_value { (a : _) → ⟦<AnyValue<'a> as Clone>⟧.is_infallible a }
    ensures infallible_any_item { (a : _) → ⟦<AnyItem<'a> as Clone>⟧.is_infallible a }
    ensures infallible_any_pair { (a : _) → ⟦<AnyPair<'a> as Clone>⟧.is_infallible a }
    ensures infallible_indexed { (a : _) → ⟦<IndexedValue<'a> as Clone>⟧.is_infallible a }
{}
