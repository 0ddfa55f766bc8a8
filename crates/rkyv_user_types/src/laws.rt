//! Laws of `PairEntry` and `TupleEntry`.
//!
//! They state by which parts a value is archived, represented, compared and hashed, with which
//! errors it fails to deserialize, and how it is cloned.

ghost use Rattle.std.specs.Prelude.{◌&&◌, ◌++◌, ◌↔◌, ◌≡◌};
ghost use Rattle.rkyv_base.specs.{SameFormat, SameValues, pair_format, written_as};
ghost use Rattle.rkyv_keys.specs.{SameErrors, entry_deserialize_fails};
ghost use Rattle.rkyv_user_types.specs.{RepresentsAsPair, equals_as};

use crate::pair::{AsPair, FromPair, PairEntry};
use crate::tuple::{AsTuple, FromTuple, TupleEntry};
use rkyv_base::{Archive, Entry, Represents, Width};
use rkyv_keys::{Deserialize, KeyHash, MatchesNative};
use std::hash::Hash;

/// States that a `PairEntry` is archived and represented as the pair of its parts.
pub fn pairs_are_archived_as_their_parts<
    W: Width,
    A: Archive<W>,
    B: Archive<W>,
    T: AsPair<First = A, Second = B>,
>()
    ensures values { SameValues
        ⟦<Entry<A::Archived, B::Archived> as Represents<PairEntry<T>>>⟧.represents
        (RepresentsAsPair A.Archived.spec B.Archived.spec A.Archived.represents
        B.Archived.represents (λ x. T.pair x.0)) }
    ensures bytes { SameFormat ⟦<PairEntry<T> as Archive<W>>⟧.format
        (written_as (λ x. T.pair x.0)
        (pair_format A.Archived.spec B.Archived.spec A.format B.format)) }
{}

/// States that a `PairEntry` is compared by its parts, with another one and with an archived pair.
pub fn pairs_are_compared_as_their_parts<
    A: PartialEq,
    B: PartialEq,
    T: AsPair<First = A, Second = B>,
    K: MatchesNative<A>,
    V: MatchesNative<B>,
>()
    ensures native { (x y : _) → ⟦<PairEntry<T> as PartialEq>⟧.eq x y
        ≡ (A.eq (T.pair x.0).0 (T.pair y.0).0 && B.eq (T.pair x.0).1 (T.pair y.0).1) }
    ensures archived { SameValues ⟦<Entry<K, V> as MatchesNative<PairEntry<T>>>⟧.equals
        (equals_as K.spec V.spec K.equals V.equals (λ x. T.pair x.0)) }
{}

/// States that a `PairEntry` is hashed by the calls of its first part, and then of its second.
pub fn pairs_hash_as_their_parts<A: KeyHash, B: KeyHash, T: AsPair<First = A, Second = B>>()
    ensures { (x : _) → ⟦<PairEntry<T> as KeyHash>⟧.calls x
        ≡ A.calls (T.pair x.0).0 ++ B.calls (T.pair x.0).1 }
{}

/// States that std hashes the first part of a `PairEntry`, and then the second.
pub fn pairs_hash_for_std<A: Hash, B: Hash, T: AsPair<First = A, Second = B>>()
    ensures { (x : _) → ⟦<PairEntry<T> as Hash>⟧.hash_input x
        ≡ A.hash_input (T.pair x.0).0 ++ B.hash_input (T.pair x.0).1 }
{}

/// States that a `PairEntry` fails to deserialize only with the errors of its parts.
pub fn pairs_fail_as_their_parts<
    A: Drop,
    B,
    T: FromPair<First = A, Second = B>,
    K: Deserialize<A>,
    V: Deserialize<B>,
>()
    ensures { SameErrors ⟦<Entry<K, V> as Deserialize<PairEntry<T>>>⟧.deserialize_fails
        (entry_deserialize_fails K.Deserialize V.Deserialize) }
{}

/// States that a `TupleEntry` is archived and represented as the pair of its parts.
pub fn tuples_are_archived_as_their_parts<
    W: Width,
    A: Archive<W> + Drop,
    B: Archive<W> + Drop,
    T: AsTuple<First = A, Second = B>,
>()
    ensures values { SameValues
        ⟦<Entry<A::Archived, B::Archived> as Represents<TupleEntry<T>>>⟧.represents
        (RepresentsAsPair A.Archived.spec B.Archived.spec A.Archived.represents
        B.Archived.represents (λ x. T.tuple x.0)) }
    ensures bytes { SameFormat ⟦<TupleEntry<T> as Archive<W>>⟧.format
        (written_as (λ x. T.tuple x.0)
        (pair_format A.Archived.spec B.Archived.spec A.format B.format)) }
{}

/// States that a `TupleEntry` is compared by its parts, with another one and with an archived pair.
pub fn tuples_are_compared_as_their_parts<
    A: PartialEq + Drop,
    B: PartialEq + Drop,
    T: AsTuple<First = A, Second = B>,
    K: MatchesNative<A>,
    V: MatchesNative<B>,
>()
    ensures native { (x y : _) → ⟦<TupleEntry<T> as PartialEq>⟧.eq x y
        ≡ (A.eq (T.tuple x.0).0 (T.tuple y.0).0 && B.eq (T.tuple x.0).1 (T.tuple y.0).1) }
    ensures archived { SameValues ⟦<Entry<K, V> as MatchesNative<TupleEntry<T>>>⟧.equals
        (equals_as K.spec V.spec K.equals V.equals (λ x. T.tuple x.0)) }
{}

/// States that a `TupleEntry` is hashed by the calls of its first part, and then of its second.
pub fn tuples_hash_as_their_parts<
    A: KeyHash + Drop,
    B: KeyHash + Drop,
    T: AsTuple<First = A, Second = B>,
>()
    ensures { (x : _) → ⟦<TupleEntry<T> as KeyHash>⟧.calls x
        ≡ A.calls (T.tuple x.0).0 ++ B.calls (T.tuple x.0).1 }
{}

/// States that std hashes the first part of a `TupleEntry`, and then the second.
pub fn tuples_hash_for_std<A: Hash + Drop, B: Hash + Drop, T: AsTuple<First = A, Second = B>>()
    ensures { (x : _) → ⟦<TupleEntry<T> as Hash>⟧.hash_input x
        ≡ A.hash_input (T.tuple x.0).0 ++ B.hash_input (T.tuple x.0).1 }
{}

/// States that a `TupleEntry` fails to deserialize only with the errors of its parts.
pub fn tuples_fail_as_their_parts<
    A: Drop,
    B,
    T: FromTuple<First = A, Second = B>,
    K: Deserialize<A>,
    V: Deserialize<B>,
>()
    ensures { SameErrors ⟦<Entry<K, V> as Deserialize<TupleEntry<T>>>⟧.deserialize_fails
        (entry_deserialize_fails K.Deserialize V.Deserialize) }
{}

/// States that a `PairEntry` is cloned as its value, and fails to clone only if that does.
pub fn pairs_are_cloned<T: Clone>()
    ensures clone { (x clone : _) → ⟦<PairEntry<T> as Clone>⟧.is_clone x clone
        ↔ T.is_clone x.0 clone.0 }
    ensures infallible { (x : _) → ⟦<PairEntry<T> as Clone>⟧.is_infallible x ↔ T.is_infallible x.0 }
{}

/// States that a `TupleEntry` is cloned as its value, and fails to clone only if that does.
pub fn tuples_are_cloned<T: Clone>()
    ensures clone { (x clone : _) → ⟦<TupleEntry<T> as Clone>⟧.is_clone x clone
        ↔ T.is_clone x.0 clone.0 }
    ensures infallible { (x : _) → ⟦<TupleEntry<T> as Clone>⟧.is_infallible x
        ↔ T.is_infallible x.0 }
{}
