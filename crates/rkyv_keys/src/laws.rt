//! Laws of keys.
//!
//! The laws of native keys and of queries are proved from the laws of their traits. The others are
//! about the types of this crate: by which calls their values are hashed, when two of them are the
//! same, which native values they equal, with which errors they are deserialized, and that a clone
//! is equal.

ghost use Rattle.std.specs.Prelude.{[], string_bytes, ◌++◌, ◌∷◌, ◌≡◌, ◌↔◌};
ghost use Rattle.rkyv_scan.specs.{I16, I32, I64, I8, Isize, U16, U32, U64, U8, Usize};
ghost use Rattle.rkyv_base.specs.{IsByteStringOf, IsTextOf, SameValues, ScalarRepresents};
ghost use Rattle.rkyv_base.specs.{unit_represents};
ghost use Rattle.rkyv_keys.specs.{FitsByValue, FitsSameKeys, HashesAsWritten, HashesBy};
ghost use Rattle.rkyv_keys.specs.{RestsOnKeys, SameComparison, SameErrors, bool_call};
ghost use Rattle.rkyv_keys.specs.{byte_string_calls, byte_string_fails, byte_string_same};
ghost use Rattle.rkyv_keys.specs.{entry_deserialize_fails, entry_equals, entry_same};
ghost use Rattle.rkyv_keys.specs.{nothing_fails, scalar_same, text_calls, text_fails, text_same};
ghost use Rattle.rkyv_keys.specs.{unit_same, view_calls};

use crate::debug::Shown;
use crate::deserialize::Deserialize;
use crate::equality::{ElementEq, MatchesNative};
use crate::hash::KeyHash;
use crate::keys::{KeyElement, NativeKey, Query};
use crate::scalars::ScalarKey;
use crate::views::KeyView;
use rkyv_base::{Bytes, Entry, HasSpec, Represents, Text, Width};

/// States that a native key makes the calls of each archived key that represents it.
pub fn native_keys_hash_as_written<K: KeyElement + Represents<V>, V: NativeKey<K>>()
    ensures { HashesAsWritten K.spec K.represents K.key_calls V.calls }
{}

/// States that a query matches all archived keys of one native value, or none.
pub fn queries_fit_by_value<K: KeyElement + Represents<V>, V: NativeKey<K>, Q: Query<K>>()
    ensures { FitsByValue K.spec K.represents Q.fits }
{}

/// States that the keys that a query matches depend only on the bytes of the keys and their parts.
pub fn queries_rest_on_keys<K: KeyElement, Q: Query<K>>()
    ensures { RestsOnKeys K.spec Q.fits }
{}

/// States that a view of a key is hashed as that key, and matches the keys that are the same as it.
pub fn views_match_same_keys<'a, K: KeyElement>()
    ensures hashed { (key : _) →
        ⟦<KeyView<'a, K> as KeyHash>⟧.calls key ≡ view_calls K.key_calls key }
    ensures matched { FitsSameKeys K.same ⟦<KeyView<'a, K> as Query<K>>⟧.fits }
{}

/// States that an integer is hashed by the call of its own type.
pub fn numbers_hash_by_their_types()
    ensures u8 { HashesBy ⟦<u8 as KeyHash>⟧ (λ n. U8 n ∷ []) }
    ensures u16 { HashesBy ⟦<u16 as KeyHash>⟧ (λ n. U16 n ∷ []) }
    ensures u32 { HashesBy ⟦<u32 as KeyHash>⟧ (λ n. U32 n ∷ []) }
    ensures u64 { HashesBy ⟦<u64 as KeyHash>⟧ (λ n. U64 n ∷ []) }
    ensures usize { HashesBy ⟦<usize as KeyHash>⟧ (λ n. Usize n ∷ []) }
    ensures i8 { HashesBy ⟦<i8 as KeyHash>⟧ (λ z. I8 z ∷ []) }
    ensures i16 { HashesBy ⟦<i16 as KeyHash>⟧ (λ z. I16 z ∷ []) }
    ensures i32 { HashesBy ⟦<i32 as KeyHash>⟧ (λ z. I32 z ∷ []) }
    ensures i64 { HashesBy ⟦<i64 as KeyHash>⟧ (λ z. I64 z ∷ []) }
    ensures isize { HashesBy ⟦<isize as KeyHash>⟧ (λ z. Isize z ∷ []) }
{}

/// States that a `bool` is hashed as a byte, a `char` as its code in a `u32`, and `()` by no call.
pub fn bools_chars_and_units_hash_by_their_calls()
    ensures bool { HashesBy ⟦<bool as KeyHash>⟧ (λ b. bool_call b ∷ []) }
    ensures char { HashesBy ⟦<char as KeyHash>⟧ (λ c. U32 c ∷ []) }
    ensures unit { HashesBy ⟦<() as KeyHash>⟧ (λ _. []) }
{}

/// States that a text is hashed by its bytes, and then the byte 255.
pub fn texts_hash_by_their_bytes<'a>()
    ensures slice { HashesBy ⟦<&'a str as KeyHash>⟧ (λ s. text_calls s.now) }
    ensures string { HashesBy ⟦<String as KeyHash>⟧ (λ s. text_calls (string_bytes s)) }
{}

/// States that a byte string is hashed by the number of its bytes, and then the bytes.
pub fn byte_strings_hash_by_their_bytes<'a>()
    ensures slice { HashesBy ⟦<&'a [u8] as KeyHash>⟧ (λ s. byte_string_calls s.now) }
    ensures vector { HashesBy ⟦<Vec<u8> as KeyHash>⟧ (λ v. byte_string_calls v.items) }
{}

/// States that a pair is hashed by the calls of its first value, and then of its second.
pub fn pairs_hash_in_order<A: KeyHash, B: KeyHash>()
    ensures { (pair : _) →
        ⟦<(A, B) as KeyHash>⟧.calls pair ≡ A.calls pair.0 ++ B.calls pair.1 }
{}

/// States when two archived values are the same: scalars if equal, and texts if their bytes are.
///
/// Unit values always are. Pairs are the same if their keys and their values are.
pub fn archived_values_are_compared<N: ScalarKey, W: Width, K: ElementEq, V: ElementEq>()
    ensures scalar { SameComparison ⟦<N as ElementEq>⟧.same (scalar_same N.encoding N.eq) }
    ensures unit { SameComparison ⟦<() as ElementEq>⟧.same unit_same }
    ensures text { SameComparison ⟦<Text<W> as ElementEq>⟧.same (text_same W.word) }
    ensures pair { SameComparison ⟦<Entry<K, V> as ElementEq>⟧.same
        (entry_same K.spec V.spec K.same V.same) }
{}

/// States which native values scalars, the unit value, texts and pairs equal in an archive.
///
/// A scalar, the unit value or a text equals the values that it represents. A pair equals the
/// pairs whose values its key and its value equal.
pub fn native_values_are_compared<'t, N: ScalarKey, W: Width, A, B, K, V>()
where
    K: MatchesNative<A>,
    V: MatchesNative<B>,
    ensures scalar { SameValues ⟦<N as MatchesNative<N>>⟧.equals (ScalarRepresents N.encoding) }
    ensures unit { SameValues ⟦<() as MatchesNative<()>>⟧.equals unit_represents }
    ensures slice { SameValues ⟦<Text<W> as MatchesNative<&'t str>>⟧.equals
        (IsTextOf W.word (λ t. t.now)) }
    ensures string { SameValues ⟦<Text<W> as MatchesNative<String>>⟧.equals
        (IsTextOf W.word string_bytes) }
    ensures pair { SameValues ⟦<Entry<K, V> as MatchesNative<(A, B)>>⟧.equals
        (entry_equals K.spec V.spec K.equals V.equals) }
{}

/// States the errors with which scalars, the unit value, texts and pairs are deserialized.
///
/// Scalars and `()` never fail. A text fails only to allocate, and never if it is empty. A pair
/// fails with an error of its key or, if the key's bytes represent a value, of its value.
pub fn errors_of_deserializing<N: ScalarKey, W: Width, A: Drop, B, K, V>()
where
    K: Deserialize<A>,
    V: Deserialize<B>,
    ensures scalar { SameErrors ⟦<N as Deserialize<N>>⟧.deserialize_fails nothing_fails }
    ensures unit { SameErrors ⟦<() as Deserialize<()>>⟧.deserialize_fails nothing_fails }
    ensures text { SameErrors ⟦<Text<W> as Deserialize<String>>⟧.deserialize_fails
        (text_fails W.word) }
    ensures pair { SameErrors ⟦<Entry<K, V> as Deserialize<(A, B)>>⟧.deserialize_fails
        (entry_deserialize_fails K.Deserialize V.Deserialize) }
{}

/// States when archived byte strings are the same, and which native values they equal.
///
/// They are the same if their bytes are, and equal the values that they represent. Deserializing
/// one fails only to allocate, and never if it is empty.
pub fn byte_strings_are_compared<'t, W: Width>()
    ensures same { SameComparison ⟦<Bytes<W> as ElementEq>⟧.same (byte_string_same W.word) }
    ensures slice { SameValues ⟦<Bytes<W> as MatchesNative<&'t [u8]>>⟧.equals
        (IsByteStringOf W.word (λ t. t.now)) }
    ensures vector { SameValues ⟦<Bytes<W> as MatchesNative<Vec<u8>>>⟧.equals
        (IsByteStringOf W.word (λ v. v.items)) }
    ensures errors { SameErrors ⟦<Bytes<W> as Deserialize<Vec<u8>>>⟧.deserialize_fails
        (byte_string_fails W.word) }
{}

/// States that the clone of a value to be formatted is that value, and that cloning can't fail.
pub fn shown_values_are_cloned<'a, T>()
    ensures same { (shown clone : _) → ⟦<Shown<'a, T> as Clone>⟧.is_clone shown clone
        ↔ (clone ≡ shown) }
    ensures infallible { (shown : _) → ⟦<Shown<'a, T> as Clone>⟧.is_infallible shown }
{}

/// States that the clone of an archived key as a query is that key, and that cloning can't fail.
pub fn key_views_are_cloned<'a, K: HasSpec>()
    ensures same { (key clone : _) → ⟦<KeyView<'a, K> as Clone>⟧.is_clone key clone
        ↔ (clone ≡ key) }
    ensures infallible { (key : _) → ⟦<KeyView<'a, K> as Clone>⟧.is_infallible key }
{}
