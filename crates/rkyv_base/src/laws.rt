//! Laws of the elements of this crate: their layout, their bytes, and the values they represent.
//!
//! An implementation names these in its own ghost members. The laws say them of each type,
//! by the definitions in `specs/`. Other laws are about the words and limits of both widths,
//! the greatest size of an element, the outputs of writers, conversions between errors, `==`,
//! clones, and dropped seals.

ghost use Rattle.std.specs.Int.{w16, w32, w64, w8};
ghost use Rattle.std.specs.Prelude.{string_bytes, true, ◌↔◌, ◌≡◌};
ghost use Rattle.rkyv_base.specs.{CountsReadBack, DistancesReadBack, IsByteStringOf, IsScalar};
ghost use Rattle.rkyv_base.specs.{IsTextOf, byte_string_format, byte_string_spec};
ghost use Rattle.rkyv_base.specs.{PairRepresents, RepresentsAs, SameEncoding, SameFormat, SameSpec};
ghost use Rattle.rkyv_base.specs.{SameValues, ScalarRepresents, WideDistancesFit};
ghost use Rattle.rkyv_base.specs.{bool_encoding, char_encoding, entry_spec, limited, narrow_limit};
ghost use Rattle.rkyv_base.specs.{pair_format, pair_of, scalar_format, signed, text_format};
ghost use Rattle.rkyv_base.specs.{text_spec, unit_format, unit_represents, unit_spec, unsigned};
ghost use Rattle.rkyv_base.specs.{vec_output, wide_limit, written_as};
ghost use Rattle.rkyv_base.specs.declared.errors.ReadError.TheVariants as read;
ghost use Rattle.rkyv_base.specs.declared.errors.RoundTripError.TheVariants.{Read, Write};
ghost use Rattle.rkyv_base.specs.declared.errors.WriteError.TheVariants as write;

use crate::adapter::EntryAdapter;
use crate::archive::Archive;
use crate::bytes::{Bytes, BytesResolver};
use crate::element::{HasSpec, PartRange, Represents};
use crate::entry::{Entry, MAX_ELEMENT_SIZE};
use crate::errors::{
    DistanceTooLarge, IteratorLengthMismatch, ReadError, RoundTripError, VerifyError, WriteError,
};
use crate::lend::Lend;
use crate::limit::{LimitFault, LimitWriter};
use crate::scalars::Scalar;
use crate::seal::{ArchiveSeal, Seal};
use crate::strings::TextResolver;
use crate::text::Text;
use crate::view::View;
use crate::width::{Narrow, Wide, Width, Word};
use crate::writer::{NoMemory, VecWriter, Writer};
use std::alloc::{AllocError, AllocFailed};

/// States that an integer's code has its type's bits, in two's complement if it is signed.
pub fn integers_are_encoded_by_their_types()
    ensures u8 { SameEncoding ⟦<u8 as Scalar>⟧.encoding (unsigned w8) }
    ensures u16 { SameEncoding ⟦<u16 as Scalar>⟧.encoding (unsigned w16) }
    ensures u32 { SameEncoding ⟦<u32 as Scalar>⟧.encoding (unsigned w32) }
    ensures u64 { SameEncoding ⟦<u64 as Scalar>⟧.encoding (unsigned w64) }
    ensures i8 { SameEncoding ⟦<i8 as Scalar>⟧.encoding (signed w8) }
    ensures i16 { SameEncoding ⟦<i16 as Scalar>⟧.encoding (signed w16) }
    ensures i32 { SameEncoding ⟦<i32 as Scalar>⟧.encoding (signed w32) }
    ensures i64 { SameEncoding ⟦<i64 as Scalar>⟧.encoding (signed w64) }
{}

/// States that a `bool` is encoded as the byte 0 or 1, and a `char` as its code in four bytes.
pub fn bools_and_chars_are_numbers()
    ensures bool { SameEncoding ⟦<bool as Scalar>⟧.encoding bool_encoding }
    ensures char { SameEncoding ⟦<char as Scalar>⟧.encoding char_encoding }
{}

/// States that a scalar is one aligned little-endian integer, the code of its value.
pub fn scalars_are_numbers<W: Width, N: Scalar>()
    ensures spec { IsScalar N.spec N.encoding }
    ensures values { SameValues ⟦<N as Represents<N>>⟧.represents (ScalarRepresents N.encoding) }
    ensures bytes { SameFormat ⟦<N as Archive<W>>⟧.format (scalar_format N.encoding) }
{}

/// States the layout of text, and that `&str` and `String` are archived as their bytes.
pub fn texts_are_their_bytes<'t, W: Width>()
    ensures spec { SameSpec ⟦<Text<W> as HasSpec>⟧.spec (text_spec W.word) }
    ensures default { SameSpec ⟦<Text as HasSpec>⟧.spec (text_spec w32) }
    ensures slices { SameValues ⟦<Text<W> as Represents<&'t str>>⟧.represents
        (IsTextOf W.word (λ t. t.now)) }
    ensures strings { SameValues ⟦<Text<W> as Represents<String>>⟧.represents
        (IsTextOf W.word string_bytes) }
    ensures slice_bytes { SameFormat ⟦<&'t str as Archive<W>>⟧.format
        (written_as (λ t. t.now) (text_format W.word)) }
    ensures string_bytes { SameFormat ⟦<String as Archive<W>>⟧.format
        (written_as string_bytes (text_format W.word)) }
{}

/// States the layout of byte strings, and that `&[u8]` and `Vec<u8>` are archived as their bytes.
pub fn byte_strings_are_their_bytes<'t, W: Width>()
    ensures spec { SameSpec ⟦<Bytes<W> as HasSpec>⟧.spec (byte_string_spec W.word) }
    ensures default { SameSpec ⟦<Bytes as HasSpec>⟧.spec (byte_string_spec w32) }
    ensures slices { SameValues ⟦<Bytes<W> as Represents<&'t [u8]>>⟧.represents
        (IsByteStringOf W.word (λ t. t.now)) }
    ensures vectors { SameValues ⟦<Bytes<W> as Represents<Vec<u8>>>⟧.represents
        (IsByteStringOf W.word (λ v. v.items)) }
    ensures slice_bytes { SameFormat ⟦<&'t [u8] as Archive<W>>⟧.format
        (written_as (λ t. t.now) (byte_string_format W.word)) }
    ensures vector_bytes { SameFormat ⟦<Vec<u8> as Archive<W>>⟧.format
        (written_as (λ v. v.items) (byte_string_format W.word)) }
{}

/// States that the unit value has no bytes.
pub fn units_are_empty<W: Width>()
    ensures spec { SameSpec ⟦<() as HasSpec>⟧.spec unit_spec }
    ensures values { SameValues ⟦<() as Represents<()>>⟧.represents unit_represents }
    ensures bytes { SameFormat ⟦<() as Archive<W>>⟧.format unit_format }
{}

/// States that an entry is its key, padded, and then its value, and that a pair is archived so.
pub fn entries_are_keys_and_values<W: Width, A: Archive<W>, B: Archive<W>>()
    ensures spec { SameSpec ⟦<Entry<A::Archived, B::Archived> as HasSpec>⟧.spec
        (entry_spec A.Archived.spec B.Archived.spec) }
    ensures values { SameValues ⟦<Entry<A::Archived, B::Archived> as Represents<(A, B)>>⟧.represents
        (PairRepresents A.Archived.spec B.Archived.spec A.Archived.represents
        B.Archived.represents) }
    ensures bytes { SameFormat ⟦<(A, B) as Archive<W>>⟧.format
        (pair_format A.Archived.spec B.Archived.spec A.format B.format) }
{}

/// States that an adapter is archived as the pair of its key and its value.
pub fn adapters_are_pairs<W: Width, BK: Lend<A>, BV: Lend<B>, A, B, K, V>()
where
    K: Represents<A>,
    V: Represents<B>,
    A: Archive<W, Archived = K>,
    B: Archive<W, Archived = V>,
    ensures values { SameValues
        ⟦<Entry<K, V> as Represents<EntryAdapter<BK, BV, A, B>>>⟧.represents
        (RepresentsAs (pair_of BK.lent BV.lent)
        (PairRepresents K.spec V.spec K.represents V.represents)) }
    ensures bytes { SameFormat ⟦<EntryAdapter<BK, BV, A, B> as Archive<W>>⟧.format
        (written_as (pair_of BK.lent BV.lent) (pair_format K.spec V.spec A.format B.format)) }
{}

/// States the word, the limit and the greatest capacity of both widths.
pub fn widths_have_their_numbers()
    ensures narrow_word { ⟦<Narrow as Word>⟧.word ≡ w32 }
    ensures narrow_limit { ⟦<Narrow as Width>⟧.LIMIT ≡ narrow_limit }
    ensures narrow_capacity { ⟦<Narrow as Width>⟧.MAX_CAPACITY ≡ 4294967295 }
    ensures wide_word { ⟦<Wide as Word>⟧.word ≡ w64 }
    ensures wide_limit { ⟦<Wide as Width>⟧.LIMIT ≡ wide_limit }
    ensures wide_capacity { ⟦<Wide as Width>⟧.MAX_CAPACITY ≡ 4611686018427387904 }
{}

/// States that a count and a distance are read back as written, wherever their bytes are.
pub fn words_read_back<W: Width>()
    ensures counts { CountsReadBack W.word }
    ensures distances { DistancesReadBack W.word }
{}

/// States that wide distances fit, so a wide header is written unless it ends after the limit.
pub fn wide_distances_fit()
    ensures { WideDistancesFit }
{}

/// States that the greatest size of an element is 1,073,741,824 bytes.
pub fn largest_element()
    ensures { MAX_ELEMENT_SIZE ≡ 1073741824 }
{}

/// States the output of each writer: its first position, its bytes, and its count of failures.
pub fn outputs_of_writers<S: Writer>()
    ensures memory { (w : _) → ⟦<VecWriter as Writer>⟧.output w ≡ vec_output w }
    ensures of_vec { (v : _) (w : _) → ⟦<VecWriter as From<Vec<u8>>>⟧.from_gives v w
        ↔ (w ≡ (v.items, 0)) }
    ensures limit { (w : _) → ⟦<LimitWriter<S> as Writer>⟧.output w ≡ limited S.output w }
{}

/// States into which error `?` converts an error.
pub fn errors_are_converted<F, T: Drop>()
    ensures written { (a : _) (e : _) → ⟦<WriteError<F> as From<AllocError>>⟧.from_gives a e
        ↔ (e ≡ write.Memory) }
    ensures pushed { (a : _) (e : _) → ⟦<WriteError<F> as From<AllocFailed<T>>>⟧.from_gives a e
        ↔ (e ≡ write.Memory) }
    ensures distances { (a : _) (e : _) → ⟦<WriteError<F> as From<DistanceTooLarge>>⟧.from_gives a e
        ↔ (e ≡ write.DistanceTooLarge) }
    ensures lengths { (a : _) (e : _) →
        ⟦<WriteError<F> as From<IteratorLengthMismatch>>⟧.from_gives a e
        ↔ (e ≡ write.IteratorLengthMismatch a) }
    ensures read { (a : _) (e : _) → ⟦<ReadError as From<AllocError>>⟧.from_gives a e
        ↔ (e ≡ read.Memory) }
    ensures read_back { (a : _) (e : _) → ⟦<ReadError as From<AllocFailed<T>>>⟧.from_gives a e
        ↔ (e ≡ read.Memory) }
    ensures writes { (a : _) (e : _) →
        ⟦<RoundTripError as From<WriteError<NoMemory>>>⟧.from_gives a e ↔ (e ≡ Write a) }
    ensures reads { (a : _) (e : _) → ⟦<RoundTripError as From<ReadError>>⟧.from_gives a e
        ↔ (e ≡ Read a) }
{}

/// States that the clone of a view is the view, and that cloning one can't fail.
pub fn views_are_cloned<'a, T>()
    ensures same { (view clone : _) → ⟦<View<'a, T> as Clone>⟧.is_clone view clone
        ↔ (clone ≡ view) }
    ensures infallible { (view : _) → ⟦<View<'a, T> as Clone>⟧.is_infallible view }
{}

/// States that two ranges or errors are equal by `==` if and only if they are the same.
pub fn equal_are_the_same()
    ensures range { (a b : PartRange) → (⟦<PartRange as PartialEq>⟧.eq a b ≡ true) ↔ (a ≡ b) }
    ensures mismatch { (a b : IteratorLengthMismatch)
        → (⟦<IteratorLengthMismatch as PartialEq>⟧.eq a b ≡ true) ↔ (a ≡ b) }
    ensures distance { (a b : DistanceTooLarge) → ⟦<DistanceTooLarge as PartialEq>⟧.eq a b ≡ true }
    ensures memory { (a b : NoMemory) → ⟦<NoMemory as PartialEq>⟧.eq a b ≡ true }
    ensures verify { (a b : VerifyError) → (⟦<VerifyError as PartialEq>⟧.eq a b ≡ true)
        ↔ (a ≡ b) }
    ensures read { (a b : ReadError) → (⟦<ReadError as PartialEq>⟧.eq a b ≡ true) ↔ (a ≡ b) }
    ensures round_trip { (a b : RoundTripError) → (⟦<RoundTripError as PartialEq>⟧.eq a b ≡ true)
        ↔ (a ≡ b) }
{}

/// States that errors with a writer's fault are equal by `==` if and only if they are the same.
pub fn equal_with_faults_are_the_same<F: PartialEq>()
    ensures write { ((f g : F) → (⟦<F as PartialEq>⟧.eq f g ≡ true) ↔ (f ≡ g))
        → (a b : WriteError F) → (⟦<WriteError<F> as PartialEq>⟧.eq a b ≡ true) ↔ (a ≡ b) }
    ensures limit { ((f g : F) → (⟦<F as PartialEq>⟧.eq f g ≡ true) ↔ (f ≡ g))
        → (a b : LimitFault F) → (⟦<LimitFault<F> as PartialEq>⟧.eq a b ≡ true) ↔ (a ≡ b) }
{}

/// States that a clone of a range, an error or a resolver is the value itself, and can't fail.
pub fn clones_are_the_same()
    ensures range { (a clone : PartRange) → ⟦<PartRange as Clone>⟧.is_clone a clone ↔ (clone ≡ a) }
    ensures mismatch { (a clone : IteratorLengthMismatch)
        → ⟦<IteratorLengthMismatch as Clone>⟧.is_clone a clone ↔ (clone ≡ a) }
    ensures verify { (a clone : VerifyError) → ⟦<VerifyError as Clone>⟧.is_clone a clone
        ↔ (clone ≡ a) }
    ensures read { (a clone : ReadError) → ⟦<ReadError as Clone>⟧.is_clone a clone ↔ (clone ≡ a) }
    ensures round_trip { (a clone : RoundTripError) → ⟦<RoundTripError as Clone>⟧.is_clone a clone
        ↔ (clone ≡ a) }
    ensures text { (a clone : TextResolver) → ⟦<TextResolver as Clone>⟧.is_clone a clone
        ↔ (clone ≡ a) }
    ensures byte_string { (a clone : BytesResolver) → ⟦<BytesResolver as Clone>⟧.is_clone a clone
        ↔ (clone ≡ a) }
    ensures infallible_range { (a : PartRange) → ⟦<PartRange as Clone>⟧.is_infallible a }
    ensures infallible_mismatch { (a : IteratorLengthMismatch)
        → ⟦<IteratorLengthMismatch as Clone>⟧.is_infallible a }
    ensures infallible_distance { (a : DistanceTooLarge)
        → ⟦<DistanceTooLarge as Clone>⟧.is_infallible a }
    ensures infallible_memory { (a : NoMemory) → ⟦<NoMemory as Clone>⟧.is_infallible a }
    ensures infallible_verify { (a : VerifyError) → ⟦<VerifyError as Clone>⟧.is_infallible a }
    ensures infallible_read { (a : ReadError) → ⟦<ReadError as Clone>⟧.is_infallible a }
    ensures infallible_round_trip { (a : RoundTripError)
        → ⟦<RoundTripError as Clone>⟧.is_infallible a }
    ensures infallible_text { (a : TextResolver) → ⟦<TextResolver as Clone>⟧.is_infallible a }
    ensures infallible_byte_string { (a : BytesResolver)
        → ⟦<BytesResolver as Clone>⟧.is_infallible a }
    ensures infallible_narrow { (a : Narrow) → ⟦<Narrow as Clone>⟧.is_infallible a }
    ensures infallible_wide { (a : Wide) → ⟦<Wide as Clone>⟧.is_infallible a }
{}

/// States that a clone of an error with a writer's fault is the error itself, and can't fail.
pub fn clones_with_faults_are_the_same<F: Clone>()
    ensures write { ((f g : F) → ⟦<F as Clone>⟧.is_clone f g ↔ (g ≡ f))
        → (a clone : WriteError F) → ⟦<WriteError<F> as Clone>⟧.is_clone a clone ↔ (clone ≡ a) }
    ensures limit { ((f g : F) → ⟦<F as Clone>⟧.is_clone f g ↔ (g ≡ f))
        → (a clone : LimitFault F) → ⟦<LimitFault<F> as Clone>⟧.is_clone a clone ↔ (clone ≡ a) }
    ensures infallible_write { ((f : F) → ⟦<F as Clone>⟧.is_infallible f)
        → (a : WriteError F) → ⟦<WriteError<F> as Clone>⟧.is_infallible a }
    ensures infallible_limit { ((f : F) → ⟦<F as Clone>⟧.is_infallible f)
        → (a : LimitFault F) → ⟦<LimitFault<F> as Clone>⟧.is_infallible a }
{}

/// States that a seal changes no byte when it is dropped.
pub fn dropped_seals_keep_bytes<T>(bytes: &mut [u8], pos: usize)
    ensures { bytes.new ≡ bytes.old }
{
    let seal = Seal::<T>::over(bytes, pos);
    drop(seal);
}

/// States that the seal of an archive changes no byte when it is dropped.
pub fn dropped_archive_seals_keep_bytes<T>(archive: &mut [u8], pos: u64)
    ensures { archive.new ≡ archive.old }
{
    let seal = ArchiveSeal::<T>::new(archive, pos);
    drop(seal);
}
