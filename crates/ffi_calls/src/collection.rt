//! Archives by the codes of their contents: their validation, and their handles.
//!
//! `open_archive` and `explain_archive` validate an archive. `decode` returns the handle of a valid
//! one, which the calls of other modules take.
//!
//! The codes are those in the header of a container. `docs/FORMAT.md` lists them. A container may
//! have contents for which this library has no collection, as `bool` keys. Their codes are unknown
//! here, as are codes that no contents have.

ghost use Rattle.std.specs.Prelude.{◌≡◌, Some};
ghost use Rattle.rkyv_base.specs.{IsValidArchive};
ghost use Rattle.ffi_calls.specs.{CanDecode, CanValidate, DecodesTypes, Explains, ExplainsByCodes};
ghost use Rattle.ffi_calls.specs.{ExplainsTypes, IsHandleOf, IsHeaderOf, IsValidByCodes};
ghost use Rattle.ffi_calls.specs.{OpensByCodes, collection_at, collection_in, collection_of};
ghost use Rattle.ffi_calls.specs.{collection_spec, index_flag, key_type, key_type_in, limit_of};
ghost use Rattle.ffi_calls.specs.{root_in, root_spec, value_type, value_type_in, wide_flag};

use crate::any_value::AnyValue;
use crate::archives::{explain_root, header_of};
use crate::containers::Codes;
use crate::explanation::{Explanation, explained};
use crate::index::index_header_of;
use crate::status::UNKNOWN_CODES;
use crate::types::{KeyFrom, Operation, StoredKey, StoredValue, ValueFrom, dispatch};
use rkyv_base::Element;
use rkyv_collections::{FxHasher64, HashMapOf};
use rkyv_index::{IndexMapOf, IndexWidth};
use rkyv_table::table::decoded::Decoded;

/// The type of the keys of a collection.
#[derive(Clone, Copy)]
pub enum KeyType {
    /// Integers of 8 bits, by their bits if they are signed.
    U8,
    /// Integers of 16 bits, by their bits if they are signed.
    U16,
    /// Integers of 32 bits, by their bits if they are signed.
    U32,
    /// Integers of 64 bits, by their bits if they are signed.
    U64,
    /// Unicode scalar values.
    Char,
    /// Texts.
    Text,
}

/// The type of the values of a collection.
#[derive(Clone, Copy)]
pub enum ValueType {
    /// Integers of 8 bits, by their bits if they are signed.
    U8,
    /// Integers of 16 bits, by their bits if they are signed.
    U16,
    /// Integers of 32 bits, by their bits if they are signed, and `f32` by its bits.
    U32,
    /// Integers of 64 bits, by their bits if they are signed, and `f64` by its bits.
    U64,
    /// `false` or `true`.
    Bool,
    /// Unicode scalar values.
    Char,
    /// Texts.
    Text,
    /// Byte strings.
    Bytes,
    /// Units, the values of a set.
    Unit,
}

/// The type of an archived collection.
#[derive(Clone, Copy)]
pub struct Collection {
    /// Whether it is an index map or an index set, in place of a hash map or a hash set.
    pub indexed: bool,
    /// The type of the keys.
    pub key: KeyType,
    /// The type of the values.
    pub value: ValueType,
    /// Whether the archive is wide, in place of narrow.
    pub wide: bool,
}

/// A handle of a valid archive: its collection, and its decoded header.
#[repr(C)]
#[derive(Clone, Copy)]
pub struct Handle {
    /// Whether it is an index map or an index set, in place of a hash map or a hash set.
    pub indexed: bool,
    /// Whether the archive is wide, in place of narrow.
    pub wide: bool,
    /// The number of the type of the keys: its index in `KeyType`.
    pub key: u8,
    /// The number of the type of the values: its index in `ValueType`.
    pub value: u8,
    /// The decoded header.
    pub header: Decoded,
}

/// Returns whether the kind with this code is an index map or an index set.
///
/// The result is `None` if no kind has the code.
fn index_flag(kind: u8) -> Option<bool>
    ensures { result ≡ index_flag kind }
{
    match kind {
        1 | 2 => Some(false),
        3 | 4 => Some(true),
        _ => None,
    }
}

/// Returns the type of keys with this code, or `None` if no collection has such keys.
fn key_type(code: u8) -> Option<KeyType>
    ensures { result ≡ key_type code }
{
    match code {
        0x11 | 0x21 => Some(KeyType::U8),
        0x12 | 0x22 => Some(KeyType::U16),
        0x14 | 0x24 => Some(KeyType::U32),
        0x18 | 0x28 => Some(KeyType::U64),
        0x03 => Some(KeyType::Char),
        0x04 => Some(KeyType::Text),
        _ => None,
    }
}

/// Returns the type of values with this code, or `None` if no collection of the kind has such
/// values.
fn value_type(kind: u8, code: u8) -> Option<ValueType>
    ensures { result ≡ value_type kind code }
{
    match (kind, code) {
        (2 | 4, 0x01) => Some(ValueType::Unit),
        (2 | 4, _) => None,
        (_, 0x11 | 0x21) => Some(ValueType::U8),
        (_, 0x12 | 0x22) => Some(ValueType::U16),
        (_, 0x14 | 0x24 | 0x34) => Some(ValueType::U32),
        (_, 0x18 | 0x28 | 0x38) => Some(ValueType::U64),
        (_, 0x02) => Some(ValueType::Bool),
        (_, 0x03) => Some(ValueType::Char),
        (_, 0x04) => Some(ValueType::Text),
        (_, 0x05) => Some(ValueType::Bytes),
        _ => None,
    }
}

/// Returns whether the width with this code is wide, or `None` if no width has it.
fn wide_flag(code: u8) -> Option<bool>
    ensures { result ≡ wide_flag code }
{
    match code {
        4 => Some(false),
        8 => Some(true),
        _ => None,
    }
}

/// Returns the collection with these codes, or `None` if the library has none.
#[inline]
pub(crate) fn collection_of(codes: Codes) -> Option<Collection>
    ensures { result ≡ collection_of codes }
{
    Some(Collection {
        indexed: index_flag(codes.kind)?,
        key: key_type(codes.key)?,
        value: value_type(codes.kind, codes.value)?,
        wide: wide_flag(codes.width)?,
    })
}

/// Validates an archive, by whether it is of an index map.
fn explain_kind<K: Element, V: Element, W: IndexWidth>(archive: &[u8], indexed: bool) -> Explanation
    ensures { Explains W.LIMIT (root_spec indexed W.word K.spec V.spec) archive.now result }
{
    if indexed {
        explain_root::<IndexMapOf<K, V, FxHasher64, W>, W>(archive)
    } else {
        explain_root::<HashMapOf<K, V, FxHasher64, W>, W>(archive)
    }
}

/// The validation of an archive.
#[derive(Clone, Copy)]
pub(crate) struct Validation<'a> {
    archive: &'a [u8],
}

impl<'a, 'b> Operation<AnyValue<'b>, u8> for Validation<'a> {
    type Out = Explanation;

    ghost pre = { CanValidate };

    ghost post = { ExplainsTypes };

    #[inline]
    fn run<
        A: KeyFrom<AnyValue<'b>, K, W>,
        B: ValueFrom<AnyValue<'b>, V, W>,
        K: StoredKey<A>,
        V: StoredValue<B>,
        W: IndexWidth,
    >(self, indexed: bool, _out: &mut [u8]) -> Explanation {
        explain_kind::<K, V, W>(self.archive, indexed)
    }
}

/// Validates the archive of a collection.
fn explain_collection(archive: &[u8], of: Collection) -> Explanation
    ensures { Explains (limit_of of.wide) (collection_spec of) archive.now result }
{
    dispatch(of, Validation { archive }, &mut [])
}

/// Validates the archive of the collection with the codes, and returns the first error with its
/// numbers.
///
/// If no collection of this library has the codes, the status is `UNKNOWN_CODES`, and the numbers
/// are 0.
pub fn explain_archive(archive: &[u8], codes: Codes) -> Explanation
    ensures explains { ExplainsByCodes codes archive.now result }
    ensures accepts { IsValidByCodes codes archive.now → result.status ≡ 0 }
{
    match collection_of(codes) {
        Some(of) => explain_collection(archive, of),
        None => explained(UNKNOWN_CODES, 0, 0, 0),
    }
}

/// Validates the archive of the collection with the codes.
///
/// # Errors
///
/// - `UNKNOWN_CODES`: no collection of this library has the codes.
/// - The status of the first validation error: 16 to 23.
pub fn open_archive(archive: &[u8], codes: Codes) -> u32
    ensures status { OpensByCodes codes archive.now result }
    ensures accepts { IsValidByCodes codes archive.now → result ≡ 0 }
{
    explain_archive(archive, codes).status
}

/// Returns the decoded header of a valid archive, by whether it is of an index map.
fn decode_kind<K: Element, V: Element, W: IndexWidth>(archive: &[u8], indexed: bool) -> Decoded
    requires { IsValidArchive W.LIMIT (root_spec indexed W.word K.spec V.spec) archive.now }
    ensures { IsHeaderOf (root_in indexed W.word K.spec V.spec archive.now) result }
{
    if indexed {
        index_header_of::<K, V, W>(archive)
    } else {
        header_of::<K, V, W>(archive)
    }
}

/// The decoding of a header.
#[derive(Clone, Copy)]
pub(crate) struct Decoding<'a> {
    archive: &'a [u8],
}

impl<'a, 'b> Operation<AnyValue<'b>, u8> for Decoding<'a> {
    type Out = Decoded;

    ghost pre = { CanDecode };

    ghost post = { DecodesTypes };

    #[inline]
    fn run<
        A: KeyFrom<AnyValue<'b>, K, W>,
        B: ValueFrom<AnyValue<'b>, V, W>,
        K: StoredKey<A>,
        V: StoredValue<B>,
        W: IndexWidth,
    >(self, indexed: bool, _out: &mut [u8]) -> Decoded {
        decode_kind::<K, V, W>(self.archive, indexed)
    }
}

/// Returns the decoded header of the valid archive of a collection.
fn decode_collection(archive: &[u8], of: Collection) -> Decoded
    requires { IsValidArchive (limit_of of.wide) (collection_spec of) archive.now }
    ensures { IsHeaderOf (collection_in of archive.now) result }
{
    dispatch(of, Decoding { archive }, &mut [])
}

/// Returns the type of keys with this number in a handle.
#[inline(always)]
fn key_type_in(number: u8) -> KeyType
    ensures { result ≡ key_type_in number }
{
    match number {
        0 => KeyType::U8,
        1 => KeyType::U16,
        2 => KeyType::U32,
        3 => KeyType::U64,
        4 => KeyType::Char,
        _ => KeyType::Text,
    }
}

/// Returns the type of values with this number in a handle.
#[inline(always)]
fn value_type_in(number: u8) -> ValueType
    ensures { result ≡ value_type_in number }
{
    match number {
        0 => ValueType::U8,
        1 => ValueType::U16,
        2 => ValueType::U32,
        3 => ValueType::U64,
        4 => ValueType::Bool,
        5 => ValueType::Char,
        6 => ValueType::Text,
        7 => ValueType::Bytes,
        _ => ValueType::Unit,
    }
}

/// Returns the number of a type of keys in a handle.
fn number_of_key(key: KeyType) -> u8
    ensures { key_type_in result ≡ key }
{
    match key {
        KeyType::U8 => 0,
        KeyType::U16 => 1,
        KeyType::U32 => 2,
        KeyType::U64 => 3,
        KeyType::Char => 4,
        KeyType::Text => 5,
    }
}

/// Returns the number of a type of values in a handle.
fn number_of_value(value: ValueType) -> u8
    ensures { value_type_in result ≡ value }
{
    match value {
        ValueType::U8 => 0,
        ValueType::U16 => 1,
        ValueType::U32 => 2,
        ValueType::U64 => 3,
        ValueType::Bool => 4,
        ValueType::Char => 5,
        ValueType::Text => 6,
        ValueType::Bytes => 7,
        ValueType::Unit => 8,
    }
}

/// Returns the collection of a handle.
#[inline(always)]
pub(crate) fn collection_at(handle: &Handle) -> Collection
    ensures { result ≡ collection_at handle.now }
{
    Collection {
        indexed: handle.indexed,
        key: key_type_in(handle.key),
        value: value_type_in(handle.value),
        wide: handle.wide,
    }
}

/// Returns the handle of the valid archive of a collection.
fn handle_of(archive: &[u8], of: Collection) -> Handle
    requires { IsValidArchive (limit_of of.wide) (collection_spec of) archive.now }
    ensures of { collection_at result ≡ of }
    ensures handle { IsHandleOf archive.now result }
{
    Handle {
        indexed: of.indexed,
        wide: of.wide,
        key: number_of_key(of.key),
        value: number_of_value(of.value),
        header: decode_collection(archive, of),
    }
}

/// Returns the handle of the archive of the collection with the codes, for the calls that read it.
///
/// # Requires
///
/// - The archive is valid: `open_archive` returned `DONE` for these codes.
pub fn decode(archive: &[u8], codes: Codes) -> Handle
    requires { IsValidByCodes codes archive.now }
    ensures of { collection_of codes ≡ Some (collection_at result) }
    ensures handle { IsHandleOf archive.now result }
{
    handle_of(archive, collection_of(codes).unwrap())
}
