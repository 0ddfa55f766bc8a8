//! Overwrites of numbers in any map.

ghost use Rattle.rkyv_base.specs.{IsValidArchive};
ghost use Rattle.ffi_calls.specs.{IsHandleOf, KeepsCollection, KeepsRoot, SetsIn, SetsKey};
ghost use Rattle.ffi_calls.specs.{SetsKeyOf, SetsShown, collection_at, collection_spec};
ghost use Rattle.ffi_calls.specs.{key_members, key_type_of, key_type_spec, limit_of, root_spec};
ghost use Rattle.ffi_calls.specs.{value_type_spec};

use crate::any_value::AnyValue;
use crate::collection::{Collection, Handle, KeyType, ValueType, collection_at};
use crate::index_in_place::set_indexed_in;
use crate::map_lookup::set_in;
use crate::status::UNKNOWN_CODES;
use crate::types::{KeyFrom, StoredKey};
use crate::value::Value;
use rkyv_base::{Narrow, Text, Wide};
use rkyv_index::IndexWidth;

/// Overwrites the value of a key of a hash map, or of an index map if it is `indexed`.
///
/// # Errors
///
/// - `VALUE_TOO_LARGE`: the value has more bits than the values of the map.
/// - `NOT_FOUND`: the lookup doesn't find the key.
///
/// After an error no byte is changed.
fn set_kind<'a, A: KeyFrom<AnyValue<'a>, K, W>, K: StoredKey<A>, V: Value, W: IndexWidth>(
    archive: &mut [u8],
    indexed: bool,
    key: &A,
    value: u64,
) -> u32
    requires { IsValidArchive W.LIMIT (root_spec indexed W.word K.spec V.spec) archive.old }
    ensures keeps { KeepsRoot indexed W.LIMIT W.word K.spec V.spec archive.old archive.new }
    ensures sets { SetsKey indexed W.word (key_members A.KeyFrom K.StoredKey) V.spec V.encoding
        archive.old key.now value result archive.new }
{
    if indexed {
        set_indexed_in::<A, K, V, W>(archive, key, value)
    } else {
        set_in::<A, K, V, W>(archive, key, value)
    }
}

/// Overwrites the value of a key, by the type of the values too.
///
/// It has the errors of `set_value`.
fn set_key<'a, A: KeyFrom<AnyValue<'a>, K, W>, K: StoredKey<A>, W: IndexWidth>(
    archive: &mut [u8],
    of: Collection,
    key: &A,
    value: u64,
) -> u32
    requires { IsValidArchive W.LIMIT (root_spec of.indexed W.word K.spec
        (value_type_spec W.word of.value)) archive.old }
    ensures keeps { KeepsRoot of.indexed W.LIMIT W.word K.spec (value_type_spec W.word of.value)
        archive.old archive.new }
    ensures sets { SetsKeyOf of.indexed W.word (key_members A.KeyFrom K.StoredKey) archive.old
        of.value key.now value result archive.new }
{
    match of.value {
        ValueType::U8 => set_kind::<A, K, u8, W>(archive, of.indexed, key, value),
        ValueType::U16 => set_kind::<A, K, u16, W>(archive, of.indexed, key, value),
        ValueType::U32 => set_kind::<A, K, u32, W>(archive, of.indexed, key, value),
        ValueType::U64 => set_kind::<A, K, u64, W>(archive, of.indexed, key, value),
        ValueType::Bool => UNKNOWN_CODES,
        ValueType::Char => UNKNOWN_CODES,
        ValueType::Text => UNKNOWN_CODES,
        ValueType::Bytes => UNKNOWN_CODES,
        ValueType::Unit => UNKNOWN_CODES,
    }
}

/// Overwrites the value of a key of the type `A` in the form of calls.
///
/// It has the errors of `set_value`.
fn set_shown<'a, A: KeyFrom<AnyValue<'a>, K, W>, K: StoredKey<A>, W: IndexWidth>(
    archive: &mut [u8],
    of: Collection,
    key: AnyValue<'a>,
    value: u64,
) -> u32
    requires { IsValidArchive W.LIMIT (root_spec of.indexed W.word K.spec
        (value_type_spec W.word of.value)) archive.old }
    ensures keeps { KeepsRoot of.indexed W.LIMIT W.word K.spec (value_type_spec W.word of.value)
        archive.old archive.new }
    ensures sets { SetsShown of.indexed W.word (key_members A.KeyFrom K.StoredKey) archive.old
        of.value key.entry value result archive.new }
{
    match A::from_any(key) {
        Ok(key) => set_key::<A, K, W>(archive, of, &key, value),
        Err(status) => status,
    }
}

/// Overwrites the value of a key, by the type of the keys too.
///
/// It has the errors of `set_value`.
fn set_in_width<W: IndexWidth>(
    archive: &mut [u8],
    of: Collection,
    key: AnyValue<'_>,
    value: u64,
) -> u32
    requires { IsValidArchive W.LIMIT (root_spec of.indexed W.word (key_type_spec W.word of.key)
        (value_type_spec W.word of.value)) archive.old }
    ensures keeps { KeepsRoot of.indexed W.LIMIT W.word (key_type_spec W.word of.key)
        (value_type_spec W.word of.value) archive.old archive.new }
    ensures sets { SetsShown of.indexed W.word (key_type_of W.word of.key) archive.old of.value
        key.entry value result archive.new }
{
    match of.key {
        KeyType::U8 => set_shown::<u8, u8, W>(archive, of, key, value),
        KeyType::U16 => set_shown::<u16, u16, W>(archive, of, key, value),
        KeyType::U32 => set_shown::<u32, u32, W>(archive, of, key, value),
        KeyType::U64 => set_shown::<u64, u64, W>(archive, of, key, value),
        KeyType::Char => set_shown::<char, char, W>(archive, of, key, value),
        KeyType::Text => set_shown::<&str, Text<W>, W>(archive, of, key, value),
    }
}

/// Overwrites the value of a key of a collection.
///
/// It has the errors of `set_value`.
fn set_of(archive: &mut [u8], of: Collection, key: AnyValue<'_>, value: u64) -> u32
    requires { IsValidArchive (limit_of of.wide) (collection_spec of) archive.old }
    ensures keeps { KeepsCollection of archive.old archive.new }
    ensures sets { SetsIn of archive.old key.entry value result archive.new }
{
    if of.wide {
        set_in_width::<Wide>(archive, of, key, value)
    } else {
        set_in_width::<Narrow>(archive, of, key, value)
    }
}

/// Looks up a key of a hash map or of an index map, and overwrites its value in place.
///
/// The archive stays valid, and its header is unchanged.
///
/// # Requires
///
/// - `handle` is a handle of the archive.
///
/// # Errors
///
/// - `VALUE_TOO_LARGE`: the keys are numbers or characters, and none has the number of `key`.
/// - `NOT_TEXT`: the keys are texts, and the bytes of `key` aren't UTF-8.
/// - `UNKNOWN_CODES`: the values of the collection aren't numbers.
/// - `VALUE_TOO_LARGE`: the new value has more bits than the values of the map.
/// - `NOT_FOUND`: the lookup doesn't find the key.
///
/// After an error no byte is changed.
pub fn set_value(archive: &mut [u8], handle: &Handle, key: AnyValue<'_>, value: u64) -> u32
    requires { IsHandleOf archive.old handle.now }
    ensures keeps { KeepsCollection (collection_at handle.now) archive.old archive.new }
    ensures sets { SetsIn (collection_at handle.now) archive.old key.entry value result
        archive.new }
{
    set_of(archive, collection_at(handle), key, value)
}
