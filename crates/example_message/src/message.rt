//! Messages: `archive` writes one, `number_of` reads a number, and `set_number` overwrites one.
ghost use Rattle.std.specs.Option.{option_map};
ghost use Rattle.std.specs.Prelude.{IfOk, IfSome, IsOk, MatchResult, ℕ, ◌≡◌};
ghost use Rattle.rkyv_base.specs.{number_at};
ghost use Rattle.rkyv_collections.specs.{map_bytes, map_pos};
ghost use Rattle.example_message.specs.{ArePartsFields, FieldList, FieldsRepresent, FindsFirstPart};
ghost use Rattle.example_message.specs.{IsFields, IsMessage, IsMessageOf, IsPartsPos, MessageFails};
ghost use Rattle.example_message.specs.{Parts, Represents, SetsNumber, ValidationFails};
ghost use Rattle.example_message.specs.{WritesNumber, fields_found, first_number, number_found};
ghost use Rattle.example_message.specs.{number_in, number_spec, value_found};
ghost use Rattle.std.specs.Int.{w32};

use rkyv_base::access::access;
use rkyv_base::{Narrow, NoMemory, Text, VerifyError, View, WriteError, to_bytes};
use rkyv_collections::map::in_place::set_value_of;
use rkyv_collections::map::laws::lookups_find_listed;
use rkyv_collections::map::laws::nested::{nested_writes_keep_maps, nested_writes_represent};
use rkyv_collections::{ArchivedHashMap, FxHasher64, HashMapOf, MapPairs};
use std::alloc::Global;

/// The fields of a part: names, each with a number.
pub type Fields<'a> = MapPairs<'a, &'a str, u32>;

/// Writes the message of the parts, each a name with its fields, in insertion order.
///
/// # Errors
///
/// - The errors of `to_bytes` of a map.
/// - `InvalidLoadFactor`: the load factor of the fields of a part isn't in the range (0, 1].
pub fn archive(alloc: Global, parts: &[(&str, Fields<'_>)]) -> Result<Vec<u8>, WriteError<NoMemory>>
    ensures whole { MatchResult result
        (λ message. IsMessageOf parts.now message.items)
        (MessageFails parts.now) }
    ensures represents { IfOk result (λ message.
        IsMessage message.items × Represents message.items parts.now) }
{
    let list: MapPairs<'_, &str, Fields<'_>> = MapPairs::new(parts);
    to_bytes(alloc, &list)
}

/// Returns the number that a lookup of the field finds in a map of fields.
fn field_number(fields: ArchivedHashMap<'_, Text, u32>, field: &str) -> Option<u32>
    ensures found { result ≡ option_map (number_at w32 (map_bytes fields.entry))
        (value_found number_spec field.now (map_bytes fields.entry) (map_pos fields.entry)) }
    ensures listed { (factor : ℕ × ℕ) (list : FieldList)
        → FieldsRepresent factor (map_bytes fields.entry) (map_pos fields.entry) list
        → result ≡ number_in field.now list }
{
    lookups_find_listed::<&str, u32, Text, u32, FxHasher64, Narrow>();
    Some(fields.get(&field)?.to_native())
}

/// Validates a message, and returns the position of the fields that a lookup of the part finds.
fn pos_of_part(message: &[u8], part: &str) -> Result<Option<u64>, VerifyError>
    ensures checked { MatchResult result (λ _. IsMessage message.now)
        (ValidationFails message.now) }
    ensures accepts { IsMessage message.now → IsOk result }
    ensures viewable { IfOk result (λ found. IfSome found (IsFields message.now)) }
    ensures at { IfOk result (λ found. IfSome found (IsPartsPos message.now)) }
    ensures found { IfOk result (λ found. found ≡ fields_found part.now message.now) }
    ensures first { IfOk result (FindsFirstPart message.now part.now) }
    ensures listed { (parts : Parts) → Represents message.now parts
        → IfOk result (λ found. ArePartsFields message.now part.now parts found) }
{
    lookups_find_listed::<&str, Fields<'_>, Text, HashMapOf<Text, u32>, FxHasher64, Narrow>();
    let map = ArchivedHashMap::of(access::<HashMapOf<Text, HashMapOf<Text, u32>>>(message)?);
    match map.get(&part) {
        Some(fields) => Ok(Some(fields.pos())),
        None => Ok(None),
    }
}

/// Validates a message, and returns the number of a field of a part.
///
/// The part and the field are those that lookups find.
/// In the message of a list, they are the first part and the first field with these names.
/// It is `None` if a lookup returns `None`.
///
/// # Errors
///
/// The same as for `access`.
pub fn number_of(message: &[u8], part: &str, field: &str) -> Result<Option<u32>, VerifyError>
    ensures checked { MatchResult result (λ _. IsMessage message.now)
        (ValidationFails message.now) }
    ensures accepts { IsMessage message.now → IsOk result }
    ensures found { IfOk result (λ number. number
        ≡ option_map (number_at w32 message.now) (number_found part.now field.now message.now)) }
    ensures listed { (parts : Parts) → Represents message.now parts
        → IfOk result (λ found. found ≡ first_number part.now field.now parts) }
{
    match pos_of_part(message, part)? {
        Some(pos) => Ok(field_number(ArchivedHashMap::of(View::new(message, pos)), field)),
        None => Ok(None),
    }
}

/// Validates a message, and overwrites the number of a field of a part in place.
///
/// The part and the field are those that `number_of` finds.
/// Returns `false`, and changes no byte, if a lookup returns `None`.
/// Otherwise it returns `true`, and changes only the bytes of the number. The message stays valid.
///
/// # Errors
///
/// The same as for `access`; no byte is changed then.
pub fn set_number(
    message: &mut [u8],
    part: &str,
    field: &str,
    number: u32,
) -> Result<bool, VerifyError>
    ensures checked { MatchResult result (λ _. IsMessage message.old)
        (λ e. ValidationFails message.old e × (message.new ≡ message.old)) }
    ensures accepts { IsMessage message.old → IsOk result }
    ensures written { IfOk result
        (WritesNumber part.now field.now number message.old message.new) }
    ensures kept { IfOk result (λ _. IsMessage message.new) }
    ensures listed { (parts : Parts) → Represents message.old parts
        → IfOk result (SetsNumber part.now field.now number parts message.new) }
{
    nested_writes_keep_maps::<Text, HashMapOf<Text, u32>, FxHasher64, Narrow>();
    nested_writes_represent::<
        &str,
        &str,
        Fields<'_>,
        Text,
        HashMapOf<Text, u32>,
        FxHasher64,
        Narrow,
    >();
    match pos_of_part(&*message, part)? {
        Some(pos) => Ok(set_value_of::<&str, Text, u32, FxHasher64, Narrow>(
            message, pos, &field, number,
        )),
        None => Ok(false),
    }
}
