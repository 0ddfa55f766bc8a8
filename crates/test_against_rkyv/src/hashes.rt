//! Comparisons of hashes.
use crate::errors::{LineError, Malformed};
use crate::fields::Field;
use rkyv_dict::hex::read_hex;
use rkyv_keys::{ScalarKey, hash_value};
use rkyv_scan::FxHasher64;
use std::alloc::Global;
use std::fmt::{self, Display, Formatter, Write};

/// A type of hashed values.
#[derive(Clone, Copy, Debug, PartialEq, Eq)]
pub enum HashType {
    /// `u8`.
    U8,
    /// `u16`.
    U16,
    /// `u32`.
    U32,
    /// `u64`.
    U64,
    /// `i8`.
    I8,
    /// `i16`.
    I16,
    /// `i32`.
    I32,
    /// `i64`.
    I64,
    /// `bool`.
    Bool,
    /// `char`.
    Char,
    /// `()`.
    Unit,
    /// A text.
    Text,
    /// A pair of a `u32` and a text.
    Pair,
}

impl HashType {
    /// Returns the type of this name.
    fn named(name: &str) -> Result<HashType, Malformed> {
        match name {
            "u8" => Ok(HashType::U8),
            "u16" => Ok(HashType::U16),
            "u32" => Ok(HashType::U32),
            "u64" => Ok(HashType::U64),
            "i8" => Ok(HashType::I8),
            "i16" => Ok(HashType::I16),
            "i32" => Ok(HashType::I32),
            "i64" => Ok(HashType::I64),
            "bool" => Ok(HashType::Bool),
            "char" => Ok(HashType::Char),
            "()" => Ok(HashType::Unit),
            "text" => Ok(HashType::Text),
            "(u32, text)" => Ok(HashType::Pair),
            _ => Err(Malformed::Type),
        }
    }
}

impl Display for HashType {
    fn fmt<W: Write>(&self, f: &mut Formatter<W>) -> fmt::Result {
        f.write_str(match self {
            HashType::U8 => "u8",
            HashType::U16 => "u16",
            HashType::U32 => "u32",
            HashType::U64 => "u64",
            HashType::I8 => "i8",
            HashType::I16 => "i16",
            HashType::I32 => "i32",
            HashType::I64 => "i64",
            HashType::Bool => "bool",
            HashType::Char => "char",
            HashType::Unit => "()",
            HashType::Text => "text",
            HashType::Pair => "(u32, text)",
        })
    }
}

/// Returns the hash of a number, a `bool` or a `char`.
fn hash_of_scalar<N: Field + ScalarKey>(alloc: Global, text: &str) -> Result<u64, LineError> {
    let value = N::parse(alloc, text)?;
    Ok(hash_value::<N, FxHasher64>(&value))
}

/// Returns the hash of the unit value.
fn hash_of_unit(text: &str) -> Result<u64, LineError> {
    match text {
        "()" => Ok(hash_value::<(), FxHasher64>(&())),
        _ => Err(LineError::Malformed(Malformed::Value)),
    }
}

/// Returns the hash of a text.
fn hash_of_text(alloc: Global, text: &str) -> Result<u64, LineError> {
    let value = String::parse(alloc, text)?;
    Ok(hash_value::<String, FxHasher64>(&value))
}

/// Returns the hash of a pair in parentheses.
fn hash_of_pair(alloc: Global, text: &str) -> Result<u64, LineError> {
    let inner = text.strip_prefix('(').ok_or(Malformed::Pair)?;
    let inner = inner.strip_suffix(')').ok_or(Malformed::Pair)?;
    let (number, text) = inner.split_once(", ").ok_or(Malformed::Pair)?;
    let value = (u32::parse(alloc, number)?, String::parse(alloc, text)?);
    Ok(hash_value::<(u32, String), FxHasher64>(&value))
}

/// Returns the hash of the value of a text.
fn hash_of(alloc: Global, hash_type: HashType, text: &str) -> Result<u64, LineError> {
    match hash_type {
        HashType::U8 => hash_of_scalar::<u8>(alloc, text),
        HashType::U16 => hash_of_scalar::<u16>(alloc, text),
        HashType::U32 => hash_of_scalar::<u32>(alloc, text),
        HashType::U64 => hash_of_scalar::<u64>(alloc, text),
        HashType::I8 => hash_of_scalar::<i8>(alloc, text),
        HashType::I16 => hash_of_scalar::<i16>(alloc, text),
        HashType::I32 => hash_of_scalar::<i32>(alloc, text),
        HashType::I64 => hash_of_scalar::<i64>(alloc, text),
        HashType::Bool => hash_of_scalar::<bool>(alloc, text),
        HashType::Char => hash_of_scalar::<char>(alloc, text),
        HashType::Unit => hash_of_unit(text),
        HashType::Text => hash_of_text(alloc, text),
        HashType::Pair => hash_of_pair(alloc, text),
    }
}

/// Returns the hash of sixteen hexadecimal digits.
fn parse_hash(alloc: Global, text: &str) -> Result<u64, LineError> {
    let bytes = read_hex(alloc, text.as_bytes())?.ok_or(Malformed::Hash)?;
    match <[u8; 8]>::try_from(bytes.as_slice()) {
        Ok(bytes) => Ok(u64::from_be_bytes(bytes)),
        Err(_) => Err(LineError::Malformed(Malformed::Hash)),
    }
}

/// Compares the hash of a line, and returns the type of the value.
///
/// # Errors
///
/// - `Malformed`: the line is malformed.
/// - `Hash`: the value has another hash.
/// - `Memory`: an allocation failed.
pub fn check_hash(alloc: Global, text: &str) -> Result<HashType, LineError> {
    let (name, rest) = text.split_once('\t').ok_or(Malformed::Fields)?;
    let (value, hash) = rest.split_once('\t').ok_or(Malformed::Fields)?;
    let hash_type = HashType::named(name)?;
    let found = hash_of(alloc, hash_type, value)?;
    let given = parse_hash(alloc, hash)?;
    if found == given {
        return Ok(hash_type);
    }
    Err(LineError::Hash {
        hash_type,
        value: String::from_str(alloc, value)?,
        found,
        given,
    })
}
