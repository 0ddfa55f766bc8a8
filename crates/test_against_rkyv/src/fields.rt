//! The texts of keys and values.
use crate::errors::{LineError, Malformed};
use std::alloc::{AllocError, Global};
use std::str::FromStr;

/// A type of keys or values of a line.
pub trait Field: Sized {
    /// Returns the value of a text.
    fn parse(alloc: Global, text: &str) -> Result<Self, LineError>;
}

/// A type of keys of a line.
pub trait KeyField: Field {
    /// Returns a key that is looked up besides the keys of the entries.
    fn probe(alloc: Global) -> Result<Self, AllocError>;
}

/// Returns the number of a text.
pub fn number<N: FromStr>(text: &str) -> Result<N, Malformed>
where
    N::Err: Drop,
{
    match text.parse::<N>() {
        Ok(number) => Ok(number),
        Err(_) => Err(Malformed::Number),
    }
}

impl Field for u8 {
    fn parse(_alloc: Global, text: &str) -> Result<u8, LineError> {
        Ok(number(text)?)
    }
}

impl Field for u16 {
    fn parse(_alloc: Global, text: &str) -> Result<u16, LineError> {
        Ok(number(text)?)
    }
}

impl Field for u32 {
    fn parse(_alloc: Global, text: &str) -> Result<u32, LineError> {
        Ok(number(text)?)
    }
}

impl Field for u64 {
    fn parse(_alloc: Global, text: &str) -> Result<u64, LineError> {
        Ok(number(text)?)
    }
}

impl Field for i8 {
    fn parse(_alloc: Global, text: &str) -> Result<i8, LineError> {
        Ok(number(text)?)
    }
}

impl Field for i16 {
    fn parse(_alloc: Global, text: &str) -> Result<i16, LineError> {
        Ok(number(text)?)
    }
}

impl Field for i32 {
    fn parse(_alloc: Global, text: &str) -> Result<i32, LineError> {
        Ok(number(text)?)
    }
}

impl Field for i64 {
    fn parse(_alloc: Global, text: &str) -> Result<i64, LineError> {
        Ok(number(text)?)
    }
}

impl Field for bool {
    fn parse(_alloc: Global, text: &str) -> Result<bool, LineError> {
        match text {
            "true" => Ok(true),
            "false" => Ok(false),
            _ => Err(LineError::Malformed(Malformed::Value)),
        }
    }
}

impl Field for char {
    fn parse(_alloc: Global, text: &str) -> Result<char, LineError> {
        let mut chars = text.chars();
        match (chars.next(), chars.next()) {
            (Some(value), None) => Ok(value),
            _ => Err(LineError::Malformed(Malformed::Value)),
        }
    }
}

impl Field for String {
    /// Returns the text, or an empty one for two quotes.
    fn parse(alloc: Global, text: &str) -> Result<String, LineError> {
        match text {
            "\"\"" => Ok(String::new(alloc)),
            _ => Ok(String::from_str(alloc, text)?),
        }
    }
}

impl KeyField for u32 {
    fn probe(_alloc: Global) -> Result<u32, AllocError> {
        Ok(4_000_000_007)
    }
}

impl KeyField for u64 {
    fn probe(_alloc: Global) -> Result<u64, AllocError> {
        Ok(4_000_000_000_000_000_007)
    }
}

impl KeyField for i16 {
    fn probe(_alloc: Global) -> Result<i16, AllocError> {
        Ok(-30_007)
    }
}

impl KeyField for i64 {
    fn probe(_alloc: Global) -> Result<i64, AllocError> {
        Ok(-4_000_000_000_000_000_007)
    }
}

impl KeyField for String {
    fn probe(alloc: Global) -> Result<String, AllocError> {
        String::from_str(alloc, "a text with blanks")
    }
}
