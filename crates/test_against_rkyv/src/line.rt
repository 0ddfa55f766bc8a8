//! The lines of the file of archives.
use crate::errors::{Difference, LineError, Malformed};
use crate::fields::number;
use crate::kinds::{COLLECTIONS, KEY_TYPES, Kind, VALUE_TYPES, WIDTHS, named};
use rkyv_dict::hex::read_hex;
use std::alloc::Global;

/// A line: the entries of an archive, and its bytes.
#[derive(Drop)]
pub struct Line<'a> {
    /// The kind of the archive.
    pub kind: Kind,
    /// The number of entries.
    pub count: usize,
    /// The entries, separated by blanks.
    pub entries: &'a str,
    /// The bytes of the archive.
    pub bytes: Vec<u8>,
}

/// Returns the bytes of hexadecimal digits.
fn bytes_of(alloc: Global, digits: &str) -> Result<Vec<u8>, LineError> {
    match read_hex(alloc, digits.as_bytes())? {
        Some(bytes) => Ok(bytes),
        None => Err(LineError::Malformed(Malformed::Bytes)),
    }
}

/// Returns the next field of a line.
fn next_field<'a>(fields: &mut std::str::Split<'a, char>) -> Result<&'a str, Malformed> {
    fields.next().ok_or(Malformed::Fields)
}

impl<'a> Line<'a> {
    /// Returns the line of a text.
    ///
    /// # Errors
    ///
    /// - `Malformed`: the first field that is missing or malformed, or a field too many.
    /// - `Memory`: an allocation failed.
    pub fn parse(alloc: Global, text: &'a str) -> Result<Line<'a>, LineError> {
        let mut fields = text.split('\t');
        let kind = Kind {
            collection: named(COLLECTIONS, next_field(&mut fields)?, Malformed::Collection)?,
            key: named(KEY_TYPES, next_field(&mut fields)?, Malformed::Type)?,
            value: named(VALUE_TYPES, next_field(&mut fields)?, Malformed::Type)?,
            width: named(WIDTHS, next_field(&mut fields)?, Malformed::Width)?,
        };
        let count = next_field(&mut fields)?;
        let entries = next_field(&mut fields)?;
        let bytes = next_field(&mut fields)?;
        if fields.next().is_some() {
            return Err(LineError::Malformed(Malformed::Fields));
        }
        Ok(Line {
            kind,
            count: number(count)?,
            entries,
            bytes: bytes_of(alloc, bytes)?,
        })
    }

    /// Returns the result of the line: its first difference, with the kind.
    pub fn outcome(&self, checked: Result<(), Difference>) -> Result<(), LineError> {
        match checked {
            Ok(()) => Ok(()),
            Err(Difference::Memory(failure)) => Err(LineError::Memory(failure)),
            Err(difference) => Err(LineError::Archive {
                kind: self.kind,
                difference,
            }),
        }
    }
}
