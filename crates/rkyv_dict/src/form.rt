//! The form of a dictionary's archive, and its keys.
//!
//! A form is a kind, integers or strings, and a width.

/// The type of keys and values.
#[derive(Clone, Copy, Debug, PartialEq, Eq)]
pub enum Kind {
    /// Integers of 32 bits.
    Num,
    /// Strings.
    Text,
}

/// The width of the positions and counts of an archive.
#[derive(Clone, Copy, Debug, PartialEq, Eq)]
pub enum ArchiveWidth {
    /// 32 bits.
    Bits32,
    /// 64 bits.
    Bits64,
}

/// The form of an archive: a map whose keys and values have the kind, in the width.
#[derive(Clone, Copy, Debug, PartialEq, Eq)]
pub struct Form {
    /// The type of keys and values.
    pub kind: Kind,
    /// The width of positions and counts.
    pub bits: ArchiveWidth,
}

/// The key of a lookup.
#[derive(Clone, Copy, Debug, PartialEq, Eq)]
pub enum Key<'a> {
    /// A key of a map of integers.
    Number(u32),
    /// A key of a map of strings.
    Text(&'a str),
}
