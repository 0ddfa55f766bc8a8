//! The kinds of archives: collections, types and widths.
use crate::errors::Malformed;
use std::fmt::{self, Display, Formatter, Write};

/// A kind of collection.
#[derive(Clone, Copy, Debug, PartialEq, Eq)]
pub enum Collection {
    /// A hash map.
    Map,
    /// A hash set.
    Set,
    /// An index map.
    IndexMap,
    /// An index set.
    IndexSet,
}

/// A type of keys or items.
#[derive(Clone, Copy, Debug, PartialEq, Eq)]
pub enum KeyType {
    /// `i16`.
    I16,
    /// `i64`.
    I64,
    /// `u32`.
    U32,
    /// `u64`.
    U64,
    /// A text.
    Text,
}

/// A type of values.
#[derive(Clone, Copy, Debug, PartialEq, Eq)]
pub enum ValueType {
    /// No value, in a set.
    Absent,
    /// `u8`.
    U8,
    /// `i32`.
    I32,
    /// `u32`.
    U32,
    /// `u64`.
    U64,
    /// A text.
    Text,
    /// A hash map of `u32` to `u32`.
    Map,
}

/// A width of pointers.
#[derive(Clone, Copy, Debug, PartialEq, Eq)]
pub enum PointerWidth {
    /// 32 bits.
    Narrow,
    /// 64 bits.
    Wide,
}

/// The kind of an archive.
#[derive(Clone, Copy, Debug, PartialEq, Eq)]
pub struct Kind {
    /// The collection.
    pub collection: Collection,
    /// The type of the keys or items.
    pub key: KeyType,
    /// The type of the values.
    pub value: ValueType,
    /// The width of the pointers.
    pub width: PointerWidth,
}

/// The names of the collections.
pub const COLLECTIONS: &[(&str, Collection)] = &[
    ("map", Collection::Map),
    ("set", Collection::Set),
    ("index map", Collection::IndexMap),
    ("index set", Collection::IndexSet),
];

/// The names of the types of keys and items.
pub const KEY_TYPES: &[(&str, KeyType)] = &[
    ("i16", KeyType::I16),
    ("i64", KeyType::I64),
    ("u32", KeyType::U32),
    ("u64", KeyType::U64),
    ("text", KeyType::Text),
];

/// The names of the types of values: a hyphen for `Absent`.
pub const VALUE_TYPES: &[(&str, ValueType)] = &[
    ("-", ValueType::Absent),
    ("u8", ValueType::U8),
    ("i32", ValueType::I32),
    ("u32", ValueType::U32),
    ("u64", ValueType::U64),
    ("text", ValueType::Text),
    ("map u32 u32", ValueType::Map),
];

/// The names of the widths.
pub const WIDTHS: &[(&str, PointerWidth)] = &[
    ("narrow", PointerWidth::Narrow),
    ("wide", PointerWidth::Wide),
];

/// Returns the item of this name, or the error if there is none.
pub fn named<T: Copy>(rows: &[(&str, T)], name: &str, error: Malformed) -> Result<T, Malformed> {
    for (known, item) in rows {
        if *known == name {
            return Ok(*item);
        }
    }
    Err(error)
}

// Returns the name of an item, which has a row.
fn name_of<T: Copy + PartialEq>(rows: &[(&'static str, T)], item: T) -> &'static str {
    for (name, known) in rows {
        if *known == item {
            return *name;
        }
    }
    ""
}

impl Display for Kind {
    fn fmt<W: Write>(&self, f: &mut Formatter<W>) -> fmt::Result {
        let collection = name_of(COLLECTIONS, self.collection);
        write!(f, "{collection} {}", name_of(KEY_TYPES, self.key))?;
        if self.value != ValueType::Absent {
            write!(f, " {}", name_of(VALUE_TYPES, self.value))?;
        }
        write!(f, " {}", name_of(WIDTHS, self.width))
    }
}
