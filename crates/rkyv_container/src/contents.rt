//! The contents of a container: a kind of collection, the types of its items, and its width.
//!
//! Each has a code of one byte in the header. `code` and `from_code` convert it.
//!
//! | | Codes |
//! |---|---|
//! | `Kind` | `HashMap` 1, `HashSet` 2, `IndexMap` 3, `IndexSet` 4 |
//! | `ItemType` | `Unit` 1, `Bool` 2, `Char` 3, `Text` (UTF-8) 4, `Bytes` (any) 5 |
//! | | `U8` 17, `U16` 18, `U32` 20, `U64` 24: 16 and the size in bytes |
//! | | `I8` 33, `I16` 34, `I32` 36, `I64` 40: 32 and the size in bytes |
//! | | `F32` 52, `F64` 56: 48 and the size in bytes |
//! | `Width` | `Narrow` 4, `Wide` 8: the size of a word in bytes |
//!
//! No collection has keys of the types `F32` and `F64`. A header with such a key type is read.

ghost use Rattle.std.specs.Prelude.{◌≡◌, MatchOption, Some};
ghost use Rattle.rkyv_container.specs.{IsItemCode, IsKindCode, IsWidthCode, item_code, kind_code};
ghost use Rattle.rkyv_container.specs.{kind_text, type_text, width_code, width_text};

use std::fmt;

/// The kind of an archived collection.
#[derive(Clone, Copy, Debug, PartialEq, Eq)]
pub enum Kind {
    HashMap,
    HashSet,
    IndexMap,
    IndexSet,
}

/// The type of the keys or of the values of a collection.
#[derive(Clone, Copy, Debug, PartialEq, Eq)]
pub enum ItemType {
    /// `()`, the type of the values of a set.
    Unit,
    Bool,
    Char,
    Text,
    Bytes,
    U8,
    U16,
    U32,
    U64,
    I8,
    I16,
    I32,
    I64,
    F32,
    F64,
}

/// The width of an archive.
#[derive(Clone, Copy, Debug, PartialEq, Eq)]
pub enum Width {
    /// The width of archives of up to 4,294,967,295 bytes.
    Narrow,
    /// The width of archives of up to 2^63 - 1 bytes.
    Wide,
}

/// The contents of a container. No function requires that the values of a set are `Unit`.
#[derive(Clone, Copy, Debug, PartialEq, Eq)]
pub struct Contents {
    pub kind: Kind,
    pub key: ItemType,
    pub value: ItemType,
    pub width: Width,
}

impl Kind {
    /// Returns the code of a kind.
    pub fn code(self) -> u8
        ensures { result ≡ kind_code self }
    {
        match self {
            Kind::HashMap => 1,
            Kind::HashSet => 2,
            Kind::IndexMap => 3,
            Kind::IndexSet => 4,
        }
    }

    /// Returns the kind with this code, or `None` if no kind has it.
    pub fn from_code(code: u8) -> Option<Kind>
        ensures { MatchOption result (¬ IsKindCode code) (λ kind. kind_code kind ≡ code) }
    {
        match code {
            1 => Some(Kind::HashMap),
            2 => Some(Kind::HashSet),
            3 => Some(Kind::IndexMap),
            4 => Some(Kind::IndexSet),
            _ => None,
        }
    }
}

impl ItemType {
    /// Returns the code of a type.
    pub fn code(self) -> u8
        ensures { result ≡ item_code self }
    {
        match self {
            ItemType::Unit => 0x01,
            ItemType::Bool => 0x02,
            ItemType::Char => 0x03,
            ItemType::Text => 0x04,
            ItemType::Bytes => 0x05,
            ItemType::U8 => 0x11,
            ItemType::U16 => 0x12,
            ItemType::U32 => 0x14,
            ItemType::U64 => 0x18,
            ItemType::I8 => 0x21,
            ItemType::I16 => 0x22,
            ItemType::I32 => 0x24,
            ItemType::I64 => 0x28,
            ItemType::F32 => 0x34,
            ItemType::F64 => 0x38,
        }
    }

    /// Returns the type with this code, or `None` if no type has it.
    pub fn from_code(code: u8) -> Option<ItemType>
        ensures { MatchOption result (¬ IsItemCode code) (λ item. item_code item ≡ code) }
    {
        match code {
            0x01 => Some(ItemType::Unit),
            0x02 => Some(ItemType::Bool),
            0x03 => Some(ItemType::Char),
            0x04 => Some(ItemType::Text),
            0x05 => Some(ItemType::Bytes),
            0x11 => Some(ItemType::U8),
            0x12 => Some(ItemType::U16),
            0x14 => Some(ItemType::U32),
            0x18 => Some(ItemType::U64),
            0x21 => Some(ItemType::I8),
            0x22 => Some(ItemType::I16),
            0x24 => Some(ItemType::I32),
            0x28 => Some(ItemType::I64),
            0x34 => Some(ItemType::F32),
            0x38 => Some(ItemType::F64),
            _ => None,
        }
    }
}

impl Width {
    /// Returns the code of a width.
    pub fn code(self) -> u8
        ensures { result ≡ width_code self }
    {
        match self {
            Width::Narrow => 4,
            Width::Wide => 8,
        }
    }

    /// Returns the width with this code, or `None` if no width has it.
    pub fn from_code(code: u8) -> Option<Width>
        ensures { MatchOption result (¬ IsWidthCode code) (λ width. width_code width ≡ code) }
    {
        match code {
            4 => Some(Width::Narrow),
            8 => Some(Width::Wide),
            _ => None,
        }
    }
}

impl fmt::Display for Kind {
    ghost output = { λ kind. Some (kind_text kind) };

    fn fmt<W: fmt::Write>(&self, f: &mut fmt::Formatter<W>) -> fmt::Result {
        match self {
            Kind::HashMap => write!(f, "hash map"),
            Kind::HashSet => write!(f, "hash set"),
            Kind::IndexMap => write!(f, "index map"),
            Kind::IndexSet => write!(f, "index set"),
        }
    }
}

impl fmt::Display for ItemType {
    ghost output = { λ item. Some (type_text item) };

    fn fmt<W: fmt::Write>(&self, f: &mut fmt::Formatter<W>) -> fmt::Result {
        match self {
            ItemType::Unit => write!(f, "()"),
            ItemType::Bool => write!(f, "bool"),
            ItemType::Char => write!(f, "char"),
            ItemType::Text => write!(f, "text"),
            ItemType::Bytes => write!(f, "bytes"),
            ItemType::U8 => write!(f, "u8"),
            ItemType::U16 => write!(f, "u16"),
            ItemType::U32 => write!(f, "u32"),
            ItemType::U64 => write!(f, "u64"),
            ItemType::I8 => write!(f, "i8"),
            ItemType::I16 => write!(f, "i16"),
            ItemType::I32 => write!(f, "i32"),
            ItemType::I64 => write!(f, "i64"),
            ItemType::F32 => write!(f, "f32"),
            ItemType::F64 => write!(f, "f64"),
        }
    }
}

impl fmt::Display for Width {
    ghost output = { λ width. Some (width_text width) };

    fn fmt<W: fmt::Write>(&self, f: &mut fmt::Formatter<W>) -> fmt::Result {
        match self {
            Width::Narrow => write!(f, "narrow"),
            Width::Wide => write!(f, "wide"),
        }
    }
}
