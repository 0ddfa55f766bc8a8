//! The contents of the archives of these tests.

use rkyv_container::{Contents, ItemType, Kind, Width};

/// Returns the contents of a narrow archive.
pub(crate) fn narrow(kind: Kind, key: ItemType, value: ItemType) -> Contents {
    Contents {
        kind,
        key,
        value,
        width: Width::Narrow,
    }
}

/// Returns the contents of a wide archive.
pub(crate) fn wide(kind: Kind, key: ItemType, value: ItemType) -> Contents {
    Contents {
        kind,
        key,
        value,
        width: Width::Wide,
    }
}

/// Returns the contents of `ONE_NUMBER`.
pub(crate) fn numbers() -> Contents {
    narrow(Kind::HashMap, ItemType::U32, ItemType::U32)
}
