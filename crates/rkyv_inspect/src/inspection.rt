//! Inspections of archives of all kinds, types and widths.
ghost use Rattle.rkyv_base.specs.{entry_spec};
ghost use Rattle.rkyv_collections.specs.{map_spec};
ghost use Rattle.rkyv_index.specs.{index_spec};
ghost use Rattle.rkyv_inspect.specs.{RegionsCover, Validates, ValidatesContents, ValidatesKeys};
ghost use Rattle.rkyv_inspect.specs.{ValidatesValues, root_spec};

use crate::errors::InspectError;
use crate::fields::Field;
use crate::index_regions::index_regions;
use crate::index_summary::index_summary;
use crate::map_regions::map_regions;
use crate::map_summary::map_summary;
use crate::regions::Region;
use crate::summary::Summary;
use rkyv_base::{Narrow, Text, Wide, access_in};
use rkyv_collections::HashMapOf;
use rkyv_container::{Contents, ItemType, Kind, Width};
use rkyv_index::{IndexMapOf, IndexWidth};
use rkyv_keys::KeyElement;
use rkyv_scan::FxHasher64;
use std::alloc::Global;

/// The inspection of a valid archive.
#[derive(Debug, Drop)]
pub struct Inspection {
    /// The kind of the collection, the types of its keys and values, and its width.
    pub contents: Contents,
    /// The values of its header, and the lookups of all keys.
    pub summary: Summary,
    /// Its bytes, field by field.
    pub regions: Vec<Region>,
}

fn inspect_hash_map<K: KeyElement + Field, V: Field, W: IndexWidth>(
    alloc: Global,
    archive: &[u8],
    contents: Contents,
    limit: u64,
) -> Result<Inspection, InspectError>
    ensures regions { RegionsCover archive.now result }
    ensures validates { Validates W.LIMIT (map_spec W.word K.spec V.spec) archive.now result }
{
    let root = access_in::<W, HashMapOf<K, V, FxHasher64, W>>(archive)?;
    let summary = map_summary(alloc, root, limit)?;
    let regions = map_regions(alloc, root)?;
    Ok(Inspection {
        contents,
        summary,
        regions,
    })
}

fn inspect_index_map<K: KeyElement + Field, V: Field, W: IndexWidth>(
    alloc: Global,
    archive: &[u8],
    contents: Contents,
    limit: u64,
) -> Result<Inspection, InspectError>
    ensures regions { RegionsCover archive.now result }
    ensures validates { Validates W.LIMIT (index_spec W.word (entry_spec K.spec V.spec))
        archive.now result }
{
    let root = access_in::<W, IndexMapOf<K, V, FxHasher64, W>>(archive)?;
    let summary = index_summary(alloc, root, limit)?;
    let regions = index_regions(alloc, root)?;
    Ok(Inspection {
        contents,
        summary,
        regions,
    })
}

/// Inspects the archive of a map with keys and values of these types. A set is such a map too.
fn inspect_kind<K: KeyElement + Field, V: Field, W: IndexWidth>(
    alloc: Global,
    archive: &[u8],
    contents: Contents,
    limit: u64,
) -> Result<Inspection, InspectError>
    ensures regions { RegionsCover archive.now result }
    ensures validates { Validates W.LIMIT (root_spec contents.kind W.word K.spec V.spec)
        archive.now result }
{
    match contents.kind {
        Kind::HashMap => inspect_hash_map::<K, V, W>(alloc, archive, contents, limit),
        Kind::HashSet => inspect_hash_map::<K, V, W>(alloc, archive, contents, limit),
        Kind::IndexMap => inspect_index_map::<K, V, W>(alloc, archive, contents, limit),
        Kind::IndexSet => inspect_index_map::<K, V, W>(alloc, archive, contents, limit),
    }
}

fn inspect_keys<K: KeyElement + Field, W: IndexWidth>(
    alloc: Global,
    archive: &[u8],
    contents: Contents,
    limit: u64,
) -> Result<Inspection, InspectError>
    ensures regions { RegionsCover archive.now result }
    ensures validates { ValidatesValues W.word W.LIMIT contents K.spec archive.now result }
{
    match (contents.kind, contents.value) {
        (_, ItemType::Unit) => inspect_kind::<K, (), W>(alloc, archive, contents, limit),
        (Kind::HashSet | Kind::IndexSet, other) => Err(InspectError::Unsupported(other)),
        (_, ItemType::U32) => inspect_kind::<K, u32, W>(alloc, archive, contents, limit),
        (_, ItemType::U64) => inspect_kind::<K, u64, W>(alloc, archive, contents, limit),
        (_, ItemType::Text) => inspect_kind::<K, Text<W>, W>(alloc, archive, contents, limit),
        (_, other) => Err(InspectError::Unsupported(other)),
    }
}

fn inspect_width<W: IndexWidth>(
    alloc: Global,
    archive: &[u8],
    contents: Contents,
    limit: u64,
) -> Result<Inspection, InspectError>
    ensures regions { RegionsCover archive.now result }
    ensures validates { ValidatesKeys W.word W.LIMIT contents archive.now result }
{
    match contents.key {
        ItemType::U32 => inspect_keys::<u32, W>(alloc, archive, contents, limit),
        ItemType::U64 => inspect_keys::<u64, W>(alloc, archive, contents, limit),
        ItemType::Text => inspect_keys::<Text<W>, W>(alloc, archive, contents, limit),
        other => Err(InspectError::Unsupported(other)),
    }
}

/// Validates an archive, and returns its summary and its regions.
///
/// `lookups` is `None` if the lookups of all keys read more than `limit` strides of sixteen control
/// bytes. Not proved: they stop then, so the time is bounded in an untrusted archive too.
///
/// # Errors
///
/// - `Unsupported`: the keys aren't `u32`, `u64` or text, or the values aren't these or unit. The
///   values of a set must be unit. Neither `f32` nor `f64` is supported.
/// - `Invalid`: the bytes aren't a valid archive of this collection.
/// - `Memory`: an allocation failed.
///
/// # Examples
///
/// ```rust
/// // Returns the number of keys that a lookup of their own doesn't find, if it could be counted.
/// fn misplaced(
///     alloc: Global,
///     archive: &[u8],
///     contents: Contents,
/// ) -> Result<Option<usize>, InspectError> {
///     let inspection = inspect(alloc, archive, contents, 1_000_000)?;
///     let lookups = inspection.summary.lookups.as_ref();
///     Ok(lookups.map(|lookups| lookups.misplaced))
/// }
///
/// let found = misplaced(rt.alloc(), &MISPLACED, numbers()).ok();
/// assert_eq!(rt; found, Some(Some(1)));
/// ```
pub fn inspect(
    alloc: Global,
    archive: &[u8],
    contents: Contents,
    limit: u64,
) -> Result<Inspection, InspectError>
    ensures regions { RegionsCover archive.now result }
    ensures validates { ValidatesContents contents archive.now result }
{
    match contents.width {
        Width::Narrow => inspect_width::<Narrow>(alloc, archive, contents, limit),
        Width::Wide => inspect_width::<Wide>(alloc, archive, contents, limit),
    }
}
