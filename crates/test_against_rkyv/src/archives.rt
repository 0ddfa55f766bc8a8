//! Comparisons of the archives of all kinds.
use crate::errors::{LineError, Malformed};
use crate::kinds::{Collection, KeyType, Kind, PointerWidth, ValueType};
use crate::line::Line;
use crate::{index_maps, index_sets, maps, nested_maps, sets};
use rkyv_base::{Narrow, Wide, Width};
use rkyv_index::IndexWidth;
use std::alloc::Global;

/// Compares a hash map.
fn check_map<W: Width>(alloc: Global, line: &Line<'_>) -> Result<(), LineError> {
    match (line.kind.key, line.kind.value) {
        (KeyType::U32, ValueType::U32) => maps::check::<W, u32, u32>(alloc, line),
        (KeyType::U64, ValueType::U64) => maps::check::<W, u64, u64>(alloc, line),
        (KeyType::U32, ValueType::U64) => maps::check::<W, u32, u64>(alloc, line),
        (KeyType::I16, ValueType::U8) => maps::check::<W, i16, u8>(alloc, line),
        (KeyType::I64, ValueType::I32) => maps::check::<W, i64, i32>(alloc, line),
        (KeyType::Text, ValueType::U32) => maps::check::<W, String, u32>(alloc, line),
        (KeyType::Text, ValueType::U64) => maps::check::<W, String, u64>(alloc, line),
        (KeyType::Text, ValueType::Text) => maps::check::<W, String, String>(alloc, line),
        (KeyType::Text, ValueType::Map) => nested_maps::check::<W>(alloc, line),
        _ => Err(LineError::Malformed(Malformed::Types)),
    }
}

/// Compares a hash set.
fn check_set<W: Width>(alloc: Global, line: &Line<'_>) -> Result<(), LineError> {
    match (line.kind.key, line.kind.value) {
        (KeyType::U32, ValueType::Absent) => sets::check::<W, u32>(alloc, line),
        (KeyType::U64, ValueType::Absent) => sets::check::<W, u64>(alloc, line),
        (KeyType::Text, ValueType::Absent) => sets::check::<W, String>(alloc, line),
        _ => Err(LineError::Malformed(Malformed::Types)),
    }
}

/// Compares an index map.
fn check_index_map<W: IndexWidth>(alloc: Global, line: &Line<'_>) -> Result<(), LineError> {
    match (line.kind.key, line.kind.value) {
        (KeyType::U32, ValueType::U32) => index_maps::check::<W, u32, u32>(alloc, line),
        (KeyType::U64, ValueType::U64) => index_maps::check::<W, u64, u64>(alloc, line),
        (KeyType::U32, ValueType::U64) => index_maps::check::<W, u32, u64>(alloc, line),
        (KeyType::I16, ValueType::U8) => index_maps::check::<W, i16, u8>(alloc, line),
        (KeyType::I64, ValueType::I32) => index_maps::check::<W, i64, i32>(alloc, line),
        (KeyType::Text, ValueType::U32) => index_maps::check::<W, String, u32>(alloc, line),
        (KeyType::Text, ValueType::U64) => index_maps::check::<W, String, u64>(alloc, line),
        (KeyType::Text, ValueType::Text) => index_maps::check::<W, String, String>(alloc, line),
        _ => Err(LineError::Malformed(Malformed::Types)),
    }
}

/// Compares an index set.
fn check_index_set<W: IndexWidth>(alloc: Global, line: &Line<'_>) -> Result<(), LineError> {
    match (line.kind.key, line.kind.value) {
        (KeyType::U32, ValueType::Absent) => index_sets::check::<W, u32>(alloc, line),
        (KeyType::U64, ValueType::Absent) => index_sets::check::<W, u64>(alloc, line),
        (KeyType::Text, ValueType::Absent) => index_sets::check::<W, String>(alloc, line),
        _ => Err(LineError::Malformed(Malformed::Types)),
    }
}

/// Compares an archive of the width `W`.
fn check_in<W: IndexWidth>(alloc: Global, line: &Line<'_>) -> Result<(), LineError> {
    match line.kind.collection {
        Collection::Map => check_map::<W>(alloc, line),
        Collection::Set => check_set::<W>(alloc, line),
        Collection::IndexMap => check_index_map::<W>(alloc, line),
        Collection::IndexSet => check_index_set::<W>(alloc, line),
    }
}

/// Compares the archive of a line, and returns its kind.
///
/// # Errors
///
/// - `Malformed`: the line is malformed, or no supported collection has its types.
/// - `Archive`: the first difference.
/// - `Memory`: an allocation failed.
pub fn check_archive(alloc: Global, text: &str) -> Result<Kind, LineError> {
    let line = Line::parse(alloc, text)?;
    match line.kind.width {
        PointerWidth::Narrow => check_in::<Narrow>(alloc, &line)?,
        PointerWidth::Wide => check_in::<Wide>(alloc, &line)?,
    }
    Ok(line.kind)
}
