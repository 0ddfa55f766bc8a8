//! Archives that are opened at one type, so that the bounds of `access` are proved once.
ghost use Rattle.std.specs.Prelude.{IfOk};
ghost use Rattle.rkyv_base.specs.{Viewable, archive_in, pos_in};

use rkyv_base::access::access;
use rkyv_base::{ArchiveSeal, HasSpec, Text, VerifyError, access_mut};
use rkyv_collections::{ArchivedHashMap, ArchivedHashSet, HashMapOf, HashSetOf};

pub(crate) type Numbers = HashMapOf<u32, u32>;

pub(crate) type Small = HashMapOf<i8, i8>;

pub(crate) type Nested = HashMapOf<i8, Small>;

pub(crate) type Texts = HashMapOf<Text, Text>;

/// Validates an archive, and returns its map of `i8` to `i8`.
pub(crate) fn small_map(bytes: &[u8]) -> Result<ArchivedHashMap<'_, i8, i8>, VerifyError> {
    Ok(ArchivedHashMap::of(access::<Small>(bytes)?))
}

/// Validates an archive of a map of `i8` to `i8`, and returns the position of the map.
pub(crate) fn small_pos(bytes: &[u8]) -> Result<u64, VerifyError>
    ensures { IfOk result (Viewable ⟦<Small as HasSpec>⟧.spec bytes.now) }
{
    Ok(access::<Small>(bytes)?.pos())
}

/// Validates an archive, and returns its map of `i8` to maps of `i8` to `i8`.
pub(crate) fn nested_map(bytes: &[u8]) -> Result<ArchivedHashMap<'_, i8, Small>, VerifyError> {
    Ok(ArchivedHashMap::of(access::<Nested>(bytes)?))
}

/// Validates an archive, and returns its set of `u8`.
pub(crate) fn key_set(bytes: &[u8]) -> Result<ArchivedHashSet<'_, u8>, VerifyError> {
    Ok(ArchivedHashSet::of(access::<HashSetOf<u8>>(bytes)?))
}

/// Validates an archive, and returns its map of texts to texts.
pub(crate) fn text_map(bytes: &[u8]) -> Result<ArchivedHashMap<'_, Text, Text>, VerifyError> {
    Ok(ArchivedHashMap::of(access::<Texts>(bytes)?))
}

/// Validates an archive of numbers, and returns a seal of its map.
pub(crate) fn number_seal(bytes: &mut [u8]) -> Result<ArchiveSeal<'_, Numbers>, VerifyError>
    ensures { IfOk result (λ s. Viewable ⟦<Numbers as HasSpec>⟧.spec (archive_in s) (pos_in s)) }
{
    access_mut::<Numbers>(bytes)
}

/// Does the same with a map of `i8` to `i8`.
pub(crate) fn small_seal(bytes: &mut [u8]) -> Result<ArchiveSeal<'_, Small>, VerifyError>
    ensures { IfOk result (λ s. Viewable ⟦<Small as HasSpec>⟧.spec (archive_in s) (pos_in s)) }
{
    access_mut::<Small>(bytes)
}

/// Does the same with a map of texts to texts.
pub(crate) fn text_seal(bytes: &mut [u8]) -> Result<ArchiveSeal<'_, Texts>, VerifyError>
    ensures { IfOk result (λ s. Viewable ⟦<Texts as HasSpec>⟧.spec (archive_in s) (pos_in s)) }
{
    access_mut::<Texts>(bytes)
}

/// Returns whether the value of a key is `text`.
pub(crate) fn is_text(bytes: &[u8], key: &str, text: &str) -> Result<Option<bool>, VerifyError> {
    match text_map(bytes)?.get(&key) {
        Some(value) => Ok(Some(value.as_str() == text)),
        None => Ok(None),
    }
}
