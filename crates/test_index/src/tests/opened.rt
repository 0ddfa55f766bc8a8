//! Archives that are opened at one type, so that the bounds of `access` are proved once.
ghost use Rattle.std.specs.Prelude.{IfOk};
ghost use Rattle.rkyv_base.specs.{Viewable, archive_in, pos_in};

use rkyv_base::access::access;
use rkyv_base::{ArchiveSeal, HasSpec, VerifyError, access_in, access_mut};
use rkyv_index::{ArchivedIndexMap, ArchivedIndexSet, IndexMapOf, IndexSetOf, IndexWidth};
use rkyv_scan::FxHasher64;

pub(crate) type Small = IndexMapOf<i8, i8>;

/// Validates an archive, and returns its index map of `i8` to `i8`.
pub(crate) fn small_map(bytes: &[u8]) -> Result<ArchivedIndexMap<'_, i8, i8>, VerifyError> {
    Ok(ArchivedIndexMap::of(access::<Small>(bytes)?))
}

/// Validates an archive of the width `W`, and returns its index map of `i8` to `i8`.
pub(crate) fn map_in<W: IndexWidth>(
    bytes: &[u8],
) -> Result<ArchivedIndexMap<'_, i8, i8, FxHasher64, W>, VerifyError> {
    Ok(ArchivedIndexMap::of(access_in::<W, IndexMapOf<i8, i8, FxHasher64, W>>(bytes)?))
}

/// Validates an archive, and returns its index set of `i8`.
pub(crate) fn key_set(bytes: &[u8]) -> Result<ArchivedIndexSet<'_, i8>, VerifyError> {
    Ok(ArchivedIndexSet::of(access::<IndexSetOf<i8>>(bytes)?))
}

/// Validates an archive, and returns a seal of its index map of `i8` to `i8`.
pub(crate) fn small_seal(bytes: &mut [u8]) -> Result<ArchiveSeal<'_, Small>, VerifyError>
    ensures { IfOk result (λ s. Viewable ⟦<Small as HasSpec>⟧.spec (archive_in s) (pos_in s)) }
{
    access_mut::<Small>(bytes)
}
