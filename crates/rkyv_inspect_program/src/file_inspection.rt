//! Inspections of the bytes of a file, which are a container or a bare archive.
ghost use Rattle.std.specs.Prelude.{IfOk, ◌≡◌};
ghost use Rattle.rkyv_inspect_program.specs.{HasArchive, HasRegions};

use crate::errors::{ProgramError, container_error, inspect_error};
use rkyv_container::{Contents, Header, open};
use rkyv_inspect::{Inspection, inspect};
use std::alloc::Global;

/// The limit of the strides that the lookups of all keys read. Past it, they are left out.
const STRIDES: u64 = 16_777_216;

/// The inspection of the bytes of a file.
#[derive(Debug, Drop)]
pub struct FileInspection<'a> {
    /// The header of a container, or `None` for a bare archive.
    pub header: Option<Header>,
    /// The archive.
    pub archive: &'a [u8],
    /// The inspection of the archive.
    pub inspection: Inspection,
}

/// Returns the inspection of a bare archive with these contents, or of a container if `None`.
pub fn inspect_bytes<'a>(
    alloc: Global,
    file: &str,
    bytes: &'a [u8],
    contents: Option<Contents>,
) -> Result<FileInspection<'a>, ProgramError>
    ensures archive { IfOk result (HasArchive contents bytes.now) }
    ensures regions { IfOk result HasRegions }
{
    match contents {
        Some(contents) => inspect_archive(alloc, file, None, bytes, contents),
        None => match open(bytes) {
            Ok((header, archive)) => {
                inspect_archive(alloc, file, Some(header), archive, header.contents)
            }
            Err(error) => Err(container_error(alloc, file, error)),
        },
    }
}

fn inspect_archive<'a>(
    alloc: Global,
    file: &str,
    header: Option<Header>,
    archive: &'a [u8],
    contents: Contents,
) -> Result<FileInspection<'a>, ProgramError>
    ensures archive { IfOk result (λ found. found.archive ≡ archive.entry) }
    ensures header { IfOk result (λ found. found.header ≡ header) }
    ensures regions { IfOk result HasRegions }
{
    match inspect(alloc, archive, contents, STRIDES) {
        Ok(inspection) => Ok(FileInspection {
            header,
            archive,
            inspection,
        }),
        Err(error) => Err(inspect_error(alloc, file, error)),
    }
}
