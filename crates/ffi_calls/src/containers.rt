//! Containers of archives: a header of 32 bytes, then the archive.
//!
//! `write_header` writes the header of an archive. `container_width` reads the width of a
//! container, and `open_container` finds its archive. None of them validates an archive.
//!
//! The contents of a container are given by the four codes in its header. `docs/FORMAT.md` lists
//! the codes.

ghost use Rattle.std.specs.Prelude.{length, MatchOption, ◌≡◌};
ghost use Rattle.ffi_calls.specs.{AreUnknown, ExplainsAs, ExplainsContainer, HasCodes, OpensAs};
ghost use Rattle.ffi_calls.specs.{OpensContainer, OpensOwn, OpensOwnCodes, ReadsWidth};
ghost use Rattle.ffi_calls.specs.{UpdatesContainer, WritesContainerHeader, container_width_by};

use crate::explanation::{Explanation, explain_container_error, explained};
use crate::status::{DONE, UNKNOWN_CODES, WRONG_LENGTH, container_status};
use rkyv_container::{Contents, HEADER_LEN, Header, ItemType, Kind, Width, fill_header, open_as};

/// The archive in a container, which is borrowed from it.
#[repr(C)]
pub struct Opened<'a> {
    /// The bytes of the archive.
    pub archive: &'a [u8],
}

/// The codes of a container's contents, as in its header.
#[repr(C)]
#[derive(Clone, Copy)]
pub struct Codes {
    /// The code of the kind of collection, from 1 to 4.
    pub kind: u8,
    /// The code of the type of the keys.
    pub key: u8,
    /// The code of the type of the values. It is 1 for a set.
    pub value: u8,
    /// The code of the width: 4 if it is narrow, 8 if it is wide.
    pub width: u8,
}

/// Returns the contents with these codes, or `None` if no contents have them.
fn contents_of(codes: Codes) -> Option<Contents>
    ensures { MatchOption result (AreUnknown codes) (HasCodes codes) }
{
    Some(Contents {
        kind: Kind::from_code(codes.kind)?,
        key: ItemType::from_code(codes.key)?,
        value: ItemType::from_code(codes.value)?,
        width: Width::from_code(codes.width)?,
    })
}

/// Returns whether a width is wide.
fn is_wide(width: Width) -> bool
    ensures { width ≡ container_width_by result }
{
    matches!(width, Width::Wide)
}

/// Opens the container with these contents, and stores its archive in `opened`.
///
/// # Errors
///
/// - The status of the first error of the container: 32 to 47. `opened` is unchanged then.
fn open_container_as<'a>(bytes: &'a [u8], contents: Contents, opened: &mut Opened<'a>) -> u32
    ensures status { OpensAs contents bytes.now opened.old result opened.new }
    ensures opens { OpensOwn contents bytes.now result }
{
    match open_as(bytes, contents) {
        Ok(archive) => {
            opened.archive = archive;
            DONE
        }
        Err(error) => container_status(&error),
    }
}

/// Opens the container with these contents, and returns its first error with its numbers.
fn explain_container_as(bytes: &[u8], contents: Contents) -> Explanation
    ensures { ExplainsAs contents bytes.now result }
{
    match open_as(bytes, contents) {
        Ok(_) => explained(DONE, 0, 0, 0),
        Err(error) => explain_container_error(&error),
    }
}

/// Writes the header of the container of an archive. It has a checksum if `checked` is `true`.
///
/// The archive is not validated.
///
/// # Requires
///
/// - `header` has 32 bytes.
///
/// # Errors
///
/// - `UNKNOWN_CODES`: no contents have the codes. `header` is unchanged then.
pub fn write_header(archive: &[u8], codes: Codes, checked: bool, header: &mut [u8]) -> u32
    requires { length header.old ≡ 32 }
    ensures { WritesContainerHeader codes checked archive.now header.old result header.new }
{
    let Some(contents) = contents_of(codes) else {
        return UNKNOWN_CODES;
    };
    Header::new(contents, archive, checked).write(header);
    DONE
}

/// Reads the width of a container of any contents, and stores in `wide` whether it is wide.
///
/// # Errors
///
/// - The status of the first error of the header: 32 to 41. `wide` is unchanged then.
pub fn container_width(bytes: &[u8], wide: &mut bool) -> u32
    ensures { ReadsWidth bytes.now wide.old result wide.new }
{
    match Header::read(bytes) {
        Ok(header) => {
            *wide = is_wide(header.contents.width);
            DONE
        }
        Err(error) => container_status(&error),
    }
}

/// Opens the container of the contents with the codes, and stores its archive in `opened`.
///
/// The archive is not validated. A container of other contents is never opened.
///
/// # Errors
///
/// - `UNKNOWN_CODES`: no contents have the codes. `opened` is unchanged then.
/// - The status of the first error of the container: 32 to 47. `opened` is unchanged then.
pub fn open_container<'a>(bytes: &'a [u8], codes: Codes, opened: &mut Opened<'a>) -> u32
    ensures status { OpensContainer codes bytes.now opened.old result opened.new }
    ensures opens { OpensOwnCodes codes bytes.now result }
{
    match contents_of(codes) {
        Some(contents) => open_container_as(bytes, contents, opened),
        None => UNKNOWN_CODES,
    }
}

/// Opens such a container as `open_container` does, and returns its first error with its numbers.
///
/// The archive is not validated. If no contents have the codes, the status is `UNKNOWN_CODES`, and
/// the numbers are 0.
pub fn explain_container(bytes: &[u8], codes: Codes) -> Explanation
    ensures { ExplainsContainer codes bytes.now result }
{
    match contents_of(codes) {
        Some(contents) => explain_container_as(bytes, contents),
        None => explained(UNKNOWN_CODES, 0, 0, 0),
    }
}

/// Writes the header of a container anew after its archive was changed in place.
///
/// The contents and the length stay. The checksum, if there is one, becomes the archive's.
///
/// # Errors
///
/// - The status of the first error of the header: 32 to 41.
/// - `WRONG_LENGTH`: the number of bytes after the header isn't the length in the header.
///
/// After an error no byte is changed.
pub fn update_container(bytes: &mut [u8]) -> u32
    ensures { UpdatesContainer bytes.old result bytes.new }
{
    let header = match Header::read(&*bytes) {
        Ok(header) => header,
        Err(error) => return container_status(&error),
    };
    if header.len != (bytes.len() - HEADER_LEN) as u64 {
        return WRONG_LENGTH;
    }
    fill_header(bytes, header.contents, header.checksum.is_some());
    DONE
}
