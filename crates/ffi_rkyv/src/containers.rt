//! The calls for containers of archives.
//!
//! The contents of a container are given by the four codes in its header: those of the kind of
//! collection, of the types of keys and of values, and of the width.

ghost use Rattle.std.specs.Prelude.{length, ◌≡◌};
ghost use Rattle.ffi_calls.specs.{ExplainsContainer, OpensContainer, OpensOwnCodes, ReadsWidth};
ghost use Rattle.ffi_calls.specs.{UpdatesContainer, WritesContainerHeader, codes_of};

use ffi_calls::containers::{
    Codes, Opened, container_width, explain_container, open_container, update_container,
    write_header,
};
use ffi_calls::explanation::Explanation;

/// Writes the header of the container of an archive. It has a checksum if `checked` is `true`.
///
/// The archive is not validated.
///
/// # Requires
///
/// - `header` has 32 bytes.
///
/// # Errors
///
/// - 7: no contents have the codes; `header` is unchanged then.
#[unsafe(no_mangle)]
pub extern "C" fn hk_c_write_header(
    archive: &[u8],
    kind: u8,
    key: u8,
    value: u8,
    width: u8,
    checked: bool,
    header: &mut [u8],
) -> u32
    requires { length header.old ≡ 32 }
    ensures { WritesContainerHeader (codes_of kind key value width) checked archive.now header.old
        result header.new }
{
    let codes = Codes {
        kind,
        key,
        value,
        width,
    };
    write_header(archive, codes, checked, header)
}

/// Reads the width of a container of any contents, and stores in `wide` whether it is wide.
///
/// # Errors
///
/// - 32 to 41: the first error of the header; `wide` is unchanged then.
#[unsafe(no_mangle)]
pub extern "C" fn hk_c_container_width(bytes: &[u8], wide: &mut bool) -> u32
    ensures { ReadsWidth bytes.now wide.old result wide.new }
{
    container_width(bytes, wide)
}

/// Opens the container of the contents with the codes, and stores its archive in `opened`.
///
/// The archive is not validated. A container of other contents is never opened.
///
/// # Errors
///
/// - 7: no contents have the codes; `opened` is unchanged then.
/// - 32 to 47: the first error of the container; `opened` is unchanged then.
#[unsafe(no_mangle)]
pub extern "C" fn hk_c_open_container<'a>(
    bytes: &'a [u8],
    kind: u8,
    key: u8,
    value: u8,
    width: u8,
    opened: &mut Opened<'a>,
) -> u32
    ensures status { OpensContainer (codes_of kind key value width) bytes.now opened.old result
        opened.new }
    ensures opens { OpensOwnCodes (codes_of kind key value width) bytes.now result }
{
    let codes = Codes {
        kind,
        key,
        value,
        width,
    };
    open_container(bytes, codes, opened)
}

/// Opens the container of the contents with the codes, and stores its first error with its numbers.
///
/// The archive is not validated. If no contents have the codes, the status is 7, and the numbers
/// are 0.
#[unsafe(no_mangle)]
pub extern "C" fn hk_c_explain_container(
    bytes: &[u8],
    kind: u8,
    key: u8,
    value: u8,
    width: u8,
    explanation: &mut Explanation,
)
    ensures { ExplainsContainer (codes_of kind key value width) bytes.now explanation.new }
{
    let codes = Codes {
        kind,
        key,
        value,
        width,
    };
    *explanation = explain_container(bytes, codes);
}

/// Writes the header of a container anew after its archive was changed in place.
///
/// The contents and the length stay. The checksum, if there is one, becomes that of the archive.
///
/// # Errors
///
/// - 32 to 41: the first error of the header.
/// - 46: the number of bytes after the header isn't the length in the header.
///
/// After an error no byte is changed.
#[unsafe(no_mangle)]
pub extern "C" fn hk_c_update_container(bytes: &mut [u8]) -> u32
    ensures { UpdatesContainer bytes.old result bytes.new }
{
    update_container(bytes)
}
