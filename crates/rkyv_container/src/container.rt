//! Opening and sealing a container.
//!
//! - `fill_header` writes the header over the first 32 bytes.
//! - `open` returns the header and the archive, of any contents.
//! - `open_as` also checks that the contents are the expected ones. Take it if they are known.

ghost use Rattle.std.specs.Prelude.{IfOk, IsOk, IsOkAnd, List, MatchResult, drop, length, ℕ, ◌↔◌};
ghost use Rattle.std.specs.Prelude.{◌≡◌, ◌≤◌};
ghost use Rattle.rkyv_container.specs.{AllPass, FirstFails, IsContainer, IsContainerOf, IsSplit};
ghost use Rattle.rkyv_container.specs.{OpenAsFails, OpenFails, archive_checks, contents_checks};
ghost use Rattle.rkyv_container.specs.{header_checks, header_of};

use crate::checksum::adler32;
use crate::contents::Contents;
use crate::errors::ContainerError;
use crate::header::{HEADER_LEN, Header};

/// Opens a container: returns its header, and its archive in place.
///
/// # Errors
///
/// - The errors of `Header::read`.
/// - `WrongLength`: the number of bytes after the header isn't the length in the header.
/// - `WrongChecksum`: the header has a checksum that isn't the archive's.
pub fn open(bytes: &[u8]) -> Result<(Header, &[u8]), ContainerError>
    ensures ok { IfOk result (λ opened. IsContainer opened.0 opened.1.now bytes.now) }
    ensures opens { (header : Header) → (archive : List ℕ) → IsContainer header archive bytes.now
        → IsOkAnd result (λ opened. (opened.0 ≡ header) × (opened.1.now ≡ archive)) }
    ensures err { (e : ContainerError) → (result ≡ Err e) ↔ OpenFails bytes.now e }
{
    open_any(bytes)
}

/// Opens a container with the expected contents: returns its archive in place.
///
/// # Errors
///
/// The same as for `open`, and before `WrongLength` one of `WrongKind`, `WrongKeyType`,
/// `WrongValueType` and `WrongWidth` if that part of the contents isn't the expected one.
///
/// # Examples
///
/// ```rust
/// // Returns whether `open_as` returns this archive.
/// fn opens_as(bytes: &[u8], contents: Contents, archive: &[u8]) -> bool {
///     match open_as(bytes, contents) {
///         Ok(found) => found == archive,
///         Err(_) => false,
///     }
/// }
/// ```
pub fn open_as(bytes: &[u8], expected: Contents) -> Result<&[u8], ContainerError>
    ensures ok { IfOk result (λ archive. IsContainerOf expected archive.now bytes.now) }
    ensures opens { (contents : Contents) → (archive : List ℕ)
        → IsContainerOf contents archive bytes.now → IsOk result ↔ (contents ≡ expected) }
    ensures err { (e : ContainerError) → (result ≡ Err e) ↔ OpenAsFails expected bytes.now e }
{
    open_expected(bytes, expected)
}

/// Writes the header over the first 32 bytes, before the archive, with a checksum if `checked`.
///
/// # Examples
///
/// ```rust
/// let mut bytes = [0; 41];
/// bytes[32..].copy_from_slice(b"Wikipedia");
/// let header = fill_header(&mut bytes, names(), true);
/// assert_eq!(rt; header, names_header());
/// assert_eq!(rt; bytes, NAMES);
/// ```
pub fn fill_header(bytes: &mut [u8], contents: Contents, checked: bool) -> Header
    requires { 32 ≤ length bytes.old }
    ensures header { result ≡ header_of contents (drop 32 bytes.old) checked }
    ensures container { IsContainer result (drop 32 bytes.old) bytes.new }
{
    let header = Header::new(contents, &bytes[HEADER_LEN..], checked);
    header.write(&mut bytes[..HEADER_LEN]);
    header
}

fn open_any(bytes: &[u8]) -> Result<(Header, &[u8]), ContainerError>
    ensures { MatchResult result (λ opened. IsContainer opened.0 opened.1.now bytes.now)
        (λ e. OpenFails bytes.now e) }
{
    let (header, archive) = split(bytes)?;
    check_archive(&header, archive)?;
    Ok((header, archive))
}

fn open_expected(bytes: &[u8], expected: Contents) -> Result<&[u8], ContainerError>
    ensures { MatchResult result (λ archive. IsContainerOf expected archive.now bytes.now)
        (λ e. OpenAsFails expected bytes.now e) }
{
    let (header, archive) = split(bytes)?;
    check_contents(header.contents, expected)?;
    check_archive(&header, archive)?;
    Ok(archive)
}

fn split(bytes: &[u8]) -> Result<(Header, &[u8]), ContainerError>
    ensures { MatchResult result (λ parts. IsSplit parts.0 parts.1.now bytes.now)
        (λ e. FirstFails (header_checks bytes.now) e) }
{
    let header = Header::read(bytes)?;
    let (_, archive) = bytes.split_at(HEADER_LEN);
    Ok((header, archive))
}

fn check_contents(found: Contents, expected: Contents) -> Result<(), ContainerError>
    ensures { MatchResult result (λ _. AllPass (contents_checks expected found))
        (λ e. FirstFails (contents_checks expected found) e) }
{
    if found.kind != expected.kind {
        return Err(ContainerError::WrongKind {
            expected: expected.kind,
            found: found.kind,
        });
    }
    if found.key != expected.key {
        return Err(ContainerError::WrongKeyType {
            expected: expected.key,
            found: found.key,
        });
    }
    if found.value != expected.value {
        return Err(ContainerError::WrongValueType {
            expected: expected.value,
            found: found.value,
        });
    }
    if found.width != expected.width {
        return Err(ContainerError::WrongWidth {
            expected: expected.width,
            found: found.width,
        });
    }
    Ok(())
}

fn check_archive(header: &Header, archive: &[u8]) -> Result<(), ContainerError>
    ensures { MatchResult result (λ _. AllPass (archive_checks header.now archive.now))
        (λ e. FirstFails (archive_checks header.now archive.now) e) }
{
    let len = archive.len() as u64;
    if len != header.len {
        return Err(ContainerError::WrongLength {
            expected: header.len,
            found: len,
        });
    }
    if let Some(expected) = header.checksum {
        let found = adler32(archive);
        if expected != found {
            return Err(ContainerError::WrongChecksum { expected, found });
        }
    }
    Ok(())
}
