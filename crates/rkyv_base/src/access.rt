//! Access to the root of an archive.
//!
//! - `access` validates untrusted bytes and returns a view of the root.
//! - `access_mut` does the same and returns a seal, for writes in place.
//! - `access_mut_with` validates them and calls a closure with the bytes and the root's position.
//! - `access_unchecked` requires valid bytes and validates nothing.
//!
//! The functions whose names end in `_in` take the width of the archive. `access_unchecked` is
//! for both widths, and the others are for narrow archives.

ghost use Rattle.std.specs.Prelude.{◌-◌, length, IfOk, IsOk, MatchResult};
ghost use Rattle.rkyv_base.specs.{AccessFails, AccessWrites, ArchiveAt, IsAt, IsValidArchive};
ghost use Rattle.rkyv_base.specs.{IsValidView, MayWrite, Viewable, Wrote, archive_in, narrow_limit};
ghost use Rattle.rkyv_base.specs.{pos_in};

use crate::element::{Element, PartRange};
use crate::errors::VerifyError;
use crate::seal::ArchiveSeal;
use crate::view::View;
use crate::width::{Narrow, Width};

/// Validates an archive as `access` does, with the limit of the width `W`.
#[inline]
pub fn access_in<'a, W: Width, T: Element>(bytes: &'a [u8]) -> Result<View<'a, T>, VerifyError>
    ensures root { MatchResult result
        (λ v. IsValidArchive W.LIMIT T.spec bytes.now
        × IsAt v bytes.entry (length bytes.now - T.spec.size))
        (AccessFails W.LIMIT T.spec bytes.now) }
    ensures accepts { IsValidArchive W.LIMIT T.spec bytes.now → IsOk result }
    ensures viewable { IfOk result (IsValidView T.spec) }
{
    let len = bytes.len() as u64;
    let size = T::size() as u64;
    if len < size || len > W::LIMIT {
        return Err(VerifyError::OutOfRange {
            pos: i128::from(len) - i128::from(size),
            size: u128::from(size),
        });
    }
    let root = len - size;
    let align = T::align() as u64;
    if root % align != 0 {
        return Err(VerifyError::Unaligned { pos: root, align });
    }
    T::check(bytes, root, PartRange { lo: 0, hi: root })?;
    Ok(View::new(bytes, root))
}

/// Validates a narrow archive, and returns a view of the root at its end.
///
/// # Errors
///
/// - `OutOfRange`: the archive is shorter than a root, or longer than 4,294,967,295 bytes.
/// - `Unaligned`: the position of the root is not a multiple of its alignment.
/// - The error of the root's own validation.
///
/// # Examples
///
/// ```rust
/// use rkyv_base::access::access;
/// use rkyv_base::{Entry, VerifyError};
///
/// // Returns the key and the value of a pair in an archive.
/// fn pair_of(archive: &[u8]) -> Result<(u8, u32), VerifyError> {
///     let pair = access::<Entry<u8, u32>>(archive)?;
///     Ok((pair.key().to_native(), pair.value().to_native()))
/// }
///
/// assert_eq!(rt; pair_of(&[1, 0, 0, 0, 2, 0, 0, 0]).ok(), Some((1, 2)));
/// ```
#[inline]
pub fn access<'a, T: Element>(bytes: &'a [u8]) -> Result<View<'a, T>, VerifyError>
    ensures root { MatchResult result
        (λ v. IsValidArchive narrow_limit T.spec bytes.now
        × IsAt v bytes.entry (length bytes.now - T.spec.size))
        (AccessFails narrow_limit T.spec bytes.now) }
    ensures accepts { IsValidArchive narrow_limit T.spec bytes.now → IsOk result }
    ensures viewable { IfOk result (IsValidView T.spec) }
{
    access_in::<Narrow, T>(bytes)
}

/// Returns a view of the root at the end of an archive of any width, which it doesn't validate.
///
/// The archive must have a valid `T` at its end.
#[inline]
pub fn access_unchecked<'a, T: Element>(bytes: &'a [u8]) -> View<'a, T>
    requires { Viewable T.spec bytes.now (length bytes.now - T.spec.size) }
    ensures at { IsAt result bytes.entry (length bytes.now - T.spec.size) }
    ensures viewable { IsValidView T.spec result }
{
    View::new(bytes, (bytes.len() - T::size()) as u64)
}

/// Validates an archive as `access_mut` does, with the limit of the width `W`.
#[inline]
pub fn access_mut_in<'a, W: Width, T: Element>(
    bytes: &'a mut [u8],
) -> Result<ArchiveSeal<'a, T>, VerifyError>
    ensures root { MatchResult result
        (λ s. IsValidArchive W.LIMIT T.spec bytes.old
        × ArchiveAt s bytes.entry (length bytes.old - T.spec.size))
        (AccessFails W.LIMIT T.spec bytes.old) }
    ensures accepts { IsValidArchive W.LIMIT T.spec bytes.old → IsOk result }
    ensures viewable { IfOk result (λ s. Viewable T.spec (archive_in s) (pos_in s)) }
{
    let pos = access_in::<W, T>(&*bytes)?.pos();
    Ok(ArchiveSeal::new(bytes, pos))
}

/// Validates a narrow archive, and returns a seal of the root, for writes in place.
///
/// # Errors
///
/// The same as for `access`.
///
/// # Examples
///
/// ```rust
/// // Writes the number at the root of an archive, and returns the number before.
/// fn replace_root(archive: &mut [u8], number: u32) -> Result<u32, VerifyError> {
///     let whole = access_mut::<u32>(archive)?;
///     let pos = whole.pos();
///     let mut root = whole.seal_at::<u32>(pos);
///     let before = root.to_native();
///     root.set(number);
///     Ok(before)
/// }
///
/// let mut archive = [2, 0, 0, 0];
/// let before = replace_root(&mut archive, 3).ok();
/// assert_eq!(rt; (before, archive), (Some(2), [3, 0, 0, 0]));
/// ```
#[inline]
pub fn access_mut<'a, T: Element>(bytes: &'a mut [u8]) -> Result<ArchiveSeal<'a, T>, VerifyError>
    ensures root { MatchResult result
        (λ s. IsValidArchive narrow_limit T.spec bytes.old
        × ArchiveAt s bytes.entry (length bytes.old - T.spec.size))
        (AccessFails narrow_limit T.spec bytes.old) }
    ensures accepts { IsValidArchive narrow_limit T.spec bytes.old → IsOk result }
    ensures viewable { IfOk result (λ s. Viewable T.spec (archive_in s) (pos_in s)) }
{
    access_mut_in::<Narrow, T>(bytes)
}

/// Validates an archive as `access_mut_with` does, with the limit of the width `W`.
#[inline]
pub fn access_mut_with_in<W: Width, T: Element, R, F: FnOnce(&mut [u8], u64) -> R>(
    bytes: &mut [u8],
    write: F,
) -> Result<R, VerifyError>
    requires { IsValidArchive W.LIMIT T.spec bytes.old
        → MayWrite F.pre write bytes.old (length bytes.old - T.spec.size) }
    ensures root { AccessWrites W.LIMIT T.spec (Wrote F.post write) bytes.old bytes.new result }
    ensures accepts { IsValidArchive W.LIMIT T.spec bytes.old → IsOk result }
{
    let root = access_in::<W, T>(&*bytes)?.pos();
    Ok(write(bytes, root))
}

/// Validates a narrow archive, and calls `write` with its bytes and the root's position.
///
/// Returns the result of `write`.
///
/// # Errors
///
/// The same as for `access`. On an error no byte is changed.
///
/// # Examples
///
/// ```rust
/// let mut archive = [1, 0, 0, 0];
/// let pos = access_mut_with::<u32, u64, _>(&mut archive, |bytes: &mut [u8], pos: u64| {
///     bytes.fill(7);
///     pos
/// });
/// assert_eq!(rt; (pos.ok(), archive), (Some(0), [7; 4]));
/// ```
#[inline]
pub fn access_mut_with<T: Element, R, F: FnOnce(&mut [u8], u64) -> R>(
    bytes: &mut [u8],
    write: F,
) -> Result<R, VerifyError>
    requires { IsValidArchive narrow_limit T.spec bytes.old
        → MayWrite F.pre write bytes.old (length bytes.old - T.spec.size) }
    ensures root { AccessWrites narrow_limit T.spec
        (Wrote F.post write) bytes.old bytes.new result }
    ensures accepts { IsValidArchive narrow_limit T.spec bytes.old → IsOk result }
{
    access_mut_with_in::<Narrow, T, _, _>(bytes, write)
}
