//! Writing a whole archive.
//!
//! `to_bytes` returns the archive of a value in a vector, and `write_root` appends it to a writer.
//! The functions whose names end in `_in` take the width of the archive.
//!
//! 1. The value's parts are written.
//! 2. Zeros are written up to the alignment of the root.
//! 3. The root's fixed bytes are written. Their position is the result of `write_root`.

ghost use Rattle.std.specs.Prelude.{◌≡◌, length, MatchResult};
ghost use Rattle.rkyv_base.specs.{ArchiveOf, ToBytesFails, WritesRoot, narrow_limit, root_format};

use crate::archive::{Serialize, WriteResult};
use crate::element::Element;
use crate::errors::WriteError;
use crate::width::{Narrow, Width};
use crate::writer::{NoMemory, VecWriter, Writer, align_for_in, append_in};
use std::alloc::Global;

/// Writes a value as the root of an archive of the width `W`, as `write_root` does.
pub fn write_root_in<W: Width, S: Writer, V: Serialize<S, W>>(
    alloc: Global,
    value: &V,
    serializer: &mut S,
) -> WriteResult<u64, S>
    ensures { WritesRoot W.LIMIT (root_format V.Archived.spec V.format) value.now
        (S.output serializer.old) (S.output serializer.new) result }
{
    let size = <V::Archived as Element>::size();
    if size <= 64 {
        let mut out = [0u8; 64];
        return write_root_by::<W, _, _>(alloc, value, &mut out[..size], serializer);
    }
    let mut out = vec![in alloc; 0u8; size]?;
    write_root_by::<W, _, _>(alloc, value, out.as_mut_slice(), serializer)
}

#[inline]
fn write_root_by<W: Width, S: Writer, V: Serialize<S, W>>(
    alloc: Global,
    value: &V,
    out: &mut [u8],
    serializer: &mut S,
) -> WriteResult<u64, S>
    requires room { length out.old ≡ V.Archived.spec.size }
    ensures { WritesRoot W.LIMIT (root_format V.Archived.spec V.format) value.now
        (S.output serializer.old) (S.output serializer.new) result }
{
    let resolver = value.serialize(alloc, serializer)?;
    let root = align_for_in::<W, V::Archived, _>(serializer)?;
    value.resolve(resolver, root, out)?;
    append_in::<W, S>(serializer, out)?;
    Ok(root)
}

/// Returns the archive of a value, in the width `W`, as `to_bytes` does.
pub fn to_bytes_in<W: Width, V: Serialize<VecWriter, W>>(
    alloc: Global,
    value: &V,
) -> Result<Vec<u8>, WriteError<NoMemory>>
    ensures { MatchResult result
        (λ b. ArchiveOf W.LIMIT V.Archived.spec V.Archived.represents V.format value.now b.items)
        (ToBytesFails W.LIMIT V.Archived.spec V.format value.now) }
{
    let mut writer = VecWriter::new(alloc);
    write_root_in::<W, _, _>(alloc, value, &mut writer)?;
    Ok(writer.into_vec())
}

/// Writes a value as the root of a narrow archive, and returns its position.
///
/// # Errors
///
/// - `Memory`: the root has more than 64 fixed bytes, and a buffer for them could not be allocated.
/// - The error of serializing the value.
/// - The error of appending zeros up to the root's alignment.
/// - `DistanceTooLarge`: a distance from the root doesn't fit in the width.
/// - The error of appending the root's fixed bytes.
///
/// # Examples
///
/// ```rust
/// let mut writer = VecWriter::new(rt.alloc());
/// let root = write_root(rt.alloc(), &(1u8, 2u16), &mut writer).ok();
/// assert_eq!(rt; (root, writer.bytes()), (Some(0), [1, 0, 2, 0].as_slice()));
/// ```
pub fn write_root<S: Writer, V: Serialize<S, Narrow>>(
    alloc: Global,
    value: &V,
    serializer: &mut S,
) -> WriteResult<u64, S>
    ensures { WritesRoot narrow_limit (root_format V.Archived.spec V.format) value.now
        (S.output serializer.old) (S.output serializer.new) result }
{
    write_root_in::<Narrow, _, _>(alloc, value, serializer)
}

/// Returns the narrow archive of a value.
///
/// # Errors
///
/// The same as for `write_root` with a new `VecWriter`.
///
/// # Examples
///
/// ```rust
/// use rkyv_base::to_bytes;
///
/// let bytes = to_bytes(rt.alloc(), &(1u8, 2u32))?;
/// assert_eq!(rt; bytes.as_slice(), [1, 0, 0, 0, 2, 0, 0, 0].as_slice());
/// ```
pub fn to_bytes<V: Serialize<VecWriter, Narrow>>(
    alloc: Global,
    value: &V,
) -> Result<Vec<u8>, WriteError<NoMemory>>
    ensures { MatchResult result
        (λ b. ArchiveOf narrow_limit V.Archived.spec V.Archived.represents
        V.format value.now b.items)
        (ToBytesFails narrow_limit V.Archived.spec V.format value.now) }
{
    to_bytes_in::<Narrow, V>(alloc, value)
}
