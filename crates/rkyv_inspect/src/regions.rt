//! The regions of an archive: its bytes, field by field.
ghost use Rattle.std.specs.Prelude.{IfOk, OnOk, length, max, min};
ghost use Rattle.rkyv_inspect.specs.{AddsUpTo, Covers, IsRegionList};

use std::alloc::{AllocError, Global};

/// The kind of a region.
#[derive(Clone, Copy, Debug, PartialEq, Eq)]
pub enum RegionKind {
    /// Bytes of no known field.
    Unknown,
    /// The bytes of an out-of-line text.
    Text,
    /// A bucket with an item.
    FullBucket,
    /// A bucket without an item.
    EmptyBucket,
    /// The control bytes of the buckets.
    Controls,
    /// The control bytes that mirror the first ones, and the padding after them.
    MirroredControls,
    /// An entry of an index map.
    Entry,
    /// A gap of fewer than eight bytes that are all 0, as before an aligned field.
    Padding,
    /// A field of the header.
    Header,
}

/// A region of an archive: the bytes from `begin` on and before `end`.
#[derive(Debug, Drop)]
pub struct Region {
    /// The position of the first byte.
    pub begin: usize,
    /// The position after the last byte.
    pub end: usize,
    /// The kind of the field.
    pub kind: RegionKind,
    /// The name of the field, with its value.
    pub text: String,
}

/// The regions of the first bytes of an archive, in ascending order.
#[derive(Drop)]
pub(crate) struct RegionList {
    pub(crate) regions: Vec<Region>,
    pub(crate) end: usize,
}

impl RegionList {
    /// Appends the region up to `end` or the end of the archive, if it has bytes.
    fn add(
        &mut self,
        bytes: &[u8],
        end: usize,
        kind: RegionKind,
        text: String,
    ) -> Result<(), AllocError>
        requires { IsRegionList (length bytes.now) self.old }
        ensures { OnOk result (AddsUpTo (length bytes.now) end self.old self.new) }
    {
        let begin = self.end;
        let end = end.min(bytes.len());
        if end <= begin {
            return Ok(());
        }
        self.regions.push(Region {
            begin,
            end,
            kind,
            text,
        })?;
        self.end = end;
        Ok(())
    }

    /// Appends the bytes up to `end` as padding or unknown bytes.
    fn add_gap(&mut self, alloc: Global, bytes: &[u8], end: usize) -> Result<(), AllocError>
        requires { IsRegionList (length bytes.now) self.old }
        ensures { OnOk result (AddsUpTo (length bytes.now) end self.old self.new) }
    {
        let (kind, name) = if is_padding(bytes_in(bytes, self.end, end)) {
            (RegionKind::Padding, "padding")
        } else {
            (RegionKind::Unknown, "unknown bytes")
        };
        let text = String::from_str(alloc, name)?;
        self.add(bytes, end, kind, text)
    }
}

/// Returns the fields of an archive, which ascend, and the regions between and after them.
pub(crate) fn with_gaps(
    alloc: Global,
    bytes: &[u8],
    fields: Vec<Region>,
) -> Result<Vec<Region>, AllocError>
    ensures { IfOk result (λ regions. Covers 0 regions.items (length bytes.now)) }
{
    let mut list = RegionList {
        regions: Vec::new(alloc),
        end: 0,
    };
    for field in fields {
        list.add_gap(alloc, bytes, field.begin)?;
        list.add(bytes, field.end, field.kind, field.text)?;
    }
    list.add_gap(alloc, bytes, bytes.len())?;
    Ok(list.regions)
}

/// Returns the bytes from `begin` on and before `end`, or no bytes if they aren't all there.
pub(crate) fn bytes_in(bytes: &[u8], begin: usize, end: usize) -> &[u8] {
    bytes.get(begin..end).unwrap_or(&[])
}

fn is_padding(bytes: &[u8]) -> bool {
    bytes.len() < 8 && bytes.iter().all(|&byte| byte == 0)
}
