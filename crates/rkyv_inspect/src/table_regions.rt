//! The regions of the buckets and control bytes of a table.

use crate::fields::{Field, pair_text};
use crate::regions::{Region, RegionKind, bytes_in};
use rkyv_base::{Entry, Width};
use std::alloc::{AllocError, Global};
use std::marker::PhantomData;

/// The buckets and control bytes of a table.
#[derive(Clone, Copy)]
pub(crate) struct Buckets<'a> {
    pub(crate) bytes: &'a [u8],
    pub(crate) controls_pos: usize,
    pub(crate) capacity: usize,
    /// The number of bytes of a bucket.
    pub(crate) size: usize,
}

/// The type of the items in buckets.
pub(crate) trait BucketItem {
    /// Returns the text of the item in a bucket at a position.
    fn text(alloc: Global, bytes: &[u8], bucket: usize, pos: usize) -> Result<String, AllocError>;
}

impl<K: Field, V: Field> BucketItem for Entry<K, V> {
    fn text(alloc: Global, bytes: &[u8], bucket: usize, pos: usize) -> Result<String, AllocError> {
        pair_text::<K, V>(alloc, "bucket", bucket, bytes, pos)
    }
}

/// An index of an index map, in an archive of the width `W`.
pub(crate) struct IndexItem<W> {
    width: PhantomData<W>,
}

impl<W: Width> BucketItem for IndexItem<W> {
    fn text(alloc: Global, bytes: &[u8], bucket: usize, pos: usize) -> Result<String, AllocError> {
        let word = bytes_in(bytes, pos, pos.saturating_add(W::ALIGN));
        if word.len() != W::ALIGN {
            return format!(in alloc; "bucket {bucket}");
        }
        let index = W::read_count(word, 0);
        format!(in alloc; "bucket {bucket}: index {index}")
    }
}

/// Returns the distance at a position, or 0 if it isn't there.
pub(crate) fn distance_at<W: Width>(bytes: &[u8], pos: usize) -> i64 {
    let word = bytes_in(bytes, pos, pos.saturating_add(W::ALIGN));
    if word.len() != W::ALIGN {
        return 0;
    }
    W::read_distance(word, 0)
}

impl<'a> Buckets<'a> {
    fn is_full(self, bucket: usize) -> bool {
        match self.bytes.get(self.controls_pos.saturating_add(bucket)) {
            Some(&control) => control < 128,
            None => false,
        }
    }

    /// Appends the buckets, from the highest to bucket 0.
    fn add_buckets<T: BucketItem>(
        self,
        alloc: Global,
        fields: &mut Vec<Region>,
    ) -> Result<(), AllocError> {
        let len = self.capacity.saturating_mul(self.size);
        let mut begin = self.controls_pos.saturating_sub(len);
        for bucket in (0..self.capacity).rev() {
            let end = begin.saturating_add(self.size);
            let (kind, text) = if self.is_full(bucket) {
                let text = T::text(alloc, self.bytes, bucket, begin)?;
                (RegionKind::FullBucket, text)
            } else {
                let text = format!(in alloc; "bucket {bucket}: empty")?;
                (RegionKind::EmptyBucket, text)
            };
            fields.push(Region {
                begin,
                end,
                kind,
                text,
            })?;
            begin = end;
        }
        Ok(())
    }

    /// Appends the control bytes, and those that mirror the first ones.
    fn add_controls(self, alloc: Global, fields: &mut Vec<Region>) -> Result<(), AllocError> {
        let begin = self.controls_pos;
        let own = begin.saturating_add(self.capacity);
        let rounded = self.capacity.div_ceil(16).saturating_mul(16);
        let end = begin.saturating_add(rounded).saturating_add(15);
        fields.push(Region {
            begin,
            end: own,
            kind: RegionKind::Controls,
            text: String::from_str(alloc, "control bytes")?,
        })?;
        fields.push(Region {
            begin: own,
            end,
            kind: RegionKind::MirroredControls,
            text: String::from_str(alloc, "mirrored control bytes")?,
        })?;
        Ok(())
    }

    /// Appends the buckets and control bytes, if there are any.
    pub(crate) fn add<T: BucketItem>(
        self,
        alloc: Global,
        fields: &mut Vec<Region>,
    ) -> Result<(), AllocError> {
        if self.capacity == 0 {
            return Ok(());
        }
        self.add_buckets::<T>(alloc, fields)?;
        self.add_controls(alloc, fields)
    }
}
