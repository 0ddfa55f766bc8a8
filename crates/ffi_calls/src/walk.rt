//! A walk over the items of a map, from any bucket on.

ghost use Rattle.std.specs.Prelude.{IfSome, length, slice_range, ◌*◌};
ghost use Rattle.std.specs.Prelude.{◌+◌, ◌-◌, ◌<◌, ◌^◌, ◌≡◌, ◌≤◌};
ghost use Rattle.rkyv_base.specs.{Viewable, entry_spec};
ghost use Rattle.rkyv_table.specs.{control_count};
ghost use Rattle.ffi_calls.specs.{FindsNextItem, IsHeaderOf, IsMapArchive, IsNextBucket};
ghost use Rattle.ffi_calls.specs.{StoresNextItems, map_in};

use crate::any_value::{AnyItem, ToAny};
use rkyv_base::{Element, Entry, View, Width};
use rkyv_table::controls::numbers::control_count;
use rkyv_table::controls::walk::next_full;
use rkyv_table::table::decoded::Decoded;

/// A full bucket, and the position of the pair in it.
#[derive(Clone, Copy)]
pub(crate) struct BucketPos {
    pub(crate) bucket: u64,
    pub(crate) pos: u64,
}

/// Returns all control bytes of `cap` buckets, from position `controls_pos` on.
#[inline]
fn controls_from(bytes: &[u8], controls_pos: usize, cap: usize) -> &[u8]
    requires { controls_pos + control_count cap ≤ length bytes.now }
    ensures bytes { result.now
        ≡ slice_range bytes.now controls_pos (controls_pos + control_count cap) }
    ensures count { cap ≤ length result.now }
{
    &bytes[controls_pos..controls_pos + control_count(cap)]
}

/// Returns the position of a bucket of `size` bytes, before the control bytes at `controls_pos`.
#[inline]
fn pos_before(controls_pos: usize, bucket: usize, size: usize) -> u64
    requires small { bucket + 1 < 2 ^ 64 }
    requires room { (bucket + 1) * size ≤ controls_pos }
    ensures { result ≡ controls_pos - (bucket + 1) * size }
{
    (controls_pos - (bucket + 1) * size) as u64
}

/// Returns the first full bucket from `from` on, with the position of its pair.
///
/// The buckets are the buckets of the map in a valid archive.
#[inline]
fn next_bucket<K: Element, V: Element, W: Width>(
    archive: &[u8],
    header: &Decoded,
    from: u64,
) -> Option<BucketPos>
    requires archive { IsMapArchive W.word W.LIMIT K.spec V.spec archive.now }
    requires header { IsHeaderOf (map_in W.word K.spec V.spec archive.now) header.now }
    ensures next { IsNextBucket (map_in W.word K.spec V.spec archive.now) from result }
    ensures viewable { IfSome result (λ item. Viewable (entry_spec K.spec V.spec) archive.now
        item.pos) }
    ensures small { IfSome result (λ item. item.bucket + 1 < 2 ^ 64) }
{
    let cap = header.capacity();
    if from >= cap as u64 {
        return None;
    }
    let begin = header.controls_pos();
    let controls = controls_from(archive, begin, cap);
    let size = Entry::<K, V>::size();
    let bucket = next_full(controls, cap, from as usize)?;
    Some(BucketPos {
        bucket: bucket as u64,
        pos: pos_before(begin, bucket, size),
    })
}

/// Returns the first item from the bucket `from` on, or `None` if no item remains.
#[inline]
fn next_in<'a, K: ToAny, V: ToAny, W: Width>(
    archive: &'a [u8],
    header: &Decoded,
    from: u64,
) -> Option<AnyItem<'a>>
    requires archive { IsMapArchive W.word W.LIMIT K.spec V.spec archive.now }
    requires header { IsHeaderOf (map_in W.word K.spec V.spec archive.now) header.now }
    ensures { FindsNextItem (map_in W.word K.spec V.spec archive.now) K.any V.any from result }
{
    let bucket = next_bucket::<K, V, W>(archive, header, from)?;
    let entry: View<'_, Entry<K, V>> = View::new(archive, bucket.pos);
    Some(AnyItem {
        next: bucket.bucket + 1,
        key: K::to_any(entry.key()),
        value: V::to_any(entry.value()),
    })
}

/// Stores the next items of the map in a valid archive, from a bucket on, and returns their number.
pub(crate) fn next_items_in<'a, K: ToAny, V: ToAny, W: Width>(
    archive: &'a [u8],
    header: &Decoded,
    from: u64,
    items: &mut [AnyItem<'a>],
) -> usize
    requires archive { IsMapArchive W.word W.LIMIT K.spec V.spec archive.now }
    requires header { IsHeaderOf (map_in W.word K.spec V.spec archive.now) header.now }
    ensures { StoresNextItems (map_in W.word K.spec V.spec archive.now) K.any V.any from items.old
        result items.new }
{
    let mut next = from;
    for count in 0..items.len() {
        match next_in::<K, V, W>(archive, header, next) {
            Some(item) => {
                next = item.next;
                items[count] = item;
            }
            None => return count,
        }
    }
    items.len()
}
