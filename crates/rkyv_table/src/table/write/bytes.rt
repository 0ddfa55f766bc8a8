//! Writing the bytes of a table whose items are placed: parts, buckets and control bytes.
//!
//! 1. The parts of the items are written, in bucket order.
//! 2. Zeros are written up to the alignment of the items.
//! 3. The buckets are written, from the highest to bucket 0.
//! 4. The control bytes are written.

ghost use Rattle.std.specs.Prelude.{◌≡◌, ◌≤◌, [], length, vec_capacity};
ghost use Rattle.rkyv_table.specs.{WritesSlots, filled, item_format, placed_slots};

use crate::table::write::buckets::write_buckets;
use crate::table::write::parts::serialize_slots;
use rkyv_base::{Lend, Serialize, Width, WriteResult, Writer, align_for_in, append_in};
use std::alloc::Global;

// Returns the position of the first control byte.
pub(crate) fn write_table<W: Width, S: Writer, U: Serialize<S, W>, X: Lend<U>>(
    alloc: Global,
    slots: &[Option<X>],
    controls: &[u8],
    bucket: &mut [u8],
    resolvers: Vec<U::Resolver>,
    serializer: &mut S,
) -> WriteResult<u64, S>
    requires empty { resolvers.items ≡ [] }
    requires resolvers { filled slots.now ≤ vec_capacity resolvers }
    requires room { length bucket.old ≡ U.Archived.spec.size }
    ensures { WritesSlots W.LIMIT (item_format U.Archived.spec X.lent U.format)
        (placed_slots slots.now controls.now)
        (S.output serializer.old) (S.output serializer.new) result }
{
    let mut kept = resolvers;
    serialize_slots::<W, _, U, _>(alloc, slots, &mut kept, serializer)?;
    align_for_in::<W, U::Archived, _>(serializer)?;
    write_buckets::<W, _, U, _>(slots, kept, bucket, serializer)?;
    let pos = serializer.pos();
    append_in::<W, _>(serializer, controls)?;
    Ok(pos)
}
