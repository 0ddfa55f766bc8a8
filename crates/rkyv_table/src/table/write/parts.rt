//! Serializing the items of a table, in bucket order.

ghost use Rattle.std.specs.Prelude.{◌≡◌, ◌≤◌, [], vec_capacity};
ghost use Rattle.rkyv_base.specs.{written_as};
ghost use Rattle.rkyv_table.specs.{WritesParts, filled, slots_with};

use rkyv_base::{Lend, Serialize, Width, WriteResult, Writer};
use std::alloc::Global;

pub(crate) fn serialize_slots<W: Width, S: Writer, U: Serialize<S, W>, X: Lend<U>>(
    alloc: Global,
    slots: &[Option<X>],
    resolvers: &mut Vec<U::Resolver>,
    serializer: &mut S,
) -> WriteResult<(), S>
    requires empty { resolvers.old.items ≡ [] }
    requires room { filled slots.now ≤ vec_capacity resolvers.old }
    ensures { WritesParts W.LIMIT (written_as X.lent U.format)
        (slots_with slots.now resolvers.new.items)
        (S.output serializer.old) (S.output serializer.new) result }
{
    for slot in slots {
        if let Some(item) = slot {
            let resolver = item.lend().serialize(alloc, serializer)?;
            resolvers.push_reserved(resolver);
        }
    }
    Ok(())
}
