//! Iteration over the items of any collection.

ghost use Rattle.ffi_calls.specs.{CanIterate, IsArchiveOfTypes, IsHandleOf, IsHeaderOf};
ghost use Rattle.ffi_calls.specs.{StoresItems, StoresItemsAt, StoresItemsIn, types_in, types_of};

use crate::any_value::{AnyItem, AnyValue};
use crate::collection::{Collection, Handle, collection_at};
use crate::index::items_in;
use crate::types::{KeyFrom, Operation, StoredKey, StoredValue, ValueFrom, dispatch};
use crate::walk::next_items_in;
use rkyv_index::IndexWidth;
use rkyv_table::table::decoded::Decoded;

/// Iteration from a bucket, or from an index.
#[derive(Clone, Copy)]
pub(crate) struct Iteration<'a> {
    archive: &'a [u8],
    header: &'a Decoded,
    from: u64,
}

impl<'a> Operation<AnyValue<'a>, AnyItem<'a>> for Iteration<'a> {
    type Out = usize;

    ghost pre = { CanIterate };

    ghost post = { StoresItems };

    #[inline]
    fn run<
        A: KeyFrom<AnyValue<'a>, K, W>,
        B: ValueFrom<AnyValue<'a>, V, W>,
        K: StoredKey<A>,
        V: StoredValue<B>,
        W: IndexWidth,
    >(self, indexed: bool, out: &mut [AnyItem<'a>]) -> usize {
        if indexed {
            items_in::<A, B, K, V, W>(self.archive, self.header, self.from as usize, out)
        } else {
            next_items_in::<K, V, W>(self.archive, self.header, self.from, out)
        }
    }
}

/// Stores the next items of a collection, and returns their number.
fn items_of<'a>(
    archive: &'a [u8],
    of: Collection,
    header: &'a Decoded,
    from: u64,
    items: &mut [AnyItem<'a>],
) -> usize
    requires archive { IsArchiveOfTypes (types_of of) archive.now }
    requires header { IsHeaderOf (types_in (types_of of) archive.now) header.now }
    ensures { StoresItemsIn (types_of of) archive.now from items.old result items.new of.indexed }
{
    let iteration = Iteration {
        archive,
        header,
        from,
    };
    dispatch(of, iteration, items)
}

/// Stores the next items of a collection, and returns their number.
///
/// In a hash map and a hash set they are those from the bucket `from` on, in bucket order. In an
/// index map and an index set they are those from the index `from` on, in insertion order. If fewer
/// items are stored than `items` has room for, no item remains. Otherwise a next call continues at
/// the `next` of the last item.
///
/// # Requires
///
/// - `handle` is a handle of the archive.
pub fn next_items<'a>(
    archive: &'a [u8],
    handle: &'a Handle,
    from: u64,
    items: &mut [AnyItem<'a>],
) -> usize
    requires { IsHandleOf archive.now handle.now }
    ensures { StoresItemsAt handle.now archive.now from items.old result items.new }
{
    items_of(archive, collection_at(handle), &handle.header, from, items)
}
