//! Writing tables from iterators of items and hashes.
//!
//! 1. The capacity is computed, and memory is allocated.
//! 2. The input is taken, and each item is placed.
//! 3. The parts, the buckets and the control bytes are written.
//!
//! The header is written later, by the `HashTableResolver`.

ghost use Rattle.std.specs.Prelude.{◌≡◌, ◌+◌, ◌^◌, ◌<◌, ◌≤◌, [], IfOk, None};
ghost use Rattle.std.specs.Prelude.{replicate, vec_capacity};
ghost use Rattle.rkyv_table.specs.{WritesNonempty, WritesTable, bucket_input, control_count};
ghost use Rattle.rkyv_table.specs.{from_both, from_iter, item_format, table_input};

use crate::controls::numbers::{capacity, control_count};
use crate::table::ArchivedHashTable;
use crate::table::write::bytes::write_table;
use crate::table::write::resolve::HashTableResolver;
use crate::table::write::source::{ItemSource, ItemsAndHashes, Pairs};
use rkyv_base::{
    Element, HasSpec, IteratorLengthMismatch, Lend, Serialize, Width, WriteError, WriteResult,
    Writer,
};
use rkyv_scan::GroupKind;
use rkyv_scan::simd::lanes;
use std::alloc::{AllocError, Global};
use std::marker::PhantomData;

fn empty_slots<X: Drop>(alloc: Global, cap: usize) -> Result<Vec<Option<X>>, AllocError>
    ensures { IfOk result (λ slots. slots.items ≡ replicate cap None) }
{
    let mut slots = Vec::with_capacity(alloc, cap)?;
    for _ in 0..cap {
        slots.push_reserved(None);
    }
    Ok(slots)
}

// A slot for each bucket, the control bytes and then one bucket's buffer, and the resolvers' room.
#[derive(Drop)]
struct Room<X, R> {
    slots: Vec<Option<X>>,
    scratch: Vec<u8>,
    resolvers: Vec<R>,
}

impl<X: Drop, R: Drop> Room<X, R> {
    fn new(alloc: Global, len: usize, cap: usize, size: usize) -> Result<Room<X, R>, AllocError>
        requires fits { cap < 2 ^ 63 }
        requires small { size ≤ 1073741824 }
        ensures slots { IfOk result (λ r. r.slots.items ≡ replicate cap None) }
        ensures scratch { IfOk result (λ r. r.scratch.items
            ≡ replicate (control_count cap + size) 255) }
        ensures resolvers { IfOk result (λ r. (r.resolvers.items ≡ [])
            × (len ≤ vec_capacity r.resolvers)) }
    {
        let slots = empty_slots(alloc, cap)?;
        let scratch = vec![in alloc; 0xffu8; control_count(cap) + size]?;
        let resolvers = Vec::with_capacity(alloc, len)?;
        Ok(Room {
            slots,
            scratch,
            resolvers,
        })
    }
}

fn serialize_nonempty<
    W: Width,
    G: GroupKind,
    S: Writer,
    U: Serialize<S, W>,
    X: Lend<U> + Drop,
    H: ItemSource<X>,
>(alloc: Global, given: H, len: usize, cap: usize, serializer: &mut S) -> WriteResult<u64, S>
    requires ready { H.ready given }
    requires below { len < cap }
    requires fits { cap ≤ W.MAX_CAPACITY }
    ensures { WritesNonempty W.LIMIT (item_format U.Archived.spec X.lent U.format)
        (bucket_input (H.input given) len cap)
        (S.output serializer.old) (S.output serializer.new) result }
{
    let size = <U::Archived as Element>::size();
    let Room {
        mut slots,
        mut scratch,
        resolvers,
    } = Room::<X, U::Resolver>::new(alloc, len, cap, size)?;
    let slots = slots.as_mut_slice();
    let (controls, bucket) = scratch.as_mut_slice().split_at_mut(control_count(cap));
    given
        .place_all::<G>(len, cap, controls, slots)
        .map_err(|actual| IteratorLengthMismatch {
            expected: len,
            actual,
        })?;
    write_table::<W, _, U, _>(alloc, slots, controls, bucket, resolvers, serializer)
}

fn serialize_source<
    W: Width,
    G: GroupKind,
    S: Writer,
    U: Serialize<S, W>,
    X: Lend<U> + Drop,
    H: ItemSource<X>,
>(
    alloc: Global,
    given: H,
    len: usize,
    load_factor: (usize, usize),
    serializer: &mut S,
) -> WriteResult<HashTableResolver<W>, S>
    requires { H.ready given }
    ensures { WritesTable W.Width (item_format U.Archived.spec X.lent U.format)
        (table_input (H.input given) len load_factor)
        (S.output serializer.old) (S.output serializer.new) result }
{
    let cap = capacity(len, load_factor, W::MAX_CAPACITY)?;
    if len == 0 {
        given
            .expect_none()
            .map_err(|actual| IteratorLengthMismatch {
                expected: len,
                actual,
            })?;
        return Ok(HashTableResolver {
            pos: 0,
            len,
            load_factor,
            width: PhantomData,
        });
    }
    let pos = serialize_nonempty::<W, G, _, U, _, _>(alloc, given, len, cap, serializer)?;
    Ok(HashTableResolver {
        pos,
        len,
        load_factor,
        width: PhantomData,
    })
}

impl<'a, T: HasSpec, W: Width> ArchivedHashTable<'a, T, W> {
    /// Writes a table of `len` items, each under the next of the hashes, and returns its resolver.
    ///
    /// Each item goes into its home bucket: the first bucket that its hash probes
    /// and that no earlier item has. `docs/FORMAT.md` has the layout, which is rkyv's.
    /// Nothing is written for no items, and the position of the resolver is 0.
    ///
    /// Not proved, only tested: each iterator is called at most `len + 1` times, and not after
    /// it returned `None`. No item is taken before an allocation failure of this call.
    ///
    /// # Errors
    ///
    /// - `InvalidLoadFactor`: the load factor isn't above 0 and at most 1.
    /// - `CapacityTooLarge`: the capacity is above `W::MAX_CAPACITY`.
    /// - `Memory`: `len` isn't 0, and memory for placing the items could not be allocated.
    /// - `IteratorLengthMismatch`: the number of items isn't `len`, or else the number of hashes
    ///   isn't. The number is counted up to `len + 1`.
    /// - The error of the first item or piece that fails.
    ///
    /// If the call itself fails with one of the first four errors, nothing is written. An item
    /// that fails with the same error may follow bytes that were written.
    ///
    /// # Examples
    ///
    /// ```rust
    /// ArchivedHashTable::<U::Archived, Narrow>::serialize_from_iter::<VecWriter, U, &U, _, _>(
    ///     alloc,
    ///     items.iter(),
    ///     hashes.iter().copied(),
    ///     items.len(),
    ///     load_factor,
    ///     writer,
    /// )
    /// ```
    pub fn serialize_from_iter<
        S: Writer,
        U: Serialize<S, W, Archived = T>,
        X: Lend<U> + Drop,
        I: Iterator<Item = X>,
        J: Iterator<Item = u64>,
    >(
        alloc: Global,
        items: I,
        hashes: J,
        len: usize,
        load_factor: (usize, usize),
        serializer: &mut S,
    ) -> WriteResult<HashTableResolver<W>, S>
        requires { I.can_next items × J.can_next hashes }
        ensures { WritesTable W.Width (item_format T.spec X.lent U.format)
            (table_input (from_both I.next_gives J.next_gives items hashes) len load_factor)
            (S.output serializer.old) (S.output serializer.new) result }
    {
        let given = ItemsAndHashes { items, hashes };
        serialize_source::<W, lanes::Group, S, U, X, ItemsAndHashes<I, J>>(
            alloc,
            given,
            len,
            load_factor,
            serializer,
        )
    }

    /// Writes a table of `len` pairs of hash and item as `serialize_from_iter` does.
    ///
    /// The items are placed by groups of the kind `G`. An `IteratorLengthMismatch` counts pairs.
    pub fn serialize_by<
        G: GroupKind,
        S: Writer,
        U: Serialize<S, W, Archived = T>,
        X: Lend<U> + Drop,
        I: Iterator<Item = (u64, X)>,
    >(
        alloc: Global,
        pairs: I,
        len: usize,
        load_factor: (usize, usize),
        serializer: &mut S,
    ) -> WriteResult<HashTableResolver<W>, S>
        requires { I.can_next pairs }
        ensures { WritesTable W.Width (item_format T.spec X.lent U.format)
            (table_input (from_iter I.next_gives pairs) len load_factor)
            (S.output serializer.old) (S.output serializer.new) result }
    {
        serialize_source::<W, G, S, U, X, Pairs<I>>(
            alloc,
            Pairs { pairs },
            len,
            load_factor,
            serializer,
        )
    }
}
