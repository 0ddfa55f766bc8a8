//! Taking the pairs of an index map, and allocating the memory for them.

ghost use Rattle.std.specs.Prelude.{◌≡◌, ◌<◌, ◌≤◌, [], IfOk, MatchResult, OnErr, length};
ghost use Rattle.std.specs.Prelude.{vec_capacity};
ghost use Rattle.std.specs.Iterator.{Drains};
ghost use Rattle.rkyv_table.specs.{YieldsOtherCount};
ghost use Rattle.rkyv_index.specs.{pairs_of};

use rkyv_base::{EntryAdapter, Lend};
use rkyv_table::table::write::take::next_item;
use std::alloc::{AllocError, Global};

#[derive(Drop)]
pub(crate) struct Room<X, R> {
    pub(crate) entries: Vec<X>,
    pub(crate) resolvers: Vec<R>,
    pub(crate) scratch: Vec<u8>,
}

impl<X: Drop, R: Drop> Room<X, R> {
    pub(crate) fn new(alloc: Global, len: usize, size: usize) -> Result<Room<X, R>, AllocError>
        ensures entries { IfOk result (λ r. (r.entries.items ≡ [])
            × (len ≤ vec_capacity r.entries)) }
        ensures resolvers { IfOk result (λ r. (r.resolvers.items ≡ [])
            × (len ≤ vec_capacity r.resolvers)) }
        ensures scratch { IfOk result (λ r. 0 < len → length r.scratch.items ≡ size) }
        ensures some { OnErr result (0 < len) }
    {
        if len == 0 {
            return Ok(Room {
                entries: Vec::new(alloc),
                resolvers: Vec::new(alloc),
                scratch: Vec::new(alloc),
            });
        }
        let entries = Vec::with_capacity(alloc, len)?;
        let resolvers = Vec::with_capacity(alloc, len)?;
        let scratch = vec![in alloc; 0u8; size]?;
        Ok(Room {
            entries,
            resolvers,
            scratch,
        })
    }
}

// Takes `len` pairs as entries. An `Err` has the number of pairs, counted up to `len + 1`.
pub(crate) fn take_entries<
    A,
    B,
    BK: Lend<A> + Drop,
    BV: Lend<B> + Drop,
    I: Iterator<Item = (BK, BV)>,
>(iter: I, len: usize, entries: &mut Vec<EntryAdapter<BK, BV, A, B>>) -> Result<(), usize>
    requires ready { I.can_next iter }
    requires empty { entries.old.items ≡ [] }
    requires room { len ≤ vec_capacity entries.old }
    ensures { MatchResult result
        (λ _. Drains I.next_gives iter (pairs_of entries.new.items) × (length entries.new.items
        ≡ len))
        (YieldsOtherCount I.next_gives len iter) }
{
    let mut rest = iter;
    for count in 0..len {
        let Some((key, value)) = next_item(&mut rest) else {
            return Err(count);
        };
        entries.push_reserved(EntryAdapter::new(key, value));
    }
    match next_item(&mut rest) {
        Some(_) => Err(len + 1),
        None => Ok(()),
    }
}
