//! Tables of items.
//!
//! - `write::serialize` writes the items and control bytes, and `write::resolve` the header.
//! - `verify` validates a table, and `accessors` opens it.
//! - `lookup` finds an item, `raw_iter` iterates over all items, and `misplaced` counts the items
//!   that a lookup of the same item doesn't return.
//! - `sealed` and `raw_iter_seal` write items in place.
//! - `laws` has laws that a proof cites.
//!
//! `docs/FORMAT.md` has the layout of a table.
ghost use Rattle.std.specs.Prelude.{◌≡◌, ⊤};
ghost use Rattle.rkyv_base.specs.Lemmas.ElementSpec.{viewable_prop};
ghost use Rattle.rkyv_base.specs.{IsValidView, bytes_of, pos_of};
ghost use Rattle.rkyv_table.specs.Table.Decoded.{IsDecoded};
ghost use Rattle.rkyv_table.specs.Table.Layout.{table_spec};
ghost use Rattle.rkyv_table.specs.Lemmas.TableLaws.{table_element};

mod accessors;
pub mod decoded;
mod element;
mod header;
mod items;
pub mod laws;
pub mod list_inputs;
mod lookup;
pub mod misplaced;
pub mod raw_iter;
pub mod raw_iter_seal;
mod sealed;
mod verify;
pub mod write;

use crate::table::decoded::Decoded;
use rkyv_base::width::Word;
use rkyv_base::{HasSpec, Narrow, View};
use std::alloc::AllocError;
use std::marker::PhantomData;

/// The header of a table of T, in an archive of the width W.
pub struct TableOf<T, W = Narrow> {
    item: PhantomData<T>,
    width: PhantomData<W>,
}

/// A valid table of T that is read in place, in an archive of the width W, with its decoded header.
pub struct ArchivedHashTable<'a, T: HasSpec, W: Word = Narrow> {
    view: View<'a, TableOf<T, W>>,
    header: Decoded,
    ghost valid: { IsValidView (table_spec W.word T.spec) view } by { viewable_prop (table_spec
        W.word T.spec)
        (table_element W.word W.kind T.spec T.laws) (bytes_of view) (pos_of view) },
    ghost decoded: { IsDecoded W.word (bytes_of view) (pos_of view) header },
}

impl<'a, T: HasSpec, W: Word> Clone for ArchivedHashTable<'a, T, W> {
    #[inline]
    fn clone(&self) -> Result<ArchivedHashTable<'a, T, W>, AllocError> {
        Ok(*self)
    }

    ghost is_clone = { λ table clone. clone ≡ table };

    ghost is_infallible = { λ _. ⊤ };
}

impl<'a, T: HasSpec, W: Word> Copy for ArchivedHashTable<'a, T, W> {}
