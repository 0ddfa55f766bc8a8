//! Laws of tables, over their definitions.
//!
//! - `written` is about the bytes of written tables, `misplaced` about misplaced items.
//! - `in_place` is about writes of one item in place, `each` about writes of each item.
//! - `in_bytes` is about lookups in a table's bytes.
ghost use Rattle.std.specs.Int.{w32};
ghost use Rattle.std.specs.Iterator.{YieldsFirstBy, at_most};
ghost use Rattle.std.specs.Prelude.{List, [], length, ℕ, ◌<◌, ◌^◌, ◌↔◌, ◌≡◌};
ghost use Rattle.rkyv_base.specs.{IsValidView, RepresentsAs, SameSpec, pair_format, scalar_format};
ghost use Rattle.rkyv_base.specs.{text_format, unit_format, written_as};
ghost use Rattle.rkyv_table.specs.{CountsPositions, ItemsLeft, LookupFindsFirst, SameSteps};
ghost use Rattle.rkyv_table.specs.{UnitStep, VisitsHomes, WalkVisitsHomes, WritesOneWay, YieldsPos};
ghost use Rattle.rkyv_table.specs.{items_left, pairs_left, resolved_capacity, table_format};
ghost use Rattle.rkyv_table.specs.{table_spec, table_view};

pub mod each;
pub mod in_bytes;
pub mod in_place;
pub mod misplaced;
pub mod written;

use crate::table::decoded::Decoded;
use crate::table::list_inputs::{PairRefs, Refs, WithUnits};
use crate::table::raw_iter::RawIter;
use crate::table::write::resolve::{HashTableResolver, resolved_capacity};
use crate::table::{ArchivedHashTable, TableOf};
use rkyv_base::width::Word;
use rkyv_base::{Archive, Element, HasSpec, Lend, Scalar, Width};

/// States that the full buckets of written control bytes are the home buckets, in ascending order.
pub fn walk_visits_homes()
    ensures written { WalkVisitsHomes }
    ensures empty { (controls : List ℕ) → VisitsHomes 0 [] controls }
{}

/// States that a `RawIter` yields the positions of the items in turn.
pub fn positions_are_yielded<'a, T: 'a>()
    ensures steps { SameSteps ⟦<RawIter<'a, T> as Iterator>⟧.next_gives YieldsPos }
    ensures remain { CountsPositions ⟦<RawIter<'a, T> as Iterator>⟧.remaining }
    ensures ready { (left : ItemsLeft) → ⟦<RawIter<'a, T> as Iterator>⟧.can_next left }
{}

/// States that the iterators over a list yield its pairs or items in turn, or keys with units.
pub fn lists_are_yielded<'a, A: 'a, B: 'a, BK, I: Iterator<Item = BK>>()
    ensures pairs { SameSteps ⟦<PairRefs<'a, A, B> as Iterator>⟧.next_gives
        (YieldsFirstBy (λ pair. (pair.0.now, pair.1.now)) pairs_left) }
    ensures items { SameSteps ⟦<Refs<'a, A> as Iterator>⟧.next_gives
        (YieldsFirstBy (λ item. item.now) items_left) }
    ensures units { SameSteps ⟦<WithUnits<I> as Iterator>⟧.next_gives
        (λ s r t. UnitStep I.next_gives s.keys r t.keys) }
    ensures pairs_remain { (s : _) → ⟦<PairRefs<'a, A, B> as Iterator>⟧.remaining s
        ≡ at_most (length (pairs_left s)) }
    ensures items_remain { (s : _) → ⟦<Refs<'a, A> as Iterator>⟧.remaining s
        ≡ at_most (length (items_left s)) }
    ensures units_remain { (s : _) → ⟦<WithUnits<I> as Iterator>⟧.remaining s
        ≡ I.remaining s.keys }
    ensures pairs_ready { (s : _) → ⟦<PairRefs<'a, A, B> as Iterator>⟧.can_next s }
    ensures items_ready { (s : _) → ⟦<Refs<'a, A> as Iterator>⟧.can_next s }
    ensures units_ready { (s : _) → ⟦<WithUnits<I> as Iterator>⟧.can_next s ↔ I.can_next s.keys }
{}

/// States that a lookup in a written table finds the first accepted item of its list, or `None`.
///
/// At the position of each item, the comparison must return what `accept` returns for the item.
/// Each accepted item must be under the hash of the lookup. After a write in place, the list is
/// the one of `items_written_represent`.
pub fn lookups_find_the_first<W: Width, U: Archive<W>, X: Lend<U>>()
    ensures { LookupFindsFirst W.word U.Archived.spec (RepresentsAs X.lent U.Archived.represents) }
{}

/// States that if items are written in one way, so is a table of them, by any kind of group.
///
/// An item is written in one way if its bytes and its parts are functions of it and the position.
pub fn tables_are_written_one_way<W: Width, U: Archive<W>, X: Lend<U>>()
    ensures { (load_factor : ℕ × ℕ) → WritesOneWay U.format
        → WritesOneWay (table_format W.word U.Archived.spec (written_as X.lent U.format)
        load_factor) }
{}

/// States that scalars, texts, the unit value and pairs of such values are written in one way.
pub fn ready_elements_are_written_one_way<W: Width, N: Scalar, A: Archive<W>, B: Archive<W>>()
    ensures scalars { WritesOneWay (scalar_format N.encoding) }
    ensures texts { WritesOneWay (text_format W.word) }
    ensures units { WritesOneWay unit_format }
    ensures pairs { WritesOneWay A.format → WritesOneWay B.format
        → WritesOneWay (pair_format A.Archived.spec B.Archived.spec A.format B.format) }
{}

/// States the layout of a table: the header, with the buckets and control bytes before it.
pub fn tables_are_laid_out<W: Width, T: Element>()
    ensures spec { SameSpec ⟦<TableOf<T, W> as HasSpec>⟧.spec (table_spec W.word T.spec) }
    ensures default { SameSpec ⟦<TableOf<T> as HasSpec>⟧.spec (table_spec w32 T.spec) }
{}

/// States that without a width, a table and a resolver are of a narrow archive.
pub fn tables_are_narrow<'a, T: Element>(table: ArchivedHashTable<'a, T>, r: &HashTableResolver)
    ensures table { IsValidView (table_spec w32 T.spec) (table_view table.entry) }
    ensures resolver { resolved_capacity r.now < 2 ^ 32 }
{
    let _ = table.len();
    let _ = resolved_capacity(r);
}

/// States that a clone of a decoded header is the header, and that cloning never fails.
pub fn decoded_headers_are_cloned()
    ensures same { (a clone : Decoded) → ⟦<Decoded as Clone>⟧.is_clone a clone ↔ (clone ≡ a) }
    ensures infallible { (a : Decoded) → ⟦<Decoded as Clone>⟧.is_infallible a }
{}

/// States that a clone of an archived table is the same table, and that cloning never fails.
pub fn clones_are_the_same<'a, T: HasSpec, W: Word>()
    ensures same { (table clone : _) →
        ⟦<ArchivedHashTable<'a, T, W> as Clone>⟧.is_clone table clone ↔ (clone ≡ table) }
    ensures infallible { (table : _) →
        ⟦<ArchivedHashTable<'a, T, W> as Clone>⟧.is_infallible table }
{}
