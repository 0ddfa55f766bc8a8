//! Laws of misplaced items.
ghost use Rattle.rkyv_table.specs.{FindsOnlyItem, NoneMisplacedIsComplete, RepeatedAreMisplaced};

use rkyv_base::HasSpec;
use rkyv_base::width::Word;

/// States that the number of misplaced items is the number of those equal to an earlier one.
///
/// The control bytes must be written ones. Each item must have the hash under which it was written.
/// The relation must be an equivalence on the items, and related items must have the same hash.
pub fn repeated_are_misplaced()
    ensures { RepeatedAreMisplaced }
{}

/// States that a lookup finds the only accepted item, or `None`, if no item is misplaced.
///
/// Each accepted item must have the hash of the lookup, and the items equal to it must be the
/// accepted ones.
pub fn none_misplaced_is_complete()
    ensures { NoneMisplacedIsComplete }
{}

/// States `none_misplaced_is_complete` for a valid table, by the positions of items.
pub fn none_misplaced_finds_only_item<T: HasSpec, W: Word>()
    ensures { FindsOnlyItem W.word T.spec }
{}
