//! Laws of capacity errors, probe sequences, iterators and searches, and of written control bytes.
ghost use Rattle.std.specs.Iterator.{YieldsFirst, item_count};
ghost use Rattle.std.specs.Prelude.{List, true, ℕ, ◌+◌, ◌-◌, ◌<◌, ◌^◌, ◌≡◌, ◌↔◌};
ghost use Rattle.rkyv_table.specs.{BucketsAreProbed, FirstEmptyIsNextHome, FoundOnWritten};
ghost use Rattle.rkyv_table.specs.{HomesAreFirstEmpty, HomesAreOneList, HomesExist};
ghost use Rattle.rkyv_table.specs.{MarkedAreWalked, SearchIsBounded, StridesCover, StridesReadARow};
ghost use Rattle.rkyv_table.specs.{SameSteps, WalkedAreFull, WrittenAreOneList, WrittenAreValid};
ghost use Rattle.rkyv_table.specs.{capacity_write_error, count_after};

use crate::controls::find::Strides;
use crate::controls::numbers::CapacityError;
use crate::controls::probe::Probe;
use crate::controls::reciprocal::Reciprocal;
use crate::controls::walk::Walk;
use rkyv_base::WriteError;
use rkyv_scan::GroupKind;

/// States that `?` converts a `CapacityError` into the `WriteError` of the same name and fields.
pub fn capacity_errors_are_converted<F>()
    ensures { (a : _) (e : _) → ⟦<WriteError<F> as From<CapacityError>>⟧.from_gives a e
        ↔ (e ≡ capacity_write_error a) }
{}

/// States that two capacity errors are equal by `==` if and only if they are the same.
pub fn equal_errors_are_the_same()
    ensures { (a b : CapacityError) → (⟦<CapacityError as PartialEq>⟧.eq a b ≡ true) ↔ (a ≡ b) }
{}

/// States that a clone of a capacity error or of a reciprocal is the value, and never fails.
pub fn clones_are_the_same()
    ensures error { (a clone : CapacityError) → ⟦<CapacityError as Clone>⟧.is_clone a clone
        ↔ (clone ≡ a) }
    ensures reciprocal { (a clone : Reciprocal) → ⟦<Reciprocal as Clone>⟧.is_clone a clone
        ↔ (clone ≡ a) }
    ensures infallible_error { (a : CapacityError) → ⟦<CapacityError as Clone>⟧.is_infallible a }
    ensures infallible_reciprocal { (a : Reciprocal) → ⟦<Reciprocal as Clone>⟧.is_infallible a }
{}

/// States that counts of strides add up, and that a count below 2^64 - 1 is exact.
pub fn counts_add_up()
    ensures exact { (before n : ℕ) → count_after before n < 2 ^ 64 - 1
        → count_after before n ≡ before + n }
    ensures sums { (before m n : ℕ) → count_after (count_after before m) n
        ≡ count_after before (m + n) }
{}

/// States that the strides of a hash begin, each once, at the indices below the probe capacity that
/// are congruent to the start modulo 16.
pub fn strides_cover()
    ensures { StridesCover }
{}

/// States that the strides of a hash read contiguous control bytes, from the start modulo 16 on.
pub fn strides_read_a_row()
    ensures { StridesReadARow }
{}

/// States that the strides of a hash probe every bucket.
pub fn buckets_are_probed()
    ensures { BucketsAreProbed }
{}

/// States that each of fewer items than buckets has a home bucket.
pub fn homes_exist()
    ensures { HomesExist }
{}

/// States that the first empty control byte of the strides is in the first empty probed bucket.
pub fn homes_are_first_empty()
    ensures { HomesAreFirstEmpty }
{}

/// States that the first empty control byte of the strides is in the home bucket of the next item.
pub fn first_empty_is_next_home()
    ensures { FirstEmptyIsNextHome }
{}

/// States that the home buckets are determined by the capacity and the hashes.
pub fn homes_are_one_list()
    ensures { HomesAreOneList }
{}

/// States that the written control bytes are determined by the capacity and the hashes.
pub fn written_are_one_list()
    ensures { WrittenAreOneList }
{}

/// States that written control bytes of fewer items than buckets are valid.
pub fn written_are_valid()
    ensures { WrittenAreValid }
{}

/// States that the buckets of a `Walk` are the full ones.
pub fn walked_are_full()
    ensures { WalkedAreFull }
{}

/// States that a `Walk` yields its buckets in turn, and then `None`.
pub fn buckets_are_yielded<'a, G: GroupKind + 'a>()
    ensures steps { SameSteps ⟦<Walk<'a, G> as Iterator>⟧.next_gives (YieldsFirst (λ s. s)) }
    ensures remain { (left : List ℕ)
        → ⟦<Walk<'a, G> as Iterator>⟧.remaining left ≡ item_count (λ s. s) left }
    ensures ready { (left : List ℕ) → ⟦<Walk<'a, G> as Iterator>⟧.can_next left }
{}

/// States that a probe sequence yields the first index of each stride in turn, and then `None`.
pub fn strides_are_yielded()
    ensures steps { SameSteps ⟦<Probe as Iterator>⟧.next_gives (YieldsFirst (λ s. s)) }
    ensures remain { (left : List ℕ)
        → ⟦<Probe as Iterator>⟧.remaining left ≡ item_count (λ s. s) left }
    ensures ready { (left : List ℕ) → ⟦<Probe as Iterator>⟧.can_next left }
{}

/// States that a default counter of strides has the count 0.
pub fn counters_begin_at_zero()
    ensures { (strides : _) → ⟦<Strides as Default>⟧.is_default strides ↔ (strides ≡ 0) }
{}

/// States that a search in valid control bytes ends within ceil(cap / 16) strides.
pub fn search_is_bounded()
    ensures { SearchIsBounded }
{}

/// States that a marked index in valid control bytes, below twice the capacity, has a full bucket.
pub fn marked_are_walked()
    ensures { MarkedAreWalked }
{}

/// States that a lookup in written control bytes finds the home bucket of the first accepted item.
///
/// Each accepted item must be under the hash of the lookup.
pub fn found_on_written()
    ensures { FoundOnWritten }
{}
