//! Groups of control bytes, which are matched at once.
//!
//! A `GroupKind` reads its control bytes and matches them, and returns the matches as a mask,
//! a `Marks`. There are four kinds:
//!
//! - `generic` has eight bytes in one word. It is the kind at the crate's root.
//! - `bytewise` has eight bytes, compared one by one.
//! - `lanes` has sixteen bytes in one vector.
//! - `paired` has sixteen bytes in one vector, and marks each half as `generic` does.
ghost use Rattle.std.specs.Prelude.{IsTrue, List, Option, drop, length, slice_get, slice_index};
ghost use Rattle.std.specs.Prelude.{take, ℕ, ◌*◌, ◌+◌, ◌<◌, ◌^◌, ◌↔◌, ◌≡◌, ◌≤◌};
ghost use Rattle.std.specs.Iterator.{YieldsFirst, item_count};
ghost use Rattle.std.specs.List.Sorted.{IsStrictlyIncreasing};
ghost use Rattle.rkyv_scan.specs.{IsKind, Kind, indices_where, is_empty, is_full};

pub mod bytewise;
pub mod generic;
pub mod lanes;
pub mod paired;

/// The width of the widest kind of group. Each kind's width divides it.
pub const MAX_GROUP_WIDTH: usize = 16;

/// A set of indices within a group. Index 0 is the first of the group's control bytes.
pub trait Marks: Iterator<Item = usize> + Copy {
    // The marked indices, ascending.
    ghost indices: { Self → List ℕ };

    ghost ascend: { (m : Self) → IsStrictlyIncreasing (indices m) };

    /// Returns `true` if and only if some index is marked.
    fn any_bit_set(self) -> bool
        ensures { IsTrue result ↔ (0 < length (indices self)) };

    /// Returns the mask without its lowest index. It must mark an index.
    fn remove_lowest_bit(self) -> Self
        requires { 0 < length (indices self) }
        ensures { indices result ≡ drop 1 (indices self) };

    /// Returns the lowest marked index, or `None` if no index is marked.
    fn lowest_set_bit(self) -> Option<usize>
        ensures { result ≡ slice_get (indices self) 0 };

    // The iterator yields the marked indices.
    ghost ready: { (s : Self) → Self.can_next s };

    ghost yields: { (s t : Self) (r : Option ℕ) → Self.next_gives s r t
        → YieldsFirst indices s r t };

    ghost ends: { (s : Self) → Self.remaining s ≡ item_count indices s };
}

/// A kind of group: a fixed number of control bytes that are matched at once.
///
/// A control byte with its high bit set is empty. One below 128 is full, and is the item's tag.
///
/// # Examples
///
/// ```rust
/// let group = generic::Group::read(&[0x28, 0xff, 0x29, 0xff, 0xff, 0xff, 0xff, 0xff], 0);
/// let lowest = group.match_byte(0x29).lowest_set_bit();
/// assert_eq!(rt; lowest, Some(2));
/// ```
pub trait GroupKind: Copy {
    /// The type of the masks that a match returns.
    type Mask: Marks;

    /// The number of control bytes of a group: 1, 2, 4, 8 or 16.
    const WIDTH: usize;

    ghost WIDTH: { ℕ };

    // The width again, and the indices that `match_byte` marks.
    ghost kind: { Kind };

    // The control bytes, in order.
    ghost controls: { Self → List ℕ };

    /// Returns the group of the `WIDTH` control bytes from `pos` on. `bytes` must have them.
    fn read(bytes: &[u8], pos: usize) -> Self
        requires { pos + kind.width ≤ length bytes.now }
        ensures { controls result ≡ take kind.width (drop pos bytes.now) };

    /// Marks each index whose control byte is `byte`, and the false matches that the kind allows.
    ///
    /// The lowest marked index is never a false match. If `byte` is below 128, only full indices
    /// are marked.
    fn match_byte(self, byte: u8) -> Self::Mask
        ensures { Self.Mask.indices result
            ≡ indices_where (kind.marks (controls self) byte) kind.width };

    /// Marks the empty indices and no others.
    fn match_empty(self) -> Self::Mask
        ensures { Self.Mask.indices result
            ≡ indices_where (λ k. is_empty (slice_index (controls self) k)) kind.width };

    /// Marks the full indices and no others.
    fn match_full(self) -> Self::Mask
        ensures { Self.Mask.indices result
            ≡ indices_where (λ k. is_full (slice_index (controls self) k)) kind.width };

    ghost width: { WIDTH ≡ kind.width };

    ghost lawful: { IsKind kind };
}
