//! Laws of the hash, of the crate's public names, and of clones.
//!
//! The laws of the hash are about its definition, under any rule for `usize` and `isize`.
//! The others say which definitions the public hashers, masks and groups have.
ghost use Rattle.std.specs.Prelude.{◌≡◌, ◌+◌, ◌≤◌, ◌↔◌, List, [], drop, length, take};
ghost use Rattle.rkyv_scan.specs.{CallsHashTheirWords, EightBytesAreOneWord, FixedCallsAgree};
ghost use Rattle.rkyv_scan.specs.{FixedCallsHashAlike, HasherCall, WritesJoin, all_bits, fx_hash};
ghost use Rattle.rkyv_scan.specs.{bytewise_kind, generic_kind, lanes_kind, paired_kind};
ghost use Rattle.rkyv_scan.specs.{hash_of_calls, indices_where, is_word_match_at, low_halves};

use crate::hash::{FxHasher64, FxHasher64Wide, KeyHasher};
use crate::simd::{GroupKind, MAX_GROUP_WIDTH, Marks, bytewise, generic, lanes, paired};
use crate::{Bitmask, Group};

/// States that a list of calls hashes as the list of all words that they feed, from 0.
pub fn calls_hash_their_words()
    ensures { CallsHashTheirWords }
{}

/// States that two writes hash as one of both if the first's length is a multiple of eight.
pub fn writes_join()
    ensures { WritesJoin }
{}

/// States that a write of eight bytes hashes as a `write_u64` of their little-endian integer.
pub fn eight_bytes_are_one_word()
    ensures { EightBytesAreOneWord }
{}

/// States that a call for no `usize` and no `isize` feeds the same words under any two rules.
pub fn fixed_calls_agree()
    ensures { FixedCallsAgree }
{}

/// States that calls for no `usize` and no `isize` have the same hash under any two rules.
pub fn fixed_calls_hash_alike()
    ensures { FixedCallsHashAlike }
{}

/// Returns the mask `EMPTY` of each of three kinds of group, which marks no index.
pub fn empty_masks() -> (bytewise::Bitmask, generic::Bitmask, lanes::Bitmask)
    ensures bytewise { ⟦<bytewise::Bitmask as Marks>⟧.indices result.0 ≡ [] }
    ensures generic { ⟦<generic::Bitmask as Marks>⟧.indices result.1 ≡ [] }
    ensures lanes { ⟦<lanes::Bitmask as Marks>⟧.indices result.2 ≡ [] }
{
    (
        bytewise::Bitmask::EMPTY,
        generic::Bitmask::EMPTY,
        lanes::Bitmask::EMPTY,
    )
}

/// States that the hash of each hasher is `fx_hash` of its rule for `usize` and `isize`.
pub fn fx_hashers()
    ensures narrow { (calls : List HasherCall)
        → hash_of_calls ⟦<FxHasher64 as KeyHasher>⟧.hasher calls
        ≡ fx_hash low_halves calls }
    ensures wide { (calls : List HasherCall)
        → hash_of_calls ⟦<FxHasher64Wide as KeyHasher>⟧.hasher calls
        ≡ fx_hash all_bits calls }
{}

/// Returns the mask of the indices that the group at the crate's root marks for `byte`.
pub fn root_group_marks(bytes: &[u8], pos: usize, byte: u8) -> Bitmask
    requires { pos + 8 ≤ length bytes.now }
    ensures { ⟦<Bitmask as Marks>⟧.indices result
        ≡ indices_where (is_word_match_at (take 8 (drop pos bytes.now)) byte) 8 }
{
    Group::read(bytes, pos).match_byte(byte)
}

/// States that `MAX_GROUP_WIDTH` is 16.
pub fn widest_group()
    ensures { MAX_GROUP_WIDTH ≡ 16 }
{}

/// States which indices each kind of group marks, as its module describes.
pub fn kinds_mark_as_defined()
    ensures bytewise { ⟦<bytewise::Group as GroupKind>⟧.kind ≡ bytewise_kind }
    ensures generic { ⟦<generic::Group as GroupKind>⟧.kind ≡ generic_kind }
    ensures lanes { ⟦<lanes::Group as GroupKind>⟧.kind ≡ lanes_kind }
    ensures paired { ⟦<paired::Group as GroupKind>⟧.kind ≡ paired_kind }
{}

/// States that a clone of a mask is the mask itself, and that cloning can't fail.
pub fn masks_are_cloned()
    ensures bytewise { (m clone : _)
        → ⟦<bytewise::Bitmask as Clone>⟧.is_clone m clone ↔ (clone ≡ m) }
    ensures generic { (m clone : _) → ⟦<generic::Bitmask as Clone>⟧.is_clone m clone ↔ (clone ≡ m) }
    ensures lanes { (m clone : _) → ⟦<lanes::Bitmask as Clone>⟧.is_clone m clone ↔ (clone ≡ m) }
    ensures infallible_bytewise { (m : _) → ⟦<bytewise::Bitmask as Clone>⟧.is_infallible m }
    ensures infallible_generic { (m : _) → ⟦<generic::Bitmask as Clone>⟧.is_infallible m }
    ensures infallible_lanes { (m : _) → ⟦<lanes::Bitmask as Clone>⟧.is_infallible m }
{}

/// States that a clone of a group is the group itself, and that cloning can't fail.
pub fn groups_are_cloned()
    ensures bytewise { (g clone : _) → ⟦<bytewise::Group as Clone>⟧.is_clone g clone ↔ (clone ≡ g) }
    ensures generic { (g clone : _) → ⟦<generic::Group as Clone>⟧.is_clone g clone ↔ (clone ≡ g) }
    ensures lanes { (g clone : _) → ⟦<lanes::Group as Clone>⟧.is_clone g clone ↔ (clone ≡ g) }
    ensures paired { (g clone : _) → ⟦<paired::Group as Clone>⟧.is_clone g clone ↔ (clone ≡ g) }
    ensures infallible_bytewise { (g : _) → ⟦<bytewise::Group as Clone>⟧.is_infallible g }
    ensures infallible_generic { (g : _) → ⟦<generic::Group as Clone>⟧.is_infallible g }
    ensures infallible_lanes { (g : _) → ⟦<lanes::Group as Clone>⟧.is_infallible g }
    ensures infallible_paired { (g : _) → ⟦<paired::Group as Clone>⟧.is_infallible g }
{}
