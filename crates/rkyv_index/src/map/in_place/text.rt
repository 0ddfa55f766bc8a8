//! Writing an inline text in place, by its key or its index.
//!
//! `map::in_place` has a table of all calls that write values.
ghost use Rattle.std.specs.Prelude.{◌<◌};
ghost use Rattle.rkyv_base.specs.{IsTextOf, Uppercases, Viewable, text_spec, value_pos};
ghost use Rattle.rkyv_keys.specs.{archived_hash, lookup_of, native_pairs};
ghost use Rattle.rkyv_table.specs.{WritesAmongParts, len_at};
ghost use Rattle.rkyv_index.specs.{IndexRepresents, KeepsIndexMap, UppercasesFirst};
ghost use Rattle.rkyv_index.specs.{UppercasesListed, UppercasesText, index_kind};
ghost use Rattle.rkyv_index.specs.{index_to_texts_over, index_to_texts_spec, pair_at};

use crate::map::ArchivedIndexMap;
use crate::map::in_place::value_pos_at;
use crate::width::IndexWidth;
use rkyv_base::seal_text::uppercase_at;
use rkyv_base::{Represents, Text};
use rkyv_keys::{KeyElement, NativeKey};
use rkyv_scan::KeyHasher;

/// Writes the letters a to z of the text at `index` in upper case, if the text is inline.
///
/// The result is `false` for an out-of-line text, which is unchanged. `A` is as in `set_value_at`.
pub fn make_ascii_uppercase_at<A, K: KeyElement + Represents<A>, H: KeyHasher, W: IndexWidth>(
    archive: &mut [u8],
    root: u64,
    index: usize,
) -> bool
    requires map { Viewable (index_to_texts_spec W.word K.spec) archive.old root }
    requires below { index < len_at W.word archive.old root }
    ensures uppercases { Uppercases W.word archive.old (value_pos K.spec (text_spec W.word)
        (pair_at W.word K.spec (text_spec W.word) archive.old root index)) archive.new result }
    ensures kept { KeepsIndexMap
        (index_kind W.word K.spec (text_spec W.word) (archived_hash H.KeyHasher K.KeyElement))
        archive.old archive.new root index }
    ensures listed { UppercasesListed
        (IndexRepresents W.word K.spec (text_spec W.word) K.represents
        (IsTextOf W.word (λ text. text.now)) (archived_hash H.KeyHasher K.KeyElement))
        archive.old archive.new root index result }
    ensures parts { WritesAmongParts (index_to_texts_spec W.word K.spec) archive.old archive.new
        root }
{
    let pos = value_pos_at::<K, Text<W>, H, W>(&*archive, root, index);
    uppercase_at::<W>(archive, pos as usize)
}

/// Writes the letters a to z of the text of a key in upper case, if the text is inline.
///
/// The result is `None` if no key is found, and `Some(false)` for an out-of-line text, which is
/// unchanged. In an untrusted archive, the lookup may read all control bytes.
pub fn make_ascii_uppercase_of<
    A: NativeKey<K>,
    K: KeyElement + Represents<A>,
    H: KeyHasher,
    W: IndexWidth,
>(archive: &mut [u8], root: u64, key: &A) -> Option<bool>
    requires map { Viewable (index_to_texts_spec W.word K.spec) archive.old root }
    ensures uppercases { UppercasesText (index_to_texts_over W.Word K.HasSpec archive.old root)
        (lookup_of H.KeyHasher K.KeyElement A.Query key.now)
        result archive.new }
    ensures listed { UppercasesFirst (index_to_texts_over W.Word K.HasSpec archive.old root)
        (native_pairs K.represents (IsTextOf W.word (λ text. text.now)) H.hasher K.key_calls)
        (A.eq key.now) result archive.new }
    ensures parts { WritesAmongParts (index_to_texts_spec W.word K.spec) archive.old archive.new
        root }
{
    let index = ArchivedIndexMap::<K, Text<W>, H, W>::index_in(&*archive, root, key)?;
    Some(make_ascii_uppercase_at::<A, K, H, W>(archive, root, index))
}
