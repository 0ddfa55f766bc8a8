//! Writing the inline text of a key in place.
//!
//! `map::in_place` has a table of all calls that write values.
ghost use Rattle.rkyv_base.specs.{Viewable};
ghost use Rattle.rkyv_table.specs.{WritesAmongParts};
ghost use Rattle.rkyv_collections.specs.{UppercasesFirst, UppercasesText, map_to_texts_at};
ghost use Rattle.rkyv_collections.specs.{map_to_texts_spec, value_lookup_of};
ghost use Rattle.rkyv_keys.specs.{lookup_of};

use crate::map::ArchivedHashMap;
use rkyv_base::seal_text::uppercase_at;
use rkyv_base::{Represents, Text, Width};
use rkyv_keys::{KeyElement, NativeKey};
use rkyv_scan::KeyHasher;

/// Writes each letter from a to z of the text of a key in upper case, if the text is inline.
///
/// Returns `Some(true)` if the text is written, `Some(false)` if it is out of line, or `None`
/// if no key is found.
pub fn make_ascii_uppercase_of<
    A: NativeKey<K>,
    K: KeyElement + Represents<A>,
    H: KeyHasher,
    W: Width,
>(archive: &mut [u8], root: u64, key: &A) -> Option<bool>
    requires map { Viewable (map_to_texts_spec W.word K.spec) archive.old root }
    ensures uppercases { UppercasesText (map_to_texts_at W.Word K.HasSpec archive.old root)
        (lookup_of H.KeyHasher K.KeyElement A.Query key.now)
        result archive.new }
    ensures listed { UppercasesFirst (map_to_texts_at W.Word K.HasSpec archive.old root)
        (value_lookup_of H.KeyHasher K.KeyElement K.represents (A.eq key.now)) result archive.new }
    ensures parts { WritesAmongParts (map_to_texts_spec W.word K.spec) archive.old archive.new
        root }
{
    let pos = ArchivedHashMap::<K, Text<W>, H, W>::value_pos_in(&*archive, root, key)?;
    Some(uppercase_at::<W>(archive, pos as usize))
}
