//! Calls of a closure with a seal of each value of a map.
//!
//! `map::in_place` has a table of all calls that write values.
ghost use Rattle.std.specs.Prelude.{length, ◌≡◌, ◌≤◌};
ghost use Rattle.rkyv_base.specs.{Viewable, value_pos};
ghost use Rattle.rkyv_keys.specs.{archived_hash};
ghost use Rattle.rkyv_table.specs.{KeepsSeals, MaySealAny, SealedBy, WritesInTurn, WritesValues};
ghost use Rattle.rkyv_collections.specs.{KeepsKeys, WritesEachValue, key_positions_at, map_at};
ghost use Rattle.rkyv_collections.specs.{map_spec, value_positions_at};

use crate::map::ArchivedHashMap;
use rkyv_base::{Element, Entry, Seal, Width, value_offset};
use rkyv_keys::KeyElement;
use rkyv_scan::KeyHasher;
use rkyv_table::ArchivedHashTable;

#[inline]
fn value_behind<K: Element, V: Element>(bytes: &[u8], pos: u64) -> u64
    requires { value_pos K.spec V.spec pos ≤ length bytes.now }
    ensures { result ≡ value_pos K.spec V.spec pos }
{
    pos + value_offset::<K, V>() as u64
}

fn seal_values<K: Element, V: Element, W: Width, F: Fn(&mut Seal<'_, V>)>(
    archive: &mut [u8],
    root: u64,
    write: &F,
)
    requires map { Viewable (map_spec W.word K.spec V.spec) archive.old root }
    requires callable { MaySealAny F.pre V.spec write.now }
    requires keeps { KeepsSeals F.post V.spec write.now }
    ensures { WritesInTurn
        (λ b q c. SealedBy F.post write.now tt b (value_pos K.spec V.spec q) c)
        (key_positions_at W.word K.spec V.spec archive.old root) archive.old archive.new }
{
    let mut rest = ArchivedHashTable::<Entry<K, V>, W>::raw_iter_over(archive, root);
    while let Some(key) = rest.next_pos() {
        let pos = value_behind::<K, V>(rest.bytes(), key);
        rest.seal_with(pos, write);
    }
}

impl<'a, K: KeyElement, V: Element, H: KeyHasher, W: Width> ArchivedHashMap<'a, K, V, H, W> {
    /// Calls `write` once with a seal of each value of the map at `root`, in bucket order.
    ///
    /// Requires that each call of `write` only writes the value, and keeps it valid.
    pub fn for_each_value<F: Fn(&mut Seal<'_, V>)>(archive: &mut [u8], root: u64, write: F)
        requires map { Viewable (map_spec W.word K.spec V.spec) archive.old root }
        requires write { WritesValues F.pre F.post V.spec write }
        ensures writes { WritesInTurn (SealedBy F.post write tt)
            (value_positions_at W.word K.spec V.spec archive.old root) archive.old archive.new }
        ensures each { WritesEachValue (map_at W.Word K.HasSpec V.HasSpec archive.old root)
            (SealedBy F.post write tt) archive.new }
        ensures kept { KeepsKeys (map_at W.Word K.HasSpec V.HasSpec archive.old root)
            (archived_hash H.KeyHasher K.KeyElement) archive.new }
    {
        seal_values::<K, V, W, F>(archive, root, &write);
    }
}
