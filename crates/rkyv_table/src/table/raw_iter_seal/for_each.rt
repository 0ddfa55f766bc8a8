//! Calls of a closure with a seal of each item of a table.
//!
//! `for_each_seal` writes all items. Its contract covers all bytes of the archive afterwards.
//! `seal_with` of a cursor writes one value, at a position.
ghost use Rattle.std.specs.Prelude.{◌≡◌};
ghost use Rattle.rkyv_base.specs.{Viewable};
ghost use Rattle.rkyv_table.specs.{KeepsItems, KeepsSeals, MaySeal, MaySealAny, SealedBy};
ghost use Rattle.rkyv_table.specs.{StaysThere, WritesEachOnce, WritesInTurn, WritesValues};
ghost use Rattle.rkyv_table.specs.{cursor_bytes, item_positions, table_spec};

use crate::table::ArchivedHashTable;
use crate::table::raw_iter_seal::RawIterSeal;
use rkyv_base::{Element, Seal, Width};

#[inline]
fn lend_next<T, R, F: Fn(&mut Seal<'_, T>) -> R>(bytes: &mut [u8], pos: usize, write: &F) -> R
    requires { MaySeal F.pre write.now bytes.old pos }
    ensures { SealedBy F.post write.now result bytes.old pos bytes.new }
{
    let mut seal = Seal::<T>::over(bytes, pos);
    write(&mut seal)
}

impl<'a, T> RawIterSeal<'a, T> {
    /// Calls `write` with a seal of the value at `pos` of the archive.
    #[inline]
    pub fn seal_with<U, F: Fn(&mut Seal<'_, U>)>(&mut self, pos: u64, write: &F)
        requires { MaySeal F.pre write.now (cursor_bytes self.old) pos }
        ensures stays { StaysThere self.old self.new }
        ensures written { SealedBy F.post write.now tt (cursor_bytes self.old) pos
            (cursor_bytes self.new) }
    {
        let bytes = &mut *self.archive;
        lend_next(bytes, pos as usize, write);
    }
}

fn seal_in_turn<T: Element, W: Width, F: Fn(&mut Seal<'_, T>)>(
    archive: &mut [u8],
    pos: u64,
    write: &F,
)
    requires table { Viewable (table_spec W.word T.spec) archive.old pos }
    requires callable { MaySealAny F.pre T.spec write.now }
    requires keeps { KeepsSeals F.post T.spec write.now }
    ensures { WritesInTurn (SealedBy F.post write.now tt)
        (item_positions W.word T.spec.size archive.old pos) archive.old archive.new }
{
    let mut rest = ArchivedHashTable::<T, W>::raw_iter_over(archive, pos);
    while let Some(next) = rest.next_pos() {
        rest.seal_with(next, write);
    }
}

impl<'a, T: Element, W: Width> ArchivedHashTable<'a, T, W> {
    /// Calls `write` with a seal of each item of the table at `pos` of an archive, in bucket order.
    ///
    /// Each call must write only its item, keep it valid, and keep the seal's reference.
    ///
    /// # Examples
    ///
    /// ```rust
    /// // Adds 1 to each number of an archived table.
    /// fn add_one(bytes: &mut [u8]) -> Result<(), VerifyError> {
    ///     let pos = access::<TableOf<u8>>(&*bytes)?.pos();
    ///     ArchivedHashTable::<u8, Narrow>::for_each_seal(bytes, pos, |seal: &mut Seal<'_, u8>| {
    ///         let value = seal.to_native();
    ///         seal.set(value.wrapping_add(1));
    ///     });
    ///     Ok(())
    /// }
    /// ```
    pub fn for_each_seal<F: Fn(&mut Seal<'_, T>)>(archive: &mut [u8], pos: u64, write: F)
        requires table { Viewable (table_spec W.word T.spec) archive.old pos }
        requires write { WritesValues F.pre F.post T.spec write }
        ensures writes { WritesInTurn (SealedBy F.post write tt)
            (item_positions W.word T.spec.size archive.old pos) archive.old archive.new }
        ensures each { WritesEachOnce W.word T.spec (SealedBy F.post write tt)
            archive.old pos archive.new }
        ensures kept { KeepsItems W.word T.spec archive.old archive.new pos }
    {
        seal_in_turn::<T, W, F>(archive, pos, &write);
    }
}
