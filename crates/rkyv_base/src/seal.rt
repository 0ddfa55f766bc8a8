//! Seals: values that are written in place.
//!
//! A `Seal` borrows bytes with one value at a position.
//! An `ArchiveSeal` borrows a whole archive, so other values of it can be read or sealed as well.
//!
//! | To write | Call | Takes |
//! |---|---|---|
//! | a scalar at a position | `set_at` | bytes |
//! | the value of an entry | `set_value` | bytes and the entry's position |
//! | a scalar by its seal | `Seal::set` | a seal |
//! | inline text in upper case | `Seal::make_ascii_uppercase` | a seal |
//! | any bytes, by a closure | `ArchiveSeal::write_with` | a seal of the archive |
//! | a value as its key is read | `ArchiveSeal::split_value`, `split_at_value` | a seal, or bytes |
//!
//! `access_mut` validates untrusted bytes and returns the seal of the root. The modules
//! `map::in_place` of `rkyv_collections` and of `rkyv_index` have the calls that write by a key.

ghost use Rattle.std.specs.Prelude.{◌≡◌, ◌+◌, ◌≤◌, length, take, drop};
ghost use Rattle.std.specs.Borrow.{sem};
ghost use Rattle.rkyv_base.specs.{ArchiveAt, ArchiveStays, EntryStaysValid, IsCodeAt, IsValidView};
ghost use Rattle.rkyv_base.specs.{LendsFrontAndBack, LiesIn, MayWrite, ModifiesOnly, SealAt};
ghost use Rattle.rkyv_base.specs.{SealStays, StaysValid, Viewable, Wrote, archive_in, archive_ref};
ghost use Rattle.rkyv_base.specs.{bytes_in, bytes_of, bytes_ref, entry_spec, pos_in, pos_of};
ghost use Rattle.rkyv_base.specs.{seal_pos, value_at, value_pos, with_value};

use crate::element::Element;
use crate::entry::value_offset;
use crate::scalars::Scalar;
use crate::view::View;
use std::marker::PhantomData;

/// One value that is written in place: the borrowed bytes, and the value's position in them.
pub struct Seal<'a, T> {
    pub(crate) bytes: &'a mut [u8],
    pub(crate) pos: usize,
    kind: PhantomData<T>,
}

impl<'a, T> Drop for Seal<'a, T> {
    fn drop(self)
        ensures { self.exit.0.now ≡ bytes_in self.entry }
    {
        let Seal {
            bytes: _,
            pos: _,
            kind: _,
        } = self;
    }
}

impl<'a, T> Seal<'a, T> {
    /// Returns the seal of the value at a position of some bytes.
    #[inline]
    pub fn over(bytes: &'a mut [u8], pos: usize) -> Seal<'a, T>
        ensures { SealAt result bytes.entry pos }
    {
        Seal {
            bytes,
            pos,
            kind: PhantomData,
        }
    }

    /// Returns the seal as an archive's, to look up a key in a map that is another map's value.
    #[inline]
    pub fn into_archive(self) -> ArchiveSeal<'a, T>
        ensures { ArchiveAt result (bytes_ref self.entry) (seal_pos self.entry) }
    {
        let Seal {
            bytes,
            pos,
            kind: _,
        } = self;
        ArchiveSeal::new(bytes, pos as u64)
    }
}

/// Writes a value at a position of some bytes.
///
/// # Examples
///
/// ```rust
/// let mut bytes = [9; 6];
/// set_at(&mut bytes, 1, 16_909_060u32);
/// assert_eq!(rt; bytes, [9, 4, 3, 2, 1, 9]);
/// ```
#[inline]
pub fn set_at<N: Scalar>(bytes: &mut [u8], pos: usize, value: N)
    requires { pos + N.spec.size ≤ length bytes.old }
    ensures written { bytes.new ≡ with_value N.encoding bytes.old pos value }
    ensures sealed { ModifiesOnly bytes.old pos (N.spec.size) bytes.new }
    ensures reads { value_at N.encoding bytes.new pos ≡ value }
    ensures value { IsCodeAt N.encoding bytes.new pos }
    ensures is_valid { StaysValid N.spec bytes.old bytes.new pos }
{
    value.write(&mut bytes[pos..pos + N::byte_count()]);
}

impl<'a, N: Scalar> Seal<'a, N> {
    /// Returns the value itself, which must be valid and inside the borrowed bytes.
    #[inline]
    pub fn to_native(&self) -> N
        requires inside { LiesIn N.spec self.now }
        requires value { IsCodeAt N.encoding (bytes_in self.now) (seal_pos self.now) }
        ensures { result ≡ value_at N.encoding (bytes_in self.now) (seal_pos self.now) }
    {
        N::read(&self.bytes[self.pos..self.pos + N::byte_count()])
    }

    /// Writes the value, whose bytes must be inside the borrowed bytes.
    #[inline]
    pub fn set(&mut self, value: N)
        requires { LiesIn N.spec self.old }
        ensures stays { SealStays self.old self.new }
        ensures written { bytes_in self.new
            ≡ with_value N.encoding (bytes_in self.old) (seal_pos self.old) value }
        ensures sealed { ModifiesOnly (bytes_in self.old) (seal_pos self.old)
            (N.spec.size) (bytes_in self.new) }
        ensures reads { value_at N.encoding (bytes_in self.new) (seal_pos self.new) ≡ value }
        ensures value { IsCodeAt N.encoding (bytes_in self.new) (seal_pos self.new) }
        ensures is_valid { StaysValid N.spec
            (bytes_in self.old) (bytes_in self.new) (seal_pos self.old) }
    {
        let pos = self.pos;
        let bytes = &mut *self.bytes;
        set_at(bytes, pos, value);
    }
}

/// A whole archive that is written in place, with the position of a value.
pub struct ArchiveSeal<'a, T> {
    archive: &'a mut [u8],
    pos: u64,
    kind: PhantomData<T>,
}

impl<'a, T> Drop for ArchiveSeal<'a, T> {
    fn drop(self)
        ensures { self.exit.0.now ≡ archive_in self.entry }
    {
        let ArchiveSeal {
            archive: _,
            pos: _,
            kind: _,
        } = self;
    }
}

impl<'a, T> ArchiveSeal<'a, T> {
    /// Returns the seal of the value at a position of an archive.
    #[inline]
    pub fn new(archive: &'a mut [u8], pos: u64) -> ArchiveSeal<'a, T>
        ensures { ArchiveAt result archive.entry pos }
    {
        ArchiveSeal {
            archive,
            pos,
            kind: PhantomData,
        }
    }

    /// Returns the position of the value.
    #[inline]
    pub fn pos(&self) -> u64
        ensures { result ≡ pos_in self.now }
    {
        self.pos
    }

    /// Returns the archive and the position.
    #[inline]
    pub fn into_parts(self) -> (&'a mut [u8], u64)
        ensures same_reference { result.0.ghost_name ≡ (archive_ref self.entry).ghost_name }
        ensures bytes { result.0.now ≡ archive_in self.entry }
        ensures pos { result.1 ≡ pos_in self.entry }
    {
        let ArchiveSeal {
            archive,
            pos,
            kind: _,
        } = self;
        (archive, pos)
    }

    /// Reborrows the archive, with the same position.
    #[inline]
    pub fn as_mut(&mut self) -> ArchiveSeal<'_, T>
        ensures bytes { archive_in result ≡ archive_in self.old }
        ensures pos { pos_in result ≡ pos_in self.old }
    {
        let pos = self.pos;
        let archive = &mut *self.archive;
        ArchiveSeal::new(archive, pos)
    }

    /// Calls `write` with the archive and the value's position. It may change any byte.
    #[inline]
    pub fn write_with<F: FnOnce(&mut [u8], u64)>(&mut self, write: F)
        requires { MayWrite F.pre write (archive_in self.old) (pos_in self.old) }
        ensures stays { ArchiveStays self.old self.new }
        ensures written { Wrote F.post write tt (archive_in self.old) (pos_in self.old)
            (archive_in self.new) }
    {
        let pos = self.pos;
        let archive = &mut *self.archive;
        write(archive, pos);
    }

    /// Returns the seal of a valid `U` at another position of the archive.
    #[inline]
    pub fn seal_at<U: Element>(self, pos: u64) -> Seal<'a, U>
        requires { Viewable U.spec (archive_in self) pos }
        ensures at { SealAt result (archive_ref self.entry) pos }
    {
        let (archive, _) = self.into_parts();
        Seal::over(archive, pos as usize)
    }

    /// Returns the seal of the value of an entry, which must be inside the archive.
    #[inline]
    pub fn value_seal<K: Element, V: Element>(self, entry_pos: u64) -> Seal<'a, V>
        requires { value_pos K.spec V.spec entry_pos + V.spec.size ≤ length (archive_in self) }
        ensures at { SealAt result (archive_ref self.entry)
            (value_pos K.spec V.spec entry_pos) }
        ensures inside { LiesIn V.spec result }
    {
        let (archive, _) = self.into_parts();
        Seal::over(archive, entry_pos as usize + value_offset::<K, V>())
    }

    /// Returns a view of the key of the valid entry at `entry_pos`, and a seal of its value.
    ///
    /// The view borrows the bytes before the value, the seal the rest.
    #[inline]
    pub fn split_value<K: Element, V: Element>(self, entry_pos: u64) -> (View<'a, K>, Seal<'a, V>)
        requires { Viewable (entry_spec K.spec V.spec) (archive_in self) entry_pos }
        ensures key { bytes_of result.0
            ≡ take (value_pos K.spec V.spec entry_pos) (archive_in self.entry) }
        ensures key_pos { pos_of result.0 ≡ entry_pos }
        ensures viewable { IsValidView K.spec result.0 }
        ensures value { bytes_in result.1
            ≡ drop (value_pos K.spec V.spec entry_pos) (archive_in self.entry) }
        ensures value_pos { seal_pos result.1 ≡ 0 }
        ensures inside { LiesIn V.spec result.1 }
        ensures kept { EntryStaysValid K.spec V.spec (archive_in self.entry) entry_pos }
    {
        let (archive, _) = self.into_parts();
        let begin = entry_pos as usize + value_offset::<K, V>();
        let (front, back) = archive.split_at_mut(begin);
        (View::new(front, entry_pos), Seal::over(back, 0))
    }
}

impl<'a, T: Element> ArchiveSeal<'a, T> {
    /// Returns a view of the value, which must be valid.
    #[inline]
    pub fn as_view(&self) -> View<'_, T>
        requires { Viewable T.spec (archive_in self.now) (pos_in self.now) }
        ensures bytes { bytes_of result ≡ archive_in self.now }
        ensures pos { pos_of result ≡ pos_in self.now }
        ensures viewable { IsValidView T.spec result }
    {
        View::new(&*self.archive, self.pos)
    }
}

/// Splits an archive into the bytes before the value of an entry, and the rest.
#[inline]
pub fn split_at_value<K: Element, V: Element>(
    archive: &mut [u8],
    entry_pos: u64,
) -> (&mut [u8], &mut [u8])
    requires { value_pos K.spec V.spec entry_pos ≤ length archive.old }
    ensures* writes_back { sem 𝓛 (LendsFrontAndBack archive.entry result) }
    ensures front { result.0.now ≡ take (value_pos K.spec V.spec entry_pos) archive.old }
    ensures back { result.1.now ≡ drop (value_pos K.spec V.spec entry_pos) archive.old }
{
    let begin = entry_pos as usize + value_offset::<K, V>();
    archive.split_at_mut(begin)
}

/// Writes the value of the valid entry at a position of an archive.
#[inline]
pub fn set_value<K: Element, N: Scalar>(archive: &mut [u8], entry_pos: u64, value: N)
    requires { Viewable (entry_spec K.spec N.spec) archive.old entry_pos }
    ensures written { archive.new ≡ with_value N.encoding archive.old
        (value_pos K.spec N.spec entry_pos) value }
    ensures sealed { ModifiesOnly archive.old (value_pos K.spec N.spec entry_pos)
        (N.spec.size) archive.new }
    ensures reads { value_at N.encoding archive.new
        (value_pos K.spec N.spec entry_pos) ≡ value }
    ensures is_valid { StaysValid (entry_spec K.spec N.spec)
        archive.old archive.new entry_pos }
    ensures viewable { Viewable (entry_spec K.spec N.spec) archive.new entry_pos }
{
    set_at(archive, entry_pos as usize + value_offset::<K, N>(), value);
}
