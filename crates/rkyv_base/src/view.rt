//! Views: values that are read in place. The bytes at a view's position must be a valid value.
//!
//! - `to_native` returns a scalar, and `as_str` of the module `text` a text.
//! - `key` and `value` return views of the key and the value of an entry.
//! - `at` returns a view of another value of the same archive.

ghost use Rattle.std.specs.Prelude.{◌≡◌, ◌+◌};
ghost use Rattle.rkyv_base.specs.{AtView, IsAt, IsValidView, ScalarRepresents, Viewable};
ghost use Rattle.rkyv_base.specs.{archive_of, bytes_of, entry_spec, pos_of, pos_of_found};
ghost use Rattle.rkyv_base.specs.{value_offset};

use crate::element::Element;
use crate::entry::{Entry, value_offset};
use crate::scalars::Scalar;
use std::marker::PhantomData;

/// The bytes of an archive, and the position of a value of the element `T`.
#[derive_where(Clone, Copy)]
pub struct View<'a, T> {
    archive: &'a [u8],
    pos: u64,
    kind: PhantomData<T>,
}

impl<'a, T: Element> View<'a, T> {
    /// Returns the view of the valid `T` at a position of some bytes.
    #[inline]
    pub fn new(archive: &'a [u8], pos: u64) -> View<'a, T>
        requires { Viewable T.spec archive.now pos }
        ensures { IsAt result archive.entry pos }
    {
        View {
            archive,
            pos,
            kind: PhantomData,
        }
    }

    /// Returns the position of the value.
    #[inline]
    pub fn pos(self) -> u64
        ensures { result ≡ pos_of self.entry }
    {
        self.pos
    }

    /// Returns the bytes of the whole archive.
    #[inline]
    pub fn bytes(self) -> &'a [u8]
        ensures { result ≡ archive_of self.entry }
    {
        self.archive
    }

    /// Returns the view of the valid `U` at another position of the same archive.
    #[inline]
    pub fn at<U: Element>(self, pos: u64) -> View<'a, U>
        requires { Viewable U.spec (bytes_of self) pos }
        ensures { IsAt result (archive_of self.entry) pos }
    {
        View::new(self.archive, pos)
    }
}

/// Returns the position of a found value, or `None` if none is found.
#[inline]
pub fn found_pos<T: Element>(found: Option<View<'_, T>>) -> Option<u64>
    ensures { result ≡ pos_of_found found.entry }
{
    Some(found?.pos())
}

impl<'a, N: Scalar> View<'a, N> {
    /// Returns the value itself.
    #[inline]
    pub fn to_native(self) -> N
        requires { IsValidView N.spec self }
        ensures { AtView (ScalarRepresents N.encoding) self.entry result }
    {
        let at = self.pos as usize;
        N::read(&self.archive[at..at + N::byte_count()])
    }
}

/// The views of a key and its value.
pub type PairView<'a, K, V> = (View<'a, K>, View<'a, V>);

impl<'a, K: Element, V: Element> View<'a, Entry<K, V>> {
    /// Returns the view of the key of the entry.
    #[inline]
    pub fn key(self) -> View<'a, K>
        requires { IsValidView (entry_spec K.spec V.spec) self }
        ensures at { IsAt result (archive_of self.entry) (pos_of self.entry) }
        ensures viewable { IsValidView K.spec result }
    {
        self.at::<K>(self.pos)
    }

    /// Returns the view of the value of the entry.
    #[inline]
    pub fn value(self) -> View<'a, V>
        requires { IsValidView (entry_spec K.spec V.spec) self }
        ensures at { IsAt result (archive_of self.entry)
            (pos_of self.entry + value_offset K.spec V.spec) }
        ensures viewable { IsValidView V.spec result }
    {
        self.at::<V>(self.pos + value_offset::<K, V>() as u64)
    }
}
