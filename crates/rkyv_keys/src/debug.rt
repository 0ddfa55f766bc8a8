//! Formatting of values in archives by `Debug`.
//!
//! `ElementDebug` writes a valid value. `Shown` validates its value again, so formatting it
//! has no condition.

ghost use Rattle.std.specs.Prelude.{◌≡◌, MatchOption};
ghost use Rattle.rkyv_base.specs.{IsAt, IsValidView, Viewable, entry_spec, unit_spec};
ghost use Rattle.rkyv_keys.specs.{shown_view};

use crate::scalars::ScalarKey;
use rkyv_base::{Element, Entry, PartRange, View};
use std::fmt::{self, Debug, Formatter, Write};

/// An element whose values can be formatted in place.
pub trait ElementDebug: Element {
    /// Writes the value, which must be valid, to the formatter.
    fn debug<W: Write>(view: View<'_, Self>, f: &mut Formatter<W>) -> fmt::Result
        requires { IsValidView Self.spec view };
}

/// Returns a view of the value at a position of some bytes, or `None` if it is not valid.
///
/// Its parts can be anywhere before it.
#[inline]
pub fn valid_at<T: Element>(bytes: &[u8], pos: u64) -> Option<View<'_, T>>
    ensures { MatchOption result
        (Viewable T.spec bytes.now pos → ⊥)
        (λ v. IsAt v bytes.entry pos × Viewable T.spec bytes.now pos) }
{
    let len = bytes.len() as u64;
    let size = T::size() as u64;
    if len < size || len - size < pos || pos % T::align() as u64 != 0 {
        return None;
    }
    T::check(bytes, pos, PartRange { lo: 0, hi: pos }).ok()?;
    Some(View::new(bytes, pos))
}

/// A value in an archive, for formatting by `Debug`.
///
/// Formatting validates the value again. It fails if the value is not valid.
///
/// # Examples
///
/// ```rust
/// let shown = format!(in alloc; "{:?}", Shown::new(view));
/// matches!(shown, Ok(shown) if shown.as_str() == text)
/// ```
#[derive_where(Clone, Copy)]
pub struct Shown<'a, T> {
    view: View<'a, T>,
}

impl<'a, T: ElementDebug> Shown<'a, T> {
    /// Returns the value of the view, for formatting.
    #[inline]
    pub fn new(view: View<'a, T>) -> Shown<'a, T>
        ensures { shown_view result ≡ view.entry }
    {
        Shown { view }
    }
}

impl<'a, T: ElementDebug> Debug for Shown<'a, T> {
    fn fmt<W: Write>(&self, f: &mut Formatter<W>) -> fmt::Result {
        match valid_at::<T>(self.view.bytes(), self.view.pos()) {
            Some(view) => T::debug(view, f),
            None => Err(fmt::Error),
        }
    }
}

impl<N: ScalarKey + Debug> ElementDebug for N {
    fn debug<W: Write>(view: View<'_, N>, f: &mut Formatter<W>) -> fmt::Result
        requires { IsValidView N.spec view }
    {
        view.to_native().fmt(f)
    }
}

impl ElementDebug for () {
    fn debug<W: Write>(_view: View<'_, ()>, f: &mut Formatter<W>) -> fmt::Result
        requires { IsValidView unit_spec _view }
    {
        ().fmt(f)
    }
}

impl<K: ElementDebug, V: ElementDebug> ElementDebug for Entry<K, V> {
    fn debug<W: Write>(view: View<'_, Entry<K, V>>, f: &mut Formatter<W>) -> fmt::Result
        requires { IsValidView (entry_spec K.spec V.spec) view }
    {
        f.debug_tuple("")
            .field(&Shown::new(view.key()))
            .field(&Shown::new(view.value()))
            .finish()
    }
}
