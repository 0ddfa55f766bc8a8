//! The types of keys and values that are shown.
ghost use Rattle.std.specs.Int.{w32, w64};
ghost use Rattle.rkyv_base.specs.{IsValidView, scalar_spec, text_spec, unit_spec, unsigned};

use rkyv_base::{Element, Entry, PartRange, Text, View, Width};
use rkyv_keys::{ElementDebug, Shown, valid_at};
use std::alloc::{AllocError, Global};

/// The position of the out-of-line bytes of a value.
#[derive(Clone, Copy, Debug, PartialEq, Eq)]
pub struct Part {
    /// The position of the first byte.
    pub begin: usize,
    /// The position after the last byte.
    pub end: usize,
}

/// A type of keys and values that is shown.
pub trait Field: ElementDebug {
    /// Returns `false` if the values have no text, as for the unit type.
    fn has_text() -> bool {
        true
    }

    /// Returns the out-of-line bytes of a valid value, or `None` if it has none.
    fn part(view: View<'_, Self>) -> Option<Part>
        requires { IsValidView Self.spec view };
}

impl Field for u32 {
    fn part(_view: View<'_, u32>) -> Option<Part>
        requires { IsValidView (scalar_spec (unsigned w32)) _view }
    {
        None
    }
}

impl Field for u64 {
    fn part(_view: View<'_, u64>) -> Option<Part>
        requires { IsValidView (scalar_spec (unsigned w64)) _view }
    {
        None
    }
}

impl Field for () {
    fn has_text() -> bool {
        false
    }

    fn part(_view: View<'_, ()>) -> Option<Part>
        requires { IsValidView unit_spec _view }
    {
        None
    }
}

impl<W: Width> Field for Text<W> {
    fn part(view: View<'_, Text<W>>) -> Option<Part>
        requires { IsValidView (text_spec W.word) view }
    {
        let range = PartRange {
            lo: 0,
            hi: view.pos(),
        };
        let rest = Text::<W>::check(view.bytes(), view.pos(), range).ok()?;
        if rest.lo == 0 {
            return None;
        }
        let end = rest.lo as usize;
        let begin = end.checked_sub(view.as_str().len())?;
        Some(Part { begin, end })
    }
}

/// Returns the text of the pair at a position: a name with an integer, the key and the value.
pub(crate) fn pair_text<K: Field, V: Field>(
    alloc: Global,
    name: &str,
    number: usize,
    bytes: &[u8],
    pos: usize,
) -> Result<String, AllocError> {
    let Some(entry) = valid_at::<Entry<K, V>>(bytes, pos as u64) else {
        return format!(in alloc; "{name} {number}");
    };
    let key = Shown::new(entry.key());
    if V::has_text() {
        let value = Shown::new(entry.value());
        format!(in alloc; "{name} {number}: key {key:?}, value {value:?}")
    } else {
        format!(in alloc; "{name} {number}: key {key:?}")
    }
}
