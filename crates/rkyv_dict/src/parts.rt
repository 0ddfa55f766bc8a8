//! The keys and values of a dictionary's archives, and how they are printed.

ghost use Rattle.std.specs.Prelude.{ℕ, List};
ghost use Rattle.rkyv_base.specs.{IsValidView, text_at, text_spec};
ghost use Rattle.rkyv_keys.specs.{at_view};
ghost use Rattle.rkyv_dict.specs.{AppendsText, number_spec, number_text};

use rkyv_base::{Text, View, Width};
use rkyv_collections::KeyElement;
use std::alloc::AllocError;

/// A key or a value in an archive.
pub trait Printable: KeyElement {
    // The bytes of the printed key or value at a position of an archive.
    ghost text: { List ℕ → ℕ → List ℕ };

    /// Appends the printed key or value. After `AllocError`, the bytes of `out` are unspecified.
    fn push(view: View<'_, Self>, out: &mut String) -> Result<(), AllocError>
        requires { IsValidView Self.spec view }
        ensures { AppendsText result out.old out.new (at_view text view.entry) };
}

impl Printable for u32 {
    ghost text = { number_text };

    fn push(view: View<'_, u32>, out: &mut String) -> Result<(), AllocError>
        requires { IsValidView number_spec view }
        ensures { AppendsText result out.old out.new (at_view number_text view.entry) }
    {
        let number = view.to_native();
        write!(out, "{number}")
    }
}

impl<W: Width> Printable for Text<W> {
    ghost text = { text_at W.word };

    fn push(view: View<'_, Text<W>>, out: &mut String) -> Result<(), AllocError>
        requires { IsValidView (text_spec W.word) view }
        ensures { AppendsText result out.old out.new (at_view (text_at W.word) view.entry) }
    {
        let text = view.as_str();
        write!(out, "{text}")
    }
}
