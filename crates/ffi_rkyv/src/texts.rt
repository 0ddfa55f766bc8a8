//! The validation of texts.

ghost use Rattle.std.specs.Prelude.{IsTrue, ◌↔◌};
ghost use Rattle.std.specs.Str.{IsUtf8};

use ffi_calls::texts::is_text;

/// Returns whether the bytes are a text: UTF-8.
#[unsafe(no_mangle)]
pub extern "C" fn hk_c_is_text(bytes: &[u8]) -> bool
    ensures { IsTrue result ↔ IsUtf8 bytes.now }
{
    is_text(bytes)
}
