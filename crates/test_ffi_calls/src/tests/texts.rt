//! Tests of the validation of texts.

use ffi_calls::texts::is_text;

#[test]
fn texts_are_utf8(rt: HostRuntime) {
    assert!(rt; is_text(b"") && is_text(b"main") && is_text(&[0xc3, 0xa9]));
    assert!(rt; !is_text(&[0x80]) && !is_text(&[0xc3]) && !is_text(&[0x61, 0xff]));
}
