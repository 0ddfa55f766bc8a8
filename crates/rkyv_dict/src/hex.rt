//! Bytes as hexadecimal digits, and back.
ghost use Rattle.rkyv_dict.specs.{byte_of_digits, bytes_of_digits, hex_of, hex_of_byte};
ghost use Rattle.std.specs.Char.{digit_value, is_ascii_hexdigit};
ghost use Rattle.std.specs.Option.{option_map};
ghost use Rattle.std.specs.Prelude.{◌≡◌, ◌<◌, ◌≤◌, ◌++◌, IfOk, IfSome, None, OnErr, OnOk, Some};
ghost use Rattle.std.specs.Prelude.{if◌then◌else◌, length, string_bytes};

use std::alloc::{AllocError, Global};

#[tactic(auto, using(std::proofs::lemmas::Fmt::hex_byte))]
fn push_byte(text: &mut String, byte: u8) -> Result<(), AllocError>
    ensures { OnOk result (string_bytes text.new ≡ string_bytes text.old ++ hex_of_byte byte) }
{
    write!(text, "{byte:02x}")
}

/// Appends each byte as two lower case digits. After `AllocError`, `text` is unspecified.
pub fn push_hex(text: &mut String, bytes: &[u8]) -> Result<(), AllocError>
    ensures { OnOk result (string_bytes text.new ≡ string_bytes text.old ++ hex_of bytes.now) }
{
    for byte in bytes {
        push_byte(text, *byte)?;
    }
    Ok(())
}

fn digit(glyph: u8) -> Option<u8>
    ensures value { result
        ≡ (if is_ascii_hexdigit glyph then Some (digit_value glyph) else None) }
    ensures small { IfSome result (λ d. d < 16) }
{
    match glyph {
        b'0'..=b'9' => Some(glyph - b'0'),
        b'a'..=b'f' => Some(glyph - b'a' + 10),
        b'A'..=b'F' => Some(glyph - b'A' + 10),
        _ => None,
    }
}

#[tactic(auto, unfolding(crate::specs::Hex::byte_of_digits))]
fn byte_of(high: u8, low: u8) -> Option<u8>
    ensures { result ≡ byte_of_digits high low }
{
    let high = digit(high)?;
    let low = digit(low)?;
    Some(high * 16 + low)
}

/// Returns the bytes of pairs of digits of either case, or `None` if the input isn't such pairs.
///
/// Fails with `AllocError` only if there are at least two digits.
pub fn read_hex(alloc: Global, digits: &[u8]) -> Result<Option<Vec<u8>>, AllocError>
    ensures bytes { IfOk result (λ bytes.
        option_map (λ v. v.items) bytes ≡ bytes_of_digits digits.now) }
    ensures allocates { OnErr result (2 ≤ length digits.now) }
{
    let mut bytes = Vec::with_capacity(alloc, digits.len() / 2)?;
    let mut rest = digits;
    while let [high, low, more @ ..] = rest {
        let Some(byte) = byte_of(*high, *low) else {
            return Ok(None);
        };
        bytes.push(byte)?;
        rest = more;
    }
    if rest.is_empty() {
        Ok(Some(bytes))
    } else {
        Ok(None)
    }
}
