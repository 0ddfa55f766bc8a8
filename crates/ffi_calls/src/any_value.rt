//! Keys and values of any type, as calls take and store them.
//!
//! A number is in 64 bits. A text and a byte string are their bytes.

ghost use Rattle.std.specs.Prelude.{MatchOption, MatchResult, ◌≡◌, List, ℕ};
ghost use Rattle.std.specs.Str.{IsUtf8};
ghost use Rattle.rkyv_base.specs.{AtView, IsValidView, byte_string_spec, text_spec, unit_spec};
ghost use Rattle.ffi_calls.specs.{HasCode, HasNumber, IsCodeNumber, IsNoCode, IsNoText, ReadsBytes};
ghost use Rattle.ffi_calls.specs.{ReadsByteString, ReadsNumber, ReadsUnit, IsTextFor, Never, IsAny};
ghost use Rattle.ffi_calls.specs.declared.any_value.AnyValue.{AnyValue};

use crate::from_any::FromAny;
use crate::status::{NOT_TEXT, VALUE_TOO_LARGE};
use rkyv_base::{Bytes, Element, Scalar, Text, View, Width};

/// A key or a value of any type: a number, or bytes.
#[repr(C)]
#[derive(Clone, Copy)]
pub struct AnyValue<'a> {
    /// The number, or the bits of a signed integer. It is 0 for a text, a byte string and a unit.
    pub number: u64,
    /// The bytes of a text or of a byte string. There are none for a number and for a unit.
    pub bytes: &'a [u8],
}

/// A pair of a collection, or an item of a set with the unit value.
#[repr(C)]
#[derive(Clone, Copy)]
pub struct AnyItem<'a> {
    /// The bucket, or the index in an index map and in an index set, at which iteration continues.
    pub next: u64,
    /// The key.
    pub key: AnyValue<'a>,
    /// The value.
    pub value: AnyValue<'a>,
}

/// A key and a value to be archived. An item of a set is a key, and its value is not read.
#[repr(C)]
#[derive(Clone, Copy)]
pub struct AnyPair<'a> {
    /// The key.
    pub key: AnyValue<'a>,
    /// The value.
    pub value: AnyValue<'a>,
}

/// The value of a pair, which is the unit in a set, and the index of the pair.
#[repr(C)]
#[derive(Clone, Copy)]
pub struct IndexedValue<'a> {
    /// The index of the pair in insertion order. It is 0 in a hash map and in a hash set.
    pub index: usize,
    /// The value of the pair.
    pub value: AnyValue<'a>,
}

/// A lookup: its key at first, and then its status, and the value and the index that it finds.
#[repr(C)]
#[derive(Clone, Copy)]
pub struct LookedUp<'a> {
    /// The status of the lookup.
    pub status: u32,
    /// The value is the key at first. If the status is 0, it is the pair's value, beside its index.
    pub found: IndexedValue<'a>,
}

/// A scalar whose number has at most 64 bits.
pub trait Number: Scalar {
    /// Returns the value of a number, or `None` if no value has the number.
    fn of_number(number: u64) -> Option<Self>
        ensures { MatchOption result (IsNoCode Self.encoding number)
            (HasCode Self.encoding number) };

    /// Returns the number of a value.
    fn to_number(self) -> u64
        ensures { result ≡ Self.encoding.code self };
}

impl Number for u8 {
    #[inline]
    fn of_number(number: u64) -> Option<u8> {
        u8::try_from(number).ok()
    }

    #[inline]
    fn to_number(self) -> u64 {
        u64::from(self)
    }
}

impl Number for u16 {
    #[inline]
    fn of_number(number: u64) -> Option<u16> {
        u16::try_from(number).ok()
    }

    #[inline]
    fn to_number(self) -> u64 {
        u64::from(self)
    }
}

impl Number for u32 {
    #[inline]
    fn of_number(number: u64) -> Option<u32> {
        u32::try_from(number).ok()
    }

    #[inline]
    fn to_number(self) -> u64 {
        u64::from(self)
    }
}

impl Number for u64 {
    #[inline]
    fn of_number(number: u64) -> Option<u64> {
        Some(number)
    }

    #[inline]
    fn to_number(self) -> u64 {
        self
    }
}

impl Number for bool {
    #[inline]
    fn of_number(number: u64) -> Option<bool> {
        match number {
            0 => Some(false),
            1 => Some(true),
            _ => None,
        }
    }

    #[inline]
    fn to_number(self) -> u64 {
        u64::from(self)
    }
}

impl Number for char {
    #[inline]
    fn of_number(number: u64) -> Option<char> {
        char::from_u32(u32::try_from(number).ok()?)
    }

    #[inline]
    fn to_number(self) -> u64 {
        u64::from(u32::from(self))
    }
}

impl<'a, N: Number> FromAny<AnyValue<'a>> for N {
    ghost is_value = { λ value. IsCodeNumber N.encoding value.number };

    ghost shows = { HasNumber N.encoding };

    ghost is_none = { λ value status. IsNoCode N.encoding value.number × (status ≡ 3) };

    #[inline]
    fn from_any(value: AnyValue<'a>) -> Result<N, u32> {
        N::of_number(value.number).ok_or(VALUE_TOO_LARGE)
    }
}

impl<'a> FromAny<AnyValue<'a>> for &'a str {
    ghost is_value = { λ value. IsUtf8 value.bytes.now };

    ghost shows = { IsTextFor };

    ghost is_none = { λ value status. IsNoText value × (status ≡ 4) };

    #[inline]
    fn from_any(value: AnyValue<'a>) -> Result<&'a str, u32> {
        str::from_utf8(value.bytes).map_err(|_| NOT_TEXT)
    }
}

impl<'a> FromAny<AnyValue<'a>> for &'a [u8] {
    ghost is_value = { λ value. Unit };

    ghost shows = { IsTextFor };

    ghost is_none = { Never };

    #[inline]
    fn from_any(value: AnyValue<'a>) -> Result<&'a [u8], u32> {
        Ok(value.bytes)
    }
}

impl<'a> FromAny<AnyValue<'a>> for () {
    ghost is_value = { λ value. Unit };

    ghost shows = { IsAny };

    ghost is_none = { Never };

    #[inline]
    fn from_any(_value: AnyValue<'a>) -> Result<(), u32> {
        Ok(())
    }
}

/// An element whose values are stored as `AnyValue`.
pub trait ToAny: Element {
    // The stored value at a position.
    ghost any: { List ℕ → ℕ → AnyValue → Type 0 };

    /// Returns a value as it is stored.
    ///
    /// # Requires
    ///
    /// - The view is of a valid value.
    fn to_any<'a>(view: View<'a, Self>) -> AnyValue<'a>
        requires { IsValidView Self.spec view }
        ensures { AtView any view.entry result };
}

impl<N: Number> ToAny for N {
    ghost any = { ReadsNumber N.encoding };

    #[inline]
    fn to_any<'a>(view: View<'a, N>) -> AnyValue<'a>
        requires { IsValidView N.spec view }
        ensures { AtView (ReadsNumber N.encoding) view.entry result }
    {
        AnyValue {
            number: view.to_native().to_number(),
            bytes: &[],
        }
    }
}

impl<W: Width> ToAny for Text<W> {
    ghost any = { ReadsBytes W.word };

    #[inline]
    fn to_any<'a>(view: View<'a, Text<W>>) -> AnyValue<'a>
        requires { IsValidView (text_spec W.word) view }
        ensures { AtView (ReadsBytes W.word) view.entry result }
    {
        AnyValue {
            number: 0,
            bytes: view.as_str().as_bytes(),
        }
    }
}

impl<W: Width> ToAny for Bytes<W> {
    ghost any = { ReadsByteString W.word };

    #[inline]
    fn to_any<'a>(view: View<'a, Bytes<W>>) -> AnyValue<'a>
        requires { IsValidView (byte_string_spec W.word) view }
        ensures { AtView (ReadsByteString W.word) view.entry result }
    {
        AnyValue {
            number: 0,
            bytes: view.as_slice(),
        }
    }
}

impl ToAny for () {
    ghost any = { ReadsUnit };

    #[inline]
    fn to_any<'a>(_view: View<'a, ()>) -> AnyValue<'a>
        requires { IsValidView unit_spec _view }
        ensures { AtView ReadsUnit _view.entry result }
    {
        AnyValue {
            number: 0,
            bytes: &[],
        }
    }
}
