//! The values of maps, as numbers of 64 bits.

ghost use Rattle.std.specs.Prelude.{IfSome, MatchOption, ◌<◌, ◌^◌, ◌≡◌, ◌≤◌};
ghost use mir.Val.{bits};

use rkyv_base::Scalar;

/// The value of a key, which is a number.
pub(crate) trait Value: Scalar {
    /// Returns the value of a number, or `None` if the number has more bits than values.
    fn of_number(number: u64) -> Option<Self>
        ensures exact { MatchOption result (2 ^ bits Self.encoding.word ≤ number)
            (λ value. Self.encoding.code value ≡ number) }
        ensures read { IfSome result (λ value. (number < 2 ^ bits Self.encoding.word)
            × (value ≡ Self.encoding.value number)) };
}

impl Value for u8 {
    #[inline]
    fn of_number(number: u64) -> Option<u8> {
        u8::try_from(number).ok()
    }
}

impl Value for u16 {
    #[inline]
    fn of_number(number: u64) -> Option<u16> {
        u16::try_from(number).ok()
    }
}

impl Value for u32 {
    #[inline]
    fn of_number(number: u64) -> Option<u32> {
        u32::try_from(number).ok()
    }
}

impl Value for u64 {
    #[inline]
    fn of_number(number: u64) -> Option<u64> {
        Some(number)
    }
}
