//! The implementations of `Scalar` for integers, `bool` and `char`.
//!
//! An integer is little-endian, in as many bytes as its type has. A `bool` is the byte 0 or 1,
//! and a `char` is its code in four bytes.

ghost use Rattle.std.specs.Prelude.{◌≡◌};
ghost use Rattle.std.specs.Int.{w16, w32, w64, w8};
ghost use Rattle.std.proofs.Common.{inl, inr, refl};
ghost use Rattle.rkyv_base.specs.{bool_encoding, char_encoding, scalar_spec, signed, unsigned};
ghost use Rattle.rkyv_base.specs.Lemmas.Numbers.{bool_codes, char_codes};
ghost use Rattle.rkyv_base.specs.Lemmas.Numbers.{signed_codes, unsigned_codes};
ghost use Rattle.rkyv_base.specs.Lemmas.Scalar.{scalar_element, scalar_laws};

use crate::element::HasSpec;
use crate::scalars::Scalar;

impl HasSpec for u8 {
    ghost spec = { scalar_spec (unsigned w8) };

    ghost laws = { scalar_element (unsigned w8) (inl refl) (unsigned_codes w8) };
}

impl Scalar for u8 {
    ghost encoding = { unsigned w8 };

    #[inline]
    fn byte_count() -> usize {
        1
    }

    #[inline]
    fn is_value(_bytes: &[u8]) -> bool {
        true
    }

    #[inline]
    fn read(bytes: &[u8]) -> u8 {
        bytes[0]
    }

    #[inline]
    fn write(self, bytes: &mut [u8]) {
        bytes[0] = self;
    }

    ghost laws = { scalar_laws (unsigned w8) (inl refl) };
}

impl HasSpec for u16 {
    ghost spec = { scalar_spec (unsigned w16) };

    ghost laws = { scalar_element (unsigned w16) (inr (inl refl)) (unsigned_codes w16) };
}

impl Scalar for u16 {
    ghost encoding = { unsigned w16 };

    #[inline]
    fn byte_count() -> usize {
        2
    }

    #[inline]
    fn is_value(_bytes: &[u8]) -> bool {
        true
    }

    #[inline]
    fn read(bytes: &[u8]) -> u16 {
        u16::from_le_bytes([bytes[0], bytes[1]])
    }

    #[inline]
    fn write(self, bytes: &mut [u8]) {
        bytes.copy_from_slice(&self.to_le_bytes());
    }

    ghost laws = { scalar_laws (unsigned w16) (inr (inl refl)) };
}

impl HasSpec for u32 {
    ghost spec = { scalar_spec (unsigned w32) };

    ghost laws = { scalar_element (unsigned w32) (inr (inr (inl refl))) (unsigned_codes w32) };
}

impl Scalar for u32 {
    ghost encoding = { unsigned w32 };

    #[inline]
    fn byte_count() -> usize {
        4
    }

    #[inline]
    fn is_value(_bytes: &[u8]) -> bool {
        true
    }

    #[inline]
    fn read(bytes: &[u8]) -> u32 {
        u32::from_le_bytes([bytes[0], bytes[1], bytes[2], bytes[3]])
    }

    #[inline]
    fn write(self, bytes: &mut [u8]) {
        bytes.copy_from_slice(&self.to_le_bytes());
    }

    ghost laws = { scalar_laws (unsigned w32) (inr (inr (inl refl))) };
}

impl HasSpec for u64 {
    ghost spec = { scalar_spec (unsigned w64) };

    ghost laws = { scalar_element (unsigned w64) (inr (inr (inr refl))) (unsigned_codes w64) };
}

impl Scalar for u64 {
    ghost encoding = { unsigned w64 };

    #[inline]
    fn byte_count() -> usize {
        8
    }

    #[inline]
    fn is_value(_bytes: &[u8]) -> bool {
        true
    }

    #[inline]
    fn read(bytes: &[u8]) -> u64 {
        let b = bytes;
        u64::from_le_bytes([b[0], b[1], b[2], b[3], b[4], b[5], b[6], b[7]])
    }

    #[inline]
    fn write(self, bytes: &mut [u8]) {
        bytes.copy_from_slice(&self.to_le_bytes());
    }

    ghost laws = { scalar_laws (unsigned w64) (inr (inr (inr refl))) };
}

impl HasSpec for i8 {
    ghost spec = { scalar_spec (signed w8) };

    ghost laws = { scalar_element (signed w8) (inl refl) (signed_codes w8) };
}

impl Scalar for i8 {
    ghost encoding = { signed w8 };

    #[inline]
    fn byte_count() -> usize {
        1
    }

    #[inline]
    fn is_value(_bytes: &[u8]) -> bool {
        true
    }

    #[inline]
    fn read(bytes: &[u8]) -> i8 {
        bytes[0].cast_signed()
    }

    #[inline]
    fn write(self, bytes: &mut [u8]) {
        bytes[0] = self.cast_unsigned();
    }

    ghost laws = { scalar_laws (signed w8) (inl refl) };
}

impl HasSpec for i16 {
    ghost spec = { scalar_spec (signed w16) };

    ghost laws = { scalar_element (signed w16) (inr (inl refl)) (signed_codes w16) };
}

impl Scalar for i16 {
    ghost encoding = { signed w16 };

    #[inline]
    fn byte_count() -> usize {
        2
    }

    #[inline]
    fn is_value(_bytes: &[u8]) -> bool {
        true
    }

    #[inline]
    fn read(bytes: &[u8]) -> i16 {
        u16::read(bytes).cast_signed()
    }

    #[inline]
    fn write(self, bytes: &mut [u8]) {
        self.cast_unsigned().write(bytes);
    }

    ghost laws = { scalar_laws (signed w16) (inr (inl refl)) };
}

impl HasSpec for i32 {
    ghost spec = { scalar_spec (signed w32) };

    ghost laws = { scalar_element (signed w32) (inr (inr (inl refl))) (signed_codes w32) };
}

impl Scalar for i32 {
    ghost encoding = { signed w32 };

    #[inline]
    fn byte_count() -> usize {
        4
    }

    #[inline]
    fn is_value(_bytes: &[u8]) -> bool {
        true
    }

    #[inline]
    fn read(bytes: &[u8]) -> i32 {
        u32::read(bytes).cast_signed()
    }

    #[inline]
    fn write(self, bytes: &mut [u8]) {
        self.cast_unsigned().write(bytes);
    }

    ghost laws = { scalar_laws (signed w32) (inr (inr (inl refl))) };
}

impl HasSpec for i64 {
    ghost spec = { scalar_spec (signed w64) };

    ghost laws = { scalar_element (signed w64) (inr (inr (inr refl))) (signed_codes w64) };
}

impl Scalar for i64 {
    ghost encoding = { signed w64 };

    #[inline]
    fn byte_count() -> usize {
        8
    }

    #[inline]
    fn is_value(_bytes: &[u8]) -> bool {
        true
    }

    #[inline]
    fn read(bytes: &[u8]) -> i64 {
        u64::read(bytes).cast_signed()
    }

    #[inline]
    fn write(self, bytes: &mut [u8]) {
        self.cast_unsigned().write(bytes);
    }

    ghost laws = { scalar_laws (signed w64) (inr (inr (inr refl))) };
}

impl HasSpec for bool {
    ghost spec = { scalar_spec bool_encoding };

    ghost laws = { scalar_element bool_encoding (inl refl) bool_codes };
}

impl Scalar for bool {
    ghost encoding = { bool_encoding };

    #[inline]
    fn byte_count() -> usize {
        1
    }

    #[inline]
    fn is_value(bytes: &[u8]) -> bool {
        bytes[0] <= 1
    }

    #[inline]
    fn read(bytes: &[u8]) -> bool {
        bytes[0] == 1
    }

    #[inline]
    fn write(self, bytes: &mut [u8]) {
        bytes[0] = u8::from(self);
    }

    ghost laws = { scalar_laws bool_encoding (inl refl) };
}

impl HasSpec for char {
    ghost spec = { scalar_spec char_encoding };

    ghost laws = { scalar_element char_encoding (inr (inr (inl refl))) char_codes };
}

impl Scalar for char {
    ghost encoding = { char_encoding };

    #[inline]
    fn byte_count() -> usize {
        4
    }

    #[inline]
    fn is_value(bytes: &[u8]) -> bool {
        char::from_u32(u32::read(bytes)).is_some()
    }

    #[inline]
    fn read(bytes: &[u8]) -> char {
        char::from_u32(u32::read(bytes)).unwrap()
    }

    #[inline]
    fn write(self, bytes: &mut [u8]) {
        u32::from(self).write(bytes);
    }

    ghost laws = { scalar_laws char_encoding (inr (inr (inl refl))) };
}
