//! Integers in the fields of a header.

ghost use Rattle.std.specs.Prelude.{◌≡◌, length};
ghost use Rattle.std.specs.Int.{from_le_bytes, to_le_bytes, w16, w32, w64};

pub(crate) fn read_u16(field: &[u8]) -> u16
    requires { length field.now ≡ 2 }
    ensures number { result ≡ from_le_bytes w16 field.now }
    ensures bytes { to_le_bytes w16 result ≡ field.now }
{
    u16::from_le_bytes([field[0], field[1]])
}

pub(crate) fn read_u32(field: &[u8]) -> u32
    requires { length field.now ≡ 4 }
    ensures number { result ≡ from_le_bytes w32 field.now }
    ensures bytes { to_le_bytes w32 result ≡ field.now }
{
    u32::from_le_bytes([field[0], field[1], field[2], field[3]])
}

pub(crate) fn read_u64(field: &[u8]) -> u64
    requires { length field.now ≡ 8 }
    ensures number { result ≡ from_le_bytes w64 field.now }
    ensures bytes { to_le_bytes w64 result ≡ field.now }
{
    let b = field;
    u64::from_le_bytes([b[0], b[1], b[2], b[3], b[4], b[5], b[6], b[7]])
}
