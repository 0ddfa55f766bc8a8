//! The header of a container.
//!
//! | Bytes | Field |
//! |---|---|
//! | 0 to 7 | `MAGIC` |
//! | 8, 9 | `VERSION` |
//! | 10 to 13 | the codes of the kind, the key type, the value type and the width |
//! | 14, 15 | flags; the lowest bit is set if there is a checksum |
//! | 16 to 23 | the length of the archive |
//! | 24 to 27 | the checksum, or 0 |
//! | 28 to 31 | zeros |
//!
//! Integers are little-endian. `Header::read` checks all fields but the length, in this order.

ghost use Rattle.std.specs.Prelude.{◌≡◌, ◌↔◌, MatchResult, length};
ghost use Rattle.std.specs.Int.{from_le_bytes, w16, w32};
ghost use Rattle.rkyv_container.specs.{AllPass, FirstFails, IsChecksumField, IsHeader, code_checks};
ghost use Rattle.rkyv_container.specs.{contents_bytes, flag_checks, flags_of, header_bytes};
ghost use Rattle.rkyv_container.specs.{header_checks, header_of, magic, start_checks};

use crate::checksum::adler32;
use crate::contents::{Contents, ItemType, Kind, Width};
use crate::errors::ContainerError;
use crate::fields::{read_u16, read_u32, read_u64};

/// The size of a header in bytes, a multiple of every alignment of an archive.
pub const HEADER_LEN: usize = 32;

/// The first bytes of every container.
pub const MAGIC: [u8; 8] = [0x89, b'R', b'K', b'Y', b'V', b'\r', b'\n', 0x1a];

/// The version of containers that this crate reads and writes.
pub const VERSION: u16 = 1;

/// States that a header has 32 bytes, that it begins with `magic`, and that its version is 1.
pub fn header_constants()
    ensures len { HEADER_LEN ≡ 32 }
    ensures magic { MAGIC ≡ magic }
    ensures version { VERSION ≡ 1 }
{}

/// The header of a container: its contents, and the length and the checksum of its archive.
#[derive(Clone, Copy, Debug, PartialEq, Eq)]
pub struct Header {
    pub contents: Contents,
    /// The length of the archive in bytes.
    pub len: u64,
    /// The checksum Adler-32 of the archive, if the container has one.
    pub checksum: Option<u32>,
}

impl Header {
    /// Returns the header of an archive. It has a checksum if `checked` is `true`.
    pub fn new(contents: Contents, archive: &[u8], checked: bool) -> Header
        ensures { result ≡ header_of contents archive.now checked }
    {
        Header {
            contents,
            len: archive.len() as u64,
            checksum: if checked {
                Some(adler32(archive))
            } else {
                None
            },
        }
    }

    /// Returns the bytes of a header.
    pub fn to_bytes(&self) -> [u8; 32]
        ensures bytes { result ≡ header_bytes self.now }
        ensures header { IsHeader self.now result }
    {
        let magic = MAGIC;
        let version = VERSION.to_le_bytes();
        let contents = self.contents;
        let flags = flags_field(self.checksum).to_le_bytes();
        let len = self.len.to_le_bytes();
        let sum = self.checksum.unwrap_or(0).to_le_bytes();
        [
            magic[0],
            magic[1],
            magic[2],
            magic[3],
            magic[4],
            magic[5],
            magic[6],
            magic[7],
            version[0],
            version[1],
            contents.kind.code(),
            contents.key.code(),
            contents.value.code(),
            contents.width.code(),
            flags[0],
            flags[1],
            len[0],
            len[1],
            len[2],
            len[3],
            len[4],
            len[5],
            len[6],
            len[7],
            sum[0],
            sum[1],
            sum[2],
            sum[3],
            0,
            0,
            0,
            0,
        ]
    }

    /// Writes the bytes of a header over the whole of `out`.
    pub fn write(&self, out: &mut [u8])
        requires { length out.old ≡ 32 }
        ensures bytes { out.new ≡ header_bytes self.now }
        ensures header { IsHeader self.now out.new }
    {
        out.copy_from_slice(&self.to_bytes());
    }

    /// Reads the header at the beginning of `bytes`. The archive behind it isn't read.
    ///
    /// Fails with the first of these errors whose check fails: `TooShort`, `WrongMagic`,
    /// `UnsupportedVersion`, `UnknownKind`, `UnknownKeyType`, `UnknownValueType`, `UnknownWidth`,
    /// `UnknownFlags`, `UnexpectedChecksum`, `NonzeroReserved`.
    pub fn read(bytes: &[u8]) -> Result<Header, ContainerError>
        ensures ok { (header : Header) → (result ≡ Ok header) ↔ IsHeader header bytes.now }
        ensures err { (e : ContainerError) → (result ≡ Err e)
            ↔ FirstFails (header_checks bytes.now) e }
    {
        read_fields(bytes)
    }
}

fn flags_field(checksum: Option<u32>) -> u16
    ensures { result ≡ flags_of checksum }
{
    match checksum {
        Some(_) => 1,
        None => 0,
    }
}

fn read_fields(bytes: &[u8]) -> Result<Header, ContainerError>
    ensures { MatchResult result (λ header. IsHeader header bytes.now)
        (λ e. FirstFails (header_checks bytes.now) e) }
{
    check_start(bytes)?;
    let contents = read_contents(&bytes[10..14])?;
    let checksum = read_checksum(&bytes[14..16], &bytes[24..28])?;
    let reserved = read_u32(&bytes[28..32]);
    if reserved != 0 {
        return Err(ContainerError::NonzeroReserved(reserved));
    }
    Ok(Header {
        contents,
        len: read_u64(&bytes[16..24]),
        checksum,
    })
}

fn check_start(bytes: &[u8]) -> Result<(), ContainerError>
    ensures { MatchResult result (λ _. AllPass (start_checks bytes.now))
        (λ e. FirstFails (start_checks bytes.now) e) }
{
    if bytes.len() < HEADER_LEN {
        return Err(ContainerError::TooShort { len: bytes.len() });
    }
    if &bytes[..8] != MAGIC.as_slice() {
        return Err(ContainerError::WrongMagic);
    }
    let version = read_u16(&bytes[8..10]);
    if version != VERSION {
        return Err(ContainerError::UnsupportedVersion(version));
    }
    Ok(())
}

fn read_contents(field: &[u8]) -> Result<Contents, ContainerError>
    requires { length field.now ≡ 4 }
    ensures { MatchResult result (λ contents. field.now ≡ contents_bytes contents)
        (λ e. FirstFails (code_checks field.now) e) }
{
    let kind = Kind::from_code(field[0]).ok_or(ContainerError::UnknownKind(field[0]))?;
    let key = ItemType::from_code(field[1]).ok_or(ContainerError::UnknownKeyType(field[1]))?;
    let value = ItemType::from_code(field[2]).ok_or(ContainerError::UnknownValueType(field[2]))?;
    let width = Width::from_code(field[3]).ok_or(ContainerError::UnknownWidth(field[3]))?;
    Ok(Contents {
        kind,
        key,
        value,
        width,
    })
}

fn read_checksum(flags_field: &[u8], field: &[u8]) -> Result<Option<u32>, ContainerError>
    requires flags { length flags_field.now ≡ 2 }
    requires checksum { length field.now ≡ 4 }
    ensures { MatchResult result (λ checksum. IsChecksumField checksum flags_field.now field.now)
        (λ e. FirstFails (flag_checks (from_le_bytes w16 flags_field.now)
        (from_le_bytes w32 field.now)) e) }
{
    let flags = read_u16(flags_field);
    let checksum = read_u32(field);
    match flags {
        0 if checksum == 0 => Ok(None),
        0 => Err(ContainerError::UnexpectedChecksum(checksum)),
        1 => Ok(Some(checksum)),
        _ => Err(ContainerError::UnknownFlags(flags)),
    }
}
