//! Tests of archives whose bytes are passed to a closure.

ghost use Rattle.std.specs.Prelude.{◌≡◌, ◌+◌, ◌-◌, ◌≤◌, IsOk, MatchResult, length};
ghost use Rattle.rkyv_base.specs.{IsValidArchive, with_value};

use rkyv_base::{
    ArchiveSeal, Narrow, Scalar, Seal, VerifyError, Wide, Width, access_mut_with,
    access_mut_with_in, set_at,
};

// Writes the root of an archive of a scalar. If the archive is not valid, no byte is changed.
fn root_written<W: Width, N: Scalar>(bytes: &mut [u8], value: N) -> Result<(), VerifyError>
    ensures written { MatchResult result
        (λ _. bytes.new ≡ with_value N.encoding bytes.old
        (length bytes.old - N.spec.size) value)
        (λ _. bytes.new ≡ bytes.old) }
    ensures accepts { IsValidArchive W.LIMIT N.spec bytes.old → IsOk result }
{
    access_mut_with_in::<W, N, (), _>(
        bytes,
        |archive: &mut [u8], pos: u64|
            requires { pos + N.spec.size ≤ length archive.old }
            ensures { archive.new ≡ with_value N.encoding archive.old pos value }
        {
            set_at(archive, pos as usize, value);
        },
    )
}

// Writes the value at a position of some bytes.
fn value_written<N: Scalar>(bytes: &mut [u8], pos: u64, value: N)
    requires { pos + N.spec.size ≤ length bytes.old }
    ensures { bytes.new ≡ with_value N.encoding bytes.old pos value }
{
    let mut whole = ArchiveSeal::<N>::new(bytes, pos);
    whole.write_with(
        |archive: &mut [u8], pos: u64|
            requires { pos + N.spec.size ≤ length archive.old }
            ensures { archive.new ≡ with_value N.encoding archive.old pos value }
        {
            set_at(archive, pos as usize, value);
        },
    );
}

#[test]
fn an_accepted_root_is_written(rt: HostRuntime) {
    let mut bytes = [1, 0, 0, 0];
    let returned = access_mut_with::<u32, u64, _>(&mut bytes, |archive: &mut [u8], pos: u64| {
        archive.fill(7);
        pos
    });
    expect_eq!(rt; (returned.ok(), bytes), (Some(0), [7; 4]));
}

#[test]
fn invalid_archive_is_unchanged(rt: HostRuntime) {
    let mut bytes = [1, 0, 0];
    let returned = access_mut_with::<u32, (), _>(&mut bytes, |archive: &mut [u8], _pos: u64| {
        archive.fill(7);
    });
    expect_eq!(rt; (returned.is_err(), bytes), (true, [1, 0, 0]));
}

#[test]
fn callers_write_exact_bytes(rt: HostRuntime) {
    let mut bytes = [9; 6];
    value_written(&mut bytes, 1, 16_909_060u32);
    expect_eq!(rt; root_written::<Narrow, u32>(&mut bytes, 7).is_err(), true);
    expect_eq!(rt; bytes, [9, 4, 3, 2, 1, 9]);
    expect_eq!(rt; root_written::<Wide, u16>(&mut bytes, 7).is_ok(), true);
    expect_eq!(rt; bytes, [9, 4, 3, 2, 7, 0]);
}

#[test]
fn a_seal_is_a_whole_archive(rt: HostRuntime) {
    let mut bytes = [1, 2, 3];
    let whole = Seal::<u8>::over(&mut bytes, 1).into_archive();
    expect_eq!(rt; whole.pos(), 1);
}
