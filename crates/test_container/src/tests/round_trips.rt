//! A written header is read back. A sealed container is opened as its own contents alone.
ghost use Rattle.std.specs.Prelude.{IsTrue, length, ◌≡◌, ◌↔◌, ◌≤◌};

use rkyv_container::{ContainerError, Contents, Header, fill_header, open_as};

// Returns the header that is read from the bytes of a header.
fn read_back(header: Header) -> Result<Header, ContainerError>
    ensures { result ≡ Ok header }
{
    Header::read(&header.to_bytes())
}

// Returns whether a container that is sealed with some contents opens as the expected ones.
fn opens_as(bytes: &mut [u8], sealed: Contents, checked: bool, expected: Contents) -> bool
    requires { 32 ≤ length bytes.old }
    ensures { IsTrue result ↔ (sealed ≡ expected) }
{
    fill_header(bytes, sealed, checked);
    open_as(bytes, expected).is_ok()
}

#[test]
fn headers_are_read_back(rt: HostRuntime) {
    let checked = Header {
        contents: crate::tests::rows::names(),
        len: 18_446_744_073_709_551_615,
        checksum: Some(4_294_967_295),
    };
    let zero = Header {
        contents: crate::tests::rows::names(),
        len: 0,
        checksum: Some(0),
    };
    expect_eq!(rt; read_back(checked), Ok(checked));
    expect_eq!(rt; read_back(zero), Ok(zero));
}

#[test]
fn sealed_containers_open(rt: HostRuntime) {
    let numbers = crate::tests::rows::numbers();
    let names = crate::tests::rows::names();
    let mut bytes = [7; 92];
    expect_eq!(rt; opens_as(&mut bytes, numbers, true, numbers), true);
    expect_eq!(rt; opens_as(&mut bytes, numbers, false, names), false);
    expect_eq!(rt; opens_as(&mut bytes, names, false, names), true);
    expect_eq!(rt; opens_as(&mut bytes, names, true, numbers), false);
}
