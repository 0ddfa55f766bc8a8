//! Archives of a dictionary that is built.

use rkyv_base::{NoMemory, WriteError};
use rkyv_dict::archives::build;
use rkyv_dict::errors::is_allocation_failure;
use rkyv_dict::form::ArchiveWidth;
use rkyv_dict::pairs::PairList;
use std::alloc::Global;
use test_support::archives::archive;

// Returns the map of the text a to the text b.
fn one_text() -> [u8; 76] {
    archive(
        &[
            0x61, 0xff, 0xff, 0xff, 0xff, 0xff, 0xff, 0xff, 0x62, 0xff, 0xff, 0xff, 0xff, 0xff,
            0xff, 0xff, 0, 0, 0, 0, 0, 0, 0, 0, 0, 0, 0, 0, 0, 0, 0, 0, 0xff, 0x55, 0xff, 0x55,
        ],
        &[0, 0xe0, 0xff, 0xff, 0xff, 1, 0, 0, 0, 2, 0, 0, 0],
    )
}

// Returns the archive of the texts a and b, or `None` if their list fails to allocate.
fn built(alloc: Global) -> Option<Result<Vec<u8>, WriteError<NoMemory>>> {
    let list = PairList::Texts(vec![in alloc; ("a", "b")].ok()?);
    Some(build(alloc, ArchiveWidth::Bits32, &list, (7, 8)))
}

#[test]
fn build_is_complete_or_fails_to_allocate(rt: HostRuntime) {
    let right = match built(rt.alloc()) {
        Some(Ok(bytes)) => bytes.as_slice() == one_text().as_slice(),
        Some(Err(cause)) => is_allocation_failure(&cause),
        None => true,
    };
    assert!(rt; right);
}

#[test]
fn a_build_succeeds(rt: HostRuntime) {
    let whole = match built(rt.alloc()) {
        Some(Ok(bytes)) => bytes.as_slice() == one_text().as_slice(),
        _ => false,
    };
    assert!(rt; whole);
}
