//! The caller in the library's README.

use example_message::message::{archive, number_of, set_number};
use rkyv_collections::MapPairs;
use std::alloc::Global;
use std::test::Fail;

// Returns the count of a part after its overwrite in the message.
fn counted(alloc: Global, count: u32) -> Result<Option<u32>, Fail> {
    let fields = [("width", 80), ("count", 0)];
    let parts = [("head", MapPairs::new(&fields))];
    let mut message = archive(alloc, &parts)?;
    set_number(message.as_mut_slice(), "head", "count", count)?;
    Ok(number_of(message.as_slice(), "head", "count")?)
}

#[test]
fn a_count_is_written_over(rt: HostRuntime) -> Result<(), Fail> {
    expect_eq!(rt; counted(rt.alloc(), 7)?, Some(7));
    Ok(())
}
