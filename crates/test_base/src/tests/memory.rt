//! Tests of the memory of writers.

use rkyv_base::{VecWriter, Writer, to_bytes};
use std::alloc::Global;

// Returns the capacity of the archive of `()`.
fn capacity_of_unit(alloc: Global) -> Option<usize> {
    let bytes = to_bytes(alloc, &()).ok()?;
    Some(bytes.capacity())
}

#[test]
fn a_new_writer_has_no_memory(rt: HostRuntime) {
    let new = VecWriter::new(rt.alloc()).into_vec().capacity();
    let mut empty = VecWriter::new(rt.alloc());
    expect_eq!(rt; empty.write(&[]).is_ok(), true);
    expect_eq!(rt; new, 0);
    expect_eq!(rt; empty.into_vec().capacity(), 0);
    expect_eq!(rt; capacity_of_unit(rt.alloc()), Some(0));
}

// Returns whether a vector's memory for 64 bytes is the same after 8 bytes were written into it.
fn is_memory_kept(alloc: Global) -> Option<bool> {
    let bytes = Vec::with_capacity(alloc, 64).ok()?;
    let capacity = bytes.capacity();
    let mut writer = VecWriter::from(bytes);
    writer.write(&[0; 8]).ok()?;
    Some(capacity >= 64 && writer.into_vec().capacity() == capacity)
}

#[test]
fn the_writer_of_a_vector_uses_its_memory(rt: HostRuntime) {
    expect_eq!(rt; is_memory_kept(rt.alloc()), Some(true));
}
