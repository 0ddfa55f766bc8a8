//! The errors of a run by their traits: the text of `Debug`, and the message through `Error`.

use rkyv_dict::laws;
use rkyv_dict::run::RunError;
use std::alloc::{AllocError, Global};
use std::error::Error;

// Returns the text of `Debug`, and the message.
fn texts_of<E: Error>(alloc: Global, error: E) -> Result<(String, String), AllocError> {
    let debug = format!(in alloc; "{error:?}")?;
    let message = format!(in alloc; "{error}")?;
    Ok((debug, message))
}

// Returns `true` if an error is shown as these texts.
fn prints_as(alloc: Global, error: RunError, debug: &str, message: &str) -> bool {
    match texts_of(alloc, error) {
        Ok((first, second)) => first.as_str() == debug && second.as_str() == message,
        Err(_) => false,
    }
}

#[test]
fn run_errors_have_messages(rt: HostRuntime) {
    laws::errors_are_displayed();
    let alloc = rt.alloc();
    expect_eq!(rt; prints_as(alloc, RunError::Read, "Read", "read fault"), true);
    expect_eq!(rt; prints_as(alloc, RunError::Write, "Write", "write fault"), true);
    expect_eq!(rt; prints_as(alloc, RunError::Memory, "Memory", "no memory"), true);
}

#[test]
fn a_failed_allocation_is_an_error_of_memory(rt: HostRuntime) {
    laws::errors_are_converted();
    let error = RunError::from(AllocError);
    assert!(rt; prints_as(rt.alloc(), error, "Memory", "no memory"));
}
