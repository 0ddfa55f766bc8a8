//! The examples of the pages and of the doc comments.

use crate::tests::archives::{MISPLACED, ONE_NUMBER};
use crate::tests::support::numbers;
use rkyv_container::Contents;
use rkyv_inspect::{Drawing, InspectError, Printed, inspect};
use std::alloc::Global;
use std::test::Fail;

// Returns the number of keys that a lookup of their own doesn't find, if it could be counted.
fn misplaced(
    alloc: Global,
    archive: &[u8],
    contents: Contents,
) -> Result<Option<usize>, InspectError> {
    let inspection = inspect(alloc, archive, contents, 1_000_000)?;
    let lookups = inspection.summary.lookups.as_ref();
    Ok(lookups.map(|lookups| lookups.misplaced))
}

// Returns the text of an inspection, without colour.
fn text_of(alloc: Global, archive: &[u8], contents: Contents) -> Result<String, InspectError> {
    let inspection = inspect(alloc, archive, contents, 1_000_000)?;
    Ok(format!(in alloc; "{}", Printed::new(archive, &inspection, false))?)
}

// Returns the drawing of an archive.
fn draw(alloc: Global, archive: &[u8], contents: Contents) -> Result<String, InspectError> {
    let inspection = inspect(alloc, archive, contents, 1_000_000)?;
    Ok(format!(in alloc; "{}", Drawing::new(&inspection, archive.len()))?)
}

#[test]
fn examples_are_inspected(rt: HostRuntime) -> Result<(), Fail> {
    let found = misplaced(rt.alloc(), &ONE_NUMBER, numbers()).ok();
    expect_eq!(rt; found, Some(Some(0)));
    let found = misplaced(rt.alloc(), &MISPLACED, numbers()).ok();
    assert_eq!(rt; found, Some(Some(1)));
    let text = text_of(rt.alloc(), &ONE_NUMBER, numbers())?;
    assert!(rt; text.as_str().starts_with("items: 1\nbuckets: 2\n"));
    let drawing = draw(rt.alloc(), &ONE_NUMBER, numbers())?;
    assert!(rt; drawing.as_str().starts_with("<svg "));
    Ok(())
}
