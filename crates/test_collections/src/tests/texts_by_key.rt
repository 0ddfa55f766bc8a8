//! Tests of texts of a map that are written in upper case by key, over the plain bytes.

use crate::tests::archives::text_archive;
use crate::tests::opened::is_text;
use rkyv_base::access::access;
use rkyv_base::{Narrow, Text, VerifyError};
use rkyv_collections::map::in_place::text::make_ascii_uppercase_of;
use rkyv_collections::map::laws::list_archives::texts_found_are_listed;
use rkyv_collections::{FxHasher64, HashMapOf};
use std::alloc::Global;
use std::test::Fail;

// Returns the archive of three pairs, two of them with one key. Two values are inline, and one is
// out of line.
fn texts(alloc: Global) -> Result<Vec<u8>, Fail> {
    let pairs = [("a", "hello"), ("b", "wonderful"), ("a", "again")];
    Ok(text_archive(alloc, &pairs)?)
}

// Writes the text of a key in upper case. Returns the result of the call.
fn uppercase(bytes: &mut [u8], key: &str) -> Result<Option<bool>, VerifyError> {
    let root = access::<HashMapOf<Text, Text>>(&*bytes)?.pos();
    Ok(make_ascii_uppercase_of::<&str, Text, FxHasher64, Narrow>(bytes, root, &key))
}

// Returns the results of three calls, and whether the texts are as expected after them.
fn uppercase_three(
    bytes: &mut [u8],
) -> Result<([Option<bool>; 3], [Option<bool>; 2]), VerifyError> {
    let uppercased = [
        uppercase(bytes, "a")?,
        uppercase(bytes, "b")?,
        uppercase(bytes, "c")?,
    ];
    let after = [
        is_text(bytes, "a", "HELLO")?,
        is_text(bytes, "b", "wonderful")?,
    ];
    Ok((uppercased, after))
}

#[test]
fn inline_text_is_uppercased_by_key(rt: HostRuntime) -> Result<(), Fail> {
    texts_found_are_listed::<&str, &str, Text, FxHasher64, Narrow>();
    let mut bytes = texts(rt.alloc())?;
    expect_eq!(rt; uppercase_three(bytes.as_mut_slice()),
        Ok(([Some(true), Some(false), None], [Some(true), Some(true)])));
    Ok(())
}
