//! The examples of the docs of entry points that no other test has.

use crate::tests::archives::hash_of_i8;
use rkyv_base::access::access;
use rkyv_base::{Entry, VerifyError};
use rkyv_table::{ArchivedHashTable, TableOf};
use test_support::archives::four_pairs;

// Returns the value of a key, which is looked up under its hash.
fn value_of(archive: &[u8], hash: u64, key: i8) -> Result<Option<i8>, VerifyError> {
    let table = ArchivedHashTable::of(access::<TableOf<Entry<i8, i8>>>(archive)?);
    match table.get_with(hash, |pair| pair.key().to_native() == key) {
        Some(pair) => Ok(Some(pair.value().to_native())),
        None => Ok(None),
    }
}

#[test]
fn a_value_is_found(rt: HostRuntime) {
    let found = value_of(&four_pairs(), hash_of_i8(5), 5).ok();
    assert_eq!(rt; found, Some(Some(6)));
}
