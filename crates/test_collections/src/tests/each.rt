//! Tests of the call that writes all values of a map by a closure.
ghost use Rattle.std.specs.Int.{w32};
ghost use Rattle.std.specs.Prelude.{IfOk};
ghost use Rattle.rkyv_base.specs.{LiesIn, Viewable, text_spec};
ghost use Rattle.rkyv_table.specs.{KeepsSeal};
ghost use Rattle.rkyv_collections.specs.{map_spec};

use crate::tests::archives::expect_four_with;
use crate::tests::opened::{Texts, is_text};
use rkyv_base::access::access;
use rkyv_base::{
    HasSpec, Narrow, NoMemory, Scalar, Seal, Text, VerifyError, Wide, Width, WriteError, access_in,
    to_bytes,
};
use rkyv_collections::{ArchivedHashMap, FxHasher64, HashMapOf, MapPairs};
use rkyv_keys::KeyElement;
use std::alloc::Global;
use test_support::archives::{four_pairs, no_items, one_wide_number};
use test_support::changes::with_bytes;

type Levels = HashMapOf<i8, i8>;

// Doubles each level.
fn double_each(archive: &mut [u8]) -> Result<(), VerifyError> {
    let root = access::<Levels>(&*archive)?.pos();
    ArchivedHashMap::<i8, i8, FxHasher64, Narrow>::for_each_value(
        archive,
        root,
        |level: &mut Seal<'_, i8>| {
            let doubled = level.to_native().wrapping_mul(2);
            level.set(doubled);
        },
    );
    Ok(())
}

#[test]
fn each_value_is_written_once(rt: HostRuntime) {
    let mut bytes = four_pairs();
    expect_eq!(rt; double_each(&mut bytes), Ok(()));
    expect_four_with(&rt, &bytes, [3, 8, 1, 4, 0, 0, 7, 16, 5, 12]);
    let mut bytes = no_items();
    expect_eq!(rt; double_each(&mut bytes), Ok(()));
    expect_eq!(rt; bytes, no_items());
}

// Sets each value of a map, which stays valid.
fn set_each<K: KeyElement, N: Scalar, W: Width>(archive: &mut [u8], root: u64, value: N)
    requires { Viewable (map_spec W.word K.spec N.spec) archive.old root }
    ensures { Viewable (map_spec W.word K.spec N.spec) archive.new root }
{
    ArchivedHashMap::<K, N, FxHasher64, W>::for_each_value(
        archive,
        root,
        |seal: &mut Seal<'_, N>|
            requires { LiesIn N.spec seal.old }
            ensures { KeepsSeal N.spec seal.old seal.new }
        {
            seal.set(value);
        },
    );
}

// Sets each value of a wide map.
fn set_wide(bytes: &mut [u8], value: u32) -> Result<(), VerifyError> {
    let root = access_in::<Wide, HashMapOf<u32, u32, FxHasher64, Wide>>(&*bytes)?.pos();
    set_each::<u32, u32, Wide>(bytes, root, value);
    Ok(())
}

#[test]
fn each_value_of_a_wide_map_is_written(rt: HostRuntime) {
    let mut bytes = one_wide_number();
    expect_eq!(rt; set_wide(&mut bytes, 9), Ok(()));
    expect_eq!(rt; bytes, with_bytes(one_wide_number(), 4, &[9]));
}

// Returns the position of a map of texts to texts.
fn text_pos(bytes: &[u8]) -> Result<u64, VerifyError>
    ensures { IfOk result (Viewable ⟦<Texts as HasSpec>⟧.spec bytes.now) }
{
    Ok(access::<Texts>(bytes)?.pos())
}

// Writes each value of a map of texts in upper case.
fn uppercase_each(bytes: &mut [u8]) -> Result<(), VerifyError> {
    let root = text_pos(&*bytes)?;
    ArchivedHashMap::<Text, Text, FxHasher64, Narrow>::for_each_value(
        bytes,
        root,
        |value: &mut Seal<'_, Text>|
            requires { LiesIn (text_spec w32) value.old }
            ensures { KeepsSeal (text_spec w32) value.old value.new }
        {
            let _is_inline = value.make_ascii_uppercase();
        },
    );
    Ok(())
}

fn write_texts(alloc: Global) -> Result<Vec<u8>, WriteError<NoMemory>> {
    let list: MapPairs<'_, &str, &str> = MapPairs::new(&[
        ("one", "red"),
        ("two", "dark green"),
        ("three", "blue"),
    ]);
    to_bytes(alloc, &list)
}

// Writes a map of texts, and each of its values in upper case.
fn uppercased(alloc: Global) -> Option<Vec<u8>> {
    let mut bytes = write_texts(alloc).ok()?;
    uppercase_each(bytes.as_mut_slice()).ok()?;
    Some(bytes)
}

#[test]
fn each_inline_text_is_uppercased(rt: HostRuntime) {
    match uppercased(rt.alloc()) {
        Some(bytes) => {
            let bytes = bytes.as_slice();
            expect_eq!(rt; is_text(bytes, "one", "RED"), Ok(Some(true)));
            expect_eq!(rt; is_text(bytes, "two", "dark green"), Ok(Some(true)));
            expect_eq!(rt; is_text(bytes, "three", "BLUE"), Ok(Some(true)));
        }
        None => assert!(rt; false),
    }
}
