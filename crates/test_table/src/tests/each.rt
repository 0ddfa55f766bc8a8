//! Writing all items of a table by one call with a closure.
ghost use Rattle.rkyv_base.specs.{LiesIn, Viewable};
ghost use Rattle.rkyv_table.specs.{KeepsSeal, table_spec};

use crate::tests::archives::two_archived;
use rkyv_base::access::access;
use rkyv_base::{Narrow, Scalar, Seal, VerifyError, Wide, Width, access_in};
use rkyv_table::{ArchivedHashTable, TableOf};
use test_support::archives::no_items;

// Sets each item of a table, which stays valid.
fn set_each<N: Scalar, W: Width>(archive: &mut [u8], pos: u64, value: N)
    requires { Viewable (table_spec W.word N.spec) archive.old pos }
    ensures { Viewable (table_spec W.word N.spec) archive.new pos }
{
    ArchivedHashTable::<N, W>::for_each_seal(
        archive,
        pos,
        |seal: &mut Seal<'_, N>|
            requires { LiesIn N.spec seal.old }
            ensures { KeepsSeal N.spec seal.old seal.new }
        {
            seal.set(value);
        },
    );
}

// Sets each number of an archived table.
fn set_numbers<W: Width>(bytes: &mut [u8], value: u8) -> Result<(), VerifyError> {
    let pos = access_in::<W, TableOf<u8, W>>(&*bytes)?.pos();
    set_each::<u8, W>(bytes, pos, value);
    Ok(())
}

// Adds 1 to each number of an archived table.
fn add_one(bytes: &mut [u8]) -> Result<(), VerifyError> {
    let pos = access::<TableOf<u8>>(&*bytes)?.pos();
    ArchivedHashTable::<u8, Narrow>::for_each_seal(bytes, pos, |seal: &mut Seal<'_, u8>| {
        let value = seal.to_native();
        seal.set(value.wrapping_add(1));
    });
    Ok(())
}

#[test]
fn each_item_is_written_once(rt: HostRuntime) {
    let mut bytes = two_archived();
    let mut expected = two_archived();
    expected[0] = expected[0].wrapping_add(1);
    expected[2] = expected[2].wrapping_add(1);
    expect_eq!(rt; add_one(&mut bytes), Ok(()));
    expect_eq!(rt; bytes, expected);
    expected[0] = 7;
    expected[2] = 7;
    expect_eq!(rt; set_numbers::<Narrow>(&mut bytes, 7), Ok(()));
    expect_eq!(rt; bytes, expected);
    let mut bytes = no_items();
    expect_eq!(rt; set_numbers::<Narrow>(&mut bytes, 7), Ok(()));
    expect_eq!(rt; bytes, no_items());
    let wide = [
        1, 0, 0, 0, 0, 0, 0, 0, 0, 0, 0, 0, 0, 0, 0, 0, 0, 0, 0, 0, 0, 0, 0, 0,
    ];
    let mut bytes = wide;
    expect_eq!(rt; set_numbers::<Wide>(&mut bytes, 7), Ok(()));
    expect_eq!(rt; bytes, wide);
}
