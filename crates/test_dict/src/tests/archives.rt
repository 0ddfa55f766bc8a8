//! Archives of each form, written from pairs and read.
ghost use Rattle.rkyv_dict.specs.{IsArchive};

use rkyv_base::{NoMemory, VerifyError, WriteError};
use rkyv_dict::archives::{build, check, misplaced, push_pairs, push_value};
use rkyv_dict::form::{ArchiveWidth, Form, Key, Kind};
use rkyv_dict::laws;
use rkyv_dict::pairs::PairList;
use std::alloc::{AllocError, Global};
use std::test::Fail;

// Returns the form of narrow or wide archives of a kind.
fn form(kind: Kind, bits: ArchiveWidth) -> Form {
    Form { kind, bits }
}

// Appends the lines of the pairs of an archive, then those of lookups of the keys.
fn push_lines(
    form: Form,
    bytes: &[u8],
    keys: &[Key<'_>],
    out: &mut String,
) -> Result<(), AllocError>
    requires { IsArchive form bytes.now }
{
    push_pairs(form, bytes, out)?;
    for key in keys {
        push_value(form, bytes, *key, out)?;
    }
    Ok(())
}

// Returns whether the lines of the pairs and of the lookups are `expected`.
fn has_lines(alloc: Global, form: Form, bytes: &[u8], keys: &[Key<'_>], expected: &str) -> bool
    requires { IsArchive form bytes.now }
{
    let mut out = String::new(alloc);
    push_lines(form, bytes, keys, &mut out).is_ok() && out.as_str() == expected
}

// Returns whether the archive of the pairs is valid, and has this length, this number of misplaced
// keys, and these lines.
fn has_output(
    alloc: Global,
    form: Form,
    list: &PairList<'_>,
    keys: &[Key<'_>],
    (len, count, lines): (usize, usize, &str),
) -> bool {
    match build(alloc, form.bits, list, (7, 8)) {
        Ok(bytes) => {
            let bytes = bytes.as_slice();
            check(form, bytes).is_ok()
                && bytes.len() == len
                && misplaced(form, bytes) == count
                && has_lines(alloc, form, bytes, keys, lines)
        }
        Err(_) => false,
    }
}

// Returns whether the narrow and the wide archive of the pairs have these lengths and lines.
// Both have no misplaced key.
fn both_show(
    alloc: Global,
    kind: Kind,
    list: &PairList<'_>,
    keys: &[Key<'_>],
    lens: (usize, usize),
    lines: &str,
) -> bool {
    let narrow = form(kind, ArchiveWidth::Bits32);
    let wide = form(kind, ArchiveWidth::Bits64);
    has_output(alloc, narrow, list, keys, (lens.0, 0, lines))
        && has_output(alloc, wide, list, keys, (lens.1, 0, lines))
}

#[test]
fn numbers_are_archived_and_found(rt: HostRuntime) -> Result<(), Fail> {
    laws::builds_have_result();
    laws::builds_are_one();
    laws::checks_have_result();
    laws::checks_are_one();
    let list = PairList::Numbers(vec![in rt.alloc(); (1, 2)]?);
    let right = both_show(
        rt.alloc(),
        Kind::Num,
        &list,
        &[Key::Number(1), Key::Number(2), Key::Text("1")],
        (60, 72),
        "entries 1\n1 2\n2\nnone\nnone\n",
    );
    assert!(rt; right);
    Ok(())
}

#[test]
fn texts_are_archived_and_found(rt: HostRuntime) -> Result<(), Fail> {
    let list = PairList::Texts(vec![in rt.alloc(); ("a", "b")]?);
    let right = both_show(
        rt.alloc(),
        Kind::Text,
        &list,
        &[Key::Text("a"), Key::Text("b"), Key::Number(1)],
        (76, 120),
        "entries 1\na b\nb\nnone\nnone\n",
    );
    assert!(rt; right);
    Ok(())
}

#[test]
fn no_pairs(rt: HostRuntime) {
    let list = PairList::Texts(Vec::new(rt.alloc()));
    let keys = &[Key::Text("a")];
    let right = both_show(
        rt.alloc(),
        Kind::Text,
        &list,
        keys,
        (12, 24),
        "entries 0\nnone\n",
    );
    assert!(rt; right);
}

#[test]
fn of_equal_keys_the_first_is_found(rt: HostRuntime) -> Result<(), Fail> {
    let list = PairList::Numbers(vec![in rt.alloc(); (1, 2), (1, 9)]?);
    let narrow = form(Kind::Num, ArchiveWidth::Bits32);
    let expected = (68, 1, "entries 2\n1 2\n1 9\n2\n");
    assert!(rt; has_output(rt.alloc(), narrow, &list, &[Key::Number(1)], expected));
    Ok(())
}

// Returns the error of a build with the load factor 8 / 7.
fn build_error(alloc: Global, list: &PairList<'_>) -> Option<WriteError<NoMemory>> {
    match build(alloc, ArchiveWidth::Bits64, list, (8, 7)) {
        Ok(_) => None,
        Err(error) => Some(error),
    }
}

#[test]
fn errors_of_build_and_check(rt: HostRuntime) -> Result<(), Fail> {
    let list = PairList::Numbers(vec![in rt.alloc(); (1, 2)]?);
    expect_eq!(rt; build_error(rt.alloc(), &list),
        Some(WriteError::InvalidLoadFactor { numerator: 8, denominator: 7, }));
    expect_eq!(rt; check(form(Kind::Num, ArchiveWidth::Bits64), &[]),
        Err(VerifyError::OutOfRange { pos: -24, size: 24 }));
    expect_eq!(rt; check(form(Kind::Text, ArchiveWidth::Bits32), &[0; 10]),
        Err(VerifyError::OutOfRange { pos: -2, size: 12 }));
    Ok(())
}
