//! Words and bytes of a line.

use rkyv_dict::form::{ArchiveWidth, Kind};
use rkyv_dict::hex::{push_hex, read_hex};
use rkyv_dict::words::{bits_by_name, cut_word, kind_by_name, one_word, two_numbers, two_words};
use std::alloc::{AllocError, Global};
use std::test::Fail;

#[test]
fn words_are_separated_and_parsed(rt: HostRuntime) {
    expect_eq!(rt; cut_word("put 1 2"), ("put", Some("1 2")));
    let one = [one_word(Some("1")), one_word(Some("1 2")), one_word(None)];
    expect_eq!(rt; one, [Some("1"), None, None]);
    expect_eq!(rt; two_words(Some("1 2")), Some(("1", "2")));
    expect_eq!(rt; two_words(Some("1")), None);
    expect_eq!(rt; two_words(Some("1 2 3")), None);
    expect_eq!(rt; two_numbers(Some("7 8"), 8), Some((7, 8)));
    expect_eq!(rt; two_numbers(Some("7 9"), 8), None);
    expect_eq!(rt; kind_by_name("num"), Some(Kind::Num));
    expect_eq!(rt; kind_by_name("text"), Some(Kind::Text));
    expect_eq!(rt; kind_by_name("Num"), None);
    let widths = [bits_by_name("32"), bits_by_name("64"), bits_by_name("16")];
    expect_eq!(rt; widths, [Some(ArchiveWidth::Bits32), Some(ArchiveWidth::Bits64), None]);
}

// Returns whether the digits are those of `bytes`.
fn are_digits_of(alloc: Global, digits: &[u8], bytes: &[u8]) -> Result<bool, AllocError> {
    let read = read_hex(alloc, digits)?;
    Ok(read.is_some_and(|read| read.as_slice() == bytes))
}

#[test]
fn bytes_are_two_digits_each(rt: HostRuntime) -> Result<(), Fail> {
    let mut digits = String::new(rt.alloc());
    push_hex(&mut digits, &[0, 0x1a, 0xff])?;
    expect_eq!(rt; digits.as_str(), "001aff");
    let alloc = rt.alloc();
    expect_eq!(rt; are_digits_of(alloc, b"001AfF", &[0, 0x1a, 0xff]).ok(), Some(true));
    expect_eq!(rt; are_digits_of(alloc, b"001", &[0]).ok(), Some(false));
    expect_eq!(rt; are_digits_of(alloc, b"0g", &[0]).ok(), Some(false));
    Ok(())
}
