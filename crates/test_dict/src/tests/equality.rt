//! Values that differ in one field are unequal, and equal values are equal.

use rkyv_dict::form::{ArchiveWidth, Form, Key, Kind};

#[test]
fn kinds_and_widths_differ(rt: HostRuntime) {
    expect_eq!(rt; Kind::Num == Kind::Num, true);
    expect_eq!(rt; Kind::Num == Kind::Text, false);
    expect_eq!(rt; ArchiveWidth::Bits32 == ArchiveWidth::Bits32, true);
    expect_eq!(rt; ArchiveWidth::Bits32 == ArchiveWidth::Bits64, false);
}

// Returns the form of this kind and width.
fn form(kind: Kind, bits: ArchiveWidth) -> Form {
    Form { kind, bits }
}

#[test]
fn forms_and_keys_differ(rt: HostRuntime) {
    let narrow = form(Kind::Num, ArchiveWidth::Bits32);
    expect_eq!(rt; narrow == form(Kind::Num, ArchiveWidth::Bits32), true);
    expect_eq!(rt; narrow == form(Kind::Text, ArchiveWidth::Bits32), false);
    expect_eq!(rt; narrow == form(Kind::Num, ArchiveWidth::Bits64), false);
    expect_eq!(rt; Key::Number(1) == Key::Number(1), true);
    expect_eq!(rt; Key::Number(1) == Key::Number(2), false);
    expect_eq!(rt; Key::Number(1) == Key::Text("1"), false);
    expect_eq!(rt; Key::Text("a") == Key::Text("a"), true);
    expect_eq!(rt; Key::Text("a") == Key::Text("b"), false);
    expect_eq!(rt; Key::Text("a") == Key::Text("aa"), false);
}
