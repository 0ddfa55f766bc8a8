//! Collections whose keys or values are of other types.
//!
//! Signed integers and floating-point numbers are their bits: -2 of 8 bits is 254, and 1.5 of 32
//! bits is 3fc00000. Archives that rkyv's table code did not write have the bytes that
//! `docs/FORMAT.md` states.

use crate::tests::calls::{
    BOOL, BYTES, CHAR, F32, F64, I8, I16, I32, I64, INDEX_MAP, MAP, SET, TEXT, U8, U16, U32, U64,
    UNIT,
};
use crate::tests::cases::{
    Case, EMPTY_25, EMPTY_27, HEADER, HEADER_OF_TWO, LARGE, MAX, WIDE_HEADER, WIDE_HEADER_OF_TWO,
};

const INTEGERS: &[Case] = cases! {
    // As rkyv's table code wrote it.
    { MAP U16 U8 4, MAP I16 U8 4, MAP U16 I8 4 = 1: 86 => 7, 2: 31_996 => 109;
      b"\0\0\0\0", b"\xfc\x7c\x6d\0", b"\x56\0\x07\0", b"\x2f\x52\xff\x2f\x52\xff", EMPTY_25,
          HEADER_OF_TWO;
      absent 87 1, 0x1_0056 3;
      fails 86 = 256 3, 0x1_0056 = 7 3, 87 = 7 1; }
    // As rkyv's table code wrote it. -18,500 is 47,036.
    { MAP I16 U8 8, MAP I16 I8 8 = 1: 125 => 12, 2: 47_036 => 84;
      b"\0\0\0\0", b"\xbc\xb7\x54\0", b"\x7d\0\x0c\0", b"\x64\x03\xff\x64\x03\xff", EMPTY_25,
          b"\0\0\0\0\0\xdc\xff\xff\xff\xff\xff\xff\xff\x02\0\0\0\0\0\0\0\x03\0\0\0\0\0\0\0";
      absent 18_500 1; }
    // As rkyv's table code wrote it. -1,852,498,938 is 2,442,468,358, and -1,021,419,428 is
    // 3,273,547,868.
    { MAP I64 I32 4, MAP U64 U32 4 = 1: 66_123_839_367_784_232 => 2_442_468_358,
          2: 82 => 3_273_547_868;
      b"\0\0\0\0\0\0\0\0\0\0\0\0\0\0\0\0", b"\x52\0\0\0\0\0\0\0\x5c\x60\x1e\xc3\0\0\0\0",
          b"\x28\xa7\xb3\x14\x48\xeb\xea\0\x06\x1c\x95\x91\0\0\0\0", b"\x66\x0c\xff\x66\x0c\xff",
          EMPTY_25, HEADER_OF_TWO;
      absent 83 1; }
    // As rkyv's table code wrote it.
    { INDEX_MAP U16 U8 4, INDEX_MAP I16 U8 4 = 1: 86 => 7, 2: 31_996 => 109;
      b"\0\0\0\0", b"\x01\0\0\0", b"\0\0\0\0", b"\x2f\x52\xff\x2f\x52\xff", EMPTY_25, b"\0",
          b"\x56\0\x07\0", b"\xfc\x7c\x6d\0",
          b"\xd8\xff\xff\xff\x02\0\0\0\x03\0\0\0\xec\xff\xff\xff";
      absent 0 1; }
    // As rkyv's table code wrote it.
    { INDEX_MAP I64 I32 8 = 1: 2_356_853_845 => 169, 2: 21_145 => 7;
      b"\x01\0\0\0\0\0\0\0", b"\0\0\0\0\0\0\0\0\0\0\0\0\0\0\0\0", b"\xff\x13\x54\xff\x13\x54",
          EMPTY_25, b"\0", b"\x55\xbc\x7a\x8c\0\0\0\0\xa9\0\0\0\0\0\0\0",
          b"\x99\x52\0\0\0\0\0\0\x07\0\0\0\0\0\0\0",
          b"\xc0\xff\xff\xff\xff\xff\xff\xff\x02\0\0\0\0\0\0\0\x03\0\0\0\0\0\0\0\xc8\xff\xff\xff",
          b"\xff\xff\xff\xff"; }
    { MAP I8 I8 4 = 2: 7 => 1;
      b"\x07\x01", b"\0\0", b"\xff\x1d\xff\x1d", EMPTY_27, HEADER; }
    { MAP U32 I32 4 = 2: 7 => 0xe9;
      b"\x07\0\0\0\xe9\0\0\0", b"\0\0\0\0\0\0\0\0", b"\xff\x1d\xff\x1d", EMPTY_27, HEADER; }
};

/// Returns the cases of maps of integers.
pub(crate) fn integers() -> &'static [Case] {
    INTEGERS
}

const OTHERS: &[Case] = cases! {
    // A `bool` is 0 or 1. Buckets at 0, controls at 4, header at 36.
    { MAP U8 BOOL 4 = 2: 7 => 1;
      b"\x07\x01", b"\0\0", b"\xff\x1d\xff\x1d", EMPTY_27, HEADER;
      absent 8 1, 0x107 3;
      damaged 1 2 (22, 1, 0, 0);
      fails 7 = 0 7; }
    { MAP U8 BOOL 8 = 1: 200 => 0, 2: 7 => 1;
      b"\0\0", b"\x07\x01", b"\xc8\0", b"\x54\x1d\xff\x54\x1d\xff", EMPTY_25,
          b"\0\0\0\xde\xff\xff\xff\xff\xff\xff\xff\x02\0\0\0\0\0\0\0\x03\0\0\0\0\0\0\0";
      absent 0 1; }
    // The bytes of a byte string lie before it. Buckets at 4, controls at 28, header at 60.
    { MAP I8 BYTES 4, MAP U8 BYTES 4 = 2: 7 => [b"\xff"];
      b"\xff\0\0\0", b"\x07\0\0\0\xf8\xff\xff\xff\x01\0\0\0", b"\0\0\0\0\0\0\0\0\0\0\0\0",
          b"\xff\x1d\xff\x1d", EMPTY_27, HEADER;
      absent 6 1;
      damaged 8 0xf7 (16, -1, 1, 0), 12 9 (16, 0, 9, 0); }
    // -7 is 249.
    { MAP I8 BYTES 8 = 2: 249 => [b"\xff\0"];
      b"\xff\0\0\0\0\0\0\0",
          b"\xf9\0\0\0\0\0\0\0\xf0\xff\xff\xff\xff\xff\xff\xff\x02\0\0\0\0\0\0\0",
          b"\0\0\0\0\0\0\0\0\0\0\0\0\0\0\0\0\0\0\0\0\0\0\0\0", b"\xff\x21\xff\x21", EMPTY_27,
          WIDE_HEADER;
      absent 7 1, 256 3; }
    // The codes from d800 to dfff, and those above 10ffff, are no characters. Buckets at 0,
    // controls at 16, header at 48.
    { MAP CHAR CHAR 4 = 2: 7 => 0xe9;
      b"\x07\0\0\0\xe9\0\0\0", b"\0\0\0\0\0\0\0\0", b"\xff\x1d\xff\x1d", EMPTY_27, HEADER;
      absent 0xe9 1, 0xd800 3, 0x11_0000 3;
      damaged 1 0xd8 (22, 0, 0, 0), 6 0x11 (22, 4, 0, 0); }
    { MAP CHAR CHAR 8 = 2: 0xe9 => 0x10_ffff, 3: 0x7a => 0x61;
      b"\x7a\0\0\0\x61\0\0\0", b"\xe9\0\0\0\xff\xff\x10\0", b"\0\0\0\0\0\0\0\0",
          b"\xff\x15\x6a\xff\x15\x6a", EMPTY_25, WIDE_HEADER_OF_TWO;
      absent 0x10_ffff 1, 0xdfff 3; }
    { MAP TEXT BOOL 4 = 1: [b"\xc3\xa9"] => 1;
      b"\0\0\0\0\0\0\0\0\0\0\0\0", b"\xc3\xa9\xff\xff\xff\xff\xff\xff\x01\0\0\0",
          b"\x08\xff\x08\xff", EMPTY_27, HEADER;
      absent [b"e"] 1, [b"\xc3"] 4; }
};

/// Returns the cases of maps of other types.
pub(crate) fn others() -> &'static [Case] {
    OTHERS
}

const FLOATS: &[Case] = cases! {
    // 1.5 and -0.0. 1.0 is 3f800000. Buckets at 0, controls at 24, header at 56.
    { MAP I32 F32 4 = 3: 0xffff_ffff => 0x3fc0_0000, 1: 5 => 0x8000_0000;
      b"\xff\xff\xff\xff\0\0\xc0\x3f", b"\0\0\0\0\0\0\0\0", b"\x05\0\0\0\0\0\0\x80",
          b"\x4b\xff\x6a\x4b\xff\x6a", EMPTY_25, HEADER_OF_TWO;
      absent 1 1, MAX 3;
      sets 5 = 0x3f80_0000 at 20 b"\0\0\x80\x3f";
      fails 5 = LARGE 3, 6 = 0 1; }
    { MAP I32 F32 8 = 3: 0xffff_ffff => 0x3fc0_0000, 1: 5 => 0x8000_0000;
      b"\xff\xff\xff\xff\0\0\xc0\x3f", b"\0\0\0\0\0\0\0\0", b"\x05\0\0\0\0\0\0\x80",
          b"\x4b\xff\x6a\x4b\xff\x6a", EMPTY_25, WIDE_HEADER_OF_TWO;
      absent 0 1; }
    // 0.1.
    { MAP U16 F64 4 = 1: 2 => 0x3fb9_9999_9999_999a;
      b"\0\0\0\0\0\0\0\0\0\0\0\0\0\0\0\0", b"\x02\0\0\0\0\0\0\0\x9a\x99\x99\x99\x99\x99\xb9\x3f",
          b"\x51\xff\x51\xff", EMPTY_27, HEADER;
      absent 3 1; }
    // 0.1. -2.0 is c000000000000000. Buckets at 0, controls at 32, header at 64.
    { MAP I16 F64 8, MAP U16 F64 8 = 1: 2 => 0x3fb9_9999_9999_999a;
      b"\0\0\0\0\0\0\0\0\0\0\0\0\0\0\0\0", b"\x02\0\0\0\0\0\0\0\x9a\x99\x99\x99\x99\x99\xb9\x3f",
          b"\x51\xff\x51\xff", EMPTY_27, WIDE_HEADER;
      absent 0 1;
      sets 2 = 0xc000_0000_0000_0000 at 24 b"\0\0\0\0\0\0\0\xc0"; }
    // 1.5.
    { INDEX_MAP U32 F32 4 = 1: 1 => 0x3fc0_0000;
      b"\0\0\0\0\0\0\0\0", b"\xff\x28\xff\x28", EMPTY_27, b"\0", b"\x01\0\0\0\0\0\xc0\x3f",
          b"\xd8\xff\xff\xff\x01\0\0\0\x02\0\0\0\xec\xff\xff\xff"; }
    // -0.0.
    { INDEX_MAP I32 F32 8 = 1: 1 => 0x8000_0000;
      b"\0\0\0\0\0\0\0\0\0\0\0\0\0\0\0\0", b"\xff\x28\xff\x28", EMPTY_27, b"\0",
          b"\x01\0\0\0\0\0\0\x80",
          b"\xd8\xff\xff\xff\xff\xff\xff\xff\x01\0\0\0\0\0\0\0\x02\0\0\0\0\0\0\0\xe0\xff\xff\xff",
          b"\xff\xff\xff\xff"; }
    // 0.1.
    { INDEX_MAP U64 F64 4 = 1: 1 => 0x3fb9_9999_9999_999a;
      b"\0\0\0\0\0\0\0\0", b"\xff\x28\xff\x28", EMPTY_27, b"\0",
          b"\x01\0\0\0\0\0\0\0\x9a\x99\x99\x99\x99\x99\xb9\x3f",
          b"\xd0\xff\xff\xff\x01\0\0\0\x02\0\0\0\xe4\xff\xff\xff"; }
    // -2.0.
    { INDEX_MAP I64 F64 8 = 1: 1 => 0xc000_0000_0000_0000;
      b"\0\0\0\0\0\0\0\0\0\0\0\0\0\0\0\0", b"\xff\x28\xff\x28", EMPTY_27, b"\0",
          b"\x01\0\0\0\0\0\0\0\0\0\0\0\0\0\0\xc0",
          b"\xd0\xff\xff\xff\xff\xff\xff\xff\x01\0\0\0\0\0\0\0\x02\0\0\0\0\0\0\0\xd8\xff\xff\xff",
          b"\xff\xff\xff\xff"; }
};

/// Returns the cases of maps to floating-point numbers.
pub(crate) fn floats() -> &'static [Case] {
    FLOATS
}

const SETS: &[Case] = cases! {
    { SET U8 UNIT 4, SET I8 UNIT 4 = 2: 7 => ();
      b"\x07", b"\0", b"\xff\x1d\xff\x1d", EMPTY_27,
          b"\0\0\0\xde\xff\xff\xff\x01\0\0\0\x02\0\0\0";
      absent 0 1, 256 3; }
    { SET I8 UNIT 8 = 1: 200 => (), 2: 7 => ();
      b"\0", b"\x07", b"\xc8", b"\x54\x1d\xff\x54\x1d\xff", EMPTY_25,
          b"\0\0\0\0\0\0\xdb\xff\xff\xff\xff\xff\xff\xff\x02\0\0\0\0\0\0\0\x03\0\0\0\0\0\0\0";
      absent 56 1; }
    { SET U16 UNIT 4 = 1: 40_000 => ();
      b"\0\0", b"\x40\x9c", b"\x32\xff\x32\xff", EMPTY_27, HEADER;
      absent 64 1; }
    { SET I32 UNIT 8 = 1: 0xffff_fffe => ();
      b"\0\0\0\0", b"\xfe\xff\xff\xff", b"\x42\xff\x42\xff", EMPTY_27, WIDE_HEADER;
      absent 2 1, MAX 3; }
    { SET CHAR UNIT 4 = 2: 0xe9 => (), 3: 0x65e5 => ();
      b"\xe5\x65\0\0", b"\xe9\0\0\0", b"\0\0\0\0", b"\xff\x15\x0e\xff\x15\x0e", EMPTY_25,
          HEADER_OF_TWO;
      absent 0x65 1, 0xd800 3; }
    { SET CHAR UNIT 8 = 2: 0xe9 => (), 3: 0x65e5 => ();
      b"\xe5\x65\0\0", b"\xe9\0\0\0", b"\0\0\0\0", b"\xff\x15\x0e\xff\x15\x0e", EMPTY_25,
          b"\0\0\0\0\0\xdc\xff\xff\xff\xff\xff\xff\xff\x02\0\0\0\0\0\0\0\x03\0\0\0\0\0\0\0";
      absent 0 1; }
};

/// Returns the cases of sets.
pub(crate) fn sets() -> &'static [Case] {
    SETS
}
