//! Index maps and index sets of numbers of 32 and 64 bits, texts and units.

use crate::tests::calls::{INDEX_MAP, INDEX_SET, TEXT, U32, U64, UNIT};
use crate::tests::cases::{Case, EMPTY_23, EMPTY_25, EMPTY_27, GREAT, LARGE, MAX};

const EMPTY: &[Case] = cases! {
    { INDEX_MAP U32 U32 4, INDEX_MAP U32 U64 4 =;
      b"\x01\0\0\0\0\0\0\0\0\0\0\0\xf4\xff\xff\xff";
      absent 1 1, GREAT 3;
      fails 1 = 3 1; }
    { INDEX_MAP U32 TEXT 4, INDEX_SET U32 UNIT 4 =;
      b"\x01\0\0\0\0\0\0\0\0\0\0\0\xf4\xff\xff\xff";
      absent 1 1, GREAT 3; }
    { INDEX_MAP U64 U32 4, INDEX_MAP U64 U64 4, INDEX_MAP U64 TEXT 4, INDEX_SET U64 UNIT 4 =;
      b"\x01\0\0\0\0\0\0\0\0\0\0\0\xf4\xff\xff\xff";
      absent 1 1; }
    { INDEX_MAP TEXT U32 4, INDEX_MAP TEXT U64 4, INDEX_MAP TEXT TEXT 4, INDEX_SET TEXT UNIT 4 =;
      b"\x01\0\0\0\0\0\0\0\0\0\0\0\xf4\xff\xff\xff";
      absent [b""] 1, [b"a"] 1, [b"a\xff"] 4; }
    { INDEX_MAP U32 U32 8, INDEX_MAP U32 U64 8, INDEX_MAP U32 TEXT 8, INDEX_SET U32 UNIT 8 =;
      b"\x01\0\0\0\0\0\0\0\0\0\0\0\0\0\0\0\0\0\0\0\0\0\0\0\xe8\xff\xff\xff\xff\xff\xff\xff";
      absent 1 1, GREAT 3; }
    { INDEX_MAP U64 U32 8, INDEX_MAP U64 U64 8, INDEX_MAP U64 TEXT 8, INDEX_SET U64 UNIT 8 =;
      b"\x01\0\0\0\0\0\0\0\0\0\0\0\0\0\0\0\0\0\0\0\0\0\0\0\xe8\xff\xff\xff\xff\xff\xff\xff";
      absent GREAT 1; }
    { INDEX_MAP TEXT U32 8, INDEX_MAP TEXT U64 8, INDEX_MAP TEXT TEXT 8, INDEX_SET TEXT UNIT 8 =;
      b"\x01\0\0\0\0\0\0\0\0\0\0\0\0\0\0\0\0\0\0\0\0\0\0\0\xe8\xff\xff\xff\xff\xff\xff\xff";
      absent [b""] 1, [b"a"] 1, [b"\xff"] 4; }
};

/// Returns the cases of empty collections.
pub(crate) fn empty() -> &'static [Case] {
    EMPTY
}

const NUMBERS: &[Case] = cases! {
    // Buckets at 0, controls at 8, entries at 40, header at 48.
    { INDEX_MAP U32 U32 4 = 1: 1 => 2;
      b"\0\0\0\0\0\0\0\0", b"\xff\x28\xff\x28", EMPTY_27, b"\0", b"\x01\0\0\0\x02\0\0\0",
          b"\xd8\xff\xff\xff\x01\0\0\0\x02\0\0\0\xec\xff\xff\xff";
      absent 2 1, GREAT 3;
      damaged 48 0xd9 (17, 1, 4, 0), 52 2 (18, 0, 2, 2), 9 0xff (19, 0, 1, 0),
          11 0x29 (20, 0, 3, 0), 0 1 (21, 0, 1, 1), 3 1 (21, 0, 0x0100_0000, 1),
          60 0 (16, -196, 8, 0), 60 0xeb (17, 39, 4, 0);
      sets 1 = 3 at 44 b"\x03", 1 = 0x0405 at 44 b"\x05\x04\0\0";
      fails 1 = LARGE 3, 2 = MAX 3, 2 = 0xffff_ffff 1, GREAT = 3 3;
      rejected INDEX_MAP U32 U32 8, INDEX_MAP U32 U64 4, INDEX_MAP U64 U32 4;
      misplaced 9 b"\x29\xff\x29" 1; }
    // Buckets at 0, controls at 8, entries at 40, header at 56.
    { INDEX_MAP U32 U64 4 = 1: 1 => 2;
      b"\0\0\0\0\0\0\0\0", b"\xff\x28\xff\x28", EMPTY_27, b"\0",
          b"\x01\0\0\0\0\0\0\0\x02\0\0\0\0\0\0\0",
          b"\xd0\xff\xff\xff\x01\0\0\0\x02\0\0\0\xe4\xff\xff\xff";
      absent 0 1;
      sets 1 = MAX at 48 b"\xff\xff\xff\xff\xff\xff\xff\xff";
      fails 2 = MAX 1; }
    // Buckets at 0, controls at 16, entries at 48, header at 56.
    { INDEX_MAP U32 U32 8 = 1: 1 => 2;
      b"\0\0\0\0\0\0\0\0\0\0\0\0\0\0\0\0", b"\xff\x28\xff\x28", EMPTY_27, b"\0",
          b"\x01\0\0\0\x02\0\0\0",
          b"\xd8\xff\xff\xff\xff\xff\xff\xff\x01\0\0\0\0\0\0\0\x02\0\0\0\0\0\0\0\xe0\xff\xff\xff",
          b"\xff\xff\xff\xff";
      absent 0xffff_ffff 1;
      sets 1 = 0xffff_fffe at 52 b"\xfe\xff\xff\xff";
      fails 1 = LARGE 3, 0 = 3 1;
      rejected INDEX_MAP U64 U32 8;
      misplaced 17 b"\x29\xff\x29" 1; }
    // Buckets at 0, controls at 16, entries at 48, header at 64.
    { INDEX_MAP U32 U64 8 = 1: 1 => 2;
      b"\0\0\0\0\0\0\0\0\0\0\0\0\0\0\0\0", b"\xff\x28\xff\x28", EMPTY_27, b"\0",
          b"\x01\0\0\0\0\0\0\0\x02\0\0\0\0\0\0\0",
          b"\xd0\xff\xff\xff\xff\xff\xff\xff\x01\0\0\0\0\0\0\0\x02\0\0\0\0\0\0\0\xd8\xff\xff\xff",
          b"\xff\xff\xff\xff";
      absent 2 1, LARGE 3;
      sets 1 = LARGE at 56 b"\0\0\0\0\x01\0\0\0"; }
    // The bucket of 5 is at 4. Buckets at 0, controls at 16, entries at 48, header at 72.
    { INDEX_MAP U32 U32 4 = 1: 1 => 2, 2: 5 => 6, 3: 1 => 9;
      b"\x02\0\0\0", b"\x01\0\0\0", b"\0\0\0\0\0\0\0\0", b"\xff\x28\x4b\x28\xff\x28\x4b\x28",
          EMPTY_23, b"\0", b"\x01\0\0\0\x02\0\0\0", b"\x05\0\0\0\x06\0\0\0",
          b"\x01\0\0\0\x09\0\0\0", b"\xc8\xff\xff\xff\x03\0\0\0\x04\0\0\0\xdc\xff\xff\xff";
      absent 3 1, GREAT 3;
      sets 1 = 7 at 52 b"\x07";
      misplaced 4 b"\0" 2; }
    { INDEX_MAP U32 U32 8 = 1: 1 => 2, 2: 5 => 6, 3: 1 => 9;
      b"\x02\0\0\0\0\0\0\0", b"\x01\0\0\0\0\0\0\0", b"\0\0\0\0\0\0\0\0\0\0\0\0\0\0\0\0",
          b"\xff\x28\x4b\x28\xff\x28\x4b\x28", EMPTY_23, b"\0", b"\x01\0\0\0\x02\0\0\0",
          b"\x05\0\0\0\x06\0\0\0", b"\x01\0\0\0\x09\0\0\0",
          b"\xc8\xff\xff\xff\xff\xff\xff\xff\x03\0\0\0\0\0\0\0\x04\0\0\0\0\0\0\0\xd0\xff\xff\xff",
          b"\xff\xff\xff\xff"; }
};

/// Returns the cases of maps whose keys and values are numbers.
pub(crate) fn numbers() -> &'static [Case] {
    NUMBERS
}

const LONG_NUMBERS: &[Case] = cases! {
    // Buckets at 0, controls at 8, entries at 40, header at 56.
    { INDEX_MAP U64 U32 4 = 1: 1 => 2;
      b"\0\0\0\0\0\0\0\0", b"\xff\x28\xff\x28", EMPTY_27, b"\0",
          b"\x01\0\0\0\0\0\0\0\x02\0\0\0\0\0\0\0",
          b"\xd0\xff\xff\xff\x01\0\0\0\x02\0\0\0\xe4\xff\xff\xff";
      absent GREAT 1;
      sets 1 = 0x0405 at 48 b"\x05\x04\0\0";
      fails 1 = MAX 3; }
    { INDEX_MAP U64 U64 4 = 1: 1 => 2;
      b"\0\0\0\0\0\0\0\0", b"\xff\x28\xff\x28", EMPTY_27, b"\0",
          b"\x01\0\0\0\0\0\0\0\x02\0\0\0\0\0\0\0",
          b"\xd0\xff\xff\xff\x01\0\0\0\x02\0\0\0\xe4\xff\xff\xff";
      absent MAX 1;
      fails GREAT = 3 1; }
    // Buckets at 0, controls at 16, entries at 48, header at 64.
    { INDEX_MAP U64 U32 8, INDEX_MAP U64 U64 8 = 1: 1 => 2;
      b"\0\0\0\0\0\0\0\0\0\0\0\0\0\0\0\0", b"\xff\x28\xff\x28", EMPTY_27, b"\0",
          b"\x01\0\0\0\0\0\0\0\x02\0\0\0\0\0\0\0",
          b"\xd0\xff\xff\xff\xff\xff\xff\xff\x01\0\0\0\0\0\0\0\x02\0\0\0\0\0\0\0\xd8\xff\xff\xff",
          b"\xff\xff\xff\xff";
      damaged 52 1 (0, 0, 0, 0), 64 0xd1 (17, 1, 8, 0), 72 2 (18, 0, 2, 2), 17 0xff (19, 0, 1, 0),
          19 0x29 (20, 0, 3, 0), 0 1 (21, 0, 1, 1), 88 0xd7 (17, 47, 8, 0),
          88 0xd0 (16, 40, 16, 0);
      sets 1 = 7 at 56 b"\x07"; }
    // Buckets at 0, controls at 16, entries at 48, header at 96.
    { INDEX_MAP U64 U32 4 = 1: 1 => 2, 2: GREAT => 6, 3: 1 => 9;
      b"\x02\0\0\0", b"\x01\0\0\0", b"\0\0\0\0\0\0\0\0", b"\xff\x28\x3c\x28\xff\x28\x3c\x28",
          EMPTY_23, b"\0", b"\x01\0\0\0\0\0\0\0\x02\0\0\0\0\0\0\0",
          b"\x01\0\0\0\x01\0\0\0\x06\0\0\0\0\0\0\0", b"\x01\0\0\0\0\0\0\0\x09\0\0\0\0\0\0\0",
          b"\xb0\xff\xff\xff\x03\0\0\0\x04\0\0\0\xc4\xff\xff\xff";
      sets 1 = 7 at 56 b"\x07"; }
    // Buckets at 0, controls at 16, entries at 48, header at 96.
    { INDEX_MAP U64 U64 4 = 1: 1 => 2, 2: GREAT => 6, 3: 1 => 9;
      b"\x02\0\0\0", b"\x01\0\0\0", b"\0\0\0\0\0\0\0\0", b"\xff\x28\x3c\x28\xff\x28\x3c\x28",
          EMPTY_23, b"\0", b"\x01\0\0\0\0\0\0\0\x02\0\0\0\0\0\0\0",
          b"\x01\0\0\0\x01\0\0\0\x06\0\0\0\0\0\0\0", b"\x01\0\0\0\0\0\0\0\x09\0\0\0\0\0\0\0",
          b"\xb0\xff\xff\xff\x03\0\0\0\x04\0\0\0\xc4\xff\xff\xff";
      sets GREAT = 3 at 72 b"\x03", GREAT = MAX at 72 b"\xff\xff\xff\xff\xff\xff\xff\xff"; }
    { INDEX_MAP U64 U32 8 = 1: GREAT => 2;
      b"\0\0\0\0\0\0\0\0\0\0\0\0\0\0\0\0", b"\xff\x3c\xff\x3c", EMPTY_27, b"\0",
          b"\x01\0\0\0\x01\0\0\0\x02\0\0\0\0\0\0\0",
          b"\xd0\xff\xff\xff\xff\xff\xff\xff\x01\0\0\0\0\0\0\0\x02\0\0\0\0\0\0\0\xd8\xff\xff\xff",
          b"\xff\xff\xff\xff";
      absent 1 1;
      fails GREAT = LARGE 3; }
    // Buckets at 0, controls at 16, entries at 48, header at 64.
    { INDEX_MAP U64 U64 8 = 1: GREAT => 2;
      b"\0\0\0\0\0\0\0\0\0\0\0\0\0\0\0\0", b"\xff\x3c\xff\x3c", EMPTY_27, b"\0",
          b"\x01\0\0\0\x01\0\0\0\x02\0\0\0\0\0\0\0",
          b"\xd0\xff\xff\xff\xff\xff\xff\xff\x01\0\0\0\0\0\0\0\x02\0\0\0\0\0\0\0\xd8\xff\xff\xff",
          b"\xff\xff\xff\xff";
      absent 0 1;
      sets GREAT = LARGE at 56 b"\0\0\0\0\x01\0\0\0",
          GREAT = MAX at 56 b"\xff\xff\xff\xff\xff\xff\xff\xff";
      fails 1 = 3 1; }
};

/// Returns the cases of maps whose keys are numbers of 64 bits.
pub(crate) fn long_numbers() -> &'static [Case] {
    LONG_NUMBERS
}

const TEXTS: &[Case] = cases! {
    { INDEX_MAP TEXT U32 4 = 1: [b""] => 7;
      b"\0\0\0\0\0\0\0\0", b"\xff\x15\xff\x15", EMPTY_27, b"\0",
          b"\xff\xff\xff\xff\xff\xff\xff\xff\x07\0\0\0",
          b"\xd4\xff\xff\xff\x01\0\0\0\x02\0\0\0\xe8\xff\xff\xff";
      absent [b"a"] 1;
      fails [b"\x80"] = LARGE 4, [b"a"] = LARGE 3, [b"a"] = 8 1;
      rejected INDEX_MAP TEXT U64 4; }
    // Buckets at 0, controls at 8, entries at 40, header at 56.
    { INDEX_MAP TEXT U64 4 = 1: [b"main"] => 4096;
      b"\0\0\0\0\0\0\0\0", b"\x38\xff\x38\xff", EMPTY_27, b"\0",
          b"main\xff\xff\xff\xff\0\x10\0\0\0\0\0\0",
          b"\xd0\xff\xff\xff\x01\0\0\0\x02\0\0\0\xe4\xff\xff\xff";
      sets [b"main"] = MAX at 48 b"\xff\xff\xff\xff\xff\xff\xff\xff"; }
    // Buckets at 0, controls at 16, entries at 48, header at 72.
    { INDEX_MAP TEXT U32 8 = 1: [b""] => 7;
      b"\0\0\0\0\0\0\0\0\0\0\0\0\0\0\0\0", b"\xff\x15\xff\x15", EMPTY_27, b"\0",
          b"\xff\xff\xff\xff\xff\xff\xff\xff\xff\xff\xff\xff\xff\xff\xff\xff\x07\0\0\0\0\0\0\0",
          b"\xc8\xff\xff\xff\xff\xff\xff\xff\x01\0\0\0\0\0\0\0\x02\0\0\0\0\0\0\0\xd0\xff\xff\xff",
          b"\xff\xff\xff\xff";
      sets [b""] = 0xffff_ffff at 64 b"\xff\xff\xff\xff";
      fails [b""] = MAX 3, [b"\xc3"] = 3 4; }
    // Buckets at 0, controls at 16, entries at 48, header at 72.
    { INDEX_MAP TEXT U64 8 = 1: [b""] => 7;
      b"\0\0\0\0\0\0\0\0\0\0\0\0\0\0\0\0", b"\xff\x15\xff\x15", EMPTY_27, b"\0",
          b"\xff\xff\xff\xff\xff\xff\xff\xff\xff\xff\xff\xff\xff\xff\xff\xff\x07\0\0\0\0\0\0\0",
          b"\xc8\xff\xff\xff\xff\xff\xff\xff\x01\0\0\0\0\0\0\0\x02\0\0\0\0\0\0\0\xd0\xff\xff\xff",
          b"\xff\xff\xff\xff";
      absent [b"\xc3"] 4, [b"a"] 1, [b"\xff"] 4;
      sets [b""] = MAX at 64 b"\xff\xff\xff\xff\xff\xff\xff\xff";
      fails [b"a"] = MAX 1, [b"\x80"] = 8 4; }
    // The text at 43 has 18 bytes, 21 before 64. Buckets at 0, controls at 12, entries at 64,
    // header at 88.
    { INDEX_MAP TEXT U32 4 = 1: [b"a text out of line"] => 1, 2: [b"b"] => 2;
      b"\0\0\0\0", b"\x01\0\0\0", b"\0\0\0\0", b"\xff\x53\x44\xff\x53\x44", EMPTY_25,
          b"a text out of line\0\0\0", b"\x92\0\0\0\xeb\xff\xff\xff\x01\0\0\0",
          b"b\xff\xff\xff\xff\xff\xff\xff\x02\0\0\0",
          b"\xb4\xff\xff\xff\x02\0\0\0\x03\0\0\0\xdc\xff\xff\xff";
      absent [b"a text"] 1;
      damaged 4 2 (21, 0, 2, 2), 100 0xc0 (16, 36, 24, 0), 43 0xc3 (22, 64, 0, 0),
          76 0xc3 (22, 76, 0, 0);
      sets [b"b"] = 3 at 84 b"\x03", [b"b"] = 0x0405 at 84 b"\x05\x04\0\0"; }
};

/// Returns the cases of maps whose keys are texts.
pub(crate) fn texts() -> &'static [Case] {
    TEXTS
}

const TO_TEXTS: &[Case] = cases! {
    { INDEX_MAP U32 TEXT 4 = 1: 1 => [b"tea"];
      b"\0\0\0\0\0\0\0\0", b"\xff\x28\xff\x28", EMPTY_27, b"\0",
          b"\x01\0\0\0tea\xff\xff\xff\xff\xff",
          b"\xd4\xff\xff\xff\x01\0\0\0\x02\0\0\0\xe8\xff\xff\xff";
      absent 2 1, MAX 3;
      fails 1 = MAX 7, GREAT = 3 3;
      rejected INDEX_MAP U64 TEXT 4, INDEX_MAP U32 TEXT 8; }
    // The text at 47 has 9 bytes, 13 before 60. Buckets at 0, controls at 16, entries at 56, header
    // at 92.
    { INDEX_MAP U32 TEXT 4 = 1: 1 => [b"wonderful"], 2: 5 => [b"x"], 3: 1 => [b"tea"];
      b"\x02\0\0\0", b"\x01\0\0\0", b"\0\0\0\0\0\0\0\0", b"\xff\x28\x4b\x28\xff\x28\x4b\x28",
          EMPTY_23, b"wonderful", b"\x01\0\0\0\x89\0\0\0\xf3\xff\xff\xff",
          b"\x05\0\0\0x\xff\xff\xff\xff\xff\xff\xff", b"\x01\0\0\0tea\xff\xff\xff\xff\xff",
          b"\xb4\xff\xff\xff\x03\0\0\0\x04\0\0\0\xd0\xff\xff\xff";
      absent 0xffff_ffff 1;
      damaged 47 b'W' (0, 0, 0, 0), 92 0xb5 (17, 1, 4, 0), 96 4 (18, 0, 4, 4),
          17 0xff (19, 0, 3, 2), 21 0x29 (20, 0, 5, 0), 0 3 (21, 0, 3, 3),
          104 0xc0 (16, 40, 36, 0), 104 0xcf (17, 55, 4, 0), 47 0xc3 (22, 60, 0, 0),
          72 0xc3 (22, 72, 0, 0), 60 0x88 (22, 60, 0, 0), 64 0xf2 (16, 46, 9, 0); }
    { INDEX_MAP U32 TEXT 8 = 1: 1 => [b"wonderful"];
      b"\0\0\0\0\0\0\0\0\0\0\0\0\0\0\0\0", b"\xff\x28\xff\x28", EMPTY_27, b"\0",
          b"\x01\0\0\0\0\0\0\0wonderful\xff\xff\xff\xff\xff\xff\xff",
          b"\xc8\xff\xff\xff\xff\xff\xff\xff\x01\0\0\0\0\0\0\0\x02\0\0\0\0\0\0\0\xd0\xff\xff\xff",
          b"\xff\xff\xff\xff";
      absent 0 1; }
    { INDEX_MAP U64 TEXT 8 = 1: 1 => [b"wonderful"];
      b"\0\0\0\0\0\0\0\0\0\0\0\0\0\0\0\0", b"\xff\x28\xff\x28", EMPTY_27, b"\0",
          b"\x01\0\0\0\0\0\0\0wonderful\xff\xff\xff\xff\xff\xff\xff",
          b"\xc8\xff\xff\xff\xff\xff\xff\xff\x01\0\0\0\0\0\0\0\x02\0\0\0\0\0\0\0\xd0\xff\xff\xff",
          b"\xff\xff\xff\xff"; }
    { INDEX_MAP U64 TEXT 4 = 1: 1 => [b"tea"];
      b"\0\0\0\0\0\0\0\0", b"\xff\x28\xff\x28", EMPTY_27, b"\0",
          b"\x01\0\0\0\0\0\0\0tea\xff\xff\xff\xff\xff",
          b"\xd0\xff\xff\xff\x01\0\0\0\x02\0\0\0\xe4\xff\xff\xff";
      absent GREAT 1; }
    // The text at 47 has 9 bytes, 17 before 64. Buckets at 0, controls at 16, entries at 56, header
    // at 104.
    { INDEX_MAP U64 TEXT 4 = 1: 1 => [b"wonderful"], 2: GREAT => [b"x"], 3: 1 => [b"tea"];
      b"\x02\0\0\0", b"\x01\0\0\0", b"\0\0\0\0\0\0\0\0", b"\xff\x28\x3c\x28\xff\x28\x3c\x28",
          EMPTY_23, b"wonderful", b"\x01\0\0\0\0\0\0\0\x89\0\0\0\xef\xff\xff\xff",
          b"\x01\0\0\0\x01\0\0\0x\xff\xff\xff\xff\xff\xff\xff",
          b"\x01\0\0\0\0\0\0\0tea\xff\xff\xff\xff\xff",
          b"\xa8\xff\xff\xff\x03\0\0\0\x04\0\0\0\xc4\xff\xff\xff";
      damaged 47 b'W' (0, 0, 0, 0), 104 0xa9 (17, 1, 4, 0), 108 4 (18, 0, 4, 4),
          3 1 (21, 0, 0x0100_0002, 3), 116 0xb8 (16, 44, 48, 0), 47 0xc3 (22, 64, 0, 0),
          80 0xc3 (22, 80, 0, 0); }
    // Buckets at 0, controls at 16, entries at 48, header at 72.
    { INDEX_MAP U64 TEXT 8 = 1: GREAT => [b"wonderful"];
      b"\0\0\0\0\0\0\0\0\0\0\0\0\0\0\0\0", b"\xff\x3c\xff\x3c", EMPTY_27, b"\0",
          b"\x01\0\0\0\x01\0\0\0wonderful\xff\xff\xff\xff\xff\xff\xff",
          b"\xc8\xff\xff\xff\xff\xff\xff\xff\x01\0\0\0\0\0\0\0\x02\0\0\0\0\0\0\0\xd0\xff\xff\xff",
          b"\xff\xff\xff\xff";
      absent 1 1;
      damaged 0 0 (0, 0, 0, 0), 17 0xff (19, 0, 1, 0), 0 1 (21, 0, 1, 1), 56 0xc3 (22, 56, 0, 0),
          96 0xcf (17, 47, 8, 0); }
};

/// Returns the cases of maps of numbers to texts.
pub(crate) fn to_texts() -> &'static [Case] {
    TO_TEXTS
}

const TWO_TEXTS: &[Case] = cases! {
    // The text at 39 has 9 bytes, 17 before 56.
    { INDEX_MAP TEXT TEXT 4 = 1: [b""] => [b"wonderful"];
      b"\0\0\0\0\0\0\0\0", b"\xff\x15\xff\x15", EMPTY_27, b"wonderful",
          b"\xff\xff\xff\xff\xff\xff\xff\xff\x89\0\0\0\xef\xff\xff\xff",
          b"\xc8\xff\xff\xff\x01\0\0\0\x02\0\0\0\xe4\xff\xff\xff";
      absent [b"a"] 1, [b"\xc3"] 4;
      rejected INDEX_MAP TEXT TEXT 8; }
    // The texts at 43 and 61 have 18 and 9 bytes, 29 before 72 and 19 before 80. Buckets at 0,
    // controls at 12, entries at 72, header at 104.
    { INDEX_MAP TEXT TEXT 4 = 1: [b"a text out of line"] => [b"wonderful"], 2: [b"b"] => [b"x"];
      b"\0\0\0\0", b"\x01\0\0\0", b"\0\0\0\0", b"\xff\x53\x44\xff\x53\x44", EMPTY_25,
          b"a text out of linewonderful\0\0",
          b"\x92\0\0\0\xe3\xff\xff\xff\x89\0\0\0\xed\xff\xff\xff",
          b"b\xff\xff\xff\xff\xff\xff\xffx\xff\xff\xff\xff\xff\xff\xff",
          b"\xa4\xff\xff\xff\x02\0\0\0\x03\0\0\0\xd4\xff\xff\xff";
      absent [b"a text"] 1;
      damaged 43 b'A' (0, 0, 0, 0), 13 0xff (19, 0, 2, 1), 16 0x29 (20, 0, 4, 0),
          4 2 (21, 0, 2, 2), 116 0xb0 (16, 36, 32, 0), 61 0xc3 (22, 80, 0, 0),
          96 0xc3 (22, 96, 0, 0), 43 0xc3 (22, 72, 0, 0), 88 0xc3 (22, 88, 0, 0); }
    // The text at 47 has 17 bytes, 33 before 80. Buckets at 0, controls at 16, entries at 64,
    // header at 96.
    { INDEX_MAP TEXT TEXT 8 = 1: [b""] => [b"a text of 17 byte"];
      b"\0\0\0\0\0\0\0\0\0\0\0\0\0\0\0\0", b"\xff\x15\xff\x15", EMPTY_27, b"a text of 17 byte",
          b"\xff\xff\xff\xff\xff\xff\xff\xff\xff\xff\xff\xff\xff\xff\xff\xff\x91\0\0\0\0\0\0\0",
          b"\xdf\xff\xff\xff\xff\xff\xff\xff",
          b"\xb0\xff\xff\xff\xff\xff\xff\xff\x01\0\0\0\0\0\0\0\x02\0\0\0\0\0\0\0\xc8\xff\xff\xff",
          b"\xff\xff\xff\xff";
      absent [b"wonderful"] 1, [b"\x80"] 4;
      damaged 0 0 (0, 0, 0, 0), 17 0xff (19, 0, 1, 0), 0 1 (21, 0, 1, 1), 47 0xc3 (22, 80, 0, 0),
          104 2 (18, 0, 2, 2);
      rejected INDEX_MAP TEXT TEXT 4; }
};

/// Returns the cases of maps of texts to texts.
pub(crate) fn two_texts() -> &'static [Case] {
    TWO_TEXTS
}

const SETS: &[Case] = cases! {
    { INDEX_SET U32 UNIT 4 = 1: 1 => ();
      b"\0\0\0\0\0\0\0\0", b"\xff\x28\xff\x28", EMPTY_27, b"\0", b"\x01\0\0\0",
          b"\xdc\xff\xff\xff\x01\0\0\0\x02\0\0\0\xf0\xff\xff\xff";
      absent 2 1, GREAT 3;
      fails 1 = 3 7; }
    { INDEX_SET U64 UNIT 4 = 1: 1 => ();
      b"\0\0\0\0\0\0\0\0", b"\xff\x28\xff\x28", EMPTY_27, b"\0", b"\x01\0\0\0\0\0\0\0",
          b"\xd8\xff\xff\xff\x01\0\0\0\x02\0\0\0\xec\xff\xff\xff"; }
    { INDEX_SET U32 UNIT 8 = 1: 1 => ();
      b"\0\0\0\0\0\0\0\0\0\0\0\0\0\0\0\0", b"\xff\x28\xff\x28", EMPTY_27, b"\0", b"\x01\0\0\0",
          b"\0\0\0\0",
          b"\xd8\xff\xff\xff\xff\xff\xff\xff\x01\0\0\0\0\0\0\0\x02\0\0\0\0\0\0\0\xe0\xff\xff\xff",
          b"\xff\xff\xff\xff"; }
    { INDEX_SET U64 UNIT 8 = 1: 1 => ();
      b"\0\0\0\0\0\0\0\0\0\0\0\0\0\0\0\0", b"\xff\x28\xff\x28", EMPTY_27, b"\0",
          b"\x01\0\0\0\0\0\0\0",
          b"\xd8\xff\xff\xff\xff\xff\xff\xff\x01\0\0\0\0\0\0\0\x02\0\0\0\0\0\0\0\xe0\xff\xff\xff",
          b"\xff\xff\xff\xff"; }
    { INDEX_SET TEXT UNIT 4 = 1: [b""] => ();
      b"\0\0\0\0\0\0\0\0", b"\xff\x15\xff\x15", EMPTY_27, b"\0",
          b"\xff\xff\xff\xff\xff\xff\xff\xff",
          b"\xd8\xff\xff\xff\x01\0\0\0\x02\0\0\0\xec\xff\xff\xff"; }
};

/// Returns the cases of sets.
pub(crate) fn sets() -> &'static [Case] {
    SETS
}
