//! Hash maps and hash sets of numbers of 32 and 64 bits, texts and units.

use crate::tests::calls::{MAP, SET, TEXT, U32, U64, UNIT};
use crate::tests::cases::{
    Case, EMPTY_25, EMPTY_27, GREAT, HEADER, HEADER_OF_TWO, LARGE, MAX, WIDE_HEADER,
    WIDE_HEADER_OF_TWO,
};

const EMPTY: &[Case] = cases! {
    { MAP U32 U32 4, MAP U32 U64 4, MAP U32 TEXT 4, SET U32 UNIT 4 =;
      b"\x01\0\0\0\0\0\0\0\0\0\0\0";
      absent 1 1, GREAT 3; }
    { MAP U64 U32 4, MAP U64 U64 4, MAP U64 TEXT 4, SET U64 UNIT 4 =;
      b"\x01\0\0\0\0\0\0\0\0\0\0\0";
      absent 1 1, GREAT 1; }
    { MAP TEXT U32 4, MAP TEXT U64 4, MAP TEXT TEXT 4 =;
      b"\x01\0\0\0\0\0\0\0\0\0\0\0";
      absent [b""] 1, [b"\xff"] 4; }
    { SET TEXT UNIT 4 =;
      b"\x01\0\0\0\0\0\0\0\0\0\0\0";
      absent [b""] 1, [b"\xff"] 4;
      fails [b"a"] = 3 7, [b"\xff"] = 3 4; }
    { MAP U32 U32 8, MAP U32 U64 8, MAP U32 TEXT 8, SET U32 UNIT 8 =;
      b"\x01\0\0\0\0\0\0\0\0\0\0\0\0\0\0\0\0\0\0\0\0\0\0\0";
      absent 1 1, GREAT 3; }
    { MAP U64 U32 8, MAP U64 U64 8, MAP U64 TEXT 8, SET U64 UNIT 8 =;
      b"\x01\0\0\0\0\0\0\0\0\0\0\0\0\0\0\0\0\0\0\0\0\0\0\0";
      absent 1 1, GREAT 1; }
    { MAP TEXT U32 8, MAP TEXT U64 8, MAP TEXT TEXT 8, SET TEXT UNIT 8 =;
      b"\x01\0\0\0\0\0\0\0\0\0\0\0\0\0\0\0\0\0\0\0\0\0\0\0";
      absent [b""] 1, [b"\xff"] 4; }
};

/// Returns the cases of empty collections.
pub(crate) fn empty() -> &'static [Case] {
    EMPTY
}

const NUMBERS: &[Case] = cases! {
    // Buckets at 0, controls at 16, header at 48.
    { MAP U32 U32 4 = 2: 1 => 2;
      b"\x01\0\0\0\x02\0\0\0", b"\0\0\0\0\0\0\0\0", b"\xff\x28\xff\x28", EMPTY_27, HEADER;
      absent 2 1, GREAT 3;
      damaged 48 0xe1 (17, 1, 4, 0), 52 2 (18, 0, 2, 2), 17 0xff (19, 0, 1, 0),
          16 0x28 (19, 0, 1, 2), 19 0x29 (20, 0, 3, 0), 46 0 (20, 0, 30, 0);
      sets 1 = 3 at 4 b"\x03", 1 = 0xffff_fffe at 4 b"\xfe\xff\xff\xff";
      fails 1 = LARGE 3, 2 = MAX 3, 2 = 0xffff_ffff 1, GREAT = 3 3;
      rejected MAP U32 U32 8, MAP U32 U64 4;
      misplaced 17 b"\x29\xff\x29" 1; }
    // Buckets at 0, controls at 16, header at 48.
    { MAP U32 U32 8 = 2: 1 => 2;
      b"\x01\0\0\0\x02\0\0\0", b"\0\0\0\0\0\0\0\0", b"\xff\x28\xff\x28", EMPTY_27, WIDE_HEADER;
      absent 3 1;
      sets 1 = 0x0405 at 4 b"\x05\x04\0\0";
      fails 2 = LARGE 3, 2 = 3 1; }
    // Buckets at 0, controls at 32, header at 64.
    { MAP U32 U64 4 = 2: 1 => 2;
      b"\x01\0\0\0\0\0\0\0\x02\0\0\0\0\0\0\0", b"\0\0\0\0\0\0\0\0\0\0\0\0\0\0\0\0",
          b"\xff\x28\xff\x28", EMPTY_27, HEADER;
      absent 0 1;
      sets 1 = MAX at 8 b"\xff\xff\xff\xff\xff\xff\xff\xff";
      fails 2 = MAX 1; }
    // Buckets at 0, controls at 32, header at 64.
    { MAP U32 U64 8 = 2: 1 => 2;
      b"\x01\0\0\0\0\0\0\0\x02\0\0\0\0\0\0\0", b"\0\0\0\0\0\0\0\0\0\0\0\0\0\0\0\0",
          b"\xff\x28\xff\x28", EMPTY_27, WIDE_HEADER;
      absent 0xffff_ffff 1;
      sets 1 = LARGE at 8 b"\0\0\0\0\x01\0\0\0", 1 = MAX at 8 b"\xff\xff\xff\xff\xff\xff\xff\xff";
      fails 0 = 3 1; }
    // Both pairs start at bucket 0. Buckets at 0, controls at 24, header at 56.
    { MAP U32 U32 4 = 1: 1 => 2, 2: 1 => 9;
      b"\0\0\0\0\0\0\0\0", b"\x01\0\0\0\x09\0\0\0", b"\x01\0\0\0\x02\0\0\0",
          b"\x28\x28\xff\x28\x28\xff", EMPTY_25, HEADER_OF_TWO;
      absent 2 1, GREAT 3;
      sets 1 = 7 at 20 b"\x07\0\0\0"; }
};

/// Returns the cases of maps whose keys and values are numbers.
pub(crate) fn numbers() -> &'static [Case] {
    NUMBERS
}

const LONG_NUMBERS: &[Case] = cases! {
    // Buckets at 0, controls at 32, header at 64.
    { MAP U64 U32 4 = 2: 1 => 2;
      b"\x01\0\0\0\0\0\0\0\x02\0\0\0\0\0\0\0", b"\0\0\0\0\0\0\0\0\0\0\0\0\0\0\0\0",
          b"\xff\x28\xff\x28", EMPTY_27, HEADER;
      absent GREAT 1;
      damaged 68 2 (18, 0, 2, 2);
      sets 1 = 0x0405 at 8 b"\x05\x04\0\0";
      fails 1 = LARGE 3, 2 = 3 1; }
    // Buckets at 0, controls at 32, header at 64.
    { MAP U64 U64 4 = 2: 1 => 2;
      b"\x01\0\0\0\0\0\0\0\x02\0\0\0\0\0\0\0", b"\0\0\0\0\0\0\0\0\0\0\0\0\0\0\0\0",
          b"\xff\x28\xff\x28", EMPTY_27, HEADER;
      absent 0 1;
      damaged 68 2 (18, 0, 2, 2); }
    { MAP U64 U32 8, MAP U64 U64 8 = 2: 1 => 2;
      b"\x01\0\0\0\0\0\0\0\x02\0\0\0\0\0\0\0", b"\0\0\0\0\0\0\0\0\0\0\0\0\0\0\0\0",
          b"\xff\x28\xff\x28", EMPTY_27, WIDE_HEADER;
      absent MAX 1; }
    // Buckets at 0, controls at 32, header at 64.
    { MAP U64 U64 8 = 2: 1 => 2;
      b"\x01\0\0\0\0\0\0\0\x02\0\0\0\0\0\0\0", b"\0\0\0\0\0\0\0\0\0\0\0\0\0\0\0\0",
          b"\xff\x28\xff\x28", EMPTY_27, WIDE_HEADER;
      sets 1 = 0x0201_0000_0000_0002 at 14 b"\x01\x02"; }
    { MAP U64 U32 4, MAP U64 U64 4 = 1: 1 => 2, 2: GREAT => 9;
      b"\0\0\0\0\0\0\0\0\0\0\0\0\0\0\0\0", b"\x01\0\0\0\x01\0\0\0\x09\0\0\0\0\0\0\0",
          b"\x01\0\0\0\0\0\0\0\x02\0\0\0\0\0\0\0", b"\x28\x3c\xff\x28\x3c\xff", EMPTY_25,
          HEADER_OF_TWO;
      absent 7 1; }
    { MAP U64 U64 8 = 1: 1 => 2, 2: 1 => 9;
      b"\0\0\0\0\0\0\0\0\0\0\0\0\0\0\0\0", b"\x01\0\0\0\0\0\0\0\x09\0\0\0\0\0\0\0",
          b"\x01\0\0\0\0\0\0\0\x02\0\0\0\0\0\0\0", b"\x28\x28\xff\x28\x28\xff", EMPTY_25,
          WIDE_HEADER_OF_TWO; }
    // The hash of GREAT is 789ecc4c27220a95, with the tag 3c.
    { MAP U64 U32 4 = 2: GREAT => 2;
      b"\x01\0\0\0\x01\0\0\0\x02\0\0\0\0\0\0\0", b"\0\0\0\0\0\0\0\0\0\0\0\0\0\0\0\0",
          b"\xff\x3c\xff\x3c", EMPTY_27, HEADER;
      absent 1 1; }
    // Buckets at 0, controls at 32, header at 64.
    { MAP U64 U64 4 = 2: GREAT => 2;
      b"\x01\0\0\0\x01\0\0\0\x02\0\0\0\0\0\0\0", b"\0\0\0\0\0\0\0\0\0\0\0\0\0\0\0\0",
          b"\xff\x3c\xff\x3c", EMPTY_27, HEADER;
      absent 1 1;
      sets GREAT = MAX at 8 b"\xff\xff\xff\xff\xff\xff\xff\xff";
      fails 1 = 3 1, 1 = MAX 1; }
    // Buckets at 0, controls at 32, header at 64.
    { MAP U64 U32 8 = 2: GREAT => 2;
      b"\x01\0\0\0\x01\0\0\0\x02\0\0\0\0\0\0\0", b"\0\0\0\0\0\0\0\0\0\0\0\0\0\0\0\0",
          b"\xff\x3c\xff\x3c", EMPTY_27, WIDE_HEADER;
      absent 1 1;
      damaged 33 0xff (19, 0, 1, 0);
      sets GREAT = 7 at 8 b"\x07";
      fails GREAT = MAX 3; }
    // Buckets at 0, controls at 32, header at 64.
    { MAP U64 U64 8 = 2: GREAT => 2;
      b"\x01\0\0\0\x01\0\0\0\x02\0\0\0\0\0\0\0", b"\0\0\0\0\0\0\0\0\0\0\0\0\0\0\0\0",
          b"\xff\x3c\xff\x3c", EMPTY_27, WIDE_HEADER;
      damaged 33 0xff (19, 0, 1, 0);
      sets GREAT = MAX at 8 b"\xff\xff\xff\xff\xff\xff\xff\xff"; }
};

/// Returns the cases of maps whose keys are numbers of 64 bits.
pub(crate) fn long_numbers() -> &'static [Case] {
    LONG_NUMBERS
}

const TEXTS: &[Case] = cases! {
    // Buckets at 0, controls at 24, header at 56.
    { MAP TEXT U32 4 = 2: [b""] => 7;
      b"\xff\xff\xff\xff\xff\xff\xff\xff\x07\0\0\0", b"\0\0\0\0\0\0\0\0\0\0\0\0",
          b"\xff\x15\xff\x15", EMPTY_27, HEADER;
      absent [b"a"] 1;
      sets [b""] = 3 at 8 b"\x03", [b""] = 0x0405 at 8 b"\x05\x04\0\0";
      fails [b"\x80"] = LARGE 4, [b""] = LARGE 3, [b"a"] = LARGE 3, [b"a"] = 8 1;
      rejected MAP TEXT U64 4; }
    // Buckets at 0, controls at 48, header at 80.
    { MAP TEXT U32 8 = 2: [b""] => 7;
      b"\xff\xff\xff\xff\xff\xff\xff\xff\xff\xff\xff\xff\xff\xff\xff\xff\x07\0\0\0\0\0\0\0",
          b"\0\0\0\0\0\0\0\0\0\0\0\0\0\0\0\0\0\0\0\0\0\0\0\0", b"\xff\x15\xff\x15", EMPTY_27,
          WIDE_HEADER;
      absent [b"a"] 1, [b"a\xff"] 4;
      sets [b""] = 0xffff_ffff at 16 b"\xff\xff\xff\xff";
      fails [b"a"] = MAX 3, [b"\xc3"] = 3 4; }
    // Buckets at 0, controls at 48, header at 80.
    { MAP TEXT U64 8 = 2: [b""] => 7;
      b"\xff\xff\xff\xff\xff\xff\xff\xff\xff\xff\xff\xff\xff\xff\xff\xff\x07\0\0\0\0\0\0\0",
          b"\0\0\0\0\0\0\0\0\0\0\0\0\0\0\0\0\0\0\0\0\0\0\0\0", b"\xff\x15\xff\x15", EMPTY_27,
          WIDE_HEADER;
      absent [b"a"] 1, [b"\xc3"] 4;
      sets [b""] = MAX at 16 b"\xff\xff\xff\xff\xff\xff\xff\xff";
      fails [b"a"] = MAX 1, [b"\x80"] = 8 4; }
    // Buckets at 0, controls at 32, header at 64.
    { MAP TEXT U64 4 = 1: [b"main"] => 4096;
      b"\0\0\0\0\0\0\0\0\0\0\0\0\0\0\0\0", b"main\xff\xff\xff\xff\0\x10\0\0\0\0\0\0",
          b"\x38\xff\x38\xff", EMPTY_27, HEADER;
      absent [b"mai"] 1, [b"\xff"] 4;
      damaged 64 0xe1 (17, 1, 8, 0), 68 2 (18, 0, 2, 2), 32 0xff (19, 0, 1, 0),
          35 0x38 (20, 0, 3, 0), 16 0xc3 (22, 16, 0, 0);
      sets [b"main"] = 0x1_0000_0002 at 24 b"\x02\0\0\0\x01\0\0\0";
      fails [b"mai"] = 3 1; }
    { MAP TEXT U32 4 = 1: [b""] => 7, 2: [b""] => 8;
      b"\0\0\0\0\0\0\0\0\0\0\0\0", b"\xff\xff\xff\xff\xff\xff\xff\xff\x08\0\0\0",
          b"\xff\xff\xff\xff\xff\xff\xff\xff\x07\0\0\0", b"\x15\x15\xff\x15\x15\xff", EMPTY_25,
          HEADER_OF_TWO; }
};

/// Returns the cases of maps whose keys are texts.
pub(crate) fn texts() -> &'static [Case] {
    TEXTS
}

const TO_TEXTS: &[Case] = cases! {
    { MAP U32 TEXT 4 = 2: 1 => [b"tea"];
      b"\x01\0\0\0tea\xff\xff\xff\xff\xff", b"\0\0\0\0\0\0\0\0\0\0\0\0", b"\xff\x28\xff\x28",
          EMPTY_27, HEADER;
      absent 2 1;
      rejected MAP U32 TEXT 8, MAP U64 TEXT 4; }
    // The text at 0 has 9 bytes, 40 before 40. Buckets at 12, controls at 48, header at 80.
    { MAP U32 TEXT 4 = 1: 1 => [b"wonderful"], 2: 1 => [b"x"];
      b"wonderful\0\0\0", b"\0\0\0\0\0\0\0\0\0\0\0\0", b"\x01\0\0\0x\xff\xff\xff\xff\xff\xff\xff",
          b"\x01\0\0\0\x89\0\0\0\xd8\xff\xff\xff", b"\x28\x28\xff\x28\x28\xff", EMPTY_25,
          HEADER_OF_TWO;
      damaged 0 b'W' (0, 0, 0, 0), 8 0xc3 (22, 40, 0, 0), 28 0xc3 (22, 28, 0, 0),
          40 0x88 (22, 40, 0, 0), 44 0xd7 (16, -1, 9, 0), 84 3 (18, 0, 3, 3), 84 1 (19, 0, 1, 2),
          78 0 (20, 0, 30, 0), 80 0xe1 (17, 13, 4, 0); }
    { MAP U64 TEXT 4 = 2: 1 => [b"tea"];
      b"\x01\0\0\0\0\0\0\0tea\xff\xff\xff\xff\xff", b"\0\0\0\0\0\0\0\0\0\0\0\0\0\0\0\0",
          b"\xff\x28\xff\x28", EMPTY_27, HEADER;
      absent GREAT 1; }
    // The text at 0 has 9 bytes, 56 before 56. Buckets at 16, controls at 64, header at 96.
    { MAP U64 TEXT 4 = 1: 1 => [b"wonderful"], 2: GREAT => [b"x"];
      b"wonderful\0\0\0\0\0\0\0", b"\0\0\0\0\0\0\0\0\0\0\0\0\0\0\0\0",
          b"\x01\0\0\0\x01\0\0\0x\xff\xff\xff\xff\xff\xff\xff",
          b"\x01\0\0\0\0\0\0\0\x89\0\0\0\xc8\xff\xff\xff", b"\x28\x3c\xff\x28\x3c\xff", EMPTY_25,
          HEADER_OF_TWO;
      absent 7 1;
      damaged 0 b'W' (0, 0, 0, 0), 8 0xc3 (22, 56, 0, 0), 40 0xc3 (22, 40, 0, 0),
          60 0xc7 (16, -1, 9, 0), 100 3 (18, 0, 3, 3), 100 1 (19, 0, 1, 2), 94 0 (20, 0, 30, 0),
          96 0xe1 (17, 17, 8, 0); }
    // Buckets at 0, controls at 48, header at 80.
    { MAP U32 TEXT 8 = 2: 1 => [b"wonderful"];
      b"\x01\0\0\0\0\0\0\0wonderful\xff\xff\xff\xff\xff\xff\xff",
          b"\0\0\0\0\0\0\0\0\0\0\0\0\0\0\0\0\0\0\0\0\0\0\0\0", b"\xff\x28\xff\x28", EMPTY_27,
          WIDE_HEADER;
      absent 0 1, GREAT 3;
      damaged 8 0xc3 (22, 8, 0, 0);
      rejected MAP U32 TEXT 4; }
    // Buckets at 0, controls at 48, header at 80.
    { MAP U64 TEXT 8 = 2: 1 => [b"wonderful"];
      b"\x01\0\0\0\0\0\0\0wonderful\xff\xff\xff\xff\xff\xff\xff",
          b"\0\0\0\0\0\0\0\0\0\0\0\0\0\0\0\0\0\0\0\0\0\0\0\0", b"\xff\x28\xff\x28", EMPTY_27,
          WIDE_HEADER;
      damaged 8 0xc3 (22, 8, 0, 0); }
    { MAP U64 TEXT 8 = 2: GREAT => [b"wonderful"];
      b"\x01\0\0\0\x01\0\0\0wonderful\xff\xff\xff\xff\xff\xff\xff",
          b"\0\0\0\0\0\0\0\0\0\0\0\0\0\0\0\0\0\0\0\0\0\0\0\0", b"\xff\x3c\xff\x3c", EMPTY_27,
          WIDE_HEADER;
      absent 1 1; }
};

/// Returns the cases of maps of numbers to texts.
pub(crate) fn to_texts() -> &'static [Case] {
    TO_TEXTS
}

const TWO_TEXTS: &[Case] = cases! {
    // The text at 0 has 9 bytes, 20 before 20. Buckets at 12, controls at 44, header at 76.
    { MAP TEXT TEXT 4 = 2: [b""] => [b"wonderful"];
      b"wonderful\0\0\0", b"\xff\xff\xff\xff\xff\xff\xff\xff\x89\0\0\0\xec\xff\xff\xff",
          b"\0\0\0\0\0\0\0\0\0\0\0\0\0\0\0\0", b"\xff\x15\xff\x15", EMPTY_27, HEADER;
      absent [b"a"] 1, [b"\xc3"] 4;
      damaged 0 b'W' (0, 0, 0, 0), 8 0xc3 (22, 20, 0, 0), 12 0xc3 (22, 12, 0, 0),
          20 0x88 (22, 20, 0, 0), 24 0xf0 (16, 4, 9, 0), 45 0xff (19, 0, 1, 0);
      rejected MAP TEXT TEXT 8; }
    // The text at 0 has 9 bytes, 52 before 52.
    { MAP TEXT TEXT 4 = 1: [b""] => [b"wonderful"], 2: [b""] => [b"x"];
      b"wonderful\0\0\0", b"\0\0\0\0\0\0\0\0\0\0\0\0\0\0\0\0",
          b"\xff\xff\xff\xff\xff\xff\xff\xffx\xff\xff\xff\xff\xff\xff\xff",
          b"\xff\xff\xff\xff\xff\xff\xff\xff\x89\0\0\0\xcc\xff\xff\xff",
          b"\x15\x15\xff\x15\x15\xff", EMPTY_25, HEADER_OF_TWO; }
    // The text at 0 has 17 bytes, 40 before 40. Buckets at 24, controls at 88, header at 120.
    { MAP TEXT TEXT 8 = 2: [b""] => [b"a text of 17 byte"];
      b"a text of 17 byte\0\0\0\0\0\0\0",
          b"\xff\xff\xff\xff\xff\xff\xff\xff\xff\xff\xff\xff\xff\xff\xff\xff\x91\0\0\0\0\0\0\0",
          b"\xd8\xff\xff\xff\xff\xff\xff\xff",
          b"\0\0\0\0\0\0\0\0\0\0\0\0\0\0\0\0\0\0\0\0\0\0\0\0\0\0\0\0\0\0\0\0",
          b"\xff\x15\xff\x15", EMPTY_27, WIDE_HEADER;
      absent [b"wonderful"] 1, [b"\x80"] 4;
      damaged 16 0xc3 (22, 40, 0, 0);
      rejected MAP TEXT TEXT 4; }
};

/// Returns the cases of maps of texts to texts.
pub(crate) fn two_texts() -> &'static [Case] {
    TWO_TEXTS
}

const SETS: &[Case] = cases! {
    // Buckets at 0, controls at 8, header at 40.
    { SET U32 UNIT 4 = 2: 1 => ();
      b"\x01\0\0\0", b"\0\0\0\0", b"\xff\x28\xff\x28", EMPTY_27, HEADER;
      absent 2 1, LARGE 3;
      damaged 0 2 (0, 0, 0, 0), 40 0xe1 (17, 1, 4, 0), 44 2 (18, 0, 2, 2), 9 0xff (19, 0, 1, 0),
          11 0xff (20, 0, 3, 0);
      rejected SET U64 UNIT 4;
      misplaced 9 b"\x29\xff\x29" 1; }
    { SET U32 UNIT 4 = 1: 1 => (), 2: 1 => ();
      b"\0\0\0\0", b"\x01\0\0\0", b"\x01\0\0\0", b"\x28\x28\xff\x28\x28\xff", EMPTY_25,
          HEADER_OF_TWO; }
    { SET U32 UNIT 8 = 2: 1 => ();
      b"\x01\0\0\0", b"\0\0\0\0", b"\xff\x28\xff\x28", EMPTY_27, WIDE_HEADER;
      absent 0 1;
      rejected SET U64 UNIT 8; }
    { SET U64 UNIT 4 = 2: 1 => ();
      b"\x01\0\0\0\0\0\0\0", b"\0\0\0\0\0\0\0\0", b"\xff\x28\xff\x28", EMPTY_27, HEADER;
      absent GREAT 1; }
    { SET U64 UNIT 4 = 2: GREAT => ();
      b"\x01\0\0\0\x01\0\0\0", b"\0\0\0\0\0\0\0\0", b"\xff\x3c\xff\x3c", EMPTY_27, HEADER;
      absent 1 1; }
    // Buckets at 0, controls at 16, header at 48.
    { SET U64 UNIT 8 = 2: 1 => ();
      b"\x01\0\0\0\0\0\0\0", b"\0\0\0\0\0\0\0\0", b"\xff\x28\xff\x28", EMPTY_27, WIDE_HEADER;
      absent MAX 1;
      damaged 0 2 (0, 0, 0, 0), 48 0xe1 (17, 1, 8, 0), 56 2 (18, 0, 2, 2), 17 0xff (19, 0, 1, 0),
          19 0xff (20, 0, 3, 0); }
    { SET U64 UNIT 8 = 1: 1 => (), 2: 1 => ();
      b"\0\0\0\0\0\0\0\0", b"\x01\0\0\0\0\0\0\0", b"\x01\0\0\0\0\0\0\0",
          b"\x28\x28\xff\x28\x28\xff", EMPTY_25, WIDE_HEADER_OF_TWO; }
    // Buckets at 0, controls at 16, header at 48.
    { SET TEXT UNIT 4 = 2: [b""] => ();
      b"\xff\xff\xff\xff\xff\xff\xff\xff", b"\0\0\0\0\0\0\0\0", b"\xff\x15\xff\x15", EMPTY_27,
          HEADER;
      absent [b"a"] 1;
      damaged 0 0xff (0, 0, 0, 0), 0 0xc3 (22, 0, 0, 0); }
    { SET TEXT UNIT 8 = 2: [b""] => ();
      b"\xff\xff\xff\xff\xff\xff\xff\xff\xff\xff\xff\xff\xff\xff\xff\xff",
          b"\0\0\0\0\0\0\0\0\0\0\0\0\0\0\0\0", b"\xff\x15\xff\x15", EMPTY_27, WIDE_HEADER;
      absent [b"a"] 1, [b"\xc3"] 4; }
    { SET TEXT UNIT 4 = 1: [b""] => (), 2: [b""] => ();
      b"\0\0\0\0\0\0\0\0", b"\xff\xff\xff\xff\xff\xff\xff\xff",
          b"\xff\xff\xff\xff\xff\xff\xff\xff", b"\x15\x15\xff\x15\x15\xff", EMPTY_25,
          HEADER_OF_TWO;
      absent [b"\xff"] 4, [b"a"] 1; }
};

/// Returns the cases of sets.
pub(crate) fn sets() -> &'static [Case] {
    SETS
}
