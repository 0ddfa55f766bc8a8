//! Tests of the hashers, with worked hashes.
ghost use Rattle.std.specs.Prelude.{◌≡◌, [], ◌∷◌};
ghost use Rattle.rkyv_scan.specs.{Isize, Usize, hash_of_calls};

use rkyv_scan::{FxHasher64, FxHasher64Wide, KeyHasher, laws};

const SEED: u64 = 0x517c_c1b7_2722_0a95;

const OF_MINUS_ONE: u64 = 0xae83_3e48_d8dd_f56b;

fn of_usize<H: KeyHasher>(number: usize) -> u64
    ensures { result ≡ hash_of_calls H.hasher (Usize number ∷ []) }
{
    let mut state = H::default();
    state.write_usize(number);
    state.finish()
}

fn of_isize<H: KeyHasher>(number: isize) -> u64
    ensures { result ≡ hash_of_calls H.hasher (Isize number ∷ []) }
{
    let mut state = H::default();
    state.write_isize(number);
    state.finish()
}

// Returns the hashes after every call but `write_usize` and `write_isize`.
// They are the same for both hashers.
fn fed_words<H: KeyHasher>() -> [u64; 11] {
    let new = H::default();

    let mut one = H::default();
    one.write_u8(1);

    let mut text = H::default();
    text.write(b"");
    let no_text = text.finish();
    text.write_u8(0xff);

    let mut bytes = H::default();
    bytes.write(&[1, 2, 3, 4, 5, 6, 7, 8, 9, 10, 11, 12, 13, 14, 15]);
    let mut words = H::default();
    words.write_u64(0x0807_0605_0403_0201);
    words.write_u32(0x0c0b_0a09);
    words.write_u16(0x0e0d);
    words.write_u8(0x0f);

    let mut wide = H::default();
    wide.write_u128(0x0000_0000_0000_0002_0000_0000_0000_0001);
    let mut paired = H::default();
    paired.write_u64(1);
    let half = paired.finish();
    paired.write_u64(2);

    [
        new.finish(),
        one.finish(),
        one.finish() >> 57,
        no_text,
        text.finish(),
        text.finish() >> 57,
        bytes.finish(),
        words.finish(),
        half,
        wide.finish(),
        paired.finish(),
    ]
}

const FED_WORDS: [u64; 11] = [
    0,
    SEED,
    0x28,
    0,
    0x2b44_f56f_fae8_8a6b,
    0x15,
    0x6e8b_5d1d_34f0_8a49,
    0x6e8b_5d1d_34f0_8a49,
    SEED,
    0x6a4b_e67f_f98f_abc8,
    0x6a4b_e67f_f98f_abc8,
];

// Returns the hashes after signed numbers of each width in a row, and after minus one.
fn fed_signed<H: KeyHasher>() -> ([u64; 5], u64) {
    let mut signed = H::default();
    signed.write_i8(-2);
    let after_8 = signed.finish();
    signed.write_i16(-2);
    let after_16 = signed.finish();
    signed.write_i32(-2);
    let after_32 = signed.finish();
    signed.write_i64(-2);
    let after_64 = signed.finish();
    signed.write_i128(-2);
    let mut minus_one = H::default();
    minus_one.write_i64(-1);
    (
        [after_8, after_16, after_32, after_64, signed.finish()],
        minus_one.finish(),
    )
}

// Returns the same after the unsigned numbers with the same bits.
fn fed_bits<H: KeyHasher>() -> ([u64; 5], u64) {
    let mut unsigned = H::default();
    unsigned.write_u8(0xfe);
    let after_8 = unsigned.finish();
    unsigned.write_u16(0xfffe);
    let after_16 = unsigned.finish();
    unsigned.write_u32(0xffff_fffe);
    let after_32 = unsigned.finish();
    unsigned.write_u64(0xffff_ffff_ffff_fffe);
    let after_64 = unsigned.finish();
    unsigned.write_u64(0xffff_ffff_ffff_fffe);
    unsigned.write_u64(0xffff_ffff_ffff_ffff);
    (
        [after_8, after_16, after_32, after_64, unsigned.finish()],
        OF_MINUS_ONE,
    )
}

#[test]
fn words_are_fed(rt: HostRuntime) {
    laws::calls_hash_their_words();
    laws::fx_hashers();
    laws::fixed_calls_agree();
    laws::fixed_calls_hash_alike();
    expect_eq!(rt; fed_words::<FxHasher64>(), FED_WORDS);
    expect_eq!(rt; fed_words::<FxHasher64Wide>(), FED_WORDS);
    expect_eq!(rt; fed_signed::<FxHasher64>(), fed_bits::<FxHasher64>());
    expect_eq!(rt; fed_signed::<FxHasher64Wide>(), fed_bits::<FxHasher64Wide>());
}

// Returns the hash of these bytes, written in two pieces.
fn in_two_pieces<H: KeyHasher>(first: &[u8], others: &[u8]) -> u64 {
    let mut state = H::default();
    state.write(first);
    state.write(others);
    state.finish()
}

#[test]
fn writes_join_at_whole_words(rt: HostRuntime) {
    laws::writes_join();
    laws::eight_bytes_are_one_word();
    let (first, others) = ([1, 2, 3, 4, 5, 6, 7, 8], [9, 10, 11, 12, 13, 14, 15]);
    expect_eq!(rt; in_two_pieces::<FxHasher64>(&first, &others), 0x6e8b_5d1d_34f0_8a49);
    expect_eq!(rt; in_two_pieces::<FxHasher64Wide>(&first, &others), 0x6e8b_5d1d_34f0_8a49);
}

#[test]
fn halves_and_all_bits_are_fed(rt: HostRuntime) {
    expect_eq!(rt; of_usize::<FxHasher64>(1), SEED);
    expect_eq!(rt; of_usize::<FxHasher64>(4_294_967_297), SEED);
    expect_eq!(rt; of_isize::<FxHasher64>(-1), OF_MINUS_ONE);
    expect_eq!(rt; of_isize::<FxHasher64>(4_294_967_295), OF_MINUS_ONE);
    let large = of_usize::<FxHasher64Wide>(4_294_967_297);
    expect_eq!(rt; of_usize::<FxHasher64Wide>(1), SEED);
    expect_eq!(rt; large, 0x789e_cc4c_2722_0a95);
    expect_eq!(rt; large >> 57, 0x3c);
    expect_eq!(rt; of_isize::<FxHasher64Wide>(-1), OF_MINUS_ONE);
    expect_eq!(rt; of_isize::<FxHasher64Wide>(4_294_967_295), 0xd5a5_48dd_d8dd_f56b);
    let mut hasher = FxHasher64::default();
    hasher.write_u8(1);
    assert_eq!(rt; hasher.finish(), 0x517c_c1b7_2722_0a95);
    let mut hasher = FxHasher64Wide::default();
    hasher.write_usize(4_294_967_297);
    assert_eq!(rt; hasher.finish(), 0x789e_cc4c_2722_0a95);
}
