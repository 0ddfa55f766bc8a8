//! Tests of the hashes of native values.

use rkyv_keys::{KeyHash, hash_value, laws};
use rkyv_scan::{FxHasher64, FxHasher64Wide, KeyHasher};

const OF_ONE: u64 = 0x517c_c1b7_2722_0a95;

const OF_NO_TEXT: u64 = 0x2b44_f56f_fae8_8a6b;

const OF_MINUS_ONE: u64 = 0xae83_3e48_d8dd_f56b;

#[test]
fn a_number_is_one_word(rt: HostRuntime) {
    laws::numbers_hash_by_their_types();
    expect_eq!(rt; hash_value::<u8, FxHasher64>(&1), OF_ONE);
    expect_eq!(rt; hash_value::<u16, FxHasher64>(&1), OF_ONE);
    expect_eq!(rt; hash_value::<u32, FxHasher64>(&1), OF_ONE);
    expect_eq!(rt; hash_value::<u64, FxHasher64>(&1), OF_ONE);
    expect_eq!(rt; hash_value::<i8, FxHasher64>(&1), OF_ONE);
    expect_eq!(rt; hash_value::<i16, FxHasher64>(&1), OF_ONE);
    expect_eq!(rt; hash_value::<i32, FxHasher64>(&1), OF_ONE);
    expect_eq!(rt; hash_value::<i64, FxHasher64>(&1), OF_ONE);
    expect_eq!(rt; hash_value::<bool, FxHasher64>(&true), OF_ONE);
    expect_eq!(rt; hash_value::<char, FxHasher64>(&'\u{1}'), OF_ONE);
    expect_eq!(rt; hash_value::<u8, FxHasher64>(&1) >> 57, 0x28);
    expect_eq!(rt; hash_value::<i64, FxHasher64>(&-1), OF_MINUS_ONE);
    expect_eq!(rt; hash_value::<bool, FxHasher64>(&false), 0);
}

#[test]
fn text_ends_with_ff(rt: HostRuntime) {
    laws::texts_hash_by_their_bytes();
    let mut state = FxHasher64::default();
    state.write(&[]);
    state.write_u8(0xff);
    let text = String::new(rt.alloc());
    expect_eq!(rt; state.finish(), OF_NO_TEXT);
    expect_eq!(rt; hash_value::<&str, FxHasher64>(&""), OF_NO_TEXT);
    expect_eq!(rt; hash_value::<String, FxHasher64>(&text), OF_NO_TEXT);
    expect_eq!(rt; OF_NO_TEXT >> 57, 0x15);
}

#[test]
fn the_unit_value_feeds_nothing(rt: HostRuntime) {
    laws::bools_chars_and_units_hash_by_their_calls();
    let hashes = [
        hash_value::<(), FxHasher64>(&()),
        hash_value::<((), u8), FxHasher64>(&((), 1)),
        hash_value::<(u8, ()), FxHasher64>(&(1, ())),
    ];
    assert_eq!(rt; hashes, [0, OF_ONE, OF_ONE]);
}

#[test]
fn a_pair_feeds_its_parts_in_order(rt: HostRuntime) {
    laws::pairs_hash_in_order::<u8, u32>();
    let mut state = FxHasher64::default();
    state.write_u8(1);
    state.write_u32(2);
    let mut parts = FxHasher64::default();
    (1u8, 2u32).hash(&mut parts);
    expect_eq!(rt; hash_value::<(u8, u32), FxHasher64>(&(1, 2)), state.finish());
    expect_eq!(rt; parts.finish(), state.finish());
}

#[test]
fn sizes_feed_as_many_bits_as_the_hasher_takes(rt: HostRuntime) {
    expect_eq!(rt; hash_value::<usize, FxHasher64>(&1), OF_ONE);
    expect_eq!(rt; hash_value::<usize, FxHasher64>(&4_294_967_297), OF_ONE);
    expect_eq!(rt; hash_value::<isize, FxHasher64>(&-1), OF_MINUS_ONE);
    expect_eq!(rt; hash_value::<isize, FxHasher64>(&4_294_967_295), OF_MINUS_ONE);
    expect_eq!(rt; hash_value::<usize, FxHasher64Wide>(&1), OF_ONE);
    expect_eq!(rt; hash_value::<usize, FxHasher64Wide>(&4_294_967_297), 0x789e_cc4c_2722_0a95);
    expect_eq!(rt; hash_value::<isize, FxHasher64Wide>(&-1), OF_MINUS_ONE);
    expect_eq!(rt; hash_value::<isize, FxHasher64Wide>(&4_294_967_295), 0xd5a5_48dd_d8dd_f56b);
}
