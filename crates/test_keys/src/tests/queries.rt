//! Tests of keys in archives, looked up by native values and by keys of other archives.
use rkyv_base::access::access;
use rkyv_base::{Entry, ReadError, Text, VerifyError, Wide};
use rkyv_keys::{
    Deserialize, ElementDebug, ElementEq, KeyElement, KeyView, MatchesNative, Query, Shown,
    hash_value, laws,
};
use rkyv_scan::{FxHasher64, KeyHasher};
use std::alloc::Global;
use std::str;

// "hello" in its fixed bytes.
const HELLO: [u8; 8] = [0x68, 0x65, 0x6c, 0x6c, 0x6f, 0xff, 0xff, 0xff];

// "hello" again, with other bytes after its end.
const HELLO_AGAIN: [u8; 8] = [0x68, 0x65, 0x6c, 0x6c, 0x6f, 0xff, 0x00, 0x01];

// "wonderful", three zeros, and the fixed bytes: its length and the distance to it.
const WONDERFUL: [u8; 20] = [
    0x77, 0x6f, 0x6e, 0x64, 0x65, 0x72, 0x66, 0x75, 0x6c, 0, 0, 0, 0x89, 0, 0, 0, 0xf4, 0xff, 0xff,
    0xff,
];

// "wonderful" in the fixed bytes of a wide archive.
const WIDE_WONDERFUL: [u8; 16] = [
    0x77, 0x6f, 0x6e, 0x64, 0x65, 0x72, 0x66, 0x75, 0x6c, 0xff, 0xff, 0xff, 0xff, 0xff, 0xff, 0xff,
];

// The entry of "hello" and 7.
const HELLO_SEVEN: [u8; 12] = [0x68, 0x65, 0x6c, 0x6c, 0x6f, 0xff, 0xff, 0xff, 7, 0, 0, 0];

// The entry of "hello" and 8.
const HELLO_EIGHT: [u8; 12] = [0x68, 0x65, 0x6c, 0x6c, 0x6f, 0xff, 0xff, 0xff, 8, 0, 0, 0];

// Each of the next six functions returns `None` if an archive is not valid.

fn query_matches<K: KeyElement, Q: Query<K>>(query: &Q, bytes: &[u8]) -> Option<bool> {
    match access::<K>(bytes) {
        Ok(key) => Some(query.same(key)),
        Err(_) => None,
    }
}

fn key_matches<K: KeyElement>(archive: &[u8], other: &[u8]) -> Option<bool> {
    match access::<K>(archive) {
        Ok(view) => query_matches::<K, KeyView<'_, K>>(&KeyView::of(view), other),
        Err(_) => None,
    }
}

// Returns the hash of an archived key as a query, and whether it and its clone match another key.
fn hashes_and_matches<K: KeyElement>(archive: &[u8], other: &[u8]) -> Option<(u64, bool, bool)> {
    match (access::<K>(archive), access::<K>(other)) {
        (Ok(view), Ok(other)) => {
            let key = KeyView::of(view);
            let hash = hash_value::<KeyView<'_, K>, FxHasher64>(&key);
            match key.clone() {
                Ok(clone) => Some((hash, key.same(other), clone.same(other))),
                Err(_) => None,
            }
        }
        _ => None,
    }
}

fn are_same<T: ElementEq>(archive: &[u8], other: &[u8]) -> Option<bool> {
    match (access::<T>(archive), access::<T>(other)) {
        (Ok(a), Ok(b)) => Some(T::same(a, b)),
        _ => None,
    }
}

fn equals<V, T: MatchesNative<V>>(bytes: &[u8], value: &V) -> Option<bool> {
    match access::<T>(bytes) {
        Ok(view) => Some(T::eq_native(view, value)),
        Err(_) => None,
    }
}

fn hash_of<K: KeyElement>(bytes: &[u8]) -> Option<u64> {
    let mut state = FxHasher64::default();
    match access::<K>(bytes) {
        Ok(view) => K::hash_view(view, &mut state),
        Err(_) => return None,
    }
    Some(state.finish())
}

// Returns `true` if this text is deserialized.
fn reads_text(alloc: Global, bytes: &[u8], text: &str) -> bool {
    match access::<Text>(bytes) {
        Ok(view) => matches!(Text::deserialize(alloc, view), Ok(read) if is(&read, text)),
        Err(_) => false,
    }
}

// Returns `true` if an owned text is this one.
fn is(text: &String, expected: &str) -> bool {
    text.as_str() == expected
}

// Returns a text of 300 bytes, `a`, 298 times `x`, and `z`, and its fixed bytes: its length and the
// distance to it.
fn long_text() -> [u8; 308] {
    let mut bytes = [0x78; 308];
    bytes[0] = 0x61;
    bytes[299] = 0x7a;
    bytes[300..].copy_from_slice(&[0xac, 4, 0, 0, 0xd4, 0xfe, 0xff, 0xff]);
    bytes
}

// Returns `true` if the text of 300 bytes is deserialized.
fn reads_long_text(alloc: Global) -> bool {
    let bytes = long_text();
    matches!(str::from_utf8(&bytes[..300]), Ok(text) if reads_text(alloc, &bytes, text))
}

// Returns `true` if this pair of a text and a number is deserialized.
fn reads_pair(alloc: Global, bytes: &[u8], pair: (&str, u32)) -> Result<bool, VerifyError> {
    let view = access::<Entry<Text, u32>>(bytes)?;
    let read: Result<(String, u32), ReadError> = Entry::deserialize(alloc, view);
    match read {
        Ok((text, number)) => Ok((text.as_str(), number) == pair),
        Err(_) => Ok(false),
    }
}

// Returns `true` if the unit value is deserialized.
fn reads_unit(alloc: Global, bytes: &[u8]) -> Result<bool, VerifyError> {
    let view = access::<()>(bytes)?;
    let read: Result<(), ReadError> = <()>::deserialize(alloc, view);
    Ok(read.is_ok())
}

// Returns `true` if the root of an archive is formatted as this text.
pub(crate) fn shows<T: ElementDebug>(alloc: Global, bytes: &[u8], text: &str) -> bool {
    match access::<T>(bytes) {
        Ok(view) => {
            let shown = format!(in alloc; "{:?}", Shown::new(view));
            matches!(shown, Ok(shown) if shown.as_str() == text)
        }
        Err(_) => false,
    }
}

// Returns the results of lookups and comparisons with an owned "hello".
fn owned_hello(alloc: Global) -> Option<[Option<bool>; 4]> {
    let text = String::from_str(alloc, "hello").ok()?;
    Some([
        query_matches::<Text, String>(&text, &HELLO),
        query_matches::<Text, String>(&text, &WONDERFUL),
        equals::<String, Text>(&HELLO, &text),
        equals::<String, Text>(&WONDERFUL, &text),
    ])
}

#[test]
fn str_queries_match_texts(rt: HostRuntime) {
    laws::native_keys_hash_as_written::<Text, &str>();
    laws::queries_fit_by_value::<Text, &str, &str>();
    laws::queries_rest_on_keys::<Text, &str>();
    laws::views_match_same_keys::<Text>();
    let (yes, no) = (Some(true), Some(false));
    expect_eq!(rt; query_matches::<Text, &str>(&"hello", &HELLO), yes);
    expect_eq!(rt; query_matches::<Text, &str>(&"hello", &HELLO_AGAIN), yes);
    expect_eq!(rt; query_matches::<Text, &str>(&"hellx", &HELLO), no);
    expect_eq!(rt; query_matches::<Text, &str>(&"wonderful", &WONDERFUL), yes);
    expect_eq!(rt; query_matches::<Text<Wide>, &str>(&"wonderful", &WIDE_WONDERFUL), yes);
    expect_eq!(rt; owned_hello(rt.alloc()), Some([yes, no, yes, no]));
}

#[test]
fn queries_hash_and_match_as_keys(rt: HostRuntime) {
    let expected = [
        Some(hash_value::<&str, FxHasher64>(&"hello")),
        Some(hash_value::<&str, FxHasher64>(&"wonderful")),
        Some(hash_value::<(&str, u32), FxHasher64>(&("hello", 7))),
        Some(0),
    ];
    expect_eq!(rt; [hash_of::<Text>(&HELLO), hash_of::<Text>(&WONDERFUL),
        hash_of::<Entry<Text, u32>>(&HELLO_SEVEN), hash_of::<()>(&[])], expected);
    expect_eq!(rt; query_matches::<Entry<Text, u32>, (&str, u32)>(&("hello", 7), &HELLO_SEVEN),
        Some(true));
    expect_eq!(rt; query_matches::<Entry<Text, u32>, (&str, u32)>(&("hello", 8), &HELLO_SEVEN),
        Some(false));
    expect_eq!(rt; query_matches::<Entry<Text, u32>, (&str, u32)>(&("hell", 7), &HELLO_SEVEN),
        Some(false));
    expect_eq!(rt; query_matches::<(), ()>(&(), &[]), Some(true));
}

#[test]
fn archived_keys_match_and_hash_as_queries(rt: HostRuntime) {
    let (yes, no) = (Some(true), Some(false));
    expect_eq!(rt; key_matches::<Text>(&HELLO, &HELLO_AGAIN), yes);
    expect_eq!(rt; key_matches::<Text>(&HELLO, &WONDERFUL), no);
    expect_eq!(rt; key_matches::<Entry<Text, u32>>(&HELLO_SEVEN, &HELLO_SEVEN), yes);
    expect_eq!(rt; key_matches::<Entry<Text, u32>>(&HELLO_SEVEN, &HELLO_EIGHT), no);
    expect_eq!(rt; key_matches::<u16>(&[1, 2], &[1, 2]), yes);
    laws::views_match_same_keys::<u16>();
    laws::key_views_are_cloned::<u16>();
    let text = hash_value::<&str, FxHasher64>(&"hello");
    expect_eq!(rt; hashes_and_matches::<Text>(&HELLO, &HELLO_AGAIN), Some((text, true, true)));
    expect_eq!(rt; hashes_and_matches::<Text>(&HELLO, &WONDERFUL), Some((text, false, false)));
    let number = hash_value::<u16, FxHasher64>(&0x0201);
    expect_eq!(rt; hashes_and_matches::<u16>(&[1, 2], &[1, 2]), Some((number, true, true)));
    expect_eq!(rt; hashes_and_matches::<u16>(&[1, 2], &[1, 3]), Some((number, false, false)));
}

#[test]
fn values_are_compared_in_place(rt: HostRuntime) {
    laws::archived_values_are_compared::<u32, Wide, u8, u32>();
    laws::native_values_are_compared::<u32, Wide, u8, u32, u8, u32>();
    let (yes, no) = (Some(true), Some(false));
    expect_eq!(rt; are_same::<Text>(&HELLO, &HELLO_AGAIN), yes);
    expect_eq!(rt; are_same::<Text>(&HELLO, &WONDERFUL), no);
    expect_eq!(rt; are_same::<Entry<Text, u32>>(&HELLO_SEVEN, &HELLO_EIGHT), no);
    expect_eq!(rt; are_same::<()>(&[], &[]), yes);
    expect_eq!(rt; equals::<&str, Text>(&WONDERFUL, &"wonderful"), yes);
    expect_eq!(rt; equals::<&str, Text>(&HELLO_AGAIN, &"hello"), yes);
    expect_eq!(rt; equals::<(&str, u32), Entry<Text, u32>>(&HELLO_SEVEN, &("hello", 7)), yes);
    expect_eq!(rt; equals::<(&str, u32), Entry<Text, u32>>(&HELLO_SEVEN, &("hello", 8)), no);
    expect_eq!(rt; equals::<(), ()>(&[], &()), yes);
    expect_eq!(rt; owned_hello(rt.alloc()), Some([yes, no, yes, no]));
}

#[test]
fn values_are_read_back_and_printed(rt: HostRuntime) {
    laws::errors_of_deserializing::<u32, Wide, u8, u32, u8, u32>();
    let alloc = rt.alloc();
    expect_eq!(rt; reads_text(alloc, &WONDERFUL, "wonderful"), true);
    expect_eq!(rt; reads_pair(alloc, &HELLO_SEVEN, ("hello", 7)).ok(), Some(true));
    expect_eq!(rt; reads_unit(alloc, &[]).ok(), Some(true));
    assert!(rt; reads_long_text(alloc));
    let quote = [0x22, 0x0a, 0xff, 0xff, 0xff, 0xff, 0xff, 0xff];
    expect_eq!(rt; shows::<Text>(alloc, &HELLO, "\"hello\""), true);
    expect_eq!(rt; shows::<()>(alloc, &[], "()"), true);
    expect_eq!(rt; shows::<Entry<Text, u32>>(alloc, &HELLO_SEVEN, "(\"hello\", 7)"), true);
    expect_eq!(rt; shows::<Text>(alloc, &quote, "\"\\\"\\n\""), true);
}
