//! Tests of text: its bytes, its errors, and reading it in place.
use crate::tests::access_failures::access_failure;
use rkyv_base::{
    Archive, Entry, Narrow, Text, TextResolver, VerifyError, Wide, Width, access_in, laws,
    to_bytes_in,
};
use std::alloc::{AllocError, Global};
use test_support::written::is_archived_as;

/// Returns `len` letters a.
fn letters(alloc: Global, len: usize) -> Result<String, AllocError> {
    let mut text = String::new(alloc);
    for _ in 0..len {
        text.push('a')?;
    }
    Ok(text)
}

// Returns `true` if this text is the root of an archive.
#[tactic(auto, using(rkyv_base::specs::Lemmas::Access::root_viewable))]
fn is_root<W: Width>(bytes: &[u8], text: &str) -> bool {
    match access_in::<W, Text<W>>(bytes) {
        Ok(root) => root.as_str() == text,
        Err(_) => false,
    }
}

// Returns `true` if a text is archived as these bytes, and reads back from them.
fn represents_as<W: Width>(alloc: Global, text: &str, bytes: &[u8]) -> bool {
    match to_bytes_in::<W, &str>(alloc, &text) {
        Ok(archive) => archive.as_slice() == bytes && is_root::<W>(bytes, text),
        Err(_) => false,
    }
}

#[test]
fn texts_are_inline_or_before_their_fixed_bytes(rt: HostRuntime) {
    laws::texts_are_their_bytes::<Narrow>();
    let alloc = rt.alloc();
    let wide = b"wonderful\xff\xff\xff\xff\xff\xff\xff";
    expect_eq!(rt; represents_as::<Narrow>(alloc, "hello", b"hello\xff\xff\xff"), true);
    expect_eq!(rt; represents_as::<Wide>(alloc, "wonderful", wide), true);
    let narrow = b"wonderful\0\0\0\x89\0\0\0\xf4\xff\xff\xff";
    let wide = b"wonderfulwonderfu\0\0\0\0\0\0\0\x91\0\0\0\0\0\0\0\xe8\xff\xff\xff\xff\xff\xff\xff";
    expect_eq!(rt; represents_as::<Narrow>(alloc, "wonderful", narrow), true);
    expect_eq!(rt; represents_as::<Wide>(alloc, "wonderfulwonderfu", wide), true);
}

// Returns `true` if these two texts are the root of an archive.
fn are_root(bytes: &[u8], texts: (&str, &str)) -> bool {
    match access_in::<Narrow, Entry<Text, Text>>(bytes) {
        Ok(root) => (root.key().as_str(), root.value().as_str()) == texts,
        Err(_) => false,
    }
}

#[test]
fn two_texts_are_one_behind_the_other(rt: HostRuntime) {
    let mut bytes = *b"wonderfulexcellent\0\0\x89\0\0\0\xec\xff\xff\xff\x89\0\0\0\xed\xff\xff\xff";
    expect_eq!(rt; is_archived_as(rt.alloc(), &("wonderful", "excellent"), &bytes), true);
    expect_eq!(rt; are_root(&bytes, ("wonderful", "excellent")), true);
    bytes[32] = 0xe4;
    expect_eq!(rt; access_failure::<Narrow, Entry<Text, Text>>(&bytes),
        Some(VerifyError::OutOfRange { pos: 0, size: 9 }));
}

#[test]
fn invalid_texts_and_bytes_behind_texts_have_known_results(rt: HostRuntime) {
    let mut bytes = *b"wonderful\0\0\0\x89\0\0\0\xf4\xff\xff\xff";
    bytes[0] = 0xff;
    expect_eq!(rt; access_failure::<Narrow, Text>(b"\x89\0\0\0\xf4\xff\xff\xff"),
        Some(VerifyError::OutOfRange { pos: -12, size: 9 }));
    let invalid = Some(VerifyError::InvalidValue { pos: 0 });
    expect_eq!(rt; access_failure::<Narrow, Text>(b"\x88\0\0\0\0\0\0\0"), invalid);
    expect_eq!(rt; access_failure::<Wide, Text<Wide>>(b"\x90\0\0\0\0\0\0\0\0\0\0\0\0\0\0\0"),
        invalid);
    expect_eq!(rt; access_failure::<Narrow, Text>(&bytes),
        Some(VerifyError::InvalidValue { pos: 12 }));
    expect_eq!(rt; access_failure::<Narrow, Text>(b"\xc3\xff\xff\xff\xff\xff\xff\xff"), invalid);
    expect_eq!(rt; is_root::<Narrow>(b"\xff\xff\xff\xff\xff\xff\xff\xff", ""), true);
    expect_eq!(rt; is_root::<Narrow>(b"ab\xffcdefg", "ab"), true);
    expect_eq!(rt; is_root::<Narrow>(b"abcdefgh", "abcdefgh"), true);
}

// Returns `true` if an owned text is archived as a borrowed one is, and reads back.
fn is_read_back<W: Width>(alloc: Global, text: &String) -> bool {
    match to_bytes_in::<W, String>(alloc, text) {
        Ok(archive) => represents_as::<W>(alloc, text.as_str(), archive.as_slice()),
        Err(_) => false,
    }
}

// Returns `true` if `len` letters are archived so, in both widths.
fn are_read_back(alloc: Global, len: usize) -> bool {
    match letters(alloc, len) {
        Ok(text) => is_read_back::<Narrow>(alloc, &text) && is_read_back::<Wide>(alloc, &text),
        Err(_) => false,
    }
}

#[test]
fn lengths_read_back(rt: HostRuntime) {
    let mut right = true;
    for len in [0, 1, 8, 9, 16, 17, 63, 64, 100, 1000] {
        right = right && are_read_back(rt.alloc(), len);
    }
    assert!(rt; right);
}

// Returns `true` if an archive has eight fixed bytes after `root` bytes,
// and they begin with this word.
fn has_root(bytes: &[u8], root: usize, word: &[u8]) -> bool {
    match bytes.split_at_checked(root) {
        Some((_, fixed)) => fixed.len() == 8 && fixed.starts_with(word),
        None => false,
    }
}

// Returns `true` if the archive of `len` letters has such fixed bytes.
fn has_word(alloc: Global, len: usize, root: usize, word: &[u8]) -> bool {
    match letters(alloc, len) {
        Ok(text) => match to_bytes_in::<Narrow, String>(alloc, &text) {
            Ok(archive) => has_root(archive.as_slice(), root, word),
            Err(_) => false,
        },
        Err(_) => false,
    }
}

#[test]
fn first_word_encodes_the_length(rt: HostRuntime) {
    let alloc = rt.alloc();
    expect_eq!(rt; has_word(alloc, 9, 12, &[0x89, 0, 0, 0]), true);
    expect_eq!(rt; has_word(alloc, 63, 64, &[0xbf, 0, 0, 0]), true);
    expect_eq!(rt; has_word(alloc, 64, 64, &[0x80, 1, 0, 0]), true);
    expect_eq!(rt; has_word(alloc, 100, 100, &[0xa4, 1, 0, 0]), true);
}

// Returns `true` if a text is archived in this width, and reads back.
fn is_kept<W: Width>(alloc: Global, text: &str) -> bool {
    match to_bytes_in::<W, &str>(alloc, &text) {
        Ok(archive) => is_root::<W>(archive.as_slice(), text),
        Err(_) => false,
    }
}

#[test]
fn wide_characters_are_inline_and_out_of_line(rt: HostRuntime) {
    let alloc = rt.alloc();
    let mut right = true;
    for text in ["é", "éééé", "ééééé", "😀", "😀😀", "😀😀a", "ééééé😀😀😀😀"] {
        right = right && is_kept::<Narrow>(alloc, text) && is_kept::<Wide>(alloc, text);
    }
    assert!(rt; right);
}

#[test]
fn rejects_a_distance_that_does_not_fit(rt: HostRuntime) {
    let (mut local, mut inline, mut wide) = ([0; 8], [0; 8], [0; 16]);
    let overflow = TextResolver { pos: 0 };
    expect_eq!(rt; Archive::<Narrow>::resolve(&"wonderful", overflow, 2_147_483_648,
        &mut local).is_ok(), true);
    expect_eq!(rt; Archive::<Narrow>::resolve(&"wonderful", overflow, 2_147_483_652,
        &mut inline).is_ok(), false);
    expect_eq!(rt; Archive::<Narrow>::resolve(&"hello", overflow, 2_147_483_652,
        &mut inline).is_ok(), true);
    let text = "wonderfulwonderfu";
    expect_eq!(rt; Archive::<Wide>::resolve(&text, overflow, 2_147_483_652, &mut wide).is_ok(),
        true);
    expect_eq!(rt; local, [0x89, 0, 0, 0, 0, 0, 0, 0x80]);
    expect_eq!(rt; inline, *b"hello\xff\xff\xff");
    expect_eq!(rt; wide, *b"\x91\0\0\0\0\0\0\0\xfc\xff\xff\x7f\xff\xff\xff\xff");
}
