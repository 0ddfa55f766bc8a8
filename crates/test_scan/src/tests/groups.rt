//! Tests of the indices that groups mark.

use rkyv_scan::simd::{bytewise, generic, lanes, paired};
use rkyv_scan::{GroupKind, MAX_GROUP_WIDTH, Marks, laws};

// Returns `true` if the iterator has ended, and stays ended.
fn is_over<M: Marks>(mut items: M) -> bool {
    items.next().is_none() && items.next().is_none()
}

// Returns `true` if the mask's indices are these, by its iterator and by its methods.
fn marks<M: Marks>(mask: M, indices: &[usize]) -> bool {
    let mut items = mask;
    let mut left = mask;
    for index in indices {
        if !left.any_bit_set() {
            return false;
        }
        if left.lowest_set_bit() != Some(*index) || items.next() != Some(*index) {
            return false;
        }
        left = left.remove_lowest_bit();
    }
    !left.any_bit_set() && left.lowest_set_bit().is_none() && is_over(items)
}

// The indices that a group marks: of a byte, of the empty control bytes, and of the full ones.
#[derive(Clone, Copy)]
struct Indices<'a> {
    byte: &'a [usize],
    empty: &'a [usize],
    full: &'a [usize],
}

// Returns `true` if the first group of the control bytes marks these indices.
fn matches<G: GroupKind>(controls: &[u8], byte: u8, expected: &Indices) -> bool {
    if controls.len() < G::WIDTH {
        return false;
    }
    let group = G::read(controls, 0);
    marks(group.match_byte(byte), expected.byte)
        && marks(group.match_empty(), expected.empty)
        && marks(group.match_full(), expected.full)
}

// Returns the control bytes, followed by eight empty ones.
fn padded(controls: [u8; 8]) -> [u8; 16] {
    let mut all = [0xff; 16];
    for index in 0..8 {
        all[index] = controls[index];
    }
    all
}

// The indices that the kinds mark of eight control bytes, followed by eight empty ones.
// For the byte there are the exact ones and those of the word group.
// Then there are the empty ones among the eight, all empty ones, and the full ones.
#[derive(Clone, Copy)]
struct Marked<'a> {
    byte: &'a [usize],
    by_word: &'a [usize],
    empty_of_eight: &'a [usize],
    empty: &'a [usize],
    full: &'a [usize],
}

// Returns `true` for each kind that marks these indices: the word, each byte by itself,
// sixteen lanes, and sixteen lanes that mark as two words.
fn each_kind_matches(eight: [u8; 8], byte: u8, marked: &Marked) -> [bool; 4] {
    let controls = padded(eight);
    let exact = Indices {
        byte: marked.byte,
        empty: marked.empty_of_eight,
        full: marked.full,
    };
    let word = Indices {
        byte: marked.by_word,
        ..exact
    };
    let wide = Indices {
        empty: marked.empty,
        ..exact
    };
    let both_words = Indices {
        empty: marked.empty,
        ..word
    };
    [
        matches::<generic::Group>(&controls, byte, &word),
        matches::<bytewise::Group>(&controls, byte, &exact),
        matches::<lanes::Group>(&controls, byte, &wide),
        matches::<paired::Group>(&controls, byte, &both_words),
    ]
}

#[test]
fn bytes_are_marked(rt: HostRuntime) {
    laws::kinds_mark_as_defined();
    let controls = [0x28, 0x29, 0xff, 0xff, 0xff, 0xff, 0xff, 0xff];
    let marked = Marked {
        byte: &[0],
        by_word: &[0, 1],
        empty_of_eight: &[2, 3, 4, 5, 6, 7],
        empty: &[2, 3, 4, 5, 6, 7, 8, 9, 10, 11, 12, 13, 14, 15],
        full: &[0, 1],
    };
    expect_eq!(rt; each_kind_matches(controls, 0x28, &marked), [true; 4]);
    let controls = [0x29, 0x28, 0x29, 0x28, 0x00, 0xff, 0xff, 0x29];
    let marked = Marked {
        byte: &[1, 3],
        by_word: &[1, 2, 3],
        empty_of_eight: &[5, 6],
        empty: &[5, 6, 8, 9, 10, 11, 12, 13, 14, 15],
        full: &[0, 1, 2, 3, 4, 7],
    };
    expect_eq!(rt; each_kind_matches(controls, 0x28, &marked), [true; 4]);
    let controls = [0x00, 0x01, 0x02, 0xff, 0xff, 0xff, 0xff, 0xff];
    let marked = Marked {
        byte: &[0],
        by_word: &[0, 1],
        empty_of_eight: &[3, 4, 5, 6, 7],
        empty: &[3, 4, 5, 6, 7, 8, 9, 10, 11, 12, 13, 14, 15],
        full: &[0, 1, 2],
    };
    expect_eq!(rt; each_kind_matches(controls, 0x00, &marked), [true; 4]);
    let controls = [
        0xff, 0x80, 0x7f, 0x00, 0x28, 0xfe, 0x01, 0x81, 0xff, 0xff, 0xff, 0xff, 0xff, 0xff, 0xff,
        0x00,
    ];
    let wide = Indices {
        byte: &[4],
        empty: &[0, 1, 5, 7, 8, 9, 10, 11, 12, 13, 14],
        full: &[2, 3, 4, 6, 15],
    };
    let eight = Indices {
        byte: &[4],
        empty: &[0, 1, 5, 7],
        full: &[2, 3, 4, 6],
    };
    // The second half, read from its own position on.
    let rest = [0, 1, 2, 3, 4, 5, 6];
    expect_eq!(rt; matches::<lanes::Group>(&controls, 0x28, &wide), true);
    expect_eq!(rt; matches::<paired::Group>(&controls, 0x28, &wide), true);
    expect_eq!(rt; matches::<generic::Group>(&controls, 0x28, &eight), true);
    expect_eq!(rt; matches::<bytewise::Group>(&controls, 0x28, &eight), true);
    expect_eq!(rt; marks(generic::Group::read(&controls, 8).match_empty(), &rest), true);
    expect_eq!(rt; marks(bytewise::Group::read(&controls, 8).match_empty(), &rest), true);
    expect_eq!(rt; marks(lanes::Group::read(&controls, 0).match_byte(0), &[3, 15]), true);
}

// Compares the indices that the sixteen lanes mark as two words with those of each word.
fn halves_match(
    controls: &[u8; 16],
    byte: u8,
    indices: &[usize],
    words: [&[usize]; 2],
) -> [bool; 3] {
    [
        marks(paired::Group::read(controls, 0).match_byte(byte), indices),
        marks(generic::Group::read(controls, 0).match_byte(byte), words[0]),
        marks(generic::Group::read(controls, 8).match_byte(byte), words[1]),
    ]
}

// In each half the equal bytes are marked. So is each byte after a marked one that differs in the
// lowest bit alone. Index 7 is marked, and index 8 is not, since it is the first of the other half.
#[test]
fn halves_are_marked_apart(rt: HostRuntime) {
    let mixed = [
        0x28, 0x29, 0x29, 0xff, 0x29, 0x28, 0x00, 0x28, 0x29, 0x29, 0x28, 0x29, 0x28, 0x29, 0x29,
        0x29,
    ];
    let of_even: [usize; 11] = [0, 1, 2, 5, 7, 10, 11, 12, 13, 14, 15];
    let of_odd: [usize; 12] = [1, 2, 4, 5, 8, 9, 10, 11, 12, 13, 14, 15];
    let mut one = [0x29u8; 16];
    one[0] = 0x28;
    let first: [usize; 8] = [0, 1, 2, 3, 4, 5, 6, 7];
    let right = [
        halves_match(
            &mixed,
            0x28,
            &of_even,
            [&[0, 1, 2, 5, 7], &[2, 3, 4, 5, 6, 7]],
        ),
        halves_match(&mixed, 0x29, &of_odd, [&[1, 2, 4, 5], &first]),
        halves_match(&one, 0x28, &first, [&first, &[]]),
        halves_match(&[0x29; 16], 0x28, &[], [&[], &[]]),
    ];
    expect_eq!(rt; right, [[true; 3]; 4]);
}

#[test]
fn empty_masks_have_no_index(rt: HostRuntime) {
    let (bytes, word, lane_bits) = laws::empty_masks();
    expect_eq!(rt; [marks(bytes, &[]), marks(word, &[]), marks(lane_bits, &[])], [true; 3]);
}

#[test]
fn the_root_group_is_the_word_kind(rt: HostRuntime) {
    let group: rkyv_scan::Group = generic::Group::read(&[0xff; 8], 0);
    let mask: rkyv_scan::Bitmask = group.match_full();
    expect_eq!(rt; marks(mask, &[]), true);
    expect_eq!(rt; marks(rkyv_scan::Bitmask::EMPTY, &[]), true);
    expect_eq!(rt; rkyv_scan::Group::WIDTH, 8);
    expect_eq!(rt; bytewise::Group::WIDTH, 8);
    expect_eq!(rt; lanes::Group::WIDTH, 16);
    expect_eq!(rt; paired::Group::WIDTH, 16);
    expect_eq!(rt; MAX_GROUP_WIDTH, 16);
    let word: generic::Word = 5;
    expect_eq!(rt; generic::NonZeroWord::new(word).is_some(), true);
    laws::widest_group();
    let controls = [0x28, 0xff, 0x29, 0x28, 0x29, 0x29, 0x00, 0x80, 0x28, 0x29];
    expect_eq!(rt; marks(laws::root_group_marks(&controls, 0, 0x28), &[0, 3, 4, 5]), true);
    expect_eq!(rt; marks(laws::root_group_marks(&controls, 2, 0x28), &[1, 2, 3, 6, 7]), true);
    expect_eq!(rt; marks(laws::root_group_marks(&controls, 2, 0x80), &[5]), true);
}

// Returns `true` if the group's clone marks the indices for the byte,
// and the clone of its mask has them.
fn clones_match<G: GroupKind>(controls: &[u8; 16], byte: u8, indices: &[usize]) -> bool {
    if G::WIDTH > 16 {
        return false;
    }
    let Ok(group) = G::read(controls, 0).clone() else {
        return false;
    };
    match group.match_byte(byte).clone() {
        Ok(mask) => marks(mask, indices),
        Err(_) => false,
    }
}

#[test]
fn clones_are_the_same(rt: HostRuntime) {
    let mut controls = [0xffu8; 16];
    controls[3] = 0x28;
    controls[6] = 0x28;
    expect_eq!(rt; clones_match::<bytewise::Group>(&controls, 0x28, &[3, 6]), true);
    expect_eq!(rt; clones_match::<generic::Group>(&controls, 0x28, &[3, 6]), true);
    expect_eq!(rt; clones_match::<lanes::Group>(&controls, 0x28, &[3, 6]), true);
    expect_eq!(rt; clones_match::<paired::Group>(&controls, 0x28, &[3, 6]), true);
}

// Returns `true` if a mask whose lowest index was taken has a clone with the other ones, and keeps
// them while the clone is walked.
fn rest_is_cloned<M: Marks>(mask: M, others: &[usize]) -> bool {
    let mut items = mask;
    if items.next().is_none() {
        return false;
    }
    match items.clone() {
        Ok(same) => marks(same, others) && marks(items, others),
        Err(_) => false,
    }
}

// Returns `true` for each mask of a clone of the group whose own clone has the other indices: that
// of a byte, of the empty control bytes and of the full ones.
fn rests_are_cloned<G: GroupKind>(controls: &[u8; 16], byte: u8, others: &Indices) -> [bool; 3] {
    if G::WIDTH > 16 {
        return [false; 3];
    }
    let Ok(group) = G::read(controls, 0).clone() else {
        return [false; 3];
    };
    [
        rest_is_cloned(group.match_byte(byte), others.byte),
        rest_is_cloned(group.match_empty(), others.empty),
        rest_is_cloned(group.match_full(), others.full),
    ]
}

#[test]
fn a_clone_of_a_mask_has_the_indices_that_are_left(rt: HostRuntime) {
    let mut controls = [0xffu8; 16];
    controls[3] = 0x28;
    controls[6] = 0x28;
    let eight = Indices {
        byte: &[6],
        empty: &[1, 2, 4, 5, 7],
        full: &[6],
    };
    let sixteen = Indices {
        empty: &[1, 2, 4, 5, 7, 8, 9, 10, 11, 12, 13, 14, 15],
        ..eight
    };
    expect_eq!(rt; rests_are_cloned::<bytewise::Group>(&controls, 0x28, &eight), [true; 3]);
    expect_eq!(rt; rests_are_cloned::<generic::Group>(&controls, 0x28, &eight), [true; 3]);
    expect_eq!(rt; rests_are_cloned::<lanes::Group>(&controls, 0x28, &sixteen), [true; 3]);
    expect_eq!(rt; rests_are_cloned::<paired::Group>(&controls, 0x28, &sixteen), [true; 3]);
}

#[test]
fn a_tag_is_matched(rt: HostRuntime) {
    let group = generic::Group::read(&[0x28, 0xff, 0x29, 0xff, 0xff, 0xff, 0xff, 0xff], 0);
    let lowest = group.match_byte(0x29).lowest_set_bit();
    assert_eq!(rt; lowest, Some(2));
}
