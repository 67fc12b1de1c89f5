//! Words that are near one another.

use arrayvec::ArrayVec;

/// How many letters of a word are compared.
const LETTERS: usize = 32;

/// The letters and digits of a word, small ones for capitals.
fn letters(word: &[u8]) -> ArrayVec<u8, LETTERS> {
    let mut letters = ArrayVec::new();
    for octet in word {
        if *octet != b'-' && *octet != b'_' {
            let _ = letters.try_push(octet.to_ascii_lowercase());
        }
    }
    letters
}

/// How many octets two words have in common at their front.
fn common_front(one: &[u8], other: &[u8]) -> usize {
    let mut common: usize = 0;
    for (a, b) in one.iter().zip(other.iter()) {
        if a != b {
            return common;
        }
        common = common.saturating_add(1);
    }
    common
}

/// What comes after the first octet.
fn behind_first(word: &[u8]) -> &[u8] {
    match word {
        [_, rest @ ..] => rest,
        [] => word,
    }
}

/// Whether two words are the same, but for their first two octets, which are exchanged.
fn is_exchanged(one: &[u8], other: &[u8]) -> bool {
    match (one, other) {
        ([a, b, rest @ ..], [c, d, others @ ..]) => a == d && b == c && rest == others,
        _ => false,
    }
}

/// Whether two words are the same, but for an octet that is left out, put in or another one, or two that are exchanged.
fn is_one_off(one: &[u8], other: &[u8]) -> bool {
    let common = common_front(one, other);
    let (_, one) = one.split_at(common.min(one.len()));
    let (_, other) = other.split_at(common.min(other.len()));
    behind_first(one) == other
        || one == behind_first(other)
        || behind_first(one) == behind_first(other)
        || is_exchanged(one, other)
}

/// The first of some words that is near to this one.
pub(crate) fn nearest(word: &[u8], names: &[&'static [u8]]) -> Option<&'static [u8]> {
    let wanted = letters(word);
    for name in names {
        let offered = letters(name);
        if offered.len() > 2 && is_one_off(wanted.as_slice(), offered.as_slice()) {
            return Some(*name);
        }
    }
    None
}
