//! The words of a line, one after another.

ghost use Rattle.std.specs.Prelude.{◌≡◌, ◌≤◌, ◌<◌, ◌+◌, ◌^◌, ◌∷◌, ◌++◌, [], ℕ, List, drop, get_or, length, map, nat_lt, not, take, MatchOption, IfSome, Some, true, false};
ghost use Rattle.std.specs.List.{list_all};
ghost use Rattle.std.specs.Simd.Lanes.{mask_l};
ghost use Rattle.text.specs.Numbers.{FirstIsNumber, IsHexPair, IsNumber, at_most, first_number, behind_first};
ghost use Rattle.text.specs.Words.{is_blank, starts_blank, starts_with_break, word_length, words_of};

use crate::words::numbers::{
    LANES, decimal_run, front_digit, front_short, hex_digit, number, short_run,
};
use std::simd::prelude::*;

/// Whether an octet is no blank, whatever comes after it.
fn is_ordinary(octet: u8) -> bool
    ensures { result ≡ true → (rest : List ℕ) → starts_blank (octet ∷ rest) ≡ false }
{
    octet > b' ' && octet != b'\\'
}

/// Whether octets start with a blank, of whatever kind.
fn starts_any_blank(octets: &[u8]) -> bool
    ensures { result ≡ starts_blank octets.now }
{
    match octets {
        [] | [b' ' | b'\t' | b'\r' | b'\n', ..] => true,
        [b'\\', b'\n', ..] | [b'\\', b'\r', b'\n', ..] => true,
        _ => false,
    }
}

fn starts_blank(octets: &[u8]) -> bool
    ensures { result ≡ starts_blank octets.now }
{
    match octets {
        // Most octets of a line, and then most of the others.
        [octet, ..] if is_ordinary(*octet) => false,
        [b' ', ..] => true,
        _ => starts_any_blank(octets),
    }
}

/// Whether there is an octet at this place, and it is no blank, whatever comes after it.
fn is_ordinary_at(octets: &[u8], place: usize) -> bool
    ensures { result ≡ true → starts_blank (drop place octets.now) ≡ false }
{
    place < octets.len() && is_ordinary(octets[place])
}

/// Goes on in a word from an octet that is no blank, and past all that are known to be none by themselves.
fn word_on(octets: &[u8], place: usize) -> usize
    requires { starts_blank (drop place octets.now) ≡ false }
    ensures onward { place < result }
    ensures within { result ≤ length octets.now }
    ensures word { word_length (drop place octets.now) + place
        ≡ result + word_length (drop result octets.now) }
{
    let mut next = place + 1;
    while is_ordinary_at(octets, next) {
        next += 1;
    }
    next
}

/// What comes after a space, where there is one first.
fn past_space(octets: &[u8]) -> &[u8]
    ensures words { words_of result.now ≡ words_of octets.now }
    ensures short { length result.now ≤ length octets.now }
{
    match octets {
        [b' ', rest @ ..] => rest,
        _ => octets,
    }
}

/// The first word, and what comes after it.
fn split_word(octets: &[u8]) -> Option<(&[u8], &[u8])>
    ensures word { MatchOption result (words_of octets.now ≡ [])
        (λ x. words_of octets.now ≡ x.0.now ∷ words_of x.1.now) }
    ensures less { IfSome result (λ x. length x.1.now < length octets.now) }
{
    let mut rest = past_space(octets);
    while starts_blank(rest) {
        let (_, more) = rest.split_first()?;
        rest = more;
    }
    let mut end = 0;
    while !starts_blank(&rest[end..]) {
        end = word_on(rest, end);
    }
    Some(rest.split_at(end))
}

/// Whether eight octets are the same, by one comparison.
#[inline(always)]
fn are_eight(octets: [u8; 8], text: [u8; 8]) -> bool
    ensures { result ≡ true → octets ≡ text }
{
    u64::from_le_bytes(octets) == u64::from_le_bytes(text)
}

/// Whether two texts of 8 to 16 octets are the same: their first eight and their last eight are. Longer and shorter
/// ones are not compared.
#[inline(always)]
fn are_same<const N: usize>(octets: &[u8; N], text: &[u8; N]) -> bool
    ensures { result ≡ true → octets.now ≡ text.now }
{
    let (Some(front), Some(begin)) = (octets.first_chunk::<8>(), text.first_chunk::<8>()) else {
        return false;
    };
    let (Some(back), Some(end)) = (octets.last_chunk::<8>(), text.last_chunk::<8>()) else {
        return false;
    };
    if N > 16 || !are_eight(*front, *begin) {
        return false;
    }
    are_eight(*back, *end)
}

/// What comes after a text, where octets begin with it.
#[inline(always)]
fn past_text<'a, const N: usize>(octets: &'a [u8], text: &[u8; N]) -> Option<&'a [u8]>
    ensures { IfSome result (λ rest. octets.now ≡ text.now ++ rest.now) }
{
    let (front, rest) = octets.split_first_chunk::<N>()?;
    if are_same(front, text) {
        Some(rest)
    } else {
        None
    }
}

/// Whether octets end at this place, maybe after a CR, or go on with a space.
fn is_plain_end(octets: &[u8], place: usize) -> bool
    requires { place ≤ length octets.now }
    ensures blank { result ≡ true → starts_blank (drop place octets.now) ≡ true }
    ensures whole { result ≡ true → starts_with_break (drop place octets.now) ≡ false }
{
    place == octets.len()
        || octets[place] == b' '
        || (octets[place] == b'\r' && place + 1 == octets.len())
}

/// Whether there is an octet at this place that is no blank by itself.
fn is_unblank_at(octets: &[u8], place: usize) -> bool
    ensures within { result ≡ true → place < length octets.now }
    ensures unblank { result ≡ true → not (is_blank (get_or octets.now place 0)) ≡ true }
{
    place < octets.len() && octets[place] > b' '
}

/// Which of 16 octets are blanks by themselves, or other controls: a bit for each, the lowest for the first.
#[inline(always)]
fn controls_in(octets: u8x16) -> u64
    ensures { result ≡ mask_l (map (λ octet. not (nat_lt 32 octet)) octets) }
{
    (octets - u8x16::splat(b'!'))
        .simd_ge(u8x16::splat(223))
        .to_bitmask()
}

/// How many of 16 octets stand in front of the first one that is a blank by itself, or of another control.
#[inline(always)]
fn unblank_in_front(octets: &[u8; LANES]) -> usize
    ensures within { result ≤ LANES }
    ensures above { list_all (λ octet. nat_lt 32 octet) (take result octets.now) ≡ true }
{
    let controls = controls_in(u8x16::from_array(*octets));
    if controls == 0 {
        LANES
    } else {
        controls.trailing_zeros() as usize
    }
}

/// How many octets stand in front of the first one that is a blank by itself, or of another control.
fn unblank_length(octets: &[u8]) -> usize
    ensures within { result ≤ length octets.now }
    ensures unblank { list_all (λ octet. not (is_blank octet)) (take result octets.now) ≡ true }
{
    let Some(front) = octets.first_chunk::<LANES>() else {
        return unblank_from(octets, 0);
    };
    let end = unblank_in_front(front);
    if end < LANES {
        // Most words are shorter.
        return end;
    }
    unblank_from(octets, end)
}

/// How many octets stand in front of the first one that is a blank by itself, or of another control, where it isn't
/// among so many.
fn unblank_from(octets: &[u8], begin: usize) -> usize
    requires within { begin ≤ length octets.now }
    requires unblank { list_all (λ octet. not (is_blank octet)) (take begin octets.now) ≡ true }
    ensures within { result ≤ length octets.now }
    ensures unblank { list_all (λ octet. not (is_blank octet)) (take result octets.now) ≡ true }
{
    let mut end = begin;
    while is_unblank_at(octets, end) {
        end += 1;
    }
    end
}

/// The first word, where there are no blanks about it but spaces, and what comes after it.
#[inline]
fn split_plain(octets: &[u8]) -> Option<(&[u8], &[u8])>
    ensures word { IfSome result (λ x. words_of octets.now ≡ x.0.now ∷ words_of x.1.now) }
    ensures less { IfSome result (λ x. length x.1.now < length octets.now) }
{
    let rest = past_space(octets);
    let length = unblank_length(rest);
    if length == 0 || !is_plain_end(rest, length) {
        return None;
    }
    Some(rest.split_at(length))
}

/// The number that the first word is, where it has digits alone, at most 38 of them, and no blanks about it but spaces;
/// and what comes after it.
#[inline]
fn split_number(octets: &[u8]) -> Option<(u128, &[u8])>
    ensures first { IfSome result
        (λ x. FirstIsNumber (words_of octets.now) x.0 (words_of x.1.now)) }
    ensures less { IfSome result (λ x. length x.1.now < length octets.now) }
{
    let rest = past_space(octets);
    let (number, end) = decimal_run(rest);
    if end == 0 || !is_plain_end(rest, end) {
        return None;
    }
    let (_, behind) = rest.split_at(end);
    Some((number, behind))
}

/// The number that the first word is, where it has at most 19 digits, which surely fit 64 bits, and no blanks about it
/// but spaces; and what comes after it.
#[inline]
fn split_short(octets: &[u8]) -> Option<(u64, &[u8])>
    ensures first { IfSome result
        (λ x. FirstIsNumber (words_of octets.now) x.0 (words_of x.1.now)) }
    ensures less { IfSome result (λ x. length x.1.now < length octets.now) }
{
    let rest = past_space(octets);
    let (number, end) = short_run(rest);
    if end == 0 || !is_plain_end(rest, end) {
        return None;
    }
    let (_, behind) = rest.split_at(end);
    Some((number, behind))
}

/// The number that the first word is, where it has one digit to eight, no blank before it and a space after it; and
/// what comes after it. None where fewer than 16 octets are there.
#[inline(always)]
fn split_front(octets: &[u8]) -> Option<(u64, &[u8])>
    ensures first { IfSome result
        (λ x. FirstIsNumber (words_of octets.now) x.0 (words_of x.1.now)) }
    ensures less { IfSome result (λ x. length x.1.now < length octets.now) }
    ensures bound { IfSome result (λ x. x.0 < 10 ^ 8) }
{
    let (number, rest) = front_short(octets)?;
    match rest {
        [b' ', ..] => Some((number, rest)),
        _ => None,
    }
}

/// The number that the first word is, where it has one digit to eight, and no blanks about it but spaces, one of them
/// after it; and what comes after it. None where fewer than 16 octets are there.
#[inline(always)]
fn split_few(octets: &[u8]) -> Option<(u64, &[u8])>
    ensures first { IfSome result
        (λ x. FirstIsNumber (words_of octets.now) x.0 (words_of x.1.now)) }
    ensures less { IfSome result (λ x. length x.1.now < length octets.now) }
{
    let (number, rest) = split_front(past_space(octets))?;
    Some((number, rest))
}

/// The number that the first word is, where it is one digit with no blanks about it but spaces, one of them after it;
/// and what comes after it.
#[inline(always)]
fn split_digit(octets: &[u8]) -> Option<(u64, &[u8])>
    ensures word { IfSome result
        (λ x. (word : List ℕ) × IsNumber word x.0
        × (words_of octets.now ≡ word ∷ words_of x.1.now)) }
    ensures less { IfSome result (λ x. length x.1.now < length octets.now) }
    ensures bound { IfSome result (λ x. x.0 < 10) }
{
    let (digit, rest) = front_digit(past_space(octets))?;
    match rest {
        [b' ', ..] => Some((digit, rest)),
        _ => None,
    }
}

/// The words of a line: the runs of octets that are no blanks.
///
/// Blanks are space, tab, CR and LF, and a backslash directly before LF or CR LF, which joins two physical lines.
#[derive(Clone, Copy, Debug)]
pub struct Words<'a> {
    rest: &'a [u8],
    place: usize,
    ghost bounded: { place + length rest.now < 2 ^ 63 },
}

impl<'a> Words<'a> {
    ghost use Rattle.text.specs.WordsLeft.{TakesNumber, words_left, words_taken};

    /// Before the first word of a line.
    pub fn new(line: &'a [u8]) -> Words<'a>
        ensures left { words_left result ≡ words_of line.entry.now }
        ensures taken { words_taken result ≡ 0 }
    {
        Words {
            rest: line,
            place: 0,
        }
    }

    /// How many words were taken, which is the place of the next one, from 0.
    pub fn place(&self) -> usize
        ensures { result ≡ words_taken self.now }
    {
        self.place
    }

    /// Goes on to what comes after so many words.
    fn go_on(&mut self, rest: &'a [u8], count: usize)
        requires { length rest.now + count ≤ length self.old.rest.now }
        ensures left { words_left self.new ≡ words_of rest.now }
        ensures taken { words_taken self.new ≡ words_taken self.old + count }
    {
        self.rest = rest;
        self.place += count;
    }

    /// The next word, whatever blanks are about it. Apart, since mostly they are spaces.
    #[inline(never)]
    fn next_of_any(&mut self) -> Option<&'a [u8]>
        ensures word { MatchOption result ((words_left self.old ≡ []) × (words_left self.new ≡ []))
            (λ word. words_left self.old ≡ word.now ∷ words_left self.new) }
        ensures taken { MatchOption result (words_taken self.new ≡ words_taken self.old)
            (λ _. words_taken self.new ≡ words_taken self.old + 1) }
    {
        let (word, rest) = split_word(self.rest)?;
        self.go_on(rest, 1);
        Some(word)
    }

    /// The next word. After the last one there is none, and so on.
    #[inline]
    pub fn next_word(&mut self) -> Option<&'a [u8]>
        ensures word { MatchOption result ((words_left self.old ≡ []) × (words_left self.new ≡ []))
            (λ word. words_left self.old ≡ word.now ∷ words_left self.new) }
        ensures taken { MatchOption result (words_taken self.new ≡ words_taken self.old)
            (λ _. words_taken self.new ≡ words_taken self.old + 1) }
    {
        if self.rest.is_empty() {
            return None;
        }
        let Some((word, rest)) = split_plain(self.rest) else {
            return self.next_of_any();
        };
        self.go_on(rest, 1);
        Some(word)
    }

    /// Goes past a text, which is counted as so many words, where the octets that no word was taken of begin with it;
    /// else nothing changes.
    #[inline(always)]
    pub fn skip_text<const N: usize>(&mut self, text: &[u8; N], count: usize) -> bool
        requires { count ≤ length text.now }
        ensures left { result ≡ true →
            (rest : List ℕ) × (words_left self.old ≡ words_of (text.now ++ rest))
            × (words_left self.new ≡ words_of rest) }
        ensures taken { result ≡ true → words_taken self.new ≡ words_taken self.old + count }
        ensures kept { result ≡ false → self.new ≡ self.old }
    {
        let Some(rest) = past_text(self.rest, text) else {
            return false;
        };
        self.go_on(rest, count);
        true
    }

    /// The digits of the next word, where it has two that are hexadecimal, no blank before it and a space after it. Else
    /// None, and nothing changes.
    #[inline(always)]
    pub fn next_hex_pair(&mut self) -> Option<(u8, u8)>
        ensures word { IfSome result
            (λ pair. (word : List ℕ) × IsHexPair word pair.0 pair.1
            × (words_left self.old ≡ word ∷ words_left self.new)) }
        ensures bound { IfSome result (λ pair. (pair.0 < 16) × (pair.1 < 16)) }
        ensures taken { IfSome result (λ _. words_taken self.new ≡ words_taken self.old + 1) }
        ensures kept { result ≡ None → self.new ≡ self.old }
    {
        let [first, second, b' ', rest @ ..] = self.rest else {
            return None;
        };
        let front = hex_digit(*first)?;
        let behind = hex_digit(*second)?;
        self.go_on(rest, 1);
        Some((front, behind))
    }

    /// The octets that no word was taken of. Its words are those that are still to come.
    pub fn octets(&self) -> &'a [u8]
        ensures { words_of result.now ≡ words_left self.now }
    {
        self.rest
    }

    /// The next word as a decimal number of at most `most`: None after the last word, and Some(None) for a word that is
    /// no such number.
    #[inline(always)]
    pub fn next_number(&mut self, most: u128) -> Option<Option<u128>>
        ensures number { result ≡ first_number most (words_left self.old) }
        ensures bound { IfSome result (λ number. IfSome number (λ n. n ≤ most)) }
        ensures left { words_left self.new ≡ behind_first (words_left self.old) }
        ensures taken { MatchOption result (words_taken self.new ≡ words_taken self.old)
            (λ _. words_taken self.new ≡ words_taken self.old + 1) }
    {
        if let Some((few, rest)) = split_few(self.rest) {
            self.go_on(rest, 1);
            let value = u128::from(few);
            return Some(if value <= most { Some(value) } else { None });
        }
        if let Some((value, rest)) = split_number(self.rest) {
            self.go_on(rest, 1);
            return Some(if value <= most { Some(value) } else { None });
        }
        let word = self.next_word()?;
        Some(number(word, most))
    }

    /// The number that the next word is, where it is one digit with no blanks about it but spaces, one of them after
    /// it. Else None, and nothing changes.
    #[inline(always)]
    pub fn next_digit(&mut self) -> Option<u64>
        ensures word { IfSome result
            (λ n. (word : List ℕ) × IsNumber word n
            × (words_left self.old ≡ word ∷ words_left self.new)) }
        ensures bound { IfSome result (λ n. n < 10) }
        ensures taken { IfSome result (λ _. words_taken self.new ≡ words_taken self.old + 1) }
        ensures kept { result ≡ None → self.new ≡ self.old }
    {
        let (digit, rest) = split_digit(self.rest)?;
        self.go_on(rest, 1);
        Some(digit)
    }

    /// The number that the next word is, where it has one digit to eight, no blank before it and a space after it, and
    /// 16 octets are there. Else None, and nothing changes.
    #[inline(always)]
    pub fn next_front(&mut self) -> Option<u64>
        ensures number { MatchOption result (self.new ≡ self.old) (TakesNumber self.old self.new) }
        ensures bound { IfSome result (λ n. n < 10 ^ 8) }
    {
        let (number, rest) = split_front(self.rest)?;
        self.go_on(rest, 1);
        Some(number)
    }

    /// The number that the next word is, where it can be read at once: it has decimal digits alone, at most 19 of them,
    /// and no blanks about it but spaces. Else None, and nothing changes.
    #[inline]
    pub fn next_short(&mut self) -> Option<u64>
        ensures number { MatchOption result (self.new ≡ self.old) (TakesNumber self.old self.new) }
    {
        let (number, rest) = split_short(self.rest)?;
        self.go_on(rest, 1);
        Some(number)
    }

    /// The number that the next word is, where it can be read at once: it has decimal digits alone, at most 38 of them,
    /// and no blanks about it but spaces. Else None, and nothing changes.
    #[inline]
    pub fn next_plain(&mut self) -> Option<u128>
        ensures number { MatchOption result (self.new ≡ self.old) (TakesNumber self.old self.new) }
    {
        let (value, rest) = split_number(self.rest)?;
        self.go_on(rest, 1);
        Some(value)
    }
}
