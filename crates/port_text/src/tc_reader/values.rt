//! One value of an option.

ghost use Rattle.std.specs.Prelude.{◌≡◌, ◌≤◌, ◌<◌, ◌+◌, ◌^◌, ◌-◌, ◌∷◌, [], Ok, Err, Some, MatchResult, MatchOption, IfOk, IfSome};
ghost use Rattle.std.specs.List.{position, before_first, after_first};
ghost use Rattle.port_text.specs.Words.{number_in, words_left, words_taken, Moves, after_0x, hex_in, is_sign, is_range, range_of, is_clock, limit_in, TakesEntry, TakesInterval, value_at, command_at, entry_at, flags_at, clock_item, sched_entry, clock, flags};

use crate::tc_reader::fault::{Opt, TcFault};
use gates::gate_list::Entry;
use text::words::{Words, hex_number, is_digits, number};

/// The most values of `max-sdu` that may stand.
pub(crate) const MAX_SDU_VALUES: usize = 16;

fn after_0x(word: &[u8]) -> &[u8]
    ensures { result.now ≡ after_0x word.now }
{
    match word {
        [b'0', b'x', digits @ ..] => digits,
        _ => word,
    }
}

/// A decimal number of at most `most`.
#[inline(always)]
#[tactic(auto, unfolding(crate::specs::Options::value_at))]
pub(crate) fn take_number(words: &mut Words<'_>, opt: Opt, most: u64) -> Result<u64, TcFault>
    ensures value { MatchResult result
        (λ n. value_at opt (number_in 10 most) (words_taken words.old) (words_left words.old)
        ≡ Ok (n, words_left words.new))
        (λ f. value_at opt (number_in 10 most) (words_taken words.old) (words_left words.old)
        ≡ Err f) }
    ensures place { IfOk result (λ _. words_taken words.new ≡ words_taken words.old + 1) }
    ensures moves { Moves words.old words.new }
    ensures bound { IfOk result (λ n. n ≤ most) }
{
    let place = words.place();
    match words.next_number(u128::from(most)) {
        None => Err(TcFault::MissingWord(opt)),
        Some(None) => Err(TcFault::BadNumber(place)),
        Some(Some(n)) => Ok(n as u64),
    }
}

/// A hexadecimal number of at most `most`, after an optional 0x.
#[inline(always)]
#[tactic(auto, unfolding(crate::specs::Options::value_at))]
fn take_hex(words: &mut Words<'_>, opt: Opt, most: u32) -> Result<u32, TcFault>
    ensures value { MatchResult result
        (λ n. value_at opt (hex_in most) (words_taken words.old) (words_left words.old)
        ≡ Ok (n, words_left words.new))
        (λ f. value_at opt (hex_in most) (words_taken words.old) (words_left words.old) ≡ Err f) }
    ensures place { IfOk result (λ _. words_taken words.new ≡ words_taken words.old + 1) }
    ensures moves { Moves words.old words.new }
    ensures bound { IfOk result (λ n. n ≤ most) }
{
    let place = words.place();
    let Some(word) = words.next_word() else {
        return Err(TcFault::MissingWord(opt));
    };
    match hex_number(after_0x(word), most as u128) {
        Some(n) => Ok(n as u32),
        None => Err(TcFault::BadNumber(place)),
    }
}

#[tactic(auto, unfolding(crate::specs::Options::command_at))]
fn take_command(words: &mut Words<'_>) -> Result<(), TcFault>
    ensures value { MatchResult result
        (λ _. command_at (words_left words.old) ≡ Ok (words_left words.new))
        (λ f. command_at (words_left words.old) ≡ Err f) }
    ensures place { IfOk result (λ _. words_taken words.new ≡ words_taken words.old + 1) }
    ensures moves { Moves words.old words.new }
{
    match words.next_word() {
        None => Err(TcFault::MissingWord(Opt::SchedEntry)),
        Some(b"S") => Ok(()),
        Some(_) => Err(TcFault::Unsupported(Opt::SchedEntry)),
    }
}

/// The words of an entry: its command, its mask, its interval.
#[tactic(auto, unfolding(crate::specs::Options::entry_at))]
pub(crate) fn take_entry(words: &mut Words<'_>) -> Result<Entry, TcFault>
    ensures value { MatchResult result
        (λ e. entry_at (words_taken words.old) (words_left words.old)
        ≡ Ok (sched_entry e.mask e.interval, words_left words.new))
        (λ f. entry_at (words_taken words.old) (words_left words.old) ≡ Err f) }
    ensures moves { Moves words.old words.new }
{
    take_command(words)?;
    let mask = take_hex(words, Opt::SchedEntry, 255)? as u8;
    let interval = take_number(words, Opt::SchedEntry, 0xffff_ffff)? as u32;
    Ok(Entry { mask, interval })
}

/// The next word as a mask, where it has two hexadecimal digits. Else None, and some words are taken or none.
#[inline(always)]
fn take_plain_mask(words: &mut Words<'_>) -> Option<u8>
    ensures value { IfSome result
        (λ n. value_at Opt.SchedEntry (hex_in 255) (words_taken words.old) (words_left words.old)
        ≡ Ok (n, words_left words.new)) }
    ensures place { IfSome result (λ _. words_taken words.new ≡ words_taken words.old + 1) }
    ensures moves { Moves words.old words.new }
{
    let (front, behind) = words.next_hex_pair()?;
    Some(front * 16 + behind)
}

/// The next word as an interval, where it has one digit to eight, no blank before it and a space after it. Else None.
#[inline(always)]
fn take_front_interval(words: &mut Words<'_>) -> Option<u32>
    ensures { IfSome result (TakesInterval words.old words.new) }
{
    let interval = words.next_front()?;
    Some(interval as u32)
}

/// The next word as an interval, where it can be read at once. Else None.
#[inline(always)]
fn take_plain_interval(words: &mut Words<'_>) -> Option<u32>
    ensures { IfSome result (TakesInterval words.old words.new) }
{
    let interval = words.next_short()?;
    if interval > 0xffff_ffff {
        return None;
    }
    Some(interval as u32)
}

/// The next word as an interval: a short one before a space, or any that can be read at once. Else None.
#[inline(always)]
fn take_interval(words: &mut Words<'_>, short: bool) -> Option<u32>
    ensures { IfSome result (TakesInterval words.old words.new) }
{
    if short {
        take_front_interval(words)
    } else {
        take_plain_interval(words)
    }
}

/// An entry whose words stand as in most lines, with a space before each, its mask in two digits, and its interval
/// short or of any length. None where they don't, and then no word is taken.
#[inline(always)]
fn take_entry_by(words: &mut Words<'_>, short: bool) -> Option<Entry>
    ensures { MatchOption result (words.new ≡ words.old) (TakesEntry words.old words.new) }
{
    let mut after = *words;
    if !after.skip_text(b" sched-entry S ", 2) {
        return None;
    }
    let mask = take_plain_mask(&mut after)?;
    let interval = take_interval(&mut after, short)?;
    *words = after;
    Some(Entry { mask, interval })
}

/// How many octets are there at least where an entry is taken that others come after. As it is asked once, no part of
/// an entry asks for its own length.
const FRONT: usize = 34;

/// An entry whose words stand as in most lines, where others come after it. Else None, and no word is taken.
#[inline(always)]
pub(crate) fn take_front_entry(words: &mut Words<'_>) -> Option<Entry>
    ensures { MatchOption result (words.new ≡ words.old) (TakesEntry words.old words.new) }
{
    if words.octets().len() < FRONT {
        return None;
    }
    take_entry_by(words, true)
}

/// An entry whose words stand as in most lines. Else None, and no word is taken.
#[inline(always)]
pub(crate) fn take_plain_entry(words: &mut Words<'_>) -> Option<Entry>
    ensures { MatchOption result (words.new ≡ words.old) (TakesEntry words.old words.new) }
{
    take_entry_by(words, false)
}

/// Flags that change nothing: 0 or 2.
#[tactic(auto, unfolding(crate::specs::Options::flags_at))]
pub(crate) fn take_flags(words: &mut Words<'_>) -> Result<u32, TcFault>
    ensures value { MatchResult result
        (λ n. flags_at (words_taken words.old) (words_left words.old)
        ≡ Ok (flags n, words_left words.new))
        (λ f. flags_at (words_taken words.old) (words_left words.old) ≡ Err f) }
    ensures moves { Moves words.old words.new }
{
    let flags = take_hex(words, Opt::Flags, 0xffff_ffff)?;
    if flags == 0 || flags == 2 {
        Ok(flags)
    } else {
        Err(TcFault::Unsupported(Opt::Flags))
    }
}

fn is_clock(word: &[u8]) -> bool
    ensures { result ≡ is_clock word.now }
{
    word.eq_ignore_ascii_case(b"REALTIME")
        || word.eq_ignore_ascii_case(b"MONOTONIC")
        || word.eq_ignore_ascii_case(b"BOOTTIME")
        || word.eq_ignore_ascii_case(b"TAI")
        || word.eq_ignore_ascii_case(b"CLOCK_REALTIME")
        || word.eq_ignore_ascii_case(b"CLOCK_MONOTONIC")
        || word.eq_ignore_ascii_case(b"CLOCK_BOOTTIME")
        || word.eq_ignore_ascii_case(b"CLOCK_TAI")
}

/// The name of a clock, which has no effect.
#[tactic(auto, unfolding(crate::specs::Options::value_at))]
pub(crate) fn take_clock_name(words: &mut Words<'_>) -> Result<(), TcFault>
    ensures value { MatchResult result
        (λ _. value_at Opt.Clockid clock_item (words_taken words.old) (words_left words.old)
        ≡ Ok (clock, words_left words.new))
        (λ f. value_at Opt.Clockid clock_item (words_taken words.old) (words_left words.old)
        ≡ Err f) }
    ensures moves { Moves words.old words.new }
{
    let place = words.place();
    let Some(word) = words.next_word() else {
        return Err(TcFault::MissingWord(Opt::Clockid));
    };
    if is_clock(word) {
        Ok(())
    } else {
        Err(TcFault::BadNumber(place))
    }
}

fn sign_place(word: &[u8]) -> Option<usize>
    ensures { result ≡ position is_sign word.now }
{
    word.iter().position(|octet| *octet == b'@')
}

/// What stands before and after the first @.
fn split_range(word: &[u8]) -> (&[u8], &[u8])
    ensures before { result.0.now ≡ before_first is_sign word.now }
    ensures after { result.1.now ≡ after_first is_sign word.now }
{
    match sign_place(word) {
        Some(place) => (&word[..place], &word[place + 1..]),
        None => (word, &[]),
    }
}

/// Whether a word has the form of a range of queues: digits, @, digits.
pub(crate) fn is_range(word: &[u8]) -> bool
    ensures { result ≡ is_range word.now }
{
    let (count, offset) = split_range(word);
    is_digits(count) && is_digits(offset)
}

/// The range of queues that a word is: its count and its offset.
pub(crate) fn range_of(word: &[u8]) -> Option<(u16, u16)>
    ensures { result ≡ range_of word.now }
{
    let (count, offset) = split_range(word);
    let count = number(count, 0xffff)? as u16;
    let offset = number(offset, 0xffff)? as u16;
    Some((count, offset))
}

/// The size limit that a word is, in octets, after so many limits, of which no more than `MAX_SDU_VALUES` may stand.
pub(crate) fn limit_in(word: &[u8], before: usize) -> Option<u32>
    ensures { result ≡ limit_in before word.now }
{
    if before >= MAX_SDU_VALUES {
        return None;
    }
    let limit = number(word, 0xffff_ffff)?;
    Some(limit as u32)
}
