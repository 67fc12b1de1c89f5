//! Times and moments as words: a decimal number with its unit, or whole picoseconds.
//!
//! The definitions are specs/Times.antt; the contracts of `time` and `moment` cite them.
ghost use Rattle.std.specs.Prelude.{◌≡◌, ◌≤◌, ◌<◌, ◌^◌, ◌*◌, ◌+◌, Some, IfSome, length};
ghost use Rattle.text.specs.Numbers.{at_most};
ghost use Rattle.text.specs.Times.{behind_digits, decimal_time, digits_of, in_picoseconds, leading_digits, moment_in, starts_with_digit, time_behind, time_in, unit_of, whole_time};

use crate::words::{is_digits, number};

/// How many digits may stand behind the point: a second has 10^12 picoseconds.
const PLACES: usize = 12;

/// How many picoseconds a second has.
const SECOND: u128 = 1_000_000_000_000;

/// How many picoseconds a unit has.
fn unit_of(word: &[u8]) -> Option<u128>
    ensures unit { result ≡ unit_of word.now }
    ensures bound { IfSome result (λ n. n ≤ 1000000000000) }
{
    if word == b"ps".as_slice() {
        Some(1)
    } else if word == b"ns".as_slice() {
        Some(1_000)
    } else if word == b"us".as_slice() {
        Some(1_000_000)
    } else if word == b"ms".as_slice() {
        Some(1_000_000_000)
    } else if word == b"s".as_slice() {
        Some(1_000_000_000_000)
    } else {
        None
    }
}

fn starts_with_digit(octets: &[u8]) -> bool
    ensures { result ≡ starts_with_digit octets.now }
{
    match octets {
        [octet, ..] => b'0' <= *octet && *octet <= b'9',
        [] => false,
    }
}

/// The digits that a word begins with, and what comes behind them.
fn split_digits(word: &[u8]) -> (&[u8], &[u8])
    ensures digits { result.0.now ≡ digits_of word.now }
    ensures behind { result.1.now ≡ behind_digits word.now }
    ensures count { length result.0.now ≡ leading_digits word.now }
{
    let mut end = 0;
    while starts_with_digit(&word[end..]) {
        end += 1;
    }
    word.split_at(end)
}

/// How many parts a unit has by so many places behind the point.
fn parts_of(places: usize) -> u128
    requires { places ≤ PLACES }
    ensures value { result ≡ 10 ^ places }
    ensures some { 0 < result }
{
    let mut parts = 1;
    for _ in 0..places {
        parts *= 10;
    }
    parts
}

/// So many of a unit and some picoseconds, up to a greatest number of them.
fn sum_of(whole: u128, unit: u128, rest: u128, most: u128) -> Option<u128>
    ensures { result ≡ at_most most (Some (whole * unit + rest)) }
{
    let Some(time) = whole.checked_mul(unit) else {
        return None;
    };
    let Some(time) = time.checked_add(rest) else {
        return None;
    };
    if time <= most { Some(time) } else { None }
}

/// So many of a unit and so many of its parts, in picoseconds, where that is a whole number, up to a greatest one.
fn in_picoseconds(whole: u128, part: u128, parts: u128, unit: u128, most: u128) -> Option<u128>
    requires part { part ≤ 10 ^ 12 }
    requires parts { 0 < parts }
    requires unit { unit ≤ 1000000000000 }
    ensures { result ≡ at_most most (in_picoseconds whole part parts unit) }
{
    let part = part * unit;
    if part % parts != 0 {
        return None;
    }
    sum_of(whole, unit, part / parts, most)
}

/// A whole number with its unit behind it.
fn whole_time(whole: u128, unit: &[u8], most: u128) -> Option<u128>
    ensures { result ≡ at_most most (whole_time whole unit.now) }
{
    let Some(unit) = unit_of(unit) else {
        return None;
    };
    sum_of(whole, unit, 0, most)
}

/// A whole number with what stands behind its point.
fn decimal_time(whole: u128, behind: &[u8], most: u128) -> Option<u128>
    ensures { result ≡ at_most most (decimal_time whole behind.now) }
{
    let (digits, unit) = split_digits(behind);
    if digits.len() > PLACES {
        return None;
    }
    let Some(part) = number(digits, SECOND) else {
        return None;
    };
    let Some(unit) = unit_of(unit) else {
        return None;
    };
    in_picoseconds(whole, part, parts_of(digits.len()), unit, most)
}

/// A whole number with what stands behind its digits.
fn time_behind(whole: u128, rest: &[u8], most: u128) -> Option<u128>
    ensures { result ≡ at_most most (time_behind whole rest.now) }
{
    match rest {
        [b'.', ..] => decimal_time(whole, &rest[1..], most),
        _ => whole_time(whole, rest, most),
    }
}

/// A time of at most `most` picoseconds: a decimal number with its unit, `s`, `ms`, `us`, `ns` or `ps`, directly after
/// it. None where it is not so many picoseconds exactly, or has more than twelve digits behind its point.
pub fn time(word: &[u8], most: u128) -> Option<u128>
    ensures time { result ≡ time_in most word.now }
    ensures bound { IfSome result (λ n. n ≤ most) }
{
    let (digits, rest) = split_digits(word);
    let Some(whole) = number(digits, most) else {
        return None;
    };
    time_behind(whole, rest, most)
}

/// A moment of at most `most` picoseconds: a whole number of them, or a time since moment 0.
pub fn moment(word: &[u8], most: u128) -> Option<u128>
    ensures moment { result ≡ moment_in most word.now }
    ensures bound { IfSome result (λ n. n ≤ most) }
{
    if is_digits(word) {
        number(word, most)
    } else {
        time(word, most)
    }
}
