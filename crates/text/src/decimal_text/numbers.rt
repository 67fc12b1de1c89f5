//! Numbers in decimal.

ghost use Rattle.std.specs.Prelude.{◌≡◌, ◌<◌, ◌≤◌, ◌+◌, ◌*◌, ◌/◌, length, decimal};
ghost use Rattle.text.specs.Digits.{eight_octets};
ghost use Rattle.text.specs.Placed.{Placed};
ghost use Rattle.text.specs.declared.decimal_text.digits.TheConstants.{EIGHT_DIGITS};
ghost use Rattle.text.specs.declared.decimal_text.numbers.TheConstants.{OCTET_ROOM, SHORT_ROOM, NUMBER_ROOM, KEPT_END, KEPT_ROOM};

use crate::decimal_text::digits::{EIGHT_DIGITS, all_digits, front_digits};
use crate::decimal_text::places::{put_front, put_text};
use itoa::Buffer;

/// The octets that a number of 8 bits has to have room for.
pub const OCTET_ROOM: usize = 8;

/// The octets that a number of 64 bits has to have room for.
pub const SHORT_ROOM: usize = 24;

/// The octets that any number has to have room for.
pub const NUMBER_ROOM: usize = 40;

/// The octets that a number that is kept has to have room for.
pub(crate) const KEPT_ROOM: usize = 16;

/// The first number that is not kept: that of 17 digits.
pub(crate) const KEPT_END: u64 = 10_000_000_000_000_000;

/// Puts the last eight digits of a number at a place, and answers where they end.
#[inline(always)]
fn put_eight(eight: u64, line: &mut [u8], at: usize) -> usize
    requires eight { eight < EIGHT_DIGITS }
    requires room { at + 8 ≤ length line.old }
    ensures { Placed line.old line.new at (eight_octets eight) result }
{
    put_text(&all_digits(eight), line, at)
}

/// Puts a number below a hundred million at a place, and answers where it ends.
#[inline(always)]
pub fn put_few(number: u64, line: &mut [u8], at: usize) -> usize
    requires small { number < EIGHT_DIGITS }
    requires room { at + 8 ≤ length line.old }
    ensures text { Placed line.old line.new at (decimal number) result }
    ensures end { result ≤ at + 8 }
{
    let (octets, count) = front_digits(number);
    put_front(&octets, count, line, at)
}

/// Puts a number of up to 16 digits at a place, and answers where it ends.
#[inline(always)]
pub(crate) fn put_kept(number: u64, line: &mut [u8], at: usize) -> usize
    requires number { number < KEPT_END }
    requires room { at + KEPT_ROOM ≤ length line.old }
    ensures text { Placed line.old line.new at (decimal number) result }
    ensures end { result ≤ at + KEPT_ROOM }
{
    if number < EIGHT_DIGITS {
        return put_few(number, line, at);
    }
    let middle = put_few(number / EIGHT_DIGITS, line, at);
    put_eight(number % EIGHT_DIGITS, line, middle)
}

/// Puts a number that goes on behind others, by eight digits, at a place, and answers where it ends.
#[inline(never)]
fn put_wide(front: u64, eight: u64, line: &mut [u8], at: usize) -> usize
    requires some { 0 < front }
    requires front { front < KEPT_END }
    requires eight { eight < EIGHT_DIGITS }
    requires room { at + SHORT_ROOM ≤ length line.old }
    ensures text { Placed line.old line.new at (decimal (front * EIGHT_DIGITS + eight)) result }
    ensures end { result ≤ at + SHORT_ROOM }
{
    let middle = put_kept(front, line, at);
    put_eight(eight, line, middle)
}

/// Puts a number of 64 bits at a place, and answers where it ends.
#[inline(always)]
pub fn put_short(number: u64, line: &mut [u8], at: usize) -> usize
    requires { at + SHORT_ROOM ≤ length line.old }
    ensures text { Placed line.old line.new at (decimal number) result }
    ensures end { result ≤ at + SHORT_ROOM }
{
    if number < EIGHT_DIGITS {
        return put_few(number, line, at);
    }
    put_wide(number / EIGHT_DIGITS, number % EIGHT_DIGITS, line, at)
}

/// Puts a number of one digit at a place, and answers where it ends.
#[inline(always)]
pub fn put_digit(number: u8, line: &mut [u8], at: usize) -> usize
    requires digit { number < 10 }
    requires room { at < length line.old }
    ensures text { Placed line.old line.new at (decimal number) result }
    ensures end { result ≡ at + 1 }
{
    put_text(&[b'0' + number], line, at)
}

/// Puts a number of 8 bits at a place, and answers where it ends.
#[inline(always)]
pub fn put_octet(number: u8, line: &mut [u8], at: usize) -> usize
    requires { at + OCTET_ROOM ≤ length line.old }
    ensures text { Placed line.old line.new at (decimal number) result }
    ensures end { result ≤ at + OCTET_ROOM }
{
    if number < 10 {
        return put_digit(number, line, at);
    }
    put_few(u64::from(number), line, at)
}

/// Puts a text at a place, and answers where it ends.
fn put_slice(text: &[u8], line: &mut [u8], at: usize) -> usize
    requires { at + length text.now ≤ length line.old }
    ensures { Placed line.old line.new at text.now result }
{
    let end = at + text.len();
    line[at..end].copy_from_slice(text);
    end
}

/// All but the last eight digits of a number. A hundred million is 256 times 390,625.
#[inline]
pub(crate) fn front_of(number: u128) -> u128
    ensures { result ≡ number / EIGHT_DIGITS }
{
    let high = number / 256;
    if high <= u128::from(u64::MAX) {
        u128::from(high as u64 / 390_625)
    } else {
        number / u128::from(EIGHT_DIGITS)
    }
}

/// Puts a number of more than 64 bits at a place, and answers where it ends.
#[cold]
#[inline(never)]
fn put_long(number: u128, line: &mut [u8], at: usize) -> usize
    requires { at + NUMBER_ROOM ≤ length line.old }
    ensures text { Placed line.old line.new at (decimal number) result }
    ensures end { result ≤ at + NUMBER_ROOM }
{
    let front = front_of(number);
    if front == 0 || front >= u128::from(KEPT_END) {
        let mut buffer = Buffer::new();
        return put_slice(buffer.format(number).as_bytes(), line, at);
    }
    let eight = number - front * u128::from(EIGHT_DIGITS);
    put_wide(front as u64, eight as u64, line, at)
}

/// Puts a number at a place, and answers where it ends.
pub fn put_number(number: u128, line: &mut [u8], at: usize) -> usize
    requires { at + NUMBER_ROOM ≤ length line.old }
    ensures text { Placed line.old line.new at (decimal number) result }
    ensures end { result ≤ at + NUMBER_ROOM }
{
    if number <= u128::from(u64::MAX) {
        put_short(number as u64, line, at)
    } else {
        put_long(number, line, at)
    }
}
