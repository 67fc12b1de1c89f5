//! Two numbers that differ in their last eight digits alone. Their digits are kept for the two that come next.

ghost use Rattle.std.specs.Prelude.{◌≡◌, ◌<◌, ◌≤◌, ◌+◌, ◌*◌, ◌++◌, length, decimal, take, true};
ghost use Rattle.text.specs.Digits.{eight_octets};
ghost use Rattle.text.specs.Placed.{Placed};
ghost use Rattle.text.specs.declared.decimal_text.digits.TheConstants.{EIGHT_DIGITS};
ghost use Rattle.text.specs.declared.decimal_text.numbers.TheConstants.{KEPT_END, KEPT_ROOM, SHORT_ROOM};

use crate::decimal_text::digits::{EIGHT_DIGITS, all_digits};
use crate::decimal_text::numbers::{KEPT_END, KEPT_ROOM, front_of, put_kept};
use crate::decimal_text::places::{put_front, put_text};

/// The digits of two numbers. The second is kept as a number too, since the next first one is mostly the same.
#[derive(Clone, Copy, Drop)]
pub struct NearNumbers {
    front: u64,
    octets: [u8; KEPT_ROOM],
    count: usize,
    first: [u8; 8],
    second: [u8; 8],
    eight: u64,
    last: u128,
    ghost some: { 0 < front },
    ghost kept: { front < KEPT_END },
    ghost short: { count ≤ KEPT_ROOM },
    ghost text: { take count octets ≡ decimal front },
    ghost small: { eight < EIGHT_DIGITS },
    ghost digits: { second ≡ eight_octets eight },
    ghost whole: { last ≡ front * EIGHT_DIGITS + eight },
}

impl NearNumbers {
    /// A hundred million, twice.
    pub fn new() -> NearNumbers {
        NearNumbers {
            front: 1,
            octets: *b"1000000000000000",
            count: 1,
            first: *b"00000000",
            second: *b"00000000",
            eight: 0,
            last: 100_000_000,
        }
    }

    /// Takes a number for the second, and answers whether it can be. Apart, since mostly its last eight digits alone
    /// are new.
    #[cold]
    #[inline(never)]
    fn keep(&mut self, number: u128) -> bool
        ensures { result ≡ true → self.new.last ≡ number }
    {
        let front = front_of(number);
        if front == 0 || front >= u128::from(KEPT_END) {
            return false;
        }
        let eight = (number - front * u128::from(EIGHT_DIGITS)) as u64;
        let mut octets = [0; KEPT_ROOM];
        let count = put_kept(front as u64, &mut octets, 0);
        self.front = front as u64;
        self.octets = octets;
        self.count = count;
        self.second = all_digits(eight);
        self.eight = eight;
        self.last = number;
        true
    }

    /// Takes a number for the second where only its last eight digits are new, and answers whether it is so.
    #[inline(always)]
    fn keep_near(&mut self, number: u128) -> bool
        ensures { result ≡ true → self.new.last ≡ number }
    {
        if number == self.last {
            return true;
        }
        let base = u128::from(self.front) * u128::from(EIGHT_DIGITS);
        let eight = number.wrapping_sub(base);
        if eight >= u128::from(EIGHT_DIGITS) {
            return false;
        }
        self.second = all_digits(eight as u64);
        self.eight = eight as u64;
        self.last = number;
        true
    }

    /// Takes the number that is kept for the first, and for the second one that is near, and answers whether it is.
    #[inline(always)]
    fn go_on(&mut self, first: u128, second: u128) -> bool
        requires { first ≡ self.old.last }
        ensures first { result ≡ true → decimal first ≡ decimal self.new.front ++ self.new.first }
        ensures second { result ≡ true →
            decimal second ≡ decimal self.new.front ++ self.new.second }
    {
        let gone = second.wrapping_sub(first);
        if gone >= u128::from(EIGHT_DIGITS) {
            return false;
        }
        let eight = gone as u64 + self.eight;
        if eight >= EIGHT_DIGITS {
            return false;
        }
        self.first = self.second;
        self.second = all_digits(eight);
        self.eight = eight;
        self.last = second;
        true
    }

    /// Takes two numbers where they are near, and answers whether they are.
    #[inline(always)]
    pub fn take(&mut self, first: u128, second: u128) -> bool
        ensures first { result ≡ true → decimal first ≡ decimal self.new.front ++ self.new.first }
        ensures second { result ≡ true →
            decimal second ≡ decimal self.new.front ++ self.new.second }
    {
        if !self.keep_near(first) && !self.keep(first) {
            return false;
        }
        if self.go_on(first, second) {
            return true;
        }
        // For the next, which mostly begins where this ends.
        let _kept = self.keep(second);
        false
    }

    /// Puts the first at a place, and answers where it ends.
    #[inline(always)]
    pub fn put_first(&self, line: &mut [u8], at: usize) -> usize
        requires { at + SHORT_ROOM ≤ length line.old }
        ensures text { Placed line.old line.new at
            (decimal self.now.front ++ self.now.first) result }
        ensures end { result ≤ at + SHORT_ROOM }
    {
        let middle = put_front(&self.octets, self.count, line, at);
        put_text(&self.first, line, middle)
    }

    /// Puts the second at a place, and answers where it ends.
    #[inline(always)]
    pub fn put_second(&self, line: &mut [u8], at: usize) -> usize
        requires { at + SHORT_ROOM ≤ length line.old }
        ensures text { Placed line.old line.new at
            (decimal self.now.front ++ self.now.second) result }
        ensures end { result ≤ at + SHORT_ROOM }
    {
        let middle = put_front(&self.octets, self.count, line, at);
        put_text(&self.second, line, middle)
    }
}
