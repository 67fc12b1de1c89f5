//! The decimal digits of a number below a hundred million, worked out together in a word of the machine.

ghost use Rattle.std.specs.Prelude.{◌≡◌, ◌<◌, ◌≤◌, ◌/◌, ◌%◌, decimal, take};
ghost use Rattle.text.specs.Digits.{digit_word, eight_octets, four_lanes};
ghost use Rattle.text.specs.declared.decimal_text.digits.TheConstants.{EIGHT_DIGITS};

/// The first number of nine digits.
pub const EIGHT_DIGITS: u64 = 100_000_000;

/// Two numbers of four digits as four of two, each in 16 bits of one word of the machine, the first in the lowest.
/// Of n below 10,000, n * 10,486 / 2^20 is n / 100: both are divided at once.
#[inline(always)]
fn four_pairs(front: u64, back: u64) -> u64
    requires front { front < 10000 }
    requires back { back < 10000 }
    ensures { result ≡ four_lanes (front / 100) (front % 100) (back / 100) (back % 100) }
{
    let fours = front + back * 4_294_967_296;
    let parts = fours * 10_486 / 1_048_576;
    let hundreds = parts % 128 + parts / 4_294_967_296 % 128 * 4_294_967_296;
    // hundreds + (fours - hundreds * 100) * 65,536, with a product less.
    fours * 65_536 - hundreds * 6_553_599
}

/// The eight decimal digits of a number, each in an octet of a word, the first of them in the lowest. Of n below 100, n
/// * 103 / 2^10 is n / 10: four pairs are divided at once.
#[inline(always)]
fn eight_digits(number: u64) -> u64
    requires { number < EIGHT_DIGITS }
    ensures { result ≡ digit_word number }
{
    let pairs = four_pairs(number / 10_000, number % 10_000);
    let parts = pairs * 103 / 1_024;
    let tens = parts % 16
        + parts / 65_536 % 16 * 65_536
        + parts / 4_294_967_296 % 16 * 4_294_967_296
        + parts / 281_474_976_710_656 % 16 * 281_474_976_710_656;
    // tens + (pairs - tens * 10) * 256, with a product less.
    pairs * 256 - tens * 2_559
}

/// The eight decimal digits of a number as octets, the first of them counting most.
#[inline(always)]
pub(crate) fn all_digits(number: u64) -> [u8; 8]
    requires { number < EIGHT_DIGITS }
    ensures { result ≡ eight_octets number }
{
    (eight_digits(number) + 0x3030_3030_3030_3030).to_le_bytes()
}

/// The decimal digits of a number as octets, without the zeros in front, and how many these are.
#[inline(always)]
pub(crate) fn front_digits(number: u64) -> ([u8; 8], usize)
    requires { number < EIGHT_DIGITS }
    ensures count { result.1 ≤ 8 }
    ensures text { take result.1 result.0 ≡ decimal number }
{
    let digits = eight_digits(number);
    // The last digit counts even where it is 0. So this is never 0, which spares a case.
    let marked = digits + 0x0100_0000_0000_0000;
    if marked == 0 {
        unreachable!()
    }
    let zeros = marked.trailing_zeros() / 8;
    let moved = digits >> (8 * zeros);
    let octets = (moved + 0x3030_3030_3030_3030).to_le_bytes();
    (octets, 8 - zeros as usize)
}
