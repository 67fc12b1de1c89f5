//! Words that are numbers.

ghost use Rattle.std.specs.Prelude.{◌≡◌, ◌<◌, ◌≤◌, ◌^◌, ◌∷◌, [], Some, IfSome, drop, length, map, not, take, true};
ghost use Rattle.std.specs.List.{list_all};
ghost use Rattle.text.specs.declared.words.numbers.TheConstants.{LANES, SHORT_DIGITS, LONG_DIGITS, HEX_DIGITS};
ghost use Rattle.text.specs.Numbers.{BeginsWithNumber, digit_in, number_in, value_behind, is_digit, is_digits};
ghost use Rattle.std.specs.Simd.Lanes.{mask_l};

use std::simd::prelude::*;

fn digit_in(base: u8, octet: u8) -> Option<u8>
    ensures digit { result ≡ digit_in base octet }
    ensures bound { IfSome result (λ d. d < base) }
{
    let digit = match octet {
        b'0'..=b'9' => octet - b'0',
        b'a'..=b'f' => octet - b'a' + 10,
        b'A'..=b'F' => octet - b'A' + 10,
        _ => return None,
    };
    if digit < base { Some(digit) } else { None }
}

/// How many decimal digits surely make a number of 64 bits.
const SHORT_DIGITS: usize = 19;

/// How many decimal digits surely make a number of 128 bits.
const LONG_DIGITS: usize = 38;

/// The decimal digit that an octet is. In a word of the machine, where it is counted, one comparison shows it.
#[inline(always)]
fn decimal_digit(octet: u8) -> Option<u64>
    ensures digit { result ≡ digit_in 10 octet }
    ensures bound { IfSome result (λ d. d < 10) }
{
    let digit = u64::from(octet).wrapping_sub(48);
    if digit < 10 { Some(digit) } else { None }
}

/// The number that the decimal digits at the front of an array are, and how many these are. The compiler lays this loop
/// out digit by digit.
fn array_run(octets: &[u8; SHORT_DIGITS]) -> (u64, usize)
    ensures few { result.1 ≤ SHORT_DIGITS }
    ensures value { value_behind 10 0 (take result.1 octets.now) ≡ Some result.0 }
    ensures bound { result.0 < 10 ^ result.1 }
{
    let mut value = 0u64;
    let mut end = 0;
    while end < SHORT_DIGITS {
        let Some(digit) = decimal_digit(octets[end]) else {
            return (value, end);
        };
        value = value * 10 + digit;
        end += 1;
    }
    (value, end)
}

/// The number that the decimal digits at the front of fewer octets than an array has are, and how many these are.
fn few_run(octets: &[u8]) -> (u64, usize)
    requires { length octets.now < SHORT_DIGITS }
    ensures within { result.1 ≤ length octets.now }
    ensures value { value_behind 10 0 (take result.1 octets.now) ≡ Some result.0 }
    ensures bound { result.0 < 10 ^ result.1 }
{
    let mut number = 0u64;
    let mut end = 0;
    while end < octets.len() {
        let Some(digit) = decimal_digit(octets[end]) else {
            return (number, end);
        };
        number = number * 10 + digit;
        end += 1;
    }
    (number, end)
}

// The number that the decimal digits at the front of octets are, as far as they surely fit 64 bits, and how many these
// are.
pub(crate) fn short_run(octets: &[u8]) -> (u64, usize)
    ensures within { result.1 ≤ length octets.now }
    ensures few { result.1 ≤ SHORT_DIGITS }
    ensures value { value_behind 10 0 (take result.1 octets.now) ≡ Some result.0 }
    ensures bound { result.0 < 10 ^ result.1 }
{
    match octets.first_chunk::<SHORT_DIGITS>() {
        Some(front) => array_run(front),
        None => few_run(octets),
    }
}

/// How many octets are looked at together for digits, or for blanks.
pub(crate) const LANES: usize = 16;

/// Which of 16 octets are no decimal digits: a bit for each, the lowest for the first.
#[inline(always)]
fn others_in(octets: u8x16) -> u64
    ensures { result ≡ mask_l (map (λ octet. not (is_digit octet)) octets) }
{
    (octets - u8x16::splat(b'0'))
        .simd_ge(u8x16::splat(10))
        .to_bitmask()
}

/// How many decimal digits stand at the front of 16 octets.
#[inline(always)]
fn digits_in_front(octets: &[u8; LANES]) -> usize
    ensures within { result ≤ LANES }
    ensures digits { list_all is_digit (take result octets.now) ≡ true }
{
    let others = others_in(u8x16::from_array(*octets));
    if others == 0 {
        LANES
    } else {
        others.trailing_zeros() as usize
    }
}

/// How many decimal digits stand at the front of 16 octets: as many are expected from then on. Apart, since mostly they
/// are as many as were expected.
#[inline(never)]
fn expect_digits(octets: &[u8; LANES], expected: &mut usize) -> usize
    ensures expected { expected.new ≡ result }
    ensures within { result ≤ LANES }
    ensures digits { list_all is_digit (take result octets.now) ≡ true }
{
    let count = digits_in_front(octets);
    *expected = count;
    count
}

/// How many decimal digits stand at the front of 16 octets, where mostly they are as many as expected. Nothing that is
/// done with them waits for the count then: a processor guesses how the comparison ends, and goes on.
#[inline(always)]
fn digits_as_expected(octets: &[u8; LANES], expected: &mut usize) -> usize
    ensures expected { expected.new ≡ result }
    ensures within { result ≤ LANES }
    ensures digits { list_all is_digit (take result octets.now) ≡ true }
{
    let before = *expected;
    if digits_in_front(octets) == before {
        before
    } else {
        expect_digits(octets, expected)
    }
}

/// The number that the first digits of eight octets are, so many. They are moved to the end of a word, the first in its
/// lowest octet, so that zeros stand before them. There each digit is put together with the next one, of the pairs
/// every second one counts, and these are put together in the same way.
#[inline(always)]
fn eight_digits(octets: &[u8; 8], count: usize) -> u64
    requires some { 0 < count }
    requires few { count ≤ 8 }
    requires digits { list_all is_digit (take count octets.now) ≡ true }
    ensures value { value_behind 10 0 (take count octets.now) ≡ Some result }
    ensures bound { result < 10 ^ 8 }
{
    let all = u64::from_le_bytes(*octets).wrapping_sub(0x3030_3030_3030_3030);
    let ones = all << (64 - 8 * count);
    // ones * 10 + ones / 256, by a product that loses what no pair counts.
    let pairs = ones.wrapping_mul(2_561) / 256;
    let apart = pairs % 256
        + pairs / 65_536 % 256 * 65_536
        + pairs / 4_294_967_296 % 256 * 4_294_967_296
        + pairs / 281_474_976_710_656 % 256 * 281_474_976_710_656;
    // apart * 100 + apart / 65,536, in the same way.
    let fours = apart.wrapping_mul(6_553_601) / 65_536;
    fours % 65_536 * 10_000 + fours / 4_294_967_296 % 65_536
}

/// The number that the first digits of octets are, so many, where eight octets are there.
#[inline(always)]
fn digits_of(octets: &[u8], count: usize) -> u64
    requires some { 0 < count }
    requires few { count ≤ 8 }
    requires there { 8 ≤ length octets.now }
    requires digits { list_all is_digit (take count octets.now) ≡ true }
    ensures value { value_behind 10 0 (take count octets.now) ≡ Some result }
    ensures bound { result < 10 ^ 8 }
{
    match octets.first_chunk::<8>() {
        Some(front) => eight_digits(front, count),
        None => 0,
    }
}

/// The number that the first digits of 16 octets are, so many: the last eight of them, and those before.
#[inline(always)]
fn wide_digits(octets: &[u8; LANES], count: usize) -> u64
    requires some { 8 < count }
    requires few { count ≤ LANES }
    requires digits { list_all is_digit (take count octets.now) ≡ true }
    ensures value { value_behind 10 0 (take count octets.now) ≡ Some result }
    ensures bound { result < 10 ^ 16 }
{
    let (_, last) = octets.split_at(count - 8);
    digits_of(octets, count - 8) * 100_000_000 + digits_of(last, 8)
}

/// The powers of ten up to the eighth.
const TENS: [u64; 9] = [
    1,
    10,
    100,
    1_000,
    10_000,
    100_000,
    1_000_000,
    10_000_000,
    100_000_000,
];

/// The number that one digit before a space is, and what comes after the digit.
#[inline(always)]
pub fn front_digit(octets: &[u8]) -> Option<(u64, &[u8])>
    ensures number { IfSome result (λ x. BeginsWithNumber octets.now x.0 x.1.now) }
    ensures bound { IfSome result (λ x. x.0 < 10) }
{
    match octets {
        [octet, b' ', ..] => {
            let digit = decimal_digit(*octet)?;
            let (_, rest) = octets.split_at(1);
            Some((digit, rest))
        }
        _ => None,
    }
}

/// The number that one digit to eight at the front of octets are, and what comes after them. None where fewer than 16
/// octets are there.
#[inline(always)]
pub fn front_short(octets: &[u8]) -> Option<(u64, &[u8])>
    ensures number { IfSome result (λ x. BeginsWithNumber octets.now x.0 x.1.now) }
    ensures bound { IfSome result (λ x. x.0 < 10 ^ 8) }
{
    let front = octets.first_chunk::<LANES>()?;
    let count = digits_in_front(front);
    if count == 0 || count > 8 {
        return None;
    }
    let (_, rest) = octets.split_at(count);
    Some((digits_of(front, count), rest))
}

/// The number of at most `most` that digits at the front of octets are, of which the first 16 are this number, and what
/// comes after them. None where they are more than 24, or fewer than 32 octets are there.
#[inline(always)]
fn long_number<'a>(
    octets: &'a [u8],
    number: u64,
    rest: &'a [u8],
    most: u128,
) -> Option<(u128, &'a [u8])>
    requires there { LANES ≤ length octets.now }
    requires value { value_behind 10 0 (take LANES octets.now) ≡ Some number }
    requires rest { rest.now ≡ drop LANES octets.now }
    requires within { number ≤ most }
    ensures number { IfSome result (λ x. BeginsWithNumber octets.now x.0 x.1.now) }
    ensures bound { IfSome result (λ x. x.0 ≤ most) }
{
    let more = digits_in_front(rest.first_chunk::<LANES>()?);
    if more == 0 {
        return Some((u128::from(number), rest));
    }
    if more > 8 {
        return None;
    }
    let (_, behind) = rest.split_at(more);
    let last = digits_of(rest, more);
    let long = u128::from(number) * u128::from(TENS[more]) + u128::from(last);
    if long > most {
        return None;
    }
    Some((long, behind))
}

/// The number of at most `most` that digits at the front of octets are, and what comes after them. None where it has
/// none or more than 24, or fewer octets are there than are looked at: 16 for 15 digits, and 32 for more. Since up to
/// 16 digits are within `most`, a longer number alone is compared with it. It is read soonest where it has as many
/// digits as are expected, up to 16; as many as it has are expected then.
#[inline(always)]
pub fn front_number<'a>(
    octets: &'a [u8],
    most: u128,
    expected: &mut usize,
) -> Option<(u128, &'a [u8])>
    requires { 10 ^ 16 ≤ most }
    ensures number { IfSome result (λ x. BeginsWithNumber octets.now x.0 x.1.now) }
    ensures bound { IfSome result (λ x. x.0 ≤ most) }
{
    let front = octets.first_chunk::<LANES>()?;
    let count = digits_as_expected(front, expected);
    if count == 0 {
        return None;
    }
    let (_, rest) = octets.split_at(count);
    if count <= 8 {
        return Some((u128::from(digits_of(front, count)), rest));
    }
    let number = wide_digits(front, count);
    if count < LANES {
        return Some((u128::from(number), rest));
    }
    // At a fixed place, so that the second count doesn't wait for the first.
    let (_, rest) = octets.split_at(LANES);
    long_number(octets, number, rest, most)
}

// The number that the decimal digits at the front of octets are, but for those past 38, and how many these are.
pub(crate) fn decimal_run(octets: &[u8]) -> (u128, usize)
    ensures within { result.1 ≤ length octets.now }
    ensures value { value_behind 10 0 (take result.1 octets.now) ≡ Some result.0 }
{
    let (front, begin) = short_run(octets);
    let stop = octets.len().min(LONG_DIGITS);
    let mut number = u128::from(front);
    let mut end = begin;
    while end < stop {
        let Some(digit) = decimal_digit(octets[end]) else {
            return (number, end);
        };
        number = number * 10 + u128::from(digit);
        end += 1;
    }
    (number, end)
}

/// The number of at most `most` that digits of a base are.
fn number_in(base: u8, most: u128, word: &[u8]) -> Option<u128>
    requires { 0 < base }
    ensures number { result ≡ number_in base most word.now }
    ensures bound { IfSome result (λ n. n ≤ most) }
{
    if word.is_empty() {
        return None;
    }
    let mut number = 0u128;
    for octet in word {
        let digit = digit_in(base, *octet)?;
        number = number
            .checked_mul(u128::from(base))?
            .checked_add(u128::from(digit))?;
    }
    if number <= most { Some(number) } else { None }
}

/// The number of at most `most` that a word of one octet is.
#[inline(always)]
fn digit_number(octet: u8, most: u128) -> Option<u128>
    ensures number { result ≡ number_in 10 most (octet ∷ []) }
    ensures bound { IfSome result (λ n. n ≤ most) }
{
    let Some(digit) = decimal_digit(octet) else {
        return None;
    };
    let number = u128::from(digit);
    if number > most { None } else { Some(number) }
}

/// A decimal number of at most `most`: one digit or more, leading zeros allowed.
#[inline(always)]
pub fn number(word: &[u8], most: u128) -> Option<u128>
    ensures number { result ≡ number_in 10 most word.now }
    ensures bound { IfSome result (λ n. n ≤ most) }
{
    match word {
        [octet] => digit_number(*octet, most),
        _ => any_number(word, most),
    }
}

/// The same, however many digits there are.
#[inline(never)]
fn any_number(word: &[u8], most: u128) -> Option<u128>
    ensures number { result ≡ number_in 10 most word.now }
    ensures bound { IfSome result (λ n. n ≤ most) }
{
    if word.is_empty() {
        return None;
    }
    let (number, end) = decimal_run(word);
    if end < word.len() {
        return number_in(10, most, word);
    }
    if number > most { None } else { Some(number) }
}

/// The hexadecimal digit that each octet is; 255 where it is none.
const HEXADECIMAL: [u8; 256] = [
    255, 255, 255, 255, 255, 255, 255, 255, 255, 255, 255, 255, 255, 255, 255, 255, 255, 255, 255,
    255, 255, 255, 255, 255, 255, 255, 255, 255, 255, 255, 255, 255, 255, 255, 255, 255, 255, 255,
    255, 255, 255, 255, 255, 255, 255, 255, 255, 255, 0, 1, 2, 3, 4, 5, 6, 7, 8, 9, 255, 255, 255,
    255, 255, 255, 255, 10, 11, 12, 13, 14, 15, 255, 255, 255, 255, 255, 255, 255, 255, 255, 255,
    255, 255, 255, 255, 255, 255, 255, 255, 255, 255, 255, 255, 255, 255, 255, 255, 10, 11, 12, 13,
    14, 15, 255, 255, 255, 255, 255, 255, 255, 255, 255, 255, 255, 255, 255, 255, 255, 255, 255,
    255, 255, 255, 255, 255, 255, 255, 255, 255, 255, 255, 255, 255, 255, 255, 255, 255, 255, 255,
    255, 255, 255, 255, 255, 255, 255, 255, 255, 255, 255, 255, 255, 255, 255, 255, 255, 255, 255,
    255, 255, 255, 255, 255, 255, 255, 255, 255, 255, 255, 255, 255, 255, 255, 255, 255, 255, 255,
    255, 255, 255, 255, 255, 255, 255, 255, 255, 255, 255, 255, 255, 255, 255, 255, 255, 255, 255,
    255, 255, 255, 255, 255, 255, 255, 255, 255, 255, 255, 255, 255, 255, 255, 255, 255, 255, 255,
    255, 255, 255, 255, 255, 255, 255, 255, 255, 255, 255, 255, 255, 255, 255, 255, 255, 255, 255,
    255, 255, 255, 255, 255, 255, 255, 255, 255, 255, 255, 255, 255, 255, 255, 255, 255, 255, 255,
    255, 255, 255,
];

/// The hexadecimal digit that an octet is, looked up. It is above a space, so that no other test is wanted.
#[inline(always)]
pub(crate) fn hex_digit(octet: u8) -> Option<u8>
    ensures digit { IfSome result (λ d. digit_in 16 octet ≡ Some d) }
    ensures bound { IfSome result (λ d. d < 16) }
    ensures dark { IfSome result (λ _. 32 < octet) }
{
    let digit = HEXADECIMAL[usize::from(octet)];
    if digit > 15 {
        return None;
    }
    Some(digit)
}

/// How many hexadecimal digits surely make a number of 64 bits.
const HEX_DIGITS: usize = 16;

/// The number that the hexadecimal digits at the front of octets are, as far as they surely fit 64 bits, and how many
/// these are.
fn hex_run(octets: &[u8]) -> (u64, usize)
    ensures within { result.1 ≤ length octets.now }
    ensures value { value_behind 16 0 (take result.1 octets.now) ≡ Some result.0 }
{
    let stop = octets.len().min(HEX_DIGITS);
    let mut number = 0u64;
    let mut end = 0;
    while end < stop {
        let Some(digit) = digit_in(16, octets[end]) else {
            return (number, end);
        };
        number = number * 16 + u64::from(digit);
        end += 1;
    }
    (number, end)
}

/// A hexadecimal number of at most `most`: one digit or more, of either case, with no prefix.
pub fn hex_number(word: &[u8], most: u128) -> Option<u128>
    ensures number { result ≡ number_in 16 most word.now }
    ensures bound { IfSome result (λ n. n ≤ most) }
{
    if word.is_empty() {
        return None;
    }
    let (number, end) = hex_run(word);
    if end < word.len() {
        return number_in(16, most, word);
    }
    let number = u128::from(number);
    if number > most { None } else { Some(number) }
}

fn is_digit(octet: u8) -> bool
    ensures { result ≡ is_digit octet }
{
    b'0' <= octet && octet <= b'9'
}

fn all_digits(word: &[u8]) -> bool
    ensures { result ≡ list_all is_digit word.now }
{
    word.iter().all(|octet| is_digit(*octet))
}

/// Whether a word has one octet or more, all of them decimal digits.
pub fn is_digits(word: &[u8]) -> bool
    ensures { result ≡ is_digits word.now }
{
    !word.is_empty() && all_digits(word)
}
