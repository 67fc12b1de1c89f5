//! Numbers that are read and put by what is kept of those before. The moments of a port never go back, and no two frames
//! start at one, so no script shows these.

use std::process::Abort;
use text::decimal_text::NearNumbers;
use text::words::front_number;
use wire_time::MAX_MOMENT;

/// Puts two numbers that are near, one behind the other, and compares them with a text.
fn assert_put(rt: &impl Abort, numbers: &mut NearNumbers, first: u128, second: u128, text: &[u8]) {
    assert!(rt; numbers.take(first, second));
    let mut line = [0u8; 64];
    let middle = numbers.put_first(&mut line, 0);
    let end = numbers.put_second(&mut line, middle);
    assert!(rt; &line[..end] == text);
}

/// Two with the same front, two that begin where the last did, and two that go back to another front.
#[test]
fn near_numbers_keep_nothing_that_is_past(rt: HostRuntime) {
    let mut numbers = NearNumbers::new();
    for (first, second, text) in [
        (300_000_000, 300_672_000, b"300000000300672000"),
        (300_000_000, 301_344_000, b"300000000301344000"),
        (150_000_000, 150_672_000, b"150000000150672000"),
    ] {
        assert_put(&rt, &mut numbers, first, second, text);
    }
}

/// A number has its own digits, and as many are expected from then on, however many were before.
#[test]
fn a_number_is_read_by_its_own_digits(rt: HostRuntime) {
    let line = b"1234 0 60\nframe 1235 0 60\nframe 1236 0 60\n".as_slice();
    for before in 0..20 {
        let mut expected = before;
        let read = front_number(line, MAX_MOMENT, &mut expected);
        assert!(rt; read == Some((1234, &line[4..])), "{before} expected");
        assert_eq!(rt; expected, 4);
    }
}
