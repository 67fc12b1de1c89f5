//! Sums that stay within their range.

/// How often one number goes into another; 0 by 0.
pub(crate) fn over(number: u64, by: u64) -> u64 {
    if by == 0 { 0 } else { number / by }
}

/// What is left behind whole times of another; 0 by 0.
pub(crate) fn rest(number: u64, by: u64) -> u64 {
    if by == 0 { 0 } else { number % by }
}

/// How often it goes into another, rounded up.
pub(crate) fn over_up(number: u64, by: u64) -> u64 {
    let left = rest(number, by);
    let whole = over(number, by);
    if left == 0 {
        whole
    } else {
        whole.saturating_add(1)
    }
}

/// The same of times in picoseconds.
pub(crate) fn over_ps(number: u128, by: u128) -> u128 {
    if by == 0 { 0 } else { number / by }
}

/// What is left of a time in picoseconds.
pub(crate) fn rest_ps(number: u128, by: u128) -> u128 {
    if by == 0 { 0 } else { number % by }
}

/// Whole nanoseconds of a time in picoseconds.
pub(crate) fn ns_down(time: u128) -> u64 {
    let ns = (time / 1000).min(u128::from(u64::MAX));
    ns as u64
}

/// Whole nanoseconds, rounded up.
pub(crate) fn ns_up(time: u128) -> u64 {
    ns_down(time.saturating_add(999))
}

/// A time in nanoseconds, in picoseconds.
pub(crate) fn ps(time: u64) -> u128 {
    u128::from(time) * 1000
}

/// The greatest number that divides both; one of them where the other is 0.
pub(crate) fn divisor(first: u128, second: u128) -> u128 {
    let mut greater = first;
    let mut lesser = second;
    for _step in 0..256 {
        if lesser == 0 {
            return greater;
        }
        let left = greater % lesser;
        greater = lesser;
        lesser = left;
    }
    greater
}

/// The least number that both divide, if it has 128 bits.
pub(crate) fn multiple(first: u128, second: u128) -> Option<u128> {
    over_ps(first, divisor(first, second)).checked_mul(second)
}
