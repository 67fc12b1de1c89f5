//! A time that is added to the moment of each record of a capture, or taken from it.

ghost use Rattle.std.specs.Prelude.{◌≡◌, ◌≤◌, IfSome};
ghost use Rattle.capture.specs.declared.writer.TheConstants.{CAPTURE_END};
ghost use Rattle.replay.specs.Shifts.{moved_moment, shift_by, shift_in, shifted, within};

use capture::CAPTURE_END;
use text::times::moment;

/// By how much the moments of a capture's records are moved, and which way.
#[derive(Clone, Copy, Debug, PartialEq, Eq)]
pub struct Shift {
    /// Whether they come earlier by it, and not later.
    pub earlier: bool,
    /// A time in picoseconds.
    pub by: u128,
}

/// A moment that a capture can say, or the first that it can't, in picoseconds.
fn within(moment: u128) -> Option<u128>
    ensures moment { result ≡ within moment }
    ensures early { IfSome result (λ moved. moved ≤ CAPTURE_END) }
{
    if moment <= CAPTURE_END {
        Some(moment)
    } else {
        None
    }
}

/// A moment in picoseconds, moved: None before moment 0, and past `CAPTURE_END`.
fn shifted(shift: Shift, moment: u128) -> Option<u128>
    ensures moment { result ≡ shifted shift moment }
    ensures early { IfSome result (λ moved. moved ≤ CAPTURE_END) }
{
    if shift.earlier {
        if moment < shift.by {
            return None;
        }
        return within(moment - shift.by);
    }
    let Some(later) = moment.checked_add(shift.by) else {
        return None;
    };
    within(later)
}

/// A moment in picoseconds, moved where that is asked: None before moment 0, and past `CAPTURE_END`.
#[inline(always)]
pub(crate) fn moved_moment(shift: Option<Shift>, moment: u128) -> Option<u128>
    ensures moment { result ≡ moved_moment shift moment }
    ensures early { moment ≤ CAPTURE_END → IfSome result (λ moved. moved ≤ CAPTURE_END) }
{
    match shift {
        None => Some(moment),
        Some(shift) => shifted(shift, moment),
    }
}

/// By so much, which is a word, earlier or later.
fn shift_by(earlier: bool, word: &[u8]) -> Option<Shift>
    ensures { result ≡ shift_by earlier word.now }
{
    match moment(word, CAPTURE_END) {
        None => None,
        Some(by) => Some(Shift { earlier, by }),
    }
}

/// The shift of a word, if it is one: at most `CAPTURE_END` picoseconds, or a number with its unit, with `-` in front
/// for earlier.
pub(crate) fn shift_in(word: &[u8]) -> Option<Shift>
    ensures { result ≡ shift_in word.now }
{
    match word {
        [b'-', ..] => shift_by(true, &word[1..]),
        _ => shift_by(false, word),
    }
}
