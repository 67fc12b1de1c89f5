//! Which moment of a frame on the wire the record of its departure carries.

ghost use Rattle.std.specs.Prelude.{◌≡◌, ◌<◌, ◌-◌, min};
ghost use Rattle.script.specs.Given.{octets_of};
ghost use Rattle.replay.specs.Words.{CAPTURE_END, rounded_up, stamp_given, stamped, stamping_at};

use abstract_port::Start;
use capture::CAPTURE_END;
use wire_time::Rate;

/// Which moment of a frame on the wire the record of its departure carries.
#[derive(Clone, Copy, Debug, PartialEq, Eq)]
pub enum Stamp {
    /// That at which the frame starts.
    Start,
    /// That at which its last octet has been sent: its end without the gap after it, rounded up to whole nanoseconds, so
    /// that no other port has the frame before. A moment that no capture can say is the last that one can.
    End,
}

/// How departures are stamped at a line rate.
#[derive(Clone, Copy, Debug, PartialEq, Eq)]
pub(crate) struct Stamping {
    /// Which moment their records carry.
    pub stamp: Stamp,
    /// How long the gap after a frame is, in picoseconds.
    pub gap: u128,
}

/// The octets of the gap after a frame (IEEE Std 802.3).
const GAP_OCTETS: u128 = 12;

/// How departures are stamped at this rate.
pub(crate) fn stamping_at(stamp: Stamp, rate: Rate) -> Stamping
    ensures { result ≡ stamping_at stamp rate }
{
    let gap = GAP_OCTETS * rate.ps_per_octet();
    Stamping { stamp, gap }
}

/// The moment at which the last octet of a frame has been sent, in picoseconds, rounded up to whole nanoseconds. Apart,
/// since mostly the start is asked for.
#[inline(never)]
fn last_octet(gap: u128, end: u128) -> u128
    ensures { result ≡ min (rounded_up (end - gap)) (CAPTURE_END - 1) }
{
    let last = end.saturating_sub(gap).min(CAPTURE_END);
    (1000 * ((last + 999) / 1000)).min(CAPTURE_END - 1)
}

/// The moment that the record of a start carries, in picoseconds.
pub(crate) fn stamped(stamping: Stamping, start: Start) -> u128
    requires early { start.at < CAPTURE_END }
    ensures moment { result ≡ stamped stamping start }
    ensures early { result < CAPTURE_END }
{
    match stamping.stamp {
        Stamp::Start => start.at,
        Stamp::End => last_octet(stamping.gap, start.end),
    }
}

/// The stamp of a word, `start` or `end`, if it is one; `start` where none is given.
pub(crate) fn stamp_given(word: Option<&str>) -> Option<Stamp>
    ensures { result ≡ stamp_given (octets_of word.entry) }
{
    let word = word.unwrap_or("start");
    if word == "start" {
        return Some(Stamp::Start);
    }
    if word == "end" {
        return Some(Stamp::End);
    }
    None
}
