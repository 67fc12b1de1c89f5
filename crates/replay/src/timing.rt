//! What the time stamps of both captures of a replay say.

ghost use Rattle.std.specs.Prelude.{◌≡◌};
ghost use Rattle.script.specs.Given.{octets_of};
ghost use Rattle.replay.specs.Timing.{timing_by, timing_given, timing_text};
ghost use Rattle.replay.specs.Words.{IsTold};

use crate::shifts::{Shift, shift_in};
use crate::stamps::{Stamp, stamp_given};
use job::Ended;
use port_text::answer_text::put;
use std::io::Write;

/// What the time stamps of both captures of a replay say.
#[derive(Clone, Copy, Debug, PartialEq, Eq)]
pub struct Timing {
    /// Which moment of a frame on the wire the record of its departure carries.
    pub stamp: Stamp,
    /// By how much the moment of each record of the capture is moved before the record is answered, where it is.
    pub shift: Option<Shift>,
}

/// Which word that says it is bad.
#[derive(Clone, Copy, Debug, PartialEq, Eq)]
pub enum BadTiming {
    /// That of the stamp, which comes first.
    Stamp,
    /// That of the shift.
    Shift,
}

/// With this stamp, and with the shift of a word, where one is given.
fn timing_by(stamp: Stamp, shift: Option<&str>) -> Result<Timing, BadTiming>
    ensures { result ≡ timing_by stamp (octets_of shift.entry) }
{
    let Some(word) = shift else {
        return Ok(Timing { stamp, shift: None });
    };
    match shift_in(word.as_bytes()) {
        None => Err(BadTiming::Shift),
        Some(shift) => Ok(Timing {
            stamp,
            shift: Some(shift),
        }),
    }
}

/// What words say of the time stamps: a stamp is `start` or `end`, and `start` where none is given; a shift is
/// picoseconds, or a number with its unit, at most `CAPTURE_END` of them, with `-` in front for earlier.
pub fn timing_given(stamp: Option<&str>, shift: Option<&str>) -> Result<Timing, BadTiming>
    ensures { result ≡ timing_given (octets_of stamp.entry) (octets_of shift.entry) }
{
    let Some(stamp) = stamp_given(stamp) else {
        return Err(BadTiming::Stamp);
    };
    timing_by(stamp, shift)
}

/// The text of a word that is bad.
fn timing_text(bad: BadTiming) -> &'static [u8]
    ensures { result.now ≡ timing_text bad }
{
    match bad {
        BadTiming::Stamp => b"taprio_port: bad value of --stamp\n",
        BadTiming::Shift => b"taprio_port: bad value of --shift\n",
    }
}

/// Writes the text of a word that is bad. The exit status that goes with it is 2, also where that write fails.
pub fn say_timing<W: Write>(bad: BadTiming, writer: &mut W) -> Ended
    ensures status { result.status ≡ 2 }
    ensures told { IsTold result.told (W.contents writer.old) (W.contents writer.new)
        (timing_text bad) }
{
    let told = put(writer, timing_text(bad)).is_ok();
    Ended { status: 2, told }
}
