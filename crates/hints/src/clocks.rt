//! Frames that come before a schedule is in force: mostly the clocks of a capture and of a schedule differ.

use port_text::answer_text::{Part, WriteFault, put_parts};
use std::io::Write;
use text::octet_writer::put;

/// A second, in picoseconds.
const SECOND: u128 = 1_000_000_000_000;

/// How far TAI is ahead of UTC since 2017, in seconds (IERS Bulletin C 52).
const LEAP_SECONDS: u128 = 37;

/// A day, in seconds.
const DAY: u128 = 86_400;

/// Frames that came before a schedule was in force, with moments in picoseconds.
#[derive(Clone, Copy, Debug, PartialEq, Eq)]
pub struct Early {
    /// How many came.
    pub count: u64,
    /// When the first of them came.
    pub first: u128,
    /// From when on the schedule is in force.
    pub change: u128,
}

/// What probably stands behind it, by how far the two moments are apart.
fn reason(early: &Early) -> &'static [u8] {
    let apart = early.change.saturating_sub(early.first) / SECOND;
    if apart == LEAP_SECONDS || apart + 1 == LEAP_SECONDS {
        b"    they are 37 s apart: the capture is probably in UTC, and the base time in TAI: replay --shift 37s\n"
    } else if apart > DAY {
        b"    they are more than a day apart: the clocks count from different moments. replay --shift TIME moves the records\n"
    } else {
        b"    until then all gates are open, and the waits of these frames say nothing of the schedule\n"
    }
}

/// Writes how many frames came before the schedule was in force, and, where that is wanted, what probably stands behind
/// it.
pub fn put_early<W: Write>(writer: &mut W, early: &Early, explain: bool) -> Result<(), WriteFault> {
    put_parts(
        writer,
        &[
            Part::Text(b"taprio_port: warning: frames came before the schedule is in force: "),
            Part::Number(u128::from(early.count)),
            Part::Text(b", the first at "),
            Part::Number(early.first),
            Part::Text(b", and it is in force from "),
            Part::Number(early.change),
            Part::Text(b" on\n"),
        ],
    )?;
    if explain {
        put(writer, reason(early))?;
    }
    Ok(())
}
