//! What the lines of a script say that runs beside a capture.

ghost use Rattle.std.specs.Prelude.{◌≡◌, IfOk, IfSome};
ghost use Rattle.replay.specs.Words.{words_of, IsEarly, begins_with_frame, line_in, line_said};

use abstract_port::Event;
use capture::CAPTURE_END;
use script::{Said, ScriptFault, read_line};
use text::words::Words;

/// What a line says.
#[derive(Clone, Copy, Debug, PartialEq, Eq)]
pub(crate) enum Line {
    /// The clock goes on to this moment, in picoseconds, at most `CAPTURE_END`.
    Clock(u128),
    /// A report is asked for.
    Query,
    /// The counters of this class are asked for.
    Count(u8),
    /// The line begins with `tc`.
    Tc,
}

/// Whether the first word of a line is `frame`.
fn begins_with_frame(line: &[u8]) -> bool
    ensures { result ≡ begins_with_frame (words_of line.now) }
{
    let mut words = Words::new(line);
    match words.next_word() {
        None => false,
        Some(first) => first == b"frame".as_slice(),
    }
}

/// What is said, where it is no frame, nor a moment that a capture can't say.
fn line_said(said: Said) -> Result<Line, ScriptFault>
    ensures says { result ≡ line_said said }
    ensures early { IfOk result IsEarly }
{
    match said {
        Said::Asked(Event::Clock(moment)) => {
            if moment > CAPTURE_END {
                Err(ScriptFault::ClockTooLate)
            } else {
                Ok(Line::Clock(moment))
            }
        }
        Said::Asked(Event::Query) => Ok(Line::Query),
        Said::Asked(Event::Count(class)) => Ok(Line::Count(class)),
        Said::Asked(Event::Arrive(_)) | Said::Asked(Event::Install(_)) => Err(
            ScriptFault::FrameInReplay,
        ),
        Said::Tc => Ok(Line::Tc),
    }
}

/// What a line says, or None where it is skipped: it has no words, or is a comment.
pub(crate) fn read_line_beside(octets: &[u8]) -> Result<Option<Line>, ScriptFault>
    ensures says { result ≡ line_in octets.now }
    ensures early { IfOk result (λ o. IfSome o IsEarly) }
{
    if begins_with_frame(octets) {
        return Err(ScriptFault::FrameInReplay);
    }
    match read_line(octets)? {
        None => Ok(None),
        Some(said) => Ok(Some(line_said(said)?)),
    }
}
