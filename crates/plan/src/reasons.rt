//! Why there is no plan.

ghost use Rattle.std.specs.Prelude.{◌≡◌};
ghost use Rattle.text.specs.Writes.{Writes};
ghost use Rattle.plan.specs.Faults.{numbered, reason_text};

use paths::PathsFinding;
use port_text::answer_text::{Part, WriteFault, put_parts};
use std::io::Write;
use stream_bounds::Finding;

/// Why no schedule is found.
#[derive(Clone, Copy, Debug, PartialEq, Eq)]
pub enum Reason {
    /// The table has no stream.
    Streams,
    /// Its streams have more than eight priorities.
    Classes,
    /// Each frame of the stream with this first id is dropped, whatever the schedule.
    Dropped(u64),
    /// The streams of this class and of those above it need more time than there is.
    Overloaded(u8),
    /// No schedule that was tried meets the deadlines of the streams up to the one with this first id.
    Deadline(u64),
    /// By each schedule that was tried, frames of this class, which may have no deadlines, are lost.
    Lost(u8),
    /// A schedule would have too many entries.
    Entries,
    /// There is no cycle that fits, or too many frames come in one.
    Cycle,
}

/// Writes the line of a reason.
pub(crate) fn put_reason<W: Write>(writer: &mut W, reason: Reason) -> Result<(), WriteFault>
    ensures { Writes result (W.contents writer.old) (W.contents writer.new) (reason_text reason) }
{
    match reason {
        Reason::Streams => put_parts(writer, &[Part::Text(b"none streams\n")]),
        Reason::Classes => put_parts(writer, &[Part::Text(b"none classes\n")]),
        Reason::Dropped(id) => put_number(writer, b"none dropped ", u128::from(id)),
        Reason::Overloaded(class) => {
            put_number(writer, b"none overloaded class ", u128::from(class))
        }
        Reason::Deadline(id) => put_number(writer, b"none deadline ", u128::from(id)),
        Reason::Lost(class) => put_number(writer, b"none lost class ", u128::from(class)),
        Reason::Entries => put_parts(writer, &[Part::Text(b"none entries\n")]),
        Reason::Cycle => put_parts(writer, &[Part::Text(b"none cycle\n")]),
    }
}

/// Writes the line of a reason with a number.
fn put_number<W: Write>(writer: &mut W, text: &[u8], number: u128) -> Result<(), WriteFault>
    ensures { Writes result (W.contents writer.old) (W.contents writer.new)
        (numbered text.now number) }
{
    put_parts(
        writer,
        &[Part::Text(text), Part::Number(number), Part::Text(b"\n")],
    )
}

/// The reason of a finding.
pub(crate) fn reason_of(finding: Finding) -> Reason {
    match finding {
        Finding::Missed(id) | Finding::Unknown(id) => Reason::Deadline(id),
        Finding::Dropped(id) => Reason::Dropped(id),
        Finding::Full(class) | Finding::Stuck(class) | Finding::Overloaded(class) => {
            Reason::Lost(class)
        }
        Finding::NoStream => Reason::Streams,
        Finding::TcFault(_) | Finding::Refused(_) | Finding::NoSchedule => Reason::Cycle,
    }
}

/// The reason of a finding about a network.
pub(crate) fn reason_along(finding: PathsFinding) -> Reason {
    match finding {
        PathsFinding::Missed(id) | PathsFinding::Unknown(id) => Reason::Deadline(id),
        PathsFinding::Dropped(id) => Reason::Dropped(id),
        PathsFinding::Full(_, class)
        | PathsFinding::Stuck(_, class)
        | PathsFinding::Overloaded(_, class) => Reason::Lost(class),
        PathsFinding::NoStream => Reason::Streams,
        PathsFinding::NoSchedule => Reason::Cycle,
    }
}
