//! The lines of a script that has the frames of streams.

ghost use Rattle.std.specs.Prelude.{◌≡◌, ◌≤◌, ◌++◌, OnOk, take};
ghost use Rattle.traffic.specs.Words.{IsTournament, Writes, clock_line, clock_to, frame_line, lines_of, frames_before, frames_from, left_of_all};

use crate::course::Coming;
use crate::tournament::Node;
use crate::turn::Turn;
use crate::turns::{next_before, next_frame};
use port_text::answer_text::WriteFault;
use text::decimal_text::{put_number, put_octet, put_short, put_text};
use text::octet_writer::{LINE_ROOM, Line, PutLine};
use wire_time::Frame;

/// The clock line of a moment.
#[derive(Clone, Copy)]
struct ClockLine {
    moment: u128,
}

impl Line for ClockLine {
    ghost text = { λ line. clock_line line.moment };

    #[inline(always)]
    fn put_into(&self, room: &mut [u8; LINE_ROOM]) -> usize {
        let at = put_text(b"clock ", room, 0);
        let at = put_number(self.moment, room, at);
        put_text(b"\n", room, at)
    }
}

/// The line of a frame.
#[derive(Clone, Copy)]
struct FrameLine<'a> {
    frame: &'a Frame,
}

impl Line for FrameLine<'_> {
    ghost text = { λ line. frame_line line.frame.now };

    #[inline(always)]
    fn put_into(&self, room: &mut [u8; LINE_ROOM]) -> usize {
        let frame = self.frame;
        let at = put_text(b"frame ", room, 0);
        let at = put_short(frame.id, room, at);
        let at = put_text(b" ", room, at);
        let at = put_octet(frame.priority, room, at);
        let at = put_text(b" ", room, at);
        let at = put_short(u64::from(frame.len), room, at);
        if frame.tagged {
            put_text(b" tagged\n", room, at)
        } else {
            put_text(b"\n", room, at)
        }
    }
}

/// Writes a clock line, unless the one of the same moment is written.
fn put_clock_to<W: PutLine>(
    writer: &mut W,
    written: Option<u128>,
    moment: u128,
) -> Result<(), WriteFault>
    ensures { Writes result (W.contents writer.old) (W.contents writer.new)
        (clock_to written moment) }
{
    if written == Some(moment) {
        return Ok(());
    }
    writer.put_line(&ClockLine { moment })
}

/// Writes the line of a frame.
fn put_frame<W: PutLine>(writer: &mut W, frame: &Frame) -> Result<(), WriteFault>
    ensures { Writes result (W.contents writer.old) (W.contents writer.new) (frame_line frame.now) }
{
    writer.put_line(&FrameLine { frame })
}

/// Writes the line of a frame, after a clock line where its moment has none yet.
fn put_coming<W: PutLine>(
    writer: &mut W,
    written: Option<u128>,
    coming: &Coming,
) -> Result<(), WriteFault>
    ensures { Writes result (W.contents writer.old) (W.contents writer.new)
        (clock_to written coming.now.moment ++ frame_line coming.now.frame) }
{
    put_clock_to(writer, written, coming.moment)?;
    put_frame(writer, &coming.frame)
}

/// Writes the frames of streams that are to come before a moment, as `write_frames` does.
pub(crate) fn write_frames_before<W: PutLine>(
    writer: &mut W,
    turns: &mut [Turn],
    nodes: &mut [Node],
    mut written: Option<u128>,
    end: u128,
) -> Result<(), WriteFault>
    requires tournament { IsTournament turns.old nodes.old }
    ensures tournament { IsTournament turns.new nodes.new }
    ensures lines { Writes result (W.contents writer.old) (W.contents writer.new)
        (lines_of written (frames_before end (left_of_all turns.old))) }
    ensures left { OnOk result (left_of_all turns.new ≡ frames_from end (left_of_all turns.old)) }
{
    while let Some(coming) = next_before(turns, nodes, end) {
        put_coming(writer, written, &coming)?;
        written = Some(coming.moment);
    }
    Ok(())
}

/// Writes the frames of streams that are to come, by moment, each as a line of a script, with a clock line before the
/// first of each moment, unless it is the moment whose clock line is written already. At a fault a prefix of it is
/// written.
pub(crate) fn write_frames<W: PutLine>(
    writer: &mut W,
    turns: &mut [Turn],
    nodes: &mut [Node],
    mut written: Option<u128>,
) -> Result<(), WriteFault>
    requires tournament { IsTournament turns.old nodes.old }
    ensures { Writes result (W.contents writer.old) (W.contents writer.new)
        (lines_of written (left_of_all turns.old)) }
{
    while let Some(coming) = next_frame(turns, nodes) {
        put_coming(writer, written, &coming)?;
        written = Some(coming.moment);
    }
    Ok(())
}
