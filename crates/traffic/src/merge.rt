//! The lines of a script among the frames of streams, each at its moment.

ghost use Rattle.std.specs.Prelude.{◌≡◌, ◌-◌, ◌++◌, IfSome, OnOk, None};
ghost use Rattle.text.specs.declared.line_reader.lines.TheConstants.{MAX_LINES};
ghost use Rattle.traffic.specs.Words.{IsRoomLeft, IsTournament, Writes, script_left, clock_in, clock_said, frames_before, frames_from, latest, line_count, line_end, line_text, Runs, merging, passed_on, left_of_all, lines_of};

use crate::faults::{StreamsFault, script_fault};
use crate::frame_lines::{write_frames, write_frames_before};
use crate::room::{ScriptRoom, joins, limit_passed, lines_known, room_for};
use crate::tournament::Node;
use crate::turn::Turn;
use abstract_port::Event;
use port_text::answer_text::{Part, WriteFault, put_parts};
use script::{Said, Watch, read_line};
use std::alloc::Allocator;
use std::io::{Read, Write};
use text::line_reader::{LineFault, LineReader};
use text::octet_writer::PutLine;

/// The number of a clock line.
fn clock_said(said: Said) -> Option<u128>
    ensures { result ≡ clock_said said }
{
    match said {
        Said::Asked(Event::Clock(moment)) => Some(moment),
        Said::Asked(Event::Query) | Said::Asked(Event::Count(_)) => None,
        Said::Asked(Event::Arrive(_)) | Said::Asked(Event::Install(_)) => None,
        Said::Tc => None,
    }
}

/// The number of a line, where it is a good clock line of a script.
fn clock_in(line: &[u8]) -> Option<u128>
    ensures { result ≡ clock_in line.now }
{
    match read_line(line) {
        Ok(Some(said)) => clock_said(said),
        Ok(None) => None,
        Err(_) => None,
    }
}

/// The greater of two numbers that may be there.
fn latest(clock: Option<u128>, number: Option<u128>) -> Option<u128>
    ensures { result ≡ latest clock number }
{
    match (clock, number) {
        (None, number) => number,
        (Some(clock), None) => Some(clock),
        (Some(clock), Some(number)) => Some(clock.max(number)),
    }
}

/// What comes after a line: a line feed, and before it a blank where it would join the next line.
fn line_end(line: &[u8]) -> &'static [u8]
    ensures { result.now ≡ line_end line.now }
{
    if joins(line) { b" \n" } else { b"\n" }
}

/// Writes a line as it is passed on.
fn put_line<W: Write>(writer: &mut W, line: &[u8]) -> Result<(), WriteFault>
    ensures { Writes result (W.contents writer.old) (W.contents writer.new) (line_text line.now) }
{
    put_parts(writer, &[Part::Text(line), Part::Text(line_end(line))])
}

/// Writes a line, and before it the frames that come before a moment.
fn put_at<W: PutLine>(
    writer: &mut W,
    turns: &mut [Turn],
    nodes: &mut [Node],
    written: Option<u128>,
    moment: u128,
    line: &[u8],
) -> Result<(), WriteFault>
    requires tournament { IsTournament turns.old nodes.old }
    ensures tournament { IsTournament turns.new nodes.new }
    ensures lines { Writes result (W.contents writer.old) (W.contents writer.new)
        (lines_of written (frames_before moment (left_of_all turns.old)) ++ line_text line.now) }
    ensures left { OnOk result
        (left_of_all turns.new ≡ frames_from moment (left_of_all turns.old)) }
{
    write_frames_before(writer, turns, nodes, written, moment)?;
    put_line(writer, line)
}

/// Writes the lines of a script that are to come among the frames of streams that are to come: before each line the
/// frames before its moment, which is the greatest number of the clock lines up to it, its own included, and 0 before
/// the first. No line is kept.
///
/// `room` is for how many physical lines of the script there is room beside the frames, which `streams` has once more.
/// A line that passes a limit, or has no room, is the fault, once what comes before it is written. Who watches is
/// called for each line.
pub(crate) fn write_merged<
    A: Allocator,
    B: Allocator + Clone,
    R: Read + Drop,
    W: PutLine,
    H: Watch,
>(
    alloc: &B,
    lines: &mut LineReader<R, A>,
    turns: &mut [Turn],
    nodes: &mut [Node],
    streams: &mut [Turn],
    room: ScriptRoom,
    writer: &mut W,
    watch: &mut H,
) -> Result<(), StreamsFault>
    requires tournament { IsTournament turns.old nodes.old }
    requires room { IsRoomLeft room (left_of_all streams.old) (left_of_all turns.old) }
    ensures { IfSome (script_left R.remaining lines.old)
        (λ script. Runs result (W.contents writer.old) (W.contents writer.new)
        (merging None (passed_on (MAX_LINES - line_count None (left_of_all turns.old)) script)
        (left_of_all turns.old))) }
{
    let mut room = room;
    let mut clock = None;
    'lines: loop {
        let more = match lines.advance() {
            Ok(more) => more,
            Err(fault) => return Err(script_fault(fault)),
        };
        if !more {
            break;
        }
        let line = lines.line();
        let number = lines.line_number();
        room = room_for(alloc, streams, room, number, line)?;
        if let Some(limit) = limit_passed(lines_known(room), number, line) {
            return Err(script_fault(LineFault::Limit(number, limit)));
        }
        watch.line_passed(number, line);
        let now = latest(clock, clock_in(line));
        put_at(writer, turns, nodes, clock, now.unwrap_or(0), line)?;
        clock = now;
    }
    write_frames(writer, turns, nodes, clock)?;
    Ok(())
}
