//! The lines of answers.

ghost use Rattle.abstract_port.specs.Answers.{arrival_answer, command_answer};
ghost use Rattle.port_text.specs.AnswerLines.{queued_line, dropped_line, installed_line, refused_line, start_line, count_line, left_line, answer_lines, tc_fault_line};
ghost use Rattle.text.specs.Writes.{Writes};

use crate::answer_text::event_lines::{
    DroppedLine, InstalledLine, QueuedLine, StartLine, UsualStartLine,
};
use crate::answer_text::names::{
    refused_name, refused_number, tc_fault_name, tc_fault_place, tc_fault_word,
};
use crate::answer_text::report_lines::{DroppedText, SentText, WaitingText};
use crate::answer_text::reports::put_report;
use crate::answer_text::text_writer::{Part, put_parts};
use crate::tc_reader::TcFault;
use abstract_port::{Answer, Counters, Dropped, Refused, Start};
use std::io::Write;
use text::decimal_text::{EIGHT_DIGITS, NearNumbers};
use text::octet_writer::{PutLine, WriteFault, put};
use wire_time::Frame;

fn put_queued<W: PutLine>(writer: &mut W, id: u64, class: u8) -> Result<(), WriteFault>
    ensures { Writes result (W.contents writer.old) (W.contents writer.new) (queued_line id class) }
{
    writer.put_line(&QueuedLine { id, class })
}

fn put_dropped<W: PutLine>(writer: &mut W, id: u64, why: Dropped) -> Result<(), WriteFault>
    ensures { Writes result (W.contents writer.old) (W.contents writer.new) (dropped_line id why) }
{
    writer.put_line(&DroppedLine { id, why })
}

/// Writes the line of a frame that arrived: its class, or why it was dropped. At a fault a prefix of it is written.
pub fn put_arrival<W: PutLine>(
    writer: &mut W,
    frame: &Frame,
    verdict: Result<u8, Dropped>,
) -> Result<(), WriteFault>
    ensures { Writes result (W.contents writer.old) (W.contents writer.new)
        (answer_lines (arrival_answer frame.now verdict)) }
{
    match verdict {
        Ok(class) => put_queued(writer, frame.id, class),
        Err(why) => put_dropped(writer, frame.id, why),
    }
}

fn put_installed<W: PutLine>(writer: &mut W, change: u128) -> Result<(), WriteFault>
    ensures { Writes result (W.contents writer.old) (W.contents writer.new)
        (installed_line change) }
{
    writer.put_line(&InstalledLine { change })
}

/// Writes the line of a command that is refused, and why. At a fault a prefix of it is written.
pub fn put_refused<W: Write>(writer: &mut W, why: Refused) -> Result<(), WriteFault>
    ensures { Writes result (W.contents writer.old) (W.contents writer.new) (refused_line why) }
{
    let name = refused_name(why);
    match refused_number(why) {
        Some(number) => put_parts(
            writer,
            &[
                Part::Text(b"refused "),
                Part::Text(name),
                Part::Text(b" "),
                Part::Number(number),
                Part::Text(b"\n"),
            ],
        ),
        None => put_parts(
            writer,
            &[Part::Text(b"refused "), Part::Text(name), Part::Text(b"\n")],
        ),
    }
}

/// Writes the line of a command: the moment at which it comes into force, in picoseconds, or why it is refused. At a
/// fault a prefix of it is written.
pub fn put_installation<W: PutLine>(
    writer: &mut W,
    answer: Result<u128, Refused>,
) -> Result<(), WriteFault>
    ensures { Writes result (W.contents writer.old) (W.contents writer.new)
        (answer_lines (command_answer answer)) }
{
    match answer {
        Ok(change) => put_installed(writer, change),
        Err(why) => put_refused(writer, why),
    }
}

/// The line of any frame that starts. It has a copy of its own, so that what starts mostly stays in registers.
#[cold]
#[inline(never)]
fn put_any_start<W: PutLine>(writer: &mut W, start: Start) -> Result<(), WriteFault>
    ensures { Writes result (W.contents writer.old) (W.contents writer.new) (start_line start) }
{
    writer.put_line(&StartLine { start: &start })
}

/// Writes the line of a frame that starts, and keeps the digits of its moments for the next. At a fault a prefix of the
/// line is written.
#[inline(always)]
pub fn put_start<W: PutLine>(
    writer: &mut W,
    moments: &mut NearNumbers,
    start: &Start,
) -> Result<(), WriteFault>
    ensures { Writes result (W.contents writer.old) (W.contents writer.new) (start_line start.now) }
{
    if start.id >= EIGHT_DIGITS || start.class >= 10 || !moments.take(start.at, start.end) {
        return put_any_start(writer, *start);
    }
    writer.put_line(&UsualStartLine { start, moments })
}

/// Writes the line of what a class has counted: frames, and the octets of those that started. At a fault a prefix of
/// it is written.
pub fn put_counters<W: PutLine>(
    writer: &mut W,
    class: u8,
    counters: &Counters,
) -> Result<(), WriteFault>
    ensures { Writes result (W.contents writer.old) (W.contents writer.new)
        (count_line class counters.now) }
{
    writer.put_line(&SentText { class, counters })?;
    writer.put_line(&DroppedText { counters })?;
    writer.put_line(&WaitingText { counters })
}

/// Writes the lines of an answer. At a fault a prefix of them is written.
pub fn put_answer<W: PutLine>(writer: &mut W, answer: &Answer) -> Result<(), WriteFault>
    ensures { Writes result (W.contents writer.old) (W.contents writer.new)
        (answer_lines answer.now) }
{
    match answer {
        Answer::Queued { id, class } => put_queued(writer, *id, *class),
        Answer::Dropped { id, why } => put_dropped(writer, *id, *why),
        Answer::Installed(change) => put_installed(writer, *change),
        Answer::Refused(why) => put_refused(writer, *why),
        Answer::Start(start) => put_any_start(writer, *start),
        Answer::Backward => put(writer, b"backward\n"),
        Answer::Report(report) => put_report(writer, report),
        Answer::Counters { class, counters } => put_counters(writer, *class, counters),
        Answer::BadClass => Ok(()),
    }
}

/// Writes the line that says how many frames a class still has at the end. At a fault a prefix of it is written.
pub fn put_left<W: Write>(writer: &mut W, class: u8, frames: u64) -> Result<(), WriteFault>
    ensures { Writes result (W.contents writer.old) (W.contents writer.new)
        (left_line class frames) }
{
    put_parts(
        writer,
        &[
            Part::Text(b"left class "),
            Part::Number(u128::from(class)),
            Part::Text(b" frames "),
            Part::Number(u128::from(frames)),
            Part::Text(b"\n"),
        ],
    )
}

/// Writes the line of a tc line that is no command. At a fault a prefix of it is written.
pub fn put_tc_fault<W: Write>(writer: &mut W, fault: TcFault) -> Result<(), WriteFault>
    ensures { Writes result (W.contents writer.old) (W.contents writer.new) (tc_fault_line fault) }
{
    let name = tc_fault_name(fault);
    match (tc_fault_word(fault), tc_fault_place(fault)) {
        (Some(word), _) => put_parts(
            writer,
            &[
                Part::Text(b"tc-fault "),
                Part::Text(name),
                Part::Text(b" "),
                Part::Text(word),
                Part::Text(b"\n"),
            ],
        ),
        (None, Some(place)) => put_parts(
            writer,
            &[
                Part::Text(b"tc-fault "),
                Part::Text(name),
                Part::Text(b" "),
                Part::Number(place),
                Part::Text(b"\n"),
            ],
        ),
        (None, None) => put_parts(
            writer,
            &[
                Part::Text(b"tc-fault "),
                Part::Text(name),
                Part::Text(b"\n"),
            ],
        ),
    }
}
