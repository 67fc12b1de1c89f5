//! What a port answers to the lines of a script, written as it comes.

ghost use Rattle.std.specs.Prelude.{ℕ, List, Option, Result, [], ◌≡◌, ◌<◌, ◌≤◌, length, OnOk};
ghost use Rattle.script.specs.Alerts.{Alerting, alerts_from, alerts_of, left_alert};
ghost use Rattle.script.specs.Told.{told_to};
ghost use Rattle.script.specs.Words.{queue_of, IsSoundPort, Command, Writes, HasFewVisits, IsAnswered, Asks, tc_request, left_lines, left_text, IsReader, TcFault, greatest_moment, words_of, Observed};
ghost use Rattle.abstract_port.specs.declared.Event.TheVariants as Events;

use crate::script_line::read_tc_into;
use crate::watch::{Failure, Watch, tell_command};
use abstract_port::{Command, Event};
use jumping::Jumping;
use port::Port;
use port_text::answer_text::{
    NearNumbers, WriteFault, put, put_arrival, put_counters, put_installation, put_left,
    put_report, put_start, put_tc_fault,
};
use port_text::tc_reader::{CommandPlace, TcFault};
use std::alloc::Allocator;
use std::io::Write;
use summary::{Summary, note_installation, note_start, note_verdict};
use text::octet_writer::PutLine;
use wire_time::{CLASSES, Frame, MAX_MOMENT};

/// The port that runs. Another implementation of the gates takes the place of this one here.
pub type RunningPort<A> = Port<Jumping, A>;

/// Takes a frame that arrives, and writes the answer. Who watches is called where it is queued, and where it is dropped.
#[inline(always)]
fn put_frame<A: Allocator, W: PutLine, H: Watch>(
    port: &mut RunningPort<A>,
    summary: &mut Option<Summary<A>>,
    frame: &Frame,
    writer: &mut W,
    watch: &mut H,
) -> Result<(), WriteFault>
    ensures answered { IsAnswered (Asks (Events.Arrive frame.now)) result (W.contents writer.old)
        (W.contents writer.new) port.old port.new summary.old summary.new }
    ensures alerts { H.alerted
        (alerts_of (told_to (Asks (Events.Arrive frame.now)) port.old.port)) watch.old watch.new }
{
    let now = port.now();
    match port.arrive(*frame) {
        Ok(class) => {
            watch.frame_came(now);
            note_verdict(summary, now, frame, Ok(class));
            put_arrival(writer, frame, Ok(class))
        }
        Err(why) => {
            watch.frame_dropped(now, frame, why);
            note_verdict(summary, now, frame, Err(why));
            put_arrival(writer, frame, Err(why))
        }
    }
}

/// Runs to a moment that is not refused, in picoseconds, and writes the starts before it as the port finds them. The
/// digits of their moments are kept for the next.
fn put_each_start<A: Allocator, W: PutLine>(
    port: &mut RunningPort<A>,
    summary: &mut Option<Summary<A>>,
    until: u128,
    moments: &mut NearNumbers,
    writer: &mut W,
) -> Result<(), WriteFault>
    requires later { port.old.port.now ≤ until }
    requires within { until ≤ greatest_moment }
    ensures { IsAnswered (Asks (Events.Clock until)) result (W.contents writer.old)
        (W.contents writer.new) port.old port.new summary.old summary.new }
{
    let now = port.now();
    while let Some(start) = port.step(until) {
        note_start(summary, now, &start);
        put_start(writer, moments, &start)?;
    }
    Ok(())
}

/// Gives the command of the line of this number to the port, and writes the answer, noted where a summary is wanted. Who
/// watches is called for it.
fn put_install<A: Allocator, W: PutLine, H: Watch>(
    port: &mut RunningPort<A>,
    summary: &mut Option<Summary<A>>,
    number: u32,
    line: &[u8],
    command: &Command,
    writer: &mut W,
    watch: &mut H,
) -> Result<(), WriteFault>
    ensures answered { IsAnswered (Asks (Events.Install command.entry)) result (W.contents writer.old)
        (W.contents writer.new) port.old port.new summary.old summary.new }
    ensures alerts { H.alerted
        (alerts_of (told_to (Asks (Events.Install command.entry)) port.old.port)) watch.old watch.new }
{
    let now = port.now();
    let answer = port.install(command);
    note_installation(summary, now, answer);
    tell_command(watch, number, line, answer);
    put_installation(writer, answer)
}

/// Takes a clock event, with its moment in picoseconds, and writes the answers to it.
#[inline(always)]
pub(crate) fn put_clock<A: Allocator, W: PutLine>(
    port: &mut RunningPort<A>,
    summary: &mut Option<Summary<A>>,
    until: u128,
    moments: &mut NearNumbers,
    writer: &mut W,
) -> Result<(), WriteFault>
    ensures { IsAnswered (Asks (Events.Clock until)) result (W.contents writer.old)
        (W.contents writer.new) port.old port.new summary.old summary.new }
{
    if port.now() <= until && until <= MAX_MOMENT {
        put_each_start(port, summary, until, moments, writer)
    } else {
        put(writer, b"backward\n")
    }
}

/// Writes what the port shows and has. Nothing is seen of that.
#[inline(never)]
fn put_query<A: Allocator, W: PutLine>(
    port: &mut RunningPort<A>,
    writer: &mut W,
) -> Result<(), WriteFault>
    ensures { (seen : Option Observed) →
        IsAnswered (Asks Events.Query) result (W.contents writer.old)
        (W.contents writer.new) port.old port.new seen seen }
{
    // For the prover: a call on a port says what holds of every port.
    let _now = port.now();
    put_report(writer, &port.report())
}

/// Writes what a class has counted, if it is one. Nothing is seen of that.
#[inline(never)]
fn put_count<A: Allocator, W: PutLine>(
    port: &RunningPort<A>,
    class: u8,
    writer: &mut W,
) -> Result<(), WriteFault>
    ensures { (seen : Option Observed) →
        IsAnswered (Asks (Events.Count class)) result (W.contents writer.old)
        (W.contents writer.new) port.now port.now seen seen }
{
    // For the prover: a call on a port says what holds of every port.
    let _now = port.now();
    if class >= CLASSES as u8 {
        return Ok(());
    }
    put_counters(writer, class, &port.counters(class))
}

/// Takes an event, and writes the answers to it as they come, each noted where a summary is wanted. At a fault a prefix
/// of them is written. The digits of the moments of the last start are kept from event to event. Who watches is called
/// for each frame that comes, and for each command.
#[inline(always)]
pub fn put_answers<A: Allocator, W: PutLine, H: Watch>(
    moments: &mut NearNumbers,
    port: &mut RunningPort<A>,
    summary: &mut Option<Summary<A>>,
    event: &Event<'_>,
    writer: &mut W,
    watch: &mut H,
) -> Result<(), WriteFault>
    ensures answered { IsAnswered (Asks event.now) result (W.contents writer.old)
        (W.contents writer.new) port.old port.new summary.old summary.new }
    ensures alerts { H.alerted
        (alerts_of (told_to (Asks event.now) port.old.port)) watch.old watch.new }
{
    match event {
        Event::Arrive(frame) => put_frame(port, summary, frame, writer, watch),
        Event::Clock(until) => put_clock(port, summary, *until, moments, writer),
        Event::Query => put_query(port, writer),
        Event::Count(class) => put_count(port, *class, writer),
        Event::Install(command) => put_install(port, summary, 0, b"", command, writer, watch),
    }
}

/// Gives the command that the line of this number is to the port and writes its answer, or writes why there is none.
fn put_command<A: Allocator, W: PutLine, H: Watch>(
    port: &mut RunningPort<A>,
    summary: &mut Option<Summary<A>>,
    number: u32,
    line: &[u8],
    read: &Result<Command, TcFault>,
    writer: &mut W,
    watch: &mut H,
) -> Result<(), WriteFault>
    ensures answered { IsAnswered (tc_request read.now) result (W.contents writer.old)
        (W.contents writer.new) port.old port.new summary.old summary.new }
    ensures alerts { H.alerted
        (alerts_of (told_to (tc_request read.now) port.old.port)) watch.old watch.new }
{
    // For the prover: a call on a port says what holds of every port.
    let _now = port.now();
    match read {
        Ok(command) => put_install(port, summary, number, line, command, writer, watch),
        Err(fault) => {
            watch.command_failed(number, line, Failure::Malformed(*fault));
            put_tc_fault(writer, *fault)
        }
    }
}

/// Takes a line that begins with `tc`, with its number, and writes what is reported of it. At a fault a prefix of that
/// is written. Who watches is called where the line changes nothing. The command is read into a place that is kept from
/// line to line.
#[inline(never)]
pub fn put_tc<A: Allocator, W: PutLine, H: Watch>(
    place: &mut CommandPlace,
    port: &mut RunningPort<A>,
    summary: &mut Option<Summary<A>>,
    number: u32,
    line: &[u8],
    writer: &mut W,
    watch: &mut H,
) -> Result<(), WriteFault>
    ensures answered { (read : List (List ℕ) → Result Command TcFault) → IsReader read →
        IsAnswered (tc_request (read (words_of line.now))) result (W.contents writer.old)
        (W.contents writer.new) port.old port.new summary.old summary.new }
    ensures alerts { (read : List (List ℕ) → Result Command TcFault) → IsReader read →
        H.alerted
        (alerts_of
        (told_to (tc_request (read (words_of line.now))) port.old.port)) watch.old watch.new }
    ensures sound { OnOk result (IsSoundPort port.new.port) }
    ensures few { HasFewVisits port.old.port port.old port.new }
{
    read_tc_into(line, place);
    put_command(port, summary, number, line, &place.answer, writer, watch)
}

/// Calls who watches where frames of a class were queued.
fn tell_used<A: Allocator, H: Watch>(port: &RunningPort<A>, class: u8, watch: &mut H)
    requires { class < CLASSES }
    ensures { H.alerted [] watch.old watch.new }
{
    if port.counters(class).accepted > 0 {
        watch.class_used(class);
    }
}

/// Writes how many frames a class still has, where it has some, and calls who watches there, and where any were queued.
fn put_left_in<A: Allocator, W: Write, H: Watch>(
    port: &RunningPort<A>,
    class: u8,
    writer: &mut W,
    watch: &mut H,
) -> Result<(), WriteFault>
    requires { class < CLASSES }
    ensures text { Writes result (W.contents writer.old) (W.contents writer.new)
        (left_text class (length (queue_of port.now.port class))) }
    ensures alerts { H.alerted
        (left_alert class (length (queue_of port.now.port class))) watch.old watch.new }
{
    tell_used(port, class, watch);
    let waiting = port.counters(class).waiting;
    if waiting == 0 {
        Ok(())
    } else {
        watch.frames_left(class, waiting);
        put_left(writer, class, waiting)
    }
}

/// Writes how many frames each class still has, where it has some, and calls who watches there.
pub(crate) fn put_all_left<A: Allocator, W: Write, H: Watch>(
    port: &RunningPort<A>,
    writer: &mut W,
    watch: &mut H,
) -> Result<(), WriteFault>
    ensures text { Writes result (W.contents writer.old) (W.contents writer.new)
        (left_lines port.now.port) }
    ensures alerts { Alerting H.alerted (alerts_from 8 0 port.now.port) result watch.old watch.new }
{
    for class in 0..CLASSES as u8 {
        put_left_in(port, class, writer, watch)?;
    }
    Ok(())
}
