//! Runs a script, and writes the table of its frames.

ghost use Rattle.std.specs.Prelude.{◌≡◌, ◌<◌, ◌≤◌, ℕ, Err, IfSome, List, None, OnOk, Result, map};
ghost use Rattle.job.specs.declared.halt.Halt.TheVariants as Halts;
ghost use Rattle.script.specs.Alerts.{Alerting, alerts_of, refused_alert};
ghost use Rattle.script.specs.Told.{told_to};
ghost use Rattle.frame_table.specs.Words.{Arrive, Asks, Clock, Command, IsAfter, IsReader, IsSoundPort, IsWatchedFrames, Runs, RunsOut, TcFault, WatchedRun, Writes, alerts_from, comes, ending_alerts, ending_text, first_came, frames_by, frames_of, goes, greatest_moment, judged_rows, left_row, left_rows, request_alerts, responses_to, rows_at, rows_told, rows_text, run_of_halt, script_left, sent_row, settled, table_from, tc_request, waiting_in, with_head, words_of};

use crate::arrivals::Arrivals;
use crate::rows::{Arrival, Fate, FrameRow, put_head, put_row};
use crate::streams::Streams;
use crate::tabled::Tabled;
use abstract_port::separation::settling;
use abstract_port::{Event, Start};
use job::{Halt, halted};
use port_text::answer_text::WriteFault;
use port_text::tc_reader::CommandPlace;
use script::{Failure, RunFault, RunningPort, Settings, Watch, read_tc_into, tell_command, walk};
use std::alloc::Allocator;
use std::io::{Read, Write};
use text::line_reader::LineReader;
use wire_time::{CLASSES, Frame, MAX_MOMENT};

/// A frame of a class, if it is one, waits from now on.
fn put_waiting<A: Allocator + Clone>(
    arrivals: &mut Arrivals<A>,
    class: u8,
    arrival: Arrival,
) -> Result<(), Halt>
    ensures waits { OnOk result (arrivals.new ≡ comes class arrival arrivals.old) }
    ensures memory { result ≡ Err Halts.Write → ⊥ }
{
    match arrivals.put(class, arrival) {
        Ok(()) => Ok(()),
        Err(_) => Err(Halt::Memory),
    }
}

/// Takes a frame that comes: it waits from now on, or it is dropped, and its row is written.
fn take_frame<A: Allocator + Clone, B: Allocator, W: Write, H: Watch>(
    port: &mut RunningPort<A>,
    arrivals: &mut Arrivals<A>,
    frame: &Frame,
    streams: &Option<Streams<B>>,
    writer: &mut W,
    watch: &mut H,
) -> Result<(), Halt>
    ensures text { Runs (run_of_halt result) (W.contents writer.old) (W.contents writer.new)
        (rows_told streams.now (Arrive frame.now) port.old.port arrivals.old) }
    ensures alerts { Alerting H.alerted
        (request_alerts streams.now
        (Asks (Arrive frame.now)) port.old.port arrivals.old) result watch.old watch.new }
    ensures after { IsAfter
        (Arrive frame.now) result port.old.port arrivals.old port.new.port arrivals.new }
{
    let now = port.now();
    let arrival = Arrival {
        id: frame.id,
        len: frame.len,
        at: now,
    };
    let class = port.class_for(frame.priority);
    let verdict = port.arrive(*frame);
    match verdict {
        Ok(joined) => {
            watch.frame_came(now);
            put_waiting(arrivals, joined, arrival)
        }
        Err(why) => {
            watch.frame_dropped(now, frame, why);
            let fate = Fate::Lost(why);
            halted(put_row(
                streams,
                writer,
                &FrameRow {
                    arrival,
                    class,
                    fate,
                },
                watch,
            ))
        }
    }
}

/// Writes the row of a frame that starts: the first of its class that waits.
fn put_sent<A: Allocator, B: Allocator, W: Write, H: Watch>(
    arrivals: &mut Arrivals<A>,
    start: &Start,
    streams: &Option<Streams<B>>,
    writer: &mut W,
    watch: &mut H,
) -> Result<(), WriteFault>
    ensures text { Writes result (W.contents writer.old) (W.contents writer.new)
        (rows_text streams.now (sent_row start.now (first_came start.now.class arrivals.old))) }
    ensures alerts { Alerting H.alerted
        (judged_rows streams.now
        (sent_row start.now (first_came start.now.class arrivals.old))) result watch.old watch.new }
    ensures waiting { arrivals.new ≡ goes start.now.class arrivals.old }
{
    match arrivals.take(start.class) {
        None => Ok(()),
        Some(arrival) => put_row(
            streams,
            writer,
            &FrameRow {
                arrival,
                class: Some(start.class),
                fate: Fate::Sent(*start),
            },
            watch,
        ),
    }
}

/// Runs to a moment that is not refused, in picoseconds, and writes the rows of the starts before it as the port finds
/// them.
fn take_starts<A: Allocator, B: Allocator, W: Write, H: Watch>(
    port: &mut RunningPort<A>,
    arrivals: &mut Arrivals<A>,
    until: u128,
    streams: &Option<Streams<B>>,
    writer: &mut W,
    watch: &mut H,
) -> Result<(), WriteFault>
    requires later { port.old.port.now ≤ until }
    requires within { until ≤ greatest_moment }
    ensures text { Writes result (W.contents writer.old) (W.contents writer.new)
        (rows_text streams.now (rows_at (Clock until) port.old.port arrivals.old).0) }
    ensures alerts { Alerting H.alerted
        (judged_rows streams.now
        (rows_at (Clock until) port.old.port arrivals.old).0) result watch.old watch.new }
    ensures after { IsAfter
        (Clock until) result port.old.port arrivals.old port.new.port arrivals.new }
{
    // For the prover: a call on a port says what holds of every port.
    let _now = port.now();
    while let Some(start) = port.step(until) {
        put_sent(arrivals, &start, streams, writer, watch)?;
    }
    Ok(())
}

/// Takes a clock event, with its moment in picoseconds. Where the clock would go back, nothing happens.
fn take_clock<A: Allocator, B: Allocator, W: Write, H: Watch>(
    port: &mut RunningPort<A>,
    arrivals: &mut Arrivals<A>,
    until: u128,
    streams: &Option<Streams<B>>,
    writer: &mut W,
    watch: &mut H,
) -> Result<(), WriteFault>
    ensures text { Writes result (W.contents writer.old) (W.contents writer.new)
        (rows_text streams.now (rows_at (Clock until) port.old.port arrivals.old).0) }
    ensures alerts { Alerting H.alerted
        (judged_rows streams.now
        (rows_at (Clock until) port.old.port arrivals.old).0) result watch.old watch.new }
    ensures after { IsAfter
        (Clock until) result port.old.port arrivals.old port.new.port arrivals.new }
{
    if port.now() <= until && until <= MAX_MOMENT {
        take_starts(port, arrivals, until, streams, writer, watch)
    } else {
        Ok(())
    }
}

/// Takes an event, and writes the rows of the frames whose fate it decides. Who watches is called where a frame is dropped
/// or a command refused, and for each row whose stream has a deadline. At a fault a prefix of the rows is written.
pub(crate) fn take_event<A: Allocator + Clone, B: Allocator, W: Write, H: Watch>(
    port: &mut RunningPort<A>,
    arrivals: &mut Arrivals<A>,
    event: &Event<'_>,
    streams: &Option<Streams<B>>,
    writer: &mut W,
    watch: &mut H,
) -> Result<(), Halt>
    ensures text { Runs (run_of_halt result) (W.contents writer.old) (W.contents writer.new)
        (rows_told streams.now event.now port.old.port arrivals.old) }
    ensures alerts { Alerting H.alerted
        (request_alerts streams.now
        (Asks event.now) port.old.port arrivals.old) result watch.old watch.new }
    ensures after { IsAfter event.now result port.old.port arrivals.old port.new.port arrivals.new }
{
    // For the prover: a call on a port says what holds of every port.
    let _now = port.now();
    match event {
        Event::Arrive(frame) => take_frame(port, arrivals, frame, streams, writer, watch),
        Event::Clock(until) => halted(take_clock(port, arrivals, *until, streams, writer, watch)),
        Event::Install(command) => {
            let answer = port.install(command);
            tell_command(watch, 0, b"", answer);
            Ok(())
        }
        Event::Query => Ok(()),
        Event::Count(_) => Ok(()),
    }
}

/// Gives the port the command that the line of this number is, which begins with `tc`, if it is one. Who watches is
/// called for it. The command is read into a place that is kept from line to line.
pub(crate) fn take_tc<A: Allocator, H: Watch>(
    place: &mut CommandPlace,
    port: &mut RunningPort<A>,
    number: u32,
    line: &[u8],
    watch: &mut H,
)
    ensures port { (read : List (List ℕ) → Result Command TcFault) → IsReader read →
        port.new.port
        ≡ settled (responses_to (tc_request (read (words_of line.now))) port.old.port).1 }
    ensures sound { IsSoundPort port.new.port }
    ensures alerts { (read : List (List ℕ) → Result Command TcFault) → IsReader read →
        H.alerted
        (alerts_of
        (told_to (tc_request (read (words_of line.now))) port.old.port)) watch.old watch.new }
{
    // For the prover: a call on a port says what holds of every port.
    let _now = port.now();
    read_tc_into(line, place);
    match &place.answer {
        Err(fault) => watch.command_failed(number, line, Failure::Malformed(*fault)),
        Ok(command) => {
            let answer = port.install(command);
            tell_command(watch, number, line, answer);
        }
    }
}

/// Writes the rows of the frames of a class that still wait.
fn put_left_in<A: Allocator, B: Allocator, W: Write, H: Watch>(
    arrivals: &Arrivals<A>,
    class: u8,
    streams: &Option<Streams<B>>,
    writer: &mut W,
    watch: &mut H,
) -> Result<(), WriteFault>
    requires { class < CLASSES }
    ensures text { Writes result (W.contents writer.old) (W.contents writer.new)
        (rows_text streams.now (map (left_row class) (waiting_in arrivals.now class))) }
    ensures alerts { Alerting H.alerted
        (judged_rows streams.now
        (map (left_row class) (waiting_in arrivals.now class))) result watch.old watch.new }
{
    for place in 0..arrivals.len(class) {
        let arrival = arrivals.get(class, place);
        put_row(
            streams,
            writer,
            &FrameRow {
                arrival,
                class: Some(class),
                fate: Fate::Left,
            },
            watch,
        )?;
    }
    Ok(())
}

/// Writes the rows of the frames that still wait, class by class.
pub(crate) fn put_all_left<A: Allocator, B: Allocator, W: Write, H: Watch>(
    arrivals: &Arrivals<A>,
    streams: &Option<Streams<B>>,
    writer: &mut W,
    watch: &mut H,
) -> Result<(), WriteFault>
    ensures text { Writes result (W.contents writer.old) (W.contents writer.new)
        (rows_text streams.now (left_rows arrivals.now)) }
    ensures alerts { Alerting H.alerted
        (judged_rows streams.now (left_rows arrivals.now)) result watch.old watch.new }
{
    for class in 0..CLASSES as u8 {
        put_left_in(arrivals, class, streams, writer, watch)?;
    }
    Ok(())
}

/// Runs to the moment after the input, if there is one, and writes the rows that end the table.
pub(crate) fn put_end<A: Allocator, B: Allocator, W: Write, H: Watch>(
    port: &mut RunningPort<A>,
    arrivals: &mut Arrivals<A>,
    until: Option<u128>,
    streams: &Option<Streams<B>>,
    writer: &mut W,
    watch: &mut H,
) -> Result<(), WriteFault>
    ensures text { Writes result (W.contents writer.old) (W.contents writer.new)
        (ending_text streams.now until port.old.port arrivals.old) }
    ensures alerts { Alerting H.alerted
        (ending_alerts streams.now until port.old.port arrivals.old) result watch.old watch.new }
{
    match until {
        None => put_all_left(arrivals, streams, writer, watch),
        Some(moment) => {
            take_clock(port, arrivals, moment, streams, writer, watch)?;
            put_all_left(arrivals, streams, writer, watch)
        }
    }
}

/// Writes the table of the lines that are to come, to the end of the run.
fn put_lines<A: Allocator + Clone, B: Allocator, C: Allocator, R: Read + Drop, W: Write, H: Watch>(
    tabled: &mut Tabled<'_, A, C>,
    lines: &mut LineReader<R, B>,
    until: Option<u128>,
    writer: &mut W,
    watch: &mut H,
) -> Result<(), RunFault>
    ensures table { (read : List (List ℕ) → Result Command TcFault) → IsReader read →
        IfSome (script_left R.remaining lines.old)
        (λ script. RunsOut result (W.contents writer.old) (W.contents writer.new)
        (table_from tabled.old.streams.now read until script tabled.old.port.port
        tabled.old.arrivals)) }
    ensures alerts { (read : List (List ℕ) → Result Command TcFault) → IsReader read →
        IfSome (script_left R.remaining lines.old)
        (λ script. WatchedRun H.alerted
        (alerts_from tabled.old.streams.now read until script tabled.old.port.port
        tabled.old.arrivals) result watch.old watch.new) }
{
    settling();
    // For the prover: a call on a port says what holds of every port.
    let _now = tabled.port.now();
    walk(tabled, lines, writer, watch)?;
    let streams = tabled.streams;
    put_end(
        &mut tabled.port,
        &mut tabled.arrivals,
        until,
        streams,
        writer,
        watch,
    )?;
    Ok(())
}

/// Writes the head of the table, and then the table of the lines that are to come.
fn put_table<A: Allocator + Clone, B: Allocator, C: Allocator, R: Read + Drop, W: Write, H: Watch>(
    tabled: &mut Tabled<'_, A, C>,
    lines: &mut LineReader<R, B>,
    until: Option<u128>,
    writer: &mut W,
    watch: &mut H,
) -> Result<(), RunFault>
    ensures table { (read : List (List ℕ) → Result Command TcFault) → IsReader read →
        IfSome (script_left R.remaining lines.old)
        (λ script. RunsOut result (W.contents writer.old) (W.contents writer.new)
        (with_head tabled.old.streams.now
        (table_from tabled.old.streams.now read until script tabled.old.port.port tabled.old.arrivals))) }
    ensures alerts { (read : List (List ℕ) → Result Command TcFault) → IsReader read →
        IfSome (script_left R.remaining lines.old)
        (λ script. WatchedRun H.alerted
        (alerts_from tabled.old.streams.now read until script tabled.old.port.port tabled.old.arrivals) result
        watch.old watch.new) }
{
    put_head(tabled.streams, writer)?;
    put_lines(tabled, lines, until, writer, watch)
}

/// Reads a script to its end, and writes a table of its frames, with a column of the streams where they are given.
pub(crate) fn run_with<A: Allocator, B: Allocator, R: Read + Drop, W: Write, H: Watch>(
    alloc: A,
    streams: &Option<Streams<B>>,
    reader: R,
    writer: &mut W,
    settings: Settings,
    watch: &mut H,
) -> Result<(), RunFault>
    ensures table { (read : List (List ℕ) → Result Command TcFault) → IsReader read →
        IfSome (R.remaining reader)
        (λ input. RunsOut result (W.contents writer.old) (W.contents writer.new)
        (frames_by streams.now read settings input)) }
    ensures watched { IsWatchedFrames H.alerted streams.now settings
        (R.remaining reader) result watch.old watch.new }
{
    let rate = settings.rate();
    // For the prover: the getter says within which limits a rate lies.
    let _ps = rate.ps_per_octet();
    let mtu = settings.mtu();
    let Ok(port) = RunningPort::new(&alloc, rate, mtu, settings.room()) else {
        return Err(RunFault::Memory);
    };
    let Ok(arrivals) = Arrivals::new(&&alloc) else {
        return Err(RunFault::Memory);
    };
    let mut tabled = Tabled {
        port,
        arrivals,
        streams,
    };
    let mut lines = LineReader::new(&alloc, reader)?;
    put_table(&mut tabled, &mut lines, settings.until(), writer, watch)
}

/// Reads a script to its end, and writes a table of its frames: a head, and a row for each frame as soon as its fate is
/// known. A frame that is dropped has its row when it comes, one that starts when it starts, and one that still waits
/// at the end of the run after all others.
///
/// A malformed line ends the run after the rows of the lines before it; what waits then has no row. What was written is
/// let out before more input is waited for. A read or a write that fails, or takes nothing, isn't tried again. Of the
/// frames only those that wait are kept. Who watches is called for a malformed line, for one that is skipped, for each
/// that begins with `tc` and changes nothing, and for each frame that is dropped.
pub fn run_frames<A: Allocator, R: Read + Drop, W: Write, H: Watch>(
    alloc: A,
    reader: R,
    writer: &mut W,
    settings: Settings,
    watch: &mut H,
) -> Result<(), RunFault>
    ensures table { (read : List (List ℕ) → Result Command TcFault) → IsReader read →
        IfSome (R.remaining reader)
        (λ input. RunsOut result (W.contents writer.old) (W.contents writer.new)
        (frames_of read settings input)) }
    ensures watched { IsWatchedFrames H.alerted None settings
        (R.remaining reader) result watch.old watch.new }
{
    let none: Option<Streams<A>> = None;
    run_with(alloc, &none, reader, writer, settings, watch)
}
