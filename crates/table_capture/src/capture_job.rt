//! A table of streams becomes a capture.

ghost use Rattle.std.specs.Prelude.{◌≡◌, ◌≤◌, All, IfOk, IfSome, replicate};
ghost use Rattle.text.specs.Buffered.{writer_contents};
ghost use Rattle.table_capture.specs.Words.{AreCarried, IsCaptureEnding, IsKept, IsRoom, IsTournament, IsWatchedEnding, IsWatchedRun, Runs, WatchedRun, carried, crowded, greatest_moment, left_of_all, outcome_by_lines, outcome_counted, outcome_of, plan_frames, script_left, stream_alert, table_alerts, whole_capture};

use crate::kept::CarriedStreams;
use crate::records::put_capture;
use capture::MAX_RECORD_OCTETS;
use job::{Ended, Errors, end_run};
use script::{Watch, limit_fault};
use std::alloc::{AllocError, Allocator};
use std::io::{Read, Write};
use text::line_reader::{Limit, LineReader};
use text::octet_writer::{BufWriter, PutLine};
use traffic::{
    FrameCount, Node, Plan, Stream, StreamsFault, StreamsInput, Turn, read_table, table_fault,
    tournament_of, turns_of,
};

/// The fault of a table with too many frames.
fn crowded(counted: FrameCount) -> StreamsFault
    ensures { result ≡ crowded counted }
{
    let fault = limit_fault(Limit::TooManyLines);
    StreamsFault::Input(StreamsInput::Table(counted.crowded_line(), fault))
}

/// So many octets, all zero.
fn zeros<A: Allocator>(alloc: A, count: usize) -> Result<Vec<u8, A>, AllocError>
    ensures { IfOk result (λ octets. octets.items ≡ replicate count 0) }
{
    match vec![in alloc; 0u8; count] {
        Ok(octets) => Ok(octets),
        Err(error) => Err(error),
    }
}

/// The streams of a table of which no frame has come.
fn carried_turns<A: Allocator>(
    alloc: A,
    plan: &Plan,
    streams: &[Stream],
) -> Result<Vec<Turn, A>, AllocError>
    requires from { plan.now.from ≤ greatest_moment }
    requires kept { All (IsKept (carried plan.now)) streams.now }
    ensures left { IfOk result
        (λ turns. left_of_all turns.items ≡ plan_frames plan.now streams.now) }
    ensures carried { IfOk result (λ turns. AreCarried (left_of_all turns.items)) }
{
    match turns_of(alloc, plan, streams) {
        Ok(turns) => Ok(turns),
        Err(error) => Err(error),
    }
}

/// Writes a capture of the frames of streams that are to come.
fn write_turns<W: PutLine>(
    writer: &mut W,
    room: &mut [u8],
    turns: &mut [Turn],
    nodes: &mut [Node],
) -> Result<(), StreamsFault>
    requires room { IsRoom room.old }
    requires tournament { IsTournament turns.old nodes.old }
    requires carried { AreCarried (left_of_all turns.old) }
    ensures { Runs result (W.contents writer.old) (W.contents writer.new)
        (whole_capture (left_of_all turns.old)) }
{
    match put_capture(writer, room, turns, nodes) {
        Ok(()) => Ok(()),
        Err(_) => Err(StreamsFault::Write),
    }
}

/// Writes a capture of the frames of streams.
fn write_streams<B: Allocator, W: PutLine>(
    alloc: &B,
    plan: &Plan,
    streams: &[Stream],
    writer: &mut W,
) -> Result<(), StreamsFault>
    requires from { plan.now.from ≤ greatest_moment }
    requires kept { All (IsKept (carried plan.now)) streams.now }
    ensures { Runs result (W.contents writer.old) (W.contents writer.new)
        (whole_capture (plan_frames plan.now streams.now)) }
{
    let mut turns = carried_turns(alloc, plan, streams)?;
    let turns = turns.as_mut_slice();
    let mut nodes = tournament_of(alloc, turns)?;
    let mut room = zeros(alloc, MAX_RECORD_OCTETS as usize)?;
    write_turns(writer, room.as_mut_slice(), turns, nodes.as_mut_slice())
}

/// Writes a capture of the frames of streams that are read, if they are few; else nothing is written.
fn write_counted<B: Allocator, W: PutLine>(
    alloc: &B,
    plan: &Plan,
    streams: &[Stream],
    counted: FrameCount,
    writer: &mut W,
) -> Result<(), StreamsFault>
    requires from { plan.now.from ≤ greatest_moment }
    requires kept { All (IsKept (carried plan.now)) streams.now }
    ensures { Runs result (W.contents writer.old) (W.contents writer.new)
        (outcome_counted counted (plan_frames plan.now streams.now)) }
{
    match counted {
        FrameCount::Few(_) => write_streams(alloc, plan, streams, writer),
        FrameCount::Many(_) => Err(crowded(counted)),
    }
}

/// Reads the lines of a table that are to come, and writes a capture of the frames of its streams.
fn write_table<A: Allocator, B: Allocator, R: Read + Drop, W: PutLine, H: Watch>(
    alloc: &B,
    table: &mut LineReader<R, A>,
    writer: &mut W,
    plan: Plan,
    watch: &mut H,
) -> Result<(), StreamsFault>
    requires { plan.from ≤ greatest_moment }
    ensures written { IfSome (script_left R.remaining table.old)
        (λ lines. Runs result (W.contents writer.old) (W.contents writer.new)
        (outcome_by_lines plan lines)) }
    ensures watched { IfSome (script_left R.remaining table.old)
        (λ lines. WatchedRun H.alerted (table_alerts stream_alert (carried plan) lines)
        result watch.old watch.new) }
{
    let mut kept = CarriedStreams::new(alloc, plan);
    match read_table(table, &mut kept, watch) {
        Ok(counted) => write_counted(alloc, &plan, kept.streams(), counted, writer),
        Err(fault) => Err(table_fault(fault)),
    }
}

/// Reads a table of streams to its end, and then writes a capture of the frames of all of them: each once, by rising
/// moment, and at one moment in the order of the table. `plan` says from which moment offsets count, and when frames
/// come that may come at several moments.
///
/// A frame has a customer tag where its line says so, and where its priority isn't 0. Of a stream whose priority a tag
/// can't say, or whose frames are too short for their tag, the line is at fault, and so it is of one whose last frame may
/// come at a moment that no capture can say. At a malformed line of the table, and where there are more than 2,000,000
/// frames, nothing is written. What is kept is the table, twice, and room for the longest record; no memory grows with
/// how many frames come. A read or a write that fails, or takes nothing, isn't tried again. Who watches is called for
/// each stream, and for a malformed line.
pub fn write_capture<A: Allocator, R: Read + Drop, W: PutLine, H: Watch>(
    alloc: A,
    table: R,
    writer: &mut W,
    plan: Plan,
    watch: &mut H,
) -> Result<(), StreamsFault>
    requires { plan.from ≤ greatest_moment }
    ensures written { IfSome (R.remaining table)
        (λ octets. Runs result (W.contents writer.old) (W.contents writer.new)
        (outcome_of plan octets)) }
    ensures watched { IsWatchedRun H.alerted plan (R.remaining table) result watch.old watch.new }
{
    let mut table = LineReader::new(&alloc, table)?;
    write_table(&&alloc, &mut table, writer, plan, watch)
}

/// Writes a capture of the frames of the table of streams that `reader` gives through `capture`, with the text of a
/// fault on `errors`; and gives the writer of the capture back. `plan` says how the frames come. What was written is let
/// out before a fault is reported; after a failed write no other is tried.
pub fn answer_capture<A: Allocator, B: Allocator, R: Read, W: Write + Drop, E: Errors, H: Watch>(
    alloc: A,
    plan: Plan,
    reader: &mut R,
    mut capture: BufWriter<W, B>,
    errors: &mut E,
    watch: &mut H,
) -> (Ended, W)
    requires { plan.from ≤ greatest_moment }
    ensures ending { IsCaptureEnding plan (R.remaining reader.old) result.0
        (writer_contents W.contents capture) (W.contents result.1) (E.contents errors.old)
        (E.contents errors.new) }
    ensures watched { IsWatchedEnding H.alerted plan (R.remaining reader.old) result.0
        watch.old watch.new }
{
    let run = write_capture(alloc, reader, &mut capture, plan, watch);
    end_run(run, capture, errors)
}
