//! The table of the frames of a script with the stream of each, by a table of streams.

ghost use Rattle.std.specs.Prelude.{◌≡◌, ℕ, IfSome, List, Result};
ghost use Rattle.frame_table.specs.Words.{Command, IsReader, IsWatchedByStream, RunsOut, TcFault, WatchedRun, alerts_in, frames_alerts, frames_by, frames_by_stream, frames_in, ids_table, of_script, script_input, script_left, script_run};

use crate::streams::Streams;
use crate::table_run::run_with;
use job::Fault;
use script::{BadLine, RunFault, Settings, Watch};
use std::alloc::Allocator;
use std::io::{Read, Write};
use text::line_reader::LineReader;
use traffic::{StreamsFault, StreamsInput, read_table, table_fault};

/// The fault of a line of the script, where there are two inputs.
fn script_input(bad: BadLine) -> StreamsInput
    ensures { result ≡ script_input bad }
{
    StreamsInput::Script(bad.line, bad.fault)
}

/// How a run on a script ended, where there are two inputs.
fn script_run(run: Result<(), RunFault>) -> Result<(), StreamsFault>
    ensures { result ≡ script_run run }
{
    match run {
        Ok(()) => Ok(()),
        Err(Fault::Input(bad)) => Err(Fault::Input(script_input(bad))),
        Err(Fault::Read) => Err(Fault::Read),
        Err(Fault::Write) => Err(Fault::Write),
        Err(Fault::Memory) => Err(Fault::Memory),
    }
}

/// Writes the table of the frames with the streams that are given.
fn put_with<A: Allocator, B: Allocator, R: Read + Drop, W: Write, H: Watch>(
    alloc: A,
    streams: &Option<Streams<B>>,
    reader: R,
    writer: &mut W,
    settings: Settings,
    watch: &mut H,
) -> Result<(), StreamsFault>
    ensures table { (read : List (List ℕ) → Result Command TcFault) → IsReader read →
        IfSome (R.remaining reader)
        (λ input. RunsOut result (W.contents writer.old) (W.contents writer.new)
        (of_script (frames_by streams.now read settings input))) }
    ensures alerts { (read : List (List ℕ) → Result Command TcFault) → IsReader read →
        IfSome (R.remaining reader)
        (λ input. WatchedRun H.alerted
        (frames_alerts streams.now read settings input) result watch.old watch.new) }
{
    let run = run_with(alloc, streams, reader, writer, settings, watch);
    script_run(run)
}

/// Reads the lines of a table of streams that are to come, and writes the table of the frames.
fn put_by_stream<A: Allocator, B: Allocator, R: Read + Drop, S: Read + Drop, W: Write, H: Watch>(
    alloc: &A,
    table: &mut LineReader<S, B>,
    reader: R,
    writer: &mut W,
    settings: Settings,
    watch: &mut H,
) -> Result<(), StreamsFault>
    ensures table { (read : List (List ℕ) → Result Command TcFault) → IsReader read →
        IfSome (script_left S.remaining table.old)
        (λ streams. IfSome (R.remaining reader) (λ input.
        RunsOut result (W.contents writer.old) (W.contents writer.new)
        (frames_in (ids_table streams) read settings input))) }
    ensures alerts { (read : List (List ℕ) → Result Command TcFault) → IsReader read →
        IfSome (script_left S.remaining table.old)
        (λ streams. IfSome (R.remaining reader) (λ input.
        WatchedRun H.alerted (alerts_in streams read settings input) result watch.old watch.new)) }
{
    let mut streams = Streams::new(alloc);
    match read_table(table, &mut streams, watch) {
        Ok(_) => put_with(alloc, &Some(streams), reader, writer, settings, watch),
        Err(fault) => Err(table_fault(fault)),
    }
}

/// Reads a table of streams to its end, and then a script, and writes the same table of its frames as `run_frames`,
/// with a column behind the others: the stream that a frame is of, named by its first ID. A stream has as many IDs as
/// frames, from its first one on; where more than one has an ID, the first of the table has it. Where none has it, the
/// field is empty.
///
/// Where a stream of the table has a deadline, one column more says whether the frame is in time for that of its
/// stream: `met` where it was sent, and its end came at most so long after its arrival; `missed` where it came later, or
/// the frame was dropped. Of a frame that is left the field is empty, and so it is where its stream has no deadline.
///
/// A malformed line of the table of streams is the fault, and nothing is written. What is kept is that table, and the
/// frames that wait. Who watches is called for each stream, and for each frame whose stream has a deadline, behind its
/// row: whether it is in time. Else it is as with `run_frames`.
pub fn run_frames_by_stream<A: Allocator, R: Read + Drop, S: Read + Drop, W: Write, H: Watch>(
    alloc: A,
    table: S,
    reader: R,
    writer: &mut W,
    settings: Settings,
    watch: &mut H,
) -> Result<(), StreamsFault>
    ensures table { (read : List (List ℕ) → Result Command TcFault) → IsReader read →
        IfSome (S.remaining table)
        (λ streams. IfSome (R.remaining reader) (λ input.
        RunsOut result (W.contents writer.old) (W.contents writer.new)
        (frames_by_stream read settings streams input))) }
    ensures watched { IsWatchedByStream H.alerted settings (S.remaining table)
        (R.remaining reader) result watch.old watch.new }
{
    let mut lines = LineReader::new(&alloc, table)?;
    put_by_stream(&alloc, &mut lines, reader, writer, settings, watch)
}
