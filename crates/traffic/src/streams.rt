//! A table of streams becomes a script.

ghost use Rattle.std.specs.Prelude.{◌≡◌, ◌≤◌, All, IfSome};
ghost use Rattle.traffic.specs.Words.{AreCounted, IsKept, Runs, crowded, greatest_moment, judged, outcome_among, outcome_by_lines, outcome_of, plan_frames, script_left};

use crate::faults::{StreamsFault, StreamsInput, table_fault};
use crate::frame_count::FrameCount;
use crate::kept::{KeptStreams, turns_of};
use crate::merge::write_merged;
use crate::plan::Plan;
use crate::room::script_room;
use crate::table::Stream;
use crate::table_reader::read_table;
use crate::tournament::tournament;
use script::{Watch, limit_fault};
use std::alloc::Allocator;
use std::io::Read;
use text::line_reader::{Limit, LineReader};
use text::octet_writer::PutLine;

/// The fault of a table whose frames have no room in a script.
fn crowded(counted: FrameCount) -> StreamsFault
    ensures { result ≡ crowded counted }
{
    let fault = limit_fault(Limit::TooManyLines);
    StreamsFault::Input(StreamsInput::Table(counted.crowded_line(), fault))
}

/// Writes the frames of streams that are read among the lines of a script, if the frames have room in a script; else
/// nothing is written.
fn write_streams_read<A: Allocator, B: Allocator + Clone, R: Read + Drop, W: PutLine, H: Watch>(
    alloc: &B,
    plan: &Plan,
    streams: &[Stream],
    counted: FrameCount,
    script: &mut LineReader<R, A>,
    writer: &mut W,
    watch: &mut H,
) -> Result<(), StreamsFault>
    requires from { plan.now.from ≤ greatest_moment }
    requires kept { All (IsKept (judged plan.now)) streams.now }
    requires counted { AreCounted counted (plan_frames plan.now streams.now) }
    ensures { IfSome (script_left R.remaining script.old)
        (λ script. Runs result (W.contents writer.old) (W.contents writer.new)
        (outcome_among counted (plan_frames plan.now streams.now) script)) }
{
    let mut turns = turns_of(alloc, plan, streams)?;
    let mut uncounted = turns.to_vec(alloc)?;
    let uncounted = uncounted.as_mut_slice();
    let Some(room) = script_room(alloc, uncounted, counted)? else {
        return Err(crowded(counted));
    };
    let turns = turns.as_mut_slice();
    let mut nodes = tournament(alloc, turns)?;
    write_merged(
        alloc,
        script,
        turns,
        nodes.as_mut_slice(),
        uncounted,
        room,
        writer,
        watch,
    )
}

/// Reads the lines of a table that are to come, and writes the frames of its streams among the lines of a script.
fn write_table<
    A: Allocator,
    B: Allocator + Clone,
    R: Read + Drop,
    S: Read + Drop,
    W: PutLine,
    H: Watch,
>(
    alloc: &B,
    table: &mut LineReader<R, A>,
    script: &mut LineReader<S, A>,
    writer: &mut W,
    plan: Plan,
    watch: &mut H,
) -> Result<(), StreamsFault>
    requires { plan.from ≤ greatest_moment }
    ensures { IfSome (script_left R.remaining table.old)
        (λ table. IfSome (script_left S.remaining script.old) (λ script.
        Runs result (W.contents writer.old) (W.contents writer.new)
        (outcome_by_lines plan table script))) }
{
    let mut kept = KeptStreams::new(alloc, plan);
    match read_table(table, &mut kept, watch) {
        Ok(counted) => {
            write_streams_read(alloc, &plan, kept.streams(), counted, script, writer, watch)
        }
        Err(fault) => Err(table_fault(fault)),
    }
}

/// Reads a table of streams to its end, and then writes a script that has the frames of all of them: each after a clock
/// line of its moment, which stands once, by rising moment, and at one moment in the order of the table. Among them it
/// puts in the lines of another script, each at its moment and before the frames of that moment; where that script has
/// no octets there are the frames alone. `plan` says from which moment offsets count, and when frames come that may come
/// at several moments.
///
/// A malformed line of the table is the fault, and nothing is written; so it is where the frames take more lines than a
/// script may have, at the line with which there are more than 2,000,000 of them. What the lines of the script say is
/// no matter, but that a good clock line sets the moment of the lines from it on; one that passes a limit is the fault,
/// once what comes before it is written, and so is one that has no room beside the lines that the frames alone take.
/// What is kept is the table, twice; no memory grows with how many frames come, nor with the script. A read or a write
/// that fails, or takes nothing, isn't tried again. Who watches is called for each stream, for a malformed line of the
/// table, and for each line of the script.
pub fn write_streams<A: Allocator, R: Read + Drop, S: Read + Drop, W: PutLine, H: Watch>(
    alloc: A,
    table: R,
    script: S,
    writer: &mut W,
    plan: Plan,
    watch: &mut H,
) -> Result<(), StreamsFault>
    requires { plan.from ≤ greatest_moment }
    ensures { IfSome (R.remaining table)
        (λ table. IfSome (S.remaining script) (λ script.
        Runs result (W.contents writer.old) (W.contents writer.new)
        (outcome_of plan table script))) }
{
    let mut table = LineReader::new(&alloc, table)?;
    let mut script = LineReader::new(&alloc, script)?;
    write_table(&&alloc, &mut table, &mut script, writer, plan, watch)
}
