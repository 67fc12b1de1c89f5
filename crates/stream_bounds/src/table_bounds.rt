//! A table of streams, and the lines of schedule commands one after another.

ghost use Rattle.std.specs.Prelude.{◌≡◌, All, IfSome, List, Result, ℕ};
ghost use Rattle.abstract_port.specs.declared.Command.{Command};
ghost use Rattle.job.specs.Outcome.{Runs};
ghost use Rattle.job.specs.declared.fault.Fault.TheVariants as Faults;
ghost use Rattle.text.specs.LineReader.{current_number, script_left};
ghost use Rattle.stream_bounds.specs.BoundLines.{joined};
ghost use Rattle.stream_bounds.specs.Classes.{IsPeriodic};
ghost use Rattle.stream_bounds.specs.Outcome.{AreAnswers, IsBounded, IsOutcome, begun_with, bounds_in, end_fault, found_in_all, periodic, told_if};
ghost use Rattle.stream_bounds.specs.TableRead.{IsEnd, RunsLines, may_stop};
ghost use Rattle.stream_bounds.specs.declared.faults.BoundsInput.TheVariants as Inputs;
ghost use Rattle.port_text.specs.Reader.{IsReader};
ghost use Rattle.port_text.specs.declared.tc_reader.fault.TcFault.{TcFault};
ghost use Rattle.traffic.specs.Table.{table_by};

use crate::bounds_report::put_line;
use crate::faults::{Answered, BoundsFault, BoundsInput, Finding, schedules_fault, table_fault};
use crate::settings::BoundsSettings;
use crate::stream_lines::first_of;
use crate::table::PeriodicStreams;
use schedule_check::is_command;
use script::{ScriptFault, Watch};
use std::alloc::{Allocator, Global};
use std::io::{Read, Write};
use text::line_reader::LineReader;
use traffic::{Stream, read_table};

/// A fault of the line that was read last, where this was found before.
fn fault_here<A: Allocator, R: Read + Drop>(
    lines: &LineReader<R, A>,
    found: Option<Finding>,
    fault: ScriptFault,
) -> BoundsFault
    ensures { result ≡ Faults.Input (Inputs.Schedules found (current_number lines.now) fault) }
{
    BoundsFault::Input(BoundsInput::Schedules(found, lines.line_number(), fault))
}

/// Before any schedule: a table without a stream is found.
fn begun_with(streams: &[Stream]) -> Answered
    ensures { result ≡ begun_with streams.now }
{
    match streams {
        [] => Answered {
            finding: Some(Finding::NoStream),
            judged: false,
        },
        [_, ..] => Answered {
            finding: None,
            judged: false,
        },
    }
}

/// What was answered before, and then this.
fn joined(before: Answered, then: Answered) -> Answered
    ensures { result ≡ joined before then }
{
    Answered {
        finding: first_of(before.finding, then.finding),
        judged: before.judged || then.judged,
    }
}

/// What is told of a finding, where it is asked for.
fn told_if(strict: bool, first: Option<Finding>) -> Option<Finding>
    ensures { result ≡ told_if strict first }
{
    if strict { first } else { None }
}

/// What is found first, at the end of the schedules: that none was judged comes last.
fn found_in_all(so_far: Answered) -> Option<Finding>
    ensures { result ≡ found_in_all so_far }
{
    if so_far.judged {
        first_of(so_far.finding, None)
    } else {
        first_of(so_far.finding, Some(Finding::NoSchedule))
    }
}

/// How a run ends, by what is told.
fn end(told: Option<Finding>) -> Result<(), BoundsFault>
    ensures { IsEnd result (end_fault told) }
{
    match told {
        Some(finding) => Err(BoundsFault::Input(BoundsInput::Found(finding))),
        None => Ok(()),
    }
}

/// Answers about the lines that are to come. Who watches is called for one that is no command's.
fn bound_lines<A: Allocator, R: Read + Drop, W: Write, H: Watch>(
    alloc: Global,
    lines: &mut LineReader<R, A>,
    writer: &mut W,
    settings: &BoundsSettings,
    streams: &[Stream],
    watch: &mut H,
) -> Result<(), BoundsFault>
    requires { All IsPeriodic streams.now }
    ensures { (read : List (List ℕ) → Result Command TcFault) → IsReader read →
        IfSome (script_left R.remaining lines.old)
        (λ script. RunsLines result read settings.now streams.now script (W.contents writer.old)
        (W.contents writer.new)) }
{
    let mut so_far = begun_with(streams);
    'lines: loop {
        let found = told_if(settings.strict, so_far.finding);
        let more = match lines.advance() {
            Ok(more) => more,
            Err(fault) => return Err(schedules_fault(found, fault)),
        };
        if !more {
            break;
        }
        let number = lines.line_number();
        let line = lines.line();
        match is_command(line, false) {
            Ok(false) => watch.line_skipped(number, line),
            Ok(true) => match put_line(alloc, writer, settings, streams, number, line, watch) {
                Ok(answered) => so_far = joined(so_far, answered),
                Err(fault) => return Err(fault),
            },
            Err(fault) => {
                watch.line_failed(line);
                return Err(fault_here(lines, found, fault));
            }
        }
    }
    end(told_if(settings.strict, found_in_all(so_far)))
}

/// Reads the lines of a table that are to come, and answers about the schedules.
fn bound_table<A: Allocator, R: Read + Drop, S: Read + Drop, W: Write, H: Watch>(
    alloc: Global,
    table: &mut LineReader<R, A>,
    schedules: &mut LineReader<S, A>,
    writer: &mut W,
    settings: &BoundsSettings,
    watch: &mut H,
) -> Result<(), BoundsFault>
    ensures { (read : List (List ℕ) → Result Command TcFault) → IsReader read →
        IfSome (script_left R.remaining table.old)
        (λ table. IfSome (script_left S.remaining schedules.old) (λ script.
        IsBounded (may_stop result) read settings.now (table_by periodic table) script
        (Runs result (W.contents writer.old) (W.contents writer.new)))) }
{
    let mut streams = PeriodicStreams::new(alloc);
    match read_table(table, &mut streams, watch) {
        Ok(_) => bound_lines(
            alloc,
            schedules,
            writer,
            settings,
            streams.as_slice(),
            watch,
        ),
        Err(fault) => Err(table_fault(fault)),
    }
}

/// Reads a table of streams and then schedule commands, and answers about each, judged by itself: its fault where it is
/// no command; why a new port refuses it; or `apart` with the classes that the schedule keeps apart, then the verdict
/// about each class that has streams, and then the delay of each stream, for ever, with whether its deadline is met.
/// How many frames of a stream the table says is no matter: each goes on for ever, and its offset counts from the
/// change moment of the schedule.
///
/// A malformed line of the table is the fault, and nothing is written. Lines of the schedules without words and
/// comments are skipped; any other that isn't a command is an `UnknownLine`, which ends the call after what is answered
/// about the lines before it. A strict run answers the same; its fault is the first finding, behind which a line's
/// fault stands, and one is that no schedule was judged, or no stream is in the table. What is kept is the table,
/// and for each class the bounds of its streams and as many moments as there is room for. A read or a write that fails,
/// or takes nothing, isn't tried again. Who watches is called for a line of either input that ends the run.
pub fn bounds<R: Read + Drop, S: Read + Drop, W: Write, H: Watch>(
    alloc: Global,
    table: R,
    schedules: S,
    writer: &mut W,
    settings: BoundsSettings,
    watch: &mut H,
) -> Result<(), BoundsFault>
    ensures { (read : List (List ℕ) → Result Command TcFault) → IsReader read
        → IfSome (R.remaining table) (λ table. IfSome (S.remaining schedules) (λ schedules.
        IsOutcome (may_stop result) read settings table schedules
        (Runs result (W.contents writer.old) (W.contents writer.new)))) }
{
    let mut table = LineReader::new(&alloc, table)?;
    let mut schedules = LineReader::new(&alloc, schedules)?;
    bound_table(alloc, &mut table, &mut schedules, writer, &settings, watch)
}
