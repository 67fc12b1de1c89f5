//! Runs a script.

ghost use Rattle.std.specs.Prelude.{ℕ, List, Result, IfSome};
ghost use Rattle.script.specs.Alerts.{Alerting, IsWatchedRun, Watched, alerts_from, end_alerts, run_alerts};
ghost use Rattle.script.specs.AnsweredAll.{PutsEnd};
ghost use Rattle.script.specs.Words.{Command, Writes, script_left, TcFault, RunsOut, IsFaithfulTo, end_lines, ending_text, outcome_from, outcome_of, reading_of, IsReader};

use crate::answering::Answering;
use crate::answers::RunningPort;
use crate::faults::RunFault;
use crate::laws::faithful;
use crate::script_walk::walk;
use crate::settings::Settings;
use crate::summary_lines::put_end;
use crate::watch::Watch;
use abstract_port::separation::settling;
use job::{Halt, halted};
use port_text::answer_text::WriteFault;
use std::alloc::Allocator;
use std::io::Read;
use summary::{Summary, summary_wanted};
use text::line_reader::LineReader;
use text::octet_writer::PutLine;

/// Writes how many frames each class still has, and the summary where one is wanted, up to now.
fn put_end_now<A: Allocator, W: PutLine, H: Watch>(
    port: &RunningPort<A>,
    summary: &Option<Summary<A>>,
    writer: &mut W,
    watch: &mut H,
) -> Result<(), WriteFault>
    ensures text { Writes result (W.contents writer.old) (W.contents writer.new)
        (end_lines port.now.port summary.now) }
    ensures alerts { Alerting H.alerted (alerts_from 8 0 port.now.port) result watch.old watch.new }
{
    let now = port.now();
    put_end(port, summary, now, writer, watch)
}

/// Runs to the moment after the input, if there is one, and writes the answers, then how many frames are left, and the
/// summary where one is wanted.
fn end<A: Allocator, W: PutLine, H: Watch>(
    answering: &mut Answering<A>,
    until: Option<u128>,
    writer: &mut W,
    watch: &mut H,
) -> Result<(), Halt>
    ensures alerts { Alerting H.alerted
        (end_alerts until answering.old.port.port) result watch.old watch.new }
    ensures text { PutsEnd result (W.contents writer.old) (W.contents writer.new)
        (ending_text until answering.old.port.port answering.old.summary) }
{
    answering.go_on(until, writer)?;
    halted(put_end_now(&answering.port, &answering.summary, writer, watch))
}

/// Runs the lines that are to come, and the end.
fn run_lines<A: Allocator, B: Allocator, R: Read + Drop, W: PutLine, H: Watch>(
    answering: &mut Answering<A>,
    lines: &mut LineReader<R, B>,
    until: Option<u128>,
    writer: &mut W,
    watch: &mut H,
) -> Result<(), RunFault>
    ensures script { (read : List (List ℕ) → Result Command TcFault) → IsReader read →
        IfSome (script_left R.remaining lines.old)
        (λ script. RunsOut result (W.contents writer.old) (W.contents writer.new)
        (outcome_from read until script answering.old.port.port answering.old.summary)) }
    ensures watched { (read : List (List ℕ) → Result Command TcFault) → IsReader read →
        IfSome (script_left R.remaining lines.old)
        (λ script. Watched H.alerted
        (run_alerts until (reading_of read script) answering.old.port.port) result watch.old watch.new) }
{
    settling();
    // For the prover: a call on a port says what holds of every port.
    let _now = answering.port.now();
    walk(answering, lines, writer, watch)?;
    end(answering, until, writer, watch)?;
    Ok(())
}

/// Reads a script to its end, and writes the answers to each line in turn; then those to a clock event at the moment to
/// run to, where the settings have one, how many frames each class still has, and a summary where the settings want
/// one.
///
/// What was answered is let out before more input is waited for. A malformed line ends the run after the answers of the
/// lines before it. Who watches is called for it, for each line that begins with `tc` and changes nothing, for each
/// frame that is dropped, and at the end for each class that still has frames. A read or a write that fails, or takes
/// nothing, isn't tried again.
///
/// What is written are the lines of the abstract port's answers to the events of the script, with the faults of `tc`
/// lines at their places; so what holds of those answers holds of the output (`faithful`).
pub fn run_script<A: Allocator, R: Read + Drop, W: PutLine, H: Watch>(
    alloc: A,
    reader: R,
    writer: &mut W,
    settings: Settings,
    watch: &mut H,
) -> Result<(), RunFault>
    ensures script { (read : List (List ℕ) → Result Command TcFault) → IsReader read →
        IfSome (R.remaining reader)
        (λ input. RunsOut result (W.contents writer.old) (W.contents writer.new)
        (outcome_of read settings input)) }
    ensures watched { IsWatchedRun H.alerted settings
        (R.remaining reader) result watch.old watch.new }
    ensures faithful { (read : List (List ℕ) → Result Command TcFault) (input : List ℕ) →
        IsFaithfulTo read settings input }
{
    faithful();
    let rate = settings.rate();
    // For the prover: the getter says within which limits a rate lies.
    let _ps = rate.ps_per_octet();
    let mtu = settings.mtu();
    let Ok(port) = RunningPort::new(&alloc, rate, mtu, settings.room()) else {
        return Err(RunFault::Memory);
    };
    let Ok(summary) = summary_wanted(&&alloc, settings.summary(), settings.room()) else {
        return Err(RunFault::Memory);
    };
    let mut answering = Answering::new(port, summary);
    let mut lines = LineReader::new(&alloc, reader)?;
    run_lines(&mut answering, &mut lines, settings.until(), writer, watch)
}
