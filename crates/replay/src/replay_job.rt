//! The program's job with a capture: a script and a capture are run with settings, and the exit status is answered.

ghost use Rattle.std.specs.Prelude.{◌≡◌, ◌⊎◌, [], Err};
ghost use Rattle.text.specs.Buffered.{writer_buffer, writer_contents};
ghost use Rattle.std.specs.Io.KnownBytes.{Keeps};
ghost use Rattle.job.specs.declared.fault.Fault.TheVariants as Faults;
ghost use Rattle.replay.specs.Words.{IsReplayEnding, got};

use crate::faults::ReplayFault;
use crate::outputs::Outputs;
use crate::replay_run::replay_timed;
use crate::timing::Timing;
use job::{Ended, Errors, say_run};
use script::{Settings, Watch};
use std::alloc::Allocator;
use std::io::{Read, Write};
use text::octet_writer::BufWriter;

/// Lets out what was written, the report first, also before a fault, unless a write failed already: no write is tried
/// again.
fn let_out<W: Write + Drop, V: Write + Drop, A: Allocator, B: Allocator>(
    run: Result<(), ReplayFault>,
    report: &mut BufWriter<W, A>,
    departures: &mut BufWriter<V, B>,
) -> Result<(), ReplayFault>
    ensures kept { (result ≡ run) ⊎ (result ≡ Err Faults.Write) }
    ensures out { ((writer_buffer report.new ≡ []) × (writer_buffer departures.new ≡ []))
        ⊎ (result ≡ Err Faults.Write) }
    ensures report { Keeps (writer_contents W.contents report.old)
        (writer_contents W.contents report.new) }
    ensures departures { Keeps (writer_contents V.contents departures.old)
        (writer_contents V.contents departures.new) }
    ensures once { run ≡ Err Faults.Write →
        (report.new ≡ report.old) × (departures.new ≡ departures.old) }
{
    if run == Err(ReplayFault::Write) {
        return run;
    }
    if report.flush().is_err() {
        return Err(ReplayFault::Write);
    }
    if departures.flush().is_err() {
        return Err(ReplayFault::Write);
    }
    run
}

/// What a replay reads.
#[derive(Drop)]
pub struct Inputs<R: Read + Drop, S: Read + Drop> {
    /// The script.
    pub script: R,
    /// The capture.
    pub capture: S,
}

/// Runs a script and a capture with settings, the text of a fault on `errors`; and gives the writers of the report and
/// of the output capture back. What was written is let out before a fault is reported, the report first; after a
/// failed write no other is tried.
pub fn answer_replay<
    A: Allocator,
    B: Allocator,
    C: Allocator,
    R: Read + Drop,
    S: Read + Drop,
    W: Write + Drop,
    V: Write + Drop,
    E: Errors,
    P: Watch,
>(
    alloc: A,
    settings: Settings,
    timing: Timing,
    inputs: Inputs<R, S>,
    mut outputs: Outputs<BufWriter<W, B>, BufWriter<V, C>>,
    errors: &mut E,
    watch: &mut P,
) -> (Ended, W, V)
    ensures { IsReplayEnding settings timing (R.remaining inputs.script)
        (S.remaining inputs.capture) result.0
        (got (writer_contents W.contents outputs.report)
        (writer_contents V.contents outputs.departures))
        (got (W.contents result.1) (V.contents result.2)) (E.contents errors.old)
        (E.contents errors.new) }
{
    let run = replay_timed(
        alloc,
        inputs.script,
        inputs.capture,
        &mut outputs,
        settings,
        timing,
        watch,
    );
    let run = let_out(run, &mut outputs.report, &mut outputs.departures);
    let ended = say_run(run, errors);
    let Outputs { report, departures } = outputs;
    let (report, _unwritten) = report.into_parts();
    let (departures, _unwritten) = departures.into_parts();
    (ended, report, departures)
}
