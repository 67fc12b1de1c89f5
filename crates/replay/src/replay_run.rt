//! Runs a script and a capture.

ghost use Rattle.std.specs.Prelude.{◌≡◌, ◌≤◌, ℕ, [], List, None, Option, Result, IfOk, IfErr, IfSome, Err, false, true, length};
ghost use Rattle.replay.specs.Words.{CAPTURE_END, run_end, new_port, IsSoundPort, Command, IsNewReader, left, Entry, CapFault, End, IsReader, TcFault, new_store, kept_requests, merged, came_from, timed_from, Ends, IsOpenFault, ended_by, ReadsAs, end_fault, header, is_too_late, open_fault, outcome_of, stamping_at, timed_outcome, told_to_end, Origin, PutsBoth, got, ComesMoved, IsTogether, Keeps, state_of};
ghost use Rattle.job.specs.declared.fault.Fault.TheVariants as Faults;
ghost use Rattle.replay.specs.declared.faults.ReplayInput.TheVariants as Inputs;

use crate::both_walk::walk_both;
use crate::end_lines::put_end_of;
use crate::faults::{ReplayFault, ReplayInput, Stop};
use crate::kept_script::KeptScript;
use crate::outputs::Outputs;
use crate::queued::QueuedLine;
use crate::script_reader::read_script;
use crate::sender::{Leaving, Sending, put_clock};
use crate::shifts::Shift;
use crate::stamps::{Stamp, stamping_at};
use crate::timing::Timing;
use capture::octet_store::OctetStore;
use capture::{CAPTURE_END, CapFault, CaptureReader, CaptureWriter};
use port_text::answer_text::NearNumbers;
use script::{RunningPort, Settings, Watch};
use std::alloc::Allocator;
use std::io::{Read, Write};
use summary::{Summary, summary_wanted};
use text::octet_writer::PutLine;

/// Whether a moment is after the last that a capture can say.
pub fn is_too_late(until: Option<u128>) -> bool
    ensures { result ≡ is_too_late until }
{
    match until {
        None => false,
        Some(moment) => moment > CAPTURE_END,
    }
}

/// The moment to run to after both inputs, in picoseconds: the one that is given, or else the last that a capture can
/// say.
pub fn run_end(until: Option<u128>) -> u128
    requires { is_too_late until ≡ false }
    ensures moment { result ≡ run_end until }
    ensures within { result ≤ CAPTURE_END }
{
    match until {
        None => CAPTURE_END,
        Some(moment) => moment,
    }
}

/// Runs on from where both inputs have ended, and writes how many frames are left, and the summary where one is wanted.
fn run_on<A: Allocator, V: PutLine, W: PutLine, P: Watch>(
    sending: &mut Sending<A>,
    until: Option<u128>,
    outputs: &mut Outputs<V, W>,
    watch: &mut P,
) -> Result<(), Stop>
    requires until { is_too_late until ≡ false }
    requires together { IsTogether (state_of V.contents W.contents sending.old outputs.old) }
    ensures { (origin : Origin) →
        Keeps origin (state_of V.contents W.contents sending.old outputs.old) →
        PutsBoth result (got (V.contents outputs.old.report) (W.contents outputs.old.departures))
        (got (V.contents outputs.new.report) (W.contents outputs.new.departures))
        (told_to_end origin [] until sending.old.port.port sending.old.summary) }
{
    let from = sending.port.now();
    sending.leaving.last = from;
    let upto = run_end(until);
    put_clock(sending, upto, &mut outputs.departures, &mut outputs.report)?;
    put_end_of(sending, until, &mut outputs.report, watch)?;
    Ok(())
}

/// How a run ends whose capture ends with this fault after so many records, if it has one.
pub fn ended_by(broken: Option<(u32, CapFault)>) -> Result<(), ReplayFault>
    ensures { result ≡ ended_by broken }
{
    match broken {
        None => Ok(()),
        Some((number, fault)) => Err(ReplayFault::Input(ReplayInput::Capture(number, fault))),
    }
}

/// Runs the records and the lines, to the end of both, and on.
fn run<A: Allocator + Clone, B: Allocator, C: Allocator, R: Read, V: PutLine, W: PutLine, P: Watch>(
    sending: &mut Sending<A>,
    script: &KeptScript<B>,
    until: Option<u128>,
    records: &mut CaptureReader<R, C>,
    shift: Option<Shift>,
    outputs: &mut Outputs<V, W>,
    watch: &mut P,
) -> Result<(), ReplayFault>
    requires until { is_too_late until ≡ false }
    requires together { IsTogether (state_of V.contents W.contents sending.old outputs.old) }
    requires begun { (left records.old).ended ≡ None }
    requires first { (left records.old).number ≡ 0 }
    ensures { (read : List (List ℕ) → Result Command TcFault) → IsReader read →
        (origin : Origin) (last : End) →
        ComesMoved shift R.remaining (left records.old) origin.entries last →
        Keeps origin (state_of V.contents W.contents sending.old outputs.old) →
        Ends result (got (V.contents outputs.old.report) (W.contents outputs.old.departures))
        (got (V.contents outputs.new.report) (W.contents outputs.new.departures))
        (record {
          output = told_to_end origin
              (merged (timed_from 0 (kept_requests read script.now.octets.items
              script.now.lines.items))
              (came_from 0 0 origin.entries)) until sending.old.port.port sending.old.summary;
          fault = end_fault (length origin.entries) last;
        }) }
{
    let broken = walk_both(sending, script, records, shift, outputs, watch)?;
    run_on(sending, until, outputs, watch)?;
    ended_by(broken)
}

/// Why a capture is not opened.
fn open_fault(fault: CapFault) -> ReplayFault
    ensures { result ≡ open_fault fault }
{
    match fault {
        CapFault::Read => ReplayFault::Read,
        CapFault::Memory => ReplayFault::Memory,
        _ => ReplayFault::Input(ReplayInput::Capture(0, fault)),
    }
}

/// Reads the file header of a capture.
pub fn open_capture<A: Allocator, R: Read + Drop>(
    alloc: A,
    capture: R,
) -> Result<CaptureReader<R, A>, ReplayFault>
    ensures ok { IfOk result (λ r. IsNewReader R.remaining (R.remaining capture) (left r)) }
    ensures fault { IfErr result (λ f. IsOpenFault (R.remaining capture) f) }
{
    match CaptureReader::new(alloc, capture) {
        Ok(records) => Ok(records),
        Err(fault) => Err(open_fault(fault)),
    }
}

/// Makes a new port with its store, beside what is to be seen of it, and then writes the file header of the output
/// capture.
fn begin<A: Allocator + Clone, W: Write>(
    alloc: &A,
    settings: Settings,
    stamp: Stamp,
    summary: Option<Summary<A>>,
    departures: &mut W,
) -> Result<Sending<A>, Stop>
    ensures port { IfOk result
        (λ s. s.port.port ≡ new_port settings.rate settings.mtu settings.room) }
    ensures store { IfOk result (λ s. s.store ≡ new_store settings.room) }
    ensures seen { IfOk result (λ s. s.summary ≡ summary) }
    ensures stamping { IfOk result (λ s. s.leaving.stamping ≡ stamping_at stamp settings.rate) }
    ensures sound { IfOk result (λ s. IsSoundPort s.port.port) }
    ensures out { (report : Option (List ℕ)) →
        PutsBoth result (got report (W.contents departures.old))
        (got report (W.contents departures.new)) header }
{
    let rate = settings.rate();
    // For the prover: the getter says within which limits a rate lies.
    let _ps = rate.ps_per_octet();
    let mtu = settings.mtu();
    let room = settings.room();
    let Ok(port) = RunningPort::new(alloc.clone()?, rate, mtu, room) else {
        return Err(Stop::Memory);
    };
    // For the prover: a call on a port says what holds of every port.
    let _now = port.now();
    let stamping = stamping_at(stamp, rate);
    let store = OctetStore::new(alloc, room)?;
    match CaptureWriter::begin(departures) {
        Ok(writer) => Ok(Sending {
            port,
            summary,
            store,
            leaving: Leaving {
                writer,
                stamping,
                last: 0,
                moments: NearNumbers::new(),
                queued: QueuedLine::new(),
            },
        }),
        Err(_) => Err(Stop::Write),
    }
}

/// Runs a script and a capture through a new port, by moment: the answers to both go to the report, and the frames
/// that start into the output capture.
///
/// The memory of a summary is taken first. Then the script is read whole, and nothing is written where it has a fault;
/// then the file header of the capture, and nothing is written where that has one. Then come its records, each taken
/// when its turn comes, after the lines up to its moment, which is the greater of its own, moved as `timing` says, and
/// that of the record before. A record that can't be moved so is one with a fault, `BadShift`. After the last record,
/// also one after which the capture ends with a fault, come the other lines. Then the port runs on, to the moment of the
/// settings, or where they have none until no frame can start any more; how many frames each class still has comes last,
/// and a summary where the settings want one. The records of the frames that start carry the moment that `timing` says.
///
/// What was answered is let out, the departures first, before more of the capture is waited for. A read or a write
/// that fails, or takes nothing, isn't tried again. Nothing that is kept grows with the capture: of a script its lines
/// are kept, and of a capture the octets of the frames that wait, and where a summary is wanted when they came. Who
/// watches is called for each record once it is taken, for a malformed line of the script, and for each line that
/// begins with `tc` and changes nothing.
pub fn replay_timed<A: Allocator, R: Read + Drop, S: Read + Drop, V: PutLine, W: PutLine, P: Watch>(
    alloc: A,
    script: R,
    capture: S,
    outputs: &mut Outputs<V, W>,
    settings: Settings,
    timing: Timing,
    watch: &mut P,
) -> Result<(), ReplayFault>
    ensures replay { (read : List (List ℕ) → Result Command TcFault) → IsReader read →
        IfSome (R.remaining script)
        (λ lines. IfSome (S.remaining capture) (λ octets.
        (records : Result (List Entry × End) CapFault) → ReadsAs octets records →
        Ends result (got (V.contents outputs.old.report) (W.contents outputs.old.departures))
        (got (V.contents outputs.new.report) (W.contents outputs.new.departures))
        (timed_outcome read settings timing lines records))) }
    ensures late { is_too_late settings.until ≡ true →
        (result ≡ Err (Faults.Input Inputs.Until)) × (outputs.new ≡ outputs.old) }
{
    let until = settings.until();
    if is_too_late(until) {
        return Err(ReplayFault::Input(ReplayInput::Until));
    }
    let alloc = &alloc;
    let summary = summary_wanted(&alloc, settings.summary(), settings.room())?;
    let script = read_script(&alloc, script, watch)?;
    let mut records = open_capture(alloc, capture)?;
    let mut sending = begin(
        &alloc,
        settings,
        timing.stamp,
        summary,
        &mut outputs.departures,
    )?;
    run(
        &mut sending,
        &script,
        until,
        &mut records,
        timing.shift,
        outputs,
        watch,
    )
}

/// Runs a script and a capture through a new port, by moment, as `replay_timed` does, with no moment moved. The records
/// of the frames that start carry the moment that `stamp` says.
pub fn replay<A: Allocator, R: Read + Drop, S: Read + Drop, V: PutLine, W: PutLine, P: Watch>(
    alloc: A,
    script: R,
    capture: S,
    outputs: &mut Outputs<V, W>,
    settings: Settings,
    stamp: Stamp,
    watch: &mut P,
) -> Result<(), ReplayFault>
    ensures replay { (read : List (List ℕ) → Result Command TcFault) → IsReader read →
        IfSome (R.remaining script)
        (λ lines. IfSome (S.remaining capture) (λ octets.
        (records : Result (List Entry × End) CapFault) → ReadsAs octets records →
        Ends result (got (V.contents outputs.old.report) (W.contents outputs.old.departures))
        (got (V.contents outputs.new.report) (W.contents outputs.new.departures))
        (outcome_of read settings stamp lines records))) }
    ensures late { is_too_late settings.until ≡ true →
        (result ≡ Err (Faults.Input Inputs.Until)) × (outputs.new ≡ outputs.old) }
{
    let timing = Timing { stamp, shift: None };
    replay_timed(alloc, script, capture, outputs, settings, timing, watch)
}
