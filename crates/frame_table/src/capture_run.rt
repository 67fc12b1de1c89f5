//! Runs a script and a capture, and writes the table of the frames.

ghost use Rattle.std.specs.Prelude.{◌≡◌, ℕ, Err, IfSome, List, None, Ok, Result, false, length, true};
ghost use Rattle.script.specs.Alerts.{Alerting};
ghost use Rattle.frame_table.specs.Alerts.{records_alerts};
ghost use Rattle.frame_table.specs.Words.{CapFault, Command, Comes, End, Entry, IsReader, IsWatchedCapture, ReadsAs, RunsBoth, RunsOut, TcFault, WatchedRun, all_requests, asked_alerts, end_fault, frames_of_capture, is_too_late, kept_requests, left, table_by, table_of_both, with_head};
ghost use Rattle.job.specs.declared.fault.Fault.TheVariants as Faults;
ghost use Rattle.replay.specs.declared.faults.ReplayInput.TheVariants as Inputs;

use crate::arrivals::Arrivals;
use crate::rows::put_head;
use crate::streams::Streams;
use crate::table_run::put_end;
use crate::tabled::Tabled;
use capture::{CapFault, CaptureReader};
use replay::{
    ByEvents, KeptScript, ReplayFault, ReplayInput, Stop, ended_by, is_too_late, open_capture,
    read_script, run_end, walk_both,
};
use script::{RunningPort, Settings, Watch};
use std::alloc::Allocator;
use std::io::{Read, Write};

/// Writes the head of the table, takes the records and the lines to the end of both, and writes the rows. The number of
/// the record at which the capture ends with a fault, and the fault.
fn run<A: Allocator + Clone, B: Allocator, C: Allocator, D: Allocator, R: Read, W: Write, H: Watch>(
    tabled: &mut ByEvents<Tabled<'_, A, D>>,
    script: &KeptScript<B>,
    records: &mut CaptureReader<R, C>,
    until: Option<u128>,
    writer: &mut W,
    watch: &mut H,
) -> Result<Option<(u32, CapFault)>, Stop>
    requires until { is_too_late until ≡ false }
    requires begun { (left records.old).ended ≡ None }
    requires first { (left records.old).number ≡ 0 }
    ensures table { (read : List (List ℕ) → Result Command TcFault) → IsReader read →
        (entries : List Entry) (last : End) → Comes R.remaining (left records.old) entries last →
        RunsBoth entries last result (W.contents writer.old) (W.contents writer.new)
        (with_head tabled.old.taker.streams.now
        (table_by tabled.old.taker.streams.now
        (all_requests
        (kept_requests read script.now.octets.items script.now.lines.items) entries until) None
        tabled.old.taker.port.port tabled.old.taker.arrivals)) }
    ensures alerts { (read : List (List ℕ) → Result Command TcFault) → IsReader read →
        (entries : List Entry) (last : End) → Comes R.remaining (left records.old) entries last →
        Alerting H.alerted
        (asked_alerts tabled.old.taker.streams.now
        (all_requests
        (kept_requests read script.now.octets.items script.now.lines.items) entries until) None
        tabled.old.taker.port.port tabled.old.taker.arrivals) result watch.old watch.new }
{
    // For the prover: a call on a port says what holds of every port.
    let _now = tabled.taker.port.now();
    put_head(tabled.taker.streams, writer)?;
    let broken = walk_both(tabled, script, records, None, writer, watch)?;
    let until = Some(run_end(until));
    let end = &mut tabled.taker;
    put_end(
        &mut end.port,
        &mut end.arrivals,
        until,
        end.streams,
        writer,
        watch,
    )?;
    Ok(broken)
}

/// Runs a kept script and the records of a capture through a new port, and writes the table.
fn put_table<A: Allocator, B: Allocator, C: Allocator, R: Read, W: Write, H: Watch>(
    alloc: &A,
    script: &KeptScript<B>,
    records: &mut CaptureReader<R, C>,
    writer: &mut W,
    settings: Settings,
    watch: &mut H,
) -> Result<(), ReplayFault>
    requires until { is_too_late settings.until ≡ false }
    requires begun { (left records.old).ended ≡ None }
    requires first { (left records.old).number ≡ 0 }
    ensures table { (read : List (List ℕ) → Result Command TcFault) → IsReader read →
        (entries : List Entry) (last : End) → Comes R.remaining (left records.old) entries last →
        RunsOut result (W.contents writer.old) (W.contents writer.new)
        (record {
          text =
              (table_of_both settings
              (kept_requests read script.now.octets.items script.now.lines.items) entries).text;
          fault = end_fault (length entries) last;
        }) }
    ensures alerts { (read : List (List ℕ) → Result Command TcFault) → IsReader read →
        (entries : List Entry) (last : End) → Comes R.remaining (left records.old) entries last →
        WatchedRun H.alerted
        (records_alerts settings (kept_requests read script.now.octets.items script.now.lines.items)
        (Ok (entries, last))) result watch.old watch.new }
{
    let rate = settings.rate();
    // For the prover: the getter says within which limits a rate lies.
    let _ps = rate.ps_per_octet();
    let mtu = settings.mtu();
    let Ok(port) = RunningPort::new(&alloc, rate, mtu, settings.room()) else {
        return Err(ReplayFault::Memory);
    };
    let Ok(arrivals) = Arrivals::new(&&alloc) else {
        return Err(ReplayFault::Memory);
    };
    let none: Option<Streams<A>> = None;
    let taker = Tabled {
        port,
        arrivals,
        streams: &none,
    };
    let mut tabled = ByEvents { taker };
    let until = settings.until();
    let broken = run(&mut tabled, script, records, until, writer, watch)?;
    ended_by(broken)
}

/// Reads a script to its end, and then the records of a capture, and writes the table of the frames of a replay of
/// both: the same as `run_frames` writes of the events of both by moment. The ID of a frame is the number of its
/// record, from 0.
///
/// The inputs are read as `replay::replay` reads them, and the run ends as there: at the moment of the settings, or
/// where they have none when no frame can start any more. Nothing is written where the script or the file header of the
/// capture has a fault. A record with a fault ends the capture: the table is that of the records before it, and of the
/// whole script. What was written is let out before more of the capture is waited for. A read or a write that fails, or
/// takes nothing, isn't tried again. Of the frames only those that wait are kept. Who watches is called as for a
/// replay.
pub fn run_frames_of_capture<A: Allocator, R: Read + Drop, S: Read + Drop, W: Write, H: Watch>(
    alloc: A,
    script: R,
    capture: S,
    writer: &mut W,
    settings: Settings,
    watch: &mut H,
) -> Result<(), ReplayFault>
    ensures table { (read : List (List ℕ) → Result Command TcFault) → IsReader read →
        IfSome (R.remaining script)
        (λ lines. IfSome (S.remaining capture) (λ octets.
        (records : Result (List Entry × End) CapFault) → ReadsAs octets records →
        RunsOut result (W.contents writer.old) (W.contents writer.new)
        (frames_of_capture read settings lines records))) }
    ensures watched { IsWatchedCapture H.alerted settings (R.remaining script)
        (S.remaining capture) result watch.old watch.new }
    ensures late { is_too_late settings.until ≡ true →
        (result ≡ Err (Faults.Input Inputs.Until)) × (writer.new ≡ writer.old) }
{
    if is_too_late(settings.until()) {
        return Err(ReplayFault::Input(ReplayInput::Until));
    }
    let alloc = &alloc;
    let script = read_script(&alloc, script, watch)?;
    let mut records = open_capture(alloc, capture)?;
    put_table(&alloc, &script, &mut records, writer, settings, watch)
}
