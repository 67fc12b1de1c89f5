//! A script and a capture in memory.

ghost use Rattle.std.specs.Prelude.{◌≡◌, List, ℕ, Some, [], Result};
ghost use Rattle.abstract_port.specs.declared.Command.{Command};
ghost use Rattle.capture.specs.Records.{Entry};
ghost use Rattle.capture.specs.declared.fault.CapFault.{CapFault};
ghost use Rattle.capture.specs.declared.reader.End.{End};
ghost use Rattle.in_memory.specs.Captures.{Replays, outputs, refused_replay, told_by_replay, told_of_replay};
ghost use Rattle.in_memory.specs.Values.{settings_at};
ghost use Rattle.replay.specs.Outcome.{Ends, Outcome, ReadsAs, outcome_of};
ghost use Rattle.replay.specs.Outputs.{got};
ghost use Rattle.port_text.specs.Reader.{IsReader};
ghost use Rattle.port_text.specs.declared.tc_reader.fault.TcFault.{TcFault};

use crate::jobs::put_front;
use crate::values::{PortValues, settings_at};
use job::say_fault;
use replay::{Outputs, ReplayFault, Stamp, replay};
use script::{BadValue, Unwatched, say_value};
use std::alloc::Allocator;

/// How a replay ended, and how many octets there are of what it reports. C sees it as it stands.
#[repr(C)]
#[derive(Clone, Copy, Debug, PartialEq, Eq)]
pub struct ReplayRan {
    /// How many octets the report has: those that are written, and at status 5 those that want room.
    pub report: usize,
    /// How many octets the capture of the frames that leave has, or wants.
    pub departures: usize,
    /// How many octets the text of the fault has, or wants.
    pub fault: usize,
    /// 0 done, 2 a value is refused, 3 an input is, 4 out of memory, 5 a slice has too little room.
    pub status: u8,
}

/// Puts both outputs and the text of a fault into their slices, where all have room, and none where one has not.
fn put_replay(
    status: u8,
    told: &[u8],
    left: &[u8],
    said: &[u8],
    report: &mut [u8],
    departures: &mut [u8],
    fault: &mut [u8],
) -> ReplayRan
    ensures { Replays
        (record {
          status = status;
          report = told.now;
          departures = left.now;
          fault = said.now;
        }) result (outputs report.old departures.old fault.old)
        (outputs report.new departures.new fault.new) }
{
    let ran = ReplayRan {
        report: told.len(),
        departures: left.len(),
        fault: said.len(),
        status,
    };
    if told.len() > report.len() || left.len() > departures.len() || said.len() > fault.len() {
        return ReplayRan { status: 5, ..ran };
    }
    put_front(told, report);
    put_front(left, departures);
    put_front(said, fault);
    ran
}

/// The end when out of memory: nothing is written.
fn replay_out_of_memory() -> ReplayRan
    ensures { result ≡ record { report = 0; departures = 0; fault = 0; status = 4 } }
{
    ReplayRan {
        report: 0,
        departures: 0,
        fault: 0,
        status: 4,
    }
}

/// Ends a replay that has written both outputs into memory.
fn end_replay<A: Allocator>(
    alloc: &A,
    run: Result<(), ReplayFault>,
    told: &[u8],
    left: &[u8],
    report: &mut [u8],
    departures: &mut [u8],
    fault: &mut [u8],
) -> ReplayRan
    ensures { (whole : Outcome) →
        Ends run (got (Some []) (Some [])) (got (Some told.now) (Some left.now)) whole →
        Replays (told_of_replay whole) result (outputs report.old departures.old fault.old)
        (outputs report.new departures.new fault.new) }
{
    let Err(why) = run else {
        return put_replay(0, told, left, b"", report, departures, fault);
    };
    let mut said = Vec::new(alloc);
    let ended = say_fault(&why, &mut said);
    if ended.status == 4 || !ended.told {
        return replay_out_of_memory();
    }
    put_replay(
        ended.status,
        told,
        left,
        said.as_slice(),
        report,
        departures,
        fault,
    )
}

/// Reports a bad value.
fn refuse_replay<A: Allocator>(
    alloc: &A,
    value: BadValue,
    report: &mut [u8],
    departures: &mut [u8],
    fault: &mut [u8],
) -> ReplayRan
    ensures { Replays (refused_replay value) result (outputs report.old departures.old fault.old)
        (outputs report.new departures.new fault.new) }
{
    let mut said = Vec::new(alloc);
    let ended = say_value(&value, &mut said);
    if !ended.told {
        return replay_out_of_memory();
    }
    put_replay(
        ended.status,
        b"",
        b"",
        said.as_slice(),
        report,
        departures,
        fault,
    )
}

/// Replays a script and a capture with these values: both outputs, as `replay::replay` writes them, come into `report`
/// and `departures`, and the text of a fault into `fault`, as the program writes it on its standard error.
///
/// The records of the frames that leave carry the moment that `stamp` says. Without a moment to run to the port runs on
/// until no frame can start any more.
///
/// Status 2 where a value is out of its limits, which for `until` is the last moment that a capture can say; 3 where
/// the script or the capture has a fault. Nothing is written at a fault of the script or of the capture's header; at
/// one of a record both outputs of the records before it, and of the whole script.
pub fn replay_octets<A: Allocator>(
    alloc: &A,
    values: PortValues,
    stamp: Stamp,
    script: &[u8],
    capture: &[u8],
    report: &mut [u8],
    departures: &mut [u8],
    fault: &mut [u8],
) -> ReplayRan
    ensures { (read : List (List ℕ) → Result Command TcFault) → IsReader read →
        (records : Result (List Entry × End) CapFault) → ReadsAs capture.now records →
        Replays
        (told_by_replay (λ settings. outcome_of read settings stamp script.now records)
        (settings_at values)) result (outputs report.old departures.old fault.old)
        (outputs report.new departures.new fault.new) }
{
    let settings = match settings_at(values) {
        Ok(settings) => settings,
        Err(value) => return refuse_replay(alloc, value, report, departures, fault),
    };
    let mut written = Outputs {
        report: Vec::new(alloc),
        departures: Vec::new(alloc),
    };
    let run = replay(
        alloc,
        script,
        capture,
        &mut written,
        settings,
        stamp,
        &mut Unwatched,
    );
    end_replay(
        alloc,
        run,
        written.report.as_slice(),
        written.departures.as_slice(),
        report,
        departures,
        fault,
    )
}
