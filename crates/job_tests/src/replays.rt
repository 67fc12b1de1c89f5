//! Two frames, and what comes out.

use abstract_port::{Change, Command, Dropped};
use job::{Ended, say_fault};
use replay::{Outputs, ReplayFault, ReplayInput, Stamp, replay};
use script::{Basis, Failure, Missed, Settings, Unwatched, Watch};
use std::alloc::{Allocator, Global};
use std::io::{self, Read};
use std::test::Fail;
use test_support::test_streams::BOTH_LEFT;
use wire_time::{Frame, Rate};

/// What is reported of the two frames where all gates are open: the second comes no earlier than the first, and goes
/// first.
pub const REPORT: &[u8] = b"queued 0 class 3\nqueued 1 class 5\n\
start 1 class 5 at 2000500000000 end 2000500672000\nstart 0 class 3 at 2000500672000 end 2000501344000\n";

/// A capture of two frames of 60 octets of which 18 are captured, with customer tags of priority 3 and 5, at 2 s and
/// 500 microseconds and at 2 s and 400 microseconds.
pub const TWO_CAPTURED: [u8; 92] = [
    0x4d, 0x3c, 0xb2, 0xa1, 2, 0, 4, 0, 0, 0, 0, 0, 0, 0, 0, 0, 0, 0, 4, 0, 1, 0, 0, 0, //
    2, 0, 0, 0, 0x20, 0xa1, 7, 0, 18, 0, 0, 0, 60, 0, 0, 0, //
    2, 0, 0, 0, 0, 2, 2, 0, 0, 0, 0, 1, 0x81, 0, 0x60, 5, 8, 0, //
    2, 0, 0, 0, 0x80, 0x1a, 6, 0, 18, 0, 0, 0, 60, 0, 0, 0, //
    2, 0, 0, 0, 0, 2, 2, 0, 0, 0, 0, 1, 0x81, 0, 0xa0, 5, 8, 0,
];

/// The record of one more frame, with priority 3, at 3 s.
const THIRD_RECORD: [u8; 34] = [
    3, 0, 0, 0, 0, 0, 0, 0, 18, 0, 0, 0, 60, 0, 0, 0, //
    2, 0, 0, 0, 0, 2, 2, 0, 0, 0, 0, 1, 0x81, 0, 0x60, 5, 8, 0,
];

/// The capture with this record after the two.
pub fn three_captured(alloc: Global) -> io::Result<Vec<u8>> {
    let mut octets = Vec::from_slice(alloc, &TWO_CAPTURED)?;
    octets.extend_from_slice(&THIRD_RECORD)?;
    Ok(octets)
}

/// Settings with a rate of 1 Gb/s, an mtu of 1500 octets and room for 128 frames a class.
pub fn settings(until: Option<u128>) -> Option<Settings> {
    Settings::new(Rate::from_mbps(1000).ok()?, 1500, 128, until).ok()
}

/// A moment after all that comes of the two frames, in picoseconds.
pub const END: Option<u128> = Some(3_000_000_000_000);

/// What a replay answers, its report, and its output capture.
#[derive(Drop)]
pub struct Replayed {
    pub result: Result<(), ReplayFault>,
    pub report: Vec<u8>,
    pub capture: Vec<u8>,
}

/// A replay of what two readers give, in this memory; what comes out is kept in the runtime's.
pub fn replay_of<A: Allocator, R: Read + Drop, S: Read + Drop>(
    memory: A,
    alloc: Global,
    script: R,
    capture: S,
    settings: Settings,
) -> Replayed {
    let mut outputs = Outputs {
        report: Vec::new(alloc),
        departures: Vec::new(alloc),
    };
    let result = replay(
        memory,
        script,
        capture,
        &mut outputs,
        settings,
        Stamp::Start,
        &mut Unwatched,
    );
    Replayed {
        result,
        report: outputs.report,
        capture: outputs.departures,
    }
}

/// Whether octets are a prefix and what comes after it.
pub fn is_front_and(octets: &[u8], front: &[u8], behind: &[u8]) -> bool {
    octets.starts_with(front) && &octets[front.len().min(octets.len())..] == behind
}

/// In what a replay without a moment to run to differs; empty where it doesn't.
fn endless_differs_in(alloc: Global) -> &'static str {
    let Some(settings) = settings(None) else {
        return "settings";
    };
    let (script, capture) = (b"".as_slice(), TWO_CAPTURED.as_slice());
    let got = replay_of(alloc, alloc, script, capture, settings);
    if got.result != Ok(()) {
        "result"
    } else if got.report.as_slice() != REPORT {
        "report"
    } else if got.capture.as_slice() != BOTH_LEFT.as_slice() {
        "output capture"
    } else {
        ""
    }
}

/// Where there is no moment to run to, the port runs on until the frames have left.
#[test]
fn frames_leave_without_an_end(rt: HostRuntime) {
    assert_eq!(rt; endless_differs_in(rt.alloc()), "");
}

/// What is reported of a moment to run to that is refused.
const UNTIL: &[u8] = b"taprio_port: bad value of --until\n";

/// Whether that is what is reported of the fault, with the status of a value.
fn is_until_said(alloc: Global) -> bool {
    let mut text = Vec::new(alloc);
    let ended = say_fault(&ReplayFault::Input(ReplayInput::Until), &mut text);
    let wanted = Ended {
        status: 2,
        told: true,
    };
    ended == wanted && text.as_slice() == UNTIL
}

/// In what a replay to a moment that no capture can say differs, whose script has a fault too; empty where it doesn't.
fn too_late_differs_in(alloc: Global) -> &'static str {
    let Some(settings) = settings(Some(4_294_967_296_000_000_000_001)) else {
        return "settings";
    };
    let (script, capture) = (b"x\n".as_slice(), b"".as_slice());
    let got = replay_of(alloc, alloc, script, capture, settings);
    if got.result != Err(ReplayFault::Input(ReplayInput::Until)) {
        "result"
    } else if !got.report.is_empty() || !got.capture.is_empty() {
        "output"
    } else if !is_until_said(alloc) {
        "text"
    } else {
        ""
    }
}

/// Such a moment is refused, and nothing is written. The program refuses it before it begins a replay.
#[test]
fn a_moment_that_no_capture_can_say(rt: HostRuntime) {
    assert_eq!(rt; too_late_differs_in(rt.alloc()), "");
}

/// Sees how often a replay reports how far it has come, and what it reported last.
#[derive(Drop)]
struct Seen {
    calls: u32,
    records: u32,
    moment: u128,
}

impl Watch for Seen {
    ghost use Rattle.std.specs.Prelude.{⊤};

    ghost alerted = { λ alerts s t. ⊤ };

    fn records_taken(&mut self, records: u32, moment: u128) {
        self.calls = self.calls.saturating_add(1);
        self.records = records;
        self.moment = moment;
    }

    fn command_failed(&mut self, _number: u32, _line: &[u8], _why: Failure) {}

    fn command_taken(&mut self, _number: u32, _line: &[u8], _change: u128) {}

    fn frame_came(&mut self, _moment: u128) {}

    fn frame_dropped(&mut self, _moment: u128, _frame: &Frame, _why: Dropped) {}

    fn class_used(&mut self, _class: u8) {}

    fn frames_left(&mut self, _class: u8, _count: u64) {}

    fn line_failed(&mut self, _line: &[u8]) {}

    fn line_skipped(&mut self, _number: u32, _line: &[u8]) {}

    fn line_passed(&mut self, _number: u32, _line: &[u8]) {}

    fn command_read(&mut self, _number: u32, _line: &[u8], _command: &Command) {}

    fn class_is_busy(&mut self, _number: u32, _class: u8, _every: u128) {}

    fn class_judged(&mut self, _number: u32, _class: u8, _change: &Change, _basis: Basis) {}

    fn port_is_open(&mut self, _name: &[u8]) {}

    fn ends_without(&mut self, _first_id: u64, _end: u128) {}

    fn stream_read(&mut self, _number: u32, _first_id: u64, _count: u32, _has_deadline: bool) {}

    fn deadline_judged(&mut self, _id: u64, _stream: u64, _missed: Option<Missed>) {}

    ghost nothing = { λ s. tt };

    ghost both = { λ xs ys s t u a b. tt };
}

/// What a replay of the three frames says of how far it has come: how often, and then of how many records and of which
/// moment. None where it fails.
fn seen_of_three(alloc: Global) -> io::Result<Option<(u32, u32, u128)>> {
    let Some(settings) = settings(END) else {
        return Ok(None);
    };
    let capture = three_captured(alloc)?;
    let mut seen = Seen {
        calls: 0,
        records: 0,
        moment: 0,
    };
    let mut outputs = Outputs {
        report: Vec::new(alloc),
        departures: Vec::new(alloc),
    };
    let result = replay(
        alloc,
        b"".as_slice(),
        capture.as_slice(),
        &mut outputs,
        settings,
        Stamp::Start,
        &mut seen,
    );
    Ok(
        result
            .is_ok()
            .then_some((seen.calls, seen.records, seen.moment)),
    )
}

/// Each record is seen, the last one at its moment.
#[test]
fn each_record_is_seen(rt: HostRuntime) -> Result<(), Fail> {
    assert_eq!(rt; seen_of_three(rt.alloc())?, Some((3, 3, 3_000_000_000_000)));
    Ok(())
}
