//! Outputs of more than 64 KiB in memory: how long they are is told, and with so much room they are written.

use crate::memory::jobs::{Job, ran_by};
use crate::memory::lent::{DOTS, USUAL, done, has};
use in_memory::{ReplayRan, replay_octets};
use replay::Stamp;
use script::Unwatched;
use std::alloc::Global;
use traffic::{Plan, write_streams};

/// How many lines or records an input has.
const MANY: usize = 5_000;

/// More octets than 64 KiB.
const LARGE: usize = 65_537;

/// So many times the same octets, behind others. Empty where memory is wanting.
fn repeated(alloc: Global, front: &[u8], octets: &[u8], times: usize) -> Vec<u8> {
    let mut input = Vec::new(alloc);
    let mut is_whole = input.extend_from_slice(front).is_ok();
    for _ in 0..times {
        is_whole = is_whole && input.extend_from_slice(octets).is_ok();
    }
    if !is_whole {
        input.clear();
    }
    input
}

/// The header of a capture without records.
const HEADER: &[u8] =
    b"\xa1\xb2\x3c\x4d\x00\x02\x00\x04\x00\x00\x00\x00\x00\x00\x00\x00\x00\x04\x00\x00\x00\x00\x00\x01";

/// A record of no octets.
const NOTHING: [u8; 16] = [0; 16];

/// A table whose script is long.
const TABLE: &[u8] = b"stream 1 5 60 1us 0s 2500\n";

/// A window for each of two classes.
const SCHEDULE: &[u8] = b"tc qdisc replace dev eth0 root taprio num_tc 2 map 0 1 base-time 0 \
sched-entry S 02 50000 sched-entry S 01 50000\n";

/// Whether a job says how much room it wants, more than 64 KiB, and nothing is written; and with so much it writes an
/// output that ends so.
fn is_written(job: Job, alloc: Global, inputs: [&[u8]; 2], end: &[u8]) -> bool {
    let mut fault = DOTS;
    let told = ran_by(job, alloc, inputs, &mut [], &mut fault);
    let Ok(mut output) = Vec::from_elem(alloc, b'.', told.output) else {
        return false;
    };
    let ran = ran_by(job, alloc, inputs, output.as_mut_slice(), &mut fault);
    told.status == 5
        && LARGE <= told.output
        && ran == done(told.output)
        && output.as_slice().ends_with(end)
        && has(&fault, b"")
}

#[test]
fn long_answers_to_lines_are_written(rt: HostRuntime) {
    let alloc = rt.alloc();
    let frames = repeated(alloc, b"", b"frame 1 5 60\n", MANY);
    let script = [frames.as_slice(), b""];
    assert!(rt; is_written(Job::Script, alloc, script, b"\nleft class 5 frames 128\n"));
    assert!(rt; is_written(Job::Frames, alloc, script, b"\n1,5,60,0,,,,left\n"));
    let by_stream = [TABLE, frames.as_slice()];
    assert!(rt; is_written(Job::ByStream, alloc, by_stream, b"\n1,5,60,0,,,,left,1\n"));
    let commands = repeated(alloc, b"", b"tc\n", MANY);
    assert!(rt;
        is_written(
            Job::Check,
            alloc,
            [commands.as_slice(), b""],
            b"\ntc-fault NotTaprio\n"
        )
    );
    let streams = repeated(alloc, b"", b"stream 1 0 9 1s 0s 1\n", MANY);
    let table = [streams.as_slice(), SCHEDULE];
    assert!(rt; is_written(Job::Bounds, alloc, table, b"\nbound 1 dropped Runt\n"));
}

/// A picture of each of many frames, which come one after another.
#[test]
fn long_scripts_and_pictures_are_written(rt: HostRuntime) {
    let alloc = rt.alloc();
    let end = b"\nclock 2499000000\nframe 2500 5 60\n";
    assert!(rt; is_written(Job::Streams, alloc, [TABLE, b""], end));
    let mut script = Vec::new(alloc);
    let run = write_streams(
        alloc,
        TABLE,
        b"".as_slice(),
        &mut script,
        Plan::earliest(0),
        &mut Unwatched,
    );
    assert!(rt; run.is_ok());
    assert!(rt; is_written(Job::Draw, alloc, [script.as_slice(), b""], b"</svg>\n"));
}

/// Whether a replay says how much room it wants for a long report, and with so much writes it.
fn is_replayed(alloc: Global, capture: &[u8]) -> bool {
    let (mut departures, mut fault) = (DOTS, DOTS);
    let (left, said) = (&mut departures, &mut fault);
    let told = replay_octets(
        &alloc,
        USUAL,
        Stamp::Start,
        b"",
        capture,
        &mut [],
        left,
        said,
    );
    let Ok(mut report) = Vec::from_elem(alloc, b'.', told.report) else {
        return false;
    };
    let answers = report.as_mut_slice();
    let ran = replay_octets(
        &alloc,
        USUAL,
        Stamp::Start,
        b"",
        capture,
        answers,
        left,
        said,
    );
    let wanted = ReplayRan {
        report: told.report,
        departures: HEADER.len(),
        fault: 0,
        status: 0,
    };
    told.status == 5
        && LARGE <= told.report
        && ran == wanted
        && report.as_slice().ends_with(b"\ndropped 4999 Runt\n")
}

#[test]
fn long_reports_of_captures_are_written(rt: HostRuntime) {
    let alloc = rt.alloc();
    let capture = repeated(alloc, HEADER, &NOTHING, MANY);
    assert!(rt; is_replayed(alloc, capture.as_slice()));
    let inputs = [b"", capture.as_slice()];
    assert!(rt; is_written(Job::OfCapture, alloc, inputs, b"\n4999,0,0,0,,,,Runt\n"));
}
