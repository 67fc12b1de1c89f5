//! Reads and writes that fail, in turn, once or for ever, are cut short to one octet, or give or take nothing, until a
//! run meets none of it. A body that always answers `Read` or `Write` comes out otherwise than it should, since the
//! last runs meet nothing.

use super::rows::{Given, Job, Replaying, Runs, replay_in_memory};
use capture::{CapFault, CaptureReader};
use replay::{Outputs, ReplayFault};
use script::RunFault;
use std::alloc::Global;
use test_support::test_streams::{Pieces, Tally, Turn, TurningReader, TurningWriter, nth_turn};

/// One piece is all that is asked for.
const WHOLE: usize = usize::MAX;

/// How many runs there are where so many calls are met in four ways each, and four more.
pub fn runs_for(calls: u32) -> u32 {
    calls.saturating_mul(4).saturating_add(4)
}

/// Whether a job over these lines comes out so, and is answered so.
fn is_outcome(
    given: &Given,
    alloc: Global,
    job: Job,
    lines: &[u8],
    outcome: Result<(), RunFault>,
    answers: &[u8],
) -> bool {
    let mut want = Vec::new(alloc);
    job.run(given, alloc, lines, &mut want) == outcome && want.as_slice() == answers
}

/// A run of a job whose reader does something else at one call: whether it came to that call, and came out as it
/// should.
fn read_in_turn(given: &Given, alloc: Global, job: Job, piece: usize, run: u32) -> (bool, bool) {
    let (at, turn) = nth_turn(run);
    let tally = Tally::default();
    let mut got = Vec::new(alloc);
    let reader = TurningReader::new(job.input(), piece, at, turn, &tally);
    let result = job.run(given, alloc, reader, &mut got);
    let met = tally.calls.get() > at;
    let last = tally.calls.get().saturating_sub(at) == 1;
    let is_right = if !met || turn == Turn::OneOctet {
        result == Ok(()) && got.as_slice() == job.output()
    } else if turn == Turn::Nothing {
        let input = job.input();
        let front = &input[..tally.octets.get().min(input.len())];
        last && is_outcome(given, alloc, job, front, result, &got)
    } else {
        last && result == Err(RunFault::Read) && job.output().starts_with(&got)
    };
    (met, is_right)
}

/// All runs of a job whose reads come in pieces of so many octets.
pub fn reads_of(given: &Given, alloc: Global, job: Job, piece: usize, most: u32) -> Runs {
    let mut runs = Runs::none();
    for run in 0..most {
        let (met, is_right) = read_in_turn(given, alloc, job, piece, run);
        runs.count(met, is_right);
    }
    runs
}

/// Pieces in which a job is read, and how many reads those are: at once, and octet by octet; the last read finds the
/// end.
pub fn pieces_of_input(job: Job) -> [(usize, u32); 2] {
    [(WHOLE, 2), (1, job.input().len().min(1000) as u32 + 1)]
}

/// A run of a job whose writer does something else at one call: whether it came to that call, and came out as it
/// should.
fn write_in_turn(given: &Given, alloc: Global, job: Job, piece: usize, run: u32) -> (bool, bool) {
    let (at, turn) = nth_turn(run);
    let mut writer = TurningWriter::new(alloc, piece, at, turn);
    let result = job.run(given, alloc, job.input(), &mut writer);
    let met = writer.calls > at;
    let front = job.output().starts_with(&writer.got);
    let is_right = if met && turn != Turn::OneOctet {
        let last = writer.calls.saturating_sub(at) == 1;
        result == Err(RunFault::Write) && last && writer.got.len() < job.output().len()
    } else {
        result == Ok(()) && writer.got.as_slice() == job.output()
    };
    (met, front && is_right)
}

/// All runs of a job whose writes take at most so many octets.
pub fn writes_of(given: &Given, alloc: Global, job: Job, piece: usize, most: u32) -> Runs {
    let mut runs = Runs::none();
    for run in 0..most {
        let (met, is_right) = write_in_turn(given, alloc, job, piece, run);
        runs.count(met, is_right);
    }
    runs
}

/// Pieces in which a job is written, and how many writes those are: at once, an answer of a script or a word of a
/// check, and octet by octet.
pub fn pieces_of_output(job: Job) -> [(usize, u32); 2] {
    let parts = match job {
        Job::OneFrame => 2,
        Job::FullQueue => 7,
        Job::TwoSchedules => 13,
    };
    [(WHOLE, parts), (1, job.output().len().min(1000) as u32)]
}

/// Whether the replay of a capture comes out so, and writes this.
fn is_outcome_of_replay(
    given: &Given,
    alloc: Global,
    capture: &[u8],
    outcome: Result<(), ReplayFault>,
    departures: &[u8],
    report: &[u8],
) -> bool {
    let want = replay_in_memory(alloc, capture, given.to_the_end);
    want.result == outcome
        && want.report.as_slice() == report
        && want.capture.as_slice() == departures
}

/// A run of a replay whose capture's reader does something else at one call: whether it came to that call, and came out
/// as it should.
fn read_of_capture(
    given: &Given,
    alloc: Global,
    replaying: &Replaying,
    piece: usize,
    run: u32,
) -> (bool, bool) {
    let (at, turn) = nth_turn(run);
    let tally = Tally::default();
    let mut outputs = Outputs {
        report: Vec::new(alloc),
        departures: Vec::new(alloc),
    };
    let capture = replaying.capture.as_slice();
    let reader = TurningReader::new(capture, piece, at, turn, &tally);
    let result = Replaying::run(given, alloc, reader, &mut outputs);
    let Outputs { report, departures } = outputs;
    let met = tally.calls.get() > at;
    let last = tally.calls.get().saturating_sub(at) == 1;
    let is_right = if !met || turn == Turn::OneOctet {
        result == Ok(()) && replaying.is_front(&departures, &report, true)
    } else if turn == Turn::Nothing {
        let front = &capture[..tally.octets.get().min(capture.len())];
        last && is_outcome_of_replay(given, alloc, front, result, &departures, &report)
    } else {
        let front = replaying.is_front(&departures, &report, false);
        last && result == Err(ReplayFault::Read) && front
    };
    (met, is_right)
}

/// All runs of a replay whose capture comes in pieces of so many octets.
pub fn reads_of_capture(
    given: &Given,
    alloc: Global,
    replaying: &Replaying,
    piece: usize,
    most: u32,
) -> Runs {
    let mut runs = Runs::none();
    for run in 0..most {
        let (met, is_right) = read_of_capture(given, alloc, replaying, piece, run);
        runs.count(met, is_right);
    }
    runs
}

/// Pieces in which the capture of two frames is read, and how many reads those are: the header, what comes after it,
/// and the end; and octet by octet.
pub const PIECES_OF_TWO_FRAMES: [(usize, u32); 2] = [(WHOLE, 3), (1, 93)];

/// Pieces in which the capture of a hundred frames is read, and how many reads those are: the header, what comes after
/// it, and the end; and the header and then record by record.
pub const PIECES_OF_A_HUNDRED_FRAMES: [(usize, u32); 2] = [(WHOLE, 3), (76, 102)];

/// A run of a replay one of whose writers does something else at one call: whether it came to that call, and came out
/// as it should.
fn write_of_replay(
    given: &Given,
    alloc: Global,
    replaying: &Replaying,
    of_report: bool,
    run: u32,
) -> (bool, bool) {
    let (at, turn) = nth_turn(run);
    let (of_departures, of_lines) = if of_report {
        (u32::MAX, at)
    } else {
        (at, u32::MAX)
    };
    let mut outputs = Outputs {
        report: TurningWriter::new(alloc, WHOLE, of_lines, turn),
        departures: TurningWriter::new(alloc, WHOLE, of_departures, turn),
    };
    let capture = replaying.capture.as_slice();
    let result = Replaying::run(given, alloc, capture, &mut outputs);
    let Outputs { report, departures } = outputs;
    let calls = if of_report {
        report.calls
    } else {
        departures.calls
    };
    let met = calls > at;
    let is_right = if met && turn != Turn::OneOctet {
        result == Err(ReplayFault::Write)
            && calls.saturating_sub(at) == 1
            && replaying.is_front(&departures.got, &report.got, false)
            && !replaying.is_whole(&departures.got, &report.got)
    } else {
        result == Ok(()) && replaying.is_front(&departures.got, &report.got, true)
    };
    (met, is_right)
}

/// All runs of a replay in which writes of one of its outputs are met.
pub fn writes_of_replay(
    given: &Given,
    alloc: Global,
    replaying: &Replaying,
    of_report: bool,
    most: u32,
) -> Runs {
    let mut runs = Runs::none();
    for run in 0..most {
        let (met, is_right) = write_of_replay(given, alloc, replaying, of_report, run);
        runs.count(met, is_right);
    }
    runs
}

/// How many writes the report of two frames takes, and how many the output capture.
pub const WRITES_OF_TWO_FRAMES: [(bool, u32); 2] = [(true, 4), (false, 5)];

/// How many writes the report of a hundred frames takes, and how many the output capture.
pub const WRITES_OF_A_HUNDRED_FRAMES: [(bool, u32); 2] = [(true, 200), (false, 201)];

/// All runs of a new reader of a capture that gets an octet at a time, of which one read fails: each of the first 24,
/// once and for ever. One whose reads don't fail reads on.
pub fn reads_of_a_header(alloc: Global, capture: &[u8]) -> Runs {
    let mut runs = Runs::none();
    for run in 0..60u32 {
        let mut reader = Pieces::new(capture, 1);
        reader.fails_at = run / 2;
        reader.recovers = run % 2 == 0;
        let fault = CaptureReader::new(alloc, reader).err();
        let fails = run / 2 < 24;
        runs.count(fails, fault == fails.then_some(CapFault::Read));
    }
    runs
}
