//! When out of memory, each of the calls that the program makes ends with status 4 and its text, and nothing is
//! answered.

use super::rows::{Given, Job, Runs};
use job::Ended;
use replay::{Inputs, Outputs, Stamp, Timing, answer_replay};
use schedule_check::{CheckWords, answer_check};
use script::{Settings, Unwatched, Values, answer_script};
use std::alloc::Global;
use std::io;
use test_support::refusing_heap::RefusingHeap;
use test_support::test_streams::TWO_RECORDS;
use text::octet_writer::BufWriter;
use traffic::{StreamsWords, answer_streams};

/// How each call ends.
const OUT_OF_MEMORY: Ended = Ended {
    status: 4,
    told: true,
};

/// What is reported.
const TEXT: &[u8] = b"taprio_port: out of memory\n";

/// No option is given.
const NO_VALUES: Values<'static> = Values {
    rate: None,
    mtu: None,
    room: None,
    until: None,
    summary: false,
};

/// No script beside a table.
const NO_SCRIPT: &[u8] = b"";

/// A heap that refuses each growth.
fn no_heap(alloc: Global) -> RefusingHeap<Global> {
    RefusingHeap::new(alloc, 0, false)
}

/// Whether a call ended so, reported it, and answered nothing.
fn is_told(ended: Ended, errors: &[u8], answers: &[u8]) -> bool {
    ended == OUT_OF_MEMORY && errors == TEXT && answers.is_empty()
}

/// Whether a script reports it.
fn script_tells(alloc: Global) -> io::Result<bool> {
    let answers = BufWriter::new(alloc, Vec::new(alloc))?;
    let heap = no_heap(alloc);
    let mut errors = Vec::new(alloc);
    let mut reader = Job::OneFrame.input();
    let (ended, written) = answer_script(
        &heap,
        NO_VALUES,
        &mut reader,
        answers,
        &mut errors,
        &mut Unwatched,
    );
    Ok(is_told(ended, &errors, &written))
}

/// A check with windows.
const WINDOWS: CheckWords<'static> = CheckWords {
    rate: None,
    mtu: None,
    map: None,
    frame: None,
    shares: false,
    windows: true,
    script: false,
};

/// Whether a check reports it.
fn check_tells(alloc: Global) -> io::Result<bool> {
    let answers = BufWriter::new(alloc, Vec::new(alloc))?;
    let heap = no_heap(alloc);
    let mut errors = Vec::new(alloc);
    let mut reader = Job::TwoSchedules.input();
    let (ended, written) = answer_check(
        &heap,
        WINDOWS,
        &mut reader,
        answers,
        &mut errors,
        &mut Unwatched,
    );
    Ok(is_told(ended, &errors, &written))
}

/// Whether a table of streams reports it.
fn table_tells(alloc: Global) -> io::Result<bool> {
    let answers = BufWriter::new(alloc, Vec::new(alloc))?;
    let heap = no_heap(alloc);
    let mut errors = Vec::new(alloc);
    let mut reader = b"stream 1 5 60 250us 0ns 2\n".as_slice();
    let words = StreamsWords {
        from: None,
        late: false,
        seed: None,
    };
    let (ended, written) = answer_streams(
        &heap,
        words,
        &mut reader,
        NO_SCRIPT,
        answers,
        &mut errors,
        &mut Unwatched,
    );
    Ok(is_told(ended, &errors, &written))
}

/// Whether a replay reports it.
fn replay_tells(alloc: Global, settings: Settings) -> io::Result<bool> {
    let inputs = Inputs {
        script: b"".as_slice(),
        capture: TWO_RECORDS.as_slice(),
    };
    let outputs = Outputs {
        report: BufWriter::new(alloc, Vec::new(alloc))?,
        departures: BufWriter::new(alloc, Vec::new(alloc))?,
    };
    let heap = no_heap(alloc);
    let mut errors = Vec::new(alloc);
    let (ended, report, departures) = answer_replay(
        &heap,
        settings,
        Timing {
            stamp: Stamp::Start,
            shift: None,
        },
        inputs,
        outputs,
        &mut errors,
        &mut Unwatched,
    );
    Ok(is_told(ended, &errors, &report) && departures.is_empty())
}

/// All four calls.
pub fn of_each_call(given: &Given, alloc: Global) -> io::Result<Runs> {
    let mut runs = Runs::none();
    runs.count(true, script_tells(alloc)?);
    runs.count(true, check_tells(alloc)?);
    runs.count(true, table_tells(alloc)?);
    runs.count(true, replay_tells(alloc, given.to_the_end)?);
    Ok(runs)
}
