//! What is fed: jobs over lines, replays, and settings.

use capture::{CAPTURE_END, CaptureWriter};
use replay::{Outputs, ReplayFault, Stamp, replay};
use schedule_check::{CheckSettings, check};
use script::{RunFault, Settings, Unwatched, run_script};
use std::alloc::{Allocator, Global};
use std::io::{self, Read, Write};
use test_support::test_streams::{BOTH_LEFT, BOTH_TOLD, TWO_RECORDS};
use text::octet_writer::PutLine;
use wire_time::Rate;

/// A frame that leaves at once.
const ONE_FRAME: &[u8] = b"frame 1 0 60\nclock 1000000\n";

/// What is answered to it.
const LEFT_AT_ONCE: &[u8] = b"queued 1 class 0\nstart 1 class 0 at 0 end 672000\n";

/// With room for two frames a class: three frames come before a closed gate, which opens 100 microseconds later.
const CLOSED_GATE: &[u8] =
    b"tc qdisc replace dev eth0 root taprio num_tc 8 map 0 1 2 3 4 5 6 7 base-time 20000 \
sched-entry S 00 100000 sched-entry S 01 100000\nclock 20000000\nframe 1 0 60\nframe 2 0 60\nframe 3 0 60\nclock 121000000\ncount 0\n";

/// What is answered to it.
const OPENED: &[u8] =
    b"installed change 20000000\nqueued 1 class 0\nqueued 2 class 0\ndropped 3 Full\n\
start 1 class 0 at 120000000 end 120672000\nstart 2 class 0 at 120672000 end 121344000\n\
count class 0 accepted 2 sent 2 octets 120 runt 0 too-long 0 over-sdu 0 full 1 waiting 0\n";

/// The example of tc-taprio(8), and a schedule that opens classes 0 and 1 together.
const TWO_SCHEDULES: &[u8] =
    b"tc qdisc replace dev eth0 parent root handle 100 taprio num_tc 3 map 2 2 1 0 2 2 2 2 2 2 2 2 2 2 2 2 \
queues 1@0 1@1 2@2 base-time 1528743495910289987 sched-entry S 01 300000 sched-entry S 02 300000 sched-entry S 04 400000 \
clockid CLOCK_TAI\n\
tc qdisc replace dev eth0 root taprio num_tc 8 map 0 1 2 3 4 5 6 7 sched-entry S 01 300000 sched-entry S 03 300000\n";

/// What is reported of them at 1 Gb/s.
const TOLD: &[u8] = b"apart 0 1 2\napart 2 3 4 5 6 7\n";

/// The moment that replays are run to, in picoseconds.
const END: u128 = 3_000_000_000_000;

/// A job over lines.
#[derive(Clone, Copy, PartialEq, Eq, Debug)]
pub enum Job {
    /// A script of one frame.
    OneFrame,
    /// A script with a full queue before a closed gate.
    FullQueue,
    /// The check of two schedules.
    TwoSchedules,
}

impl Job {
    /// The lines that are read.
    pub fn input(self) -> &'static [u8] {
        match self {
            Job::OneFrame => ONE_FRAME,
            Job::FullQueue => CLOSED_GATE,
            Job::TwoSchedules => TWO_SCHEDULES,
        }
    }

    /// What is answered to them.
    pub fn output(self) -> &'static [u8] {
        match self {
            Job::OneFrame => LEFT_AT_ONCE,
            Job::FullQueue => OPENED,
            Job::TwoSchedules => TOLD,
        }
    }

    /// Does it, from any reader to any writer.
    pub fn run<A: Allocator, R: Read + Drop, W: PutLine>(
        self,
        given: &Given,
        alloc: A,
        reader: R,
        writer: &mut W,
    ) -> Result<(), RunFault> {
        match self {
            Job::TwoSchedules => check(alloc, reader, writer, given.checked, &mut Unwatched),
            _ => run_script(alloc, reader, writer, given.settings, &mut Unwatched),
        }
    }
}

/// What all runs are given: 1 Gb/s, an mtu of 1500 octets and room for two frames a class.
#[derive(Clone, Copy)]
pub struct Given {
    /// The rate.
    pub rate: Rate,
    /// How scripts are run, to no moment after them.
    pub settings: Settings,
    /// How captures are replayed, to a moment after all frames.
    pub to_the_end: Settings,
    /// How schedules are checked: without windows.
    pub checked: CheckSettings,
}

impl Given {
    /// They are good: there is a value.
    pub fn new() -> Option<Given> {
        let rate = Rate::from_mbps(1000).ok()?;
        Some(Given {
            rate,
            settings: Settings::new(rate, 1500, 2, None).ok()?,
            to_the_end: Settings::new(rate, 1500, 2, Some(END)).ok()?,
            checked: CheckSettings::usual(rate, false),
        })
    }
}

/// A capture of a hundred untagged frames of 60 octets, from 2 s on one every 10 microseconds.
pub fn hundred_frames(alloc: Global) -> io::Result<Vec<u8>> {
    let mut octets = Vec::new(alloc);
    let Ok(mut writer) = CaptureWriter::begin(&mut octets) else {
        return Err(io::Error::from(io::ErrorKind::Other));
    };
    for number in 0..100u32 {
        let moment = 2_000_000_000_000 + 10_000_000 * u128::from(number);
        if moment >= CAPTURE_END || writer.put(&mut octets, moment, 60, &[0u8; 60]).is_err() {
            return Err(io::Error::from(io::ErrorKind::Other));
        }
    }
    Ok(octets)
}

/// What a replay answers, its report, and its output capture.
#[derive(Drop)]
pub struct Replayed {
    pub result: Result<(), ReplayFault>,
    pub report: Vec<u8>,
    pub capture: Vec<u8>,
}

/// A replay of a capture in memory, without script lines.
pub fn replay_in_memory(alloc: Global, capture: &[u8], settings: Settings) -> Replayed {
    let mut outputs = Outputs {
        report: Vec::new(alloc),
        departures: Vec::new(alloc),
    };
    let result = replay(
        alloc,
        b"".as_slice(),
        capture,
        &mut outputs,
        settings,
        Stamp::Start,
        &mut Unwatched,
    );
    Replayed {
        result,
        report: outputs.report,
        capture: outputs.departures,
    }
}

/// A replay that meets no fault: the capture that is read, the report, and the capture that is written.
#[derive(Drop)]
pub struct Replaying {
    pub capture: Vec<u8>,
    pub report: Vec<u8>,
    pub departures: Vec<u8>,
}

impl Replaying {
    /// Two frames, of which the second goes first.
    pub fn two_frames(alloc: Global) -> io::Result<Replaying> {
        Ok(Replaying {
            capture: Vec::from_slice(alloc, &TWO_RECORDS)?,
            report: Vec::from_slice(alloc, BOTH_TOLD)?,
            departures: Vec::from_slice(alloc, &BOTH_LEFT)?,
        })
    }

    /// A hundred frames, each of which leaves when it comes.
    pub fn hundred_frames(alloc: Global) -> io::Result<Replaying> {
        let mut report = Vec::new(alloc);
        for number in 0..100u64 {
            let at = 2_000_000_000_000 + 10_000_000 * number;
            let end = at + 672_000;
            let lines = format!(in alloc;
                "queued {number} class 0\nstart {number} class 0 at {at} end {end}\n"
            )?;
            report.extend_from_slice(lines.as_bytes())?;
        }
        Ok(Replaying {
            capture: hundred_frames(alloc)?,
            report,
            departures: hundred_frames(alloc)?,
        })
    }

    /// Does it without script lines, from any reader to any writers.
    pub fn run<A: Allocator, R: Read + Drop, V: PutLine, W: PutLine>(
        given: &Given,
        alloc: A,
        capture: R,
        outputs: &mut Outputs<V, W>,
    ) -> Result<(), ReplayFault> {
        replay(
            alloc,
            b"".as_slice(),
            capture,
            outputs,
            given.to_the_end,
            Stamp::Start,
            &mut Unwatched,
        )
    }

    /// Whether what was written is a prefix of what is to be written, and all of it where the replay met no fault.
    pub fn is_front(&self, departures: &[u8], report: &[u8], whole: bool) -> bool {
        self.departures.as_slice().starts_with(departures)
            && self.report.as_slice().starts_with(report)
            && (!whole || self.is_whole(departures, report))
    }

    /// Whether both are written whole.
    pub fn is_whole(&self, departures: &[u8], report: &[u8]) -> bool {
        departures.len() == self.departures.len() && report.len() == self.report.len()
    }
}

/// How many runs met what is put in the way, how many after them met nothing, and how many came out otherwise than they
/// should.
#[derive(Clone, Copy, PartialEq, Eq, Debug)]
pub struct Runs {
    pub met: u32,
    pub free: u32,
    pub wrong: u32,
}

impl Runs {
    pub fn none() -> Runs {
        Runs {
            met: 0,
            free: 0,
            wrong: 0,
        }
    }

    /// A run that could not be made.
    pub fn failed() -> Runs {
        Runs {
            met: 0,
            free: 0,
            wrong: 1,
        }
    }

    /// Counts a run. One that meets something after one that met nothing is wrong.
    pub fn count(&mut self, met: bool, is_right: bool) {
        if !met {
            self.free = self.free.saturating_add(1);
        } else if self.free == 0 {
            self.met = self.met.saturating_add(1);
        }
        if !is_right || (met && self.free > 0) {
            self.wrong = self.wrong.saturating_add(1);
        }
    }

    /// Takes in other runs.
    pub fn add(&mut self, other: Runs) {
        self.met = self.met.saturating_add(other.met);
        self.free = self.free.saturating_add(other.free);
        self.wrong = self.wrong.saturating_add(other.wrong);
    }
}
