//! Hostile use, by public calls: memory, reads and writes refused in turn. Each run is compared with what has to come
//! of it, and the program prints how many there are, and how many came out otherwise.
//!
//! It has no contract: it is a test.
#![tactic(auto)]

mod growths;
mod reports;
mod rows;
mod streams;

use rows::{Given, Job, Replaying, Runs};
use std::alloc::Global;
use std::io;

/// Both replays.
#[derive(Drop)]
struct Replays {
    two: Replaying,
    hundred: Replaying,
}

/// The growths of each call that can want memory.
fn each_growth(given: &Given, alloc: Global, replays: &Replays) -> [(&'static str, Runs); 10] {
    let one = growths::of_job(given, alloc, Job::OneFrame);
    let full = growths::of_job(given, alloc, Job::FullQueue);
    let two = growths::of_job(given, alloc, Job::TwoSchedules);
    let two_frames = growths::of_replay(given, alloc, &replays.two);
    let hundred_frames = growths::of_replay(given, alloc, &replays.hundred);
    [
        ("a queue", growths::queue(alloc)),
        ("a port", growths::port(given, alloc)),
        ("a reader of lines", growths::line_reader(alloc)),
        ("a reader of a capture", growths::capture_reader(alloc)),
        ("a run of events", growths::run_of_events(given, alloc)),
        ("a script of one frame", one),
        ("a script with a full queue", full),
        ("a check of two schedules", two),
        ("a replay of two frames", two_frames),
        ("a replay of a hundred frames", hundred_frames),
    ]
}

/// The reads of a job, and its writes.
fn of_job(given: &Given, alloc: Global, job: Job) -> (Runs, Runs) {
    let mut read = Runs::none();
    for (piece, calls) in streams::pieces_of_input(job) {
        read.add(streams::reads_of(given, alloc, job, piece, streams::runs_for(calls)));
    }
    let mut written = Runs::none();
    for (piece, calls) in streams::pieces_of_output(job) {
        written.add(streams::writes_of(given, alloc, job, piece, streams::runs_for(calls)));
    }
    (read, written)
}

/// The reads of a replay's capture, and the writes of both its outputs.
fn of_replay(
    given: &Given,
    alloc: Global,
    replaying: &Replaying,
    pieces: [(usize, u32); 2],
    outputs: [(bool, u32); 2],
) -> (Runs, Runs) {
    let mut read = Runs::none();
    for (piece, calls) in pieces {
        let most = streams::runs_for(calls);
        read.add(streams::reads_of_capture(given, alloc, replaying, piece, most));
    }
    let mut written = Runs::none();
    for (of_report, calls) in outputs {
        let most = streams::runs_for(calls);
        written.add(streams::writes_of_replay(given, alloc, replaying, of_report, most));
    }
    (read, written)
}

/// The reads and the writes of each call over streams.
fn reads_and_writes(
    given: &Given,
    alloc: Global,
    replays: &Replays,
) -> [(&'static str, (Runs, Runs)); 5] {
    let of_two = of_replay(
        given,
        alloc,
        &replays.two,
        streams::PIECES_OF_TWO_FRAMES,
        streams::WRITES_OF_TWO_FRAMES,
    );
    let of_hundred = of_replay(
        given,
        alloc,
        &replays.hundred,
        streams::PIECES_OF_A_HUNDRED_FRAMES,
        streams::WRITES_OF_A_HUNDRED_FRAMES,
    );
    let one = of_job(given, alloc, Job::OneFrame);
    let full = of_job(given, alloc, Job::FullQueue);
    let two = of_job(given, alloc, Job::TwoSchedules);
    [
        ("a script of one frame", one),
        ("a script with a full queue", full),
        ("a check of two schedules", two),
        ("a replay of two frames", of_two),
        ("a replay of a hundred frames", of_hundred),
    ]
}

/// What is printed: the growths of each call, its reads and writes, the reads of a header, and the calls that say that
/// they are out of memory.
#[derive(Clone, Copy)]
struct Counts {
    growths: [(&'static str, Runs); 10],
    streams: [(&'static str, (Runs, Runs)); 5],
    header: Runs,
    told: Runs,
}

/// Makes all runs.
fn count_all(given: &Given, alloc: Global) -> io::Result<Counts> {
    let replays = Replays {
        two: Replaying::two_frames(alloc)?,
        hundred: Replaying::hundred_frames(alloc)?,
    };
    Ok(Counts {
        growths: each_growth(given, alloc, &replays),
        streams: reads_and_writes(given, alloc, &replays),
        header: streams::reads_of_a_header(alloc, replays.hundred.capture.as_slice()),
        told: reports::of_each_call(given, alloc)?,
    })
}

/// Prints of runs how many met what was put in their way, and how many met none of it.
fn print_runs(rt: &impl Print, call: &str, what: &str, runs: Runs) -> io::Result<()> {
    println!(rt;
        "{call}: {} runs with {what}, {} without",
        runs.met, runs.free
    )
}

/// Prints the growths, and answers how many runs those are.
fn print_growths(rt: &impl Print, counts: &Counts) -> io::Result<Runs> {
    let mut all = Runs::none();
    for (call, runs) in &counts.growths {
        print_runs(rt, call, "a growth refused", *runs)?;
        all.add(*runs);
    }
    Ok(all)
}

/// Prints the reads and the writes, and answers how many runs those are.
fn print_streams(rt: &impl Print, counts: &Counts) -> io::Result<Runs> {
    let mut all = Runs::none();
    for (call, (read, written)) in &counts.streams {
        print_runs(rt, call, "a read turned", *read)?;
        print_runs(rt, call, "a write turned", *written)?;
        all.add(*read);
        all.add(*written);
    }
    Ok(all)
}

fn main(rt: HostRuntime) -> io::Result<()> {
    let Some(given) = Given::new() else {
        return println!(rt; "no settings");
    };
    let counts = count_all(&given, rt.alloc())?;
    let mut all = print_growths(&rt, &counts)?;
    all.add(print_streams(&rt, &counts)?);
    print_runs(
        &rt,
        "the header of a capture",
        "a read turned",
        counts.header,
    )?;
    print_runs(
        &rt,
        "the text of each job",
        "each growth refused",
        counts.told,
    )?;
    all.add(counts.header);
    all.add(counts.told);
    print_runs(&rt, "in all", "one refused or turned", all)?;
    println!(rt; "{} of them came out otherwise than they should", all.wrong)
}
