//! Each growth refused in turn, until a run meets none: once that growth alone, and once all from it on. Of what is
//! answered then and of what was written before, nothing is left open but how much was written. A body that always
//! answers `Memory` comes out otherwise than it should, since the last runs meet no refusal.

use super::rows::{Given, Job, Replaying, Runs, hundred_frames};
use abstract_port::class_queue::{ClassQueue, QueueNew};
use abstract_port::{Answer, Event, Start};
use capture::{CapFault, CaptureReader};
use jumping::Jumping;
use port::{Port, PortFault};
use replay::{Outputs, ReplayFault};
use script::RunFault;
use std::alloc::Global;
use std::io;
use test_support::refusing_heap::RefusingHeap;
use text::line_reader::LineReader;
use wire_time::Frame;

/// The heap of the run with this number: each growth has two runs, one in which it alone is refused, and one with all
/// after it.
fn heap_of(alloc: Global, run: u64) -> RefusingHeap<Global> {
    RefusingHeap::new(alloc, run / 2, run % 2 == 0)
}

/// Whether a growth was refused in the run with this number.
fn is_refused(heap: &RefusingHeap<Global>, run: u64) -> bool {
    heap.asked() > run / 2
}

/// A new queue for 128 frames.
pub fn queue(alloc: Global) -> Runs {
    let mut runs = Runs::none();
    for run in 0..6 {
        let heap = heap_of(alloc, run);
        let fault = ClassQueue::new(&heap, 128).err();
        let refused = is_refused(&heap, run);
        runs.count(refused, fault == refused.then_some(QueueNew::Memory));
    }
    runs
}

/// A new port.
pub fn port(given: &Given, alloc: Global) -> Runs {
    let mut runs = Runs::none();
    for run in 0..20 {
        let heap = heap_of(alloc, run);
        let fault = Port::<Jumping, &RefusingHeap<Global>>::new(&heap, given.rate, 1500, 128).err();
        let refused = is_refused(&heap, run);
        runs.count(refused, fault == refused.then_some(PortFault::Memory));
    }
    runs
}

/// A new reader of lines.
pub fn line_reader(alloc: Global) -> Runs {
    let mut runs = Runs::none();
    for run in 0..8 {
        let heap = heap_of(alloc, run);
        let fails = LineReader::new(&heap, Job::FullQueue.input()).is_err();
        let refused = is_refused(&heap, run);
        runs.count(refused, fails == refused);
    }
    runs
}

/// A new reader of a capture of a hundred frames.
pub fn capture_reader(alloc: Global) -> Runs {
    let Ok(capture) = hundred_frames(alloc) else {
        return Runs::failed();
    };
    let mut runs = Runs::none();
    for run in 0..6 {
        let heap = heap_of(alloc, run);
        let fault = CaptureReader::new(&heap, capture.as_slice()).err();
        let refused = is_refused(&heap, run);
        runs.count(refused, fault == refused.then_some(CapFault::Memory));
    }
    runs
}

/// Forty frames of class 0 that arrive at once, and a clock event by which all have left.
fn forty_frames(alloc: Global) -> io::Result<Vec<Event<'static>>> {
    let mut events = Vec::new(alloc);
    for id in 0..40 {
        events.push(Event::Arrive(Frame {
            id,
            priority: 0,
            len: 60,
            tagged: false,
        }))?;
    }
    events.push(Event::Clock(100_000_000))?;
    Ok(events)
}

/// The start of the frame with this number at 1 Gb/s, after those with lower ones.
fn start(id: u64) -> Answer {
    let at = u128::from(id).saturating_mul(672_000);
    Answer::Start(Start {
        id,
        class: 0,
        at,
        end: at.saturating_add(672_000),
    })
}

/// Whether all is answered: the forty arrivals, and then the forty starts.
fn have_all_left(answers: &[Answer]) -> bool {
    if answers.len() != 80 {
        return false;
    }
    let (queued, started) = answers.split_at(40);
    for id in 0..40u64 {
        let arrived = queued.get(id as usize) == Some(&Answer::Queued { id, class: 0 });
        if !arrived || started.get(id as usize) != Some(&start(id)) {
            return false;
        }
    }
    true
}

/// Whether a port goes on with the events that are left as if nothing had happened, after the answers that it has
/// given.
fn goes_on(
    alloc: Global,
    port: &mut Port<Jumping>,
    rest: &[Event<'static>],
    few: &[Answer],
) -> bool {
    let Ok(mut all) = few.to_vec(alloc) else {
        return false;
    };
    port.run(rest, &mut all) == Ok(()) && have_all_left(all.as_slice())
}

/// The forty frames in the run with this number: whether a growth was refused, how many events were taken before it,
/// and whether all came out as it should. Nothing where there is no port.
fn run_of_forty(
    given: &Given,
    alloc: Global,
    events: &[Event<'static>],
    run: u64,
) -> Option<(bool, usize, bool)> {
    let mut port = Port::<Jumping>::new(alloc, given.rate, 1500, 40).ok()?;
    let heap = heap_of(alloc, run);
    let mut few = Vec::new(&heap);
    let taken = match port.run(events, &mut few) {
        Ok(()) => events.len(),
        Err(memory) => memory.taken,
    };
    let refused = is_refused(&heap, run);
    let stopped = (taken < events.len()) == refused && taken <= few.len().saturating_add(1);
    let goes_on = match events.get(taken..) {
        Some(rest) => goes_on(alloc, &mut port, rest, few.as_slice()),
        None => false,
    };
    Some((refused, taken, stopped && goes_on))
}

/// Forty frames through a port. When out of memory, the events that are left go on as if nothing had happened, also
/// where it is lacking between two starts of one clock event. A body that always says that it took no event fails,
/// since the last runs want none.
pub fn run_of_events(given: &Given, alloc: Global) -> Runs {
    let Ok(events) = forty_frames(alloc) else {
        return Runs::failed();
    };
    let mut runs = Runs::none();
    let mut before = 0;
    for run in 0..16 {
        let Some((refused, taken, is_right)) = run_of_forty(given, alloc, &events, run) else {
            return Runs::failed();
        };
        runs.count(refused, is_right && before <= taken);
        before = taken;
    }
    runs
}

/// Runs a job until no growth is refused.
pub fn of_job(given: &Given, alloc: Global, job: Job) -> Runs {
    let mut runs = Runs::none();
    for run in 0..30 {
        let heap = heap_of(alloc, run);
        let mut got = Vec::new(alloc);
        let result = job.run(given, &heap, job.input(), &mut got);
        let refused = is_refused(&heap, run);
        let told = result.err() == refused.then_some(RunFault::Memory);
        let front = job.output().starts_with(&got);
        let whole = refused || got.as_slice() == job.output();
        runs.count(refused, told && front && whole);
    }
    runs
}

/// Runs a replay until no growth is refused.
pub fn of_replay(given: &Given, alloc: Global, replaying: &Replaying) -> Runs {
    let mut runs = Runs::none();
    for run in 0..100 {
        let heap = heap_of(alloc, run);
        let mut outputs = Outputs {
            report: Vec::new(alloc),
            departures: Vec::new(alloc),
        };
        let capture = replaying.capture.as_slice();
        let result = Replaying::run(given, &heap, capture, &mut outputs);
        let refused = is_refused(&heap, run);
        let told = result.err() == refused.then_some(ReplayFault::Memory);
        let front = replaying.is_front(&outputs.departures, &outputs.report, !refused);
        runs.count(refused, told && front);
    }
    runs
}
