//! Memory, reads and writes that fail, and what is reported of it.

use crate::replays::{
    END, REPORT, Replayed, TWO_CAPTURED, is_front_and, replay_of, settings, three_captured,
};
use linked_list_allocator::LocalHeap;
use replay::{Outputs, ReplayFault, Stamp, replay};
use script::{Settings, Unwatched};
use std::alloc::Global;
use std::test::Fail;
use test_support::refusing_heap::RefusingHeap;
use test_support::test_streams::{BOTH_LEFT, Narrow, Pieces};
use text::octet_writer::PutLine;

/// A growth of a replay that is refused.
#[derive(Clone, Copy)]
struct Refused {
    /// Whether the replay came to it.
    met: bool,
    /// Whether it was reported, or all went well without it.
    right: bool,
    /// Whether nothing was written.
    silent: bool,
}

/// A replay of the two frames whose growth with this number is refused.
fn run_refused(alloc: Global, settings: Settings, number: u64) -> Refused {
    let heap = RefusingHeap::new(alloc, number, true);
    let (script, capture) = (b"".as_slice(), TWO_CAPTURED.as_slice());
    let ended = replay_of(&heap, alloc, script, capture, settings);
    let met = heap.asked() > number;
    Refused {
        met,
        right: ended.result.err() == met.then_some(ReplayFault::Memory),
        silent: ended.report.is_empty() && ended.capture.is_empty(),
    }
}

/// How many growths a replay asks for, and how many of them leave both outputs empty where they are refused. Each that
/// is refused is reported; else the number of the one that isn't.
fn growths_of(alloc: Global, settings: Settings) -> Result<(u64, u64), u64> {
    let mut silent = 0u64;
    for number in 0..1000u64 {
        let refused = run_refused(alloc, settings, number);
        if !refused.right {
            return Err(number);
        }
        if !refused.met {
            return Ok((number, silent));
        }
        if refused.silent {
            silent = silent.saturating_add(1);
        }
    }
    Ok((1000, silent))
}

/// A summary takes the memory for its eight classes before anything is written, and no more: each of these growths is a
/// fault where it is refused.
#[test]
fn sums_up_in_memory_that_is_taken_first(rt: HostRuntime) -> Result<(), Fail> {
    let usual = settings(END).ok_or("settings")?;
    let (asked, silent) = growths_of(rt.alloc(), usual)?;
    let summed = growths_of(rt.alloc(), usual.with_summary(true))?;
    assert_eq!(rt; summed, (asked.saturating_add(8), silent.saturating_add(8)));
    Ok(())
}

/// Whether a replay of the two frames reported all, or this fault and a prefix of the rest.
fn is_told(ended: &Replayed, fault: ReplayFault) -> bool {
    if ended.result.is_ok() {
        return ended.report.as_slice() == REPORT
            && ended.capture.as_slice() == BOTH_LEFT.as_slice();
    }
    let fronts = REPORT.starts_with(&ended.report) && BOTH_LEFT.starts_with(&ended.capture);
    ended.result == Err(fault) && fronts
}

/// Whether a heap of so many octets is enough for a replay of the two frames and a line; none where what is answered or
/// reported is wrong.
fn is_enough(alloc: Global, octets: usize) -> Option<bool> {
    let settings = settings(END)?;
    let heap = LocalHeap::new(alloc, octets).ok()?;
    let (script, capture) = (b"clock 1\n".as_slice(), TWO_CAPTURED.as_slice());
    let ended = replay_of(&heap, alloc, script, capture, settings);
    is_told(&ended, ReplayFault::Memory).then_some(ended.result.is_ok())
}

/// Once a heap is enough, each greater one is.
#[test]
fn refuses_each_growth(rt: HostRuntime) {
    let mut enough = Some(false);
    for size in 1..60usize {
        let before = enough;
        enough = is_enough(rt.alloc(), 12_000 * size);
        assert!(rt; enough >= before, "at {size}");
    }
    assert_eq!(rt; enough, Some(true));
}

/// Whether a replay of the two frames and a line reports all, or a failed read and a prefix of the rest.
fn are_read(alloc: Global, script: Pieces<'_>, capture: Pieces<'_>) -> bool {
    let Some(settings) = settings(END) else {
        return false;
    };
    let ended = replay_of(alloc, alloc, script, capture, settings);
    is_told(&ended, ReplayFault::Read)
}

/// Whether they do so where a read of one of them fails, in a run with this number: each call has four, of the capture
/// and of the script, and for ever and once.
fn is_read(alloc: Global, run: u32) -> bool {
    let (at, never) = (run / 4, u32::MAX);
    let (of_capture, of_script) = if run % 2 == 0 {
        (at, never)
    } else {
        (never, at)
    };
    let recovers = run / 2 % 2 == 1;
    let mut script = Pieces::new(b"clock 1\n", 1);
    script.fails_at = of_script;
    script.recovers = recovers;
    let mut capture = Pieces::new(&TWO_CAPTURED, 9);
    capture.fails_at = of_capture;
    capture.recovers = recovers;
    are_read(alloc, script, capture)
}

/// Each of the first twenty reads of either input fails in turn, once or for ever: it isn't tried again, and what is
/// written is a prefix.
#[test]
fn stops_at_each_read(rt: HostRuntime) {
    for run in 0..80u32 {
        assert!(rt; is_read(rt.alloc(), run), "run {run}");
    }
}

/// A writer of ten octets at a time that has room for so many.
fn narrow(alloc: Global, room: usize, fails: bool, recovers: bool) -> Narrow {
    Narrow {
        got: Vec::new(alloc),
        piece: 10,
        room,
        fails,
        recovers,
    }
}

/// What a replay of the two frames ends with, whose output capture and report go to these writers.
fn replay_to<V: PutLine, W: PutLine>(
    alloc: Global,
    outputs: &mut Outputs<V, W>,
    settings: Settings,
) -> Result<(), ReplayFault> {
    let (script, capture) = (b"".as_slice(), TWO_CAPTURED.as_slice());
    replay(
        alloc,
        script,
        capture,
        outputs,
        settings,
        Stamp::Start,
        &mut Unwatched,
    )
}

/// Whether a replay of the two frames is as it should be where each output has room for so many octets: it reports all,
/// or a failed write and a prefix of the rest, which isn't all.
fn is_written(alloc: Global, room: usize, recovers: bool) -> bool {
    let Some(settings) = settings(END) else {
        return false;
    };
    let mut outputs = Outputs {
        report: narrow(alloc, room, recovers, recovers),
        departures: narrow(alloc, room, recovers, recovers),
    };
    let result = replay_to(alloc, &mut outputs, settings);
    let Outputs {
        report,
        departures: written,
    } = outputs;
    let fronts = REPORT.starts_with(&report.got) && BOTH_LEFT.starts_with(&written.got);
    let whole = report.got.len() >= REPORT.len() && written.got.len() >= BOTH_LEFT.len();
    let fault = (room < REPORT.len()).then_some(ReplayFault::Write);
    fronts && result.err() == fault && whole == fault.is_none()
}

/// Each write of either output fails in turn, or takes nothing: no write is tried again, and not all of both is
/// written.
#[test]
fn stops_at_each_write(rt: HostRuntime) {
    for room in 0..=REPORT.len() {
        assert!(rt; is_written(rt.alloc(), room, false), "at {room}");
        assert!(rt; is_written(rt.alloc(), room, true), "at {room}, once");
    }
}

/// Whether a replay of the two frames reports this where its output capture has room for so many octets alone.
fn tells_before(alloc: Global, room: usize, told: &[u8]) -> bool {
    let Some(settings) = settings(END) else {
        return false;
    };
    let mut outputs = Outputs {
        report: Vec::new(alloc),
        departures: narrow(alloc, room, true, false),
    };
    let result = replay_to(alloc, &mut outputs, settings);
    let Outputs {
        report,
        departures: written,
    } = outputs;
    result == Err(ReplayFault::Write) && written.got.len() == room && report.as_slice() == told
}

/// A failed write of the output capture ends the report too: no line follows that of the start whose record wasn't
/// written.
#[test]
fn the_report_ends_where_the_capture_fails(rt: HostRuntime) {
    let first =
        b"queued 0 class 3\nqueued 1 class 5\nstart 1 class 5 at 2000500000000 end 2000500672000\n".as_slice();
    for room in 0..BOTH_LEFT.len() {
        let told = match room {
            0..24 => b"".as_slice(),
            24..58 => first,
            _ => REPORT,
        };
        assert!(rt; tells_before(rt.alloc(), room, told), "at {room}");
    }
}

/// Whether a replay of these records reports the two frames, the third and a failed read.
fn tells_before_a_failed_read(alloc: Global, records: Pieces<'_>, settings: Settings) -> bool {
    let ended = replay_of(alloc, alloc, b"".as_slice(), records, settings);
    ended.result == Err(ReplayFault::Read)
        && is_front_and(&ended.report, REPORT, b"queued 2 class 3\n")
        && ended.capture.as_slice() == BOTH_LEFT.as_slice()
}

/// A read that fails after the last whole record ends a replay after what the records before it give.
#[test]
fn what_comes_before_a_failed_read_is_told(rt: HostRuntime) -> Result<(), Fail> {
    let settings = settings(Some(4_000_000_000_000)).ok_or("settings")?;
    let capture = three_captured(rt.alloc())?;
    let mut records = Pieces::new(capture.as_slice(), 1);
    records.fails_at = 126;
    assert!(rt; tells_before_a_failed_read(rt.alloc(), records, settings));
    Ok(())
}
