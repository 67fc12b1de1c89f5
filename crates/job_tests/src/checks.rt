//! Readers and writers of schedule commands that fail, and heaps that are too small.

use linked_list_allocator::LocalHeap;
use schedule_check::{CheckSettings, check};
use script::{RunFault, Unwatched};
use std::alloc::{Allocator, Global};
use std::io::{Read, Write};
use test_support::test_streams::{Narrow, Pieces};
use wire_time::Rate;

/// The example of tc-taprio(8), and a schedule that opens classes 0 and 1 together; a deletion; and lines that are
/// skipped.
const SCHEDULES: &[u8] = b"# the manual's example\n\
tc qdisc replace dev eth0 parent root handle 100 taprio num_tc 3 map 2 2 1 0 2 2 2 2 2 2 2 2 2 2 2 2 \\\n\
 queues 1@0 1@1 2@2 base-time 1528743495910289987 sched-entry S 01 300000 sched-entry S 02 300000 \\\r\n\
 sched-entry S 04 400000 clockid CLOCK_TAI\n\n\
tc qdisc replace dev eth0 root taprio num_tc 8 map 0 1 2 3 4 5 6 7 sched-entry S 01 300000 sched-entry S 03 300000\n\
tc qdisc del dev eth0 root\n\
tc qdisc replace dev eth0 root taprio sched-entry S 01 479\n\
tc qdisc replace dev eth0 root taprio base-time 0\n";

/// What is reported of them.
const TOLD: &[u8] =
    b"apart 0 1 2\napart 2 3 4 5 6 7\napart none\nrefused IntervalTooShort 0\ntc-fault NoEntries\n";

/// What is reported of them with the classes that share windows, and with windows.
const TOLD_WITH_WINDOWS: &[u8] = b"apart 0 1 2\n\
window class 0 open 300000000 closed 700000000 share 300000000 of 1000000000 frame 37476 wait 999999999\n\
window class 1 open 300000000 closed 700000000 share 300000000 of 1000000000 frame 37476 wait 999999999\n\
window class 2 open 400000000 closed 600000000 share 400000000 of 1000000000 frame 49976 wait 999999999\n\
apart 2 3 4 5 6 7\n\
shares 0 with 1\n\
shares 1 with 0\n\
window class 0 open always closed 0 share 600000000 of 600000000 frame any wait 0\n\
window class 1 open 300000000 closed 300000000 share 300000000 of 600000000 frame 37476 wait 599999999\n\
never 2\n\
never 3\n\
never 4\n\
never 5\n\
never 6\n\
never 7\n\
apart none\n\
refused IntervalTooShort 0\n\
tc-fault NoEntries\n";

/// What is reported of the commands from a reader at 1 Gb/s, with what is shared and with windows, or without both, in
/// this memory.
fn check_of<A: Allocator, R: Read + Drop, W: Write>(
    alloc: A,
    reader: R,
    writer: &mut W,
    windows: bool,
) -> Result<(), RunFault> {
    let Ok(rate) = Rate::from_mbps(1000) else {
        return Err(RunFault::Memory);
    };
    let settings = CheckSettings {
        shares: windows,
        ..CheckSettings::usual(rate, windows)
    };
    check(alloc, reader, writer, settings, &mut Unwatched)
}

/// Whether a heap of so many octets is enough for the commands; none where what is reported is wrong.
fn is_enough(alloc: Global, octets: usize) -> Option<bool> {
    let heap = LocalHeap::new(alloc, octets).ok()?;
    let mut got = Vec::new(alloc);
    match check_of(&heap, SCHEDULES, &mut got, false) {
        Ok(()) => (got.as_slice() == TOLD).then_some(true),
        Err(fault) => (fault == RunFault::Memory && TOLD.starts_with(&got)).then_some(false),
    }
}

/// Once a heap is enough, each greater one is.
#[test]
fn refuses_each_growth(rt: HostRuntime) {
    let mut enough = Some(false);
    for size in 1..40usize {
        let before = enough;
        enough = is_enough(rt.alloc(), 6000 * size);
        assert!(rt; enough >= before, "at {size}");
    }
    assert_eq!(rt; enough, Some(true));
}

/// Whether all is reported, or a failed read of this number, once or for ever, and a prefix of the rest.
fn is_read(alloc: Global, fails_at: u32, recovers: bool) -> bool {
    let mut reader = Pieces::new(SCHEDULES, 60);
    reader.fails_at = fails_at;
    reader.recovers = recovers;
    let mut got = Vec::new(alloc);
    match check_of(alloc, reader, &mut got, false) {
        Ok(()) => got.as_slice() == TOLD,
        Err(fault) => fault == RunFault::Read && TOLD.starts_with(&got),
    }
}

/// Each read in turn fails, once or for ever: it isn't tried again.
#[test]
fn stops_at_each_read(rt: HostRuntime) {
    for fails_at in 0..12u32 {
        assert!(rt; is_read(rt.alloc(), fails_at, false), "at {fails_at}");
        assert!(rt; is_read(rt.alloc(), fails_at, true), "at {fails_at}, once");
    }
}

/// Whether a writer with room for so many octets, which then fails or takes nothing, gets what it has room for.
fn is_written(alloc: Global, room: usize, fails: bool, recovers: bool) -> bool {
    let mut writer = Narrow {
        got: Vec::new(alloc),
        piece: 7,
        room,
        fails,
        recovers,
    };
    let result = check_of(alloc, SCHEDULES, &mut writer, true);
    let fault = (room < TOLD_WITH_WINDOWS.len()).then_some(RunFault::Write);
    result.err() == fault && writer.got.len() == room && TOLD_WITH_WINDOWS.starts_with(&writer.got)
}

/// Each write in turn fails, or takes nothing: what was taken before is a prefix of what is reported.
#[test]
fn stops_at_each_write(rt: HostRuntime) {
    for room in 0..=TOLD_WITH_WINDOWS.len() {
        for (fails, recovers) in [(false, false), (true, false), (true, true)] {
            let is_right = is_written(rt.alloc(), room, fails, recovers);
            assert!(rt; is_right, "{room} {fails} {recovers}");
        }
    }
}
