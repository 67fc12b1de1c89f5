//! Tables of frames: readers, writers and heaps that fail.

use crate::replays::TWO_CAPTURED;
use frame_table::{run_frames, run_frames_by_stream, run_frames_of_capture};
use replay::ReplayFault;
use script::{RunFault, Settings, Unwatched};
use std::alloc::Global;
use std::process::Abort;
use std::test::Fail;
use test_support::refusing_heap::RefusingHeap;
use test_support::test_streams::{Narrow, Pieces};
use traffic::StreamsFault;
use wire_time::Rate;

/// A frame that is sent, three that wait in one class, and one that is dropped.
const SCRIPT: &[u8] =
    b"frame 1 7 60\nclock 1\nframe 2 0 60\nframe 3 0 60\nframe 4 0 60\nframe 5 16 60\n";

/// Their table.
const TABLE: &[u8] = b"id,class,len,arrival_ps,start_ps,end_ps,wait_ps,fate\n\
1,7,60,0,0,672000,0,sent\n5,,60,1,,,,NoClass\n2,0,60,1,,,,left\n3,0,60,1,,,,left\n4,0,60,1,,,,left\n";

/// A table of streams: two of the frames are of one.
const STREAMS: &[u8] = b"# none\nstream 2 0 60 1us 0us 2\n";

/// The table of the frames with their streams.
const BY_STREAM: &[u8] = b"id,class,len,arrival_ps,start_ps,end_ps,wait_ps,fate,stream\n\
1,7,60,0,0,672000,0,sent,\n5,,60,1,,,,NoClass,\n2,0,60,1,,,,left,2\n3,0,60,1,,,,left,2\n4,0,60,1,,,,left,\n";

/// A script beside a capture of two frames.
const BESIDE: &[u8] = b"clock 1\nquery\n";

/// The table of the two frames: the second comes no earlier than the first, and goes first.
const OF_CAPTURE: &[u8] = b"id,class,len,arrival_ps,start_ps,end_ps,wait_ps,fate\n\
1,5,60,2000500000000,2000500000000,2000500672000,0,sent\n0,3,60,2000500000000,2000500672000,2000501344000,672000,sent\n";

/// The settings that a test has: 1000 Mb/s, an mtu of 1500 octets and room for 128 frames a class.
fn usual(rt: &impl Abort) -> Settings {
    let rate = Rate::from_mbps(1000).expect(rt, "a rate");
    Settings::new(rate, 1500, 128, None).expect(rt, "settings")
}

/// Whether a run whose read of this number fails reports that, behind a prefix of the table; or has no such read.
fn is_read(alloc: Global, settings: Settings, at: u32) -> bool {
    let mut failing = Pieces::new(SCRIPT, 9);
    failing.fails_at = at;
    let mut got = Vec::new(alloc);
    let run = run_frames(alloc, failing, &mut got, settings, &mut Unwatched);
    if run.is_ok() {
        return got.as_slice() == TABLE;
    }
    run == Err(RunFault::Read) && TABLE.starts_with(got.as_slice())
}

/// Whether a writer with room for so many octets, and no more, gets a prefix of the table.
fn is_written(alloc: Global, settings: Settings, room: usize) -> bool {
    let mut narrow = Narrow {
        got: Vec::new(alloc),
        piece: 7,
        room,
        fails: room % 2 == 0,
        recovers: true,
    };
    let run = run_frames(alloc, SCRIPT, &mut narrow, settings, &mut Unwatched);
    run == Err(RunFault::Write) && TABLE.starts_with(narrow.got.as_slice())
}

/// Whether a growth of this number is refused, which is reported behind a prefix of the table; or it isn't asked for.
/// None where it comes out otherwise.
fn is_refused(alloc: Global, settings: Settings, number: u64) -> Option<bool> {
    let heap = RefusingHeap::new(alloc, number, true);
    let mut got = Vec::new(alloc);
    let run = run_frames(&heap, SCRIPT, &mut got, settings, &mut Unwatched);
    if heap.asked() > number {
        (run == Err(RunFault::Memory) && TABLE.starts_with(got.as_slice())).then_some(true)
    } else {
        (run == Ok(()) && got.as_slice() == TABLE).then_some(false)
    }
}

/// Whether a run whose read of this number of the table of streams fails reports that, and writes nothing; or has no
/// such read.
fn is_table_read(alloc: Global, settings: Settings, at: u32) -> bool {
    let mut failing = Pieces::new(STREAMS, 9);
    failing.fails_at = at;
    let mut got = Vec::new(alloc);
    let run = run_frames_by_stream(alloc, failing, SCRIPT, &mut got, settings, &mut Unwatched);
    if run.is_ok() {
        return got.as_slice() == BY_STREAM;
    }
    run == Err(StreamsFault::Read) && got.as_slice().is_empty()
}

/// Whether a growth of this number is refused with streams, as `is_refused` has it.
fn is_refused_by_stream(alloc: Global, settings: Settings, number: u64) -> Option<bool> {
    let heap = RefusingHeap::new(alloc, number, true);
    let mut got = Vec::new(alloc);
    let run = run_frames_by_stream(&heap, STREAMS, SCRIPT, &mut got, settings, &mut Unwatched);
    if heap.asked() > number {
        (run == Err(StreamsFault::Memory) && BY_STREAM.starts_with(got.as_slice())).then_some(true)
    } else {
        (run == Ok(()) && got.as_slice() == BY_STREAM).then_some(false)
    }
}

/// Whether a run with a capture whose read of this number fails, of the capture where that is even and of the script
/// else, reports that behind a prefix of the table; or has no such read.
fn is_capture_read(alloc: Global, settings: Settings, number: u32) -> bool {
    let mut capture = Pieces::new(&TWO_CAPTURED, 9);
    let mut script = Pieces::new(BESIDE, 4);
    if number % 2 == 0 {
        capture.fails_at = number / 2;
    } else {
        script.fails_at = number / 2;
    }
    let mut got = Vec::new(alloc);
    let run = run_frames_of_capture(alloc, script, capture, &mut got, settings, &mut Unwatched);
    if run.is_ok() {
        return got.as_slice() == OF_CAPTURE;
    }
    run == Err(ReplayFault::Read) && OF_CAPTURE.starts_with(got.as_slice())
}

/// Whether a writer with room for so many octets, and no more, gets a prefix of the table of a capture.
fn is_capture_written(alloc: Global, settings: Settings, room: usize) -> bool {
    let mut narrow = Narrow {
        got: Vec::new(alloc),
        piece: 7,
        room,
        fails: room % 2 == 0,
        recovers: true,
    };
    let capture = TWO_CAPTURED.as_slice();
    let run = run_frames_of_capture(
        alloc,
        BESIDE,
        capture,
        &mut narrow,
        settings,
        &mut Unwatched,
    );
    run == Err(ReplayFault::Write) && OF_CAPTURE.starts_with(narrow.got.as_slice())
}

/// Whether a growth of this number is refused with a capture, as `is_refused` has it.
fn is_refused_of_capture(alloc: Global, settings: Settings, number: u64) -> Option<bool> {
    let heap = RefusingHeap::new(alloc, number, true);
    let mut got = Vec::new(alloc);
    let capture = TWO_CAPTURED.as_slice();
    let run = run_frames_of_capture(&heap, BESIDE, capture, &mut got, settings, &mut Unwatched);
    if heap.asked() > number {
        (run == Err(ReplayFault::Memory) && OF_CAPTURE.starts_with(got.as_slice())).then_some(true)
    } else {
        (run == Ok(()) && got.as_slice() == OF_CAPTURE).then_some(false)
    }
}

/// Each read fails in turn, and a writer that takes no more gets a prefix.
#[test]
fn failed_reads_and_writes_end_it(rt: HostRuntime) -> Result<(), Fail> {
    let settings = usual(&rt);
    for at in 0..16u32 {
        assert!(rt; is_read(rt.alloc(), settings, at), "read {at}");
    }
    for room in 0..TABLE.len() {
        assert!(rt; is_written(rt.alloc(), settings, room), "at {room}");
    }
    Ok(())
}

/// Each growth is refused in turn, also that of a class whose frames wait: none is asked for anew, and no frame is lost
/// without a word.
#[test]
fn memory_is_wanting_only_where_it_is_refused(rt: HostRuntime) {
    let settings = usual(&rt);
    let mut refused = 0u32;
    for number in 0..64u64 {
        let met = is_refused(rt.alloc(), settings, number);
        assert!(rt; met.is_some(), "growth {number}");
        if met == Some(true) {
            refused = refused.saturating_add(1);
        }
    }
    assert!(rt; 4 < refused && refused < 64);
}

/// Each read of the table of streams fails in turn: nothing is written then.
#[test]
fn failed_reads_of_a_table_of_streams_end_it(rt: HostRuntime) -> Result<(), Fail> {
    let settings = usual(&rt);
    for at in 0..8u32 {
        assert!(rt; is_table_read(rt.alloc(), settings, at), "read {at}");
    }
    Ok(())
}

/// Each growth is refused in turn, also that of the streams.
#[test]
fn memory_for_streams_is_wanting_only_where_it_is_refused(rt: HostRuntime) {
    let settings = usual(&rt);
    let mut refused = 0u32;
    for number in 0..64u64 {
        let met = is_refused_by_stream(rt.alloc(), settings, number);
        assert!(rt; met.is_some(), "growth {number}");
        if met == Some(true) {
            refused = refused.saturating_add(1);
        }
    }
    assert!(rt; 6 < refused && refused < 64);
}

/// Each read of a script and of a capture fails in turn, and a writer that takes no more gets a prefix.
#[test]
fn failed_reads_and_writes_end_a_run_with_a_capture(rt: HostRuntime) -> Result<(), Fail> {
    let settings = usual(&rt);
    for number in 0..40u32 {
        assert!(rt;
            is_capture_read(rt.alloc(), settings, number),
            "read {number}"
        );
    }
    for room in 0..OF_CAPTURE.len() {
        assert!(rt; is_capture_written(rt.alloc(), settings, room), "at {room}");
    }
    Ok(())
}

/// Each growth is refused in turn, also that of the script that is kept and of the capture's octets.
#[test]
fn memory_for_a_capture_is_wanting_only_where_it_is_refused(rt: HostRuntime) {
    let settings = usual(&rt);
    let mut refused = 0u32;
    for number in 0..64u64 {
        let met = is_refused_of_capture(rt.alloc(), settings, number);
        assert!(rt; met.is_some(), "growth {number}");
        if met == Some(true) {
            refused = refused.saturating_add(1);
        }
    }
    assert!(rt; 4 < refused && refused < 64);
}
