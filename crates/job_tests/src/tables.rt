//! Readers and writers of tables and scripts that fail, and heaps that refuse.

use script::Unwatched;
use std::alloc::Global;
use test_support::refusing_heap::RefusingHeap;
use test_support::test_streams::{Narrow, Pieces};
use traffic::{Plan, StreamsFault, write_streams};

/// Two streams that meet at each second period of the first, a stream of no frames, and lines that are skipped.
const TABLE: &[u8] = b"# id priority len period offset count\n\
stream 1 5 60 250us 0ns 3\n\
\n\
stream 100 7 1514 500us 0s 2 tagged\r\n\
stream 200 0 60 1ps 0ps 0\n\
stream 7 3 \\\n 64 0s 250000ns 2";

/// A script: lines at 0, between the moments of frames, at one of them, and after the last.
const WITH: &[u8] =
    b"# the schedule\ntc qdisc replace\nquery\nclock 100\ncount 5\nclock 250000000\nquery\n\
clock 300000000\nquery\nclock 500000001\nquery";

/// The script of the table with those lines.
const BOTH: &[u8] =
    b"# the schedule\ntc qdisc replace\nquery\nclock 0\nframe 1 5 60\nframe 100 7 1514 tagged\n\
clock 100\ncount 5\nclock 250000000\nquery\nframe 2 5 60\nframe 7 3 64\nframe 8 3 64\n\
clock 300000000\nquery\nclock 500000000\nframe 3 5 60\nframe 101 7 1514 tagged\n\
clock 500000001\nquery\n";

/// Whether a growth of this number is refused, which is reported, and nothing is written; or it isn't asked for, and
/// all is written. None where it comes out otherwise.
fn is_refused(alloc: Global, number: u64) -> Option<bool> {
    let heap = RefusingHeap::new(alloc, number, true);
    let mut got = Vec::new(alloc);
    let run = write_streams(
        &heap,
        TABLE,
        WITH,
        &mut got,
        Plan::earliest(0),
        &mut Unwatched,
    );
    if heap.asked() > number {
        (run == Err(StreamsFault::Memory) && got.is_empty()).then_some(true)
    } else {
        (run == Ok(()) && got.as_slice() == BOTH).then_some(false)
    }
}

/// Each growth refused in turn, until a run asks for no further one.
#[test]
fn wants_memory_only_where_it_is_refused(rt: HostRuntime) {
    let mut refused = 0u32;
    for number in 0..16u64 {
        let met = is_refused(rt.alloc(), number);
        assert!(rt; met.is_some(), "growth {number}");
        if met == Some(true) {
            refused = refused.saturating_add(1);
        }
    }
    assert!(rt; 4 < refused && refused < 16);
}

/// Whether all is written where both inputs come in pieces of so many octets.
fn is_read_in(alloc: Global, piece: usize) -> bool {
    let mut got = Vec::new(alloc);
    let table = Pieces::new(TABLE, piece);
    let run = write_streams(
        alloc,
        table,
        Pieces::new(WITH, piece),
        &mut got,
        Plan::earliest(0),
        &mut Unwatched,
    );
    run == Ok(()) && got.as_slice() == BOTH
}

/// Whether a read of the table with this number that fails is the last, and nothing is written.
fn is_told_at(alloc: Global, fails_at: u32) -> bool {
    let mut reader = Pieces::new(TABLE, 40);
    reader.fails_at = fails_at;
    reader.recovers = true;
    let mut got = Vec::new(alloc);
    let run = write_streams(
        alloc,
        &mut reader,
        WITH,
        &mut got,
        Plan::earliest(0),
        &mut Unwatched,
    );
    run == Err(StreamsFault::Read) && got.is_empty() && reader.calls == fails_at.saturating_add(1)
}

#[test]
fn reads_pieces_and_stops_at_a_failed_read(rt: HostRuntime) {
    for piece in 1..40usize {
        assert!(rt; is_read_in(rt.alloc(), piece), "pieces of {piece}");
    }
    for fails_at in 0..5u32 {
        assert!(rt; is_told_at(rt.alloc(), fails_at), "at {fails_at}");
    }
}

/// How much is written before a read of the script with this number, which fails and is the last; none where it comes
/// out otherwise.
fn written_before(alloc: Global, fails_at: u32) -> Option<usize> {
    let mut reader = Pieces::new(WITH, 40);
    reader.fails_at = fails_at;
    reader.recovers = true;
    let mut got = Vec::new(alloc);
    let run = write_streams(
        alloc,
        TABLE,
        &mut reader,
        &mut got,
        Plan::earliest(0),
        &mut Unwatched,
    );
    let is_front = BOTH.starts_with(&got) && got.len() < BOTH.len();
    let is_last = reader.calls == fails_at.saturating_add(1);
    (run == Err(StreamsFault::Read) && is_front && is_last).then_some(got.len())
}

/// What comes before the line that can't be read is written, and nothing more.
#[test]
fn stops_at_a_failed_read_of_the_script(rt: HostRuntime) {
    let mut last = Some(0);
    for fails_at in 0..4u32 {
        let before = last;
        last = written_before(rt.alloc(), fails_at);
        assert!(rt; last >= before, "at {fails_at}");
    }
    assert!(rt; last > Some(0));
}

/// Whether a writer with room for so many octets, and no more, gets those.
fn is_written(alloc: Global, room: usize) -> bool {
    let mut writer = Narrow {
        got: Vec::new(alloc),
        piece: 11,
        room,
        fails: room % 2 == 0,
        recovers: room % 4 == 0,
    };
    let run = write_streams(
        alloc,
        TABLE,
        WITH,
        &mut writer,
        Plan::earliest(0),
        &mut Unwatched,
    );
    run == Err(StreamsFault::Write) && writer.got.len() == room && BOTH.starts_with(&writer.got)
}

#[test]
fn stops_at_each_write(rt: HostRuntime) {
    for room in 0..BOTH.len() {
        assert!(rt; is_written(rt.alloc(), room), "at {room}");
    }
}
