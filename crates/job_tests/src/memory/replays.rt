//! Scripts and captures in memory.

use crate::memory::lent::{DOTS, USUAL, has, room_for};
use in_memory::{PortValues, ReplayRan, replay_octets};
use replay::Stamp;
use std::alloc::Global;
use test_support::test_streams::{BOTH_LEFT, BOTH_TOLD, FIRST_LEFT, FIRST_TOLD, TWO_RECORDS};

/// Late enough for all that is sent.
const VALUES: PortValues = PortValues {
    until: Some(3_000_000_000_000),
    ..USUAL
};

/// Whether the two frames are reported, and leave.
fn is_replayed(alloc: Global) -> bool {
    let (mut report, mut departures, mut fault) = (DOTS, DOTS, DOTS);
    let ran = replay_octets(
        &alloc,
        VALUES,
        Stamp::Start,
        b"",
        &TWO_RECORDS,
        &mut report,
        &mut departures,
        &mut fault,
    );
    let wanted = ReplayRan {
        report: BOTH_TOLD.len(),
        departures: BOTH_LEFT.len(),
        fault: 0,
        status: 0,
    };
    ran == wanted && has(&report, BOTH_TOLD) && has(&departures, &BOTH_LEFT) && has(&fault, b"")
}

#[test]
fn replays_a_capture(rt: HostRuntime) {
    assert!(rt; is_replayed(rt.alloc()));
}

/// The text of the fault of two records of which the second is cut.
const CUT: &[u8] = b"taprio_port: capture record 1: ShortRecord\n";

/// Whether the one frame is reported, and leaves, and the fault is told; or, where the slice of this number lacks an
/// octet, nothing is written.
fn is_told(alloc: Global, lacking: u8) -> bool {
    let (mut report, mut departures, mut fault) = (DOTS, DOTS, DOTS);
    let ran = replay_octets(
        &alloc,
        VALUES,
        Stamp::Start,
        b"",
        &TWO_RECORDS[..91],
        &mut report[..room_for(FIRST_TOLD, lacking == 0)],
        &mut departures[..room_for(&FIRST_LEFT, lacking == 1)],
        &mut fault[..room_for(CUT, lacking == 2)],
    );
    let lacks = lacking < 3;
    let wanted = ReplayRan {
        report: FIRST_TOLD.len(),
        departures: FIRST_LEFT.len(),
        fault: CUT.len(),
        status: if lacks { 5 } else { 3 },
    };
    let (told, left, text): (&[u8], &[u8], &[u8]) = if lacks {
        (b"", b"", b"")
    } else {
        (FIRST_TOLD, &FIRST_LEFT, CUT)
    };
    ran == wanted && has(&report, told) && has(&departures, left) && has(&fault, text)
}

/// Each of the three slices too small by one, and then just large enough.
#[test]
fn the_room_that_is_told_is_enough(rt: HostRuntime) {
    for lacking in 0..4u8 {
        assert!(rt; is_told(rt.alloc(), lacking), "slice {lacking}");
    }
}
