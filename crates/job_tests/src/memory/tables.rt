//! Tables of streams in memory.

use crate::memory::lent::{DOTS, done, has};
use in_memory::{Ran, streams_octets};
use std::alloc::Global;
use traffic::Timing;
use wire_time::MAX_MOMENT;

/// Two frames of one stream.
const TABLE: &[u8] = b"stream 1 5 60 250us 0ns 2\n";

/// Lines that come among them.
const SCRIPT: &[u8] = b"query\nclock 5\ncount 5";

/// The script of both.
const BOTH: &[u8] =
    b"query\nclock 0\nframe 1 5 60\nclock 5\ncount 5\nclock 250000000\nframe 2 5 60\n";

/// Whether that is written.
fn is_made(alloc: Global) -> bool {
    let (mut output, mut fault) = (DOTS, DOTS);
    let ran = streams_octets(
        &alloc,
        Timing::Earliest,
        0,
        TABLE,
        SCRIPT,
        &mut output,
        &mut fault,
    );
    ran == done(BOTH.len()) && has(&output, BOTH) && has(&fault, b"")
}

#[test]
fn makes_a_script_with_lines(rt: HostRuntime) {
    assert!(rt; is_made(rt.alloc()));
}

/// Whether the table's offsets count from a moment: its script, or a fault with its text.
fn comes_later(alloc: Global, from: u128, text: &[u8], said: &[u8], status: u8) -> bool {
    let (mut output, mut fault) = (DOTS, DOTS);
    let ran = streams_octets(
        &alloc,
        Timing::Earliest,
        from,
        TABLE,
        b"",
        &mut output,
        &mut fault,
    );
    let wanted = Ran {
        output: text.len(),
        fault: said.len(),
        status,
    };
    ran == wanted && has(&output, text) && has(&fault, said)
}

/// From the greatest moment on no frame comes, and the one after it is none.
#[test]
fn offsets_count_from_a_moment(rt: HostRuntime) {
    let later = b"clock 7\nframe 1 5 60\nclock 250000007\nframe 2 5 60\n";
    let too_late = b"taprio_port: table line 1: ClockTooLate\n";
    let bad_from = b"taprio_port: bad value of --from\n";
    assert!(rt; comes_later(rt.alloc(), 7, later, b"", 0));
    assert!(rt; comes_later(rt.alloc(), MAX_MOMENT, b"", too_late, 3));
    assert!(rt; comes_later(rt.alloc(), MAX_MOMENT + 1, b"", bad_from, 2));
}
