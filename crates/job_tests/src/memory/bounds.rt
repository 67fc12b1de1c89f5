//! The delays of streams, from memory.

use crate::memory::lent::{DOTS, USUAL, done, has};
use in_memory::{BoundsAsked, PortValues, Ran, bounds_octets};
use std::alloc::Global;

/// Nothing is asked beside the usual.
pub const NOTHING: BoundsAsked = BoundsAsked {
    slack: false,
    why: false,
    leftovers: false,
    silent: 0,
};

/// A window for each of two classes.
const SCHEDULE: &[u8] = b"tc qdisc replace dev eth0 root taprio num_tc 2 map 0 1 base-time 0 \
sched-entry S 2 50000 sched-entry S 1 200000\n";

/// A stream whose frames are dropped when they come.
const LOST: &[u8] = b"stream 7 0 9 1ms 0ns 1 deadline 1ps\n";

/// What is answered about it.
const MISSED: &[u8] = b"apart 0 1\nbound 7 dropped Runt deadline 1 missed\n";

/// Whether a deadline that is missed is no fault.
fn is_missed(alloc: Global) -> bool {
    let (mut output, mut fault) = (DOTS, DOTS);
    let ran = bounds_octets(
        alloc,
        USUAL,
        1,
        NOTHING,
        LOST,
        SCHEDULE,
        &mut output,
        &mut fault,
    );
    ran == done(MISSED.len()) && has(&output, MISSED) && has(&fault, b"")
}

#[test]
fn a_missed_deadline_is_no_fault(rt: HostRuntime) {
    assert!(rt; is_missed(rt.alloc()));
}

/// An mtu that is too small.
const NARROW: PortValues = PortValues { mtu: 67, ..USUAL };

/// Whether values, or a table whose stream has no period, are refused with this text, and nothing is written.
fn is_refused(alloc: Global, values: PortValues, frames: u64, text: &[u8], status: u8) -> bool {
    let (mut output, mut fault) = (DOTS, DOTS);
    let table = b"stream 1 1 60 0us 60us 1\n";
    let ran = bounds_octets(
        alloc,
        values,
        frames,
        NOTHING,
        table,
        SCHEDULE,
        &mut output,
        &mut fault,
    );
    let wanted = Ran {
        output: 0,
        fault: text.len(),
        status,
    };
    ran == wanted && has(&output, b"") && has(&fault, text)
}

/// The first of the values that is out of its limits is told, and then the table.
#[test]
fn values_and_a_table_are_refused(rt: HostRuntime) {
    let bad_mtu = b"taprio_port: bad value of --mtu\n";
    let bad_frames = b"taprio_port: bad value of --frames\n";
    let bad_number = b"taprio_port: table line 1: BadNumber\n";
    assert!(rt; is_refused(rt.alloc(), NARROW, 0, bad_mtu, 2));
    assert!(rt; is_refused(rt.alloc(), USUAL, 0, bad_frames, 2));
    assert!(rt; is_refused(rt.alloc(), USUAL, 1_000_000_001, bad_frames, 2));
    assert!(rt; is_refused(rt.alloc(), USUAL, 1_000_000_000, bad_number, 3));
}
