//! What a schedule gives a class that is never open: the program writes no line of it.

use gates::gate_list::{Entry, GateList, Stay};
use schedule_check::{Longest, Window, Windows};
use std::process::Abort;
use wire_time::{CLASSES, Rate};

/// An entry of this mask for so many nanoseconds.
fn entry(mask: u8, interval: u32) -> Entry {
    Entry { mask, interval }
}

/// What the schedule of these entries gives a class at 1 Gb/s, with this cycle.
fn window_of(rt: &impl Abort, entries: &[Entry], cycle_ns: u64, class: u8) -> Window {
    let list = GateList::new(entries).expect(rt, "a list");
    let rate = Rate::from_mbps(1000).expect(rt, "a rate");
    let windows = Windows::new(&list, 0, cycle_ns, 0, rate).expect(rt, "a schedule");
    assert!(rt; class < CLASSES as u8);
    windows.window(rate, class)
}

/// No entry opens class 3; the cycle ends where the entry that opens class 1 begins.
#[test]
fn a_class_that_is_never_open(rt: HostRuntime) {
    let never = Window {
        open_time: Stay::Lasts(0),
        closed_time: Stay::Always,
        share: 0,
        cycle: 1_000_000_000,
        longest_frame: Longest::NoFrame,
    };
    let entries = [entry(1, 300000), entry(2, 300000), entry(4, 400000)];
    assert_eq!(rt; window_of(&rt, &entries, 0, 3), never);
    let entries = [entry(1, 100000), entry(3, 100000)];
    let cut = Window {
        cycle: 100_000_000,
        ..never
    };
    assert_eq!(rt; window_of(&rt, &entries, 100000, 1), cut);
}
