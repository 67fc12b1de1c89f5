//! Worked cases: lists that are refused, the rows of two lists, and that a visit is counted. Refused schedules are a
//! row of tests/histories.py.

use gates::gate_list::{Entry, GateFault, GateList, Schedule, Stay, Visits, laws};
use std::process::Abort;
use wire_time::{CLASSES, Rate};

const ALL_OPEN: Entry = Entry {
    mask: 0xff,
    interval: 480,
};

/// The schedule of these entries at 1 Gb/s, with this cycle.
fn schedule_of(rt: &impl Abort, entries: &[Entry], cycle_ns: u64) -> Schedule {
    let list = GateList::new(entries).expect(rt, "a list");
    let rate = Rate::from_mbps(1000).expect(rt, "a rate");
    Schedule::new(&list, 0, cycle_ns, 0, rate).expect(rt, "a schedule")
}

/// The stay that a row says.
fn stay_in(rt: &impl Abort, schedule: &Schedule, i: usize, class: usize) -> Stay {
    assert!(rt; i < schedule.len());
    assert!(rt; class < CLASSES);
    schedule.row(i, &mut Visits::zero()).stay[class]
}

#[test]
fn lists_are_refused_in_order(rt: HostRuntime) {
    let mut entries = [ALL_OPEN; 257];
    assert_eq!(rt; GateList::new(&[]), Err(GateFault::NoEntries));
    entries[3].interval = 0;
    assert_eq!(rt; GateList::new(&entries), Err(GateFault::TooManyEntries));
    assert_eq!(rt;
        GateList::new(&entries[..256]),
        Err(GateFault::ZeroInterval)
    );
    entries[3].interval = 1;
    let list = GateList::new(&entries[..256]).expect(&rt, "a list");
    assert_eq!(rt; list.entries(), &entries[..256]);
}

#[test]
fn a_cycle_of_zero_is_the_sum_of_the_intervals(rt: HostRuntime) {
    let longest = Entry {
        mask: 0xff,
        interval: u32::MAX,
    };
    let schedule = schedule_of(&rt, &[longest; 256], 0);
    assert_eq!(rt; schedule.len(), 256);
    assert_eq!(rt; schedule.base_ns(), 0);
    assert_eq!(rt; schedule.cycle_ns(), 1099511627520);
    assert_eq!(rt; schedule.extension_ns(), 0);
    assert_eq!(rt; schedule.change_moment(1), 1099511627520000);
    assert_eq!(rt; stay_in(&rt, &schedule, 255, 7), Stay::Always);
}

#[test]
fn rows_tell_open_time(rt: HostRuntime) {
    let window = |mask, interval| Entry { mask, interval };
    let schedule = schedule_of(
        &rt,
        &[window(8, 100000), window(0, 100000), window(8, 6000)],
        0,
    );
    assert_eq!(rt; stay_in(&rt, &schedule, 0, 3), Stay::Lasts(100000000));
    assert_eq!(rt; stay_in(&rt, &schedule, 1, 3), Stay::Lasts(0));
    assert_eq!(rt; stay_in(&rt, &schedule, 2, 3), Stay::Lasts(106000000));

    let entries = [window(1, 100000), window(3, 100000)];
    let long = schedule_of(&rt, &entries, 300000);
    let short = schedule_of(&rt, &entries, 150000);
    assert_eq!(rt; stay_in(&rt, &long, 0, 0), Stay::Always);
    assert_eq!(rt; stay_in(&rt, &long, 1, 0), Stay::Always);
    assert_eq!(rt; stay_in(&rt, &long, 0, 1), Stay::Lasts(0));
    assert_eq!(rt; stay_in(&rt, &long, 1, 1), Stay::Lasts(200000000));
    assert_eq!(rt; stay_in(&rt, &short, 1, 1), Stay::Lasts(50000000));

    let cut = schedule_of(&rt, &entries, 100000);
    assert_eq!(rt; stay_in(&rt, &cut, 0, 0), Stay::Always);
    assert_eq!(rt; stay_in(&rt, &cut, 1, 0), Stay::Lasts(0));
    assert_eq!(rt; long.keeps_apart(0), false);
    assert_eq!(rt; schedule.keeps_apart(3), true);
}

#[test]
fn entries_and_rows_count_one_visit(rt: HostRuntime) {
    let schedule = schedule_of(&rt, &[ALL_OPEN], 0);
    let mut visits = Visits::zero();
    assert!(rt; 0 < schedule.len());
    let entry = schedule.entry(0, &mut visits);
    assert_eq!(rt; entry, ALL_OPEN);
    assert_eq!(rt; schedule.row(0, &mut visits).entry, ALL_OPEN);
    assert_eq!(rt; visits.count(), 2);
}

#[test]
fn laws_have_nothing_to_run() {
    laws::phase_law();
    laws::change_law();
    laws::apart_law();
    laws::stay_law();
}
