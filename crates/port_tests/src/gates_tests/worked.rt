//! Worked cases: what is counted.
ghost use Rattle.std.specs.Prelude.{◌≡◌, ◌≤◌, ◌<◌};
ghost use Rattle.wire_time.specs.Moment.{greatest_moment};
ghost use Rattle.gates.specs.Current.{IsCurrent};

use gates::gate_list::{Entry, GateList, Schedule, Visits};
use gates::list_config::Gates;
use jumping::stepped::Stepped;
use std::process::Abort;
use wire_time::Rate;

/// The schedule of two masks with their intervals at 1 Gb/s.
fn schedule_of(rt: &impl Abort, entries: [Entry; 2], base_ns: u64, extension_ns: u64) -> Schedule {
    let list = GateList::new(&entries).expect(rt, "a list");
    let rate = Rate::from_mbps(1000).expect(rt, "a rate");
    Schedule::new(&list, base_ns, 0, extension_ns, rate).expect(rt, "a schedule")
}

fn entry(mask: u8, interval: u32) -> Entry {
    Entry { mask, interval }
}

/// A port's gates with a list of 01 for 600 us and 02 for 400 us, in force from 1 ms on.
fn two_masks(rt: &impl Abort, extension_ns: u64) -> Stepped
    ensures sound { IsCurrent result.history result.moment }
    ensures moment { result.moment ≡ 0 }
{
    let mut gates = Stepped::begin();
    let list = schedule_of(
        rt,
        [entry(0x01, 600000), entry(0x02, 400000)],
        1000000,
        extension_ns,
    );
    assert_eq!(rt; gates.install(&list, 12336000), Ok(1000000000));
    gates
}

/// How many entries a move to a later moment looks at.
fn visits_to(rt: &impl Abort, gates: &mut Stepped, t: u128) -> u64
    requires sound { IsCurrent gates.old.history gates.old.moment }
    requires within { t ≤ greatest_moment }
    ensures sound { IsCurrent gates.new.history gates.new.moment }
    ensures moment { gates.new.moment ≡ t }
{
    assert!(rt; gates.now() <= t);
    let mut visits = Visits::zero();
    gates.move_to(t, &mut visits);
    visits.count()
}

/// A list that comes into force, or is placed anew at a lead moment, looks at its entries from the first up to the one
/// of the moment. Each entry that begins later is one more, also where a cycle begins; a cycle that begins in a hold
/// looks at its first entry and at the last.
#[test]
fn a_move_counts_each_entry_that_it_looks_at(rt: HostRuntime) {
    let mut gates = two_masks(&rt, 200000);
    assert_eq!(rt; visits_to(&rt, &mut gates, 999999999), 0);
    assert_eq!(rt; visits_to(&rt, &mut gates, 1000000000), 1);
    assert_eq!(rt; visits_to(&rt, &mut gates, 1599999999), 0);
    assert_eq!(rt; visits_to(&rt, &mut gates, 1600000000), 1);
    assert_eq!(rt; visits_to(&rt, &mut gates, 2000000000), 1);
    let next = schedule_of(&rt, [entry(0x04, 500000), entry(0x04, 500000)], 5150000, 0);
    assert_eq!(rt; gates.install(&next, 2012336000), Ok(5150000000));
    assert_eq!(rt; visits_to(&rt, &mut gates, 2012336000), 1);
    // Entries begin at 2.6, 3, 3.6, 4 and 4.6 ms.
    assert_eq!(rt; visits_to(&rt, &mut gates, 4999999999), 5);
    assert_eq!(rt; visits_to(&rt, &mut gates, 5000000000), 2);
    assert_eq!(rt; visits_to(&rt, &mut gates, 5149999999), 0);
    assert_eq!(rt; visits_to(&rt, &mut gates, 5150000000), 1);
}

/// Only where one command is pending and another that is announced replaces it the list is placed at the lead moment
/// ahead, in its first entry: one visit each time, also where the class is shut now.
#[test]
fn a_list_is_placed_ahead_for_two_commands_alone(rt: HostRuntime) {
    let mut gates = two_masks(&rt, 0);
    let mut visits = Visits::zero();
    let _ = visits_to(&rt, &mut gates, 2000000000);
    assert!(rt; gates.stays_open(0, 600000000, &mut visits));
    let next = schedule_of(&rt, [entry(0x04, 500000), entry(0x04, 500000)], 5150000, 0);
    assert_eq!(rt; gates.install(&next, 2012336000), Ok(5150000000));
    let _ = visits_to(&rt, &mut gates, 2050000000);
    assert!(rt; gates.stays_open(0, 550000000, &mut visits));
    assert_eq!(rt; gates.delete(2062336000), Ok(2062336000));
    assert_eq!(rt; visits.count(), 0);
    assert!(rt; !gates.stays_open(1, 1, &mut visits));
    assert_eq!(rt; visits.count(), 1);
    assert!(rt; gates.stays_open(0, 1000000000, &mut visits));
    assert_eq!(rt; visits.count(), 2);
}
