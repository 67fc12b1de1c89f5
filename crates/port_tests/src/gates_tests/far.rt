//! Far moments: what a move and a search look at doesn't grow with them.
ghost use Rattle.std.specs.Prelude.{◌≡◌};
ghost use Rattle.gates.specs.Current.{IsCurrent};

use gates::gate_list::{Entry, GateList, Schedule, Visits};
use gates::list_config::Gates;
use gates::queue_heads::Heads;
use jumping::Jumping;
use std::process::Abort;
use wire_time::Rate;

/// Some thirty years, in picoseconds.
const FAR: u128 = 1_000_000_000_000_000_000_000;

/// A schedule at 1 Gb/s whose entries open class 0, class 1 and no class, for 1 us each.
fn three_entries(rt: &impl Abort) -> Schedule {
    let entries = [
        Entry {
            mask: 0x01,
            interval: 1000,
        },
        Entry {
            mask: 0x02,
            interval: 1000,
        },
        Entry {
            mask: 0x00,
            interval: 1000,
        },
    ];
    let list = GateList::new(&entries).expect(rt, "a list");
    let rate = Rate::from_mbps(1000).expect(rt, "a rate");
    Schedule::new(&list, 0, 0, 0, rate).expect(rt, "a schedule")
}

/// A port's gates with that list, in force from 12.336 us on, at the boundary after.
fn gates(rt: &impl Abort) -> Jumping
    ensures sound { IsCurrent result.history result.moment }
    ensures moment { result.moment ≡ 15000000 }
{
    let mut gates = Jumping::begin();
    assert_eq!(rt; gates.install(&three_entries(rt), 12336000), Ok(15000000));
    gates.move_to(15000000, &mut Visits::zero());
    gates
}

#[test]
fn far_moves_take_few_visits(rt: HostRuntime) {
    let mut gates = gates(&rt);
    let mut visits = Visits::zero();
    gates.move_to(FAR, &mut visits);
    assert!(rt; visits.count() <= 8);
    assert_eq!(rt; gates.mask(), 0x02);
}

#[test]
fn near_moves_take_none(rt: HostRuntime) {
    let mut gates = gates(&rt);
    let mut visits = Visits::zero();
    gates.move_to(15999999, &mut visits);
    assert_eq!(rt; visits.count(), 0);
    assert_eq!(rt; gates.mask(), 0x01);
    gates.move_to(16000000, &mut visits);
    assert!(rt; visits.count() <= 8);
    assert_eq!(rt; gates.mask(), 0x02);
}

#[test]
fn far_searches_take_few_visits(rt: HostRuntime) {
    let gates = gates(&rt);
    for (class, length, want) in [
        (0, 1000000, 15000000),
        (1, 1000000, 16000000),
        (1, 1000001, FAR),
        (2, 1, FAR),
    ] {
        let mut heads = Heads::none();
        heads.set(class, Some(length));
        let mut visits = Visits::zero();
        assert_eq!(rt; gates.quiet(&heads, FAR, &mut visits), want);
        assert!(rt; visits.count() <= 48);
    }
}
