//! The bands of schedules. With a change, a hold and a deletion, and in a viewport, they are lanes of tests/draw.toml.

use abstract_port::{Change, Command};
use gates::gate_list::{Entry, GateList};
use picture::{Bands, Shape, Span};
use std::process::Abort;
use std::test::Fail;
use wire_time::{CLASSES, Rate};

/// How long before a command comes into force it is given: the longest frame at 1 Gb/s, in picoseconds.
const LEAD: u128 = 12_336_000;

/// Class 0 for 480 ns, then class 1 for 520 ns.
const FIRST: [Entry; 2] = [
    Entry {
        mask: 1,
        interval: 480,
    },
    Entry {
        mask: 2,
        interval: 520,
    },
];

/// The command of both, which take a microsecond together.
fn first(rt: &impl Abort) -> Command {
    Command::Replace(Change {
        map: None,
        queues: None,
        max_sdu: None,
        list: GateList::new(&FIRST).expect(rt, "a list"),
        base_ns: 0,
        cycle_ns: 1_000,
        extension_ns: 0,
    })
}

/// The bands of a class, each with its first moment and the first after it.
fn assert_bands(rt: &impl Abort, bands: &Bands, class: u8, expected: &[(u128, u128)]) {
    assert!(rt; class < CLASSES as u8);
    let lane = bands.lane(class);
    assert_eq!(rt; lane.len(), expected.len());
    for (shape, (from, to)) in lane.iter().zip(expected) {
        let span = Span {
            from: *from,
            to: *to,
        };
        assert_eq!(rt; *shape, Shape { span, id: Some(0) });
    }
}

/// A list comes into force at its change moment, from which its entries open and close the classes.
#[test]
fn a_band_ends_where_its_entry_does(rt: HostRuntime) -> Result<(), Fail> {
    let rate = Rate::from_mbps(1000).expect(&rt, "a rate");
    let mut bands = Bands::new(&rt.alloc(), 0, None)?;
    bands.install(&first(&rt), rate, LEAD);
    bands.go_to(14_000_000);
    assert_bands(&rt, &bands, 0, &[(0, 13_480_000)]);
    assert_bands(&rt, &bands, 1, &[(0, 13_000_000)]);
    bands.go_to(14_000_001);
    assert_bands(&rt, &bands, 1, &[(0, 13_000_000), (13_480_000, 14_000_000)]);
    assert_bands(&rt, &bands, 7, &[(0, 13_000_000)]);
    bands.go_to(14_480_000);
    bands.end();
    assert_bands(&rt, &bands, 0, &[(0, 13_480_000), (14_000_000, 14_480_000)]);
    assert_bands(&rt, &bands, 1, &[(0, 13_000_000), (13_480_000, 14_000_000)]);
    Ok(())
}

/// A command that a port would refuse is not taken: a list that no port of the rate can run, and one while another is
/// awaited.
#[test]
fn refused_commands_change_nothing(rt: HostRuntime) -> Result<(), Fail> {
    let slow = Rate::from_mbps(10).expect(&rt, "a rate");
    let rate = Rate::from_mbps(1000).expect(&rt, "a rate");
    let mut bands = Bands::new(&rt.alloc(), 0, None)?;
    bands.install(&first(&rt), slow, LEAD);
    bands.install(&Command::Delete, rate, 20_000_000);
    bands.install(&first(&rt), rate, LEAD);
    bands.go_to(20_000_000);
    bands.end();
    for class in 0..CLASSES as u8 {
        assert_bands(&rt, &bands, class, &[(0, 20_000_000)]);
    }
    Ok(())
}
