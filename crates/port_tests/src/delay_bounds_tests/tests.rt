//! Flows at 1 Gb/s, in a schedule of 250 us: class 7 has the first 13 us of each cycle, then class 5 its window,
//! then class 6.

ghost use Rattle.std.specs.Prelude.{◌<◌, All, length};
ghost use Rattle.delay_bounds.specs.Claim.{IsFlow};
ghost use Rattle.gates.specs.Gate.{IsSchedule};
ghost use Rattle.wire_time.specs.declared.TheConstants.{CLASSES};

use delay_bounds::{Flow, Unbound, bound_flows};
use gates::gate_list::{Entry, GateList, Schedule};
use std::alloc::Allocator;
use std::test::Fail;
use test_support::refusing_heap::RefusingHeap;
use wire_time::Rate;

fn entry(mask: u8, interval: u32) -> Entry {
    Entry { mask, interval }
}

/// A schedule whose windows of classes 5 and 6 are so long, in nanoseconds.
fn schedule(five: u32, six: u32, rest: u32) -> Option<Schedule> {
    let list = GateList::new(&[
        entry(0x80, 13_000),
        entry(0x20, five),
        entry(0x40, six),
        entry(0x1f, rest),
    ]);
    Schedule::new(&list.ok()?, 0, 0, 0, Rate::from_mbps(1000).ok()?).ok()
}

/// Frames of 1514 octets each 500 us, and each 125 us from 10 us on.
const CAMERA: [Flow; 2] = [
    Flow {
        need: 12_304_000,
        period: 500_000_000,
        offset: 0,
    },
    Flow {
        need: 12_304_000,
        period: 125_000_000,
        offset: 10_000_000,
    },
];

/// Why flows have no bounds.
fn why<A: Allocator + Clone>(
    alloc: &A,
    schedule: &Schedule,
    class: u8,
    flows: &[Flow],
    limit: u64,
) -> Option<Unbound>
    requires sound { IsSchedule schedule.now }
    requires class { class < CLASSES }
    requires some { 0 < length flows.now }
    requires flows { All IsFlow flows.now }
{
    match bound_flows(alloc, schedule, class, 128, flows, limit) {
        Ok(_) => None,
        Err(fault) => Some(fault),
    }
}

/// Each growth refused in turn, until a call asks for no further one.
#[test]
fn wants_memory_only_where_it_is_refused(rt: HostRuntime) -> Result<(), Fail> {
    let schedule = schedule(60_000, 800, 176_200).ok_or("a schedule")?;
    for number in 0..6 {
        let heap = RefusingHeap::new(rt.alloc(), number, true);
        let fault = why(&&heap, &schedule, 5, &CAMERA, 1_000_000);
        assert_eq!(rt; fault, (number < 5).then_some(Unbound::Memory));
        assert_eq!(rt; heap.asked() > number, number < 5);
    }
    Ok(())
}
