//! How many entries each step of a port looks at, counted by hand.
use super::ports::{command, frame, gigabit_port, plain_map};
use super::*;
use abstract_port::{Answer, Command, Event, Start};
use jumping::stepped::Stepped;
use port::Port;
use std::alloc::Global;

fn entry(mask: u8, interval: u32) -> Entry {
    Entry { mask, interval }
}

/// Three entries of 20 us in a cycle of 60 us, with an extension of 30 us. Given at 0 it is in force from 60 us on.
fn three_entries() -> Option<Command> {
    let given = Given {
        entries: &[entry(0x01, 20000), entry(0x02, 20000), entry(0x04, 20000)],
        base: 0,
        cycle: 0,
        extension: 30000,
    };
    command(&given, plain_map())
}

/// Two entries of 20 us. Given before 177 us it is in force from 190 us on.
fn two_entries() -> Option<Command> {
    let given = Given {
        entries: &[entry(0x08, 20000), entry(0x10, 20000)],
        base: 190000,
        cycle: 0,
        extension: 0,
    };
    command(&given, None)
}

/// Takes the events in turn on a port. Which is the first step after which the visits aren't those that are wanted, and
/// how many they are then.
fn counts(
    alloc: Global,
    port: &mut Port<Stepped>,
    steps: &[(Event<'_>, u64)],
) -> Result<(), (usize, u64)> {
    let mut answers = Vec::new(alloc);
    for (i, (event, visits)) in steps.iter().enumerate() {
        if port.run(&[*event], &mut answers).is_err() || port.visits() != *visits {
            return Err((i, port.visits()));
        }
    }
    Ok(())
}

/// Takes the events in turn on a new port.
fn new_port_counts(alloc: Global, steps: &[(Event<'_>, u64)]) -> Result<(), (usize, u64)> {
    match gigabit_port::<Stepped>(alloc, 8) {
        Some(mut port) => counts(alloc, &mut port, steps),
        None => Err((0, 0)),
    }
}

/// A list that comes into force, is held and replaced: what each step counts.
fn held_and_replaced(alloc: Global) -> Option<Result<(), (usize, u64)>> {
    let first = three_entries()?;
    let second = two_entries()?;
    let steps = [
        (Event::Install(&first), 0),
        // The lead moment; no list is in force.
        (Event::Clock(12_336_000), 0),
        // The list comes into force at its first entry.
        (Event::Clock(60_000_000), 1),
        // The second entry, the third at 100 us, and the first of the next cycle at 120 us: the gates are not asked.
        (Event::Clock(80_000_000), 0),
        (Event::Clock(125_000_000), 0),
        (Event::Install(&second), 0),
        (Event::Install(&second), 0),
        // The lead moment of the second command: the list is placed anew, at its first entry.
        (Event::Clock(137_336_000), 1),
        (Event::Query, 1),
        (Event::Count(0), 1),
        (Event::Clock(137_335_999), 1),
        // The second entry at 140 us, the third at 160 us, and at 180 us a cycle that is held: 1 + 1 + 2.
        (Event::Clock(180_000_000), 4),
        // The second list comes into force.
        (Event::Clock(190_000_000), 1),
        // Nothing begins.
        (Event::Clock(190_000_001), 0),
    ];
    Some(new_port_counts(alloc, &steps))
}

/// A list that comes into force, or is placed anew at a lead moment, looks at its entries from the first up to the one
/// of the moment; while a command is to come each entry that begins later is one more, also where a cycle begins. A
/// cycle that begins in a hold looks at its first entry and at the last. Where no command is to come and no frame
/// waits, nothing is looked at. No other event than the clock's changes what is shown.
#[test]
fn each_step_counts_what_it_looks_at(rt: HostRuntime) {
    assert_eq!(rt; held_and_replaced(rt.alloc()), Some(Ok(())));
}

/// The first two steps of a port that is asked an event: the answer of each, and how many entries it has looked at.
fn two_steps(port: &mut Port<Stepped>, event: Event<'_>) -> [(Option<Answer>, u64); 2] {
    let mut asked = Some(event);
    let first = port.next_answer(&mut asked);
    let visits = port.visits();
    let second = port.next_answer(&mut asked);
    [(first, visits), (second, port.visits())]
}

/// The first two steps of a clock event on a port in which a frame waits for the third entry.
fn start_and_end(alloc: Global) -> Option<[(Option<Answer>, u64); 2]> {
    let list = three_entries()?;
    let mut port = gigabit_port::<Stepped>(alloc, 8)?;
    let steps = [
        (Event::Install(&list), 0),
        (Event::Clock(60_000_000), 1),
        (Event::Arrive(frame(1, 2, 60)), 1),
    ];
    if counts(alloc, &mut port, &steps).is_err() {
        return None;
    }
    Some(two_steps(&mut port, Event::Clock(130_000_000)))
}

/// Up to a start and after it the entries are counted apart.
#[test]
fn each_start_has_its_own_count(rt: HostRuntime) {
    // Class 2 is open from 100 us on: the second entry and the third.
    let start = Start {
        id: 1,
        class: 2,
        at: 100_000_000,
        end: 100_672_000,
    };
    // No frame waits then: the first entry of the cycle from 120 us on is not looked at.
    let want = [(Some(Answer::Start(start)), 2), (None, 0)];
    assert_eq!(rt; start_and_end(rt.alloc()), Some(want));
}

/// A list that is placed anew: what each step counts.
fn placed_anew(alloc: Global) -> Option<Result<(), (usize, u64)>> {
    let first = three_entries()?;
    let second = two_entries()?;
    let steps = [
        (Event::Install(&first), 0),
        (Event::Clock(60_000_000), 1),
        // The second entry at 80 us, the third at 100 us: the gates move there for the command, which is no step.
        (Event::Clock(100_000_000), 0),
        (Event::Install(&second), 0),
        // The lead moment, in the third entry.
        (Event::Clock(112_336_000), 3),
    ];
    Some(new_port_counts(alloc, &steps))
}

/// A list that is placed anew in its third entry looks at the first, the second and the third.
#[test]
fn a_list_is_placed_anew_entry_by_entry(rt: HostRuntime) {
    assert_eq!(rt; placed_anew(rt.alloc()), Some(Ok(())));
}
