//! How many entries each step of a port on jumping gates looks at, counted by hand: no more for a far clock than for a
//! near one.
//!
//! A list of N entries that no other command follows is searched for one cycle at most, since it repeats: from the
//! start of a cycle that takes its N - 1 further entries. Before a change, a list that is searched without a find takes
//! N - 1 entries up to the end of its cycle, as many and the first of the next cycle, as many and the first of the last
//! whole cycle before the change, and those of the cycle that the change cuts. A list that goes on takes each entry
//! that it comes to in its cycle, and in another cycle all from the first up to the one of the moment. The gates move
//! only where they are asked, or while a command is to come.
use super::ports::{command, frame, gigabit_port, plain_map};
use super::*;
use abstract_port::{Answer, Command, Event, Start};
use jumping::Jumping;
use port::Port;
use std::alloc::Global;

/// Some thirty years, in picoseconds.
const FAR: u128 = 1_000_000_000_000_000_000_000;

/// An event, each answer to it with the visits of its step, and those of the step that ends it.
type Looks<'a> = (Event<'a>, &'a [(Answer, u64)], u64);

/// Takes an event on a port. Whether its answers and the visits of its steps are those that are given.
fn looks_at(port: &mut Port<Jumping>, (event, want, last): Looks<'_>) -> bool {
    let mut asked = Some(event);
    for (answer, visits) in want {
        if port.next_answer(&mut asked) != Some(*answer) || port.visits() != *visits {
            return false;
        }
    }
    port.next_answer(&mut asked).is_none() && port.visits() == last
}

/// Takes events on a port in turn. Which is the first whose answers or visits aren't those that are given.
fn steps(port: &mut Port<Jumping>, looks: &[Looks<'_>]) -> Result<(), usize> {
    for (i, look) in looks.iter().enumerate() {
        if !looks_at(port, *look) {
            return Err(i);
        }
    }
    Ok(())
}

/// So many entries that open class 1 and class 2 by turns, in force from 20 us on.
fn by_turns(many: usize, interval: u32) -> Option<Command> {
    let mut entries = [Entry {
        mask: 0x02,
        interval,
    }; 256];
    for i in 0..128 {
        entries[2 * i + 1].mask = 0x04;
    }
    let given = Given {
        entries: &entries[..many.min(256)],
        base: 20000,
        cycle: 0,
        extension: 0,
    };
    command(&given, plain_map())
}

/// A schedule of so many entries, what a clock event that goes over it looks at while a frame can't start, and what is
/// open then.
#[derive(Clone, Copy)]
struct Waiting {
    many: usize,
    interval: u32,
    visits: u64,
    mask: u8,
}

/// What is seen of a port on which a frame waits: the steps up to a far clock, the moment, the mask and the frames that
/// wait then, and whether a clock after it looks at nothing.
fn waits(alloc: Global, waiting: &Waiting) -> Option<(Result<(), usize>, (u128, u8, u64), bool)> {
    let list = by_turns(waiting.many, waiting.interval)?;
    let mut port = gigabit_port::<Jumping>(alloc, 8)?;
    let queued = Answer::Queued { id: 1, class: 0 };
    let looks: [Looks<'_>; 4] = [
        (
            Event::Install(&list),
            &[(Answer::Installed(20_000_000), 0)],
            0,
        ),
        (Event::Clock(20_000_000), &[], 1),
        (Event::Arrive(frame(1, 0, 60)), &[(queued, 1)], 1),
        (Event::Clock(FAR), &[], waiting.visits),
    ];
    let steps = steps(&mut port, &looks);
    let shown = (port.now(), port.report().mask, port.counters(0).waiting);
    // It is known that the frame doesn't start.
    Some((
        steps,
        shown,
        looks_at(&mut port, (Event::Clock(2 * FAR), &[], 0)),
    ))
}

/// A frame waits through 5 * 10^12 cycles, 10^15 and 4 * 10^12: a step that took each of them would not end. It is
/// searched for once, from the start of a cycle and through it, and then it is known that it never starts.
const WAITING: [Waiting; 3] = [
    Waiting {
        many: 2,
        interval: 100_000,
        visits: 2,
        mask: 0x04,
    },
    Waiting {
        many: 2,
        interval: 500,
        visits: 2,
        mask: 0x02,
    },
    Waiting {
        many: 256,
        interval: 1000,
        visits: 256,
        mask: 0x02,
    },
];

/// Which is the first of these that comes out otherwise.
fn wait_through_far_clocks(alloc: Global) -> Result<(), usize> {
    for (i, waiting) in WAITING.iter().enumerate() {
        if waits(alloc, waiting) != Some((Ok(()), (FAR, waiting.mask, 1), true)) {
            return Err(i);
        }
    }
    Ok(())
}

#[test]
fn a_frame_waits_through_far_clocks(rt: HostRuntime) {
    assert_eq!(rt; wait_through_far_clocks(rt.alloc()), Ok(()));
}

/// A schedule of so many entries that open class 0, and a last one of 5 us that opens class 1, with an extension; a
/// second one that opens class 1 alone, by its base time; and the start in picoseconds. All other times are in
/// nanoseconds.
#[derive(Clone, Copy)]
struct Change {
    many: usize,
    interval: u32,
    extension: u64,
    base: u64,
    start: u128,
    end: u128,
    visits: [u64; 2],
}

impl Change {
    /// The schedule that is in force from 20 us on.
    fn first(&self) -> Option<Command> {
        let mut entries = [Entry {
            mask: 0x01,
            interval: self.interval,
        }; 256];
        for i in 0..256 {
            if i + 1 == self.many {
                entries[i] = Entry {
                    mask: 0x02,
                    interval: 5000,
                };
            }
        }
        let given = Given {
            entries: &entries[..self.many.min(256)],
            base: 20000,
            cycle: 0,
            extension: self.extension,
        };
        command(&given, plain_map())
    }

    /// The schedule after.
    fn second(&self) -> Option<Command> {
        let entries = [Entry {
            mask: 0x02,
            interval: 200_000,
        }];
        let given = Given {
            entries: &entries,
            base: self.base,
            cycle: 0,
            extension: 0,
        };
        command(&given, None)
    }
}

/// Takes both schedules and a frame of class 1 on a new port, and then a far clock. Which is the first step whose
/// answers or visits aren't those that are given.
fn steps_to_the_change<'a>(
    port: &mut Port<Jumping>,
    change: &Change,
    first: &'a Command,
    second: &'a Command,
) -> Result<(), usize> {
    let at = Answer::Installed(20_000_000);
    let then = Answer::Installed(1000 * u128::from(change.base));
    let queued = Answer::Queued { id: 1, class: 1 };
    let start = Answer::Start(Start {
        id: 1,
        class: 1,
        at: change.start,
        end: change.end,
    });
    let looks: [Looks<'_>; 5] = [
        (Event::Install(first), &[(at, 0)], 0),
        (Event::Clock(20_000_000), &[], 1),
        (Event::Arrive(frame(1, 1, 1514)), &[(queued, 1)], 1),
        (Event::Install(second), &[(then, 1)], 1),
        (
            Event::Clock(2_000_000_000_000_000),
            &[(start, change.visits[0])],
            change.visits[1],
        ),
    ];
    steps(port, &looks)
}

/// A frame of class 1 that takes 12.304 us fits into no entry of 5 us: 5,000,000 cycles later the change lets it start.
/// Which is the first step that comes out otherwise; nothing where there is no port, or no command.
fn starts_at_the_change(alloc: Global, change: &Change) -> Option<Result<(), usize>> {
    let first = change.first()?;
    let second = change.second()?;
    let mut port = gigabit_port::<Jumping>(alloc, 8)?;
    Some(steps_to_the_change(&mut port, change, &first, &second))
}

/// Which is the first of the changes that comes out otherwise, and by which step.
fn start_at_changes(alloc: Global) -> Result<(), (usize, Option<Result<(), usize>>)> {
    for (i, change) in CHANGES.iter().enumerate() {
        let started = starts_at_the_change(alloc, change);
        if started != Some(Ok(())) {
            return Err((i, started));
        }
    }
    Ok(())
}

/// The change comes where a cycle ends; 30 us later, through which the extension holds the last state; and again with
/// an extension that is too short, so that a cycle begins and is cut.
///
/// Up to the start: three times all entries but the first, the first of two cycles (of the cut one too), and placed in
/// the last entry, or in the one of the second list. After it no frame waits and nothing is searched: placed in the
/// second list or in the hold, or not moved from the start's entry, where the frame ends; and placed in the second list
/// where the clock stops.
const CHANGES: [Change; 6] = [
    Change {
        many: 2,
        interval: 195_000,
        extension: 0,
        base: 1_000_000_020_000,
        start: 1_000_000_015_000_000,
        end: 1_000_000_027_304_000,
        visits: [3 + 2 + 2, 1 + 1],
    },
    Change {
        many: 2,
        interval: 195_000,
        extension: 100_000,
        base: 1_000_000_050_000,
        start: 1_000_000_015_000_000,
        end: 1_000_000_027_304_000,
        visits: [3 + 2 + 2, 2 + 1],
    },
    Change {
        many: 2,
        interval: 195_000,
        extension: 20_000,
        base: 1_000_000_050_000,
        start: 1_000_000_050_000_000,
        end: 1_000_000_062_304_000,
        visits: [3 + 3 + 1, 1],
    },
    // In lists of 256 entries, all but the last of 1 us. The cycle that is cut begins 30 of them.
    Change {
        many: 256,
        interval: 1000,
        extension: 0,
        base: 1_300_000_020_000,
        start: 1_300_000_015_000_000,
        end: 1_300_000_027_304_000,
        visits: [3 * 255 + 2 + 256, 1 + 1],
    },
    Change {
        many: 256,
        interval: 1000,
        extension: 100_000,
        base: 1_300_000_050_000,
        start: 1_300_000_015_000_000,
        end: 1_300_000_027_304_000,
        visits: [3 * 255 + 2 + 256, 2 + 1],
    },
    Change {
        many: 256,
        interval: 1000,
        extension: 20_000,
        base: 1_300_000_050_000,
        start: 1_300_000_050_000_000,
        end: 1_300_000_062_304_000,
        visits: [3 * 255 + 3 + 29 + 1, 1],
    },
];

#[test]
fn changes_are_found_from_afar(rt: HostRuntime) {
    assert_eq!(rt; start_at_changes(rt.alloc()), Ok(()));
}

/// A frame arrives at a moment, and starts at once: what the step up to its start looks at is given.
#[derive(Clone, Copy)]
struct Starting {
    class: u8,
    at: u128,
    visits: u64,
}

/// Takes a clock event at the moment, which looks at nothing, then the frame, and then a picosecond. Whether each comes
/// out so.
fn starts_at_once(port: &mut Port<Jumping>, starting: &Starting) -> bool {
    let Starting { class, at, visits } = *starting;
    let queued = Answer::Queued { id: 1, class };
    let start = Answer::Start(Start {
        id: 1,
        class,
        at,
        end: at.saturating_add(672_000),
    });
    let looks: [Looks<'_>; 3] = [
        (Event::Clock(at), &[], 0),
        (Event::Arrive(frame(1, class, 60)), &[(queued, 0)], 0),
        (Event::Clock(at.saturating_add(1)), &[(start, visits)], 0),
    ];
    steps(port, &looks).is_ok()
}

/// A port in the first of 256 entries of 1 us.
fn port_by_turns(alloc: Global) -> Option<Port<Jumping>> {
    let list = by_turns(256, 1000)?;
    let mut port = gigabit_port::<Jumping>(alloc, 8)?;
    let looks: [Looks<'_>; 2] = [
        (
            Event::Install(&list),
            &[(Answer::Installed(20_000_000), 0)],
            0,
        ),
        (Event::Clock(20_000_000), &[], 1),
    ];
    match steps(&mut port, &looks) {
        Ok(()) => Some(port),
        Err(_) => None,
    }
}

/// Frames in each entry of the first cycle after its first: the number of the first that comes out otherwise.
fn start_in_each_entry(port: &mut Port<Jumping>) -> Result<(), u32> {
    for i in 1..256u32 {
        let starting = Starting {
            class: if i % 2 == 0 { 1 } else { 2 },
            at: 20_000_000 + 1_000_000 * u128::from(i),
            visits: 1,
        };
        if !starts_at_once(port, &starting) {
            return Err(i);
        }
    }
    Ok(())
}

/// Frames in the cycles after: the moment of the first that comes out otherwise.
fn start_further_on(port: &mut Port<Jumping>) -> Result<(), u128> {
    for (class, at, visits) in [
        // The second cycle, from 276 us on.
        (1, 276_000_000, 1),
        // Its fourth entry, which begins there, from its first.
        (2, 279_000_000, 3),
        // Its last, from its fourth.
        (2, 531_000_000, 252),
        // The third entry of the third cycle, which began at 532 us.
        (1, 534_200_000, 3),
        // The first of the fifth, from 1044 us on: no entry between is looked at.
        (1, 1_044_000_000, 1),
    ] {
        if !starts_at_once(port, &Starting { class, at, visits }) {
            return Err(at);
        }
    }
    Ok(())
}

/// Both on a new port.
fn near_starts(alloc: Global) -> Option<(Result<(), u32>, Result<(), u128>)> {
    let mut port = port_by_turns(alloc)?;
    Some((start_in_each_entry(&mut port), start_further_on(&mut port)))
}

/// Frames that arrive over 256 entries of 1 us, and start at once. Clock events look at no entry. A start in the entry
/// after that of the last start looks at that entry alone, also where a cycle begins; further on each entry that begins
/// is looked at once, on the way.
#[test]
fn near_starts_look_at_the_next_entry_alone(rt: HostRuntime) {
    assert_eq!(rt; near_starts(rt.alloc()), Some((Ok(()), Ok(()))));
}
