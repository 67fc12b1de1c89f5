//! What random schedules give each class, by the gates of `reference`, which asks at every picosecond, through three
//! cycles.

use gates::gate_list::{Schedule, Stay, Visits};
use gates::list_config::Gates;
use schedule_check::{Longest, Window, Windows};
use test_support::random_lists::Numbers;
use test_support::reference::Plain;
use wire_time::{CLASSES, Rate};

/// A cycle in nanoseconds: that of the list, or one that may cut it, or one that is longer than most.
fn cycle(numbers: &mut Numbers) -> u64 {
    match numbers.between(0, 3) {
        0 => u64::from(numbers.between(4, 17)),
        1 => u64::from(numbers.between(20, 20)),
        _ => 0,
    }
}

/// What was seen of a class, in picoseconds.
#[derive(Clone, Copy)]
struct Seen {
    is_open: bool,
    run: u128,
    open: u128,
    longest_open: u128,
    longest_closed: u128,
}

impl Seen {
    fn nothing() -> Seen {
        Seen {
            is_open: false,
            run: 0,
            open: 0,
            longest_open: 0,
            longest_closed: 0,
        }
    }

    /// Notes so many picoseconds more.
    fn note(&mut self, is_open: bool, span: u128) {
        if is_open != self.is_open {
            self.run = 0;
        }
        self.is_open = is_open;
        self.run = self.run.saturating_add(span);
        if is_open {
            self.open = self.open.saturating_add(span);
            self.longest_open = self.longest_open.max(self.run);
        } else {
            self.longest_closed = self.longest_closed.max(self.run);
        }
    }

    /// What three cycles of so many picoseconds make of it.
    fn window(&self, cycle: u128) -> Window {
        let open_time = stay(self.longest_open, cycle);
        Window {
            open_time,
            closed_time: stay(self.longest_closed, cycle),
            share: self.open / 3,
            cycle,
            longest_frame: longest_frame(open_time),
        }
    }
}

/// A time that was seen in three cycles: it has no end where it is all of them.
fn stay(longest: u128, cycle: u128) -> Stay {
    if longest == cycle.saturating_mul(3) {
        Stay::Always
    } else {
        Stay::Lasts(longest)
    }
}

/// The longest frame that fits into a time at 100 Gb/s, octet by octet: 80 picoseconds each, and 24 octets beside its
/// own 60 or more.
fn longest_frame(time: Stay) -> Longest {
    let Stay::Lasts(time) = time else {
        return Longest::AnyFrame;
    };
    let mut longest = Longest::NoFrame;
    for octets in 60..1000u32 {
        if u128::from(80 * (octets + 24)) <= time {
            longest = Longest::Octets(u128::from(octets));
        }
    }
    longest
}

/// Notes which classes are open for so many picoseconds.
fn note_all(seen: &mut [Seen; CLASSES], mask: u8, span: u128) {
    for class in 0..CLASSES {
        seen[class].note((mask >> class) % 2 == 1, span);
    }
}

/// What gates show in the three cycles from the first on in which a schedule of base 0 is in force.
fn seen_of<G: Gates + Drop>(schedule: Schedule) -> [Seen; CLASSES] {
    let cycle = 1000 * u128::from(schedule.cycle_ns().min(100));
    let last = 4 * cycle;
    let mut visits = Visits::zero();
    let mut gates = G::begin();
    let _change = gates.install(&schedule, 1);
    gates.move_to(cycle, &mut visits);
    let mut seen = [Seen::nothing(); CLASSES];
    for _step in 0..100 {
        let now = gates.now();
        let mask = gates.mask();
        let Some(until) = gates.next_boundary(last) else {
            note_all(&mut seen, mask, last.saturating_sub(now));
            return seen;
        };
        note_all(&mut seen, mask, until.saturating_sub(now));
        gates.move_to(until, &mut visits);
    }
    seen
}

#[test]
fn windows_are_what_the_reference_shows(rt: HostRuntime) {
    let rate = Rate::from_mbps(100000).expect(&rt, "a rate");
    for seed in 0..60 {
        let mut numbers = Numbers::new(seed);
        let list = numbers.list().expect(&rt, "a list");
        let cycle = cycle(&mut numbers);
        let windows = Windows::new(&list, 0, cycle, 0, rate).expect(&rt, "windows");
        let schedule = Schedule::new(&list, 0, cycle, 0, rate).expect(&rt, "a schedule");
        let cycle = u128::from(schedule.cycle_ns()).saturating_mul(1000);
        let seen = seen_of::<Plain>(schedule);
        for class in 0..CLASSES as u8 {
            assert_eq!(rt;
                windows.window(rate, class),
                seen[class as usize].window(cycle),
                "seed {seed}, class {class}"
            );
        }
    }
}
