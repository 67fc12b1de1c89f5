//! Tests across crates: how long classes stay open in histories of schedule commands, on any implementation of the
//! gates.
ghost use Rattle.std.specs.Prelude.{◌≡◌, ◌≤◌, ◌<◌};

use gates::gate_list::{Entry, GateList, Schedule, Visits};
use gates::list_config::{Gates, NotNow};
use wire_time::{CLASSES, Rate};

/// The lead at 1 Gb/s and an mtu of 1500 octets, in picoseconds.
pub const LEAD: u128 = 12_336_000;

/// The latest moment that is played, in picoseconds.
const LATEST: u128 = 9_000_000_000_000_000_000_000;

/// A schedule as it is given, with its times in nanoseconds.
#[derive(Clone, Copy)]
pub struct Given<'a> {
    pub entries: &'a [Entry],
    pub base: u64,
    pub cycle: u64,
    pub extension: u64,
}

impl Given<'_> {
    /// The schedule at 1 Gb/s, if it is one.
    fn schedule(&self) -> Option<Schedule> {
        let Ok(list) = GateList::new(self.entries) else {
            return None;
        };
        let Ok(rate) = Rate::from_mbps(1000) else {
            return None;
        };
        match Schedule::new(&list, self.base, self.cycle, self.extension, rate) {
            Ok(schedule) => Some(schedule),
            Err(_) => None,
        }
    }
}

/// What is done at a moment, and what has to come of it.
#[derive(Clone, Copy)]
pub enum Step<'a> {
    /// A schedule is given: its change moment, or why it isn't taken.
    Install(Given<'a>, Result<u128, NotNow>),
    /// A deletion is given.
    Delete(Result<u128, NotNow>),
    /// Whether a class, below 8, is open from now on for so long, in picoseconds.
    Open(u8, u128, bool),
}

/// Whether a step comes out as it has to.
fn holds<G: Gates>(gates: &mut G, step: &Step<'_>) -> bool
    requires sound { G.is_sound gates.old }
    requires early { G.moment gates.old ≤ 9000000000000000000000 }
    ensures sound { G.is_sound gates.new }
    ensures moment { G.moment gates.new ≡ G.moment gates.old }
{
    match step {
        Step::Install(given, want) => match given.schedule() {
            Some(schedule) => {
                let e = gates.now() + LEAD;
                gates.install(&schedule, e) == *want
            }
            None => false,
        },
        Step::Delete(want) => {
            let e = gates.now() + LEAD;
            gates.delete(e) == *want
        }
        Step::Open(class, for_ps, want) => {
            let mut visits = Visits::zero();
            *class < CLASSES as u8
                && *for_ps <= LATEST
                && gates.stays_open(*class, *for_ps, &mut visits) == *want
        }
    }
}

/// Plays a worked history on new gates, each step at its moment in picoseconds: the index of the first step that
/// doesn't come out as it has to, or whose moment goes back.
pub fn play<G: Gates + Drop>(steps: &[(u128, Step<'_>)]) -> Result<(), usize> {
    let mut gates = G::begin();
    let mut visits = Visits::zero();
    for (i, (at, step)) in steps.iter().enumerate() {
        if *at < gates.now() || *at > LATEST {
            return Err(i);
        }
        gates.move_to(*at, &mut visits);
        if !holds(&mut gates, step) {
            return Err(i);
        }
    }
    Ok(())
}

#[cfg(test)]
mod far;
#[cfg(test)]
mod jumps;
#[cfg(test)]
mod ports;
#[cfg(test)]
mod random;
#[cfg(test)]
mod tables;
#[cfg(test)]
mod tests;
#[cfg(test)]
mod visits;
