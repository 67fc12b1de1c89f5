//! The gates by the list of accepted commands.
ghost use Rattle.std.specs.Prelude.{◌≡◌, ◌+◌, ◌<◌, ◌++◌, ◌∷◌, Some, None, true, false, []};
ghost use Rattle.gates.specs.History.{IsSound, announced, gates};
ghost use Rattle.gates.specs.Current.{IsCurrent};
ghost use Rattle.test_support.specs.Plain.{accepted_in};

use crate::reference::accepted::RecordedCommand;
use crate::reference::history::{announced, gates, in_force, kept, pending};
use arrayvec::ArrayVec;
use gates::gate_list::{Schedule, Visits, is_open};
use gates::list_config::{Gates, Installed, NotNow};
use gates::queue_heads::Heads;
use std::marker::Model;
use std::mem;
use wire_time::CLASSES;

/// The accepted commands that still count, first to last, and the moment now.
#[derive(Drop)]
pub struct Plain {
    moment: u128,
    history: ArrayVec<RecordedCommand, 3>,
}

/// A contract sees the history, and the moment.
impl Model for Plain {
    ghost use Rattle.gates.specs.Current.{Clocked, IsCurrent};
    ghost use Rattle.test_support.specs.Plain.{clocked};

    ghost Value = { Clocked };

    ghost view = { λ g. clocked g.history.items g.moment };

    ghost invariant = { λ g. IsCurrent (clocked g.history.items g.moment).history g.moment };
}

impl Plain {
    /// Whether no command is in force, pending or announced.
    #[tactic(auto, using(crate::proofs::PlainLaws::none_left))]
    fn is_idle(&self) -> bool
        ensures { result ≡ true → self.now.history ≡ [] }
    {
        self.history.is_empty()
    }

    /// The classes open at a moment, in picoseconds, by the commands accepted so far.
    fn mask_later(&self, m: u128) -> u8
        ensures { result ≡ gates self.now.history m }
    {
        gates(self.history.as_slice(), m)
    }

    /// Adds a command to the list.
    #[tactic(auto, using(crate::proofs::PlainLaws::room_for_one))]
    fn announce(&mut self, command: RecordedCommand)
        requires free { announced self.old.history self.old.moment ≡ None }
        requires ahead { self.old.moment < command.lead }
        requires sound { IsSound (accepted_in command) }
        ensures history { self.new.history ≡ self.old.history ++ accepted_in command ∷ [] }
        ensures moment { self.new.moment ≡ self.old.moment }
        ensures current { IsCurrent self.new.history self.new.moment }
    {
        self.history.push(command);
    }
}

impl Gates for Plain {
    ghost history = { λ s. s.history };

    ghost moment = { λ s. s.moment };

    ghost is_sound = { λ s. IsCurrent s.history s.moment };

    ghost JUMPS = { false };

    const JUMPS: bool = false;

    fn begin() -> Plain {
        Plain {
            moment: 0,
            history: ArrayVec::new(),
        }
    }

    fn now(&self) -> u128 {
        self.moment
    }

    fn mask(&self) -> u8 {
        self.mask_later(self.moment)
    }

    #[tactic(auto, using(crate::proofs::PlainLaws::open_idle, crate::proofs::PlainLaws::open_none, crate::proofs::PlainLaws::open_more, crate::proofs::PlainLaws::open_stops))]
    fn stays_open(&self, class: u8, for_ps: u128, _visits: &mut Visits) -> bool {
        if self.is_idle() {
            return true;
        }
        for i in 0..for_ps {
            if !is_open(self.mask_later(self.moment + i), class) {
                return false;
            }
        }
        true
    }

    #[tactic(auto, using(crate::proofs::PlainLaws::steady_idle, crate::proofs::PlainLaws::steady_none, crate::proofs::PlainLaws::steady_more, crate::proofs::PlainLaws::steady_less))]
    fn next_boundary(&self, before: u128) -> Option<u128> {
        if self.is_idle() {
            return None;
        }
        let shown = self.mask();
        for m in self.moment + 1..before {
            if self.mask_later(m) != shown {
                return Some(m);
            }
        }
        None
    }

    fn quiet(&self, heads: &Heads, before: u128, visits: &mut Visits) -> u128 {
        // The heads are of all classes.
        let _ = heads.waits();
        let needs = heads.list();
        for class in 0..CLASSES as u8 {
            if let Some(need) = needs[class as usize] {
                if self.stays_open(class, need, visits) {
                    return self.now();
                }
            }
        }
        match self.next_boundary(before) {
            Some(event) => event,
            None => before,
        }
    }

    fn move_to(&mut self, t: u128, _visits: &mut Visits) {
        self.moment = t;
        self.history = kept(mem::take(&mut self.history), t);
    }

    fn install(&mut self, schedule: &Schedule, lead: u128) -> Result<u128, NotNow> {
        if let Some(command) = announced(self.history.as_slice(), self.moment) {
            return Err(NotNow::Busy(command.lead));
        }
        let change = schedule.change_moment(lead);
        self.announce(RecordedCommand {
            lead,
            change,
            schedule: Some(schedule.copied()),
        });
        Ok(change)
    }

    fn delete(&mut self, lead: u128) -> Result<u128, NotNow> {
        if let Some(command) = announced(self.history.as_slice(), self.moment) {
            return Err(NotNow::Busy(command.lead));
        }
        self.announce(RecordedCommand {
            lead,
            change: lead,
            schedule: None,
        });
        Ok(lead)
    }

    fn in_force(&self) -> Option<Installed> {
        match in_force(self.history.as_slice(), self.moment) {
            None => None,
            Some(command) => Some(command.report()),
        }
    }

    fn pending(&self) -> Option<Installed> {
        match pending(self.history.as_slice(), self.moment) {
            None => None,
            Some(command) => Some(command.report()),
        }
    }

    fn announced(&self) -> Option<Installed> {
        match announced(self.history.as_slice(), self.moment) {
            None => None,
            Some(command) => Some(command.report()),
        }
    }

    ghost is_current = { λ s h. h };
}
