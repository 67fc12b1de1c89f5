//! The gates, which go from boundary to boundary.
ghost use Rattle.std.specs.Prelude.{◌≡◌, ◌<◌, ◌≤◌, Some, None, false};
ghost use Rattle.wire_time.specs.Moment.{greatest_moment};
ghost use Rattle.gates.specs.History.{gates, kept};
ghost use Rattle.gates.specs.Current.{IsCurrent};
ghost use Rattle.jumping.specs.Commands.{AreCommands};
ghost use Rattle.jumping.specs.InForce.{Stands};

use crate::accepted_commands::{
    CommandSlots, edge_of, installed, lead_moment, legs_ahead, mask_under, resumed,
};
use crate::list_position::Need;
use gates::gate_list::{Schedule, Visits};
use gates::list_config::{Gates, Installed, NotNow};
use gates::queue_heads::Heads;
use std::marker::Model;
use wire_time::CLASSES;

/// The gates of a port: its commands, each list with where it stands.
///
/// A move takes a step for each boundary that it passes, so the time of a far move grows with its cycles and entries.
#[derive(Drop)]
pub struct Stepped {
    slots: CommandSlots,
}

/// A contract sees the history that the commands make, and the moment.
impl Model for Stepped {
    ghost use Rattle.jumping.specs.Commands.{AreCommands};
    ghost use Rattle.jumping.specs.InForce.{Stands, clocked};
    ghost use Rattle.gates.specs.Current.{Clocked};

    ghost Value = { Clocked };

    ghost view = { λ g. clocked g.slots };

    ghost invariant = { λ g. AreCommands g.slots.commands
        × Stands g.slots.commands.in_force g.slots.commands.pending g.slots.commands.moment g.slots.position };
}

impl Stepped {
    /// Goes on to the next boundary, or to `t`, in picoseconds, where that comes first.
    #[tactic(auto, using(crate::proofs::CommandLaws::current_of))]
    fn step_to(&mut self, t: u128, visits: &mut Visits)
        requires later { self.old.moment < t }
        requires within { t ≤ greatest_moment }
        ensures onward { self.old.moment < self.new.moment }
        ensures upto { self.new.moment ≤ t }
        ensures history { self.new.history ≡ kept self.old.history self.new.moment }
        ensures sound { IsCurrent self.new.history self.new.moment }
        ensures counted { visits.old ≤ visits.new }
    {
        let m = match edge_of(&self.slots) {
            Some(edge) => edge.min(t),
            None => t,
        };
        self.slots.move_on(m, visits);
    }
}

impl Gates for Stepped {
    ghost history = { λ s. s.history };

    ghost moment = { λ s. s.moment };

    ghost is_sound = { λ s. IsCurrent s.history s.moment };

    ghost JUMPS = { false };

    const JUMPS: bool = false;

    #[tactic(auto, using(crate::proofs::CommandLaws::current_of))]
    fn begin() -> Stepped {
        Stepped {
            slots: CommandSlots::begin(),
        }
    }

    fn now(&self) -> u128 {
        self.slots.moment()
    }

    #[tactic(auto, using(crate::proofs::CommandLaws::position_shows))]
    fn mask(&self) -> u8 {
        mask_under(self.slots.in_force())
    }

    fn stays_open(&self, class: u8, for_ps: u128, visits: &mut Visits) -> bool {
        let resumed = resumed(&self.slots, visits);
        let ahead = legs_ahead(&self.slots, &resumed);
        let need = Need {
            class,
            from: self.slots.moment(),
            length: for_ps,
        };
        ahead.leg.stays_open_ahead(&ahead.rest(), need)
    }

    fn next_boundary(&self, before: u128) -> Option<u128> {
        match edge_of(&self.slots) {
            Some(edge) => if edge < before { Some(edge) } else { None },
            None => None,
        }
    }

    fn quiet(&self, heads: &Heads, before: u128, visits: &mut Visits) -> u128 {
        // The heads are of all classes.
        let _ = heads.waits();
        let needs = heads.list();
        for class in 0..CLASSES as u8 {
            if let Some(need) = needs[class as usize] {
                if self.stays_open(class, need, visits) {
                    return self.now();
                }
            }
        }
        match self.next_boundary(before) {
            Some(edge) => edge,
            None => before,
        }
    }

    fn move_to(&mut self, t: u128, visits: &mut Visits) {
        while self.now() < t {
            self.step_to(t, visits);
        }
    }

    fn install(&mut self, schedule: &Schedule, lead: u128) -> Result<u128, NotNow> {
        if let Some(waited) = lead_moment(self.slots.announced()) {
            return Err(NotNow::Busy(waited));
        }
        let change = self
            .slots
            .announce_list(schedule, lead, &mut Visits::zero());
        Ok(change)
    }

    fn delete(&mut self, lead: u128) -> Result<u128, NotNow> {
        if let Some(waited) = lead_moment(self.slots.announced()) {
            return Err(NotNow::Busy(waited));
        }
        self.slots.announce_deletion(lead);
        Ok(lead)
    }

    fn in_force(&self) -> Option<Installed> {
        installed(self.slots.in_force())
    }

    fn pending(&self) -> Option<Installed> {
        installed(self.slots.pending())
    }

    fn announced(&self) -> Option<Installed> {
        installed(self.slots.announced())
    }

    ghost is_current = { λ s h. h };
}
