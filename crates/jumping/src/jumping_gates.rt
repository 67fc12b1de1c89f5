//! The gates, which pass whole cycles by division.
ghost use Rattle.std.specs.Prelude.{All, ◌≡◌, ℕ, ◌+◌, ◌*◌, ◌<◌, ◌≤◌, ◌↔◌, IfSome, IsTrue, Some, None, true, false};
ghost use Rattle.std.specs.Option.{ForSome};
ghost use Rattle.jumping.specs.Words.{greatest_moment, opens, open_while, gates, kept, plan_of, start_of, BeginsAtMost, IsCurrent, entry_count, longest, AreCommands, NoneBy, mask_ahead, settled_at, stretches_of, Stands, Resumes, IsEdge, NothingComes, OneEntryComes, Searched, most_in, IsLoneList, shown_by};

use crate::accepted_commands::{
    AcceptedList, CommandSlots, edge_of, installed, lead_moment, legs_ahead, list_in, mask_under,
    resumed, stays_open,
};
use crate::alone::{search_alone, stays_open_alone};
use crate::list_position::{Need, Position};
use crate::search::search;
use gates::gate_list::{Schedule, Visits, is_open};
use gates::list_config::{Gates, Installed, NotNow};
use gates::queue_heads::Heads;
use std::marker::Model;
use wire_time::CLASSES;

/// The gates of a port: its commands, each list with where it stands, where the list in force goes on once a pending
/// command is replaced, the next moment at which a boundary of the list or a command comes, and the mask that shows
/// until then.
///
/// What a move and an answer look at doesn't grow with how far the moments are apart.
#[derive(Drop)]
pub struct Jumping {
    slots: CommandSlots,
    resumed: Option<Position>,
    edge: Option<u128>,
    mask: u8,
}

/// A contract sees the history that the commands make, and the moment.
impl Model for Jumping {
    ghost use Rattle.jumping.specs.Commands.{AreCommands};
    ghost use Rattle.std.specs.Prelude.{◌≡◌};
    ghost use Rattle.jumping.specs.InForce.{Stands, clocked, shown_by};
    ghost use Rattle.gates.specs.Current.{Clocked};
    ghost use Rattle.jumping.specs.Resume.{Resumes};
    ghost use Rattle.jumping.specs.Edge.{IsEdge};

    ghost Value = { Clocked };

    ghost view = { λ g. clocked g.slots };

    ghost invariant = { λ g. AreCommands g.slots.commands
        × Stands g.slots.commands.in_force g.slots.commands.pending g.slots.commands.moment
        g.slots.position × Resumes g.slots.commands g.resumed
        × IsEdge g.slots.commands g.slots.position g.edge
        × (g.mask ≡ shown_by g.slots.position) };
}

/// Whether a moment is before another, if there is one; both are in picoseconds.
fn is_before(moment: u128, edge: Option<u128>) -> bool
    ensures { IsTrue result ↔ ForSome edge (λ u. moment < u) }
{
    match edge {
        None => true,
        Some(edge) => moment < edge,
    }
}

/// The next moment at which a boundary of the list in force comes, or a command does, in picoseconds; none: there is
/// none.
#[inline(always)]
fn next_edge(slots: &CommandSlots) -> Option<u128>
    requires sound { AreCommands slots.now.commands }
    requires stands { Stands slots.now.commands.in_force slots.now.commands.pending
        slots.now.commands.moment slots.now.position }
    ensures { IsEdge slots.now.commands slots.now.position result }
{
    edge_of(slots)
}

/// Whether a mask shuts a class that needs some time, in picoseconds.
fn is_shut(mask: u8, class: u8, length: u128) -> bool
    requires class { class < CLASSES }
    ensures shut { result ≡ true → (0 < length) × (opens mask class ≡ false) }
    ensures open { result ≡ false → 0 < length → opens mask class ≡ true }
{
    length != 0 && !is_open(mask, class)
}

/// Whether a time from a moment on is over by another moment, if there is one; all are in picoseconds.
fn is_over_by(edge: Option<u128>, from: u128, length: u128) -> bool
    requires from { from ≤ greatest_moment }
    requires within { length ≤ greatest_moment }
    ensures { result ≡ true → ForSome edge (λ u. from + length ≤ u) }
{
    match edge {
        None => true,
        Some(edge) => from + length <= edge,
    }
}

/// The list in force, where no other command is to come.
fn lone_list(slots: &CommandSlots) -> Option<&AcceptedList>
    ensures { IfSome result (λ list. IsLoneList slots.now list.now) }
{
    if slots.pending().is_none() && slots.announced().is_none() {
        list_in(slots.in_force())
    } else {
        None
    }
}

/// Whether a class stays open from now on, by the commands that count. Where no other command is to come, which is
/// mostly so, the list in force decides. Apart, so that the loop over the classes stays small: mostly a class is shut
/// now, or needs less than what is left up to the next edge.
#[inline(never)]
fn stays_open_from_now(
    slots: &CommandSlots,
    resumed: &Option<Position>,
    class: u8,
    for_ps: u128,
) -> bool
    requires sound { AreCommands slots.now.commands }
    requires stands { Stands slots.now.commands.in_force slots.now.commands.pending
        slots.now.commands.moment slots.now.position }
    requires resumes { Resumes slots.now.commands resumed.now }
    requires class { class < CLASSES }
    requires within { for_ps ≤ greatest_moment }
    ensures { result
        ≡ open_while (mask_ahead slots.now.commands) class slots.now.commands.moment for_ps }
{
    let from = slots.moment();
    match lone_list(slots) {
        Some(list) => stays_open_alone(list, from, class, for_ps),
        None => {
            let need = Need {
                class,
                from,
                length: for_ps,
            };
            stays_open(slots, resumed, need)
        }
    }
}

/// Lets the commands and the list in force go on to a moment, in picoseconds, and looks for the next edge and what
/// shows up to it. Where no command is to come, which is mostly so, the list in force goes on alone. It stays apart,
/// since most moves come to no edge.
#[inline(never)]
fn move_on(
    slots: &mut CommandSlots,
    edge: &mut Option<u128>,
    mask: &mut u8,
    t: u128,
    visits: &mut Visits,
)
    requires later { slots.old.commands.moment ≤ t }
    requires within { t ≤ greatest_moment }
    requires sound { AreCommands slots.old.commands }
    requires stands { Stands slots.old.commands.in_force slots.old.commands.pending
        slots.old.commands.moment slots.old.position }
    ensures value { slots.new.commands ≡ settled_at slots.old.commands t }
    ensures stands { Stands slots.new.commands.in_force slots.new.commands.pending
        slots.new.commands.moment slots.new.position }
    ensures sound { AreCommands slots.new.commands }
    ensures edge { IsEdge slots.new.commands slots.new.position edge.new }
    ensures mask { mask.new ≡ shown_by slots.new.position }
    ensures counted { visits.old ≤ visits.new }
    ensures visits { visits.new
        ≤ visits.old + (entry_count (plan_of slots.new.commands.in_force) + 1) }
    ensures next { (e : ℕ) → NoneBy slots.old.commands.pending slots.old.commands.announced t →
        BeginsAtMost (plan_of slots.old.commands.in_force)
        (start_of slots.old.commands.in_force) slots.old.commands.moment t e →
        visits.new ≤ visits.old + 2 }
{
    if slots.is_alone() {
        let (until, shown) = slots.move_alone(t, visits);
        *edge = until;
        *mask = shown;
    } else {
        slots.move_on(t, visits);
        *edge = next_edge(slots);
        *mask = mask_under(slots.in_force());
    }
}

/// The first moment from now on and before `before`, in picoseconds, at which some class with a need stays open through
/// it. It makes the legs that a search wants, in a place of its own: the compiler would clear that place at each call
/// of a body that it is taken into, wanted or not.
#[inline(never)]
fn search_legs(
    slots: &CommandSlots,
    resumed: &Option<Position>,
    heads: &Heads,
    before: u128,
    visits: &mut Visits,
) -> Option<u128>
    requires sound { AreCommands slots.now.commands }
    requires stands { Stands slots.now.commands.in_force slots.now.commands.pending
        slots.now.commands.moment slots.now.position }
    requires resumes { Resumes slots.now.commands resumed.now }
    requires within { before ≤ 2 * greatest_moment }
    ensures searched { Searched
        (mask_ahead slots.now.commands) heads.now slots.now.commands.moment before result }
    ensures counted { visits.old ≤ visits.new }
    ensures visits { visits.new ≤ visits.old + most_in (stretches_of slots.now.commands) }
{
    let ahead = legs_ahead(slots, resumed);
    search(&ahead.leg, &ahead.rest(), heads, before, visits)
}

impl Gates for Jumping {
    ghost history = { λ s. s.history };

    ghost moment = { λ s. s.moment };

    ghost is_sound = { λ s. IsCurrent s.history s.moment };

    ghost JUMPS = { true };

    const JUMPS: bool = true;

    #[tactic(auto, using(crate::proofs::CommandLaws::current_of))]
    fn begin() -> Jumping {
        Jumping {
            slots: CommandSlots::begin(),
            resumed: None,
            edge: None,
            mask: u8::MAX,
        }
    }

    fn now(&self) -> u128 {
        self.slots.moment()
    }

    #[tactic(auto, using(crate::proofs::CommandLaws::position_shows))]
    fn mask(&self) -> u8 {
        self.mask
    }

    fn stays_open(&self, class: u8, for_ps: u128, _visits: &mut Visits) -> bool {
        if is_shut(self.mask, class, for_ps) {
            return false;
        }
        let from = self.slots.moment();
        if is_over_by(self.edge, from, for_ps) {
            return true;
        }
        stays_open_from_now(&self.slots, &self.resumed, class, for_ps)
    }

    fn next_boundary(&self, before: u128) -> Option<u128> {
        match edge_of(&self.slots) {
            Some(edge) => if edge < before { Some(edge) } else { None },
            None => None,
        }
    }

    #[inline(never)]
    fn quiet(&self, heads: &Heads, before: u128, visits: &mut Visits) -> u128 {
        // The heads are of all classes.
        let _ = heads.waits();
        // Where no other command is to come, which is mostly so, no legs are made.
        let found = match lone_list(&self.slots) {
            Some(list) => search_alone(list, self.slots.moment(), heads, before, visits),
            None => search_legs(&self.slots, &self.resumed, heads, before, visits),
        };
        match found {
            Some(start) => start,
            None => before,
        }
    }

    /// Goes on to the moment `t`, in picoseconds. Where nothing comes by then, no entry is looked at, and where one
    /// entry begins and no command comes, at most two are.
    fn move_to(&mut self, t: u128, visits: &mut Visits)
        requires sound { IsCurrent self.old.history self.old.moment }
        requires later { self.old.moment ≤ t }
        requires within { t ≤ greatest_moment }
        ensures sound { IsCurrent self.new.history self.new.moment }
        ensures moment { self.new.moment ≡ t }
        ensures history { self.new.history ≡ kept self.old.history t }
        ensures counted { visits.old ≤ visits.new }
        ensures visits { visits.new ≤ visits.old + 2 * (longest self.old.history + 1) }
        ensures still { NothingComes self.old.history self.old.moment t → visits.new ≡ visits.old }
        ensures next { (e : ℕ) → OneEntryComes self.old.history self.old.moment t e →
            visits.new ≤ visits.old + 2 }
    {
        if is_before(t, self.edge) {
            self.slots.pass(t);
        } else {
            move_on(&mut self.slots, &mut self.edge, &mut self.mask, t, visits);
        }
    }

    #[tactic(auto, using(crate::proofs::CommandLaws::current_of, gates::proofs::HistoryLaws::settled_announced, gates::proofs::HistoryLaws::cons_some_push))]
    fn install(&mut self, schedule: &Schedule, lead: u128) -> Result<u128, NotNow> {
        if let Some(waited) = lead_moment(self.slots.announced()) {
            return Err(NotNow::Busy(waited));
        }
        let mut visits = Visits::zero();
        let change = self.slots.announce_list(schedule, lead, &mut visits);
        self.resumed = resumed(&self.slots, &mut visits);
        self.edge = next_edge(&self.slots);
        Ok(change)
    }

    #[tactic(auto, using(crate::proofs::CommandLaws::current_of, gates::proofs::HistoryLaws::settled_announced, gates::proofs::HistoryLaws::cons_some_push))]
    fn delete(&mut self, lead: u128) -> Result<u128, NotNow> {
        if let Some(waited) = lead_moment(self.slots.announced()) {
            return Err(NotNow::Busy(waited));
        }
        self.slots.announce_deletion(lead);
        self.resumed = resumed(&self.slots, &mut Visits::zero());
        self.edge = next_edge(&self.slots);
        Ok(lead)
    }

    #[tactic(auto, using(gates::proofs::HistoryLaws::settled_force))]
    fn in_force(&self) -> Option<Installed> {
        installed(self.slots.in_force())
    }

    #[tactic(auto, using(gates::proofs::HistoryLaws::settled_pending))]
    fn pending(&self) -> Option<Installed> {
        installed(self.slots.pending())
    }

    #[tactic(auto, using(gates::proofs::HistoryLaws::settled_announced))]
    fn announced(&self) -> Option<Installed> {
        installed(self.slots.announced())
    }

    ghost is_current = { λ s h. h };
}
