//! What the command in force shows: its list, or else all classes open.
ghost use Rattle.std.specs.Prelude.{◌≡◌, ℕ, Option, ◌*◌, ◌<◌, ◌≤◌, ◌+◌, Some, None, length};
ghost use Rattle.std.specs.Option.{ForSome};
ghost use Rattle.jumping.specs.CommandWords.{greatest_moment, IsSchedule, last_mask, entry_count, BeginsAtMost, IsFlat, IsPlaced, StoodBy, Accepted, IsUsable, accepted_in, command_of, EndsSo, IsListOf, Stands, StandsHeld, accepted_list, held_under, boundary_in_force, boundary_of, hold_for, position_in, position_lent, shown_by, shows_under, walk_mask};

use crate::accepted_commands::command::{AcceptedCommand, AcceptedList};
use crate::list_position::{Need, Position};
use gates::gate_list::Visits;
use wire_time::CLASSES;

impl AcceptedList {
    /// The moment from which the last state is held for the change that is pending, in picoseconds; none: there is
    /// none.
    pub fn held_from(&self, pending: Option<&AcceptedCommand>) -> Option<u128>
        requires sound { IsSchedule self.now.schedule }
        requires start { self.now.change ≤ 2 * greatest_moment }
        requires usable { ForSome (command_of pending) IsUsable }
        ensures { result
            ≡ hold_for (Some self.now.schedule) self.now.change (command_of pending.entry) }
    {
        match pending {
            None => None,
            Some(command) => Some(self.hold_moment(command)),
        }
    }

    /// Where the list stands at the moment `t`, with its last state held from a moment on, if from any. Both are in
    /// picoseconds.
    pub(crate) fn position_at(
        &self,
        held_from: Option<u128>,
        t: u128,
        visits: &mut Visits,
    ) -> Position
        requires sound { IsSchedule self.now.schedule }
        requires start { self.now.change ≤ 2 * greatest_moment }
        requires held { (next : Option Accepted)
            × (held_from ≡ hold_for (Some self.now.schedule) self.now.change next) }
        requires masked { self.now.position.last_mask ≡ last_mask self.now.schedule.entries }
        requires begun { self.now.change ≤ t }
        requires within { t ≤ 2 * greatest_moment }
        ensures placed { IsPlaced self.now.schedule self.now.change held_from t result }
        ensures counted { visits.old ≤ visits.new }
        ensures visits { visits.new ≤ visits.old + (length self.now.schedule.entries + 1) }
    {
        let mut position = self.position;
        position.jump_to(&self.schedule, self.change, held_from, t, visits);
        position
    }

    /// Lets the list go on to a later moment `t`, where the same hold counts. Both are in picoseconds.
    #[inline(always)]
    fn go_on(&mut self, held_from: Option<u128>, t: u128, visits: &mut Visits)
        requires usable { IsUsable (accepted_list self.old) }
        requires within { t ≤ 2 * greatest_moment }
        requires stood { StoodBy self.old.schedule self.old.change held_from t self.old.position }
        ensures same { self.new ≡ record self.old { position = self.new.position } }
        ensures placed { IsPlaced self.old.schedule self.old.change held_from t self.new.position }
        ensures counted { visits.old ≤ visits.new }
        ensures visits { visits.new ≤ visits.old + (length self.old.schedule.entries + 1) }
        ensures next { (n e : ℕ) →
            IsPlaced self.old.schedule self.old.change held_from n self.old.position →
            BeginsAtMost (Some self.old.schedule) self.old.change n t e →
            visits.new ≤ visits.old + 2 }
    {
        self.position
            .go_on(&self.schedule, self.change, held_from, t, visits);
    }

    /// Lets the list go on to a later moment `t` where no other command is to come; the moment up to which it shows one
    /// mask then, and that mask: bit c is class c. The moments are in picoseconds.
    #[inline(always)]
    fn go_alone(&mut self, t: u128, visits: &mut Visits) -> (Option<u128>, u8)
        requires usable { IsUsable (accepted_list self.old) }
        requires within { t ≤ 2 * greatest_moment }
        requires stood { StoodBy self.old.schedule self.old.change None t self.old.position }
        ensures same { self.new ≡ record self.old { position = self.new.position } }
        ensures placed { IsPlaced self.old.schedule self.old.change None t self.new.position }
        ensures until { result.0 ≡ boundary_of None self.new.position }
        ensures later { ForSome result.0 (λ u. t < u) }
        ensures mask { result.1 ≡ walk_mask self.new.position.walk }
        ensures counted { visits.old ≤ visits.new }
        ensures visits { visits.new ≤ visits.old + (length self.old.schedule.entries + 1) }
        ensures next { (n e : ℕ) →
            IsPlaced self.old.schedule self.old.change None n self.old.position →
            BeginsAtMost (Some self.old.schedule) self.old.change n t e →
            visits.new ≤ visits.old + 2 }
    {
        self.position
            .go_on(&self.schedule, self.change, None, t, visits);
        (self.position.until(None), self.position.walk.mask())
    }
}

impl AcceptedCommand {
    /// Lets the list of the command, if it is one, go on to a later moment `t`, where the same hold counts. Both are in
    /// picoseconds.
    pub(crate) fn go_on(&mut self, held_from: Option<u128>, t: u128, visits: &mut Visits)
        requires usable { IsUsable (accepted_in self.old) }
        requires within { t ≤ 2 * greatest_moment }
        requires stood { (n : ℕ) × (n ≤ t)
            × StandsHeld (Some (accepted_in self.old)) held_from n (position_in self.old) }
        ensures same { accepted_in self.new ≡ accepted_in self.old }
        ensures stands { StandsHeld (Some (accepted_in self.old)) held_from t
            (position_in self.new) }
        ensures counted { visits.old ≤ visits.new }
        ensures visits { visits.new ≤ visits.old + (entry_count (accepted_in self.old).plan + 1) }
        ensures next { (n e : ℕ) →
            StandsHeld (Some (accepted_in self.old)) held_from n (position_in self.old) →
            BeginsAtMost (accepted_in self.old).plan (accepted_in self.old).change n t e →
            visits.new ≤ visits.old + 2 }
    {
        match self {
            AcceptedCommand::Install(list) => list.go_on(held_from, t, visits),
            AcceptedCommand::Delete(_) => {}
        }
    }

    /// Lets the list of the command, if it is one, go on to a later moment `t` where no other command is to come; the
    /// moment up to which it shows one mask then, both in picoseconds, if it shows it not for ever; and that mask.
    #[inline(always)]
    pub(crate) fn go_alone(&mut self, t: u128, visits: &mut Visits) -> (Option<u128>, u8)
        requires usable { IsUsable (accepted_in self.old) }
        requires within { t ≤ 2 * greatest_moment }
        requires stood { (n : ℕ) × (n ≤ t)
            × Stands (Some (accepted_in self.old)) None n (position_in self.old) }
        ensures same { accepted_in self.new ≡ accepted_in self.old }
        ensures stands { Stands (Some (accepted_in self.old)) None t (position_in self.new) }
        ensures until { result.0
            ≡ boundary_in_force (Some (accepted_in self.old)) None (position_in self.new) }
        ensures later { ForSome result.0 (λ u. t < u) }
        ensures mask { result.1 ≡ shown_by (position_in self.new) }
        ensures counted { visits.old ≤ visits.new }
        ensures visits { visits.new ≤ visits.old + (entry_count (accepted_in self.old).plan + 1) }
        ensures next { (n e : ℕ) →
            Stands (Some (accepted_in self.old)) None n (position_in self.old) →
            BeginsAtMost (accepted_in self.old).plan (accepted_in self.old).change n t e →
            visits.new ≤ visits.old + 2 }
    {
        match self {
            AcceptedCommand::Install(list) => list.go_alone(t, visits),
            AcceptedCommand::Delete(_) => (None, u8::MAX),
        }
    }

    /// Lets the list of the command, if it is one, stand where it stands at `t`, with its last state held from a moment
    /// on, if from any. Both are in picoseconds.
    pub(crate) fn place_at(&mut self, held_from: Option<u128>, t: u128, visits: &mut Visits)
        requires usable { IsUsable (accepted_in self.old) }
        requires held { (next : Option Accepted)
            × (held_from ≡ held_under (Some (accepted_in self.old)) next) }
        requires ends { EndsSo (Some (accepted_in self.old)) (position_in self.old) }
        requires begun { (accepted_in self.old).change ≤ t }
        requires within { t ≤ 2 * greatest_moment }
        ensures same { accepted_in self.new ≡ accepted_in self.old }
        ensures stands { StandsHeld (Some (accepted_in self.old)) held_from t
            (position_in self.new) }
        ensures counted { visits.old ≤ visits.new }
        ensures visits { visits.new ≤ visits.old + (entry_count (accepted_in self.old).plan + 1) }
    {
        match self {
            AcceptedCommand::Install(list) => list.position = list.position_at(
                held_from, t, visits,
            ),
            AcceptedCommand::Delete(_) => {}
        }
    }
}

/// The list of a command, if it has one.
pub fn list_in(command: Option<&AcceptedCommand>) -> Option<&AcceptedList>
    ensures { IsListOf (command_of command.entry) (position_lent command.entry) result }
{
    match command {
        None => None,
        Some(command) => match command {
            AcceptedCommand::Install(list) => Some(list),
            AcceptedCommand::Delete(_) => None,
        },
    }
}

/// The moment from which the command in force is held for the change that is pending, in picoseconds, if one is.
pub(crate) fn held_under(
    in_force: Option<&AcceptedCommand>,
    pending: Option<&AcceptedCommand>,
) -> Option<u128>
    requires usable { ForSome (command_of in_force) IsUsable }
    requires pending { ForSome (command_of pending) IsUsable }
    ensures { result ≡ held_under (command_of in_force.entry) (command_of pending.entry) }
{
    match list_in(in_force) {
        None => None,
        Some(list) => list.held_from(pending),
    }
}

/// The classes that the command in force opens: bit c is class c.
pub fn mask_under(in_force: Option<&AcceptedCommand>) -> u8
    ensures { result ≡ shown_by (position_lent in_force.entry) }
{
    match list_in(in_force) {
        None => u8::MAX,
        Some(list) => list.position.walk.mask(),
    }
}
