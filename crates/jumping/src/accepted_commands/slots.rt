//! The commands that count at a moment.
ghost use Rattle.std.specs.Prelude.{◌≡◌, ℕ, ◌+◌, ◌<◌, ◌≤◌, ◌↔◌, IsTrue, None, Some};
ghost use Rattle.std.specs.Option.{ForSome};
ghost use Rattle.jumping.specs.CommandWords.{greatest_lead, greatest_moment, plan_of, start_of, accepted_at, deletion_at, entry_count, more, BeginsAtMost, AreCommands, IsUsable, NoneBy, command_of, no_commands, settled_at, EndsSo, IsFirst, Stands, boundary_in_force, held_under, position_lent, shown_by};

use crate::accepted_commands::command::AcceptedCommand;
use crate::accepted_commands::roles::Roles;
use crate::accepted_commands::under::held_under;
use gates::gate_list::{Schedule, Visits};
use std::marker::Model;

/// The moment now, and the commands in force, pending and announced then. The moments from which the list in force is
/// held for the change that is pending, and from which it would be for the command that is announced, are kept, since
/// each takes a division.
#[derive(Drop)]
pub struct CommandSlots {
    moment: u128,
    roles: Roles,
    held_from: Option<u128>,
    held_next: Option<u128>,
}

/// A contract sees the commands with the moment, and where the list in force stands.
impl Model for CommandSlots {
    ghost use Rattle.std.specs.Prelude.{◌≡◌, option_map};
    ghost use Rattle.jumping.specs.Commands.{accepted_in};
    ghost use Rattle.jumping.specs.InForce.{Standing, held_under, option_position};
    ghost use Rattle.jumping.specs.Roles.{AreKept, commands_at};

    ghost Value = { Standing };

    ghost view = { λ s. record {
      commands = commands_at s.moment s.roles;
      position = option_position s.roles.in_force;
    } };

    ghost invariant = { λ s. AreKept s.moment s.roles
        × (s.held_from
        ≡ held_under (option_map accepted_in s.roles.in_force)
        (option_map accepted_in s.roles.pending))
        × (s.held_next
        ≡ held_under (option_map accepted_in s.roles.in_force)
        (option_map accepted_in s.roles.announced)) };
}

/// Whether a command, if there is one, changes the gates after a moment, in picoseconds.
fn changes_after(command: Option<&AcceptedCommand>, moment: u128) -> bool
    ensures { IsTrue result ↔ ForSome (command_of command.entry) (λ a. moment < a.change) }
{
    match command {
        None => true,
        Some(command) => moment < command.change(),
    }
}

/// Whether a command, if there is one, has its lead moment after a moment, in picoseconds.
fn leads_after(command: Option<&AcceptedCommand>, moment: u128) -> bool
    ensures { IsTrue result ↔ ForSome (command_of command.entry) (λ a. moment < a.lead) }
{
    match command {
        None => true,
        Some(command) => moment < command.lead(),
    }
}

impl CommandSlots {
    /// No command, at the moment 0.
    pub fn begin() -> CommandSlots
        ensures value { result.commands ≡ no_commands }
        ensures position { result.position ≡ None }
        ensures sound { AreCommands result.commands }
    {
        CommandSlots {
            moment: 0,
            roles: Roles::empty(),
            held_from: None,
            held_next: None,
        }
    }

    /// The moment now, in picoseconds.
    pub fn moment(&self) -> u128
        ensures { result ≡ self.now.commands.moment }
    {
        self.moment
    }

    /// The command in force.
    pub fn in_force(&self) -> Option<&AcceptedCommand>
        ensures command { command_of result ≡ self.now.commands.in_force }
        ensures position { position_lent result ≡ self.now.position }
        ensures ends { EndsSo self.now.commands.in_force self.now.position }
    {
        self.roles.in_force()
    }

    /// The command that is pending.
    pub fn pending(&self) -> Option<&AcceptedCommand>
        ensures command { command_of result ≡ self.now.commands.pending }
        ensures first { ForSome result (λ c. IsFirst c.now) }
    {
        self.roles.pending()
    }

    /// The command that is announced.
    pub fn announced(&self) -> Option<&AcceptedCommand>
        ensures command { command_of result ≡ self.now.commands.announced }
        ensures first { ForSome result (λ c. IsFirst c.now) }
    {
        self.roles.announced()
    }

    /// The moment from which the list in force is held for the change that is pending, in picoseconds, if one is.
    pub fn held_from(&self) -> Option<u128>
        ensures { result ≡ held_under self.now.commands.in_force self.now.commands.pending }
    {
        self.held_from
    }

    /// The moment from which the list in force would be held for the command that is announced, in picoseconds, if one
    /// is.
    pub fn held_next(&self) -> Option<u128>
        ensures { result ≡ held_under self.now.commands.in_force self.now.commands.announced }
    {
        self.held_next
    }

    /// Goes on to a moment, in picoseconds: a command that is replaced before its change, or that another follows in
    /// force, is dropped. The list in force stands where it stood.
    fn settle(&mut self, t: u128)
        requires later { self.old.commands.moment ≤ t }
        requires within { t ≤ greatest_moment }
        ensures value { self.new.commands ≡ settled_at self.old.commands t }
        ensures sound { AreCommands self.new.commands }
    {
        let is_next = self.roles.settle(t);
        self.moment = t;
        if is_next {
            // The same list is in force, and the same change is to come.
            self.held_from = self.held_next;
            self.held_next = None;
        } else {
            self.held_from = held_under(self.roles.in_force(), self.roles.pending());
            self.held_next = held_under(self.roles.in_force(), self.roles.announced());
        }
    }

    /// Goes on to a moment, in picoseconds, up to which no command comes: nothing but the moment changes.
    pub fn pass(&mut self, moment: u128)
        requires later { self.old.commands.moment ≤ moment }
        requires within { moment ≤ greatest_moment }
        requires none { NoneBy self.old.commands.pending self.old.commands.announced moment }
        ensures value { self.new.commands ≡ record self.old.commands { moment = moment } }
        ensures position { self.new.position ≡ self.old.position }
        ensures sound { AreCommands self.new.commands }
    {
        self.moment = moment;
    }

    /// Whether no command comes up to a moment, in picoseconds.
    pub(crate) fn is_alone_until(&self, t: u128) -> bool
        ensures { IsTrue result ↔ NoneBy self.now.commands.pending self.now.commands.announced t }
    {
        changes_after(self.pending(), t) && leads_after(self.announced(), t)
    }

    /// Lets the list in force go on to now, from where it stood with the same change pending.
    fn go_on(&mut self, visits: &mut Visits)
        requires stood { (n : ℕ) × (n ≤ self.old.commands.moment)
            × Stands self.old.commands.in_force self.old.commands.pending n self.old.position }
        ensures commands { self.new.commands ≡ self.old.commands }
        ensures stands { Stands self.new.commands.in_force self.new.commands.pending
            self.new.commands.moment self.new.position }
        ensures counted { visits.old ≤ visits.new }
        ensures visits { visits.new
            ≤ visits.old + (entry_count (plan_of self.old.commands.in_force) + 1) }
        ensures next { (n e : ℕ) →
            Stands self.old.commands.in_force self.old.commands.pending n self.old.position →
            BeginsAtMost (plan_of self.old.commands.in_force)
            (start_of self.old.commands.in_force) n self.old.commands.moment e →
            visits.new ≤ visits.old + 2 }
    {
        self.roles.go_on(self.held_from, self.moment, visits);
    }

    /// Whether no command is to come.
    pub fn is_alone(&self) -> bool
        ensures { IsTrue result
            ↔ ((self.now.commands.pending ≡ None) × (self.now.commands.announced ≡ None)) }
    {
        self.pending().is_none() && self.announced().is_none()
    }

    /// Goes on to a moment, in picoseconds, where no command is to come: the list in force goes on from where it stood.
    /// Answers the next moment at which a boundary comes, in picoseconds, if one does, and the mask that shows up to
    /// there.
    #[inline(always)]
    pub fn move_alone(&mut self, t: u128, visits: &mut Visits) -> (Option<u128>, u8)
        requires later { self.old.commands.moment ≤ t }
        requires within { t ≤ greatest_moment }
        requires unpending { self.old.commands.pending ≡ None }
        requires unannounced { self.old.commands.announced ≡ None }
        requires stands { Stands self.old.commands.in_force None self.old.commands.moment
            self.old.position }
        ensures value { self.new.commands ≡ record self.old.commands { moment = t } }
        ensures stands { Stands self.old.commands.in_force None t self.new.position }
        ensures sound { AreCommands self.new.commands }
        ensures until { result.0
            ≡ boundary_in_force self.old.commands.in_force None self.new.position }
        ensures later { ForSome result.0 (λ u. t < u) }
        ensures mask { result.1 ≡ shown_by self.new.position }
        ensures counted { visits.old ≤ visits.new }
        ensures visits { visits.new
            ≤ visits.old + (entry_count (plan_of self.old.commands.in_force) + 1) }
        ensures next { (n e : ℕ) → Stands self.old.commands.in_force None n self.old.position →
            BeginsAtMost (plan_of self.old.commands.in_force)
            (start_of self.old.commands.in_force) n t e → visits.new ≤ visits.old + 2 }
    {
        self.moment = t;
        self.roles.go_alone(t, visits)
    }

    /// Lets the list in force stand where it stands now, wherever it stood.
    #[inline(never)]
    fn place(&mut self, visits: &mut Visits)
        ensures commands { self.new.commands ≡ self.old.commands }
        ensures stands { Stands self.new.commands.in_force self.new.commands.pending
            self.new.commands.moment self.new.position }
        ensures counted { visits.old ≤ visits.new }
        ensures visits { visits.new
            ≤ visits.old + (entry_count (plan_of self.old.commands.in_force) + 1) }
    {
        self.roles.place_at(self.held_from, self.moment, visits);
    }

    /// Goes on to a moment, in picoseconds, and lets the list in force stand where it stands then. Where no command
    /// comes up to that moment the list goes on from where it stood, and else it is placed anew. It stays apart: the
    /// compiler would make room for two commands at each call of a body that it is taken into.
    #[inline(never)]
    pub fn move_on(&mut self, t: u128, visits: &mut Visits)
        requires later { self.old.commands.moment ≤ t }
        requires within { t ≤ greatest_moment }
        requires stands { Stands self.old.commands.in_force self.old.commands.pending
            self.old.commands.moment self.old.position }
        ensures value { self.new.commands ≡ settled_at self.old.commands t }
        ensures stands { Stands self.new.commands.in_force self.new.commands.pending
            self.new.commands.moment self.new.position }
        ensures sound { AreCommands self.new.commands }
        ensures counted { visits.old ≤ visits.new }
        ensures visits { visits.new
            ≤ visits.old + (entry_count (plan_of self.new.commands.in_force) + 1) }
        ensures next { (e : ℕ) → NoneBy self.old.commands.pending self.old.commands.announced t →
            BeginsAtMost (plan_of self.old.commands.in_force)
            (start_of self.old.commands.in_force) self.old.commands.moment t e →
            visits.new ≤ visits.old + 2 }
    {
        // What holds of the slots is used below.
        let _ = &self.moment;
        if self.is_alone_until(t) {
            self.pass(t);
            self.go_on(visits);
        } else {
            self.settle(t);
            self.place(visits);
        }
    }

    /// Announces the command of a schedule whose lead moment is to come; the change moment of that command. Both are in
    /// picoseconds. It looks at the last entry of the list and at the first.
    pub fn announce_list(&mut self, schedule: &Schedule, lead: u128, visits: &mut Visits) -> u128
        requires free { self.old.commands.announced ≡ None }
        requires ahead { self.old.commands.moment < lead }
        requires within { lead ≤ greatest_moment + greatest_lead }
        ensures change { result ≡ (accepted_at lead schedule.now).change }
        ensures value { self.new.commands
            ≡ record self.old.commands { announced = Some (accepted_at lead schedule.now) } }
        ensures position { self.new.position ≡ self.old.position }
        ensures usable { IsUsable (accepted_at lead schedule.now) }
        ensures sound { AreCommands self.new.commands }
        ensures visits { visits.new ≡ more visits.old 2 }
    {
        // What holds of the slots is used below.
        let _ = &self.moment;
        let change = self.roles.announce_list(schedule, lead, visits);
        self.held_next = held_under(self.roles.in_force(), self.roles.announced());
        change
    }

    /// Announces a deletion whose lead moment, in picoseconds, is to come.
    pub fn announce_deletion(&mut self, lead: u128)
        requires free { self.old.commands.announced ≡ None }
        requires ahead { self.old.commands.moment < lead }
        requires within { lead ≤ greatest_moment + greatest_lead }
        ensures value { self.new.commands
            ≡ record self.old.commands { announced = Some (deletion_at lead) } }
        ensures position { self.new.position ≡ self.old.position }
        ensures sound { AreCommands self.new.commands }
    {
        self.roles.announce_deletion(lead);
        self.held_next = held_under(self.roles.in_force(), self.roles.announced());
    }
}
