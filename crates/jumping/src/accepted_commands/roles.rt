//! Which commands are in force, pending and announced, each in a place of its own.
ghost use Rattle.std.specs.Prelude.{◌≡◌, ℕ, Option, false, ◌*◌, ◌+◌, ◌<◌, ◌≤◌, IsTrue, None, Some, option_map};
ghost use Rattle.std.specs.Option.{ForSome};
ghost use Rattle.jumping.specs.CommandWords.{greatest_lead, greatest_moment, IsSchedule, accepted_at, deletion_at, entry_count, plan_of, start_of, BeginsAtMost, more, Accepted, IsUsable, accepted_in, settled_at, EndsSo, IsFirst, Stands, StandsHeld, boundary_in_force, held_under, option_position, shown_by, AreKept, IsLent, commands_at, kept_in};

use crate::accepted_commands::command::AcceptedCommand;
use crate::list_position::Position;
use gates::gate_list::{Schedule, Visits};
use std::marker::Model;

/// The place of a role, and whether a command has the role.
#[derive(Clone, Copy)]
struct Role {
    place: usize,
    is_taken: bool,
}

/// The commands in force, pending and announced. A command takes six kilobytes: it stays in its place when its role
/// changes, until another takes the place, so that only what that one uses is copied.
#[derive(Drop)]
pub(crate) struct Roles {
    places: [AcceptedCommand; 3],
    in_force: Role,
    pending: Role,
    announced: Role,
}

/// A contract sees the commands.
impl Model for Roles {
    ghost use Rattle.jumping.specs.Roles.{AreApart, Kept, kept_in};

    ghost Value = { Kept };

    ghost view = { λ r. record {
      in_force = kept_in r.places r.in_force;
      pending = kept_in r.places r.pending;
      announced = kept_in r.places r.announced;
    } };

    ghost invariant = { λ r. AreApart r.in_force.place r.pending.place r.announced.place };
}

/// A role that no command has.
fn free(place: usize) -> Role
    ensures { result ≡ record { place = place; is_taken = false } }
{
    Role {
        place,
        is_taken: false,
    }
}

/// The command that has a role, if one has.
fn lent<'a>(places: &'a [AcceptedCommand; 3], role: Role) -> Option<&'a AcceptedCommand>
    requires { role.place < 3 }
    ensures { IsLent (kept_in places.now role) result }
{
    if role.is_taken {
        Some(&places[role.place])
    } else {
        None
    }
}

impl Roles {
    /// No command.
    pub fn empty() -> Roles
        ensures { result ≡ record { in_force = None; pending = None; announced = None } }
    {
        Roles {
            places: [
                AcceptedCommand::Delete(0),
                AcceptedCommand::Delete(0),
                AcceptedCommand::Delete(0),
            ],
            in_force: free(0),
            pending: free(1),
            announced: free(2),
        }
    }

    /// The command in force.
    #[inline(always)]
    pub fn in_force(&self) -> Option<&AcceptedCommand>
        ensures { IsLent self.now.in_force result }
    {
        lent(&self.places, self.in_force)
    }

    /// The command that is pending.
    #[inline(always)]
    pub fn pending(&self) -> Option<&AcceptedCommand>
        ensures { IsLent self.now.pending result }
    {
        lent(&self.places, self.pending)
    }

    /// The command that is announced.
    #[inline(always)]
    pub fn announced(&self) -> Option<&AcceptedCommand>
        ensures { IsLent self.now.announced result }
    {
        lent(&self.places, self.announced)
    }

    /// The command that is pending comes in force.
    fn enforce(&mut self)
        ensures { self.new ≡ record self.old { in_force = self.old.pending; pending = None } }
    {
        let place = self.in_force.place;
        self.in_force = self.pending;
        self.pending = free(place);
    }

    /// The command that is announced is pending from now on.
    fn pend(&mut self)
        ensures { self.new ≡ record self.old { pending = self.old.announced; announced = None } }
    {
        let place = self.pending.place;
        self.pending = self.announced;
        self.announced = free(place);
    }

    /// Goes on to a moment, in picoseconds: a command that is replaced before its change, or that another follows in
    /// force, is dropped. The list in force stands where it stood. Answers true only where nothing happens but that the
    /// command that was announced is pending from now on.
    pub fn settle(&mut self, t: u128) -> bool
        requires kept { (m : ℕ) × (m ≤ t) × AreKept m self.old }
        requires within { t ≤ greatest_moment }
        ensures value { commands_at t self.new ≡ settled_at (commands_at t self.old) t }
        ensures kept { AreKept t self.new }
        ensures next { IsTrue result →
            self.new ≡ record self.old { pending = self.old.announced; announced = None } }
    {
        let mut is_next = false;
        if let Some(announced) = self.announced() {
            if announced.lead() <= t {
                is_next = true;
                if let Some(pending) = self.pending() {
                    if pending.change() <= announced.lead() {
                        self.enforce();
                        is_next = false;
                    }
                }
                self.pend();
            }
        }
        if let Some(pending) = self.pending() {
            if pending.change() <= t {
                self.enforce();
                return false;
            }
        }
        is_next
    }

    /// Announces the command of a schedule that is accepted for a lead moment; the change moment of that command. Both
    /// are in picoseconds. It looks at the last entry of the list and at the first.
    pub fn announce_list(&mut self, schedule: &Schedule, lead: u128, visits: &mut Visits) -> u128
        requires { lead ≤ greatest_moment + greatest_lead }
        ensures change { result ≡ (accepted_at lead schedule.now).change }
        ensures value { option_map accepted_in self.new.announced
            ≡ Some (accepted_at lead schedule.now) }
        ensures others { (self.new.in_force ≡ self.old.in_force)
            × (self.new.pending ≡ self.old.pending) }
        ensures usable { IsUsable (accepted_at lead schedule.now) }
        ensures first { ForSome self.new.announced IsFirst }
        ensures sound { IsSchedule schedule.now }
        ensures visits { visits.new ≡ more visits.old 2 }
    {
        // For the prover: a call on a schedule says what holds of every schedule.
        let _ = schedule.len();
        let change = schedule.change_moment(lead);
        let position = Position::first(schedule, change, visits);
        self.places[self.announced.place].put_list(schedule, lead, change, &position);
        self.announced.is_taken = true;
        change
    }

    /// Announces the deletion with this lead moment, in picoseconds.
    pub fn announce_deletion(&mut self, lead: u128)
        ensures value { option_map accepted_in self.new.announced ≡ Some (deletion_at lead) }
        ensures others { (self.new.in_force ≡ self.old.in_force)
            × (self.new.pending ≡ self.old.pending) }
        ensures first { ForSome self.new.announced IsFirst }
    {
        self.places[self.announced.place].put_deletion(lead);
        self.announced.is_taken = true;
    }

    /// Lets the list in force go on to a later moment `t`, where the same hold counts. Both are in picoseconds.
    pub fn go_on(&mut self, held_from: Option<u128>, t: u128, visits: &mut Visits)
        requires usable { ForSome (option_map accepted_in self.old.in_force) IsUsable }
        requires within { t ≤ 2 * greatest_moment }
        requires stood { (n : ℕ) × (n ≤ t)
            × StandsHeld (option_map accepted_in self.old.in_force) held_from n
            (option_position self.old.in_force) }
        ensures same { option_map accepted_in self.new.in_force
            ≡ option_map accepted_in self.old.in_force }
        ensures others { (self.new.pending ≡ self.old.pending)
            × (self.new.announced ≡ self.old.announced) }
        ensures stands { StandsHeld (option_map accepted_in self.old.in_force) held_from t
            (option_position self.new.in_force) }
        ensures counted { visits.old ≤ visits.new }
        ensures visits { visits.new
            ≤ visits.old + (entry_count (plan_of (option_map accepted_in self.old.in_force)) + 1) }
        ensures next { (n e : ℕ) →
            StandsHeld (option_map accepted_in self.old.in_force) held_from n
            (option_position self.old.in_force) →
            BeginsAtMost (plan_of (option_map accepted_in self.old.in_force))
            (start_of (option_map accepted_in self.old.in_force)) n t e →
            visits.new ≤ visits.old + 2 }
    {
        if self.in_force.is_taken {
            self.places[self.in_force.place].go_on(held_from, t, visits);
        }
    }

    /// Lets the list in force go on to a later moment `t` where no other command is to come; the moment up to which it
    /// shows one mask then, both in picoseconds, if it shows it not for ever; and that mask.
    #[inline(always)]
    pub fn go_alone(&mut self, t: u128, visits: &mut Visits) -> (Option<u128>, u8)
        requires usable { ForSome (option_map accepted_in self.old.in_force) IsUsable }
        requires within { t ≤ 2 * greatest_moment }
        requires stood { (n : ℕ) × (n ≤ t)
            × Stands (option_map accepted_in self.old.in_force) None n
            (option_position self.old.in_force) }
        ensures same { option_map accepted_in self.new.in_force
            ≡ option_map accepted_in self.old.in_force }
        ensures others { (self.new.pending ≡ self.old.pending)
            × (self.new.announced ≡ self.old.announced) }
        ensures stands { Stands (option_map accepted_in self.old.in_force) None t
            (option_position self.new.in_force) }
        ensures until { result.0
            ≡ boundary_in_force (option_map accepted_in self.old.in_force) None
            (option_position self.new.in_force) }
        ensures later { ForSome result.0 (λ u. t < u) }
        ensures mask { result.1 ≡ shown_by (option_position self.new.in_force) }
        ensures counted { visits.old ≤ visits.new }
        ensures visits { visits.new
            ≤ visits.old + (entry_count (plan_of (option_map accepted_in self.old.in_force)) + 1) }
        ensures next { (n e : ℕ) →
            Stands (option_map accepted_in self.old.in_force) None n
            (option_position self.old.in_force) →
            BeginsAtMost (plan_of (option_map accepted_in self.old.in_force))
            (start_of (option_map accepted_in self.old.in_force)) n t e →
            visits.new ≤ visits.old + 2 }
    {
        if self.in_force.is_taken {
            self.places[self.in_force.place].go_alone(t, visits)
        } else {
            (None, u8::MAX)
        }
    }

    /// Lets the list in force stand where it stands at `t`, with its last state held from a moment on, if from any.
    /// Both are in picoseconds.
    pub fn place_at(&mut self, held_from: Option<u128>, t: u128, visits: &mut Visits)
        requires usable { ForSome (option_map accepted_in self.old.in_force) IsUsable }
        requires held { (next : Option Accepted)
            × (held_from ≡ held_under (option_map accepted_in self.old.in_force) next) }
        requires ends { EndsSo (option_map accepted_in self.old.in_force)
            (option_position self.old.in_force) }
        requires begun { ForSome (option_map accepted_in self.old.in_force) (λ a. a.change ≤ t) }
        requires within { t ≤ 2 * greatest_moment }
        ensures same { option_map accepted_in self.new.in_force
            ≡ option_map accepted_in self.old.in_force }
        ensures others { (self.new.pending ≡ self.old.pending)
            × (self.new.announced ≡ self.old.announced) }
        ensures stands { StandsHeld (option_map accepted_in self.old.in_force) held_from t
            (option_position self.new.in_force) }
        ensures counted { visits.old ≤ visits.new }
        ensures visits { visits.new
            ≤ visits.old + (entry_count (plan_of (option_map accepted_in self.old.in_force)) + 1) }
    {
        if self.in_force.is_taken {
            self.places[self.in_force.place].place_at(held_from, t, visits);
        }
    }
}
