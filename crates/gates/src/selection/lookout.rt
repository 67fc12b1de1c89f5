//! Gates that are moved only when they are asked, and a memory of how long no class may start.

ghost use Rattle.std.specs.Prelude.{◌≡◌, ℕ, ◌+◌, ◌*◌, ◌<◌, ◌≤◌, ◌↔◌, IsTrue, IsSome, IfSome, IfNone, OnSome, [], ◌∷◌, Some, None, true, false, slice_index_or, slice_set};
ghost use Rattle.std.specs.Option.{option_map, option_or, ForSome};
ghost use Rattle.wire_time.specs.Moment.{greatest_moment, greatest_lead};
ghost use Rattle.gates.specs.History.{gates, in_force, pending, announced, kept};
ghost use Rattle.gates.specs.Choice.{first_choice};
ghost use Rattle.gates.specs.Current.{IsCurrent, longest, accepted_at, deletion_at, answer_to, with_command, installed_of};
ghost use Rattle.gates.specs.Watched.{IsStill, with_needs};

use crate::gate_list::{Schedule, Visits, is_open};
use crate::list_config::{Gates, Installed, NotNow};
use crate::queue_heads::Heads;
use crate::selection::choice::find_choice;
use std::marker::Model;
use wire_time::CLASSES;

/// What gates show.
#[derive(Clone, Copy, Debug, PartialEq, Eq)]
pub struct Shown {
    /// The classes that are open: bit c is class c.
    pub mask: u8,
    /// The command in force, if there is one.
    pub in_force: Option<Installed>,
    /// The command that is pending, if there is one.
    pub pending: Option<Installed>,
    /// The command that is announced, if there is one.
    pub announced: Option<Installed>,
}

/// Whether no command is to come.
fn is_still<G: Gates>(gates: &G) -> bool
    requires { G.is_sound gates.now }
    ensures { result ≡ true → IsStill (G.history gates.now) (G.moment gates.now) }
{
    gates.pending().is_none() && gates.announced().is_none()
}

/// Gates for which no command is to come show at a later moment, in picoseconds, what they do where they stand. It runs
/// nothing: its contract is its law.
fn stay_till<G: Gates>(gates: &G, t: u128)
    requires sound { G.is_sound gates.now }
    requires still { IsStill (G.history gates.now) (G.moment gates.now) }
    requires later { G.moment gates.now ≤ t }
    requires within { t ≤ greatest_moment }
    ensures history { G.history gates.now ≡ kept (G.history gates.now) t }
    ensures current { IsCurrent (G.history gates.now) t }
{}

/// Moves gates for which a command is to come to a moment, in picoseconds; where none is (`still`), the gates show
/// there what they do where they stand. Answers whether none is to come then.
fn catch_up<G: Gates>(gates: &mut G, still: bool, t: u128, visits: &mut Visits) -> bool
    requires sound { G.is_sound gates.old }
    requires still { still ≡ true → IsStill (G.history gates.old) (G.moment gates.old) }
    requires later { G.moment gates.old ≤ t }
    requires within { t ≤ greatest_moment }
    ensures sound { G.is_sound gates.new }
    ensures history { G.history gates.new ≡ kept (G.history gates.old) t }
    ensures current { IsCurrent (G.history gates.new) t }
    ensures upto { G.moment gates.new ≤ t }
    ensures still { result ≡ true → IsStill (G.history gates.new) (G.moment gates.new) }
    ensures there { result ≡ false → G.moment gates.new ≡ t }
    ensures counted { visits.old ≤ visits.new }
    ensures visits { IsTrue G.JUMPS →
        visits.new ≤ visits.old + 2 * (longest (G.history gates.old) + 1) }
{
    if still {
        return true;
    }
    gates.move_to(t, visits);
    is_still(gates)
}

/// The gates of a port, a moment, and what the head of each class needs. The gates stand at that moment or before it:
/// they are moved when they are asked, or while a command is to come. Up to `idle`, which is not before that moment, no
/// class may start, so that a move to a moment before it costs a comparison.
#[derive(Drop)]
pub struct Lookout<G: Gates> {
    gates: G,
    moment: u128,
    heads: Heads,
    idle: u128,
    still: bool,
}

/// A contract sees the history of the gates, which is what they would keep at the moment, the moment, and the needs.
impl<G: Gates> Model for Lookout<G> {
    ghost use Rattle.std.specs.Prelude.{◌≡◌, ◌≤◌, true, false};
    ghost use Rattle.gates.specs.Current.{IsCurrent};
    ghost use Rattle.gates.specs.Watched.{Watched, IsIdle, IsStill};

    ghost Value = { Watched };

    ghost view = { λ w. record {
      history = G.history w.gates;
      moment = w.moment;
      needs = w.heads;
    } };

    ghost invariant = { λ w. (G.is_sound w.gates)
        × (G.moment w.gates ≤ w.moment)
        × IsCurrent (G.history w.gates) w.moment
        × IsIdle (G.history w.gates) w.heads w.moment w.idle
        × (w.moment ≤ w.idle)
        × (w.still ≡ true → IsStill (G.history w.gates) (G.moment w.gates))
        × (w.still ≡ false → G.moment w.gates ≡ w.moment) };
}

impl<G: Gates> Lookout<G> {
    /// Gates with no command at the moment 0, and no frame that waits.
    pub fn new() -> Lookout<G>
        ensures current { IsCurrent result.history result.moment }
        ensures value { result
            ≡ record {
              history = [];
              moment = 0;
              needs = None ∷ None ∷ None ∷ None ∷ None ∷ None ∷ None ∷ None ∷ [];
            } }
    {
        Lookout {
            gates: G::begin(),
            moment: 0,
            heads: Heads::none(),
            idle: 0,
            still: false,
        }
    }

    /// The moment now, in picoseconds.
    pub fn now(&self) -> u128
        ensures moment { result ≡ self.now.moment }
        ensures current { IsCurrent self.now.history self.now.moment }
    {
        self.moment
    }

    /// How long the head of a class needs the wire, in picoseconds, where a frame waits.
    pub fn need(&self, class: u8) -> u64
        requires { class < CLASSES }
        ensures { (d : ℕ) → slice_index_or self.now.needs class None ≡ Some d → result ≡ d }
    {
        self.heads.need(class)
    }

    /// The head of a class needs the wire for so long, in picoseconds and more than 0; none: no frame waits there.
    pub fn set_need(&mut self, class: u8, need: Option<u64>)
        requires class { class < CLASSES }
        requires some { ForSome need (λ d. 0 < d) }
        ensures { self.new ≡ with_needs self.old (slice_set self.old.needs class need) }
    {
        self.heads.set(class, need);
        self.idle = self.moment;
    }

    /// A frame that needs the wire for so long, in picoseconds and more than 0, waits in a class from now on, after
    /// those that do already.
    pub fn add_need(&mut self, class: u8, need: u64)
        requires class { class < CLASSES }
        requires some { 0 < need }
        ensures { self.new
            ≡ with_needs self.old
            (slice_set self.old.needs class
            (option_or (slice_index_or self.old.needs class None) (Some need))) }
    {
        if !is_open(self.heads.waits(), class) {
            self.set_need(class, Some(need));
        }
    }

    /// Moves on to `until`, in picoseconds, where it is known that no class may start from `free` on and before it, and
    /// no command is to come; answers whether. Else nothing changes.
    #[inline]
    pub fn rest_until(&mut self, free: u128, until: u128) -> bool
        requires later { self.old.moment ≤ until }
        requires within { until ≤ greatest_moment }
        ensures needs { self.new.needs ≡ self.old.needs }
        ensures onward { self.old.moment ≤ self.new.moment }
        ensures moment { result ≡ true → self.new.moment ≡ until }
        ensures history { result ≡ true → self.new.history ≡ kept self.old.history self.new.moment }
        ensures current { IsCurrent self.new.history self.new.moment }
        ensures idle { result ≡ true → (m : ℕ) → self.old.moment ≤ m → free ≤ m →
            m < self.new.moment → first_choice self.old.history m self.old.needs ≡ None }
        ensures kept { result ≡ false → self.new ≡ self.old }
    {
        if !self.still {
            return false;
        }
        if self.idle < until {
            if free < until {
                return false;
            }
            self.idle = until;
        }
        stay_till(&self.gates, until);
        self.moment = until;
        true
    }

    /// Moves on to the first moment from `free` on and before `until` at which some class may start, and answers the
    /// greatest that may; or to `until`, where there is none. All are in picoseconds.
    #[inline(always)]
    pub fn find_start(&mut self, free: u128, until: u128, visits: &mut Visits) -> Option<u8>
        requires later { self.old.moment ≤ until }
        requires within { until ≤ greatest_moment }
        ensures needs { self.new.needs ≡ self.old.needs }
        ensures onward { self.old.moment ≤ self.new.moment }
        ensures history { self.new.history ≡ kept self.old.history self.new.moment }
        ensures current { IsCurrent self.new.history self.new.moment }
        ensures idle { (m : ℕ) → self.old.moment ≤ m → free ≤ m → m < self.new.moment →
            first_choice self.old.history m self.old.needs ≡ None }
        ensures none { IfNone result (self.new.moment ≡ until) }
        ensures before { OnSome result ((free ≤ self.new.moment) × (self.new.moment < until)) }
        ensures choice { IfSome result
            (λ class. first_choice self.old.history self.new.moment self.old.needs ≡ Some class) }
        ensures counted { visits.old ≤ visits.new }
        ensures visits { IsTrue G.JUMPS →
            visits.new ≤ visits.old + 16 * (longest self.old.history + 1) }
    {
        let from = free.max(self.idle);
        if until <= from {
            self.still = catch_up(&mut self.gates, self.still, until, visits);
            self.moment = until;
            self.idle = self.idle.max(until);
            return None;
        }
        self.gates.move_to(from, visits);
        match find_choice(&self.heads, &mut self.gates, until, &mut self.idle, visits) {
            Some(class) => {
                self.moment = self.gates.now();
                self.idle = self.moment;
                Some(class)
            }
            None => {
                self.still = catch_up(&mut self.gates, self.still, until, visits);
                self.moment = until;
                None
            }
        }
    }

    /// What the gates show now. Counts the entries that they look at on the way there.
    pub fn shown(&mut self, visits: &mut Visits) -> Shown
        ensures same { self.new ≡ self.old }
        ensures mask { result.mask ≡ gates self.old.history self.old.moment }
        ensures in_force { result.in_force
            ≡ option_map installed_of (in_force self.old.history self.old.moment) }
        ensures pending { result.pending
            ≡ option_map installed_of (pending self.old.history self.old.moment) }
        ensures announced { result.announced
            ≡ option_map installed_of (announced self.old.history self.old.moment) }
        ensures counted { visits.old ≤ visits.new }
        ensures visits { IsTrue G.JUMPS →
            visits.new ≤ visits.old + 2 * (longest self.old.history + 1) }
    {
        self.gates.move_to(self.moment, visits);
        Shown {
            mask: self.gates.mask(),
            in_force: self.gates.in_force(),
            pending: self.gates.pending(),
            announced: self.gates.announced(),
        }
    }

    /// Whether a command is announced now, so that no other is accepted. Counts the entries that the gates look at on
    /// the way there.
    pub fn is_busy(&mut self, visits: &mut Visits) -> bool
        ensures same { self.new ≡ self.old }
        ensures busy { IsTrue result ↔ IsSome (announced self.old.history self.old.moment) }
        ensures counted { visits.old ≤ visits.new }
        ensures visits { IsTrue G.JUMPS →
            visits.new ≤ visits.old + 2 * (longest self.old.history + 1) }
    {
        self.gates.move_to(self.moment, visits);
        self.gates.announced().is_some()
    }

    /// A command with the lead moment `lead`, in picoseconds; its change moment, or why it is not accepted.
    pub fn install(
        &mut self,
        schedule: &Schedule,
        lead: u128,
        visits: &mut Visits,
    ) -> Result<u128, NotNow>
        requires ahead { self.old.moment < lead }
        requires within { lead ≤ greatest_moment + greatest_lead }
        ensures current { IsCurrent self.new.history self.new.moment }
        ensures moment { self.new.moment ≡ self.old.moment }
        ensures needs { self.new.needs ≡ self.old.needs }
        ensures answer { result
            ≡ answer_to self.old.history self.old.moment (accepted_at lead schedule.now) }
        ensures history { self.new.history
            ≡ with_command self.old.history self.old.moment (accepted_at lead schedule.now) }
        ensures hindsight { (n : ℕ) → n < lead →
            gates self.new.history n ≡ gates self.old.history n }
        ensures counted { visits.old ≤ visits.new }
        ensures visits { IsTrue G.JUMPS →
            visits.new ≤ visits.old + 2 * (longest self.old.history + 1) }
    {
        self.gates.move_to(self.moment, visits);
        self.idle = self.moment;
        self.still = false;
        self.gates.install(schedule, lead)
    }

    /// A command after which all classes are open, with the lead moment `lead`, in picoseconds; that moment, or why it
    /// is not accepted.
    pub fn delete(&mut self, lead: u128, visits: &mut Visits) -> Result<u128, NotNow>
        requires ahead { self.old.moment < lead }
        requires within { lead ≤ greatest_moment + greatest_lead }
        ensures current { IsCurrent self.new.history self.new.moment }
        ensures moment { self.new.moment ≡ self.old.moment }
        ensures needs { self.new.needs ≡ self.old.needs }
        ensures answer { result ≡ answer_to self.old.history self.old.moment (deletion_at lead) }
        ensures history { self.new.history
            ≡ with_command self.old.history self.old.moment (deletion_at lead) }
        ensures hindsight { (n : ℕ) → n < lead →
            gates self.new.history n ≡ gates self.old.history n }
        ensures counted { visits.old ≤ visits.new }
        ensures visits { IsTrue G.JUMPS →
            visits.new ≤ visits.old + 2 * (longest self.old.history + 1) }
    {
        self.gates.move_to(self.moment, visits);
        self.idle = self.moment;
        self.still = false;
        self.gates.delete(lead)
    }
}
