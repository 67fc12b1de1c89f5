//! The schedules of a port, and its gates at a moment.
//!
//! The definition of the gates at a moment is specs/History.antt, and its laws are specs/Laws.antt. The trait
//! `Gates` has the contract that each implementation meets.
ghost use Rattle.std.specs.Prelude.{◌≡◌, ℕ, ◌+◌, ◌*◌, ◌<◌, ◌≤◌, [], List, Bool, Option, None, IsTrue, IsSome, MatchOption, All, IfSome, ◌⊎◌};
ghost use Rattle.std.specs.Option.{option_map, ForSome};
ghost use Rattle.wire_time.specs.Moment.{greatest_moment, greatest_lead};
ghost use Rattle.gates.specs.History.{Accepted, gates, open_through, in_force, pending, announced, kept};
ghost use Rattle.gates.specs.Choice.{first_choice};
ghost use Rattle.gates.specs.Event.{IsGateEvent};
ghost use Rattle.gates.specs.Current.{IsCurrent, IsSteady, longest, accepted_at, deletion_at, answer_to, with_command, installed_of};

use crate::gate_list::{Schedule, Visits};
use crate::queue_heads::Heads;
use wire_time::CLASSES;

pub mod laws;

/// An accepted command, as it is reported. All but `change` is 0 for a deletion.
#[derive(Clone, Copy, Debug, PartialEq, Eq)]
pub struct Installed {
    /// The change moment, in picoseconds.
    pub change: u128,
    /// The base time, in nanoseconds.
    pub base_ns: u64,
    /// The cycle time, in nanoseconds.
    pub cycle_ns: u64,
    /// The cycle time extension, in nanoseconds.
    pub extension_ns: u64,
    /// How many entries the list has.
    pub entries: u16,
}

/// Why a command was not accepted: the last one still waits for its lead moment.
#[derive(Clone, Copy, Debug, PartialEq, Eq)]
pub enum NotNow {
    /// Its lead moment, in picoseconds.
    Busy(u128),
}

/// The gates of a port, by the commands accepted so far and the moment now.
pub trait Gates {
    /// The accepted commands that still count, first to last.
    ghost history: { Self → List Accepted };

    /// The moment now.
    ghost moment: { Self → ℕ };

    /// What holds of each value that was begun here.
    ghost is_sound: { Self → Type 0 };

    /// Whether `quiet`, `move_to` and `stays_open` keep their bounds on visits.
    ghost JUMPS: { Bool };

    /// Whether a move and an answer look at few entries, however far the moments are apart.
    const JUMPS: bool;

    /// Gates with no command, at the moment 0.
    fn begin() -> Self
        ensures sound { is_sound result }
        ensures history { history result ≡ [] }
        ensures moment { moment result ≡ 0 };

    /// The moment now, in picoseconds.
    fn now(&self) -> u128
        requires { is_sound self.now }
        ensures { result ≡ moment self.now };

    /// The classes that are open now: bit c is class c.
    fn mask(&self) -> u8
        requires { is_sound self.now }
        ensures { result ≡ gates (history self.now) (moment self.now) };

    /// Whether the class is open from now on for so long, in picoseconds.
    fn stays_open(&self, class: u8, for_ps: u128, visits: &mut Visits) -> bool
        requires sound { is_sound self.now }
        requires class { class < CLASSES }
        requires within { for_ps ≤ greatest_moment }
        ensures stays { result ≡ open_through (history self.now) class (moment self.now) for_ps }
        ensures counted { visits.old ≤ visits.new }
        ensures visits { IsTrue JUMPS → visits.new ≡ visits.old };

    /// A gate event up to which the gates show one mask, in picoseconds; none: they do up to `before`.
    fn next_boundary(&self, before: u128) -> Option<u128>
        requires sound { is_sound self.now }
        requires later { moment self.now ≤ before }
        requires within { before ≤ greatest_moment }
        ensures none { MatchOption result (IsSteady (history self.now) (moment self.now) before)
            (λ u. IsSteady (history self.now) (moment self.now) u) }
        ensures between { IfSome result (λ u. (moment self.now < u) × (u < before)) }
        ensures event { IfSome result (IsGateEvent (history self.now)) };

    /// A moment from now to `before`, in picoseconds, such that before it no class may start whose head needs the wire
    /// for so long. Then some class may start, or it is a later gate event, or `before`.
    fn quiet(&self, heads: &Heads, before: u128, visits: &mut Visits) -> u128
        requires sound { is_sound self.now }
        requires later { moment self.now ≤ before }
        requires within { before ≤ greatest_moment }
        ensures from { moment self.now ≤ result }
        ensures upto { result ≤ before }
        ensures quiet { (m : ℕ) → moment self.now ≤ m → m < result →
            first_choice (history self.now) m heads.now ≡ None }
        ensures onward { result < before →
            IsSome (first_choice (history self.now) result heads.now)
            ⊎ ((moment self.now < result) × IsGateEvent (history self.now) result) }
        ensures first { IsTrue JUMPS → result < before →
            IsSome (first_choice (history self.now) result heads.now) }
        ensures counted { visits.old ≤ visits.new }
        ensures visits { IsTrue JUMPS →
            visits.new ≤ visits.old + 12 * (longest (history self.now) + 1) };

    /// Goes on to the moment `t`, in picoseconds.
    fn move_to(&mut self, t: u128, visits: &mut Visits)
        requires sound { is_sound self.old }
        requires later { moment self.old ≤ t }
        requires within { t ≤ greatest_moment }
        ensures sound { is_sound self.new }
        ensures moment { moment self.new ≡ t }
        ensures history { history self.new ≡ kept (history self.old) t }
        ensures counted { visits.old ≤ visits.new }
        ensures visits { IsTrue JUMPS →
            visits.new ≤ visits.old + 2 * (longest (history self.old) + 1) };

    /// A command with the lead moment `lead`, in picoseconds; its change moment, or why it is not accepted.
    fn install(&mut self, schedule: &Schedule, lead: u128) -> Result<u128, NotNow>
        requires sound { is_sound self.old }
        requires ahead { moment self.old < lead }
        requires within { lead ≤ greatest_moment + greatest_lead }
        ensures sound { is_sound self.new }
        ensures moment { moment self.new ≡ moment self.old }
        ensures answer { result
            ≡ answer_to (history self.old) (moment self.old) (accepted_at lead schedule.now) }
        ensures history { history self.new
            ≡ with_command (history self.old) (moment self.old) (accepted_at lead schedule.now) }
        ensures hindsight { (n : ℕ) → n < lead →
            gates (history self.new) n ≡ gates (history self.old) n };

    /// A command after which all classes are open, with the lead moment `lead`, in picoseconds; that moment, or why it
    /// is not accepted.
    fn delete(&mut self, lead: u128) -> Result<u128, NotNow>
        requires sound { is_sound self.old }
        requires ahead { moment self.old < lead }
        requires within { lead ≤ greatest_moment + greatest_lead }
        ensures sound { is_sound self.new }
        ensures moment { moment self.new ≡ moment self.old }
        ensures answer { result
            ≡ answer_to (history self.old) (moment self.old) (deletion_at lead) }
        ensures history { history self.new
            ≡ with_command (history self.old) (moment self.old) (deletion_at lead) }
        ensures hindsight { (n : ℕ) → n < lead →
            gates (history self.new) n ≡ gates (history self.old) n };

    /// The command in force, if there is one.
    fn in_force(&self) -> Option<Installed>
        requires { is_sound self.now }
        ensures { result
            ≡ option_map installed_of (in_force (history self.now) (moment self.now)) };

    /// The command that is pending, if there is one.
    fn pending(&self) -> Option<Installed>
        requires { is_sound self.now }
        ensures { result ≡ option_map installed_of (pending (history self.now) (moment self.now)) };

    /// The command that is announced, if there is one.
    fn announced(&self) -> Option<Installed>
        requires { is_sound self.now }
        ensures { result
            ≡ option_map installed_of (announced (history self.now) (moment self.now)) };

    /// The history is one that can be at its moment, and nothing in it is past.
    ghost is_current: { (s : Self) → is_sound s → IsCurrent (history s) (moment s) };
}
