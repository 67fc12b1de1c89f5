//! A command as it is kept.
ghost use Rattle.std.specs.Prelude.{◌≡◌, ◌*◌, ◌≤◌, Some, None, option_map};
ghost use Rattle.jumping.specs.CommandWords.{greatest_moment, IsSchedule, installed_of, hold_of, IsUsable, accepted_in, command_of, Install, Delete};

use crate::list_position::Position;
use gates::cycle_timer::CycleTimer;
use gates::gate_list::Schedule;
use gates::list_config::Installed;

/// A list that was accepted. Its moments are in picoseconds.
#[derive(Drop)]
pub struct AcceptedList {
    /// The moment before which it changes no gate.
    pub lead: u128,
    /// The moment from which it is in force, if no other command replaces it before.
    pub change: u128,
    /// The list with its times.
    pub schedule: Schedule,
    /// Where the list stands: until it is in force, at its change moment.
    pub position: Position,
}

/// An accepted command.
#[derive(Drop)]
pub enum AcceptedCommand {
    /// A list, which repeats from its change moment on.
    Install(AcceptedList),
    /// All classes are open from this lead moment on, in picoseconds.
    Delete(u128),
}

impl AcceptedCommand {
    /// This schedule, with this lead moment, this change moment and where it stands then, takes the place of the
    /// command. The moments are in picoseconds.
    pub(crate) fn put_list(
        &mut self,
        schedule: &Schedule,
        lead: u128,
        change: u128,
        position: &Position,
    )
        ensures { self.new
            ≡ Install
            (record {
              lead = lead;
              change = change;
              schedule = schedule.now;
              position = position.now;
            }) }
    {
        match self {
            AcceptedCommand::Install(list) => list.put(schedule, lead, change, position),
            AcceptedCommand::Delete(_) => {
                *self = AcceptedCommand::Install(AcceptedList::new(
                    schedule, lead, change, position,
                ));
            }
        }
    }

    /// The deletion with this lead moment, in picoseconds, takes the place of the command.
    pub(crate) fn put_deletion(&mut self, lead: u128)
        ensures { self.new ≡ Delete lead }
    {
        match self {
            AcceptedCommand::Install(_) => *self = AcceptedCommand::Delete(lead),
            // The place of a command is large, and would be cleared.
            AcceptedCommand::Delete(kept) => *kept = lead,
        }
    }

    /// The moment before which the command changes no gate, in picoseconds.
    pub fn lead(&self) -> u128
        ensures { result ≡ (accepted_in self.now).lead }
    {
        match self {
            AcceptedCommand::Install(list) => list.lead,
            AcceptedCommand::Delete(lead) => *lead,
        }
    }

    /// The moment from which the command is in force, if no other replaces it before, in picoseconds.
    pub fn change(&self) -> u128
        ensures { result ≡ (accepted_in self.now).change }
    {
        match self {
            AcceptedCommand::Install(list) => list.change,
            AcceptedCommand::Delete(lead) => *lead,
        }
    }

    /// The command as it is reported.
    fn report(&self) -> Installed
        ensures { result ≡ installed_of (accepted_in self.now) }
    {
        match self {
            AcceptedCommand::Install(list) => Installed {
                change: list.change,
                base_ns: list.schedule.base_ns(),
                cycle_ns: list.schedule.cycle_ns(),
                extension_ns: list.schedule.extension_ns(),
                entries: list.schedule.len() as u16,
            },
            AcceptedCommand::Delete(lead) => Installed {
                change: *lead,
                base_ns: 0,
                cycle_ns: 0,
                extension_ns: 0,
                entries: 0,
            },
        }
    }
}

/// The command as it is reported, if there is one.
pub fn installed(command: Option<&AcceptedCommand>) -> Option<Installed>
    ensures { result ≡ option_map installed_of (command_of command.entry) }
{
    match command {
        None => None,
        Some(command) => Some(command.report()),
    }
}

impl AcceptedList {
    /// A list of these. The moments are in picoseconds.
    fn new(schedule: &Schedule, lead: u128, change: u128, position: &Position) -> AcceptedList
        ensures { result
            ≡ record {
              lead = lead;
              change = change;
              schedule = schedule.now;
              position = position.now;
            } }
    {
        AcceptedList {
            lead,
            change,
            schedule: schedule.copied(),
            position: *position,
        }
    }

    /// These take the place of what the list has. Of the schedule what it uses is copied. The moments are in
    /// picoseconds.
    fn put(&mut self, schedule: &Schedule, lead: u128, change: u128, position: &Position)
        ensures { self.new
            ≡ record {
              lead = lead;
              change = change;
              schedule = schedule.now;
              position = position.now;
            } }
    {
        self.lead = lead;
        self.change = change;
        self.schedule.copy_from(schedule);
        self.position = *position;
    }

    /// The first boundary from which the last state is held for a change, in picoseconds.
    #[tactic(auto, using(crate::proofs::HoldLaws::boundary_not_before))]
    #[inline(never)]
    pub(crate) fn hold_moment(&self, command: &AcceptedCommand) -> u128
        requires sound { IsSchedule self.now.schedule }
        requires start { self.now.change ≤ 2 * greatest_moment }
        requires usable { IsUsable (accepted_in command.now) }
        ensures { hold_of (Some self.now.schedule) self.now.change (accepted_in command.now)
            ≡ Some result }
    {
        let extension = 1000 * u128::from(self.schedule.extension_ns());
        let from = command
            .lead()
            .max(command.change().saturating_sub(extension));
        let mut timer = CycleTimer::begin(self.change, 1000 * u128::from(self.schedule.cycle_ns()));
        timer.jump_to(self.change.max(from.saturating_sub(1)));
        timer.next_start()
    }
}
