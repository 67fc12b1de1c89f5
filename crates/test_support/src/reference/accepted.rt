//! A command of the list.
ghost use Rattle.std.specs.Prelude.{◌≡◌};
ghost use Rattle.gates.specs.Current.{installed_of};
ghost use Rattle.test_support.specs.Plain.{accepted_in};

use gates::gate_list::Schedule;
use gates::list_config::Installed;

/// An accepted command: no gate changes by it before its lead moment. One with no schedule is a deletion.
#[derive(Default, Drop)]
pub struct RecordedCommand {
    /// The lead moment, in picoseconds.
    pub lead: u128,
    /// The change moment, in picoseconds.
    pub change: u128,
    /// The list with its times.
    pub schedule: Option<Schedule>,
}

impl RecordedCommand {
    /// The command as it is reported.
    pub fn report(&self) -> Installed
        ensures { result ≡ installed_of (accepted_in self.now) }
    {
        match &self.schedule {
            None => Installed {
                change: self.change,
                base_ns: 0,
                cycle_ns: 0,
                extension_ns: 0,
                entries: 0,
            },
            Some(schedule) => Installed {
                change: self.change,
                base_ns: schedule.base_ns(),
                cycle_ns: schedule.cycle_ns(),
                extension_ns: schedule.extension_ns(),
                entries: schedule.len() as u16,
            },
        }
    }
}
