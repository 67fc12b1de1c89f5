//! A class of a schedule, and what its answer depends on beside its own streams.

use crate::settings::BoundsSettings;
use crate::standing::Standing;
use abstract_port::Change;
use gates::gate_list::Schedule;
use traffic::Stream;

/// A class of a schedule that is judged.
#[derive(Clone, Copy)]
pub struct Case<'a> {
    /// The settings of the port, and what is asked.
    pub settings: &'a BoundsSettings,
    /// The change that the schedule is of.
    pub change: &'a Change,
    /// The schedule.
    pub schedule: &'a Schedule,
    /// The streams of all classes.
    pub table: &'a [Stream],
    /// How the classes above it stand, from the next one up.
    pub above: &'a [Standing],
    /// The class, 0 to 7.
    pub class: u8,
}
