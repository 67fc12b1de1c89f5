//! The schedules that are tried.

use crate::schedule_search::cycles::{CycleKind, cycle_of, has_inexact, has_untimed};
use crate::schedule_search::entries::{Opening, entries_of, few_places, open_time};
use crate::schedule_search::jobs::jobs_of;
use crate::schedule_search::places::places_of;
use crate::schedule_search::{Flow, Limits};
use std::alloc::Global;

/// How a schedule is looked for.
#[derive(Clone, Copy, Debug, PartialEq, Eq)]
pub struct Strategy {
    /// How long its cycle is.
    pub kind: CycleKind,
    /// Whether each frame gets the time of the longest of its class.
    pub equal: bool,
    /// By how many sixteenths of the time between them windows of frames that come at any moments may come late.
    pub late: u64,
    /// How frames are minded that may come before others of their class.
    pub mind: Mind,
    /// Whether windows of a class are put beside one another.
    pub join: bool,
}

/// How frames are minded that may come before others of their class, since they have a jitter.
#[derive(Clone, Copy, Debug, PartialEq, Eq)]
pub enum Mind {
    /// A frame has time for all that may be before it.
    Whole,
    /// The windows behind it are early enough for those that may be before it.
    Early,
    /// They aren't minded.
    Not,
}

/// How many strategies there are.
pub const MAX_STRATEGIES: usize = 56;

/// Why there is no schedule by a strategy.
#[derive(Clone, Copy, Debug, PartialEq, Eq)]
pub enum Why {
    /// The stream at this place, or one that it is sent with, has no time.
    Flow(usize),
    /// It would have too many entries.
    Entries,
    /// It has no cycle, or too many frames come in one.
    Cycle,
    /// Out of memory.
    Memory,
}

/// A schedule that may serve.
#[derive(Drop)]
pub struct Candidate {
    /// Its entries, in order.
    pub openings: Vec<Opening>,
    /// Its cycle, in nanoseconds.
    pub cycle: u64,
    /// For how many nanoseconds of it classes without deadlines are open.
    pub open: u64,
}

/// The cycle of a strategy.
fn kind_of(number: usize) -> CycleKind {
    match number / 8 {
        0 | 1 => CycleKind::Multiple(1),
        2 => CycleKind::Multiple(4),
        3 => CycleKind::Divisor,
        4 => CycleKind::Wait(1),
        5 => CycleKind::Wait(4),
        _ => CycleKind::Wait(16),
    }
}

/// By how many sixteenths windows may come late.
fn late_of(number: usize) -> u64 {
    match (number / 2) % 4 {
        0 => 2,
        1 => 5,
        2 => 10,
        _ => 16,
    }
}

/// How frames are minded that may come before others.
fn mind_of(number: usize) -> Mind {
    match (number / 2) % 4 {
        0 | 3 => Mind::Whole,
        1 => Mind::Early,
        _ => Mind::Not,
    }
}

/// The strategy of a number below `MAX_STRATEGIES`.
pub fn strategy_of(number: usize) -> Strategy {
    Strategy {
        kind: kind_of(number),
        equal: number / 8 == 1,
        late: late_of(number),
        mind: mind_of(number),
        join: number % 2 == 0,
    }
}

/// Whether the strategy of a number may find a schedule that those before it don't: windows come late only where frames
/// come at any moments, frames come early only where they have a jitter, and a cycle that is given is of no kind.
pub fn is_needed(flows: &[Flow], limits: &Limits, number: usize) -> bool {
    let strategy = strategy_of(number);
    let is_first = match strategy.kind {
        CycleKind::Multiple(1) | CycleKind::Wait(1) => true,
        CycleKind::Multiple(_) => limits.cycle.is_none() && has_untimed(flows, limits),
        _ => limits.cycle.is_none(),
    };
    let is_loose = match strategy.kind {
        CycleKind::Wait(_) => true,
        _ => has_untimed(flows, limits) || (has_inexact(flows) && strategy.late < 16),
    };
    is_first && (is_loose || strategy.late == 2)
}

/// The schedule of a strategy, if it finds one.
pub fn find_schedule(
    alloc: Global,
    flows: &[Flow],
    limits: &Limits,
    strategy: &Strategy,
) -> Result<Candidate, Why> {
    let Some(cycle) = cycle_of(flows, limits, strategy.kind, strategy.late) else {
        return Err(Why::Cycle);
    };
    let mut jobs = jobs_of(alloc, flows, limits, strategy, cycle)?;
    let places = places_of(alloc, &mut jobs, cycle, strategy.join)?;
    let places = few_places(alloc, places.as_slice(), cycle, limits)?;
    let openings = entries_of(alloc, flows, limits, places.as_slice(), cycle)?;
    Ok(Candidate {
        openings,
        cycle,
        open: open_time(places.as_slice(), cycle),
    })
}
