//! How long a cycle is.

use crate::schedule_search::curves::patience;
use crate::schedule_search::sums::{divisor, multiple, ns_down, over, over_ps, rest_ps};
use crate::schedule_search::{Flow, Limits, MAX_JOBS};

/// Of which kind a cycle is.
#[derive(Clone, Copy, Debug, PartialEq, Eq)]
pub enum CycleKind {
    /// It is so many times the least time that all periods go into.
    Multiple(u64),
    /// It goes into all periods.
    Divisor,
    /// It is so many times the longest that a frame may wait, and offsets count for nothing.
    Wait(u64),
}

/// How many classes there are.
pub(crate) const CLASSES: u8 = 8;

/// The longest cycle that is tried, in nanoseconds: an interval has 32 bits.
const LONGEST: u64 = 4_294_967_295;

/// The cycle where no stream has a deadline, in nanoseconds.
const USUAL: u64 = 1_000_000;

/// Whether a stream of the class has a deadline.
pub(crate) fn is_guarded(flows: &[Flow], class: u8) -> bool {
    flows
        .iter()
        .any(|flow| flow.class == class && flow.deadline.is_some())
}

/// Whether all streams of the class have an offset.
pub(crate) fn has_offsets(flows: &[Flow], class: u8) -> bool {
    flows
        .iter()
        .all(|flow| flow.class != class || flow.offset.is_some())
}

/// Whether the frames of a class come at known moments, which count.
pub(crate) fn is_timed(flows: &[Flow], limits: &Limits, class: u8) -> bool {
    limits.blocking.is_none() && is_guarded(flows, class) && has_offsets(flows, class)
}

/// The least time that all periods of the classes with known moments go into, in picoseconds, where it is not too long.
fn multiple_of(flows: &[Flow], limits: &Limits) -> Option<u128> {
    let mut all = 1000;
    for flow in flows {
        if is_timed(flows, limits, flow.class) {
            match multiple(all, flow.period) {
                Some(more) => all = more,
                None => return None,
            }
        }
    }
    Some(all)
}

/// The greatest time that goes into all of these periods, in picoseconds.
fn divisor_of(flows: &[Flow], limits: &Limits) -> u128 {
    let mut all = 0;
    for flow in flows {
        if is_timed(flows, limits, flow.class) {
            all = divisor(all, flow.period);
        }
    }
    all
}

/// How many frames of the classes with known moments come in a cycle, in picoseconds.
fn frames_in(flows: &[Flow], limits: &Limits, cycle: u128) -> u128 {
    let mut frames = 0u128;
    for flow in flows {
        if is_timed(flows, limits, flow.class) {
            frames = frames.saturating_add(over_ps(cycle, flow.period));
        }
    }
    frames
}

/// The shortest time that a class with deadlines waits, in nanoseconds.
fn least_patience(flows: &[Flow]) -> Option<u64> {
    let mut least = None;
    for class in 0..CLASSES {
        if let Some(time) = patience(flows, class) {
            least = match least {
                None => Some(time),
                Some(other) => Some(time.min(other)),
            };
        }
    }
    least
}

/// A cycle of picoseconds in whole nanoseconds, where it is one that may be.
fn whole(cycle: u128) -> Option<u64> {
    let ns = ns_down(cycle);
    if rest_ps(cycle, 1000) == 0 && 0 < ns && ns <= LONGEST {
        Some(ns)
    } else {
        None
    }
}

/// The cycle of this kind, in nanoseconds. Windows may come late by so many sixteenths of the time between them.
fn searched(flows: &[Flow], limits: &Limits, kind: CycleKind, late: u64) -> Option<u64> {
    match kind {
        CycleKind::Multiple(times) => {
            let cycle = multiple_of(flows, limits)?.checked_mul(u128::from(times))?;
            if frames_in(flows, limits, cycle) > MAX_JOBS as u128 {
                return None;
            }
            whole(cycle)
        }
        CycleKind::Divisor => whole(divisor_of(flows, limits)),
        CycleKind::Wait(times) => {
            let time = least_patience(flows)?;
            let between = over(time.saturating_mul(16), late.saturating_add(16));
            let cycle = between.saturating_mul(times);
            if 0 < cycle && cycle <= LONGEST {
                Some(cycle)
            } else {
                None
            }
        }
    }
}

/// Whether some class has known moments.
fn has_timed(flows: &[Flow], limits: &Limits) -> bool {
    (0..CLASSES).any(|class| is_timed(flows, limits, class))
}

/// Whether some class with deadlines has no known moments.
pub(crate) fn has_untimed(flows: &[Flow], limits: &Limits) -> bool {
    (0..CLASSES).any(|class| is_guarded(flows, class) && !is_timed(flows, limits, class))
}

/// Whether some stream doesn't come at exact moments.
pub(crate) fn has_inexact(flows: &[Flow]) -> bool {
    flows.iter().any(|flow| !flow.is_exact)
}

/// Whether some class has a deadline.
fn has_guarded(flows: &[Flow]) -> bool {
    (0..CLASSES).any(|class| is_guarded(flows, class))
}

/// The cycle to be tried, in nanoseconds, where there is one of this kind.
pub(crate) fn cycle_of(flows: &[Flow], limits: &Limits, kind: CycleKind, late: u64) -> Option<u64> {
    if let Some(cycle) = limits.cycle {
        return if cycle <= LONGEST { Some(cycle) } else { None };
    }
    if !has_guarded(flows) {
        return Some(USUAL);
    }
    match kind {
        CycleKind::Wait(_) => searched(flows, limits, kind, late),
        _ => {
            if has_timed(flows, limits) {
                searched(flows, limits, kind, late)
            } else {
                None
            }
        }
    }
}
