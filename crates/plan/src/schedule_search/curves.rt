//! How many frames of a class come in a time, whenever they come, and how long they may wait. Times are in nanoseconds.

use crate::schedule_search::Flow;
use crate::schedule_search::cycles::is_guarded;
use crate::schedule_search::sums::{ns_down, ns_up, over};

/// How many frames of one stream come within a time, at the most.
fn frames_of(flow: &Flow, time: u64) -> u64 {
    let late = time.saturating_add(ns_up(flow.jitter));
    over(late, ns_down(flow.period)).saturating_add(1)
}

/// How many frames of a class come within a time, at the most.
pub(crate) fn frames_within(flows: &[Flow], class: u8, time: u64) -> u64 {
    let mut frames = 0u64;
    for flow in flows {
        if flow.class == class {
            frames = frames.saturating_add(frames_of(flow, time));
        }
    }
    frames
}

/// The time within which one frame more of a stream comes than within this one.
fn next_of(flow: &Flow, time: u64) -> u64 {
    let times = frames_of(flow, time);
    times
        .saturating_mul(ns_down(flow.period))
        .saturating_sub(ns_up(flow.jitter))
        .max(time.saturating_add(1))
}

/// The same of a class.
pub(crate) fn next_time(flows: &[Flow], class: u8, time: u64) -> u64 {
    let mut next = u64::MAX;
    for flow in flows {
        if flow.class == class {
            next = next_of(flow, time).min(next);
        }
    }
    next
}

/// How long the longest frame of a class occupies the wire.
pub(crate) fn longest_need(flows: &[Flow], class: u8) -> u64 {
    let mut longest = 1;
    for flow in flows {
        if flow.class == class {
            longest = ns_up(flow.need).max(longest);
        }
    }
    longest
}

/// How long a frame of a stream may wait from its arrival to its start. None where it has a deadline that it can't make.
fn patience_of(flow: &Flow) -> Option<u64> {
    let Some(deadline) = flow.deadline else {
        return Some(u64::MAX);
    };
    let late = match flow.offset {
        Some(_) => flow.jitter,
        None => 0,
    };
    match deadline.checked_sub(flow.need.saturating_add(late)) {
        Some(time) => Some(ns_down(time)),
        None => None,
    }
}

/// How long a frame of a class with deadlines may wait; None where there is no deadline.
pub(crate) fn patience(flows: &[Flow], class: u8) -> Option<u64> {
    if !is_guarded(flows, class) {
        return None;
    }
    let mut least = u64::MAX;
    for flow in flows {
        if flow.class == class {
            least = patience_of(flow).unwrap_or(0).min(least);
        }
    }
    Some(least)
}

/// The place of the stream of a class that waits the least.
pub(crate) fn least_patient(flows: &[Flow], class: u8) -> usize {
    let mut found = 0;
    let mut least = None;
    for (place, flow) in flows.iter().enumerate() {
        if flow.class == class && flow.deadline.is_some() {
            let time = patience_of(flow).unwrap_or(0);
            let is_less = match least {
                None => true,
                Some(other) => time < other,
            };
            if is_less {
                found = place;
                least = Some(time);
            }
        }
    }
    found
}
