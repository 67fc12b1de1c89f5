//! The entries of a schedule, of the places of its classes. Times are in nanoseconds.

use crate::schedule_search::cycles::{CLASSES, is_guarded};
use crate::schedule_search::places::Place;
use crate::schedule_search::search::Why;
use crate::schedule_search::{Flow, Limits};
use std::alloc::Global;

/// An entry of a schedule: which classes it opens, and for how many nanoseconds.
#[derive(Clone, Copy, Debug, PartialEq, Eq)]
pub struct Opening {
    /// Which classes are open: bit c is class c.
    pub mask: u8,
    /// For how many nanoseconds.
    pub interval: u64,
}

/// The mask of one class.
fn mask_of(class: u8) -> u8 {
    if class < CLASSES { 1 << class } else { 0 }
}

/// The classes below this one without deadlines.
fn free_below(flows: &[Flow], limits: &Limits, most: u8) -> u8 {
    let mut mask = 0;
    for class in 0..CLASSES {
        if class < most && class < limits.classes && !is_guarded(flows, class) {
            mask |= mask_of(class);
        }
    }
    mask
}

/// Which classes the window of a class opens.
fn window_mask(flows: &[Flow], limits: &Limits, class: u8) -> u8 {
    match limits.blocking {
        Some(_) => mask_of(class) | free_below(flows, limits, class),
        None => mask_of(class),
    }
}

/// When the place behind this one begins.
fn end_behind(places: &[Place], index: usize, cycle: u64) -> u64 {
    match places.get(index.saturating_add(1)) {
        Some(next) => next.from,
        None => cycle,
    }
}

/// Lengthens places to the next one where what lies between is shorter than this.
fn fill(places: &mut [Place], cycle: u64, least: u64) {
    for index in 0..places.len() {
        let end = end_behind(places, index, cycle);
        if let Some(place) = places.get_mut(index) {
            if end.saturating_sub(place.to) < least {
                place.to = end.max(place.to);
            }
        }
    }
    if let Some(first) = places.get_mut(0) {
        if first.from < least {
            first.from = 0;
        }
    }
}

/// Places of one class that follow one another are one.
fn joined(alloc: Global, places: &[Place]) -> Result<Vec<Place>, Why> {
    let mut joined: Vec<Place> = Vec::new(alloc);
    for place in places {
        let mut follows = false;
        if let Some(last) = joined.as_mut_slice().last_mut() {
            if last.class == place.class && last.to == place.from {
                last.to = place.to;
                follows = true;
            }
        }
        if !follows && joined.push(*place).is_err() {
            return Err(Why::Memory);
        }
    }
    Ok(joined)
}

/// What lies between the places.
#[derive(Clone, Copy)]
struct Gaps {
    /// How many times lie between them.
    count: usize,
    /// The shortest.
    shortest: u64,
    /// How long they are together.
    sum: u64,
}

/// The same, with a time more.
fn with_gap(gaps: Gaps, time: u64) -> Gaps {
    if time == 0 {
        return gaps;
    }
    Gaps {
        count: gaps.count.saturating_add(1),
        shortest: time.min(gaps.shortest),
        sum: gaps.sum.saturating_add(time),
    }
}

/// What lies between places.
fn gaps_of(places: &[Place], cycle: u64) -> Gaps {
    let mut gaps = Gaps {
        count: 0,
        shortest: u64::MAX,
        sum: 0,
    };
    let mut end = 0u64;
    for place in places {
        gaps = with_gap(gaps, place.from.saturating_sub(end));
        end = place.to;
    }
    with_gap(gaps, cycle.saturating_sub(end))
}

/// Places in few enough entries: the shortest times between them are given to the place before.
pub(crate) fn few_places(
    alloc: Global,
    places: &[Place],
    cycle: u64,
    limits: &Limits,
) -> Result<Vec<Place>, Why> {
    let mut few = joined(alloc, places)?;
    fill(few.as_mut_slice(), cycle, limits.least);
    for _step in 0..places.len().saturating_add(1) {
        few = joined(alloc, few.as_slice())?;
        let gaps = gaps_of(few.as_slice(), cycle);
        if few.len().saturating_add(gaps.count) <= limits.entries {
            return Ok(few);
        }
        fill(few.as_mut_slice(), cycle, gaps.shortest.saturating_add(1));
    }
    Err(Why::Entries)
}

/// For how long no place is taken in a cycle.
pub(crate) fn open_time(places: &[Place], cycle: u64) -> u64 {
    gaps_of(places, cycle).sum
}

/// Adds an entry, where it takes any time.
fn add(openings: &mut Vec<Opening>, mask: u8, interval: u64) -> Result<(), Why> {
    if interval == 0 {
        return Ok(());
    }
    match openings.push(Opening { mask, interval }) {
        Ok(()) => Ok(()),
        Err(_) => Err(Why::Memory),
    }
}

/// For how many nanoseconds entries last.
fn length_of(openings: &[Opening]) -> u64 {
    let mut sum = 0u64;
    for opening in openings {
        sum = sum.saturating_add(opening.interval);
    }
    sum
}

/// The entries of places: what lies between them is open to the classes without deadlines. They last for the cycle, or the
/// places don't fit in it.
pub(crate) fn entries_of(
    alloc: Global,
    flows: &[Flow],
    limits: &Limits,
    places: &[Place],
    cycle: u64,
) -> Result<Vec<Opening>, Why> {
    let rest = free_below(flows, limits, CLASSES);
    let mut openings = Vec::new(alloc);
    let mut end = 0u64;
    for place in places {
        add(&mut openings, rest, place.from.saturating_sub(end))?;
        let mask = window_mask(flows, limits, place.class);
        add(&mut openings, mask, place.to.saturating_sub(place.from))?;
        end = place.to;
    }
    add(&mut openings, rest, cycle.saturating_sub(end))?;
    if length_of(openings.as_slice()) == cycle {
        Ok(openings)
    } else {
        Err(Why::Cycle)
    }
}
