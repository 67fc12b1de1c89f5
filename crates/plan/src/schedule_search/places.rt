//! Where in a cycle each job is done. Times are in nanoseconds.

use crate::schedule_search::jobs::{FIRST_RANK, Job};
use crate::schedule_search::search::Why;
use crate::schedule_search::sums::over;
use std::alloc::Global;

/// A time at which a class is open in each cycle.
#[derive(Clone, Copy, Debug, PartialEq, Eq)]
pub(crate) struct Place {
    /// When it begins.
    pub from: u64,
    /// When it ends.
    pub to: u64,
    /// The class.
    pub class: u8,
}

/// A time within which something is to be done, and how long that takes.
#[derive(Clone, Copy)]
struct Room {
    from: u64,
    until: u64,
    length: u64,
}

impl Room {
    /// Whether it may be begun at this moment.
    fn takes(&self, at: u64) -> bool {
        self.from <= at && at.saturating_add(self.length) <= self.until
    }
}

/// The earliest moment at which it may be begun, between the places that are taken.
fn first_free(taken: &[Place], room: &Room) -> Option<u64> {
    let mut at = room.from;
    for place in taken {
        if at < place.to && at.saturating_add(room.length) > place.from {
            at = place.to;
        }
    }
    if room.takes(at) { Some(at) } else { None }
}

/// The place that begins at this moment or behind it first.
fn next_from(taken: &[Place], at: u64) -> u64 {
    for place in taken {
        if at <= place.from {
            return place.from;
        }
    }
    u64::MAX
}

/// The earliest moment at which it may be begun right behind a place of its class.
fn first_behind(taken: &[Place], class: u8, room: &Room) -> Option<u64> {
    for place in taken {
        if place.class == class && room.takes(place.to) {
            let end = place.to.saturating_add(room.length);
            if end <= next_from(taken, place.to) {
                return Some(place.to);
            }
        }
    }
    None
}

/// The earliest moment at which it may be begun so that it ends right before a place of its class.
fn first_before(taken: &[Place], class: u8, room: &Room) -> Option<u64> {
    let mut free = 0;
    for place in taken {
        let at = place.from.saturating_sub(room.length);
        if place.class == class && free <= at && room.takes(at) {
            return Some(at);
        }
        free = place.to;
    }
    None
}

/// Where it is begun, in one part of the cycle: beside a place of its class, where that is wanted and may be, and else as
/// soon as may be.
fn place_in(taken: &[Place], class: u8, room: &Room, join: bool) -> Option<u64> {
    if join {
        if let Some(at) = first_behind(taken, class, room) {
            return Some(at);
        }
        if let Some(at) = first_before(taken, class, room) {
            return Some(at);
        }
    }
    first_free(taken, room)
}

/// Where a job is begun: before the end of the cycle, or else behind the beginning of the next.
fn place_of(taken: &[Place], job: &Job, cycle: u64, join: bool) -> Option<u64> {
    let now = Room {
        from: job.from,
        until: job.until.min(cycle),
        length: job.length,
    };
    let next = Room {
        from: 0,
        until: job.until.saturating_sub(cycle),
        length: job.length,
    };
    match place_in(taken, job.class, &now, join) {
        Some(at) => Some(at),
        None => place_in(taken, job.class, &next, join),
    }
}

/// How many places begin before this moment.
fn before(taken: &[Place], at: u64) -> usize {
    taken.iter().take_while(|place| place.from < at).count()
}

/// Takes the place of a job that is begun at this moment.
fn take(taken: &mut Vec<Place>, job: &Job, at: u64) -> Result<(), Why> {
    let index = before(taken.as_slice(), at).min(taken.len());
    let place = Place {
        from: at,
        to: at.saturating_add(job.length),
        class: job.class,
    };
    match taken.insert(index, place) {
        Ok(()) => Ok(()),
        Err(_) => Err(Why::Memory),
    }
}

/// Places jobs one after another. The index of the first that has no place, if there is one.
fn place_each(
    taken: &mut Vec<Place>,
    jobs: &[Job],
    cycle: u64,
    join: bool,
) -> Result<Option<usize>, Why> {
    taken.clear();
    for (index, job) in jobs.iter().enumerate() {
        match place_of(taken.as_slice(), job, cycle, join) {
            Some(at) => take(taken, job, at)?,
            None => return Ok(Some(index)),
        }
    }
    Ok(None)
}

/// How often jobs are placed anew: less often where there are many.
fn tries(jobs: usize) -> u64 {
    let jobs = (jobs as u64).saturating_add(16);
    over(20_000_000, jobs.saturating_mul(jobs)).clamp(4, 300)
}

/// Has the job of this index placed before all others. The stream that it is of.
fn put_first(jobs: &mut Vec<Job>, index: usize, rank: u64) -> Result<usize, Why> {
    let mut flow = 0;
    if let Some(job) = jobs.as_mut_slice().get_mut(index) {
        flow = job.flow;
        job.rank = rank;
    }
    match jobs.sort_by_key(|job| job.rank) {
        Ok(()) => Ok(flow),
        Err(_) => Err(Why::Memory),
    }
}

/// Places all jobs: those with the least time to spare first. One that has no place is placed before all others in the
/// next try.
pub(crate) fn places_of(
    alloc: Global,
    jobs: &mut Vec<Job>,
    cycle: u64,
    join: bool,
) -> Result<Vec<Place>, Why> {
    let mut taken = Vec::new(alloc);
    let mut flow = 0;
    if jobs.sort_by_key(|job| job.rank).is_err() {
        return Err(Why::Memory);
    }
    for number in 0..tries(jobs.len()) {
        match place_each(&mut taken, jobs.as_slice(), cycle, join)? {
            None => return Ok(taken),
            Some(index) => {
                let rank = FIRST_RANK.saturating_sub(number).saturating_sub(1);
                flow = put_first(jobs, index, rank)?;
            }
        }
    }
    Err(Why::Flow(flow))
}
