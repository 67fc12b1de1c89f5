//! Frames of a class leave in the order in which they come: when each has to have left, so that those behind it are in
//! time. Times are in nanoseconds.

use crate::schedule_search::jobs::{FIRST_RANK, Job};
use crate::schedule_search::search::Mind;
use crate::schedule_search::sums::{over, rest};

/// How many frames may have come by the latest moment of one that come behind it where all come at their latest. Each
/// comes again in each cycle.
fn early_before(jobs: &[Job], moment: u64, cycle: u64) -> u64 {
    let seen = moment.saturating_add(cycle.saturating_mul(2));
    let mut count = 0u64;
    for job in jobs {
        let late = seen.saturating_sub(job.from);
        let early = late.saturating_add(job.early);
        let more = over(early, cycle).saturating_sub(over(late, cycle));
        count = count.saturating_add(more);
    }
    count
}

/// How many of the jobs begin no later than at this moment.
fn until_moment(jobs: &[Job], moment: u64) -> u64 {
    let mut count = 0u64;
    for job in jobs {
        if job.from <= moment {
            count = count.saturating_add(1);
        }
    }
    count
}

/// How many jobs begin behind a moment of a cycle, and no later than another one, which may be of a later cycle.
fn between(jobs: &[Job], moment: u64, last: u64, cycle: u64) -> u64 {
    let mut count = 0u64;
    for job in jobs {
        let all = over(last.saturating_add(cycle).saturating_sub(job.from), cycle);
        let before = over(moment.saturating_add(cycle).saturating_sub(job.from), cycle);
        count = count.saturating_add(all.saturating_sub(before));
    }
    count
}

/// The slot that a frame leaves in at the latest, and how many frames may be before it that have no slot until then.
#[derive(Clone, Copy)]
struct Turn {
    /// The number of the slot, where slots are counted from the cycle's first one.
    slot: u64,
    /// How many frames more there may be.
    more: u64,
}

/// The slot of a frame. Where no others are minded that may come before it, it is that of the job.
fn turn_of(jobs: &[Job], index: usize, job: &Job, cycle: u64, mind: Mind) -> Turn {
    if mind == Mind::Not {
        return Turn {
            slot: index as u64,
            more: 0,
        };
    }
    let early = early_before(jobs, job.from, cycle);
    let last = job.due.saturating_sub(job.length);
    let behind = between(jobs, job.from, last, cycle).min(early);
    let more = if mind == Mind::Whole {
        early.saturating_sub(behind)
    } else {
        0
    };
    Turn {
        slot: until_moment(jobs, job.from)
            .saturating_sub(1)
            .saturating_add(behind),
        more,
    }
}

/// Has a job take the time of so many frames more of the longest of its class.
fn widen(jobs: &mut [Job], index: usize, more: u64, longest: u64) {
    if let Some(job) = jobs.get_mut(index) {
        job.length = job.length.saturating_add(more.saturating_mul(longest));
    }
}

/// Has the slot of a number ended by a moment.
fn end_by(jobs: &mut [Job], slot: u64, moment: u64, cycle: u64) {
    let count = jobs.len() as u64;
    let back = over(slot, count).saturating_mul(cycle);
    for (index, job) in jobs.iter_mut().enumerate() {
        if index as u64 == rest(slot, count) {
            job.until = moment.saturating_sub(back).min(job.until);
        }
    }
}

/// Has each slot ended before the one behind it has to have.
fn end_in_order(jobs: &mut [Job], cycle: u64) {
    let mut end = u64::MAX;
    for _turn in 0..2 {
        for job in jobs.iter_mut().rev() {
            job.until = end.min(job.until);
            end = job.until;
        }
        end = end.saturating_add(cycle);
    }
}

/// How long each job may wait, which says which is placed first. Whether all can be done.
fn rank(jobs: &mut [Job]) -> bool {
    let mut fit = true;
    for job in jobs.iter_mut() {
        let done = job.from.saturating_add(job.length);
        if job.until < done {
            fit = false;
        }
        job.rank = FIRST_RANK.saturating_add(job.until.saturating_sub(done));
    }
    fit
}

/// When each job of a class, in the order of their moments, has to have ended. Whether all can be done.
pub(crate) fn close(jobs: &mut [Job], cycle: u64, longest: u64, mind: Mind) -> bool {
    for index in 0..jobs.len() {
        if let Some(job) = jobs.get(index) {
            let due = job.due;
            let turn = turn_of(jobs, index, job, cycle, mind);
            end_by(jobs, turn.slot, due, cycle);
            widen(jobs, index, turn.more, longest);
        }
    }
    end_in_order(jobs, cycle);
    rank(jobs)
}
