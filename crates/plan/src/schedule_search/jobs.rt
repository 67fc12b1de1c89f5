//! What a cycle has to have room for: the frames that come at known moments, and the windows of those that don't. Times
//! are in nanoseconds.

use crate::schedule_search::curves::{least_patient, longest_need};
use crate::schedule_search::cycles::{CLASSES, is_guarded, is_timed};
use crate::schedule_search::queues::close;
use crate::schedule_search::search::{Mind, Strategy, Why};
use crate::schedule_search::sums::{divisor, ns_down, ns_up, over, over_ps, ps, rest, rest_ps};
use crate::schedule_search::windows::windows_of;
use crate::schedule_search::{CycleKind, Flow, Limits};
use std::alloc::Global;

/// How many frames and windows a cycle may have.
pub const MAX_JOBS: usize = 2048;

/// A time of a class in each cycle.
#[derive(Clone, Copy, Debug, PartialEq, Eq)]
pub(crate) struct Job {
    /// The place of the stream whose deadline it is for.
    pub flow: usize,
    /// The class.
    pub class: u8,
    /// When it may begin, in the cycle.
    pub from: u64,
    /// When it has to have ended: up to a cycle behind that.
    pub until: u64,
    /// When the frame has to have left that comes at its moment.
    pub due: u64,
    /// How long it is.
    pub length: u64,
    /// How much earlier than it may begin its frame may come.
    pub early: u64,
    /// In which order it is placed.
    pub rank: u64,
}

/// The rank of a job that nothing is known of.
pub(crate) const FIRST_RANK: u64 = 1 << 32;

/// Adds a job, where there is room for one.
fn add(jobs: &mut Vec<Job>, job: Job) -> Result<(), Why> {
    if jobs.len() >= MAX_JOBS {
        return Err(Why::Cycle);
    }
    match jobs.push(job) {
        Ok(()) => Ok(()),
        Err(_) => Err(Why::Memory),
    }
}

/// How long a frame of a stream, or the longest of its class, occupies the wire.
fn length_of(flows: &[Flow], limits: &Limits, flow: &Flow, equal: bool) -> u64 {
    let length = if equal {
        longest_need(flows, flow.class)
    } else {
        ns_up(flow.need)
    };
    length.max(limits.least)
}

/// The job of a frame of a stream, which comes at this moment in picoseconds at the earliest. It is done where the frame has
/// left, though the job may be longer than the frame.
fn job_at(place: usize, flow: &Flow, length: u64, cycle: u64, early: u128) -> Result<Job, Why> {
    let from = ns_up(early.saturating_add(flow.jitter));
    let within = match flow.deadline {
        Some(deadline) => deadline,
        None => flow
            .period
            .saturating_add(flow.jitter)
            .saturating_add(ps(length)),
    };
    let spare = length.saturating_sub(ns_up(flow.need));
    let until = ns_down(early.saturating_add(within)).saturating_add(spare);
    let room = until.saturating_sub(from).min(cycle);
    if room < length {
        return Err(Why::Flow(place));
    }
    let begin = rest(from, cycle);
    Ok(Job {
        flow: place,
        class: flow.class,
        from: begin,
        until: begin.saturating_add(room),
        due: begin.saturating_add(until.saturating_sub(from)),
        length,
        early: ns_up(flow.jitter),
        rank: FIRST_RANK,
    })
}

/// Adds the jobs of a stream whose frames come at known moments.
fn add_frames(
    jobs: &mut Vec<Job>,
    place: usize,
    flow: &Flow,
    length: u64,
    cycle: u64,
) -> Result<(), Why> {
    let period = divisor(flow.period, ps(cycle));
    let count = over_ps(ps(cycle), period);
    if count > MAX_JOBS as u128 {
        return Err(Why::Cycle);
    }
    let mut early = rest_ps(flow.offset.unwrap_or(0), period);
    for _frame in 0..count {
        add(jobs, job_at(place, flow, length, cycle, early)?)?;
        early = early.saturating_add(period);
    }
    Ok(())
}

/// Adds the windows of a class whose frames come at any moments. The first may begin at this moment.
fn add_windows(
    jobs: &mut Vec<Job>,
    flows: &[Flow],
    limits: &Limits,
    class: u8,
    cycle: u64,
    late: u64,
    begin: u64,
) -> Result<u64, Why> {
    let place = least_patient(flows, class);
    let Some(windows) = windows_of(flows, limits, class, cycle, late) else {
        return Err(Why::Flow(place));
    };
    for number in 0..windows.count {
        let moment = over(cycle.saturating_mul(number), windows.count).saturating_add(begin);
        let from = rest(moment, cycle);
        let room = windows.length.saturating_add(windows.late).min(cycle);
        add(
            jobs,
            Job {
                flow: place,
                class,
                from,
                until: from.saturating_add(room),
                due: from.saturating_add(room),
                length: windows.length,
                early: 0,
                rank: FIRST_RANK.saturating_add(windows.late),
            },
        )?;
    }
    Ok(windows.length)
}

/// Whether the moments of a class count by a strategy.
fn counts_moments(flows: &[Flow], limits: &Limits, class: u8, strategy: &Strategy) -> bool {
    match strategy.kind {
        CycleKind::Wait(_) => false,
        _ => is_timed(flows, limits, class),
    }
}

/// Whether the frames of a class come at exact moments, and have one length.
fn is_exact(flows: &[Flow], class: u8) -> bool {
    flows
        .iter()
        .all(|flow| flow.class != class || flow.is_exact)
}

/// Adds the jobs of a class whose moments count. Whether they can be done: else nothing is added.
fn add_timed(
    jobs: &mut Vec<Job>,
    alloc: Global,
    flows: &[Flow],
    limits: &Limits,
    strategy: &Strategy,
    class: u8,
    cycle: u64,
) -> Result<bool, Why> {
    let mut own = Vec::new(alloc);
    for (place, flow) in flows.iter().enumerate() {
        if flow.class == class {
            let equal = strategy.equal || !is_exact(flows, class);
            let length = length_of(flows, limits, flow, equal);
            add_frames(&mut own, place, flow, length, cycle)?;
        }
    }
    if own.sort_by_key(|job| job.from).is_err() {
        return Err(Why::Memory);
    }
    let longest = longest_need(flows, class);
    let mind = if is_exact(flows, class) {
        Mind::Not
    } else {
        strategy.mind
    };
    if !close(own.as_mut_slice(), cycle, longest, mind) {
        return Ok(false);
    }
    for job in own.as_slice() {
        add(jobs, *job)?;
    }
    Ok(true)
}

/// All that a cycle has to have room for, by a strategy.
pub(crate) fn jobs_of(
    alloc: Global,
    flows: &[Flow],
    limits: &Limits,
    strategy: &Strategy,
    cycle: u64,
) -> Result<Vec<Job>, Why> {
    let mut jobs = Vec::new(alloc);
    let mut begin = 0u64;
    for class in 0..CLASSES {
        let timed = if counts_moments(flows, limits, class, strategy) {
            add_timed(&mut jobs, alloc, flows, limits, strategy, class, cycle)?
        } else {
            false
        };
        if !timed && is_guarded(flows, class) {
            let late = strategy.late;
            let length = add_windows(&mut jobs, flows, limits, class, cycle, late, begin)?;
            begin = begin.saturating_add(length);
        }
    }
    Ok(jobs)
}
