//! Windows of a class that come again and again, often enough for frames that come at any moments. Times are in
//! nanoseconds.

use crate::schedule_search::curves::{frames_within, longest_need, next_time, patience};
use crate::schedule_search::sums::{over, over_up, rest};
use crate::schedule_search::{Flow, Limits};

/// Windows of a class: so many in each cycle, so far apart.
#[derive(Clone, Copy, Debug, PartialEq, Eq)]
pub(crate) struct Windows {
    /// How many there are in a cycle.
    pub count: u64,
    /// By how much each may come late.
    pub late: u64,
    /// How long each is.
    pub length: u64,
}

/// Windows that are looked at.
#[derive(Clone, Copy)]
struct Grid {
    /// From one window to the next.
    period: u64,
    /// By how much a window may come late.
    late: u64,
    /// For how long another frame may be in the way when it opens.
    blocking: u64,
    /// How long a frame occupies the wire.
    need: u64,
    /// For how many frames a window has room.
    frames: u64,
}

/// How many steps are looked at of a busy time.
const STEPS: u64 = 4096;

/// How many counts of windows are tried.
const COUNTS: u64 = 12;

/// How many windows of one class are tried at most.
const MAX_WINDOWS: u64 = 128;

/// When the frame with so many before it starts at the latest, if the first of them comes just too late for a window.
fn start_of(grid: &Grid, before: u64) -> u64 {
    let windows = over(before, grid.frames).saturating_add(1);
    let behind = rest(before, grid.frames).saturating_mul(grid.need);
    let saved = grid.frames.saturating_sub(1).saturating_mul(grid.need);
    windows
        .saturating_mul(grid.period)
        .saturating_add(grid.late)
        .saturating_add(grid.blocking)
        .saturating_add(behind)
        .saturating_sub(saved)
}

/// Whether no frame of a class waits for longer than this.
fn suffices(flows: &[Flow], class: u8, grid: &Grid, wait: u64) -> bool {
    let mut time = 0u64;
    for _step in 0..STEPS {
        let frames = frames_within(flows, class, time);
        let start = start_of(grid, frames.saturating_sub(1));
        if start > time.saturating_add(wait) {
            return false;
        }
        let next = next_time(flows, class, time);
        if start.saturating_add(grid.need) <= next {
            return true;
        }
        time = next;
    }
    false
}

/// For how many frames each window has to have room, so that none waits for longer than this.
fn frames_needed(flows: &[Flow], class: u8, grid: Grid, wait: u64) -> Option<u64> {
    let room = grid.period.saturating_sub(grid.blocking);
    let mut most = over(room, grid.need).min(4096);
    let full = Grid {
        frames: most,
        ..grid
    };
    if most == 0 || !suffices(flows, class, &full, wait) {
        return None;
    }
    let mut least = 0;
    for _step in 0..13 {
        if most.saturating_sub(least) > 1 {
            let frames = over(most.saturating_add(least), 2);
            if suffices(flows, class, &Grid { frames, ..grid }, wait) {
                most = frames;
            } else {
                least = frames;
            }
        }
    }
    Some(most)
}

/// So many windows in a cycle, which may come late by so many sixteenths of the time between them, if they do.
fn windows_by(
    flows: &[Flow],
    limits: &Limits,
    class: u8,
    cycle: u64,
    sixteenths: u64,
    count: u64,
) -> Option<Windows> {
    let period = over_up(cycle, count);
    let late = over(period.saturating_mul(sixteenths), 16);
    let blocking = crate::schedule_search::sums::ns_up(limits.blocking.unwrap_or(0));
    let grid = Grid {
        period,
        late,
        blocking,
        need: longest_need(flows, class),
        frames: 1,
    };
    let wait = patience(flows, class)?;
    let frames = frames_needed(flows, class, grid, wait)?;
    let length = frames.saturating_mul(grid.need).saturating_add(blocking);
    let length = length.max(limits.least);
    if length.saturating_mul(count) > cycle {
        return None;
    }
    Some(Windows {
        count,
        late,
        length,
    })
}

/// The shorter of two ways to have windows.
fn shorter(first: Option<Windows>, second: Windows) -> Windows {
    match first {
        None => second,
        Some(first) => {
            let one = first.count.saturating_mul(first.length);
            let other = second.count.saturating_mul(second.length);
            if other < one { second } else { first }
        }
    }
}

/// Windows of a class in each cycle by which none of its frames waits for too long: those that take the least time, of
/// some that are tried.
pub(crate) fn windows_of(
    flows: &[Flow],
    limits: &Limits,
    class: u8,
    cycle: u64,
    sixteenths: u64,
) -> Option<Windows> {
    let wait = patience(flows, class)?;
    let between = over(wait.saturating_mul(16), sixteenths.saturating_add(16));
    let first = over_up(cycle, between.max(1)).max(1);
    let mut found = None;
    for more in 0..COUNTS {
        let count = first.saturating_add(more);
        if count <= MAX_WINDOWS {
            if let Some(windows) = windows_by(flows, limits, class, cycle, sixteenths, count) {
                found = Some(shorter(found, windows));
            }
        }
    }
    found
}
