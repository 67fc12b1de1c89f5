//! Looking back at where a walk stood: whether it stands as it did, and whether its backlog grows.

ghost use Rattle.std.specs.Prelude.{if◌then◌else◌, ◌≡◌, ◌<◌, ◌-◌, ◌%◌, length};
ghost use Rattle.delay_bounds.specs.Backlog.{beside, compared, followed, from_look, looked, no_backlog, with_frame};
ghost use Rattle.delay_bounds.specs.Bounded.{is_from_here};
ghost use Rattle.delay_bounds.specs.Walked.{comes_again, last_offset, look};

use crate::Flow;
use crate::line::Line;
use std::alloc::Allocator;

/// A frame to look from: when it comes, and how many come before it.
#[derive(Clone, Copy)]
pub struct Mark {
    pub since: u128,
    pub earlier: u64,
}

/// What comes of a look at a walk beside where it stood before.
#[derive(Clone, Copy)]
pub enum Look {
    /// It stands as it did, some cycles later: all goes on so for ever.
    Again,
    /// Only the frames come as they did: it is better to look from here on.
    Frames,
    /// The first frames of all flows have come: it is better to look from here on.
    First,
    /// None of these.
    On,
}

/// The backlog of a walk: for how long the wire is taken, when a frame comes, by those before it; in picoseconds.
#[derive(Clone, Copy)]
pub struct Backlog {
    /// What it was at a look.
    pub origin: u128,
    /// Whether each frame since that look has found one.
    pub lasts: bool,
    /// Whether it has risen by a cycle from a look to a later one at which the frames come as they did, while it
    /// lasted.
    pub grows: bool,
}

/// The latest first frame of all flows.
pub fn last_offset(flows: &[Flow]) -> u128
    ensures { result ≡ last_offset flows.now }
{
    let mut last = 0;
    for flow in flows {
        last = flow.offset.max(last);
    }
    last
}

// Whether the frames of a walk, whose next frame comes at `t`, come as those did of another one, whose next came at
// `since`, whole cycles before.
fn comes_again<A: Allocator>(
    line: &Line<A>,
    base: &Line<A>,
    since: u128,
    t: u128,
    cycle: u128,
) -> bool
    requires { 0 < cycle }
    ensures { result ≡ comes_again cycle since t line.now.track base.now.track }
{
    since < t && (t - since) % cycle == 0 && line.comes_later(base, t - since)
}

/// Looks at a walk whose next frame comes at `t`, beside where it stood when one came at `since`.
pub fn look_back<A: Allocator>(
    line: &Line<A>,
    base: &Line<A>,
    since: u128,
    t: u128,
    cycle: u128,
    last: u128,
) -> Look
    requires { 0 < cycle }
    ensures { result ≡ look cycle last since t line.now.track base.now.track }
{
    if comes_again(line, base, since, t, cycle) {
        if line.is_later(base, t.saturating_sub(since)) {
            return Look::Again;
        }
        return Look::Frames;
    }
    if since < last && last <= t {
        return Look::First;
    }
    Look::On
}

// Whether it is better to look from here on.
fn is_from_here(look: Look) -> bool
    ensures { result ≡ is_from_here look }
{
    match look {
        Look::Frames | Look::First => true,
        Look::Again | Look::On => false,
    }
}

/// Looks from here on where that is better, or from where it looked before.
pub fn look_from<A: Allocator>(
    look: Look,
    line: &Line<A>,
    here: Mark,
    base: &mut Line<A>,
    mark: Mark,
) -> Mark
    requires places { length base.old.track.nexts ≡ length line.now.track.nexts }
    requires room { base.old.room ≡ line.now.room }
    ensures base { base.new ≡ (if is_from_here look then line.now else base.old) }
    ensures mark { result ≡ (if is_from_here look then here else mark) }
{
    if is_from_here(look) {
        base.copy(line);
        return here;
    }
    mark
}

/// Before any frame.
pub fn no_backlog() -> Backlog
    ensures { result ≡ no_backlog }
{
    Backlog {
        origin: 0,
        lasts: false,
        grows: false,
    }
}

// A backlog from a look on, at which the wire is taken for so long.
fn from_look(taken: u128, grows: bool) -> Backlog
    ensures { result ≡ from_look taken grows }
{
    Backlog {
        origin: taken,
        lasts: true,
        grows,
    }
}

// A backlog beside an earlier look since which it has lasted: it may have risen by a cycle.
fn beside(backlog: Backlog, taken: u128, cycle: u128) -> Backlog
    ensures { result ≡ beside cycle taken backlog }
{
    Backlog {
        origin: backlog.origin,
        lasts: true,
        grows: backlog.grows || taken.saturating_sub(backlog.origin) >= cycle,
    }
}

// A backlog behind a look at which the frames come as they did.
fn compared(backlog: Backlog, taken: u128, cycle: u128) -> Backlog
    ensures { result ≡ compared cycle taken backlog }
{
    if backlog.lasts {
        beside(backlog, taken, cycle)
    } else {
        from_look(taken, backlog.grows)
    }
}

// A backlog behind a look.
fn looked(backlog: Backlog, look: Look, taken: u128, cycle: u128) -> Backlog
    ensures { result ≡ looked cycle look taken backlog }
{
    match look {
        Look::Frames => compared(backlog, taken, cycle),
        Look::First => from_look(taken, backlog.grows),
        Look::Again | Look::On => backlog,
    }
}

// A backlog behind a frame that finds the wire taken for so long.
fn with_frame(backlog: Backlog, taken: u128) -> Backlog
    ensures { result ≡ with_frame taken backlog }
{
    Backlog {
        origin: backlog.origin,
        lasts: backlog.lasts && taken > 0,
        grows: backlog.grows,
    }
}

/// A backlog behind a look and the frame that comes then, which finds the wire taken for so long. Times are in
/// picoseconds.
pub fn followed(backlog: Backlog, look: Look, taken: u128, cycle: u128) -> Backlog
    ensures { result ≡ followed cycle look taken backlog }
{
    with_frame(looked(backlog, look, taken, cycle), taken)
}
