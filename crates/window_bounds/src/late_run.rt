//! The late run: each frame comes at its latest moment, and needs the wire for as long as the longest one.

ghost use Rattle.std.specs.Prelude.{◌≡◌, ◌<◌, ◌≤◌, ◌+◌, ◌*◌, ◌^◌, All, List, None, true, IfErr, IfOk};
ghost use Rattle.wire_time.specs.Moment.{greatest_moment};
ghost use Rattle.gates.specs.Gate.{IsSchedule};
ghost use Rattle.jumping.specs.Position.{IsPlaced, StoodBy};
ghost use Rattle.delay_bounds.specs.Walk.{may_by};
ghost use Rattle.window_bounds.specs.Beats.{AreAtBy, IsBeat};
ghost use Rattle.window_bounds.specs.Slots.{HasSent, IsFreeBehind, IsUndone, IsUnsent};
ghost use Rattle.window_bounds.specs.declared.beats.Beat.{Beat};

use crate::Unbound;
use crate::beats::{Beat, pass};
use crate::slots::next_slot;
use gates::gate_list::Schedule;
use jumping::list_position::{Need, Position};
use wire_time::{CLASSES, MAX_MOMENT};

/// How far the late run has come.
#[derive(Clone, Copy)]
pub struct Run {
    /// How many frames have been sent.
    pub sent: u128,
    /// From when the wire is free behind them.
    pub free: u128,
    /// How many frames may have come by the start of the last of them.
    pub come: u128,
    /// How many of those wait at once, at the most.
    pub most: u128,
}

/// So many frames are sent, one behind another.
pub fn send(
    schedule: &Schedule,
    position: &mut Position,
    class: u8,
    need: u128,
    aheads: &mut [Beat],
    run: Run,
    due: usize,
    limit: u64,
) -> Result<Run, Unbound>
    requires sound { IsSchedule schedule.now }
    requires stood { StoodBy schedule.now 0 None run.free position.old }
    requires class { class < CLASSES }
    requires need { (0 < need) × (need ≤ greatest_moment) }
    requires aheads { All IsBeat aheads.old }
    requires few { run.sent ≤ 2 ^ 64 }
    ensures sent { IfOk result (λ next. next.sent ≡ run.sent + due) }
    ensures free { IfOk result (λ next.
        IsFreeBehind (may_by schedule.now class) need run.free due next.free) }
    ensures soon { IfOk result (λ next. 0 < due → next.free ≤ 2 ^ 80) }
    ensures stood { IfOk result (λ next. StoodBy schedule.now 0 None next.free position.new) }
    ensures fine { All IsBeat aheads.new }
    ensures come { IfOk result (λ next. (beats : List Beat) → All IsBeat beats
        → AreAtBy beats run.free aheads.old run.come
        → AreAtBy beats next.free aheads.new next.come
        × HasSent (may_by schedule.now class) need run.free due limit beats run next) }
    ensures few { IfOk result (λ next. 0 < due → next.come ≤ limit) }
    ensures small { IfOk result (λ next. run.most ≤ limit → next.most ≤ limit) }
    ensures why { IfErr result (λ why. (beats : List Beat) → All IsBeat beats
        → AreAtBy beats run.free aheads.old run.come
        → IsUndone schedule.now class need run.free due limit beats why) }
{
    let mut next = run;
    for _i in 0..due {
        let at = match next_slot(schedule, position, class, need, next.free) {
            Ok(at) => at,
            Err(why) => return Err(why),
        };
        let come = next.come.saturating_add(pass(aheads, at));
        if come > u128::from(limit) {
            return Err(Unbound::Long);
        }
        next = Run {
            sent: next.sent + 1,
            free: at + need,
            come,
            most: come.saturating_sub(next.sent).max(next.most),
        };
    }
    Ok(next)
}

/// How many frames may be sent one behind another from a moment on, as far as the entry shows that is in force then; at
/// most so many.
fn in_a_row(
    schedule: &Schedule,
    position: &Position,
    class: u8,
    need: u128,
    at: u128,
    most: u128,
) -> u128
    requires sound { IsSchedule schedule.now }
    requires placed { IsPlaced schedule.now 0 None at position.now }
    requires class { class < CLASSES }
    requires need { (0 < need) × (need ≤ greatest_moment) }
    requires at { at ≤ 2 * greatest_moment }
    requires one { may_by schedule.now class at need ≡ true }
    requires some { 0 < most }
    ensures some { (0 < result) × (result ≤ most) }
    ensures fits { may_by schedule.now class at (result * need) ≡ true }
    ensures short { result * need ≤ greatest_moment }
{
    let end = position.until(None).unwrap_or(u128::MAX);
    let length = end.saturating_sub(at).min(MAX_MOMENT);
    let frames = (length / need).min(most);
    if frames < 2 {
        return 1;
    }
    let need = Need {
        class,
        from: at,
        length: frames * need,
    };
    if position.stays_open(schedule, None, need) {
        return frames;
    }
    1
}

/// From when the wire is free behind so many frames more.
pub fn free_behind(
    schedule: &Schedule,
    position: Position,
    class: u8,
    need: u128,
    free: u128,
    more: u128,
) -> Result<u128, Unbound>
    requires sound { IsSchedule schedule.now }
    requires stood { StoodBy schedule.now 0 None free position }
    requires class { class < CLASSES }
    requires need { (0 < need) × (need ≤ greatest_moment) }
    ensures free { IfOk result (λ later.
        IsFreeBehind (may_by schedule.now class) need free more later) }
    ensures soon { IfOk result (λ later. free ≤ 2 ^ 80 → later ≤ 2 ^ 80) }
    ensures why { IfErr result (IsUnsent schedule.now class need free more) }
{
    let mut position = position;
    let mut later = free;
    let mut left = more;
    while left > 0 {
        let at = match next_slot(schedule, &mut position, class, need, later) {
            Ok(at) => at,
            Err(why) => return Err(why),
        };
        let frames = in_a_row(schedule, &position, class, need, at, left);
        later = at + frames * need;
        left -= frames;
    }
    Ok(later)
}
