//! The bounds of a class, by the busy times from finitely many moments.

ghost use Rattle.std.specs.Prelude.{◌≡◌, ◌<◌, ◌≤◌, ◌*◌, ◌^◌, All, Err, false, None, IfErr, IfOk, IfSome, length};
ghost use Rattle.gates.specs.Gate.{IsSchedule, in_ps};
ghost use Rattle.jumping.specs.Position.{IsPlaced};
ghost use Rattle.burst_bounds.specs.Least.{AreLeast};
ghost use Rattle.burst_bounds.specs.Reach.{IsCommon, IsUnseen};
ghost use Rattle.burst_bounds.specs.Talkers.{IsTalker, curve, longest_need};
ghost use Rattle.burst_bounds.specs.Answer.{IsUnbound};

use crate::arrivals::arrivals;
use crate::moments::{with_moment, with_windows};
use crate::rate::is_overloaded;
use crate::repeats::{Repeat, repeat_of};
use crate::slots::slots_from;
use crate::{Bounds, Talker, Unbound};
use gates::gate_list::{Schedule, Visits};
use jumping::list_position::Position;
use std::alloc::Allocator;
use wire_time::CLASSES;

/// So many frames are looked at from each moment on at first.
const FEW: usize = 256;

/// The longest need of all talkers.
fn longest_need(talkers: &[Talker]) -> u128
    ensures { result ≡ longest_need talkers.now }
{
    let mut need = 0;
    for talker in talkers {
        need = talker.need.max(need);
    }
    need
}

/// The bounds, where so many frames from each moment on show them.
fn bounds_by<A: Allocator>(
    alloc: &A,
    schedule: &Schedule,
    first: &Position,
    class: u8,
    need: u128,
    talkers: &[Talker],
    repeat: Option<Repeat>,
    frames: usize,
) -> Result<Bounds, Unbound>
where
    A: Clone,
    requires sound { IsSchedule schedule.now }
    requires first { IsPlaced schedule.now 0 None 0 first.now }
    requires class { class < CLASSES }
    requires some { 0 < length talkers.now }
    requires talkers { All IsTalker talkers.now }
    requires need { need ≡ longest_need talkers.now }
    requires repeat { IfSome repeat (IsCommon talkers.now (in_ps schedule.now.cycle)) }
    requires frames { (0 < frames) × (frames < 2 ^ 40) }
    ensures least { IfOk result
        (λ b. AreLeast schedule.now class need (curve talkers.now) b.wait b.most) }
    ensures why { IfErr result (IsUnseen schedule.now class need (curve talkers.now) frames) }
{
    let Ok(moments) = arrivals(alloc, talkers, frames) else {
        return Err(Unbound::Memory);
    };
    let slots = match slots_from(alloc, schedule, first, class, need, 0, frames) {
        Ok(slots) => slots,
        Err(why) => return Err(why),
    };
    let mut bounds = Bounds { wait: 0, most: 0 };
    let moments = moments.as_slice();
    let _reach = match with_moment(&mut bounds, slots.as_slice(), moments, 0, need, repeat) {
        Ok(reach) => reach,
        Err(why) => return Err(why),
    };
    match with_windows(
        alloc,
        schedule,
        first,
        class,
        need,
        moments,
        repeat,
        &mut bounds,
    ) {
        Ok(()) => Ok(bounds),
        Err(why) => Err(why),
    }
}

/// Whether a look at more frames may show the bounds.
fn wants_more(found: Result<Bounds, Unbound>) -> bool
    ensures { result ≡ false → found ≡ Err Unbound.Long → ⊥ }
{
    match found {
        Err(Unbound::Long) => true,
        _ => false,
    }
}

/// The bounds by more and more frames from each moment on.
fn bounds_within<A: Allocator>(
    alloc: &A,
    schedule: &Schedule,
    first: &Position,
    class: u8,
    need: u128,
    talkers: &[Talker],
    repeat: Option<Repeat>,
    most: usize,
) -> Result<Bounds, Unbound>
where
    A: Clone,
    requires sound { IsSchedule schedule.now }
    requires first { IsPlaced schedule.now 0 None 0 first.now }
    requires class { class < CLASSES }
    requires some { 0 < length talkers.now }
    requires talkers { All IsTalker talkers.now }
    requires need { need ≡ longest_need talkers.now }
    requires repeat { IfSome repeat (IsCommon talkers.now (in_ps schedule.now.cycle)) }
    requires most { (0 < most) × (most < 2 ^ 40) }
    ensures least { IfOk result
        (λ b. AreLeast schedule.now class need (curve talkers.now) b.wait b.most) }
    ensures why { IfErr result (IsUnseen schedule.now class need (curve talkers.now) most) }
{
    let mut frames = FEW;
    while frames < most {
        let found = bounds_by(alloc, schedule, first, class, need, talkers, repeat, frames);
        if !wants_more(found) {
            return found;
        }
        frames *= 2;
    }
    bounds_by(alloc, schedule, first, class, need, talkers, repeat, most)
}

/// The bounds of a class that a schedule keeps apart, whenever the frames of its talkers come: the longest time from a
/// frame's arrival to its start, and the most frames that ever wait at once. Each frame is taken to need the wire for as
/// long as the longest one.
///
/// From each moment at which a busy time may be the worst at most `limit` frames are walked, each as early as it may
/// come: until the wire is idle, or until all comes again. It takes memory for that many moments.
///
/// # Errors
/// `Overloaded`: in the long run more frames come than the windows take, so that no bounds hold; `laws::overload` says
/// so. `Stuck`: no window takes the longest frame. `Long`: some busy time has more than `limit` frames, or lasts until
/// `MAX_MOMENT`. `Memory`: out of memory.
///
/// IEEE Std 802.1Q-2018, 8.6.8.4 and 8.6.9. `any_traffic::any_traffic` says what the bounds are worth in every run.
pub fn burst_bounds<A: Allocator>(
    alloc: &A,
    schedule: &Schedule,
    class: u8,
    talkers: &[Talker],
    limit: u32,
) -> Result<Bounds, Unbound>
where
    A: Clone,
    requires class { class < CLASSES }
    requires some { 0 < length talkers.now }
    requires talkers { All IsTalker talkers.now }
    ensures least { IfOk result
        (λ b. AreLeast schedule.now class (longest_need talkers.now)
        (curve talkers.now) b.wait b.most) }
    ensures why { IfErr result (IsUnbound schedule.now class talkers.now limit) }
{
    let _entries = schedule.len();
    let first = Position::first(schedule, 0, &mut Visits::zero());
    let need = longest_need(talkers);
    let more = match is_overloaded(alloc, schedule, &first, class, need, talkers) {
        Ok(more) => more,
        Err(why) => return Err(why),
    };
    if more {
        return Err(Unbound::Overloaded);
    }
    let cycle = 1000 * u128::from(schedule.cycle_ns());
    let repeat = repeat_of(talkers, cycle, limit as usize);
    let most = limit as usize + 1;
    bounds_within(alloc, schedule, &first, class, need, talkers, repeat, most)
}
