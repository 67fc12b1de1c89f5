//! The bounds of a class, by the busy periods from finitely many moments.

ghost use Rattle.std.specs.Prelude.{◌≡◌, ℕ, ◌<◌, ◌≤◌, ◌+◌, ◌-◌, ◌*◌, ◌^◌, ◌↔◌, All, Err, false, IfErr, IfOk, IsTrue, length};
ghost use Rattle.burst_bounds.specs.Talkers.{IsTalker, curve};
ghost use Rattle.burst_bounds.specs.Walk.{AreBelow};
ghost use Rattle.burst_bounds.specs.Busy.{Rises};
ghost use Rattle.shared_bounds.specs.Best.{AreBest, AreFoundAt, IsBest, IsNotFound, IsNoWay, IsTried, IsUnseenAt, at_pitch, lesser_of, pitch_at, with_told};
ghost use Rattle.shared_bounds.specs.Busy.{AreFound, AreFoundBy, IsUnseen, IsUnseenBy};
ghost use Rattle.shared_bounds.specs.Least.{AreLeastOf, IsUnbound};
ghost use Rattle.shared_bounds.specs.Place.{IsPlace};
ghost use Rattle.shared_bounds.specs.Slots.{IsStuck};
ghost use Rattle.shared_bounds.specs.Traffic.{IsTraffic, arrivals_of, needs};

use crate::place::SharedClass;
use crate::sharing::{higher_classes, need_in};
use crate::{ClassTraffic, Unbound};
use burst_bounds::arrivals::arrivals;
use burst_bounds::{Bounds, Talker};
use gates::gate_list::{Schedule, Visits};
use jumping::list_position::Position;
use std::alloc::Allocator;
use wire_time::CLASSES;

/// So many slots are looked at from each moment on at first.
const FEW: usize = 256;

impl SharedClass<'_, '_, '_> {
    /// The least bounds, where the frames come at these moments at the earliest.
    fn bounds_of<A: Allocator>(&self, alloc: &A, moments: &[u128]) -> Result<Bounds, Unbound>
    where
        A: Clone,
        requires place { IsPlace self.now }
        requires some { 1 < length moments.now }
        requires moments { AreBelow 120 moments.now }
        requires rises { Rises moments.now }
        ensures found { IfOk result (AreFoundBy self.now moments.now) }
        ensures why { IfErr result (IsUnseenBy self.now moments.now) }
    {
        let cycle = 1000 * u128::from(self.schedule.cycle_ns());
        let mut bounds = Bounds { wait: 0, most: 0 };
        let mut from = 0;
        while from <= cycle {
            let last = match self.with_moment(alloc, from, moments, &mut bounds) {
                Ok(last) => last,
                Err(why) => return Err(why),
            };
            from = match self.next_moment(from, last) {
                Ok(next) => next,
                Err(why) => return Err(why),
            };
        }
        Ok(bounds)
    }

    /// The least bounds of talkers, where so many slots from each moment on show them.
    fn bounds_by<A: Allocator>(
        &self,
        alloc: &A,
        talkers: &[Talker],
        slots: usize,
    ) -> Result<Bounds, Unbound>
    where
        A: Clone,
        requires place { IsPlace self.now }
        requires some { 0 < length talkers.now }
        requires talkers { All IsTalker talkers.now }
        requires slots { (0 < slots) × (slots < 2 ^ 39) }
        ensures found { IfOk result (AreFound self.now (curve talkers.now)) }
        ensures why { IfErr result (IsUnseen self.now (curve talkers.now) slots) }
    {
        let Ok(moments) = arrivals(alloc, talkers, slots + 1) else {
            return Err(Unbound::Memory);
        };
        self.bounds_of(alloc, moments.as_slice())
    }

    /// The least bounds of talkers, by more and more slots from each moment on.
    fn bounds_within<A: Allocator>(
        &self,
        alloc: &A,
        talkers: &[Talker],
        most: usize,
    ) -> Result<Bounds, Unbound>
    where
        A: Clone,
        requires place { IsPlace self.now }
        requires some { 0 < length talkers.now }
        requires talkers { All IsTalker talkers.now }
        requires most { (0 < most) × (most < 2 ^ 39) }
        ensures found { IfOk result (AreFound self.now (curve talkers.now)) }
        ensures why { IfErr result (IsUnseen self.now (curve talkers.now) most) }
    {
        let mut slots = FEW;
        while slots < most {
            let found = self.bounds_by(alloc, talkers, slots);
            if !wants_more(found) {
                return found;
            }
            slots *= 2;
        }
        self.bounds_by(alloc, talkers, most)
    }

    /// The least bounds of the class's own talkers, by slots so far apart.
    fn bounds_by_pitch<A: Allocator>(
        &self,
        alloc: &A,
        pitch: u128,
        most: usize,
    ) -> Result<Bounds, Unbound>
    where
        A: Clone,
        requires place { IsPlace self.now }
        requires pitch { (0 < pitch) × (pitch < 2 ^ 60) }
        requires some { 0 < arrivals_of self.now.traffic.now self.now.class 0 }
        requires most { (0 < most) × (most < 2 ^ 39) }
        ensures found { IfOk result (AreFoundAt self.now pitch) }
        ensures why { IfErr result (IsUnseenAt self.now pitch most) }
    {
        let here = self.with_pitch(pitch);
        let own = here.traffic[here.class as usize];
        here.bounds_within(alloc, own.talkers, most)
    }

    /// The same class, its slots so far apart.
    fn with_pitch(&self, pitch: u128) -> Self
        requires place { IsPlace self.now }
        requires pitch { (0 < pitch) × (pitch < 2 ^ 60) }
        ensures same { result ≡ at_pitch self.now pitch }
        ensures place { IsPlace result }
    {
        SharedClass {
            schedule: self.schedule,
            first: self.first,
            class: self.class,
            traffic: self.traffic,
            higher: self.higher,
            pitch,
        }
    }

    /// For how long a frame of the class needs the wire, or of the higher one at the place before this.
    fn pitch_at(&self, place: usize) -> u128
        requires place { IsPlace self.now }
        requires listed { place ≤ length self.now.higher.now }
        ensures pitch { result ≡ pitch_at self.now place }
        ensures short { result < 2 ^ 60 }
    {
        if place == 0 {
            return self.need_of(self.class);
        }
        self.need_of(self.higher[place - 1])
    }

    /// Whether a pitch is at one of so many places.
    fn is_tried(&self, pitch: u128, places: usize) -> bool
        requires place { IsPlace self.now }
        requires places { places ≤ length self.now.higher.now + 1 }
        ensures { IsTrue result ↔ IsTried self.now places pitch }
    {
        for place in 0..places {
            if self.pitch_at(place) == pitch {
                return true;
            }
        }
        false
    }

    /// The best bounds, where those by the pitch at one more place are looked at.
    fn best_with<A: Allocator>(
        &self,
        alloc: &A,
        best: Option<Bounds>,
        place: usize,
        most: usize,
    ) -> Result<Option<Bounds>, Unbound>
    where
        A: Clone,
        requires place { IsPlace self.now }
        requires listed { place ≤ length self.now.higher.now }
        requires best { IsBest self.now most place best }
        requires taken { IsStuck self.now → ⊥ }
        requires some { 0 < arrivals_of self.now.traffic.now self.now.class 0 }
        requires most { (0 < most) × (most < 2 ^ 39) }
        ensures best { IfOk result (IsBest self.now most (place + 1)) }
        ensures why { IfErr result (IsNoWay self.now) }
    {
        let pitch = self.pitch_at(place);
        if pitch == 0 || self.is_tried(pitch, place) {
            return Ok(best);
        }
        with_told(best, self.bounds_by_pitch(alloc, pitch, most))
    }

    /// The least bounds of the class's own talkers, by each pitch that is tried.
    fn bounds<A: Allocator>(&self, alloc: &A, most: usize) -> Result<Bounds, Unbound>
    where
        A: Clone,
        requires place { IsPlace self.now }
        requires some { 0 < arrivals_of self.now.traffic.now self.now.class 0 }
        requires most { (0 < most) × (most < 2 ^ 39) }
        ensures found { IfOk result (AreBest self.now most (length self.now.higher.now + 1)) }
        ensures why { IfErr result (IsNotFound self.now most) }
    {
        let Some(_taken) = self.taken_at() else {
            return Err(Unbound::Stuck);
        };
        let mut best = None;
        let places = self.higher.len() + 1;
        for place in 0..places {
            best = match self.best_with(alloc, best, place, most) {
                Ok(next) => next,
                Err(why) => return Err(why),
            };
        }
        match best {
            Some(bounds) => Ok(bounds),
            None => Err(Unbound::Long),
        }
    }
}

/// The lesser ones of bounds, if there are any, and of others.
fn lesser(best: Option<Bounds>, bounds: Bounds) -> Bounds
    ensures { result ≡ lesser_of best bounds }
{
    match best {
        None => bounds,
        Some(old) => Bounds {
            wait: old.wait.min(bounds.wait),
            most: old.most.min(bounds.most),
        },
    }
}

/// The best bounds, where so much is told by one more pitch.
fn with_told(best: Option<Bounds>, told: Result<Bounds, Unbound>) -> Result<Option<Bounds>, Unbound>
    ensures { result ≡ with_told best told }
{
    match told {
        Ok(bounds) => Ok(Some(lesser(best, bounds))),
        Err(Unbound::Long) => Ok(best),
        Err(Unbound::Stuck) => Err(Unbound::Stuck),
        Err(Unbound::Blocked) => Err(Unbound::Blocked),
        Err(Unbound::Memory) => Err(Unbound::Memory),
    }
}

/// Whether a look at more slots may show the bounds.
fn wants_more(found: Result<Bounds, Unbound>) -> bool
    ensures { result ≡ false → found ≡ Err Unbound.Long → ⊥ }
{
    match found {
        Err(Unbound::Long) => true,
        _ => false,
    }
}

/// The least bounds of a class that shares its windows with others, whenever the frames of its talkers come: the longest
/// time from a frame's arrival to its start, and the most frames that ever wait at once.
///
/// `traffic` says what is known of each class, 0 to 7. A frame of any other class that has begun may be in the way, and
/// of the higher ones that share windows with the class as many go first as their talkers and their bounds let start,
/// each as long as those of its talker. So classes are judged from the highest down. A higher one that has no bounds leaves those that share with it without
/// (`sharing::shares_windows`).
///
/// The bounds are by slots, and a frame covers as many as it is long. As far apart as a frame of the class, or of a higher
/// one that shares with it, needs the wire, each such pitch gives bounds: the answer is the least wait and the least most
/// of all. From each moment at which a busy period may be the worst at most `limit` slots behind the first are looked at,
/// until the wire is idle. It takes memory for that many moments.
///
/// # Errors
/// `Stuck`: no window takes the longest frame. `Blocked`: none takes it behind a frame of another class that may have the
/// wire when it opens. `Long`: by each pitch some busy period has more slots, or lasts until 2^72 ps. So it is where more
/// comes than the windows take. `Memory`: out of memory.
///
/// IEEE Std 802.1Q-2018, 8.6.8.1, 8.6.8.4 and 8.6.9. `laws::every_run` says what the bounds are worth in every run.
pub fn shared_bounds<'a, A: Allocator>(
    alloc: &A,
    schedule: &Schedule,
    class: u8,
    traffic: &'a [ClassTraffic<'a>],
    limit: u32,
) -> Result<Bounds, Unbound>
where
    A: Clone,
    requires class { class < CLASSES }
    requires all { length traffic.now ≡ 8 }
    requires traffic { All IsTraffic traffic.now }
    requires need { 0 < needs traffic.now class }
    requires some { 0 < arrivals_of traffic.now class 0 }
    ensures least { IfOk result
        (λ b. AreLeastOf schedule.now class traffic.now (limit + 1) b.wait b.most) }
    ensures why { IfErr result (IsUnbound schedule.now class traffic.now (limit + 1)) }
{
    let _entries = schedule.len();
    let first = Position::first(schedule, 0, &mut Visits::zero());
    let Ok(lent) = alloc.clone() else {
        return Err(Unbound::Memory);
    };
    let Ok(higher) = higher_classes(lent, schedule, &first, class) else {
        return Err(Unbound::Memory);
    };
    let higher = higher.as_slice();
    let shared = SharedClass {
        schedule,
        first,
        class,
        traffic,
        higher,
        pitch: need_in(traffic, class),
    };
    shared.bounds(alloc, limit as usize + 1)
}
