//! The busy period from a moment on: the frames that come one behind another before the wire is idle, each as early as
//! it may, and each sent at the first slot for it and all before it.

ghost use Rattle.std.specs.Prelude.{◌≡◌, ℕ, ◌<◌, ◌≤◌, ◌+◌, ◌-◌, ◌^◌, IfErr, IfOk, length};
ghost use Rattle.burst_bounds.specs.Busy.{HasFrames, Rises};
ghost use Rattle.burst_bounds.specs.Walk.{AreBelow};
ghost use Rattle.shared_bounds.specs.Busy.{AreEarly, IsBusyTime, IsSeen, IsUnseenBy};
ghost use Rattle.shared_bounds.specs.Place.{IsPlace};

use crate::Unbound;
use crate::place::SharedClass;
use crate::slots::Slot;
use burst_bounds::Bounds;
use burst_bounds::busy::{longest_wait, most_waiting};
use std::alloc::Allocator;

impl SharedClass<'_, '_, '_> {
    /// When the frames of the busy period from a moment on start at the latest. At most so many slots are looked at as
    /// moments are given behind the first.
    fn busy_time<A: Allocator>(
        &self,
        alloc: &A,
        from: u128,
        moments: &[u128],
    ) -> Result<Vec<u128, A>, Unbound>
    where
        A: Clone,
        requires place { IsPlace self.now }
        requires from { from ≤ 2 ^ 60 }
        requires some { 1 < length moments.now }
        requires moments { AreBelow 120 moments.now }
        ensures time { IfOk result (λ starts. IsBusyTime self.now from starts.items moments.now) }
        ensures early { IfOk result (λ starts. AreEarly starts.items) }
        ensures why { IfErr result (IsUnseenBy self.now moments.now) }
    {
        let limit = moments.len() - 1;
        let Ok(lent) = alloc.clone() else {
            return Err(Unbound::Memory);
        };
        let Ok(mut starts) = Vec::with_capacity(lent, 0) else {
            return Err(Unbound::Memory);
        };
        let need = self.need_of(self.class);
        let mut slot = match self.first_slot(from) {
            Ok(at) => Slot { behind: 0, at },
            Err(why) => return Err(why),
        };
        for i in 0..limit {
            slot = match self.slot_for(from, slot, i as u128 + 1, limit as u128) {
                Ok(found) => found,
                Err(why) => return Err(why),
            };
            let Ok(()) = starts.push(slot.at) else {
                return Err(Unbound::Memory);
            };
            if slot.at + need <= from + moments[i + 1] {
                return Ok(starts);
            }
        }
        Err(Unbound::Long)
    }

    /// The greater ones of bounds and of what the busy period from a moment on shows. It answers when its last frame
    /// starts.
    pub fn with_moment<A: Allocator>(
        &self,
        alloc: &A,
        from: u128,
        moments: &[u128],
        bounds: &mut Bounds,
    ) -> Result<u128, Unbound>
    where
        A: Clone,
        requires place { IsPlace self.now }
        requires from { from ≤ 2 ^ 60 }
        requires some { 1 < length moments.now }
        requires moments { AreBelow 120 moments.now }
        requires rises { Rises moments.now }
        ensures seen { IfOk result (IsSeen self.now from moments.now bounds.old bounds.new) }
        ensures why { IfErr result (IsUnseenBy self.now moments.now) }
    {
        let starts = match self.busy_time(alloc, from, moments) {
            Ok(starts) => starts,
            Err(why) => return Err(why),
        };
        let frames = starts.len();
        *bounds = with_frames(*bounds, starts.as_slice(), moments, from);
        Ok(starts[frames - 1])
    }
}

/// The greater ones of bounds and of those of frames that come and start so.
fn with_frames(bounds: Bounds, starts: &[u128], moments: &[u128], from: u128) -> Bounds
    requires starts { AreEarly starts.now }
    requires moments { AreBelow 120 moments.now }
    requires from { from ≤ 2 ^ 60 }
    requires rises { Rises moments.now }
    requires within { length starts.now ≤ length moments.now }
    ensures { HasFrames bounds from starts.now moments.now (length starts.now) result }
{
    Bounds {
        wait: longest_wait(starts, moments, from, starts.len()).max(bounds.wait),
        most: most_waiting(starts, moments, from, starts.len()).max(bounds.most),
    }
}
