//! The slots of a class that shares its windows: the latest starts of its frames and of those of the higher classes.

ghost use Rattle.std.specs.Prelude.{◌≡◌, ◌<◌, ◌≤◌, ◌+◌, ◌*◌, ◌^◌, true, false, IfErr, IfOk};
ghost use Rattle.shared_bounds.specs.Place.{IsPlace, may_of, own_of};
ghost use Rattle.shared_bounds.specs.Slots.{IsEnough, IsFirstSlot, IsNextSlot, IsNoNext, IsNoneFor, IsOn, IsShut, IsSought, IsWindowSlot};

use crate::Unbound;
use crate::place::SharedClass;

/// Behind this moment nothing is looked at, in picoseconds.
pub const LATEST: u128 = 1 << 72;

/// So many slots are looked at in a step, and for so long.
const MANY: u128 = 1 << 62;

const LONG: u128 = 1 << 61;

/// A slot: how many are before it, and when it begins.
#[derive(Clone, Copy)]
pub struct Slot {
    pub behind: u128,
    pub at: u128,
}

impl SharedClass<'_, '_, '_> {
    /// The first slot of the windows that open behind a moment.
    fn window_slot(&self, from: u128) -> Result<u128, Unbound>
        requires place { IsPlace self.now }
        requires shut { IsShut self.now from }
        ensures slot { IfOk result (IsWindowSlot self.now from) }
        ensures near { IfOk result (λ s. s < 2 ^ 72 + 2 ^ 61) }
        ensures later { IfOk result (λ s. from < s) }
        ensures why { IfErr result (IsNoNext self.now from) }
    {
        if from > LATEST {
            return Err(Unbound::Long);
        }
        match self.next_opening(from) {
            Some(opening) => Ok(opening + self.blocking(opening)),
            None => Err(Unbound::Blocked),
        }
    }

    /// The first slot from a moment on.
    pub fn first_slot(&self, from: u128) -> Result<u128, Unbound>
        requires place { IsPlace self.now }
        requires from { from ≤ 2 ^ 72 }
        ensures slot { IfOk result (IsFirstSlot self.now from) }
        ensures near { IfOk result (λ s. s < 2 ^ 72 + 2 ^ 61) }
        ensures later { IfOk result (λ s. from ≤ s) }
        ensures why { IfErr result (IsNoNext self.now from) }
    {
        if self.takes(from) {
            return Ok(from + self.blocking(from));
        }
        self.window_slot(from)
    }

    /// The slot behind one.
    pub fn next_slot(&self, at: u128) -> Result<u128, Unbound>
        requires place { IsPlace self.now }
        requires at { at ≤ 2 ^ 73 }
        ensures slot { IfOk result (IsNextSlot self.now at) }
        ensures near { IfOk result (λ s. s < 2 ^ 72 + 2 ^ 61) }
        ensures later { IfOk result (λ s. at ≤ s) }
        ensures why { IfErr result (IsNoNext self.now at) }
    {
        if at > LATEST {
            return Err(Unbound::Long);
        }
        if self.may(self.class, at, self.pitch + self.need_of(self.class)) {
            return Ok(at + self.pitch);
        }
        self.window_slot(at)
    }

    /// How many slots of its window are behind one, of so many.
    pub fn steps(&self, at: u128, most: u128) -> u128
        requires place { IsPlace self.now }
        requires at { at ≤ 2 ^ 72 + 2 ^ 64 }
        ensures most { result ≤ most }
        ensures opened { 0 < result →
            may_of self.now at (result * self.now.pitch + own_of self.now) ≡ true }
        ensures none { result ≡ 0 → 0 < most →
            may_of self.now at (self.now.pitch + own_of self.now) ≡ false }
        ensures near { result * self.now.pitch ≤ 2 ^ 61 }
    {
        let need = self.need_of(self.class);
        let few = most.min(MANY);
        let time = (few * self.pitch).min(LONG);
        let lasts = self.open_for(self.class, at, time + need);
        lasts.saturating_sub(need) / self.pitch
    }

    /// The next slot.
    fn slot_behind(&self, slot: Slot) -> Result<Slot, Unbound>
        requires place { IsPlace self.now }
        requires at { slot.at ≤ 2 ^ 73 }
        requires behind { slot.behind < 2 ^ 64 }
        ensures slot { IfOk result (IsOn self.now slot 1) }
        ensures near { IfOk result (λ s. s.at < 2 ^ 72 + 2 ^ 62) }
        ensures why { IfErr result (IsNoNext self.now slot.at) }
    {
        match self.next_slot(slot.at) {
            Ok(at) => Ok(Slot {
                behind: slot.behind + 1,
                at,
            }),
            Err(why) => Err(why),
        }
    }

    /// The last slot of its window of so many behind one; or the next one, where that is in a later window.
    fn slot_on(&self, slot: Slot, most: u128) -> Result<Slot, Unbound>
        requires place { IsPlace self.now }
        requires at { slot.at ≤ 2 ^ 73 }
        requires behind { slot.behind < 2 ^ 64 }
        requires most { (0 < most) × (most < 2 ^ 64) }
        ensures slot { IfOk result (IsOn self.now slot most) }
        ensures near { IfOk result (λ s. s.at < 2 ^ 72 + 2 ^ 62) }
        ensures why { IfErr result (IsNoNext self.now slot.at) }
    {
        if slot.at > LATEST {
            return Err(Unbound::Long);
        }
        let steps = self.steps(slot.at, most);
        if steps == 0 {
            return self.slot_behind(slot);
        }
        Ok(Slot {
            behind: slot.behind + steps,
            at: slot.at + steps * self.pitch,
        })
    }

    /// The first slot from one on that is one for so many frames, which come from a moment on.
    pub fn slot_for(
        &self,
        from: u128,
        first: Slot,
        frames: u128,
        limit: u128,
    ) -> Result<Slot, Unbound>
        requires place { IsPlace self.now }
        requires frames { (0 < frames) × (frames < 2 ^ 64) }
        requires limit { limit < 2 ^ 64 }
        requires first { IsSought self.now from frames limit first }
        ensures slot { IfOk result (IsSought self.now from frames limit) }
        ensures enough { IfOk result (λ s. IsEnough self.now from frames s.behind s.at) }
        ensures why { IfErr result (IsNoneFor self.now from frames limit) }
    {
        let mut slot = first;
        let mut missing = self.missing(frames, slot.behind, slot.at - from);
        while missing > 0 {
            if slot.behind + missing >= limit {
                return Err(Unbound::Long);
            }
            slot = match self.slot_on(slot, missing) {
                Ok(next) => next,
                Err(why) => return Err(why),
            };
            missing = self.missing(frames, slot.behind, slot.at - from);
        }
        Ok(slot)
    }
}
