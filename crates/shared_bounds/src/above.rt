//! How many slots the frames of the higher classes may cover that start within a time.

ghost use Rattle.std.specs.Prelude.{◌≡◌, ℕ, ◌<◌, ◌≤◌, ◌+◌, ◌-◌, ◌*◌, ◌^◌, All, min, length};
ghost use Rattle.any_traffic.specs.SharedSlots.{slots_of};
ghost use Rattle.any_traffic.specs.SlotCurve.{slot_curve};
ghost use Rattle.burst_bounds.specs.Talkers.{flows_of, IsTalker};
ghost use Rattle.shared_bounds.specs.Place.{IsPlace, above_of, own_slots};
ghost use Rattle.shared_bounds.specs.Traffic.{IsTraffic, needs, starts_of};

use crate::ClassTraffic;
use crate::place::SharedClass;
use burst_bounds::Talker;
use wire_time::CLASSES;

/// How many slots that are a pitch apart a frame covers at most that needs the wire for so long.
fn slots_for(need: u128, pitch: u128) -> u128
    requires need { need < 2 ^ 60 }
    requires pitch { (0 < pitch) × (pitch < 2 ^ 60) }
    ensures slots { result ≡ slots_of need pitch }
    ensures few { result < 2 ^ 61 }
{
    (need + (pitch - 1)) / pitch
}

/// How many slots the frames of talkers cover at most that come within a time, or a limit, where they are more. None of
/// them needs the wire for longer than `need`.
fn slots_within(talkers: &[Talker], need: u128, pitch: u128, time: u128, limit: u128) -> u128
    requires talkers { All IsTalker talkers.now }
    requires need { need < 2 ^ 60 }
    requires pitch { (0 < pitch) × (pitch < 2 ^ 60) }
    requires time { time < 2 ^ 101 }
    requires limit { limit ≤ 2 ^ 64 }
    ensures { result ≡ min (slot_curve need pitch (flows_of talkers.now) time) limit }
{
    let mut slots = 0;
    for talker in talkers {
        let each = slots_for(talker.need.min(need), pitch);
        let frames = ((time + talker.jitter) / talker.period + 1).min(limit);
        slots = (slots + each * frames).min(limit);
    }
    slots
}

/// How many slots the frames of a class cover at most that start within a time, or a limit.
fn starts_within(one: &ClassTraffic<'_>, pitch: u128, time: u128, limit: u128) -> u128
    requires traffic { IsTraffic one.now }
    requires pitch { (0 < pitch) × (pitch < 2 ^ 60) }
    requires time { time < 2 ^ 100 }
    requires limit { limit ≤ 2 ^ 64 }
    ensures { result ≡ min (starts_of (Some one.now) pitch time) limit }
{
    let waiting = slots_for(one.need, pitch) * one.bounds.most as u128;
    let new = slots_within(one.talkers, one.need, pitch, time, limit);
    let all = slots_within(one.talkers, one.need, pitch, time + one.bounds.wait, limit);
    (waiting + new).min(all)
}

impl SharedClass<'_, '_, '_> {
    /// How many slots a frame of a class covers at most.
    fn slots_of(&self, class: u8) -> u128
        requires place { IsPlace self.now }
        requires class { class < CLASSES }
        ensures slots { result ≡ slots_of (needs self.now.traffic.now class) self.now.pitch }
        ensures few { result < 2 ^ 61 }
    {
        slots_for(self.need_of(class), self.pitch)
    }

    /// How many slots the frames of the higher classes cover at most that start within a time, or a limit.
    fn above_within(&self, time: u128, limit: u128) -> u128
        requires place { IsPlace self.now }
        requires time { time < 2 ^ 100 }
        requires limit { limit ≤ 2 ^ 64 }
        ensures { result ≡ min (above_of self.now time) limit }
    {
        let mut slots = 0;
        for class in self.higher {
            let starts = starts_within(&self.traffic[*class as usize], self.pitch, time, limit);
            slots = (slots + starts).min(limit);
        }
        slots
    }

    /// How many slots more are before the one for so many frames, at least, than before one that begins so long after the
    /// first moment; 0: that is one for them.
    pub fn missing(&self, frames: u128, behind: u128, time: u128) -> u128
        requires place { IsPlace self.now }
        requires frames { (0 < frames) × (frames < 2 ^ 64) }
        requires behind { behind < 2 ^ 64 }
        requires time { time < 2 ^ 100 }
        ensures none { result ≡ 0 →
            own_slots self.now * (frames - 1) + above_of self.now time ≤ behind }
        ensures some { 0 < result →
            behind + result ≤ own_slots self.now * (frames - 1) + above_of self.now time }
        ensures few { result < 2 ^ 126 }
    {
        let own = self.slots_of(self.class) * (frames - 1);
        let above = self.above_within(time, 1 << 64);
        (own + above).saturating_sub(behind)
    }
}
