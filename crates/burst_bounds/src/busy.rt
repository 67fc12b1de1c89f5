//! The busy time from a moment on: the frames that come one behind another before the wire is idle, each as early as it
//! may, and each sent at its slot.

ghost use Rattle.std.specs.Prelude.{◌≡◌, ℕ, ◌<◌, ◌≤◌, ◌+◌, ◌-◌, ◌⊎◌, MatchOption, length, slice_index};
ghost use Rattle.wire_time.specs.Moment.{greatest_moment};
ghost use Rattle.burst_bounds.specs.Walk.{AreBelow};
ghost use Rattle.burst_bounds.specs.Busy.{IsBusyUntil, IsIdleBehind, IsLongest, IsMost, Rises};

/// How many frames come before the wire is idle, where it is seen to be.
pub fn busy_frames(slots: &[u128], moments: &[u128], from: u128, need: u128) -> Option<usize>
    requires slots { AreBelow 100 slots.now }
    requires moments { AreBelow 120 moments.now }
    requires from { from ≤ greatest_moment }
    requires need { need ≤ greatest_moment }
    ensures { MatchOption result (IsBusyUntil need from slots.now moments.now)
        (IsIdleBehind need from slots.now moments.now) }
{
    let mut frames = 1;
    while frames < moments.len() && frames <= slots.len() {
        if slots[frames - 1] + need <= from + moments[frames] {
            return Some(frames);
        }
        frames += 1;
    }
    None
}

/// The longest wait of so many frames.
pub fn longest_wait(slots: &[u128], moments: &[u128], from: u128, frames: usize) -> u128
    requires slots { AreBelow 100 slots.now }
    requires moments { AreBelow 120 moments.now }
    requires from { from ≤ greatest_moment }
    requires within { (frames ≤ length slots.now) × (frames ≤ length moments.now) }
    ensures { IsLongest from slots.now moments.now frames result }
{
    let mut wait = 0;
    for i in 0..frames {
        wait = slots[i].saturating_sub(from + moments[i]).max(wait);
    }
    wait
}

/// How many slots are before a moment, where so many are known to be.
fn begun_by(slots: &[u128], known: usize, moment: u128) -> usize
    requires { known ≤ length slots.now }
    ensures from { known ≤ result }
    ensures within { result ≤ length slots.now }
    ensures before { (i : ℕ) → known ≤ i → i < result → slice_index slots.now i < moment }
    ensures at { result < length slots.now → moment ≤ slice_index slots.now result }
{
    let mut begun = known;
    while begun < slots.len() && slots[begun] < moment {
        begun += 1;
    }
    begun
}

/// The greatest number of so many frames that wait at once.
pub fn most_waiting(slots: &[u128], moments: &[u128], from: u128, frames: usize) -> usize
    requires moments { AreBelow 120 moments.now }
    requires rises { Rises moments.now }
    requires from { from ≤ greatest_moment }
    requires within { (frames ≤ length slots.now) × (frames ≤ length moments.now) }
    ensures { IsMost from slots.now moments.now frames result }
{
    let mut most = 0;
    let mut begun = 0;
    for i in 0..frames {
        begun = begun_by(slots, begun, from + moments[i]);
        most = (i + 1).saturating_sub(begun).max(most);
    }
    most
}
