//! Laws of what a schedule gives a class. The functions run nothing: the contract of each is its law.

ghost use Rattle.std.specs.Prelude.{◌≡◌, ◌<◌, ◌^◌, ◌↔◌, ℕ, IsTrue, not, true};
ghost use Rattle.schedule_check.specs.Words.{Plan, in_ps, opens, IsTeller, Teller, alone, open_total, share_windows, turned_mask, CLASSES};
ghost use Rattle.shared_bounds.specs.Sharing.{Share};

/// A turned mask opens just the classes that the mask closes, of the eight of a mask of eight bits.
pub fn turned_masks()
    ensures { (mask class : ℕ) → mask < 2 ^ CLASSES → class < CLASSES →
        opens (turned_mask mask) class ≡ not (opens mask class) }
{}

/// There is a function that says of each plan with a cycle what it gives each class at each rate, and just one.
pub fn one_teller()
    ensures some { (tell : Teller) × IsTeller tell }
    ensures one { (tell other : Teller) → IsTeller tell → IsTeller other →
        (ps : ℕ) (plan : Plan) (class : ℕ) → 0 < plan.cycle →
        tell ps plan class ≡ other ps plan class }
{}

/// Two classes share windows in a cycle just where they do at all: at some moment both are open.
pub fn shared_windows()
    ensures { (plan : Plan) (class other : ℕ) → 0 < plan.cycle →
        IsTrue (share_windows plan class other) ↔ Share plan class other }
{}

/// A class is ever open just where it is for some part of a cycle.
pub fn ever_open()
    ensures { (plan : Plan) (class : ℕ) → 0 < plan.cycle →
        ((m : ℕ) × (opens (alone plan m) class ≡ true))
        ↔ (0 < open_total (alone plan) class (in_ps plan.cycle)) }
{}
