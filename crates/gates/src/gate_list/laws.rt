//! Laws of the definitions that the contracts cite. There is nothing to run here: a function's contract is its law.
ghost use Rattle.std.specs.Prelude.{ℕ, ◌<◌, ◌^◌, List, All};
ghost use Rattle.gates.specs.declared.gate_list.Entry.{Entry};
ghost use Rattle.gates.specs.Gate.{Plan, IsPlan};
ghost use Rattle.gates.specs.ListLaws.{PhaseLaw, ChangeLaw, ApartLaw};
ghost use Rattle.gates.specs.Stay.{StayLaw};
ghost use Rattle.wire_time.specs.declared.TheConstants.{CLASSES};

/// A list shows the mask of the one entry that the phase falls in: past them all the last.
pub fn phase_law()
    ensures { (entries : List Entry) → PhaseLaw entries }
{}

/// The change moment is the least of base, base + cycle, base + 2 cycles, .. that is at or after the lead moment.
pub fn change_law()
    ensures { (plan : Plan) (lead : ℕ) → 0 < plan.cycle → ChangeLaw plan lead }
{}

/// A class is kept apart just where every entry that opens it opens none of the other seven, masks being of eight bits.
pub fn apart_law()
    ensures { (entries : List Entry) (class : ℕ) → class < CLASSES →
        All (λ e. e.mask < 2 ^ CLASSES) entries → ApartLaw entries class }
{}

/// Of a schedule alone: a class stays open just as long as its stay.
pub fn stay_law()
    ensures { (plan : Plan) → IsPlan plan → StayLaw plan }
{}
