//! Laws of histories. The functions run nothing: the contract of each is its law.
ghost use Rattle.std.specs.Prelude.{◌≡◌, ℕ, ◌<◌, ◌≤◌, List, None};
ghost use Rattle.gates.specs.History.{Accepted, announced, IsSound, IsRising, ArePast};
ghost use Rattle.gates.specs.HistoryLaws.{KeptLaw, AppendLaw, HindsightLaw, StretchLaw, FurtherLaw};

/// What is kept of a history shows the same from then on.
pub fn kept_law()
    ensures { (e m : ℕ) (h : List Accepted) → IsRising e h → ArePast m h → KeptLaw e m h }
{}

/// A new command may follow what is kept.
pub fn append_law()
    ensures { (e m : ℕ) (h : List Accepted) (x : Accepted) → IsRising e h → ArePast m h →
        announced h m ≡ None → e ≤ m → m < x.lead → IsSound x → AppendLaw e m h x }
{}

/// A command changes no gate before its lead moment.
pub fn hindsight_law()
    ensures { HindsightLaw }
{}

/// The gates from now on are those of at most three stretches.
pub fn stretch_law()
    ensures { (e m : ℕ) (h : List Accepted) → IsRising e h → ArePast m h → StretchLaw m h }
{}

/// Later commands change nothing that ends before their lead moments.
pub fn further_law()
    ensures { FurtherLaw }
{}
