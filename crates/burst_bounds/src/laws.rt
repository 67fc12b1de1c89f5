//! Laws that the bounds stand on.
//!
//! There is nothing to run here: a function's contract is its law.

ghost use Rattle.burst_bounds.specs.Laws.{MomentsLaw};
ghost use Rattle.burst_bounds.specs.Overload.{OverloadLaw};

/// Bounds that hold from the moments that are looked at hold from all.
pub fn moments()
    ensures { MomentsLaw }
{}

/// A class that is overloaded has no bounds.
pub fn overload()
    ensures { OverloadLaw }
{}
