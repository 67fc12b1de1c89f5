//! Laws that the bounds stand on.
//!
//! There is nothing to run here: a function's contract is its law.

ghost use Rattle.shared_bounds.specs.Least.{BlockingLaw, LeastLaw};

/// The least blocking is one of the plan, and no other is less.
pub fn least_blocking()
    ensures { BlockingLaw }
{}

/// The least bounds hold in every run.
pub fn every_run()
    ensures { LeastLaw }
{}
