//! Laws of the definitions that the contracts cite. There is nothing to run here: a function's contract is its law.
ghost use Rattle.delay_bounds.specs.AnyMoment.{AnyMomentLaw};
ghost use Rattle.delay_bounds.specs.Bounds.{EveryRunLaw};
ghost use Rattle.delay_bounds.specs.Claim.{AnswerLaw};
ghost use Rattle.delay_bounds.specs.ForEver.{ForEverLaw};
ghost use Rattle.delay_bounds.specs.Full.{FullLaw};
ghost use Rattle.delay_bounds.specs.Less.{LessLaw};
ghost use Rattle.delay_bounds.specs.LongestWait.{LongestWaitLaw};
ghost use Rattle.delay_bounds.specs.Never.{NeverLaw, StuckLaw};
ghost use Rattle.delay_bounds.specs.Overloaded.{OverloadLaw};
ghost use Rattle.delay_bounds.specs.Waits.{BoundsLaw, DropsLaw};
ghost use Rattle.delay_bounds.specs.Walked.{PlanLaw, bounds_answered};

/// What `bound_flows` answers is worth this in every run, whatever the other classes send: the whole claim
/// (specs/Claim.antt).
pub fn answers()
    ensures { AnswerLaw bounds_answered }
{}

/// What `bound_flows` answers says this of the plan alone.
pub fn by_plan()
    ensures { PlanLaw }
{}

/// Where after some frames of the flows it is as it was before, so much later, what is told of every frame, for ever,
/// is what is told of one of the first.
pub fn for_ever()
    ensures { ForEverLaw }
{}

/// Bounds of flows, which speak of a plan alone, hold in every run, whatever the other classes send.
pub fn every_run()
    ensures { EveryRunLaw }
{}

/// In every run each frame of the flows that starts has waited as long as it does by the plan alone.
pub fn waits()
    ensures { BoundsLaw }
{}

/// In every run no frame of the flows is dropped, where none is by the plan alone.
pub fn drops()
    ensures { DropsLaw }
{}

/// In every run the first frame of the flows that finds no room by the plan alone is dropped, and none before it.
pub fn full()
    ensures { FullLaw }
{}

/// In every run a frame of the flows that fits into no window of one cycle never starts, nor does any behind it.
pub fn never()
    ensures { NeverLaw }
{}

/// Where nothing starts any more, in every run the frame of the flows that then is the first to find no room is
/// dropped, and none before it.
pub fn stuck()
    ensures { StuckLaw }
{}

/// Where the class is overloaded, a frame of the flows finds no room at last, whatever the room: in every run it is
/// dropped, and none before it.
pub fn overload()
    ensures { OverloadLaw }
{}

/// Frames that are left out, shorter or earlier, in their order, make no frame start later.
pub fn less()
    ensures { LessLaw }
{}

/// A frame that comes at any moment, when no other of its class waits or is sent, starts within the longest wait of the
/// schedule alone.
pub fn any_moment()
    ensures { AnyMomentLaw }
{}

/// What `longest_wait` answers is the longest wait over all time of the schedule alone, or there is no moment from which
/// a window is long enough.
pub fn longest()
    ensures { LongestWaitLaw }
{}
