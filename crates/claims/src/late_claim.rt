//! What bounds of frames that come late, or at any moments, are worth in every run of a port; and that there are such
//! runs.
//!
//! There is nothing to run here: the claim is specs/LateClaim.antt, and the function's contract says that it holds.
ghost use Rattle.claims.specs.LateClaim.{CurveClaim, LateRunsExist, WindowClaim};
ghost use Rattle.claims.specs.WindowsReached.{GreatestReachedLaw, GreatestRunsExist, WindowsReachedLaw};

/// The claim of windows, the claim of any moments, and that there are runs of which both speak: for each schedule that a
/// new port accepts and that keeps the class apart, all flows whose longest frames the port takes into the class, and as
/// many of their frames as come while its clock goes.
pub fn claims()
    ensures windows { WindowClaim }
    ensures any_moments { CurveClaim }
    ensures runs { LateRunsExist }
{}

/// A bound of windows is reached, where all frames have one length: a frame that a run delays the most starts exactly at
/// its late start, so that the greatest time of each flow is one of its frames', and such runs exist as far as a port's
/// clock goes.
pub fn reached()
    ensures always { WindowsReachedLaw }
    ensures greatest { GreatestReachedLaw }
    ensures runs { GreatestRunsExist }
{}
