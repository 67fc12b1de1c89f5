//! What bounds of classes that share their windows are worth in every run of a port; and that there are such runs.
//!
//! There is nothing to run here: the claim is specs/SharedClaim.antt, and the function's contract says that it holds.
ghost use Rattle.claims.specs.OtherClasses.{LimitLaw, MtuLaw, OthersLaw, UnledLaw};
ghost use Rattle.claims.specs.SharedClaim.{SharedClaim};
ghost use Rattle.claims.specs.SharedPremises.{PremisesAreMet, SharedRunsExist};

/// The claim of shared windows. What it asks of other classes is a matter of what comes, and a port takes no frame that
/// is too long. There are runs of which it speaks: for each schedule that a new port accepts, with all frames that it
/// takes and that come as the claim asks. And all of it is met at once.
pub fn claims()
    ensures shared { SharedClaim }
    ensures others { OthersLaw }
    ensures mtu { MtuLaw }
    ensures limits { LimitLaw }
    ensures unled { UnledLaw }
    ensures runs { SharedRunsExist }
    ensures met { PremisesAreMet }
{}
