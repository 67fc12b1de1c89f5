//! What bounds from end to end are worth in every run of a network of ports.
//!
//! There is nothing to run here: a network and its runs are specs/Network.antt, the claim is specs/NetworkClaim.antt,
//! and the functions' contracts say that it holds.
ghost use Rattle.claims.specs.Cycles.{CyclesClaim};
ghost use Rattle.claims.specs.NetworkClaim.{NetworkClaim, NetworkLaw};
ghost use Rattle.claims.specs.NetworkRuns.{NetworkRunsExist, PremisesAreMet};
ghost use Rattle.claims.specs.Priority.{PriorityPromise};
ghost use Rattle.claims.specs.Promise.{CurvePromise, SilentPromise, WindowPromise};

/// In every run of a network each frame of a class that is judged comes to its port in the window told, none is dropped,
/// and each starts and ends within its bounds: where each such class keeps a promise that speaks of its port alone. Those
/// do that are judged by windows, by an arrival curve, or by priority, each by the claim for one port. And there are runs
/// in which a frame goes from one port to another.
pub fn claims()
    ensures law { NetworkLaw }
    ensures silent { SilentPromise }
    ensures windows { WindowPromise }
    ensures curves { CurvePromise }
    ensures priority { PriorityPromise }
    ensures network { NetworkClaim }
    ensures cycles { CyclesClaim }
    ensures runs { NetworkRunsExist }
    ensures met { PremisesAreMet }
{
    crate::late_claim::claims();
    crate::shared_claim::claims();
}
