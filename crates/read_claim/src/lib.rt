//! What is found of the ways of a network's streams holds in every run, of each network that is read.
//!
//! There is nothing to run here. The claim is specs/ReadClaim.antt: it asks of a network that its text has no fault and
//! that no port refuses its schedule, and of what is known that all classes were judged. So it is with all that `paths`
//! answers.
#![tactic(auto)]

ghost use Rattle.read_claim.specs.ReadClaim.{MadeReadLaw, MadeWaysLaw, ReadClaim, RunClaim};

use stream_bounds::BoundsSettings;

/// What is made of a network that is read is such as the claim for it asks. Each port of a way is one of the network's,
/// and all hops of a way are of one stream. Streams, links, clocks and ports have no times but those that lines and
/// settings may say, and all hops are so few that no sum of what is told comes near what 128 bits hold.
pub fn made_law(settings: &BoundsSettings)
    ensures ways { MadeWaysLaw settings.now }
    ensures read { MadeReadLaw settings.now }
{
    let _rate = settings.port.rate().ps_per_octet();
    let _mtu = settings.port.mtu();
}

/// What is found of a network that is read holds in every run: classes with bounds keep time, and frames end as is told.
/// So a run of `paths` stops where a call fails, or ends with a fault of its inputs, or writes what holds.
pub fn read_claim(settings: &BoundsSettings)
    ensures each { ReadClaim settings.now }
    ensures runs { RunClaim settings.now }
{
    made_law(settings);
    path_claim::found_claim();
}
