//! What is told of the streams that go through several ports is what a claim about all runs of a network asks.
//!
//! There is nothing to run here. How a window follows from that at the port before is specs/Windows.antt; what the
//! answer about a class is worth, where the port's schedule keeps the class apart, is specs/Apart.antt; that all windows
//! follow from one another, once classes are judged, is specs/Linked.antt, and that what is told of a class stays as it
//! was is specs/Answered.antt; that it is judged after those from which its frames come is specs/Earlier.antt.
//! So a network of which all is told is one of which the claim speaks: specs/Networks.antt, and specs/PathClaim.antt.
//! What is told of the end of a way is specs/Ends.antt. The network that is found is one of those (specs/Built.antt), by
//! what readers give (specs/Read.antt): and so what is found of it holds in every run, specs/Found.antt.
#![tactic(auto)]

ghost use Rattle.path_claim.specs.Answered.{AnsweredLaw};
ghost use Rattle.path_claim.specs.Apart.{ApartLaw};
ghost use Rattle.path_claim.specs.Built.{BuiltLaw, WholeLaw};
ghost use Rattle.path_claim.specs.Earlier.{EarlierLaw};
ghost use Rattle.path_claim.specs.Ends.{EarliestLaw, EndLaw, SoonerLaw};
ghost use Rattle.path_claim.specs.Found.{FoundClaim};
ghost use Rattle.path_claim.specs.Linked.{LinkedLaw};
ghost use Rattle.path_claim.specs.Networks.{ToldLaw};
ghost use Rattle.path_claim.specs.PathClaim.{PathClaim};
ghost use Rattle.path_claim.specs.Read.{ReadSentLaw, ReadSmallLaw};
ghost use Rattle.path_claim.specs.Sent.{SoundLaw};
ghost use Rattle.path_claim.specs.Windows.{BeginsLaw, EndsLaw};

/// A window that is told of a hop begins no later than the first frame may come from the port before, and ends no sooner
/// than the last, by whole sums: no sum is cut off at what 128 bits hold.
pub fn window_law()
    ensures begins { BeginsLaw }
    ensures ends { EndsLaw }
{}

/// A class that a port's schedule keeps apart is judged as a network's class has to be, by windows or by an arrival curve,
/// where its answer has bounds for all of its streams, as the port gets them.
pub fn apart_law()
    ensures { ApartLaw }
{}

/// In all that is told of hops once classes are judged one after another, a window at a first port begins with the nominal
/// moment, and each other one is told by the hop before, with the window and the bounds that this has in the end.
pub fn linked_law()
    ensures { LinkedLaw }
{}

/// What is told in the end of a class that was judged is what was then: the windows of its hops, their bounds, which are
/// those of the answer, and the answer about its streams, as the port gets them. So are the higher classes that share
/// its windows, beside which it was judged.
pub fn answered_law()
    ensures { AnsweredLaw }
{}

/// A class is judged after all classes from which its frames come: in the order in which classes are judged, each hop
/// before one of its hops that has a window is of a class that stands before it.
pub fn earlier_law()
    ensures { EarlierLaw }
{}

/// A network of which all is told, once its classes were judged one after another, is told in the sense of the claim for
/// networks: windows follow from one another, and classes depend on those that were judged before them.
pub fn told_law()
    ensures { ToldLaw }
{}

/// Of each hop with a window its port takes all frames of the stream into the class that is told, and the window is one
/// that is counted.
pub fn sound_law()
    ensures { SoundLaw }
{}

/// No bound that is known once classes were judged one after another is cut off at what 128 bits hold.
pub fn whole_law()
    ensures { WholeLaw }
{}

/// What is known once classes were judged one after another is told of a network: that with these ports, streams and
/// classes. Each hop with a window and bounds is in it. That is so where each port of a way is there, and its hops are of
/// one stream.
pub fn built_law()
    ensures { BuiltLaw }
{}

/// Streams, links and ports as the readers of a network give them are such as is asked here: frames of a stream come one
/// after another, and no sum of what is told comes near what 128 bits hold.
pub fn read_law()
    ensures sent { ReadSentLaw }
    ensures small { ReadSmallLaw }
{}

/// In every run of a network of which all is told, once its classes were judged one after another, those that are judged
/// keep time: where the classes that share windows are judged by priority.
pub fn path_claim()
    ensures { PathClaim }
{
    claims::network_claim::claims();
}

/// Each frame of a hop that is told, of a class that keeps time, has ended as is told of the end of its way.
pub fn end_law()
    ensures { EndLaw }
{}

/// It has ended no sooner than is told, also where that is before the nominal moment: by whole sums.
pub fn sooner_law()
    ensures { SoonerLaw }
{}

/// No window begins before the nominal moment, where clocks differ by no more than a frame takes from port to port: so no
/// least end of a way is cut off at 0.
pub fn earliest_law()
    ensures { EarliestLaw }
{}

/// What is found of a network that is read holds in every run of the network that is found: classes with bounds keep time,
/// and frames end as is told. Those that share windows are judged by priority there.
pub fn found_claim()
    ensures { FoundClaim }
{
    claims::network_claim::claims();
}
