//! Laws of the abstract port. The functions run nothing: the contract of each is its law.
ghost use Rattle.abstract_port.specs.Laws.{StartsLaw, TurnLaw, WireLaw};
ghost use Rattle.abstract_port.specs.Tally.{CountingLaw, ToldLaw, UnclassedLaw};

/// The starts before a moment come one by one.
pub fn starts_law()
    ensures { StartsLaw }
{}

/// Each start of a clock event is at a moment at which the wire is free, by a gate that is open up to its end by the
/// history of that time.
pub fn turn_law()
    ensures { TurnLaw }
{}

/// In a run no start is before the wire is free.
pub fn wire_law()
    ensures { WireLaw }
{}

/// After a run each counter is the number at its beginning plus the count over the answers, at most the greatest u64;
/// for the octets, over the frames that started. So is the count of frames without a class.
pub fn counting_law()
    ensures counting { CountingLaw }
    ensures unclassed { UnclassedLaw }
    ensures told { ToldLaw }
{}
