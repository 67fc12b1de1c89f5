//! Separation: what a class sees of a port does not depend on the other classes' frames.
//!
//! The definitions are specs/Separation.antt, specs/Hindsight.antt, specs/Settled.antt and specs/Promises.antt;
//! each law is the contract of the function of its name.
ghost use Rattle.abstract_port.specs.Hindsight.{IsHindsight};
ghost use Rattle.abstract_port.specs.Promises.{IsKeepingPromises};
ghost use Rattle.abstract_port.specs.Separation.{IsNoting, IsSeparation};
ghost use Rattle.abstract_port.specs.Served.{ServedLaw};
ghost use Rattle.abstract_port.specs.Settled.{IsSettling};

/// Nothing to run: its contract is the law of separation.
pub fn separation()
    ensures noting { IsNoting }
    ensures law { IsSeparation }
{}

/// Nothing to run: its contract is the law of hindsight.
pub fn hindsight()
    ensures { IsHindsight }
{}

/// Nothing to run: its contract is the law of settling.
pub fn settling()
    ensures { IsSettling }
{}

/// Nothing to run: its contract is the law of what every run of a new port keeps: each start by an open gate, by the
/// history of its time and by that at the end; one frame on the wire at a time; and counters that are the counts over
/// the events.
pub fn keeping_promises()
    ensures { IsKeepingPromises }
{}

/// Nothing to run: its contract is the law of service: each frame of a class that is kept apart starts as soon as its
/// gate is open for as long as it takes, from its arrival on and from when the frame of its class before it has left
/// the wire.
pub fn served()
    ensures { ServedLaw }
{}
