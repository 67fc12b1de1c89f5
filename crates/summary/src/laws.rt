//! A law of what is seen. The function runs nothing: its contract is the law.

ghost use Rattle.summary.specs.Pace.{PaceLaw};

/// On a new port as many arrival moments are kept of each class as frames of it wait, after every list of events: the
/// room for as many as the port has room for is enough, and no arrival goes unnoted.
pub fn every_arrival_is_noted()
    ensures { PaceLaw }
{}
