//! The law of the word `via`. The function runs nothing: its contract is its law.
ghost use Rattle.network.specs.ViaLaw.{ViaLaw};

/// A stream's line is cut between two words, of which the second is `via`.
pub fn via_law()
    ensures { ViaLaw }
{}
