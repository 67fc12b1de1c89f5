//! Laws of comparisons. There is nothing to run: the contract of each function is its law.

ghost use Rattle.compare.specs.Law.{TellsApart};

/// The law that the keys of records that are compared by payload are the same just where their octets are.
pub fn payload_law()
    ensures { TellsApart }
{}
