//! Laws of captures that are translated. There is nothing to run: the contract of each function is its law.

ghost use Rattle.pcapng.specs.Spelled.{IsReadBack};
ghost use Rattle.pcapng.specs.WithoutFcs.{IsCutSpelling};

use crate::to_classic::PcapngToClassic;
use crate::without_fcs::WithoutFcs;

/// The law that a capture in pcapng that is spelled, in either order of octets, comes to the classic one of the same
/// records, with their moments rounded down to a nanosecond.
pub fn spelling_law(new: &PcapngToClassic)
    ensures { IsReadBack new.now }
{}

/// The law that of a classic capture that is spelled, in either order and resolution, each record comes without the last 4
/// octets of its frame, and all else as it was.
pub fn cut_law(new: &WithoutFcs)
    ensures { IsCutSpelling new.now }
{}
