//! Why a replay ends early.

ghost use Rattle.std.specs.Prelude.{◌≡◌};
ghost use Rattle.replay.specs.Words.{fault_of_stop, script_limited};
ghost use Rattle.replay.specs.declared.faults.Stop.TheVariants as Stops;

use capture::CapFault;
use job::{Fault, LineInput};
use port_text::answer_text::WriteFault;
use script::BadLine;
use std::alloc::AllocError;
use text::line_reader::Limit;
use thiserror::Error;

/// What is wrong with the inputs of a replay.
#[derive(Clone, Copy, Debug, PartialEq, Eq, Error)]
pub enum ReplayInput {
    /// The moment to run to is over the greatest, `CAPTURE_END`. Nothing was read or written.
    #[error("the moment to run to is too late")]
    Until,
    /// A line of the script has a fault. Nothing was written.
    #[error("{0}")]
    Script(BadLine),
    /// The file header of the capture (with number 0), or its record of this number from 0, has this fault. At a fault
    /// of the header nothing was written, at one of a record all of what the records before it, the whole script and
    /// its end give.
    #[error("record {0} of the capture: {1:?}")]
    Capture(u32, CapFault),
}

/// Why a replay ended early.
pub type ReplayFault = Fault<ReplayInput>;

impl LineInput for ReplayInput {
    ghost limited = { script_limited };

    fn of_limit(line: u32, limit: Limit) -> ReplayInput {
        ReplayInput::Script(BadLine::of_limit(line, limit))
    }
}

/// Why a replay stops where it stands, whatever its inputs say.
#[derive(Clone, Copy, Debug, PartialEq, Eq)]
pub enum Stop {
    /// A read failed.
    Read,
    /// A write failed, or took nothing.
    Write,
    /// Out of memory.
    Memory,
}

impl From<WriteFault> for Stop {
    ghost from_gives = { λ _ e. e ≡ Stops.Write };

    fn from(_fault: WriteFault) -> Stop {
        Stop::Write
    }
}

impl From<AllocError> for Stop {
    ghost from_gives = { λ _ e. e ≡ Stops.Memory };

    fn from(_error: AllocError) -> Stop {
        Stop::Memory
    }
}

impl From<Stop> for Fault<ReplayInput> {
    ghost from_gives = { λ s e. e ≡ fault_of_stop s };

    fn from(stop: Stop) -> Fault<ReplayInput> {
        match stop {
            Stop::Read => Fault::Read,
            Stop::Write => Fault::Write,
            Stop::Memory => Fault::Memory,
        }
    }
}
