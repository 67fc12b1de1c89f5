//! Why a run of a job ends early.

ghost use Rattle.std.specs.Prelude.{◌≡◌};
ghost use Rattle.job.specs.Lines.{fault_of_line};
ghost use Rattle.job.specs.declared.fault.Fault.TheVariants as Faults;

use crate::input::LineInput;
use std::alloc::AllocError;
use std::error::Error;
use std::fmt::{self, Debug, Display};
use text::line_reader::LineFault;
use text::octet_writer::WriteFault;

/// Why a run of a job ended early: the fault of an input, which is the job's own; or a call failed. What was written is
/// then a prefix of the right output, and all of it at the fault of an input.
#[derive(Clone, Copy, Debug, PartialEq, Eq)]
pub enum Fault<I> {
    /// An input has this fault.
    Input(I),
    /// A read failed.
    Read,
    /// A write failed, or took nothing.
    Write,
    /// Out of memory.
    Memory,
}

impl<I> From<WriteFault> for Fault<I> {
    ghost from_gives = { λ _ e. e ≡ Faults.Write };

    fn from(_fault: WriteFault) -> Fault<I> {
        Fault::Write
    }
}

impl<I> From<AllocError> for Fault<I> {
    ghost from_gives = { λ _ e. e ≡ Faults.Memory };

    fn from(_error: AllocError) -> Fault<I> {
        Fault::Memory
    }
}

impl<I: LineInput> From<LineFault> for Fault<I> {
    ghost from_gives = { λ l e. e ≡ fault_of_line I.limited l };

    fn from(fault: LineFault) -> Fault<I> {
        match fault {
            LineFault::Limit(line, limit) => Fault::Input(I::of_limit(line, limit)),
            LineFault::Read => Fault::Read,
        }
    }
}

impl<I: Display> Display for Fault<I> {
    fn fmt<W: fmt::Write>(&self, f: &mut fmt::Formatter<W>) -> fmt::Result {
        match self {
            Fault::Input(fault) => fault.fmt(f),
            Fault::Read => f.write_str("a read failed"),
            Fault::Write => f.write_str("a write failed"),
            Fault::Memory => f.write_str("out of memory"),
        }
    }
}

impl<I: Debug + Display + Drop> Error for Fault<I> {}
