//! Why a call can't go on, whatever the inputs say.

ghost use Rattle.std.specs.Prelude.{◌≡◌};
ghost use Rattle.job.specs.Halts.{fault_of_halt, halted};

use crate::fault::Fault;
use text::octet_writer::WriteFault;

/// Why a call can't go on, whatever the inputs say.
#[derive(Clone, Copy, Debug, PartialEq, Eq)]
pub enum Halt {
    /// A write failed, or took nothing.
    Write,
    /// Out of memory.
    Memory,
}

/// The end of a write, as a call says it that may halt for other reasons, too.
#[inline(always)]
pub fn halted(written: Result<(), WriteFault>) -> Result<(), Halt>
    ensures { result ≡ halted written }
{
    match written {
        Ok(()) => Ok(()),
        Err(_) => Err(Halt::Write),
    }
}

impl<I> From<Halt> for Fault<I> {
    ghost from_gives = { λ h e. e ≡ fault_of_halt h };

    fn from(halt: Halt) -> Fault<I> {
        match halt {
            Halt::Write => Fault::Write,
            Halt::Memory => Fault::Memory,
        }
    }
}
