//! What is reported of the fault of an input.

ghost use Rattle.std.specs.Prelude.{◌≡◌, ℕ};
ghost use Rattle.text.specs.declared.line_reader.lines.Limit.{Limit};
ghost use Rattle.text.specs.Writes.{Writes};
ghost use Rattle.job.specs.Report.{Telling};
ghost use Rattle.job.specs.declared.kind.FaultKind.{FaultKind};

use crate::kind::FaultKind;
use std::io::Write;
use text::line_reader::Limit;
use text::octet_writer::WriteFault;

/// A fault of an input of a job.
pub trait InputFault: Copy {
    /// Its text, and the exit status that goes with it.
    ghost telling: { Telling Self };

    /// What it is.
    ghost kind_of: { Self → FaultKind };

    /// The exit status that goes with it.
    fn status(&self) -> u8
        ensures { result ≡ telling.status self.now };

    /// What it is.
    fn kind(&self) -> FaultKind
        ensures { result ≡ kind_of self.now };

    /// Writes its text.
    fn put<W: Write>(&self, writer: &mut W) -> Result<(), WriteFault>
        ensures { Writes result (W.contents writer.old) (W.contents writer.new)
            (telling.text self.now) };
}

/// A fault of an input that is read line by line, and whose lines may pass a limit.
pub trait LineInput: InputFault {
    /// The fault where the line of a number passes a limit.
    ghost limited: { ℕ → Limit → Self };

    /// The fault where the line of this number passes a limit.
    fn of_limit(line: u32, limit: Limit) -> Self
        ensures { result ≡ limited line limit };
}
