//! What is wrong with a table of streams or a script, and the texts that say so.

ghost use Rattle.std.specs.Prelude.{◌≡◌};
ghost use Rattle.traffic.specs.Faults.{streams_kind};
ghost use Rattle.traffic.specs.Words.{script_fault, streams_telling, table_fault};

use job::{Fault, FaultKind, InputFault};
use port_text::answer_text::WriteFault;
use script::{RunFault, ScriptFault, limit_fault, put_line_fault};
use std::io::Write;
use text::line_reader::LineFault;
use thiserror::Error;

/// What is wrong with a table of streams and a script.
#[derive(Clone, Copy, Debug, PartialEq, Eq, Error)]
pub enum StreamsInput {
    /// The line of the table of this number, counted in physical lines from 1, has this fault. Nothing is written.
    #[error("line {0} of the table: {1:?}")]
    Table(u32, ScriptFault),
    /// The line of the script of this number, counted in physical lines from 1, passes this limit. What comes before it
    /// is written.
    #[error("line {0} of the script: {1:?}")]
    Script(u32, ScriptFault),
}

/// Why a run on a table of streams and a script ended early.
pub type StreamsFault = Fault<StreamsInput>;

/// A fault that reading a table has, as one of the job.
pub fn table_fault(fault: RunFault) -> StreamsFault
    ensures { result ≡ table_fault fault }
{
    match fault {
        Fault::Input(bad) => Fault::Input(StreamsInput::Table(bad.line, bad.fault)),
        Fault::Read => Fault::Read,
        Fault::Write => Fault::Write,
        Fault::Memory => Fault::Memory,
    }
}

/// The fault of a script whose line can't be read.
pub(crate) fn script_fault(fault: LineFault) -> StreamsFault
    ensures { result ≡ script_fault fault }
{
    match fault {
        LineFault::Limit(line, limit) => Fault::Input(StreamsInput::Script(
            line,
            limit_fault(limit),
        )),
        LineFault::Read => Fault::Read,
    }
}

impl InputFault for StreamsInput {
    ghost telling = { streams_telling };

    ghost kind_of = { streams_kind };

    fn status(&self) -> u8 {
        3
    }

    fn kind(&self) -> FaultKind {
        match *self {
            StreamsInput::Table(_, fault) => FaultKind::Line(fault.kind_in_table()),
            StreamsInput::Script(_, fault) => FaultKind::Line(fault.kind()),
        }
    }

    fn put<W: Write>(&self, writer: &mut W) -> Result<(), WriteFault> {
        match *self {
            StreamsInput::Table(line, fault) => {
                put_line_fault(writer, b"taprio_port: table line ", line, fault)
            }
            StreamsInput::Script(line, fault) => {
                put_line_fault(writer, b"taprio_port: script line ", line, fault)
            }
        }
    }
}
