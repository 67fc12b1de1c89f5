//! Why a run ends early, what a strict run stops for, and the texts that say so.

ghost use Rattle.std.specs.Prelude.{◌≡◌};
ghost use Rattle.text.specs.Writes.{Writes};
ghost use Rattle.stream_bounds.specs.Faults.{bounds_kind, bounds_telling, finding_kind, finding_text, first_text, found_text, schedules_fault, schedules_limited, schedules_text, table_fault};

use job::{Fault, FaultKind, InputFault, LineInput};
use port_text::answer_text::{Part, WriteFault, put, put_parts};
use script::{RunFault, ScriptFault, limit_fault, put_line_fault};
use std::io::Write;
use text::line_reader::{Limit, LineFault};
use thiserror::Error;

/// What a strict run stops a build for.
#[derive(Clone, Copy, Debug, PartialEq, Eq)]
pub enum Finding {
    /// The line of the schedules of this number is no command.
    TcFault(u32),
    /// The command of the line of this number is refused.
    Refused(u32),
    /// The deadline of the stream with this first id is missed.
    Missed(u64),
    /// Whether the deadline of the stream with this first id is met is not known.
    Unknown(u64),
    /// Each frame of the stream with this first id, which has no deadline, is dropped when it comes.
    Dropped(u64),
    /// A frame of this class, none of whose streams is found before, finds its queue full.
    Full(u8),
    /// A frame of this class, none of whose streams is found before, never starts.
    Stuck(u8),
    /// The backlog of this class, none of whose streams is found before, grows for ever.
    Overloaded(u8),
    /// No schedule was judged: no command was accepted.
    NoSchedule,
    /// The table has no stream.
    NoStream,
}

/// What was answered about commands: the first finding, and whether a schedule was judged.
#[derive(Clone, Copy, Debug, PartialEq, Eq)]
pub struct Answered {
    /// What was found first.
    pub finding: Option<Finding>,
    /// Whether a schedule was accepted, and answered about.
    pub judged: bool,
}

/// What is wrong with a table of streams and schedules.
#[derive(Clone, Copy, Debug, PartialEq, Eq, Error)]
pub enum BoundsInput {
    /// The line of the table of this number, counted in physical lines from 1, has this fault. Nothing is written.
    #[error("line {0} of the table: {1:?}")]
    Table(u32, ScriptFault),
    /// The line of the schedules of this number, counted in physical lines from 1, has this fault. What comes before it
    /// is written. A strict run has found this before it.
    #[error("line {1} of the schedules: {2:?}")]
    Schedules(Option<Finding>, u32, ScriptFault),
    /// A strict run has found this first. All is written.
    #[error("{0:?}")]
    Found(Finding),
}

/// Why a run on a table of streams and schedules ended early.
pub type BoundsFault = Fault<BoundsInput>;

impl Finding {
    /// What it is.
    fn kind(self) -> FaultKind
        ensures { result ≡ finding_kind self }
    {
        match self {
            Finding::TcFault(_) | Finding::Refused(_) => FaultKind::Found,
            Finding::Missed(_) | Finding::Unknown(_) | Finding::Dropped(_) => FaultKind::Found,
            Finding::Full(_) | Finding::Stuck(_) | Finding::Overloaded(_) => FaultKind::Found,
            Finding::NoSchedule => FaultKind::NoSchedule,
            Finding::NoStream => FaultKind::NoStream,
        }
    }
}

/// A fault that reading a table has, as one of the job.
pub fn table_fault(fault: RunFault) -> BoundsFault
    ensures { result ≡ table_fault fault }
{
    match fault {
        Fault::Input(bad) => Fault::Input(BoundsInput::Table(bad.line, bad.fault)),
        Fault::Read => Fault::Read,
        Fault::Write => Fault::Write,
        Fault::Memory => Fault::Memory,
    }
}

/// The fault of schedules whose line can't be read, where a strict run has found this before it.
pub fn schedules_fault(found: Option<Finding>, fault: LineFault) -> BoundsFault
    ensures { result ≡ schedules_fault found fault }
{
    match fault {
        LineFault::Limit(line, limit) => {
            Fault::Input(BoundsInput::Schedules(found, line, limit_fault(limit)))
        }
        LineFault::Read => Fault::Read,
    }
}

/// Writes what is found about a line, a stream or a class.
fn put_found<'a, W: Write>(
    writer: &mut W,
    what: &'a [u8],
    number: u64,
    found: &'a [u8],
) -> Result<(), WriteFault>
    ensures { Writes result (W.contents writer.old) (W.contents writer.new)
        (finding_text what.now number found.now) }
{
    put_parts(
        writer,
        &[
            Part::Text(b"taprio_port: bounds: "),
            Part::Text(what),
            Part::Number(u128::from(number)),
            Part::Text(found),
        ],
    )
}

/// Writes the text of a finding.
fn put_finding<W: Write>(writer: &mut W, finding: Finding) -> Result<(), WriteFault>
    ensures { Writes result (W.contents writer.old) (W.contents writer.new) (found_text finding) }
{
    match finding {
        Finding::TcFault(line) => put_found(writer, b"line ", u64::from(line), b": tc-fault\n"),
        Finding::Refused(line) => put_found(writer, b"line ", u64::from(line), b": refused\n"),
        Finding::Missed(id) => put_found(writer, b"stream ", id, b": deadline missed\n"),
        Finding::Unknown(id) => put_found(writer, b"stream ", id, b": deadline unknown\n"),
        Finding::Dropped(id) => put_found(writer, b"stream ", id, b": dropped\n"),
        Finding::Full(class) => put_found(writer, b"class ", u64::from(class), b": full\n"),
        Finding::Stuck(class) => put_found(writer, b"class ", u64::from(class), b": stuck\n"),
        Finding::Overloaded(class) => {
            put_found(writer, b"class ", u64::from(class), b": overloaded\n")
        }
        Finding::NoSchedule => put(writer, b"taprio_port: bounds: no schedule was judged\n"),
        Finding::NoStream => put(writer, b"taprio_port: bounds: no stream is in the table\n"),
    }
}

/// Writes the text of what was found before, if anything was.
fn put_first<W: Write>(writer: &mut W, found: Option<Finding>) -> Result<(), WriteFault>
    ensures { Writes result (W.contents writer.old) (W.contents writer.new) (first_text found) }
{
    match found {
        None => put(writer, b""),
        Some(finding) => put_finding(writer, finding),
    }
}

/// Writes the text of the fault of a line of the schedules, behind that of what was found before.
fn put_schedules<W: Write>(
    writer: &mut W,
    found: Option<Finding>,
    line: u32,
    fault: ScriptFault,
) -> Result<(), WriteFault>
    ensures { Writes result (W.contents writer.old) (W.contents writer.new)
        (schedules_text found line fault) }
{
    put_first(writer, found)?;
    put_line_fault(writer, b"taprio_port: script line ", line, fault)
}

impl InputFault for BoundsInput {
    ghost telling = { bounds_telling };

    ghost kind_of = { bounds_kind };

    fn status(&self) -> u8 {
        match self {
            BoundsInput::Table(..) | BoundsInput::Schedules(..) => 3,
            BoundsInput::Found(_) => 1,
        }
    }

    fn kind(&self) -> FaultKind {
        match *self {
            BoundsInput::Table(_, fault) => FaultKind::Line(fault.kind_in_table()),
            BoundsInput::Schedules(_, _, fault) => FaultKind::Line(fault.kind()),
            BoundsInput::Found(finding) => finding.kind(),
        }
    }

    fn put<W: Write>(&self, writer: &mut W) -> Result<(), WriteFault> {
        match *self {
            BoundsInput::Table(line, fault) => {
                put_line_fault(writer, b"taprio_port: table line ", line, fault)
            }
            BoundsInput::Schedules(found, line, fault) => {
                put_schedules(writer, found, line, fault)
            }
            BoundsInput::Found(finding) => put_finding(writer, finding),
        }
    }
}

impl LineInput for BoundsInput {
    ghost limited = { schedules_limited };

    fn of_limit(line: u32, limit: Limit) -> BoundsInput {
        BoundsInput::Schedules(None, line, limit_fault(limit))
    }
}
