//! What is wrong with the lines of the schedules of a network's ports.

ghost use Rattle.std.specs.Prelude.{◌≡◌};
ghost use Rattle.text.specs.Writes.{Writes};
ghost use Rattle.network.specs.ScheduleFaults.{line_kind_of, malformed_text, schedules_kind, schedules_telling, schedules_text};
ghost use Rattle.network.specs.Schedules.{bad_schedules, lines_fault, numbered_fault};

use crate::network_table::{put_named_fault, put_second_fault};
use job::{Fault, FaultKind, InputFault, LineKind};
use port_text::answer_text::{Part, WriteFault, put_parts, put_tc_fault};
use port_text::tc_reader::TcFault;
use script::{ScriptFault, limit_fault, put_line_fault};
use std::io::Write;
use text::line_reader::LineFault;
use thiserror::Error;

/// What the text of a fault begins with.
const SCHEDULES_LINE: &[u8] = b"taprio_port: schedules line ";

/// What is wrong with a line of the schedules of a network's ports.
#[derive(Clone, Copy, Debug, PartialEq, Eq)]
pub enum SchedulesFault {
    /// What a line of other schedules may have, too: it has too many octets, or is one too many, or its first word is
    /// not `tc`.
    Line(ScriptFault),
    /// It is no command.
    Malformed(TcFault),
    /// It deletes a schedule: no port is bounded without one.
    Deletion,
    /// The network has no port of this name.
    UnknownPort,
    /// No stream crosses the port.
    Uncrossed,
    /// The line of this number is a command for the same port, already.
    SecondSchedule(u32),
}

/// The line of the schedules of this number, counted in physical lines from 1, has this fault.
#[derive(Clone, Copy, Debug, PartialEq, Eq, Error)]
#[error("line {line} of the schedules: {fault:?}")]
pub struct BadSchedules {
    /// The number of the line.
    pub line: u32,
    /// What is wrong with it.
    pub fault: SchedulesFault,
}

/// Why reading schedules ended early.
pub type SchedulesRunFault = Fault<BadSchedules>;

impl BadSchedules {
    /// The line of this number has this fault.
    pub fn new(line: u32, fault: SchedulesFault) -> BadSchedules
        ensures { result ≡ bad_schedules line fault }
    {
        BadSchedules { line, fault }
    }
}

/// The fault of the line of a number, which couldn't be taken for this.
pub(crate) fn numbered_fault(line: u32, why: Fault<SchedulesFault>) -> SchedulesRunFault
    ensures { result ≡ numbered_fault line why }
{
    match why {
        Fault::Input(fault) => Fault::Input(BadSchedules::new(line, fault)),
        Fault::Read => Fault::Read,
        Fault::Write => Fault::Write,
        Fault::Memory => Fault::Memory,
    }
}

/// The fault of lines that can't be read.
pub(crate) fn lines_fault(fault: LineFault) -> SchedulesRunFault
    ensures { result ≡ lines_fault fault }
{
    match fault {
        LineFault::Limit(line, limit) => Fault::Input(BadSchedules::new(
            line,
            SchedulesFault::Line(limit_fault(limit)),
        )),
        LineFault::Read => Fault::Read,
    }
}

/// Writes the text of a line that is no command: the answer to such a line, behind the number of this one.
fn put_malformed<W: Write>(writer: &mut W, line: u32, fault: TcFault) -> Result<(), WriteFault>
    ensures { Writes result (W.contents writer.old) (W.contents writer.new)
        (malformed_text line fault) }
{
    put_parts(
        writer,
        &[
            Part::Text(SCHEDULES_LINE),
            Part::Number(u128::from(line)),
            Part::Text(b": "),
        ],
    )?;
    put_tc_fault(writer, fault)
}

/// Writes the text of the fault of the line of a number.
fn put_schedules_fault<W: Write>(
    writer: &mut W,
    line: u32,
    fault: SchedulesFault,
) -> Result<(), WriteFault>
    ensures { Writes result (W.contents writer.old) (W.contents writer.new)
        (schedules_text line fault) }
{
    match fault {
        SchedulesFault::Line(fault) => put_line_fault(writer, SCHEDULES_LINE, line, fault),
        SchedulesFault::Malformed(fault) => put_malformed(writer, line, fault),
        SchedulesFault::Deletion => put_named_fault(writer, SCHEDULES_LINE, line, b"Deletion"),
        SchedulesFault::UnknownPort => put_named_fault(
            writer,
            SCHEDULES_LINE,
            line,
            b"UnknownPort",
        ),
        SchedulesFault::Uncrossed => put_named_fault(writer, SCHEDULES_LINE, line, b"Uncrossed"),
        SchedulesFault::SecondSchedule(other) => {
            put_second_fault(writer, SCHEDULES_LINE, line, b"SecondSchedule", other)
        }
    }
}

impl SchedulesFault {
    /// What it is.
    fn kind(self) -> LineKind
        ensures { result ≡ line_kind_of self }
    {
        match self {
            SchedulesFault::Line(fault) => fault.kind(),
            SchedulesFault::Malformed(_) => LineKind::NoCommand,
            SchedulesFault::Deletion => LineKind::Deletion,
            SchedulesFault::UnknownPort => LineKind::UnknownPort,
            SchedulesFault::Uncrossed => LineKind::Uncrossed,
            SchedulesFault::SecondSchedule(_) => LineKind::SecondSchedule,
        }
    }
}

impl InputFault for BadSchedules {
    ghost telling = { schedules_telling };

    ghost kind_of = { schedules_kind };

    fn status(&self) -> u8 {
        3
    }

    fn kind(&self) -> FaultKind {
        FaultKind::Line(self.fault.kind())
    }

    fn put<W: Write>(&self, writer: &mut W) -> Result<(), WriteFault> {
        put_schedules_fault(writer, self.line, self.fault)
    }
}
